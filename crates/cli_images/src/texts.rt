//! Values, whole contents and differences, as text.

use crate::paths::{Start, start_of, value_at, value_of};
use cli_host::Watch;
use cli_show::{difference, dump, value_lines};
use lezgauri::{Image, Place};
use std::alloc::{AllocError, Global};

/// The value of a path, or all values of its object. `None` if no value has the path.
pub(crate) fn values_at(
    alloc: Global,
    image: &Image<Global>,
    path: &[u8],
    watch: &dyn Watch,
) -> Result<Option<Vec<u8>>, AllocError> {
    if let Some(start) = start_of(image, path) {
        if start.steps.is_empty() {
            let all = all_values(alloc, image, start)?;
            return Ok(Some(values(alloc, image, all.as_slice(), watch)?));
        }
    }
    match value_at(image, path) {
        Some(place) => Ok(Some(values(alloc, image, &[place], watch)?)),
        None => Ok(None),
    }
}

/// The places of all values of an object.
fn all_values(
    alloc: Global,
    image: &Image<Global>,
    start: Start,
) -> Result<Vec<Place>, AllocError> {
    let mut places = Vec::new(alloc);
    for index in 0..start.count {
        if let Some(place) = value_of(image, start, index) {
            places.push(place)?;
        }
    }
    Ok(places)
}

/// The values at these places, one after the other.
fn values(
    alloc: Global,
    image: &Image<Global>,
    places: &[Place],
    watch: &dyn Watch,
) -> Result<Vec<u8>, AllocError> {
    match image {
        Image::Seq(segment) => value_lines(alloc, segment, places, watch),
        Image::Best(segment) => value_lines(alloc, segment, places, watch),
    }
}

/// The content as a text that can be loaded.
pub(crate) fn dumped(
    alloc: Global,
    image: &Image<Global>,
    watch: &dyn Watch,
) -> Result<Vec<u8>, AllocError> {
    match image {
        Image::Seq(segment) => dump(alloc, segment, watch),
        Image::Best(segment) => dump(alloc, segment, watch),
    }
}

/// A line for each value in which two images differ.
pub(crate) fn differences(
    alloc: Global,
    one: &Image<Global>,
    other: &Image<Global>,
    watch: &dyn Watch,
) -> Result<Vec<u8>, AllocError> {
    match (one, other) {
        (Image::Seq(one), Image::Seq(other)) => difference(alloc, one, other, watch),
        (Image::Seq(one), Image::Best(other)) => difference(alloc, one, other, watch),
        (Image::Best(one), Image::Seq(other)) => difference(alloc, one, other, watch),
        (Image::Best(one), Image::Best(other)) => difference(alloc, one, other, watch),
    }
}
