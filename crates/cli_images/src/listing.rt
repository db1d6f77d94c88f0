//! Listings of a segment's contents, as text.

use crate::door::unique_value;
use cli_host::{Pace, Watch, Work};
use cli_program::Failure;
use cli_show::{
    Detail, Extent, Statistic, details, heap_lines, objects_text, picture, statistic_lines,
    type_words,
};
use lezgauri::{Image, ImageRead, MAX_TYPES, Named, TypeId};
use std::alloc::{AllocError, Global};

/// The bytes of a segment, of its free memory and of its largest free block, and the number of its objects.
fn statistics(image: &Image<Global>) -> [Statistic; 5] {
    let unique = u32::try_from(image.num_unique()).unwrap_or(u32::MAX);
    [
        Statistic::number("size", image.size()),
        Statistic::number("free", image.free_memory()),
        Statistic::number("largest", image.largest_gap()),
        Statistic::number("named", image.num_named()),
        Statistic::number("unique", unique),
    ]
}

/// The numbers of `statistics`, and further ones: the version of the image's file, and how its heap is used.
pub(crate) fn all_statistics(
    alloc: Global,
    image: &Image<Global>,
    version: u32,
    watch: &dyn Watch,
) -> Result<Vec<Statistic>, AllocError> {
    let mut all = Vec::from_slice(alloc, &statistics(image))?;
    let further = match image {
        Image::Seq(segment) => details(alloc, segment, version, watch)?,
        Image::Best(segment) => details(alloc, segment, version, watch)?,
    };
    all.extend_from_slice(further.as_slice())?;
    Ok(all)
}

/// The most important numbers of a segment, or all of them, a line each.
pub(crate) fn numbers(
    alloc: Global,
    image: &Image<Global>,
    version: u32,
    all: bool,
    watch: &dyn Watch,
) -> Result<Vec<u8>, AllocError> {
    if all {
        statistic_lines(
            alloc,
            all_statistics(alloc, image, version, watch)?.as_slice(),
        )
    } else {
        statistic_lines(alloc, &statistics(image))
    }
}

/// The names in ascending order with types and counts, and then the types of unique objects, a line each. If `typed`, each type's
/// words are at the end of the line.
pub(crate) fn objects(
    alloc: Global,
    image: &Image<Global>,
    typed: bool,
    watch: &dyn Watch,
) -> Result<Vec<u8>, AllocError> {
    let mut lines = Vec::new(alloc);
    add_named(&mut lines, alloc, image, typed, watch)?;
    for t in 0..MAX_TYPES as TypeId {
        if unique_value(image, t).is_some() {
            lines.extend_from_slice(format!(in alloc; "unique {t}")?.as_bytes())?;
            end_line(&mut lines, alloc, image, t, typed)?;
        }
    }
    Ok(lines)
}

fn add_named(
    lines: &mut Vec<u8>,
    alloc: Global,
    image: &Image<Global>,
    typed: bool,
    watch: &dyn Watch,
) -> Result<(), AllocError> {
    let mut pace = Pace::new();
    let mut number: u64 = 0;
    for named in image.names() {
        pace.show(watch, Work::Listing, number, u64::from(image.num_named()));
        number = number.saturating_add(1);
        let Named {
            name,
            type_id,
            count,
        } = named;
        lines.extend_from_slice(name)?;
        lines.extend_from_slice(format!(in alloc; " {type_id} {count}")?.as_bytes())?;
        end_line(lines, alloc, image, type_id, typed)?;
    }
    Ok(())
}

/// Ends the line of an object, with its type in words if `typed`.
fn end_line(
    lines: &mut Vec<u8>,
    alloc: Global,
    image: &Image<Global>,
    t: TypeId,
    typed: bool,
) -> Result<(), AllocError> {
    if typed {
        lines.extend_from_slice(b" ")?;
        lines.extend_from_slice(type_words(alloc, image.types(), t)?.as_slice())?;
    }
    lines.extend_from_slice(b"\n")
}

/// How `show` shows objects.
pub(crate) fn detail(whole: bool, typed: bool) -> Detail {
    let extent = if whole { Extent::All } else { Extent::Cut };
    Detail { extent, typed }
}

/// The objects with their values, a line for each value: all objects, or those that a name or a pattern selects. `None` if nothing
/// is selected.
pub(crate) fn shown(
    alloc: Global,
    image: &Image<Global>,
    name: Option<&str>,
    detail: Detail,
    watch: &dyn Watch,
) -> Result<Option<Vec<u8>>, AllocError> {
    let name = bytes_of(name);
    match image {
        Image::Seq(segment) => objects_text(alloc, segment, name, detail, watch),
        Image::Best(segment) => objects_text(alloc, segment, name, detail, watch),
    }
}

/// The bytes of a name, if there is one.
pub(crate) fn bytes_of(name: Option<&str>) -> Option<&[u8]> {
    match name {
        Some(name) => Some(name.as_bytes()),
        None => None,
    }
}

/// The text about what has a name or a path, or that nothing has it.
pub(crate) fn found<'a>(
    text: Option<Vec<u8>>,
    name: Option<&'a str>,
) -> Result<Vec<u8>, Failure<'a>> {
    match text {
        Some(text) => Ok(text),
        None => Err(Failure::Absent(name.unwrap_or(""))),
    }
}

/// The heap's blocks, a line each.
pub(crate) fn blocks(
    alloc: Global,
    image: &Image<Global>,
    watch: &dyn Watch,
) -> Result<Vec<u8>, AllocError> {
    match image {
        Image::Seq(segment) => heap_lines(alloc, segment, watch),
        Image::Best(segment) => heap_lines(alloc, segment, watch),
    }
}

/// The heap as an SVG picture.
pub(crate) fn pictured(
    alloc: Global,
    image: &Image<Global>,
    watch: &dyn Watch,
) -> Result<Vec<u8>, AllocError> {
    match image {
        Image::Seq(segment) => picture(alloc, segment, watch),
        Image::Best(segment) => picture(alloc, segment, watch),
    }
}

/// A line with the new size of a segment, in bytes.
pub(crate) fn size(alloc: Global, size: u32) -> Result<Vec<u8>, AllocError> {
    Ok(format!(in alloc; "size {size}\n")?.into_bytes())
}
