//! The results of tasks on images.

use crate::door::{created, grown, opened, shrunk};
use crate::editing::{Unset, delete, set};
use crate::json_texts::json_of;
use crate::listing::{blocks, detail, found, numbers, objects, pictured, shown, size};
use crate::texts::{dumped, values_at};
use cli_host::{Allocator, ImageTask, Index, NewImage, Watch};
use cli_program::Failure;
use cli_show::type_lines;
use lezgauri::{AllocatorKind, Fault, Image, ImageRead, IndexKind};
use std::alloc::Global;

/// The result of a task on an image: a text, and the image to save if it changes.
#[derive(Drop)]
pub(crate) struct Made {
    pub text: Vec<u8>,
    pub image: Option<Vec<u8>>,
}

/// The image of an empty segment.
pub(crate) fn new_image(alloc: Global, new: &NewImage) -> Result<Vec<u8>, Fault> {
    let allocator = match new.allocator {
        Allocator::Seq => AllocatorKind::Seq,
        Allocator::Best => AllocatorKind::Best,
    };
    let index = match new.index {
        Index::Flat => IndexKind::Flat,
        Index::Tree => IndexKind::Tree,
    };
    Ok(created(alloc, new.size, allocator, index)?.into_bytes())
}

/// Does a task on an image.
pub(crate) fn made_of<'a>(
    alloc: Global,
    bytes: Vec<u8>,
    task: ImageTask<'a>,
    watch: &dyn Watch,
) -> Result<Made, Failure<'a>> {
    let version = version_of(bytes.as_slice());
    let mut image = opened(alloc, bytes, watch)?;
    let text = text_of(alloc, &mut image, version, task, watch)?;
    let image = if is_change(task) {
        Some(image.into_bytes())
    } else {
        None
    };
    Ok(Made { text, image })
}

/// The version of an image, if the bytes are one.
fn version_of(bytes: &[u8]) -> u32 {
    match bytes.get(8..12) {
        Some([a, b, c, d]) => u32::from_le_bytes([*a, *b, *c, *d]),
        Some(_) | None => 0,
    }
}

/// Does a task, and returns the text to print. The image's file has this version.
fn text_of<'a>(
    alloc: Global,
    image: &mut Image<Global>,
    version: u32,
    task: ImageTask<'a>,
    watch: &dyn Watch,
) -> Result<Vec<u8>, Failure<'a>> {
    match task {
        ImageTask::Check => Ok(Vec::from_slice(alloc, b"ok\n")?),
        ImageTask::Json(task) => json_of(alloc, image, version, task, watch),
        ImageTask::Stat { all } => Ok(numbers(alloc, image, version, all, watch)?),
        ImageTask::List { typed } => Ok(objects(alloc, image, typed, watch)?),
        ImageTask::Types => Ok(type_lines(alloc, image.types())?),
        ImageTask::Show { name, whole, typed } => {
            found(
                shown(alloc, image, name, detail(whole, typed), watch)?,
                name,
            )
        }
        ImageTask::Get { path } => {
            found(values_at(alloc, image, path.as_bytes(), watch)?, Some(path))
        }
        ImageTask::Set { path, value } => {
            let done = set(alloc, image, path.as_bytes(), value.as_bytes());
            changed(alloc, done, path)
        }
        ImageTask::Delete { path } => changed(alloc, delete(image, path.as_bytes()), path),
        ImageTask::Dump => Ok(dumped(alloc, image, watch)?),
        ImageTask::Map => Ok(blocks(alloc, image, watch)?),
        ImageTask::Picture(_) => Ok(pictured(alloc, image, watch)?),
        ImageTask::Grow { extra } => Ok(size(alloc, grown(image, extra)?)?),
        ImageTask::Shrink => Ok(size(alloc, shrunk(image))?),
        // opening an image upgrades it to version 2
        ImageTask::Upgrade => Ok(Vec::from_slice(alloc, b"version 2\n")?),
    }
}

/// The text to print after a change of the value with this path, which is empty.
fn changed<'a>(
    alloc: Global,
    done: Result<(), Unset>,
    path: &'a str,
) -> Result<Vec<u8>, Failure<'a>> {
    match done {
        Ok(()) => Ok(Vec::new(alloc)),
        Err(unset) => Err(unset.failure(alloc, path)),
    }
}

/// Whether a task changes the image.
fn is_change(task: ImageTask) -> bool {
    match task {
        ImageTask::Set { .. }
        | ImageTask::Delete { .. }
        | ImageTask::Grow { .. }
        | ImageTask::Shrink
        | ImageTask::Upgrade => true,
        ImageTask::Check
        | ImageTask::Json(_)
        | ImageTask::Stat { .. }
        | ImageTask::List { .. }
        | ImageTask::Types
        | ImageTask::Show { .. }
        | ImageTask::Get { .. }
        | ImageTask::Dump
        | ImageTask::Map
        | ImageTask::Picture(_) => false,
    }
}
