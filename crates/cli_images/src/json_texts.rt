//! What commands print as JSON.

use crate::listing::{all_statistics, bytes_of, found};
use cli_host::{JsonTask, Watch};
use cli_program::Failure;
use cli_show::{heap_json, list_json, objects_json, soundness_json, statistics_json, types_json};
use lezgauri::{Fault, Image, ImageRead};
use std::alloc::{AllocError, Global};

/// The text of a task. The image's file has this version.
pub(crate) fn json_of<'a>(
    alloc: Global,
    image: &Image<Global>,
    version: u32,
    task: JsonTask<'a>,
    watch: &dyn Watch,
) -> Result<Vec<u8>, Failure<'a>> {
    match task {
        JsonTask::Check => Ok(soundness_json(alloc, None)?),
        JsonTask::Stat => {
            let statistics = all_statistics(alloc, image, version, watch)?;
            Ok(statistics_json(alloc, statistics.as_slice())?)
        }
        JsonTask::List => Ok(list(alloc, image, watch)?),
        JsonTask::Types => Ok(types_json(alloc, image.types())?),
        JsonTask::Show { name } => found(shown(alloc, image, name, watch)?, name),
        JsonTask::Map => Ok(map(alloc, image, watch)?),
    }
}

/// That an image isn't sound, and its fault. `None` if the check wasn't possible.
pub(crate) fn unsound(alloc: Global, fault: Fault) -> Result<Option<Vec<u8>>, AllocError> {
    let at = match fault {
        Fault::BadHeader => None,
        Fault::BadType(at)
        | Fault::BadBlock(at)
        | Fault::BadFree(at)
        | Fault::BadIndex(at)
        | Fault::BadPointer(at)
        | Fault::DoubleOwner(at)
        | Fault::Unowned(at)
        | Fault::BadValue(at) => Some(at),
        // an image has no other faults
        _ => return Ok(None),
    };
    Ok(Some(soundness_json(alloc, Some((fault.code(), at)))?))
}

fn list(alloc: Global, image: &Image<Global>, watch: &dyn Watch) -> Result<Vec<u8>, AllocError> {
    match image {
        Image::Seq(segment) => list_json(alloc, segment, watch),
        Image::Best(segment) => list_json(alloc, segment, watch),
    }
}

fn map(alloc: Global, image: &Image<Global>, watch: &dyn Watch) -> Result<Vec<u8>, AllocError> {
    match image {
        Image::Seq(segment) => heap_json(alloc, segment, watch),
        Image::Best(segment) => heap_json(alloc, segment, watch),
    }
}

/// The objects that a name or a pattern selects, or all objects. `None` if nothing is selected.
fn shown(
    alloc: Global,
    image: &Image<Global>,
    name: Option<&str>,
    watch: &dyn Watch,
) -> Result<Option<Vec<u8>>, AllocError> {
    let name = bytes_of(name);
    match image {
        Image::Seq(segment) => objects_json(alloc, segment, name, watch),
        Image::Best(segment) => objects_json(alloc, segment, name, watch),
    }
}
