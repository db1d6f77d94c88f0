//! The commands on images.

ghost use Rattle.std.specs.Prelude.{◌≡◌, false};

use crate::door::opened;
use crate::json_texts::unsound;
use crate::loading::{Unloaded, loaded};
use crate::made::{Made, made_of, new_image};
use crate::texts::differences;
use cli_host::{
    FileFailure, Files, Format, ImageTask, JsonTask, Load, NewImage, Picture, Watch, read_image,
    refuse_input, refuse_other_format, write_file,
};
use cli_program::{Failure, print};
use lezgauri::{Fault, Sink};
use std::alloc::Global;

/// `new FILE SIZE ALG INDEX [--force]`: writes the image of an empty segment.
pub fn new_file<'a, F: Files>(
    alloc: Global,
    new: &NewImage<'a>,
    files: &mut F,
) -> Result<(), Failure<'a>> {
    if !new.forced {
        refuse_other_format(alloc, files, new.file, Format::Image)?;
    }
    let image = new_image(alloc, new)?;
    Ok(write_file(files, new.file, image.as_slice())?)
}

/// `diff FILE OTHER`: prints the values in which two images differ.
pub fn compare_files<'a, F: Files, O: Sink>(
    alloc: Global,
    one: &'a str,
    other: &'a str,
    files: &mut F,
    out: &mut O,
    watch: &dyn Watch,
) -> Result<(), Failure<'a>>
    requires works { O.has_failed out.old ≡ false }
{
    let one = read_image(alloc, files, one)?;
    let other = read_image(alloc, files, other)?;
    let text = compared(alloc, one, other, watch)?;
    print(out, text.as_slice())
}

/// The lines of the differences between two images.
fn compared(
    alloc: Global,
    one: Vec<u8>,
    other: Vec<u8>,
    watch: &dyn Watch,
) -> Result<Vec<u8>, Fault> {
    let (one, other) = (opened(alloc, one, watch)?, opened(alloc, other, watch)?);
    Ok(differences(alloc, &one, &other, watch)?)
}

/// `load TEXT FILE [--force]`: makes the image that a dump describes. Refuses to write over the text, and without `--force` over
/// a file that isn't an image.
pub fn load_file<'a, F: Files>(
    alloc: Global,
    load: &Load<'a>,
    files: &mut F,
    watch: &dyn Watch,
) -> Result<(), Failure<'a>> {
    let text = read_image(alloc, files, load.text)?;
    refuse_input(files, load.image, load.text)?;
    if !load.forced {
        refuse_other_format(alloc, files, load.image, Format::Image)?;
    }
    match loaded(alloc, text.as_slice(), watch) {
        Ok(image) => Ok(write_file(files, load.image, image.as_slice())?),
        Err(Unloaded::Full) => Err(Failure::Full(load.image)),
        Err(Unloaded::Fault(fault)) => Err(Failure::from(fault)),
    }
}

/// The commands on one image: prints the task's text, writes its picture if it has one, and rewrites the image's file if the
/// image changes.
pub fn image_file<'a, F: Files, O: Sink>(
    alloc: Global,
    file: &'a str,
    task: ImageTask<'a>,
    files: &mut F,
    out: &mut O,
    watch: &dyn Watch,
) -> Result<(), Failure<'a>>
    requires works { O.has_failed out.old ≡ false }
{
    let image = read_image(alloc, files, file)?;
    let picture = picture_of(task);
    if let Some(picture) = picture {
        check_picture(alloc, file, picture, files)?;
    }
    let made = match made_of(alloc, image, task, watch) {
        Ok(made) => made,
        Err(failure) => return fail(alloc, failure, task, out),
    };
    match picture {
        Some(picture) => Ok(write_file(files, picture.file, made.text.as_slice())?),
        None => give(file, &made, files, out),
    }
}

/// Fails, after `check --json` printed that the image isn't sound.
fn fail<'a, O: Sink>(
    alloc: Global,
    failure: Failure<'a>,
    task: ImageTask<'a>,
    out: &mut O,
) -> Result<(), Failure<'a>>
    requires works { O.has_failed out.old ≡ false }
{
    if let (Some(fault), ImageTask::Json(JsonTask::Check)) = (fault_of(&failure), task) {
        if let Some(text) = unsound(alloc, fault)? {
            print(out, text.as_slice())?;
        }
    }
    Err(failure)
}

fn fault_of(failure: &Failure) -> Option<Fault> {
    match failure {
        Failure::Refused(refused) => Some(refused.fault),
        _ => None,
    }
}

/// Refuses to write a picture over its image, and over a file that isn't a picture.
fn check_picture<'a, F: Files>(
    alloc: Global,
    image: &str,
    picture: Picture<'a>,
    files: &mut F,
) -> Result<(), FileFailure<'a>> {
    refuse_input(files, picture.file, image)?;
    if picture.forced {
        return Ok(());
    }
    refuse_other_format(alloc, files, picture.file, Format::Picture)
}

/// The picture that a task writes, if it writes one.
fn picture_of<'a>(task: ImageTask<'a>) -> Option<Picture<'a>> {
    match task {
        ImageTask::Picture(picture) => Some(picture),
        ImageTask::Check
        | ImageTask::Json(_)
        | ImageTask::Stat { .. }
        | ImageTask::List { .. }
        | ImageTask::Types
        | ImageTask::Show { .. }
        | ImageTask::Get { .. }
        | ImageTask::Dump
        | ImageTask::Set { .. }
        | ImageTask::Delete { .. }
        | ImageTask::Map
        | ImageTask::Grow { .. }
        | ImageTask::Shrink
        | ImageTask::Upgrade => None,
    }
}

/// Prints a text, and rewrites the file if there is a new image, even if the output fails.
fn give<'a, F: Files, O: Sink>(
    file: &'a str,
    made: &Made,
    files: &mut F,
    out: &mut O,
) -> Result<(), Failure<'a>>
    requires works { O.has_failed out.old ≡ false }
{
    let printed = print(out, made.text.as_slice());
    if let Some(image) = &made.image {
        let written = write_file(files, file, image.as_slice());
        printed?;
        return Ok(written?);
    }
    printed
}
