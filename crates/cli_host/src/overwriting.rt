//! Refusals to overwrite files.

ghost use Rattle.std.specs.Prelude.{◌≡◌};

use crate::files::Files;
use crate::named::FileFailure;
use crate::problem::{FileProblem, Format};
use std::alloc::Global;

/// Refuses to write to a file that the command reads.
pub fn refuse_input<'a, F: Files>(
    files: &mut F,
    name: &'a str,
    input: &str,
) -> Result<(), FileFailure<'a>>
    ensures nothing_read { F.was_read files.new ≡ F.was_read files.old }
    ensures nothing_written { F.was_written files.new ≡ F.was_written files.old }
{
    if is_same_file(files, name, input)? {
        return Err(FileFailure::File(name, FileProblem::Input));
    }
    Ok(())
}

/// Whether both names refer to one plain file.
pub fn is_same_file<'a, F: Files>(
    files: &mut F,
    name: &'a str,
    other: &str,
) -> Result<bool, FileFailure<'a>>
    ensures nothing_read { F.was_read files.new ≡ F.was_read files.old }
    ensures nothing_written { F.was_written files.new ≡ F.was_written files.old }
{
    match files.is_same(name, other) {
        Ok(same) => Ok(same),
        Err(fault) => Err(FileFailure::of(name, fault)),
    }
}

/// Refuses to overwrite a plain file that isn't empty and isn't of the format.
pub fn refuse_other_format<'a, F: Files>(
    alloc: Global,
    files: &mut F,
    name: &'a str,
    format: Format,
) -> Result<(), FileFailure<'a>>
    ensures nothing_read { F.was_read files.new ≡ F.was_read files.old }
    ensures nothing_written { F.was_written files.new ≡ F.was_written files.old }
{
    let magic = format.magic().as_bytes();
    match files.front(alloc, name, magic.len() as u64) {
        Ok(front) if front.is_empty() || front.as_slice() == magic => Ok(()),
        Ok(_) => Err(FileFailure::File(name, FileProblem::OtherFormat(format))),
        Err(fault) => Err(FileFailure::of(name, fault)),
    }
}
