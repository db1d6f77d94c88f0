ghost use Rattle.std.specs.Prelude.{◌≡◌, [], ◌∷◌, length, map, IfOk, OnOk, OnErr};
ghost use Rattle.cli_host.specs.Accesses.{AddsAccesses, access, accesses_of};

use crate::files::{FileFault, Files};
use crate::problem::FileProblem;
use std::alloc::Global;

/// The most bytes of an image (1 GiB).
const MAX_IMAGE: u64 = 1 << 30;

/// The most bytes of a client, a text or the input (1 MiB).
const MAX_FILE: u64 = 1 << 20;

/// Why a file wasn't read or written.
#[derive(Clone, Copy)]
pub enum FileFailure<'a> {
    /// The program is out of memory.
    Memory,
    /// The file with this name can't be read or written, for this reason.
    File(&'a str, FileProblem),
}

impl<'a> FileFailure<'a> {
    pub(crate) fn of(name: &'a str, fault: FileFault) -> FileFailure<'a> {
        match fault {
            FileFault::Memory => FileFailure::Memory,
            FileFault::Failed(problem) => FileFailure::File(name, problem),
        }
    }
}

/// The bytes of an image.
pub fn read_image<'a, F: Files>(
    alloc: Global,
    files: &mut F,
    name: &'a str,
) -> Result<Vec<u8>, FileFailure<'a>>
    ensures read { IfOk result (λ bytes. AddsAccesses (F.was_read files.old) (F.was_read files.new)
        (access name.now bytes.items ∷ [])) }
    ensures nothing_read { OnErr result (F.was_read files.new ≡ F.was_read files.old) }
    ensures nothing_written { F.was_written files.new ≡ F.was_written files.old }
{
    read(alloc, files, name, MAX_IMAGE)
}

/// The bytes of a client, of a text or of the input.
pub fn read_file<'a, F: Files>(
    alloc: Global,
    files: &mut F,
    name: &'a str,
) -> Result<Vec<u8>, FileFailure<'a>>
    ensures read { IfOk result (λ bytes. AddsAccesses (F.was_read files.old) (F.was_read files.new)
        (access name.now bytes.items ∷ [])) }
    ensures nothing_read { OnErr result (F.was_read files.new ≡ F.was_read files.old) }
    ensures nothing_written { F.was_written files.new ≡ F.was_written files.old }
{
    read(alloc, files, name, MAX_FILE)
}

/// The bytes of several files, clients or texts, in order.
pub fn read_files<'a, F: Files>(
    alloc: Global,
    files: &mut F,
    names: &[&'a str],
) -> Result<Vec<Vec<u8>>, FileFailure<'a>>
    ensures all { IfOk result (λ all. length all.items ≡ length names.now) }
    ensures read { IfOk result (λ all. AddsAccesses (F.was_read files.old) (F.was_read files.new)
        (accesses_of (map (λ name. name.now) names.now) (map (λ bytes. bytes.items) all.items))) }
    ensures nothing_written { F.was_written files.new ≡ F.was_written files.old }
{
    let mut all = Vec::new(alloc);
    for name in names {
        let bytes = read_file(alloc, files, name)?;
        if all.push(bytes).is_err() {
            return Err(FileFailure::Memory);
        }
    }
    Ok(all)
}

/// Makes or replaces a file.
pub fn write_file<'a, F: Files>(
    files: &mut F,
    name: &'a str,
    bytes: &[u8],
) -> Result<(), FileFailure<'a>>
    ensures written { OnOk result (AddsAccesses (F.was_written files.old) (F.was_written files.new)
        (access name.now bytes.now ∷ [])) }
    ensures nothing_written { OnErr result (F.was_written files.new ≡ F.was_written files.old) }
    ensures nothing_read { F.was_read files.new ≡ F.was_read files.old }
{
    match files.write(name, bytes) {
        Ok(()) => Ok(()),
        Err(fault) => Err(FileFailure::of(name, fault)),
    }
}

fn read<'a, F: Files>(
    alloc: Global,
    files: &mut F,
    name: &'a str,
    limit: u64,
) -> Result<Vec<u8>, FileFailure<'a>>
    ensures read { IfOk result (λ bytes. AddsAccesses (F.was_read files.old) (F.was_read files.new)
        (access name.now bytes.items ∷ [])) }
    ensures nothing_read { OnErr result (F.was_read files.new ≡ F.was_read files.old) }
    ensures nothing_written { F.was_written files.new ≡ F.was_written files.old }
{
    match files.read(alloc, name, limit) {
        Ok(bytes) => Ok(bytes),
        Err(fault) => Err(FileFailure::of(name, fault)),
    }
}
