ghost use Rattle.std.specs.Prelude.{◌≡◌, [], ◌∷◌, OnOk, IfErr};
ghost use Rattle.cli_host.specs.Accesses.{AddsAccesses, access};
ghost use Rattle.cli_program.specs.Failures.{IsUnsaved};

use crate::failure::Failure;
use cli_host::{Files, write_file};
use client_vm::Ended;

/// Writes the saved image, also if the clients' output failed, unless the file is kept then; that is the failure then.
pub fn save<'a, F: Files>(
    files: &mut F,
    name: &'a str,
    image: &[u8],
    ended: Ended,
    keeps_on_failure: bool,
) -> Result<(), Failure<'a>>
    ensures done { OnOk result (ended ≡ Ended.Done) }
    ensures saved { OnOk result (AddsAccesses (F.was_written files.old) (F.was_written files.new)
        (access name.now image.now ∷ [])) }
    ensures unsaved { IfErr result (IsUnsaved (F.was_written files.old) (F.was_written files.new)
        (access name.now image.now) ended keeps_on_failure) }
    ensures nothing_read { F.was_read files.new ≡ F.was_read files.old }
{
    match ended {
        Ended::Done => Ok(write_file(files, name, image)?),
        Ended::OutputFailed if keeps_on_failure => Err(Failure::Output),
        Ended::OutputFailed => {
            let _ = write_file(files, name, image);
            Err(Failure::Output)
        }
    }
}
