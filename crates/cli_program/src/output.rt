ghost use Rattle.std.specs.Prelude.{◌≡◌, ◌<◌, ◌≤◌, false};

use crate::failure::Failure;
use client_vm::{Sink, write_all};
use std::alloc::Global;

/// Prints a text.
pub fn print<'a, O: Sink>(out: &mut O, text: &[u8]) -> Result<(), Failure<'a>>
    requires works { O.has_failed out.old ≡ false }
{
    match write_all(out, text) {
        Ok(()) => Ok(()),
        Err(_) => Err(Failure::Output),
    }
}

/// Writes the message for a failure, and returns the status. If there is no memory for the message, or the error output fails,
/// only the status reports the failure.
pub fn report<E: Sink>(alloc: Global, failure: &Failure, err: &mut E) -> u8
    requires works { E.has_failed err.old ≡ false }
    ensures status { (0 < result) × (result ≤ 3) }
{
    tell_failure(alloc, failure, err);
    failure.status()
}

/// Writes the message for a failure, if there is memory for it.
pub fn tell_failure<E: Sink>(alloc: Global, failure: &Failure, err: &mut E)
    requires works { E.has_failed err.old ≡ false }
{
    if let Ok(line) = failure.line(alloc) {
        tell(err, line.as_bytes());
    }
}

/// Writes a text to the error output. A failure is ignored.
pub fn tell<E: Sink>(err: &mut E, text: &[u8])
    requires works { E.has_failed err.old ≡ false }
{
    let _ = write_all(err, text);
}
