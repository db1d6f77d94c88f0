ghost use Rattle.std.specs.Prelude.{◌≡◌, false};

use crate::output::tell;
use client_vm::Sink;
use std::rt::Env;
use std::{env, io};

/// The arguments of the command line, with the program's name first.
pub fn words(rt: &(impl Env + AllocGlobal)) -> io::Result<Vec<String>> {
    Ok(env::args(rt)?.collect(rt.alloc())?)
}

/// Reports why the arguments can't be read (out of memory, or one isn't text), and returns the status.
pub fn refuse<E: Sink>(error: &io::Error, err: &mut E) -> u8
    requires { E.has_failed err.old ≡ false }
{
    if error.kind() == io::ErrorKind::OutOfMemory {
        tell(err, b"fault 1\n");
        1
    } else {
        tell(err, b"error: a word of the command line isn't text\n");
        2
    }
}
