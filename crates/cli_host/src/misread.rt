use clap::error::ErrorKind;
use std::alloc::{AllocError, AllocFailed, Global};

/// Why a command line makes no request.
#[derive(Drop)]
pub enum Misread {
    /// The program is out of memory.
    Memory,
    /// The arguments are wrong: why, and how the command is used.
    Words(String),
}

impl Misread {
    pub fn of(alloc: Global, error: &clap::Error) -> Misread {
        if error.kind() == ErrorKind::OutOfMemory {
            return Misread::Memory;
        }
        match error.to_string(alloc) {
            Ok(text) => Misread::Words(text),
            Err(_) => Misread::Memory,
        }
    }
}

impl From<AllocError> for Misread {
    fn from(_: AllocError) -> Misread {
        Misread::Memory
    }
}

impl<T: Drop> From<AllocFailed<T>> for Misread {
    fn from(_: AllocFailed<T>) -> Misread {
        Misread::Memory
    }
}
