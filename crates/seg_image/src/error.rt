ghost use Rattle.std.specs.Prelude.{◌≡◌};
ghost use Rattle.seg_raw.specs.declared.fault.Fault.TheVariants.{Memory};
ghost use Rattle.seg_image.specs.declared.error.Error.TheVariants as error;

use crate::opening::Unopened;
use seg_raw::{Code, Fault};
use std::alloc::{AllocError, Allocator};
use std::fmt;

/// Why a host's work on an image ends, for functions that meet both kinds: a call of the host failed ([`Fault`]), or a
/// request within the image ([`Code`]). `?` converts either. `Display` writes which, and then the fault or the code.
#[derive(Debug, Clone, Copy, PartialEq, Eq)]
pub enum Error {
    Fault(Fault),
    Code(Code),
}

impl fmt::Display for Error {
    fn fmt<W: fmt::Write>(&self, f: &mut fmt::Formatter<W>) -> fmt::Result {
        match self {
            Error::Fault(fault) => write!(f, "the call failed: {fault}"),
            Error::Code(code) => write!(f, "the request was refused: {code}"),
        }
    }
}

impl std::error::Error for Error {}

/// How far a call with several numbers or entries came. What was done before the one that was refused stays.
#[derive(Debug, Clone, Copy, PartialEq, Eq)]
pub struct StoppedAt {
    /// How many numbers or entries were done.
    pub done: usize,
    /// Why the next one wasn't: `BadAlloc` if there is no room.
    pub code: Code,
}

impl fmt::Display for StoppedAt {
    fn fmt<W: fmt::Write>(&self, f: &mut fmt::Formatter<W>) -> fmt::Result {
        let StoppedAt { done, code } = self;
        write!(f, "stopped after {done}: {code}")
    }
}

impl std::error::Error for StoppedAt {}

impl From<Fault> for Error {
    ghost from_gives = { λ fault made. made ≡ error.Fault fault };

    fn from(fault: Fault) -> Error {
        Error::Fault(fault)
    }
}

impl From<AllocError> for Error {
    ghost from_gives = { λ _ made. made ≡ error.Fault Memory };

    fn from(_: AllocError) -> Error {
        Error::Fault(Fault::Memory)
    }
}

impl From<Code> for Error {
    ghost from_gives = { λ code made. made ≡ error.Code code };

    fn from(code: Code) -> Error {
        Error::Code(code)
    }
}

impl<A: Allocator> From<Unopened<A>> for Error {
    ghost from_gives = { λ unopened made. made ≡ error.Fault unopened.fault };

    fn from(unopened: Unopened<A>) -> Error {
        Error::Fault(unopened.fault)
    }
}
