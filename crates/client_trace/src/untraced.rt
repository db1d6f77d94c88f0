ghost use Rattle.std.specs.Prelude.{◌≡◌};
ghost use Rattle.client_trace.specs.declared.untraced.Untraced.TheVariants.{Memory, OutputFailed};

use client_vm::{Fault, Stopped};
use std::alloc::AllocError;

/// Why a trace ended before its run did.
#[derive(Clone, Copy, PartialEq, Eq)]
pub enum Untraced {
    /// The host is out of memory.
    Memory,
    /// The output failed.
    OutputFailed,
}

impl From<AllocError> for Untraced {
    ghost from_gives = { λ _ untraced. untraced ≡ Memory };

    fn from(_: AllocError) -> Untraced {
        Untraced::Memory
    }
}

impl From<Stopped> for Untraced {
    ghost from_gives = { λ _ untraced. untraced ≡ OutputFailed };

    fn from(_: Stopped) -> Untraced {
        Untraced::OutputFailed
    }
}
