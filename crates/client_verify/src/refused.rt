ghost use Rattle.std.specs.Prelude.{◌≡◌, None};
ghost use Rattle.seg_raw.specs.declared.fault.Fault.TheVariants.{Memory};

use seg_raw::Fault;
use std::alloc::{AllocError, AllocFailed};
use std::fmt;

/// Why nothing ran: the fault, and the number of the client that has it, from 0, if it is a client's. `Display` writes the line
/// that the program prints.
#[derive(Debug, Clone, Copy, PartialEq, Eq)]
pub struct Refused {
    pub client: Option<usize>,
    pub fault: Fault,
}

impl From<Fault> for Refused {
    ghost from_gives = { λ fault refused. refused ≡ record { client = None; fault = fault } };

    fn from(fault: Fault) -> Refused {
        Refused {
            client: None,
            fault,
        }
    }
}

impl From<AllocError> for Refused {
    ghost from_gives = { λ _ refused. refused ≡ record { client = None; fault = Memory } };

    fn from(_: AllocError) -> Refused {
        Refused::from(Fault::Memory)
    }
}

impl<T: Drop> From<AllocFailed<T>> for Refused {
    ghost from_gives = { λ _ refused. refused ≡ record { client = None; fault = Memory } };

    fn from(_: AllocFailed<T>) -> Refused {
        Refused::from(Fault::Memory)
    }
}

impl fmt::Display for Refused {
    fn fmt<W: fmt::Write>(&self, f: &mut fmt::Formatter<W>) -> fmt::Result {
        let fault = self.fault;
        match self.client {
            Some(client) => write!(f, "client {client} {fault}"),
            None => write!(f, "{fault}"),
        }
    }
}
