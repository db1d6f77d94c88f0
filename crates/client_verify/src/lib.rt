//! The verifier: which clients may run, and how many steps they take at most.
#![tactic(auto)]

mod after;
mod files;
mod packed;
mod reason;
mod refused;
mod register;
mod registers;
mod rule;
mod verified;
mod verifier;

pub use after::After;
pub use files::verify_all;
pub use packed::{PackedClass, PackedRegister};
pub use reason::Reason;
pub use refused::Refused;
pub use register::{Class, RegisterType};
pub use registers::Registers;
pub use rule::Rule;
pub use verified::{MOST_STEPS, Verified, verify, verify_typed};
pub use verifier::Verifier;
