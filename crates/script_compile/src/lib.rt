//! The compiler of programs: from their tree to a client, or to all of their errors.
#![tactic(auto)]

mod blocks;
mod calls;
mod client;
mod compiler;
mod constructs;
mod entry;
mod failure;
mod loops;
mod nests;
mod perform;
mod report;
mod seen;
mod variables;

pub use client::{Client, Refusal, client_of};
pub use entry::compile;
pub use failure::{Failure, Wrong};
pub use script_code::{
    Compiled, Error, Hint, Message, Register, TypeAt, Types, Warning, WarningKind, WarningMessage,
};
pub use variables::VariableChange;
