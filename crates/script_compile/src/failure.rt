//! Why a program isn't compiled.

use script_code::{Error, Types};
use script_syntax::Span;
use std::alloc::AllocError;

/// The errors of a program, in the order of the text, with the types that their messages name.
#[derive(Drop)]
pub struct Wrong {
    pub errors: Vec<Error>,
    pub types: Types,
    /// The names which are alive where registers run out, or the first words of the statements whose
    /// parts are open if there are too many.
    pub alive: Vec<Span>,
}

/// Why a program isn't compiled.
#[derive(Drop)]
pub enum Failure {
    Errors(Wrong),
    /// The host is out of memory.
    Memory,
}

impl From<AllocError> for Failure {
    fn from(_: AllocError) -> Failure {
        Failure::Memory
    }
}
