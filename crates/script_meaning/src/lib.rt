//! The core of the language: what its programs mean, and whether a client has the meaning of a program.
#![tactic(auto)]

mod comparison;
mod core_program;
mod hidden;
mod knowledge;
mod meaning;
mod program;
mod statements;
mod terms;

pub use core_program::core_of;
pub use meaning::{has_meaning, shown_core};
pub use program::{Code, Number, Operator, Program};
