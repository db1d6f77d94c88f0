//! The code of a program's single statements.
#![tactic(auto)]

mod branches;
mod changes;
mod lookups;
mod loops;
mod methods;
mod pushes;
mod removals;
mod tasks;

pub use loops::{begin_turns, leave_loop, next_turn};
pub use methods::begin_method;
pub use tasks::{begin, perform};
