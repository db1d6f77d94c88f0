//! The commands of the program `segtool`, over any files and any output.
#![tactic(auto)]

mod clients;
mod door;
mod explaining;
mod program;
mod programs;
mod traces;

pub use program::command;
pub use programs::{CoreClient, compiled_core};
