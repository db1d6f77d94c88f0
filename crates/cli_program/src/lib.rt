//! The command that runs clients, and what all commands share: the host's arguments, the files of a run, failures with their
//! explanations, and printing.
#![tactic(auto)]

mod colours;
mod explanation;
mod failure;
mod host;
mod inputs;
mod output;
mod problems;
mod run;
mod saving;
mod watched;

pub use client_vm::Through;
pub use colours::{Coloured, is_dumb, wants_colours};
pub use failure::Failure;
pub use host::{refuse, words};
pub use inputs::{Inputs, read_input, read_inputs, slices};
pub use output::{print, report, tell, tell_failure};
pub use run::{run_files, run_inputs};
pub use watched::Watched;
