//! Explanations of refusals in words: what the fault is, where it is, and what would be right.
#![tactic(auto)]

mod blocks;
mod broken_block;
mod broken_pointer;
mod broken_tree;
mod broken_value;
mod bytes;
mod damage;
mod explanation;
mod fault;
mod field;
mod flaw;
mod image;
mod location;
mod mistaken;
mod names;
mod opened;
mod outline;
mod pieces;
mod quoted;
mod registers;
mod rejection;
mod replay;
mod rule;
mod slip;
mod sources;
mod steps;
mod text;
mod types;

pub use fault::explain;
pub use sources::Sources;
pub use steps::{ProgramLines, explain_steps};
pub use text::instruction_lines;
