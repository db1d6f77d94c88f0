//! Traces of clients: one line for each instruction of a run, with the registers' contents after it.
#![tactic(auto)]

mod changed;
mod gathered;
mod known;
mod last;
mod lines;
mod listing;
mod path;
mod paths;
mod tracer;
mod untraced;
mod view;

pub use last::LastLines;
pub use tracer::{trace, trace_view};
pub use untraced::Untraced;
pub use view::{SourceMap, StepRange, Variable, View};
