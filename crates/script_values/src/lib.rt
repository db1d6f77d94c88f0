//! The code of a program's numbers and texts, its declarations, and the arguments of its functions.
#![tactic(auto)]

mod arguments;
mod declarations;
mod expressions;
mod numbers;
mod output;
mod rest;
mod tasks;

pub use arguments::{Call, begin_call, called_function, enter_function, leave_function};
pub use declarations::declare;
pub use expressions::has_call;
pub use rest::guard_rest;
pub use tasks::perform;
