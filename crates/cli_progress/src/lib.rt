//! How far long work is: what a command tells about it while it works.
#![tactic(auto)]

mod pace;
mod watch;
mod work;

pub use pace::Pace;
pub use watch::{Silent, Watch};
pub use work::Work;
