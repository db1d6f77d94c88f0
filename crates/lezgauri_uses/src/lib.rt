//! Small hosts that embed Lezgauri: a counter that a client counts, a table of settings, and a cache.
#![tactic(auto)]

mod cache;
mod counter;
mod settings;

pub use cache::Cache;
pub use counter::{count, new_counter, number_after};
pub use settings::{Settings, read_settings, write_settings};
