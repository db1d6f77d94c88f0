//! The checker: whether an image is sound, and if not, its first fault. Also how a sound image is opened and saved.
#![tactic(auto)]

mod bits;
mod bytes;
mod checker;
mod claims;
mod fault;
mod free_list;
mod free_tree;
mod header;
mod image;
mod index;
mod lists;
mod maps;
mod marks;
mod opening;
mod saving;
mod tiles;
mod uniques;
mod values;
mod walk;

pub use checker::{check, read_types};
pub use opening::open;
pub use saving::save;
