//! Strings, vectors and lists. A sequence is identified by its place, an item by its position. A call on a place of
//! another type fails with `OtherType`.
#![tactic(auto)]

mod kind;
mod list;
mod numbers;
mod pushing;
mod ring;
mod room;
mod sequence;
mod text;

pub use list::{next, pop_front, previous, push_front};
pub use numbers::Numbers;
pub use pushing::push_in_place;
pub use sequence::{at, len, pop_back, push_back};
pub use text::{append, assign, push_byte};
