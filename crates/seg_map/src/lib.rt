//! Maps from numbers to values, of two kinds: flat maps, with their entries in a buffer, and trees. The same calls work
//! on both. A map is identified by its place, a value by its position. A call on a place that isn't a map fails with
//! `OtherType`, or returns false.
#![tactic(auto)]

mod cursor;
mod flat;
mod key_value;
mod map;
mod tree;

pub use cursor::KeyCursor;
pub use key_value::KeyValue;
pub use map::{
    first_entry, first_entry_by, first_key, first_key_by, get, last_entry, last_key, len,
    next_entry, next_entry_by, next_key, next_key_by, previous_entry, previous_key, put, remove,
};
