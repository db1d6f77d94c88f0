//! The cells of values: where they are in a value, their defaults, and how their pointers are corrected after a move.
//! The bytes of a segment's index: its kind, its cell, the entries of names, and the pointers to unique objects.
//! Also a binary search. A value is identified by its position and its type.
#![tactic(auto)]

mod cell;
mod cells;
mod content;
mod entry;
mod kind;
mod name_entry;
mod place;
mod search;
mod uniques;

pub use cell::{CellAt, count, count_in, load, load_in, start, start_in};
pub use cells::{Cells, IDS, point_each_again, set_default};
pub use content::{Content, FROZEN_WORDS, Shape};
pub use entry::{Entry, Held, KEY, LIST_LINKS, PREVIOUS};
pub use kind::{INDEX_CELL, IndexKind, name_count, name_count_in};
pub use name_entry::{ENTRY, MAX_NAME, NameEntry, named_tag};
pub use place::{Place, ValueAt};
pub use search::binary_search;
pub use uniques::{set_unique, unique, unique_in, word_of as unique_word};
