//! Values in a segment: their defaults, how they move, what they own and how it is destroyed. A value is identified by
//! its position and its type, a block by the position of its payload.
#![tactic(auto)]

mod buffer;
mod cell;
mod contents;
mod destruction;
mod entries;
mod entry;
mod heap;
mod moving;
mod own;
mod pending;
mod read;
mod sharing;

pub use cell::room;
pub use contents::Layouts;
pub use heap::Heap;
pub use own::{set_own, take_own};
pub use read::{Reader, SegmentRead};
pub use seg_block::{Fit, Kind, PayloadAt, Tag, UNIT, block_of, need};
pub use seg_cells::{
    CellAt, Content, Entry, FROZEN_WORDS, Held, KEY, LIST_LINKS, PREVIOUS, Place, Shape, ValueAt,
    binary_search, count, count_in, load, load_in, start, start_in,
};
pub use seg_layout::{ENTRY, Fields, MAX_TYPES, Type, TypeId, TypeTable};
pub use seg_ptr::{Code, Fault, MAX_LEN, MIN_LEN, Region, View, Window, header, is_size};
pub use sharing::{freeze, frozen, share};
