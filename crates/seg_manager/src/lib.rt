//! A segment in a window: named, unique and anonymous objects of the types in its table; its size, and its free memory.
#![tactic(auto)]

mod anonymous;
mod creating;
mod cursor;
mod keys;
mod listing;
mod names;
mod segment;
mod size;
mod space;
mod uniques;

pub use creating::create;
pub use listing::{Named, find_named, first_name, next_name, num_named};
pub use names::{Found, find};
pub use seg_index::{IndexKind, MAX_NAME};
pub use seg_value::{
    Code, Content, ENTRY, Fault, Fields, Fit, Heap, MAX_LEN, MAX_TYPES, MIN_LEN, Place, Reader,
    Region, SegmentRead, Type, TypeId, TypeTable, View, Window, frozen, header, is_size,
};
pub use segment::Segment;
pub use size::{grow, shrink_to_fit};
pub use space::{all_memory_deallocated, free_memory, largest_gap, zero_free_memory};
pub use uniques::{find_unique, num_unique};
