//! Blocks of a segment's heap: headers, tags, the traits of allocators, and requests to an allocator. A block is
//! identified by the position of its header; its payload begins [`UNIT`] bytes after it.
#![tactic(auto)]

mod block;
mod fit;
mod free_structure;
mod grant;
mod header;
mod rules;
mod tag;

pub use block::{
    Block, block_at, block_within, capacity, free_after, free_before, join, last_block, need, next,
    previous, room_after, set_size, size_word, split,
};
pub use fit::Fit;
pub use free_structure::{FreeStructure, cut, resize};
pub use grant::{Grant, request, request_at, request_new};
pub use header::{
    BlockAt, HEAP_START, Header, LINK, PayloadAt, TAG, UNIT, UNITS_BEFORE, block_of, is_live, link,
    link_in, payload, tag_word, tag_word_in, units, units_before, units_in, units_of,
};
pub use rules::{expanded, granted, preferred, shrunk};
pub use seg_ptr::{Code, Fault, MAX_LEN, MIN_LEN, Region, View, Window};
pub use tag::{Kind, Tag};
