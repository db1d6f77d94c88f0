//! The blocks of an image whose heap may be wrong.

use seg_block::{Block, HEAP_START, Header, Tag, UNIT, block_within, units_in};
use seg_index::View;

pub(crate) fn len_of(view: View) -> u32 {
    u32::try_from(view.len()).unwrap_or(u32::MAX)
}

/// The block at a position, unless the image is too short for the size in its header.
pub(crate) fn block_at(view: View, at: u32) -> Option<Block> {
    block_within(len_of(view), at, units_in(view, at))
}

/// The block that contains a byte.
pub(crate) fn block_around(view: View, at: u32) -> Option<Block> {
    let mut start = HEAP_START;
    for _ in 0..len_of(view) / UNIT {
        let block = block_at(view, start)?;
        start = start.saturating_add(block.units.saturating_mul(UNIT));
        if at < start {
            return Some(block);
        }
    }
    None
}

/// The tag of the block at a position, if it is allocated.
pub(crate) fn tag_at(view: View, block: u32) -> Option<Tag> {
    let header = Header::read(view, block);
    if header.is_live {
        Tag::read(header.tag)
    } else {
        None
    }
}

/// The position after the block at a position.
pub(crate) fn end_of(view: View, block: u32) -> u32 {
    let units = Header::read(view, block).units.max(1);
    block.saturating_add(units.saturating_mul(UNIT))
}

/// The last block before a position.
pub(crate) fn block_before(view: View, at: u32) -> Option<u32> {
    let mut before = None;
    let mut start = HEAP_START;
    for _ in 0..len_of(view) / UNIT {
        if start >= at {
            break;
        }
        before = Some(start);
        start = end_of(view, start);
    }
    before
}

/// The first free block at or after a position, where a block begins.
pub(crate) fn free_from(view: View, at: u32) -> Option<u32> {
    let mut start = at;
    for _ in 0..len_of(view) / UNIT {
        if start >= len_of(view) {
            return None;
        }
        if !Header::read(view, start).is_live {
            return Some(start);
        }
        start = end_of(view, start);
    }
    None
}
