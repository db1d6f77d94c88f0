//! Which rule the header of a block breaks, or the list of free blocks.

use crate::blocks::{block_before, end_of, free_from, len_of};
use crate::flaw::{Flaw, Right};
use client_code::{Type, TypeTable};
use seg_block::{HEAP_START, Header, Kind, LINK, Tag, UNIT};
use seg_index::{View, header};

/// The rule that the block at a position breaks. The blocks before it are right.
pub(crate) fn block_flaw(view: View, types: &TypeTable, at: u32) -> Flaw<'static> {
    let block = Header::read(view, at);
    let rest = len_of(view).saturating_sub(at) / UNIT;
    if block.units < 2 {
        return Flaw::should(
            "the block's size, in units of 16 bytes,",
            block.units,
            Right::AtLeast(2),
        );
    }
    if block.units > rest {
        return Flaw::should(
            "the block's size, in units of 16 bytes,",
            block.units,
            Right::AtMost(rest),
        );
    }
    let before = block_before(view, at);
    let units = units_at(view, before);
    if block.units_before != units {
        return Flaw::should(
            "the size of the block before, at byte 4 of the header,",
            block.units_before,
            Right::Exactly(units),
        );
    }
    if block.is_live {
        live_flaw(types, block, header::shares(view))
    } else {
        free_flaw(block, before)
    }
}

/// The rule that an allocated block breaks by its link or its tag.
fn live_flaw(types: &TypeTable, block: Header, shares: bool) -> Flaw<'static> {
    match block.link {
        Some(to) => Flaw::should(
            "the position to which the block's link points",
            to,
            Right::Words("null, since the block is allocated"),
        ),
        None => tag_flaw(types, block.tag, shares),
    }
}

fn tag_flaw(types: &TypeTable, word: u32, shares: bool) -> Flaw<'static> {
    let (kind, number) = (word % 256, word / 256);
    match Tag::read(word) {
        Some(tag) if shares || tag.kind != Kind::Frozen => type_flaw(types, tag),
        None if matches!(kind, 1..=7) => Flaw::should(
            "the type in the tag",
            number,
            Right::Words("one byte"),
        ),
        Some(_) | None => Flaw::should(
            "the kind in the tag",
            kind,
            Right::Words(if shares {
                "1 to 7"
            } else {
                "1 to 6, as in version 1"
            }),
        ),
    }
}

/// What is wrong with the type in a tag.
fn type_flaw(types: &TypeTable, tag: Tag) -> Flaw<'static> {
    let right = match tag.kind {
        Kind::Named | Kind::Object | Kind::Frozen => "one of the image",
        Kind::Buffer => "that of a str, vec or flat_map, since the block is a buffer",
        Kind::Node => "that of a list or map, since the block is a node",
        Kind::IndexBuffer | Kind::IndexNode => "0, since the block belongs to the index",
    };
    Flaw::should(
        "the type in the tag",
        u32::from(tag.type_id),
        Right::Words(right),
    )
}

/// The rule that a free block breaks.
fn free_flaw(block: Header, before: Option<u32>) -> Flaw<'static> {
    match before {
        Some(before) if block.tag == 0 => Flaw::Number(
            "the block before, at byte ",
            before as usize,
            ", is free too, but two free blocks in a row should be one",
        ),
        Some(_) | None => Flaw::should(
            "the block's tag",
            block.tag,
            Right::Words("0, since the block is free"),
        ),
    }
}

/// The size of a block in units, or 0 if there is none.
fn units_at(view: View, block: Option<u32>) -> u32 {
    match block {
        Some(block) => Header::read(view, block).units,
        None => 0,
    }
}

/// What the pointer at a position in the list of free blocks should be, or the pointer to their tree.
pub(crate) fn free_list_flaw(view: View, at: u32) -> Flaw<'static> {
    let after = if at == header::FREE as u32 {
        HEAP_START
    } else {
        end_of(view, at.saturating_sub(LINK as u32))
    };
    match free_from(view, after) {
        Some(block) => Flaw::Number(
            "it should point to byte ",
            block.saturating_add(UNIT) as usize,
            ", the payload of the next free block",
        ),
        None => Flaw::Unmet("it should be null, since no free block follows"),
    }
}
