//! Which rule a value of an image breaks, or an entry of its index.

use crate::blocks::{end_of, free_from, len_of};
use crate::broken_pointer::{Pointers, cell_type};
use crate::broken_tree::{Order, Tree, keys_flaw};
use crate::flaw::{Flaw, Right};
use crate::image::Image;
use client_code::{Type, TypeId};
use seg_block::{HEAP_START, UNIT, link_in};
use seg_cells::{Content, PREVIOUS, count_in, start_in};
use seg_index::{ENTRY, IndexKind, MAX_NAME, NameEntry, View, header, name_count_in};

/// What comes of a value that breaks no rule.
const NO_RULE: Flaw<'static> = Flaw::Unmet("it breaks a rule of docs/FORMATS.md");

/// Which rule the value at a position breaks.
pub(crate) fn value_flaw(image: Image, at: u32) -> Flaw<'static> {
    if image.is_frozen(at) {
        return frozen_flaw(image.view, at);
    }
    match cell_type(image, at) {
        Some(type_id) => cell_flaw(image, type_id, at).unwrap_or(NO_RULE),
        None => NO_RULE,
    }
}

/// What is wrong with the number or the count of a frozen object.
fn frozen_flaw(view: View, payload: u32) -> Flaw<'static> {
    let count = view.get32(payload as usize);
    let number = view.get32(payload.saturating_add(4) as usize);
    let next = view.get32(header::NEXT_NUMBER);
    if number >= next {
        return Flaw::should("the frozen object's number", number, Right::Below(next));
    }
    let cells = Pointers::to(view, payload).count;
    Flaw::should(
        "the frozen object's count of the cells that point to it",
        count,
        Right::Exactly(cells),
    )
}

fn cell_flaw(image: Image, type_id: TypeId, cell: u32) -> Option<Flaw<'static>> {
    let view = image.view;
    let count = count_in(view, cell);
    match image.types().kind(type_id)? {
        Type::I64 | Type::Str | Type::Vec(_) | Type::Struct(_) => None,
        Type::Own(_) | Type::Shared(_) if count > 1 => Some(Flaw::should(
            "the number after the pointer",
            count,
            Right::Words("0 or 1"),
        )),
        Type::List(_) | Type::Map(_) | Type::Own(_) | Type::Shared(_) if count == 0 => {
            Some(Flaw::Unmet("the pointer should be null, since the number after it is 0"))
        }
        Type::Own(_) => None,
        Type::List(_) => ring_flaw(view, cell, count),
        Type::Map(_) => tree_of(cell, count, Order::Key).flaw(view),
        Type::FlatMap(_) => order_flaw(image, type_id, cell, count),
        Type::Shared(_) => Some(Flaw::should(
            "the number of the frozen object that it points to",
            view.get32(start_in(view, cell).saturating_add(4) as usize),
            Right::Words("lower than that of the frozen object that owns the cell"),
        )),
    }
}

fn tree_of(root: u32, nodes: u32, order: Order) -> Tree {
    Tree { root, nodes, order }
}

/// The first node of a list that doesn't point back to the one before, or the last one, which doesn't point to the first.
fn ring_flaw(view: View, cell: u32, count: u32) -> Option<Flaw<'static>> {
    let first = view.target(cell as usize)?;
    let mut node = first;
    for _ in 1..count.min(len_of(view) / UNIT) {
        let next = view.target(node as usize)?;
        if let Some(flaw) = back_flaw(view, next, node) {
            return Some(flaw);
        }
        node = next;
    }
    if view.target(node as usize) != Some(first) {
        return Some(Flaw::Pair(
            "the last node, at byte ",
            node,
            ", should point to the first one, at byte ",
            first,
        ));
    }
    back_flaw(view, first, node)
}

fn back_flaw(view: View, node: u32, before: u32) -> Option<Flaw<'static>> {
    (view.target(node.saturating_add(PREVIOUS) as usize) != Some(before)).then_some(Flaw::Pair(
        "the node at byte ",
        node,
        " should point back to the one before it, at byte ",
        before,
    ))
}

/// The first key of a flat map that isn't above the one before.
fn order_flaw(image: Image, type_id: TypeId, cell: u32, count: u32) -> Option<Flaw<'static>> {
    let view = image.view;
    let size = Content::of(image.types(), type_id)?.entry.size;
    let mut key = start_in(view, cell);
    for _ in 1..count.min(len_of(view) / 8) {
        let next = key.saturating_add(size);
        if let Some(flaw) = keys_flaw(view, key, next) {
            return Some(flaw);
        }
        key = next;
    }
    None
}

/// Which rule the index breaks, at its pointer or at an entry.
pub(crate) fn index_flaw(image: Image<'_>, at: u32) -> Flaw<'_> {
    let view = image.view;
    if at != header::INDEX as u32 {
        return entry_flaw(image, at);
    }
    let count = name_count_in(view);
    match IndexKind::read_in(view) {
        IndexKind::Tree if count > 0 => tree_of(at, count, Order::Name)
            .flaw(view)
            .unwrap_or(NO_RULE),
        IndexKind::Tree | IndexKind::Flat => {
            Flaw::Unmet("the pointer should be null, since the number of names at byte 36 is 0")
        }
    }
}

/// Which rule an entry of the index breaks.
fn entry_flaw(image: Image<'_>, at: u32) -> Flaw<'_> {
    let entry = NameEntry::read_in(image.view, at as usize);
    if entry.count == 0 {
        return Flaw::should(
            "the number of values, at byte 4 of the entry,",
            0,
            Right::Words("1 to 65535"),
        );
    }
    if entry.name_len == 0 || entry.name_len > MAX_NAME {
        let len = u32::from(entry.name_len);
        return Flaw::should(
            "the length of the name, at byte 6 of the entry,",
            len,
            Right::Words("1 to 63"),
        );
    }
    if entry.zero != 0 {
        let zero = u32::from(entry.zero);
        return Flaw::should("byte 7 of the entry", zero, Right::Exactly(0));
    }
    name_flaw(entry.name_in(image.view, image.types()))
}

fn name_flaw(name: &[u8]) -> Flaw<'_> {
    for byte in name {
        if !byte.is_ascii_graphic() {
            return Flaw::should(
                "a byte of the name",
                u32::from(*byte),
                Right::Words("33 to 126"),
            );
        }
    }
    Flaw::Word(
        name,
        "should come after the name of the entry before it, in the order of bytes",
    )
}

/// Which rule the tree of free blocks breaks.
pub(crate) fn free_tree_flaw(view: View) -> Flaw<'static> {
    let mut nodes = 0u32;
    let mut start = HEAP_START;
    for _ in 0..len_of(view) / UNIT {
        let Some(block) = free_from(view, start) else {
            break;
        };
        if link_in(view, block).is_some() {
            return Flaw::Number(
                "the link of the free block at byte ",
                block as usize,
                " should be null",
            );
        }
        nodes = nodes.saturating_add(1);
        start = end_of(view, block);
    }
    tree_of(header::FREE as u32, nodes, Order::Size)
        .flaw(view)
        .unwrap_or(Flaw::Unmet("the tree should have exactly the free blocks as its nodes"))
}
