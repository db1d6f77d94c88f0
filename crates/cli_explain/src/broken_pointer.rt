//! Which rule a pointer of an image breaks.

use crate::blocks::{block_around, len_of, tag_at};
use crate::flaw::{Flaw, Right};
use crate::image::Image;
use client_code::{Type, TypeId, TypeTable};
use seg_block::{HEAP_START, Kind, Tag, UNIT, block_of, tag_word_in, units_in};
use seg_cells::{Content, Entry, Place, Shape, count_in};
use seg_index::{IndexKind, NameEntry, View, header};

/// The bytes of pointers to other nodes at the beginning of a node.
const NODE_POINTERS: u32 = 8;

/// What a pointer should point to: a block with this tag, and with room for this many bytes.
#[derive(Clone, Copy)]
struct Wanted {
    tag: Tag,
    room: u64,
}

impl Wanted {
    fn of(content: Content, count: u32) -> Wanted {
        Wanted {
            tag: content.tag,
            room: u64::from(content.entry.size).saturating_mul(u64::from(count)),
        }
    }
}

/// Which rule the pointer at a position breaks.
pub(crate) fn pointer_flaw(image: Image, at: u32) -> Flaw<'static> {
    let view = image.view;
    let Some(to) = view.target(at as usize) else {
        return null_flaw(image, at);
    };
    let block = block_of(to);
    let Some(tag) = live_tag(view, block) else {
        return Flaw::Unmet("it should point to the first payload byte of an allocated block");
    };
    let wanted = match wanted_by(image, at, to) {
        Some(wanted) => wanted,
        None => return Flaw::Unmet("it should be null, since the image has no such type"),
    };
    if tag != wanted.tag {
        return Flaw::Block(tag, wanted.tag);
    }
    let room = u64::from(units_in(view, block).saturating_sub(1)).saturating_mul(u64::from(UNIT));
    if room < wanted.room {
        let wanted = u32::try_from(wanted.room).unwrap_or(u32::MAX);
        let room = u32::try_from(room).unwrap_or(u32::MAX);
        return Flaw::should(
            "the size of that block's payload in bytes",
            room,
            Right::AtLeast(wanted),
        );
    }
    Flaw::Unmet("it should point to a block that nothing else owns")
}

/// What is wrong with a pointer that is null.
fn null_flaw(image: Image, at: u32) -> Flaw<'static> {
    let is_cell = at == header::INDEX as u32 || cell_type(image, at).is_some();
    if !is_cell {
        return Flaw::Unmet("it shouldn't be null");
    }
    Flaw::Number(
        "it shouldn't be null, since the number after it is ",
        count_in(image.view, at) as usize,
        "",
    )
}

/// The tag of the allocated block that begins at a position.
fn live_tag(view: View, block: u32) -> Option<Tag> {
    if block_around(view, block)?.at == block {
        tag_at(view, block)
    } else {
        None
    }
}

/// What the pointer at a position should point to. Of a name's object, the block that it points to decides the type.
fn wanted_by(image: Image, at: u32, to: u32) -> Option<Wanted> {
    if at >= HEAP_START {
        return wanted_in_heap(image, at, to);
    }
    if at == header::INDEX as u32 {
        return Some(match IndexKind::read_in(image.view) {
            IndexKind::Flat => Wanted::of(Content::index_buffer(), count_in(image.view, at)),
            IndexKind::Tree => Wanted::of(Content::index_node(), 1),
        });
    }
    let number = at.saturating_sub(header::UNIQUES as u32) / 4;
    let type_id = TypeId::try_from(number).ok()?;
    image.types().kind(type_id)?;
    Some(Wanted::of(Content::object(image.types(), type_id), 1))
}

fn wanted_in_heap(image: Image, at: u32, to: u32) -> Option<Wanted> {
    let block = block_around(image.view, at)?.at;
    let tag = tag_at(image.view, block)?;
    let is_link = at.saturating_sub(block) < UNIT + NODE_POINTERS;
    match tag.kind {
        Kind::IndexNode if is_link => Some(Wanted::of(Content::index_node(), 1)),
        Kind::IndexBuffer | Kind::IndexNode => Some(wanted_named(image, at, to)),
        Kind::Node if is_link => Some(Wanted::of(Content::of_block(image.types(), tag)?, 1)),
        Kind::Node | Kind::Named | Kind::Object | Kind::Buffer | Kind::Frozen => {
            wanted_of_cell(image, cell_type(image, at)?, at)
        }
    }
}

/// The block of a named object, for the entry at a position.
fn wanted_named(image: Image, at: u32, to: u32) -> Wanted {
    let entry = NameEntry::read_in(image.view, at as usize);
    let word = tag_word_in(image.view, block_of(to));
    let type_id = TypeId::try_from(word / 256).unwrap_or(0);
    let values = entry.values_len(image.types().size(type_id)) as u64;
    Wanted {
        tag: Tag {
            kind: Kind::Named,
            type_id,
        },
        room: values.saturating_add(u64::from(entry.name_len)),
    }
}

/// The type of the cell at a position, if a value has a cell there.
pub(crate) fn cell_type(image: Image, at: u32) -> Option<TypeId> {
    let block = block_around(image.view, at)?.at;
    let entry = entry_of(image.types(), tag_at(image.view, block)?)?;
    let start = block.saturating_add(UNIT);
    let index = at.checked_sub(start)?.checked_div(entry.size)?;
    cell_in(image.types(), entry.value(start, index)?, at)
}

/// The layout of the entries in a block with a tag.
fn entry_of(types: &TypeTable, tag: Tag) -> Option<Entry> {
    let content = match tag.kind {
        Kind::Named => Content::object(types, tag.type_id),
        Kind::Object
        | Kind::Frozen
        | Kind::Buffer
        | Kind::Node
        | Kind::IndexBuffer
        | Kind::IndexNode => Content::of_block(types, tag)?,
    };
    Some(content.entry)
}

/// The type of the cell at a position in a value.
fn cell_in(types: &TypeTable, value: Place, at: u32) -> Option<TypeId> {
    let mut place = value;
    for _ in 0..types.len() {
        if at < place.at {
            return None;
        }
        let mut inner = None;
        for index in 0..types.field_count(place.type_id) {
            if let Some(field) = types.field(place.type_id, index) {
                let part = place.part(field);
                if part.at <= at {
                    inner = Some(part);
                }
            }
        }
        match inner {
            Some(part) => place = part,
            None => break,
        }
    }
    types.kind(place.type_id)?;
    Some(place.type_id)
}

/// What the cell of a type at a position should point to.
fn wanted_of_cell(image: Image, type_id: TypeId, cell: u32) -> Option<Wanted> {
    if let Type::Shared(held) = image.types().kind(type_id)? {
        return Some(Wanted::of(Content::frozen(image.types(), held), 1));
    }
    let content = Content::of(image.types(), type_id)?;
    Some(Wanted::of(
        content,
        match content.shape {
            Shape::Buffer => count_in(image.view, cell),
            Shape::Ring | Shape::Tree | Shape::Object => 1,
        },
    ))
}

/// The words of an image that point to a position, as pointers do. A word of 0 would point to itself, and doesn't count.
#[derive(Clone, Copy)]
pub(crate) struct Pointers {
    /// The positions of the first ones.
    pub(crate) first: [u32; 2],
    pub(crate) count: u32,
}

impl Pointers {
    fn add(&mut self, at: u32) {
        let count = self.count;
        if let Some(first) = self.first.get_mut(count as usize) {
            *first = at;
        }
        self.count = count.saturating_add(1);
    }

    pub(crate) fn to(view: View, to: u32) -> Pointers {
        let mut found = Pointers {
            first: [0; 2],
            count: 0,
        };
        for word in 0..len_of(view) / 4 {
            let at = word.saturating_mul(4);
            if at != to && view.target(at as usize) == Some(to) {
                found.add(at);
            }
        }
        found
    }
}

/// Which pointers make a block that two pointers own.
pub(crate) fn owners_flaw(view: View, block: u32) -> Flaw<'static> {
    let Pointers { first, .. } = Pointers::to(view, block.saturating_add(UNIT));
    Flaw::Pair(
        "one pointer should own the block, which is pointed to at byte ",
        first[0],
        " and at byte ",
        first[1],
    )
}

/// Which pointers point to a block that no pointer owns.
pub(crate) fn unowned_flaw(view: View, block: u32) -> Flaw<'static> {
    let Pointers { first, count } = Pointers::to(view, block.saturating_add(UNIT));
    if count == 0 {
        return Flaw::Unmet("no pointer points to the block, but one should own it");
    }
    Flaw::Number(
        "one pointer should own the block; the word at byte ",
        first[0] as usize,
        " points to it, but doesn't own it",
    )
}
