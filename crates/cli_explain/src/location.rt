use crate::quoted::Quoted;
use client_code::{ENTRY, TypeId};
use seg_block::{Kind, Tag};
use seg_index::header;
use std::fmt;

/// The place of a byte in an image.
#[derive(Clone, Copy)]
pub(crate) enum Location<'a> {
    /// In a field of the first 64 bytes.
    Header(&'static str),
    /// In the entry with this number of the type table.
    TypeEntry(u32),
    /// In the pointer to the unique object of this type.
    Unique(u32),
    Block(Owner<'a>, Area),
    /// In the heap, in no block that can be reached from the headers before it.
    Heap,
    /// After the image's end.
    Outside,
}

/// The kind of a block, or the object in it.
#[derive(Clone, Copy)]
pub(crate) enum Owner<'a> {
    Name(&'a [u8]),
    /// The unique object of a type.
    Unique(TypeId),
    /// An allocated block of an unknown object: its position and its tag.
    Live(u32, Tag),
    /// An allocated block whose tag is wrong: its position.
    Unknown(u32),
    /// A free block: its position.
    Free(u32),
}

/// The part of a block that contains a byte.
#[derive(Clone, Copy)]
pub(crate) enum Area {
    Header,
    /// The values, with the offset in bytes from their start.
    Values(u32),
    /// The name and the bytes after it.
    Name,
    /// The payload, with the offset in bytes from its start.
    Payload(u32),
}

impl Location<'_> {
    /// The place of a byte before the heap.
    pub(crate) fn of_front(at: u32) -> Location<'static> {
        let place = at as usize;
        if place >= header::UNIQUES {
            return Location::Unique(at.saturating_sub(header::UNIQUES as u32) / 4);
        }
        if place >= header::TYPES {
            return Location::TypeEntry(at.saturating_sub(header::TYPES as u32) / ENTRY as u32);
        }
        Location::Header(field_at(at))
    }
}

/// The fields of the header, each with the position after it.
const FIELDS: [(u32, &str); 9] = [
    (8, "the first 8 bytes"),
    (12, "the version"),
    (16, "the length in units of 16 bytes"),
    (20, "the allocator's number"),
    (24, "the index's number"),
    (28, "the pointer to the free blocks"),
    (32, "the next number of a frozen object"),
    (36, "the pointer to the index"),
    (40, "the number of names"),
];

/// The field of the header at a position.
fn field_at(at: u32) -> &'static str {
    for (end, field) in &FIELDS {
        if at < *end {
            return field;
        }
    }
    "the reserved bytes"
}

impl fmt::Display for Location<'_> {
    fn fmt<W: fmt::Write>(&self, f: &mut fmt::Formatter<W>) -> fmt::Result {
        let (what, number) = match *self {
            Location::Header(field) => return write!(f, "in {field}, in the header"),
            Location::TypeEntry(number) => ("the entry of type", number),
            Location::Unique(number) => ("the pointer to the unique object of type", number),
            Location::Block(owner, area) => return write!(f, "in {owner}, {area}"),
            Location::Heap => return f.write_str(
                "in the heap, but in no block that the headers describe",
            ),
            Location::Outside => return f.write_str("after the image's end"),
        };
        write!(f, "in {what} {number}")
    }
}

/// The contents of an allocated block.
#[derive(Clone, Copy)]
pub(crate) struct BlockContents(pub(crate) Tag);

impl fmt::Display for BlockContents {
    fn fmt<W: fmt::Write>(&self, f: &mut fmt::Formatter<W>) -> fmt::Result {
        let Tag { kind, type_id } = self.0;
        let what = match kind {
            Kind::Named => "a named object",
            Kind::Object => "an object without a name,",
            Kind::Buffer => "a buffer",
            Kind::Node => "a node",
            Kind::Frozen => "a frozen object",
            Kind::IndexBuffer => return f.write_str("the index's buffer"),
            Kind::IndexNode => return f.write_str("a node of the index"),
        };
        write!(f, "{what} of type {type_id}")
    }
}

impl fmt::Display for Owner<'_> {
    fn fmt<W: fmt::Write>(&self, f: &mut fmt::Formatter<W>) -> fmt::Result {
        match *self {
            Owner::Name(name) => {
                let name = Quoted(name);
                write!(f, "the object {name}")
            }
            Owner::Unique(type_id) => write!(f, "the unique object of type {type_id}"),
            Owner::Live(at, tag) => {
                let content = BlockContents(tag);
                write!(f, "the block at {at}, {content}")
            }
            Owner::Unknown(at) => write!(f, "the block at {at}"),
            Owner::Free(at) => write!(f, "the free block at {at}"),
        }
    }
}

impl fmt::Display for Area {
    fn fmt<W: fmt::Write>(&self, f: &mut fmt::Formatter<W>) -> fmt::Result {
        let (from, part) = match *self {
            Area::Header => return f.write_str("in the block's header"),
            Area::Values(from) => (from, "values"),
            Area::Name => return f.write_str("after its values, in its name"),
            Area::Payload(from) => (from, "payload"),
        };
        write!(f, "at byte {from} of its {part}")
    }
}
