//! Finds the place of a byte in an image, sound or not.

use crate::blocks::{block_around, block_at, len_of};
use crate::location::{Area, Location, Owner};
use client_code::{MAX_TYPES, TypeId, TypeTable};
use seg_block::{HEAP_START, Header, Kind, Tag, UNIT, block_of};
use seg_index::{ENTRY, MAX_LEN, NameEntry, View, first_name, name_count_in, next_name, unique_in};
use seg_value::{Layouts, Reader, SegmentRead};

/// The bytes of an image, sound or not, and its types.
#[derive(Clone, Copy)]
pub(crate) struct Image<'a> {
    pub(crate) view: View<'a>,
    layouts: &'a Layouts,
}

impl<'a> Image<'a> {
    /// The image with these bytes, unless they are too long.
    pub(crate) fn new(bytes: &'a [u8], layouts: &'a Layouts) -> Option<Image<'a>> {
        if bytes.len() > MAX_LEN as usize {
            return None;
        }
        Some(Image {
            view: View::new(bytes),
            layouts,
        })
    }

    pub(crate) fn types(self) -> &'a TypeTable {
        self.layouts.types()
    }

    /// Whether a frozen object's payload begins at a byte.
    pub(crate) fn is_frozen(self, at: u32) -> bool {
        match self.location(at) {
            Location::Block(Owner::Live(_, tag), Area::Payload(0)) => tag.kind == Kind::Frozen,
            _ => false,
        }
    }

    /// The place of a byte.
    pub(crate) fn location(self, at: u32) -> Location<'a> {
        if at >= len_of(self.view) {
            return Location::Outside;
        }
        if at < HEAP_START {
            return Location::of_front(at);
        }
        if let Some(found) = self.in_named(at) {
            return found;
        }
        if let Some(found) = in_unique(self.view, at) {
            return found;
        }
        in_block(self.view, at).unwrap_or(Location::Heap)
    }

    /// The place of a byte in the block of a named object. The search ends at the first name that doesn't ascend.
    fn in_named(self, at: u32) -> Option<Location<'a>> {
        let view = self.view;
        let names = Reader {
            view,
            layouts: self.layouts,
        };
        let mut entry = first_name(&names)?;
        for _ in 0..name_count_in(view).min(len_of(view) / ENTRY) {
            let name = entry.name_in(view, self.types());
            if let Some(area) = self.area_of(entry, at) {
                return Some(Location::Block(Owner::Name(name), area));
            }
            entry = next_name(&names, name)?;
            if entry.name_in(view, self.types()) <= name {
                return None;
            }
        }
        None
    }

    /// The part of a named object's block that contains a byte, if the block does.
    fn area_of(self, entry: NameEntry, at: u32) -> Option<Area> {
        let from = offset(self.view, entry.object?, at)?;
        let size = self.types().size(entry.type_in(self.view)?);
        Some(match from.checked_sub(UNIT) {
            None => Area::Header,
            Some(from) if (from as usize) < entry.values_len(size) => Area::Values(from),
            Some(_) => Area::Name,
        })
    }
}

/// The place of a byte in the block of a unique object.
fn in_unique(view: View, at: u32) -> Option<Location<'static>> {
    for type_id in 0..MAX_TYPES as TypeId {
        if let Some(object) = unique_in(view, type_id) {
            if let Some(from) = offset(view, object, at) {
                let area = match from.checked_sub(UNIT) {
                    None => Area::Header,
                    Some(from) => Area::Values(from),
                };
                return Some(Location::Block(Owner::Unique(type_id), area));
            }
        }
    }
    None
}

/// The offset of a byte in the block with its payload at a position, if the block contains it.
fn offset(view: View, payload: u32, at: u32) -> Option<u32> {
    let from = at.checked_sub(block_of(payload))?;
    let block = block_at(view, block_of(payload))?;
    (from / UNIT < block.units).then_some(from)
}

/// The place of a byte in a block that can be reached from the block headers before it.
fn in_block(view: View, at: u32) -> Option<Location<'static>> {
    let block = block_around(view, at)?;
    let area = match at.saturating_sub(block.at).checked_sub(UNIT) {
        None => Area::Header,
        Some(from) => Area::Payload(from),
    };
    let header = Header::read(view, block.at);
    let owner = match Tag::read(header.tag) {
        Some(tag) if header.is_live => Owner::Live(block.at, tag),
        None if header.is_live => Owner::Unknown(block.at),
        Some(_) | None => Owner::Free(block.at),
    };
    Some(Location::Block(owner, area))
}
