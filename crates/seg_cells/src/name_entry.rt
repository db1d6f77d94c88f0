ghost use Rattle.std.specs.Prelude.{◌≡◌, ◌+◌, ◌*◌, ◌<◌, ◌≤◌, ◌^◌, Some};
ghost use Rattle.seg_spec.specs.Window.{KeepsHost, with_bytes};
ghost use Rattle.seg_cells.specs.Names.{named_type, type_of, name_of};
ghost use Rattle.seg_cells.specs.NameEntries.{entry_read, write_entry};

use seg_block::{Kind, PayloadAt, TAG, Tag, UNIT};
use seg_layout::{TypeId, TypeTable};
use seg_ptr::{View, Window};
use std::alloc::Allocator;

/// The longest name, in bytes.
pub const MAX_NAME: u8 = 63;

/// The size of an entry in bytes.
pub const ENTRY: u32 = 8;

/// The tag of a named object's block.
pub fn named_tag(type_id: TypeId) -> Tag
    ensures kind { result.kind ≡ Kind.Named }
    ensures type_id { result.type_id ≡ type_id }
{
    Tag {
        kind: Kind::Named,
        type_id,
    }
}

/// The type of a named object, from its block's tag word.
fn named_type(word: u32) -> Option<TypeId>
    ensures { result ≡ named_type word }
{
    let Tag { kind, type_id } = Tag::read(word)?;
    match kind {
        Kind::Named => Some(type_id),
        Kind::Object
        | Kind::Buffer
        | Kind::Node
        | Kind::IndexBuffer
        | Kind::IndexNode
        | Kind::Frozen => None,
    }
}

/// An entry of the index: the object of a name.
#[derive(Debug, Clone, Copy, PartialEq, Eq)]
pub struct NameEntry {
    /// The position of the named object's payload, or `None` if the pointer is null.
    pub object: Option<PayloadAt>,
    /// How many values the object has.
    pub count: u16,
    /// The length of its name in bytes.
    pub name_len: u8,
    /// The last byte, which is 0 in every image.
    pub zero: u8,
}

impl NameEntry {
    /// The entry of an object of `count` values with a name of `name_len` bytes.
    pub fn new(object: PayloadAt, count: u16, name_len: u8) -> NameEntry
        ensures { result ≡ record {
          object = Some object;
          count = count;
          name_len = name_len;
          zero = 0;
        } }
    {
        NameEntry {
            object: Some(object),
            count,
            name_len,
            zero: 0,
        }
    }

    /// The entry at a position.
    pub fn read_in(view: View, at: usize) -> NameEntry
        ensures { at + ENTRY ≤ 2 ^ 64 → result ≡ entry_read view.entry.bytes.now at }
    {
        NameEntry {
            object: view.target(at),
            count: view.get16(at.saturating_add(4)),
            name_len: view.get8(at.saturating_add(6)),
            zero: view.get8(at.saturating_add(7)),
        }
    }

    /// Writes the entry at a position.
    pub fn write<A: Allocator>(self, w: &mut Window<A>, at: usize)
        ensures host { KeepsHost w.old w.new }
        ensures written { at + 4 < 2 ^ 64 →
            w.new ≡ with_bytes w.old (write_entry w.old.bytes at self) }
    {
        let rest = u32::from(self.count)
            + (1 << 16) * u32::from(self.name_len)
            + (1 << 24) * u32::from(self.zero);
        w.point(at, self.object);
        w.put32(at.saturating_add(4), rest);
    }

    /// The type of the object, if its block has the tag of a named object.
    pub fn type_id<A: Allocator>(&self, w: &Window<A>) -> Option<TypeId>
        ensures { result ≡ type_of w.now.bytes self.now.object }
    {
        self.type_in(w.view())
    }

    /// Like [`type_id`](NameEntry::type_id), from the segment's bytes.
    pub fn type_in(&self, view: View) -> Option<TypeId>
        ensures { result ≡ type_of view.entry.bytes.now self.now.object }
    {
        let block = self.object?.checked_sub(UNIT)?;
        named_type(view.get32(block as usize + TAG))
    }

    /// How many bytes the object's values take, if each has `size` bytes. The name follows them.
    pub fn values_len(&self, size: u32) -> usize
        ensures len { result ≡ self.now.count * size }
        ensures small { result < 2 ^ 48 }
    {
        self.count as usize * size as usize
    }

    /// The name, or an empty one if the entry has no object.
    pub fn name<'a, A: Allocator>(&self, w: &'a Window<A>, types: &TypeTable) -> &'a [u8]
        ensures { result.now ≡ name_of types.now w.now.bytes self.now.object
            self.now.count self.now.name_len }
    {
        self.name_in(w.view(), types)
    }

    /// Like [`name`](NameEntry::name), from the segment's bytes.
    pub fn name_in<'a>(&self, view: View<'a>, types: &TypeTable) -> &'a [u8]
        ensures { result.now ≡ name_of types.now view.entry.bytes.now self.now.object
            self.now.count self.now.name_len }
    {
        let Some(object) = self.object else {
            return &[];
        };
        let Some(type_id) = self.type_in(view) else {
            return &[];
        };
        let values = self.values_len(types.size(type_id));
        view.slice(object as usize + values, self.name_len as usize)
    }
}
