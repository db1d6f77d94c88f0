ghost use Rattle.std.specs.Prelude.{◌≡◌, ℕ, ◌+◌, ◌*◌, ◌%◌, ◌^◌, ◌≤◌, Some, IfSome};
ghost use Rattle.seg_spec.specs.Types.{IsTable};

use crate::place::{Place, ValueAt};
use seg_block::PayloadAt;
use seg_layout::{TypeId, TypeTable};

/// The size of a key in bytes.
pub const KEY: u32 = 8;

/// The bytes of a list's node before its value: the pointers to the next and to the previous node.
pub const LIST_LINKS: u32 = 8;

/// The offset of the pointer to the previous node in a list's node.
pub const PREVIOUS: u32 = 4;

/// The size of an entry of the flat index in bytes.
const NAME_ENTRY: u32 = 8;

/// What an entry contains, as far as a move or a destruction must know it.
#[derive(Debug, Clone, Copy, PartialEq, Eq)]
pub enum Held {
    /// Bytes without pointers, in a string.
    Bytes,
    /// A value of a type.
    Value(TypeId),
    /// A pointer to a block that the entry doesn't own: an entry of the flat index.
    Pointer,
}

/// An element of a block: a value and what precedes it. A buffer has several, one after the other.
#[derive(Debug, Clone, Copy, PartialEq, Eq)]
pub struct Entry {
    /// The size of the entry in bytes.
    pub size: u32,
    /// How many bytes precede the content: a key, or a node's pointers.
    pub before: u32,
    pub held: Held,
    ghost some: { 1 ≤ size },
}

impl Entry {
    ghost use Rattle.seg_cells.specs.Entries.{IsEntryOf};

    /// A byte of a string.
    pub fn byte() -> Entry
        ensures size { result.size ≡ 1 }
        ensures before { result.before ≡ 0 }
        ensures held { result.held ≡ Held.Bytes }
    {
        Entry {
            size: 1,
            before: 0,
            held: Held::Bytes,
        }
    }

    /// An entry of the flat index.
    pub fn name() -> Entry
        ensures size { result.size ≡ 8 }
        ensures before { result.before ≡ 0 }
        ensures held { result.held ≡ Held.Pointer }
    {
        Entry {
            size: NAME_ENTRY,
            before: 0,
            held: Held::Pointer,
        }
    }

    /// The entry with a value of type `t` after `before` bytes.
    pub fn with_value(types: &TypeTable, t: TypeId, before: u32) -> Entry
        requires { before ≤ 24 }
        ensures entry { IsEntryOf types.now before t result }
        ensures table { IsTable types.now }
    {
        Entry {
            size: before + types.size(t),
            before,
            held: Held::Value(t),
        }
    }

    /// The position of the entry with this index, in a block whose payload begins at `start`.
    pub fn at(self, start: PayloadAt, index: u32) -> u32
        ensures { result ≡ (start + index * self.size) % 2 ^ 32 }
    {
        start.wrapping_add(index.wrapping_mul(self.size))
    }

    /// The position of the content of the entry with this index.
    pub fn value_at(self, start: PayloadAt, index: u32) -> ValueAt
        ensures { result ≡ (start + index * self.size + self.before) % 2 ^ 32 }
    {
        self.at(start, index).wrapping_add(self.before)
    }

    /// The value in the entry with this index, if these entries have values.
    pub fn value(self, start: PayloadAt, index: u32) -> Option<Place>
        ensures value { (t : ℕ) → self.held ≡ Held.Value t →
            result ≡ Some (record {
              at = (start + index * self.size + self.before) % 2 ^ 32;
              type_id = t;
            }) }
        ensures held { IfSome result (λ place. self.held ≡ Held.Value place.type_id) }
    {
        match self.held {
            Held::Value(type_id) => Some(Place {
                at: self.value_at(start, index),
                type_id,
            }),
            Held::Bytes | Held::Pointer => None,
        }
    }
}
