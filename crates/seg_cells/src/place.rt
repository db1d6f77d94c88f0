ghost use Rattle.std.specs.Prelude.{◌≡◌, ◌+◌, ◌%◌, ◌^◌};

use seg_layout::{Cell, TypeId};

/// The position of a value, in bytes from the segment's start.
pub type ValueAt = u32;

/// A value: the position where it begins, and its type.
#[derive(Debug, Clone, Copy, PartialEq, Eq)]
pub struct Place {
    pub at: ValueAt,
    pub type_id: TypeId,
}

impl Place {
    /// A part of the value, as a field of a struct.
    pub fn part(self, cell: Cell) -> Place
        ensures at { result.at ≡ (self.at + cell.from) % 2 ^ 32 }
        ensures type_id { result.type_id ≡ cell.type_id }
    {
        Place {
            at: self.at.wrapping_add(cell.from),
            type_id: cell.type_id,
        }
    }
}
