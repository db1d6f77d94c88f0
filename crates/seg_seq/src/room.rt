ghost use Rattle.std.specs.Prelude.{◌≡◌, ◌%◌, ◌^◌, MatchOption};
ghost use Rattle.seg_seq.specs.Buffers.{LacksEntry, HasEntry};

use seg_block::{UNIT, units_of};
use seg_ptr::View;
use seg_value::CellAt;

/// The size of a cell in bytes.
const CELL: usize = 8;

/// Room for one more entry in the buffer that a cell points to, after its other entries.
#[derive(Debug, Clone, Copy, PartialEq, Eq)]
pub(crate) struct Room {
    /// The cell's present count.
    pub(crate) count: u32,
    /// The position of the new entry.
    pub(crate) at: usize,
}

impl Room {
    /// Room for an entry of `size` bytes. `None` if the cell has no buffer or doesn't lie in the segment, or if the
    /// buffer has no such room according to the header before its payload.
    // The test that the entry lies in the segment also covers the header before it.
    #[inline(always)]
    pub(crate) fn of(bytes: View, cell: CellAt, size: u32) -> Option<Room>
        ensures { MatchOption result
            (LacksEntry bytes.entry.bytes.now cell size)
            (HasEntry bytes.entry.bytes.now cell size) }
    {
        let cell = cell as usize;
        if bytes.len() < cell + CELL {
            return None;
        }
        let start = bytes.target(cell)?;
        let count = bytes.get32(cell + 4);
        let block = start.wrapping_sub(UNIT) as usize;
        let used = UNIT as usize + count as usize * size as usize;
        let end = (block + used).saturating_add(size as usize);
        if end > bytes.len() {
            return None;
        }
        let units = units_of(bytes.get32(block));
        if used + size as usize > UNIT as usize * units as usize {
            return None;
        }
        Some(Room {
            count,
            at: block + used,
        })
    }

    /// The position of the new entry, in 32 bits.
    #[inline(always)]
    pub(crate) fn position(self) -> u32
        ensures { result ≡ self.at % 2 ^ 32 }
    {
        (self.at % (1 << 32)) as u32
    }
}
