ghost use Rattle.std.specs.Prelude.{◌≡◌, ◌+◌, ◌-◌, ◌≤◌, length};
ghost use Rattle.seg_spec.specs.Bytes.{set_word, signed_long, ChangesOnly};
ghost use Rattle.seg_spec.specs.Reads.{count_at, start};
ghost use Rattle.seg_spec.specs.Window.{with_bytes, KeepsHost};
ghost use Rattle.seg_block.specs.Blocks.{payload_at};

use crate::heap::Heap;
use seg_block::{Fit, PayloadAt, block_of, payload};
use seg_cells::{CellAt, count, load, start};
use seg_ptr::Window;
use std::alloc::Allocator;

/// The size in bytes of the payload that begins at a position, according to its block's header.
pub fn room<A: Allocator>(w: &Window<A>, at: PayloadAt) -> u64
    ensures { result ≡ payload_at w.now.bytes (at - 16) }
{
    payload(w, block_of(at))
}

/// The cells of values: a number, or a pointer and a count.
impl<F: Fit, A: Allocator> Heap<F, A> {
    /// Like [`count`], in the heap's window.
    pub fn count(&self, cell: CellAt) -> u32
        ensures { result ≡ count_at self.now.window.bytes cell }
    {
        count(&self.window, cell)
    }

    pub fn set_count(&mut self, cell: CellAt, count: u32)
        ensures window { self.new.window ≡
            with_bytes self.old.window (set_word self.old.window.bytes (cell + 4) count) }
        ensures types { self.new.types ≡ self.old.types }
    {
        self.window.put32(cell as usize + 4, count);
    }

    /// Like [`start`](crate::start), in the heap's window.
    pub fn start(&self, cell: CellAt) -> PayloadAt
        ensures { result ≡ start self.now.window.bytes cell }
    {
        start(&self.window, cell)
    }

    /// Like [`load`](crate::load), in the heap's window.
    pub fn load(&self, at: CellAt) -> i64
        ensures { result ≡ signed_long self.now.window.bytes at }
    {
        load(&self.window, at)
    }

    /// Writes a number.
    pub fn store(&mut self, at: CellAt, value: i64)
        ensures window { KeepsHost self.old.window self.new.window }
        ensures types { self.new.types ≡ self.old.types }
        ensures stored { at + 8 ≤ length self.old.window.bytes →
            signed_long self.new.window.bytes at ≡ value }
        ensures changes { ChangesOnly self.old.window.bytes self.new.window.bytes at 8 }
    {
        self.window.put64(at as usize, value.cast_unsigned());
    }
}
