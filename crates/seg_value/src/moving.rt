ghost use Rattle.std.specs.Prelude.{◌≡◌, ℕ, ◌+◌, ◌*◌, ◌%◌, ◌^◌, ◌<◌, ◌≤◌, List, length};
ghost use Rattle.seg_spec.specs.Bytes.{slice, put, ChangesOnly};
ghost use Rattle.seg_spec.specs.Cells.{IsWithin, Shifts};
ghost use Rattle.seg_spec.specs.Heap.{IsHeap};
ghost use Rattle.seg_spec.specs.Owning.{StandsBeside};
ghost use Rattle.seg_spec.specs.Parts.{PersistEach};
ghost use Rattle.seg_spec.specs.Reads.{items, HoldsEach};
ghost use Rattle.seg_spec.specs.Types.{size};
ghost use Rattle.seg_spec.specs.Value.{Values};
ghost use Rattle.seg_spec.specs.Window.{KeepsHost};
ghost use Rattle.seg_cells.specs.Entries.{IsEntryOf};
ghost use Rattle.seg_cells.specs.Pointers.{MovesPointers};

use crate::heap::Heap;
use seg_block::Fit;
use seg_cells::{Content, Entry, Held, point_each_again};
use seg_layout::TypeId;
use std::alloc::Allocator;

/// Moves of values, which keep what their pointers point to.
impl<F: Fit, A: Allocator> Heap<F, A> {
    /// Moves `n` values of a type, one after the other; the two ranges may overlap. Nothing changes if either doesn't
    /// lie in the segment.
    pub fn shift(&mut self, t: TypeId, from: u32, to: u32, n: u32)
        ensures window { KeepsHost self.old.window self.new.window }
        ensures types { self.new.types ≡ self.old.types }
        ensures changes { IsWithin self.old.window.bytes from (n * size self.old.types t) →
            IsWithin self.old.window.bytes to (n * size self.old.types t) →
            ChangesOnly self.old.window.bytes self.new.window.bytes to (n * size self.old.types t) }
        ensures values { (allocator home : ℕ) (vs : Values) (blocks : List ℕ) →
            IsHeap allocator self.old.window.bytes → to % 8 ≡ 0 →
            IsWithin self.old.window.bytes from (n * size self.old.types t) →
            StandsBeside self.old.window.bytes home to (n * size self.old.types t) blocks →
            HoldsEach self.old.window.bytes self.old.types
            (items self.old.types from t n) vs blocks →
            HoldsEach self.new.window.bytes self.old.types
            (items self.old.types to t n) vs blocks }
        ensures parts { (allocator home : ℕ) (vs : Values) (blocks : List ℕ) →
            IsHeap allocator self.old.window.bytes → to % 8 ≡ 0 →
            IsWithin self.old.window.bytes from (n * size self.old.types t) →
            StandsBeside self.old.window.bytes home to (n * size self.old.types t) blocks →
            HoldsEach self.old.window.bytes self.old.types
            (items self.old.types from t n) vs blocks →
            PersistEach self.old.window.bytes self.new.window.bytes self.old.types
            (items self.old.types from t n) (items self.old.types to t n) }
        ensures no_values { length self.old.window.bytes < from + n * size self.old.types t →
            self.new.window ≡ self.old.window }
        ensures no_room { length self.old.window.bytes < to + n * size self.old.types t →
            self.new.window ≡ self.old.window }
    {
        let entry = Content::object(self.layouts.types(), t).entry;
        self.shift_entries(entry, from, to, n);
    }

    /// Moves `n` entries, one after the other, like [`shift`](Heap::shift).
    pub fn shift_entries(&mut self, entry: Entry, from: u32, to: u32, n: u32)
        ensures window { KeepsHost self.old.window self.new.window }
        ensures types { self.new.types ≡ self.old.types }
        ensures text { entry.held ≡ Held.Bytes →
            IsWithin self.old.window.bytes from (n * entry.size) →
            IsWithin self.old.window.bytes to (n * entry.size) →
            self.new.window.bytes ≡
            put self.old.window.bytes to (slice self.old.window.bytes from (n * entry.size)) }
        ensures shifted { (U before : ℕ) → IsEntryOf self.old.types before U entry →
            IsWithin self.old.window.bytes from (n * entry.size) →
            IsWithin self.old.window.bytes to (n * entry.size) →
            Shifts self.old.window.bytes self.new.window.bytes self.old.types
            before U entry.size from to n }
        ensures pointers { entry.held ≡ Held.Pointer → entry.before + 4 ≤ entry.size →
            IsWithin self.old.window.bytes from (n * entry.size) →
            IsWithin self.old.window.bytes to (n * entry.size) →
            MovesPointers self.old.window.bytes self.new.window.bytes
            entry.size entry.before from to n }
        ensures no_entries { length self.old.window.bytes < from + n * entry.size →
            self.new.window ≡ self.old.window }
        ensures no_room { length self.old.window.bytes < to + n * entry.size →
            self.new.window ≡ self.old.window }
    {
        let bytes = (n as usize).saturating_mul(entry.size as usize);
        if !self.window.holds(from as usize, bytes) || !self.window.holds(to as usize, bytes) {
            return;
        }
        self.window.move_within(from as usize, to as usize, bytes);
        let distance = distance(to, from);
        point_each_again(
            &mut self.window,
            self.layouts.types(),
            entry,
            to,
            n,
            distance,
        );
    }
}

/// How far one position is after another, modulo 2^32.
fn distance(from: u32, to: u32) -> u32
    ensures { (from + result) % 2 ^ 32 ≡ to }
{
    to.wrapping_sub(from)
}
