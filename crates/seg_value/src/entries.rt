ghost use Rattle.std.specs.Prelude.{◌≡◌, ℕ, ℤ, ◌<◌, ◌≤◌, List, [], IsOkUnless, MatchResult};
ghost use Rattle.seg_spec.specs.Calls.{Refuses};
ghost use Rattle.seg_spec.specs.Owning.{Stands};
ghost use Rattle.seg_spec.specs.Reads.{count_at};
ghost use Rattle.seg_spec.specs.Spending.{entry_asks, PlaceBlocks};
ghost use Rattle.seg_spec.specs.Value.{Values, Map};
ghost use Rattle.seg_spec.specs.Window.{KeepsHost};
ghost use Rattle.seg_value.specs.Entries.{NamesFlatMap, OpensEntry, ClosesEntry, flat_asks, flat_value};
ghost use Rattle.seg_value.specs.Names.{FindsIndex, OpensName, ClosesName};
ghost use Rattle.seg_cells.specs.Places.{object_at as place_at};

use crate::heap::Heap;
use seg_block::Fit;
use seg_cells::{CellAt, Content};
use seg_ptr::Code;
use std::alloc::Allocator;

/// Inserting and removing entries of a buffer, for flat maps and the flat index.
impl<F: Fit, A: Allocator> Heap<F, A> {
    /// Makes room for an entry at an index of a cell's buffer: the entries from there on move up by one, and the cell's
    /// count grows. Returns the position of the new entry, whose bytes the caller writes. `BadAlloc` if there is no
    /// room; then nothing changes.
    pub fn open_entry(&mut self, content: &Content, cell: CellAt, index: u32) -> Result<u32, Code>
        ensures window { KeepsHost self.old.window self.new.window }
        ensures types { self.new.types ≡ self.old.types }
        ensures code { IsOkUnless result Code.BadAlloc }
        ensures opens { (T U : ℕ) (keys : List ℤ) (vs : Values) (blocks : List ℕ) →
            NamesFlatMap self.old.types T U content.now →
            Stands F.allocator self.old.window.bytes self.old.types (place_at cell T) (Map keys vs)
            blocks →
            index ≤ count_at self.old.window.bytes cell →
            MatchResult result
            (OpensEntry F.allocator self.old.window.bytes self.new.window.bytes self.old.types
            (place_at cell T) U keys vs blocks index)
            (λ code. Refuses F.allocator self.old.window.bytes self.new.window.bytes
            (flat_asks self.old.window.bytes self.old.types cell U)) }
        ensures opens_name { FindsIndex F.allocator self.old.window.bytes
            self.old.types content.now cell →
            index ≤ count_at self.old.window.bytes cell →
            MatchResult result
            (OpensName F.allocator self.old.window.bytes self.new.window.bytes self.old.types index)
            (λ code. Refuses F.allocator self.old.window.bytes self.new.window.bytes
            (entry_asks 0 self.old.window.bytes)) }
    {
        let entry = content.entry;
        let kept = self.count(cell);
        let len = kept.saturating_add(1);
        let start = self.reserve(content, cell, len)?;
        let at = entry.at(start, index);
        let next = entry.at(start, index.saturating_add(1));
        self.shift_entries(entry, at, next, kept.saturating_sub(index));
        self.set_count(cell, len);
        Ok(at)
    }

    /// Removes the entry at an index of a cell's buffer, which must not own anything: the entries after it move down by
    /// one, and the cell's count shrinks.
    pub fn close_entry(&mut self, content: &Content, cell: CellAt, index: u32)
        ensures window { KeepsHost self.old.window self.new.window }
        ensures types { self.new.types ≡ self.old.types }
        ensures closes { (T U : ℕ) (keys : List ℤ) (vs : Values) (blocks : List ℕ) →
            NamesFlatMap self.old.types T U content.now →
            Stands F.allocator self.old.window.bytes self.old.types (place_at cell T) (Map keys vs)
            blocks →
            index < count_at self.old.window.bytes cell →
            PlaceBlocks self.old.window.bytes self.old.types
            (flat_value self.old.window.bytes self.old.types cell U index) [] →
            ClosesEntry self.old.window.bytes self.new.window.bytes self.old.types
            (place_at cell T) U keys vs blocks index }
        ensures closes_name { FindsIndex F.allocator self.old.window.bytes
            self.old.types content.now cell →
            index < count_at self.old.window.bytes cell →
            ClosesName self.old.window.bytes self.new.window.bytes self.old.types index }
    {
        let entry = content.entry;
        let last = self.count(cell).saturating_sub(1);
        let start = self.start(cell);
        let at = entry.at(start, index);
        let next = entry.at(start, index.saturating_add(1));
        self.shift_entries(entry, next, at, last.saturating_sub(index));
        self.set_count(cell, last);
    }
}
