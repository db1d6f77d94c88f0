ghost use Rattle.std.specs.Prelude.{◌≡◌, ℕ, ◌+◌, ◌-◌, ◌*◌, ◌/◌, ◌%◌, ◌^◌, ◌<◌, ◌≤◌, [], ◌∷◌, length, List, Some, true, false, option_map, IfOk, IsOkUnless, MatchResult};
ghost use Rattle.seg_spec.specs.Bytes.{set_word};
ghost use Rattle.seg_spec.specs.Block.{has_buffer};
ghost use Rattle.seg_block.specs.Blocks.{HasRoom, payload_at};
ghost use Rattle.seg_spec.specs.Calls.{Refuses};
ghost use Rattle.seg_spec.specs.Demand.{block_for};
ghost use Rattle.seg_spec.specs.Block.{block_of};
ghost use Rattle.seg_spec.specs.Growing.{Reserves, MovesBuffer};
ghost use Rattle.seg_spec.specs.Index.{index_node_size};
ghost use Rattle.seg_spec.specs.Heap.{Span, IsHeap, IsLive, Takes, Gives};
ghost use Rattle.seg_spec.specs.Owning.{Stands};
ghost use Rattle.seg_spec.specs.Pointer.{target};
ghost use Rattle.seg_spec.specs.Reads.{count_at, start};
ghost use Rattle.seg_spec.specs.Shrinking.{ShrinksPlace};
ghost use Rattle.seg_spec.specs.Spending.{units_named, buffer_asks};
ghost use Rattle.seg_spec.specs.Types.{Form, IsTable, form_at, size};
ghost use Rattle.seg_spec.specs.Value.{Value};
ghost use Rattle.seg_spec.specs.Window.{with_bytes, KeepsHost};
ghost use Rattle.seg_block.specs.Blocks.{IsSized};
ghost use Rattle.seg_block.specs.Tags.{word_of};
ghost use Rattle.seg_value.specs.Buffers.{NamesBuffer, MakesRoom};
ghost use Rattle.seg_cells.specs.Contents.{IsContent};
ghost use Rattle.seg_value.specs.Contents.{GivesBlock};
ghost use Rattle.seg_value.specs.Names.{index_cell, FindsNames, FindsIndex, MakesIndexRoom, MovesIndex, EmptiesIndex};
ghost use Rattle.seg_cells.specs.Contents.{IsIndexNode};
ghost use Rattle.seg_value.specs.Nodes.{GivesNode};
ghost use Rattle.seg_cells.specs.Places.{place_of, object_at as place_at};

use crate::cell::room;
use crate::entry::need;
use crate::heap::Heap;
use seg_block::{BlockAt, Fit, Grant, PayloadAt, UNIT, block_of, preferred, request};
use seg_cells::{CellAt, Content, Entry, Place, Shape};
use seg_ptr::Code;
use std::alloc::Allocator;

/// Blocks of entries, and the buffers that cells point to.
impl<F: Fit, A: Allocator> Heap<F, A> {
    /// How many entries fit in the block whose payload begins at `start`. 0 if the segment is too short for the size in
    /// the block's header.
    pub fn capacity(&self, entry: Entry, start: PayloadAt) -> u32
        ensures stated { HasRoom self.now.window.bytes (start - 16) →
            result ≡ payload_at self.now.window.bytes (start - 16) / entry.size }
        ensures none { (HasRoom self.now.window.bytes (start - 16) → ⊥) → result ≡ 0 }
        ensures block { (g : Span) → start ≡ g.at + 16 → IsSized self.now.window.bytes g →
            result ≡ (16 * g.units - 16) / entry.size }
    {
        seg_block::capacity(&self.window, start, entry.size)
    }

    /// Allocates a block for one entry, with the default of its value. Returns the position of its payload. `BadAlloc`
    /// if no free block is large enough; then nothing changes.
    // Inlined: a call would pass the layout through memory.
    #[inline(always)]
    pub fn new_block(&mut self, content: &Content) -> Result<PayloadAt, Code>
        ensures window { KeepsHost self.old.window self.new.window }
        ensures types { self.new.types ≡ self.old.types }
        ensures code { IsOkUnless result Code.BadAlloc }
        ensures given { (before U tag : ℕ) (shape : Shape) →
            IsContent self.old.types shape tag before U content.now → before ≤ 24 → tag < 2 ^ 32 →
            IsTable self.old.types → U < length self.old.types →
            IsHeap F.allocator self.old.window.bytes →
            MatchResult result
            (GivesBlock F.allocator self.old.window.bytes self.new.window.bytes self.old.types
            tag before U)
            (λ code. Refuses F.allocator self.old.window.bytes self.new.window.bytes
            (block_for (before + size self.old.types U) ∷ [])) }
        ensures given_node { IsIndexNode content.now → IsHeap F.allocator self.old.window.bytes →
            MatchResult result
            (GivesNode F.allocator self.old.window.bytes self.new.window.bytes)
            (λ code. Refuses F.allocator self.old.window.bytes self.new.window.bytes
            (block_for index_node_size ∷ [])) }
    {
        let need = need(content.entry, 1);
        let Some(block) = F::allocate(&mut self.window, need) else {
            return Err(Code::BadAlloc);
        };
        let payload = self.tagged(content, block);
        if let Some(value) = content.entry.value(payload, 0) {
            self.init_default(value);
        }
        Ok(payload)
    }

    /// Writes the tag of a new block, and returns the position of its payload.
    fn tagged(&mut self, content: &Content, block: BlockAt) -> PayloadAt
        ensures payload { result ≡ (block + 16) % 2 ^ 32 }
        ensures window { self.new.window ≡ with_bytes self.old.window
            (set_word self.old.window.bytes (block + 8) (word_of content.now.tag)) }
        ensures types { self.new.types ≡ self.old.types }
    {
        content.tag.write(&mut self.window, block);
        block.wrapping_add(UNIT)
    }

    /// Frees the block whose payload begins at `start`. Its entries must not own anything.
    pub fn free_block(&mut self, start: PayloadAt)
        ensures window { KeepsHost self.old.window self.new.window }
        ensures types { self.new.types ≡ self.old.types }
        ensures gives { IsHeap F.allocator self.old.window.bytes →
            IsLive self.old.window.bytes (block_of start) →
            Gives F.allocator self.old.window.bytes self.new.window.bytes (block_of start) }
    {
        let block = block_of(start);
        F::free(&mut self.window, block);
    }

    /// Makes room for `limit` entries in the buffer of a cell, including those that it has. Returns the position of its
    /// payload, as [`Heap::start`] does. `BadAlloc` if there is no such room; then nothing changes.
    #[inline(always)]
    pub fn reserve(
        &mut self,
        content: &Content,
        cell: CellAt,
        limit: u32,
    ) -> Result<PayloadAt, Code>
        ensures window { KeepsHost self.old.window self.new.window }
        ensures types { self.new.types ≡ self.old.types }
        ensures code { IsOkUnless result Code.BadAlloc }
        ensures reserves { (T : ℕ) (v : Value) (blocks : List ℕ) →
            NamesBuffer self.old.types T content.now →
            Stands F.allocator self.old.window.bytes self.old.types (place_at cell T) v blocks →
            MakesRoom F.allocator self.old.window.bytes self.new.window.bytes self.old.types
            (place_at cell T) v blocks content.now.entry.size limit result }
        ensures reserves_index { FindsIndex F.allocator self.old.window.bytes
            self.old.types content.now cell →
            MakesIndexRoom F.allocator self.old.window.bytes self.new.window.bytes self.old.types
            limit result }
        ensures start { IfOk result (λ at. at ≡ start self.new.window.bytes cell) }
    {
        let start = self.window.target(cell as usize);
        if u64::from(limit) * u64::from(content.entry.size) <= self.room(start) {
            return Ok(start.unwrap_or(0));
        }
        self.enlarge(content, cell, limit)?;
        Ok(self.start(cell))
    }

    /// The size in bytes of the buffer that a cell points to, or 0 if its pointer is null.
    fn room(&self, named: Option<PayloadAt>) -> u64
        ensures { (cell : ℕ) → named ≡ target self.now.window.bytes cell →
            result ≡ 16 * units_named self.now.window.bytes cell - 16 }
    {
        match named {
            Some(start) => room(&self.window, start),
            None => 0,
        }
    }

    /// The block of a cell's buffer, if it has one.
    fn buffer_of(&self, cell: CellAt) -> Option<BlockAt>
        ensures { result ≡ option_map (λ p. p - UNIT) (target self.now.window.bytes cell) }
    {
        let start = self.window.target(cell as usize)?;
        Some(block_of(start))
    }

    /// Finds a larger buffer for a cell without room for `limit` entries, in place or elsewhere.
    #[inline(never)]
    fn enlarge(&mut self, content: &Content, cell: CellAt, limit: u32) -> Result<(), Code>
        ensures window { KeepsHost self.old.window self.new.window }
        ensures types { self.new.types ≡ self.old.types }
        ensures code { IsOkUnless result Code.BadAlloc }
        ensures enlarges { (T : ℕ) (v : Value) (blocks : List ℕ) →
            NamesBuffer self.old.types T content.now →
            Stands F.allocator self.old.window.bytes self.old.types (place_at cell T) v blocks →
            16 * units_named self.old.window.bytes cell - 16 < limit * content.now.entry.size →
            MakesRoom F.allocator self.old.window.bytes self.new.window.bytes self.old.types
            (place_at cell T) v blocks content.now.entry.size limit result }
        ensures enlarges_index { FindsIndex F.allocator self.old.window.bytes
            self.old.types content.now cell →
            16 * units_named self.old.window.bytes cell - 16 < limit * content.now.entry.size →
            MakesIndexRoom F.allocator self.old.window.bytes self.new.window.bytes self.old.types
            limit result }
    {
        let entry = content.entry;
        let kept = self.count(cell);
        let block = self.buffer_of(cell);
        let wanted = need(entry, preferred(kept, limit));
        match request::<F, A>(&mut self.window, block, wanted, need(entry, limit)) {
            None => Err(Code::BadAlloc),
            Some(Grant::Same(_)) => Ok(()),
            Some(Grant::New(block)) => {
                self.move_buffer(content, cell, block);
                Ok(())
            }
        }
    }

    /// Moves the entries of a cell to a new block, and frees the old one.
    fn move_buffer(&mut self, content: &Content, cell: CellAt, block: BlockAt)
        ensures window { KeepsHost self.old.window self.new.window }
        ensures types { self.new.types ≡ self.old.types }
        ensures moves { (T u : ℕ) (before : List ℕ) (v : Value) (blocks : List ℕ) →
            NamesBuffer self.old.types T content.now →
            Stands F.allocator before self.old.types (place_at cell T) v blocks →
            Takes F.allocator before self.old.window.bytes u (Some block) → 2 ≤ u →
            count_at before cell * content.now.entry.size + 16 ≤ 16 * u →
            MovesBuffer F.allocator before self.old.window.bytes self.new.window.bytes
            self.old.types (place_at cell T) v blocks u }
        ensures moves_index { (u : ℕ) (before : List ℕ) →
            FindsIndex F.allocator before self.old.types content.now cell →
            Takes F.allocator before self.old.window.bytes u (Some block) → 2 ≤ u →
            count_at before cell * content.now.entry.size + 16 ≤ 16 * u →
            MovesIndex before self.old.window.bytes self.new.window.bytes self.old.types u }
    {
        let new = self.tagged(content, block);
        let Some(old) = self.window.target(cell as usize) else {
            self.window.point(cell as usize, Some(new));
            return;
        };
        let kept = self.count(cell);
        self.shift_entries(content.entry, old, new, kept);
        self.window.point(cell as usize, Some(new));
        self.free_block(old);
    }

    /// Cuts the buffer of a string, a vector or a flat map to what it uses. If it is empty, the buffer is freed. Nothing
    /// changes if the place has another type.
    pub fn shrink_to_fit(&mut self, place: Place)
        ensures window { KeepsHost self.old.window self.new.window }
        ensures types { self.new.types ≡ self.old.types }
        ensures shrinks { (form : Form) (v : Value) (blocks : List ℕ) →
            form_at self.old.types place.type_id ≡ Some form → has_buffer (Some form) ≡ true →
            Stands F.allocator self.old.window.bytes self.old.types (place_of place) v blocks →
            (others : List ℕ) × ShrinksPlace self.old.window.bytes self.new.window.bytes
            self.old.types (place_of place) form v blocks others }
        ensures no_buffer { has_buffer (form_at self.old.types place.type_id) ≡ false →
            self.new.window ≡ self.old.window }
    {
        let Some(content) = self.content(place.type_id) else {
            return;
        };
        let Some(start) = self.window.target(place.at as usize) else {
            return;
        };
        if content.shape != Shape::Buffer {
            return;
        }
        let kept = self.count(place.at);
        if kept == 0 {
            self.free_buffer(place.at);
            return;
        }
        F::shrink(&mut self.window, block_of(start), need(content.entry, kept));
    }

    /// Frees the buffer of a cell, whose entries must not own anything. The cell's pointer is then null.
    pub fn free_buffer(&mut self, cell: CellAt)
        ensures window { KeepsHost self.old.window self.new.window }
        ensures types { self.new.types ≡ self.old.types }
        ensures frees { (T : ℕ) (form : Form) (v : Value) (blocks : List ℕ) →
            form_at self.old.types T ≡ Some form → has_buffer (Some form) ≡ true →
            Stands F.allocator self.old.window.bytes self.old.types (place_at cell T) v blocks →
            count_at self.old.window.bytes cell ≡ 0 →
            (others : List ℕ) × ShrinksPlace self.old.window.bytes self.new.window.bytes
            self.old.types (place_at cell T) form v blocks others }
        ensures empties { cell ≡ index_cell →
            FindsNames F.allocator self.old.window.bytes self.old.types →
            count_at self.old.window.bytes cell ≡ 0 →
            EmptiesIndex self.old.window.bytes self.new.window.bytes self.old.types }
    {
        let Some(start) = self.window.target(cell as usize) else {
            return;
        };
        self.window.point(cell as usize, None);
        self.free_block(start);
    }
}
