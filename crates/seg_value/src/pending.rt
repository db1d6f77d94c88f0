ghost use Rattle.std.specs.Prelude.{◌≡◌, ◌≢◌, ℕ, ◌+◌, ◌*◌, ◌/◌, ◌-◌, ◌≤◌, List, [], ◌∷◌, ◌++◌, length, Option, Some, None, IfSome, true, false};
ghost use Rattle.seg_spec.specs.Pointer.{target, set_pointer};
ghost use Rattle.seg_spec.specs.Types.{form_at, IsTable, fields_of, size};
ghost use Rattle.seg_spec.specs.Value.{Value};
ghost use Rattle.seg_spec.specs.Heap.{IsHeap, Span, live};
ghost use Rattle.seg_spec.specs.Block.{IsInside, block_of, payload_size};
ghost use Rattle.seg_spec.specs.Reads as reads;
ghost use Rattle.seg_spec.specs.Reads.{Holds};
ghost use Rattle.seg_spec.specs.Sound.{times, positions};
ghost use Rattle.seg_spec.specs.Owing.{IsPart, AreParts, OwesLinks, entries_at};
ghost use Rattle.seg_spec.specs.Destroying.{AreLive, GoesWith, Awaits, Pops, Uncouples, DefaultsRest, Destroys};
ghost use Rattle.seg_spec.specs.Shared.{named_in};
ghost use Rattle.seg_spec.specs.Frozen.{Frozen};
ghost use Rattle.seg_spec.specs.Bytes.{set_word};
ghost use Rattle.seg_spec.specs.Window.{with_bytes, KeepsHost};
ghost use Rattle.seg_block.specs.Blocks.{IsSized};
ghost use Rattle.seg_layout.specs.Forms.{has_cells};
ghost use Rattle.seg_cells.specs.Entries.{IsEntryOf};
ghost use Rattle.seg_cells.specs.Contents.{ContentOf};
ghost use Rattle.seg_cells.specs.Places.{place_of, object_at};
ghost use Rattle.seg_value.specs.Waiting.{AddsWaiting, OpensPending, links_of};

use crate::heap::Heap;
use seg_block::{Fit, Kind, LINK, PayloadAt, Tag, UNIT, block_of, link, tag_word};
use seg_cells::{CellAt, Cells, Content, Entry, Held, PREVIOUS, Place, Shape};
use std::alloc::Allocator;

/// The offset of the pointer to the right child in a map's node, in bytes.
const RIGHT: u32 = 4;

/// Blocks that are to be destroyed, as a list through their links. A block in the list shows by itself what it owns:
/// each entry that a buffer has room for is a value, and neither a node's next node nor its children are in the list
/// yet.
#[derive(Drop)]
pub(crate) struct Pending {
    /// The position of the payload of the first one.
    first: Option<PayloadAt>,
}

impl Pending {
    pub(crate) fn new() -> Pending
        ensures { result.first ≡ None }
    {
        Pending { first: None }
    }

    /// Adds the block whose payload begins at a position.
    pub(crate) fn push<F: Fit, A: Allocator>(&mut self, heap: &mut Heap<F, A>, payload: PayloadAt)
        ensures window { KeepsHost heap.old.window heap.new.window }
        ensures types { heap.new.types ≡ heap.old.types }
        ensures added { (xs ns : List ℕ) →
            GoesWith heap.old.window.bytes heap.old.types payload xs ns →
            AddsWaiting heap.old heap.new self.old.first self.new.first [] xs ns }
    {
        heap.set_link(payload, self.first);
        self.first = Some(payload);
    }

    /// Removes the first block, and returns the position of its payload.
    fn pop<F: Fit, A: Allocator>(&mut self, heap: &Heap<F, A>) -> Option<PayloadAt>
        ensures none { result ≡ None → self.old.first ≡ None }
        ensures first { (p : ℕ) → result ≡ Some p → self.old.first ≡ Some p }
        ensures popped { (allocator : ℕ) (blocks names : List ℕ) (kept : List reads.Place)
            (theirs : ℕ → List ℕ) (final : List Frozen) →
            Awaits allocator heap.now.window.bytes heap.now.types self.old.first
            blocks names kept theirs final →
            IfSome result (λ p. Pops allocator heap.now.window.bytes heap.now.types
            p self.new.first blocks names kept theirs final) }
    {
        let payload = self.first?;
        self.first = link(heap.window(), block_of(payload));
        Some(payload)
    }

    /// Adds the blocks that the cells of a value point to. The value must not be read any more.
    pub(crate) fn add_value<F: Fit, A: Allocator>(&mut self, heap: &mut Heap<F, A>, place: Place)
        ensures window { KeepsHost heap.old.window heap.new.window }
        ensures types { heap.new.types ≡ heap.old.types }
        ensures added { (home : ℕ) (xs ns : List ℕ) →
            IsInside heap.old.window.bytes home place.at (size heap.old.types place.type_id) →
            IsPart heap.old.window.bytes heap.old.types (place_of place) xs ns →
            AddsWaiting heap.old heap.new self.old.first self.new.first (home ∷ []) xs ns }
    {
        if !heap.types().has_pointers(place.type_id) {
            return;
        }
        let fields = heap.types().field_count(place.type_id);
        if fields == 0 {
            self.add_cell(heap, place);
            return;
        }
        for index in 0..fields {
            if let Some(field) = heap.types().field(place.type_id, index) {
                let part = place.part(field);
                match heap.cells(part.type_id) {
                    Cells::Number => {}
                    Cells::Pointer => self.add_cell(heap, part),
                    Cells::Fields => self.add_value(heap, part),
                }
            }
        }
    }

    /// Adds the block that a cell points to. For a list or a map this is one node, which points to others. A frozen
    /// object is released instead.
    #[inline(always)]
    fn add_cell<F: Fit, A: Allocator>(&mut self, heap: &mut Heap<F, A>, cell: Place)
        ensures window { KeepsHost heap.old.window heap.new.window }
        ensures types { heap.new.types ≡ heap.old.types }
        ensures added { (xs ns : List ℕ) → length (fields_of heap.old.types cell.type_id) ≡ 0 →
            has_cells (form_at heap.old.types cell.type_id) ≡ true →
            IsPart heap.old.window.bytes heap.old.types (place_of cell) xs ns →
            AddsWaiting heap.old heap.new self.old.first self.new.first [] xs ns }
    {
        let Some(payload) = heap.window().target(cell.at as usize) else {
            return;
        };
        let Some(content) = heap.content(cell.type_id) else {
            self.release(heap, payload);
            return;
        };
        heap.uncouple(&content, cell.at, payload);
        self.push(heap, payload);
    }

    /// Lowers the count of a frozen object for one cell that no longer points to it. Adds the object if no cell is
    /// left.
    fn release<F: Fit, A: Allocator>(&mut self, heap: &mut Heap<F, A>, payload: PayloadAt)
        ensures window { KeepsHost heap.old.window heap.new.window }
        ensures types { heap.new.types ≡ heap.old.types }
        ensures released { AddsWaiting heap.old heap.new self.old.first self.new.first
            [] [] (payload ∷ []) }
    {
        let count = heap.window().get32(payload as usize).saturating_sub(1);
        heap.set_cell_count(payload, count);
        if count == 0 {
            self.push(heap, payload);
        }
    }

    /// Adds the blocks that a block of the list points to.
    fn open<F: Fit, A: Allocator>(&mut self, heap: &mut Heap<F, A>, payload: PayloadAt)
        ensures window { KeepsHost heap.old.window heap.new.window }
        ensures types { heap.new.types ≡ heap.old.types }
        ensures opened { (xs ns : List ℕ) →
            GoesWith heap.old.window.bytes heap.old.types payload xs ns →
            OpensPending heap.old heap.new self.old.first self.new.first payload xs ns }
    {
        let Some(tag) = Tag::read(tag_word(heap.window(), block_of(payload))) else {
            return;
        };
        // as its content below would show, in a third of the instructions
        if tag.kind == Kind::Object {
            let value = Place {
                at: payload,
                type_id: tag.type_id,
            };
            self.add_value(heap, value);
            return;
        }
        let Some(content) = Content::of_block(heap.types(), tag) else {
            return;
        };
        self.add_links(heap, content.shape, payload);
        let entries = heap.entry_count(&content, payload);
        self.add_entries(heap, content.entry, payload, entries);
    }

    /// Adds the nodes that the pointers of a node point to. Other blocks have no such pointers.
    fn add_links<F: Fit, A: Allocator>(
        &mut self,
        heap: &mut Heap<F, A>,
        shape: Shape,
        payload: PayloadAt,
    )
        ensures window { KeepsHost heap.old.window heap.new.window }
        ensures types { heap.new.types ≡ heap.old.types }
        ensures added { (home : ℕ) (xs ns : List ℕ) →
            IsInside heap.old.window.bytes home payload 8 →
            OwesLinks heap.old.window.bytes heap.old.types (links_of shape payload) xs ns →
            AddsWaiting heap.old heap.new self.old.first self.new.first (home ∷ []) xs ns }
    {
        match shape {
            Shape::Ring => self.add_node(heap, payload),
            Shape::Tree => {
                self.add_node(heap, payload);
                self.add_node(heap, payload.wrapping_add(RIGHT));
            }
            Shape::Buffer | Shape::Object => {}
        }
    }

    /// Adds the node that a pointer of another node points to.
    fn add_node<F: Fit, A: Allocator>(&mut self, heap: &mut Heap<F, A>, pointer: u32)
        ensures window { KeepsHost heap.old.window heap.new.window }
        ensures types { heap.new.types ≡ heap.old.types }
        ensures added { (xs ns : List ℕ) →
            OwesLinks heap.old.window.bytes heap.old.types (pointer ∷ []) xs ns →
            AddsWaiting heap.old heap.new self.old.first self.new.first [] xs ns }
    {
        if let Some(node) = heap.window().target(pointer as usize) {
            self.push(heap, node);
        }
    }

    /// Adds the blocks that the values of `n` entries point to.
    fn add_entries<F: Fit, A: Allocator>(
        &mut self,
        heap: &mut Heap<F, A>,
        entry: Entry,
        start: PayloadAt,
        n: u32,
    )
        ensures window { KeepsHost heap.old.window heap.new.window }
        ensures types { heap.new.types ≡ heap.old.types }
        ensures bytes { entry.held ≡ Held.Bytes →
            (heap.new.window ≡ heap.old.window) × (self.new.first ≡ self.old.first) }
        ensures added { (home before U : ℕ) (xs ns : List ℕ) →
            IsEntryOf heap.old.types before U entry →
            IsInside heap.old.window.bytes home start (n * (before + size heap.old.types U)) →
            AreParts heap.old.window.bytes heap.old.types
            (entries_at heap.old.types start before U n) xs ns →
            AddsWaiting heap.old heap.new self.old.first self.new.first (home ∷ []) xs ns }
    {
        if !heap.owns_more(entry) {
            return;
        }
        for index in 0..n {
            if let Some(value) = entry.value(start, index) {
                self.add_value(heap, value);
            }
        }
    }

    /// Frees the blocks, and all blocks that they point to. A frozen object is freed if no other cell points to it.
    pub(crate) fn destroy<F: Fit, A: Allocator>(mut self, heap: &mut Heap<F, A>)
        ensures window { KeepsHost heap.old.window heap.new.window }
        ensures types { heap.new.types ≡ heap.old.types }
        ensures destroyed { (blocks : List ℕ) (kept : List reads.Place) (theirs : ℕ → List ℕ)
            (final : List Frozen) →
            IsTable heap.old.types →
            Awaits F.allocator heap.old.window.bytes heap.old.types self.first
            blocks [] kept theirs final →
            AreLive heap.old.window.bytes blocks →
            Destroys F.allocator heap.old.window.bytes heap.new.window.bytes heap.old.types
            blocks theirs final }
    {
        // a segment has at most this many blocks
        for _turn in 0..heap.window().len() / UNIT {
            let Some(payload) = self.pop(heap) else {
                break;
            };
            self.open(heap, payload);
            heap.free_block(payload);
        }
    }
}

impl<F: Fit, A: Allocator> Heap<F, A> {
    /// Makes the link of a block point to a payload.
    fn set_link(&mut self, payload: PayloadAt, to: Option<PayloadAt>)
        ensures window { self.new.window ≡ with_bytes self.old.window
            (set_pointer self.old.window.bytes (block_of payload + LINK) to) }
        ensures types { self.new.types ≡ self.old.types }
    {
        self.window.point(block_of(payload) as usize + LINK, to);
    }

    /// Writes how many cells point to a frozen object.
    fn set_cell_count(&mut self, payload: PayloadAt, count: u32)
        ensures window { self.new.window ≡ with_bytes self.old.window
            (set_word self.old.window.bytes payload count) }
        ensures types { self.new.types ≡ self.old.types }
    {
        self.window.put32(payload as usize, count);
    }

    /// How many entries a block has: as many as a buffer has room for, or one in any other block.
    fn entry_count(&self, content: &Content, start: PayloadAt) -> u32
        ensures buffer { (g : Span) → content.now.shape ≡ Shape.Buffer → start ≡ g.at + UNIT →
            IsSized self.now.window.bytes g →
            result ≡ (UNIT * g.units - UNIT) / content.now.entry.size }
        ensures one { content.now.shape ≢ Shape.Buffer → result ≡ 1 }
    {
        match content.shape {
            Shape::Buffer => self.capacity(content.entry, start),
            Shape::Ring | Shape::Tree | Shape::Object => 1,
        }
    }

    /// Whether the values of entries may have pointers to blocks.
    fn owns_more(&self, entry: Entry) -> bool
        ensures value { (U : ℕ) → entry.held ≡ Held.Value U →
            result ≡ has_cells (form_at self.now.types U) }
        ensures bytes { entry.held ≡ Held.Bytes → result ≡ false }
    {
        match entry.held {
            Held::Value(t) => self.types().has_pointers(t),
            Held::Bytes | Held::Pointer => false,
        }
    }

    /// Prepares the block that a cell points to, so that it shows by itself what it owns: the unused entries of a
    /// buffer become defaults, and the last node of a ring gets a null pointer to the next.
    fn uncouple(&mut self, content: &Content, cell: CellAt, payload: PayloadAt)
        ensures window { KeepsHost self.old.window self.new.window }
        ensures types { self.new.types ≡ self.old.types }
        ensures uncouples { (allocator T : ℕ) (v : Value) (xs : List ℕ) →
            IsTable self.old.types → IsHeap allocator self.old.window.bytes →
            ContentOf self.old.types T (form_at self.old.types T) (Some content.now) →
            target self.old.window.bytes cell ≡ Some payload →
            Holds self.old.window.bytes self.old.types (object_at cell T) v xs →
            AreLive self.old.window.bytes xs →
            Uncouples allocator self.old.window.bytes self.new.window.bytes self.old.types
            payload xs (named_in v) }
    {
        match content.shape {
            Shape::Buffer => {
                let used = self.count(cell);
                self.default_rest(content.entry, payload, used);
            }
            Shape::Ring => self.open_ring(payload),
            Shape::Tree | Shape::Object => {}
        }
    }

    /// Writes defaults to the unused entries of a buffer, if their values may have pointers to blocks.
    fn default_rest(&mut self, entry: Entry, start: PayloadAt, used: u32)
        ensures window { KeepsHost self.old.window self.new.window }
        ensures types { self.new.types ≡ self.old.types }
        ensures bytes { entry.held ≡ Held.Bytes → self.new.window ≡ self.old.window }
        ensures rest { (allocator before U : ℕ) → IsTable self.old.types →
            IsEntryOf self.old.types before U entry → IsHeap allocator self.old.window.bytes →
            16 ≤ start → 1 ≤ times (block_of start) (positions (live self.old.window.bytes)) →
            used * (before + size self.old.types U)
            ≤ payload_size self.old.window.bytes (block_of start) →
            DefaultsRest self.old.window.bytes self.new.window.bytes self.old.types
            start before U used }
    {
        if !self.owns_more(entry) {
            return;
        }
        let from = entry.at(start, used);
        let rest = self.capacity(entry, start).saturating_sub(used);
        for index in 0..rest {
            if let Some(value) = entry.value(from, index) {
                self.init_default(value);
            }
        }
    }

    /// Makes the last node's pointer to the next node null.
    fn open_ring(&mut self, first: PayloadAt)
        ensures window { KeepsHost self.old.window self.new.window }
        ensures types { self.new.types ≡ self.old.types }
        ensures opened { (last : ℕ) → target self.old.window.bytes (first + 4) ≡ Some last →
            self.new.window.bytes ≡ set_pointer self.old.window.bytes last None }
    {
        if let Some(last) = self.window.target(first as usize + PREVIOUS as usize) {
            self.window.point(last as usize, None);
        }
    }
}
