ghost use Rattle.std.specs.Prelude.{◌≡◌, ℕ, ◌+◌, ◌≤◌, ◌↔◌, length, IsOk, IfErr, OnOk, OnErr};
ghost use Rattle.seg_spec.specs.Bytes.{word, ChangesOnly};
ghost use Rattle.seg_spec.specs.Header.{version_word, types_start, types_size};
ghost use Rattle.seg_spec.specs.Sound.{Picture};
ghost use Rattle.seg_spec.specs.Types.{AreOfVersion, IsTable, HasTable, Agree, IsFirstDifference, longer};
ghost use Rattle.seg_spec.specs.Window.{region_of, KeepsHost};
ghost use Rattle.seg_manager.specs.Segments.{IsSegment, AddsTypes};

use crate::cursor::Cursor;
use seg_raw::{Fault, Region};
use seg_value::{
    CellAt, Content, ENTRY, Fit, Heap, MAX_TYPES, PayloadAt, SegmentRead, TypeId, TypeTable, View,
    Window, header,
};
use std::alloc::Allocator;
use std::marker::Model;

/// A segment: its bytes, its type table, and the allocator of its heap. What its calls promise is about a sound image
/// with that table and that allocator, which may also have anonymous objects without an owner. On any other bytes the
/// calls still return.
#[derive(Drop)]
pub struct Segment<F: Fit, A: Allocator> {
    pub(crate) heap: Heap<F, A>,
    /// The path to the key of a map that was returned last. It is dropped when the heap may change.
    pub(crate) cursor: Cursor,
}

impl<F: Fit, A: Allocator> Model for Segment<F, A> {
    ghost use Rattle.seg_value.specs.Stored.{Stored};
    ghost use Rattle.seg_manager.specs.Cursors.{IsCursorInside};

    ghost Value = { Stored };

    ghost view = { λ segment. segment.heap };

    ghost invariant = { λ segment. IsCursorInside segment.heap.window.bytes segment.cursor };
}

impl<F: Fit, A: Allocator> Segment<F, A> {
    /// The segment in a window.
    pub fn new(window: Window<A>, types: TypeTable) -> Segment<F, A>
        ensures window { result.window ≡ window }
        ensures types { result.types ≡ types }
    {
        Segment {
            heap: Heap::new(window, types),
            cursor: Cursor::new(),
        }
    }

    /// The heap with the segment's values.
    pub fn heap(&self) -> &Heap<F, A>
        ensures { result.now ≡ self.now }
    {
        &self.heap
    }

    ghost use Rattle.std.specs.Borrow.{Lends, sem};
    ghost use Rattle.seg_value.specs.contracts.heap.Heap as the_heap;
    ghost use Rattle.seg_manager.specs.contracts.segment.Segment.{the_row};

    /// The heap with the segment's values, to change it.
    pub fn heap_mut(&mut self) -> &mut Heap<F, A>
        ensures value { result.now ≡ self.old }
        ensures* writes_back { sem 𝓛 (Lends (the_row F.row A.row F.Fit A.Allocator)
            (the_heap.the_row F.row A.row F.Fit A.Allocator) self.entry result (λ heap. heap)) }
    {
        self.cursor.lose();
        &mut self.heap
    }

    pub fn window(&self) -> &Window<A>
        ensures { result.now ≡ self.now.window }
    {
        self.heap.window()
    }

    pub fn types(&self) -> &TypeTable
        ensures { result.now ≡ self.now.types }
    {
        self.heap.types()
    }

    /// Adds the types of a longer table, also in the bytes. `TypeMismatch` if both tables have an entry that differs.
    pub fn add_types(&mut self, types: &TypeTable) -> Result<(), Fault>
        ensures window { KeepsHost self.old.window self.new.window }
        ensures agree { IsOk result ↔ Agree self.old.types types.now }
        ensures types { OnOk result (self.new.types ≡ longer self.old.types types.now) }
        ensures adds { OnOk result ((picture : Picture) →
            IsSegment F.allocator self.old picture →
            AreOfVersion (word self.old.window.bytes version_word) types.now →
            AddsTypes F.allocator self.old self.new picture types.now) }
        ensures differs { IfErr result (λ fault. (k : ℕ) × (fault ≡ Fault.TypeMismatch k)
            × IsFirstDifference self.old.types types.now k) }
        ensures unchanged { OnErr result (self.new ≡ self.old) }
    {
        let mine = self.types();
        mine.agrees(types)?;
        if types.len() <= mine.len() {
            return Ok(());
        }
        let heap = self.heap_mut();
        write_types(heap.window_mut(), types);
        heap.set_types(types.copy());
        Ok(())
    }

    pub fn into_window(self) -> Window<A>
        ensures { result ≡ self.window }
    {
        let Segment { heap, cursor: _ } = self;
        heap.into_window()
    }

    pub fn into_region(self) -> Region<A>
        ensures bytes { result.bytes ≡ region_of self.window }
        ensures home { result.home ≡ self.window.home }
    {
        self.into_window().into_region()
    }
}

impl<F: Fit, A: Allocator> SegmentRead for Segment<F, A> {
    ghost stored = { λ segment. segment };

    ghost allocator = { λ _. F.allocator };

    fn view(&self) -> View<'_> {
        self.heap.view()
    }

    fn types(&self) -> &TypeTable {
        self.heap.types()
    }

    fn content(&self, t: TypeId) -> Option<Content> {
        self.heap.content(t)
    }

    fn count(&self, cell: CellAt) -> u32 {
        self.heap.count(cell)
    }

    fn start(&self, cell: CellAt) -> PayloadAt {
        self.heap.start(cell)
    }

    fn load(&self, at: CellAt) -> i64 {
        self.heap.load(at)
    }
}

fn write_types<A: Allocator>(w: &mut Window<A>, types: &TypeTable)
    ensures host { KeepsHost w.old w.new }
    ensures changes { IsTable types.now →
        ChangesOnly w.old.bytes w.new.bytes types_start types_size }
    ensures table { IsTable types.now → types_start + types_size ≤ length w.old.bytes →
        HasTable w.new.bytes types_start types.now }
{
    for t in 0..MAX_TYPES {
        w.copy_in(header::TYPES + ENTRY * t, &types.entry(t as TypeId));
    }
}
