ghost use Rattle.std.specs.Prelude.{◌≡◌};
ghost use Rattle.seg_spec.specs.Types.{IsTable, form_at};
ghost use Rattle.seg_cells.specs.Cells.{cells_of};
ghost use Rattle.seg_cells.specs.Contents.{ContentOf};

use crate::contents::Layouts;
use seg_block::Fit;
use seg_cells::{Cells, Content};
use seg_layout::{TypeId, TypeTable};
use seg_ptr::Window;
use std::alloc::Allocator;
use std::marker::{Model, PhantomData};

/// Where values are: the window of a segment with its type table, and an allocator of its heap. What its calls promise
/// is about bytes that contain values of these types. On any other bytes they still return.
#[derive(Drop)]
pub struct Heap<F: Fit, A: Allocator> {
    pub(crate) window: Window<A>,
    pub(crate) layouts: Layouts,
    fit: PhantomData<F>,
}

impl<F: Fit, A: Allocator> Model for Heap<F, A> {
    ghost use Rattle.seg_value.specs.Stored.{Stored};

    ghost Value = { Stored };

    ghost view = { λ heap. record { window = heap.window; types = heap.layouts } };
}

impl<F: Fit, A: Allocator> Heap<F, A> {
    ghost use Rattle.std.specs.Borrow.{Lends, sem};
    ghost use Rattle.seg_ptr.specs.contracts.window.Window as the_window;
    ghost use Rattle.seg_value.specs.Contents.{numbers_in};
    ghost use Rattle.seg_value.specs.contracts.heap.Heap.{the_row};

    pub fn new(window: Window<A>, types: TypeTable) -> Heap<F, A>
        ensures window { result.window ≡ window }
        ensures types { result.types ≡ types }
    {
        Heap {
            window,
            layouts: Layouts::of(types),
            fit: PhantomData,
        }
    }

    pub fn window(&self) -> &Window<A>
        ensures { result.now ≡ self.now.window }
    {
        &self.window
    }

    pub fn window_mut(&mut self) -> &mut Window<A>
        ensures value { result.now ≡ self.old.window }
        ensures* writes_back { sem 𝓛 (Lends (the_row F.row A.row F.Fit A.Allocator)
            (the_window.the_row A.row A.Allocator) self.entry result
            (λ w. record self.old { window = w })) }
    {
        &mut self.window
    }

    pub fn types(&self) -> &TypeTable
        ensures { result.now ≡ self.now.types }
    {
        self.layouts.types()
    }

    /// Replaces the type table of the heap, but not the table in the bytes.
    pub fn set_types(&mut self, types: TypeTable)
        ensures window { self.new.window ≡ self.old.window }
        ensures types { self.new.types ≡ types }
    {
        self.layouts = Layouts::of(types);
    }

    pub fn into_window(self) -> Window<A>
        ensures { result ≡ self.window }
    {
        let Heap {
            window,
            layouts: _,
            fit: _,
        } = self;
        window
    }

    /// The layout of what the cell of a type points to. `None` for numbers and structs, for shared types, and for types
    /// that the table lacks.
    pub fn content(&self, t: TypeId) -> Option<Content>
        ensures { ContentOf self.now.types t (form_at self.now.types t) result }
    {
        self.layouts.content(t)
    }

    /// The type of the items, if this type is a vector of numbers.
    pub fn number_type(&self, t: TypeId) -> Option<TypeId>
        ensures { result ≡ numbers_in self.now.types t }
    {
        self.layouts.number_type(t)
    }

    /// What the values of a type consist of.
    pub(crate) fn cells(&self, t: TypeId) -> Cells
        ensures cells { result ≡ cells_of (form_at self.now.types t) }
        ensures table { IsTable self.now.types }
    {
        self.layouts.cells(t)
    }
}
