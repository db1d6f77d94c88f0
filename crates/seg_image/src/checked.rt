//! A checked image in memory that is only read.

ghost use Rattle.std.specs.Prelude.{◌≡◌, IfOk, IfErr};
ghost use Rattle.seg_spec.specs.Bytes.{word};
ghost use Rattle.seg_spec.specs.Header.{allocator_word};
ghost use Rattle.seg_check.specs.Faults.{IsImageOf, IsFaultOf};
ghost use Rattle.seg_check.specs.Owners.{IsOwnerFaultOf};
ghost use Rattle.seg_check.specs.Positions.{IsFaultAt};
ghost use Rattle.seg_image.specs.Checked.{segment_in};

use crate::opening::view_of;
use seg_layout::{TypeId, TypeTable};
use seg_manager::View;
use seg_raw::Fault;
use seg_value::{
    CellAt, Content, Layouts, PayloadAt, Reader, SegmentRead, count_in, load_in, start_in,
};
use std::alloc::Allocator;

/// A checked image whose bytes are only read. Any number of checked images may read the same bytes.
#[derive(Drop)]
pub struct CheckedImage<'a> {
    view: View<'a>,
    layouts: Layouts,
}

impl<'a> CheckedImage<'a> {
    /// Checks an image, and opens it for reading. It fails as [`check`](crate::check) does, and needs as much host
    /// memory. Nothing of the image is copied, except its types.
    pub fn open<A: Allocator>(alloc: A, bytes: &'a [u8]) -> Result<CheckedImage<'a>, Fault>
        ensures opened { IfOk result (λ image. (segment_in image).window.bytes ≡ bytes.now) }
        ensures image { IfOk result (λ image. IsImageOf bytes.now (segment_in image).types) }
        ensures fault { IfErr result (IsFaultOf bytes.now) }
        ensures owner { IfErr result (IsOwnerFaultOf bytes.now) }
        ensures position { IfErr result (IsFaultAt bytes.now) }
    {
        let view = view_of(bytes)?;
        let types = seg_check::check(alloc, view)?;
        Ok(CheckedImage {
            view,
            layouts: Layouts::of(types),
        })
    }

    /// The types of the image's objects.
    pub fn types(&self) -> &TypeTable
        ensures { result.now ≡ (segment_in self.now).types }
    {
        self.layouts.types()
    }

    /// The image as a reader, which is copied cheaply.
    pub fn reader(&self) -> Reader<'_>
        ensures bytes { result.view.bytes.now ≡ (segment_in self.now).window.bytes }
        ensures types { result.layouts.now ≡ (segment_in self.now).types }
    {
        Reader {
            view: self.view,
            layouts: &self.layouts,
        }
    }
}

impl<'a> SegmentRead for CheckedImage<'a> {
    ghost stored = { segment_in };

    ghost allocator = { λ image. word image.view.bytes.now allocator_word };

    fn view(&self) -> View<'_> {
        self.view
    }

    fn types(&self) -> &TypeTable {
        self.layouts.types()
    }

    fn content(&self, t: TypeId) -> Option<Content> {
        self.layouts.content(t)
    }

    fn count(&self, cell: CellAt) -> u32 {
        count_in(self.view, cell)
    }

    fn start(&self, cell: CellAt) -> PayloadAt {
        start_in(self.view, cell)
    }

    fn load(&self, at: CellAt) -> i64 {
        load_in(self.view, at)
    }
}
