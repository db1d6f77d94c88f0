ghost use Rattle.std.specs.Prelude.{◌≡◌, ◌↔◌, ℕ, [], length, IsOk, IfOk, IfErr, OnOk, OnErr, IsOkUnless};
ghost use Rattle.seg_spec.specs.Bytes.{word};
ghost use Rattle.seg_spec.specs.Header.{version_word};
ghost use Rattle.seg_spec.specs.Images.{IsSound};
ghost use Rattle.seg_spec.specs.Sound.{Picture};
ghost use Rattle.seg_spec.specs.Types.{AreOfVersion, Agree, IsFirstDifference, longer};
ghost use Rattle.seg_spec.specs.Window.{KeepsHost};
ghost use Rattle.seg_raw.specs.Homes.{home_of};
ghost use Rattle.seg_manager.specs.Segments.{AddsTypes};
ghost use Rattle.seg_image.specs.Images.{segment_of, allocator_of, bytes_in, IsOpen};

use seg_bestfit::BestFit;
use seg_check::save;
use seg_layout::{TypeId, TypeTable};
use seg_manager::{Segment, View, Window};
use seg_raw::Fault;
use seg_seqfit::SeqFit;
use seg_value::{CellAt, Content, PayloadAt, SegmentRead};
use std::alloc::Allocator;

/// An open image: a segment with the allocator that the image's header selects.
#[derive(Drop)]
pub enum Image<A: Allocator> {
    Seq(Segment<SeqFit, A>),
    Best(Segment<BestFit, A>),
}

/// A call on the segment of an image, for either allocator.
macro_rules! on {
    ($image:expr, $segment:ident => $call:expr) => {
        match $image {
            Image::Seq($segment) => $call,
            Image::Best($segment) => $call,
        }
    };
}

pub(crate) use on;

impl<A: Allocator> Image<A> {
    /// The segment's window on its memory.
    pub fn window(&self) -> &Window<A>
        ensures { result.now ≡ (segment_of self.now).window }
    {
        on!(self, segment => segment.window())
    }

    /// The size of the image in bytes.
    pub fn size(&self) -> u32
        ensures { result ≡ length (segment_of self.now).window.bytes }
    {
        self.window().len()
    }

    /// The bytes of the image.
    #[tactic(auto, unfolding(seg_spec::specs::Bytes::slice))]
    pub fn bytes(&self) -> &[u8]
        ensures { result.now ≡ (segment_of self.now).window.bytes }
    {
        let window = self.window();
        window.slice(0, window.len() as usize)
    }

    /// The types of the image's objects.
    pub fn types(&self) -> &TypeTable
        ensures { result.now ≡ (segment_of self.now).types }
    {
        on!(self, segment => segment.types())
    }

    /// Adds the types of a longer table. `TypeMismatch` if both tables have an entry that differs; then nothing
    /// changes.
    pub fn add_types(&mut self, types: &TypeTable) -> Result<(), Fault>
        ensures window { KeepsHost (segment_of self.old).window (segment_of self.new).window }
        ensures agree { IsOk result ↔ Agree (segment_of self.old).types types.now }
        ensures types { OnOk result ((segment_of self.new).types
            ≡ longer (segment_of self.old).types types.now) }
        ensures adds { OnOk result ((picture : Picture) → IsOpen self.old picture →
            AreOfVersion (word (bytes_in self.old) version_word) types.now →
            AddsTypes (allocator_of self.old)
            (segment_of self.old) (segment_of self.new) picture types.now) }
        ensures differs { IfErr result (λ fault. (k : ℕ) × (fault ≡ Fault.TypeMismatch k)
            × IsFirstDifference (segment_of self.old).types types.now k) }
        ensures allocator { allocator_of self.new ≡ allocator_of self.old }
        ensures unchanged { OnErr result (self.new ≡ self.old) }
    {
        on!(self, segment => segment.add_types(types))
    }

    /// A copy of the image's bytes, in memory of this allocator. The image stays open.
    pub fn save<B: Allocator>(&self, alloc: B) -> Result<Vec<u8, B>, Fault>
        ensures image { IfOk result
            (λ saved. saved.items ≡ (segment_of self.now).window.bytes) }
        ensures sound { (picture : Picture) → IsOpen self.now picture → picture.loose ≡ [] →
            IfOk result (λ saved. IsSound saved.items) }
        ensures refused { IsOkUnless result Fault.Memory }
    {
        on!(self, segment => save(alloc, segment.window()))
    }

    /// The image's bytes, in their own memory without a copy.
    pub fn into_bytes(self) -> Vec<u8, A>
        ensures bytes { result.items ≡ (segment_of self).window.bytes }
        ensures home { home_of result ≡ (segment_of self).window.home }
    {
        on!(self, segment => segment.into_window().into_bytes())
    }
}

impl<A: Allocator> SegmentRead for Image<A> {
    ghost stored = { segment_of };

    ghost allocator = { allocator_of };

    fn view(&self) -> View<'_> {
        on!(self, segment => segment.view())
    }

    fn types(&self) -> &TypeTable {
        on!(self, segment => segment.types())
    }

    fn content(&self, t: TypeId) -> Option<Content> {
        on!(self, segment => segment.content(t))
    }

    fn count(&self, cell: CellAt) -> u32 {
        on!(self, segment => segment.count(cell))
    }

    fn start(&self, cell: CellAt) -> PayloadAt {
        on!(self, segment => segment.start(cell))
    }

    fn load(&self, at: CellAt) -> i64 {
        on!(self, segment => segment.load(at))
    }
}
