ghost use Rattle.std.specs.Prelude.{◌≡◌, ◌+◌, ◌-◌, ◌≤◌, ◌⊎◌, ◌↔◌, ◌++◌, [], length, replicate, vec_len, vec_capacity, IsTrue, IfOk, IfErr, OnOk, OnErr, IsOkUnless};
ghost use Rattle.seg_spec.specs.Heap.{IsHeap, live, gaps};
ghost use Rattle.seg_spec.specs.Sound.{Picture};
ghost use Rattle.seg_spec.specs.Window.{region_of};
ghost use Rattle.seg_raw.specs.Homes.{home_of};
ghost use Rattle.seg_manager.specs.Gaps.{bytes_in_gaps, largest_of, ZeroesGaps};
ghost use Rattle.seg_manager.specs.Segments.{IsSegment};
ghost use Rattle.seg_manager.specs.Sizes.{MayGrowTo, ShrinksSegment};
ghost use Rattle.seg_image.specs.Images.{segment_of, allocator_of, bytes_in, types_of, IsOpen, ChangesBytes};
ghost use Rattle.seg_image.specs.Growth.{GrowsImage};

use crate::image::{Image, on};
use core::mem::replace_with;
use seg_manager::{Fit, MAX_LEN, Segment, Window};
use seg_raw::{Fault, Region, lengthen};
use std::alloc::{AllocError, Allocator};

/// The image's size and its free memory, in bytes.
impl<A: Allocator> Image<A> {
    /// The size of all free blocks of the heap in bytes, with their headers of 16 bytes.
    pub fn free_memory(&self) -> u32
        ensures { IsHeap (allocator_of self.now) (bytes_in self.now) →
            result ≡ bytes_in_gaps (gaps (bytes_in self.now)) }
    {
        on!(self, segment => seg_manager::free_memory(segment))
    }

    /// The size of the largest free block in bytes, with its header of 16 bytes.
    pub fn largest_gap(&self) -> u32
        ensures { IsHeap (allocator_of self.now) (bytes_in self.now) →
            result ≡ largest_of (gaps (bytes_in self.now)) }
    {
        on!(self, segment => seg_manager::largest_gap(segment))
    }

    /// Whether the heap is one free block, so that no object uses memory.
    pub fn all_memory_deallocated(&self) -> bool
        ensures { IsHeap (allocator_of self.now) (bytes_in self.now) →
            (IsTrue result ↔ (live (bytes_in self.now) ≡ [])) }
    {
        on!(self, segment => seg_manager::all_memory_deallocated(segment))
    }

    /// Writes 0 to the bytes of free blocks that the allocator doesn't use, so that a saved image shows nothing of
    /// freed values.
    pub fn zero_free_memory(&mut self)
        ensures bytes { ChangesBytes self.old self.new }
        ensures zeroes { (picture : Picture) → IsOpen self.old picture →
            ZeroesGaps (allocator_of self.old) (segment_of self.old) (segment_of self.new)
            picture }
    {
        on!(self, segment => seg_manager::zero_free_memory(segment))
    }

    /// Adds `extra` bytes at the end, and returns the new size in bytes. `BadSize` if that isn't a size of a segment or
    /// `extra` isn't a multiple of 16, `Memory` if host memory is refused; then nothing changes.
    ///
    /// The host's memory of the image grows with it if the new size is above the memory's capacity; the image is copied if it
    /// has to move there. Places stay valid.
    pub fn grow(&mut self, extra: u32) -> Result<u32, Fault>
        ensures allocator { allocator_of self.new ≡ allocator_of self.old }
        ensures types { types_of self.new ≡ types_of self.old }
        ensures size { IfOk result (λ size. size ≡ length (bytes_in self.old) + extra) }
        ensures fault { IfErr result (λ fault.
            ((fault ≡ Fault.BadSize) × ¬ MayGrowTo extra (length (bytes_in self.old) + extra))
            ⊎ ((fault ≡ Fault.Memory) × MayGrowTo extra (length (bytes_in self.old) + extra))) }
        ensures done { OnOk result (MayGrowTo extra (length (bytes_in self.old) + extra)) }
        ensures grows { (picture : Picture) → IsOpen self.old picture →
            OnOk result (GrowsImage (allocator_of self.old) (bytes_in self.old)
            (segment_of self.new) picture extra) }
        ensures unchanged { OnErr result (bytes_in self.new ≡ bytes_in self.old) }
        ensures home { let home = (segment_of self.old).window.home in
            length (bytes_in self.old) + extra ≤ home.room →
            (segment_of self.new).window.home ≡ home }
    {
        on!(self, segment => grow(segment, extra))
    }

    /// Cuts the free block at the end, and returns the new size in bytes. The host's memory of the image keeps its
    /// size.
    pub fn shrink(&mut self) -> u32
        ensures allocator { allocator_of self.new ≡ allocator_of self.old }
        ensures types { types_of self.new ≡ types_of self.old }
        ensures home { (segment_of self.new).window.home ≡ (segment_of self.old).window.home }
        ensures shrinks { (picture : Picture) → IsOpen self.old picture →
            ShrinksSegment (allocator_of self.old) (segment_of self.old) (segment_of self.new)
            picture result }
    {
        on!(self, segment => seg_manager::shrink_to_fit(segment))
    }
}

/// Grows the segment, in its own memory if there is room, or else in more.
#[tactic(auto, using(crate::proofs::GrowthLaws::image_grows))]
fn grow<F: Fit, A: Allocator>(segment: &mut Segment<F, A>, extra: u32) -> Result<u32, Fault>
    ensures types { segment.new.types ≡ segment.old.types }
    ensures size { IfOk result (λ size. size ≡ length segment.old.window.bytes + extra) }
    ensures fault { IfErr result (λ fault.
        ((fault ≡ Fault.BadSize) × ¬ MayGrowTo extra (length segment.old.window.bytes + extra))
        ⊎ ((fault ≡ Fault.Memory)
        × MayGrowTo extra (length segment.old.window.bytes + extra))) }
    ensures done { OnOk result (MayGrowTo extra (length segment.old.window.bytes + extra)) }
    ensures grows { (picture : Picture) → IsSegment F.allocator segment.old picture →
        OnOk result (GrowsImage F.allocator segment.old.window.bytes segment.new picture extra) }
    ensures unchanged { OnErr result (segment.new.window.bytes ≡ segment.old.window.bytes) }
    ensures home { let home = segment.old.window.home in
        length segment.old.window.bytes + extra ≤ home.room → segment.new.window.home ≡ home }
{
    match seg_manager::grow(segment, extra) {
        Err(Fault::NoHostRoom) => grow_memory(segment, extra),
        grown => grown,
    }
}

/// Moves the segment to the start of its memory, which gets larger if it is too small, and grows it there.
fn grow_memory<F: Fit, A: Allocator>(segment: &mut Segment<F, A>, extra: u32) -> Result<u32, Fault>
    requires { MayGrowTo extra (length segment.old.window.bytes + extra) }
    ensures types { segment.new.types ≡ segment.old.types }
    ensures size { IfOk result (λ size. size ≡ length segment.old.window.bytes + extra) }
    ensures fault { IsOkUnless result Fault.Memory }
    ensures grows { (picture : Picture) → IsSegment F.allocator segment.old picture →
        OnOk result (GrowsImage F.allocator segment.old.window.bytes segment.new picture extra) }
    ensures unchanged { OnErr result (segment.new.window.bytes ≡ segment.old.window.bytes) }
    ensures home { let home = segment.old.window.home in
        length segment.old.window.bytes + extra ≤ home.room → segment.new.window.home ≡ home }
{
    let size = segment.window().len() + extra;
    replace_with(segment, size, with_room)?;
    seg_manager::grow(segment, extra)
}

/// The segment at the start of its memory, which then has `room` bytes, or as many as before if more are refused.
fn with_room<F: Fit, A: Allocator>(
    segment: Segment<F, A>,
    room: u32,
) -> (Segment<F, A>, Result<(), AllocError>)
    requires more { length segment.window.bytes ≤ room }
    requires at_most { room ≤ MAX_LEN }
    ensures bytes { result.0.window.bytes ≡ segment.window.bytes }
    ensures types { result.0.types ≡ segment.types }
    ensures base { result.0.window.before ≡ [] }
    ensures room { OnOk result.1 (length (region_of result.0.window) ≡ room) }
    ensures home { room ≤ segment.window.home.room →
        result.0.window.home ≡ segment.window.home }
{
    let types = segment.types().copy();
    let len = segment.window().len();
    let mut bytes = segment.into_window().into_bytes();
    let resized = extend(&mut bytes, room as usize);
    let window = Window::place(Region::from_vec(bytes), 0, len).unwrap();
    (Segment::new(window, types), resized)
}

/// Adds zero bytes until there are `len` bytes, in the same memory if it has room for them.
fn extend<A: Allocator>(bytes: &mut Vec<u8, A>, len: usize) -> Result<(), AllocError>
    requires { vec_len bytes.old ≤ len }
    ensures bytes { OnOk result
        (bytes.new.items ≡ bytes.old.items ++ replicate (len - vec_len bytes.old) 0) }
    ensures len { OnOk result (length bytes.new.items ≡ len) }
    ensures unchanged { OnErr result (bytes.new.items ≡ bytes.old.items) }
    ensures home { len ≤ vec_capacity bytes.old → home_of bytes.new ≡ home_of bytes.old }
{
    if len > bytes.capacity() {
        bytes.reserve(len - bytes.len())?;
    }
    lengthen(bytes, len);
    Ok(())
}
