//! New segments.

ghost use Rattle.std.specs.Prelude.{◌≡◌, ◌↔◌, ◌⊎◌, [], length, IsOk, IfOk, IfErr};
ghost use Rattle.seg_spec.specs.Bytes.{word};
ghost use Rattle.seg_spec.specs.Faulty.{IsImageLength};
ghost use Rattle.seg_spec.specs.Header.{version_word, allocator_word, index_kind_word, next_word, sharing_version};
ghost use Rattle.seg_spec.specs.Heap.{live};
ghost use Rattle.seg_spec.specs.Sound.{IsHeld};
ghost use Rattle.seg_spec.specs.Window.{IsPlace, KeepsHost};
ghost use Rattle.seg_manager.specs.NewSegments.{nothing, word_of_kind, IsNewSegment};

use crate::segment::Segment;
use crate::space::zero_free_memory;
use seg_block::UNIT;
use seg_index::{IndexKind, set_unique};
use seg_value::{
    Fault, Fit, MAX_TYPES, MIN_LEN, Region, TypeId, TypeTable, Window, header, is_size,
};
use std::alloc::Allocator;

/// A new, empty segment of `size` bytes at a base of a region. Its heap is one free block, whose unused bytes are 0, and
/// the first object that is frozen in it gets the number 0. Fails with `BadSize` if the size isn't one of a segment, and
/// with `Misplaced` if the segment may not be there; the region is returned with the fault.
pub fn create<F: Fit, A: Allocator>(
    region: Region<A>,
    base: u32,
    size: u32,
    index: IndexKind,
) -> Result<Segment<F, A>, (Fault, Region<A>)>
    ensures empty { IfOk result
        (λ segment. IsNewSegment F.allocator segment region.bytes base size index) }
    ensures home { IfOk result (λ segment. segment.window.home ≡ region.home) }
    ensures placed { IsOk result
        ↔ (IsImageLength size × IsPlace (length region.bytes) base size) }
    ensures size { IfErr result (λ refused. (refused.0 ≡ Fault.BadSize × ¬ IsImageLength size)
        ⊎ (refused.0 ≡ Fault.Misplaced × IsImageLength size)) }
    ensures region { IfErr result (λ refused. refused.1 ≡ region) }
{
    if !is_size(size) {
        return Err((Fault::BadSize, region));
    }
    let mut window = Window::place(region, base, size)?;
    write_empty::<F, A>(&mut window, size, index);
    let mut segment = Segment::new(window, TypeTable::new());
    zero_free_memory(&mut segment);
    Ok(segment)
}

/// Writes the header of an empty segment, and makes its heap one free block. It writes nothing after the front of that
/// block.
fn write_empty<F: Fit, A: Allocator>(w: &mut Window<A>, size: u32, index: IndexKind)
    ensures host { KeepsHost w.old w.new }
    ensures empty { IsImageLength size → length w.old.bytes ≡ size →
        IsHeld w.new.bytes nothing × (live w.new.bytes ≡ [])
        × (length w.new.bytes ≡ size)
        × (word w.new.bytes allocator_word ≡ F.allocator)
        × (word w.new.bytes index_kind_word ≡ word_of_kind index)
        × (word w.new.bytes version_word ≡ sharing_version)
        × (word w.new.bytes next_word ≡ 0) }
{
    w.fill(0, MIN_LEN as usize, 0);
    header::begin(w);
    w.put32(header::SIZE, size / UNIT);
    w.put32(header::ALLOCATOR, F::word());
    w.put32(header::INDEX_KIND, index.word());
    w.point(header::INDEX, None);
    for t in 0..MAX_TYPES {
        set_unique(w, t as TypeId, None);
    }
    F::init(w);
}
