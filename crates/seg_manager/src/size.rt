//! Changes of a segment's size.

ghost use Rattle.std.specs.Prelude.{◌≡◌, ◌+◌, ◌≤◌, ◌⊎◌, ◌↔◌, length, IsOk, IfOk, IfErr, OnOk, OnErr};
ghost use Rattle.seg_spec.specs.Sound.{Picture};
ghost use Rattle.seg_spec.specs.Window.{region_of};
ghost use Rattle.seg_manager.specs.Segments.{IsSegment};
ghost use Rattle.seg_manager.specs.Sizes.{MayGrowTo, used_front, Grows, ShrinksSegment};

use crate::segment::Segment;
use seg_block::UNIT;
use seg_value::{Fault, Fit, is_size};
use std::alloc::Allocator;

/// How many of `extra` new bytes at the front the heap may write: the header of a free block, and what the allocator
/// stores after it. A single unit is added to the block before it.
fn used_front<F: Fit>(extra: u32) -> u32
    ensures { result ≡ used_front F.allocator extra }
{
    if extra == UNIT {
        return 0;
    }
    UNIT + F::free_words()
}

/// Adds `extra` bytes at the segment's end, and returns the new size in bytes. The new bytes are 0 except those that
/// the heap writes at their front. `BadSize` if the sum isn't a size of a segment, `NoHostRoom` if the region ends
/// before it; then nothing changes.
pub fn grow<F: Fit, A: Allocator>(segment: &mut Segment<F, A>, extra: u32) -> Result<u32, Fault>
    ensures types { segment.new.types ≡ segment.old.types }
    ensures size { IfOk result (λ size. size ≡ length segment.old.window.bytes + extra) }
    ensures done { IsOk result ↔ (MayGrowTo extra (length segment.old.window.bytes + extra)
        × (length segment.old.window.before + (length segment.old.window.bytes + extra)
        ≤ length (region_of segment.old.window))) }
    ensures fault { IfErr result (λ fault.
        ((fault ≡ Fault.BadSize) × ¬ MayGrowTo extra (length segment.old.window.bytes + extra))
        ⊎ ((fault ≡ Fault.NoHostRoom)
        × MayGrowTo extra (length segment.old.window.bytes + extra))) }
    ensures home { segment.new.window.home ≡ segment.old.window.home }
    ensures unchanged { OnErr result (segment.new ≡ segment.old) }
    ensures grows { OnOk result ((picture : Picture) →
        IsSegment F.allocator segment.old picture →
        Grows F.allocator segment.old segment.new picture extra) }
{
    let w = segment.heap_mut().window_mut();
    let len = w.len();
    let size = len.saturating_add(extra);
    if extra % UNIT != 0 || !is_size(size) {
        return Err(Fault::BadSize);
    }
    if w.resize(size).is_err() {
        return Err(Fault::NoHostRoom);
    }
    if extra > 0 {
        // the host's old bytes must not get into a saved image: the part where a header may be written is zeroed before
        // the heap grows, and the rest after it
        let front = used_front::<F>(extra);
        w.fill(len as usize, front as usize, 0);
        F::extend_end(w, extra / UNIT);
        let rest = extra.saturating_sub(front);
        w.fill(len as usize + front as usize, rest as usize, 0);
    }
    Ok(size)
}

/// Cuts the free block at the end, and returns the new size in bytes. If the whole heap is one free block, two units of
/// it stay.
pub fn shrink_to_fit<F: Fit, A: Allocator>(segment: &mut Segment<F, A>) -> u32
    ensures types { segment.new.types ≡ segment.old.types }
    ensures home { segment.new.window.home ≡ segment.old.window.home }
    ensures shrinks { (picture : Picture) → IsSegment F.allocator segment.old picture →
        ShrinksSegment F.allocator segment.old segment.new picture result }
{
    let w = segment.heap_mut().window_mut();
    let cut = F::cut_end(w);
    let size = w.len().saturating_sub(cut.saturating_mul(UNIT));
    // this can't fail, since the size isn't larger
    let _ = w.resize(size);
    size
}
