//! The free memory of a segment.

ghost use Rattle.std.specs.Prelude.{◌≡◌, ℕ, ◌+◌, ◌*◌, ◌^◌, ◌<◌, ◌≤◌, ◌↔◌, max, IsTrue, [], replicate};
ghost use Rattle.seg_spec.specs.Bytes.{put};
ghost use Rattle.seg_spec.specs.Heap.{IsHeap, span, live, gaps};
ghost use Rattle.seg_spec.specs.Sound.{Picture};
ghost use Rattle.seg_spec.specs.Window.{with_bytes, KeepsHost};
ghost use Rattle.seg_manager.specs.Gaps.{bytes_in_gaps, largest_of, spare_start, spare_size, ZeroesGaps};
ghost use Rattle.seg_manager.specs.Segments.{IsSegment};

use crate::segment::Segment;
use seg_block::{Block, Fit, HEAP_START, UNIT, block_at, is_live};
use seg_value::Window;
use std::alloc::Allocator;

/// The bytes of the free blocks of a heap: of all together, and of the largest.
#[derive(Debug, Clone, Copy, Default)]
struct Gaps {
    total: u32,
    largest: u32,
}

impl Gaps {
    fn of<A: Allocator>(w: &Window<A>) -> Gaps
        ensures total { (allocator : ℕ) → IsHeap allocator w.now.bytes →
            result.total ≡ bytes_in_gaps (gaps w.now.bytes) }
        ensures largest { (allocator : ℕ) → IsHeap allocator w.now.bytes →
            result.largest ≡ largest_of (gaps w.now.bytes) }
    {
        let mut gaps = Gaps::default();
        let mut at = HEAP_START;
        while let Some(block) = block_at(w, at) {
            if !is_live(w, at) {
                gaps.add(UNIT * block.units);
            }
            at = end_of(block);
        }
        gaps
    }

    fn add(&mut self, bytes: u32)
        ensures total { self.old.total + bytes < 2 ^ 32 →
            self.new.total ≡ self.old.total + bytes }
        ensures largest { self.new.largest ≡ max self.old.largest bytes }
    {
        self.total = self.total.saturating_add(bytes);
        self.largest = self.largest.max(bytes);
    }
}

fn end_of(block: Block) -> u32
    requires { block.at + 16 * block.units ≤ 2 ^ 30 }
    ensures { result ≡ block.at + 16 * block.units }
{
    block.at + UNIT * block.units
}

/// The size of all free blocks in bytes, with their headers.
pub fn free_memory<F: Fit, A: Allocator>(segment: &Segment<F, A>) -> u32
    ensures { IsHeap F.allocator segment.now.window.bytes →
        result ≡ bytes_in_gaps (gaps segment.now.window.bytes) }
{
    Gaps::of(segment.window()).total
}

/// The size of the largest free block in bytes, with its header.
pub fn largest_gap<F: Fit, A: Allocator>(segment: &Segment<F, A>) -> u32
    ensures { IsHeap F.allocator segment.now.window.bytes →
        result ≡ largest_of (gaps segment.now.window.bytes) }
{
    Gaps::of(segment.window()).largest
}

/// Whether the heap is one free block.
pub fn all_memory_deallocated<F: Fit, A: Allocator>(segment: &Segment<F, A>) -> bool
    ensures { IsHeap F.allocator segment.now.window.bytes →
        (IsTrue result ↔ (live segment.now.window.bytes ≡ [])) }
{
    let heap = segment.window().len().saturating_sub(HEAP_START);
    Gaps::of(segment.window()).largest == heap
}

/// Writes 0 to each byte of the free blocks that isn't in a header or used by the allocator.
pub fn zero_free_memory<F: Fit, A: Allocator>(segment: &mut Segment<F, A>)
    ensures window { KeepsHost segment.old.window segment.new.window }
    ensures types { segment.new.types ≡ segment.old.types }
    ensures zeroes { (picture : Picture) → IsSegment F.allocator segment.old picture →
        ZeroesGaps F.allocator segment.old segment.new picture }
{
    let w = segment.heap_mut().window_mut();
    let end = w.len();
    let mut at = HEAP_START;
    while at < end {
        let Some(block) = block_at(w, at) else {
            break;
        };
        if !is_live(w, at) {
            zero_payload::<F, A>(w, block);
        }
        at = end_of(block);
    }
}

/// Writes 0 to the payload of a free block, after the bytes that the allocator uses.
fn zero_payload<F: Fit, A: Allocator>(w: &mut Window<A>, block: Block)
    requires { block.at + 16 * block.units ≤ 2 ^ 30 }
    ensures few { F.allocator ≤ 1 }
    ensures zeros { w.new ≡ with_bytes w.old (put w.old.bytes
        (spare_start F.allocator (span block.at block.units))
        (replicate (spare_size F.allocator (span block.at block.units)) 0)) }
{
    let used = UNIT + F::free_words();
    let payload = (UNIT * block.units).saturating_sub(used);
    w.fill(block.at as usize + used as usize, payload as usize, 0);
}
