ghost use Rattle.std.specs.Prelude.{◌≡◌, ℕ, ◌+◌, ◌*◌, ◌/◌, ◌%◌, ◌<◌, ◌≤◌, ◌⊎◌, Bool, List, length};
ghost use Rattle.seg_spec.specs.Window.{with_bytes, KeepsHost};
ghost use Rattle.seg_spec.specs.Heap.{Tile, Fill, AreHeaders, HoldsGaps, IsHeap, IsLive, Takes, Gives, Expands, Shrinks, Begins, Extends, Cuts, without_end, free_of, shrunk};
ghost use Rattle.seg_spec.specs.Header.{min_length};
ghost use Rattle.seg_block.specs.Blocks.{block_end, IsCut, IsLiveBlock, room_after, IsResized};
ghost use Rattle.seg_block.specs.Extents.{Enlarges};
ghost use Rattle.seg_block.specs.Tiling.{ending};
ghost use Rattle.seg_spec.specs.Bytes.{set_word};

use crate::block::{Block, block_at, last_block, room_after, set_size};
use crate::header::{BlockAt, HEAP_START, UNIT, UNITS_BEFORE};
use crate::rules::{expanded, shrunk};
use seg_ptr::header::SIZE;
use seg_ptr::{MAX_LEN, Window};
use std::alloc::Allocator;

/// An allocator of a segment's heap. It works on the bytes of the window only. A block is identified by the position of
/// its header. Sizes are in units of 16 bytes, with the header. On bytes that aren't a well-formed heap the calls still
/// return.
///
/// An allocator implements the calls up to `cut_end`. The calls after them are built on `resize` and `enlarge`, and are
/// the same for all allocators.
pub trait Fit {
    ghost allocator: { ℕ };

    /// The value of the word [`ALLOCATOR`](seg_ptr::header::ALLOCATOR) in an image of this allocator.
    fn word() -> u32
        ensures value { result ≡ allocator }
        ensures small { result ≤ 1 };

    /// How many bytes at the start of a free block's payload the allocator uses.
    fn free_words() -> u32
        ensures words { result ≡ UNIT * allocator }
        ensures small { result ≤ UNIT };

    /// Makes the heap of a segment one free block. The segment must have room for two units of it.
    fn init<A: Allocator>(w: &mut Window<A>)
        ensures host { KeepsHost w.old w.new }
        ensures begins { min_length ≤ length w.old.bytes → length w.old.bytes % UNIT ≡ 0
            → Begins allocator w.old.bytes w.new.bytes };

    /// Allocates a block of `need` units, or of one more if one unit would be left over. `None` if no free block is
    /// large enough.
    fn allocate<A: Allocator>(w: &mut Window<A>, need: u32) -> Option<BlockAt>
        requires { 2 ≤ need }
        ensures host { KeepsHost w.old w.new }
        ensures takes { IsHeap allocator w.old.bytes →
            Takes allocator w.old.bytes w.new.bytes need result };

    /// Frees an allocated block, and merges it with the free blocks next to it.
    fn free<A: Allocator>(w: &mut Window<A>, block: BlockAt)
        ensures host { KeepsHost w.old w.new }
        ensures gives { IsHeap allocator w.old.bytes → IsLive w.old.bytes block
            → Gives allocator w.old.bytes w.new.bytes block };

    /// Resizes an allocated block to `units` units, at the cost or in favour of the free block of `room` units right
    /// after it (0 if there is none). `expand` and `shrink` compute the new size.
    fn resize<A: Allocator>(w: &mut Window<A>, block: Block, room: u32, units: u32)
        requires inside { block_end block + UNIT * room ≤ MAX_LEN }
        requires front { 2 ≤ units }
        requires rest { (units ≡ block.units) ⊎ IsCut (block.units + room) units }
        ensures host { KeepsHost w.old w.new }
        ensures same { units ≡ block.units → w.new ≡ w.old }
        ensures resized { IsHeap allocator w.old.bytes →
            IsLiveBlock w.old.bytes block.at block.units
            → room ≡ room_after w.old.bytes block.at block.units
            → IsResized allocator w.old.bytes w.new.bytes block.at units };

    /// Enlarges the last block of a heap, at most to the end of the segment.
    fn enlarge<A: Allocator>(w: &mut Window<A>, last: Block, units: u32)
        requires inside { last.at + UNIT * units ≤ MAX_LEN }
        requires more { last.units ≤ units }
        ensures host { KeepsHost w.old w.new }
        ensures enlarges { (xs : List Tile) (l : Bool)
            → Fill HEAP_START (ending xs last l) (block_end last)
            → AreHeaders w.old.bytes 0 (ending xs last l)
            → HoldsGaps allocator w.old.bytes (free_of (ending xs last l))
            → last.at + UNIT * units ≡ length w.old.bytes
            → Enlarges allocator w.old.bytes w.new.bytes xs last.at last.units units l };

    /// Cuts the free block at the heap's end, sets the image's size, and returns by how many units the window can be
    /// cut. If the whole heap is one free block, two units of it stay. If nothing can be cut from a larger heap, only
    /// the size is written.
    fn cut_end<A: Allocator>(w: &mut Window<A>) -> u32
        ensures host { KeepsHost w.old w.new }
        ensures cuts { min_length ≤ length w.old.bytes → IsHeap allocator w.old.bytes
            → Cuts allocator w.old.bytes w.new.bytes result }
        ensures unchanged { min_length < length w.old.bytes → IsHeap allocator w.old.bytes →
            result ≡ 0
            → w.new ≡ with_bytes w.old (set_word w.old.bytes SIZE (length w.old.bytes / UNIT)) };

    /// Enlarges an allocated block in place to `need` units, or to one more. False if the free block right after it is
    /// too small.
    final fn expand<A: Allocator>(w: &mut Window<A>, block: BlockAt, need: u32) -> bool
        requires { 2 ≤ need }
        ensures host { KeepsHost w.old w.new }
        ensures expands { (x : ℕ) → IsHeap allocator w.old.bytes → IsLiveBlock w.old.bytes block x
            → Expands allocator w.old.bytes w.new.bytes block x need result }
    {
        let Some(block) = block_at(w, block) else {
            return false;
        };
        let room = room_after(w, block);
        let Some(units) = expanded(block.units, room, need) else {
            return false;
        };
        Self::resize(w, block, room, units);
        true
    }

    /// Cuts an allocated block to `need` units. It keeps a single unit more, unless a free block follows. If its size
    /// stays, nothing changes.
    final fn shrink<A: Allocator>(w: &mut Window<A>, block: BlockAt, need: u32)
        requires { 2 ≤ need }
        ensures host { KeepsHost w.old w.new }
        ensures shrinks { (x : ℕ) → IsHeap allocator w.old.bytes → IsLiveBlock w.old.bytes block x
            → need ≤ x → Shrinks allocator w.old.bytes w.new.bytes block x need }
        ensures unchanged { (x : ℕ) → IsHeap allocator w.old.bytes → IsLiveBlock w.old.bytes block x
            → need ≤ x → shrunk x (room_after w.old.bytes block x) need ≡ x → w.new ≡ w.old }
    {
        let Some(block) = block_at(w, block) else {
            return;
        };
        if need > block.units {
            return;
        }
        let room = room_after(w, block);
        Self::resize(w, block, room, shrunk(block.units, room, need));
    }

    /// Adds the last `units` units of the window to the heap, which ended before them, and sets the image's size.
    final fn extend_end<A: Allocator>(w: &mut Window<A>, units: u32)
        requires { UNIT * units ≤ length w.old.bytes }
        ensures host { KeepsHost w.old w.new }
        ensures extends { min_length + UNIT * units ≤ length w.old.bytes
            → IsHeap allocator (without_end w.old.bytes units)
            → Extends allocator w.old.bytes w.new.bytes units }
    {
        let len = w.len();
        let end = len - UNIT * units;
        w.put32(SIZE, len / UNIT);
        if units == 0 {
            return;
        }
        let Some(last) = last_block(w, end) else {
            return;
        };
        if units == 1 {
            Self::enlarge(w, last, (len - last.at) / UNIT);
        } else {
            w.put32(end as usize + UNITS_BEFORE, last.units);
            set_size(w, end, units, true);
            Self::free(w, end);
        }
    }
}
