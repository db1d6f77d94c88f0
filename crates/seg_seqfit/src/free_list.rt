//! Changes of blocks that keep the free list in order.

ghost use Rattle.std.specs.Prelude.{◌≡◌, ℕ, ◌+◌, ◌*◌, ◌≤◌, true, false, List, [], ◌∷◌, ◌++◌, length, None};
ghost use Rattle.seg_spec.specs.Pointer.{target};
ghost use Rattle.seg_spec.specs.Window.{KeepsHost};
ghost use Rattle.seg_spec.specs.Heap.{Tile, Fill, IsHeap, Gives, link_at};
ghost use Rattle.seg_block.specs.Blocks.{block_end, LiesIn, IsLiveBlock};
ghost use Rattle.seg_block.specs.Sizes.{set_size};
ghost use Rattle.seg_block.specs.Tiling.{tile_of, halves, IsTiling, Retiles};
ghost use Rattle.seg_seqfit.specs.Retiling.{link_past, link_to};
ghost use Rattle.seg_seqfit.specs.Leading.{leads_past};

use crate::search::link_before;
use crate::seqfit::SeqFit;
use seg_block::{
    Block, BlockAt, FreeStructure, LINK, TAG, UNIT, UNITS_BEFORE, free_before, room_after,
    set_size, size_word,
};
use seg_ptr::words::{put_pointer, put_word, set_pointer, set_word};
use seg_ptr::{MAX_LEN, Window};
use std::alloc::Allocator;

impl FreeStructure for SeqFit {
    ghost allocator = { 0 };

    /// The position of the pointer word that points to the first free block at the block's position or above.
    type Predecessor = usize;

    ghost leads = { λ link xs. link ≡ link_to xs };

    fn predecessor<A: Allocator>(w: &Window<A>, block: Block) -> usize {
        link_before(w, block)
    }

    fn take<A: Allocator>(w: &mut Window<A>, link: usize, block: Block) {
        let next = w.target(block.at as usize + LINK);
        w.point(link, next);
        w.point(block.at as usize + LINK, None);
        set_size(w, block.at, block.units, true);
    }

    fn release<A: Allocator>(w: &mut Window<A>, link: usize, block: Block) {
        if block.units >= 2 && block.at + UNIT * block.units <= w.len() {
            let next = w.target(link);
            put_in(w.bytes_mut(), link, next, block);
        }
    }

    ghost leads_past = { leads_past };
}

/// Allocates a whole free block. `next`, its successor in the list, takes its place there.
pub(crate) fn take_whole(bytes: &mut [u8], link: usize, gap: Block, next: Option<BlockAt>)
    requires inside { LiesIn bytes.old gap }
    ensures length { length bytes.new ≡ length bytes.old }
    ensures tiles { (xs ys : List Tile) → link ≡ link_to xs → next ≡ link_at bytes.old gap.at
        → IsTiling 0 bytes.old (xs ++ tile_of gap false ∷ ys)
        → Retiles 0 bytes.old bytes.new xs (tile_of gap true ∷ []) ys
        × (link_at bytes.new gap.at ≡ None) }
{
    put_pointer(bytes, link, next);
    set_pointer(bytes, gap.at as usize + LINK, None);
    set_word(bytes, gap.at as usize, size_word(gap.units, true));
}

/// Allocates the first `units` units of a free block. The rest stays free and takes the block's place in the list,
/// before `next`.
pub(crate) fn take_front(
    bytes: &mut [u8],
    link: usize,
    gap: Block,
    next: Option<BlockAt>,
    units: u32,
)
    requires inside { LiesIn bytes.old gap }
    requires front { 2 ≤ units }
    requires rest { units + 2 ≤ gap.units }
    ensures length { length bytes.new ≡ length bytes.old }
    ensures tiles { (xs ys : List Tile) → link ≡ link_to xs → next ≡ link_at bytes.old gap.at
        → IsTiling 0 bytes.old (xs ++ tile_of gap false ∷ ys)
        → Retiles 0 bytes.old bytes.new xs (halves gap units true false) ys
        × (link_at bytes.new gap.at ≡ None) }
{
    let at = gap.at as usize;
    let rest = at + 16 * units as usize;
    let after = at + 16 * gap.units as usize;
    set_word(bytes, rest + TAG, 0);
    set_word(bytes, rest, gap.units - units);
    put_word(bytes, after + UNITS_BEFORE, gap.units - units);
    set_word(bytes, at, size_word(units, true));
    set_word(bytes, rest + UNITS_BEFORE, units);
    set_pointer(bytes, rest + LINK, next);
    put_pointer(bytes, link, Some(gap.at + UNIT * units + UNIT));
    set_pointer(bytes, at + LINK, None);
}

/// Frees an allocated block and merges it with the free blocks next to it. The list is searched only if no free block
/// is right before it.
pub(crate) fn release_joined<A: Allocator>(w: &mut Window<A>, block: Block)
    requires { LiesIn w.old.bytes block }
    ensures host { KeepsHost w.old w.new }
    ensures gives { IsHeap 0 w.old.bytes → IsLiveBlock w.old.bytes block.at block.units
        → Gives 0 w.old.bytes w.new.bytes block.at }
{
    let room = room_after(w, block);
    let Some(gap) = free_before(w, block) else {
        let link = link_before(w, block);
        let next = w.target(link_after(link, block, room));
        let units = block.units + room;
        put_in(w.bytes_mut(), link, next, Block { units, ..block });
        return;
    };
    let next = w.target(link_after(gap.at as usize + LINK, block, room));
    let units = gap.units + block.units + room;
    widen(w.bytes_mut(), next, Block { units, ..gap });
}

/// The position of the list's pointer word after a block that `link` points to, with the free block of `room` units
/// right after it (0 if there is none).
fn link_after(link: usize, block: Block, room: u32) -> usize
    requires { block_end block ≤ MAX_LEN }
    ensures alone { room ≡ 0 → result ≡ link }
    ensures following { 1 ≤ room → result ≡ block_end block + LINK }
{
    if room == 0 {
        link
    } else {
        (block.at + UNIT * block.units) as usize + LINK
    }
}

/// Makes the blocks in `gap` one free block. `link` then points to it, and its successor in the list is `next`.
fn put_in(bytes: &mut [u8], link: usize, next: Option<BlockAt>, gap: Block)
    requires { LiesIn bytes.old gap }
    ensures length { length bytes.new ≡ length bytes.old }
    ensures tiles { (xs ms ys : List Tile) (t : Tile) → link ≡ link_to xs
        → IsTiling 0 bytes.old (xs ++ ((t ∷ ms) ++ ys)) → Fill gap.at (t ∷ ms) (block_end gap)
        → next ≡ target bytes.old (link_past link (t ∷ ms))
        → Retiles 0 bytes.old bytes.new xs (tile_of gap false ∷ []) ys }
{
    set_word(bytes, gap.at as usize + TAG, 0);
    set_pointer(bytes, gap.at as usize + LINK, next);
    put_pointer(bytes, link, Some(gap.at + UNIT));
    set_free_size(bytes, gap);
}

/// Makes the blocks in `gap`, the first of which is free already, one free block. Its successor in the list is `next`.
fn widen(bytes: &mut [u8], next: Option<BlockAt>, gap: Block)
    requires { LiesIn bytes.old gap }
    ensures length { length bytes.new ≡ length bytes.old }
    ensures tiles { (xs ms ys : List Tile) (t : Tile) → t.live ≡ false
        → IsTiling 0 bytes.old (xs ++ ((t ∷ ms) ++ ys)) → Fill gap.at (t ∷ ms) (block_end gap)
        → next ≡ target bytes.old (link_past (gap.at + LINK) ms)
        → Retiles 0 bytes.old bytes.new xs (tile_of gap false ∷ []) ys }
{
    set_pointer(bytes, gap.at as usize + LINK, next);
    set_free_size(bytes, gap);
}

/// Writes the size of a free block, also to the header of the block after it.
fn set_free_size(bytes: &mut [u8], gap: Block)
    requires { LiesIn bytes.old gap }
    ensures length { length bytes.new ≡ length bytes.old }
    ensures bytes { bytes.new ≡ set_size bytes.old gap.at gap.units false }
{
    set_word(bytes, gap.at as usize, gap.units);
    put_word(
        bytes,
        gap.at as usize + 16 * gap.units as usize + UNITS_BEFORE,
        gap.units,
    );
}
