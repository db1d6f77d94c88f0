//! Searches of the free list.

ghost use Rattle.std.specs.Prelude.{◌≡◌, ℕ, ◌+◌, ◌^◌, ◌<◌, ◌≤◌, Bool, List, ◌∷◌, ◌++◌, IfSome, MatchOption, Some, None};
ghost use Rattle.seg_spec.specs.Heap.{Span, Tile, IsFreeList, first_fit, link_at};
ghost use Rattle.seg_spec.specs.Pointer.{target};
ghost use Rattle.seg_block.specs.Blocks.{LiesIn};
ghost use Rattle.seg_block.specs.FreeBlocks.{AreFreeBlocks};
ghost use Rattle.seg_block.specs.Tiling.{tile_of, IsTiling};
ghost use Rattle.seg_seqfit.specs.FreeBlocks.{IsFirstFit};
ghost use Rattle.seg_seqfit.specs.Retiling.{link_to};

use seg_block::{Block, BlockAt, HEAP_START, Header, LINK, UNIT, block_within, is_live, previous};
use seg_ptr::header::FREE;
use seg_ptr::{View, Window};
use std::alloc::Allocator;

/// A free block, the pointer word that points to it, and the block that its own link points to.
#[derive(Clone, Copy)]
pub(crate) struct Found {
    pub(crate) link: usize,
    pub(crate) block: Block,
    pub(crate) next: Option<BlockAt>,
}

/// The distance from a block's link to its payload, in bytes.
const PAST_LINK: u32 = 4;

/// The position of a block whose link would be the list's first word, so that a search treats that word like any link.
const LIST: u32 = 12;

/// The free block that the link of the block at `at` points to, if it is above `at`.
fn next_above(view: View, at: BlockAt) -> Option<BlockAt>
    requires { PAST_LINK ≤ at }
    ensures bounds { IfSome result (λ next. (at < next) × (next < 2 ^ 32)) }
    ensures none { target view.entry.bytes.now (at + LINK) ≡ None → result ≡ None }
    ensures named { (next : ℕ) → target view.entry.bytes.now (at + LINK) ≡ Some (next + UNIT)
        → at < next → result ≡ Some next }
{
    // a pointer's distance counts from its own word; the null pointer's 1 gives a position that isn't above
    let distance = view.get32(at as usize + LINK);
    let next = at.wrapping_add(distance).wrapping_sub(PAST_LINK);
    if next > at { Some(next) } else { None }
}

/// The lowest free block of at least `need` units.
pub(crate) fn first_fit<A: Allocator>(w: &Window<A>, need: u32) -> Option<Found>
    ensures bounds { IfSome result (λ f. (need ≤ f.block.units) × LiesIn w.now.bytes f.block) }
    ensures first { (gs : List Span) → IsFreeList w.now.bytes gs
        → AreFreeBlocks w.now.bytes HEAP_START gs
        → MatchOption result (first_fit gs need ≡ None)
        (λ f. IsFirstFit gs need f.link f.block.at f.block.units) }
    ensures next { IfSome result (λ f. f.next ≡ link_at w.now.bytes f.block.at) }
{
    let len = w.len();
    let view = w.view();
    let mut link = FREE;
    let mut next = next_above(view, LIST);
    while let Some(at) = next {
        // this is the only test that the words of this step lie inside the segment
        if view.len() < at as usize + UNIT as usize {
            return None;
        }
        let header = Header::read(view, at);
        if header.units >= need {
            let block = block_within(len, at, header.units)?;
            let next = header.link;
            return Some(Found { link, block, next });
        }
        link = at as usize + LINK;
        next = next_above(view, at);
    }
    None
}

/// The position of the pointer word that points to the first free block above a block: the link of the nearest free
/// block below, or the list's first word. It searches along the list and down the blocks in turn, so it takes at most
/// twice the steps of the shorter search, and none if the list begins above the block.
pub(crate) fn link_before<A: Allocator>(w: &Window<A>, block: Block) -> usize
    ensures { (xs ys : List Tile) (l : Bool)
        → IsTiling 0 w.now.bytes (xs ++ tile_of block l ∷ ys) → result ≡ link_to xs }
{
    let view = w.view();
    let mut link = FREE;
    let mut next = next_above(view, LIST);
    let mut near = block;
    while let Some(gap) = next {
        if gap >= block.at {
            return link;
        }
        link = gap as usize + LINK;
        next = next_above(view, gap);
        let Some(before) = previous(w, near) else {
            return FREE;
        };
        if !is_live(w, before.at) {
            return before.at as usize + LINK;
        }
        near = before;
    }
    link
}
