ghost use Rattle.std.specs.Prelude.{◌≡◌, ℕ, ◌+◌, ◌-◌, ◌*◌, ◌/◌, ◌^◌, ◌<◌, ◌≤◌, max, Bool, List, [], ◌∷◌, ◌++◌, length, Contains, IfSome, IsSomeAnd, Option, Some, None};
ghost use Rattle.seg_spec.specs.Window.{with_bytes};
ghost use Rattle.std.specs.Option.{SomeIff};
ghost use Rattle.seg_spec.specs.Heap.{Span, span, span_of, Tile, Fill, AreHeaders, IsHeap, units_at, is_live_at};
ghost use Rattle.seg_block.specs.Sizes.{size_word, set_size, set_split};
ghost use Rattle.seg_block.specs.Tiling.{tile_of, tile_after, grown, halves, IsTiled, Replaces, ForNext, WhereLast, ForPrevious, WhereFirst};
ghost use Rattle.seg_block.specs.Blocks.{block_end, Covers, LiesIn, IsJustBefore, HasRoom, payload_at, IsSized, IsReadFree, HasEnd, IsLiveBlock, room_after};

use crate::header::{
    BlockAt, HEAP_START, LIVE, PayloadAt, TAG, UNIT, UNITS_BEFORE, block_of, is_live, units,
    units_before,
};
use seg_ptr::{MAX_LEN, Window};
use std::alloc::Allocator;

/// A block: the position of its header, and its size in units, with the header.
#[derive(Debug, Clone, Copy, PartialEq, Eq)]
pub struct Block {
    pub at: BlockAt,
    pub units: u32,
}

/// The size in units of a block for a payload of `n` bytes.
pub fn need(n: u32) -> u32
    ensures { result ≡ max 2 (1 + (n + 15) / 16) }
{
    (1 + n.div_ceil(UNIT)).max(2)
}

/// The block at a position, or `None` if the segment is too short for the size in its header.
pub fn block_at<A: Allocator>(w: &Window<A>, at: BlockAt) -> Option<Block>
    ensures stated { SomeIff result (HasRoom w.now.bytes at)
        (record { at = at; units = units_at w.now.bytes at }) }
    ensures bounds { IfSome result (λ f. (f.at ≡ at) × LiesIn w.now.bytes f) }
    ensures read { (g : Span) → at ≡ g.at → IsSized w.now.bytes g
        → IsSomeAnd result (λ f. Covers f g) }
{
    block_within(w.len(), at, units(w, at))
}

/// The block of `units` units at a position, or `None` if that is too small for a block or ends after `len`.
pub fn block_within(len: u32, at: BlockAt, units: u32) -> Option<Block>
    ensures { SomeIff result ((2 ≤ units) × (at + UNIT * units ≤ len))
        (record { at = at; units = units }) }
{
    if units < 2 || at > len || units > (len - at) / UNIT {
        return None;
    }
    Some(Block { at, units })
}

/// How many entries of `size` bytes fit in the block whose payload begins at `payload`. 0 if the segment is too short
/// for the size in its header.
pub fn capacity<A: Allocator>(w: &Window<A>, payload: PayloadAt, size: u32) -> u32
    requires { 1 ≤ size }
    ensures stated { HasRoom w.now.bytes (payload - UNIT)
        → result ≡ payload_at w.now.bytes (payload - UNIT) / size }
    ensures none { (HasRoom w.now.bytes (payload - UNIT) → ⊥) → result ≡ 0 }
    ensures block { (g : Span) → payload ≡ g.at + UNIT → IsSized w.now.bytes g
        → result ≡ (UNIT * g.units - UNIT) / size }
{
    match block_at(w, block_of(payload)) {
        Some(block) => UNIT * (block.units - 1) / size,
        None => 0,
    }
}

/// The last block of a heap that ends at a position.
pub fn last_block<A: Allocator>(w: &Window<A>, end: u32) -> Option<Block>
    ensures bounds { IfSome result (λ f. (HEAP_START ≤ f.at) × LiesIn w.now.bytes f) }
    ensures last { (ts : List Tile) → HEAP_START < end → end ≤ length w.now.bytes
        → Fill HEAP_START ts end → AreHeaders w.now.bytes 0 ts
        → IsSomeAnd result (λ f. HasEnd w.now.bytes ts f.at f.units) }
{
    let mut at = HEAP_START;
    while let Some(block) = block_at(w, at) {
        let following = block.at + UNIT * block.units;
        if following >= end {
            return Some(block);
        }
        at = following;
    }
    None
}

/// The first word of a header: a block's size in units, and whether it is allocated.
pub fn size_word(units: u32, live: bool) -> u32
    requires { units < LIVE }
    ensures { result ≡ size_word units live }
{
    if live { units + LIVE } else { units }
}

/// Writes the size in units of the block at a position, to its header and to the header of the block after it.
pub fn set_size<A: Allocator>(w: &mut Window<A>, block: BlockAt, units: u32, live: bool)
    requires { units < LIVE }
    ensures { w.new ≡ with_bytes w.old (set_size w.old.bytes block units live) }
{
    w.put32(block as usize, size_word(units, live));
    w.put32(block as usize + 16 * units as usize + UNITS_BEFORE, units);
}

/// The block right after a block, or `None` at the end of the segment.
pub fn next<A: Allocator>(w: &Window<A>, block: Block) -> Option<Block>
    requires { block_end block ≤ MAX_LEN }
    ensures bounds { IfSome result (λ f. (f.at ≡ block_end block) × LiesIn w.now.bytes f) }
    ensures read { ForNext w.now.bytes block (λ t. IsSomeAnd result (λ f. Covers f (span_of t))) }
    ensures none { WhereLast w.now.bytes block (result ≡ None) }
{
    block_at(w, block.at + UNIT * block.units)
}

/// The block right before a block, or `None` if it is the first.
pub fn previous<A: Allocator>(w: &Window<A>, block: Block) -> Option<Block>
    ensures bounds { IfSome result (IsJustBefore block.at) }
    ensures read { ForPrevious w.now.bytes block
        (λ t. IsSomeAnd result (λ f. Covers f (span_of t))) }
    ensures none { WhereFirst w.now.bytes block (result ≡ None) }
{
    let units = units_before(w, block.at);
    if units < 2 || units > block.at / UNIT {
        return None;
    }
    Some(Block {
        at: block.at - UNIT * units,
        units,
    })
}

/// The block right after a block, if it is free.
pub fn free_after<A: Allocator>(w: &Window<A>, block: Block) -> Option<Block>
    requires { block_end block ≤ MAX_LEN }
    ensures bounds { IfSome result (λ f. (f.at ≡ block_end block) × LiesIn w.now.bytes f) }
    ensures read { ForNext w.now.bytes block (λ t. IsReadFree t result) }
    ensures none { WhereLast w.now.bytes block (result ≡ None) }
{
    let following = next(w, block)?;
    if is_live(w, following.at) {
        return None;
    }
    Some(following)
}

/// The block right before a block, if it is free.
pub fn free_before<A: Allocator>(w: &Window<A>, block: Block) -> Option<Block>
    ensures bounds { IfSome result (IsJustBefore block.at) }
    ensures read { ForPrevious w.now.bytes block (λ t. IsReadFree t result) }
    ensures none { WhereFirst w.now.bytes block (result ≡ None) }
{
    let before = previous(w, block)?;
    if is_live(w, before.at) {
        return None;
    }
    Some(before)
}

/// The size in units of the free block right after a block, or 0 if there is none.
pub fn room_after<A: Allocator>(w: &Window<A>, block: Block) -> u32
    requires { block_end block ≤ MAX_LEN }
    ensures bounds { block_end block + UNIT * result ≤ MAX_LEN }
    ensures inside { block_end block ≤ length w.now.bytes
        → block_end block + UNIT * result ≤ length w.now.bytes }
    ensures room { (allocator : ℕ) → IsHeap allocator w.now.bytes
        → IsLiveBlock w.now.bytes block.at block.units
        → result ≡ room_after w.now.bytes block.at block.units }
{
    match free_after(w, block) {
        Some(gap) => gap.units,
        None => 0,
    }
}

/// Splits a block in two. Both are allocated or free as the block was. The front has `units` units; the rest has tag 0.
pub fn split<A: Allocator>(w: &mut Window<A>, block: Block, units: u32)
    requires inside { block_end block ≤ MAX_LEN }
    requires front { 2 ≤ units }
    requires rest { units + 2 ≤ block.units }
    ensures bytes { w.new ≡ with_bytes w.old (set_split w.old.bytes block.at units
        (block.units - units) (is_live_at w.old.bytes block.at)) }
    ensures tiles { (xs ys : List Tile) (l : Bool)
        → IsTiled w.old.bytes (xs ++ tile_of block l ∷ ys)
        → Replaces w.old.bytes w.new.bytes xs (halves block units l l) ys block.at (UNIT * units) }
{
    let live = is_live(w, block.at);
    let rest = block.at + UNIT * units;
    w.put32(rest as usize + TAG, 0);
    set_size(w, rest, block.units - units, live);
    set_size(w, block.at, units, live);
}

/// Joins a block with the block right after it. The result is allocated or free as the first block was.
pub fn join<A: Allocator>(w: &mut Window<A>, block: Block, following: Block)
    requires { block_end block + UNIT * following.units ≤ MAX_LEN }
    ensures bytes { w.new ≡ with_bytes w.old (set_size w.old.bytes block.at
        (block.units + following.units) (is_live_at w.old.bytes block.at)) }
    ensures tiles { (xs ys : List Tile) (l m : Bool)
        → IsTiled w.old.bytes (xs ++ (tile_of block l ∷ tile_after block following.units m ∷ ys))
        → Replaces w.old.bytes w.new.bytes xs (grown block following.units l ∷ []) ys
        block.at (UNIT * block.units) }
{
    let live = is_live(w, block.at);
    set_size(w, block.at, block.units + following.units, live);
}
