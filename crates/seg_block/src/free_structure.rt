//! How an allocator stores its free blocks, and what that needs if an allocated block changes its size.

ghost use Rattle.std.specs.Prelude.{◌≡◌, ℕ, ◌+◌, ◌*◌, ◌≤◌, ◌⊎◌, Bool, true, false, List, [], ◌∷◌, ◌++◌, None};
ghost use Rattle.seg_spec.specs.Bytes.{Agrees};
ghost use Rattle.seg_spec.specs.Window.{KeepsHost};
ghost use Rattle.seg_spec.specs.Heap.{Tile, IsHeap, link_at};
ghost use Rattle.seg_block.specs.Blocks.{block_end, IsCut, IsLiveBlock, room_after, IsResized};
ghost use Rattle.seg_block.specs.Tiling.{tile, tile_of, tile_after, grown, halves, IsTiling, Retiles};

use crate::block::{Block, join, split};
use crate::header::{TAG, UNIT};
use seg_ptr::{MAX_LEN, Window};
use std::alloc::Allocator;

/// How an allocator stores the free blocks of a heap. Between these calls free blocks may be adjacent.
pub trait FreeStructure {
    ghost allocator: { ℕ };

    /// How to reach a block in the structure, if its own position isn't enough.
    type Predecessor: Copy;

    ghost leads: { Self.Predecessor → List Tile → Type 0 };

    /// How to reach a block in the structure, or the place where it would be if it were free.
    fn predecessor<A: Allocator>(w: &Window<A>, block: Block) -> Self::Predecessor
        ensures { (xs ys : List Tile) (l : Bool)
            → IsTiling allocator w.now.bytes (xs ++ tile_of block l ∷ ys) → leads result xs };

    /// Marks a free block as allocated.
    fn take<A: Allocator>(w: &mut Window<A>, predecessor: Self::Predecessor, block: Block)
        requires { block_end block ≤ MAX_LEN }
        ensures host { KeepsHost w.old w.new }
        ensures tiles { (xs ys : List Tile) → leads predecessor xs
            → IsTiling allocator w.old.bytes (xs ++ tile_of block false ∷ ys)
            → Retiles allocator w.old.bytes w.new.bytes xs (tile_of block true ∷ []) ys
            × (link_at w.new.bytes block.at ≡ None) };

    /// Marks an allocated block as free. It isn't merged with its neighbours.
    fn release<A: Allocator>(w: &mut Window<A>, predecessor: Self::Predecessor, block: Block)
        requires { block_end block ≤ MAX_LEN }
        ensures host { KeepsHost w.old w.new }
        ensures tiles { (xs ys : List Tile) → leads predecessor xs
            → IsTiling allocator w.old.bytes (xs ++ tile_of block true ∷ ys)
            → Retiles allocator w.old.bytes w.new.bytes xs (tile_of block false ∷ []) ys };

    ghost leads_past: { (p : Self.Predecessor) (xs : List Tile) (at units : ℕ)
        → leads p xs → leads p (xs ++ tile at units true ∷ []) };
}

/// Resizes an allocated block to `units` units, at the cost or in favour of the free block of `room` units right after
/// it (0 if there is none).
pub fn resize<S: FreeStructure, A: Allocator>(
    w: &mut Window<A>,
    block: Block,
    room: u32,
    units: u32,
)
    requires inside { block_end block + UNIT * room ≤ MAX_LEN }
    requires front { 2 ≤ units }
    requires rest { (units ≡ block.units) ⊎ IsCut (block.units + room) units }
    ensures host { KeepsHost w.old w.new }
    ensures same { units ≡ block.units → w.new ≡ w.old }
    ensures resized { IsHeap S.allocator w.old.bytes → IsLiveBlock w.old.bytes block.at block.units
        → room ≡ room_after w.old.bytes block.at block.units
        → IsResized S.allocator w.old.bytes w.new.bytes block.at units }
{
    if units == block.units {
        return;
    }
    let predecessor = S::predecessor(w, block);
    absorb::<S, A>(w, predecessor, block, room);
    let whole = Block {
        at: block.at,
        units: block.units + room,
    };
    cut::<S, A>(w, predecessor, whole, units);
}

/// Joins an allocated block with the free block of `more` units right after it. Does nothing if `more` is 0.
pub(crate) fn absorb<S: FreeStructure, A: Allocator>(
    w: &mut Window<A>,
    predecessor: S::Predecessor,
    block: Block,
    more: u32,
)
    requires { block_end block + UNIT * more ≤ MAX_LEN }
    ensures host { KeepsHost w.old w.new }
    ensures none { more ≡ 0 → w.new ≡ w.old }
    ensures tiles { (xs ys : List Tile) → S.leads predecessor xs
        → IsTiling S.allocator w.old.bytes
        (xs ++ (tile_of block true ∷ tile_after block more false ∷ ys))
        → Retiles S.allocator w.old.bytes w.new.bytes xs (grown block more true ∷ []) ys
        × Agrees w.old.bytes w.new.bytes (block.at + TAG) (block_end block) }
{
    if more == 0 {
        return;
    }
    let gap = Block {
        at: block.at + UNIT * block.units,
        units: more,
    };
    S::take(w, predecessor, gap);
    join(w, block, gap);
}

/// Cuts an allocated block to `units`. The rest becomes a free block.
pub fn cut<S: FreeStructure, A: Allocator>(
    w: &mut Window<A>,
    predecessor: S::Predecessor,
    block: Block,
    units: u32,
)
    requires inside { block_end block ≤ MAX_LEN }
    requires front { 2 ≤ units }
    requires rest { IsCut block.units units }
    ensures host { KeepsHost w.old w.new }
    ensures whole { units ≡ block.units → w.new ≡ w.old }
    ensures tiles { units + 2 ≤ block.units → (xs ys : List Tile) → S.leads predecessor xs
        → IsTiling S.allocator w.old.bytes (xs ++ tile_of block true ∷ ys)
        → Retiles S.allocator w.old.bytes w.new.bytes xs (halves block units true false) ys
        × Agrees w.old.bytes w.new.bytes (block.at + TAG) (block.at + UNIT * units) }
{
    if units < block.units {
        let rest = Block {
            at: block.at + UNIT * units,
            units: block.units - units,
        };
        split(w, block, units);
        S::release(w, predecessor, rest);
    }
}
