ghost use Rattle.std.specs.Prelude.{◌≡◌, ◌-◌, ◌+◌, ◌*◌, ◌%◌, ◌^◌, ◌≤◌, List, [], ◌∷◌, ◌++◌, length, IfSome, IsSomeAnd, MatchOption, Some, None, true, false, ⊤};
ghost use Rattle.std.specs.Ordering.{nat_cmp, ordering_then};
ghost use Rattle.std.proofs.Common.{inl, arith};
ghost use Rattle.std.specs.Cmp.{on_total, then_total, nat_cmp_total};
ghost use Rattle.seg_spec.specs.Heap.{Span, Tile, span, link_at, best_fit, by_size, free_of, IsFreeTree};
ghost use Rattle.seg_spec.specs.Window.{with_bytes, KeepsHost};
ghost use Rattle.seg_spec.proofs.BytesLaws.{number-slice};
ghost use Rattle.seg_spec.proofs.OrderLaws.{then_steps_up};
ghost use Rattle.seg_rbtree.specs.Parts.{byte_range};
ghost use Rattle.seg_rbtree.specs.Roots.{root_word};
ghost use Rattle.seg_block.specs.Blocks.{block_end, Covers, LiesIn, IsSized};
ghost use Rattle.seg_block.specs.Tiling.{tile_of, halves, IsTiling, Retiles};
ghost use Rattle.seg_bestfit.specs.FreeTree.{node_units, by_units, AreGaps, KeepsPlace, LeadsToGap, LeavesTree, JoinsTree, MakesGap, MakesGapWith, set_free};

use crate::bestfit::BestFit;
use seg_block::{Block, FreeStructure, HEAP_START, LINK, TAG, UNIT, block_at, set_size, units_in};
use seg_ptr::header::FREE;
use seg_ptr::{MAX_LEN, View, Window};
use seg_rbtree::{NodeAt, NodeOrder, Path, Tree};
use std::alloc::Allocator;
use std::cmp::Ordering;

/// The order of free blocks: by size in units, then by position. A search key is a size in units.
pub(crate) struct BySize;

/// The units of the free block with this node.
fn size(view: View, node: NodeAt) -> u32
    ensures { result ≡ node_units view.entry.bytes.now node }
{
    units_in(view, node.saturating_sub(UNIT))
}

/// The size in units and the position of the free block with this node, in one number that orders like the pair.
fn rank(view: View, node: NodeAt) -> u64
    ensures { result ≡ node_units view.entry.bytes.now node * 2 ^ 32 + node }
{
    u64::from(size(view, node)) * (1 << 32) + u64::from(node)
}

impl NodeOrder<u32> for BySize {
    ghost exact = { ⊤ };

    ghost compare = { λ _ bytes. by_units bytes };

    ghost compare_key = { λ _ bytes x key. nat_cmp (node_units bytes x) key };

    ghost read = { λ _ _ x. byte_range (x - 16) 4 ∷ [] };

    fn nodes(&self, view: View, node: NodeAt, other: NodeAt) -> Ordering {
        rank(view, node).cmp(&rank(view, other))
    }

    fn key(&self, view: View, node: NodeAt, key: u32) -> Ordering {
        size(view, node).cmp(&key)
    }

    ghost total = { λ _ _ bytes.
        then_total (on_total (node_units bytes) nat_cmp_total) nat_cmp_total };

    ghost keyed = { λ _ _ bytes x y key less.
        then_steps_up nat_cmp_total (node_units bytes x) (node_units bytes y) key
        (nat_cmp x y) less };

    ghost apart = { λ _ _ _ x low _. (inl (omega (arith, low)), tt) };

    ghost steady = { λ _ _ old new x y same_x same_y i.
        ordering_then
        (nat_cmp (number-slice 4 old new (x - 16) (x - 16) same_x.0 i % 2 ^ 31)
        (number-slice 4 old new (y - 16) (y - 16) same_y.0 i % 2 ^ 31)) (nat_cmp x y) };
}

/// The tree of free blocks.
pub(crate) fn free_tree() -> Tree
    ensures { root_word result ≡ FREE }
{
    Tree::new(FREE)
}

fn node_block<A: Allocator>(w: &Window<A>, node: NodeAt) -> Option<Block>
    ensures bounds { IfSome result (λ f. (f.at + UNIT ≡ node) × LiesIn w.now.bytes f) }
    ensures read { (g : Span) → node ≡ g.at + UNIT → IsSized w.now.bytes g
        → IsSomeAnd result (λ f. Covers f g) }
{
    block_at(w, node.checked_sub(UNIT)?)
}

/// Sets `path` to the smallest free block of at least `need` units, the lowest among equals, and returns the block.
pub(crate) fn best_fit<A: Allocator>(path: &mut Path, w: &Window<A>, need: u32) -> Option<Block>
    ensures bounds { IfSome result (λ f. (need ≤ f.units) × LiesIn w.now.bytes f) }
    ensures best { (gs : List Span) → IsFreeTree w.now.bytes gs → AreGaps w.now.bytes gs
        → HEAP_START ≤ length w.now.bytes → length w.now.bytes ≤ MAX_LEN
        → MatchOption result (best_fit gs need ≡ None)
        (λ f. best_fit gs need ≡ Some (span f.at f.units)) }
    ensures leads { IfSome result (λ f. LeadsToGap w.now.bytes path.new (f.at + UNIT)) }
{
    let node = path.lead_to_first(w, free_tree(), &BySize, need)?;
    let gap = node_block(w, node)?;
    if gap.units < need {
        return None;
    }
    Some(gap)
}

/// Takes a free block out of the tree.
pub(crate) fn take_out<A: Allocator>(w: &mut Window<A>, block: Block)
    requires { block_end block ≤ MAX_LEN }
    ensures host { KeepsHost w.old w.new }
    ensures leaves { length w.old.bytes ≤ MAX_LEN → (xs ys : List Span)
        → AreGaps w.old.bytes (xs ++ span block.at block.units ∷ ys)
        → IsFreeTree w.old.bytes (xs ++ span block.at block.units ∷ ys)
        → LeavesTree w.old.bytes w.new.bytes xs (span block.at block.units) ys }
{
    free_tree().remove(w, &BySize, block.at + UNIT);
}

/// Puts a free block into the tree.
pub(crate) fn put_in<A: Allocator>(w: &mut Window<A>, block: Block)
    requires { block_end block ≤ MAX_LEN }
    ensures host { KeepsHost w.old w.new }
    ensures joins { length w.old.bytes ≤ MAX_LEN → (xs ys : List Span)
        → AreGaps w.old.bytes (xs ++ span block.at block.units ∷ ys)
        → IsFreeTree w.old.bytes (xs ++ ys) → link_at w.old.bytes block.at ≡ None
        → JoinsTree w.old.bytes w.new.bytes xs (span block.at block.units) ys }
{
    free_tree().insert(w, &BySize, block.at + UNIT);
}

/// Sets `path` to a free block in the tree.
#[inline(always)]
fn lead_to<A: Allocator>(path: &mut Path, w: &Window<A>, block: Block)
    requires { block_end block ≤ MAX_LEN }
    ensures { LeadsToGap w.now.bytes path.new (block.at + UNIT) }
{
    path.lead_to_node(w, free_tree(), &BySize, block.at + UNIT);
}

fn set_free<A: Allocator>(w: &mut Window<A>, block: Block)
    requires { block_end block ≤ MAX_LEN }
    ensures { w.new ≡ with_bytes w.old (set_free w.old.bytes block.at block.units) }
{
    w.put32(block.at as usize + TAG, 0);
    w.point(block.at as usize + LINK, None);
    set_size(w, block.at, block.units, false);
}

/// Allocates the first `units` units of the free block at the end of `path`. The rest stays free, and its node replaces
/// the block's node in the tree. That keeps the tree in order if no other free block lies between the two in the order.
pub(crate) fn take_front<A: Allocator>(w: &mut Window<A>, path: &Path, gap: Block, units: u32)
    requires inside { block_end gap ≤ MAX_LEN }
    requires front { 2 ≤ units }
    requires rest { units + 2 ≤ gap.units }
    ensures host { KeepsHost w.old w.new }
    ensures tiles { LeadsToGap w.old.bytes path.now (gap.at + UNIT) → (xs ys : List Tile)
        → IsTiling 1 w.old.bytes (xs ++ tile_of gap false ∷ ys)
        → KeepsPlace (by_size (free_of xs ++ free_of ys)) (span gap.at gap.units)
        (span (gap.at + UNIT * units) (gap.units - units))
        → Retiles 1 w.old.bytes w.new.bytes xs (halves gap units true false) ys
        × (link_at w.new.bytes gap.at ≡ None) }
{
    let rest = Block {
        at: gap.at + UNIT * units,
        units: gap.units - units,
    };
    set_free(w, rest);
    set_size(w, gap.at, units, true);
    path.replace(w, rest.at + UNIT);
}

/// Allocates the whole free block at the end of `path`. The path is then empty.
pub(crate) fn take_whole<A: Allocator>(w: &mut Window<A>, path: &mut Path, gap: Block)
    requires { block_end gap ≤ MAX_LEN }
    ensures host { KeepsHost w.old w.new }
    ensures tiles { LeadsToGap w.old.bytes path.old (gap.at + UNIT) → (xs ys : List Tile)
        → IsTiling 1 w.old.bytes (xs ++ tile_of gap false ∷ ys)
        → Retiles 1 w.old.bytes w.new.bytes xs (tile_of gap true ∷ []) ys
        × (link_at w.new.bytes gap.at ≡ None) }
{
    path.remove(w);
    set_size(w, gap.at, gap.units, true);
}

/// Makes the blocks in `block` one free block. None of them may be in the tree.
fn make_gap<A: Allocator>(w: &mut Window<A>, block: Block)
    requires { block_end block ≤ MAX_LEN }
    ensures host { KeepsHost w.old w.new }
    ensures tiles { MakesGap w.old.bytes w.new.bytes block.at block.units }
{
    set_free(w, block);
    put_in(w, block);
}

/// Makes the blocks in `block`, none of which may be in the tree, one free block with the free block of `more` units
/// right after it (0 if there is none). If the latter is the last in the order, the new node takes its place without a
/// search.
pub(crate) fn release_joined<A: Allocator>(w: &mut Window<A>, block: Block, more: u32)
    requires { block_end block + UNIT * more ≤ MAX_LEN }
    ensures host { KeepsHost w.old w.new }
    ensures tiles { MakesGapWith w.old.bytes w.new.bytes block.at block.units more }
{
    if more == 0 {
        make_gap(w, block);
        return;
    }
    let gap = Block {
        at: block.at + UNIT * block.units,
        units: more,
    };
    let whole = Block {
        at: block.at,
        units: block.units + more,
    };
    let mut path = Path::new(FREE);
    lead_to(&mut path, w, gap);
    if path.is_last(w) {
        set_free(w, whole);
        path.replace(w, whole.at + UNIT);
    } else {
        path.remove(w);
        make_gap(w, whole);
    }
}

impl FreeStructure for BestFit {
    ghost allocator = { 1 };

    /// The tree finds a block by its size and its position, so nothing else is needed.
    type Predecessor = ();

    ghost leads = { λ _ _. ⊤ };

    fn predecessor<A: Allocator>(_w: &Window<A>, _block: Block) {}

    fn take<A: Allocator>(w: &mut Window<A>, _predecessor: (), block: Block) {
        take_out(w, block);
        set_size(w, block.at, block.units, true);
    }

    fn release<A: Allocator>(w: &mut Window<A>, _predecessor: (), block: Block) {
        make_gap(w, block);
    }

    ghost leads_past = { λ _ _ _ _ _. tt };
}
