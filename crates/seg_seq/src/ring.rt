//! The nodes of a list. They form a ring: each points to the next and to the previous one. The list's cell points to
//! the first.

ghost use Rattle.std.specs.Prelude.{◌≡◌, ℕ, ◌<◌, ◌≤◌, List, [], ◌∷◌, ◌++◌, length, slice_index};
ghost use Rattle.seg_spec.specs.Reads.{start};
ghost use Rattle.seg_spec.specs.Window.{with_bytes, KeepsHost};
ghost use Rattle.seg_seq.specs.Rings.{coupled, AreSpread, HasRing, Relinks, link_of, around};

use seg_block::Fit;
use seg_ptr::{NodeAt, Window};
use seg_value::{CellAt, Heap, PREVIOUS, SegmentRead};
use std::alloc::Allocator;

/// A direction in the ring.
#[derive(Debug, Clone, Copy, PartialEq, Eq)]
pub(crate) enum Way {
    Forward,
    Backward,
}

/// The next or the previous node.
pub(crate) fn neighbour<S: SegmentRead>(source: &S, node: NodeAt, way: Way) -> NodeAt
    ensures { result ≡ start (S.stored source.now).window.bytes (link_of way node) }
{
    match way {
        Way::Forward => source.start(node),
        Way::Backward => source.start(node.wrapping_add(PREVIOUS)),
    }
}

/// The node `steps` steps from another.
fn walk<S: SegmentRead>(source: &S, from: NodeAt, way: Way, steps: u32) -> NodeAt
    ensures { (cell i : ℕ) (nodes : List ℕ) →
        HasRing (S.stored source.now).window.bytes cell nodes →
        AreSpread (S.stored source.now).window.bytes (cell ∷ nodes) → i < length nodes →
        from ≡ slice_index nodes i → steps ≤ length nodes →
        result ≡ slice_index nodes (around way (length nodes) i steps) }
{
    let mut node = from;
    for _ in 0..source.view().len().min(steps as usize) {
        node = neighbour(source, node, way);
    }
    node
}

/// The node of the item with this index, which the list must have. It is found from the nearer end.
pub(crate) fn node_at<S: SegmentRead>(source: &S, cell: CellAt, index: u32) -> NodeAt
    ensures { (nodes : List ℕ) → HasRing (S.stored source.now).window.bytes cell nodes →
        AreSpread (S.stored source.now).window.bytes (cell ∷ nodes) → index < length nodes →
        result ≡ slice_index nodes index }
{
    let first = source.start(cell);
    let from_end = source.count(cell).saturating_sub(index);
    if index <= from_end {
        walk(source, first, Way::Forward, index)
    } else {
        walk(source, first, Way::Backward, from_end)
    }
}

/// Makes one node the next of another.
fn join<A: Allocator>(w: &mut Window<A>, node: NodeAt, next: NodeAt)
    ensures { w.new ≡ with_bytes w.old (coupled w.old.bytes node next) }
{
    w.point(node as usize, Some(next));
    w.point(next as usize + PREVIOUS as usize, Some(node));
}

/// Inserts a new node between the last and the first one. It is the last one, unless the cell's pointer is then set to
/// it.
pub(crate) fn insert<F: Fit, A: Allocator>(heap: &mut Heap<F, A>, cell: CellAt, node: NodeAt)
    ensures window { KeepsHost heap.old.window heap.new.window }
    ensures types { heap.new.types ≡ heap.old.types }
    ensures inserted { (nodes : List ℕ) → HasRing heap.old.window.bytes cell nodes →
        AreSpread heap.old.window.bytes (cell ∷ node ∷ nodes) →
        Relinks heap.old.window.bytes heap.new.window.bytes cell
        (node ∷ nodes) (nodes ++ node ∷ []) }
{
    match heap.window().target(cell as usize) {
        None => {
            join(heap.window_mut(), node, node);
            heap.window_mut().point(cell as usize, Some(node));
        }
        Some(first) => {
            let last = neighbour(heap, first, Way::Backward);
            join(heap.window_mut(), last, node);
            join(heap.window_mut(), node, first);
        }
    }
    let nodes = heap.count(cell).saturating_add(1);
    heap.set_count(cell, nodes);
}

/// Removes a node from the ring.
pub(crate) fn remove<F: Fit, A: Allocator>(heap: &mut Heap<F, A>, cell: CellAt, node: NodeAt)
    ensures window { KeepsHost heap.old.window heap.new.window }
    ensures types { heap.new.types ≡ heap.old.types }
    ensures removed { (before after : List ℕ) →
        HasRing heap.old.window.bytes cell (before ++ node ∷ after) →
        AreSpread heap.old.window.bytes (cell ∷ before ++ node ∷ after) →
        Relinks heap.old.window.bytes heap.new.window.bytes cell
        (before ++ node ∷ after) (before ++ after) }
{
    let nodes = heap.count(cell).saturating_sub(1);
    heap.set_count(cell, nodes);
    if nodes == 0 {
        heap.window_mut().point(cell as usize, None);
        return;
    }
    let next = neighbour(heap, node, Way::Forward);
    let prev = neighbour(heap, node, Way::Backward);
    let w = heap.window_mut();
    join(w, prev, next);
    if w.target(cell as usize) == Some(node) {
        w.point(cell as usize, Some(next));
    }
}
