ghost use Rattle.std.specs.Prelude.{◌≡◌, ℕ, ◌+◌, ◌<◌, ◌^◌, List, ◌∷◌, length};
ghost use Rattle.seg_spec.specs.Shapes.{nodes_of};
ghost use Rattle.seg_spec.specs.Window.{with_bytes, KeepsHost};
ghost use Rattle.seg_rbtree.specs.Changes.{StandApart, IsNew, with_node, Leaves};
ghost use Rattle.seg_rbtree.specs.Nodes.{with_colour, rotated_and_coloured, straightened};
ghost use Rattle.seg_rbtree.specs.Rising.{IsRising, Settles};
ghost use Rattle.seg_rbtree.specs.Paths.{WhereOrdered, AddsAt};
ghost use Rattle.seg_rbtree.specs.Roots.{root_word};

use crate::node::{Colour, Side, child, child_word, init, is_red, paint, rotate};
use crate::order::{NodeOrder, Sought};
use crate::path::{DEPTH, Path};
use crate::step::Step;
use crate::tree::Tree;
use seg_ptr::{NodeAt, Window};
use std::alloc::Allocator;

impl Tree {
    /// Adds a node that doesn't compare as equal to a node of the tree. Only tree words and the root word change.
    pub fn insert<K: Copy, O: NodeOrder<K>, A: Allocator>(
        self,
        w: &mut Window<A>,
        order: &O,
        node: NodeAt,
    )
        ensures host { KeepsHost w.old w.new }
        ensures added { O.exact → WhereOrdered (O.compare order.now) w.old.bytes (root_word self)
            (λ shape. IsNew (O.compare order.now w.old.bytes) node (nodes_of shape)
            → StandApart (length w.old.bytes) (root_word self) (node ∷ nodes_of shape)
            → length (nodes_of shape) + 1 < 2 ^ 32
            → Leaves w.old.bytes w.new.bytes (root_word self) (node ∷ nodes_of shape)
            (with_node (O.compare order.now w.old.bytes) node (nodes_of shape))) }
    {
        let mut path = Path::new(self.root);
        path.descend(w.view(), order, Sought::Node(node));
        path.insert(w, node);
    }
}

impl Path {
    /// Adds a node at the empty place at the path's end. The node may be written after the search. Only tree words and
    /// the root word change. The path is then empty.
    pub fn insert<A: Allocator>(&mut self, w: &mut Window<A>, node: NodeAt)
        ensures host { KeepsHost w.old w.new }
        ensures added { AddsAt w.old.bytes w.new.bytes self.old node }
    {
        init(w, node);
        self.set(w, Some(node));
        let mut red = Some(node);
        for _ in 0..DEPTH {
            let Some(node) = red else {
                break;
            };
            red = settle(w, self, node);
        }
    }
}

/// Repairs the tree if a red node has a red parent. Returns a red node further up whose parent may be red, if that
/// remains to be done.
fn settle<A: Allocator>(w: &mut Window<A>, path: &mut Path, node: NodeAt) -> Option<NodeAt>
    ensures host { KeepsHost w.old w.new }
    ensures root { path.new.root ≡ path.old.root }
    ensures settled { (nodes : List ℕ)
        → IsRising w.old.bytes path.old.root path.old.steps.items nodes node
        → Settles w.old.bytes w.new.bytes path.old.root
        path.old.steps.items path.new.steps.items nodes result }
{
    let Some(parent) = path.pop() else {
        paint(w, node, Colour::Black);
        return None;
    };
    if !is_red(w, Some(parent.node())) {
        return None;
    }
    // the parent is red, so it isn't the root
    let grandparent = path.pop()?;
    let top = grandparent.node();
    let uncle = child(w, top, grandparent.side().other());
    match uncle {
        Some(uncle) if is_red(w, Some(uncle)) => {
            push_red_up(w, top, parent.node(), uncle);
            Some(top)
        }
        _ => {
            straighten(w, path.word(), grandparent, parent);
            None
        }
    }
}

/// Makes a node red and its two children black.
fn push_red_up<A: Allocator>(w: &mut Window<A>, node: NodeAt, child: NodeAt, other: NodeAt)
    ensures { w.new ≡ with_bytes w.old
        (with_colour (with_colour (with_colour w.old.bytes child Colour.Black) other Colour.Black)
        node Colour.Red) }
{
    paint(w, child, Colour::Black);
    paint(w, other, Colour::Black);
    paint(w, node, Colour::Red);
}

/// Repairs two red nodes in a row below a black node: the middle one of the three moves up and becomes black, and the
/// others become its red children.
fn straighten<A: Allocator>(w: &mut Window<A>, word: usize, grandparent: Step, parent: Step)
    ensures { w.new ≡ with_bytes w.old
        (straightened w.old.bytes word grandparent.node grandparent.side parent.node parent.side) }
{
    let side = grandparent.side();
    if parent.side() != side {
        let _ = rotate(w, child_word(grandparent.node(), side), parent.node(), side);
    }
    raise(w, word, grandparent.node(), side.other());
}

/// Moves the node at a pointer word down to a side and makes it red, and moves its child on the other side up and makes
/// it black.
fn raise<A: Allocator>(w: &mut Window<A>, word: usize, node: NodeAt, side: Side)
    ensures { w.new ≡ with_bytes w.old (rotated_and_coloured w.old.bytes word node side) }
{
    if let Some(up) = rotate(w, word, node, side) {
        paint(w, up, Colour::Black);
        paint(w, node, Colour::Red);
    }
}
