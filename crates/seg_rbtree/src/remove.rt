ghost use Rattle.std.specs.Prelude.{◌≡◌, ◌≢◌, ◌<◌, ◌^◌, ◌∷◌, length, Some, None, IfSome, IfNone};
ghost use Rattle.std.specs.List.{AllByRecursion};
ghost use Rattle.seg_spec.specs.Pointer.{target, set_pointer};
ghost use Rattle.seg_spec.specs.Shapes.{fork, black, nodes_of, IsBlack, IsRedBlack};
ghost use Rattle.seg_spec.specs.Window.{with_bytes, KeepsHost};
ghost use Rattle.seg_rbtree.specs.Nodes.{side_word, opposite, colour_at};
ghost use Rattle.seg_rbtree.specs.Changes.{StandApart, without_node, Leaves};
ghost use Rattle.seg_rbtree.specs.Ways.{branch, plug, place};
ghost use Rattle.seg_rbtree.specs.Removing.{layer_at, IsShort, StandsAt, WhereRedBlack, Unlinks, Lowers, ComesUp, Lengthens, Restores};
ghost use Rattle.seg_rbtree.specs.Paths.{WhereOrdered, TakesOutAt, end_word, node_at};
ghost use Rattle.seg_rbtree.specs.Roots.{root_word};

use crate::next::descend_to_next;
use crate::node::{Colour, Side, child, child_word, colour_of, is_red, paint, rotate, take_place};
use crate::order::{NodeOrder, Sought};
use crate::path::{DEPTH, Path};
use crate::step::Step;
use crate::tree::Tree;
use seg_ptr::{NodeAt, Window};
use std::alloc::Allocator;

impl Tree {
    /// Removes a node of the tree. Only tree words and the root word change.
    pub fn remove<K: Copy, O: NodeOrder<K>, A: Allocator>(
        self,
        w: &mut Window<A>,
        order: &O,
        node: NodeAt,
    )
        ensures host { KeepsHost w.old w.new }
        ensures removed { O.exact → WhereOrdered (O.compare order.now) w.old.bytes (root_word self)
            (λ shape. StandApart (length w.old.bytes) (root_word self) (nodes_of shape)
            → Leaves w.old.bytes w.new.bytes (root_word self) (nodes_of shape)
            (without_node node (nodes_of shape))) }
        ensures stays { O.exact → WhereOrdered (O.compare order.now) w.old.bytes (root_word self)
            (λ shape. AllByRecursion (λ x. node ≢ x) (nodes_of shape) → w.new ≡ w.old) }
    {
        let mut path = Path::new(self.root);
        path.descend(w.view(), order, Sought::Node(node));
        if path.node(w) != Some(node) {
            return;
        }
        path.remove(w);
    }
}

impl Path {
    /// Removes the node at the path's end. Only tree words and the root word change. The path is then empty.
    pub fn remove<A: Allocator>(&mut self, w: &mut Window<A>)
        ensures host { KeepsHost w.old w.new }
        ensures removed { TakesOutAt w.old.bytes w.new.bytes self.old }
        ensures stays { node_at w.old.bytes self.old ≡ None → w.new ≡ w.old }
    {
        let Some(node) = self.node(w) else {
            return;
        };
        match unlink(w, self, node) {
            Colour::Black => restore(w, self),
            Colour::Red => {}
        }
    }
}

/// Unlinks the node at the end of a path, which then ends where a node is missing. Returns the missing node's colour.
fn unlink<A: Allocator>(w: &mut Window<A>, path: &mut Path, node: NodeAt) -> Colour
    ensures host { KeepsHost w.old w.new }
    ensures root { path.new.root ≡ path.old.root }
    ensures unlinked { (layers : _) (tree : _)
        → WhereRedBlack w.old.bytes path.old layers tree
        (target w.old.bytes (place path.old.root layers) ≡ Some node
        → Unlinks w.old.bytes w.new.bytes path.new layers tree node result) }
{
    if child(w, node, Side::Left).is_none() {
        return unlink_lone(w, path, node, Side::Left);
    }
    if child(w, node, Side::Right).is_none() {
        return unlink_lone(w, path, node, Side::Right);
    }
    unlink_by_next(w, path, node)
}

/// Unlinks the node at the end of a path, if it has no child on one side. Returns its colour.
fn unlink_lone<A: Allocator>(w: &mut Window<A>, path: &Path, node: NodeAt, empty: Side) -> Colour
    ensures gone { result ≡ colour_at w.old.bytes (Some node) }
    ensures set { w.new ≡ with_bytes w.old (set_pointer w.old.bytes (end_word path.now)
        (target w.old.bytes (side_word node (opposite empty)))) }
{
    let gone = colour_of(w, Some(node));
    let only = child(w, node, empty.other());
    path.set(w, only);
    gone
}

/// Unlinks a node with two children: the next node in order replaces it and takes its colour. Returns the next node's
/// colour.
fn unlink_by_next<A: Allocator>(w: &mut Window<A>, path: &mut Path, node: NodeAt) -> Colour
    ensures host { KeepsHost w.old w.new }
    ensures root { path.new.root ≡ path.old.root }
    ensures unlinked { (layers : _) (left right : _) (colour : _)
        → WhereRedBlack w.old.bytes path.old layers (fork left node colour right)
        (target w.old.bytes (side_word node Side.Right) ≢ None
        → Unlinks w.old.bytes w.new.bytes path.new layers
        (fork left node colour right) node result) }
{
    let depth = path.len();
    let Some(next) = descend_to_next(w.view(), path, node) else {
        return Colour::Red;
    };
    let gone = unlink_lone(w, path, next, Side::Left);
    take_place(w, node, next);
    path.set_step(depth, next);
    path.set_at(w, depth, next);
    gone
}

/// Restores the number of black nodes if the subtree at the end of a path has one too few on all its paths.
fn restore<A: Allocator>(w: &mut Window<A>, path: &mut Path)
    ensures host { KeepsHost w.old w.new }
    ensures restored { (layers : _) (tree : _) → StandsAt w.old.bytes path.old layers tree
        → IsShort layers tree
        → Restores w.old.bytes w.new.bytes path.old.root (plug tree layers) }
{
    for _ in 0..DEPTH {
        if !lengthen(w, path) {
            return;
        }
    }
}

/// One step of `restore`: repairs the subtree, or moves the lack further up. Returns whether another step is needed.
fn lengthen<A: Allocator>(w: &mut Window<A>, path: &mut Path) -> bool
    ensures host { KeepsHost w.old w.new }
    ensures root { path.new.root ≡ path.old.root }
    ensures lengthened { (layers : _) (tree : _) → StandsAt w.old.bytes path.old layers tree
        → IsShort layers tree
        → Lengthens w.old.bytes w.new.bytes path.new layers tree result }
{
    let here = path.node(w);
    if is_red(w, here) {
        if let Some(node) = here {
            paint(w, node, Colour::Black);
        }
        return false;
    }
    match path.pop() {
        Some(short) => lengthen_beside(w, path, short),
        None => false,
    }
}

/// A step for a subtree with a black root, below the node at the end of a path. Its sibling helps.
fn lengthen_beside<A: Allocator>(w: &mut Window<A>, path: &mut Path, short: Step) -> bool
    ensures host { KeepsHost w.old w.new }
    ensures root { path.new.root ≡ path.old.root }
    ensures lengthened { (layers : _) (tree other : _) (colour : _)
        → StandsAt w.old.bytes path.old layers (branch short.side short.node colour tree other)
        → IsShort (layer_at short.side short.node colour other ∷ layers) tree → IsBlack tree
        → Lengthens w.old.bytes w.new.bytes path.new
        (layer_at short.side short.node colour other ∷ layers) tree result }
{
    let Some(sibling) = child(w, short.node(), short.side().other()) else {
        return false;
    };
    if is_red(w, Some(sibling)) {
        lower(w, path, short, sibling);
        true
    } else {
        borrow(w, path, short, sibling)
    }
}

/// Moves a red sibling up, so that the short subtree gets a black sibling.
fn lower<A: Allocator>(w: &mut Window<A>, path: &mut Path, short: Step, sibling: NodeAt)
    ensures host { KeepsHost w.old w.new }
    ensures root { path.new.root ≡ path.old.root }
    ensures lowered { (layers : _) (tree inner outer : _) (colour other : _)
        → StandsAt w.old.bytes path.old layers
        (branch short.side short.node colour tree (branch short.side sibling other inner outer))
        → length layers < 63
        → Lowers w.old.bytes w.new.bytes path.new short.side short.node sibling
        colour other layers tree inner outer }
{
    let (node, side) = (short.node(), short.side());
    let _ = path.rotate(w, node, side);
    paint(w, sibling, Colour::Black);
    paint(w, node, Colour::Red);
    let _ = path.push(sibling, side);
    let _ = path.push(node, side);
}

/// Takes a black node for the short subtree from a red child of its black sibling. If the sibling has no red child, its
/// subtree is shortened too, so that both have the same lack, and the subtree above them is short.
fn borrow<A: Allocator>(w: &mut Window<A>, path: &mut Path, short: Step, sibling: NodeAt) -> bool
    ensures host { KeepsHost w.old w.new }
    ensures root { path.new.root ≡ path.old.root }
    ensures lengthened { (layers : _) (tree inner outer : _) (colour : _)
        → StandsAt w.old.bytes path.old layers
        (branch short.side short.node colour tree (branch short.side sibling black inner outer))
        → IsShort (layer_at short.side short.node colour
        (branch short.side sibling black inner outer) ∷ layers) tree
        → IsBlack tree
        → Lengthens w.old.bytes w.new.bytes path.new (layer_at short.side short.node colour
        (branch short.side sibling black inner outer) ∷ layers) tree result }
{
    let side = short.side();
    let far = side.other();
    if let Some(outer) = red_child(w, sibling, far) {
        paint(w, outer, Colour::Black);
        come_up(w, path, short);
        return false;
    }
    if is_red(w, child(w, sibling, side)) {
        let _ = rotate(w, child_word(short.node(), far), sibling, far);
        come_up(w, path, short);
        return false;
    }
    paint(w, sibling, Colour::Red);
    true
}

/// The child on a side, if it is red.
fn red_child<A: Allocator>(w: &Window<A>, node: NodeAt, side: Side) -> Option<NodeAt>
    ensures red { IfSome result (λ child. (target w.now.bytes (side_word node side) ≡ Some child)
        × (colour_at w.now.bytes (Some child) ≡ Colour.Red)) }
    ensures none { IfNone result
        (colour_at w.now.bytes (target w.now.bytes (side_word node side)) ≡ Colour.Black) }
{
    match child(w, node, side) {
        Some(child) if is_red(w, Some(child)) => Some(child),
        _ => None,
    }
}

/// Moves the sibling of a short subtree up, in its parent's colour, and the parent down, black.
fn come_up<A: Allocator>(w: &mut Window<A>, path: &Path, short: Step)
    ensures host { KeepsHost w.old w.new }
    ensures came_up { (layers : _) (tree inner outer : _) (up : _) (colour other : _)
        → StandsAt w.old.bytes path.now layers
        (branch short.side short.node colour tree (branch short.side up other inner outer))
        → ComesUp w.old.bytes w.new.bytes path.now.root short.side short.node up
        colour other layers tree inner outer }
{
    let node = short.node();
    let top = colour_of(w, Some(node));
    if let Some(up) = path.rotate(w, node, short.side()) {
        paint(w, up, top);
        paint(w, node, Colour::Black);
    }
}
