ghost use Rattle.std.specs.Prelude.{◌≡◌, ◌↔◌, IsTrue, MatchOption};
ghost use Rattle.seg_spec.specs.Pointer.{target};
ghost use Rattle.seg_spec.specs.Shapes.{HasColour};
ghost use Rattle.seg_spec.specs.Window.{with_bytes};
ghost use Rattle.seg_rbtree.specs.Nodes.{side_word, opposite, colour_at, shade, with_child, with_colour, with_new_node, rotated};
ghost use Rattle.seg_rbtree.specs.Removing.{in_place_of, as_another};

use seg_ptr::{NodeAt, View, Window};
use std::alloc::Allocator;

/// The offset of a node's pointer to the right child, in bytes. The pointer to the left child is first.
const RIGHT: usize = 4;

/// The offset of a node's colour, in bytes.
const COLOUR: usize = 8;

/// The offset of a node's word that is 0, in bytes.
const ZERO: usize = 12;

/// One of a node's two children.
#[derive(Debug, Clone, Copy, PartialEq, Eq)]
pub enum Side {
    Left,
    Right,
}

impl Side {
    pub(crate) fn other(self) -> Side
        ensures { result ≡ opposite self }
    {
        match self {
            Side::Left => Side::Right,
            Side::Right => Side::Left,
        }
    }
}

/// The colour of a node, with its number in the segment.
#[derive(Debug, Clone, Copy, PartialEq, Eq)]
pub enum Colour {
    Black = 0,
    Red = 1,
}

/// The position of the pointer to a child.
pub fn child_word(node: NodeAt, side: Side) -> usize
    ensures { result ≡ side_word node side }
{
    match side {
        Side::Left => node as usize,
        Side::Right => node as usize + RIGHT,
    }
}

/// The child of a node on a side.
pub fn child<A: Allocator>(w: &Window<A>, node: NodeAt, side: Side) -> Option<NodeAt>
    ensures { result ≡ target w.now.bytes (side_word node side) }
{
    w.target(child_word(node, side))
}

/// Like [`child`], from the segment's bytes.
pub(crate) fn child_in(view: View, node: NodeAt, side: Side) -> Option<NodeAt>
    ensures { result ≡ target view.entry.bytes.now (side_word node side) }
{
    view.target(child_word(node, side))
}

pub(crate) fn set_child<A: Allocator>(
    w: &mut Window<A>,
    node: NodeAt,
    side: Side,
    child: Option<NodeAt>,
)
    ensures { w.new ≡ with_bytes w.old (with_child w.old.bytes node side child) }
{
    w.point(child_word(node, side), child);
}

/// The colour of a node, or `None` if its words don't encode a colour.
pub fn node_colour(view: View, node: NodeAt) -> Option<Colour>
    ensures { MatchOption result ((c : _) → HasColour view.entry.bytes.now node c → ⊥)
        (λ c. HasColour view.entry.bytes.now node (shade c)) }
{
    if view.get32(node as usize + ZERO) != 0 {
        return None;
    }
    match view.get32(node as usize + COLOUR) {
        0 => Some(Colour::Black),
        1 => Some(Colour::Red),
        _ => None,
    }
}

/// The colour of a node: red if its word is red's, otherwise black. An empty place is black.
pub(crate) fn colour_of<A: Allocator>(w: &Window<A>, node: Option<NodeAt>) -> Colour
    ensures { result ≡ colour_at w.now.bytes node }
{
    match node {
        Some(node) if w.get32(node as usize + COLOUR) == Colour::Red as u32 => Colour::Red,
        _ => Colour::Black,
    }
}

pub(crate) fn is_red<A: Allocator>(w: &Window<A>, node: Option<NodeAt>) -> bool
    ensures { IsTrue result ↔ (colour_at w.now.bytes node ≡ Colour.Red) }
{
    colour_of(w, node) == Colour::Red
}

pub(crate) fn paint<A: Allocator>(w: &mut Window<A>, node: NodeAt, colour: Colour)
    ensures { w.new ≡ with_bytes w.old (with_colour w.old.bytes node colour) }
{
    w.put32(node as usize + COLOUR, colour as u32);
}

/// Makes a node a red one without children.
pub(crate) fn init<A: Allocator>(w: &mut Window<A>, node: NodeAt)
    ensures { w.new ≡ with_bytes w.old (with_new_node w.old.bytes node) }
{
    set_child(w, node, Side::Left, None);
    set_child(w, node, Side::Right, None);
    paint(w, node, Colour::Red);
    w.put32(node as usize + ZERO, 0);
}

/// Copies the children and the colour of one node to another.
pub(crate) fn take_place<A: Allocator>(w: &mut Window<A>, from: NodeAt, to: NodeAt)
    ensures { w.new ≡ with_bytes w.old (in_place_of w.old.bytes from to) }
{
    let left = child(w, from, Side::Left);
    let right = child(w, from, Side::Right);
    let colour = colour_of(w, Some(from));
    set_child(w, to, Side::Left, left);
    set_child(w, to, Side::Right, right);
    paint(w, to, colour);
}

/// Writes a node with the children and the colour of another. The words of the two may overlap.
pub(crate) fn init_as<A: Allocator>(w: &mut Window<A>, node: NodeAt, other: NodeAt)
    ensures { w.new ≡ with_bytes w.old (as_another w.old.bytes other node) }
{
    take_place(w, other, node);
    w.put32(node as usize + ZERO, 0);
}

/// Rotates the node at a pointer word with its child on the other side: the child moves up, the node moves down to
/// `side`, and the subtree between them stays between them. Returns the child.
pub(crate) fn rotate<A: Allocator>(
    w: &mut Window<A>,
    word: usize,
    node: NodeAt,
    side: Side,
) -> Option<NodeAt>
    ensures up { result ≡ target w.old.bytes (side_word node (opposite side)) }
    ensures rotated { w.new ≡ with_bytes w.old (rotated w.old.bytes word node side) }
{
    let up = child(w, node, side.other())?;
    let between = child(w, up, side);
    set_child(w, node, side.other(), between);
    set_child(w, up, side, Some(node));
    w.point(word, Some(up));
    Some(up)
}
