ghost use Rattle.std.specs.Prelude.{◌≡◌, ◌^◌, ◌<◌, ◌≤◌, true, [], None, OnOk};
ghost use Rattle.seg_rbtree.specs.Nodes.{side_word};
ghost use Rattle.seg_check.specs.Colours.{is_red, may_stand, is_height};
ghost use Rattle.seg_check.specs.Walks.{IsColourAt};

use arrayvec::ArrayVec;
use seg_block::UNIT;
use seg_ptr::View;
use seg_rbtree::{Colour, NodeAt, Side, child_word, node_colour};

/// The longest path in a tree, in nodes. An image has fewer than 2^26 nodes, so a red-black tree of them has at most 52
/// on a path. The tree's own paths may be longer, since their bound is for trees of 2^32 nodes. Which path is too long
/// for an image is part of the format.
const DEPTH: usize = 60;

/// A tree, and the number of nodes that it should have.
#[derive(Clone, Copy)]
pub(crate) struct Tree {
    /// The position of the pointer to its root.
    pub(crate) root: u32,
    pub(crate) nodes: usize,
}

impl Tree {
    ghost use Rattle.std.specs.Prelude.{ℕ, ◌/◌, ◌↔◌, List, length};
    ghost use Rattle.seg_check.specs.Walks.{Completes, Hangs, IsSteady};

    /// Walks through the tree. If it isn't a red-black tree with the right number of nodes, the walk ends with `Err`,
    /// which has the position of the pointer to the root: at once before a node that would be too deep, else after the
    /// last node.
    pub(crate) fn walk(self, bytes: View<'_>) -> Walk<'_>
        ensures starts { (height : ℕ) (nodes entering : List ℕ)
            → Completes bytes.entry.bytes.now height result.stage nodes entering
            ↔ Hangs bytes.entry.bytes.now self.root self.nodes height nodes entering }
        ensures turns { result.turns ≡ length bytes.entry.bytes.now / UNIT }
        ensures steady { IsSteady bytes.entry.bytes.now result.stage result.turns }
        ensures bytes { result.bytes.bytes.now ≡ bytes.entry.bytes.now }
        ensures root { result.root ≡ self.root }
        ensures pointer { result.stage.pointer ≡ self.root }
        ensures entered { result.stage.entered.items ≡ [] }
    {
        Walk {
            bytes,
            root: self.root,
            turns: bytes.len() as u32 / UNIT,
            stage: Stage::new(bytes, self),
        }
    }
}

/// A step of a walk. Each node is entered before its left subtree, and passed between its left and its right subtree.
#[derive(Clone, Copy)]
pub(crate) enum Visit {
    /// The position of a pointer to a node.
    Enter(u32),
    /// The next node in order.
    Pass(NodeAt),
}

/// What is above a place in a tree.
#[derive(Clone, Copy, Default)]
struct Above {
    /// How many nodes.
    nodes: u8,
    /// How many of these are black.
    blacks: u8,
    /// Whether the nearest one is red, so that a node at the place has to be black.
    is_red: bool,
    /// The colour of the right child of the nearest one, if it has a right child with a colour. It is read before the
    /// walk goes through the left subtree, so that the child is in the processor's cache when the walk reaches it.
    right: Option<Colour>,
}

/// A node that was entered and not passed, and what is above its children.
#[derive(Clone, Copy, Default)]
struct Entered {
    node: NodeAt,
    above: Above,
}

/// The state of a walk.
#[derive(Drop)]
struct Stage {
    /// How many nodes the tree should have.
    wanted: usize,
    /// The position of the pointer to the current place.
    pointer: u32,
    /// The colour of the node at this place, if there is one and it has a colour.
    colour: Option<Colour>,
    above: Above,
    /// The nodes above the current place that aren't passed yet.
    entered: ArrayVec<Entered, DEPTH>,
    /// How many nodes were entered.
    nodes: usize,
    /// How many black nodes are above the empty places, once one was reached.
    height: Option<u8>,
    /// Whether the tree may be a red-black tree so far.
    is_red_black: bool,
}

impl Stage {
    ghost use Rattle.std.specs.Prelude.{ℕ, ◌+◌, ◌^◌, ◌≤◌, ◌⊎◌, ◌↔◌, false, List, ◌∷◌, ◌++◌, length, Some, IsTrue, IfSome, IfNone};
    ghost use Rattle.seg_spec.specs.Pointer.{target};
    ghost use Rattle.seg_check.specs.Walks.{Completes, IsColourOf, IsAtEnd, IsShallow, AreFewRed};

    fn new(bytes: View, tree: Tree) -> Stage
        ensures wanted { result.wanted ≡ tree.nodes }
        ensures pointer { result.pointer ≡ tree.root }
        ensures entered { result.entered.items ≡ [] }
        ensures nodes { result.nodes ≡ 0 }
        ensures height { result.height ≡ None }
        ensures is_red_black { result.is_red_black ≡ true }
        ensures blacks { result.above.blacks ≡ 0 }
        ensures is_red { result.above.is_red ≡ true }
        ensures shallow { IsShallow result.above }
        ensures few_red { AreFewRed result.above }
        ensures colour { IsColourAt bytes.entry.bytes.now result.pointer result.colour }
    {
        Stage {
            wanted: tree.nodes,
            pointer: tree.root,
            colour: colour_at(bytes, tree.root),
            above: Above {
                nodes: 0,
                blacks: 0,
                // the root must be black, like a node below a red one
                is_red: true,
                right: None,
            },
            entered: ArrayVec::new(),
            nodes: 0,
            height: None,
            is_red_black: true,
        }
    }

    /// Enters the node at the current place, and goes to its left child. False before a node that would be too deep.
    #[inline(always)]
    fn enter(&mut self, view: View, node: NodeAt) -> bool
        ensures goes_on { IsTrue result → (bytes : List ℕ) (height : ℕ) (rest entering : List ℕ)
            → target bytes self.old.pointer ≡ Some node → IsColourOf bytes node self.old.colour
            → self.old.nodes < 2 ^ 32 → self.old.above.blacks < 255
            → Completes bytes height self.old rest (node ∷ entering)
            ↔ Completes bytes height self.new rest entering }
        ensures next { (bytes : List ℕ) (height : ℕ) (rest entering : List ℕ)
            → target bytes self.old.pointer ≡ Some node
            → Completes bytes height self.old rest entering
            → (more : List ℕ) × (entering ≡ node ∷ more) }
        ensures pointer { IsTrue result → self.new.pointer ≡ node }
        ensures entered { IsTrue result → self.new.entered.items
            ≡ self.old.entered.items ++ record { node = node; above = self.new.above } ∷ [] }
        ensures nodes { self.old.nodes < 2 ^ 32 → self.new.nodes ≤ self.old.nodes + 1 }
        ensures above { IsTrue result → IsShallow self.old.above → IsShallow self.new.above }
        ensures deeper { IsTrue result → IsShallow self.old.above
            → self.new.above.nodes ≡ self.old.above.nodes + 1 }
        ensures few_red { IsTrue result → IsShallow self.old.above
            → self.new.is_red_black ≡ true → (self.old.is_red_black ≡ true)
            × (AreFewRed self.old.above → AreFewRed self.new.above) }
        ensures colour { IsTrue result → IsColourAt view.entry.bytes.now node self.new.colour }
        ensures right { IsTrue result → node + 4 < 2 ^ 32
            → IsColourAt view.entry.bytes.now (node + 4) self.new.above.right }
        ensures deep { result ≡ false → (60 ≤ self.old.above.nodes)
            ⊎ (60 ≤ length self.old.entered.items) }
    {
        let colour = self.colour;
        let is_red = is_red(colour);
        let above = Above {
            nodes: self.above.nodes.saturating_add(1),
            blacks: self.above.blacks.saturating_add(u8::from(!is_red)),
            is_red,
            right: colour_at(view, child_pointer(node, Side::Right)),
        };
        let is_deep = usize::from(self.above.nodes) >= DEPTH;
        if is_deep || self.entered.try_push(Entered { node, above }).is_err() {
            return false;
        }
        self.is_red_black = self.is_red_black && may_stand(colour, self.above.is_red);
        self.nodes = self.nodes.saturating_add(1);
        self.pointer = child_pointer(node, Side::Left);
        self.colour = colour_at(view, self.pointer);
        self.above = above;
        true
    }

    /// Goes from an empty place to the right child of the next node in order, and returns this node.
    #[inline(always)]
    fn pass(&mut self) -> Option<NodeAt>
        ensures goes_on { IfSome result (λ node. (bytes : List ℕ) (height : ℕ)
            → (rest entering : List ℕ)
            → target bytes self.old.pointer ≡ None → node + 4 < 2 ^ 32
            → Completes bytes height self.old (node ∷ rest) entering
            ↔ Completes bytes height self.new rest entering) }
        ensures next { IfSome result (λ node. (bytes : List ℕ) (height : ℕ)
            → (rest entering : List ℕ)
            → target bytes self.old.pointer ≡ None → node + 4 < 2 ^ 32
            → Completes bytes height self.old rest entering
            → (more : List ℕ) × (rest ≡ node ∷ more)) }
        ensures end { IfNone result ((bytes : List ℕ) (height : ℕ) (rest entering : List ℕ)
            → target bytes self.old.pointer ≡ None
            → Completes bytes height self.old rest entering
            ↔ IsAtEnd height self.old self.new rest entering) }
        ensures left { IfSome result (λ node. self.old.entered.items
            ≡ self.new.entered.items ++ record { node = node; above = self.new.above } ∷ []) }
        ensures pointer { IfSome result (λ node. node + 4 < 2 ^ 32
            → self.new.pointer ≡ node + 4) }
        ensures colour { IfSome result (λ _. self.new.colour ≡ self.new.above.right) }
        ensures nodes { self.new.nodes ≡ self.old.nodes }
        ensures kept { self.new.is_red_black ≡ true → self.old.is_red_black ≡ true }
    {
        let blacks = self.above.blacks;
        self.is_red_black = self.is_red_black && is_height(self.height, blacks);
        self.height = Some(blacks);
        let Entered { node, above } = self.entered.pop()?;
        self.pointer = child_pointer(node, Side::Right);
        self.colour = above.right;
        self.above = above;
        Some(node)
    }

    /// Whether the tree is right, once all of it was walked.
    fn is_right(&self) -> bool
        ensures { IsTrue result
            ↔ ((self.now.is_red_black ≡ true) × (self.now.nodes ≡ self.now.wanted)) }
    {
        self.is_red_black && self.nodes == self.wanted
    }
}

/// A walk through a tree, from left to right.
#[derive(Drop)]
pub(crate) struct Walk<'a> {
    bytes: View<'a>,
    /// The position of the pointer to the root.
    root: u32,
    /// An upper bound on the steps of a walk through a tree in this segment: two for each node, and one.
    turns: u32,
    stage: Stage,
}

impl Walk<'_> {
    ghost use Rattle.std.specs.Prelude.{ℕ, ◌+◌, List, length, IfErr, IfOk, IfSome};
    ghost use Rattle.seg_check.specs.Walks.{Completes, IsSteady, Proceeds, MovesOn};

    /// The next step of the walk, or `None` at its end.
    // Inlined with the two functions that make a step, since a check of trees consists mostly of steps.
    #[inline(always)]
    pub(crate) fn next(&mut self) -> Result<Option<Visit>, u32>
        ensures fewer { OnOk result (self.new.turns + 1 ≡ self.old.turns) }
        ensures steady { IsSteady self.old.bytes.bytes.now self.old.stage self.old.turns
            → IfOk result (λ visit. IfSome visit (λ _.
            IsSteady self.new.bytes.bytes.now self.new.stage self.new.turns)) }
        ensures goes_on { IsSteady self.old.bytes.bytes.now self.old.stage self.old.turns
            → IfOk result (Proceeds self.old.bytes.bytes.now self.old.stage self.new.stage) }
        ensures refused { IsSteady self.old.bytes.bytes.now self.old.stage self.old.turns
            → IfErr result (λ _. (height : ℕ) (rest entering : List ℕ)
            → Completes self.old.bytes.bytes.now height self.old.stage rest entering → height < 30
            → length rest + length entering < self.old.turns → ⊥) }
        ensures bytes { self.new.bytes.bytes.now ≡ self.old.bytes.bytes.now }
        ensures root { self.new.root ≡ self.old.root }
        ensures moves { IfOk result (λ visit. IfSome visit
            (MovesOn self.old.bytes.bytes.now self.old.stage self.new.stage)) }
        ensures position { IfErr result (λ at. at ≡ self.old.root) }
    {
        if self.turns == 0 {
            return Err(self.root);
        }
        self.turns -= 1;
        let pointer = self.stage.pointer;
        if let Some(node) = self.bytes.target(pointer as usize) {
            if self.stage.enter(self.bytes, node) {
                return Ok(Some(Visit::Enter(pointer)));
            }
            return Err(self.root);
        }
        match self.stage.pass() {
            Some(node) => Ok(Some(Visit::Pass(node))),
            None if self.stage.is_right() => Ok(None),
            None => Err(self.root),
        }
    }
}

/// Whether there are as many black nodes above an empty place as above the earlier ones.
fn is_height(known: Option<u8>, blacks: u8) -> bool
    ensures { result ≡ is_height known blacks }
{
    match known {
        None => true,
        Some(height) => height == blacks,
    }
}

fn is_red(colour: Option<Colour>) -> bool
    ensures { result ≡ is_red colour }
{
    matches!(colour, Some(Colour::Red))
}

/// Whether a node of this colour may be the child of a red one, or of another.
fn may_stand(colour: Option<Colour>, below_red: bool) -> bool
    ensures { result ≡ may_stand colour below_red }
{
    match colour {
        None => false,
        Some(Colour::Black) => true,
        Some(Colour::Red) => !below_red,
    }
}

/// The colour of the node that a pointer points to, if there is one and it has a colour.
fn colour_at(bytes: View, pointer: u32) -> Option<Colour>
    ensures { IsColourAt bytes.entry.bytes.now pointer result }
{
    match bytes.target(pointer as usize) {
        Some(node) => node_colour(bytes, node),
        None => None,
    }
}

/// The position of the pointer to a child of a node that lies in the segment.
fn child_pointer(node: NodeAt, side: Side) -> u32
    ensures { side_word node side < 2 ^ 32 → result ≡ side_word node side }
{
    u32::try_from(child_word(node, side)).unwrap_or(u32::MAX)
}
