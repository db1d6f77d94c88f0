ghost use Rattle.std.specs.Prelude.{slice_set, slice_index_or, ◌≡◌, ◌^◌, ◌<◌, ◌≤◌, ◌↔◌, IsTrue, ℕ, List, [], ◌∷◌, ◌++◌, length, Option, Some, MatchOption, IfNone};
ghost use Rattle.std.specs.List.{AllByRecursion};
ghost use Rattle.seg_spec.specs.Pointer.{target, set_pointer};
ghost use Rattle.seg_spec.specs.Window.{with_bytes, KeepsHost};
ghost use Rattle.seg_rbtree.specs.Nodes.{side_word, opposite, rotated};
ghost use Rattle.seg_rbtree.specs.Paths.{end_word, word_after, node_at};
ghost use Rattle.seg_rbtree.specs.Following.{LeadsInside};
ghost use Rattle.seg_rbtree.specs.declared.path.TheConstants.{DEPTH};

use crate::node::{Side, child_word, rotate};
use crate::step::Step;
use crate::tree::Tree;
use arrayvec::ArrayVec;
use seg_ptr::{NodeAt, View, Window};
use std::alloc::Allocator;

/// The longest path in a tree, in nodes. No red-black tree of fewer than 2^32 nodes has a longer one. A segment has
/// room for fewer than 2^26 nodes: at most 52 on a path.
pub const DEPTH: usize = 64;

/// A path from the root of a tree to a place: the nodes above the place. The place has a node or is empty. The path
/// doesn't borrow the window, so other bytes may change before a node is added or removed at its end. Any other change
/// of the tree makes it out of date.
#[derive(Drop)]
pub struct Path {
    pub(crate) root: usize,
    steps: ArrayVec<Step, DEPTH>,
}

impl Path {
    /// The path to the root, which this pointer word points to.
    #[inline(always)]
    pub fn new(root: usize) -> Path
        ensures root { result.root ≡ root }
        ensures steps { result.steps.items ≡ [] }
        ensures inside { (bytes : List ℕ) → LeadsInside bytes result }
    {
        Path {
            root,
            steps: ArrayVec::new(),
        }
    }

    /// Goes back to the root.
    pub fn rewind(&mut self)
        ensures root { self.new.root ≡ self.old.root }
        ensures steps { self.new.steps.items ≡ [] }
        ensures inside { (bytes : List ℕ) → LeadsInside bytes self.new }
    {
        self.steps.clear();
    }

    /// Goes to the root of a tree.
    #[inline]
    pub(crate) fn begin(&mut self, tree: Tree)
        ensures root { self.new.root ≡ tree.root }
        ensures steps { self.new.steps.items ≡ [] }
    {
        self.root = tree.root;
        self.rewind();
    }

    /// Goes one step down. False if the path would be longer than any in a tree.
    pub(crate) fn push(&mut self, node: NodeAt, side: Side) -> bool
        ensures root { self.new.root ≡ self.old.root }
        ensures room { length self.old.steps.items < DEPTH → IsTrue result }
        ensures pushed { IsTrue result → node < 2 ^ 31 → self.new.steps.items
            ≡ self.old.steps.items ++ record { node = node; side = side } ∷ [] }
    {
        self.steps.try_push(Step::new(node, side)).is_ok()
    }

    /// Goes one step up, and returns the step: the node above the place, and the place's side of it.
    pub(crate) fn pop(&mut self) -> Option<Step>
        ensures root { self.new.root ≡ self.old.root }
        ensures popped { MatchOption result (self.old.steps.items ≡ [])
            (λ step. self.old.steps.items ≡ self.new.steps.items ++ step ∷ []) }
        ensures stays { IfNone result (self.new ≡ self.old) }
    {
        self.steps.pop()
    }

    /// How many nodes are above the place.
    pub(crate) fn len(&self) -> usize
        ensures len { result ≡ length self.now.steps.items }
        ensures at_most { result ≤ DEPTH }
    {
        self.steps.len()
    }

    /// Whether every step is to the right.
    pub(crate) fn is_rightmost(&self) -> bool
        ensures { IsTrue result ↔ AllByRecursion (λ step. step.side ≡ Side.Right)
            self.now.steps.items }
    {
        for step in self.steps.as_slice() {
            match step.side() {
                Side::Left => return false,
                Side::Right => {}
            }
        }
        true
    }

    /// Replaces the node at step `i` of the path.
    pub(crate) fn set_step(&mut self, i: usize, node: NodeAt)
        ensures root { self.new.root ≡ self.old.root }
        ensures replaced { (step : _) → i < length self.old.steps.items → node < 2 ^ 31
            → step ≡ slice_index_or self.old.steps.items i step
            → self.new.steps.items
            ≡ slice_set self.old.steps.items i (record { node = node; side = step.side }) }
    {
        if let Some(step) = self.steps.get_mut(i) {
            *step = Step::new(node, step.side());
        }
    }

    /// The position of the pointer word to the place after this many steps.
    fn word_below(&self, steps: usize) -> usize
        ensures { steps ≤ length self.now.steps.items
            → result ≡ word_after steps self.now }
    {
        if steps == 0 {
            return self.root;
        }
        match self.steps.get(steps - 1) {
            Some(step) => child_word(step.node(), step.side()),
            None => self.root,
        }
    }

    /// The position of the pointer word to the place.
    pub(crate) fn word(&self) -> usize
        ensures { result ≡ end_word self.now }
    {
        self.word_below(self.steps.len())
    }

    /// The node at the path's end, if there is one.
    pub fn node<A: Allocator>(&self, w: &Window<A>) -> Option<NodeAt>
        ensures { result ≡ node_at w.now.bytes self.now }
    {
        w.target(self.word())
    }

    /// Like [`node`](Path::node), from the segment's bytes.
    pub(crate) fn node_in(&self, view: View) -> Option<NodeAt>
        ensures { result ≡ node_at view.entry.bytes.now self.now }
    {
        view.target(self.word())
    }

    /// Makes the pointer word to the place point to a node, or makes it null.
    pub(crate) fn set<A: Allocator>(&self, w: &mut Window<A>, node: Option<NodeAt>)
        ensures { w.new ≡ with_bytes w.old (set_pointer w.old.bytes (end_word self.now) node) }
    {
        w.point(self.word(), node);
    }

    /// Makes the pointer word to the place after this many steps point to a node.
    pub(crate) fn set_at<A: Allocator>(&self, w: &mut Window<A>, steps: usize, node: NodeAt)
        ensures host { KeepsHost w.old w.new }
        ensures set { steps ≤ length self.now.steps.items
            → w.new ≡ with_bytes w.old
            (set_pointer w.old.bytes (word_after steps self.now) (Some node)) }
    {
        w.point(self.word_below(steps), Some(node));
    }

    /// Rotates the node at the place with its child on the other side: the child moves up, the node moves down to
    /// `side`, and the subtree between them stays between them. Returns the child.
    pub(crate) fn rotate<A: Allocator>(
        &self,
        w: &mut Window<A>,
        node: NodeAt,
        side: Side,
    ) -> Option<NodeAt>
        ensures up { result ≡ target w.old.bytes (side_word node (opposite side)) }
        ensures rotated { w.new
            ≡ with_bytes w.old (rotated w.old.bytes (end_word self.now) node side) }
    {
        rotate(w, self.word(), node, side)
    }
}
