//! Steps from a place in a tree to the next node in order.

ghost use Rattle.std.specs.Prelude.{◌≡◌, ◌≢◌, ◌∷◌, [], IsTrue, true, Some, None, IfSome, MatchOption};
ghost use Rattle.seg_spec.specs.Pointer.{target};
ghost use Rattle.seg_spec.specs.Shapes.{fork, nodes_of};
ghost use Rattle.seg_spec.specs.Search.{reaches, first_where, IsSearchTree};
ghost use Rattle.seg_rbtree.specs.Nodes.{side_word};
ghost use Rattle.seg_rbtree.specs.Ways.{place, steps_of};
ghost use Rattle.seg_rbtree.specs.Paths.{WhereOrdered, IsLastAt, TellsLast, node_at};
ghost use Rattle.seg_rbtree.specs.Removing.{layer_at, Descends};
ghost use Rattle.seg_rbtree.specs.Following.{IsPartAt, LeadsInside, AlwaysGoesRight, Climbs, GoesToNextNode};
ghost use Rattle.seg_rbtree.specs.Roots.{root_word, path_root};

use crate::node::{Side, child, child_in};
use crate::order::{NodeOrder, Sought, UniqueKeys};
use crate::path::{DEPTH, Path};
use crate::tree::Tree;
use seg_ptr::{NodeAt, View, Window};
use std::alloc::Allocator;
use std::cmp::Ordering;

impl Path {
    /// Goes to the first node of a tree. `None` if the tree is empty.
    pub fn first(&mut self, view: View, tree: Tree) -> Option<NodeAt>
        ensures node { (shape : _) → IsSearchTree view.entry.bytes.now (root_word tree) shape
            → result ≡ first_where (λ _. true) (nodes_of shape) }
        ensures inside { LeadsInside view.entry.bytes.now self.new }
    {
        self.begin(tree);
        descend_to_first(view, self)
    }

    /// Whether the node at the path's end is the last of the tree.
    pub fn is_last<A: Allocator>(&self, w: &Window<A>) -> bool
        ensures only { IsTrue result → IsLastAt w.now.bytes self.now }
        ensures in_order { TellsLast w.now.bytes self.now result }
    {
        match self.node(w) {
            Some(node) => child(w, node, Side::Right).is_none() && self.is_rightmost(),
            None => false,
        }
    }

    /// Goes to the first node of a tree above a key. This is one step if the path ends at the tree's node with that
    /// key, otherwise a search from the root. `None` if no node is above the key.
    #[inline]
    pub fn next_after<K: Copy, O: UniqueKeys<K>>(
        &mut self,
        view: View,
        tree: Tree,
        order: &O,
        key: K,
    ) -> Option<NodeAt>
        ensures node { O.exact → LeadsInside view.entry.bytes.now self.old
            → WhereOrdered (O.compare order.now) view.entry.bytes.now (root_word tree)
            (λ shape. result ≡ first_where (λ node. reaches Ordering.Greater
            (O.compare_key order.now view.entry.bytes.now node key)) (nodes_of shape)) }
        ensures inside { O.exact → LeadsInside view.entry.bytes.now self.old
            → LeadsInside view.entry.bytes.now self.new }
    {
        match self.node_with_key(view, tree, order, key) {
            Some(node) => self.go_on_from(view, node),
            None => self.search_after(view, tree, order, key),
        }
    }

    /// The node at the path's end, if the path belongs to this tree and the node equals the key.
    #[inline]
    fn node_with_key<K: Copy, O: NodeOrder<K>>(
        &self,
        view: View,
        tree: Tree,
        order: &O,
        key: K,
    ) -> Option<NodeAt>
        ensures there { IfSome result (λ node. (path_root self.now ≡ root_word tree)
            × (node_at view.entry.bytes.now self.now ≡ Some node)) }
        ensures equals { O.exact → IfSome result
            (λ node. O.compare_key order.now view.entry.bytes.now node key ≡ Ordering.Equal) }
    {
        if self.root != tree.root {
            return None;
        }
        let node = self.node_in(view)?;
        if order.key(view, node, key) == Ordering::Equal {
            Some(node)
        } else {
            None
        }
    }

    /// Searches from the root for the first node of a tree above a key. `None` if no node is above it.
    // Not inlined, so that `next_after` has few registers to save.
    #[inline(never)]
    fn search_after<K: Copy, O: UniqueKeys<K>>(
        &mut self,
        view: View,
        tree: Tree,
        order: &O,
        key: K,
    ) -> Option<NodeAt>
        ensures node { O.exact
            → WhereOrdered (O.compare order.now) view.entry.bytes.now (root_word tree)
            (λ shape. result ≡ first_where (λ node. reaches Ordering.Greater
            (O.compare_key order.now view.entry.bytes.now node key)) (nodes_of shape)) }
        ensures inside { O.exact → LeadsInside view.entry.bytes.now self.new }
    {
        self.begin(tree);
        self.descend(view, order, Sought::Key(key));
        self.go_on(view)
    }

    /// Goes to the next node: the one after the node at the path's end, or after the empty place there. `None` if there
    /// is no next node; the path is then back at the root.
    fn go_on(&mut self, view: View) -> Option<NodeAt>
        ensures root { path_root self.new ≡ path_root self.old }
        ensures on { (layers : _) (part : _) → IsPartAt view.entry.bytes.now self.old layers part
            → GoesToNextNode view.entry.bytes.now layers part self.new result }
    {
        match self.node_in(view) {
            Some(node) => self.go_on_from(view, node),
            None => self.climb(),
        }
    }

    /// Like `go_on`, from the node at the path's end.
    #[inline]
    fn go_on_from(&mut self, view: View, node: NodeAt) -> Option<NodeAt>
        ensures root { path_root self.new ≡ path_root self.old }
        ensures on { node_at view.entry.bytes.now self.old ≡ Some node
            → (layers : _) (part : _) → IsPartAt view.entry.bytes.now self.old layers part
            → GoesToNextNode view.entry.bytes.now layers part self.new result }
    {
        match child_in(view, node, Side::Right) {
            Some(right) => descend_right(view, self, node, right),
            None => self.climb(),
        }
    }

    /// Goes up to the nearest node from which the path went left. `None` if there is none; the path is then at the
    /// root.
    pub(crate) fn climb(&mut self) -> Option<NodeAt>
        ensures root { path_root self.new ≡ path_root self.old }
        ensures climbs { (layers : _) → self.old.steps.items ≡ steps_of layers
            → MatchOption result (AlwaysGoesRight layers × (self.new.steps.items ≡ []))
            (Climbs layers self.new) }
    {
        while let Some(step) = self.pop() {
            match step.side() {
                Side::Left => return Some(step.node()),
                Side::Right => {}
            }
        }
        None
    }
}

/// Goes from a node with a right child to the next one in order, which has no left child.
pub(crate) fn descend_to_next(view: View, path: &mut Path, node: NodeAt) -> Option<NodeAt>
    ensures root { path.new.root ≡ path.old.root }
    ensures descended { (layers : _) (left right : _) (colour : _)
        → IsPartAt view.entry.bytes.now path.old layers (fork left node colour right)
        → target view.entry.bytes.now (side_word node Side.Right) ≢ None
        → Descends path.new (layer_at Side.Right node colour left ∷ layers) right result }
{
    let right = child_in(view, node, Side::Right)?;
    descend_right(view, path, node, right)
}

/// Like `descend_to_next`, if the node's right child is known.
fn descend_right(view: View, path: &mut Path, node: NodeAt, right: NodeAt) -> Option<NodeAt>
    ensures root { path.new.root ≡ path.old.root }
    ensures descended { (layers : _) (left tree : _) (colour : _)
        → IsPartAt view.entry.bytes.now path.old layers (fork left node colour tree)
        → target view.entry.bytes.now (side_word node Side.Right) ≡ Some right
        → Descends path.new (layer_at Side.Right node colour left ∷ layers) tree result }
{
    if path.push(node, Side::Right) {
        descend_from(view, path, right)
    } else {
        None
    }
}

/// Goes to the first node below a place. `None` if the place is empty.
fn descend_to_first(view: View, path: &mut Path) -> Option<NodeAt>
    ensures root { path.new.root ≡ path.old.root }
    ensures none { node_at view.entry.bytes.now path.old ≡ None
        → (result ≡ None) × (path.new.steps.items ≡ path.old.steps.items) }
    ensures descended { (layers : _) (tree : _)
        → IsPartAt view.entry.bytes.now path.old layers tree
        → target view.entry.bytes.now (place path.old.root layers) ≢ None
        → Descends path.new layers tree result }
{
    let first = path.node_in(view)?;
    descend_from(view, path, first)
}

/// Like `descend_to_first`, if the node at the place is known.
fn descend_from(view: View, path: &mut Path, node: NodeAt) -> Option<NodeAt>
    ensures root { path.new.root ≡ path.old.root }
    ensures descended { (layers : _) (tree : _)
        → IsPartAt view.entry.bytes.now path.old layers tree
        → target view.entry.bytes.now (place path.old.root layers) ≡ Some node
        → Descends path.new layers tree result }
{
    let mut first = node;
    for _ in 0..DEPTH {
        let Some(left) = child_in(view, first, Side::Left) else {
            return Some(first);
        };
        if !path.push(first, Side::Left) {
            return None;
        }
        first = left;
    }
    None
}
