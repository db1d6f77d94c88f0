//! Searches in a tree.

ghost use Rattle.std.specs.Prelude.{◌≡◌, ◌+◌, ◌^◌, ◌≤◌, [], length, Some, IfSome};
ghost use Rattle.std.specs.Ordering.{is_eq, is_lt, ordering_reverse};
ghost use Rattle.seg_spec.specs.Shapes.{nodes_of};
ghost use Rattle.seg_spec.specs.Search.{reaches, first_where, looks, IsSearchTree};
ghost use Rattle.seg_rbtree.specs.Nodes.{opposite};
ghost use Rattle.seg_rbtree.specs.Sides.{nodes_from, is_beyond, last_where};
ghost use Rattle.seg_rbtree.specs.Ways.{LeadsTo};
ghost use Rattle.seg_rbtree.specs.Paths.{WhereOrdered, FindsEqual, IsAmong, node_at, sought_by};
ghost use Rattle.seg_rbtree.specs.Roots.{root_word, path_root};
ghost use Rattle.seg_rbtree.specs.declared.path.TheConstants.{DEPTH};

use crate::node::{Side, child_in, child_word};
use crate::order::{NodeOrder, Sought, UniqueKeys};
use crate::path::{DEPTH, Path};
use crate::tree::Tree;
use seg_ptr::{NodeAt, View, Window};
use std::alloc::Allocator;
use std::cmp::Ordering;

const MOST_LOOKS: u32 = DEPTH as u32;

/// The result of a search, and how many nodes it looked at.
#[derive(Debug, Clone, Copy, PartialEq, Eq)]
pub struct Looked {
    pub node: Option<NodeAt>,
    pub looks: u32,
}

/// Whether a node that compares like this with a key is at the key or above it.
fn is_at_least(found: Ordering) -> bool
    ensures { result ≡ reaches Ordering.Equal found }
{
    found != Ordering::Less
}

/// Whether a node that compares like this with a key is on this side of the key.
fn is_beyond(side: Side, found: Ordering) -> bool
    ensures { result ≡ is_beyond side found }
{
    match side {
        Side::Left => found == Ordering::Less,
        Side::Right => found == Ordering::Greater,
    }
}

impl Tree {
    /// The first node that equals a key.
    pub fn find<K: Copy, O: UniqueKeys<K>>(self, view: View, order: &O, key: K) -> Option<NodeAt>
        ensures { O.exact → WhereOrdered (O.compare order.now) view.entry.bytes.now (root_word self)
            (λ shape. result ≡ first_where
            (λ node. is_eq (O.compare_key order.now view.entry.bytes.now node key))
            (nodes_of shape)) }
    {
        let mut place = view.target(self.root);
        for _ in 0..DEPTH {
            let node = place?;
            let side = match order.key(view, node, key) {
                Ordering::Less => Side::Right,
                Ordering::Equal => return Some(node),
                Ordering::Greater => Side::Left,
            };
            place = child_in(view, node, side);
        }
        None
    }

    /// The first node that is at or above a key.
    pub fn first_at_least<K: Copy, O: NodeOrder<K>>(self, view: View, order: &O, key: K) -> Looked
        ensures node { O.exact
            → WhereOrdered (O.compare order.now) view.entry.bytes.now (root_word self)
            (λ shape. result.node ≡ first_where
            (λ node. reaches Ordering.Equal (O.compare_key order.now view.entry.bytes.now node key))
            (nodes_of shape)) }
        ensures looks { O.exact
            → WhereOrdered (O.compare order.now) view.entry.bytes.now (root_word self)
            (λ shape. result.looks ≡ looks
            (λ node. reaches Ordering.Equal (O.compare_key order.now view.entry.bytes.now node key))
            shape) }
        ensures at_most { result.looks ≤ DEPTH }
        ensures bound { O.exact
            → WhereOrdered (O.compare order.now) view.entry.bytes.now (root_word self)
            (λ shape. 2 ^ result.looks ≤ (length (nodes_of shape) + 1) ^ 2) }
    {
        let mut place = view.target(self.root);
        let mut found = Looked {
            node: None,
            looks: 0,
        };
        while found.looks < MOST_LOOKS {
            let Some(node) = place else {
                break;
            };
            found.looks += 1;
            if is_at_least(order.key(view, node, key)) {
                found.node = Some(node);
                place = child_in(view, node, Side::Left);
            } else {
                place = child_in(view, node, Side::Right);
            }
        }
        found
    }

    /// The first node that is above a key.
    pub fn next_after<K: Copy, O: NodeOrder<K>>(
        self,
        view: View,
        order: &O,
        key: K,
    ) -> Option<NodeAt>
        ensures { O.exact → WhereOrdered (O.compare order.now) view.entry.bytes.now (root_word self)
            (λ shape. result ≡ first_where
            (λ node. reaches Ordering.Greater
            (O.compare_key order.now view.entry.bytes.now node key))
            (nodes_of shape)) }
    {
        self.nearest(view, order, key, Side::Right)
    }

    /// The last node that is below a key.
    pub fn last_below<K: Copy, O: NodeOrder<K>>(
        self,
        view: View,
        order: &O,
        key: K,
    ) -> Option<NodeAt>
        ensures { O.exact → WhereOrdered (O.compare order.now) view.entry.bytes.now (root_word self)
            (λ shape. result ≡ last_where
            (λ node. is_lt (O.compare_key order.now view.entry.bytes.now node key))
            (nodes_of shape)) }
    {
        self.nearest(view, order, key, Side::Left)
    }

    /// The node on one side of a key that is nearest to it: the first node above the key, or the last node below it.
    // Inlined, so that each caller's search is compiled for its side.
    #[inline(always)]
    fn nearest<K: Copy, O: NodeOrder<K>>(
        self,
        view: View,
        order: &O,
        key: K,
        side: Side,
    ) -> Option<NodeAt>
        ensures { O.exact → WhereOrdered (O.compare order.now) view.entry.bytes.now (root_word self)
            (λ shape. result ≡ first_where
            (λ node. is_beyond side (O.compare_key order.now view.entry.bytes.now node key))
            (nodes_from (opposite side) shape)) }
    {
        let mut place = view.target(self.root);
        let mut nearest = None;
        for _ in 0..DEPTH {
            let Some(node) = place else {
                break;
            };
            if is_beyond(side, order.key(view, node, key)) {
                nearest = Some(node);
                place = child_in(view, node, side.other());
            } else {
                place = child_in(view, node, side);
            }
        }
        nearest
    }

    /// The path to the node that equals a key, or to the empty place to insert one at.
    #[inline]
    pub fn path_to_key<K: Copy, O: NodeOrder<K>, A: Allocator>(
        self,
        w: &Window<A>,
        order: &O,
        key: K,
    ) -> Path
        ensures root { path_root result ≡ root_word self }
        ensures leads { O.exact → (shape : _) → IsSearchTree w.now.bytes (root_word self) shape
            → LeadsTo (λ x. ordering_reverse (O.compare_key order.now w.now.bytes x key))
            shape result }
        ensures found { O.exact → WhereOrdered (O.compare order.now) w.now.bytes (root_word self)
            (λ shape. FindsEqual (λ x. O.compare_key order.now w.now.bytes x key) (nodes_of shape)
            (node_at w.now.bytes result)) }
    {
        let mut path = Path::new(self.root);
        path.descend(w.view(), order, Sought::Key(key));
        path
    }
}

impl Path {
    /// Goes from a tree's root to one of its nodes. For a node that isn't in the tree the path ends anywhere.
    #[inline(always)]
    pub fn lead_to_node<K: Copy, O: NodeOrder<K>, A: Allocator>(
        &mut self,
        w: &Window<A>,
        tree: Tree,
        order: &O,
        node: NodeAt,
    )
        ensures root { path_root self.new ≡ root_word tree }
        ensures leads { O.exact → (shape : _) → IsSearchTree w.now.bytes (root_word tree) shape
            → LeadsTo (O.compare order.now w.now.bytes node) shape self.new }
        ensures found { O.exact → WhereOrdered (O.compare order.now) w.now.bytes (root_word tree)
            (λ shape. IsAmong node (nodes_of shape) → node_at w.now.bytes self.new ≡ Some node) }
    {
        self.begin(tree);
        self.descend(w.view(), order, Sought::Node(node));
    }

    /// Goes to the first node of a tree that is at or above a key, and returns it. `None` if there is no such node.
    #[inline(always)]
    pub fn lead_to_first<K: Copy, O: NodeOrder<K>, A: Allocator>(
        &mut self,
        w: &Window<A>,
        tree: Tree,
        order: &O,
        key: K,
    ) -> Option<NodeAt>
        ensures root { path_root self.new ≡ root_word tree }
        ensures node { O.exact → WhereOrdered (O.compare order.now) w.now.bytes (root_word tree)
            (λ shape. result ≡ first_where
            (λ node. reaches Ordering.Equal (O.compare_key order.now w.now.bytes node key))
            (nodes_of shape)) }
        ensures leads { O.exact → WhereOrdered (O.compare order.now) w.now.bytes (root_word tree)
            (λ shape. IfSome result
            (λ node. LeadsTo (O.compare order.now w.now.bytes node) shape self.new
            × (node_at w.now.bytes self.new ≡ Some node))) }
    {
        self.begin(tree);
        self.descend(w.view(), order, Sought::First(key));
        self.climb()
    }

    /// Goes from the root to what is looked for, or to the empty place to insert it at.
    #[inline(always)]
    pub(crate) fn descend<K: Copy, O: NodeOrder<K>>(
        &mut self,
        view: View,
        order: &O,
        sought: Sought<K>,
    )
        ensures root { path_root self.new ≡ path_root self.old }
        ensures leads { O.exact → self.old.steps.items ≡ []
            → (shape : _) → IsSearchTree view.entry.bytes.now (path_root self.old) shape
            → LeadsTo (sought_by (O.compare order.now view.entry.bytes.now)
            (O.compare_key order.now view.entry.bytes.now) sought) shape self.new }
    {
        let mut word = self.word();
        for _ in 0..DEPTH {
            let Some(node) = view.target(word) else {
                break;
            };
            let side = match sought.compare(view, order, node) {
                Ordering::Less => Side::Left,
                Ordering::Equal => break,
                Ordering::Greater => Side::Right,
            };
            if !self.push(node, side) {
                break;
            }
            word = child_word(node, side);
        }
    }
}
