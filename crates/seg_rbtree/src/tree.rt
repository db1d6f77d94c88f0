ghost use Rattle.std.specs.Prelude.{◌≡◌, ◌↔◌, IsTrue, true, []};
ghost use Rattle.seg_spec.specs.Shapes.{nodes_of};
ghost use Rattle.seg_spec.specs.Search.{first_where, IsSearchTree};
ghost use Rattle.seg_rbtree.specs.Roots.{root_word};
ghost use Rattle.seg_rbtree.specs.Sides.{nodes_from, last_where};

use crate::node::{Side, child_in};
use crate::path::DEPTH;
use seg_ptr::{NodeAt, View, Window};
use std::alloc::Allocator;

/// The size of a node's tree words in bytes.
pub const TREE_WORDS: u32 = 16;

/// A tree: the position of the pointer word to its root.
#[derive(Debug, Clone, Copy, PartialEq, Eq)]
pub struct Tree {
    pub(crate) root: usize,
}

impl Tree {
    pub fn new(root: usize) -> Tree
        ensures { root_word result ≡ root }
    {
        Tree { root }
    }

    /// Whether the tree has no node.
    pub fn is_empty<A: Allocator>(self, w: &Window<A>) -> bool
        ensures { (shape : _) → IsSearchTree w.now.bytes (root_word self) shape
            → IsTrue result ↔ (nodes_of shape ≡ []) }
    {
        w.target(self.root).is_none()
    }

    /// The first node.
    pub fn first(self, view: View) -> Option<NodeAt>
        ensures { (shape : _) → IsSearchTree view.entry.bytes.now (root_word self) shape
            → result ≡ first_where (λ _. true) (nodes_of shape) }
    {
        self.outermost(view, Side::Left)
    }

    /// The last node.
    pub fn last(self, view: View) -> Option<NodeAt>
        ensures { (shape : _) → IsSearchTree view.entry.bytes.now (root_word self) shape
            → result ≡ last_where (λ _. true) (nodes_of shape) }
    {
        self.outermost(view, Side::Right)
    }

    /// The outermost node on a side: the first node, or the last one.
    #[inline(always)]
    fn outermost(self, view: View, side: Side) -> Option<NodeAt>
        ensures { (shape : _) → IsSearchTree view.entry.bytes.now (root_word self) shape
            → result ≡ first_where (λ _. true) (nodes_from side shape) }
    {
        let mut place = view.target(self.root);
        let mut outermost = None;
        for _ in 0..DEPTH {
            let Some(node) = place else {
                break;
            };
            outermost = Some(node);
            place = child_in(view, node, side);
        }
        outermost
    }
}
