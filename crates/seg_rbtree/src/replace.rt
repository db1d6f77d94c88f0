//! Replacement of a node by another one.

ghost use Rattle.std.specs.Prelude.{◌≡◌, None, Some};
ghost use Rattle.seg_spec.specs.Pointer.{set_pointer};
ghost use Rattle.seg_spec.specs.Window.{with_bytes, KeepsHost};
ghost use Rattle.seg_rbtree.specs.Removing.{as_another};
ghost use Rattle.seg_rbtree.specs.Paths.{RenamesAt, node_at};

use crate::node::init_as;
use crate::path::Path;
use seg_ptr::{NodeAt, Window};
use std::alloc::Allocator;

impl Path {
    /// Replaces the node at the path's end by another one, which gets its colour and its children. The words of the two
    /// may overlap. Only the new node's tree words and the pointer word to it change. The path then ends at the new
    /// node.
    pub fn replace<A: Allocator>(&self, w: &mut Window<A>, new: NodeAt)
        ensures host { KeepsHost w.old w.new }
        ensures replaced { RenamesAt w.old.bytes w.new.bytes self.now new }
        ensures stays { node_at w.old.bytes self.now ≡ None → w.new ≡ w.old }
    {
        let Some(old) = self.node(w) else {
            return;
        };
        init_as(w, new, old);
        self.set(w, Some(new));
    }
}
