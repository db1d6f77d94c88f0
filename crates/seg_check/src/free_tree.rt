ghost use Rattle.std.specs.Prelude.{◌≡◌, ◌↔◌, IsOk};
ghost use Rattle.seg_spec.specs.Types.{Table};
ghost use Rattle.seg_spec.specs.Heap.{IsFreeTree, gaps};
ghost use Rattle.seg_spec.specs.Faulty.{HasTiles};
ghost use Rattle.seg_check.specs.Marks.{KnowsTiles};
ghost use Rattle.seg_check.specs.Walks.{is_above};

use crate::claims::Claims;
use crate::image::TypedImage;
use crate::walk::{Tree, Visit};
use seg_block::{BlockAt, block_of, link_in, units_in};
use seg_ptr::{View, header};
use std::alloc::Allocator;

/// The position of the pointer to the root.
const FREE: u32 = header::FREE as u32;

impl TypedImage<'_> {
    /// Checks the tree of best fit: it has all free blocks, ordered by size and then by position, and none of them has
    /// a link. `Err` has the position of the pointer to the root.
    pub(crate) fn check_free_tree<A: Allocator>(&self, claims: &Claims<A>) -> Result<(), u32>
        ensures { (table : Table) → HasTiles self.now.bytes.bytes.now table
            → KnowsTiles self.now.bytes.bytes.now claims.now
            → IsOk result ↔ IsFreeTree self.now.bytes.bytes.now (gaps self.now.bytes.bytes.now) }
    {
        let tree = Tree {
            root: FREE,
            nodes: claims.free_count(),
        };
        let mut walk = tree.walk(self.bytes);
        let mut before = None;
        while let Some(visit) = walk.next()? {
            if let Visit::Pass(node) = visit {
                let block = block_of(node);
                if !claims.is_free(block)
                    || link_in(self.bytes, block).is_some()
                    || !is_above(self.bytes, before, block)
                {
                    return Err(FREE);
                }
                before = Some(block);
            }
        }
        Ok(())
    }
}

/// Whether a free block comes after the one before it in the tree, if there is one.
fn is_above(bytes: View, before: Option<u32>, block: BlockAt) -> bool
    ensures { result ≡ is_above bytes.entry.bytes.now before block }
{
    let Some(before) = before else {
        return true;
    };
    let (smaller, larger) = (units_in(bytes, before), units_in(bytes, block));
    smaller < larger || (smaller == larger && before < block)
}
