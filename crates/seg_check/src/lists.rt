ghost use Rattle.std.specs.Prelude.{◌≡◌, ℕ, ◌+◌, ◌^◌, ◌<◌, ◌↔◌, ◌∷◌, [], IsTrue, Some};
ghost use Rattle.seg_spec.specs.Pointer.{target};
ghost use Rattle.seg_spec.specs.Types.{Form};
ghost use Rattle.seg_cells.specs.Places.{object_at};
ghost use Rattle.seg_check.specs.Turns.{LiesAt};
ghost use Rattle.seg_check.specs.Resolving.{IsReady, Steps};
ghost use Rattle.seg_check.specs.Cells.{CellsPointTo};

use crate::claims::Claims;
use crate::fault::ContentFault;
use crate::image::TypedImage;
use seg_cells::{CellAt, Content, PREVIOUS};
use seg_ptr::View;
use seg_rbtree::NodeAt;
use std::alloc::Allocator;

impl TypedImage<'_> {
    /// Checks a list: claims its nodes along the pointers to the next, and then checks that they are a ring, in which
    /// each node points to the previous one.
    pub(crate) fn check_list<A: Allocator>(
        &self,
        claims: &mut Claims<A>,
        content: &Content,
        cell: CellAt,
    ) -> Result<(), ContentFault>
        ensures taken { claims.new.taken ≡ claims.old.taken }
        ensures steps { (T U : ℕ) → CellsPointTo self.now.types.now T (Form.list U) content.now →
            IsReady self.now.bytes.bytes.now self.now.types.now claims.old →
            LiesAt self.now.bytes.bytes.now self.now.types.now (object_at cell T) →
            Steps self.now.bytes.bytes.now self.now.types.now claims.old claims.new
            (object_at cell T ∷ []) result }
    {
        let Some(count) = self.counted_blocks(cell)? else {
            return Ok(());
        };
        let (bytes, owner) = (self.bytes, self.owner(content));
        let first = owner.claim(claims, cell, 1)?;
        let mut last = first;
        let mut is_linked = true;
        for _ in 1..count {
            let next = owner.claim(claims, last, 1)?;
            is_linked = is_linked && is_previous(bytes, last, next);
            last = next;
        }
        let is_closed = bytes.target(last as usize) == Some(first)
            && is_previous(bytes, last, first);
        if is_linked && is_closed {
            Ok(())
        } else {
            Err(ContentFault::BadValue(cell))
        }
    }
}

/// Whether `next` points back to `node`.
fn is_previous(bytes: View, node: NodeAt, next: NodeAt) -> bool
    ensures { next + PREVIOUS < 2 ^ 32 →
        IsTrue result ↔ (target bytes.entry.bytes.now (next + PREVIOUS) ≡ Some node) }
{
    bytes.target(next.wrapping_add(PREVIOUS) as usize) == Some(node)
}
