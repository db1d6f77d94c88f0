ghost use Rattle.seg_check.specs.Resolving.{IsReady};
ghost use Rattle.seg_check.specs.Roots.{StepsUniques};

use crate::claims::Claims;
use crate::fault::ContentFault;
use crate::image::TypedImage;
use seg_cells::{Content, unique_in, unique_word};
use seg_layout::{MAX_TYPES, TypeId};
use std::alloc::Allocator;

impl TypedImage<'_> {
    /// Checks the pointers to the unique objects, and claims them. No allocated block has an unused type, so the
    /// pointer of an unused type must be null.
    pub(crate) fn check_uniques<A: Allocator>(
        &self,
        claims: &mut Claims<A>,
    ) -> Result<(), ContentFault>
        ensures { IsReady self.now.bytes.bytes.now self.now.types.now claims.old →
            StepsUniques self.now.bytes.bytes.now self.now.types.now claims.old claims.new result }
    {
        for t in 0..MAX_TYPES {
            let t = t as TypeId;
            if unique_in(self.bytes, t).is_some() {
                let content = Content::object(self.types, t);
                self.claim_entries(claims, unique_word(t) as u32, &content, 1)?;
            }
        }
        Ok(())
    }
}
