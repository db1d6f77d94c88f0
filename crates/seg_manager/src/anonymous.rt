ghost use Rattle.std.specs.Prelude.{◌≡◌, ◌<◌, List, ◌∷◌, ◌++◌, length, IsOkUnless, MatchResult};
ghost use Rattle.seg_spec.specs.Window.{KeepsHost};
ghost use Rattle.seg_spec.specs.Index.{Root};
ghost use Rattle.seg_spec.specs.Sound.{Picture};
ghost use Rattle.seg_spec.specs.Calls.{Refuses};
ghost use Rattle.seg_manager.specs.Segments.{IsSegment, one_value, MakesLoose, LosesLoose};

use crate::segment::Segment;
use seg_raw::Code;
use seg_value::{Content, Fit, PayloadAt, TypeId};
use std::alloc::Allocator;

/// Objects without a name. The caller must give each an owner or destroy it.
impl<F: Fit, A: Allocator> Segment<F, A> {
    /// Makes an object with the default value of a type, and returns the value's position. `BadAlloc` if there is no
    /// room; then nothing changes.
    // Inlined: a call would return the position through memory.
    #[inline(always)]
    pub fn new_anonymous(&mut self, t: TypeId) -> Result<PayloadAt, Code>
        ensures window { KeepsHost self.old.window self.new.window }
        ensures types { self.new.types ≡ self.old.types }
        ensures code { IsOkUnless result Code.BadAlloc }
        ensures makes { (picture : Picture) → IsSegment F.allocator self.old picture →
            t < length self.old.types → MatchResult result
            (MakesLoose F.allocator self.old self.new picture t)
            (λ code. Refuses F.allocator self.old.window.bytes self.new.window.bytes
            (one_value self.old.types t)) }
    {
        let content = Content::object(self.types(), t);
        self.heap_mut().new_block(&content)
    }

    /// Destroys an object that no pointer points to, given by the position of its value, and everything that it owns.
    pub fn destroy_anonymous(&mut self, object: PayloadAt)
        ensures window { KeepsHost self.old.window self.new.window }
        ensures types { self.new.types ≡ self.old.types }
        ensures loses { (picture : Picture) (before : List Root) (root : Root)
            (after : List Root) → IsSegment F.allocator self.old picture →
            picture.loose ≡ before ++ root ∷ after → root.at ≡ object →
            LosesLoose F.allocator self.old self.new picture before root after }
    {
        self.heap_mut().destroy(object);
    }
}
