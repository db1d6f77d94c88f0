ghost use Rattle.std.specs.Prelude.{◌≡◌, ◌<◌, ◌≤◌, List, ◌∷◌, ◌++◌, length, Err, IfOk, IsOkUnless, MatchResult};
ghost use Rattle.seg_spec.specs.Index.{Root};
ghost use Rattle.seg_spec.specs.Sound.{Picture};
ghost use Rattle.seg_manager.specs.Segments.{one_value, MakesLoose, LosesLoose};
ghost use Rattle.seg_seq.specs.Sequences.{LacksRoom};
ghost use Rattle.seg_image.specs.Images.{segment_of, allocator_of, types_of, IsOpen, ChangesBytes};
ghost use Rattle.seg_image.specs.Places.{found_position};

use crate::image::{Image, on};
use crate::places::{known, placed};
use seg_layout::TypeId;
use seg_raw::Code;
use seg_value::Place;
use std::alloc::Allocator;

/// Objects without a name or an owner. An image that has one isn't sound, so each must be destroyed before the image is
/// saved.
impl<A: Allocator> Image<A> {
    /// Makes an object with the default value of a type, and returns the value's place. `OtherType` if the image has no
    /// such type, `BadAlloc` if there is no room; then nothing changes.
    pub fn construct_anonymous(&mut self, t: TypeId) -> Result<Place, Code>
        ensures bytes { ChangesBytes self.old self.new }
        ensures of_type { IfOk result (λ place. place.type_id ≡ t) }
        ensures unknown { length (types_of self.old) ≤ t →
            (result ≡ Err Code.OtherType) × (self.new ≡ self.old) }
        ensures code { t < length (types_of self.old) →
            IsOkUnless (found_position result) Code.BadAlloc }
        ensures makes { (picture : Picture) → IsOpen self.old picture →
            t < length (types_of self.old) → MatchResult (found_position result)
            (MakesLoose (allocator_of self.old) (segment_of self.old) (segment_of self.new)
            picture t)
            (LacksRoom (allocator_of self.old) (segment_of self.old) (segment_of self.new)
            (one_value (types_of self.old) t)) }
    {
        known(self, t)?;
        on!(self, segment => placed(segment.new_anonymous(t), t))
    }

    /// Destroys an object that no pointer points to, and everything that it owns.
    pub fn destroy_anonymous(&mut self, object: Place)
        ensures bytes { ChangesBytes self.old self.new }
        ensures loses { (picture : Picture) (before : List Root) (root : Root)
            (after : List Root) → IsOpen self.old picture →
            picture.loose ≡ before ++ root ∷ after → root.at ≡ object.at →
            LosesLoose (allocator_of self.old) (segment_of self.old) (segment_of self.new)
            picture before root after }
    {
        on!(self, segment => segment.destroy_anonymous(object.at))
    }
}
