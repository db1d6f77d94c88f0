ghost use Rattle.std.specs.Prelude.{◌≡◌, ◌<◌, ◌≤◌, false, length, None, Err, IsTrue, IfOk, MatchResult};
ghost use Rattle.seg_spec.specs.Sound.{Picture};
ghost use Rattle.seg_manager.specs.Segments.{unique_at, MakesUnique, FindsOrMakes, RefusesUnique, LosesUnique};
ghost use Rattle.seg_image.specs.Images.{segment_of, allocator_of, types_of, IsOpen, ChangesBytes};
ghost use Rattle.seg_image.specs.Places.{found_position};

use crate::image::{Image, on};
use crate::places::{known, placed};
use seg_layout::TypeId;
use seg_raw::Code;
use seg_value::Place;
use std::alloc::Allocator;

/// Unique objects: at most one object, of one value, for each type.
impl<A: Allocator> Image<A> {
    /// Makes the unique object of a type, with its default value. `OtherType` if the image has no such type,
    /// `AlreadyExists` if the object exists, `BadAlloc` if there is no room; then nothing changes.
    pub fn construct_unique(&mut self, t: TypeId) -> Result<Place, Code>
        ensures bytes { ChangesBytes self.old self.new }
        ensures of_type { IfOk result (λ place. place.type_id ≡ t) }
        ensures unknown { length (types_of self.old) ≤ t →
            (result ≡ Err Code.OtherType) × (self.new ≡ self.old) }
        ensures makes { (picture : Picture) → IsOpen self.old picture →
            t < length (types_of self.old) → MatchResult (found_position result)
            (MakesUnique (allocator_of self.old) (segment_of self.old) (segment_of self.new)
            picture t)
            (RefusesUnique (allocator_of self.old) (segment_of self.old) (segment_of self.new)
            picture t) }
    {
        known(self, t)?;
        on!(self, segment => placed(segment.construct_unique(t), t))
    }

    /// The place of the unique object of a type, which is made if it doesn't exist. Fails as
    /// [`construct_unique`](Image::construct_unique) does, but not with `AlreadyExists`.
    pub fn find_or_construct_unique(&mut self, t: TypeId) -> Result<Place, Code>
        ensures bytes { ChangesBytes self.old self.new }
        ensures of_type { IfOk result (λ place. place.type_id ≡ t) }
        ensures unknown { length (types_of self.old) ≤ t →
            (result ≡ Err Code.OtherType) × (self.new ≡ self.old) }
        ensures makes { (picture : Picture) → IsOpen self.old picture →
            t < length (types_of self.old) → MatchResult (found_position result)
            (FindsOrMakes (allocator_of self.old) (segment_of self.old) (segment_of self.new)
            picture t)
            (λ code. (code ≡ Code.BadAlloc) × RefusesUnique (allocator_of self.old)
            (segment_of self.old) (segment_of self.new) picture t code) }
    {
        known(self, t)?;
        on!(self, segment => placed(segment.find_or_construct_unique(t), t))
    }

    /// Destroys the unique object of a type, and everything that it owns. False if there is none.
    pub fn destroy_unique(&mut self, t: TypeId) -> bool
        ensures bytes { ChangesBytes self.old self.new }
        ensures unknown { length (types_of self.old) ≤ t → result ≡ false }
        ensures loses { (picture : Picture) → IsOpen self.old picture → IsTrue result →
            LosesUnique (allocator_of self.old) (segment_of self.old) (segment_of self.new)
            picture t }
        ensures none { (picture : Picture) → IsOpen self.old picture →
            t < length (types_of self.old) → result ≡ false → unique_at picture t ≡ None }
        ensures unchanged { result ≡ false → self.new ≡ self.old }
    {
        if known(self, t).is_err() {
            return false;
        }
        on!(self, segment => segment.destroy_unique(t))
    }
}
