ghost use Rattle.std.specs.Prelude.{◌≡◌, ◌<◌, ◌≤◌, false, length, None, Err, IsTrue, IfOk, MatchResult, is_ok};
ghost use Rattle.seg_spec.specs.Index.{root_named};
ghost use Rattle.seg_spec.specs.Sound.{Picture};
ghost use Rattle.seg_spec.specs.Spending.{object_asks};
ghost use Rattle.seg_manager.specs.NamedObjects.{found_as, IsMissing, IsCount, RefusesName, FindsOrMakesNamed, RefusesToFind};
ghost use Rattle.seg_manager.specs.NewNamed.{MakesNamed, FindsNoRoom};
ghost use Rattle.seg_manager.specs.LeavingNamed.{LosesNamed};
ghost use Rattle.seg_image.specs.Images.{segment_of, allocator_of, bytes_in, types_of, IsOpen, ChangesBytes};
ghost use Rattle.seg_image.specs.Places.{found_position};

use crate::image::{Image, on};
use crate::places::{known, placed};
use seg_layout::TypeId;
use seg_raw::Code;
use seg_value::Place;
use std::alloc::Allocator;

/// Named objects. A name has 1 to 63 bytes, each a visible ASCII character. An object has 1 to 65535 values of one
/// type.
impl<A: Allocator> Image<A> {
    /// Makes an object of `count` default values, and returns the place of the first one. `OtherType` if the image has
    /// no such type, `OutOfRange` if the name isn't allowed or the count isn't from 1 to 65535, `AlreadyExists` if an
    /// object has the name, `BadAlloc` if there is no room; then nothing changes.
    pub fn construct(&mut self, name: &[u8], t: TypeId, count: u32) -> Result<Place, Code>
        ensures bytes { ChangesBytes self.old self.new }
        ensures of_type { IfOk result (λ place. place.type_id ≡ t) }
        ensures unknown { length (types_of self.old) ≤ t →
            (result ≡ Err Code.OtherType) × (self.new ≡ self.old) }
        ensures tells { (picture : Picture) → IsOpen self.old picture →
            t < length (types_of self.old) →
            MatchResult (found_position result)
            (λ _. IsMissing picture.names name.now × IsCount count)
            (RefusesName (segment_of self.old) (segment_of self.new) picture.names name.now
            count) }
        ensures makes { (picture : Picture) → (s : IsOpen self.old picture) →
            IfOk (found_position result) (MakesNamed (allocator_of self.old) (segment_of self.old)
            (segment_of self.new) picture s.held.index_blocks name.now t count) }
        ensures no_room { (picture : Picture) → IsOpen self.old picture →
            found_position result ≡ Err Code.BadAlloc →
            FindsNoRoom (allocator_of self.old) (segment_of self.old) (segment_of self.new)
            picture (object_asks (bytes_in self.old) (types_of self.old) t count name.now) }
    {
        known(self, t)?;
        on!(self, segment => placed(segment.construct(name, t, count), t))
    }

    /// The place of the first value of the object with this name. If there is none, it is made with one default value.
    /// `OtherType` if the object has another type or the image has no such type, `OutOfRange` if the name isn't
    /// allowed, `BadAlloc` if there is no room; then nothing changes.
    pub fn find_or_construct(&mut self, name: &[u8], t: TypeId) -> Result<Place, Code>
        ensures bytes { ChangesBytes self.old self.new }
        ensures of_type { IfOk result (λ place. place.type_id ≡ t) }
        ensures unknown { length (types_of self.old) ≤ t →
            (result ≡ Err Code.OtherType) × (self.new ≡ self.old) }
        ensures tells { (picture : Picture) → IsOpen self.old picture →
            t < length (types_of self.old) →
            MatchResult (found_position result)
            (FindsOrMakesNamed (segment_of self.old) (segment_of self.new) picture.names name.now
            t)
            (RefusesToFind (segment_of self.old) (segment_of self.new) picture.names name.now
            t) }
        ensures makes { (picture : Picture) → (s : IsOpen self.old picture) →
            root_named picture.names name.now ≡ None →
            IfOk (found_position result) (MakesNamed (allocator_of self.old) (segment_of self.old)
            (segment_of self.new) picture s.held.index_blocks name.now t 1) }
        ensures no_room { (picture : Picture) → IsOpen self.old picture →
            found_position result ≡ Err Code.BadAlloc →
            FindsNoRoom (allocator_of self.old) (segment_of self.old) (segment_of self.new)
            picture (object_asks (bytes_in self.old) (types_of self.old) t 1 name.now) }
    {
        known(self, t)?;
        on!(self, segment => placed(segment.find_or_construct(name, t), t))
    }

    /// Destroys the object with this name, and everything that its values own. False if there is none of this type.
    pub fn destroy(&mut self, name: &[u8], t: TypeId) -> bool
        ensures bytes { ChangesBytes self.old self.new }
        ensures tells { (picture : Picture) → IsOpen self.old picture →
            result ≡ is_ok (found_as t (root_named picture.names name.now)) }
        ensures loses { (picture : Picture) → (s : IsOpen self.old picture) → IsTrue result →
            LosesNamed (allocator_of self.old) (segment_of self.old) (segment_of self.new)
            picture s.held.index_blocks name.now t }
        ensures unchanged { result ≡ false → self.new ≡ self.old }
    {
        on!(self, segment => segment.destroy(name, t))
    }
}
