ghost use Rattle.std.specs.Prelude.{◌≡◌, ◌≢◌, ℕ, ◌+◌, ◌<◌, ◌≤◌, List, [], ◌∷◌, length, Some, Err, IsOk, OnOk};
ghost use Rattle.seg_spec.specs.Bytes.{signed_long, ChangesOnly};
ghost use Rattle.seg_spec.specs.Clearing.{BesideShared, ClearsPlace};
ghost use Rattle.seg_spec.specs.Shared.{named_in};
ghost use Rattle.seg_spec.specs.Types.{Form, form_at};
ghost use Rattle.seg_spec.specs.Value.{Value, default_of};
ghost use Rattle.seg_value.specs.CellPlaces.{place_of};
ghost use Rattle.seg_image.specs.Images.{bytes_in, types_of, ChangesBytes};
ghost use Rattle.seg_image.specs.Places.{StandsIn};

use crate::image::{Image, on};
use crate::places::{expect_number, known};
use seg_raw::Code;
use seg_value::Place;
use std::alloc::Allocator;

/// Values of any type. A place must be one that a call on this image returned, and must still be valid: it becomes
/// invalid when its object is destroyed, and when a container around it changes by more than its other values. A call
/// on an invalid place only reads and writes the image's bytes, but may damage other values, so that the saved image
/// may be rejected.
impl<A: Allocator> Image<A> {
    /// Stores a number at a place. `OtherType` if its type isn't `i64`; then nothing changes.
    pub fn store(&mut self, place: Place, number: i64) -> Result<(), Code>
        ensures bytes { ChangesBytes self.old self.new }
        ensures number { form_at (types_of self.old) place.type_id ≡ Some Form.i64 → IsOk result }
        ensures stored { place.at + 8 ≤ length (bytes_in self.old) →
            OnOk result (signed_long (bytes_in self.new) place.at ≡ number) }
        ensures changes { OnOk result
            (ChangesOnly (bytes_in self.old) (bytes_in self.new) place.at 8) }
        ensures other { form_at (types_of self.old) place.type_id ≢ Some Form.i64 →
            (result ≡ Err Code.OtherType) × (self.new ≡ self.old) }
    {
        expect_number(self, place)?;
        on!(self, segment => {
            segment.heap_mut().store(place.at, number);
            Ok(())
        })
    }

    /// Makes a value the default of its type. Frees everything that it owns, and each frozen object that no other cell
    /// points to. `OtherType` if the image doesn't have the type; then nothing changes.
    pub fn clear(&mut self, place: Place) -> Result<(), Code>
        ensures bytes { ChangesBytes self.old self.new }
        ensures known { place.type_id < length (types_of self.old) → IsOk result }
        ensures unknown { length (types_of self.old) ≤ place.type_id →
            (result ≡ Err Code.OtherType) × (self.new ≡ self.old) }
        ensures cleared { (v : Value) (blocks : List ℕ) → (s : StandsIn self.old place v blocks) →
            BesideShared (bytes_in self.old) (types_of self.old) (s.home ∷ blocks) (named_in v)
            (ClearsPlace (bytes_in self.old) (bytes_in self.new) (types_of self.old)
            (place_of place) (default_of (types_of self.old) place.type_id) blocks []) }
    {
        known(self, place.type_id)?;
        on!(self, segment => {
            segment.heap_mut().clear(place);
            Ok(())
        })
    }
}
