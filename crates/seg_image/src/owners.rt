ghost use Rattle.std.specs.Prelude.{◌≡◌, ℕ, List, ◌∷◌, None, Some, Err, IfOk, MatchResult};
ghost use Rattle.seg_spec.specs.Clearing.{BesideShared};
ghost use Rattle.seg_spec.specs.Owning.{Stands};
ghost use Rattle.seg_spec.specs.Shared.{named_in};
ghost use Rattle.seg_spec.specs.Types.{Form, form_at};
ghost use Rattle.seg_spec.specs.Value.{Value};
ghost use Rattle.seg_spec.specs.Window.{KeepsHost};
ghost use Rattle.seg_value.specs.CellPlaces.{place_of};
ghost use Rattle.seg_manager.specs.Segments.{one_value};
ghost use Rattle.seg_seq.specs.Sequences.{LacksRoom};
ghost use Rattle.seg_image.specs.Images.{segment_of, allocator_of, bytes_in, types_of, ChangesBytes};
ghost use Rattle.seg_image.specs.Owners.{PutsNew};
ghost use Rattle.seg_image.specs.Places.{found_position, object_type, StandsIn};

use crate::image::{Image, on};
use crate::places::{object_type_at, placed};
use seg_layout::TypeId;
use seg_manager::Fit;
use seg_raw::Code;
use seg_value::{Content, Heap, PayloadAt, Place, set_own};
use std::alloc::Allocator;

/// Owns: values that own one object without a name, or none.
impl<A: Allocator> Image<A> {
    /// Makes a new object with a default value for the own. The own's previous object is destroyed. `OtherType` if the
    /// place isn't an own, `BadAlloc` if there is no room; then nothing changes.
    pub fn put_content(&mut self, own: Place) -> Result<Place, Code>
        ensures bytes { ChangesBytes self.old self.new }
        ensures of_type { IfOk result (λ place.
            object_type (form_at (types_of self.old) own.type_id) ≡ Some place.type_id) }
        ensures puts { (U : ℕ) (v : Value) (blocks : List ℕ) →
            form_at (types_of self.old) own.type_id ≡ Some (Form.own U) →
            (s : StandsIn self.old own v blocks) → MatchResult (found_position result)
            (λ at. BesideShared (bytes_in self.old) (types_of self.old) (s.home ∷ blocks)
            (named_in v) (PutsNew (allocator_of self.old) (bytes_in self.old)
            (bytes_in self.new) (types_of self.old) (place_of own) U blocks at))
            (LacksRoom (allocator_of self.old) (segment_of self.old) (segment_of self.new)
            (one_value (types_of self.old) U)) }
        ensures other { object_type (form_at (types_of self.old) own.type_id) ≡ None →
            (result ≡ Err Code.OtherType) × (self.new ≡ self.old) }
    {
        let object = object_type_at(self, own)?;
        on!(self, segment => placed(put_new(segment.heap_mut(), own, object), object))
    }
}

/// Gives an own a new object of type `t`, and returns the position of its value. `BadAlloc` if there is no room; then
/// nothing changes.
fn put_new<F: Fit, A: Allocator>(
    heap: &mut Heap<F, A>,
    own: Place,
    object: TypeId,
) -> Result<PayloadAt, Code>
    ensures window { KeepsHost heap.old.window heap.new.window }
    ensures types { heap.new.types ≡ heap.old.types }
    ensures puts { (v : Value) (blocks : List ℕ) →
        form_at heap.old.types own.type_id ≡ Some (Form.own object) →
        (s : Stands F.allocator heap.old.window.bytes heap.old.types (place_of own) v blocks) →
        MatchResult result
        (λ at. BesideShared heap.old.window.bytes heap.old.types (s.home ∷ blocks) (named_in v)
        (PutsNew F.allocator heap.old.window.bytes heap.new.window.bytes heap.old.types
        (place_of own) object blocks at))
        (LacksRoom F.allocator heap.old heap.new (one_value heap.old.types object)) }
{
    let content = Content::object(heap.types(), object);
    let at = heap.new_block(&content)?;
    set_own(heap, own, at);
    Ok(at)
}
