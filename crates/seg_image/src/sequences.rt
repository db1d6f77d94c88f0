ghost use Rattle.std.specs.Prelude.{◌≡◌, ◌≢◌, ℕ, ◌+◌, ◌-◌, ◌≤◌, false, true, List, [], ◌∷◌, ◌++◌, length, take, None, Some, Err, IsOk, IfOk, IfErr, OnOk, IsOkUnless, MatchResult, suc};
ghost use Rattle.seg_spec.specs.Block.{has_buffer};
ghost use Rattle.seg_spec.specs.Calls.{Refuses};
ghost use Rattle.seg_spec.specs.Demand.{block_for};
ghost use Rattle.seg_spec.specs.Items.{without_last};
ghost use Rattle.seg_spec.specs.Reads.{count_at};
ghost use Rattle.seg_spec.specs.Shrinking.{ShrinksPlace};
ghost use Rattle.seg_spec.specs.Types.{Form, form_at, size};
ghost use Rattle.seg_spec.specs.Value.{Value, Values, Text, nil, cons, count, append, default_of};
ghost use Rattle.seg_spec.specs.Window.{KeepsHost};
ghost use Rattle.seg_value.specs.CellPlaces.{place_of};
ghost use Rattle.seg_seq.specs.Kinds.{is_sequence, HasNumbers};
ghost use Rattle.seg_seq.specs.Lists.{HasList, IsNoList, AddsItem, LosesItem};
ghost use Rattle.seg_seq.specs.Sequences.{HasText, HasItems, item_type, Declines, HasNone, ComesToHold, LacksRoom, Rewrites, push_asks, PushesNumber, PushesBack, PopsBack};
ghost use Rattle.seg_image.specs.Images.{segment_of, allocator_of, bytes_in, types_of, ChangesBytes};
ghost use Rattle.seg_image.specs.NumberPushes.{PushesNumbers, StopsPushing};
ghost use Rattle.seg_image.specs.Places.{found_position, StandsIn};

use crate::error::StoppedAt;
use crate::image::{Image, on};
use crate::places::{item_type_at, placed, type_at};
use seg_layout::Type;
use seg_manager::Fit;
use seg_raw::Code;
use seg_seq::{Numbers, append, assign, pop_back, pop_front, push_back, push_front};
use seg_value::{Heap, Place};
use std::alloc::Allocator;

/// Strings.
impl<A: Allocator> Image<A> {
    /// Replaces the bytes of a string. `OtherType` if the place isn't a string, `BadAlloc` if there is no room; then
    /// nothing changes.
    pub fn assign(&mut self, place: Place, bytes: &[u8]) -> Result<(), Code>
        ensures bytes { ChangesBytes self.old self.new }
        ensures text { (xs blocks : List ℕ) →
            HasText (allocator_of self.old) (segment_of self.old) (place_of place) xs blocks →
            Rewrites (allocator_of self.old) (segment_of self.old) (segment_of self.new)
            (place_of place) (length bytes.now) bytes.now blocks result }
        ensures other { form_at (types_of self.old) place.type_id ≢ Some Form.str →
            Declines Code.OtherType (segment_of self.old) (segment_of self.new) result }
    {
        on!(self, segment => assign(segment.heap_mut(), place, bytes))
    }

    /// Appends bytes to a string. Fails as [`assign`](Image::assign) does.
    pub fn append(&mut self, place: Place, bytes: &[u8]) -> Result<(), Code>
        ensures bytes { ChangesBytes self.old self.new }
        ensures text { (xs blocks : List ℕ) →
            HasText (allocator_of self.old) (segment_of self.old) (place_of place) xs blocks →
            Rewrites (allocator_of self.old) (segment_of self.old) (segment_of self.new)
            (place_of place) (length xs + length bytes.now) (xs ++ bytes.now) blocks result }
        ensures other { form_at (types_of self.old) place.type_id ≢ Some Form.str →
            Declines Code.OtherType (segment_of self.old) (segment_of self.new) result }
    {
        on!(self, segment => append(segment.heap_mut(), place, bytes))
    }
}

/// Vectors and lists, and the calls that they have in common with strings and maps.
impl<A: Allocator> Image<A> {
    /// Adds a default item at the end of a vector or a list. `OtherType` if the place is neither, `BadAlloc` if there
    /// is no room; then nothing changes. Items of a vector may move, so earlier places in it become invalid.
    pub fn push_back(&mut self, place: Place) -> Result<Place, Code>
        ensures bytes { ChangesBytes self.old self.new }
        ensures of_type { IfOk result (λ item.
            item_type (form_at (types_of self.old) place.type_id) ≡ Some item.type_id) }
        ensures vector { (U : ℕ) (vs : Values) (blocks : List ℕ) →
            HasItems (allocator_of self.old) (segment_of self.old) (place_of place) U vs blocks →
            MatchResult (found_position result)
            (PushesBack (allocator_of self.old) (segment_of self.old) (segment_of self.new)
            (place_of place) U vs blocks)
            (LacksRoom (allocator_of self.old) (segment_of self.old) (segment_of self.new)
            (push_asks (segment_of self.old) (place_of place) U)) }
        ensures list { (U : ℕ) (vs : Values) (blocks : List ℕ) →
            HasList (allocator_of self.old) (segment_of self.old) (place_of place) U vs blocks →
            MatchResult (found_position result)
            (λ at. AddsItem (allocator_of self.old) (bytes_in self.old) (bytes_in self.new)
            (types_of self.old) (place_of place) U
            (append vs (cons (default_of (types_of self.old) U) nil)) blocks (count vs) at
            (λ i. Some i))
            (LacksRoom (allocator_of self.old) (segment_of self.old) (segment_of self.new)
            (block_for (8 + size (types_of self.old) U) ∷ [])) }
        ensures other { item_type (form_at (types_of self.old) place.type_id) ≡ None →
            (result ≡ Err Code.OtherType) × (self.new ≡ self.old) }
    {
        let item = item_type_at(self, place)?;
        on!(self, segment => placed(push_back(segment.heap_mut(), place), item))
    }

    /// A vector of numbers, whose type is checked once for all pushes. `OtherType` if the place isn't a vector of
    /// numbers.
    pub fn numbers(&self, place: Place) -> Result<Numbers, Code>
        ensures { MatchResult result
            (λ numbers. (numbers.vector ≡ place) × HasNumbers (types_of self.now) place.type_id)
            (λ code. (code ≡ Code.OtherType) × ¬ HasNumbers (types_of self.now) place.type_id) }
    {
        on!(self, segment => Numbers::of(segment.heap(), place))
    }

    /// Adds a number at the end of a vector of numbers, and returns its position. `BadAlloc` if there is no room; then
    /// nothing changes. The numbers may move, so earlier places in the vector become invalid.
    pub fn push_number(&mut self, vector: Numbers, number: i64) -> Result<u32, Code>
        ensures bytes { ChangesBytes self.old self.new }
        ensures vector { PushesNumber (allocator_of self.old) (segment_of self.old)
            (segment_of self.new) (place_of vector.vector) number result }
    {
        on!(self, segment => vector.push(segment.heap_mut(), number))
    }

    /// Adds numbers at the end of a vector of numbers, one after another. If there is no room for one of them, those
    /// before it stay, and [`StoppedAt`] tells how many they are. The numbers of the vector may move, so earlier
    /// places in it become invalid.
    pub fn push_numbers(&mut self, vector: Numbers, numbers: &[i64]) -> Result<(), StoppedAt>
        ensures bytes { ChangesBytes self.old self.new }
        ensures all { OnOk result (PushesNumbers (allocator_of self.old) (segment_of self.old)
            (segment_of self.new) (place_of vector.vector) numbers.now) }
        ensures some { IfErr result (StopsPushing (allocator_of self.old) (segment_of self.old)
            (segment_of self.new) (place_of vector.vector) numbers.now) }
    {
        on!(self, segment => push_each(segment.heap_mut(), vector, numbers))
    }

    /// Adds a default item at the front of a list. `OtherType` if the place isn't a list, `BadAlloc` if there is no
    /// room; then nothing changes.
    pub fn push_front(&mut self, place: Place) -> Result<Place, Code>
        ensures bytes { ChangesBytes self.old self.new }
        ensures of_type { IfOk result (λ item.
            item_type (form_at (types_of self.old) place.type_id) ≡ Some item.type_id) }
        ensures code { (U : ℕ) →
            form_at (types_of self.old) place.type_id ≡ Some (Form.list U) →
            IsOkUnless (found_position result) Code.BadAlloc }
        ensures pushed { (U : ℕ) (vs : Values) (blocks : List ℕ) →
            HasList (allocator_of self.old) (segment_of self.old) (place_of place) U vs blocks →
            MatchResult (found_position result)
            (λ at. AddsItem (allocator_of self.old) (bytes_in self.old) (bytes_in self.new)
            (types_of self.old) (place_of place) U
            (cons (default_of (types_of self.old) U) vs) blocks 0 at (λ i. Some (suc i)))
            (λ code. Refuses (allocator_of self.old) (bytes_in self.old) (bytes_in self.new)
            (block_for (8 + size (types_of self.old) U) ∷ [])) }
        ensures other { IsNoList (types_of self.old) place.type_id →
            (found_position result ≡ Err Code.OtherType)
            × (bytes_in self.new ≡ bytes_in self.old) }
    {
        let item = item_type_at(self, place)?;
        on!(self, segment => placed(push_front(segment.heap_mut(), place), item))
    }

    /// Destroys the last item of a vector or a list, or drops the last byte of a string. `OtherType` for other places,
    /// `Null` if it is empty.
    pub fn pop_back(&mut self, place: Place) -> Result<(), Code>
        ensures bytes { ChangesBytes self.old self.new }
        ensures text { (xs blocks : List ℕ) →
            HasText (allocator_of self.old) (segment_of self.old) (place_of place) xs blocks →
            MatchResult result
            (λ done. ComesToHold (allocator_of self.old) (segment_of self.old)
            (segment_of self.new) (place_of place) (Text (take (length xs - 1) xs)) [] [] blocks)
            (HasNone (segment_of self.old) (segment_of self.new) (length xs)) }
        ensures vector { (U : ℕ) (vs : Values) (blocks : List ℕ) →
            (it : HasItems (allocator_of self.old) (segment_of self.old) (place_of place) U vs
            blocks) → MatchResult result
            (λ done. PopsBack (segment_of self.old) (segment_of self.new) (place_of place) vs
            it.stands.home blocks)
            (HasNone (segment_of self.old) (segment_of self.new) (count vs)) }
        ensures list { (U : ℕ) (vs : Values) (blocks : List ℕ) →
            (it : HasList (allocator_of self.old) (segment_of self.old) (place_of place) U vs
            blocks) → MatchResult result
            (λ done. (1 ≤ count vs) × LosesItem (bytes_in self.old) (bytes_in self.new)
            (types_of self.old) (place_of place) vs (count vs - 1) (without_last vs)
            it.stands.home blocks)
            (HasNone (segment_of self.old) (segment_of self.new) (count vs)) }
        ensures other { is_sequence (form_at (types_of self.old) place.type_id) ≡ false →
            Declines Code.OtherType (segment_of self.old) (segment_of self.new) result }
        ensures counted { is_sequence (form_at (types_of self.old) place.type_id) ≡ true →
            MatchResult result (λ done. 1 ≤ count_at (bytes_in self.old) place.at)
            (HasNone (segment_of self.old) (segment_of self.new)
            (count_at (bytes_in self.old) place.at)) }
    {
        on!(self, segment => pop_back(segment.heap_mut(), place))
    }

    /// Destroys the first item of a list. `OtherType` if the place isn't a list, `Null` if it is empty.
    pub fn pop_front(&mut self, place: Place) -> Result<(), Code>
        ensures bytes { ChangesBytes self.old self.new }
        ensures other { IsNoList (types_of self.old) place.type_id →
            Declines Code.OtherType (segment_of self.old) (segment_of self.new) result }
        ensures empty { (U : ℕ) (blocks : List ℕ) →
            HasList (allocator_of self.old) (segment_of self.old) (place_of place) U nil blocks →
            Declines Code.Null (segment_of self.old) (segment_of self.new) result }
        ensures popped { (U : ℕ) (v : Value) (vs : Values) (blocks : List ℕ) →
            (it : HasList (allocator_of self.old) (segment_of self.old) (place_of place) U
            (cons v vs) blocks) →
            IsOk result × LosesItem (bytes_in self.old) (bytes_in self.new) (types_of self.old)
            (place_of place) (cons v vs) 0 vs it.stands.home blocks }
    {
        on!(self, segment => pop_front(segment.heap_mut(), place))
    }

    /// Cuts the buffer of a string, a vector or a flat map to what it uses. `OtherType` for other places.
    pub fn shrink_to_fit(&mut self, container: Place) -> Result<(), Code>
        ensures bytes { ChangesBytes self.old self.new }
        ensures shrinks { (form : Form) (v : Value) (blocks : List ℕ) →
            form_at (types_of self.old) container.type_id ≡ Some form →
            has_buffer (Some form) ≡ true → StandsIn self.old container v blocks →
            (others : List ℕ) × ShrinksPlace (bytes_in self.old) (bytes_in self.new)
            (types_of self.old) (place_of container) form v blocks others }
        ensures done { has_buffer (form_at (types_of self.old) container.type_id) ≡ true →
            IsOk result }
        ensures other { has_buffer (form_at (types_of self.old) container.type_id) ≡ false →
            (result ≡ Err Code.OtherType) × (self.new ≡ self.old) }
    {
        let (Type::Str | Type::Vec(_) | Type::FlatMap(_)) = type_at(self, container)? else {
            return Err(Code::OtherType);
        };
        on!(self, segment => segment.heap_mut().shrink_to_fit(container));
        Ok(())
    }
}

/// Appends numbers to a vector, one after another, up to the first for which there is no room.
fn push_each<F: Fit, A: Allocator>(
    heap: &mut Heap<F, A>,
    vector: Numbers,
    numbers: &[i64],
) -> Result<(), StoppedAt>
    ensures window { KeepsHost heap.old.window heap.new.window }
    ensures types { heap.new.types ≡ heap.old.types }
    ensures all { OnOk result (PushesNumbers F.allocator heap.old heap.new
        (place_of vector.vector) numbers.now) }
    ensures some { IfErr result (StopsPushing F.allocator heap.old heap.new
        (place_of vector.vector) numbers.now) }
{
    for (pushed, number) in numbers.iter().enumerate() {
        if let Err(code) = vector.push(heap, *number) {
            return Err(StoppedAt { done: pushed, code });
        }
    }
    Ok(())
}
