ghost use Rattle.std.specs.Prelude.{◌≡◌, ℕ, suc, ◌+◌, ◌<◌, ◌≤◌, ◌^◌, List, [], ◌∷◌, ◌++◌, length, None, Some, Err, IsOk, IsOkUnless, MatchResult};
ghost use Rattle.std.specs.List.{AllByRecursion};
ghost use Rattle.seg_spec.specs.Block.{block_of};
ghost use Rattle.seg_spec.specs.Bytes.{word};
ghost use Rattle.seg_spec.specs.Calls.{IsLoose};
ghost use Rattle.seg_spec.specs.Clearing.{ClearsPlace};
ghost use Rattle.seg_spec.specs.Demand.{block_for};
ghost use Rattle.seg_spec.specs.Frozen.{Frozen, frozen_words};
ghost use Rattle.seg_spec.specs.Header.{next_word};
ghost use Rattle.seg_spec.specs.Owning.{Stands};
ghost use Rattle.seg_spec.specs.Pointer.{target};
ghost use Rattle.seg_spec.specs.Reads as reads;
ghost use Rattle.seg_spec.specs.Reads.{Holds};
ghost use Rattle.seg_spec.specs.Shared.{names_in, IsBelow, raised_by, left};
ghost use Rattle.seg_spec.specs.Sharing.{FrozenBeside};
ghost use Rattle.seg_spec.specs.Types.{size};
ghost use Rattle.seg_spec.specs.Value.{Value};
ghost use Rattle.seg_spec.specs.Window.{KeepsHost};
ghost use Rattle.seg_value.specs.CellPlaces.{place_of, object_at};
ghost use Rattle.seg_seq.specs.Sequences.{LacksRoom};
ghost use Rattle.seg_image.specs.Images.{segment_of, allocator_of, bytes_in, types_of, ChangesBytes};
ghost use Rattle.seg_image.specs.Owners.{OwnAndShared, AreShared, FreezesOwn};
ghost use Rattle.seg_image.specs.Places.{StandsIn};

use crate::image::{Image, on};
use crate::places::{object_type_at, shared_type_at};
use seg_manager::Fit;
use seg_raw::Code;
use seg_value::{Heap, PayloadAt, Place, freeze, share};
use std::alloc::Allocator;

/// Shared cells and the frozen objects to which they point.
impl<A: Allocator> Image<A> {
    /// Freezes the object of an own, and makes a shared cell point to it. The own is then empty, and the object to
    /// which the cell pointed is released. The cell must be outside frozen objects and outside the own's object.
    /// `OtherType` if the places aren't an own and a shared cell for the same type of objects, `Null` if the own is
    /// empty, `NumbersUsedUp` if there isn't a number for one more frozen object, `BadAlloc` if there is no room; then
    /// nothing changes.
    pub fn freeze(&mut self, own: Place, shared: Place) -> Result<(), Code>
        ensures bytes { ChangesBytes self.old self.new }
        ensures other { ((U : ℕ) → OwnAndShared (types_of self.old) own shared U → ⊥) →
            (result ≡ Err Code.OtherType) × (self.new ≡ self.old) }
        ensures empty { (U : ℕ) → OwnAndShared (types_of self.old) own shared U →
            target (bytes_in self.old) own.at ≡ None →
            (result ≡ Err Code.Null) × (self.new ≡ self.old) }
        ensures used_up { (U object : ℕ) → OwnAndShared (types_of self.old) own shared U →
            target (bytes_in self.old) own.at ≡ Some object →
            suc (word (bytes_in self.old) next_word) ≡ 2 ^ 32 →
            (result ≡ Err Code.NumbersUsedUp) × (self.new ≡ self.old) }
        ensures code { (U object : ℕ) → OwnAndShared (types_of self.old) own shared U →
            target (bytes_in self.old) own.at ≡ Some object →
            suc (word (bytes_in self.old) next_word) < 2 ^ 32 → IsOkUnless result Code.BadAlloc }
        ensures freezes { (U object : ℕ) (v w : Value) (blocks inside : List ℕ)
            (theirs : ℕ → List ℕ) (kept : List reads.Place) (now : List Frozen) →
            OwnAndShared (types_of self.old) own shared U →
            target (bytes_in self.old) own.at ≡ Some object →
            (s : StandsIn self.old shared v blocks) →
            IsLoose (bytes_in self.old) (types_of self.old) (object_at object U) w inside →
            FrozenBeside (bytes_in self.old) (types_of self.old)
            (s.home ∷ (blocks ++ block_of object ∷ inside)) (names_in w ++ (names_in v ++ kept))
            (word (bytes_in self.old) next_word) theirs now →
            suc (word (bytes_in self.old) next_word) < 2 ^ 32 →
            MatchResult result
            (λ done. FreezesOwn (allocator_of self.old) (bytes_in self.old) (bytes_in self.new)
            (types_of self.old) own.at (place_of shared) U object w inside blocks (names_in v)
            theirs now)
            (LacksRoom (allocator_of self.old) (segment_of self.old) (segment_of self.new)
            (block_for (frozen_words + size (types_of self.old) U) ∷ [])) }
    {
        if object_type_at(self, own)? != shared_type_at(self, shared)? {
            return Err(Code::OtherType);
        }
        let object = self.window().target(own.at as usize).ok_or(Code::Null)?;
        on!(self, segment => freeze_own(segment.heap_mut(), own, shared, object))
    }

    /// Makes a shared cell point to what another one points to, if anything. The object to which it pointed is
    /// released. The cell must be outside frozen objects. `OtherType` if the places aren't shared cells for the same
    /// type of objects; then nothing changes.
    pub fn share(&mut self, to: Place, from: Place) -> Result<(), Code>
        ensures bytes { ChangesBytes self.old self.new }
        ensures other { ((T : ℕ) → AreShared (types_of self.old) to from T → ⊥) →
            (result ≡ Err Code.OtherType) × (self.new ≡ self.old) }
        ensures done { (T : ℕ) → AreShared (types_of self.old) to from T → IsOk result }
        ensures shares { (T next : ℕ) (v w : Value) (blocks others : List ℕ)
            (theirs : ℕ → List ℕ) (kept : List reads.Place) (now : List Frozen) →
            AreShared (types_of self.old) to from T →
            (s : StandsIn self.old to v blocks) →
            Holds (bytes_in self.old) (types_of self.old) (place_of from) w others →
            FrozenBeside (bytes_in self.old) (types_of self.old) (s.home ∷ blocks)
            (names_in v ++ kept) next theirs now →
            AllByRecursion (IsBelow next now) (names_in w) →
            AllByRecursion (λ f. f.count ≤ length (bytes_in self.old)) now →
            ClearsPlace (bytes_in self.old) (bytes_in self.new) (types_of self.old)
            (place_of to) w blocks [] theirs now (left (names_in v) (raised_by (names_in w) now)) }
    {
        if shared_type_at(self, to)? != shared_type_at(self, from)? {
            return Err(Code::OtherType);
        }
        on!(self, segment => share(segment.heap_mut(), to, from));
        Ok(())
    }
}

/// Freezes the object of an own, given by the position of its value, and makes the own empty.
// The own is only emptied if the object was frozen, so that nothing changes if it wasn't.
fn freeze_own<F: Fit, A: Allocator>(
    heap: &mut Heap<F, A>,
    own: Place,
    shared: Place,
    object: PayloadAt,
) -> Result<(), Code>
    ensures window { KeepsHost heap.old.window heap.new.window }
    ensures types { heap.new.types ≡ heap.old.types }
    ensures used_up { suc (word heap.old.window.bytes next_word) ≡ 2 ^ 32 →
        (result ≡ Err Code.NumbersUsedUp) × (heap.new.window ≡ heap.old.window) }
    ensures code { suc (word heap.old.window.bytes next_word) < 2 ^ 32 →
        IsOkUnless result Code.BadAlloc }
    ensures freezes { (U : ℕ) (v w : Value) (blocks inside : List ℕ)
        (theirs : ℕ → List ℕ) (kept : List reads.Place) (now : List Frozen) →
        OwnAndShared heap.old.types own shared U →
        (s : Stands F.allocator heap.old.window.bytes heap.old.types (place_of shared) v blocks) →
        IsLoose heap.old.window.bytes heap.old.types (object_at object U) w inside →
        FrozenBeside heap.old.window.bytes heap.old.types
        (s.home ∷ (blocks ++ block_of object ∷ inside)) (names_in w ++ (names_in v ++ kept))
        (word heap.old.window.bytes next_word) theirs now →
        suc (word heap.old.window.bytes next_word) < 2 ^ 32 →
        MatchResult result
        (λ done. FreezesOwn F.allocator heap.old.window.bytes heap.new.window.bytes
        heap.old.types own.at (place_of shared) U object w inside blocks (names_in v) theirs now)
        (LacksRoom F.allocator heap.old heap.new
        (block_for (frozen_words + size heap.old.types U) ∷ [])) }
{
    freeze(heap, shared, object)?;
    heap.window_mut().point(own.at as usize, None);
    heap.set_count(own.at, 0);
    Ok(())
}
