ghost use Rattle.std.specs.Prelude.{◌≡◌, ℕ, ℤ, List, true, false, Err, IfOk, IfErr, OnOk, IsOkUnless, MatchResult};
ghost use Rattle.seg_spec.specs.Items.{key_place};
ghost use Rattle.seg_spec.specs.Types.{form_at};
ghost use Rattle.seg_value.specs.CellPlaces.{place_of};
ghost use Rattle.seg_map.specs.EitherMap.{has_keys, IsMapOf, key_asks, KeepsTreePaths, KeepsKeysBut};
ghost use Rattle.seg_map.specs.Maps.{PutsKey, RemovesKey};
ghost use Rattle.seg_image.specs.Images.{segment_of, allocator_of, bytes_in, types_of, ChangesBytes};
ghost use Rattle.seg_spec.specs.Value.{Values, Map};
ghost use Rattle.seg_image.specs.Places.{found_position, StandsIn, WhereMap, HasNumberValues};
ghost use Rattle.seg_image.specs.NumberPuts.{PutsKeyIn, PutsNumber, PutsNumbers, StopsPutting, none_done};
ghost use Rattle.seg_spec.specs.Window.{KeepsHost};

use crate::error::StoppedAt;
use crate::image::{Image, on};
use crate::places::{expect_number_values, placed, value_type_at};
use seg_manager::Fit;
use seg_map::{put, remove};
use seg_raw::Code;
use seg_value::{Heap, Place};
use std::alloc::Allocator;

/// A key of a map of numbers, with its number.
#[repr(C)]
#[derive(Debug, Clone, Copy, PartialEq, Eq)]
pub struct Pair {
    pub key: i64,
    pub number: i64,
}

/// Flat maps and maps, from numbers to values. Calls on a place of another type fail with `OtherType`.
impl<A: Allocator> Image<A> {
    /// The place of a key's value. A missing key is added with a default value. `BadAlloc` if there is no room for it;
    /// then nothing changes. Values of a flat map may move, so earlier places in it become invalid.
    pub fn put(&mut self, map: Place, key: i64) -> Result<Place, Code>
        ensures bytes { ChangesBytes self.old self.new }
        ensures of_type { IfOk result
            (λ value. IsMapOf (form_at (types_of self.old) map.type_id) value.type_id) }
        ensures other { has_keys (form_at (types_of self.old) map.type_id) ≡ false →
            (result ≡ Err Code.OtherType) × (self.new ≡ self.old) }
        ensures code { has_keys (form_at (types_of self.old) map.type_id) ≡ true →
            IsOkUnless (found_position result) Code.BadAlloc }
        ensures puts { WhereMap (allocator_of self.old) (segment_of self.old) map
            (λ U keys vs blocks. PutsKey (allocator_of self.old) (bytes_in self.old)
            (bytes_in self.new) (types_of self.old) (place_of map) U keys vs key blocks
            (key_asks (bytes_in self.old) (types_of self.old) map.at
            (form_at (types_of self.old) map.type_id)) (key_place keys key)
            (found_position result)) }
        ensures keeps { WhereMap (allocator_of self.old) (segment_of self.old) map
            (λ U keys vs blocks. KeepsTreePaths (form_at (types_of self.old) map.type_id)
            (bytes_in self.old) (bytes_in self.new) (types_of self.old) (place_of map)) }
    {
        let value = value_type_at(self, map)?;
        on!(self, segment => placed(put(segment.heap_mut(), map, key), value))
    }

    /// Puts keys with their numbers into a flat map or a map of numbers, one after another. A missing key is added, and
    /// the number of a key that is there is replaced. If there is no room for one of the keys, those before it stay, and
    /// [`StoppedAt`] tells how many they are. `OtherType` if the place isn't a map of numbers; then nothing changes.
    /// Values of a flat map may move, so earlier places in it become invalid.
    pub fn put_numbers(&mut self, map: Place, entries: &[Pair]) -> Result<(), StoppedAt>
        ensures bytes { ChangesBytes self.old self.new }
        ensures puts { HasNumberValues (types_of self.old) map.type_id →
            MatchResult result
            (λ _. PutsNumbers (allocator_of self.old) (segment_of self.old)
            (segment_of self.new) (place_of map) entries.now)
            (StopsPutting (allocator_of self.old) (segment_of self.old) (segment_of self.new)
            (place_of map) entries.now) }
        ensures other { ¬ HasNumberValues (types_of self.old) map.type_id →
            (result ≡ none_done Code.OtherType) × (self.new ≡ self.old) }
    {
        if let Err(code) = expect_number_values(self, map) {
            return Err(StoppedAt { done: 0, code });
        }
        on!(self, segment => put_each(segment.heap_mut(), map, entries))
    }

    /// Removes a key and destroys its value. False if the map doesn't have the key, or if the place isn't a map.
    pub fn remove(&mut self, map: Place, key: i64) -> bool
        ensures bytes { ChangesBytes self.old self.new }
        ensures other { has_keys (form_at (types_of self.old) map.type_id) ≡ false →
            (result ≡ false) × (bytes_in self.new ≡ bytes_in self.old) }
        ensures removes { (U : ℕ) (keys : List ℤ) (vs : Values) (blocks : List ℕ) →
            IsMapOf (form_at (types_of self.old) map.type_id) U →
            (s : StandsIn self.old map (Map keys vs) blocks) →
            RemovesKey (bytes_in self.old) (bytes_in self.new) (types_of self.old) (place_of map)
            keys vs s.home blocks (KeepsKeysBut (form_at (types_of self.old) map.type_id)
            (bytes_in self.old) (bytes_in self.new) (types_of self.old) (place_of map) key)
            (key_place keys key) result }
    {
        on!(self, segment => remove(segment.heap_mut(), map, key))
    }
}

/// Puts keys with their numbers into a map, one after another, up to the first for which there is no room.
fn put_each<F: Fit, A: Allocator>(
    heap: &mut Heap<F, A>,
    map: Place,
    entries: &[Pair],
) -> Result<(), StoppedAt>
    ensures window { KeepsHost heap.old.window heap.new.window }
    ensures types { heap.new.types ≡ heap.old.types }
    ensures all { OnOk result (PutsNumbers F.allocator heap.old heap.new (place_of map)
        entries.now) }
    ensures some { has_keys (form_at heap.old.types map.type_id) ≡ true → IfErr result
        (StopsPutting F.allocator heap.old heap.new (place_of map) entries.now) }
{
    for (done, entry) in entries.iter().enumerate() {
        if let Err(code) = put_number(heap, map, *entry) {
            return Err(StoppedAt { done, code });
        }
    }
    Ok(())
}

/// Puts a key into a map, and stores its number.
fn put_number<F: Fit, A: Allocator>(
    heap: &mut Heap<F, A>,
    map: Place,
    entry: Pair,
) -> Result<(), Code>
    ensures window { KeepsHost heap.old.window heap.new.window }
    ensures types { heap.new.types ≡ heap.old.types }
    ensures put { OnOk result (PutsNumber F.allocator heap.old heap.new (place_of map) entry) }
    ensures refused { IfErr result (λ code. PutsKeyIn F.allocator heap.old heap.new (place_of map)
        entry.key (Err code)) }
    ensures code { has_keys (form_at heap.old.types map.type_id) ≡ true →
        IsOkUnless result Code.BadAlloc }
{
    let at = put(heap, map, entry.key)?;
    heap.store(at, entry.number);
    Ok(())
}
