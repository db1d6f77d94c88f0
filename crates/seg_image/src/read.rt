//! Reading of an image's objects and values.

ghost use Rattle.std.specs.Prelude.{◌≡◌, ◌≢◌, ◌<◌, ◌≤◌, ◌*◌, ℕ, List, length, true, false, None, Some, Ok, Err, IsOk, IfOk, IsOkUnless, IsSomeAnd, MatchOption, MatchResult, slice_get};
ghost use Rattle.std.specs.Result.{result_ok};
ghost use Rattle.seg_spec.specs.Bytes.{signed_long, slice};
ghost use Rattle.seg_spec.specs.Index.{root_named};
ghost use Rattle.seg_spec.specs.Pointer.{target};
ghost use Rattle.seg_spec.specs.Reads.{count_at, start};
ghost use Rattle.seg_spec.specs.Sound.{Picture};
ghost use Rattle.seg_spec.specs.Types.{Form, form_at};
ghost use Rattle.seg_spec.specs.Value.{Values, count};
ghost use Rattle.seg_value.specs.CellPlaces.{place_of};
ghost use Rattle.seg_seq.specs.Kinds.{HasNumbers};
ghost use Rattle.seg_seq.specs.Lists.{HasList};
ghost use Rattle.seg_seq.specs.Sequences.{HasText, HasItems, item_type, IsPast, ShowsItem};
ghost use Rattle.seg_map.specs.EitherMap.{has_keys, IsMapOf};
ghost use Rattle.seg_map.specs.Maps.{FindsValue, FindsEntry, first_of, last_of, keys_above, lower_keys};
ghost use Rattle.seg_index.specs.Lists.{root_after};
ghost use Rattle.seg_manager.specs.Segments.{IsSegment, unique_at};
ghost use Rattle.seg_manager.specs.NamedObjects.{found_as, DescribesRoot};
ghost use Rattle.seg_image.specs.Places.{found_position, found_entry, first_place, item_place, value_count, is_counted, object_type, content_place, shared_type, frozen_place, FieldPlace, HasPairs, WhereMap};
ghost use Rattle.seg_image.specs.Iterators.{HasNamed, HasKeysLeft, HasReturned};

use crate::iterators::{Entries, Items, Keys, Names};
use crate::places::{
    expect_number, expect_numbers, expect_pairs, expect_string, is_list_at, item_type_at, known,
    object_type_at, placed, placed_entry, shared_type_at, type_at, value_type_at,
};
use seg_layout::{Type, TypeId};
use seg_manager::Named;
use seg_map::KeyCursor;
use seg_raw::Code;
use seg_value::{Place, SegmentRead};

/// The size of a number in bytes.
const NUMBER: usize = 8;

/// The size of a key and its number in a flat map.
const PAIR: usize = 16;

/// Reads objects and values of an open [`Image`](crate::Image), of a [`CheckedImage`](crate::CheckedImage), or of any
/// other source of values.
///
/// A place must be one that a call on this image returned, and must still be valid: it becomes invalid when its object
/// is destroyed, and when a container around it changes by more than its other values. A call on an invalid place only
/// reads the image's bytes. A call on a place of a type that it isn't for fails with `OtherType`.
pub trait ImageRead: SegmentRead {
    /// The place of the first value of the object with this name. `Absent` if there is none, `OtherType` if it has
    /// another type.
    final fn find(&self, name: &[u8], t: TypeId) -> Result<Place, Code>
        ensures { (picture : Picture) →
            IsSegment (Self.allocator self.now) (Self.stored self.now) picture →
            result ≡ first_place t (found_as t (root_named picture.names name.now)) }
    {
        let found = seg_manager::find(self, name, t)?;
        Ok(Place {
            at: found.at,
            type_id: t,
        })
    }

    /// The place of the value with this index, counted from 0, in the object with this name. `OutOfRange` if the object
    /// has fewer values; otherwise it fails as [`find`](ImageRead::find) does.
    final fn find_item(&self, name: &[u8], t: TypeId, index: u32) -> Result<Place, Code>
        ensures { (picture : Picture) →
            IsSegment (Self.allocator self.now) (Self.stored self.now) picture →
            result ≡ item_place (Self.stored self.now).types t index
            (found_as t (root_named picture.names name.now)) }
    {
        let found = seg_manager::find(self, name, t)?;
        if index >= u32::from(found.count) {
            return Err(Code::OutOfRange);
        }
        let from = index.saturating_mul(self.types().size(t));
        Ok(Place {
            at: found.at.saturating_add(from),
            type_id: t,
        })
    }

    /// How many values the object with this name has. Fails as [`find`](ImageRead::find) does.
    final fn count(&self, name: &[u8], t: TypeId) -> Result<u16, Code>
        ensures { (picture : Picture) →
            IsSegment (Self.allocator self.now) (Self.stored self.now) picture →
            result ≡ value_count (found_as t (root_named picture.names name.now)) }
    {
        let found = seg_manager::find(self, name, t)?;
        Ok(found.count)
    }

    /// The object with this name, whatever its type is.
    final fn named_object(&self, name: &[u8]) -> Option<Named<'_>>
        ensures { (picture : Picture) →
            IsSegment (Self.allocator self.now) (Self.stored self.now) picture →
            MatchOption result (root_named picture.names name.now ≡ None)
            (λ it. IsSomeAnd (root_named picture.names name.now)
            (DescribesRoot it.name.now it.type_id it.count)) }
    {
        seg_manager::find_named(self, name)
    }

    /// How many named objects there are.
    final fn num_named(&self) -> u32
        ensures { (picture : Picture) →
            IsSegment (Self.allocator self.now) (Self.stored self.now) picture →
            result ≡ length picture.names }
    {
        seg_manager::num_named(self)
    }

    /// The first name in order, with the type of its object and the number of its values.
    final fn first_name(&self) -> Option<Named<'_>>
        ensures { (picture : Picture) →
            IsSegment (Self.allocator self.now) (Self.stored self.now) picture →
            MatchOption result (slice_get picture.names 0 ≡ None)
            (λ it. IsSomeAnd (slice_get picture.names 0)
            (DescribesRoot it.name.now it.type_id it.count)) }
    {
        seg_manager::first_name(self)
    }

    /// The first name after another one, which need not exist.
    final fn next_name(&self, after: &[u8]) -> Option<Named<'_>>
        ensures { (picture : Picture) →
            IsSegment (Self.allocator self.now) (Self.stored self.now) picture →
            MatchOption result (root_after picture.names after.now ≡ None)
            (λ it. IsSomeAnd (root_after picture.names after.now)
            (DescribesRoot it.name.now it.type_id it.count)) }
    {
        seg_manager::next_name(self, after)
    }

    /// The names in order, each with the type of its object and the number of its values.
    final fn names(&self) -> Names<'_, Self>
        ensures image { result.image.now ≡ self.now }
        ensures first { (picture : Picture) →
            IsSegment (Self.allocator self.now) (Self.stored self.now) picture →
            HasNamed picture.names result 0 }
    {
        Names {
            image: self,
            last: None,
            left: seg_manager::num_named(self),
        }
    }

    /// The place of the unique object of a type. `OtherType` if the image has no such type, `Absent` if there is no
    /// such object.
    final fn find_unique(&self, t: TypeId) -> Result<Place, Code>
        ensures of_type { IfOk result (λ place. place.type_id ≡ t) }
        ensures unknown { length (Self.stored self.now).types ≤ t → result ≡ Err Code.OtherType }
        ensures finds { (picture : Picture) →
            IsSegment (Self.allocator self.now) (Self.stored self.now) picture →
            t < length (Self.stored self.now).types → MatchResult (found_position result)
            (λ at. unique_at picture t ≡ Some at)
            (λ code. (code ≡ Code.Absent) × (unique_at picture t ≡ None)) }
    {
        known(self, t)?;
        placed(seg_manager::find_unique(self, t), t)
    }

    /// How many unique objects there are.
    final fn num_unique(&self) -> usize
        ensures { (picture : Picture) →
            IsSegment (Self.allocator self.now) (Self.stored self.now) picture →
            result ≡ length picture.uniques }
    {
        seg_manager::num_unique(self)
    }

    /// The number at a place. `OtherType` if its type isn't `i64`.
    final fn load(&self, place: Place) -> Result<i64, Code>
        ensures number { form_at (Self.stored self.now).types place.type_id ≡ Some Form.i64 →
            result ≡ Ok (signed_long (Self.stored self.now).window.bytes place.at) }
        ensures other { form_at (Self.stored self.now).types place.type_id ≢ Some Form.i64 →
            result ≡ Err Code.OtherType }
    {
        expect_number(self, place)?;
        Ok(SegmentRead::load(self, place.at))
    }

    /// The place of a struct's field, by its index from 0. `OtherType` if the place isn't a struct, `OutOfRange` if it
    /// has fewer fields.
    final fn field(&self, place: Place, index: u32) -> Result<Place, Code>
        ensures { FieldPlace (Self.stored self.now).types place index result }
    {
        let types = self.types();
        match types.field(place.type_id, index) {
            Some(field) => Ok(place.part(field)),
            None if types.field_count(place.type_id) == 0 => Err(Code::OtherType),
            None => Err(Code::OutOfRange),
        }
    }

    /// The value of the object that an own has. `OtherType` if the place isn't an own, `Null` if it is empty.
    final fn content(&self, own: Place) -> Result<Place, Code>
        ensures { result ≡ content_place
            (object_type (form_at (Self.stored self.now).types own.type_id))
            (target (Self.stored self.now).window.bytes own.at) }
    {
        let type_id = object_type_at(self, own)?;
        match self.view().target(own.at as usize) {
            Some(at) => Ok(Place { at, type_id }),
            None => Err(Code::Null),
        }
    }

    /// The value of the frozen object to which a shared cell points. `OtherType` if the place isn't a shared cell,
    /// `Null` if its pointer is null.
    final fn frozen(&self, shared: Place) -> Result<Place, Code>
        ensures { result ≡ frozen_place
            (shared_type (form_at (Self.stored self.now).types shared.type_id))
            (target (Self.stored self.now).window.bytes shared.at) }
    {
        let type_id = shared_type_at(self, shared)?;
        match seg_value::frozen(self, shared) {
            Some(at) => Ok(Place { at, type_id }),
            None => Err(Code::Null),
        }
    }

    /// The number of bytes in a string, of items in a vector or a list, of keys in a map, or of objects in an own.
    /// `OtherType` for other places.
    final fn len(&self, place: Place) -> Result<u32, Code>
        ensures text { (xs blocks : List ℕ) →
            HasText (Self.allocator self.now) (Self.stored self.now) (place_of place) xs blocks →
            result ≡ Ok (length xs) }
        ensures vector { (U : ℕ) (vs : Values) (blocks : List ℕ) →
            HasItems (Self.allocator self.now) (Self.stored self.now) (place_of place) U vs blocks →
            result ≡ Ok (count vs) }
        ensures list { (U : ℕ) (vs : Values) (blocks : List ℕ) →
            HasList (Self.allocator self.now) (Self.stored self.now) (place_of place) U vs blocks →
            result ≡ Ok (count vs) }
        ensures keys { WhereMap (Self.allocator self.now) (Self.stored self.now) place
            (λ U keys vs blocks. result ≡ Ok (length keys)) }
        ensures counted { is_counted (form_at (Self.stored self.now).types place.type_id) ≡ true →
            result ≡ Ok (count_at (Self.stored self.now).window.bytes place.at) }
        ensures other { is_counted (form_at (Self.stored self.now).types place.type_id) ≡ false →
            result ≡ Err Code.OtherType }
    {
        match type_at(self, place)? {
            Type::Str | Type::Vec(_) | Type::List(_) => seg_seq::len(self, place),
            Type::FlatMap(_) | Type::Map(_) => seg_map::len(self, place),
            Type::Own(_) => Ok(SegmentRead::count(self, place.at)),
            Type::I64 | Type::Struct(_) | Type::Shared(_) => Err(Code::OtherType),
        }
    }

    /// The bytes of a string. `OtherType` if the place isn't a string.
    final fn text(&self, place: Place) -> Result<&[u8], Code>
        ensures bytes { MatchResult result
            (λ text. (form_at (Self.stored self.now).types place.type_id ≡ Some Form.str)
            × (text.now ≡ slice (Self.stored self.now).window.bytes
            (start (Self.stored self.now).window.bytes place.at)
            (count_at (Self.stored self.now).window.bytes place.at)))
            (λ code. (code ≡ Code.OtherType)
            × (form_at (Self.stored self.now).types place.type_id ≢ Some Form.str)) }
    {
        expect_string(self, place)?;
        let (from, len) = (self.start(place.at), SegmentRead::count(self, place.at));
        Ok(self.view().slice(from as usize, len as usize))
    }

    /// The bytes of the numbers of a vector, 8 for each, the lowest byte first. `OtherType` if the place isn't a vector
    /// of numbers.
    final fn number_bytes(&self, vector: Place) -> Result<&[u8], Code>
        ensures bytes { MatchResult result
            (λ numbers. HasNumbers (Self.stored self.now).types vector.type_id
            × (numbers.now ≡ slice (Self.stored self.now).window.bytes
            (start (Self.stored self.now).window.bytes vector.at)
            (count_at (Self.stored self.now).window.bytes vector.at * 8)))
            (λ code. (code ≡ Code.OtherType)
            × ¬ HasNumbers (Self.stored self.now).types vector.type_id) }
    {
        expect_numbers(self, vector)?;
        let (from, count) = (self.start(vector.at), SegmentRead::count(self, vector.at));
        Ok(self.view().slice(from as usize, count as usize * NUMBER))
    }

    /// The bytes of the keys of a flat map of numbers, in ascending order, each followed by its number: 8 bytes for a key
    /// and 8 for a number, the lowest byte first. `OtherType` if the place isn't a flat map of numbers.
    final fn pair_bytes(&self, map: Place) -> Result<&[u8], Code>
        ensures bytes { MatchResult result
            (λ pairs. HasPairs (Self.stored self.now).types map.type_id
            × (pairs.now ≡ slice (Self.stored self.now).window.bytes
            (start (Self.stored self.now).window.bytes map.at)
            (count_at (Self.stored self.now).window.bytes map.at * 16)))
            (λ code. (code ≡ Code.OtherType)
            × ¬ HasPairs (Self.stored self.now).types map.type_id) }
    {
        expect_pairs(self, map)?;
        let (from, count) = (self.start(map.at), SegmentRead::count(self, map.at));
        Ok(self.view().slice(from as usize, count as usize * PAIR))
    }

    /// The place of an item of a vector or a list, by its index from 0. `OtherType` if the place is neither,
    /// `OutOfRange` if it has fewer items. In a list it is found step by step from the nearer end.
    final fn item(&self, place: Place, index: u32) -> Result<Place, Code>
        ensures of_type { IfOk result (λ item.
            item_type (form_at (Self.stored self.now).types place.type_id) ≡ Some item.type_id) }
        ensures vector { (U : ℕ) (vs : Values) (blocks : List ℕ) →
            HasItems (Self.allocator self.now) (Self.stored self.now) (place_of place) U vs blocks →
            MatchResult (found_position result)
            (ShowsItem (Self.stored self.now) (place_of place) U index)
            (IsPast index (count vs)) }
        ensures list { (U : ℕ) (vs : Values) (blocks : List ℕ) →
            HasList (Self.allocator self.now) (Self.stored self.now) (place_of place) U vs blocks →
            MatchResult (found_position result)
            (ShowsItem (Self.stored self.now) (place_of place) U index)
            (IsPast index (count vs)) }
        ensures other { item_type (form_at (Self.stored self.now).types place.type_id) ≡ None →
            result ≡ Err Code.OtherType }
    {
        let item = item_type_at(self, place)?;
        placed(seg_seq::at(self, place, index), item)
    }

    /// The places of the items of a vector or a list in order. `OtherType` if the place is neither. In a list each item
    /// is found from the one before it.
    final fn items(&self, place: Place) -> Result<Items<'_, Self>, Code>
        ensures image { IfOk result (λ it. (it.image.now ≡ self.now) × (it.sequence ≡ place)) }
        ensures other { item_type (form_at (Self.stored self.now).types place.type_id) ≡ None →
            result ≡ Err Code.OtherType }
        ensures some { item_type (form_at (Self.stored self.now).types place.type_id) ≢ None →
            IsOk result }
        ensures vector { (U : ℕ) (vs : Values) (blocks : List ℕ) →
            HasItems (Self.allocator self.now) (Self.stored self.now) (place_of place) U vs blocks →
            IfOk result (λ it. HasReturned (Self.stored self.now) U (count vs) it 0) }
        ensures list { (U : ℕ) (vs : Values) (blocks : List ℕ) →
            HasList (Self.allocator self.now) (Self.stored self.now) (place_of place) U vs blocks →
            IfOk result (λ it. HasReturned (Self.stored self.now) U (count vs) it 0) }
    {
        let item_type = item_type_at(self, place)?;
        let len = seg_seq::len(self, place)?;
        Ok(Items {
            image: self,
            sequence: place,
            item_type,
            is_list: is_list_at(self, place),
            last: None,
            len,
            left: len,
        })
    }

    /// The place of a key's value. `OtherType` if the place isn't a map, `Absent` if the map doesn't have the key.
    final fn get(&self, map: Place, key: i64) -> Result<Place, Code>
        ensures of_type { IfOk result
            (λ value. IsMapOf (form_at (Self.stored self.now).types map.type_id) value.type_id) }
        ensures other { has_keys (form_at (Self.stored self.now).types map.type_id) ≡ false →
            result ≡ Err Code.OtherType }
        ensures code { has_keys (form_at (Self.stored self.now).types map.type_id) ≡ true →
            IsOkUnless (found_position result) Code.Absent }
        ensures finds { WhereMap (Self.allocator self.now) (Self.stored self.now) map
            (λ U keys vs blocks. FindsValue (Self.stored self.now).window.bytes
            (Self.stored self.now).types (place_of map) U keys key
            (result_ok (found_position result))) }
    {
        let value = value_type_at(self, map)?;
        placed(seg_map::get(self, map, key), value)
    }

    /// The least key. `OtherType` if the place isn't a map, `Null` if the map is empty.
    final fn first_key(&self, map: Place) -> Result<i64, Code>
        ensures other { has_keys (form_at (Self.stored self.now).types map.type_id) ≡ false →
            result ≡ Err Code.OtherType }
        ensures code { has_keys (form_at (Self.stored self.now).types map.type_id) ≡ true →
            IsOkUnless result Code.Null }
        ensures first { WhereMap (Self.allocator self.now) (Self.stored self.now) map
            (λ U keys vs blocks. result_ok result ≡ first_of keys) }
    {
        seg_map::first_key(self, map)
    }

    /// The least key with the place of its value. Fails as [`first_key`](ImageRead::first_key) does.
    final fn first_entry(&self, map: Place) -> Result<(i64, Place), Code>
        ensures of_type { IfOk result
            (λ entry. IsMapOf (form_at (Self.stored self.now).types map.type_id) entry.1.type_id) }
        ensures other { has_keys (form_at (Self.stored self.now).types map.type_id) ≡ false →
            result ≡ Err Code.OtherType }
        ensures code { has_keys (form_at (Self.stored self.now).types map.type_id) ≡ true →
            IsOkUnless (found_entry result) Code.Null }
        ensures first { WhereMap (Self.allocator self.now) (Self.stored self.now) map
            (λ U keys vs blocks. FindsEntry (Self.stored self.now).window.bytes
            (Self.stored self.now).types (place_of map) U (first_of keys)
            (result_ok (found_entry result))) }
    {
        let value = value_type_at(self, map)?;
        placed_entry(seg_map::first_entry(self, map), value)
    }

    /// The least key above another one, which need not exist. `OtherType` if the place isn't a map, `Null` if there is
    /// no such key.
    final fn next_key(&self, map: Place, after: i64) -> Result<i64, Code>
        ensures other { has_keys (form_at (Self.stored self.now).types map.type_id) ≡ false →
            result ≡ Err Code.OtherType }
        ensures code { has_keys (form_at (Self.stored self.now).types map.type_id) ≡ true →
            IsOkUnless result Code.Null }
        ensures next { WhereMap (Self.allocator self.now) (Self.stored self.now) map
            (λ U keys vs blocks. result_ok result ≡ first_of (keys_above keys after)) }
    {
        seg_map::next_key(self, map, after)
    }

    /// The least key above another one with the place of its value. Fails as [`next_key`](ImageRead::next_key) does.
    final fn next_entry(&self, map: Place, after: i64) -> Result<(i64, Place), Code>
        ensures of_type { IfOk result
            (λ entry. IsMapOf (form_at (Self.stored self.now).types map.type_id) entry.1.type_id) }
        ensures other { has_keys (form_at (Self.stored self.now).types map.type_id) ≡ false →
            result ≡ Err Code.OtherType }
        ensures code { has_keys (form_at (Self.stored self.now).types map.type_id) ≡ true →
            IsOkUnless (found_entry result) Code.Null }
        ensures next { WhereMap (Self.allocator self.now) (Self.stored self.now) map
            (λ U keys vs blocks. FindsEntry (Self.stored self.now).window.bytes
            (Self.stored self.now).types (place_of map) U (first_of (keys_above keys after))
            (result_ok (found_entry result))) }
    {
        let value = value_type_at(self, map)?;
        placed_entry(seg_map::next_entry(self, map, after), value)
    }

    /// The greatest key. `OtherType` if the place isn't a map, `Null` if the map is empty.
    final fn last_key(&self, map: Place) -> Result<i64, Code>
        ensures other { has_keys (form_at (Self.stored self.now).types map.type_id) ≡ false →
            result ≡ Err Code.OtherType }
        ensures code { has_keys (form_at (Self.stored self.now).types map.type_id) ≡ true →
            IsOkUnless result Code.Null }
        ensures last { WhereMap (Self.allocator self.now) (Self.stored self.now) map
            (λ U keys vs blocks. result_ok result ≡ last_of keys) }
    {
        seg_map::last_key(self, map)
    }

    /// The greatest key with the place of its value. Fails as [`last_key`](ImageRead::last_key) does.
    final fn last_entry(&self, map: Place) -> Result<(i64, Place), Code>
        ensures of_type { IfOk result
            (λ entry. IsMapOf (form_at (Self.stored self.now).types map.type_id) entry.1.type_id) }
        ensures other { has_keys (form_at (Self.stored self.now).types map.type_id) ≡ false →
            result ≡ Err Code.OtherType }
        ensures code { has_keys (form_at (Self.stored self.now).types map.type_id) ≡ true →
            IsOkUnless (found_entry result) Code.Null }
        ensures last { WhereMap (Self.allocator self.now) (Self.stored self.now) map
            (λ U keys vs blocks. FindsEntry (Self.stored self.now).window.bytes
            (Self.stored self.now).types (place_of map) U (last_of keys)
            (result_ok (found_entry result))) }
    {
        let value = value_type_at(self, map)?;
        placed_entry(seg_map::last_entry(self, map), value)
    }

    /// The greatest key below another one, which need not exist. `OtherType` if the place isn't a map, `Null` if there
    /// is no such key.
    final fn previous_key(&self, map: Place, before: i64) -> Result<i64, Code>
        ensures other { has_keys (form_at (Self.stored self.now).types map.type_id) ≡ false →
            result ≡ Err Code.OtherType }
        ensures code { has_keys (form_at (Self.stored self.now).types map.type_id) ≡ true →
            IsOkUnless result Code.Null }
        ensures previous { WhereMap (Self.allocator self.now) (Self.stored self.now) map
            (λ U keys vs blocks. result_ok result ≡ last_of (lower_keys keys before)) }
    {
        seg_map::previous_key(self, map, before)
    }

    /// The greatest key below another one with the place of its value. Fails as
    /// [`previous_key`](ImageRead::previous_key) does.
    final fn previous_entry(&self, map: Place, before: i64) -> Result<(i64, Place), Code>
        ensures of_type { IfOk result
            (λ entry. IsMapOf (form_at (Self.stored self.now).types map.type_id) entry.1.type_id) }
        ensures other { has_keys (form_at (Self.stored self.now).types map.type_id) ≡ false →
            result ≡ Err Code.OtherType }
        ensures code { has_keys (form_at (Self.stored self.now).types map.type_id) ≡ true →
            IsOkUnless (found_entry result) Code.Null }
        ensures previous { WhereMap (Self.allocator self.now) (Self.stored self.now) map
            (λ U keys vs blocks. FindsEntry (Self.stored self.now).window.bytes
            (Self.stored self.now).types (place_of map) U (last_of (lower_keys keys before))
            (result_ok (found_entry result))) }
    {
        let value = value_type_at(self, map)?;
        placed_entry(seg_map::previous_entry(self, map, before), value)
    }

    /// The keys of a map in order. `OtherType` if the place isn't a map. Each key is found from the one before it.
    final fn keys(&self, map: Place) -> Result<Keys<'_, Self>, Code>
        ensures image { IfOk result (λ it. (it.image.now ≡ self.now) × (it.map ≡ map)) }
        ensures other { has_keys (form_at (Self.stored self.now).types map.type_id) ≡ false →
            result ≡ Err Code.OtherType }
        ensures some { has_keys (form_at (Self.stored self.now).types map.type_id) ≡ true →
            IsOk result }
        ensures first { WhereMap (Self.allocator self.now) (Self.stored self.now) map
            (λ U keys vs blocks. IfOk result
            (λ it. HasKeysLeft (Self.stored self.now) keys it keys)) }
    {
        let left = seg_map::len(self, map)?;
        Ok(Keys {
            image: self,
            map,
            cursor: KeyCursor::new(),
            last: None,
            left,
        })
    }

    /// Like [`keys`](ImageRead::keys), with only the keys above another one, which need not exist.
    final fn keys_above(&self, map: Place, after: i64) -> Result<Keys<'_, Self>, Code>
        ensures image { IfOk result (λ it. (it.image.now ≡ self.now) × (it.map ≡ map)) }
        ensures other { has_keys (form_at (Self.stored self.now).types map.type_id) ≡ false →
            result ≡ Err Code.OtherType }
        ensures some { has_keys (form_at (Self.stored self.now).types map.type_id) ≡ true →
            IsOk result }
        ensures first { WhereMap (Self.allocator self.now) (Self.stored self.now) map
            (λ U keys vs blocks. IfOk result
            (λ it. HasKeysLeft (Self.stored self.now) keys it (keys_above keys after))) }
    {
        let mut keys = self.keys(map)?;
        keys.last = Some(after);
        Ok(keys)
    }

    /// The keys of a map in order, each with the place of its value. `OtherType` if the place isn't a map. Each key is
    /// found from the one before it.
    final fn entries(&self, map: Place) -> Result<Entries<'_, Self>, Code>
        ensures image { IfOk result (λ it. (it.0.image.now ≡ self.now) × (it.0.map ≡ map)) }
        ensures other { has_keys (form_at (Self.stored self.now).types map.type_id) ≡ false →
            result ≡ Err Code.OtherType }
        ensures some { has_keys (form_at (Self.stored self.now).types map.type_id) ≡ true →
            IsOk result }
        ensures first { WhereMap (Self.allocator self.now) (Self.stored self.now) map
            (λ U keys vs blocks. IfOk result
            (λ it. HasKeysLeft (Self.stored self.now) keys it.0 keys)) }
    {
        Ok(Entries(self.keys(map)?))
    }

    /// Like [`entries`](ImageRead::entries), with only the keys above another one, which need not exist.
    final fn entries_above(&self, map: Place, after: i64) -> Result<Entries<'_, Self>, Code>
        ensures image { IfOk result (λ it. (it.0.image.now ≡ self.now) × (it.0.map ≡ map)) }
        ensures other { has_keys (form_at (Self.stored self.now).types map.type_id) ≡ false →
            result ≡ Err Code.OtherType }
        ensures some { has_keys (form_at (Self.stored self.now).types map.type_id) ≡ true →
            IsOk result }
        ensures first { WhereMap (Self.allocator self.now) (Self.stored self.now) map
            (λ U keys vs blocks. IfOk result
            (λ it. HasKeysLeft (Self.stored self.now) keys it.0 (keys_above keys after))) }
    {
        Ok(Entries(self.keys_above(map, after)?))
    }
}

impl<S: SegmentRead> ImageRead for S {}
