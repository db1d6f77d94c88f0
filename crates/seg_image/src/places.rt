ghost use Rattle.std.specs.Prelude.{◌≡◌, ◌≢◌, ◌<◌, ◌≤◌, length, false, true, None, Some, IfErr, IfOk, OnOk, MatchResult};
ghost use Rattle.seg_spec.specs.Types.{Form, form_at};
ghost use Rattle.seg_layout.specs.Forms.{form_of};
ghost use Rattle.seg_seq.specs.Kinds.{HasNumbers};
ghost use Rattle.seg_seq.specs.Sequences.{item_type};
ghost use Rattle.seg_map.specs.EitherMap.{has_keys, IsMapOf};
ghost use Rattle.seg_image.specs.Places.{found_position, found_entry, is_list, object_type, shared_type, HasPairs, HasNumberValues};

use seg_layout::{MAX_TYPES, Type, TypeId};
use seg_map::KeyValue;
use seg_raw::Code;
use seg_value::{Place, SegmentRead, ValueAt};

/// The place of a value of this type, from the position that a call returned.
pub(crate) fn placed(position: Result<ValueAt, Code>, type_id: TypeId) -> Result<Place, Code>
    ensures position { found_position result ≡ position }
    ensures of_type { IfOk result (λ place. place.type_id ≡ type_id) }
{
    Ok(Place {
        at: position?,
        type_id,
    })
}

/// A key with the place of its value, from the entry that a call returned.
pub(crate) fn placed_entry(
    entry: Result<KeyValue, Code>,
    type_id: TypeId,
) -> Result<(i64, Place), Code>
    ensures entry { found_entry result ≡ entry }
    ensures of_type { IfOk result (λ entry. entry.1.type_id ≡ type_id) }
{
    let entry = entry?;
    let value = Place {
        at: entry.value,
        type_id,
    };
    Ok((entry.key, value))
}

/// `OtherType` if the image doesn't have this type.
pub(crate) fn known<S: SegmentRead>(source: &S, t: TypeId) -> Result<(), Code>
    ensures known { OnOk result (t < length (S.stored source.now).types) }
    ensures few { OnOk result (t < MAX_TYPES) }
    ensures unknown { IfErr result
        (λ code. (code ≡ Code.OtherType) × (length (S.stored source.now).types ≤ t)) }
{
    if (t as usize) < source.types().len() {
        Ok(())
    } else {
        Err(Code::OtherType)
    }
}

/// The type of a place. `OtherType` if the image has no such type.
pub(crate) fn type_at<S: SegmentRead>(source: &S, place: Place) -> Result<Type, Code>
    ensures { MatchResult result
        (λ kind. form_at (S.stored source.now).types place.type_id ≡ Some (form_of kind))
        (λ code. (code ≡ Code.OtherType)
        × (form_at (S.stored source.now).types place.type_id ≡ None)) }
{
    source.types().kind(place.type_id).ok_or(Code::OtherType)
}

/// `OtherType` if the place isn't a number.
pub(crate) fn expect_number<S: SegmentRead>(source: &S, place: Place) -> Result<(), Code>
    ensures { MatchResult result
        (λ _. form_at (S.stored source.now).types place.type_id ≡ Some Form.i64)
        (λ code. (code ≡ Code.OtherType)
        × (form_at (S.stored source.now).types place.type_id ≢ Some Form.i64)) }
{
    let Type::I64 = type_at(source, place)? else {
        return Err(Code::OtherType);
    };
    Ok(())
}

/// `OtherType` if the place isn't a string.
pub(crate) fn expect_string<S: SegmentRead>(source: &S, place: Place) -> Result<(), Code>
    ensures { MatchResult result
        (λ _. form_at (S.stored source.now).types place.type_id ≡ Some Form.str)
        (λ code. (code ≡ Code.OtherType)
        × (form_at (S.stored source.now).types place.type_id ≢ Some Form.str)) }
{
    let Type::Str = type_at(source, place)? else {
        return Err(Code::OtherType);
    };
    Ok(())
}

/// `OtherType` if the place isn't a vector of numbers.
pub(crate) fn expect_numbers<S: SegmentRead>(source: &S, place: Place) -> Result<(), Code>
    ensures { MatchResult result
        (λ _. HasNumbers (S.stored source.now).types place.type_id)
        (λ code. (code ≡ Code.OtherType)
        × ¬ HasNumbers (S.stored source.now).types place.type_id) }
{
    let Type::Vec(item) = type_at(source, place)? else {
        return Err(Code::OtherType);
    };
    let Some(Type::I64) = source.types().kind(item) else {
        return Err(Code::OtherType);
    };
    Ok(())
}

/// The type of the items of a vector or a list.
pub(crate) fn item_type_at<S: SegmentRead>(source: &S, place: Place) -> Result<TypeId, Code>
    ensures { MatchResult result
        (λ item. item_type (form_at (S.stored source.now).types place.type_id) ≡ Some item)
        (λ code. (code ≡ Code.OtherType)
        × (item_type (form_at (S.stored source.now).types place.type_id) ≡ None)) }
{
    let (Type::Vec(item) | Type::List(item)) = type_at(source, place)? else {
        return Err(Code::OtherType);
    };
    Ok(item)
}

/// Whether the place is a list.
pub(crate) fn is_list_at<S: SegmentRead>(source: &S, place: Place) -> bool
    ensures { result ≡ is_list (form_at (S.stored source.now).types place.type_id) }
{
    matches!(source.types().kind(place.type_id), Some(Type::List(_)))
}

/// The type of the values of a map.
pub(crate) fn value_type_at<S: SegmentRead>(source: &S, map: Place) -> Result<TypeId, Code>
    ensures { MatchResult result
        (λ value. IsMapOf (form_at (S.stored source.now).types map.type_id) value
        × (has_keys (form_at (S.stored source.now).types map.type_id) ≡ true))
        (λ code. (code ≡ Code.OtherType)
        × (has_keys (form_at (S.stored source.now).types map.type_id) ≡ false)) }
{
    let (Type::FlatMap(value) | Type::Map(value)) = type_at(source, map)? else {
        return Err(Code::OtherType);
    };
    Ok(value)
}

/// `OtherType` if the place isn't a flat map of numbers.
pub(crate) fn expect_pairs<S: SegmentRead>(source: &S, place: Place) -> Result<(), Code>
    ensures { MatchResult result
        (λ _. HasPairs (S.stored source.now).types place.type_id)
        (λ code. (code ≡ Code.OtherType)
        × ¬ HasPairs (S.stored source.now).types place.type_id) }
{
    let Type::FlatMap(value) = type_at(source, place)? else {
        return Err(Code::OtherType);
    };
    let Some(Type::I64) = source.types().kind(value) else {
        return Err(Code::OtherType);
    };
    Ok(())
}

/// `OtherType` if the place isn't a flat map or a map whose values are numbers.
pub(crate) fn expect_number_values<S: SegmentRead>(source: &S, place: Place) -> Result<(), Code>
    ensures { MatchResult result
        (λ _. HasNumberValues (S.stored source.now).types place.type_id)
        (λ code. (code ≡ Code.OtherType)
        × ¬ HasNumberValues (S.stored source.now).types place.type_id) }
{
    let value = value_type_at(source, place)?;
    let Some(Type::I64) = source.types().kind(value) else {
        return Err(Code::OtherType);
    };
    Ok(())
}

/// The type of the object that an own has.
pub(crate) fn object_type_at<S: SegmentRead>(source: &S, own: Place) -> Result<TypeId, Code>
    ensures { MatchResult result
        (λ object. object_type (form_at (S.stored source.now).types own.type_id) ≡ Some object)
        (λ code. (code ≡ Code.OtherType)
        × (object_type (form_at (S.stored source.now).types own.type_id) ≡ None)) }
{
    let Type::Own(object) = type_at(source, own)? else {
        return Err(Code::OtherType);
    };
    Ok(object)
}

/// The type of the object to which a shared cell points.
pub(crate) fn shared_type_at<S: SegmentRead>(source: &S, shared: Place) -> Result<TypeId, Code>
    ensures { MatchResult result
        (λ object. shared_type (form_at (S.stored source.now).types shared.type_id) ≡ Some object)
        (λ code. (code ≡ Code.OtherType)
        × (shared_type (form_at (S.stored source.now).types shared.type_id) ≡ None)) }
{
    let Type::Shared(object) = type_at(source, shared)? else {
        return Err(Code::OtherType);
    };
    Ok(object)
}
