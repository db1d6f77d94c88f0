ghost use Rattle.std.specs.Prelude.{◌≡◌, ◌<◌, ℕ, List, None, Some, Err, IfOk, MatchResult};
ghost use Rattle.seg_spec.specs.Types.{form_at};
ghost use Rattle.seg_spec.specs.Value.{Values, count};
ghost use Rattle.lezgauri.specs.CellPlaces.{place_of};
ghost use Rattle.seg_seq.specs.Lists.{HasList, IsNoList};
ghost use Rattle.seg_seq.specs.Sequences.{item_type, IsPast, ShowsItem};
ghost use Rattle.lezgauri.specs.Places.{found_position};
ghost use Rattle.lezgauri_c.specs.Places as places;
ghost use Rattle.lezgauri_c.specs.Places.{type_number};
ghost use Rattle.lezgauri_c.specs.KeptImages.{types_in};
ghost use Rattle.lezgauri_c.specs.Values.{table_in, stored_in, allocator_in, ShowsNext, ShowsPrevious, ReturnsPlace, IsReadStatus, OnSound, WhereVector, WhereList};

use crate::kept_types::KeptTypes;
use crate::place::{Place, give, place_at};
use crate::reader::Reader;
use crate::reading::on_reader;
use lezgauri::{ImageRead, Type};
use seg_raw::Code;
use seg_value::{Place as ValuePlace, ValueAt};
use std::alloc::Global;

/// The place of an item of a vector or a list of an image that an earlier call found sound, or changed, by its index from 0. Fails as
/// `ImageRead::item` does.
#[unsafe(no_mangle)]
pub extern "C" fn lezgauri_raw_item(
    alloc: Global,
    image: &[u8],
    types: &mut KeptTypes,
    at: u32,
    type_id: u32,
    index: u32,
    item: &mut Place,
) -> u32
    ensures vector { OnSound image.now types.old (λ picture.
        WhereVector image.now picture.table (places.place_at at type_id)
        (λ U vs blocks. ReturnsPlace result item.old item.new
        (λ found. MatchResult (found_position found)
        (ShowsItem (stored_in image.now picture.table) (place_of (places.place_at at type_id)) U
        index) (IsPast index (count vs))))) }
    ensures list { OnSound image.now types.old (λ picture.
        WhereList image.now picture.table (places.place_at at type_id)
        (λ U vs blocks. ReturnsPlace result item.old item.new
        (λ found. MatchResult (found_position found)
        (ShowsItem (stored_in image.now picture.table) (place_of (places.place_at at type_id)) U
        index) (IsPast index (count vs))))) }
    ensures of_type { OnSound image.now types.old (λ picture. result ≡ 0 →
        item_type (form_at picture.table (type_number type_id)) ≡ Some item.new.type_id) }
    ensures other { OnSound image.now types.old (λ picture.
        item_type (form_at picture.table (type_number type_id)) ≡ None → result ≡ 114) }
    ensures unwritten { 0 < result → item.new ≡ item.old }
    ensures same { table_in types.new ≡ table_in types.old }
    ensures status { IsReadStatus result }
{
    let sequence = place_at(at, type_id);
    let found = on_reader!(alloc, image, types, reader => reader.item(sequence, index));
    give(found, item)
}

/// The place of the item after an item of a list. Returns the status for `OtherType` if the place isn't a list, for `Null` if the item is
/// the last one.
#[unsafe(no_mangle)]
pub extern "C" fn lezgauri_raw_next_item(
    alloc: Global,
    image: &[u8],
    types: &mut KeptTypes,
    at: u32,
    type_id: u32,
    item: u32,
    next: &mut Place,
) -> u32
    ensures next { OnSound image.now types.old (λ picture.
        WhereList image.now picture.table (places.place_at at type_id) (λ U vs blocks. (i : ℕ) →
        ShowsItem (stored_in image.now picture.table) (place_of (places.place_at at type_id)) U i
        item → ReturnsPlace result next.old next.new (λ found.
        ShowsNext (stored_in image.now picture.table) (place_of (places.place_at at type_id)) U
        (count vs) i (found_position found)))) }
    ensures of_type { OnSound image.now types.old (λ picture. result ≡ 0 →
        item_type (form_at picture.table (type_number type_id)) ≡ Some next.new.type_id) }
    ensures other { OnSound image.now types.old (λ picture.
        IsNoList picture.table (type_number type_id) → result ≡ 114) }
    ensures unwritten { 0 < result → next.new ≡ next.old }
    ensures same { table_in types.new ≡ table_in types.old }
    ensures status { IsReadStatus result }
{
    let list = place_at(at, type_id);
    let found = on_reader!(alloc, image, types, reader => next_item(reader, list, item));
    give(found, next)
}

/// The place of the item before an item of a list. Fails as `lezgauri_raw_next_item` does, with the status for `Null` if the item is the
/// first one.
#[unsafe(no_mangle)]
pub extern "C" fn lezgauri_raw_previous_item(
    alloc: Global,
    image: &[u8],
    types: &mut KeptTypes,
    at: u32,
    type_id: u32,
    item: u32,
    previous: &mut Place,
) -> u32
    ensures previous { OnSound image.now types.old (λ picture.
        WhereList image.now picture.table (places.place_at at type_id) (λ U vs blocks. (i : ℕ) →
        ShowsItem (stored_in image.now picture.table) (place_of (places.place_at at type_id)) U i
        item → ReturnsPlace result previous.old previous.new (λ found.
        ShowsPrevious (stored_in image.now picture.table) (place_of (places.place_at at type_id)) U
        i (found_position found)))) }
    ensures of_type { OnSound image.now types.old (λ picture. result ≡ 0 →
        item_type (form_at picture.table (type_number type_id)) ≡ Some previous.new.type_id) }
    ensures other { OnSound image.now types.old (λ picture.
        IsNoList picture.table (type_number type_id) → result ≡ 114) }
    ensures unwritten { 0 < result → previous.new ≡ previous.old }
    ensures same { table_in types.new ≡ table_in types.old }
    ensures status { IsReadStatus result }
{
    let list = place_at(at, type_id);
    let found = on_reader!(alloc, image, types, reader => previous_item(reader, list, item));
    give(found, previous)
}

/// The item after another one. The first item is after the last one in the ring.
fn next_item(reader: Reader<'_>, list: ValuePlace, item: ValueAt) -> Result<ValuePlace, Code>
    ensures next { (U i : ℕ) (vs : Values) (blocks : List ℕ) →
        HasList (allocator_in reader.entry.view.bytes.now)
        (stored_in reader.entry.view.bytes.now (types_in reader.entry)) (place_of list) U vs
        blocks →
        ShowsItem (stored_in reader.entry.view.bytes.now (types_in reader.entry)) (place_of list)
        U i item → ShowsNext (stored_in reader.entry.view.bytes.now (types_in reader.entry))
        (place_of list) U (count vs) i (found_position result) }
    ensures of_type { IfOk result (λ found.
        item_type (form_at (types_in reader.entry) list.type_id) ≡ Some found.type_id) }
    ensures other { IsNoList (types_in reader.entry) list.type_id → result ≡ Err Code.OtherType }
{
    let first = first_item(reader, list)?;
    let at = seg_seq::next(&reader, item);
    if at == first.at {
        return Err(Code::Null);
    }
    Ok(ValuePlace {
        at,
        type_id: first.type_id,
    })
}

/// The item before another one, which isn't the first.
fn previous_item(reader: Reader<'_>, list: ValuePlace, item: ValueAt) -> Result<ValuePlace, Code>
    ensures previous { (U i : ℕ) (vs : Values) (blocks : List ℕ) →
        HasList (allocator_in reader.entry.view.bytes.now)
        (stored_in reader.entry.view.bytes.now (types_in reader.entry)) (place_of list) U vs
        blocks →
        ShowsItem (stored_in reader.entry.view.bytes.now (types_in reader.entry)) (place_of list)
        U i item → ShowsPrevious (stored_in reader.entry.view.bytes.now (types_in reader.entry))
        (place_of list) U i (found_position result) }
    ensures of_type { IfOk result (λ found.
        item_type (form_at (types_in reader.entry) list.type_id) ≡ Some found.type_id) }
    ensures other { IsNoList (types_in reader.entry) list.type_id → result ≡ Err Code.OtherType }
{
    let first = first_item(reader, list)?;
    if item == first.at {
        return Err(Code::Null);
    }
    Ok(ValuePlace {
        at: seg_seq::previous(&reader, item),
        type_id: first.type_id,
    })
}

/// The first item of a list. `OtherType` if the place isn't a list, `Null` if it is empty.
fn first_item(reader: Reader<'_>, list: ValuePlace) -> Result<ValuePlace, Code>
    ensures first { (U : ℕ) (vs : Values) (blocks : List ℕ) →
        HasList (allocator_in reader.entry.view.bytes.now)
        (stored_in reader.entry.view.bytes.now (types_in reader.entry)) (place_of list) U vs
        blocks →
        MatchResult (found_position result)
        (ShowsItem (stored_in reader.entry.view.bytes.now (types_in reader.entry))
        (place_of list) U 0)
        (λ code. (code ≡ Code.Null) × (count vs ≡ 0)) }
    ensures of_type { IfOk result (λ first.
        item_type (form_at (types_in reader.entry) list.type_id) ≡ Some first.type_id) }
    ensures other { IsNoList (types_in reader.entry) list.type_id → result ≡ Err Code.OtherType }
{
    let Some(Type::List(_)) = reader.kept.types().kind(list.type_id) else {
        return Err(Code::OtherType);
    };
    let Ok(first) = reader.item(list, 0) else {
        return Err(Code::Null);
    };
    Ok(first)
}
