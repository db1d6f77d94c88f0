ghost use Rattle.std.specs.Prelude.{◌≡◌, ◌<◌, false};
ghost use Rattle.seg_spec.specs.Types.{form_at};
ghost use Rattle.lezgauri.specs.CellPlaces.{place_of};
ghost use Rattle.lezgauri.specs.EitherMap.{has_keys, IsMapOf};
ghost use Rattle.lezgauri.specs.Maps.{FindsValue, FindsEntry, first_of, last_of, keys_above, lower_keys};
ghost use Rattle.lezgauri_c.specs.Places as places;
ghost use Rattle.lezgauri_c.specs.Places.{type_number};
ghost use Rattle.lezgauri_c.specs.Values.{table_in, at_in, entry_in, TellsOption, IsReadStatus, OnSound, WhereMap};

use crate::kept_types::KeptTypes;
use crate::place::{Place, give, give_entry, place_at};
use crate::reading::{on_reader, tell};
use lezgauri::ImageRead;
use std::alloc::Global;

/// The place of a key's value in the map at a place of an image that an earlier call found sound, or changed. Fails as `ImageRead::get`
/// does.
#[unsafe(no_mangle)]
pub extern "C" fn lezgauri_raw_get(
    alloc: Global,
    image: &[u8],
    types: &mut KeptTypes,
    at: u32,
    type_id: u32,
    key: i64,
    value: &mut Place,
) -> u32
    ensures finds { OnSound image.now types.old (λ picture.
        WhereMap image.now picture.table (places.place_at at type_id)
        (λ U keys vs blocks. TellsOption result 113 value.new
        (λ found. FindsValue image.now picture.table (place_of (places.place_at at type_id)) U
        keys key (at_in found)))) }
    ensures of_type { OnSound image.now types.old (λ picture. result ≡ 0 →
        IsMapOf (form_at picture.table (type_number type_id)) value.new.type_id) }
    ensures other { OnSound image.now types.old (λ picture.
        has_keys (form_at picture.table (type_number type_id)) ≡ false → result ≡ 114) }
    ensures unwritten { 0 < result → value.new ≡ value.old }
    ensures same { table_in types.new ≡ table_in types.old }
    ensures status { IsReadStatus result }
{
    let map = place_at(at, type_id);
    let found = on_reader!(alloc, image, types, reader => reader.get(map, key));
    give(found, value)
}

/// The least key of a map. Fails as `ImageRead::first_key` does.
#[unsafe(no_mangle)]
pub extern "C" fn lezgauri_raw_first_key(
    alloc: Global,
    image: &[u8],
    types: &mut KeptTypes,
    at: u32,
    type_id: u32,
    key: &mut i64,
) -> u32
    ensures first { OnSound image.now types.old (λ picture.
        WhereMap image.now picture.table (places.place_at at type_id)
        (λ U keys vs blocks. TellsOption result 116 key.new (λ found. found ≡ first_of keys))) }
    ensures other { OnSound image.now types.old (λ picture.
        has_keys (form_at picture.table (type_number type_id)) ≡ false → result ≡ 114) }
    ensures unwritten { 0 < result → key.new ≡ key.old }
    ensures same { table_in types.new ≡ table_in types.old }
    ensures status { IsReadStatus result }
{
    let map = place_at(at, type_id);
    let found = on_reader!(alloc, image, types, reader => reader.first_key(map));
    tell(found, key)
}

/// The least key of a map above another one, which need not exist. Fails as `ImageRead::next_key` does.
#[unsafe(no_mangle)]
pub extern "C" fn lezgauri_raw_next_key(
    alloc: Global,
    image: &[u8],
    types: &mut KeptTypes,
    at: u32,
    type_id: u32,
    after: i64,
    key: &mut i64,
) -> u32
    ensures next { OnSound image.now types.old (λ picture.
        WhereMap image.now picture.table (places.place_at at type_id)
        (λ U keys vs blocks. TellsOption result 116 key.new
        (λ found. found ≡ first_of (keys_above keys after)))) }
    ensures other { OnSound image.now types.old (λ picture.
        has_keys (form_at picture.table (type_number type_id)) ≡ false → result ≡ 114) }
    ensures unwritten { 0 < result → key.new ≡ key.old }
    ensures same { table_in types.new ≡ table_in types.old }
    ensures status { IsReadStatus result }
{
    let map = place_at(at, type_id);
    let found = on_reader!(alloc, image, types, reader => reader.next_key(map, after));
    tell(found, key)
}

/// The greatest key of a map. Fails as `lezgauri_raw_first_key` does.
#[unsafe(no_mangle)]
pub extern "C" fn lezgauri_raw_last_key(
    alloc: Global,
    image: &[u8],
    types: &mut KeptTypes,
    at: u32,
    type_id: u32,
    key: &mut i64,
) -> u32
    ensures last { OnSound image.now types.old (λ picture.
        WhereMap image.now picture.table (places.place_at at type_id)
        (λ U keys vs blocks. TellsOption result 116 key.new (λ found. found ≡ last_of keys))) }
    ensures other { OnSound image.now types.old (λ picture.
        has_keys (form_at picture.table (type_number type_id)) ≡ false → result ≡ 114) }
    ensures unwritten { 0 < result → key.new ≡ key.old }
    ensures same { table_in types.new ≡ table_in types.old }
    ensures status { IsReadStatus result }
{
    let map = place_at(at, type_id);
    let found = on_reader!(alloc, image, types, reader => reader.last_key(map));
    tell(found, key)
}

/// The greatest key of a map below another one, which need not exist. Fails as `lezgauri_raw_next_key` does.
#[unsafe(no_mangle)]
pub extern "C" fn lezgauri_raw_previous_key(
    alloc: Global,
    image: &[u8],
    types: &mut KeptTypes,
    at: u32,
    type_id: u32,
    before: i64,
    key: &mut i64,
) -> u32
    ensures previous { OnSound image.now types.old (λ picture.
        WhereMap image.now picture.table (places.place_at at type_id)
        (λ U keys vs blocks. TellsOption result 116 key.new
        (λ found. found ≡ last_of (lower_keys keys before)))) }
    ensures other { OnSound image.now types.old (λ picture.
        has_keys (form_at picture.table (type_number type_id)) ≡ false → result ≡ 114) }
    ensures unwritten { 0 < result → key.new ≡ key.old }
    ensures same { table_in types.new ≡ table_in types.old }
    ensures status { IsReadStatus result }
{
    let map = place_at(at, type_id);
    let found = on_reader!(alloc, image, types, reader => reader.previous_key(map, before));
    tell(found, key)
}

/// The least key of a map, with the place and the type of its value. Fails as `ImageRead::first_entry` does.
#[unsafe(no_mangle)]
pub extern "C" fn lezgauri_raw_first_entry(
    alloc: Global,
    image: &[u8],
    types: &mut KeptTypes,
    at: u32,
    type_id: u32,
    key: &mut i64,
    value: &mut Place,
) -> u32
    ensures first { OnSound image.now types.old (λ picture.
        WhereMap image.now picture.table (places.place_at at type_id)
        (λ U keys vs blocks. TellsOption result 116 (entry_in key.new value.new)
        (FindsEntry image.now picture.table (place_of (places.place_at at type_id)) U
        (first_of keys)))) }
    ensures of_type { OnSound image.now types.old (λ picture. result ≡ 0 →
        IsMapOf (form_at picture.table (type_number type_id)) value.new.type_id) }
    ensures other { OnSound image.now types.old (λ picture.
        has_keys (form_at picture.table (type_number type_id)) ≡ false → result ≡ 114) }
    ensures unwritten { 0 < result → (key.new ≡ key.old) × (value.new ≡ value.old) }
    ensures same { table_in types.new ≡ table_in types.old }
    ensures status { IsReadStatus result }
{
    let map = place_at(at, type_id);
    let found = on_reader!(alloc, image, types, reader => reader.first_entry(map));
    give_entry(found, key, value)
}

/// The least key of a map above another one, with the place and the type of its value. Fails as `ImageRead::next_entry` does.
#[unsafe(no_mangle)]
pub extern "C" fn lezgauri_raw_next_entry(
    alloc: Global,
    image: &[u8],
    types: &mut KeptTypes,
    at: u32,
    type_id: u32,
    after: i64,
    key: &mut i64,
    value: &mut Place,
) -> u32
    ensures next { OnSound image.now types.old (λ picture.
        WhereMap image.now picture.table (places.place_at at type_id)
        (λ U keys vs blocks. TellsOption result 116 (entry_in key.new value.new)
        (FindsEntry image.now picture.table (place_of (places.place_at at type_id)) U
        (first_of (keys_above keys after))))) }
    ensures of_type { OnSound image.now types.old (λ picture. result ≡ 0 →
        IsMapOf (form_at picture.table (type_number type_id)) value.new.type_id) }
    ensures other { OnSound image.now types.old (λ picture.
        has_keys (form_at picture.table (type_number type_id)) ≡ false → result ≡ 114) }
    ensures unwritten { 0 < result → (key.new ≡ key.old) × (value.new ≡ value.old) }
    ensures same { table_in types.new ≡ table_in types.old }
    ensures status { IsReadStatus result }
{
    let map = place_at(at, type_id);
    let found = on_reader!(alloc, image, types, reader => reader.next_entry(map, after));
    give_entry(found, key, value)
}

/// The greatest key of a map, with the place and the type of its value. Fails as `lezgauri_raw_first_entry` does.
#[unsafe(no_mangle)]
pub extern "C" fn lezgauri_raw_last_entry(
    alloc: Global,
    image: &[u8],
    types: &mut KeptTypes,
    at: u32,
    type_id: u32,
    key: &mut i64,
    value: &mut Place,
) -> u32
    ensures last { OnSound image.now types.old (λ picture.
        WhereMap image.now picture.table (places.place_at at type_id)
        (λ U keys vs blocks. TellsOption result 116 (entry_in key.new value.new)
        (FindsEntry image.now picture.table (place_of (places.place_at at type_id)) U
        (last_of keys)))) }
    ensures of_type { OnSound image.now types.old (λ picture. result ≡ 0 →
        IsMapOf (form_at picture.table (type_number type_id)) value.new.type_id) }
    ensures other { OnSound image.now types.old (λ picture.
        has_keys (form_at picture.table (type_number type_id)) ≡ false → result ≡ 114) }
    ensures unwritten { 0 < result → (key.new ≡ key.old) × (value.new ≡ value.old) }
    ensures same { table_in types.new ≡ table_in types.old }
    ensures status { IsReadStatus result }
{
    let map = place_at(at, type_id);
    let found = on_reader!(alloc, image, types, reader => reader.last_entry(map));
    give_entry(found, key, value)
}

/// The greatest key of a map below another one, with the place and the type of its value. Fails as `lezgauri_raw_next_entry` does.
#[unsafe(no_mangle)]
pub extern "C" fn lezgauri_raw_previous_entry(
    alloc: Global,
    image: &[u8],
    types: &mut KeptTypes,
    at: u32,
    type_id: u32,
    before: i64,
    key: &mut i64,
    value: &mut Place,
) -> u32
    ensures previous { OnSound image.now types.old (λ picture.
        WhereMap image.now picture.table (places.place_at at type_id)
        (λ U keys vs blocks. TellsOption result 116 (entry_in key.new value.new)
        (FindsEntry image.now picture.table (place_of (places.place_at at type_id)) U
        (last_of (lower_keys keys before))))) }
    ensures of_type { OnSound image.now types.old (λ picture. result ≡ 0 →
        IsMapOf (form_at picture.table (type_number type_id)) value.new.type_id) }
    ensures other { OnSound image.now types.old (λ picture.
        has_keys (form_at picture.table (type_number type_id)) ≡ false → result ≡ 114) }
    ensures unwritten { 0 < result → (key.new ≡ key.old) × (value.new ≡ value.old) }
    ensures same { table_in types.new ≡ table_in types.old }
    ensures status { IsReadStatus result }
{
    let map = place_at(at, type_id);
    let found = on_reader!(alloc, image, types, reader => reader.previous_entry(map, before));
    give_entry(found, key, value)
}
