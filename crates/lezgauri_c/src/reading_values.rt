ghost use Rattle.std.specs.Prelude.{◌≡◌, ◌≢◌, ◌+◌, ◌*◌, ◌<◌, ◌≤◌, ℕ, true, false, length, Some, None, Err, IsOk, IfOk};
ghost use Rattle.seg_spec.specs.Bytes.{signed_long, slice};
ghost use Rattle.seg_spec.specs.Pointer.{target};
ghost use Rattle.seg_spec.specs.Reads.{count_at, start};
ghost use Rattle.seg_spec.specs.Types.{Form, form_at};
ghost use Rattle.seg_spec.specs.Value.{count};
ghost use Rattle.seg_seq.specs.Kinds.{HasNumbers};
ghost use Rattle.lezgauri.specs.Places.{object_type, shared_type, content_place, frozen_place, is_counted, FieldPlace, HasPairs};
ghost use Rattle.lezgauri_c.specs.Places as places;
ghost use Rattle.lezgauri_c.specs.Places.{type_number, TellsPlace};
ghost use Rattle.lezgauri_c.specs.KeptImages.{types_in};
ghost use Rattle.lezgauri_c.specs.Values.{table_in, ReturnsPlace, IsReadStatus, OnSound, WhereText, WhereVector, WhereList, WhereMap};

use crate::byte_range::{ByteRange, range_in};
use crate::kept_types::KeptTypes;
use crate::place::{Place, give, place_at};
use crate::reader::Reader;
use crate::reading::{on_reader, tell};
use lezgauri::ImageRead;
use seg_raw::Code;
use seg_value::{Place as ValuePlace, count_in, start_in};
use std::alloc::Global;

/// The size of a number in bytes.
const NUMBER: usize = 8;

/// The size of a key and its number in a flat map.
const PAIR: usize = 16;

/// The number at a place of an image that an earlier call found sound, or changed. Fails as `ImageRead::load` does.
#[unsafe(no_mangle)]
pub extern "C" fn lezgauri_raw_load(
    alloc: Global,
    image: &[u8],
    types: &mut KeptTypes,
    at: u32,
    type_id: u32,
    number: &mut i64,
) -> u32
    ensures number { OnSound image.now types.old (λ picture.
        form_at picture.table (type_number type_id) ≡ Some Form.i64 →
        (result ≡ 0) × (number.new ≡ signed_long image.now at)) }
    ensures other { OnSound image.now types.old (λ picture.
        form_at picture.table (type_number type_id) ≢ Some Form.i64 → result ≡ 114) }
    ensures unwritten { 0 < result → number.new ≡ number.old }
    ensures same { table_in types.new ≡ table_in types.old }
    ensures status { IsReadStatus result }
{
    let place = place_at(at, type_id);
    let loaded = on_reader!(alloc, image, types, reader => reader.load(place));
    tell(loaded, number)
}

/// The place of a struct's field, by its index from 0. Fails as `ImageRead::field` does.
#[unsafe(no_mangle)]
pub extern "C" fn lezgauri_raw_field(
    alloc: Global,
    image: &[u8],
    types: &mut KeptTypes,
    at: u32,
    type_id: u32,
    index: u32,
    field: &mut Place,
) -> u32
    ensures field { OnSound image.now types.old (λ picture. ReturnsPlace result field.old field.new
        (FieldPlace picture.table (places.place_at at type_id) index)) }
    ensures unwritten { 0 < result → field.new ≡ field.old }
    ensures same { table_in types.new ≡ table_in types.old }
    ensures status { IsReadStatus result }
{
    let place = place_at(at, type_id);
    let found = on_reader!(alloc, image, types, reader => reader.field(place, index));
    give(found, field)
}

/// The number of bytes in a string, of items in a vector or a list, of keys in a map, or of objects in an own. Fails as `ImageRead::len`
/// does.
#[unsafe(no_mangle)]
pub extern "C" fn lezgauri_raw_len(
    alloc: Global,
    image: &[u8],
    types: &mut KeptTypes,
    at: u32,
    type_id: u32,
    len: &mut u32,
) -> u32
    ensures text { OnSound image.now types.old (λ picture.
        WhereText image.now picture.table (places.place_at at type_id)
        (λ xs blocks. (result ≡ 0) × (len.new ≡ length xs))) }
    ensures vector { OnSound image.now types.old (λ picture.
        WhereVector image.now picture.table (places.place_at at type_id)
        (λ U vs blocks. (result ≡ 0) × (len.new ≡ count vs))) }
    ensures list { OnSound image.now types.old (λ picture.
        WhereList image.now picture.table (places.place_at at type_id)
        (λ U vs blocks. (result ≡ 0) × (len.new ≡ count vs))) }
    ensures keys { OnSound image.now types.old (λ picture.
        WhereMap image.now picture.table (places.place_at at type_id)
        (λ U keys vs blocks. (result ≡ 0) × (len.new ≡ length keys))) }
    ensures counted { OnSound image.now types.old (λ picture.
        is_counted (form_at picture.table (type_number type_id)) ≡ true →
        (result ≡ 0) × (len.new ≡ count_at image.now at)) }
    ensures other { OnSound image.now types.old (λ picture.
        is_counted (form_at picture.table (type_number type_id)) ≡ false → result ≡ 114) }
    ensures unwritten { 0 < result → len.new ≡ len.old }
    ensures same { table_in types.new ≡ table_in types.old }
    ensures status { IsReadStatus result }
{
    let place = place_at(at, type_id);
    let counted = on_reader!(alloc, image, types, reader => reader.len(place));
    tell(counted, len)
}

/// The bytes of a string, in place. Returns the status for `OtherType` if the place isn't a string.
#[unsafe(no_mangle)]
pub extern "C" fn lezgauri_raw_text(
    alloc: Global,
    image: &[u8],
    types: &mut KeptTypes,
    at: u32,
    type_id: u32,
    text: &mut ByteRange,
) -> u32
    ensures text { OnSound image.now types.old (λ picture.
        form_at picture.table (type_number type_id) ≡ Some Form.str → (result ≡ 0)
        × (slice image.now text.new.at text.new.len
        ≡ slice image.now (start image.now at) (count_at image.now at))) }
    ensures other { OnSound image.now types.old (λ picture.
        form_at picture.table (type_number type_id) ≢ Some Form.str → result ≡ 114) }
    ensures inside { result ≡ 0 → text.new.at + text.new.len ≤ length image.now }
    ensures unwritten { 0 < result → text.new ≡ text.old }
    ensures same { table_in types.new ≡ table_in types.old }
    ensures status { IsReadStatus result }
{
    let place = place_at(at, type_id);
    let found = on_reader!(alloc, image, types, reader => text_range(reader, place));
    tell(found, text)
}

/// The bytes of the numbers of a vector, 8 for each, the lowest first, in place. Returns the status for `OtherType` if the place isn't a
/// vector of numbers.
#[unsafe(no_mangle)]
pub extern "C" fn lezgauri_raw_numbers(
    alloc: Global,
    image: &[u8],
    types: &mut KeptTypes,
    at: u32,
    type_id: u32,
    numbers: &mut ByteRange,
) -> u32
    ensures numbers { OnSound image.now types.old (λ picture.
        HasNumbers picture.table (type_number type_id) → (result ≡ 0)
        × (slice image.now numbers.new.at numbers.new.len
        ≡ slice image.now (start image.now at) (count_at image.now at * 8))) }
    ensures other { OnSound image.now types.old (λ picture.
        ¬ HasNumbers picture.table (type_number type_id) → result ≡ 114) }
    ensures inside { result ≡ 0 → numbers.new.at + numbers.new.len ≤ length image.now }
    ensures unwritten { 0 < result → numbers.new ≡ numbers.old }
    ensures same { table_in types.new ≡ table_in types.old }
    ensures status { IsReadStatus result }
{
    let place = place_at(at, type_id);
    let found = on_reader!(alloc, image, types, reader => numbers_range(reader, place));
    tell(found, numbers)
}

/// The bytes of the keys of a flat map of numbers, in ascending order, each followed by its number, 8 bytes for each of the two, the lowest
/// first, in place. Returns the status for `OtherType` if the place isn't a flat map of numbers.
#[unsafe(no_mangle)]
pub extern "C" fn lezgauri_raw_pairs(
    alloc: Global,
    image: &[u8],
    types: &mut KeptTypes,
    at: u32,
    type_id: u32,
    pairs: &mut ByteRange,
) -> u32
    ensures pairs { OnSound image.now types.old (λ picture.
        HasPairs picture.table (type_number type_id) → (result ≡ 0)
        × (slice image.now pairs.new.at pairs.new.len
        ≡ slice image.now (start image.now at) (count_at image.now at * 16))) }
    ensures other { OnSound image.now types.old (λ picture.
        ¬ HasPairs picture.table (type_number type_id) → result ≡ 114) }
    ensures inside { result ≡ 0 → pairs.new.at + pairs.new.len ≤ length image.now }
    ensures unwritten { 0 < result → pairs.new ≡ pairs.old }
    ensures same { table_in types.new ≡ table_in types.old }
    ensures status { IsReadStatus result }
{
    let place = place_at(at, type_id);
    let found = on_reader!(alloc, image, types, reader => pairs_range(reader, place));
    tell(found, pairs)
}

/// The place of the object that an own has, or of the frozen object to which a shared cell points. Returns the status for `OtherType` if
/// the place is neither, for `Null` if it points to none.
#[unsafe(no_mangle)]
pub extern "C" fn lezgauri_raw_content(
    alloc: Global,
    image: &[u8],
    types: &mut KeptTypes,
    at: u32,
    type_id: u32,
    content: &mut Place,
) -> u32
    ensures own { OnSound image.now types.old (λ picture. (U : ℕ) →
        object_type (form_at picture.table (type_number type_id)) ≡ Some U →
        TellsPlace result content.old content.new (content_place (Some U) (target image.now at))) }
    ensures shared { OnSound image.now types.old (λ picture. (U : ℕ) →
        shared_type (form_at picture.table (type_number type_id)) ≡ Some U →
        TellsPlace result content.old content.new (frozen_place (Some U) (target image.now at))) }
    ensures other { OnSound image.now types.old (λ picture.
        object_type (form_at picture.table (type_number type_id)) ≡ None →
        shared_type (form_at picture.table (type_number type_id)) ≡ None → result ≡ 114) }
    ensures unwritten { 0 < result → content.new ≡ content.old }
    ensures same { table_in types.new ≡ table_in types.old }
    ensures status { IsReadStatus result }
{
    let place = place_at(at, type_id);
    let found = on_reader!(alloc, image, types, reader => content_of(reader, place));
    give(found, content)
}

/// The range of a string's bytes.
fn text_range(reader: Reader<'_>, place: ValuePlace) -> Result<ByteRange, Code>
    ensures text { form_at (types_in reader.entry) place.type_id ≡ Some Form.str →
        IfOk result (λ text. slice reader.entry.view.bytes.now text.at text.len
        ≡ slice reader.entry.view.bytes.now (start reader.entry.view.bytes.now place.at)
        (count_at reader.entry.view.bytes.now place.at)) }
    ensures done { form_at (types_in reader.entry) place.type_id ≡ Some Form.str → IsOk result }
    ensures other { form_at (types_in reader.entry) place.type_id ≢ Some Form.str →
        result ≡ Err Code.OtherType }
    ensures inside { IfOk result
        (λ text. text.at + text.len ≤ length reader.entry.view.bytes.now) }
{
    let _ = reader.text(place)?;
    let (from, len) = (
        start_in(reader.view, place.at),
        count_in(reader.view, place.at),
    );
    Ok(range_in(reader.view, from as usize, len as usize))
}

/// The range of the bytes of a vector's numbers.
fn numbers_range(reader: Reader<'_>, vector: ValuePlace) -> Result<ByteRange, Code>
    ensures numbers { HasNumbers (types_in reader.entry) vector.type_id →
        IfOk result (λ numbers. slice reader.entry.view.bytes.now numbers.at numbers.len
        ≡ slice reader.entry.view.bytes.now (start reader.entry.view.bytes.now vector.at)
        (count_at reader.entry.view.bytes.now vector.at * 8)) }
    ensures done { HasNumbers (types_in reader.entry) vector.type_id → IsOk result }
    ensures other { ¬ HasNumbers (types_in reader.entry) vector.type_id →
        result ≡ Err Code.OtherType }
    ensures inside { IfOk result
        (λ numbers. numbers.at + numbers.len ≤ length reader.entry.view.bytes.now) }
{
    let _ = reader.number_bytes(vector)?;
    let (from, count) = (
        start_in(reader.view, vector.at),
        count_in(reader.view, vector.at),
    );
    Ok(range_in(reader.view, from as usize, count as usize * NUMBER))
}

/// The range of the bytes of a flat map's keys and numbers.
fn pairs_range(reader: Reader<'_>, map: ValuePlace) -> Result<ByteRange, Code>
    ensures pairs { HasPairs (types_in reader.entry) map.type_id →
        IfOk result (λ pairs. slice reader.entry.view.bytes.now pairs.at pairs.len
        ≡ slice reader.entry.view.bytes.now (start reader.entry.view.bytes.now map.at)
        (count_at reader.entry.view.bytes.now map.at * 16)) }
    ensures done { HasPairs (types_in reader.entry) map.type_id → IsOk result }
    ensures other { ¬ HasPairs (types_in reader.entry) map.type_id →
        result ≡ Err Code.OtherType }
    ensures inside { IfOk result
        (λ pairs. pairs.at + pairs.len ≤ length reader.entry.view.bytes.now) }
{
    let _ = reader.pair_bytes(map)?;
    let (from, count) = (start_in(reader.view, map.at), count_in(reader.view, map.at));
    Ok(range_in(reader.view, from as usize, count as usize * PAIR))
}

/// The object that an own has, or the frozen object of a shared cell.
fn content_of(reader: Reader<'_>, place: ValuePlace) -> Result<ValuePlace, Code>
    ensures own { (U : ℕ) → object_type (form_at (types_in reader.entry) place.type_id) ≡ Some U →
        result ≡ content_place (Some U) (target reader.entry.view.bytes.now place.at) }
    ensures shared { (U : ℕ) →
        shared_type (form_at (types_in reader.entry) place.type_id) ≡ Some U →
        result ≡ frozen_place (Some U) (target reader.entry.view.bytes.now place.at) }
    ensures other { object_type (form_at (types_in reader.entry) place.type_id) ≡ None →
        shared_type (form_at (types_in reader.entry) place.type_id) ≡ None →
        result ≡ Err Code.OtherType }
{
    match reader.content(place) {
        Err(Code::OtherType) => reader.frozen(place),
        found => found,
    }
}
