ghost use Rattle.std.specs.Prelude.{◌≡◌, ◌+◌, ◌<◌, ◌≤◌, length, IfSome, IsSomeAnd};
ghost use Rattle.seg_spec.specs.Bytes.{slice};
ghost use Rattle.seg_spec.specs.Index.{Root, root_named};
ghost use Rattle.seg_spec.specs.Sound.{Picture};
ghost use Rattle.seg_index.specs.Lists.{IsNamed, entry_of, root_after};
ghost use Rattle.seg_manager.specs.NamedObjects.{DescribesRoot, found_as};
ghost use Rattle.seg_manager.specs.Segments.{IsSegment, unique_at};
ghost use Rattle.lezgauri.specs.Places.{item_place};
ghost use Rattle.lezgauri_c.specs.Names.{ReportsRoot};
ghost use Rattle.lezgauri_c.specs.Places.{type_number, TellsPlace};
ghost use Rattle.lezgauri_c.specs.KeptImages.{types_in};
ghost use Rattle.lezgauri_c.specs.Values.{table_in, at_in, stored_in, allocator_in, TellsOption, IsReadStatus, OnSound};

use crate::byte_range::{ByteRange, range_in};
use crate::kept_types::KeptTypes;
use crate::place::{Place, give, type_number};
use crate::reader::Reader;
use crate::reading::{on_reader, tell};
use lezgauri::ImageRead;
use seg_cells::NameEntry;
use seg_raw::Code;
use std::alloc::Global;

/// A named object of an image.
#[repr(C)]
#[derive(Debug, Clone, Copy, PartialEq, Eq)]
pub struct Named {
    /// Its name, in place.
    pub name: ByteRange,
    /// The number of its type.
    pub type_id: u32,
    /// How many values it has.
    pub count: u32,
}

/// The place of the value with an index, counted from 0, of the object with a name, in an image that an earlier call found sound, or
/// changed. Fails as `ImageRead::find_item` does.
#[unsafe(no_mangle)]
pub extern "C" fn lezgauri_raw_find(
    alloc: Global,
    image: &[u8],
    types: &mut KeptTypes,
    name: &[u8],
    type_id: u32,
    index: u32,
    place: &mut Place,
) -> u32
    ensures finds { OnSound image.now types.old (λ picture. TellsPlace result place.old place.new
        (item_place picture.table (type_number type_id) index
        (found_as (type_number type_id) (root_named picture.names name.now)))) }
    ensures unwritten { 0 < result → place.new ≡ place.old }
    ensures same { table_in types.new ≡ table_in types.old }
    ensures status { IsReadStatus result }
{
    let t = type_number(type_id);
    let found = on_reader!(alloc, image, types, reader => reader.find_item(name, t, index));
    give(found, place)
}

/// The place of the unique object of a type. Fails as `ImageRead::find_unique` does.
#[unsafe(no_mangle)]
pub extern "C" fn lezgauri_raw_find_unique(
    alloc: Global,
    image: &[u8],
    types: &mut KeptTypes,
    type_id: u32,
    place: &mut Place,
) -> u32
    ensures finds { OnSound image.now types.old (λ picture.
        type_number type_id < length picture.table → TellsOption result 113 place.new
        (λ found. at_in found ≡ unique_at picture (type_number type_id))) }
    ensures unknown { OnSound image.now types.old (λ picture.
        length picture.table ≤ type_number type_id → result ≡ 114) }
    ensures of_type { result ≡ 0 → place.new.type_id ≡ type_number type_id }
    ensures unwritten { 0 < result → place.new ≡ place.old }
    ensures same { table_in types.new ≡ table_in types.old }
    ensures status { IsReadStatus result }
{
    let t = type_number(type_id);
    let found = on_reader!(alloc, image, types, reader => reader.find_unique(t));
    give(found, place)
}

/// The object with a name, of whatever type, in an image that an earlier call found sound, or changed. Returns the status for `Absent`
/// if no object has the name.
#[unsafe(no_mangle)]
pub extern "C" fn lezgauri_raw_named_object(
    alloc: Global,
    image: &[u8],
    types: &mut KeptTypes,
    name: &[u8],
    named: &mut Named,
) -> u32
    ensures named { OnSound image.now types.old (λ picture. TellsOption result 113 named.new
        (ReportsRoot image.now (root_named picture.names name.now))) }
    ensures inside { result ≡ 0 → named.new.name.at + named.new.name.len ≤ length image.now }
    ensures unwritten { 0 < result → named.new ≡ named.old }
    ensures same { table_in types.new ≡ table_in types.old }
    ensures status { IsReadStatus result }
{
    let found = on_reader!(alloc, image, types, reader => named_object(reader, name));
    tell(found.ok_or(Code::Absent), named)
}

/// The first object whose name is after another one in order, which need not exist. All names are after the empty one. Returns the status
/// for `Null` if there is no further name.
#[unsafe(no_mangle)]
pub extern "C" fn lezgauri_raw_next_name(
    alloc: Global,
    image: &[u8],
    types: &mut KeptTypes,
    after: &[u8],
    named: &mut Named,
) -> u32
    ensures next { OnSound image.now types.old (λ picture. TellsOption result 116 named.new
        (ReportsRoot image.now (root_after picture.names after.now))) }
    ensures inside { result ≡ 0 → named.new.name.at + named.new.name.len ≤ length image.now }
    ensures unwritten { 0 < result → named.new ≡ named.old }
    ensures same { table_in types.new ≡ table_in types.old }
    ensures status { IsReadStatus result }
{
    let found = on_reader!(alloc, image, types, reader => next_named(reader, after));
    tell(found.ok_or(Code::Null), named)
}

fn named_object(reader: Reader<'_>, name: &[u8]) -> Option<Named>
    ensures named { (picture : Picture) → IsSegment (allocator_in reader.entry.view.bytes.now)
        (stored_in reader.entry.view.bytes.now (types_in reader.entry)) picture →
        ReportsRoot reader.entry.view.bytes.now (root_named picture.names name.now) result }
    ensures inside { IfSome result
        (λ it. it.name.at + it.name.len ≤ length reader.entry.view.bytes.now) }
{
    named_of(reader, seg_index::find(&reader, name)?)
}

fn next_named(reader: Reader<'_>, after: &[u8]) -> Option<Named>
    ensures next { (picture : Picture) → IsSegment (allocator_in reader.entry.view.bytes.now)
        (stored_in reader.entry.view.bytes.now (types_in reader.entry)) picture →
        ReportsRoot reader.entry.view.bytes.now (root_after picture.names after.now) result }
    ensures inside { IfSome result
        (λ it. it.name.at + it.name.len ≤ length reader.entry.view.bytes.now) }
{
    named_of(reader, seg_index::next_name(&reader, after)?)
}

/// The object of an entry of the index. Its name follows its values.
fn named_of(reader: Reader<'_>, entry: NameEntry) -> Option<Named>
    ensures named { (root : Root) →
        IsNamed reader.entry.view.bytes.now (types_in reader.entry) root →
        root.type < 32 → entry ≡ entry_of root →
        IsSomeAnd result (λ it. DescribesRoot
        (slice reader.entry.view.bytes.now it.name.at it.name.len) it.type_id it.count root) }
    ensures inside { IfSome result
        (λ it. it.name.at + it.name.len ≤ length reader.entry.view.bytes.now) }
{
    let object = entry.object?;
    let type_id = entry.type_in(reader.view)?;
    let values = entry.values_len(reader.kept.types().size(type_id));
    Some(Named {
        name: range_in(
            reader.view,
            object as usize + values,
            usize::from(entry.name_len),
        ),
        type_id: u32::from(type_id),
        count: u32::from(entry.count),
    })
}
