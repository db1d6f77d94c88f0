ghost use Rattle.std.specs.Prelude.{◌≡◌, ◌<◌, ℕ, ℤ, List, false, Err, OnErr, IfOk, IfErr};
ghost use Rattle.std.specs.Bool.{then_some};
ghost use Rattle.seg_spec.specs.Types.{form_at};
ghost use Rattle.seg_spec.specs.Value.{Values};
ghost use Rattle.lezgauri.specs.CellPlaces.{place_of};
ghost use Rattle.lezgauri.specs.EitherMap.{has_keys, IsMapOf};
ghost use Rattle.lezgauri.specs.Iterators.{keys_after};
ghost use Rattle.lezgauri_c.specs.Entries.{FillsEntries};
ghost use Rattle.lezgauri_c.specs.KeptImages.{types_in};
ghost use Rattle.lezgauri_c.specs.Places as places;
ghost use Rattle.lezgauri_c.specs.Places.{type_number};
ghost use Rattle.lezgauri_c.specs.Values.{table_in, IsReadStatus, OnSound, WhereMap};

use crate::entry::Entry;
use crate::kept_types::KeptTypes;
use crate::place::{Place, place_at};
use crate::reader::Reader;
use crate::reading::{on_reader, tell};
use lezgauri::ImageRead;
use seg_raw::Code;
use seg_value::Place as ValuePlace;
use std::alloc::Global;

/// Fills the caller's memory with the entries of a map above a key, or from the first one on, in the order of the keys. Returns the
/// status for `OtherType` if the place isn't a map. There are fewer entries than the memory has room for only if the map has no
/// more.
#[unsafe(no_mangle)]
pub extern "C" fn lezgauri_raw_next_entries(
    alloc: Global,
    image: &[u8],
    types: &mut KeptTypes,
    at: u32,
    type_id: u32,
    is_after: bool,
    after: i64,
    entries: &mut [Entry],
    count: &mut usize,
) -> u32
    ensures fills { OnSound image.now types.old (λ picture.
        WhereMap image.now picture.table (places.place_at at type_id) (λ U keys vs blocks.
        (result ≡ 0) × FillsEntries image.now picture.table (places.place_at at type_id) U keys
        (keys_after keys (then_some is_after after)) entries.old entries.new count.new)) }
    ensures other { OnSound image.now types.old (λ picture.
        has_keys (form_at picture.table (type_number type_id)) ≡ false → result ≡ 114) }
    ensures unwritten { 0 < result → (entries.new ≡ entries.old) × (count.new ≡ count.old) }
    ensures same { table_in types.new ≡ table_in types.old }
    ensures status { IsReadStatus result }
{
    let map = place_at(at, type_id);
    let after = is_after.then_some(after);
    let filled = on_reader!(alloc, image, types, reader => fill(reader, map, after, entries));
    tell(filled, count)
}

/// Fills memory with the entries of a map, and returns how many there are.
fn fill(
    reader: Reader<'_>,
    map: ValuePlace,
    after: Option<i64>,
    entries: &mut [Entry],
) -> Result<usize, Code>
    ensures fills { WhereMap reader.entry.view.bytes.now (types_in reader.entry) map
        (λ U keys vs blocks. IfOk result (λ count.
        FillsEntries reader.entry.view.bytes.now (types_in reader.entry) map U keys
        (keys_after keys after) entries.old entries.new count)) }
    ensures other { has_keys (form_at (types_in reader.entry) map.type_id) ≡ false →
        result ≡ Err Code.OtherType }
    ensures some { IfErr result
        (λ _. has_keys (form_at (types_in reader.entry) map.type_id) ≡ false) }
    ensures unwritten { OnErr result (entries.new ≡ entries.old) }
{
    let mut found = match after {
        Some(after) => reader.entries_above(map, after)?,
        None => reader.entries(map)?,
    };
    let mut count = 0;
    while count < entries.len() {
        let Some((key, value)) = found.next() else {
            break;
        };
        entries[count] = Entry {
            key,
            value: Place::from(value),
        };
        count += 1;
    }
    Ok(count)
}
