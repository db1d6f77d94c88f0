ghost use Rattle.std.specs.Prelude.{◌≡◌, ◌<◌, ◌≤◌, length};
ghost use Rattle.lezgauri.specs.Places.{HasNumberValues};
ghost use Rattle.lezgauri_c.specs.Changes.{place_at, type_number, GivesCount, GivesPlace, IsFound, StaysSound};
ghost use Rattle.lezgauri_c.specs.ImageChanges.{Puts, PutsEntries, Removes};
ghost use Rattle.lezgauri_c.specs.Memory.{memory_of};
ghost use Rattle.lezgauri_c.specs.Values.{table_in, OnSound};

use crate::changing::{found, give, give_count, on_image, place_at};
use crate::kept_types::KeptTypes;
use crate::lent::Lent;
use crate::place::Place;
use lezgauri::Pair;
use std::alloc::Global;

/// Gives the place of a key's value in the map at a place of an image that an earlier call found sound, or changed. A missing key is
/// added with a default value. Fails as `Image::put` does; then nothing changes.
#[unsafe(no_mangle)]
pub extern "C" fn lezgauri_raw_put(
    alloc: Global,
    image: &mut Lent,
    types: &mut KeptTypes,
    at: u32,
    type_id: u32,
    key: i64,
    value: &mut Place,
) -> u32
    ensures puts { GivesPlace image.old.bytes image.new.bytes types.old result value.old value.new
        (Puts (place_at at type_id) key) }
    ensures sound { StaysSound image.old.bytes image.new.bytes types.old (place_at at type_id) }
    ensures unwritten { 0 < result → value.new ≡ value.old }
    ensures home { memory_of image.new ≡ memory_of image.old }
    ensures same { table_in types.new ≡ table_in types.old }
{
    let map = place_at(at, type_id);
    let put = on_image!(alloc, image, types, opened => opened.image.put(map, key));
    give(put, value)
}

/// Puts keys with their numbers into the map of numbers at a place, one after another, and gives how many were put. A missing key is
/// added, and the number of a key that is there is replaced. If there is no room for one of the keys, those before it stay. Returns the
/// status for `OtherType` if the place isn't a map of numbers; then nothing changes.
#[unsafe(no_mangle)]
pub extern "C" fn lezgauri_raw_put_numbers(
    alloc: Global,
    image: &mut Lent,
    types: &mut KeptTypes,
    at: u32,
    type_id: u32,
    entries: &[Pair],
    put: &mut usize,
) -> u32
    ensures puts { GivesCount image.old.bytes image.new.bytes types.old result put.new
        (length entries.now) (PutsEntries (place_at at type_id) entries.now) }
    ensures other { OnSound image.old.bytes types.old (λ picture.
        ¬ HasNumberValues picture.table (type_number type_id) →
        (result ≡ 114) × (put.new ≡ 0) × (image.new.bytes ≡ image.old.bytes)) }
    ensures all { result ≡ 0 → put.new ≡ length entries.now }
    ensures none { (0 < result) × (result ≤ 100) → put.new ≡ 0 }
    ensures sound { StaysSound image.old.bytes image.new.bytes types.old (place_at at type_id) }
    ensures home { memory_of image.new ≡ memory_of image.old }
    ensures same { table_in types.new ≡ table_in types.old }
{
    *put = 0;
    let map = place_at(at, type_id);
    let returned = on_image!(alloc, image, types, opened => opened.image.put_numbers(map, entries));
    give_count(returned, entries.len(), put)
}

/// Removes a key from the map at a place, and destroys its value. Returns the status for `Absent` if the map doesn't have the key, or
/// if the place isn't a map.
#[unsafe(no_mangle)]
pub extern "C" fn lezgauri_raw_remove(
    alloc: Global,
    image: &mut Lent,
    types: &mut KeptTypes,
    at: u32,
    type_id: u32,
    key: i64,
) -> u32
    ensures removes { IsFound image.old.bytes image.new.bytes types.old result
        (Removes (place_at at type_id) key) }
    ensures sound { StaysSound image.old.bytes image.new.bytes types.old (place_at at type_id) }
    ensures home { memory_of image.new ≡ memory_of image.old }
    ensures same { table_in types.new ≡ table_in types.old }
{
    let map = place_at(at, type_id);
    found(on_image!(alloc, image, types, opened => opened.image.remove(map, key)))
}
