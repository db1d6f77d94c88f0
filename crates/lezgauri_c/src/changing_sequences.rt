ghost use Rattle.std.specs.Prelude.{◌≡◌, ◌<◌, ◌≤◌, length};
ghost use Rattle.seg_seq.specs.Kinds.{HasNumbers};
ghost use Rattle.lezgauri_c.specs.Changes.{place_at, type_number, GivesPlace, GivesCount, IsDone, StaysSound};
ghost use Rattle.lezgauri_c.specs.ImageChanges.{Assigns, Appends, PushesItemBack, PushesItemFront, PushesItems, PopsItem, PopsItemFront};
ghost use Rattle.lezgauri_c.specs.Memory.{memory_of};
ghost use Rattle.lezgauri_c.specs.Values.{table_in, OnSound};

use crate::changing::{done, give, give_count, on_image, place_at};
use crate::kept_types::KeptTypes;
use crate::lent::Lent;
use crate::place::Place;
use lezgauri::{Image, StoppedAt};
use seg_value::Place as ValuePlace;
use std::alloc::Global;
use std_alloc::vec::Lodged;

/// Replaces the bytes of the string at a place of an image that an earlier call found sound, or changed. Fails as `Image::assign` does;
/// then nothing changes.
#[unsafe(no_mangle)]
pub extern "C" fn lezgauri_raw_assign(
    alloc: Global,
    image: &mut Lent,
    types: &mut KeptTypes,
    at: u32,
    type_id: u32,
    bytes: &[u8],
) -> u32
    ensures assigns { IsDone image.old.bytes image.new.bytes types.old result
        (Assigns (place_at at type_id) bytes.now) }
    ensures sound { StaysSound image.old.bytes image.new.bytes types.old (place_at at type_id) }
    ensures home { memory_of image.new ≡ memory_of image.old }
    ensures same { table_in types.new ≡ table_in types.old }
{
    let string = place_at(at, type_id);
    done(on_image!(alloc, image, types, opened => opened.image.assign(string, bytes)))
}

/// Appends bytes to the string at a place. Fails as `lezgauri_raw_assign` does.
#[unsafe(no_mangle)]
pub extern "C" fn lezgauri_raw_append(
    alloc: Global,
    image: &mut Lent,
    types: &mut KeptTypes,
    at: u32,
    type_id: u32,
    bytes: &[u8],
) -> u32
    ensures appends { IsDone image.old.bytes image.new.bytes types.old result
        (Appends (place_at at type_id) bytes.now) }
    ensures sound { StaysSound image.old.bytes image.new.bytes types.old (place_at at type_id) }
    ensures home { memory_of image.new ≡ memory_of image.old }
    ensures same { table_in types.new ≡ table_in types.old }
{
    let string = place_at(at, type_id);
    done(on_image!(alloc, image, types, opened => opened.image.append(string, bytes)))
}

/// Adds a default item at the end of the vector or list at a place, and gives the item's place. Fails as `Image::push_back` does; then
/// nothing changes.
#[unsafe(no_mangle)]
pub extern "C" fn lezgauri_raw_push_back(
    alloc: Global,
    image: &mut Lent,
    types: &mut KeptTypes,
    at: u32,
    type_id: u32,
    item: &mut Place,
) -> u32
    ensures pushes { GivesPlace image.old.bytes image.new.bytes types.old result item.old item.new
        (PushesItemBack (place_at at type_id)) }
    ensures sound { StaysSound image.old.bytes image.new.bytes types.old (place_at at type_id) }
    ensures unwritten { 0 < result → item.new ≡ item.old }
    ensures home { memory_of image.new ≡ memory_of image.old }
    ensures same { table_in types.new ≡ table_in types.old }
{
    let sequence = place_at(at, type_id);
    let pushed = on_image!(alloc, image, types, opened => opened.image.push_back(sequence));
    give(pushed, item)
}

/// Adds numbers at the end of the vector of numbers at a place, one after another, and gives how many were added. If there is no room
/// for one of them, those before it stay. Returns the status for `OtherType` if the place isn't a vector of numbers; then nothing
/// changes.
#[unsafe(no_mangle)]
pub extern "C" fn lezgauri_raw_push_numbers(
    alloc: Global,
    image: &mut Lent,
    types: &mut KeptTypes,
    at: u32,
    type_id: u32,
    numbers: &[i64],
    pushed: &mut usize,
) -> u32
    ensures pushes { GivesCount image.old.bytes image.new.bytes types.old result pushed.new
        (length numbers.now) (PushesItems (place_at at type_id) numbers.now) }
    ensures other { OnSound image.old.bytes types.old (λ picture.
        ¬ HasNumbers picture.table (type_number type_id) →
        (result ≡ 114) × (pushed.new ≡ 0) × (image.new.bytes ≡ image.old.bytes)) }
    ensures all { result ≡ 0 → pushed.new ≡ length numbers.now }
    ensures none { (0 < result) × (result ≤ 100) → pushed.new ≡ 0 }
    ensures sound { StaysSound image.old.bytes image.new.bytes types.old (place_at at type_id) }
    ensures home { memory_of image.new ≡ memory_of image.old }
    ensures same { table_in types.new ≡ table_in types.old }
{
    *pushed = 0;
    let vector = place_at(at, type_id);
    let returned =
        on_image!(alloc, image, types, opened => push_numbers(&mut opened.image, vector, numbers));
    give_count(returned, numbers.len(), pushed)
}

/// Adds numbers at the end of the vector of numbers at a place.
fn push_numbers(
    image: &mut Image<Lodged>,
    place: ValuePlace,
    numbers: &[i64],
) -> Result<(), StoppedAt>
    ensures { PushesItems place numbers.now image.old image.new result }
{
    match image.numbers(place) {
        Ok(vector) => image.push_numbers(vector, numbers),
        Err(code) => Err(StoppedAt { done: 0, code }),
    }
}

/// Adds a default item at the front of the list at a place, and gives the item's place. Fails as `Image::push_front` does; then nothing
/// changes.
#[unsafe(no_mangle)]
pub extern "C" fn lezgauri_raw_push_front(
    alloc: Global,
    image: &mut Lent,
    types: &mut KeptTypes,
    at: u32,
    type_id: u32,
    item: &mut Place,
) -> u32
    ensures pushes { GivesPlace image.old.bytes image.new.bytes types.old result item.old item.new
        (PushesItemFront (place_at at type_id)) }
    ensures sound { StaysSound image.old.bytes image.new.bytes types.old (place_at at type_id) }
    ensures unwritten { 0 < result → item.new ≡ item.old }
    ensures home { memory_of image.new ≡ memory_of image.old }
    ensures same { table_in types.new ≡ table_in types.old }
{
    let list = place_at(at, type_id);
    let pushed = on_image!(alloc, image, types, opened => opened.image.push_front(list));
    give(pushed, item)
}

/// Destroys the last item of the vector or list at a place, or drops the last byte of a string. Fails as `Image::pop_back` does; then
/// nothing changes.
#[unsafe(no_mangle)]
pub extern "C" fn lezgauri_raw_pop_back(
    alloc: Global,
    image: &mut Lent,
    types: &mut KeptTypes,
    at: u32,
    type_id: u32,
) -> u32
    ensures pops { IsDone image.old.bytes image.new.bytes types.old result
        (PopsItem (place_at at type_id)) }
    ensures sound { StaysSound image.old.bytes image.new.bytes types.old (place_at at type_id) }
    ensures home { memory_of image.new ≡ memory_of image.old }
    ensures same { table_in types.new ≡ table_in types.old }
{
    let sequence = place_at(at, type_id);
    done(on_image!(alloc, image, types, opened => opened.image.pop_back(sequence)))
}

/// Destroys the first item of the list at a place. Fails as `Image::pop_front` does; then nothing changes.
#[unsafe(no_mangle)]
pub extern "C" fn lezgauri_raw_pop_front(
    alloc: Global,
    image: &mut Lent,
    types: &mut KeptTypes,
    at: u32,
    type_id: u32,
) -> u32
    ensures pops { IsDone image.old.bytes image.new.bytes types.old result
        (PopsItemFront (place_at at type_id)) }
    ensures sound { StaysSound image.old.bytes image.new.bytes types.old (place_at at type_id) }
    ensures home { memory_of image.new ≡ memory_of image.old }
    ensures same { table_in types.new ≡ table_in types.old }
{
    let list = place_at(at, type_id);
    done(on_image!(alloc, image, types, opened => opened.image.pop_front(list)))
}
