ghost use Rattle.std.specs.Prelude.{◌≡◌, ◌≢◌, ◌<◌};
ghost use Rattle.lezgauri_c.specs.Changes.{type_number, GivesPlace, IsFound, IsStillSound};
ghost use Rattle.lezgauri_c.specs.ImageChanges.{Constructs, FindsOrConstructs, DestroysNamed};
ghost use Rattle.lezgauri_c.specs.Memory.{memory_of};
ghost use Rattle.lezgauri_c.specs.Values.{table_in, OnSound};

use crate::changing::{found, give, on_image, type_number};
use crate::kept_types::KeptTypes;
use crate::lent::Lent;
use crate::place::Place;
use std::alloc::Global;

/// Makes an object of `count` default values in an image that an earlier call found sound, or changed, and gives the place of the first
/// one. Fails as `Image::construct` does; then no object changes.
#[unsafe(no_mangle)]
pub extern "C" fn lezgauri_raw_construct(
    alloc: Global,
    image: &mut Lent,
    types: &mut KeptTypes,
    name: &[u8],
    type_id: u32,
    count: u32,
    place: &mut Place,
) -> u32
    ensures constructs { GivesPlace image.old.bytes image.new.bytes types.old result
        place.old place.new (Constructs name.now (type_number type_id) count) }
    ensures sound { OnSound image.old.bytes types.old
        (λ _. IsStillSound image.old.bytes image.new.bytes) }
    ensures kept { 0 < result → result ≢ 112 → OnSound image.old.bytes types.old
        (λ _. image.new.bytes ≡ image.old.bytes) }
    ensures unwritten { 0 < result → place.new ≡ place.old }
    ensures home { memory_of image.new ≡ memory_of image.old }
    ensures same { table_in types.new ≡ table_in types.old }
{
    let t = type_number(type_id);
    let made = on_image!(alloc, image, types, opened => opened.image.construct(name, t, count));
    give(made, place)
}

/// Gives the place of the first value of the object with this name. A missing object is made with one default value. Fails as
/// `Image::find_or_construct` does; then no object changes.
#[unsafe(no_mangle)]
pub extern "C" fn lezgauri_raw_find_or_construct(
    alloc: Global,
    image: &mut Lent,
    types: &mut KeptTypes,
    name: &[u8],
    type_id: u32,
    place: &mut Place,
) -> u32
    ensures finds { GivesPlace image.old.bytes image.new.bytes types.old result place.old place.new
        (FindsOrConstructs name.now (type_number type_id)) }
    ensures sound { OnSound image.old.bytes types.old
        (λ _. IsStillSound image.old.bytes image.new.bytes) }
    ensures kept { 0 < result → result ≢ 112 → OnSound image.old.bytes types.old
        (λ _. image.new.bytes ≡ image.old.bytes) }
    ensures unwritten { 0 < result → place.new ≡ place.old }
    ensures home { memory_of image.new ≡ memory_of image.old }
    ensures same { table_in types.new ≡ table_in types.old }
{
    let t = type_number(type_id);
    let made = on_image!(alloc, image, types, opened => opened.image.find_or_construct(name, t));
    give(made, place)
}

/// Destroys the object with this name, and everything that its values own. Returns the status for `Absent` if no object has
/// this name and type.
#[unsafe(no_mangle)]
pub extern "C" fn lezgauri_raw_destroy(
    alloc: Global,
    image: &mut Lent,
    types: &mut KeptTypes,
    name: &[u8],
    type_id: u32,
) -> u32
    ensures destroys { IsFound image.old.bytes image.new.bytes types.old result
        (DestroysNamed name.now (type_number type_id)) }
    ensures sound { OnSound image.old.bytes types.old
        (λ _. IsStillSound image.old.bytes image.new.bytes) }
    ensures kept { 0 < result → image.new.bytes ≡ image.old.bytes }
    ensures home { memory_of image.new ≡ memory_of image.old }
    ensures same { table_in types.new ≡ table_in types.old }
{
    let t = type_number(type_id);
    found(on_image!(alloc, image, types, opened => opened.image.destroy(name, t)))
}
