ghost use Rattle.std.specs.Prelude.{◌≡◌, ◌<◌};
ghost use Rattle.lezgauri_c.specs.Changes.{type_number, GivesPlace, IsFound, IsStillSound};
ghost use Rattle.lezgauri_c.specs.ImageChanges.{ConstructsUnique, FindsOrConstructsUnique, DestroysUnique};
ghost use Rattle.lezgauri_c.specs.Memory.{memory_of};
ghost use Rattle.lezgauri_c.specs.Values.{table_in, OnSound};

use crate::changing::{found, give, on_image, type_number};
use crate::kept_types::KeptTypes;
use crate::lent::Lent;
use crate::place::Place;
use std::alloc::Global;

/// Makes the unique object of a type, with its default value, in an image that an earlier call found sound, or changed. Fails as
/// `Image::construct_unique` does; then nothing changes.
#[unsafe(no_mangle)]
pub extern "C" fn lezgauri_raw_construct_unique(
    alloc: Global,
    image: &mut Lent,
    types: &mut KeptTypes,
    type_id: u32,
    place: &mut Place,
) -> u32
    ensures constructs { GivesPlace image.old.bytes image.new.bytes types.old result
        place.old place.new (ConstructsUnique (type_number type_id)) }
    ensures sound { OnSound image.old.bytes types.old
        (λ _. IsStillSound image.old.bytes image.new.bytes) }
    ensures kept { 0 < result → OnSound image.old.bytes types.old
        (λ _. image.new.bytes ≡ image.old.bytes) }
    ensures unwritten { 0 < result → place.new ≡ place.old }
    ensures home { memory_of image.new ≡ memory_of image.old }
    ensures same { table_in types.new ≡ table_in types.old }
{
    let t = type_number(type_id);
    let made = on_image!(alloc, image, types, opened => opened.image.construct_unique(t));
    give(made, place)
}

/// Gives the place of the unique object of a type, which is made if it doesn't exist. Fails as `lezgauri_raw_construct_unique` does, but
/// not with `AlreadyExists`.
#[unsafe(no_mangle)]
pub extern "C" fn lezgauri_raw_find_or_construct_unique(
    alloc: Global,
    image: &mut Lent,
    types: &mut KeptTypes,
    type_id: u32,
    place: &mut Place,
) -> u32
    ensures finds { GivesPlace image.old.bytes image.new.bytes types.old result place.old place.new
        (FindsOrConstructsUnique (type_number type_id)) }
    ensures sound { OnSound image.old.bytes types.old
        (λ _. IsStillSound image.old.bytes image.new.bytes) }
    ensures kept { 0 < result → OnSound image.old.bytes types.old
        (λ _. image.new.bytes ≡ image.old.bytes) }
    ensures unwritten { 0 < result → place.new ≡ place.old }
    ensures home { memory_of image.new ≡ memory_of image.old }
    ensures same { table_in types.new ≡ table_in types.old }
{
    let t = type_number(type_id);
    let made = on_image!(alloc, image, types, opened => opened.image.find_or_construct_unique(t));
    give(made, place)
}

/// Destroys the unique object of a type, and everything that it owns. Returns the status for `Absent` if it doesn't exist.
#[unsafe(no_mangle)]
pub extern "C" fn lezgauri_raw_destroy_unique(
    alloc: Global,
    image: &mut Lent,
    types: &mut KeptTypes,
    type_id: u32,
) -> u32
    ensures destroys { IsFound image.old.bytes image.new.bytes types.old result
        (DestroysUnique (type_number type_id)) }
    ensures sound { OnSound image.old.bytes types.old
        (λ _. IsStillSound image.old.bytes image.new.bytes) }
    ensures kept { 0 < result → image.new.bytes ≡ image.old.bytes }
    ensures home { memory_of image.new ≡ memory_of image.old }
    ensures same { table_in types.new ≡ table_in types.old }
{
    let t = type_number(type_id);
    found(on_image!(alloc, image, types, opened => opened.image.destroy_unique(t)))
}
