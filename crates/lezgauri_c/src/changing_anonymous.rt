ghost use Rattle.std.specs.Prelude.{◌≡◌, ◌<◌};
ghost use Rattle.lezgauri_c.specs.Changes.{type_number, GivesPlace, IsAnswered};
ghost use Rattle.lezgauri_c.specs.ImageChanges.{ConstructsAnonymous, DestroysAnonymous};
ghost use Rattle.lezgauri_c.specs.Memory.{memory_of};
ghost use Rattle.lezgauri_c.specs.Values.{table_in};

use crate::changing::{give, on_image, place_at, type_number};
use crate::kept_types::KeptTypes;
use crate::lent::Lent;
use crate::place::Place;
use crate::status::OK;
use std::alloc::Global;

/// Makes an object without a name in an image that an earlier call found sound, or changed, and gives the place of its value. The image
/// isn't sound until the object is destroyed. Fails as `Image::construct_anonymous` does; then nothing changes.
#[unsafe(no_mangle)]
pub extern "C" fn lezgauri_raw_construct_anonymous(
    alloc: Global,
    image: &mut Lent,
    types: &mut KeptTypes,
    type_id: u32,
    place: &mut Place,
) -> u32
    ensures constructs { GivesPlace image.old.bytes image.new.bytes types.old result
        place.old place.new (ConstructsAnonymous (type_number type_id)) }
    ensures unwritten { 0 < result → place.new ≡ place.old }
    ensures home { memory_of image.new ≡ memory_of image.old }
    ensures same { table_in types.new ≡ table_in types.old }
{
    let t = type_number(type_id);
    let made = on_image!(alloc, image, types, opened => opened.image.construct_anonymous(t));
    give(made, place)
}

/// Destroys the object without a name at a position, and everything that it owns.
#[unsafe(no_mangle)]
pub extern "C" fn lezgauri_raw_destroy_anonymous(
    alloc: Global,
    image: &mut Lent,
    types: &mut KeptTypes,
    at: u32,
) -> u32
    ensures destroys { IsAnswered image.old.bytes image.new.bytes types.old result
        (DestroysAnonymous at) }
    ensures home { memory_of image.new ≡ memory_of image.old }
    ensures same { table_in types.new ≡ table_in types.old }
{
    // An object's type is in its block, and the call doesn't read the place's type.
    let object = place_at(at, 0);
    on_image!(alloc, image, types, opened => opened.image.destroy_anonymous(object));
    OK
}
