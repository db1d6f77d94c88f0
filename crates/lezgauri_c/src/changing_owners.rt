ghost use Rattle.std.specs.Prelude.{◌≡◌, ◌<◌};
ghost use Rattle.lezgauri_c.specs.Changes.{place_at, GivesPlace, IsDone, StaysSound, StaysSoundFrom};
ghost use Rattle.lezgauri_c.specs.ImageChanges.{PutsContent, FreezesInto, Shares};
ghost use Rattle.lezgauri_c.specs.Memory.{memory_of};
ghost use Rattle.lezgauri_c.specs.Values.{table_in};

use crate::changing::{done, give, on_image, place_at};
use crate::kept_types::KeptTypes;
use crate::lent::Lent;
use crate::place::Place;
use std::alloc::Global;

/// Makes a new object with a default value for the own at a place of an image that an earlier call found sound, or changed. The own's
/// previous object is destroyed. Fails as `Image::put_content` does; then nothing changes.
#[unsafe(no_mangle)]
pub extern "C" fn lezgauri_raw_put_content(
    alloc: Global,
    image: &mut Lent,
    types: &mut KeptTypes,
    at: u32,
    type_id: u32,
    content: &mut Place,
) -> u32
    ensures puts { GivesPlace image.old.bytes image.new.bytes types.old result
        content.old content.new (PutsContent (place_at at type_id)) }
    ensures sound { StaysSound image.old.bytes image.new.bytes types.old (place_at at type_id) }
    ensures unwritten { 0 < result → content.new ≡ content.old }
    ensures home { memory_of image.new ≡ memory_of image.old }
    ensures same { table_in types.new ≡ table_in types.old }
{
    let own = place_at(at, type_id);
    let put = on_image!(alloc, image, types, opened => opened.image.put_content(own));
    give(put, content)
}

/// Freezes the object of the own at a place, and makes the shared cell at the other place point to it. Fails as `Image::freeze` does;
/// then nothing changes.
#[unsafe(no_mangle)]
pub extern "C" fn lezgauri_raw_freeze(
    alloc: Global,
    image: &mut Lent,
    types: &mut KeptTypes,
    at: u32,
    type_id: u32,
    to_at: u32,
    to_type_id: u32,
) -> u32
    ensures freezes { IsDone image.old.bytes image.new.bytes types.old result
        (FreezesInto (place_at at type_id) (place_at to_at to_type_id)) }
    ensures home { memory_of image.new ≡ memory_of image.old }
    ensures same { table_in types.new ≡ table_in types.old }
{
    let owner = place_at(at, type_id);
    let shared = place_at(to_at, to_type_id);
    done(on_image!(alloc, image, types, opened => opened.image.freeze(owner, shared)))
}

/// Makes the shared cell at the second place point to what the one at the first place points to. Fails as `Image::share` does; then
/// nothing changes.
#[unsafe(no_mangle)]
pub extern "C" fn lezgauri_raw_share(
    alloc: Global,
    image: &mut Lent,
    types: &mut KeptTypes,
    at: u32,
    type_id: u32,
    to_at: u32,
    to_type_id: u32,
) -> u32
    ensures shares { IsDone image.old.bytes image.new.bytes types.old result
        (Shares (place_at to_at to_type_id) (place_at at type_id)) }
    ensures sound { StaysSoundFrom image.old.bytes image.new.bytes types.old (place_at at type_id)
        (place_at to_at to_type_id) }
    ensures home { memory_of image.new ≡ memory_of image.old }
    ensures same { table_in types.new ≡ table_in types.old }
{
    let from = place_at(at, type_id);
    let to = place_at(to_at, to_type_id);
    done(on_image!(alloc, image, types, opened => opened.image.share(to, from)))
}
