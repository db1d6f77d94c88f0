ghost use Rattle.std.specs.Prelude.{◌≡◌};
ghost use Rattle.lezgauri_c.specs.Changes.{place_at, IsDone, StaysSound};
ghost use Rattle.lezgauri_c.specs.ImageChanges.{Clears, ShrinksBuffer};
ghost use Rattle.lezgauri_c.specs.Memory.{memory_of};
ghost use Rattle.lezgauri_c.specs.Values.{table_in};

use crate::changing::{done, on_image, place_at};
use crate::kept_types::KeptTypes;
use crate::lent::Lent;
use std::alloc::Global;

/// Makes the value at a place of an image that an earlier call found sound, or changed, the default of its type. Frees everything that
/// it owns, and each frozen object that no other cell points to. Fails as `Image::clear` does; then nothing changes.
#[unsafe(no_mangle)]
pub extern "C" fn lezgauri_raw_clear(
    alloc: Global,
    image: &mut Lent,
    types: &mut KeptTypes,
    at: u32,
    type_id: u32,
) -> u32
    ensures clears { IsDone image.old.bytes image.new.bytes types.old result
        (Clears (place_at at type_id)) }
    ensures sound { StaysSound image.old.bytes image.new.bytes types.old (place_at at type_id) }
    ensures home { memory_of image.new ≡ memory_of image.old }
    ensures same { table_in types.new ≡ table_in types.old }
{
    let value = place_at(at, type_id);
    done(on_image!(alloc, image, types, opened => opened.image.clear(value)))
}

/// Frees what the string, vector or flat map at a place doesn't use of its buffer. Fails as `Image::shrink_to_fit` does; then nothing
/// changes.
#[unsafe(no_mangle)]
pub extern "C" fn lezgauri_raw_shrink_to_fit(
    alloc: Global,
    image: &mut Lent,
    types: &mut KeptTypes,
    at: u32,
    type_id: u32,
) -> u32
    ensures shrinks { IsDone image.old.bytes image.new.bytes types.old result
        (ShrinksBuffer (place_at at type_id)) }
    ensures sound { StaysSound image.old.bytes image.new.bytes types.old (place_at at type_id) }
    ensures home { memory_of image.new ≡ memory_of image.old }
    ensures same { table_in types.new ≡ table_in types.old }
{
    let container = place_at(at, type_id);
    done(on_image!(alloc, image, types, opened => opened.image.shrink_to_fit(container)))
}
