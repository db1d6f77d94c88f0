ghost use Rattle.std.specs.Prelude.{◌≡◌, ◌⊎◌, ◌<◌, ◌≤◌};
ghost use Rattle.lezgauri_c.specs.Places as places;
ghost use Rattle.lezgauri_c.specs.Places.{TellsPlace, TellsEntry};

use crate::status::{OK, code_status};
use seg_raw::Code;
use seg_value::{Place as ValuePlace, TypeId};

/// The place of a value in a segment, as calls return it.
#[repr(C)]
#[derive(Debug, Clone, Copy, PartialEq, Eq)]
pub struct Place {
    /// In bytes from the image's start.
    pub at: u32,
    /// The number of the value's type.
    pub type_id: u32,
}

impl From<ValuePlace> for Place {
    ghost use Rattle.lezgauri_c.specs.Places.{told_place};

    ghost from_gives = { λ place told. told ≡ told_place place };

    fn from(place: ValuePlace) -> Place {
        Place {
            at: place.at,
            type_id: u32::from(place.type_id),
        }
    }
}

/// The type with this number. Segments have at most 32 types, so no segment has a type with a number above 254.
pub(crate) fn type_number(number: u32) -> TypeId
    ensures { result ≡ places.type_number number }
{
    match u8::try_from(number) {
        Ok(t) => t,
        Err(_) => u8::MAX,
    }
}

/// The place of a value, from its numbers.
pub(crate) fn place_at(at: u32, type_id: u32) -> ValuePlace
    ensures { result ≡ places.place_at at type_id }
{
    ValuePlace {
        at,
        type_id: type_number(type_id),
    }
}

/// Gives the caller the place that a call returned, and returns `OK`, or returns the status for a code.
pub(crate) fn give(returned: Result<ValuePlace, Code>, place: &mut Place) -> u32
    ensures told { TellsPlace result place.old place.new returned }
    ensures number { 0 < result → 110 < result }
    ensures unwritten { 0 < result → place.new ≡ place.old }
    ensures status { (result ≡ 0) ⊎ ((111 ≤ result) × (result ≤ 117)) }
{
    match returned {
        Ok(found) => {
            *place = Place::from(found);
            OK
        }
        Err(code) => code_status(code),
    }
}

/// Gives the caller the key and the place that a call returned, and returns `OK`, or returns the status for a code.
pub(crate) fn give_entry(
    returned: Result<(i64, ValuePlace), Code>,
    key: &mut i64,
    place: &mut Place,
) -> u32
    ensures told { TellsEntry result key.new place.new returned }
    ensures number { 0 < result → 110 < result }
    ensures unwritten { 0 < result → (key.new ≡ key.old) × (place.new ≡ place.old) }
    ensures status { (result ≡ 0) ⊎ ((111 ≤ result) × (result ≤ 117)) }
{
    match returned {
        Ok((found, value)) => {
            *key = found;
            *place = Place::from(value);
            OK
        }
        Err(code) => code_status(code),
    }
}
