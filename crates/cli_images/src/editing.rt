//! Changes of single values, by their paths.

use crate::door::{
    assign, content_of, destroyed, kind_of, named_value, pushed, put, put_content, removed, store,
    unique_destroyed,
};
use crate::paths::{
    Step, Target, is_next, is_shared, number, part_of, start_of, target_of, unique_type,
};
use crate::spelling::unspelled;
use cli_program::Failure;
use lezgauri::{Code, Image, Place, Type};
use std::alloc::{AllocError, Global};

/// Why a value isn't changed.
#[derive(Clone, Copy)]
pub(crate) enum Unset {
    /// The program is out of memory.
    Memory,
    /// No free block of the segment is large enough.
    Full,
    /// No value has the path.
    Absent,
    /// The value is in a frozen object.
    Frozen,
    /// The value is neither a number nor a text.
    NotPlain,
    /// The value is a number, and the argument isn't.
    NotNumber,
    /// The value is a text, and the argument spells none.
    NotText,
    /// The path is neither an object nor a key.
    NotKey,
}

impl Unset {
    /// The failure of a command that was to change the value with this path.
    pub(crate) fn failure(self, alloc: Global, path: &str) -> Failure<'_> {
        let reason = match self {
            Unset::Memory => return Failure::from(AllocError),
            Unset::Full => return Failure::Full(path),
            Unset::Absent => return Failure::Absent(path),
            Unset::Frozen => "a frozen object never changes",
            Unset::NotPlain => "only a number or a text can be set: add a step to the path",
            Unset::NotNumber => "the value there is a number, from -2^63 to 2^63 - 1",
            Unset::NotText => {
                "in a text two hexadecimal digits follow each `\\`: it is written `\\5c` itself"
            }
            Unset::NotKey => "only an object or a key of a map can be deleted",
        };
        match format!(in alloc; "error: {reason}\n") {
            Ok(words) => Failure::Words(words),
            Err(error) => Failure::from(error),
        }
    }
}

impl From<Code> for Unset {
    fn from(code: Code) -> Self {
        match code {
            Code::BadAlloc => Unset::Full,
            _ => Unset::Absent,
        }
    }
}

impl From<AllocError> for Unset {
    fn from(_: AllocError) -> Self {
        Unset::Memory
    }
}

/// Sets the number or the text at a path. A key is added if the map doesn't have it, an item if the index is the next one, and an
/// object if the own has none.
pub(crate) fn set(
    alloc: Global,
    image: &mut Image<Global>,
    path: &[u8],
    value: &[u8],
) -> Result<(), Unset> {
    let target = target_of(image, path).ok_or(Unset::Absent)?;
    let place = place_to_set(image, target)?;
    match kind_of(image, place) {
        Some(Type::I64) => store_number(image, place, value),
        Some(Type::Str) => assign_text(alloc, image, place, value),
        Some(_) | None => Err(Unset::NotPlain),
    }
}

fn store_number(image: &mut Image<Global>, place: Place, value: &[u8]) -> Result<(), Unset> {
    let number = number(value).ok_or(Unset::NotNumber)?;
    Ok(store(image, place, number)?)
}

fn assign_text(
    alloc: Global,
    image: &mut Image<Global>,
    place: Place,
    value: &[u8],
) -> Result<(), Unset> {
    let bytes = unspelled(alloc, value)?.ok_or(Unset::NotText)?;
    Ok(assign(image, place, bytes.as_slice())?)
}

/// The place to set, which the last step may add.
fn place_to_set(image: &mut Image<Global>, target: Target) -> Result<Place, Unset> {
    let Some(step) = target.last else {
        return Ok(target.place);
    };
    if target.frozen || is_shared(image, target.place) {
        return Err(Unset::Frozen);
    }
    match step {
        Step::Index(index) => indexed(image, target.place, index),
        Step::Field(_) => part_of(image, target.place, step).ok_or(Unset::Absent),
        Step::Content => owned(image, target.place),
    }
}

/// The value of a key, or an item. It may be a new one.
fn indexed(image: &mut Image<Global>, place: Place, index: i64) -> Result<Place, Unset> {
    if is_map(image, place) {
        return Ok(put(image, place, index)?);
    }
    if is_next(image, place, index) {
        return Ok(pushed(image, place)?);
    }
    part_of(image, place, Step::Index(index)).ok_or(Unset::Absent)
}

fn is_map(image: &Image<Global>, place: Place) -> bool {
    matches!(kind_of(image, place), Some(Type::FlatMap(_) | Type::Map(_)))
}

/// The object of an own. It may be a new one.
fn owned(image: &mut Image<Global>, own: Place) -> Result<Place, Unset> {
    match content_of(image, own) {
        Some(content) => Ok(content),
        None => Ok(put_content(image, own)?),
    }
}

/// Destroys the object of a path, or removes the key of a map.
pub(crate) fn delete(image: &mut Image<Global>, path: &[u8]) -> Result<(), Unset> {
    if is_object(image, path) {
        return delete_object(image, path);
    }
    let target = target_of(image, path).ok_or(Unset::Absent)?;
    if target.frozen || is_shared(image, target.place) {
        return Err(Unset::Frozen);
    }
    match target.last {
        Some(Step::Index(key)) if is_map(image, target.place) => {
            found(removed(image, target.place, key))
        }
        Some(_) | None => Err(Unset::NotKey),
    }
}

/// Whether a path is an object.
fn is_object(image: &Image<Global>, path: &[u8]) -> bool {
    match start_of(image, path) {
        Some(start) => start.steps.is_empty(),
        None => false,
    }
}

fn delete_object(image: &mut Image<Global>, object: &[u8]) -> Result<(), Unset> {
    if let Some((first, _)) = named_value(image, object) {
        return found(destroyed(image, object, first.type_id));
    }
    let t = unique_type(object).ok_or(Unset::Absent)?;
    found(unique_destroyed(image, t))
}

fn found(was_there: bool) -> Result<(), Unset> {
    if was_there {
        Ok(())
    } else {
        Err(Unset::Absent)
    }
}
