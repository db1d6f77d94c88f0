//! Paths to values, for example `users[3].0`: an object and steps into it.

use crate::door::{
    content_of, count_of, entry_of, field_of, frozen_of, item_of, kind_of, named_value, size_of,
    unique_value,
};
use lezgauri::{Image, Place, Type, TypeId};
use std::alloc::Global;
use std::str;

/// A step from a value to a value in it.
#[derive(Clone, Copy)]
pub(crate) enum Step {
    /// `[N]`: the item with this index, or the value of this key.
    Index(i64),
    /// `.N`: a field of a struct.
    Field(u32),
    /// `.content`: the object of an own, or the one to which a shared cell points.
    Content,
}

/// The object at the beginning of a path, and the steps after it.
#[derive(Clone, Copy)]
pub(crate) struct Start<'a> {
    pub(crate) first: Place,
    /// The number of its values.
    pub(crate) count: u32,
    pub(crate) steps: &'a [u8],
}

/// The end of a path: its last step goes from `place`. There is no last step if the path is an object, or one of its values.
#[derive(Clone, Copy)]
pub(crate) struct Target {
    pub(crate) place: Place,
    pub(crate) last: Option<Step>,
    /// Whether a step before the last one is from a shared cell.
    pub(crate) frozen: bool,
}

/// The object at the beginning of a path. A name may have dots and brackets, so it is the longest beginning that is one.
pub(crate) fn start_of<'a>(image: &Image<Global>, path: &'a [u8]) -> Option<Start<'a>> {
    for left in 0..path.len() {
        let (object, steps) = path.split_at_checked(path.len() - left)?;
        if begins_step(steps) {
            if let Some((first, count)) = object_at(image, object) {
                return Some(Start {
                    first,
                    count,
                    steps,
                });
            }
        }
    }
    None
}

/// Whether these bytes are the end of a path, or may begin a step.
fn begins_step(steps: &[u8]) -> bool {
    matches!(steps, [] | [b'.' | b'[', ..])
}

/// The first value and the number of values of a named object, or of a unique one: `unique tT`.
fn object_at(image: &Image<Global>, object: &[u8]) -> Option<(Place, u32)> {
    match named_value(image, object) {
        Some(found) => Some(found),
        None => Some((unique_value(image, unique_type(object)?)?, 1)),
    }
}

/// The type in `unique tT`.
pub(crate) fn unique_type(object: &[u8]) -> Option<TypeId> {
    let digits = object.strip_prefix(b"unique t".as_slice())?;
    u8::try_from(number(digits)?).ok()
}

/// The number that these bytes spell.
pub(crate) fn number(digits: &[u8]) -> Option<i64> {
    str::from_utf8(digits).ok()?.parse().ok()
}

/// The end of a path. `None` if the value from which its last step goes doesn't exist.
pub(crate) fn target_of(image: &Image<Global>, path: &[u8]) -> Option<Target> {
    let (place, mut steps) = first_value(image, start_of(image, path)?)?;
    let mut target = Target {
        place,
        last: None,
        frozen: false,
    };
    for _ in 0..path.len() {
        if steps.is_empty() {
            break;
        }
        target = after_last(image, target)?;
        let (step, following) = first_step(steps)?;
        target.last = Some(step);
        steps = following;
    }
    steps.is_empty().then_some(target)
}

/// The value of a path.
pub(crate) fn value_at(image: &Image<Global>, path: &[u8]) -> Option<Place> {
    let target = after_last(image, target_of(image, path)?)?;
    Some(target.place)
}

/// A target after its last step.
fn after_last(image: &Image<Global>, target: Target) -> Option<Target> {
    let Some(step) = target.last else {
        return Some(target);
    };
    Some(Target {
        place: part_of(image, target.place, step)?,
        last: None,
        frozen: target.frozen || is_shared(image, target.place),
    })
}

/// Whether a value is a shared cell.
pub(crate) fn is_shared(image: &Image<Global>, place: Place) -> bool {
    matches!(kind_of(image, place), Some(Type::Shared(_)))
}

/// The value from which the steps of a path go, and the steps. If the object has several values, the first step is the index of
/// one.
fn first_value<'a>(image: &Image<Global>, start: Start<'a>) -> Option<(Place, &'a [u8])> {
    if start.count == 1 {
        return Some((start.first, start.steps));
    }
    let (step, steps) = first_step(start.steps)?;
    let Step::Index(index) = step else {
        return None;
    };
    let place = value_of(image, start, u32::try_from(index).ok()?)?;
    Some((place, steps))
}

/// The value of an object with this index.
pub(crate) fn value_of(image: &Image<Global>, start: Start, index: u32) -> Option<Place> {
    if index >= start.count {
        return None;
    }
    let from = index.saturating_mul(size_of(image, start.first));
    Some(Place {
        at: start.first.at.saturating_add(from),
        type_id: start.first.type_id,
    })
}

/// The first of these steps, and the others.
fn first_step(steps: &[u8]) -> Option<(Step, &[u8])> {
    match steps {
        [b'[', rest @ ..] => {
            let (digits, rest) = split(rest, b']')?;
            Some((Step::Index(number(digits)?), rest))
        }
        [b'.', rest @ ..] => {
            let (word, rest) = rest.split_at_checked(word_len(rest))?;
            Some((named_step(word)?, rest))
        }
        _ => None,
    }
}

/// The step that is a word after a dot.
fn named_step(word: &[u8]) -> Option<Step> {
    if word == b"content".as_slice() {
        return Some(Step::Content);
    }
    let index = u32::try_from(number(word)?).ok()?;
    Some(Step::Field(index))
}

/// The bytes before the first of these bytes, and those after it.
pub(crate) fn split(bytes: &[u8], end: u8) -> Option<(&[u8], &[u8])> {
    for (index, byte) in bytes.iter().enumerate() {
        if *byte == end {
            let (before, rest) = bytes.split_at_checked(index)?;
            return Some((before, rest.get(1..)?));
        }
    }
    None
}

/// The length of the word that begins these bytes: to the next step or the end.
fn word_len(bytes: &[u8]) -> usize {
    for (index, byte) in bytes.iter().enumerate() {
        if matches!(byte, b'.' | b'[') {
            return index;
        }
    }
    bytes.len()
}

/// The value that a step selects.
pub(crate) fn part_of(image: &Image<Global>, place: Place, step: Step) -> Option<Place> {
    match step {
        Step::Index(index) => item_or_entry(image, place, index),
        Step::Field(index) => field_of(image, place, index),
        Step::Content => match kind_of(image, place)? {
            Type::Shared(_) => frozen_of(image, place),
            _ => content_of(image, place),
        },
    }
}

/// The item with this index, or the value of this key.
fn item_or_entry(image: &Image<Global>, place: Place, index: i64) -> Option<Place> {
    match kind_of(image, place)? {
        Type::FlatMap(_) | Type::Map(_) => entry_of(image, place, index),
        _ => item_of(image, place, u32::try_from(index).ok()?),
    }
}

/// Whether a step goes to the place after the last item of a vector or a list.
pub(crate) fn is_next(image: &Image<Global>, place: Place, index: i64) -> bool {
    match kind_of(image, place) {
        Some(Type::Vec(_) | Type::List(_)) => i64::from(count_of(image, place)) == index,
        _ => false,
    }
}
