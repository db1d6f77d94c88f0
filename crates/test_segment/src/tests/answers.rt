//! What calls return, in the form in which it is written in the texts of calls.

use seg_image::{Code, Place};

/// What a call returned. The word is a code, `no` for false, and empty for true and for a call without a result.
#[derive(Clone, Copy, PartialEq)]
pub(crate) enum Answer {
    Word(&'static str),
    Number(i64),
    Place(Place),
}

impl Answer {
    /// The word, and the number or the position of the place.
    pub(crate) fn parts(self) -> (&'static str, i64) {
        match self {
            Answer::Word(word) => (word, 0),
            Answer::Number(number) => ("number", number),
            Answer::Place(place) => ("place", i64::from(place.at)),
        }
    }
}

pub(crate) fn done(found: Result<(), Code>) -> Answer {
    match found {
        Ok(()) => Answer::Word(""),
        Err(code) => refusal(code),
    }
}

pub(crate) fn place(found: Result<Place, Code>) -> Answer {
    match found {
        Ok(place) => Answer::Place(place),
        Err(code) => refusal(code),
    }
}

pub(crate) fn number(found: Result<i64, Code>) -> Answer {
    match found {
        Ok(number) => Answer::Number(number),
        Err(code) => refusal(code),
    }
}

pub(crate) fn size(found: Result<u32, Code>) -> Answer {
    match found {
        Ok(size) => size_of(size),
        Err(code) => refusal(code),
    }
}

/// A size, a position, or a length.
pub(crate) fn size_of(size: u32) -> Answer {
    Answer::Number(i64::from(size))
}

/// The number of types or of objects.
pub(crate) fn count(count: usize) -> Answer {
    Answer::Number(i64::try_from(count).unwrap_or(i64::MAX))
}

pub(crate) fn flag(holds: bool) -> Answer {
    Answer::Word(if holds { "" } else { "no" })
}

pub(crate) fn flag_or_code(found: Result<bool, Code>) -> Answer {
    match found {
        Ok(holds) => flag(holds),
        Err(code) => refusal(code),
    }
}

fn refusal(code: Code) -> Answer {
    Answer::Word(match code {
        Code::AlreadyExists => "exists",
        Code::BadAlloc => "memory",
        Code::Absent => "absent",
        Code::OtherType => "type",
        Code::OutOfRange => "range",
        Code::Null => "null",
        Code::NumbersUsedUp => "numbers",
    })
}
