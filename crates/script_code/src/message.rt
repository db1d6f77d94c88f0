//! Errors and warnings in words.

use crate::error::{Error, Warning, WarningKind};
use crate::types::{Shape, TypeAt, Types};
use script_syntax::Span;
use std::{fmt, str};

/// An error in words, for the program with this text and these types.
#[derive(Drop)]
pub struct Message<'m> {
    text: &'m [u8],
    types: &'m Types,
    error: Error,
}

/// A part of the text in a message.
#[derive(Drop)]
pub struct Shown<'m>(&'m [u8]);

/// A type in a message.
#[derive(Drop)]
struct TypeName<'m> {
    text: &'m [u8],
    types: &'m Types,
    at: TypeAt,
}

/// A warning in words.
#[derive(Drop)]
pub struct WarningMessage<'m> {
    text: &'m [u8],
    warning: Warning,
}

impl Error {
    /// The error in words, for the program with this text and these types.
    pub fn message<'m>(&self, text: &'m [u8], types: &'m Types) -> Message<'m> {
        Message {
            text,
            types,
            error: *self,
        }
    }
}

impl Warning {
    /// The warning in words, for the program with this text.
    pub fn message<'m>(&self, text: &'m [u8]) -> WarningMessage<'m> {
        WarningMessage {
            text,
            warning: *self,
        }
    }
}

impl fmt::Display for WarningMessage<'_> {
    fn fmt<W: fmt::Write>(&self, f: &mut fmt::Formatter<W>) -> fmt::Result {
        match self.warning.kind {
            WarningKind::Ignored => f.write_str("this may fail, and nothing says so then"),
            WarningKind::Unused => {
                let word = part_of(self.text, self.warning.span);
                write!(f, "`{word}` isn't used")
            }
            WarningKind::AbsentText => {
                f.write_str("this text may be absent, and then nothing is printed for it")
            }
        }
    }
}

impl fmt::Display for Message<'_> {
    fn fmt<W: fmt::Write>(&self, f: &mut fmt::Formatter<W>) -> fmt::Result {
        let about = self.error.about;
        let word = part_of(self.text, about.name.unwrap_or(self.error.span));
        let [mut number, other_number] = about.numbers;
        let [mut at, other_type] = about.types;
        for character in self.error.kind.message.chars() {
            match character {
                '$' => write!(f, "{word}")?,
                '~' => {
                    write!(f, "{number}")?;
                    number = other_number;
                }
                '@' => {
                    let found = self.type_name(at);
                    write!(f, "{found}")?;
                    at = other_type;
                }
                other => f.write_char(other)?,
            }
        }
        Ok(())
    }
}

impl<'m> Message<'m> {
    fn type_name(&self, at: TypeAt) -> TypeName<'m> {
        TypeName {
            text: self.text,
            types: self.types,
            at,
        }
    }
}

pub fn part_of(text: &[u8], span: Span) -> Shown<'_> {
    Shown(text.get(span.start..span.end).unwrap_or_default())
}

impl fmt::Display for Shown<'_> {
    fn fmt<W: fmt::Write>(&self, f: &mut fmt::Formatter<W>) -> fmt::Result {
        match str::from_utf8(self.0) {
            Ok(word) => f.write_str(word),
            Err(_) => f.write_str("?"),
        }
    }
}

impl fmt::Display for TypeName<'_> {
    fn fmt<W: fmt::Write>(&self, f: &mut fmt::Formatter<W>) -> fmt::Result {
        let mut at = self.at;
        let mut depth = 0usize;
        for _ in 0..self.types.len() {
            let Shape::Of(container, item) = self.types.shape(at) else {
                break;
            };
            f.write_str(container.spelling())?;
            f.write_str("<")?;
            depth = depth.saturating_add(1);
            at = item;
        }
        self.write_base(at, f)?;
        for _ in 0..depth {
            f.write_str(">")?;
        }
        Ok(())
    }
}

impl TypeName<'_> {
    fn write_base<W: fmt::Write>(&self, at: TypeAt, f: &mut fmt::Formatter<W>) -> fmt::Result {
        match self.types.shape(at) {
            Shape::Text => f.write_str("text"),
            Shape::Struct(found) => match self.types.structs.get(found.0) {
                Some(found) => {
                    let word = part_of(self.text, found.name);
                    write!(f, "{word}")
                }
                None => f.write_str("?"),
            },
            Shape::Int | Shape::Of(_, _) => f.write_str("int"),
        }
    }
}
