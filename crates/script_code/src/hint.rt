//! Hints: what would be right instead of an error or a warning.

use crate::error::{Error, Warning, WarningKind};
use crate::kind::ErrorClass;
use crate::message::part_of;
use crate::types::{Shape, TypeAt, Types};
use script_syntax::Span;
use std::fmt;

/// A hint in words, for the program with this text and these types.
#[derive(Drop)]
pub struct Hint<'m> {
    text: &'m [u8],
    types: &'m Types,
    kind: HintKind,
    /// What is alive, or open, where a limit is passed.
    alive: &'m [Span],
}

#[derive(Clone, Copy)]
enum HintKind {
    Fixed(&'static str),
    /// Fixed words, and then the words before what is alive or open.
    Listed(&'static str, &'static str),
    /// The name which may be meant.
    Name(Span),
    /// The fields that a struct has.
    Fields(TypeAt),
}

impl Error {
    /// What would be right, for the program with this text and these types. An error about a limit
    /// lists what is alive or open there.
    pub fn hint<'m>(
        &self,
        text: &'m [u8],
        types: &'m Types,
        alive: &'m [Span],
    ) -> Option<Hint<'m>> {
        let hint = self.kind.hint;
        let kind = match (self.about.near, self.kind.class) {
            (Some(name), _) => HintKind::Name(name),
            (None, ErrorClass::Field) => HintKind::Fields(self.about.types[0]),
            (None, _) if hint.is_empty() => return None,
            (None, ErrorClass::Registers) => HintKind::Listed(hint, "alive"),
            (None, ErrorClass::Depth) => HintKind::Listed(hint, "open"),
            (None, _) => HintKind::Fixed(hint),
        };
        Some(Hint {
            text,
            types,
            kind,
            alive,
        })
    }
}

impl Warning {
    /// What would be right.
    pub fn hint(&self) -> Option<&'static str> {
        match self.kind {
            WarningKind::Ignored => {
                Some("add `else { .. }`, or one `fail { .. }` for the program")
            }
            WarningKind::Unused => Some("if it isn't wanted, let its name begin with `_`"),
            WarningKind::AbsentText => None,
        }
    }
}

impl fmt::Display for Hint<'_> {
    fn fmt<W: fmt::Write>(&self, f: &mut fmt::Formatter<W>) -> fmt::Result {
        match self.kind {
            HintKind::Fixed(words) => f.write_str(words),
            HintKind::Listed(words, before) => {
                f.write_str(words)?;
                self.write_alive(before, f)
            }
            HintKind::Name(name) => {
                let name = part_of(self.text, name);
                write!(f, "is `{name}` meant?")
            }
            HintKind::Fields(at) => self.write_fields(at, f),
        }
    }
}

impl Hint<'_> {
    fn write_alive<W: fmt::Write>(&self, before: &str, f: &mut fmt::Formatter<W>) -> fmt::Result {
        if !self.alive.is_empty() {
            write!(f, "; {before}:")?;
        }
        let mut separator = " ";
        for span in self.alive {
            let (word, line) = (part_of(self.text, *span), span.line);
            write!(f, "{separator}`{word}` (line {line})")?;
            separator = ", ";
        }
        Ok(())
    }

    fn write_fields<W: fmt::Write>(&self, at: TypeAt, f: &mut fmt::Formatter<W>) -> fmt::Result {
        let mut before = "its fields: ";
        let Shape::Struct(found) = self.types.shape(at) else {
            return Ok(());
        };
        for member in self.types.fields(found) {
            let name = part_of(self.text, member.name);
            write!(f, "{before}{name}")?;
            before = ", ";
        }
        Ok(())
    }
}
