//! The local names of a program, and the places that they refer to.

use crate::error::{Trouble, append};
use crate::program::NOWHERE;
use crate::registers::Register;
use crate::types::TypeAt;
use script_syntax::{Span, Tree};
use std::alloc::Global;

/// The key or index of a step.
#[derive(Clone, Copy, PartialEq, Eq)]
pub enum Key {
    Literal(i64),
    Register(Register),
}

/// The position where the way to a place begins.
#[derive(Clone, Copy, PartialEq, Eq)]
pub enum Root {
    /// A declared object, or a whole array.
    Object(usize),
    /// A value of an array, or an object of a family.
    Element(usize, Key),
    /// The object that the name with this position owns.
    Owner(usize),
    /// The number with the name at this position.
    Number(usize),
}

/// A step on the way to a place.
#[derive(Clone, Copy, PartialEq, Eq)]
pub enum WayKind {
    Field(usize),
    /// What an `own`, or else a `shared`, contains.
    Content { is_shared: bool },
    /// The value of a map's key.
    Key(Key),
    /// An item of a vector or list.
    Item(Key),
    /// A byte of a text.
    Byte(Key),
    FirstKey,
    NextKey(Key),
}

/// A step, with the type of its target.
#[derive(Clone, Copy)]
pub struct Way {
    pub kind: WayKind,
    pub to: TypeAt,
}

/// A place: its root, and the steps from there, a range of the list of steps.
#[derive(Clone, Copy)]
pub struct Place {
    pub root: Root,
    pub first: usize,
    pub end: usize,
    pub value_type: TypeAt,
    /// The position of the nearest name on the way.
    pub via: Option<usize>,
    /// Whether the number of its items is meant.
    pub is_length: bool,
    pub is_frozen: bool,
    pub span: Span,
}

/// What a name refers to.
#[derive(Clone, Copy)]
pub enum Meaning {
    Number {
        register: Register,
        /// The most decimal digits.
        digits: usize,
        is_positive: bool,
        /// Whether only its loop sets it.
        is_fixed: bool,
    },
    Place {
        place: Place,
        /// The register that referred to it, if its stamp is still this one.
        register: Option<Register>,
        stamp: usize,
    },
    Owner {
        register: Register,
        value_type: TypeAt,
    },
    /// No name, but the register of a key.
    Hidden(Register),
    /// The statement that gives the name has an error.
    Unknown,
}

#[derive(Clone, Copy)]
pub struct Name {
    pub span: Span,
    pub meaning: Meaning,
    /// A number that no other name has had.
    pub id: usize,
    pub is_used: bool,
}

/// The names which are known, the innermost last. Those before `base` aren't visible.
#[derive(Drop)]
pub struct Names {
    names: Vec<Name>,
    pub base: usize,
    next_id: usize,
}

/// The most decimal digits of a number.
pub const MOST_DIGITS: usize = 19;

impl Meaning {
    /// A number of which nothing is known.
    pub fn number(register: Register) -> Meaning {
        Meaning::short_number(register, MOST_DIGITS)
    }

    pub fn short_number(register: Register, digits: usize) -> Meaning {
        Meaning::Number {
            register,
            digits,
            is_positive: false,
            is_fixed: false,
        }
    }

    /// A number that only its loop sets.
    pub fn loop_number(register: Register, digits: usize, is_positive: bool) -> Meaning {
        Meaning::Number {
            register,
            digits,
            is_positive,
            is_fixed: true,
        }
    }

    /// The register that the name holds.
    pub fn register(&self) -> Option<Register> {
        match *self {
            Meaning::Number { register, .. }
            | Meaning::Owner { register, .. }
            | Meaning::Hidden(register) => Some(register),
            Meaning::Place { register, .. } => register,
            Meaning::Unknown => None,
        }
    }
}

impl Key {
    /// Whether two keys may be equal.
    fn may_equal(self, other: Key) -> bool {
        match (self, other) {
            (Key::Literal(one), Key::Literal(two)) => one == two,
            _ => true,
        }
    }
}

impl WayKind {
    pub fn key(self) -> Option<Key> {
        match self {
            WayKind::Key(key) | WayKind::Item(key) | WayKind::Byte(key) | WayKind::NextKey(key) => {
                Some(key)
            }
            WayKind::Field(_) | WayKind::Content { .. } | WayKind::FirstKey => None,
        }
    }

    pub fn with_key(self, key: Key) -> WayKind {
        match self {
            WayKind::Key(_) => WayKind::Key(key),
            WayKind::Item(_) => WayKind::Item(key),
            WayKind::Byte(_) => WayKind::Byte(key),
            WayKind::NextKey(_) => WayKind::NextKey(key),
            other => other,
        }
    }

    /// Whether the step can fail.
    pub fn can_fail(self) -> bool {
        !matches!(self, WayKind::Field(_))
    }

    /// Whether two steps may have the same target.
    pub fn may_equal(self, other: WayKind) -> bool {
        match (self, other) {
            (WayKind::Key(one), WayKind::Key(two))
            | (WayKind::Item(one), WayKind::Item(two))
            | (WayKind::Byte(one), WayKind::Byte(two))
            | (WayKind::NextKey(one), WayKind::NextKey(two)) => one.may_equal(two),
            _ => self == other,
        }
    }
}

impl Root {
    /// Whether two roots may be the same object.
    pub fn may_equal(self, other: Root) -> bool {
        match (self, other) {
            (Root::Element(one, key), Root::Element(two, other)) => {
                one == two && key.may_equal(other)
            }
            (Root::Element(one, _), Root::Object(two))
            | (Root::Object(one), Root::Element(two, _)) => one == two,
            _ => self == other,
        }
    }
}

impl Place {
    /// A placeholder.
    pub const NONE: Place = Place {
        root: Root::Number(usize::MAX),
        first: 0,
        end: 0,
        value_type: TypeAt::INT,
        via: None,
        is_length: false,
        is_frozen: false,
        span: NOWHERE,
    };

    /// The number of steps.
    pub fn len(&self) -> usize {
        self.end.saturating_sub(self.first)
    }
}

impl Names {
    pub fn new(alloc: Global) -> Names {
        Names {
            names: Vec::new(alloc),
            base: 0,
            next_id: 0,
        }
    }

    pub fn len(&self) -> usize {
        self.names.len()
    }

    pub fn all(&self) -> &[Name] {
        self.names.as_slice()
    }

    pub fn get(&self, at: usize) -> Option<Name> {
        self.names.get(at).copied()
    }

    /// Adds a name.
    pub fn push(&mut self, span: Span, meaning: Meaning, trouble: &mut Trouble) {
        let id = self.next_id;
        self.next_id = id.saturating_add(1);
        let name = Name {
            span,
            meaning,
            id,
            is_used: false,
        };
        append(&mut self.names, name, trouble);
    }

    pub fn pop(&mut self) -> Option<Name> {
        self.names.pop()
    }

    pub fn truncate(&mut self, len: usize) {
        self.names.truncate(len);
    }

    /// The position of the visible name with this spelling that was added last.
    pub fn find(&self, tree: &Tree<'_>, word: &[u8]) -> Option<usize> {
        let mut found = None;
        for (at, name) in self.names.iter().enumerate() {
            if at >= self.base && name.is_visible() && tree.word(name.span) == word {
                found = Some(at);
            }
        }
        found
    }

    /// The names from `base` on.
    pub fn inner(&self) -> &[Name] {
        self.names.as_slice().get(self.base..).unwrap_or_default()
    }

    pub fn use_name(&mut self, at: usize) {
        if let Some(name) = self.names.get_mut(at) {
            name.is_used = true;
        }
    }

    /// The number with this name is set to one of any length.
    pub fn lengthen(&mut self, at: usize) {
        if let Some(name) = self.names.get_mut(at) {
            if let Meaning::Number { register, .. } = name.meaning {
                name.meaning = Meaning::number(register);
            }
        }
    }
}

impl Name {
    pub fn is_visible(&self) -> bool {
        !matches!(self.meaning, Meaning::Hidden(_))
    }

    /// Whether the statement that gives the name has an error.
    pub fn is_unknown(&self) -> bool {
        matches!(self.meaning, Meaning::Unknown)
    }
}
