use client_code::{Constant, ConstantKind};
use client_vm::TypeId;
use std::alloc::AllocError;
use std::fmt::{self, Write};

/// How many parts of a path are shown: the last ones.
const MOST_PARTS: usize = 8;

/// The object at which a path begins.
#[derive(Clone, Copy)]
pub(crate) enum PathStart {
    /// A named object: the constant's exact name, or the member of its family with this number.
    Named { constant: u8, number: i64 },
    /// The unique object of a type.
    Unique(TypeId),
    /// The object that a register owns.
    Owned(u8),
}

/// A step from a value to a part of it.
#[derive(Clone, Copy)]
pub(crate) enum Selector {
    /// The value with this index in a named array, from 0.
    Value(i64),
    /// The item of a vector or a list with this index, from 0.
    Item(i64),
    /// The value of this key in a map.
    Key(i64),
    /// The field of a struct with this index, from 0.
    Field(i32),
    /// The value that an own or a shared cell points to.
    Content,
}

/// The path from an object to a value.
#[derive(Clone, Copy)]
pub(crate) struct Path {
    root: PathStart,
    /// The last parts: part n is at index n modulo `MOST_PARTS`.
    parts: [Selector; MOST_PARTS],
    /// How many parts there are.
    len: usize,
}

impl Path {
    pub(crate) fn new(root: PathStart) -> Path {
        Path {
            root,
            parts: [Selector::Content; MOST_PARTS],
            len: 0,
        }
    }

    /// Whether the path begins at the object with this name.
    pub(crate) fn begins_at(&self, name: &str, constants: &[Constant]) -> bool {
        self.root.is_named(name, constants)
    }

    /// The path to a part of the value.
    pub(crate) fn part(mut self, part: Selector) -> Path {
        self.parts[self.len % MOST_PARTS] = part;
        self.len = self.len.saturating_add(1);
        self
    }

    /// Adds the object and the parts. If the path is long, adds only the last parts, and before them how many parts are left out.
    pub(crate) fn add_to(
        &self,
        text: &mut String,
        constants: &[Constant],
    ) -> Result<(), AllocError> {
        self.root.add_to(text, constants)?;
        let left_out = self.len.saturating_sub(MOST_PARTS);
        if left_out > 0 {
            write!(text, ".({left_out} parts)")?;
        }
        self.add_parts(text, left_out)
    }

    /// Adds the parts from index `from` on.
    fn add_parts(&self, text: &mut String, from: usize) -> Result<(), AllocError> {
        for n in from..self.len {
            let part = self.parts[n % MOST_PARTS];
            write!(text, "{part}")?;
        }
        Ok(())
    }
}

impl PathStart {
    fn add_to(self, text: &mut String, constants: &[Constant]) -> Result<(), AllocError> {
        match self {
            PathStart::Named { constant, number } => {
                let name = constants.get(usize::from(constant)).copied();
                add_name(text, name.unwrap_or_default(), number)
            }
            PathStart::Unique(type_id) => write!(text, "unique t{type_id}"),
            PathStart::Owned(register) => write!(text, "r{register}.content"),
        }
    }
}

impl PathStart {
    /// Whether the object has this name, as paths spell it. The name of a family is a name of all its objects.
    fn is_named(self, name: &str, constants: &[Constant]) -> bool {
        match self {
            PathStart::Named { constant, number } => {
                let found = constants.get(usize::from(constant)).copied();
                is_name(name, found.unwrap_or_default(), number)
            }
            PathStart::Unique(type_id) => match name.strip_prefix("unique t") {
                Some(number) => number.parse() == Ok(type_id),
                None => false,
            },
            PathStart::Owned(_) => false,
        }
    }
}

/// Whether an object with this exact name, or the member of this family with a number, has a name.
fn is_name(name: &str, constant: Constant, number: i64) -> bool {
    if name.as_bytes() == constant.bytes {
        return true;
    }
    match (constant.kind, name.split_once('#')) {
        (ConstantKind::Family, Some((family, member))) => {
            family.as_bytes() == constant.bytes && member.parse() == Ok(number)
        }
        _ => false,
    }
}

/// Adds bytes, all of which must be visible characters.
pub(crate) fn push_bytes(text: &mut String, bytes: &[u8]) -> Result<(), AllocError> {
    for byte in bytes {
        text.push(char::from(*byte))?;
    }
    Ok(())
}

/// Adds an exact name, or a family's name with a number.
fn add_name(text: &mut String, constant: Constant, number: i64) -> Result<(), AllocError> {
    push_bytes(text, constant.bytes)?;
    match constant.kind {
        ConstantKind::Text | ConstantKind::Name => Ok(()),
        ConstantKind::Family => write!(text, "#{number}"),
    }
}

impl fmt::Display for Selector {
    fn fmt<W: fmt::Write>(&self, f: &mut fmt::Formatter<W>) -> fmt::Result {
        let (before, number, after) = match *self {
            Selector::Value(index) => (".value ", index, ""),
            Selector::Item(index) => ("[", index, "]"),
            Selector::Key(key) => (".key ", key, ""),
            Selector::Field(index) => (".field ", i64::from(index), ""),
            Selector::Content => return f.write_str(".content"),
        };
        write!(f, "{before}{number}{after}")
    }
}
