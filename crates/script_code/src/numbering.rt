//! The numbers of types: an image's types first, and then the new ones. Types of the same shape
//! are one.

use crate::error::{Error, Problem, Trouble, append};
use crate::kind::ErrorKind;
use crate::types::{Member, Shape, TypeAt, Types};
use client_code::{Fields, MAX_TYPES, Type, TypeTable};
use script_syntax::{Container, Span};
use std::alloc::Global;

/// The size of a type's entry, in bytes.
const ENTRY: usize = 16;

/// Entries that no type has yet.
const UNUSED: [u8; ENTRY] = [0; ENTRY];

/// The table of a client that is being made.
#[derive(Drop)]
pub struct Numbering {
    /// The entries, the image's first.
    entries: Vec<[u8; ENTRY]>,
    /// The number of each type of the program, if it has one.
    numbers: Vec<Option<u8>>,
    /// For each type of the program and each entry of the image, whether they have the same shape.
    same: Vec<bool>,
    /// For each pair of types of the program, whether they have the same shape.
    alike: Vec<bool>,
}

impl Numbering {
    /// No numbers.
    pub fn new(alloc: Global) -> Numbering {
        Numbering {
            entries: Vec::new(alloc),
            numbers: Vec::new(alloc),
            same: Vec::new(alloc),
            alike: Vec::new(alloc),
        }
    }

    /// The entries of the table.
    pub fn into_entries(self) -> Vec<[u8; ENTRY]> {
        let Numbering { entries, .. } = self;
        entries
    }

    /// Takes the entries of an image, and finds which types have the same shape.
    pub fn begin(&mut self, types: &Types, image: &TypeTable, trouble: &mut Trouble) {
        for number in 0..image.len() {
            append(&mut self.entries, image_entry(image, number), trouble);
        }
        for _ in 0..types.len() {
            append(&mut self.numbers, None, trouble);
        }
        let cells = types.len().saturating_mul(image.len());
        append_true(&mut self.same, cells, trouble);
        let pairs = types.len().saturating_mul(types.len());
        append_true(&mut self.alike, pairs, trouble);
        self.compare_all(types, image)
    }

    /// Finds which types have the same shape: takes away what differs until nothing changes.
    fn compare_all(&mut self, types: &Types, image: &TypeTable) {
        let rounds = types
            .len()
            .saturating_mul(image.len().saturating_add(types.len()));
        for _ in 0..rounds {
            if !self.compare_once(types, image) {
                break;
            }
        }
    }

    fn compare_once(&mut self, types: &Types, image: &TypeTable) -> bool {
        let mut changes = false;
        for at in 0..types.len() {
            for number in 0..image.len() {
                if self.is_same(at, number, image)
                    && !self.has_same_parts(types, at, number, image)
                {
                    set_false(&mut self.same, cell(at, number, image.len()));
                    changes = true;
                }
            }
            for other in 0..types.len() {
                if self.is_alike(types, at, other) && !self.has_alike_parts(types, at, other) {
                    set_false(&mut self.alike, cell(at, other, types.len()));
                    changes = true;
                }
            }
        }
        changes
    }

    fn is_same(&self, at: usize, number: usize, image: &TypeTable) -> bool {
        self.same
            .get(cell(at, number, image.len()))
            .copied()
            .unwrap_or(false)
    }

    fn is_alike(&self, types: &Types, at: usize, other: usize) -> bool {
        self.alike
            .get(cell(at, other, types.len()))
            .copied()
            .unwrap_or(false)
    }

    fn has_same_parts(&self, types: &Types, at: usize, number: usize, image: &TypeTable) -> bool {
        let Some(found) = image.kind(u8::try_from(number).unwrap_or(0)) else {
            return false;
        };
        match types.shape(TypeAt(at)) {
            Shape::Int => matches!(found, Type::I64),
            Shape::Text => matches!(found, Type::Str),
            Shape::Of(container, part) => self.has_same_item(container, part, found, image),
            Shape::Struct(at) => self.is_same_struct(types.fields(at), found, image),
        }
    }

    /// Whether an entry is a container with items of the same shape.
    fn has_same_item(
        &self,
        container: Container,
        part: TypeAt,
        found: Type,
        image: &TypeTable,
    ) -> bool {
        match part_of(container, found) {
            Some(number) => self.is_same(part.0, usize::from(number), image),
            None => false,
        }
    }

    fn is_same_struct(&self, members: &[Member], found: Type, image: &TypeTable) -> bool {
        match found {
            Type::Struct(fields) => self.has_same_fields(members, fields.as_slice(), image),
            _ => false,
        }
    }

    fn has_same_fields(&self, members: &[Member], fields: &[u8], image: &TypeTable) -> bool {
        if members.len() != fields.len() {
            return false;
        }
        for at in 0..members.len() {
            if !self.is_same(members[at].value_type.0, usize::from(fields[at]), image) {
                return false;
            }
        }
        true
    }

    fn has_alike_parts(&self, types: &Types, at: usize, other: usize) -> bool {
        match (types.shape(TypeAt(at)), types.shape(TypeAt(other))) {
            (Shape::Int, Shape::Int) | (Shape::Text, Shape::Text) => true,
            (Shape::Of(one, left), Shape::Of(two, right)) => {
                one == two && self.is_alike(types, left.0, right.0)
            }
            (Shape::Struct(one), Shape::Struct(two)) => {
                self.has_alike_fields(types, types.fields(one), types.fields(two))
            }
            _ => false,
        }
    }

    fn has_alike_fields(&self, types: &Types, one: &[Member], two: &[Member]) -> bool {
        if one.len() != two.len() {
            return false;
        }
        for at in 0..one.len() {
            if !self.is_alike(types, one[at].value_type.0, two[at].value_type.0) {
                return false;
            }
        }
        true
    }

    /// The number of a type, if it has one.
    pub fn number(&self, at: TypeAt) -> Option<u8> {
        self.numbers.get(at.0).copied().unwrap_or(None)
    }

    /// Gives a type and its parts numbers. If there are too many types, the error is at this place
    /// of the program.
    pub fn add(
        &mut self,
        types: &Types,
        image: &TypeTable,
        wanted: TypeAt,
        span: Span,
        trouble: &mut Trouble,
    ) {
        self.take_known(types, image);
        // each round gives a number to a type, or to none
        for _ in 0..types.len().saturating_add(1) {
            if self.number(wanted).is_some() || !self.add_next(types, wanted, span, trouble) {
                break;
            }
        }
        self.fill(types, span, trouble)
    }

    /// Gives the numbers of the image to the types that have the shape of one of its entries.
    fn take_known(&mut self, types: &Types, image: &TypeTable) {
        for at in 0..types.len() {
            if self.number(TypeAt(at)).is_none() {
                for number in (0..image.len()).rev() {
                    if self.is_same(at, number, image) {
                        self.set_number(at, number);
                    }
                }
            }
        }
    }

    fn set_number(&mut self, at: usize, number: usize) {
        if let Some(found) = self.numbers.get_mut(at) {
            *found = u8::try_from(number).ok();
        }
    }

    /// Gives a number to a type that a type needs, or to that itself: fields before their structs.
    /// Returns false if there are too many types.
    fn add_next(
        &mut self,
        types: &Types,
        wanted: TypeAt,
        span: Span,
        trouble: &mut Trouble,
    ) -> bool {
        let next = self.next_part(types, wanted);
        let number = self.entries.len();
        if number >= MAX_TYPES {
            trouble.note(Problem::Error(Error::at(span, ErrorKind::TYPES)));
            return false;
        }
        append(&mut self.entries, UNUSED, trouble);
        for at in 0..types.len() {
            if self.is_alike(types, at, next.0) {
                self.set_number(at, number);
            }
        }
        true
    }

    /// The innermost field of a type that has no number, or the type.
    fn next_part(&self, types: &Types, wanted: TypeAt) -> TypeAt {
        let mut next = wanted;
        for _ in 0..types.len() {
            match self.missing_part(types, next) {
                Some(part) => next = part,
                None => break,
            }
        }
        next
    }

    /// A field of a struct, without a number.
    fn missing_part(&self, types: &Types, at: TypeAt) -> Option<TypeAt> {
        let Shape::Struct(found) = types.shape(at) else {
            return None;
        };
        for member in types.fields(found) {
            if self.number(member.value_type).is_none() {
                return Some(member.value_type);
            }
        }
        None
    }

    /// Writes the entries of the new types, and gives their parts numbers.
    fn fill(&mut self, types: &Types, span: Span, trouble: &mut Trouble) {
        for _ in 0..MAX_TYPES {
            let mut is_complete = true;
            for at in 0..types.len() {
                is_complete = self.fill_one(types, TypeAt(at), span, trouble) && is_complete;
            }
            if is_complete {
                break;
            }
        }
    }

    /// Writes the entry of a type, if it is new. Returns false if a part had no number.
    fn fill_one(&mut self, types: &Types, at: TypeAt, span: Span, trouble: &mut Trouble) -> bool {
        let Some(number) = self.new_entry(at) else {
            return true;
        };
        let Some(entry) = self.entry_of(types, at) else {
            if let Shape::Of(_, part) = types.shape(at) {
                let _ = self.add_next(types, part, span, trouble);
            }
            return false;
        };
        if let Some(found) = self.entries.get_mut(number) {
            *found = entry;
        }
        true
    }

    /// The number of a type whose entry isn't written.
    fn new_entry(&self, at: TypeAt) -> Option<usize> {
        let number = usize::from(self.number(at)?);
        if *self.entries.get(number)? == UNUSED {
            Some(number)
        } else {
            None
        }
    }

    /// The entry of a type whose parts have numbers.
    fn entry_of(&self, types: &Types, at: TypeAt) -> Option<[u8; ENTRY]> {
        let found = match types.shape(at) {
            Shape::Int => Type::I64,
            Shape::Text => Type::Str,
            Shape::Of(container, part) => container_type(container, self.number(part)?),
            Shape::Struct(found) => self.struct_type(types.fields(found))?,
        };
        Some(found.entry())
    }

    fn struct_type(&self, members: &[Member]) -> Option<Type> {
        let mut parts = [0u8; 8];
        for (at, member) in members.iter().enumerate() {
            *parts.get_mut(at)? = self.number(member.value_type)?;
        }
        Some(Type::Struct(Fields::new(parts.get(..members.len())?)?))
    }
}

fn cell(row: usize, column: usize, columns: usize) -> usize {
    row.saturating_mul(columns).saturating_add(column)
}

/// Adds cells that are true.
fn append_true(cells: &mut Vec<bool>, count: usize, trouble: &mut Trouble) {
    for _ in 0..count {
        append(cells, true, trouble);
    }
}

/// The entry of an image's type.
fn image_entry(image: &TypeTable, number: usize) -> [u8; ENTRY] {
    match image.kind(u8::try_from(number).unwrap_or(0)) {
        Some(found) => found.entry(),
        None => UNUSED,
    }
}

fn set_false(cells: &mut Vec<bool>, at: usize) {
    if let Some(cell) = cells.get_mut(at) {
        *cell = false;
    }
}

/// The type of the items of an entry, if it is this container.
fn part_of(container: Container, found: Type) -> Option<u8> {
    match (container, found) {
        (Container::Vec, Type::Vec(part))
        | (Container::List, Type::List(part))
        | (Container::Map, Type::Map(part))
        | (Container::FlatMap, Type::FlatMap(part))
        | (Container::Own, Type::Own(part))
        | (Container::Shared, Type::Shared(part)) => Some(part),
        _ => None,
    }
}

fn container_type(container: Container, part: u8) -> Type {
    match container {
        Container::Vec => Type::Vec(part),
        Container::List => Type::List(part),
        Container::Map => Type::Map(part),
        Container::FlatMap => Type::FlatMap(part),
        Container::Own => Type::Own(part),
        Container::Shared => Type::Shared(part),
    }
}
