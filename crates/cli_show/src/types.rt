//! Types as the lines of a client's text, and in words.

use crate::lines::IndentedText;
use seg_manager::{MAX_TYPES, Type, TypeId, TypeTable};
use std::alloc::{AllocError, Global};

/// A line for each type, in order, as in a client's text.
pub fn type_lines(alloc: Global, types: &TypeTable) -> Result<Vec<u8>, AllocError> {
    let mut lines = IndentedText::new(alloc);
    add_types(&mut lines, types);
    lines.into_bytes()
}

/// A type in words. Its parts are words if they are `i64` or `str`, and numbers otherwise, so that the length is limited.
pub fn type_words(alloc: Global, types: &TypeTable, t: TypeId) -> Result<Vec<u8>, AllocError> {
    let mut words = IndentedText::new(alloc);
    add_type(&mut words, types, t);
    words.into_bytes()
}

pub(crate) fn add_types(lines: &mut IndentedText, types: &TypeTable) {
    for t in 0..MAX_TYPES as TypeId {
        if let Some(word) = word_of(types, t) {
            lines.add(b"type ");
            lines.add(word.as_bytes());
            if let Some(kind) = types.kind(t) {
                add_numbers(lines, kind);
            }
            lines.end();
        }
    }
}

/// The word for a type in a client's text, if the table has it.
pub(crate) fn word_of(types: &TypeTable, t: TypeId) -> Option<&'static str> {
    match types.kind(t) {
        Some(kind) => Some(kind_word(kind)),
        None => None,
    }
}

/// Adds the numbers of a type's parts.
fn add_numbers(lines: &mut IndentedText, kind: Type) {
    match kind {
        Type::I64 | Type::Str => {}
        Type::Vec(part) => add_number(lines, part),
        Type::List(part) => add_number(lines, part),
        Type::FlatMap(part) => add_number(lines, part),
        Type::Map(part) => add_number(lines, part),
        Type::Own(part) => add_number(lines, part),
        Type::Struct(fields) => add_field_numbers(lines, fields.as_slice()),
        Type::Shared(part) => add_number(lines, part),
    }
}

fn add_field_numbers(lines: &mut IndentedText, fields: &[TypeId]) {
    for field in fields {
        add_number(lines, *field);
    }
}

fn add_number(lines: &mut IndentedText, t: TypeId) {
    lines.add_number(" t", i64::from(t));
}

/// Adds a type in words, if the table has it.
pub(crate) fn add_type(lines: &mut IndentedText, types: &TypeTable, t: TypeId) {
    if let Some(word) = word_of(types, t) {
        lines.add(word.as_bytes());
    }
    if let Some(kind) = types.kind(t) {
        add_parts(lines, types, kind);
    }
}

/// Adds the parts of a type in words.
fn add_parts(lines: &mut IndentedText, types: &TypeTable, kind: Type) {
    match kind {
        Type::I64 | Type::Str => {}
        Type::Vec(part) => add_part(lines, types, part),
        Type::List(part) => add_part(lines, types, part),
        Type::FlatMap(part) => add_part(lines, types, part),
        Type::Map(part) => add_part(lines, types, part),
        Type::Own(part) => add_part(lines, types, part),
        Type::Struct(fields) => add_field_words(lines, types, fields.as_slice()),
        Type::Shared(part) => add_part(lines, types, part),
    }
}

fn add_field_words(lines: &mut IndentedText, types: &TypeTable, fields: &[TypeId]) {
    for field in fields {
        add_part(lines, types, *field);
    }
}

fn add_part(lines: &mut IndentedText, types: &TypeTable, part: TypeId) {
    match types.kind(part) {
        Some(Type::I64) => lines.add(b" i64"),
        Some(Type::Str) => lines.add(b" str"),
        Some(_) | None => add_number(lines, part),
    }
}

/// The word for a type in a client's text, without the parts.
pub fn kind_word(kind: Type) -> &'static str {
    match kind {
        Type::I64 => "i64",
        Type::Str => "str",
        Type::Vec(_) => "vec",
        Type::List(_) => "list",
        Type::FlatMap(_) => "flat_map",
        Type::Map(_) => "map",
        Type::Own(_) => "own",
        Type::Struct(_) => "struct",
        Type::Shared(_) => "shared",
    }
}
