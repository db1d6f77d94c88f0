//! Types as JSON.

use crate::document::Document;
use crate::types::word_of;
use seg_manager::{MAX_TYPES, Type, TypeId, TypeTable};
use std::alloc::{AllocError, Global};

/// The types in order: the word for each, and the numbers of its parts.
pub fn types_json(alloc: Global, types: &TypeTable) -> Result<Vec<u8>, AllocError> {
    let mut json = Document::new(alloc);
    json.begin_list("types");
    for t in 0..MAX_TYPES as TypeId {
        if let Some(word) = word_of(types, t) {
            json.begin_object();
            json.add_word("kind", word);
            add_parts(&mut json, types, t);
            json.end_object();
        }
    }
    json.end_array();
    json.into_line()
}

/// Adds the numbers of a type's parts.
fn add_parts(json: &mut Document, types: &TypeTable, t: TypeId) {
    json.begin_list("parts");
    if let Some(kind) = types.kind(t) {
        add_numbers(json, kind);
    }
    json.end_array()
}

fn add_numbers(json: &mut Document, kind: Type) {
    match kind {
        Type::I64 | Type::Str => {}
        Type::Vec(part) => json.number(i64::from(part)),
        Type::List(part) => json.number(i64::from(part)),
        Type::FlatMap(part) => json.number(i64::from(part)),
        Type::Map(part) => json.number(i64::from(part)),
        Type::Own(part) => json.number(i64::from(part)),
        Type::Struct(fields) => add_fields(json, fields.as_slice()),
        Type::Shared(part) => json.number(i64::from(part)),
    }
}

fn add_fields(json: &mut Document, fields: &[TypeId]) {
    for field in fields {
        json.number(i64::from(*field));
    }
}
