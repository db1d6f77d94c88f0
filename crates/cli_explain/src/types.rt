use client_code::{Type, TypeId};
use std::fmt;

/// A type in words.
#[derive(Clone, Copy)]
pub(crate) struct TypeWords(pub(crate) Type);

impl fmt::Display for TypeWords {
    fn fmt<W: fmt::Write>(&self, f: &mut fmt::Formatter<W>) -> fmt::Result {
        let (word, part) = match self.0 {
            Type::I64 => return f.write_str("i64"),
            Type::Str => return f.write_str("str"),
            Type::Vec(item) => ("vector", item),
            Type::List(item) => ("list", item),
            Type::FlatMap(value) => ("flat map", value),
            Type::Map(value) => ("map", value),
            Type::Own(object) => ("own", object),
            Type::Shared(object) => ("shared", object),
            Type::Struct(fields) => return write_fields(f, fields.as_slice()),
        };
        write!(f, "{word} of type {part}")
    }
}

fn write_fields<W: fmt::Write>(f: &mut fmt::Formatter<W>, fields: &[TypeId]) -> fmt::Result {
    f.write_str("struct of types")?;
    for (i, field) in fields.iter().enumerate() {
        let separator = if i == 0 { "" } else { "," };
        write!(f, "{separator} {field}")?;
    }
    Ok(())
}

/// The number of a type, and the type if the table has it.
#[derive(Clone, Copy)]
pub(crate) struct NumberedType {
    pub(crate) number: TypeId,
    pub(crate) kind: Option<Type>,
}

impl fmt::Display for NumberedType {
    fn fmt<W: fmt::Write>(&self, f: &mut fmt::Formatter<W>) -> fmt::Result {
        let number = self.number;
        match self.kind {
            Some(kind) => {
                let kind = TypeWords(kind);
                write!(f, "type {number} ({kind})")
            }
            None => write!(f, "type {number}"),
        }
    }
}
