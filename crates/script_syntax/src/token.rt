use crate::error::{ErrorKind, OtherType};
use crate::tree::{Container, Range, Span};
use crate::word::Word;

/// A word, number, text or sign of a program.
#[derive(Clone, Copy)]
pub struct Token {
    pub span: Span,
    pub kind: TokenKind,
}

#[derive(Clone, Copy)]
pub enum TokenKind {
    Name(TypeName),
    Number(u64),
    /// A text, by its bytes without quotation marks and escapes.
    Text(Range),
    Word(Word),
    /// Bytes that are no token.
    Wrong(ErrorKind),
    End,
}

impl TokenKind {
    pub fn is(self, word: Word) -> bool {
        match self {
            TokenKind::Word(found) => found == word,
            _ => false,
        }
    }
}

/// What a name means where a type is wanted. It may be any other name too.
#[derive(Clone, Copy)]
pub enum TypeName {
    Container(Container),
    Int,
    Text,
    /// The word of another language.
    Other(OtherType),
    Struct,
}

static TYPE_NAMES: [(&str, TypeName); 14] = [
    ("vec", TypeName::Container(Container::Vec)),
    ("list", TypeName::Container(Container::List)),
    ("map", TypeName::Container(Container::Map)),
    ("flat_map", TypeName::Container(Container::FlatMap)),
    ("own", TypeName::Container(Container::Own)),
    ("shared", TypeName::Container(Container::Shared)),
    ("int", TypeName::Int),
    ("text", TypeName::Text),
    ("i64", TypeName::Other(OtherType::Int)),
    ("number", TypeName::Other(OtherType::Int)),
    ("bool", TypeName::Other(OtherType::Int)),
    ("str", TypeName::Other(OtherType::Text)),
    ("string", TypeName::Other(OtherType::Text)),
    ("float", TypeName::Other(OtherType::Float)),
];

impl TypeName {
    /// The meaning of this name.
    pub fn of(name: &[u8]) -> TypeName {
        for (spelling, meaning) in &TYPE_NAMES {
            if spelling.as_bytes() == name {
                return *meaning;
            }
        }
        TypeName::Struct
    }
}
