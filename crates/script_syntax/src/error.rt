use crate::token::{Token, TokenKind};
use crate::tree::{Container, Span};
use crate::word::Word;
use std::{fmt, str};

/// How many levels an expression may have. The expression is the first. Parentheses, an index, an argument, a sign, what
/// follows `??` and the right side of an operator are a level each.
pub const MAX_DEPTH: u32 = 64;

/// How many operands and operators an expression may have, so that its tree isn't too deep.
pub const MAX_SIZE: usize = 500;

/// What is wrong with a program, and where.
#[derive(Clone, Copy)]
pub struct Error {
    pub span: Span,
    pub kind: ErrorKind,
}

#[derive(Clone, Copy)]
pub enum ErrorKind {
    BadEscape,
    TwoMinusSigns,
    OpenText,
    /// Single quotation marks around this number of bytes.
    ByteLength(usize),
    NoToken,
    LargeNumber,
    /// A reserved word as a name.
    Reserved(Wanted),
    NameWanted(Wanted),
    WordWanted(Word),
    /// No `<` after a container's word.
    ItemTypeWanted(Container),
    TypeWanted,
    NoType(OtherType),
    FunctionType,
    SegmentNameWanted,
    OpenBlock,
    NoStatement,
    StatementWanted,
    Increment,
    NothingDone,
    ChainedComparisons,
    ValueWanted,
    /// `take` as a value.
    MisplacedTake,
    MemberWanted,
    /// Code after the statement in this line, which leaves.
    Unreachable(usize),
    LetElseStays,
    NewElseStays,
    UseElseStays,
    TooDeep,
    TooLarge,
}

/// Which name is missing.
#[derive(Clone, Copy)]
pub enum Wanted {
    Name,
    Field,
    Parameter,
}

/// The word of another language for a type.
#[derive(Clone, Copy)]
pub enum OtherType {
    Int,
    Text,
    Float,
}

impl Error {
    /// An error at a token. If the token is wrong itself, that is the error.
    pub(crate) fn at(token: Token, kind: ErrorKind) -> Error {
        let kind = match token.kind {
            TokenKind::Wrong(kind) => kind,
            _ => kind,
        };
        Error {
            span: token.span,
            kind,
        }
    }

    /// The error in words, for the program with this text.
    pub fn message<'a>(&self, text: &'a [u8]) -> Message<'a> {
        Message {
            token: shown(self.span.of(text)),
            kind: self.kind,
        }
    }

    /// What would be right.
    pub fn hint(&self) -> Option<&'static str> {
        match self.kind {
            ErrorKind::BadEscape => {
                Some(r#"the escapes are \n \t \r \0 \\ \" \' and \x with two hexadecimal digits"#)
            }
            ErrorKind::TwoMinusSigns => Some(
                "a comment begins with `#` or `//`; for the negative of a negative number use parentheses",
            ),
            ErrorKind::OpenText => Some(r"write a line end as \n"),
            ErrorKind::ByteLength(_) => Some("texts stand in double quotation marks"),
            ErrorKind::NoType(OtherType::Int) => Some("it is written `int`"),
            ErrorKind::NoType(OtherType::Text) => Some("it is written `text`"),
            ErrorKind::NoType(OtherType::Float) => Some("numbers are whole, of 64 bits"),
            ErrorKind::FunctionType => Some("hand in a text or a container, and change it there"),
            _ => self.statement_hint(),
        }
    }

    fn statement_hint(&self) -> Option<&'static str> {
        match self.kind {
            ErrorKind::Increment => Some("write `+= 1`"),
            ErrorKind::NothingDone => Some(
                "a place is set with `=`, and a method or a function called with `( )`",
            ),
            ErrorKind::ChainedComparisons => Some("write `a < b && b < c`"),
            ErrorKind::MisplacedTake => Some("`take` stands right behind `=`"),
            ErrorKind::LetElseStays => {
                Some("end it with break, continue, return or stop, or write `if let`")
            }
            ErrorKind::NewElseStays => Some("end it with break, continue, return or stop"),
            ErrorKind::UseElseStays => {
                Some("end it with break, continue, return or stop, or give `use` a block")
            }
            ErrorKind::TooDeep | ErrorKind::TooLarge => Some("name a part of it with `let`"),
            _ => None,
        }
    }
}

impl ErrorKind {
    fn words(self) -> Words {
        match self {
            ErrorKind::BadEscape => Words::Token("", " is no escape"),
            ErrorKind::TwoMinusSigns | ErrorKind::NoToken => {
                Words::Token("", " means nothing here")
            }
            ErrorKind::OpenText => {
                Words::Sentence("this text has no closing quotation mark in its line")
            }
            ErrorKind::ByteLength(length) => Words::Number(
                "a byte in single quotation marks is one byte, and this has ",
                length,
                "",
            ),
            ErrorKind::LargeNumber => Words::Sentence("a number has 64 bits at most"),
            ErrorKind::Reserved(wanted) => wanted.reserved_words(),
            ErrorKind::NameWanted(wanted) => wanted.words(),
            ErrorKind::WordWanted(wanted) => {
                Words::Wanted("`", wanted.spelling(), "` is wanted here, and this is ")
            }
            ErrorKind::ItemTypeWanted(container) => Words::Wanted(
                "`<` is wanted here behind `",
                container.spelling(),
                "`, and this is ",
            ),
            ErrorKind::TypeWanted => Words::Token("a type is wanted here, and this is ", ""),
            ErrorKind::NoType(_) => Words::Token("", " is no type here"),
            ErrorKind::FunctionType => Words::Sentence("a function gives a number or nothing"),
            ErrorKind::SegmentNameWanted => {
                Words::Sentence("the name in the segment is wanted here, as a text")
            }
            ErrorKind::OpenBlock => Words::Sentence("this `{` is never closed"),
            ErrorKind::NoStatement => Words::Token("", " begins no statement"),
            ErrorKind::StatementWanted => {
                Words::Token("a statement is wanted here, and this is ", "")
            }
            ErrorKind::Increment => Words::Sentence("there is no `++`"),
            ErrorKind::NothingDone => Words::Sentence("this says nothing to do"),
            ErrorKind::ChainedComparisons => Words::Sentence("comparisons aren't chained"),
            ErrorKind::ValueWanted | ErrorKind::MisplacedTake => {
                Words::Token("a value is wanted here, and this is ", "")
            }
            ErrorKind::MemberWanted => {
                Words::Sentence("the name of a field or a method is wanted here")
            }
            ErrorKind::Unreachable(line) => {
                Words::Number("nothing comes here, since line ", line, " leaves")
            }
            ErrorKind::LetElseStays | ErrorKind::NewElseStays => {
                Words::Sentence("the else part of this `let` has to leave")
            }
            ErrorKind::UseElseStays => {
                Words::Sentence("the else part of this `use` has to leave")
            }
            ErrorKind::TooDeep => {
                Words::Number(
                    "expressions are nested at most ",
                    MAX_DEPTH as usize,
                    " deep",
                )
            }
            ErrorKind::TooLarge => Words::Number(
                "an expression has at most ",
                MAX_SIZE,
                " operands and operators",
            ),
        }
    }
}

impl Wanted {
    fn words(self) -> Words {
        Words::Token(
            match self {
                Wanted::Name => "a name is wanted here, and this is ",
                Wanted::Field => "the name of a field is wanted here, and this is ",
                Wanted::Parameter => "the name of a parameter is wanted here, and this is ",
            },
            "",
        )
    }

    /// The words at a reserved word.
    fn reserved_words(self) -> Words {
        Words::Token(
            "",
            match self {
                Wanted::Name => " is a word of the language, and a name is wanted here",
                Wanted::Field => {
                    " is a word of the language, and the name of a field is wanted here"
                }
                Wanted::Parameter => {
                    " is a word of the language, and the name of a parameter is wanted here"
                }
            },
        )
    }
}

/// The words for a kind of errors.
#[derive(Clone, Copy)]
enum Words {
    Sentence(&'static str),
    /// The words before a number, and behind it.
    Number(&'static str, usize, &'static str),
    /// The words before the wrong token, and behind it.
    Token(&'static str, &'static str),
    /// A wanted word, the words before it, and between it and the wrong token.
    Wanted(&'static str, &'static str, &'static str),
}

/// An error in words.
#[derive(Clone, Copy)]
pub struct Message<'a> {
    /// The token that is wrong.
    token: &'a str,
    kind: ErrorKind,
}

impl fmt::Display for Message<'_> {
    fn fmt<W: fmt::Write>(&self, f: &mut fmt::Formatter<W>) -> fmt::Result {
        let token = self.token;
        match self.kind.words() {
            Words::Sentence(sentence) => f.write_str(sentence),
            Words::Number(before, number, behind) => write!(f, "{before}{number}{behind}"),
            Words::Token(before, behind) => write!(f, "{before}`{token}`{behind}"),
            Words::Wanted(before, word, behind) => write!(f, "{before}{word}{behind}`{token}`"),
        }
    }
}

/// A token in a message.
fn shown(token: &[u8]) -> &str {
    if token.is_empty() {
        return "the end";
    }
    str::from_utf8(token).unwrap_or("?")
}
