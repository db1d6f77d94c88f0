use crate::location::BlockContents;
use crate::opened::Opened;
use crate::quoted::Quoted;
use crate::rule;
use client_code::{ConstantKind, Number, Operand, Operation};
use seg_block::Tag;
use std::fmt;

/// What is wrong with a part of a client, in its text or in its file.
#[derive(Clone, Copy)]
pub(crate) enum Flaw<'a> {
    /// The rule that it breaks.
    Unmet(&'static str),
    /// A word, and what is wrong with it.
    Word(&'a [u8], &'static str),
    /// An operand in a file, and what is wrong with it.
    Operand(char, &'static str),
    /// A number between two pieces of text.
    Number(&'static str, usize, &'static str),
    /// Text with two numbers.
    Pair(&'static str, u32, &'static str, u32),
    /// A number of an image, and what it should be.
    Should(&'static str, u32, Right),
    /// Two keys in a row that don't ascend.
    Keys(i64, i64),
    /// The tag of the block that a pointer points to, and the tag that it should have.
    Block(Tag, Tag),
    /// An operation with too few or too many operands.
    Count {
        operation: Operation,
        wanted: usize,
        found: usize,
    },
    /// The rule for an ELSE or an END, and the innermost open part, which it can't end.
    Misplaced(&'static str, Option<Opened>),
    /// The innermost part that is open where one part too many would be.
    Deep(Opened),
    /// The innermost part that is open at the end.
    Unclosed(Opened),
    /// A word that should be in capitals, and the operation that it means.
    Capitals(&'a [u8], Operation),
}

/// What a number should be.
#[derive(Clone, Copy)]
pub(crate) enum Right {
    Exactly(u32),
    AtLeast(u32),
    AtMost(u32),
    Below(u32),
    Words(&'static str),
}

impl fmt::Display for Right {
    fn fmt<W: fmt::Write>(&self, f: &mut fmt::Formatter<W>) -> fmt::Result {
        let (before, number) = match *self {
            Right::Exactly(number) => ("", number),
            Right::AtLeast(number) => ("at least ", number),
            Right::AtMost(number) => ("at most ", number),
            Right::Below(number) => ("lower than ", number),
            Right::Words(words) => return f.write_str(words),
        };
        write!(f, "{before}{number}")
    }
}

impl Flaw<'_> {
    /// A number of an image that should be another one.
    pub(crate) fn should(what: &'static str, found: u32, right: Right) -> Flaw<'static> {
        Flaw::Should(what, found, right)
    }

    /// A name that is empty or too long, or has a byte that it may not have.
    pub(crate) fn name(kind: ConstantKind) -> Flaw<'static> {
        Flaw::Number(
            "the name should have 1 to ",
            longest(kind),
            " bytes of 0x21 to 0x7e, none of them `#`",
        )
    }

    /// A type that the client doesn't have.
    pub(crate) fn no_type(number: usize) -> Flaw<'static> {
        Flaw::Number("the client has no type ", number, "")
    }

    /// A constant, and why the instruction may not refer to it.
    pub(crate) fn constant(number: usize, wrong: &'static str) -> Flaw<'static> {
        Flaw::Number("constant ", number, wrong)
    }
}

impl fmt::Display for Flaw<'_> {
    fn fmt<W: fmt::Write>(&self, f: &mut fmt::Formatter<W>) -> fmt::Result {
        match *self {
            Flaw::Unmet(rule) => f.write_str(rule),
            Flaw::Word(word, wrong) => {
                let word = Quoted(word);
                write!(f, "{word} {wrong}")
            }
            Flaw::Operand(operand, wrong) => write!(f, "operand {operand} {wrong}"),
            Flaw::Number(before, number, after) => write!(f, "{before}{number}{after}"),
            Flaw::Pair(first, one, second, two) => write!(f, "{first}{one}{second}{two}"),
            Flaw::Should(what, found, right) => write!(
                f,
                "{what} is {found}, but should be {right}"
            ),
            Flaw::Keys(first, last) => write!(
                f,
                "the key {last} follows {first}, but keys should ascend"
            ),
            Flaw::Block(found, wanted) => {
                let (found, wanted) = (BlockContents(found), BlockContents(wanted));
                write!(f, "the block is {found}, but should be {wanted}")
            }
            Flaw::Count {
                operation,
                wanted,
                found,
            } => {
                let (word, operands) = (operation.word(), Operands(operation));
                write!(
                    f,
                    "the number of words after {word} should be {wanted}, but is {found}{operands}"
                )
            }
            Flaw::Misplaced(rule, None) => write!(f, "{rule}, but no part is open here"),
            Flaw::Misplaced(rule, Some(open)) => {
                let missing = open.missing();
                write!(f, "{rule}, but {open} is open here: {missing}")
            }
            Flaw::Deep(open) => {
                let rule = rule::DEPTH;
                write!(f, "{rule}; the innermost is {open}")
            }
            Flaw::Unclosed(open) => {
                let rule = rule::CLOSED;
                write!(f, "{open} is still open; {rule}")
            }
            Flaw::Capitals(word, operation) => {
                let (word, right) = (Quoted(word), operation.word());
                write!(f, "{word} should be in capitals: {right}")
            }
        }
    }
}

/// The operands of an operation in words, after a colon if there are any.
#[derive(Clone, Copy)]
struct Operands(Operation);

impl fmt::Display for Operands {
    fn fmt<W: fmt::Write>(&self, f: &mut fmt::Formatter<W>) -> fmt::Result {
        let row = self.0.row();
        let words = [
            operand_word(row.a),
            operand_word(row.b),
            operand_word(row.c),
            number_word(row.number),
        ];
        let mut is_first = true;
        for word in words {
            if !word.is_empty() {
                f.write_str(if is_first { ": " } else { ", " })?;
                f.write_str(word)?;
                is_first = false;
            }
        }
        Ok(())
    }
}

fn operand_word(operand: Operand) -> &'static str {
    match operand {
        Operand::Unused => "",
        Operand::Register => "a register",
        Operand::Optional => "a register or `-`",
    }
}

fn number_word(number: Number) -> &'static str {
    match number {
        Number::Unused => "",
        Number::Any => "a number",
        Number::Turns => "the most turns",
        Number::TypeId => "a type",
        Number::Text => "a text",
        Number::TypedName => "a type, a name",
    }
}

/// Whether bytes are a valid name of a kind.
pub(crate) fn is_name(kind: ConstantKind, bytes: &[u8]) -> bool {
    !bytes.is_empty()
        && bytes.len() <= longest(kind)
        && bytes
            .iter()
            .all(|byte| matches!(byte, b'!'..=b'~') && *byte != b'#')
}

/// The most bytes of a constant of a kind.
fn longest(kind: ConstantKind) -> usize {
    match kind {
        ConstantKind::Text => 255,
        ConstantKind::Name => 63,
        ConstantKind::Family => 42,
    }
}
