//! Explanations of faults in a client file.

use crate::bytes::word;
use crate::explanation::Explanation;
use crate::flaw::{Flaw, Right, is_name};
use crate::mistaken::no_client;
use crate::opened::Spot;
use crate::outline::{Draft, MOST_CONSTANTS, Outline};
use crate::rule;
use client_code::{ConstantKind, ENTRY, Instruction, MAX_TYPES, MOST_INSTRUCTIONS, Operation};
use std::fmt;

/// The position of the first type entry.
const TYPES_AT: usize = 20;

/// A field of a client file. Numbers of entries count from 0.
#[derive(Clone, Copy)]
enum Field {
    /// A word of the header, with the explanation of a wrong one.
    Header(&'static str, &'static str),
    Type(usize),
    Constant(usize),
    Instruction(usize),
    End,
}

impl fmt::Display for Field {
    fn fmt<W: fmt::Write>(&self, f: &mut fmt::Formatter<W>) -> fmt::Result {
        let (what, number) = match *self {
            Field::Header(word, _) => return write!(f, "{word}, in the header"),
            Field::Type(number) => ("the entry of type", number),
            Field::Constant(number) => ("constant", number),
            Field::Instruction(number) => ("instruction", number),
            Field::End => return f.write_str("what follows the last instruction"),
        };
        write!(f, "{what} {number}")
    }
}

/// A constant as it is in a file.
#[derive(Clone, Copy)]
struct Spelled<'a> {
    kind: u8,
    bytes: &'a [u8],
    /// The position after it.
    end: usize,
}

/// The bytes of a client file.
#[derive(Clone, Copy)]
struct File<'a> {
    bytes: &'a [u8],
}

/// Explains which field of a client file begins at a byte, and what is wrong with it.
pub(crate) fn add_bad_code(explanation: &mut Explanation, bytes: Option<&[u8]>, at: u32) {
    let Some(bytes) = bytes else {
        return;
    };
    let file = File { bytes };
    let field = file.field(at as usize);
    let flaw = file.flaw(field, at as usize);
    write!(
        explanation,
        "byte {at} of the client file begins {field}\n{flaw}\n"
    );
}

impl<'a> File<'a> {
    fn word(&self, at: usize) -> usize {
        word(self.bytes, at) as usize
    }

    fn type_count(&self) -> usize {
        self.word(8).min(MAX_TYPES)
    }

    fn constant_count(&self) -> usize {
        self.word(12).min(MOST_CONSTANTS)
    }

    fn constants_at(&self) -> usize {
        TYPES_AT.saturating_add(self.type_count().saturating_mul(ENTRY))
    }

    /// The field that begins at a position.
    fn field(&self, at: usize) -> Field {
        let constants_at = self.constants_at();
        match at {
            0..=3 => Field::Header("the first 4 bytes", no_client(self.bytes)),
            4..=7 => Field::Header(
                "the version",
                "it should be 2 if a type is `shared`, else 1",
            ),
            8..=11 => Field::Header("the number of types", "it should be 0 to 32"),
            12..=15 => Field::Header("the number of constants", "it should be 0 to 256"),
            16..=19 => Field::Header("the number of instructions", "it should be 0 to 4096"),
            _ if at < constants_at => Field::Type((at - TYPES_AT) / ENTRY),
            _ => self.later_field(at),
        }
    }

    /// The field that begins at a position after the types.
    fn later_field(&self, at: usize) -> Field {
        let mut from = self.constants_at();
        for number in 0..self.constant_count() {
            match self.constant(from) {
                Some(constant) if at >= constant.end => from = constant.end,
                Some(_) | None => return Field::Constant(number),
            }
        }
        let number = at.saturating_sub(from) / Instruction::SIZE;
        if number < self.word(16) {
            Field::Instruction(number)
        } else {
            Field::End
        }
    }

    fn constant(&self, at: usize) -> Option<Spelled<'a>> {
        let [kind, len, rest @ ..] = self.bytes.get(at..)? else {
            return None;
        };
        let bytes = rest.get(..usize::from(*len))?;
        Some(Spelled {
            kind: *kind,
            bytes,
            end: at.saturating_add(2).saturating_add(bytes.len()),
        })
    }

    /// What is wrong with a field that begins at a position.
    fn flaw(&self, field: Field, at: usize) -> Flaw<'static> {
        match field {
            Field::Header(_, wrong) => Flaw::Unmet(wrong),
            Field::Type(_) => self.type_flaw(at),
            Field::Constant(_) => self.constant_flaw(at),
            Field::Instruction(number) => self.instruction_flaw(number, at),
            Field::End => self.end_flaw(),
        }
    }

    /// What is wrong with a type entry.
    fn type_flaw(&self, at: usize) -> Flaw<'static> {
        let table = self
            .bytes
            .get(TYPES_AT..self.constants_at().min(self.bytes.len()))
            .unwrap_or(&[]);
        entry_flaw(table, at.saturating_sub(TYPES_AT) / ENTRY, true)
    }

    /// What is wrong with a constant.
    fn constant_flaw(&self, at: usize) -> Flaw<'static> {
        let Some(Spelled { kind, bytes, .. }) = self.constant(at) else {
            return Flaw::Unmet(rule::WHOLE);
        };
        match ConstantKind::from_number(kind) {
            None => Flaw::Number(
                "",
                usize::from(kind),
                " isn't a kind: 1 is a text, 2 an exact name, 3 a family",
            ),
            Some(ConstantKind::Text) => Flaw::Unmet(rule::ANY),
            Some(kind) if !is_name(kind, bytes) => Flaw::name(kind),
            Some(_) => Flaw::Unmet(rule::DIFFER),
        }
    }

    /// What is wrong with the instruction with this number, which begins at a position.
    fn instruction_flaw(&self, number: usize, at: usize) -> Flaw<'static> {
        let Some(spelled) = self.bytes.get(at..at.saturating_add(Instruction::SIZE)) else {
            return Flaw::Unmet(rule::WHOLE);
        };
        match Draft::read(spelled) {
            Some(instruction) => {
                let mut outline = self.outline(number);
                outline
                    .flaw(instruction, spot_of(number))
                    .unwrap_or(Flaw::Unmet(rule::ANY))
            }
            None => Flaw::Number(
                "",
                usize::from(spelled.first().copied().unwrap_or_default()),
                " isn't an operation",
            ),
        }
    }

    fn end_flaw(&self) -> Flaw<'static> {
        let outline = self.outline(self.word(16).min(MOST_INSTRUCTIONS as usize));
        match outline.innermost() {
            Some(open) => Flaw::Unclosed(open),
            None => Flaw::Unmet(rule::ENDS),
        }
    }

    /// What comes before the instruction with this number.
    fn outline(&self, number: usize) -> Outline {
        let mut outline = Outline::new(self.type_count(), word(self.bytes, 4));
        let code = self.add_constants(&mut outline);
        for at in 0..number {
            if let Some(operation) = self.operation(code, at) {
                outline.pass(operation, spot_of(at));
            }
        }
        outline
    }

    /// The operation of the instruction with this number, if the code begins at `code`.
    fn operation(&self, code: usize, number: usize) -> Option<Operation> {
        let at = code.saturating_add(number.saturating_mul(Instruction::SIZE));
        Operation::from_number(*self.bytes.get(at)?)
    }

    /// Adds the constants, and returns the position after them.
    fn add_constants(&self, outline: &mut Outline) -> usize {
        let mut at = self.constants_at();
        for _ in 0..self.constant_count() {
            let Some(constant) = self.constant(at) else {
                break;
            };
            outline.add_constant(ConstantKind::from_number(constant.kind).unwrap_or_default());
            at = constant.end;
        }
        at
    }
}

/// The place of the instruction with this number.
fn spot_of(number: usize) -> Spot {
    Spot::Instruction(u32::try_from(number).unwrap_or(u32::MAX))
}

/// What is wrong with the entry of a number in a type table that is no valid type. `shares` is whether it may be the type of shared
/// cells.
pub(crate) fn entry_flaw(table: &[u8], number: usize, shares: bool) -> Flaw<'static> {
    let at = number.saturating_mul(ENTRY);
    let Some([kind, count, rest @ ..]) = table.get(at..at.saturating_add(ENTRY)) else {
        return Flaw::Unmet(rule::WHOLE);
    };
    let right = match *kind {
        1 | 2 => *count == 0,
        3..=7 => *count == 1,
        8 => matches!(*count, 1..=8),
        9 if shares => *count == 1,
        _ if shares => return kind_flaw(*kind, rule::MORE_KINDS),
        _ => return kind_flaw(*kind, rule::KINDS),
    };
    if !right {
        return count_flaw(*kind, *count);
    }
    let parts = rest.get(..usize::from(*count)).unwrap_or(&[]);
    let zeros = rest.get(usize::from(*count)..).unwrap_or(&[]);
    if zeros.iter().any(|byte| *byte != 0) {
        return Flaw::Unmet(rule::ZEROS);
    }
    parts_flaw(table, number, *kind == 8, parts)
}

fn kind_flaw(kind: u8, right: &'static str) -> Flaw<'static> {
    Flaw::should("the kind of the type", u32::from(kind), Right::Words(right))
}

/// What is wrong with the number of components of a kind of type.
fn count_flaw(kind: u8, count: u8) -> Flaw<'static> {
    let right = match kind {
        1 | 2 => "0",
        8 => "1 to 8",
        _ => "1",
    };
    Flaw::should(
        "the number of components",
        u32::from(count),
        Right::Words(right),
    )
}

/// What is wrong with the components of the type with a number.
fn parts_flaw(table: &[u8], number: usize, is_struct: bool, parts: &[u8]) -> Flaw<'static> {
    for part in parts {
        let part = usize::from(*part);
        if is_struct && part >= number {
            return Flaw::Number("component ", part, " of the struct should come before it");
        }
        if matches!(table.get(part.saturating_mul(ENTRY)), None | Some(0)) {
            return Flaw::Number("component ", part, " should be a type of the table");
        }
    }
    Flaw::Unmet(rule::LARGE)
}
