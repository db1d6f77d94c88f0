//! Explanations of faults in a client's text.

use crate::explanation::Explanation;
use crate::flaw::{Flaw, is_name};
use crate::mistaken::no_text;
use crate::opened::Spot;
use crate::outline::{Draft, MOST_CONSTANTS, Outline, operand_words};
use crate::pieces::Pieces;
use crate::quoted::Quoted;
use crate::rule;
use crate::slip::slip;
use client_code::{
    ConstantKind, Instruction, MAX_TYPES, MOST_INSTRUCTIONS, Number, Operand, Operation,
};
use std::alloc::{AllocError, Global};
use std::str;

/// The line with this number, counted from 1, without its end.
pub(crate) fn line(text: &[u8], number: u32) -> Option<&[u8]> {
    let mut lines = Pieces::lines(text);
    for _ in 0..number.checked_sub(1)? {
        lines.next()?;
    }
    lines.next()
}

/// For each instruction of a text, its line, counted from 1.
pub fn instruction_lines(alloc: Global, text: &[u8]) -> Result<Vec<usize>, AllocError> {
    let mut found = Vec::new(alloc);
    let mut lines = Pieces::lines(text);
    let mut number = 0usize;
    for _ in 0..=text.len() {
        let Some(line) = lines.next() else {
            break;
        };
        number = number.saturating_add(1);
        if matches!(Statement::of(line), Statement::Instruction(_)) {
            found.push(number)?;
        }
    }
    Ok(found)
}

/// Quotes the line with this number, counted from 1, and explains what is wrong with it.
pub(crate) fn add_bad_line(explanation: &mut Explanation, source: Option<&[u8]>, number: u32) {
    let Some(source) = source else {
        return;
    };
    if let Some(other) = no_text(source) {
        return explanation.add(other);
    }
    match meant_line(source, number) {
        Some(shown) => {
            let flaw = line_flaw(source, number, shown);
            let shown = Quoted(shown);
            write!(explanation, "line {number}: {shown}\n{flaw}\n");
        }
        None => {
            let flaw = unclosed(source, number);
            write!(explanation, "line {number}, after the last line: {flaw}\n");
        }
    }
}

/// What is wrong with the end of a text, which has an open part.
fn unclosed(source: &[u8], number: u32) -> Flaw<'static> {
    match outline(source, number).innermost() {
        Some(open) => Flaw::Unclosed(open),
        None => Flaw::Unmet(rule::CLOSED),
    }
}

/// The line with this number, unless it is empty or a comment.
fn meant_line(source: &[u8], number: u32) -> Option<&[u8]> {
    match line(source, number)? {
        [b';', ..] => None,
        shown if first_word(shown).is_empty() => None,
        shown => Some(shown),
    }
}

pub(crate) fn first_word(line: &[u8]) -> &[u8] {
    Pieces::words(line).next_word().unwrap_or(&[])
}

/// Whether the first line of a file that is neither empty nor a comment is one of a client's text.
pub(crate) fn begins_as_text(bytes: &[u8]) -> bool {
    let mut lines = Pieces::lines(bytes);
    for _ in 0..bytes.len() {
        match lines.next() {
            Some([b';', ..]) => {}
            Some(line) if first_word(line).is_empty() => {}
            Some(line) => return !matches!(Statement::of(line), Statement::Unknown),
            None => break,
        }
    }
    false
}

/// The kind of a line, by its first word.
#[derive(Clone, Copy)]
enum Statement {
    Type,
    Constant(ConstantKind),
    Instruction(Operation),
    Unknown,
}

impl Statement {
    fn of(line: &[u8]) -> Statement {
        if line.starts_with(b"text ") {
            return Statement::Constant(ConstantKind::Text);
        }
        let word = first_word(line);
        if word == b"type".as_slice() {
            return Statement::Type;
        }
        if word == b"name".as_slice() {
            return Statement::Constant(ConstantKind::Name);
        }
        if word == b"family".as_slice() {
            return Statement::Constant(ConstantKind::Family);
        }
        match Operation::from_word(word) {
            Some(operation) => Statement::Instruction(operation),
            None => Statement::Unknown,
        }
    }
}

/// What comes before the line with this number, and the types of the whole text.
fn outline(source: &[u8], number: u32) -> Outline {
    let mut outline = Outline::new(type_count(source), version(source));
    let mut lines = Pieces::lines(source);
    for at in 1..number {
        match lines.next() {
            Some(line) => add_statement(&mut outline, Statement::of(line), Spot::Line(at)),
            None => break,
        }
    }
    outline
}

fn add_statement(outline: &mut Outline, statement: Statement, spot: Spot) {
    match statement {
        Statement::Constant(kind) => outline.add_constant(kind),
        Statement::Instruction(operation) => {
            outline.pass(operation, spot);
        }
        Statement::Type | Statement::Unknown => {}
    }
}

fn type_count(source: &[u8]) -> usize {
    let mut count = 0usize;
    let mut lines = Pieces::lines(source);
    for _ in 0..source.len() {
        match lines.next() {
            Some(line) if first_word(line) == b"type".as_slice() => count = count.saturating_add(1),
            Some(_) => {}
            None => break,
        }
    }
    count
}

/// The version of a client file with the types of a text.
fn version(source: &[u8]) -> u32 {
    let mut lines = Pieces::lines(source);
    for _ in 0..source.len() {
        match lines.next() {
            Some(line)
                if first_word(line) == b"type".as_slice()
                    && second_word(line) == b"shared".as_slice() => return 2,
            Some(_) => {}
            None => break,
        }
    }
    1
}

fn line_flaw<'a>(source: &[u8], number: u32, line: &'a [u8]) -> Flaw<'a> {
    if let Some(flaw) = slip(line) {
        return flaw;
    }
    let outline = outline(source, number);
    let statement = Statement::of(line);
    if let Some(rule) = misplaced(&outline, statement) {
        return Flaw::Unmet(rule);
    }
    let mut words = Pieces::words(line);
    let word = words.next_word();
    match statement {
        Statement::Unknown => Flaw::Word(word.unwrap_or(&[]), rule::KNOWN),
        Statement::Type => type_flaw(words, outline.types),
        Statement::Constant(ConstantKind::Text) => Flaw::Unmet(text_flaw(line)),
        Statement::Constant(kind) => name_flaw(source, number, kind, words),
        Statement::Instruction(operation) => {
            instruction_flaw(operation, words, outline, Spot::Line(number))
        }
    }
}

/// The rule that a statement breaks by its place.
fn misplaced(outline: &Outline, statement: Statement) -> Option<&'static str> {
    match statement {
        Statement::Type => (!outline.constants.is_empty() || outline.instructions > 0).then_some(
            rule::ORDER,
        ),
        Statement::Constant(_) if outline.instructions > 0 => Some(rule::ORDER),
        Statement::Constant(_) => (outline.constants.len() >= MOST_CONSTANTS).then_some(rule::FEW),
        Statement::Instruction(_) => (outline.instructions >= MOST_INSTRUCTIONS).then_some(
            rule::FEW,
        ),
        Statement::Unknown => None,
    }
}

/// The words for types, each with the most parts that may follow it.
const TYPES: [(&str, usize); 9] = [
    ("i64", 0),
    ("str", 0),
    ("vec", 1),
    ("list", 1),
    ("flat_map", 1),
    ("map", 1),
    ("own", 1),
    ("struct", 8),
    ("shared", 1),
];

fn most_parts(word: &[u8]) -> Option<usize> {
    for (name, most) in &TYPES {
        if name.as_bytes() == word {
            return Some(*most);
        }
    }
    None
}

/// What is wrong with a type, in a client with `types` types.
fn type_flaw<'a>(mut words: Pieces<'a>, types: usize) -> Flaw<'a> {
    let Some(word) = words.next_word() else {
        return Flaw::Unmet(rule::PARTS);
    };
    let Some(most) = most_parts(word) else {
        return Flaw::Word(
            word,
            "isn't a type: i64, str, vec, list, flat_map, map, own, struct or shared",
        );
    };
    let parts = words.count_words();
    if parts > most || (most > 0 && parts == 0) {
        return Flaw::Unmet(rule::PARTS);
    }
    match wrong_part(words, parts, types) {
        Some(part) => Flaw::Word(part, "should be a type of this client, such as `t0`"),
        None if types > MAX_TYPES => Flaw::Unmet(rule::FEW),
        None => Flaw::Unmet(rule::TYPES),
    }
}

/// The first of `parts` words that is no type of a client with `types` types.
fn wrong_part<'a>(mut words: Pieces<'a>, parts: usize, types: usize) -> Option<&'a [u8]> {
    for _ in 0..parts {
        let part = words.next_word()?;
        match index(b't', part) {
            Some(type_id) if usize::from(type_id) < types => {}
            Some(_) | None => return Some(part),
        }
    }
    None
}

/// What is wrong with a text.
fn text_flaw(line: &[u8]) -> &'static str {
    let mut left = line.get(5..).unwrap_or(&[]);
    for _ in 0..line.len() {
        left = match left {
            [] => return rule::SHORT_TEXT,
            [b'\\', high, low, rest @ ..] if is_hex(*high) && is_hex(*low) => rest,
            [b'\\', ..] => return rule::TEXT_BYTES,
            [b' '..=b'~', rest @ ..] => rest,
            [_, ..] => return rule::TEXT_BYTES,
        };
    }
    rule::SHORT_TEXT
}

fn is_hex(digit: u8) -> bool {
    matches!(digit, b'0'..=b'9' | b'a'..=b'f')
}

fn name_flaw<'a>(
    source: &[u8],
    number: u32,
    kind: ConstantKind,
    mut words: Pieces<'a>,
) -> Flaw<'a> {
    let (Some(name), None) = (words.next_word(), words.next_word()) else {
        return Flaw::Unmet(rule::ONE_WORD);
    };
    if !is_name(kind, name) {
        return Flaw::name(kind);
    }
    Flaw::Unmet(if is_named_before(source, number, kind, name) {
        rule::DIFFER
    } else {
        rule::ANY
    })
}

/// Whether a line before the one with this number has this name.
fn is_named_before(source: &[u8], number: u32, kind: ConstantKind, name: &[u8]) -> bool {
    let mut lines = Pieces::lines(source);
    for _ in 1..number {
        match lines.next() {
            Some(line) if is_naming(line, kind, name) => return true,
            Some(_) => {}
            None => break,
        }
    }
    false
}

fn is_naming(line: &[u8], kind: ConstantKind, name: &[u8]) -> bool {
    match Statement::of(line) {
        Statement::Constant(it) if it == kind => second_word(line) == name,
        Statement::Constant(_) | Statement::Type | Statement::Instruction(_) | Statement::Unknown =>
            false,
    }
}

fn second_word(line: &[u8]) -> &[u8] {
    let mut words = Pieces::words(line);
    words.next_word();
    words.next_word().unwrap_or(&[])
}

fn instruction_flaw<'a>(
    operation: Operation,
    mut words: Pieces<'a>,
    mut outline: Outline,
    spot: Spot,
) -> Flaw<'a> {
    let (wanted, found) = (word_count(operation), words.count_words());
    if found != wanted {
        return Flaw::Count {
            operation,
            wanted,
            found,
        };
    }
    match read_instruction(operation, &mut words) {
        Ok(instruction) => outline
            .flaw(instruction, spot)
            .unwrap_or(Flaw::Unmet(rule::ANY)),
        Err(Misread { word, wrong }) => Flaw::Word(word, wrong),
    }
}

/// A word that isn't what it should be, and what is wrong with it.
#[derive(Clone, Copy)]
struct Misread<'a> {
    word: &'a [u8],
    wrong: &'static str,
}

/// How many words follow an operation.
fn word_count(operation: Operation) -> usize {
    let row = operation.row();
    operand_count(row.a)
        .saturating_add(operand_count(row.b))
        .saturating_add(operand_count(row.c))
        .saturating_add(number_count(row.number))
}

/// How many words an operand has.
fn operand_count(operand: Operand) -> usize {
    match operand {
        Operand::Unused => 0,
        Operand::Register | Operand::Optional => 1,
    }
}

/// How many words a number has.
fn number_count(number: Number) -> usize {
    match number {
        Number::Unused => 0,
        Number::Any | Number::Turns | Number::TypeId | Number::Text => 1,
        Number::TypedName => 2,
    }
}

fn read_instruction<'a>(
    operation: Operation,
    words: &mut Pieces<'a>,
) -> Result<Draft, Misread<'a>> {
    let row = operation.row();
    Ok(Draft {
        operation,
        a: read_operand(row.a, words)?,
        b: read_operand(row.b, words)?,
        c: read_operand(row.c, words)?,
        number: read_number(row.number, words)?,
    })
}

fn read_operand<'a>(operand: Operand, words: &mut Pieces<'a>) -> Result<u8, Misread<'a>> {
    if operand == Operand::Unused {
        return Ok(0);
    }
    let word = words.next_word().unwrap_or(&[]);
    if operand == Operand::Optional && word == b"-".as_slice() {
        return Ok(Instruction::NONE);
    }
    match index(b'r', word) {
        Some(register) if register < Instruction::NONE => Ok(register),
        Some(_) | None => Err(Misread {
            word,
            wrong: operand_words(operand),
        }),
    }
}

fn read_number<'a>(number: Number, words: &mut Pieces<'a>) -> Result<i32, Misread<'a>> {
    match number {
        Number::Unused => Ok(0),
        Number::Any | Number::Turns => read_signed(words),
        Number::TypeId => read_type(words),
        Number::Text => read_constant(words),
        Number::TypedName => {
            let type_id = read_type(words)?;
            let constant = read_constant(words)?;
            Ok(type_id.saturating_mul(256).saturating_add(constant))
        }
    }
}

fn read_signed<'a>(words: &mut Pieces<'a>) -> Result<i32, Misread<'a>> {
    let word = words.next_word().unwrap_or(&[]);
    match signed(word) {
        Some(number) => Ok(number),
        None => Err(Misread {
            word,
            wrong: "should be a decimal number of 32 bits, without leading zeros",
        }),
    }
}

fn read_type<'a>(words: &mut Pieces<'a>) -> Result<i32, Misread<'a>> {
    read_index(b't', words, "should be a type, such as `t0`")
}

fn read_constant<'a>(words: &mut Pieces<'a>) -> Result<i32, Misread<'a>> {
    read_index(b'k', words, "should be a constant, such as `k0`")
}

fn read_index<'a>(
    letter: u8,
    words: &mut Pieces<'a>,
    wrong: &'static str,
) -> Result<i32, Misread<'a>> {
    let word = words.next_word().unwrap_or(&[]);
    match index(letter, word) {
        Some(index) => Ok(i32::from(index)),
        None => Err(Misread { word, wrong }),
    }
}

/// The number after a letter. Leading zeros are wrong.
fn index(letter: u8, word: &[u8]) -> Option<u8> {
    let (first, digits) = word.split_first()?;
    if *first != letter {
        return None;
    }
    u8::try_from(signed(digits)?).ok()
}

/// The signed number in a word. A plus sign and leading zeros are wrong.
fn signed(word: &[u8]) -> Option<i32> {
    let has_leading_zero = word.starts_with(b"-0") || (word.starts_with(b"0") && word.len() > 1);
    if has_leading_zero || word.starts_with(b"+") {
        return None;
    }
    str::from_utf8(word).ok()?.parse().ok()
}
