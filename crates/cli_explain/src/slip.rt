//! Slips in the form of a line that other assemblers allow.

use crate::flaw::Flaw;
use crate::pieces::Pieces;
use crate::text::first_word;
use arrayvec::ArrayVec;
use client_code::Operation;

/// The length of the longest mnemonic, and one byte more.
const LONG: usize = 8;

/// What is wrong with the form of a line that isn't a comment, if it is one of these slips. A line without a fault has none.
pub(crate) fn slip(line: &[u8]) -> Option<Flaw<'_>> {
    if line.ends_with(b"\r") {
        return Some(Flaw::Unmet(
            "the line ends with a carriage return: lines should end with a line feed alone",
        ));
    }
    if line.starts_with(b"text ") {
        return None;
    }
    if line.contains(&b'\t') {
        return Some(Flaw::Unmet(
            "the line has a tab: words are separated by spaces, and only spaces may be before the first one",
        ));
    }
    comment_slip(line).or_else(|| small_slip(line))
}

/// A comment that doesn't begin with the line.
fn comment_slip(line: &[u8]) -> Option<Flaw<'_>> {
    let mut words = Pieces::words(line);
    let first = words.next_word()?;
    if first.starts_with(b";") {
        return Some(Flaw::Unmet(
            "a comment is a line whose first byte is `;`, and here a space is before it",
        ));
    }
    for _ in 0..line.len() {
        if words.next_word()?.starts_with(b";") {
            return Some(Flaw::Unmet(
                "a comment has to be a line of its own, whose first byte is `;`",
            ));
        }
    }
    None
}

/// An instruction that isn't in capitals.
fn small_slip(line: &[u8]) -> Option<Flaw<'_>> {
    let word = first_word(line);
    let mut capitals = ArrayVec::<u8, LONG>::new();
    for byte in word {
        capitals.try_push(byte.to_ascii_uppercase()).ok()?;
    }
    let operation = Operation::from_word(capitals.as_slice())?;
    (operation.word().as_bytes() != word).then_some(Flaw::Capitals(word, operation))
}
