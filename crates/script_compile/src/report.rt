//! The lines that tell what is wrong with a program, for people.

use script_syntax::Span;
use std::alloc::{AllocError, Global};
use std::fmt::{Display, Write};
use std::str;

/// How many bytes of a line are shown at most, before the beginning of an error and after it.
const MOST_SHOWN: usize = 200;

/// Errors or warnings of the program in a file, in lines.
#[derive(Drop)]
pub struct Report<'p> {
    alloc: Global,
    file: &'p str,
    /// The program's text.
    pub text: &'p [u8],
    lines: String,
}

impl<'p> Report<'p> {
    /// No lines, of the program in a file with this name.
    pub fn new(alloc: Global, file: &'p str, text: &'p [u8]) -> Report<'p> {
        Report {
            alloc,
            file,
            text,
            lines: String::new(alloc),
        }
    }
}

impl Report<'_> {
    /// Adds the lines of an error or a warning, whose `head` is that word: its position and its message, the line of the program,
    /// and the hint.
    pub fn add<M: Display, H: Display + Drop>(
        &mut self,
        head: &str,
        span: Span,
        message: &M,
        hint: Option<H>,
    ) -> Result<(), AllocError> {
        let (file, text) = (self.file, self.text);
        let (line, column) = (span.line, span.column);
        write!(self.lines, "{file}:{line}:{column}: {head}: {message}\n")?;
        write_source(&mut self.lines, text, span)?;
        match hint {
            Some(hint) => write!(self.lines, "hint: {hint}\n"),
            None => Ok(()),
        }
    }

    /// The lines.
    pub fn into_lines(self) -> Result<String, AllocError> {
        printable(self.alloc, self.lines.as_str())
    }
}

/// Writes the line of a text that a span begins in, and carets under the span's part of it. A long line isn't shown.
fn write_source(lines: &mut String, text: &[u8], span: Span) -> Result<(), AllocError> {
    let (Some(before), Some(after)) = (before_span(text, span), after_span(text, span)) else {
        return Ok(());
    };
    let (Ok(first), Ok(rest)) = (str::from_utf8(before), str::from_utf8(after)) else {
        return Ok(());
    };
    write!(lines, "{first}{rest}\n")?;
    write_carets(lines, first, width_of(after, span))
}

/// Writes a line with this many carets, under what follows the first part of a line.
fn write_carets(lines: &mut String, before: &str, count: usize) -> Result<(), AllocError> {
    for character in before.chars() {
        lines.push(if character == '\t' { '\t' } else { ' ' })?;
    }
    for _ in 0..count {
        lines.push('^')?;
    }
    lines.push('\n')
}

/// The bytes of a span's line before the span, unless they are too many.
fn before_span(text: &[u8], span: Span) -> Option<&[u8]> {
    let first = span.start.saturating_sub(MOST_SHOWN);
    let before = text.get(first..span.start)?;
    match before.iter().rposition(|byte| *byte == b'\n') {
        Some(at) => before.get(at.saturating_add(1)..),
        None if first == 0 => Some(before),
        None => None,
    }
}

/// The bytes of a span's line from the span on, unless they are too many.
fn after_span(text: &[u8], span: Span) -> Option<&[u8]> {
    let end = span.start.saturating_add(MOST_SHOWN).min(text.len());
    let after = text.get(span.start..end)?;
    match after.iter().position(|byte| *byte == b'\n') {
        Some(at) => after.get(..at),
        None if end == text.len() => Some(after),
        None => None,
    }
}

/// How many characters of a line a span has, at least 1. The line is given from the span on.
fn width_of(after: &[u8], span: Span) -> usize {
    let len = span.end.saturating_sub(span.start).min(after.len());
    match str::from_utf8(after.get(..len).unwrap_or_default()) {
        Ok(words) => words.chars().count().max(1),
        Err(_) => 1,
    }
}

/// The lines, with a replacement for each control character that a program's text brought into them.
fn printable(alloc: Global, lines: &str) -> Result<String, AllocError> {
    let mut shown = String::new(alloc);
    for character in lines.chars() {
        shown.push(replaced(character))?;
    }
    Ok(shown)
}

fn replaced(character: char) -> char {
    if character.is_control() && character != '\n' && character != '\t' {
        '\u{fffd}'
    } else {
        character
    }
}
