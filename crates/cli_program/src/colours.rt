//! Colours in what is written to a terminal.

use std::alloc::{AllocError, Global};
use std::env;
use std::io::{self, Write};
use std::rt::Env;

const RED: &[u8] = b"\x1b[1;31m";

const YELLOW: &[u8] = b"\x1b[1;33m";

const CYAN: &[u8] = b"\x1b[1;36m";

/// Ends a colour.
const PLAIN: &[u8] = b"\x1b[0m";

/// A writer of reports, which can colour `error:`, `warning:`, `hint:`, and the carets under a line of a program.
#[derive(Drop)]
pub struct Coloured<W: Write> {
    alloc: Global,
    writer: W,
    is_coloured: bool,
}

impl<W: Write> Coloured<W> {
    pub fn new(alloc: Global, writer: W, is_coloured: bool) -> Coloured<W> {
        Coloured {
            alloc,
            writer,
            is_coloured,
        }
    }
}

impl<W: Write> Write for Coloured<W> {
    fn write(&mut self, bytes: &[u8]) -> io::Result<usize> {
        if self.is_coloured {
            // without memory for the colours the text is written as it is
            if let Ok(text) = in_colours(self.alloc, bytes) {
                self.writer.write_all(text.as_slice())?;
                return Ok(bytes.len());
            }
        }
        self.writer.write(bytes)
    }

    fn flush(&mut self) -> io::Result<()> {
        self.writer.flush()
    }
}

/// Whether the user wants colours on a terminal: not if `NO_COLOR` is set, or the terminal has none.
pub fn wants_colours(rt: &(impl Env + AllocGlobal)) -> bool {
    !is_set(rt, "NO_COLOR") && !is_dumb(rt)
}

fn is_set(rt: &(impl Env + AllocGlobal), name: &str) -> bool {
    match env::var(rt, name) {
        Ok(value) => !value.is_empty(),
        Err(_) => false,
    }
}

/// Whether the terminal has neither colours nor a cursor that moves.
pub fn is_dumb(rt: &(impl Env + AllocGlobal)) -> bool {
    match env::var(rt, "TERM") {
        Ok(value) => value.as_str() == "dumb",
        Err(_) => true,
    }
}

/// Lines of text, in colours.
fn in_colours(alloc: Global, text: &[u8]) -> Result<Vec<u8>, AllocError> {
    let mut lines = Vec::new(alloc);
    for line in text.split_inclusive(|byte| *byte == b'\n') {
        add_line(&mut lines, line)?;
    }
    Ok(lines)
}

fn add_line(lines: &mut Vec<u8>, line: &[u8]) -> Result<(), AllocError> {
    let Some(mark) = Mark::of(line) else {
        return lines.extend_from_slice(line);
    };
    lines.extend_from_slice(line.get(..mark.start).unwrap_or_default())?;
    lines.extend_from_slice(mark.colour)?;
    lines.extend_from_slice(line.get(mark.start..mark.end).unwrap_or_default())?;
    lines.extend_from_slice(PLAIN)?;
    lines.extend_from_slice(line.get(mark.end..).unwrap_or_default())
}

/// The part of a line that is coloured.
#[derive(Clone, Copy)]
struct Mark {
    start: usize,
    end: usize,
    colour: &'static [u8],
}

impl Mark {
    fn of(line: &[u8]) -> Option<Mark> {
        if line.starts_with(b"hint: ") {
            return Some(Mark::new(0, "hint:", CYAN));
        }
        if line.starts_with(b"error: ") {
            return Some(Mark::new(0, "error:", RED));
        }
        if let Some(at) = position_of(line, b": error: ") {
            return Some(Mark::new(at.saturating_add(2), "error:", RED));
        }
        if let Some(at) = position_of(line, b": warning: ") {
            return Some(Mark::new(at.saturating_add(2), "warning:", YELLOW));
        }
        Mark::of_carets(line)
    }

    fn new(start: usize, word: &str, colour: &'static [u8]) -> Mark {
        Mark {
            start,
            end: start.saturating_add(word.len()),
            colour,
        }
    }

    /// A line of spaces and carets.
    fn of_carets(line: &[u8]) -> Option<Mark> {
        let start = count_of(line, b' ');
        let carets = count_of(line.get(start..)?, b'^');
        let end = start.saturating_add(carets);
        if carets > 0 && line.get(end..) == Some(b"\n".as_slice()) {
            return Some(Mark {
                start,
                end,
                colour: RED,
            });
        }
        None
    }
}

/// The position where a text begins in a line.
fn position_of(line: &[u8], text: &[u8]) -> Option<usize> {
    for at in 0..line.len() {
        if line.get(at..).unwrap_or_default().starts_with(text) {
            return Some(at);
        }
    }
    None
}

/// How many times a line begins with this byte.
fn count_of(line: &[u8], byte: u8) -> usize {
    for at in 0..line.len() {
        if line.get(at).copied() != Some(byte) {
            return at;
        }
    }
    line.len()
}
