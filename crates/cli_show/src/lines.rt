use crate::extent::Extent;
use std::alloc::{AllocError, Global};
use std::fmt::Display;
use std::io::Write;

/// The deepest level with indentation. A deeper line begins with its level instead, so that the length of all lines is
/// proportional to their contents.
const DEEPEST: usize = 20;

/// The hexadecimal digits.
static DIGITS: [u8; 16] = [
    b'0', b'1', b'2', b'3', b'4', b'5', b'6', b'7', b'8', b'9', b'a', b'b', b'c', b'd', b'e', b'f',
];

/// Lines of text, indented by level. It remembers whether memory for it was refused.
#[derive(Drop)]
pub(crate) struct IndentedText {
    alloc: Global,
    text: Vec<u8>,
    is_refused: bool,
}

impl IndentedText {
    pub(crate) fn new(alloc: Global) -> IndentedText {
        IndentedText {
            alloc,
            text: Vec::new(alloc),
            is_refused: false,
        }
    }

    pub(crate) fn alloc(&self) -> Global {
        self.alloc
    }

    /// Begins a line at a level.
    pub(crate) fn begin(&mut self, level: usize) {
        self.indent(level);
        if level > DEEPEST {
            write!(self, "({level}) ");
        }
    }

    /// Begins a line that need not tell its level.
    pub(crate) fn indent(&mut self, level: usize) {
        for _ in 0..level.min(DEEPEST) {
            self.add(b"  ");
        }
    }

    pub(crate) fn add(&mut self, text: &[u8]) {
        self.is_refused |= self.text.extend_from_slice(text).is_err();
    }

    /// What `write!` calls.
    pub(crate) fn write_fmt<D: Display + Drop>(&mut self, words: D) {
        self.is_refused |= write!(self.text, "{words}").is_err();
    }

    /// Adds a word and a number.
    pub(crate) fn add_number(&mut self, word: &str, number: i64) {
        write!(self, "{word}{number}");
    }

    /// Adds an index, from 0.
    pub(crate) fn add_index(&mut self, index: u32) {
        write!(self, "[{index}]");
    }

    /// Adds bytes in quotation marks, with escapes for bytes that aren't visible.
    pub(crate) fn add_quoted(&mut self, bytes: &[u8]) {
        self.add(b"\"");
        for byte in bytes.escape_ascii() {
            self.add(&[byte]);
        }
        self.add(b"\"");
    }

    /// Adds a string's bytes in quotation marks, and its length if not all bytes are shown.
    pub(crate) fn add_text(&mut self, bytes: &[u8], extent: Extent) {
        let shown = bytes.get(..extent.bytes()).unwrap_or(bytes);
        self.add_quoted(shown);
        if shown.len() < bytes.len() {
            let len = i64::try_from(bytes.len()).unwrap_or(i64::MAX);
            self.add_number(".. of ", len);
        }
    }

    /// Adds bytes as a client's text spells them: as `\` and two hexadecimal digits if they can't mean themselves.
    pub(crate) fn add_spelled(&mut self, bytes: &[u8]) {
        for byte in bytes {
            self.add_byte(*byte);
        }
    }

    fn add_byte(&mut self, byte: u8) {
        if matches!(byte, b' '..=b'~') && byte != b'\\' {
            return self.add(&[byte]);
        }
        let (high, low) = (byte as usize / 16 % 16, byte as usize % 16);
        self.add(&[b'\\', DIGITS[high], DIGITS[low]]);
    }

    /// Adds the first `len` bytes of a bar, or all.
    pub(crate) fn add_bar(&mut self, bar: &[u8], len: u32) {
        self.add(bar.get(..len as usize).unwrap_or(bar));
    }

    pub(crate) fn end(&mut self) {
        self.add(b"\n");
    }

    pub(crate) fn into_bytes(self) -> Result<Vec<u8>, AllocError> {
        if self.is_refused {
            return Err(AllocError);
        }
        Ok(self.text)
    }
}
