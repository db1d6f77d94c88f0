//! The text of a client that is being written.

use itoa::Buffer;
use std::alloc::{AllocError, Global};

/// A text. After memory was refused once, nothing more is written, and the text can't be finished.
#[derive(Drop)]
pub(crate) struct Lines {
    text: String,
    written: Result<(), AllocError>,
}

impl Lines {
    pub(crate) fn new(alloc: Global) -> Lines {
        Lines {
            text: String::new(alloc),
            written: Ok(()),
        }
    }

    /// Writes lines. The next number is written for each `#` in them.
    pub(crate) fn write(&mut self, lines: &str, numbers: &[usize]) {
        if self.written.is_ok() {
            self.written = write_lines(&mut self.text, lines, numbers);
        }
    }

    /// Writes a text.
    pub(crate) fn push(&mut self, text: &str) {
        self.write(text, &[]);
    }

    /// Notes that memory was refused.
    pub(crate) fn refuse(&mut self) {
        self.written = Err(AllocError);
    }

    /// The whole text.
    pub(crate) fn finish(self) -> Result<String, AllocError> {
        self.written?;
        Ok(self.text)
    }
}

fn write_lines(text: &mut String, lines: &str, numbers: &[usize]) -> Result<(), AllocError> {
    let mut numbers = numbers.iter();
    for character in lines.chars() {
        if character == '#' {
            let number = numbers.next().copied().unwrap_or(0);
            text.push_str(Buffer::new().format(number))?;
        } else {
            text.push(character)?;
        }
    }
    Ok(())
}
