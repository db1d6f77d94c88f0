//! Lines of a text and their words.

use crate::paths::split;

/// The lines of a text that are still to come.
#[derive(Clone, Copy)]
pub(crate) struct Lines<'a> {
    pub(crate) rest: &'a [u8],
    /// The number of the last line that was returned, from 1.
    pub(crate) number: u32,
}

impl<'a> Lines<'a> {
    pub(crate) fn new(text: &'a [u8]) -> Lines<'a> {
        Lines {
            rest: text,
            number: 0,
        }
    }

    /// The next line, without spaces at its ends, that isn't empty and no comment.
    pub(crate) fn next_meant(&mut self) -> Option<&'a [u8]> {
        for _ in 0..self.rest.len() {
            let line = self.next()?.trim_ascii();
            if !matches!(line, [] | [b';', ..]) {
                return Some(line);
            }
        }
        None
    }

    fn next(&mut self) -> Option<&'a [u8]> {
        if self.rest.is_empty() {
            return None;
        }
        self.number = self.number.saturating_add(1);
        let text = self.rest;
        let Some((line, rest)) = split(text, b'\n') else {
            self.rest = &[];
            return Some(text);
        };
        self.rest = rest;
        Some(line)
    }
}

/// The words of a line that are still to come.
#[derive(Clone, Copy)]
pub(crate) struct Words<'a> {
    rest: &'a [u8],
}

impl<'a> Words<'a> {
    pub(crate) fn new(line: &'a [u8]) -> Words<'a> {
        Words { rest: line }
    }

    pub(crate) fn next(&mut self) -> Option<&'a [u8]> {
        let line = self.rest.trim_ascii_start();
        if line.is_empty() {
            return None;
        }
        let Some((word, rest)) = split(line, b' ') else {
            self.rest = &[];
            return Some(line);
        };
        self.rest = rest;
        Some(word)
    }

    /// The line's only word after those that came.
    pub(crate) fn last(&mut self) -> Option<&'a [u8]> {
        let word = self.next()?;
        if self.is_done() { Some(word) } else { None }
    }

    /// Whether all words came.
    pub(crate) fn is_done(&self) -> bool {
        self.rest.trim_ascii_start().is_empty()
    }
}
