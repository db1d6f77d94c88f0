ghost use Rattle.std.specs.Prelude.{false, None};

use arrayvec::ArrayVec;
use client_vm::Sink;
use std::alloc::AllocError;
use std::fmt::Write;

/// How many bytes of a step's output a trace shows.
const MOST_BYTES: usize = 60;

/// A client's output in one step: its first bytes, and its length.
#[derive(Drop)]
pub(crate) struct Gathered {
    first: ArrayVec<u8, MOST_BYTES>,
    len: usize,
}

impl Gathered {
    pub(crate) fn new() -> Gathered {
        Gathered {
            first: ArrayVec::new(),
            len: 0,
        }
    }

    /// Adds the line for the output, if there is any: its first bytes in quotation marks, with escapes for bytes that aren't
    /// visible, and its length if not all bytes are shown.
    pub(crate) fn add_to(&self, text: &mut String) -> Result<(), AllocError> {
        if self.len == 0 {
            return Ok(());
        }
        text.push_str("out \"")?;
        push_escaped(text, self.first.as_slice())?;
        let len = self.len;
        if self.first.len() < len {
            write!(text, "\".. of {len}\n")
        } else {
            text.push_str("\"\n")
        }
    }
}

fn push_escaped(text: &mut String, bytes: &[u8]) -> Result<(), AllocError> {
    for byte in bytes.escape_ascii() {
        text.push(char::from(byte))?;
    }
    Ok(())
}

/// Takes everything, and never fails.
impl Sink for Gathered {
    ghost has_failed = { λ _. false };

    ghost taken = { λ _. None };

    fn failed(&self) -> bool {
        false
    }

    fn write(&mut self, bytes: &[u8]) -> usize {
        let told = bytes.len().min(self.first.remaining_capacity());
        let _ = self.first.try_extend_from_slice(&bytes[..told]);
        self.len = self.len.saturating_add(bytes.len());
        bytes.len()
    }
}
