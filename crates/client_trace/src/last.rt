ghost use Rattle.std.specs.Prelude.{false, None};

use client_vm::Sink;
use std::alloc::{AllocError, Global};
use std::collections::VecDeque;
use std::mem;

/// Takes everything, never fails, and keeps the last lines.
#[derive(Drop)]
pub struct LastLines {
    alloc: Global,
    lines: VecDeque<Vec<u8>>,
    /// The line that has no end yet.
    line: Vec<u8>,
    most: usize,
    is_out_of_memory: bool,
}

impl LastLines {
    /// No lines; at most the last `most` are kept.
    pub fn new(alloc: Global, most: usize) -> LastLines {
        LastLines {
            alloc,
            lines: VecDeque::new(alloc),
            line: Vec::new(alloc),
            most,
            is_out_of_memory: false,
        }
    }

    /// The lines, from the first that was kept.
    pub fn into_bytes(self) -> Result<Vec<u8>, AllocError> {
        if self.is_out_of_memory {
            return Err(AllocError);
        }
        let mut bytes = Vec::new(self.alloc);
        for line in &self.lines {
            bytes.extend_from_slice(line.as_slice())?;
        }
        Ok(bytes)
    }

    fn add(&mut self, byte: u8) -> Result<(), AllocError> {
        self.line.push(byte)?;
        if byte == b'\n' {
            self.end_line()?;
        }
        Ok(())
    }

    fn end_line(&mut self) -> Result<(), AllocError> {
        let line = mem::replace(&mut self.line, Vec::new(self.alloc));
        self.lines.push_back(line)?;
        if self.lines.len() > self.most {
            let _ = self.lines.pop_front();
        }
        Ok(())
    }
}

impl Sink for LastLines {
    ghost has_failed = { λ _. false };

    ghost taken = { λ _. None };

    fn failed(&self) -> bool {
        false
    }

    fn write(&mut self, bytes: &[u8]) -> usize {
        for byte in bytes {
            self.is_out_of_memory |= self.add(*byte).is_err();
        }
        bytes.len()
    }
}
