use std::alloc::Global;
use std::io::{self, Write};

/// An output in memory that takes a few bytes at a time, and nothing after its limit.
#[derive(Drop)]
pub struct Limited {
    pub bytes: Vec<u8>,
    at_a_time: usize,
    limit: usize,
}

impl Limited {
    pub fn new(alloc: Global, at_a_time: usize, limit: usize) -> Limited {
        Limited {
            bytes: Vec::new(alloc),
            at_a_time,
            limit,
        }
    }

    /// An output without a limit.
    pub fn unlimited(alloc: Global) -> Limited {
        Limited::new(alloc, usize::MAX, usize::MAX)
    }
}

impl Write for Limited {
    fn write(&mut self, bytes: &[u8]) -> io::Result<usize> {
        let room = self.limit.saturating_sub(self.bytes.len());
        let n = bytes.len().min(self.at_a_time).min(room);
        self.bytes.write(&bytes[..n])
    }

    fn flush(&mut self) -> io::Result<()> {
        Ok(())
    }
}
