//! Random clients. Most are accepted, because the generator knows which references are still valid.

use crate::lines::Lines;
use crate::parts::{Access, OpenPart};
use std::alloc::{AllocError, Global};
use support_data::Random;

/// The version of a client's file. Only version 2 has frozen objects.
#[derive(Clone, Copy, PartialEq, Eq)]
pub(crate) enum Version {
    One,
    Two,
}

/// The types of all random clients.
const TYPES: &str = "type i64
type str
type vec t1
type list t0
type flat_map t1
type map t2
type own t7
type struct t0 t6 t1
type list t7
";

/// The number of these types.
const TYPE_COUNT: u32 = 9;

/// The additional types of clients of version 2.
const SHARED_TYPES: &str = "type shared t10
type struct t0 t9 t5 t1
type shared t8
type shared t1
type vec t9
";

/// The number of these types.
const SHARED_TYPE_COUNT: u32 = 5;

/// The names and texts of the random clients, and their first numbers. Register 15 gets codes, and numbers that are printed at
/// once. Registers from 5 on get values.
const START: &str = "name a
name b
family f
text +\\0a
text text
text a text of forty bytes, which is 3 units.
text \\0a
name cell
CONST r0 -1
CONST r1 0
CONST r2 1
CONST r3 3
CONST r4 300
";

/// With this many open parts, the next statement ends a part. The language allows 8 open parts.
const DEPTH: usize = 7;

/// A client that is being written.
#[derive(Drop)]
pub(crate) struct Generator {
    version: Version,
    pub(crate) text: Lines,
    pub(crate) parts: Vec<OpenPart>,
    pub(crate) random: Random,
    pub(crate) classes: usize,
}

impl Generator {
    pub(crate) fn new(alloc: Global, version: Version, seed: u64) -> Generator {
        Generator {
            version,
            text: Lines::new(alloc),
            parts: Vec::new(alloc),
            random: Random::new(seed),
            classes: 100,
        }
    }

    /// The text of a client with this many statements, and with those that end its parts.
    pub(crate) fn client(mut self, statements: u32) -> Result<String, AllocError> {
        self.text.push(TYPES);
        match self.version {
            Version::One => {}
            Version::Two => self.text.push(SHARED_TYPES),
        }
        self.text.push(START);
        for _ in 0..statements {
            self.statement();
        }
        for _ in 0..self.parts.len() {
            self.close();
        }
        self.text.finish()
    }

    /// A register with a small number.
    pub(crate) fn number(&mut self) -> usize {
        self.random.below(5) as usize
    }

    /// A type of the client. If the client is of version 2, half of these types have frozen objects.
    pub(crate) fn some_type(&mut self) -> usize {
        let has_frozen = self.version == Version::Two && self.random.below(2) == 0;
        let t = if has_frozen {
            TYPE_COUNT.wrapping_add(self.random.below(SHARED_TYPE_COUNT))
        } else {
            self.random.below(TYPE_COUNT)
        };
        t as usize
    }

    /// The register for the value of the next part.
    pub(crate) fn next_register(&self) -> usize {
        self.parts.len().saturating_add(5)
    }

    fn statement(&mut self) {
        let Some(part) = self.parts.last().copied() else {
            return self.outside();
        };
        if self.parts.len() >= DEPTH || self.random.below(3) == 0 {
            return self.close();
        }
        match part.t {
            Some(t) if self.random.below(5) > 0 => match part.access {
                Access::Change => self.on_value(part, t),
                Access::Read => self.read(part, t),
            },
            Some(_) | None => self.outside(),
        }
    }

    /// Writes a statement that doesn't work on the value of a part.
    fn outside(&mut self) {
        match self.random.below(4) {
            0 => self.plain(),
            1 | 2 if self.version == Version::Two => self.cell(),
            _ => self.object(),
        }
    }

    /// Writes an opener that gives register 15 a number, and its parts.
    pub(crate) fn given(&mut self, opener: &str, numbers: &[usize]) {
        self.text.write(opener, numbers);
        self.print_given()
    }

    /// Writes the parts of an opener that gives register 15 a number.
    pub(crate) fn print_given(&mut self) {
        self.text.push("OUTC k3\nOUTI r15\nELSE\nOUTI r15\nEND\n")
    }
}
