//! The constants that a program needs.

use crate::error::{Trouble, append, append_bytes};
use client_code::ConstantKind;
use std::alloc::Global;

/// A constant: its position in the list of constants.
#[derive(Clone, Copy, PartialEq, Eq)]
pub struct ConstantAt(pub usize);

#[derive(Clone, Copy)]
struct Entry {
    kind: ConstantKind,
    first: usize,
    end: usize,
}

/// Constants with their bytes. Each is in the list once.
#[derive(Drop)]
pub struct Constants {
    bytes: Vec<u8>,
    entries: Vec<Entry>,
}

impl Constants {
    pub fn new(alloc: Global) -> Constants {
        Constants {
            bytes: Vec::new(alloc),
            entries: Vec::new(alloc),
        }
    }

    pub fn len(&self) -> usize {
        self.entries.len()
    }

    pub fn kind(&self, at: ConstantAt) -> ConstantKind {
        match self.entries.get(at.0) {
            Some(entry) => entry.kind,
            None => ConstantKind::Text,
        }
    }

    pub fn bytes(&self, at: ConstantAt) -> &[u8] {
        match self.entries.get(at.0) {
            Some(entry) => self.of(entry),
            None => &[],
        }
    }

    fn of(&self, entry: &Entry) -> &[u8] {
        self.bytes.get(entry.first..entry.end).unwrap_or_default()
    }

    /// The constant with this kind and these bytes.
    pub fn intern(
        &mut self,
        kind: ConstantKind,
        bytes: &[u8],
        trouble: &mut Trouble,
    ) -> ConstantAt {
        for (at, entry) in self.entries.iter().enumerate() {
            if entry.kind == kind && self.of(entry) == bytes {
                return ConstantAt(at);
            }
        }
        let at = ConstantAt(self.entries.len());
        let first = self.bytes.len();
        append_bytes(&mut self.bytes, bytes, trouble);
        let end = self.bytes.len();
        append(&mut self.entries, Entry { kind, first, end }, trouble);
        at
    }
}
