//! Clients: what the verifier gets.

use crate::constants::{ConstantAt, Constants};
use crate::error::{Trouble, Warning, append, append_bytes};
use client_code::{ConstantKind, FIRST_VERSION, Instruction, MAGIC, SHARING_VERSION};
use script_syntax::Span;
use std::alloc::{AllocError, Global};

/// The kind of an entry that shares objects.
const SHARED_KIND: u8 = 9;

/// A client that a program was compiled to. Each instruction has the place in the program that it
/// comes from.
#[derive(Drop)]
pub struct Compiled {
    /// The entries of its types.
    pub types: Vec<[u8; 16]>,
    pub code: Vec<Instruction>,
    pub places: Vec<Span>,
    pub warnings: Vec<Warning>,
    /// The most steps that it takes.
    pub steps: u64,
    pub(crate) constants: Constants,
    /// The constants, in the order of their numbers.
    pub(crate) used: Vec<ConstantAt>,
}

impl Compiled {
    /// The number of constants.
    pub fn constant_count(&self) -> usize {
        self.used.len()
    }

    /// The kind and the bytes of a constant.
    pub fn constant(&self, number: usize) -> Option<(ConstantKind, &[u8])> {
        let at = *self.used.get(number)?;
        Some((self.constants.kind(at), self.constants.bytes(at)))
    }

    /// The client's file.
    pub fn file(&self, alloc: Global) -> Result<Vec<u8>, AllocError> {
        let mut file = Vec::new(alloc);
        let mut trouble = Trouble::NONE;
        self.write_header(&mut file, &mut trouble);
        self.write_constants(&mut file, &mut trouble);
        for instruction in self.code.as_slice() {
            append_bytes(&mut file, &instruction.encode(), &mut trouble);
        }
        if trouble.is_out_of_memory {
            return Err(AllocError);
        }
        Ok(file)
    }

    /// Writes the header and the types.
    fn write_header(&self, file: &mut Vec<u8>, trouble: &mut Trouble) {
        append_bytes(file, MAGIC, trouble);
        append_bytes(file, &self.version().to_le_bytes(), trouble);
        append_count(file, self.types.len(), trouble);
        append_count(file, self.used.len(), trouble);
        append_count(file, self.code.len(), trouble);
        for entry in self.types.as_slice() {
            append_bytes(file, entry, trouble);
        }
    }

    fn write_constants(&self, file: &mut Vec<u8>, trouble: &mut Trouble) {
        for at in self.used.as_slice() {
            let bytes = self.constants.bytes(*at);
            append(file, self.constants.kind(*at).number(), trouble);
            append(file, u8::try_from(bytes.len()).unwrap_or(0), trouble);
            append_bytes(file, bytes, trouble);
        }
    }

    fn version(&self) -> u32 {
        for entry in self.types.as_slice() {
            if entry[0] == SHARED_KIND {
                return SHARING_VERSION;
            }
        }
        FIRST_VERSION
    }
}

fn append_count(file: &mut Vec<u8>, count: usize, trouble: &mut Trouble) {
    let count = u32::try_from(count).unwrap_or(0);
    append_bytes(file, &count.to_le_bytes(), trouble)
}
