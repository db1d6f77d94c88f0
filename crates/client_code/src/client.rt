ghost use Rattle.std.specs.Prelude.{◌≡◌, ◌≤◌, ◌<◌, ◌+◌, ◌*◌, ◌^◌, length, IfOk};
ghost use Rattle.client_spec.specs.Syntax as syntax;
ghost use Rattle.client_spec.specs.Grammar.{listing, SpellsClient};
ghost use Rattle.client_code.specs.Files.{code_place};

use crate::constant::Constant;
use crate::header::{FileHeader, MOST_INSTRUCTIONS};
use crate::instruction::Instruction;
use crate::types::{MOST_TYPES, read_types};
use arrayvec::ArrayVec;
use seg_layout::TypeTable;
use std::alloc::{AllocError, Allocator};

/// The constants of a client, in order.
pub type Constants<'a> = ArrayVec<Constant<'a>, 256>;

/// A client: types, constants and code. It borrows its file, and copies nothing.
#[derive(Debug, Clone, Copy)]
pub struct Client<'a> {
    pub(crate) file: &'a [u8],
    pub(crate) header: FileHeader,
    // the position of the first instruction
    pub(crate) code: u32,
    ghost near: { code ≤ 2 ^ 20 },
    ghost spelled: { ∥ ((tree : syntax.Client) × SpellsClient file.now tree) ∥₁ },
    ghost placed: { (tree : syntax.Client) → SpellsClient file.now tree →
        (header.types ≡ length tree.types)
        × (header.constants ≡ length tree.constants)
        × (header.instructions ≡ length (listing tree.code)) × (code ≡ code_place tree) },
}

impl<'a> Client<'a> {
    ghost use Rattle.std.specs.Prelude.{slice_get};
    ghost use Rattle.std.specs.Option.{option_map};
    ghost use Rattle.client_code.specs.Views.{constants_of, instruction_of};
    ghost use Rattle.client_code.specs.Clients.{bytes_of, OfTree};

    /// The whole file.
    pub fn bytes(&self) -> &'a [u8]
        ensures { result.now ≡ bytes_of self.now }
    {
        self.file
    }

    /// The types.
    pub fn types(&self) -> TypeTable
        ensures { OfTree self.now (λ tree. result ≡ tree.types) }
    {
        match read_types(self.file, self.header.types) {
            Ok(types) => types,
            Err(_) => TypeTable::new(),
        }
    }

    /// The number of types.
    pub fn type_count(&self) -> u32
        ensures few { result ≤ MOST_TYPES }
        ensures count { OfTree self.now (λ tree. result ≡ length tree.types) }
    {
        self.header.types
    }

    /// The constants, found in one pass.
    pub fn constants(&self) -> Constants<'a>
        ensures { OfTree self.now (λ tree. constants_of result.items ≡ tree.constants) }
    {
        let mut constants = ArrayVec::new();
        let mut next = self.header.constants_at();
        for _ in 0..self.header.constants {
            let Some((constant, following)) = Constant::spelled_at(self.file, next) else {
                return constants;
            };
            constants.push(constant);
            next = following;
        }
        constants
    }

    /// The constants, in memory of exactly their size.
    pub fn constants_in<A: Allocator>(&self, alloc: A) -> Result<Vec<Constant<'a>, A>, AllocError>
        ensures { IfOk result (λ constants.
            OfTree self.now (λ tree. constants_of constants.items ≡ tree.constants)) }
    {
        let mut constants = Vec::with_capacity(alloc, self.header.constants as usize)?;
        let mut next = self.header.constants_at();
        for _ in 0..self.header.constants {
            let Some((constant, following)) = Constant::spelled_at(self.file, next) else {
                return Ok(constants);
            };
            constants.push(constant)?;
            next = following;
        }
        Ok(constants)
    }

    /// The number of instructions, `ELSE` and `END` among them.
    pub fn instruction_count(&self) -> u32
        ensures few { result ≤ MOST_INSTRUCTIONS }
        ensures count { OfTree self.now (λ tree. result ≡ length (listing tree.code)) }
    {
        self.header.instructions
    }

    /// An instruction, in constant time.
    pub fn instruction(&self, i: u32) -> Option<Instruction>
        ensures { OfTree self.now (λ tree. option_map instruction_of result
            ≡ slice_get (listing tree.code) i) }
    {
        if i >= self.header.instructions {
            return None;
        }
        let place = self.place_of(i) as usize;
        Some(Instruction::of_bytes(&self.file[place..place + Instruction::SIZE]))
    }

    /// The position of an instruction, or the end of the code for the number of instructions.
    fn place_of(&self, i: u32) -> u32
        requires { i ≤ self.now.header.instructions }
        ensures { result ≡ self.now.code + 8 * i }
    {
        self.code + 8 * i
    }

    /// The position after the code, which is the file's length.
    pub fn end(&self) -> u32
        ensures { OfTree self.now (λ tree. result ≡ length (bytes_of self.now)) }
    {
        self.place_of(self.header.instructions)
    }
}
