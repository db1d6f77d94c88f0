//! The registers, the input and the output of a client that runs on the model, next to the output of a real run. The model can't
//! know when memory runs out, so it takes that from the output: an opener that succeeds prints a mark first. Everything else must
//! be as printed.

use client_code::{ConstantKind, Instruction};
use itoa::Buffer;
use std::alloc::Global;
use std::test::Fail;

/// The bytes that an opener prints first if it succeeds.
const MARK: &[u8] = b"+\n";

/// The contents of a register.
#[derive(Clone, Copy, Default)]
pub(crate) enum Register {
    #[default]
    Undefined,
    Number(i64),
    /// A value to which the register refers, or which it owns.
    Value(usize),
}

/// What a run did with frozen objects.
#[derive(Clone, Copy, Default)]
pub(crate) struct Sharing {
    pub(crate) froze: bool,
    /// Whether an object couldn't be frozen because there was no room.
    pub(crate) had_no_room: bool,
    /// Whether an object couldn't be frozen because no number was left.
    pub(crate) had_no_number: bool,
    /// Whether a cell got the object of another cell.
    pub(crate) shared: bool,
    pub(crate) read: bool,
}

/// What the instructions of a run on the model work on. It has no lifetime, so that their proofs are shorter.
#[derive(Drop)]
pub(crate) struct AbstractRun {
    pub(crate) alloc: Global,
    registers: [Register; 16],
    /// The bytes of the current instruction's constant, and whether it is a family of names.
    constant: Vec<u8>,
    is_family: bool,
    pub(crate) sharing: Sharing,
    /// The rest of the input.
    pub(crate) input: &'static [u8],
    /// The real run's output, and how many of its bytes were compared.
    printed: Vec<u8>,
    compared: usize,
}

impl AbstractRun {
    pub(crate) fn new(alloc: Global, input: &'static [u8], printed: Vec<u8>) -> AbstractRun {
        AbstractRun {
            alloc,
            registers: [Register::Undefined; 16],
            constant: Vec::new(alloc),
            is_family: false,
            sharing: Sharing::default(),
            input,
            printed,
            compared: 0,
        }
    }

    pub(crate) fn register(&self, r: u8) -> Register {
        self.registers.get(r as usize).copied().unwrap_or_default()
    }

    pub(crate) fn number(&self, r: u8) -> i64 {
        match self.register(r) {
            Register::Number(number) => number,
            _ => 0,
        }
    }

    /// The value of a register. An accepted client uses no register without a value.
    pub(crate) fn value(&self, r: u8) -> usize {
        match self.register(r) {
            Register::Value(value) => value,
            _ => usize::MAX,
        }
    }

    pub(crate) fn set(&mut self, r: u8, content: Register) {
        if let Some(slot) = self.registers.get_mut(r as usize) {
            *slot = content;
        }
    }

    /// The rest of the real run's output.
    pub(crate) fn rest(&self) -> &[u8] {
        self.printed.get(self.compared..).unwrap_or(&[])
    }

    /// Whether the real run found room for the current instruction.
    pub(crate) fn found_room(&self) -> bool {
        self.rest().starts_with(MARK)
    }

    /// Tests that the real run printed these bytes next.
    pub(crate) fn print(&mut self, bytes: &[u8]) -> Result<(), Fail> {
        if !self.rest().starts_with(bytes) {
            return Err(Fail::from("the run printed something else"));
        }
        self.compared = self.compared.saturating_add(bytes.len());
        Ok(())
    }

    pub(crate) fn print_number(&mut self, number: i64) -> Result<(), Fail> {
        self.print(Buffer::new().format(number).as_bytes())?;
        self.print(b"\n")
    }

    pub(crate) fn print_constant(&mut self) -> Result<(), Fail> {
        let constant = self.constant.clone()?;
        self.print(constant.as_slice())
    }

    /// Sets the constant of the current instruction.
    pub(crate) fn set_constant(&mut self, kind: ConstantKind, bytes: &[u8]) -> Result<(), Fail> {
        self.is_family = kind == ConstantKind::Family;
        self.constant.clear();
        self.constant.extend_from_slice(bytes)?;
        Ok(())
    }

    /// The bytes of the current instruction's constant.
    pub(crate) fn constant(&self) -> &[u8] {
        self.constant.as_slice()
    }

    /// The name that the current instruction refers to.
    pub(crate) fn name(&self, i: Instruction) -> Result<Vec<u8>, Fail> {
        let mut name = self.constant.clone()?;
        if self.is_family {
            name.push(b'#')?;
            name.extend_from_slice(Buffer::new().format(self.number(i.b)).as_bytes())?;
        }
        Ok(name)
    }
}
