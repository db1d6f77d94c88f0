ghost use Rattle.std.specs.Prelude.{◌≡◌, ◌≢◌, ◌≤◌, ◌%◌, ◌/◌, ◌↔◌, ℕ, List, pos, length, map, IsTrue, IfSome, IfNone, FitsSigned};
ghost use Rattle.std.specs.Int.{w32};
ghost use Rattle.seg_spec.specs.Types.{Table};
ghost use Rattle.client_spec.specs.Syntax as syntax;
ghost use Rattle.client_spec.specs.declared.table.Number.TheVariants as number;
ghost use Rattle.client_spec.specs.Operations.{row_of};
ghost use Rattle.client_spec.specs.Grammar.{file_version, IsOperand, IsNumber, IsInstruction, instruction_bytes};
ghost use Rattle.client_code.specs.declared.instruction.TheConstants.{REGISTERS};

use crate::constant::{ConstantKind, is_text, names_by};
use client_spec::table::{Number, Operand, Operation};
use seg_layout::TypeId;

/// The number of registers.
pub const REGISTERS: u8 = 16;

/// The most iterations of one run of a loop.
pub const TURNS: usize = 1_000_000_000;

/// An instruction: its operation, three operands and a number. An operand is a register, `NONE`, or 0 if the operation doesn't
/// use it. An unused number is 0.
#[derive(Debug, Clone, Copy, PartialEq, Eq)]
pub struct Instruction {
    pub operation: Operation,
    pub a: u8,
    pub b: u8,
    pub c: u8,
    pub number: i32,
    ghost operands: { (a ≤ REGISTERS) × (b ≤ REGISTERS) × (c ≤ REGISTERS) },
}

fn is_operand(operand: Operand, n: u8) -> bool
    ensures { IsTrue result ↔ IsOperand operand n }
{
    match operand {
        Operand::Unused => n == 0,
        Operand::Register => n < REGISTERS,
        Operand::Optional => n <= Instruction::NONE,
    }
}

impl Instruction {
    ghost use Rattle.client_code.specs.Views.{constant_kind_of, instruction_of};
    ghost use Rattle.client_code.specs.Operands.{HasOperands, IsSpelling};

    /// The operand for no register.
    pub const NONE: u8 = REGISTERS;

    /// The size of an instruction in a client file, in bytes.
    pub const SIZE: usize = 8;

    /// The instruction that 8 bytes encode. `None` if the slice has another length, the operation is unknown, or an operand is
    /// above `NONE`.
    pub fn decode(bytes: &[u8]) -> Option<Instruction>
        ensures found { IfSome result (λ i. bytes.now ≡ instruction_bytes (instruction_of i)) }
        ensures none { IfNone result ((i : syntax.Instruction) → HasOperands i →
            bytes.now ≢ instruction_bytes i) }
    {
        let [operation, a, b, c, n0, n1, n2, n3] = bytes else {
            return None;
        };
        if *a > Self::NONE || *b > Self::NONE || *c > Self::NONE {
            return None;
        }
        let operation = Operation::from_number(*operation)?;
        let number = i32::from_le_bytes([*n0, *n1, *n2, *n3]);
        Some(Instruction {
            operation,
            a: *a,
            b: *b,
            c: *c,
            number,
        })
    }

    /// The instruction that 8 bytes encode. They must encode one: nothing is tested.
    #[inline]
    pub(crate) fn of_bytes(bytes: &[u8]) -> Instruction
        requires { IsSpelling bytes.now }
        ensures spelled { bytes.now ≡ instruction_bytes (instruction_of result) }
        ensures range { FitsSigned w32 result.number }
    {
        Instruction {
            operation: Operation::of_number(bytes[0]),
            a: bytes[1],
            b: bytes[2],
            c: bytes[3],
            number: i32::from_le_bytes([bytes[4], bytes[5], bytes[6], bytes[7]]),
        }
    }

    /// The 8 bytes that encode the instruction.
    pub fn encode(self) -> [u8; Self::SIZE]
        ensures { result ≡ instruction_bytes (instruction_of self) }
    {
        let [n0, n1, n2, n3] = self.number.to_le_bytes();
        [
            self.operation.number(),
            self.a,
            self.b,
            self.c,
            n0,
            n1,
            n2,
            n3,
        ]
    }

    /// The same instruction with another operation.
    pub fn with_operation(self, operation: Operation) -> Instruction
        ensures { result ≡ record self { operation = operation } }
    {
        Instruction {
            operation,
            a: self.a,
            b: self.b,
            c: self.c,
            number: self.number,
        }
    }

    /// The type that the number refers to, alone or with a constant.
    pub fn type_id(self) -> TypeId
        ensures before { (row_of self.operation).number ≡ number.TypedName → (n : ℕ) →
            self.number ≡ pos n → result ≡ n / 256 % 256 }
        ensures alone { (row_of self.operation).number ≢ number.TypedName → (n : ℕ) →
            self.number ≡ pos n → result ≡ n % 256 }
    {
        let [low, high, _, _] = self.number.to_le_bytes();
        match self.operation.row().number {
            Number::TypedName => high,
            Number::Unused | Number::Any | Number::Turns | Number::TypeId | Number::Text => low,
        }
    }

    /// The constant that the number refers to, alone or with a type.
    pub fn constant(self) -> u8
        ensures { (n : ℕ) → self.number ≡ pos n → result ≡ n % 256 }
    {
        let [low, _, _, _] = self.number.to_le_bytes();
        low
    }

    /// Whether the instruction is valid in a client file of this version, with this number of types and with constants of these
    /// kinds.
    pub fn is_valid(self, version: u32, types: usize, kinds: &[ConstantKind]) -> bool
        ensures { (table : Table) (constants : List syntax.Constant) →
            file_version table ≡ version → length table ≡ types →
            map constant_kind_of constants ≡ kinds.now →
            (IsTrue result ↔ IsInstruction table constants
            (row_of self.operation).role (instruction_of self)) }
    {
        let row = self.operation.row();
        row.version <= version
            && is_operand(row.a, self.a)
            && is_operand(row.b, self.b)
            && is_operand(row.c, self.c)
            && self.is_number(row.number, types, kinds)
    }

    fn is_number(self, number: Number, types: usize, kinds: &[ConstantKind]) -> bool
        ensures { (table : Table) (constants : List syntax.Constant) → length table ≡ types →
            map constant_kind_of constants ≡ kinds.now →
            (IsTrue result ↔ IsNumber table constants self.b number self.number) }
    {
        let Ok(n) = u32::try_from(self.number) else {
            return number == Number::Any;
        };
        let n = n as usize;
        match number {
            Number::Unused => n == 0,
            Number::Any => true,
            Number::Turns => 1 <= n && n <= TURNS,
            Number::TypeId => n < types,
            Number::Text => is_text(kinds, n),
            Number::TypedName => n / 256 < types && names_by(kinds, n % 256, self.b),
        }
    }
}
