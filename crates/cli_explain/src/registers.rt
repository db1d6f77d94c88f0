use crate::names::Names;
use crate::types::NumberedType;
use client_code::{Instruction, Kinds, Need, Operand, REGISTERS, Type, TypeId};
use client_verify::{PackedRegister, Reason, RegisterType, Registers, Rule};
use std::fmt;

/// The registers b and c of an instruction, without repetition.
pub(crate) fn used(instruction: Instruction) -> [Option<u8>; 2] {
    let row = instruction.operation.row();
    let b = register(row.b, instruction.b);
    let c = register(row.c, instruction.c);
    [b, if c == b { None } else { c }]
}

fn register(operand: Operand, n: u8) -> Option<u8> {
    match operand {
        Operand::Unused => None,
        Operand::Register | Operand::Optional => (n < REGISTERS).then_some(n),
    }
}

/// What a register should contain for an instruction.
#[derive(Clone, Copy)]
pub(crate) struct Demand {
    pub(crate) register: u8,
    need: Need,
    /// The field that a struct should have.
    field: i32,
    /// The type of the value in the own or shared cell that register b refers to.
    content: Option<NumberedType>,
    /// Whether the register refers into a frozen object.
    is_read_only: bool,
}

impl Demand {
    /// What register b or c should contain: the first of them that doesn't contain what the instruction needs.
    pub(crate) fn unmet(names: Names, registers: &Registers, instruction: Instruction) -> Demand {
        let row = instruction.operation.row();
        let content = held_content(names, registers.packed(instruction.b));
        let (register, need) = if is_first_met(names, registers, instruction, content) {
            (instruction.c, row.needs_c)
        } else {
            (instruction.b, row.needs_b)
        };
        Demand {
            register,
            need,
            field: instruction.number,
            content: content.map(|content| names.type_of(content)),
            is_read_only: matches!(registers.get(register), RegisterType::ReadOnly(_, _)),
        }
    }
}

/// The type of the value in the own or shared cell that a register refers to.
fn held_content(names: Names, holds: PackedRegister) -> Option<TypeId> {
    let (_, to) = holds.referred()?;
    match names.types().kind(to)? {
        Type::Own(content) | Type::Shared(content) => Some(content),
        Type::I64
        | Type::Str
        | Type::Vec(_)
        | Type::List(_)
        | Type::FlatMap(_)
        | Type::Map(_)
        | Type::Struct(_) => None,
    }
}

/// Whether register b is right: whether the instruction would pass with some register c.
fn is_first_met(
    names: Names,
    registers: &Registers,
    instruction: Instruction,
    content: Option<TypeId>,
) -> bool {
    let c = u8::from(instruction.b == 0);
    let mut right = *registers;
    let right_c = match instruction.operation.row().needs_c {
        Need::Int | Need::IntOrNone => Some(PackedRegister::int()),
        Need::Content => content.map(PackedRegister::owner),
        Need::Alike => Some(registers.packed(instruction.b)),
        Need::Nothing | Need::Copyable | Need::Owner | Need::Reference(_) | Need::Changeable(_) =>
            None,
    };
    let tried = match right_c {
        Some(holds) => {
            right.set_packed(c, holds);
            Instruction {
                operation: instruction.operation,
                a: instruction.a,
                b: instruction.b,
                c,
                number: instruction.number,
            }
        }
        None => instruction,
    };
    let types = names.types();
    !matches!(
        Rule::new(&types, &right, tried).apply(),
        Err(Reason::WrongOperand)
    )
}

impl fmt::Display for Demand {
    fn fmt<W: fmt::Write>(&self, f: &mut fmt::Formatter<W>) -> fmt::Result {
        let words = match (self.need, self.content) {
            (Need::Nothing, _) => "contain anything",
            (Need::Int | Need::IntOrNone, _) => "contain a number",
            (Need::Copyable, _) => {
                "contain a number or refer to a value, since an owner can't be copied"
            }
            (Need::Owner, _) | (Need::Content, None) => "own an object",
            (Need::Content, Some(content)) => return write!(f, "own an object of {content}"),
            (Need::Reference(Kinds::Struct) | Need::Changeable(Kinds::Struct), _) => {
                let field = self.field;
                return write!(
                    f,
                    "refer to a struct that has a field {field}, counted from 0"
                );
            }
            (Need::Changeable(kinds), _) if self.is_read_only => {
                let kinds = kinds_words(kinds);
                return write!(
                    f,
                    "refer to {kinds} that may be changed; a frozen object can only be read"
                );
            }
            (Need::Reference(kinds) | Need::Changeable(kinds), _) => {
                let kinds = kinds_words(kinds);
                return write!(f, "refer to {kinds}");
            }
            (Need::Alike, Some(content)) => {
                return write!(f, "refer to a shared whose object is of {content}");
            }
            (Need::Alike, None) => "refer to a shared",
        };
        f.write_str(words)
    }
}

fn kinds_words(kinds: Kinds) -> &'static str {
    match kinds {
        Kinds::Any => "a value",
        Kinds::I64 => "an i64",
        Kinds::Str => "a str",
        Kinds::List => "a list",
        Kinds::Own => "an own",
        Kinds::Shared => "a shared",
        Kinds::Holder => "an own or a shared",
        Kinds::Struct => "a struct",
        Kinds::Sequence => "a vector or a list",
        Kinds::Indexed => "a str, a vector or a list",
        Kinds::Buffered => "a str, a vector or a flat map",
        Kinds::Map => "a flat map or a map",
        Kinds::Sized => "a str, a vector, a list, a flat map or a map",
    }
}
