use crate::flaw::Flaw;
use crate::opened::{OpenParts, Opened, Spot};
use crate::rule;
use arrayvec::ArrayVec;
use client_code::{ConstantKind, Instruction, Number, Operand, Operation, REGISTERS, Role};

/// The most constants of a client.
pub(crate) const MOST_CONSTANTS: usize = 256;

/// The most iterations of a loop.
const TURNS: i32 = 1_000_000_000;

/// An instruction as it is in a file or a text. Unlike an `Instruction`, it may have wrong operands.
#[derive(Clone, Copy)]
pub(crate) struct Draft {
    pub(crate) operation: Operation,
    pub(crate) a: u8,
    pub(crate) b: u8,
    pub(crate) c: u8,
    pub(crate) number: i32,
}

impl Draft {
    /// The instruction in 8 bytes, if its operation is known.
    pub(crate) fn read(bytes: &[u8]) -> Option<Draft> {
        let [operation, a, b, c, n0, n1, n2, n3] = bytes else {
            return None;
        };
        Some(Draft {
            operation: Operation::from_number(*operation)?,
            a: *a,
            b: *b,
            c: *c,
            number: i32::from_le_bytes([*n0, *n1, *n2, *n3]),
        })
    }
}

/// What comes before an instruction of a client, and how many types and which version the whole client has.
#[derive(Drop)]
pub(crate) struct Outline {
    pub(crate) types: usize,
    version: u32,
    /// The kinds of the constants.
    pub(crate) constants: ArrayVec<ConstantKind, MOST_CONSTANTS>,
    pub(crate) instructions: u32,
    parts: OpenParts,
}

impl Outline {
    pub(crate) fn new(types: usize, version: u32) -> Outline {
        Outline {
            types,
            version,
            constants: ArrayVec::new(),
            instructions: 0,
            parts: OpenParts::new(),
        }
    }

    pub(crate) fn add_constant(&mut self, kind: ConstantKind) {
        // a constant too many is reported elsewhere
        let _ = self.constants.try_push(kind);
    }

    /// Passes an instruction. Returns false if it is misplaced.
    pub(crate) fn pass(&mut self, operation: Operation, spot: Spot) -> bool {
        self.instructions = self.instructions.saturating_add(1);
        self.parts.pass(operation, spot)
    }

    /// The innermost part that is open.
    pub(crate) fn innermost(&self) -> Option<Opened> {
        self.parts.innermost()
    }

    /// The first thing that is wrong with an instruction at this place.
    pub(crate) fn flaw(&mut self, instruction: Draft, spot: Spot) -> Option<Flaw<'static>> {
        let row = instruction.operation.row();
        if row.version > self.version {
            return Some(Flaw::Unmet(rule::VERSION));
        }
        let Draft { a, b, c, .. } = instruction;
        let wrong = operand_flaw('a', row.a, a)
            .or(operand_flaw('b', row.b, b))
            .or(operand_flaw('c', row.c, c))
            .or(self.number_flaw(row.number, instruction));
        match wrong {
            Some(flaw) => Some(flaw),
            None => self.place_flaw(instruction.operation, spot),
        }
    }

    /// What is wrong with the place of an instruction.
    fn place_flaw(&mut self, operation: Operation, spot: Spot) -> Option<Flaw<'static>> {
        let open = self.innermost();
        if self.pass(operation, spot) {
            return None;
        }
        Some(match operation.row().role {
            Role::Else => Flaw::Misplaced(rule::ELSE, open),
            Role::End => Flaw::Misplaced(rule::END, open),
            Role::Plain | Role::Opener | Role::Loop => match open {
                Some(open) => Flaw::Deep(open),
                None => Flaw::Unmet(rule::ANY),
            },
        })
    }

    fn number_flaw(&self, number: Number, instruction: Draft) -> Option<Flaw<'static>> {
        let signed = instruction.number;
        let n = signed.unsigned_abs() as usize;
        match number {
            Number::Any => None,
            Number::Unused => (signed != 0).then_some(Flaw::Unmet(rule::NO_NUMBER)),
            Number::Turns => (signed < 1 || signed > TURNS).then_some(Flaw::Unmet(rule::TURNS)),
            Number::TypeId => (signed < 0 || n >= self.types).then_some(Flaw::no_type(n)),
            Number::Text => self.text_flaw(n),
            Number::TypedName if signed < 0 || n / 256 >= self.types => {
                Some(Flaw::no_type(n / 256))
            }
            Number::TypedName => self.name_flaw(n % 256, instruction.b),
        }
    }

    fn text_flaw(&self, n: usize) -> Option<Flaw<'static>> {
        let wrong = match self.constants.get(n) {
            None => ABSENT,
            Some(ConstantKind::Text) => return None,
            Some(ConstantKind::Name | ConstantKind::Family) => " is a name, but should be a text",
        };
        Some(Flaw::constant(n, wrong))
    }

    fn name_flaw(&self, n: usize, b: u8) -> Option<Flaw<'static>> {
        let has_number = b < REGISTERS;
        let wrong = match self.constants.get(n) {
            None => ABSENT,
            Some(ConstantKind::Text) => " is a text, but should be a name",
            Some(ConstantKind::Name) if has_number =>
                " is an exact name, so operand b should be none (`-` in a text)",
            Some(ConstantKind::Family) if !has_number =>
                " is a family, so operand b should be a register",
            Some(ConstantKind::Name | ConstantKind::Family) => return None,
        };
        Some(Flaw::constant(n, wrong))
    }
}

/// The explanation if an instruction refers to a constant that doesn't exist.
const ABSENT: &str = " doesn't exist";

/// What is wrong with an operand.
fn operand_flaw(letter: char, operand: Operand, n: u8) -> Option<Flaw<'static>> {
    (!is_operand(operand, n)).then_some(Flaw::Operand(letter, operand_words(operand)))
}

fn is_operand(operand: Operand, n: u8) -> bool {
    match operand {
        Operand::Unused => n == 0,
        Operand::Register => n < REGISTERS,
        Operand::Optional => n <= Instruction::NONE,
    }
}

/// The description of a wrong operand, by its kind.
pub(crate) fn operand_words(operand: Operand) -> &'static str {
    match operand {
        Operand::Unused => "should be 0, since the operation doesn't have it",
        Operand::Register => "should be a register, r0 to r15",
        Operand::Optional => "should be a register, r0 to r15, or none (`-` in a text)",
    }
}
