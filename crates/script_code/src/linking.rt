//! From the instructions that were written to a client: types and constants get their numbers.

use crate::client::Compiled;
use crate::code::{Code, Emitted, Operand};
use crate::constants::{ConstantAt, Constants};
use crate::cost::cost_of;
use crate::error::{Trouble, Warning, append};
use crate::kind::ErrorKind;
use crate::numbering::Numbering;
use crate::program::NOWHERE;
use crate::types::{TypeAt, Types};
use client_code::{Instruction, MOST_CONSTANTS, MOST_INSTRUCTIONS, TypeTable};
use script_syntax::Span;
use std::alloc::Global;

/// The most steps that a client may take.
const MOST_STEPS: u64 = 1_000_000_000;

/// What a client is made of.
#[derive(Drop)]
pub struct Linked {
    types: Numbering,
    /// The constants that are used, in the order of their numbers.
    used: Vec<ConstantAt>,
    /// The number of each constant, if it has one.
    numbers: Vec<Option<i32>>,
    code: Vec<Instruction>,
    places: Vec<Span>,
    steps: u64,
}

/// The parts of the client with this code, for the types of an image. What is wrong is noted.
pub fn link(
    alloc: Global,
    written: &Code,
    types: &Types,
    image: &TypeTable,
    trouble: &mut Trouble,
) -> Linked {
    let mut linked = Linked::new(alloc);
    linked.types.begin(types, image, trouble);
    linked.number_names(written, trouble);
    linked.add_all(written, types, image, trouble);
    linked.count_steps(alloc, trouble);
    linked
}

impl Linked {
    fn new(alloc: Global) -> Linked {
        Linked {
            types: Numbering::new(alloc),
            used: Vec::new(alloc),
            numbers: Vec::new(alloc),
            code: Vec::new(alloc),
            places: Vec::new(alloc),
            steps: 0,
        }
    }

    /// Numbers the names before the texts, so that their numbers fit with a type's.
    fn number_names(&mut self, written: &Code, trouble: &mut Trouble) {
        for _ in 0..written.constants.len() {
            append(&mut self.numbers, None, trouble);
        }
        for emitted in written.instructions.as_slice() {
            if let Operand::Named(_, constant) = emitted.operand {
                let _ = self.number(constant, trouble);
            }
        }
    }

    /// The number of a constant. It gets the next one if it has none.
    fn number(&mut self, at: ConstantAt, trouble: &mut Trouble) -> i32 {
        if let Some(Some(number)) = self.numbers.get(at.0) {
            return *number;
        }
        let number = i32::try_from(self.used.len()).unwrap_or(0);
        append(&mut self.used, at, trouble);
        if let Some(found) = self.numbers.get_mut(at.0) {
            *found = Some(number);
        }
        number
    }

    fn add_all(&mut self, written: &Code, types: &Types, image: &TypeTable, trouble: &mut Trouble) {
        let mut crowded = None;
        for emitted in written.instructions.as_slice() {
            let number = self.number_of(emitted, types, image, trouble);
            append(&mut self.code, instruction_of(emitted, number), trouble);
            append(&mut self.places, emitted.span, trouble);
            if crowded.is_none() && self.used.len() > MOST_CONSTANTS as usize {
                crowded = Some(emitted.span);
            }
        }
        if let Some(span) = crowded {
            trouble.note_number(span, ErrorKind::CONSTANTS, self.used.len());
        }
        if let Some(span) = self.places.get(MOST_INSTRUCTIONS as usize) {
            trouble.note_number(*span, ErrorKind::INSTRUCTIONS, self.code.len());
        }
    }

    fn number_of(
        &mut self,
        emitted: &Emitted,
        types: &Types,
        image: &TypeTable,
        trouble: &mut Trouble,
    ) -> i32 {
        match emitted.operand {
            Operand::Plain(number) => number,
            Operand::Text(constant) => self.number(constant, trouble),
            Operand::Type(at) => self.type_number(types, image, at, emitted.span, trouble),
            Operand::Named(at, constant) => {
                let found = self.type_number(types, image, at, emitted.span, trouble);
                found
                    .saturating_mul(256)
                    .saturating_add(self.number(constant, trouble))
            }
        }
    }

    /// The number of a type. It gets the next one if it has none.
    fn type_number(
        &mut self,
        types: &Types,
        image: &TypeTable,
        at: TypeAt,
        span: Span,
        trouble: &mut Trouble,
    ) -> i32 {
        self.types.add(types, image, at, span, trouble);
        i32::from(self.types.number(at).unwrap_or(0))
    }

    /// Counts the most steps. More than a client may take are an error in the line of the loop that
    /// takes most.
    fn count_steps(&mut self, alloc: Global, trouble: &mut Trouble) {
        let cost = cost_of(alloc, self.code.as_slice(), trouble);
        self.steps = cost.steps;
        if cost.steps > MOST_STEPS {
            let span = self.places.get(cost.opener).copied().unwrap_or(NOWHERE);
            let count = usize::try_from(cost.steps).unwrap_or(usize::MAX);
            trouble.note_number(span, ErrorKind::STEPS, count);
        }
    }

    /// The client with these constants and warnings.
    pub fn into_compiled(self, constants: Constants, warnings: Vec<Warning>) -> Compiled {
        let Linked {
            types,
            used,
            code,
            places,
            steps,
            ..
        } = self;
        Compiled {
            types: types.into_entries(),
            code,
            places,
            warnings,
            steps,
            constants,
            used,
        }
    }
}

fn instruction_of(emitted: &Emitted, number: i32) -> Instruction {
    let [a, b, c] = emitted.registers;
    Instruction {
        operation: emitted.operation,
        a: a.min(Instruction::NONE),
        b: b.min(Instruction::NONE),
        c: c.min(Instruction::NONE),
        number,
    }
}
