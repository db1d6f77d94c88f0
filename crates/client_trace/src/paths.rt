use crate::path::{Path, PathStart, Selector};
use client_code::{Client, Constants, Gives, Instruction, Number, Operation, REGISTERS};
use client_vm::{Fit, Segment, Stepper};
use std::alloc::{AllocError, Global};

const COUNT: usize = REGISTERS as usize;

/// The paths to the values that a client's registers refer to.
#[derive(Drop)]
pub(crate) struct Paths<'a> {
    constants: Constants<'a>,
    paths: [Path; COUNT],
}

impl<'a> Paths<'a> {
    pub(crate) fn new(client: &Client<'a>) -> Paths<'a> {
        Paths {
            constants: client.constants(),
            paths: [Path::new(PathStart::Owned(0)); COUNT],
        }
    }

    /// Adds the path to the value that a register refers to.
    pub(crate) fn add_to(&self, text: &mut String, register: u8) -> Result<(), AllocError> {
        self.get(register).add_to(text, self.constants.as_slice())
    }

    /// Whether the path to the value that a register refers to begins at the object with this name.
    pub(crate) fn begins_at(&self, register: u8, name: &str) -> bool {
        self.get(register)
            .begins_at(name, self.constants.as_slice())
    }

    /// Whether an instruction finds, makes or removes the object with this name.
    pub(crate) fn is_named(&self, i: Instruction, run: &Stepper<Global>, name: &str) -> bool {
        i.operation.row().number == Number::TypedName
            && named(i, run).begins_at(name, self.constants.as_slice())
    }

    fn get(&self, register: u8) -> Path {
        self.paths[usize::from(register) % COUNT]
    }

    /// Updates the paths for the instruction that the run performs next: a register that will refer to a value gets the path to
    /// it. If the instruction fails, the register has a code, and its path means nothing.
    pub(crate) fn pass<F: Fit>(
        &mut self,
        instruction: Instruction,
        run: &Stepper<Global>,
        segment: &Segment<F, Global>,
    ) {
        if let Some(path) = self.given(instruction, run, segment) {
            self.paths[usize::from(instruction.a) % COUNT] = path;
        }
    }

    /// The path to the value that register a will refer to, or `None` if the operation gives no reference.
    fn given<F: Fit>(
        &self,
        i: Instruction,
        run: &Stepper<Global>,
        segment: &Segment<F, Global>,
    ) -> Option<Path> {
        let whole = self.get(i.b);
        match i.operation.row().gives {
            Gives::Copy => Some(whole),
            Gives::Named if i.operation == Operation::Find => Some(value(i, run)),
            Gives::Named => Some(named(i, run)),
            Gives::Unique => Some(Path::new(PathStart::Unique(i.type_id()))),
            Gives::Owned => Some(Path::new(PathStart::Owned(i.b))),
            Gives::Part => part(i, run, segment).map(|part| whole.part(part)),
            Gives::Nothing | Gives::Int | Gives::Owner | Gives::Content | Gives::Forgotten => None,
        }
    }
}

/// The part of register b's value to which an instruction that gives a part refers.
fn part<F: Fit>(
    i: Instruction,
    run: &Stepper<Global>,
    segment: &Segment<F, Global>,
) -> Option<Selector> {
    match i.operation {
        Operation::Content => Some(Selector::Content),
        Operation::Field => Some(Selector::Field(i.number)),
        Operation::At => Some(Selector::Item(run.number(i.c))),
        Operation::PushBack => {
            let len = segment.heap().count(run.place(i.b).at);
            Some(Selector::Item(i64::from(len)))
        }
        Operation::PushFront => Some(Selector::Item(0)),
        Operation::GetKey | Operation::PutKey => Some(Selector::Key(run.number(i.c))),
        // No other operation gives a part.
        _ => None,
    }
}

/// The path to the object that an instruction names.
fn named(i: Instruction, run: &Stepper<Global>) -> Path {
    Path::new(PathStart::Named {
        constant: i.constant(),
        number: run.number(i.b),
    })
}

/// The path to the value with the index in register c, in a named array; the first value if operand c is 16.
fn value(i: Instruction, run: &Stepper<Global>) -> Path {
    let first = named(i, run);
    if i.c == Instruction::NONE {
        first
    } else {
        first.part(Selector::Value(run.number(i.c)))
    }
}
