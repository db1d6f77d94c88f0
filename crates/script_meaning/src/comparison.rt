//! Whether a client's code does what a program says: both are read side by side.
ghost use Rattle.std.specs.Prelude.{◌≡◌, ◌∷◌, ◌+◌, ℕ, ℤ, pos, List, IfSome, IsTrue, Some, None, true, slice_get, slice_set};
ghost use Rattle.client_spec.specs.Machine.{State};
ghost use Rattle.client_spec.specs.Grammar as grammar;
ghost use Rattle.client_code.specs.Views.{instruction_of};
ghost use Rattle.script_meaning.specs.Meaning.{Moment, name_of, value, Stays, Does};
ghost use Rattle.script_meaning.specs.Comparing.{setting_of, knowing, holding, Follows, IsAt, IsAbout, Marks, Computes};

use crate::knowledge::{Held, Knowledge};
use crate::program::{Code, Operator};
use client_code::{Constant, ConstantKind, Instruction, Operation, TypeId};

/// The code of a client with its constants, and the objects of a program.
#[derive(Clone, Copy)]
pub(crate) struct Comparison<'a> {
    pub(crate) instructions: &'a [Instruction],
    pub(crate) constants: &'a [Constant<'a>],
    pub(crate) objects: &'a [Vec<u8>],
    /// The number of the type `int`.
    pub(crate) int: TypeId,
}

impl Comparison<'_> {
    /// The position after some statements, if the code at a position does what they say. These registers contain their
    /// variables before it and after it.
    pub(crate) fn code(
        &self,
        knowledge: &mut Knowledge,
        code: &Code,
        at: usize,
        held: Held,
    ) -> Option<usize>
        ensures { IfSome result (λ end. Follows self.now at end (holding held.variables)
            (Does (setting_of self.now) code.now) (holding held.variables)) }
    {
        match code {
            Code::End => Some(at),
            Code::Set(variable, number, rest) => {
                let set = self.set(knowledge, *variable, number, at, &held)?;
                self.code(
                    knowledge,
                    rest,
                    set.after,
                    held.with(set.register, *variable),
                )
            }
            Code::Print(bytes, rest) => {
                let after = self.print(knowledge, bytes.as_slice(), at, &held)?;
                self.code(knowledge, rest, after, held)
            }
            Code::PrintLine(number, rest) => {
                let after = self.print_line(knowledge, number, at, &held)?;
                self.code(knowledge, rest, after, held)
            }
            Code::If(number, on_true, on_false, rest) => {
                let body = self.open_if(knowledge, number, at, &held)?;
                let end = self.code(knowledge, on_true, body, held)?;
                let other = self.marked(knowledge, Operation::Else, end, &held)?;
                let end = self.code(knowledge, on_false, other, held)?;
                let after = self.marked(knowledge, Operation::End, end, &held)?;
                self.code(knowledge, rest, after, held)
            }
            Code::While(number, turns, body, rest) => {
                let opened = self.open_loop(knowledge, number, *turns, at, &held)?;
                let end = self.code(knowledge, body, opened.body, held)?;
                let after = self.end_loop(knowledge, number, opened.register, end, &held)?;
                self.code(knowledge, rest, after, held)
            }
            Code::WhileElse(number, turns, body, on_cut, rest) => {
                let opened = self.open_loop(knowledge, number, *turns, at, &held)?;
                let end = self.code(knowledge, body, opened.body, held)?;
                let after = self.end_loop(knowledge, number, opened.register, end, &held)?;
                let part = self.open_cut(opened.register, after)?;
                let end = self.code(knowledge, on_cut, part, held)?;
                let other = self.marked(knowledge, Operation::Else, end, &held)?;
                let after = self.mark(Operation::End, other)?;
                self.code(knowledge, rest, after, held)
            }
            Code::Store(object, number, otherwise, rest) => {
                let other = self.store(knowledge, *object, number, at, &held)?;
                let end = self.code(knowledge, otherwise, other, held)?;
                let after = self.marked(knowledge, Operation::End, end, &held)?;
                self.code(knowledge, rest, after, held)
            }
            Code::Change(object, operator, number, otherwise, rest) => {
                let operation = operation_of(*operator)?;
                let other = self.change(knowledge, *object, operation, number, at, &held)?;
                let end = self.code(knowledge, otherwise, other, held)?;
                let after = self.marked(knowledge, Operation::End, end, &held)?;
                self.code(knowledge, rest, after, held)
            }
            Code::IfObject(variable, object, on_found, on_absent, rest) => {
                let opened = self.open_object(knowledge, *variable, *object, at, &held)?;
                let inside = held.with(opened.register, *variable);
                let end = self.code(knowledge, on_found, opened.body, inside)?;
                let other = self.marked(knowledge, Operation::Else, end, &held)?;
                let end = self.code(knowledge, on_absent, other, held)?;
                let after = self.marked(knowledge, Operation::End, end, &held)?;
                self.code(knowledge, rest, after, held)
            }
            Code::Delete(object, rest) => {
                let after = self.delete(knowledge, *object, at, &held)?;
                self.code(knowledge, rest, after, held)
            }
        }
    }

    /// The instruction at a position.
    pub(crate) fn instruction(&self, at: usize) -> Option<Instruction>
        ensures { IfSome result (λ i. IsAt self.now at (instruction_of i)) }
    {
        self.instructions.get(at).copied()
    }

    /// The position after an instruction without operands.
    pub(crate) fn mark(&self, operation: Operation, at: usize) -> Option<usize>
        ensures there { IfSome result (λ after. IsAt self.now at (grammar.mark operation)) }
        ensures after { IfSome result (λ after. after ≡ at + 1) }
    {
        let found = self.instruction(at)?;
        if found.operation == operation
            && found.a == 0
            && found.b == 0
            && found.c == 0
            && found.number == 0
        {
            return at.checked_add(1);
        }
        None
    }

    /// The object that an instruction is about: its constant is the object's name, and its type is `int`.
    pub(crate) fn object_of(&self, instruction: Instruction) -> Option<usize>
        ensures { IfSome result (λ x. IsAbout self.now (instruction_of instruction) x) }
    {
        let number = usize::try_from(instruction.number).ok()?;
        if number / 256 != usize::from(self.int) || instruction.b != Instruction::NONE {
            return None;
        }
        let constant = self.constants.get(number % 256)?;
        if constant.kind != ConstantKind::Name {
            return None;
        }
        self.object_named(constant.bytes)
    }

    /// The object of a name.
    fn object_named(&self, name: &[u8]) -> Option<usize>
        ensures { IfSome result (λ x. name_of (setting_of self.now) x ≡ name.now) }
    {
        for (x, object) in self.objects.iter().enumerate() {
            if object.as_slice() == name {
                return Some(x);
            }
        }
        None
    }

    /// The position after code that no one sees, if the registers contain these variables there.
    pub(crate) fn settled(&self, knowledge: &mut Knowledge, at: usize, held: &Held) -> Option<usize>
        ensures { IfSome result (λ after. Follows self.now at after
            (holding held.now.variables) Stays (holding held.now.variables)) }
    {
        knowledge.begin(held);
        let after = self.hidden(knowledge, at);
        if knowledge.keeps(held) {
            Some(after)
        } else {
            None
        }
    }

    /// The position after `ELSE` or `END`, if only code that no one sees is before it.
    fn marked(
        &self,
        knowledge: &mut Knowledge,
        operation: Operation,
        at: usize,
        held: &Held,
    ) -> Option<usize>
        ensures { IfSome result (λ after. Marks self.now at after operation
            (holding held.now.variables) (holding held.now.variables)) }
    {
        let start = self.settled(knowledge, at, held)?;
        self.mark(operation, start)
    }
}

/// The operation that works out what an operator does, if one does.
fn operation_of(operator: Operator) -> Option<Operation>
    ensures { IfSome result (λ found. Computes operator found) }
{
    match operator {
        Operator::Add => Some(Operation::Add),
        Operator::Subtract => Some(Operation::Sub),
        Operator::Multiply => Some(Operation::Mul),
        Operator::Less
        | Operator::LessOrEqual
        | Operator::Greater
        | Operator::GreaterOrEqual
        | Operator::Equal
        | Operator::NotEqual
        | Operator::And
        | Operator::Or => None,
    }
}
