//! Code that no one sees: it changes registers only.
ghost use Rattle.std.specs.Prelude.{◌≡◌, IfSome, None, true};
ghost use Rattle.client_spec.specs.Machine.{State};
ghost use Rattle.client_code.specs.Views.{instruction_of};
ghost use Rattle.script_meaning.specs.Meaning.{Moment, Stays};
ghost use Rattle.client_spec.specs.declared.table.Operation.TheVariants as operation;
ghost use Rattle.client_spec.specs.declared.table.Role.{Role};
ghost use Rattle.client_spec.specs.Operations.{row_of};
ghost use Rattle.script_meaning.specs.Following.{Extends};
ghost use Rattle.script_meaning.specs.Comparing.{knowing, Follows, IsAt, GivesTerm};

use crate::comparison::Comparison;
use crate::knowledge::Knowledge;
use crate::terms::{Computation, TermAt};
use client_code::{Instruction, Operation};

impl Comparison<'_> {
    /// The position after code that no one sees, as far as it goes.
    pub(crate) fn hidden(&self, knowledge: &mut Knowledge, at: usize) -> usize
        ensures { Follows self.now at result
            (knowing self.now knowledge.old) Stays (knowing self.now knowledge.new) }
    {
        let mut now = at;
        for _ in 0..self.instructions.len() {
            match self.hidden_step(knowledge, now) {
                Some(after) => now = after,
                None => return now,
            }
        }
        now
    }

    /// The position after one instruction that only changes a register, or after four that look up an object's number.
    /// `None` if anyone sees what the next instruction does.
    pub(crate) fn hidden_step(&self, knowledge: &mut Knowledge, at: usize) -> Option<usize>
        ensures some { IfSome result (λ after. Follows self.now at after
            (knowing self.now knowledge.old) Stays (knowing self.now knowledge.new)) }
        ensures none { result ≡ None → (m : Moment) (s : State)
            → knowing self.now knowledge.old m s → knowing self.now knowledge.new m s }
        ensures extends { Extends knowledge.old.terms.list.items knowledge.new.terms.list.items }
    {
        let instruction = self.instruction(at)?;
        match instruction.operation {
            Operation::Find => return self.lookup(knowledge, instruction, at),
            Operation::Forget => return self.forget(knowledge, instruction, at),
            _ => {}
        }
        let term = term_of(knowledge, instruction)?;
        let after = at.checked_add(1)?;
        knowledge.set(instruction.a, Some(term));
        Some(after)
    }

    /// The position after a `FORGET`. Nothing is known of its register.
    fn forget(&self, knowledge: &mut Knowledge, forget: Instruction, at: usize) -> Option<usize>
        ensures some { IsAt self.now at (instruction_of forget)
            → forget.operation ≡ operation.Forget → IfSome result (λ after. Follows self.now at after
            (knowing self.now knowledge.old) Stays (knowing self.now knowledge.new)) }
        ensures none { result ≡ None → (m : Moment) (s : State)
            → knowing self.now knowledge.old m s → knowing self.now knowledge.new m s }
        ensures extends { Extends knowledge.old.terms.list.items knowledge.new.terms.list.items }
    {
        let after = at.checked_add(1)?;
        knowledge.set(forget.b, None);
        Some(after)
    }

    /// The position after the lookup of an object's number: `FIND`, `LOAD`, `ELSE`, `END`. If there is no such object, the
    /// register keeps its number.
    fn lookup(&self, knowledge: &mut Knowledge, find: Instruction, at: usize) -> Option<usize>
        ensures some { IsAt self.now at (instruction_of find) → find.operation ≡ operation.Find
            → IfSome result (λ after. Follows self.now at after
            (knowing self.now knowledge.old) Stays (knowing self.now knowledge.new)) }
        ensures none { result ≡ None → (m : Moment) (s : State)
            → knowing self.now knowledge.old m s → knowing self.now knowledge.new m s }
        ensures extends { Extends knowledge.old.terms.list.items knowledge.new.terms.list.items }
    {
        let object = self.object_of(find)?;
        let load_at = at.checked_add(1)?;
        let load = self.instruction(load_at)?;
        if load.operation != Operation::Load
            || load.b != find.a
            || load.a == find.a
            || find.c != Instruction::NONE
        {
            return None;
        }
        let default = knowledge.term(load.a)?;
        let otherwise = self.mark(Operation::Else, load_at.checked_add(1)?)?;
        let after = self.mark(Operation::End, otherwise)?;
        let term = knowledge.terms.object_or(object, default)?;
        knowledge.set(find.a, None);
        knowledge.set(load.a, Some(term));
        Some(after)
    }
}

/// The term of the number that an instruction works out from numbers. `None` for any other instruction.
fn term_of(knowledge: &mut Knowledge, instruction: Instruction) -> Option<TermAt>
    ensures value { IfSome result (λ at. GivesTerm knowledge.old knowledge.new
        (instruction_of instruction) at) }
    ensures role { IfSome result (λ at. (row_of instruction.operation).role ≡ Role.Plain) }
    ensures registers { knowledge.new.registers ≡ knowledge.old.registers }
    ensures extends { Extends knowledge.old.terms.list.items knowledge.new.terms.list.items }
{
    let computation = match instruction.operation {
        Operation::Const => return knowledge.terms.literal(i64::from(instruction.number)),
        Operation::Mov => return knowledge.term(instruction.b),
        Operation::Add => Computation::Add,
        Operation::Sub => Computation::Subtract,
        Operation::Mul => Computation::Multiply,
        Operation::Less => Computation::Less,
        Operation::Equal => Computation::Equal,
        _ => return None,
    };
    let left = knowledge.term(instruction.b)?;
    let right = knowledge.term(instruction.c)?;
    knowledge.terms.computed(computation, left, right)
}
