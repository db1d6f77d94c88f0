ghost use Rattle.std.specs.Prelude.{◌≡◌, ◌+◌, List, IfOk, IfErr, Ok, Err};
ghost use Rattle.client_spec.specs.Syntax as syntax;
ghost use Rattle.client_spec.specs.Grammar.{IsInstruction};
ghost use Rattle.client_spec.specs.declared.table.Role.TheVariants as role;
ghost use Rattle.client_spec.specs.Operations.{row_of};
ghost use Rattle.client_code.specs.Views.{instruction_of};
ghost use Rattle.client_verify.specs.Views.{reason_of, registers_of, checked};
ghost use Rattle.client_verify.specs.Passing.{initial_progress, passes, at_most, inside, turned, closed};
ghost use Rattle.client_verify.specs.Verifiers.{open_part, progress_of, PassesBy};

use crate::reason::Reason;
use crate::registers::Registers;
use crate::rule::Rule;
use arrayvec::ArrayVec;
use client_code::{DEPTH, Instruction, Role};
use seg_layout::TypeTable;

/// The kind of an open part of the code.
#[derive(Debug, Clone, Copy)]
enum PartState {
    Success,
    /// An else part, after a success part of at most `steps` steps.
    Else { steps: u64 },
    /// The body of a loop with at most `turns` iterations.
    Body { turns: u64 },
}

/// An open part, and what its end needs.
#[derive(Debug, Clone, Copy)]
struct Open {
    part: PartState,
    // the steps of the code before the part
    steps: u64,
    // what is known where the else part begins, where the success part ended, or before the loop
    registers: Registers,
}

impl Default for Open {
    fn default() -> Open {
        Open {
            part: PartState::Success,
            steps: 0,
            registers: Registers::new(),
        }
    }
}

/// The verifier at a place in a client's code. It passes the instructions one by one, from the first.
#[derive(Drop)]
pub struct Verifier<'a> {
    types: &'a TypeTable,
    registers: Registers,
    // an upper bound of the steps of the innermost part so far; u64::MAX if there are more
    steps: u64,
    parts: ArrayVec<Open, DEPTH>,
}

impl<'a> Verifier<'a> {
    /// The verifier before the first instruction.
    pub fn new(types: &'a TypeTable) -> Verifier<'a>
        ensures types { result.types.now ≡ types.now }
        ensures start { progress_of result ≡ initial_progress }
    {
        Verifier {
            types,
            registers: Registers::new(),
            steps: 0,
            parts: ArrayVec::new(),
        }
    }

    /// The most steps of the code so far.
    pub fn steps(&self) -> u64
        ensures { result ≡ self.now.steps }
    {
        self.steps
    }

    /// What is known of the registers at this place.
    pub fn registers(&self) -> &Registers
        ensures { result.now ≡ self.now.registers }
    {
        &self.registers
    }

    /// Passes an instruction, or returns why it is rejected.
    pub fn pass(&mut self, instruction: Instruction) -> Result<(), Reason>
        ensures types { self.new.types.now ≡ self.old.types.now }
        ensures passed { IfOk result (λ _. (constants : List syntax.Constant) →
            IsInstruction self.old.types.now constants (row_of instruction.operation).role
            (instruction_of instruction)
            → passes self.old.types.now constants (progress_of self.old)
            (instruction_of instruction) ≡ Ok (progress_of self.new)) }
        ensures refused { IfErr result (λ reason. (constants : List syntax.Constant) →
            IsInstruction self.old.types.now constants (row_of instruction.operation).role
            (instruction_of instruction)
            → passes self.old.types.now constants (progress_of self.old)
            (instruction_of instruction) ≡ Err (reason_of reason)) }
    {
        match instruction.operation.row().role {
            Role::Plain => self.perform(instruction),
            Role::Opener => self.open(instruction),
            Role::Loop => self.enter(instruction),
            Role::Else => {
                self.turn();
                Ok(())
            }
            Role::End => self.close(),
        }
    }

    fn perform(&mut self, instruction: Instruction) -> Result<(), Reason>
        ensures types { self.new.types.now ≡ self.old.types.now }
        ensures passes { PassesBy role.Plain self.old instruction self.new result }
    {
        let after = Rule::new(self.types, &self.registers, instruction).apply()?;
        after.end(&mut self.registers);
        after.succeed(&mut self.registers);
        self.steps = self.steps.saturating_add(1);
        Ok(())
    }

    fn open(&mut self, instruction: Instruction) -> Result<(), Reason>
        ensures types { self.new.types.now ≡ self.old.types.now }
        ensures passes { PassesBy role.Opener self.old instruction self.new result }
    {
        let after = Rule::new(self.types, &self.registers, instruction).apply()?;
        after.end(&mut self.registers);
        after.fail(&mut self.registers);
        self.push(PartState::Success);
        after.succeed(&mut self.registers);
        Ok(())
    }

    fn enter(&mut self, instruction: Instruction) -> Result<(), Reason>
        ensures types { self.new.types.now ≡ self.old.types.now }
        ensures passes { PassesBy role.Loop self.old instruction self.new result }
    {
        Rule::new(self.types, &self.registers, instruction).apply()?;
        let turns = u64::from(instruction.number.unsigned_abs());
        self.push(PartState::Body { turns });
        Ok(())
    }

    /// Opens a part after an instruction, which keeps what is known here. There is room, since a client's nesting has a limit.
    fn push(&mut self, part: PartState)
        ensures types { self.new.types.now ≡ self.old.types.now }
        ensures registers { self.new.registers ≡ self.old.registers }
        ensures inside { progress_of self.new
            ≡ inside (registers_of self.old.registers)
            (open_part part (registers_of self.old.registers) (at_most (self.old.steps + 1)))
            (progress_of self.old).parts }
    {
        let open = Open {
            part,
            steps: self.steps.saturating_add(1),
            registers: self.registers,
        };
        let _ = self.parts.try_push(open);
        self.steps = 0;
    }

    /// Continues with the else part after the success part.
    fn turn(&mut self)
        ensures types { self.new.types.now ≡ self.old.types.now }
        ensures turned { progress_of self.new
            ≡ turned (progress_of self.old) (progress_of self.old).parts }
    {
        let Some(innermost) = self.parts.len().checked_sub(1) else {
            return;
        };
        if let Some(open) = self.parts.get_mut(innermost) {
            let success = self.registers;
            self.registers = open.registers;
            open.registers = success;
            open.part = PartState::Else { steps: self.steps };
            self.steps = 0;
        }
    }

    /// Closes the innermost part at its `END`.
    fn close(&mut self) -> Result<(), Reason>
        ensures types { self.new.types.now ≡ self.old.types.now }
        ensures closed { checked (λ _. progress_of self.new) result
            ≡ closed (progress_of self.old) (progress_of self.old).parts }
    {
        let Some(open) = self.parts.pop() else {
            return Ok(());
        };
        let inside = match open.part {
            PartState::Success => self.steps,
            PartState::Else { steps } => {
                self.registers.join(&open.registers)?;
                self.steps.max(steps)
            }
            PartState::Body { turns } => {
                open.registers.keeps(&self.registers)?;
                self.registers = open.registers;
                turns.saturating_mul(self.steps.saturating_add(1))
            }
        };
        self.steps = open.steps.saturating_add(inside);
        Ok(())
    }
}
