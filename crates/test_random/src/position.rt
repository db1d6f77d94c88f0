//! The position of a run in a client's code, whose instructions run on the model.

use crate::abstract_run::AbstractRun;
use crate::model::Objects;
use client_code::{Client, ConstantKind, Instruction, Role};
use std::alloc::Global;
use std::test::Fail;

/// An open part of the code.
#[derive(Clone, Copy)]
enum EnteredPart {
    Opener,
    Loop { start: u32, turns: i32 },
}

/// The position of a run in a client's code.
#[derive(Drop)]
pub(crate) struct Position<'a> {
    client: Client<'a>,
    parts: Vec<EnteredPart>,
    at: u32,
    pub(crate) steps: u64,
}

impl<'a> Position<'a> {
    pub(crate) fn new(alloc: Global, client: Client<'a>) -> Position<'a> {
        Position {
            client,
            parts: Vec::new(alloc),
            at: 0,
            steps: 0,
        }
    }

    /// Runs to the end of the code.
    pub(crate) fn to_end(
        &mut self,
        run: &mut AbstractRun,
        objects: &mut Objects,
    ) -> Result<(), Fail> {
        for _ in 0..1_000_000 {
            let Some(i) = self.client.instruction(self.at) else {
                return Ok(());
            };
            self.read_constant(run, i)?;
            self.turn(run, objects, i)?;
        }
        Err(Fail::from("the run doesn't end"))
    }

    /// Gives the run the constant of an instruction, or an empty one if it has none.
    fn read_constant(&self, run: &mut AbstractRun, i: Instruction) -> Result<(), Fail> {
        match self.client.constants().get(i.constant() as usize) {
            Some(constant) => run.set_constant(constant.kind, constant.bytes),
            None => run.set_constant(ConstantKind::Text, b""),
        }
    }

    fn turn(
        &mut self,
        run: &mut AbstractRun,
        objects: &mut Objects,
        i: Instruction,
    ) -> Result<(), Fail> {
        match i.operation.row().role {
            Role::Plain => {
                self.count_step();
                run.act(objects, i)?;
                self.go_after(self.at);
                Ok(())
            }
            Role::Opener => self.open_part(run, objects, i),
            Role::Loop => self.enter(i),
            Role::Else => {
                let _ = self.parts.pop();
                self.go_after(self.mark(Role::End));
                Ok(())
            }
            Role::End => self.end(run),
        }
    }

    fn open_part(
        &mut self,
        run: &mut AbstractRun,
        objects: &mut Objects,
        i: Instruction,
    ) -> Result<(), Fail> {
        self.count_step();
        let opens = run.open(objects, i)?;
        self.parts.push(EnteredPart::Opener)?;
        let at = if opens {
            self.at
        } else {
            self.mark(Role::Else)
        };
        self.go_after(at);
        Ok(())
    }

    fn enter(&mut self, i: Instruction) -> Result<(), Fail> {
        self.count_step();
        self.parts.push(EnteredPart::Loop {
            start: self.at,
            turns: i.number,
        })?;
        self.at = self.mark(Role::End);
        Ok(())
    }

    fn count_step(&mut self) {
        self.steps = self.steps.wrapping_add(1);
    }

    fn go_after(&mut self, at: u32) {
        self.at = at.wrapping_add(1);
    }

    /// Ends a part.
    fn end(&mut self, run: &AbstractRun) -> Result<(), Fail> {
        match self.parts.pop() {
            Some(EnteredPart::Loop { start, turns }) if turns > 0 && self.turns_again(run, start) =>
                {
                    self.count_step();
                    self.parts.push(EnteredPart::Loop {
                        start,
                        turns: turns.wrapping_sub(1),
                    })?;
                    self.go_after(start);
                }
            _ => self.go_after(self.at),
        }
        Ok(())
    }

    /// Whether the number of the loop that starts here isn't 0.
    fn turns_again(&self, run: &AbstractRun, start: u32) -> bool {
        match self.client.instruction(start) {
            Some(i) => run.number(i.b) != 0,
            None => false,
        }
    }

    /// The index of the `ELSE` or `END` of the current instruction.
    fn mark(&self, wanted: Role) -> u32 {
        let mut depth = 0u32;
        let end = self.client.instruction_count();
        for at in self.at.wrapping_add(1)..end {
            let Some(i) = self.client.instruction(at) else {
                break;
            };
            let role = i.operation.row().role;
            if depth == 0 && role == wanted {
                return at;
            }
            match role {
                Role::Opener | Role::Loop => depth = depth.wrapping_add(1),
                Role::End => depth = depth.wrapping_sub(1),
                Role::Plain | Role::Else => {}
            }
        }
        end
    }
}
