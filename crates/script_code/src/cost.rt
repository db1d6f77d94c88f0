//! How many steps a client takes at most.

use crate::error::{Trouble, append};
use client_code::{Instruction, Operation, Role};
use std::alloc::Global;

/// A part that is open: the position of its opener, its own steps, its success part's, and
/// its turns.
#[derive(Clone, Copy)]
struct Count {
    opener: usize,
    steps: u64,
    success: u64,
    turns: u64,
}

/// The most steps that code takes, and the steps and the position of the loop that takes most.
#[derive(Clone, Copy)]
pub struct Cost {
    pub steps: u64,
    largest: u64,
    pub opener: usize,
}

/// The most steps that code takes.
pub fn cost_of(alloc: Global, code: &[Instruction], trouble: &mut Trouble) -> Cost {
    let mut outer = Vec::new(alloc);
    let mut cost = Cost {
        steps: 0,
        largest: 0,
        opener: 0,
    };
    let mut part = Count {
        opener: 0,
        steps: 0,
        success: 0,
        turns: 1,
    };
    for (at, instruction) in code.iter().enumerate() {
        match instruction.operation.row().role {
            Role::Plain => part.steps = part.steps.saturating_add(1),
            Role::Opener | Role::Loop => {
                part.steps = part.steps.saturating_add(1);
                append(&mut outer, part, trouble);
                part = opened(at, instruction);
            }
            Role::Else => {
                part.success = part.steps;
                part.steps = 0;
            }
            Role::End => {
                let steps = cost.end_part(&part);
                part = outer.pop().unwrap_or(part);
                part.steps = part.steps.saturating_add(steps);
            }
        }
    }
    cost.steps = part.steps;
    cost
}

impl Cost {
    /// The steps of a part that ends.
    fn end_part(&mut self, part: &Count) -> u64 {
        let steps = part.steps.max(part.success).saturating_mul(part.turns);
        if part.turns > 1 && steps > self.largest {
            self.largest = steps;
            self.opener = part.opener;
        }
        steps
    }
}

/// The part that an instruction opens. A turn of a loop is a step itself.
fn opened(opener: usize, instruction: &Instruction) -> Count {
    let is_loop = instruction.operation == Operation::While;
    let turns = if is_loop {
        u64::try_from(instruction.number).unwrap_or(1)
    } else {
        1
    };
    Count {
        opener,
        steps: if is_loop { 1 } else { 0 },
        success: 0,
        turns,
    }
}
