use client_code::{Client, Instruction, Role};
use client_verify::{Registers, Verifier};
use std::alloc::{AllocError, Global};

/// What the verifier knows of the registers before each instruction of a client, and at the end of its code.
#[derive(Drop)]
pub(crate) struct Known {
    in_front: Vec<Registers>,
}

impl Known {
    pub(crate) fn new(alloc: Global, client: &Client) -> Result<Known, AllocError> {
        let types = client.types();
        let mut verifier = Verifier::new(&types);
        let mut in_front = Vec::new(alloc);
        for at in 0..client.instruction_count() {
            in_front.push(*verifier.registers())?;
            pass(&mut verifier, client, at);
        }
        in_front.push(*verifier.registers())?;
        Ok(Known { in_front })
    }

    /// What is known in front of the instruction at an index.
    pub(crate) fn in_front_of(&self, at: u16) -> Registers {
        match self.in_front.as_slice().get(usize::from(at)) {
            Some(registers) => *registers,
            None => Registers::new(),
        }
    }
}

/// The instruction in front of which the registers contain what they contain after the instruction at `at`, if the run continues
/// at `next`.
pub(crate) fn known_at(instruction: Instruction, at: u16, next: u16) -> u16 {
    match instruction.operation.row().role {
        // a loop continues at its END, where the recorded knowledge is that after the body
        Role::Loop => at,
        Role::Plain | Role::Opener | Role::Else | Role::End => next,
    }
}

/// Passes the instruction at an index to the verifier. A client was verified before, so none is refused.
fn pass(verifier: &mut Verifier, client: &Client, at: u32) {
    if let Some(instruction) = client.instruction(at) {
        let _ = verifier.pass(instruction);
    }
}
