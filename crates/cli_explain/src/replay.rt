use client_code::{Client, REGISTERS, Role};
use client_verify::{PackedRegister, Registers, Verifier};
use std::alloc::{AllocError, Global};

/// How a register lost what it contained.
#[derive(Clone, Copy)]
pub(crate) enum How {
    /// An instruction changed it.
    Changed,
    /// The success part ended. The else part left this in the register.
    AfterSuccess(PackedRegister),
    /// The else part ended, and the success part left nothing in the register.
    AfterElse,
    /// The body of a loop ended.
    AfterBody,
}

/// What a register contained before its last change, and the number of the instruction that changed it.
#[derive(Clone, Copy)]
pub(crate) struct Change {
    pub(crate) held: PackedRegister,
    pub(crate) by: u32,
    pub(crate) how: How,
}

/// What is known of each register, and the last change of each.
#[derive(Clone, Copy)]
struct Known {
    registers: Registers,
    changes: [Option<Change>; REGISTERS as usize],
}

impl Known {
    fn change(&self, register: u8) -> Option<Change> {
        *self.changes.get(usize::from(register))?
    }

    fn set_change(&mut self, register: u8, change: Option<Change>) {
        if let Some(found) = self.changes.get_mut(usize::from(register)) {
            *found = change;
        }
    }

    /// Records what is known after the instruction with this number.
    fn pass(&mut self, number: u32, after: &Registers, how: How) {
        for register in 0..REGISTERS {
            let held = self.registers.packed(register);
            if held != after.packed(register) {
                let by = number;
                self.set_change(register, Some(Change { held, by, how }));
            }
        }
        self.registers = *after;
    }

    /// Records what is known at the beginning of an else part. Before, this is what was known before the instruction that can fail.
    fn begin_else(&mut self, success: &Success, after: &Registers) {
        self.pass(success.opener, after, How::Changed);
        for register in 0..REGISTERS {
            let held = success.end.registers.packed(register);
            let is_left = held != PackedRegister::undefined()
                && after.packed(register) == PackedRegister::undefined();
            if is_left && self.change_in(register, success.opener).is_none() {
                self.set_change(
                    register,
                    Some(success.left(held, PackedRegister::undefined())),
                );
            }
        }
    }

    /// Records what is known after both parts of an instruction, of which this is the else part.
    fn join(&mut self, number: u32, success: &Success, after: &Registers) {
        for register in 0..REGISTERS {
            let change = self.joined(register, number, success);
            self.set_change(register, change);
        }
        self.registers = *after;
    }

    /// The last change of a register after both parts.
    fn joined(&self, register: u8, number: u32, success: &Success) -> Option<Change> {
        let first = success.end.registers.packed(register);
        let last = self.registers.packed(register);
        let is_first = first != PackedRegister::undefined();
        let is_last = last != PackedRegister::undefined();
        if is_last && !is_first {
            return success.end.change_in(register, success.opener).or(Some(Change {
                held: last,
                by: number,
                how: How::AfterElse,
            }));
        }
        let change = self.change_in(register, success.opener);
        if !is_first || first == last || (change.is_some() && !is_last) {
            return change.or(success.end.change(register));
        }
        Some(success.left(first, last))
    }

    /// The last change of a register, if the instruction with this number made it, or a later one.
    fn change_in(&self, register: u8, from: u32) -> Option<Change> {
        match self.change(register) {
            Some(change) if change.by >= from => Some(change),
            Some(_) | None => None,
        }
    }
}

/// A success part that has ended.
#[derive(Clone, Copy)]
struct Success {
    /// What is known at its end.
    end: Known,
    /// The numbers of the instruction that can fail, and of its `ELSE`.
    opener: u32,
    ended: u32,
}

impl Success {
    /// The change of a register that contained `held` at the end of this part, and something else at the end of the else part.
    fn left(&self, held: PackedRegister, otherwise: PackedRegister) -> Change {
        Change {
            held,
            by: self.ended,
            how: How::AfterSuccess(otherwise),
        }
    }
}

/// An open part of the code, with what its end is compared with.
#[derive(Clone, Copy)]
enum Part {
    /// What is known before the instruction with this number, which can fail.
    Success(Known, u32),
    Else(Success),
    /// What is known before the loop.
    Body(Known),
}

/// An open part of the code, with the registers that its end is compared with.
#[derive(Clone, Copy)]
pub(crate) enum OpenPart {
    Success,
    /// At the end of the success part.
    Else(Registers),
    /// Before the loop.
    Body(Registers),
}

/// What the verifier knows at a place in a client's code, and the last change of each register.
#[derive(Drop)]
pub(crate) struct Replay {
    known: Known,
    steps: u64,
    parts: Vec<Part>,
}

impl Replay {
    /// The state before the instruction with this number, or before an earlier one that is refused.
    pub(crate) fn until(alloc: Global, client: &Client, end: u32) -> Result<Replay, AllocError> {
        let types = client.types();
        let mut verifier = Verifier::new(&types);
        let mut replay = Replay {
            known: Known {
                registers: Registers::new(),
                changes: [None; REGISTERS as usize],
            },
            steps: 0,
            parts: Vec::new(alloc),
        };
        for number in 0..end {
            let Some(role) = passed(&mut verifier, client, number) else {
                break;
            };
            replay.pass(number, role, verifier.registers())?;
        }
        replay.steps = verifier.steps();
        Ok(replay)
    }

    pub(crate) fn registers(&self) -> &Registers {
        &self.known.registers
    }

    /// The most steps of the code so far.
    pub(crate) fn steps(&self) -> u64 {
        self.steps
    }

    /// The last change of a register, if it ever changed.
    pub(crate) fn change(&self, register: u8) -> Option<Change> {
        self.known.change(register)
    }

    /// The part that the next `END` ends.
    pub(crate) fn innermost(&self) -> Option<OpenPart> {
        Some(match self.parts.last()? {
            Part::Success(..) => OpenPart::Success,
            Part::Else(success) => OpenPart::Else(success.end.registers),
            Part::Body(before) => OpenPart::Body(before.registers),
        })
    }

    /// Passes the instruction with this number and role, after which this is known of the registers.
    fn pass(&mut self, number: u32, role: Role, after: &Registers) -> Result<(), AllocError> {
        match role {
            Role::Plain => self.known.pass(number, after, How::Changed),
            Role::Opener => {
                self.parts.push(Part::Success(self.known, number))?;
                self.known.pass(number, after, How::Changed);
            }
            Role::Loop => {
                self.parts.push(Part::Body(self.known))?;
                self.known.pass(number, after, How::Changed);
            }
            Role::Else => {
                if let Some(Part::Success(before, opener)) = self.parts.pop() {
                    let success = Success {
                        end: self.known,
                        opener,
                        ended: number,
                    };
                    self.parts.push(Part::Else(success))?;
                    self.known = before;
                    self.known.begin_else(&success, after);
                }
            }
            Role::End => self.end(number, after),
        }
        Ok(())
    }

    /// Ends the innermost part.
    fn end(&mut self, number: u32, after: &Registers) {
        match self.parts.pop() {
            Some(Part::Else(success)) => self.known.join(number, &success, after),
            Some(Part::Body(_) | Part::Success(..)) | None => {
                self.known.pass(number, after, How::AfterBody);
            }
        }
    }
}

/// Passes the instruction with this number to the verifier. Returns its role, or `None` if it is refused.
fn passed(verifier: &mut Verifier, client: &Client, number: u32) -> Option<Role> {
    let instruction = client.instruction(number)?;
    verifier.pass(instruction).ok()?;
    Some(instruction.operation.row().role)
}
