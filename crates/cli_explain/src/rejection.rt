//! Explains why the verifier refuses an instruction.

use crate::explanation::Explanation;
use crate::names::Names;
use crate::quoted::Quoted;
use crate::registers::{Demand, used};
use crate::replay::{Change, How, OpenPart, Replay};
use crate::text::{instruction_lines, line};
use client_code::{Client, Gives, Instruction, REGISTERS, Role};
use client_text::print;
use client_verify::{Class, MOST_STEPS, PackedRegister, Reason, Registers};
use std::alloc::{AllocError, Global};
use std::fmt;

/// The instruction with which a register's contents ended.
#[derive(Clone, Copy)]
struct Ended<'a> {
    how: How,
    shown: Quoted<'a>,
    line: u32,
}

impl fmt::Display for Ended<'_> {
    fn fmt<W: fmt::Write>(&self, f: &mut fmt::Formatter<W>) -> fmt::Result {
        let part = match self.how {
            How::Changed => "",
            How::AfterSuccess(_) => "the success part ended at ",
            How::AfterElse => "the else part ended at ",
            How::AfterBody => "the body of the loop ended at ",
        };
        let (shown, line) = (self.shown, self.line);
        write!(f, "{part}{shown} in line {line}")
    }
}

/// How to have in a register what it contained in one part only.
fn advice(change: Change) -> &'static str {
    let is_number = change.held == PackedRegister::int();
    match change.how {
        How::Changed => "\n",
        How::AfterSuccess(_) | How::AfterElse if is_number => "; set it in both parts\n",
        How::AfterBody if is_number => "; set it before the loop too\n",
        How::AfterSuccess(_) => "; use it inside the success part\n",
        How::AfterElse => "; use it inside the else part\n",
        How::AfterBody => "; use it inside the body\n",
    }
}

/// The text of a client, and the line of each instruction in it.
#[derive(Clone, Copy)]
struct Listing<'a> {
    text: &'a [u8],
    lines: &'a [usize],
}

impl<'a> Listing<'a> {
    /// The number of the instruction's line in the text.
    fn line_of(self, number: u32) -> u32 {
        let line = self.lines.get(number as usize).copied().unwrap_or(0);
        u32::try_from(line).unwrap_or(u32::MAX)
    }

    fn shown(self, number: u32) -> Quoted<'a> {
        Quoted(
            line(self.text, self.line_of(number))
                .unwrap_or(&[])
                .trim_ascii_start(),
        )
    }

    /// The instruction with which a change came.
    fn ended(self, change: Change) -> Ended<'a> {
        Ended {
            how: change.how,
            shown: self.shown(change.by),
            line: self.line_of(change.by),
        }
    }
}

/// A client up to the instruction that is refused.
#[derive(Clone, Copy)]
struct Refusal<'a> {
    replay: &'a Replay,
    names: Names<'a>,
    listing: Listing<'a>,
}

/// An instruction that is refused, by its number, and the reason.
#[derive(Clone, Copy)]
pub(crate) struct Rejected {
    pub(crate) number: u32,
    pub(crate) reason: u8,
}

/// Explains why an instruction is refused. `source` is the client's text, if the user wrote one.
pub(crate) fn add_rejection(
    explanation: &mut Explanation,
    alloc: Global,
    client: Option<Client>,
    source: Option<&[u8]>,
    rejected: Rejected,
) -> Result<(), AllocError> {
    let Some(client) = client else {
        return Ok(());
    };
    match source {
        Some(source) => add_refusal(explanation, alloc, client, source, "", rejected),
        None => {
            let printed = printed(alloc, &client)?;
            let whose = " of the text that `segtool print` writes";
            add_refusal(
                explanation,
                alloc,
                client,
                printed.as_slice(),
                whose,
                rejected,
            )
        }
    }
}

/// Explains why an instruction is refused, by the client's text. `whose` tells which text it is.
fn add_refusal(
    explanation: &mut Explanation,
    alloc: Global,
    client: Client,
    text: &[u8],
    whose: &str,
    rejected: Rejected,
) -> Result<(), AllocError> {
    let Rejected { number, reason } = rejected;
    let replay = Replay::until(alloc, &client, number)?;
    let lines = instruction_lines(alloc, text)?;
    let listing = Listing {
        text,
        lines: lines.as_slice(),
    };
    add_head(explanation, listing, whose, number);
    if let Some(instruction) = client.instruction(number) {
        let refusal = Refusal {
            replay: &replay,
            names: Names::of(client),
            listing,
        };
        refusal.add_registers(explanation, instruction, reason);
    }
    explanation.add(rule(reason));
    Ok(())
}

fn add_head(explanation: &mut Explanation, listing: Listing, whose: &str, number: u32) {
    let (line, shown) = (listing.line_of(number), listing.shown(number));
    write!(
        explanation,
        "instruction {number}, line {line}{whose}: {shown}\n"
    );
}

/// Adds the bound of a client's steps.
pub(crate) fn add_bound(
    explanation: &mut Explanation,
    alloc: Global,
    client: Option<Client>,
) -> Result<(), AllocError> {
    let Some(client) = client else {
        return Ok(());
    };
    let replay = Replay::until(alloc, &client, client.instruction_count())?;
    match replay.steps() {
        u64::MAX => explanation.add("the client could take more than 2^64 steps"),
        steps => write!(explanation, "the client could take {steps} steps"),
    }
    write!(explanation, "; at most {MOST_STEPS} are allowed\n");
    Ok(())
}

fn printed(alloc: Global, client: &Client) -> Result<Vec<u8>, AllocError> {
    match print(alloc, client) {
        Ok(text) => Ok(text),
        Err(_) => Err(AllocError),
    }
}

/// The rule for a reason.
fn rule(reason: u8) -> &'static str {
    if reason == Reason::WrongOperand.number() {
        "each register has to contain what the instruction needs, whichever parts ran before it\n"
    } else if reason == Reason::OwnerLost.number() {
        "an owned object must not be lost: PUT it into an own, FREEZE it or DROP it\n"
    } else if reason == Reason::PutIntoItself.number() {
        "an object can't own or share itself: PUT or FREEZE it into a place outside it\n"
    } else {
        "a register that is defined before a loop has to contain the same kind of value at the end of its body\n"
    }
}

impl Refusal<'_> {
    /// What is known of a register.
    fn packed(self, register: u8) -> PackedRegister {
        self.replay.registers().packed(register)
    }

    /// Describes the registers for which the instruction is refused.
    fn add_registers(self, explanation: &mut Explanation, instruction: Instruction, reason: u8) {
        match instruction.operation.row().role {
            Role::End => self.add_end(explanation),
            Role::Plain | Role::Opener | Role::Loop | Role::Else => {
                self.add_operands(explanation, instruction, reason);
            }
        }
    }

    fn add_operands(self, explanation: &mut Explanation, instruction: Instruction, reason: u8) {
        let [b, c] = used(instruction);
        if let Some(register) = b {
            self.add_known(explanation, register);
        }
        if let Some(register) = c {
            self.add_known(explanation, register);
        }
        if reason == Reason::WrongOperand.number() {
            self.add_demand(explanation, instruction);
        } else if reason == Reason::OwnerLost.number() {
            self.add_lost(explanation, instruction);
        }
    }

    /// Describes what is known of a register. If nothing is known, describes what it contained before.
    fn add_known(self, explanation: &mut Explanation, register: u8) {
        let holds = self.packed(register);
        let known = self.names.present(holds);
        write!(explanation, "r{register} {known}\n");
        if holds == PackedRegister::undefined() {
            if let Some(change) = self.replay.change(register) {
                self.add_ended(explanation, register, change);
            }
        }
    }

    fn add_ended(self, explanation: &mut Explanation, register: u8, change: Change) {
        let (past, ended) = (self.names.past(change.held), self.listing.ended(change));
        write!(explanation, "r{register} {past}, until {ended}");
        match change.how {
            How::Changed => self.add_again(explanation, change.held),
            How::AfterSuccess(otherwise) => self.add_otherwise(explanation, register, otherwise),
            How::AfterElse => explanation.add("; the success part leaves nothing in it"),
            How::AfterBody => explanation.add(
                "; after a loop a register contains what it did before",
            ),
        }
        explanation.add(advice(change));
    }

    /// Adds what the else part left in a register, if it left something.
    fn add_otherwise(self, explanation: &mut Explanation, register: u8, otherwise: PackedRegister) {
        if otherwise != PackedRegister::undefined() {
            let past = self.names.past(otherwise);
            write!(
                explanation,
                "; at the end of the else part r{register} {past}"
            );
        }
    }

    fn add_demand(self, explanation: &mut Explanation, instruction: Instruction) {
        let demand = Demand::unmet(self.names, self.replay.registers(), instruction);
        let register = demand.register;
        write!(explanation, "r{register} should {demand}\n");
    }

    /// Describes the register that would be overwritten, and the object that it owns.
    fn add_lost(self, explanation: &mut Explanation, instruction: Instruction) {
        let register = match instruction.operation.row().gives {
            Gives::Forgotten => return,
            Gives::Nothing
            | Gives::Int
            | Gives::Copy
            | Gives::Named
            | Gives::Unique
            | Gives::Owner
            | Gives::Owned
            | Gives::Content
            | Gives::Part => instruction.a,
        };
        let owned = self.names.present(self.packed(register));
        write!(
            explanation,
            "r{register} {owned}, and would be overwritten\n"
        );
    }

    /// Describes the registers that are wrong at an `END`.
    fn add_end(self, explanation: &mut Explanation) {
        match self.replay.innermost() {
            Some(OpenPart::Body(before)) => {
                for register in 0..REGISTERS {
                    self.add_kept(explanation, register, before.packed(register));
                }
            }
            Some(OpenPart::Else(success)) => {
                for register in 0..REGISTERS {
                    self.add_joined(explanation, register, success.packed(register));
                }
            }
            Some(OpenPart::Success) | None => {}
        }
    }

    /// Describes a register that a loop's body may not leave like this.
    fn add_kept(self, explanation: &mut Explanation, register: u8, before: PackedRegister) {
        let after = self.packed(register);
        if before.keeps(after).is_ok() {
            return;
        }
        let (past, present) = (self.names.past(before), self.names.present(after));
        write!(
            explanation,
            "r{register} {past} before the loop, and {present} at the end of its body"
        );
        if let Some(change) = self.replay.change(register) {
            let ended = self.listing.ended(change);
            write!(explanation, ", since {ended}");
        }
        explanation.add("\n");
    }

    /// Describes a register that owns an object at the end of only one of two parts.
    fn add_joined(self, explanation: &mut Explanation, register: u8, success: PackedRegister) {
        let otherwise = self.packed(register);
        let (_, is_lost) = success.joined(otherwise);
        if is_lost {
            let (first, second) = (self.names.present(success), self.names.present(otherwise));
            write!(
                explanation,
                "r{register} {first} at the end of the success part, and {second} at the end of the else part\n"
            );
        }
    }

    /// Explains how to get a reference again that has ended.
    fn add_again(self, explanation: &mut Explanation, held: PackedRegister) {
        let Some((class, _)) = held.referred() else {
            return;
        };
        match class.unpacked() {
            Class::Name(_) => explanation.add("; get it again, by FIND or from its container"),
            Class::Unique(_) => explanation.add("; get it again, by UFIND or from its container"),
            Class::Register(owner) if self.packed(owner).is_owner() => {
                write!(explanation, "; get it again, by REF r{owner}");
            }
            Class::Register(_) => {}
        }
    }
}
