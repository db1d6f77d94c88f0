//! Instructions that are being written, with what the verifier knows at each.

use crate::constants::{ConstantAt, Constants};
use crate::error::{Error, Problem, Trouble, append};
use crate::kind::ErrorKind;
use crate::registers::{Class, Contents, Known, Register, Registers, Usage};
use crate::types::TypeAt;
use client_code::{ConstantKind, DEPTH, LONGEST, Operation};
use script_syntax::Span;
use std::alloc::Global;

/// The number of an instruction, before types and constants have their numbers.
#[derive(Clone, Copy)]
pub enum Operand {
    Plain(i32),
    Type(TypeAt),
    Text(ConstantAt),
    Named(TypeAt, ConstantAt),
}

/// An instruction, with the place in the program that it comes from.
#[derive(Clone, Copy)]
pub struct Emitted {
    pub operation: Operation,
    pub registers: [u8; 3],
    pub operand: Operand,
    pub span: Span,
}

/// A part of the code that isn't closed.
#[derive(Clone, Copy)]
pub struct OpenPart {
    pub span: Span,
    /// What is known if the opener fails.
    base: Registers,
    /// What is known at the end of the success part.
    success: Registers,
    target: Option<Register>,
    /// The position after the opener.
    first: usize,
    /// The position of `ELSE`, or 0 if that isn't written yet.
    else_at: usize,
    /// How many names had ended at the opener.
    first_ended: usize,
}

/// A name which refers to a place that may be gone, since this line.
#[derive(Clone, Copy)]
pub struct EndedName {
    pub name: usize,
    pub span: Span,
    /// The position of the next instruction.
    at: usize,
    /// Whether it is in the part that is being written, or before.
    is_here: bool,
}

/// No position is in it.
const NO_PART: (usize, usize) = (1, 0);

/// The success parts whose else parts are being written.
#[derive(Clone, Copy)]
pub struct OtherParts {
    /// The position after the opener, and the position of `ELSE`, which is 0 for other parts.
    parts: [(usize, usize); DEPTH],
}

impl OtherParts {
    /// Whether the instruction at a position, or a name that ends before it, is in one of them.
    pub fn have(&self, at: usize) -> bool {
        for index in 0..DEPTH {
            let (first, else_at) = self.parts[index];
            if first <= at && at <= else_at {
                return true;
            }
        }
        false
    }
}

/// How far the code is written. Going back to it needs no copy.
#[derive(Clone, Copy)]
pub struct CodeMark {
    length: usize,
    pub parts: usize,
    pub ended: usize,
    pub registers: Registers,
    pub usage: Usage,
    span: Span,
}

#[derive(Drop)]
pub struct Code {
    pub instructions: Vec<Emitted>,
    pub constants: Constants,
    pub registers: Registers,
    pub usage: Usage,
    pub ended: Vec<EndedName>,
    /// The position where the statement is that is being compiled.
    pub span: Span,
    pub trouble: Trouble,
    parts: Vec<OpenPart>,
    stamp: usize,
}

/// No register in an operand that may be one.
pub const NONE: u8 = 16;

impl Code {
    pub fn new(alloc: Global, span: Span) -> Code {
        Code {
            instructions: Vec::new(alloc),
            constants: Constants::new(alloc),
            registers: Registers::new(),
            usage: Usage::new(),
            ended: Vec::new(alloc),
            span,
            trouble: Trouble::NONE,
            parts: Vec::new(alloc),
            stamp: 0,
        }
    }

    pub fn mark(&self) -> CodeMark {
        CodeMark {
            length: self.instructions.len(),
            parts: self.parts.len(),
            ended: self.ended.len(),
            registers: self.registers,
            usage: self.usage,
            span: self.span,
        }
    }

    /// Removes what was written since a mark.
    pub fn go_back(&mut self, mark: &CodeMark) {
        self.instructions.truncate(mark.length);
        self.parts.truncate(mark.parts);
        self.ended.truncate(mark.ended);
        self.registers = mark.registers;
        self.usage = mark.usage;
        self.span = mark.span;
    }

    /// How many parts are open.
    pub fn part_count(&self) -> usize {
        self.parts.len()
    }

    /// The position where the open part with this number begins.
    pub fn part_span(&self, at: usize) -> Span {
        match self.parts.get(at) {
            Some(part) => part.span,
            None => self.span,
        }
    }

    fn fail(&mut self, kind: ErrorKind) {
        let span = self.span;
        self.trouble.note(Problem::Error(Error::at(span, kind)));
    }

    // Registers

    pub fn take(&mut self) -> Register {
        match self.usage.take() {
            Some(register) => register,
            None => {
                self.fail(ErrorKind::OUT_OF_REGISTERS);
                Register(0)
            },
        }
    }

    /// Takes a register and keeps it.
    pub fn take_held(&mut self) -> Register {
        let register = self.take();
        self.usage.hold(register);
        register
    }

    pub fn known(&self, register: Register) -> Known {
        self.registers.known(register)
    }

    /// The class of the references that a register's reference belongs to.
    pub fn class_of(&self, register: Register) -> Class {
        match self.known(register) {
            Known::Reference { class, .. } => class,
            _ => Class::Owner(register),
        }
    }

    fn set(&mut self, register: Register, known: Known) {
        self.stamp = self.stamp.saturating_add(1);
        let stamp = self.stamp;
        self.registers.set(register, Contents { known, stamp });
    }

    // Instructions

    pub fn emit(&mut self, operation: Operation, registers: [u8; 3], operand: Operand) {
        let span = self.span;
        let emitted = Emitted {
            operation,
            registers,
            operand,
            span,
        };
        append(&mut self.instructions, emitted, &mut self.trouble)
    }

    /// Emits an instruction that has no number and sets no register.
    pub fn act(&mut self, operation: Operation, b: Register, c: u8) {
        self.emit(operation, [0, b.0, c], Operand::Plain(0))
    }

    /// Emits an instruction that sets a register to a number.
    pub fn compute(&mut self, operation: Operation, to: Register, b: Register, c: Register) {
        self.emit(operation, [to.0, b.0, c.0], Operand::Plain(0));
        self.set(to, Known::Number);
    }

    /// Emits an instruction that sets a register to a number by another register.
    pub fn read(&mut self, operation: Operation, to: Register, from: Register) {
        self.emit(operation, [to.0, from.0, 0], Operand::Plain(0));
        self.set(to, Known::Number);
    }

    /// A register contains a number.
    pub fn set_number(&mut self, register: Register) {
        self.set(register, Known::Number);
    }

    pub fn copy(&mut self, to: Register, from: Register) {
        self.read(Operation::Mov, to, from)
    }

    /// Emits an instruction without parts that gives a reference.
    pub fn refer(
        &mut self,
        operation: Operation,
        to: Register,
        from: Register,
        number: i32,
        known: Known,
    ) {
        self.emit(operation, [to.0, from.0, 0], Operand::Plain(number));
        self.set(to, known);
    }

    fn small(&mut self, to: Register, value: i32) {
        self.emit(Operation::Const, [to.0, 0, 0], Operand::Plain(value));
        self.set(to, Known::Number);
    }

    /// Sets a register to a number.
    pub fn number(&mut self, to: Register, value: i64) {
        if let Ok(small) = i32::try_from(value) {
            return self.small(to, small);
        }
        let (high, low) = halves(value);
        match i32::try_from(high) {
            Ok(high) => self.small(to, high),
            Err(_) => {
                let (top, middle) = halves(high);
                self.small(to, i32::try_from(top).unwrap_or(0));
                self.shift_in(to, middle);
            }
        }
        self.shift_in(to, low)
    }

    /// Multiplies a register by 2^31 and adds a number.
    fn shift_in(&mut self, to: Register, low: i64) {
        let other = self.take();
        self.small(other, 1 << 30);
        self.compute(Operation::Mul, to, to, other);
        self.compute(Operation::Add, to, to, to);
        if low != 0 {
            self.small(other, i32::try_from(low).unwrap_or(0));
            self.compute(Operation::Add, to, to, other);
        }
        self.usage.free(other);
    }

    /// Takes a register and sets it to a number.
    pub fn literal(&mut self, value: i64) -> Register {
        let register = self.take();
        self.number(register, value);
        register
    }

    pub fn literal_held(&mut self, value: i64) -> Register {
        let register = self.literal(value);
        self.usage.hold(register);
        register
    }

    /// Sets a register to whether a number is 0.
    pub fn is_zero(&mut self, to: Register, from: Register) {
        let zero = self.literal(0);
        self.compute(Operation::Equal, to, from, zero);
        self.usage.free(zero);
    }

    /// Adds a number to a register.
    pub fn add(&mut self, to: Register, value: i64) {
        let other = self.literal(value);
        self.compute(Operation::Add, to, to, other);
        self.usage.free(other);
    }

    /// Subtracts 1 from the number in a register if it is this one.
    pub fn decrement_if(&mut self, register: Register, number: i64) {
        let is_equal = self.literal(number);
        self.compute(Operation::Equal, is_equal, register, is_equal);
        self.compute(Operation::Sub, register, register, is_equal);
        self.usage.free(is_equal);
    }

    /// The constant with this kind and these bytes.
    pub fn constant(&mut self, kind: ConstantKind, bytes: &[u8]) -> ConstantAt {
        self.constants.intern(kind, bytes, &mut self.trouble)
    }

    /// Prints bytes.
    pub fn print(&mut self, bytes: &[u8]) {
        for chunk in bytes.chunks(LONGEST) {
            let constant = self.constant(ConstantKind::Text, chunk);
            self.emit(Operation::OutConst, [0, 0, 0], Operand::Text(constant));
        }
    }

    // References that end

    pub fn end_others(&mut self, register: Register) {
        self.registers.end_others(register);
    }

    pub fn end_class(&mut self, class: Class) {
        self.registers.end_class(class);
    }

    /// Emits the drop of the object that a register owns.
    pub fn drop_owner(&mut self, register: Register) {
        self.act(Operation::Drop, register, 0);
        self.forget_owner(register);
    }

    /// The object of this register isn't owned by it any more.
    pub fn forget_owner(&mut self, register: Register) {
        self.registers.end_class(Class::Owner(register));
        self.registers.forget(register);
    }

    /// Emits that nothing is known of a register.
    pub fn forget(&mut self, register: Register) {
        self.act(Operation::Forget, register, 0);
        self.registers.forget(register);
    }

    pub fn owns(&self, register: Register) -> bool {
        matches!(self.known(register), Known::Owner(_))
    }

    // Parts

    fn open_part(&mut self, target: Option<Register>) {
        if self.trouble.is_set() {
            return;
        }
        if self.parts.len() >= DEPTH {
            return self.fail(ErrorKind::TOO_DEEP);
        }
        let part = OpenPart {
            span: self.span,
            base: self.registers,
            success: self.registers,
            target,
            first: self.instructions.len(),
            else_at: 0,
            first_ended: self.ended.len(),
        };
        append(&mut self.parts, part, &mut self.trouble)
    }

    /// Emits an instruction that may fail and opens its success part, with what register a is then.
    pub fn open(
        &mut self,
        operation: Operation,
        registers: [u8; 3],
        operand: Operand,
        target: Register,
        known: Known,
    ) {
        self.emit(operation, registers, operand);
        self.open_part(Some(target));
        self.set(target, known);
    }

    /// Like `open`, for an instruction that ends other references into the object of register b.
    pub fn open_change(
        &mut self,
        operation: Operation,
        registers: [u8; 3],
        target: Register,
        known: Known,
    ) {
        self.emit(operation, registers, Operand::Plain(0));
        self.registers.end_others(Register(registers[1]));
        self.open_part(Some(target));
        self.set(target, known);
    }

    /// Opens the success part of `FREEZE`: in its else part the object is still owned.
    pub fn open_freeze(&mut self, code: Register, place: Register, owner: Register) {
        self.emit(
            Operation::Freeze,
            [code.0, place.0, owner.0],
            Operand::Plain(0),
        );
        self.registers.end_others(place);
        self.registers.end_class(Class::Owner(owner));
        self.open_part(Some(code));
        self.registers.forget(owner);
        self.set(code, Known::Number);
    }

    pub fn open_if(&mut self, test: Register) {
        self.act(Operation::If, test, 0);
        self.open_part(None)
    }

    /// Opens the body of a loop. References in registers that aren't in use would have to stay as
    /// they are in the body.
    pub fn open_loop(&mut self, test: Register, turns: i32) {
        for index in 0..16u8 {
            let register = Register(index);
            if !self.usage.is_in_use(register)
                && matches!(self.known(register), Known::Reference { .. })
            {
                self.forget(register);
            }
        }
        self.emit(Operation::While, [0, test.0, 0], Operand::Plain(turns));
        self.open_part(None)
    }

    /// The parts that don't run before what is written next.
    pub fn other_parts(&self) -> OtherParts {
        let mut parts = [NO_PART; DEPTH];
        for index in 0..DEPTH {
            if let Some(part) = self.parts.get(index) {
                parts[index] = (part.first, part.else_at);
            }
        }
        OtherParts { parts }
    }

    /// Begins the else part of the innermost part.
    pub fn begin_else(&mut self) {
        if self.trouble.is_set() {
            return;
        }
        let else_at = self.instructions.len();
        self.emit(Operation::Else, [0, 0, 0], Operand::Plain(0));
        let success = self.registers;
        let Some(part) = self.parts.last_mut() else {
            return;
        };
        part.success = success;
        part.else_at = else_at;
        let (base, target, first) = (part.base, part.target, part.first_ended);
        self.registers = base;
        if let Some(target) = target {
            self.set(target, Known::Number);
        }
        let end = self.ended.len();
        self.show_ended(first, end, false);
    }

    /// Whether the names from `first` to before `end` count as ended in what is written next.
    pub fn show_ended(&mut self, first: usize, end: usize, is_here: bool) {
        for at in first..end {
            if let Some(ended) = self.ended.get_mut(at) {
                ended.is_here = is_here;
            }
        }
    }

    /// Of these ended names, those that ended in other parts, or after a position, don't count in
    /// what is written next.
    pub fn hide_ended(&mut self, first: usize, end: usize, after: usize, others: &OtherParts) {
        for index in first..end {
            if let Some(ended) = self.ended.get_mut(index) {
                if ended.at > after || others.have(ended.at) {
                    ended.is_here = false;
                }
            }
        }
    }

    /// In an else part: sets each register in use to 0 that has a number after the success part and
    /// none here, so that both parts leave a number in it.
    pub fn level_numbers(&mut self) {
        let Some(part) = self.parts.last() else {
            return;
        };
        let success = part.success;
        for index in 0..16u8 {
            let register = Register(index);
            let is_number = matches!(success.known(register), Known::Number);
            let is_number_here = matches!(self.known(register), Known::Number);
            if is_number && !is_number_here && self.usage.is_in_use(register) {
                self.small(register, 0);
            }
        }
    }

    /// Ends the else part of the innermost part.
    pub fn end_part(&mut self) {
        if self.trouble.is_set() {
            return;
        }
        let Some(part) = self.parts.pop() else {
            return;
        };
        let mut success = part.success;
        for index in 0..16u8 {
            self.drop_unequal(Register(index), &mut success, part.else_at);
        }
        self.stamp = self.stamp.saturating_add(1);
        self.registers = success.merge(&self.registers, self.stamp);
        let end = self.ended.len();
        self.show_ended(part.first_ended, end, true);
        self.emit(Operation::End, [0, 0, 0], Operand::Plain(0))
    }

    /// Drops the object that a register owns at the end of one part only.
    fn drop_unequal(&mut self, register: Register, success: &mut Registers, else_at: usize) {
        let (one, two) = (success.known(register), self.known(register));
        if one == two {
            return;
        }
        if matches!(one, Known::Owner(_)) {
            self.insert_drop(else_at, register);
            success.end_class(Class::Owner(register));
            success.forget(register);
        }
        if matches!(two, Known::Owner(_)) {
            self.drop_owner(register);
        }
    }

    /// Inserts the drop of an object at the end of a success part.
    fn insert_drop(&mut self, at: usize, register: Register) {
        if at > self.instructions.len() {
            return;
        }
        let emitted = Emitted {
            operation: Operation::Drop,
            registers: [0, register.0, 0],
            operand: Operand::Plain(0),
            span: self.span,
        };
        if self.instructions.insert(at, emitted).is_err() {
            self.trouble.is_out_of_memory = true;
        }
    }

    /// Ends the innermost part without an else part of its own.
    pub fn close(&mut self) {
        self.begin_else();
        self.end_part()
    }

    /// Ends the innermost part. If the opener fails, a register is set to the number that it gives.
    pub fn close_noting(&mut self, from: Register, to: Register) {
        self.begin_else();
        self.copy(to, from);
        self.end_part()
    }

    /// Ends the body of the innermost loop, before which these registers were known.
    pub fn end_loop(&mut self) {
        if self.trouble.is_set() {
            return;
        }
        if let Some(part) = self.parts.pop() {
            self.registers = part.base;
        }
        self.emit(Operation::End, [0, 0, 0], Operand::Plain(0))
    }

    /// What was known before the body of the innermost loop.
    pub fn before_loop(&self) -> Registers {
        match self.parts.last() {
            Some(part) => part.base,
            None => self.registers,
        }
    }

    // Names which end

    /// A name refers to a place that may be gone from here on.
    pub fn end_name(&mut self, name: usize, span: Span) {
        if self.where_ended(name).is_some() {
            return;
        }
        let ended = EndedName {
            name,
            span,
            at: self.instructions.len(),
            is_here: true,
        };
        append(&mut self.ended, ended, &mut self.trouble)
    }

    /// The position where a name's place was removed.
    pub fn where_ended(&self, name: usize) -> Option<Span> {
        for ended in self.ended.as_slice() {
            if ended.name == name && ended.is_here {
                return Some(ended.span);
            }
        }
        None
    }
}

/// A number as `high * 2^31 + low`, with `low` from -2^30 to below 2^30.
fn halves(value: i64) -> (i64, i64) {
    let low = (value.wrapping_add(1 << 30) & 0x7fff_ffff).wrapping_sub(1 << 30);
    (value.wrapping_sub(low) >> 31, low)
}
