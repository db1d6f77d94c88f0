//! Operators, and the numbers at places.

use crate::code::Code;
use crate::emitter::Emitter;
use crate::kind::ErrorKind;
use crate::names::Place;
use crate::registers::{Known, Register};
use crate::task::Task;
use crate::walks::close_walk;
use client_code::Operation;
use script_syntax::{BinaryOperator, ExpressionAt, Span, Tree};

impl Emitter {
    pub fn begin_division(
        &mut self,
        tree: &Tree<'_>,
        span: Span,
        operator: BinaryOperator,
        left: ExpressionAt,
        right: ExpressionAt,
    ) {
        let divisor = self.known_number(tree, right);
        if divisor == Some(0) {
            return self.error(span, ErrorKind::DIVIDES_BY_ZERO);
        }
        self.then(&[
            Task::Evaluate(left, None),
            Task::Fresh,
            Task::Evaluate(right, None),
            Task::Fresh,
            Task::Divide(operator, divisor),
        ])
    }

    /// Sets a register to the number at a place, if it is there.
    pub fn read_place(&mut self, register: Register, place: &Place) {
        let walk = self.walk(place, false);
        read_number(&mut self.code, register, walk.register, place);
        close_walk(&mut self.code, &walk)
    }
}

pub fn compute(
    code: &mut Code,
    operator: BinaryOperator,
    to: Register,
    left: Register,
    right: Register,
) {
    let (b, c) = match operator {
        BinaryOperator::Greater | BinaryOperator::LessOrEqual => (right, left),
        _ => (left, right),
    };
    code.compute(operation_of(operator), to, b, c);
    if is_negated(operator) {
        code.is_zero(to, to);
    }
}

/// Reads the number that a register refers to, or contains, or the number of its items.
pub fn read_number(code: &mut Code, to: Register, from: Register, place: &Place) {
    let operation = match code.known(from) {
        Known::Number => Operation::Mov,
        _ if place.is_length => Operation::Len,
        _ => Operation::Load,
    };
    code.read(operation, to, from)
}

/// The number of decimal digits of a number, at most 19.
pub fn decimal_digits(value: i64) -> usize {
    let mut digits = 1usize;
    let mut power = 10i64;
    for _ in 0..18 {
        if value.unsigned_abs() < power.unsigned_abs() {
            break;
        }
        digits = digits.saturating_add(1);
        power = power.wrapping_mul(10);
    }
    digits
}

fn operation_of(operator: BinaryOperator) -> Operation {
    match operator {
        BinaryOperator::Add => Operation::Add,
        BinaryOperator::Subtract => Operation::Sub,
        BinaryOperator::Multiply => Operation::Mul,
        BinaryOperator::Equal | BinaryOperator::NotEqual => Operation::Equal,
        _ => Operation::Less,
    }
}

fn is_negated(operator: BinaryOperator) -> bool {
    matches!(
        operator,
        BinaryOperator::NotEqual | BinaryOperator::LessOrEqual | BinaryOperator::GreaterOrEqual
    )
}
