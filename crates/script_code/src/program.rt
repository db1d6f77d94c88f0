//! What a program declares.

use crate::constants::ConstantAt;
use crate::error::Error;
use crate::kind::ErrorKind;
use crate::names::Names;
use crate::types::{TypeAt, Types};
use script_syntax::{
    BinaryOperator, Block, Expression, ExpressionAt, ExpressionKind, Range, Span, Tree,
    UnaryOperator,
};

/// The value of a constant.
#[derive(Clone, Copy)]
pub enum Folded {
    Number(i64),
    /// A text, by its bytes in the tree.
    Text(Range),
}

/// A declared constant. It has no value yet if its expression has an error.
#[derive(Clone, Copy)]
pub struct NamedValue {
    pub name: Span,
    pub expression: ExpressionAt,
    pub value: Option<Folded>,
}

#[derive(Clone, Copy, PartialEq, Eq)]
pub enum ObjectKind {
    Single,
    /// An array with this number of values.
    Array(i64),
    Family,
    Unique,
}

#[derive(Clone, Copy)]
pub struct Object {
    pub name: Span,
    pub kind: ObjectKind,
    pub value_type: TypeAt,
    /// The name in the segment.
    pub constant: ConstantAt,
    pub is_used: bool,
}

#[derive(Clone, Copy)]
pub struct Function {
    pub name: Span,
    pub parameters: Range,
    pub gives_number: bool,
    pub body: Block,
}

#[derive(Drop)]
pub struct Program {
    pub types: Types,
    pub values: Vec<NamedValue>,
    pub objects: Vec<Object>,
    pub functions: Vec<Function>,
    pub fail: Option<Block>,
}

/// A program's expressions are at most this deep.
pub const MOST_DEPTH: usize = 600;

impl Program {
    /// The constant with this name.
    pub fn value_named(&self, tree: &Tree<'_>, word: &[u8]) -> Option<NamedValue> {
        for value in self.values.as_slice() {
            if tree.word(value.name) == word {
                return Some(*value);
            }
        }
        None
    }

    /// The position of the object with this name.
    pub fn object_named(&self, tree: &Tree<'_>, word: &[u8]) -> Option<usize> {
        for (at, object) in self.objects.iter().enumerate() {
            if tree.word(object.name) == word {
                return Some(at);
            }
        }
        None
    }

    pub fn object(&self, at: usize) -> Option<Object> {
        self.objects.get(at).copied()
    }

    /// The position of the function with this name.
    pub fn function_named(&self, tree: &Tree<'_>, word: &[u8]) -> Option<usize> {
        for (at, function) in self.functions.iter().enumerate() {
            if tree.word(function.name) == word {
                return Some(at);
            }
        }
        None
    }

    /// The error of declaring this name again, and the line that declares it.
    pub fn declared(&self, tree: &Tree<'_>, word: &[u8]) -> Option<(ErrorKind, usize)> {
        if let Some(value) = self.value_named(tree, word) {
            return Some((ErrorKind::SECOND_CONSTANT, value.name.line));
        }
        if let Some(at) = self.types.struct_named(tree, word) {
            let found = self.types.structs.get(at.0)?;
            return Some((ErrorKind::SECOND_STRUCT, found.name.line));
        }
        if let Some(at) = self.object_named(tree, word) {
            return Some((ErrorKind::SECOND_OBJECT, self.object(at)?.name.line));
        }
        let at = self.function_named(tree, word)?;
        Some((
            ErrorKind::SECOND_FUNCTION,
            self.functions.get(at)?.name.line,
        ))
    }

    /// The value of an expression that is known when the program is compiled. A local name hides a
    /// constant.
    pub fn fold(
        &self,
        tree: &Tree<'_>,
        names: &Names,
        at: ExpressionAt,
        depth: usize,
    ) -> Result<Folded, Error> {
        let Some(expression) = tree.expression(at) else {
            return Err(unknown(NOWHERE));
        };
        let span = expression.span;
        if depth == 0 {
            return Err(unknown(span));
        }
        match expression.kind {
            ExpressionKind::Unary(operator, operand) => {
                let operand = self.fold(tree, names, operand, depth - 1);
                fold_unary(operator, operand, span)
            }
            ExpressionKind::Binary(operator, left, right) => {
                let left = self.fold(tree, names, left, depth - 1)?;
                let right = self.fold(tree, names, right, depth - 1);
                fold_binary(operator, left, right, span)
            }
            _ => self.fold_leaf(tree, names, expression),
        }
    }

    /// The value of an expression without operators.
    fn fold_leaf(
        &self,
        tree: &Tree<'_>,
        names: &Names,
        expression: Expression,
    ) -> Result<Folded, Error> {
        match expression.kind {
            ExpressionKind::Number(value) => Ok(Folded::Number(signed(value))),
            ExpressionKind::Text(bytes) => Ok(Folded::Text(bytes)),
            ExpressionKind::Place(steps) if steps.is_empty() => {
                self.fold_name(tree, names, expression.span)
            }
            _ => Err(unknown(expression.span)),
        }
    }

    fn fold_name(&self, tree: &Tree<'_>, names: &Names, span: Span) -> Result<Folded, Error> {
        let word = tree.word(span);
        if names.find(tree, word).is_none() {
            if let Some(found) = self.value_named(tree, word) {
                return found.value.ok_or(unknown(span));
            }
        }
        Err(unknown(span))
    }
}

impl Folded {
    pub fn number(self, span: Span) -> Result<i64, Error> {
        match self {
            Folded::Number(value) => Ok(value),
            Folded::Text(_) => Err(unknown(span)),
        }
    }
}

fn unknown(span: Span) -> Error {
    Error::at(span, ErrorKind::NOT_CONSTANT)
}

/// The signed number with the same 64 bits.
pub fn signed(value: u64) -> i64 {
    i64::from_le_bytes(value.to_le_bytes())
}

fn fold_unary(
    operator: UnaryOperator,
    operand: Result<Folded, Error>,
    span: Span,
) -> Result<Folded, Error> {
    let operand = operand?.number(span)?;
    let value = match operator {
        UnaryOperator::Negative => operand.wrapping_neg(),
        UnaryOperator::Not => truth(operand == 0),
    };
    Ok(Folded::Number(value))
}

fn fold_binary(
    operator: BinaryOperator,
    left: Folded,
    right: Result<Folded, Error>,
    span: Span,
) -> Result<Folded, Error> {
    let left = left.number(span)?;
    let right = right?.number(span)?;
    match operator {
        BinaryOperator::Divide | BinaryOperator::Remainder => {
            fold_division(operator, left, right, span)
        }
        _ => Ok(Folded::Number(apply(operator, left, right))),
    }
}

fn truth(is_true: bool) -> i64 {
    if is_true { 1 } else { 0 }
}

fn fold_division(
    operator: BinaryOperator,
    left: i64,
    right: i64,
    span: Span,
) -> Result<Folded, Error> {
    if right == 0 {
        return Err(Error::at(span, ErrorKind::DIVIDES_BY_ZERO));
    }
    let value = match operator {
        BinaryOperator::Remainder => left.wrapping_rem(right),
        _ => left.wrapping_div(right),
    };
    Ok(Folded::Number(value))
}

/// The number that an operator without exceptions gives.
fn apply(operator: BinaryOperator, left: i64, right: i64) -> i64 {
    match operator {
        BinaryOperator::Add => left.wrapping_add(right),
        BinaryOperator::Subtract => left.wrapping_sub(right),
        BinaryOperator::Multiply => left.wrapping_mul(right),
        _ => truth(holds(operator, left, right)),
    }
}

/// Whether a comparison, `&&` or `||` of two numbers is true.
fn holds(operator: BinaryOperator, left: i64, right: i64) -> bool {
    match operator {
        BinaryOperator::Or => left != 0 || right != 0,
        BinaryOperator::And => left != 0 && right != 0,
        BinaryOperator::Equal => left == right,
        BinaryOperator::NotEqual => left != right,
        BinaryOperator::Less => left < right,
        BinaryOperator::LessOrEqual => left <= right,
        BinaryOperator::Greater => left > right,
        BinaryOperator::GreaterOrEqual => left >= right,
        _ => false,
    }
}

/// The beginning of a text.
pub const NOWHERE: Span = Span {
    start: 0,
    end: 0,
    line: 1,
    column: 1,
};
