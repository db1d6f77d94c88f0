//! Numbers: expressions are worked out from the left to the right.

use client_code::Operation;
use script_code::{
    Code, Emitter, ErrorClass, ErrorKind, Folded, Known, MOST_DIGITS, Meaning, Names, ObjectKind,
    Operand, Place, Program, Register, Root, Task, Trouble, TypeAt, append, close_walk, compute,
    decimal_digits, is_number, kind_of, plain_name,
};
use script_syntax::{
    BinaryOperator, Expression, ExpressionAt, ExpressionKind, Range, Span, StepKind, Tree,
    UnaryOperator,
};

/// How many parts of an expression a search visits. An expression has far fewer.
const MOST_EXPRESSIONS: usize = 10_000;

/// The registers of a comparison of a text with bytes that are known.
#[derive(Clone, Copy)]
struct Comparison {
    /// Whether they are the same so far.
    same: Register,
    text: Register,
    found: Register,
    other: Register,
}

/// Works out a number, in this register if one is given.
pub fn evaluate(emitter: &mut Emitter, tree: &Tree<'_>, at: ExpressionAt, into: Option<Register>) {
    let Some(expression) = tree.expression(at) else {
        return emitter.skip();
    };
    match emitter.fold(tree, at) {
        Ok(Folded::Number(value)) => push_known(emitter, value, into),
        Ok(Folded::Text(_)) => emitter.error(expression.span, ErrorKind::TEXT_AS_NUMBER),
        Err(error) if error.kind.class == ErrorClass::Division => emitter.fail(error),
        Err(_) => evaluate_parts(emitter, tree, at, expression, into),
    }
}

/// Pushes a number that is known.
fn push_known(emitter: &mut Emitter, value: i64, into: Option<Register>) {
    let register = target_register(&mut emitter.code, into);
    emitter.code.number(register, value);
    emitter.push_value(register, into.is_none())
}

/// Works out a number that isn't known.
fn evaluate_parts(
    emitter: &mut Emitter,
    tree: &Tree<'_>,
    at: ExpressionAt,
    whole: Expression,
    into: Option<Register>,
) {
    match whole.kind {
        ExpressionKind::Number(_) | ExpressionKind::Text(_) => {
            emitter.error(whole.span, ErrorKind::NUMBER_WANTED)
        }
        ExpressionKind::Unary(operator, operand) => {
            emitter.then(&[Task::Evaluate(operand, None), Task::Unary(operator, into)])
        }
        ExpressionKind::Binary(operator, left, right) => {
            evaluate_binary(emitter, tree, whole.span, operator, left, right, into)
        }
        ExpressionKind::Place(_) => evaluate_place(emitter, tree, at, into),
        ExpressionKind::OrElse(place, default) => evaluate_default(emitter, place, default),
        ExpressionKind::Call(arguments) => {
            emitter.push_task(Task::BeginCall(at, whole.span, arguments))
        }
    }
}

fn evaluate_place(
    emitter: &mut Emitter,
    tree: &Tree<'_>,
    at: ExpressionAt,
    into: Option<Register>,
) {
    match plain_number(&mut emitter.names, tree, at) {
        Some(register) => emitter.push_value(register, false),
        None => emitter.then_place(at, Task::Load(at, into)),
    }
}

/// The register of the number with this name.
fn plain_number(names: &mut Names, tree: &Tree<'_>, at: ExpressionAt) -> Option<Register> {
    let name = plain_name(names, tree, at)?;
    match names.get(name)?.meaning {
        Meaning::Number { register, .. } => {
            names.use_name(name);
            Some(register)
        }
        _ => None,
    }
}

/// The given register, or a new one.
fn target_register(code: &mut Code, into: Option<Register>) -> Register {
    match into {
        Some(register) => register,
        None => code.take(),
    }
}

fn evaluate_binary(
    emitter: &mut Emitter,
    tree: &Tree<'_>,
    span: Span,
    operator: BinaryOperator,
    left: ExpressionAt,
    right: ExpressionAt,
    into: Option<Register>,
) {
    match operator {
        BinaryOperator::Equal | BinaryOperator::NotEqual => {
            evaluate_equality(emitter, tree, span, operator, left, right, into)
        }
        BinaryOperator::And | BinaryOperator::Or => {
            emitter.then_fresh(left, Task::Logic(operator, right))
        }
        BinaryOperator::Divide | BinaryOperator::Remainder => {
            emitter.begin_division(tree, span, operator, left, right)
        }
        _ => evaluate_sides(emitter, operator, left, right, into),
    }
}

/// Compares two numbers, or a text with bytes that are known. Two places with texts can't be
/// compared.
fn evaluate_equality(
    emitter: &mut Emitter,
    tree: &Tree<'_>,
    span: Span,
    operator: BinaryOperator,
    left: ExpressionAt,
    right: ExpressionAt,
    into: Option<Register>,
) {
    match (text_of(emitter, tree, left), text_of(emitter, tree, right)) {
        (None, Some(text)) => emitter.then_place(left, Task::Compare(left, operator, text)),
        (Some(text), None) => emitter.then_place(right, Task::Compare(right, operator, text)),
        (None, None) if !emitter.is_text(tree, left) => {
            evaluate_sides(emitter, operator, left, right, into)
        }
        _ => emitter.error(span, ErrorKind::TWO_TEXTS),
    }
}

fn evaluate_sides(
    emitter: &mut Emitter,
    operator: BinaryOperator,
    left: ExpressionAt,
    right: ExpressionAt,
    into: Option<Register>,
) {
    emitter.then(&[
        Task::Evaluate(left, None),
        Task::Evaluate(right, None),
        Task::Binary(operator, into),
    ])
}

fn evaluate_default(emitter: &mut Emitter, place: ExpressionAt, default: ExpressionAt) {
    let register = emitter.code.take();
    emitter.then(&[
        Task::Evaluate(default, Some(register)),
        Task::MoveTo(register),
        Task::Place(place, 0),
        Task::Default(place, register),
    ])
}

/// Copies the last number if its register isn't its own.
pub fn fresh(emitter: &mut Emitter) {
    let value = emitter.pop_value();
    if value.is_own {
        return emitter.push_value(value.register, true);
    }
    let register = emitter.code.take();
    emitter.code.copy(register, value.register);
    emitter.push_value(register, true)
}

/// Moves the last number to a register.
pub fn move_to(emitter: &mut Emitter, register: Register) {
    let value = emitter.pop_value();
    if value.register != register {
        emitter.code.copy(register, value.register);
        emitter.free_value(value);
    }
}

pub fn unary(emitter: &mut Emitter, operator: UnaryOperator, into: Option<Register>) {
    let value = emitter.pop_value();
    let register = match into {
        None if value.is_own => value.register,
        _ => target_register(&mut emitter.code, into),
    };
    let zero = emitter.code.literal(0);
    let (operation, left, right) = match operator {
        UnaryOperator::Negative => (Operation::Sub, zero, value.register),
        UnaryOperator::Not => (Operation::Equal, value.register, zero),
    };
    emitter.code.compute(operation, register, left, right);
    emitter.code.usage.free(zero);
    if register != value.register {
        emitter.free_value(value);
    }
    emitter.push_value(register, into.is_none())
}

pub fn binary(emitter: &mut Emitter, operator: BinaryOperator, into: Option<Register>) {
    let right = emitter.pop_value();
    let left = emitter.pop_value();
    let register = match into {
        Some(register) => register,
        None if left.is_own => left.register,
        None if right.is_own => right.register,
        None => emitter.code.take(),
    };
    compute(
        &mut emitter.code,
        operator,
        register,
        left.register,
        right.register,
    );
    for value in [left, right] {
        if value.register != register {
            emitter.free_value(value);
        }
    }
    emitter.push_value(register, into.is_none())
}

/// `&&` and `||`, after the left side. The right side runs only if that matters and it calls a
/// function.
pub fn logic(
    emitter: &mut Emitter,
    tree: &Tree<'_>,
    operator: BinaryOperator,
    right: ExpressionAt,
) {
    let value = emitter.pop_value();
    let register = value.register;
    emitter.code.is_zero(register, register);
    if !has_call(emitter, tree, right) {
        return emitter.then(&[
            Task::Push(value),
            Task::Evaluate(right, None),
            Task::LogicEnd(operator, register),
        ]);
    }
    emitter.then(&[Task::Keep(register), Task::Push(value)]);
    open_logic(emitter, operator, register, right)
}

/// Opens the part with the right side of `&&` or `||`. The register is 1 if the left side is
/// false.
fn open_logic(
    emitter: &mut Emitter,
    operator: BinaryOperator,
    register: Register,
    right: ExpressionAt,
) {
    emitter.code.usage.hold(register);
    let otherwise = match operator {
        BinaryOperator::Or => Task::ElseOne(register),
        _ => {
            emitter.code.is_zero(register, register);
            Task::Else
        }
    };
    emitter.code.open_if(register);
    emitter.then(&[
        Task::Evaluate(right, None),
        Task::Truth(register),
        otherwise,
        Task::EndPart,
    ])
}

/// `&&` and `||`, after the right side.
pub fn logic_end(emitter: &mut Emitter, operator: BinaryOperator, register: Register) {
    let right = emitter.pop_value();
    let other = if right.is_own {
        right.register
    } else {
        emitter.code.take()
    };
    emitter.code.is_zero(other, right.register);
    let operation = match operator {
        BinaryOperator::Or => Operation::Mul,
        _ => Operation::Add,
    };
    emitter.code.compute(operation, register, register, other);
    emitter.code.is_zero(register, register);
    emitter.code.usage.free(other);
}

/// Sets a register to whether the last number isn't 0.
pub fn truth(emitter: &mut Emitter, register: Register) {
    let value = emitter.pop_value();
    emitter.code.is_zero(register, value.register);
    emitter.code.is_zero(register, register);
    if value.register != register {
        emitter.free_value(value);
    }
}

/// The number at the last place.
pub fn load(emitter: &mut Emitter, tree: &Tree<'_>, at: ExpressionAt, into: Option<Register>) {
    let place = emitter.pop_place();
    if !is_number(&place) {
        let span = emitter.span_of(tree, at);
        return emitter.type_error(span, ErrorKind::NOT_NUMBER, place.value_type);
    }
    if let Some(count) = array_length(&emitter.program, &place) {
        return push_known(emitter, count, into);
    }
    if emitter.fallible(&place) > 0 {
        return emitter.error_at(tree, at, ErrorKind::MAY_BE_ABSENT);
    }
    load_place(emitter, &place, into)
}

/// The number of an array's values, if a place is that.
fn array_length(program: &Program, place: &Place) -> Option<i64> {
    let Root::Object(object) = place.root else {
        return None;
    };
    match kind_of(program, object) {
        Some(ObjectKind::Array(count)) if place.is_length => Some(count),
        _ => None,
    }
}

/// Pushes the number at a place that can't be absent.
fn load_place(emitter: &mut Emitter, place: &Place, into: Option<Register>) {
    if emitter.openers(place) == 0 {
        let register = target_register(&mut emitter.code, into);
        emitter.read_place(register, place);
        return emitter.push_value(register, into.is_none());
    }
    let register = emitter.code.literal_held(0);
    emitter.read_place(register, place);
    emitter.code.usage.keep(register);
    emitter.push_value(register, true)
}

/// The number at the last place, if it is there. The register has the default.
pub fn load_or(emitter: &mut Emitter, tree: &Tree<'_>, at: ExpressionAt, register: Register) {
    let place = emitter.pop_place();
    if !is_number(&place) {
        let span = emitter.span_of(tree, at);
        return emitter.type_error(span, ErrorKind::DEFAULT_OF, place.value_type);
    }
    if matches!(place.root, Root::Number(_)) || emitter.fallible(&place) == 0 {
        return emitter.error_at(tree, at, ErrorKind::NEEDLESS_DEFAULT);
    }
    emitter.code.usage.hold(register);
    emitter.read_place(register, &place);
    emitter.code.usage.keep(register);
    emitter.push_value(register, true)
}

/// Whether an expression calls a function.
pub fn has_call(emitter: &mut Emitter, tree: &Tree<'_>, at: ExpressionAt) -> bool {
    let mut waiting = Vec::new(emitter.alloc);
    add_expression(&mut waiting, at, &mut emitter.code.trouble);
    for _ in 0..MOST_EXPRESSIONS {
        let Some(at) = waiting.pop() else {
            return false;
        };
        if add_parts(&mut emitter.code, tree, &mut waiting, at) {
            return true;
        }
    }
    true
}

/// Adds the parts of an expression, and returns whether it is a call.
fn add_parts(
    code: &mut Code,
    tree: &Tree<'_>,
    waiting: &mut Vec<ExpressionAt>,
    at: ExpressionAt,
) -> bool {
    let Some(expression) = tree.expression(at) else {
        return false;
    };
    match expression.kind {
        ExpressionKind::Number(_) | ExpressionKind::Text(_) => {}
        ExpressionKind::Unary(_, operand) => { add_expression(waiting, operand, &mut code.trouble) }
        ExpressionKind::Binary(_, left, right) | ExpressionKind::OrElse(left, right) => {
            add_expression(waiting, left, &mut code.trouble);
            add_expression(waiting, right, &mut code.trouble);
        }
        ExpressionKind::Call(_) => return true,
        ExpressionKind::Place(steps) => { add_operands(tree, waiting, steps, &mut code.trouble) }
    }
    false
}

/// The text that an expression always is.
pub fn text_of(emitter: &Emitter, tree: &Tree<'_>, at: ExpressionAt) -> Option<Range> {
    match emitter.fold(tree, at) {
        Ok(Folded::Text(bytes)) => Some(bytes),
        _ => None,
    }
}

/// Whether the text at the last place has these bytes.
pub fn compare(
    emitter: &mut Emitter,
    tree: &Tree<'_>,
    at: ExpressionAt,
    operator: BinaryOperator,
    bytes: Range,
) {
    let place = emitter.pop_place();
    if place.is_length || place.value_type != TypeAt::TEXT {
        let span = emitter.span_of(tree, at);
        return emitter.type_error(span, ErrorKind::TEXT_WANTED, place.value_type);
    }
    let same = emitter.code.literal_held(0);
    let walk = emitter.walk(&place, false);
    compare_bytes(&mut emitter.code, tree, same, walk.register, bytes);
    close_walk(&mut emitter.code, &walk);
    if operator == BinaryOperator::NotEqual {
        emitter.code.is_zero(same, same);
    }
    emitter.code.usage.keep(same);
    emitter.push_value(same, true)
}

fn compare_bytes(code: &mut Code, tree: &Tree<'_>, same: Register, text: Register, bytes: Range) {
    let bytes = tree.bytes(bytes);
    let comparison = Comparison {
        same,
        text,
        found: code.take_held(),
        other: code.take_held(),
    };
    compare_length(code, &comparison, bytes.len());
    for (index, byte) in bytes.iter().enumerate() {
        compare_byte(code, &comparison, index, *byte);
    }
    code.usage
        .release_all(&[comparison.found, comparison.other]);
}

fn compare_length(code: &mut Code, comparison: &Comparison, length: usize) {
    let Comparison {
        same,
        text,
        other,
        ..
    } = *comparison;
    code.read(Operation::Len, same, text);
    code.number(other, i64::try_from(length).unwrap_or(0));
    code.compute(Operation::Equal, same, same, other)
}

fn compare_byte(code: &mut Code, comparison: &Comparison, index: usize, byte: u8) {
    let Comparison {
        same,
        text,
        found,
        other,
    } = *comparison;
    code.number(other, i64::try_from(index).unwrap_or(0));
    open_byte(code, found, text, other);
    code.begin_else();
    code.number(found, -1);
    code.end_part();
    code.number(other, i64::from(byte));
    code.compute(Operation::Equal, found, found, other);
    code.compute(Operation::Mul, same, same, found)
}

/// Opens the part that has a byte of a text.
pub fn open_byte(code: &mut Code, to: Register, text: Register, index: Register) {
    let registers = [to.0, text.0, index.0];
    let operand = Operand::Plain(0);
    code.open(Operation::At, registers, operand, to, Known::Number)
}

/// The most digits of a number.
pub fn digits_of(emitter: &Emitter, tree: &Tree<'_>, at: ExpressionAt) -> usize {
    let Some(expression) = tree.expression(at) else {
        return MOST_DIGITS;
    };
    match expression.kind {
        ExpressionKind::Place(_) => digits_of_place(emitter, tree, at),
        ExpressionKind::Binary(BinaryOperator::Remainder, _, right) => {
            digits_below(emitter, tree, right)
        }
        _ if is_truth(expression.kind) => 1,
        _ => MOST_DIGITS,
    }
}

/// The most digits of a remainder, by its divisor.
fn digits_below(emitter: &Emitter, tree: &Tree<'_>, divisor: ExpressionAt) -> usize {
    match emitter.known_number(tree, divisor) {
        Some(divisor) => decimal_digits(divisor.wrapping_abs().wrapping_sub(1)),
        None => MOST_DIGITS,
    }
}

fn digits_of_place(emitter: &Emitter, tree: &Tree<'_>, at: ExpressionAt) -> usize {
    if let Some(name) = plain_name(&emitter.names, tree, at) {
        if let Some(name) = emitter.names.get(name) {
            if let Meaning::Number { digits, .. } = name.meaning {
                return digits;
            }
        }
    }
    if emitter.is_length(tree, at) {
        return 10;
    }
    MOST_DIGITS
}

/// Whether a number is known not to be negative.
pub fn is_positive(names: &Names, tree: &Tree<'_>, at: ExpressionAt) -> bool {
    let Some(expression) = tree.expression(at) else {
        return false;
    };
    if let Some(name) = plain_name(names, tree, at) {
        return match names.get(name) {
            Some(name) => {
                matches!(
                    name.meaning,
                    Meaning::Number {
                        is_positive: true,
                        ..
                    }
                )
            }
            None => false,
        };
    }
    is_truth(expression.kind)
}

fn is_truth(kind: ExpressionKind) -> bool {
    match kind {
        ExpressionKind::Binary(operator, ..) => !matches!(
            operator,
            BinaryOperator::Add
                | BinaryOperator::Subtract
                | BinaryOperator::Multiply
                | BinaryOperator::Divide
                | BinaryOperator::Remainder
        ),
        ExpressionKind::Unary(operator, _) => operator == UnaryOperator::Not,
        _ => false,
    }
}

/// Adds the expressions in these steps.
fn add_operands(
    tree: &Tree<'_>,
    waiting: &mut Vec<ExpressionAt>,
    steps: Range,
    trouble: &mut Trouble,
) {
    for step in tree.steps(steps) {
        match step.kind {
            StepKind::Field => {}
            StepKind::Index(index) => add_expression(waiting, index, trouble),
            StepKind::Method(arguments) => {
                for argument in tree.arguments(arguments) {
                    add_expression(waiting, *argument, trouble);
                }
            }
        }
    }
}

fn add_expression(waiting: &mut Vec<ExpressionAt>, at: ExpressionAt, trouble: &mut Trouble) {
    append(waiting, at, trouble);
}
