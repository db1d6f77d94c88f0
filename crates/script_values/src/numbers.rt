//! Division, and numbers in decimal. The machine has neither.

use client_code::{ConstantKind, Operation};
use script_code::{Code, Emitter, Known, MOST_DIGITS, Operand, Output, Register, TextTarget};
use script_syntax::BinaryOperator;

/// The registers of a division.
#[derive(Clone, Copy)]
struct Division {
    /// The dividend, whose bits become the quotient's.
    dividend: Register,
    divisor: Register,
    /// 1 or -1.
    sign: Register,
    one: Register,
    temporary: Register,
    remainder: Register,
    /// For divisors that may be -2^63.
    large: Option<Register>,
}

/// The registers of a number that is written in decimal.
#[derive(Clone, Copy)]
struct Decimal {
    /// The rest of the number, negative or 0.
    rest: Register,
    /// 1 less a power of ten, negative or 0.
    limit: Register,
    /// How many places that may be left out come before the last one.
    leading: Register,
    temporary: Register,
    /// The next digit, or a negative number for none.
    digit: Register,
    one: Register,
}

/// The registers that a number's columns are counted with.
#[derive(Clone, Copy)]
struct Measure {
    columns: Register,
    zero: Register,
    one: Register,
    sign: Register,
    /// The absolute value.
    size: Register,
}

/// What is shown instead of a number that is too wide.
const ASTERISKS: &[u8; 18] = b"******************";

/// Divides the last two numbers, which have registers of their own. The divisor may be known.
pub fn divide(emitter: &mut Emitter, operator: BinaryOperator, known: Option<i64>) {
    let divisor = emitter.pop_value().register;
    let dividend = emitter.pop_value().register;
    let is_small = matches!(known, Some(value) if value.unsigned_abs() < 1 << 62);
    let division = new_division(&mut emitter.code, dividend, divisor, is_small);
    take_signs(&mut emitter.code, &division, operator, known);
    emitter.code.number(division.remainder, 0);
    emitter.code.open_loop(division.one, 64);
    divide_bit(&mut emitter.code, &division);
    emitter.code.end_loop();
    let result = give_sign(&mut emitter.code, &division, operator, known);
    release_division(&mut emitter.code, &division);
    emitter.code.usage.hold(result);
    emitter.code.usage.keep(result);
    emitter.push_value(result, true)
}

fn new_division(
    code: &mut Code,
    dividend: Register,
    divisor: Register,
    is_small: bool,
) -> Division {
    code.usage.hold(divisor);
    code.usage.hold(dividend);
    Division {
        dividend,
        divisor,
        sign: code.literal_held(0),
        one: code.literal_held(1),
        temporary: code.literal_held(0),
        remainder: code.literal_held(0),
        large: if is_small {
            None
        } else {
            Some(code.literal_held(0))
        },
    }
}

fn release_division(code: &mut Code, division: &Division) {
    code.usage.release_all(&[
        division.dividend,
        division.divisor,
        division.sign,
        division.one,
        division.temporary,
        division.remainder,
    ]);
    if let Some(large) = division.large {
        code.usage.release(large);
    }
}

/// Makes both sides positive, and keeps the sign of the result.
fn take_signs(code: &mut Code, division: &Division, operator: BinaryOperator, known: Option<i64>) {
    take_sign(code, division, division.dividend, division.sign);
    if matches!(known, Some(value) if value > 0) {
        return;
    }
    take_sign(code, division, division.divisor, division.remainder);
    if operator == BinaryOperator::Divide {
        code.compute(
            Operation::Mul,
            division.sign,
            division.sign,
            division.remainder,
        );
    }
}

/// Sets a register to the sign of a number, and the number to its absolute value.
fn take_sign(code: &mut Code, division: &Division, number: Register, sign: Register) {
    let temporary = division.temporary;
    code.number(sign, 0);
    code.compute(Operation::Less, temporary, number, sign);
    code.compute(Operation::Add, temporary, temporary, temporary);
    code.compute(Operation::Sub, sign, division.one, temporary);
    code.compute(Operation::Mul, number, number, sign)
}

/// Moves a bit of the dividend into the remainder, and a bit of the quotient into the dividend.
fn divide_bit(code: &mut Code, division: &Division) {
    let Division {
        dividend,
        temporary,
        remainder,
        ..
    } = *division;
    code.number(temporary, 0);
    code.compute(Operation::Less, temporary, dividend, temporary);
    code.compute(Operation::Add, dividend, dividend, dividend);
    code.compute(Operation::Add, remainder, remainder, remainder);
    code.compute(Operation::Add, remainder, remainder, temporary);
    divide_rest(code, division)
}

/// Takes the divisor from the remainder if that is not less, and adds 1 to the quotient.
fn divide_rest(code: &mut Code, division: &Division) {
    let Division {
        dividend,
        divisor,
        one,
        temporary,
        remainder,
        ..
    } = *division;
    code.compute(Operation::Less, temporary, remainder, divisor);
    if let Some(large) = division.large {
        code.number(large, 0);
        code.compute(Operation::Less, large, remainder, large);
        code.compute(Operation::Sub, temporary, temporary, large);
    }
    code.open_if(temporary);
    code.begin_else();
    code.compute(Operation::Sub, remainder, remainder, divisor);
    code.compute(Operation::Add, dividend, dividend, one);
    code.end_part()
}

/// The register of the result, with its sign. A quotient by 0 is 0.
fn give_sign(
    code: &mut Code,
    division: &Division,
    operator: BinaryOperator,
    known: Option<i64>,
) -> Register {
    let sign = division.sign;
    if operator == BinaryOperator::Remainder {
        let remainder = division.remainder;
        code.compute(Operation::Mul, remainder, remainder, sign);
        return remainder;
    }
    let quotient = division.dividend;
    if known.is_none() {
        let temporary = division.temporary;
        code.number(temporary, 0);
        code.compute(Operation::Equal, temporary, division.divisor, temporary);
        code.compute(Operation::Sub, temporary, division.one, temporary);
        code.compute(Operation::Mul, quotient, quotient, temporary);
    }
    code.compute(Operation::Mul, quotient, quotient, sign);
    quotient
}

/// Writes the last number in decimal, with at most this number of digits.
pub fn write_digits(emitter: &mut Emitter, digits: usize, is_positive: bool, output: &Output) {
    let rest = emitter.pop_value().register;
    emitter.code.usage.hold(rest);
    if digits == 1 && is_positive {
        let one = emitter.code.literal_held(1);
        let temporary = emitter.code.literal_held(0);
        write_digit(&mut emitter.code, rest, one, temporary, output);
        emitter.code.usage.release(one);
        emitter.code.usage.release(temporary);
    } else {
        write_long(&mut emitter.code, rest, digits, output);
    }
    emitter.code.usage.release(rest);
}

fn write_long(code: &mut Code, rest: Register, digits: usize, output: &Output) {
    let decimal = new_decimal(code, rest);
    write_sign(code, &decimal, output);
    let digits = digits.clamp(1, MOST_DIGITS);
    set_limit(code, &decimal, decimal.limit, limit_of(digits));
    code.number(decimal.leading, as_number(digits).wrapping_sub(1));
    code.number(decimal.one, 1);
    code.open_loop(decimal.one, i32::try_from(digits).unwrap_or(1));
    write_place(code, &decimal, digits, output);
    code.end_loop();
    code.usage.release_all(&[
        decimal.limit,
        decimal.leading,
        decimal.temporary,
        decimal.digit,
        decimal.one,
    ]);
}

fn new_decimal(code: &mut Code, rest: Register) -> Decimal {
    Decimal {
        rest,
        limit: code.literal_held(0),
        leading: code.literal_held(0),
        temporary: code.literal_held(0),
        digit: code.literal_held(0),
        one: code.literal_held(0),
    }
}

/// Writes the sign, and makes the number negative or 0, so that -2^63 is no exception.
fn write_sign(code: &mut Code, decimal: &Decimal, output: &Output) {
    let Decimal {
        rest,
        temporary,
        one: zero,
        ..
    } = *decimal;
    code.compute(Operation::Less, temporary, rest, zero);
    code.open_if(temporary);
    write_minus(code, temporary, output);
    code.begin_else();
    code.compute(Operation::Sub, rest, zero, rest);
    code.end_part()
}

fn write_minus(code: &mut Code, temporary: Register, output: &Output) {
    match output {
        Output::Printed { .. } => code.print(b"-"),
        Output::Added(target) => add_bytes(code, b"-", temporary, target, Operation::AddStr),
    }
}

/// Writes the digit of one place.
fn write_place(code: &mut Code, decimal: &Decimal, digits: usize, output: &Output) {
    let Decimal {
        rest,
        leading,
        temporary,
        digit,
        one,
        ..
    } = *decimal;
    count_digit(code, decimal);
    code.number(temporary, 0);
    code.compute(Operation::Equal, temporary, digit, temporary);
    code.compute(Operation::Mul, leading, leading, temporary);
    code.open_if(leading);
    code.number(digit, -1);
    code.compute(Operation::Sub, leading, leading, one);
    code.close();
    write_digit(code, digit, one, temporary, output);
    if digits == MOST_DIGITS {
        shift_longest(code, decimal);
    } else if digits > 1 {
        code.number(temporary, 10);
        code.compute(Operation::Mul, rest, rest, temporary);
    }
    code.number(one, 1)
}

/// Takes the power of ten from the number as often as it goes.
fn count_digit(code: &mut Code, decimal: &Decimal) {
    let Decimal {
        rest,
        limit,
        temporary,
        digit,
        one,
        ..
    } = *decimal;
    code.number(digit, 0);
    code.compute(Operation::Less, temporary, rest, limit);
    code.open_loop(temporary, 9);
    code.compute(Operation::Sub, rest, rest, limit);
    code.compute(Operation::Add, rest, rest, one);
    code.compute(Operation::Add, digit, digit, one);
    code.compute(Operation::Less, temporary, rest, limit);
    code.end_loop()
}

/// Goes to the next place of a number of 19 digits. The first place has no room for ten times
/// the number.
fn shift_longest(code: &mut Code, decimal: &Decimal) {
    let Decimal {
        rest,
        limit,
        temporary,
        ..
    } = *decimal;
    let second = limit_of(MOST_DIGITS - 1);
    set_limit(code, decimal, temporary, second);
    code.compute(Operation::Equal, temporary, temporary, limit);
    code.open_if(temporary);
    code.number(temporary, 10);
    code.compute(Operation::Mul, rest, rest, temporary);
    code.begin_else();
    set_limit(code, decimal, limit, second);
    code.end_part()
}

/// Sets a register to a large number. The digit's register isn't needed meanwhile.
fn set_limit(code: &mut Code, decimal: &Decimal, to: Register, value: i64) {
    code.usage.release(decimal.digit);
    code.number(to, value);
    code.usage.hold(decimal.digit);
}

/// Writes a digit, and nothing for a negative number.
fn write_digit(
    code: &mut Code,
    digit: Register,
    one: Register,
    temporary: Register,
    output: &Output,
) {
    match output {
        Output::Printed { .. } => print_digit(code, digit, one),
        Output::Added(target) => add_digit(code, digit, temporary, target),
    }
}

fn print_digit(code: &mut Code, digit: Register, one: Register) {
    for printed in b"0123456789" {
        code.open_if(digit);
        code.begin_else();
        code.print(&[*printed]);
        code.end_part();
        if *printed < b'9' {
            code.compute(Operation::Sub, digit, digit, one);
        }
    }
}

fn add_digit(code: &mut Code, digit: Register, temporary: Register, target: &TextTarget) {
    let zero = code.literal(0);
    code.compute(Operation::Less, temporary, digit, zero);
    code.usage.free(zero);
    code.open_if(temporary);
    code.begin_else();
    code.number(temporary, 48);
    code.compute(Operation::Add, temporary, temporary, digit);
    add_byte(code, temporary, temporary, target);
    code.end_part()
}

/// Adds the byte in a register to a text. Another register is changed.
pub fn add_byte(code: &mut Code, byte: Register, temporary: Register, target: &TextTarget) {
    code.open(
        Operation::AddByte,
        [temporary.0, target.text.0, byte.0],
        Operand::Plain(0),
        temporary,
        Known::Number,
    );
    code.close_noting(temporary, target.code)
}

/// Adds bytes to a text, or sets the text to them. A register is changed.
pub fn add_bytes(
    code: &mut Code,
    bytes: &[u8],
    temporary: Register,
    target: &TextTarget,
    operation: Operation,
) {
    let constant = code.constant(ConstantKind::Text, bytes);
    let registers = [temporary.0, target.text.0, 0];
    code.open(
        operation,
        registers,
        Operand::Text(constant),
        temporary,
        Known::Number,
    );
    code.close_noting(temporary, target.code)
}

/// Writes the last number to the right in this number of columns.
pub fn write_padded(emitter: &mut Emitter, width: usize, output: &Output) {
    let number = emitter.pop_value().register;
    emitter.code.usage.hold(number);
    let spaces = emitter.code.literal_held(0);
    let fits = emitter.code.literal_held(0);
    measure_number(&mut emitter.code, number, width, spaces, fits);
    emitter.code.open_if(fits);
    write_spaces(&mut emitter.code, spaces, width);
    emitter.push_value(number, true);
    write_digits(emitter, width, false, output);
    emitter.code.begin_else();
    emitter
        .code
        .print(ASTERISKS.get(..width).unwrap_or_default());
    emitter.code.end_part();
    emitter.code.usage.release_all(&[number, spaces, fits]);
}

/// Writes as many spaces as a register says, at most this many.
fn write_spaces(code: &mut Code, spaces: Register, most: usize) {
    let one = code.literal_held(1);
    code.open_loop(spaces, i32::try_from(most).unwrap_or(1));
    code.print(b" ");
    code.compute(Operation::Sub, spaces, spaces, one);
    code.end_loop();
    code.usage.release(one);
}

/// Works out whether a number fits into this number of columns, and how many it leaves.
fn measure_number(
    code: &mut Code,
    number: Register,
    width: usize,
    spaces: Register,
    fits: Register,
) {
    let measure = Measure {
        columns: spaces,
        zero: code.literal_held(0),
        one: code.literal_held(1),
        sign: code.literal_held(0),
        size: code.literal_held(0),
    };
    begin_columns(code, measure, number);
    for digits in 1..=width.min(18) {
        count_column(code, measure, digits);
    }
    compare_columns(code, measure, width, fits);
    code.usage
        .release_all(&[measure.zero, measure.one, measure.sign, measure.size]);
}

/// Sets a register to whether the columns are at most this many, and the columns to those left.
fn compare_columns(code: &mut Code, measure: Measure, width: usize, fits: Register) {
    let width = as_number(width);
    let (columns, other) = (measure.columns, measure.one);
    code.number(other, width.wrapping_add(1));
    code.compute(Operation::Less, fits, columns, other);
    code.number(other, width);
    code.compute(Operation::Sub, columns, other, columns)
}

/// Counts the column of the sign and the first digit, and finds a number's absolute value.
fn begin_columns(code: &mut Code, measure: Measure, number: Register) {
    let (columns, sign, one) = (measure.columns, measure.sign, measure.one);
    code.compute(Operation::Less, columns, number, measure.zero);
    code.compute(Operation::Add, sign, columns, columns);
    code.compute(Operation::Sub, sign, one, sign);
    code.compute(Operation::Mul, measure.size, number, sign);
    code.compute(Operation::Add, columns, columns, one)
}

/// Counts a column more if a number has more than this many digits.
fn count_column(code: &mut Code, measure: Measure, digits: usize) {
    let (columns, sign, power) = (measure.columns, measure.sign, measure.one);
    code.number(power, power_of_ten(digits));
    code.compute(Operation::Less, sign, measure.size, power);
    code.compute(Operation::Equal, sign, sign, measure.zero);
    code.compute(Operation::Add, columns, columns, sign)
}

fn as_number(count: usize) -> i64 {
    i64::try_from(count).unwrap_or(0)
}

fn power_of_ten(exponent: usize) -> i64 {
    let mut power = 1i64;
    for _ in 0..exponent {
        power = power.wrapping_mul(10);
    }
    power
}

/// 1 less the power of ten with this number of digits.
fn limit_of(digits: usize) -> i64 {
    1i64.wrapping_sub(power_of_ten(digits.saturating_sub(1)))
}
