//! What is printed, and what is added to texts.

use crate::expressions::{digits_of, is_positive, open_byte, text_of};
use crate::numbers::{add_byte, add_bytes, write_digits};
use client_code::{LONGEST, Operation};
use script_code::{
    Code, Emitter, ErrorKind, Folded, Handler, Output, Place, Register, Task, TextTarget, TypeAt,
    Walk, WarningKind, Way, append_bytes, close_noting, close_walk,
};
use script_syntax::{
    ExpressionAt, Item, Range, SetOperator, StatementAt, StatementKind, Tree, ValueKind,
};

/// Writes the first of these items, and then the others. Bytes that are known wait in `text`.
pub fn write_items(emitter: &mut Emitter, tree: &Tree<'_>, items: Range, output: Output) {
    let Some(item) = tree.items(items).first().copied() else {
        return end_items(emitter, output);
    };
    let rest = after_first(items);
    let Some(at) = item_value(&item) else {
        return emitter.error(item.value.span, ErrorKind::NUMBER_WANTED);
    };
    if wait_known(emitter, tree, &item, at, &output) {
        return emitter.push_task(Task::Items(rest, output));
    }
    write_waiting(emitter, &output);
    write_item(emitter, tree, &item, at, rest, output)
}

/// Adds an item whose bytes are known to those that wait. Returns false for any other item.
fn wait_known(
    emitter: &mut Emitter,
    tree: &Tree<'_>,
    item: &Item,
    at: ExpressionAt,
    output: &Output,
) -> bool {
    let Ok(value) = emitter.fold(tree, at) else {
        return false;
    };
    let width = match item.width {
        Some(width) => width_of(emitter, tree, width, output),
        None => 0,
    };
    match value {
        Folded::Text(bytes) => {
            wait(emitter, tree.bytes(bytes));
        }
        Folded::Number(value) => wait_number(emitter, value, width),
    }
    true
}

/// The width after `:`.
fn width_of(emitter: &mut Emitter, tree: &Tree<'_>, at: ExpressionAt, output: &Output) -> usize {
    let span = emitter.span_of(tree, at);
    if let Output::Added(_) = output {
        emitter.error(span, ErrorKind::MISPLACED_WIDTH);
        return 0;
    }
    match usize::try_from(emitter.needed_number(tree, at)) {
        Ok(width) if width >= 1 && width <= 18 => width,
        _ => {
            emitter.error(span, ErrorKind::WIDTH);
            0
        }
    }
}

/// Bytes are written next, after those that wait.
fn wait(emitter: &mut Emitter, bytes: &[u8]) {
    let mut bytes = bytes;
    if emitter.skips_newline {
        if let [b'\n', rest @ ..] = bytes {
            bytes = rest;
            emitter.skips_newline = false;
        }
    }
    append_bytes(&mut emitter.text, bytes, &mut emitter.code.trouble);
}

fn wait_number(emitter: &mut Emitter, value: i64, width: usize) {
    let mut digits = [b' '; 20];
    let mut left = value.unsigned_abs();
    let mut first = 20usize;
    for at in (1..20usize).rev() {
        digits[at] = digit_of(left % 10);
        left /= 10;
        first = at;
        if left == 0 {
            break;
        }
    }
    if value < 0 {
        first = first.saturating_sub(1);
        if let Some(sign) = digits.get_mut(first) {
            *sign = b'-';
        }
    }
    let length = 20usize.saturating_sub(first);
    if width > 0 && length > width {
        for _ in 0..width {
            wait(emitter, b"*");
        }
        return;
    }
    for _ in length..width {
        wait(emitter, b" ");
    }
    wait(emitter, digits.get(first..).unwrap_or_default())
}

/// Writes the bytes that wait.
fn write_waiting(emitter: &mut Emitter, output: &Output) {
    match output {
        Output::Printed { .. } => emitter.code.print(emitter.text.as_slice()),
        Output::Added(target) => add_waiting(emitter, target),
    }
    emitter.text.clear();
}

fn add_waiting(emitter: &mut Emitter, target: &TextTarget) {
    for chunk in emitter.text.chunks(LONGEST) {
        add_bytes(
            &mut emitter.code,
            chunk,
            target.temporary,
            target,
            Operation::AddStr,
        );
    }
}

fn end_items(emitter: &mut Emitter, output: Output) {
    if let Output::Printed { ends_line: true } = output {
        wait(emitter, b"\n");
    }
    emitter.skips_newline = false;
    write_waiting(emitter, &output)
}

fn write_item(
    emitter: &mut Emitter,
    tree: &Tree<'_>,
    item: &Item,
    at: ExpressionAt,
    rest: Range,
    output: Output,
) {
    let follows = Task::Items(rest, output);
    emitter.push_task(follows);
    if emitter.is_text(tree, at) {
        let write = match output {
            Output::Printed { .. } => Task::WriteText(at),
            Output::Added(target) => Task::TextCopy(target, at),
        };
        return emitter.then_place(at, write);
    }
    if let Some(width) = item.width {
        let width = width_of(emitter, tree, width, &output);
        return emitter.then_fresh(at, Task::Padded(width, output));
    }
    check_printable(emitter, tree, at);
    if ends_line_next(emitter, tree, rest, &output) {
        return emitter.then(&[Task::Evaluate(at, None), Task::WriteLine]);
    }
    emitter.then_fresh(at, Task::Digits(at, output))
}

fn check_printable(emitter: &mut Emitter, tree: &Tree<'_>, at: ExpressionAt) {
    if !emitter.is_place(tree, at) {
        return;
    }
    match emitter.type_of(tree, at) {
        Some(found) if found != TypeAt::INT && found != TypeAt::TEXT => {
            let span = emitter.span_of(tree, at);
            emitter.type_error(span, ErrorKind::NOT_PRINTABLE, found)
        }
        _ => {}
    }
}

/// The text that an item always is.
fn item_text(emitter: &Emitter, tree: &Tree<'_>, item: &Item) -> Option<Range> {
    text_of(emitter, tree, item_value(item)?)
}

/// Whether a line ends before the next item.
fn ends_line_next(emitter: &Emitter, tree: &Tree<'_>, rest: Range, output: &Output) -> bool {
    let Output::Printed { ends_line } = output else {
        return false;
    };
    let Some(item) = tree.items(rest).first() else {
        return *ends_line;
    };
    match item_text(emitter, tree, item) {
        Some(bytes) => tree.bytes(bytes).starts_with(b"\n"),
        None => false,
    }
}

pub fn write_line(emitter: &mut Emitter) {
    let value = emitter.pop_value();
    emitter.code.act(Operation::OutInt, value.register, 0);
    emitter.skips_newline = true;
    emitter.code.usage.tidy();
}

pub fn write_number(emitter: &mut Emitter, tree: &Tree<'_>, at: ExpressionAt, output: &Output) {
    let (digits, is_positive) = (
        digits_of(emitter, tree, at),
        is_positive(&emitter.names, tree, at),
    );
    write_digits(emitter, digits, is_positive, output);
    emitter.code.usage.tidy();
}

pub fn write_text(emitter: &mut Emitter, tree: &Tree<'_>, at: ExpressionAt) {
    let place = emitter.pop_place();
    if emitter.fallible(&place) > 0 && !emitter.was_made(tree, at) {
        let span = emitter.span_of(tree, at);
        emitter.warn(span, WarningKind::AbsentText);
    }
    let walk = emitter.walk(&place, false);
    emitter.code.act(Operation::OutStr, walk.register, 0);
    close_walk(&mut emitter.code, &walk);
    emitter.code.usage.tidy();
}

/// `text = items` and `text += items`, at the last place.
pub fn begin_text(emitter: &mut Emitter, tree: &Tree<'_>, statement: StatementAt) {
    let Some(found) = tree.statement(statement) else {
        return;
    };
    let place = emitter.pop_place();
    let StatementKind::Set {
        operator,
        operator_span,
        items,
        max,
        ..
    } = found.kind
    else {
        return;
    };
    if !matches!(operator, SetOperator::Set | SetOperator::Add) {
        return emitter.error(operator_span, ErrorKind::ONLY_NUMBERS);
    }
    let replaces = operator == SetOperator::Set;
    emitter.check_changeable(&place);
    let handler = emitter.handler(&found);
    open_text(emitter, tree, &place, handler, replaces, items, max)
}

/// Begins a text at a place: opens the walk to it, and writes the items.
fn open_text(
    emitter: &mut Emitter,
    tree: &Tree<'_>,
    place: &Place,
    handler: Handler,
    replaces: bool,
    items: Range,
    max: Option<ExpressionAt>,
) {
    let code = emitter.code.literal_held(0);
    let walk = emitter.walk(place, true);
    emitter.code.usage.hold(walk.register);
    let temporary = emitter.code.literal_held(0);
    let target = TextTarget {
        text: walk.register,
        temporary,
        code,
        place: *place,
        replaces,
        max,
    };
    let left = if replaces {
        replace_text(emitter, tree, &target, items)
    } else {
        items
    };
    emitter.then(&[
        Task::Items(left, Output::Added(target)),
        Task::TextEnd(walk, target),
        Task::HandleIf(code, handler),
        Task::Release(code),
    ])
}

/// Empties a text, or sets it to its first item if that is known. Returns the items that are left.
fn replace_text(
    emitter: &mut Emitter,
    tree: &Tree<'_>,
    target: &TextTarget,
    items: Range,
) -> Range {
    let first = first_text(emitter, tree, items);
    let code = &mut emitter.code;
    if let Some(bytes) = first {
        add_bytes(code, bytes, target.temporary, target, Operation::SetStr);
        return after_first(items);
    }
    code.act(Operation::Clear, target.text, 0);
    code.end_others(target.text);
    items
}

/// The bytes of the first item, if it is always the same text and a constant can have it.
fn first_text<'t>(emitter: &Emitter, tree: &'t Tree<'_>, items: Range) -> Option<&'t [u8]> {
    let item = tree.items(items).first()?;
    let bytes = tree.bytes(item_text(emitter, tree, item)?);
    if bytes.len() <= LONGEST {
        Some(bytes)
    } else {
        None
    }
}

/// These items without the first one.
fn after_first(items: Range) -> Range {
    Range {
        first: items.first.saturating_add(1),
        end: items.end,
    }
}

pub fn end_text(code: &mut Code, walk: &Walk, target: &TextTarget) {
    code.usage.release_all(&[target.temporary, target.text]);
    close_noting(code, walk, target.code)
}

/// Adds the bytes of the text at the last place to another text.
pub fn copy_text(emitter: &mut Emitter, tree: &Tree<'_>, target: &TextTarget, at: ExpressionAt) {
    let place = emitter.pop_place();
    let span = emitter.span_of(tree, at);
    let Some(max) = target.max else {
        return emitter.error(span, ErrorKind::COPY_BOUND);
    };
    let turns = emitter.turns(tree, max);
    if is_same(&emitter.ways, &place, &target.place) {
        return emitter.error(span, ErrorKind::ADDED_TO_ITSELF);
    }
    let walk = emitter.walk(&place, false);
    let (index, go) = (emitter.code.literal_held(0), emitter.code.literal_held(0));
    emitter.code.usage.hold(walk.register);
    copy_bytes(&mut emitter.code, walk.register, index, go, turns, target);
    emitter.code.usage.release_all(&[walk.register, index, go]);
    close_walk(&mut emitter.code, &walk)
}

fn copy_bytes(
    code: &mut Code,
    from: Register,
    index: Register,
    go: Register,
    turns: i32,
    target: &TextTarget,
) {
    let temporary = target.temporary;
    code.read(Operation::Len, temporary, from);
    code.compute(Operation::Less, go, index, temporary);
    code.open_loop(go, turns);
    open_byte(code, temporary, from, index);
    code.close();
    add_byte(code, temporary, temporary, target);
    code.number(temporary, 1);
    code.compute(Operation::Add, index, index, temporary);
    code.read(Operation::Len, temporary, from);
    code.compute(Operation::Less, go, index, temporary);
    code.end_loop()
}

/// Whether two places are the same.
fn is_same(ways: &[Way], one: &Place, two: &Place) -> bool {
    if one.root != two.root || one.len() != two.len() {
        return false;
    }
    for step in 0..one.len() {
        let left = ways.get(one.first.saturating_add(step));
        let right = ways.get(two.first.saturating_add(step));
        match (left, right) {
            (Some(left), Some(right)) if left.kind == right.kind => {}
            _ => return false,
        }
    }
    true
}

/// The expression of an item.
fn item_value(item: &Item) -> Option<ExpressionAt> {
    match item.value.kind {
        ValueKind::Expression(at) => Some(at),
        ValueKind::New(_) | ValueKind::Take(_) => None,
    }
}

/// The byte of a decimal digit.
fn digit_of(digit: u64) -> u8 {
    match b"0123456789".get(usize::try_from(digit).unwrap_or(0)) {
        Some(byte) => *byte,
        None => b'0',
    }
}
