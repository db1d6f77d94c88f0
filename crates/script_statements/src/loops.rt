//! The beginnings and the turns of loops.

use crate::lookups::{bind_place, bind_walk, body_of};
use client_code::Operation;
use script_code::{
    Code, Emitter, End, ErrorKind, Handler, Key, Known, Loop, MOST_DIGITS, Meaning, Operand, Place,
    Register, Shape, Task, Turn, TypeAt, WayKind, close_walk, decimal_digits,
};
use script_syntax::{
    Block, ExpressionAt, Source, Span, Statement, StatementAt, StatementKind, Tree,
};

/// The most bytes of an input.
const MOST_INPUT: i32 = 1 << 20;

pub fn begin_for(emitter: &mut Emitter, tree: &Tree<'_>, statement: StatementAt) {
    let Some(
        Statement {
            kind: StatementKind::For {
                key,
                source,
                max,
                ..
            },
            ..
        },
    ) = tree.statement(statement)
    else {
        return;
    };
    emitter.forget_made();
    match source {
        Source::Input(_) => match key {
            Some(key) => emitter.error(key, ErrorKind::INPUT_PAIR),
            None => begin_input(emitter, tree, statement, max),
        },
        Source::Numbers(first, end) => match key {
            Some(key) => emitter.error(key, ErrorKind::RANGE_PAIR),
            None => begin_numbers(emitter, tree, statement, first, end),
        },
        Source::Place(at) => begin_items(emitter, tree, statement, at),
    }
}

fn begin_items(emitter: &mut Emitter, tree: &Tree<'_>, statement: StatementAt, at: ExpressionAt) {
    if !emitter.is_place(tree, at) {
        return emitter.error_at(tree, at, ErrorKind::NO_SOURCE);
    }
    emitter.then_place(at, Task::DoItems(statement))
}

fn begin_input(
    emitter: &mut Emitter,
    tree: &Tree<'_>,
    statement: StatementAt,
    max: Option<ExpressionAt>,
) {
    let turns = match max {
        Some(max) => emitter.turns(tree, max),
        None => MOST_INPUT,
    };
    let go = emitter.code.literal_held(1);
    let byte = emitter.code.take_held();
    emitter.then(&[Task::Release(byte), Task::Release(go)]);
    then_loop(emitter, statement, go, turns, Turn::Input(byte))
}

/// Begins a loop next.
fn then_loop(emitter: &mut Emitter, statement: StatementAt, go: Register, turns: i32, turn: Turn) {
    let found = Loop {
        statement,
        go,
        turns,
        is_flat: emitter.is_flat,
        turn,
    };
    emitter.push_task(Task::BeginLoop(found))
}

fn begin_numbers(
    emitter: &mut Emitter,
    tree: &Tree<'_>,
    statement: StatementAt,
    first: ExpressionAt,
    end: ExpressionAt,
) {
    if emitter.known_number(tree, end).is_some() {
        return emitter.then_fresh(first, Task::DoNumbers(statement));
    }
    emitter.then_fresh(end, Task::DoNumbers(statement));
    emitter.then(&[Task::Evaluate(first, None), Task::Fresh])
}

/// A loop over numbers, after its first number and its end, if that isn't known.
pub fn loop_numbers(emitter: &mut Emitter, tree: &Tree<'_>, statement: StatementAt) {
    let Some(
        Statement {
            span,
            kind: StatementKind::For {
                source: Source::Numbers(first, last),
                max,
                ..
            },
            ..
        },
    ) = tree.statement(statement)
    else {
        return;
    };
    let low = emitter.known_number(tree, first);
    let high = emitter.known_number(tree, last);
    let end = match high {
        Some(high) => End::Literal(high),
        None => End::Register(hold_value(emitter)),
    };
    let index = hold_value(emitter);
    let turns = number_turns(emitter, tree, span, max, low, high);
    let turn = Turn::Numbers {
        index,
        end,
        digits: digits_between(low, high),
        is_positive: matches!(low, Some(low) if low >= 0),
    };
    open_numbers(emitter, statement, span, turns, index, end, turn)
}

/// Keeps the register of the last number.
fn hold_value(emitter: &mut Emitter) -> Register {
    let register = emitter.pop_value().register;
    emitter.code.usage.hold(register);
    register
}

/// The most turns of a loop over numbers, of which some are known.
fn number_turns(
    emitter: &mut Emitter,
    tree: &Tree<'_>,
    span: Span,
    max: Option<ExpressionAt>,
    low: Option<i64>,
    high: Option<i64>,
) -> i32 {
    match (max, low, high) {
        (Some(max), _, _) => emitter.turns(tree, max),
        (None, Some(low), Some(high)) => known_turns(emitter, span, high.saturating_sub(low)),
        _ => {
            emitter.error(span, ErrorKind::LOOP_BOUND);
            1
        }
    }
}

fn open_numbers(
    emitter: &mut Emitter,
    statement: StatementAt,
    span: Span,
    turns: i32,
    index: Register,
    end: End,
    turn: Turn,
) {
    let go = emitter.code.take_held();
    test_index(&mut emitter.code, go, index, end);
    let release = match end {
        End::Register(register) => Task::Release(register),
        End::Literal(_) => Task::At(span),
    };
    emitter.then(&[Task::Release(go), Task::Release(index), release]);
    then_loop(emitter, statement, go, turns, turn)
}

fn known_turns(emitter: &mut Emitter, span: Span, count: i64) -> i32 {
    match i32::try_from(count.max(1)) {
        Ok(turns) if turns <= 1_000_000_000 => turns,
        _ => {
            emitter.error(span, ErrorKind::TURNS);
            1
        }
    }
}

/// Sets a register to whether an index is below the end.
fn test_index(code: &mut Code, go: Register, index: Register, end: End) {
    match end {
        End::Register(end) => code.compute(Operation::Less, go, index, end),
        End::Literal(value) => {
            let end = code.literal(value);
            code.compute(Operation::Less, go, index, end);
            code.usage.free(end);
        }
    }
}

/// A loop over the items of the last place.
pub fn loop_items(emitter: &mut Emitter, tree: &Tree<'_>, statement: StatementAt) {
    let Some(found) = tree.statement(statement) else {
        return;
    };
    let StatementKind::For {
        source: Source::Place(at),
        max,
        ..
    } = found.kind
    else {
        return;
    };
    let mut place = emitter.pop_place();
    emitter.enter_content(&mut place);
    let shape = emitter.program.types.shape(place.value_type);
    if place.is_length || shape.item().is_none() {
        let span = emitter.span_of(tree, at);
        return emitter.type_error(span, ErrorKind::NOT_CONTAINER, place.value_type);
    }
    let turns = emitter.needed_turns(tree, found.span, max);
    open_items(emitter, tree, statement, body_of(&found), place, turns)
}

fn open_items(
    emitter: &mut Emitter,
    tree: &Tree<'_>,
    statement: StatementAt,
    body: Block,
    place: Place,
    turns: i32,
) {
    let mut place = place;
    let names = emitter.names.len();
    emitter.push_task(Task::EndScope(names));
    emitter.keep_keys(tree, &mut place, body);
    let key = emitter.code.literal_held(0);
    let go = emitter.code.literal_held(0);
    find_first(emitter, &place, key, go);
    emitter.then(&[Task::Release(key), Task::Release(go)]);
    then_loop(emitter, statement, go, turns, Turn::Items { place, key })
}

/// Sets a register to whether a container has items, and the key to the first one.
fn find_first(emitter: &mut Emitter, place: &Place, key: Register, go: Register) {
    let is_map = emitter.program.types.shape(place.value_type).is_map();
    let walk = emitter.walk(place, false);
    let code = &mut emitter.code;
    code.read(Operation::Len, go, walk.register);
    if is_map {
        open_key(code, Operation::FirstKey, key, walk.register, 0);
        code.close();
    } else {
        let zero = code.literal(0);
        code.compute(Operation::Less, go, zero, go);
        code.usage.free(zero);
    }
    close_walk(code, &walk)
}

fn open_key(code: &mut Code, operation: Operation, key: Register, map: Register, after: u8) {
    let registers = [key.0, map.0, after];
    code.open(operation, registers, Operand::Plain(0), key, Known::Number)
}

pub fn begin_while(emitter: &mut Emitter, tree: &Tree<'_>, statement: StatementAt) {
    let Some(
        Statement {
            span,
            kind: StatementKind::While { condition, max },
            ..
        },
    ) = tree.statement(statement)
    else {
        return;
    };
    emitter.forget_made();
    let turns = emitter.needed_turns(tree, span, max);
    let go = emitter.code.take_held();
    emitter.push_task(Task::Release(go));
    then_loop(emitter, statement, go, turns, Turn::While(condition));
    emitter.then(&[Task::Evaluate(condition, Some(go)), Task::MoveTo(go)])
}

/// Begins the body of a loop. The register that tells whether the turn continues is set, if there is
/// one.
pub fn begin_turns(emitter: &mut Emitter, tree: &Tree<'_>, found: Loop, running: Option<Register>) {
    emitter.code.open_loop(found.go, found.turns);
    if let Some(running) = running {
        emitter.code.number(running, 1);
    }
    emitter.push_task(Task::EndLoop);
    begin_turn(emitter, tree, found)
}

fn begin_turn(emitter: &mut Emitter, tree: &Tree<'_>, found: Loop) {
    let Some(statement) = tree.statement(found.statement) else {
        return;
    };
    let body = body_of(&statement);
    let StatementKind::For { key, name, .. } = statement.kind else {
        return emitter.then(&[Task::Block(body), Task::NextTurn(found)]);
    };
    match found.turn {
        Turn::Input(byte) => begin_byte(emitter, found.go, body, name, byte),
        Turn::Numbers {
            index,
            digits,
            is_positive,
            ..
        } => begin_number(
            emitter,
            found,
            body,
            name,
            Meaning::loop_number(index, digits, is_positive),
        ),
        Turn::Items {
            place,
            key: register,
        } => { begin_item(emitter, found, body, key, name, &place, register) }
        Turn::While(_) => emitter.then(&[Task::Block(body), Task::NextTurn(found)]),
    }
}

/// Binds the number of a turn, and does the body.
fn begin_number(emitter: &mut Emitter, found: Loop, body: Block, name: Span, meaning: Meaning) {
    let names = emitter.names.len();
    emitter.bind(name, meaning);
    emitter.then(&[Task::Body(body, names, false), Task::NextTurn(found)])
}

/// Reads a byte of the input, binds it, and does the body.
fn begin_byte(emitter: &mut Emitter, go: Register, body: Block, name: Span, byte: Register) {
    let names = emitter.names.len();
    let registers = [byte.0, 0, 0];
    let operand = Operand::Plain(0);
    emitter.code.open(Operation::GetByte, registers, operand, byte, Known::Number);
    emitter.bind(name, Meaning::loop_number(byte, 3, false));
    emitter.then(&[Task::Body(body, names, false), Task::EndInput(go)])
}

/// Binds the key and the item of a turn.
fn begin_item(
    emitter: &mut Emitter,
    found: Loop,
    body: Block,
    key: Option<Span>,
    name: Span,
    place: &Place,
    register: Register,
) {
    let names = emitter.names.len();
    let body = Task::Body(body, names, false);
    let is_map = emitter.program.types.shape(place.value_type).is_map();
    let (key, item) = names_of_turn(key, name, is_map);
    if let Some(key) = key {
        let digits = if is_map { MOST_DIGITS } else { 10 };
        emitter.bind(key, Meaning::loop_number(register, digits, !is_map));
    }
    match item {
        Some(item) => bind_turn(emitter, found, item, place, register, body),
        None => emitter.then(&[body, Task::NextTurn(found)]),
    }
}

/// Binds the item of a turn, and does the body.
fn bind_turn(
    emitter: &mut Emitter,
    found: Loop,
    name: Span,
    place: &Place,
    register: Register,
    body: Task,
) {
    let next = Task::NextTurn(found);
    let shape = emitter.program.types.shape(place.value_type);
    let Some(item_type) = shape.item() else {
        return emitter.then(&[body, next]);
    };
    let kind = item_way(shape, Key::Register(register));
    let place = emitter.longer_place(place, kind, item_type);
    if item_type == TypeAt::INT {
        let digits = if shape == Shape::Text { 3 } else { MOST_DIGITS };
        return begin_number_item(emitter, name, &place, digits, body, next);
    }
    if found.is_flat {
        bind_place(emitter, name, place);
        return emitter.then(&[body, next]);
    }
    let walk = emitter.walk(&place, false);
    bind_walk(emitter, name, &place, &walk);
    emitter.then(&[body, Task::CloseWalk(walk, Handler::Nothing, None), next])
}

fn begin_number_item(
    emitter: &mut Emitter,
    name: Span,
    place: &Place,
    digits: usize,
    body: Task,
    next: Task,
) {
    let register = emitter.code.literal_held(0);
    emitter.read_place(register, place);
    emitter.bind(name, Meaning::loop_number(register, digits, false));
    emitter.then(&[body, next, Task::Release(register)])
}

/// Ends a turn over the input: without a byte the loop ends.
pub fn end_input(code: &mut Code, go: Register) {
    code.begin_else();
    code.number(go, 0);
    code.end_part()
}

/// Continues to the next turn, unless the loop was left. The condition of a `while` isn't worked out.
pub fn next_turn(emitter: &mut Emitter, tree: &Tree<'_>, found: Loop, has_breaks: bool) {
    let Some(statement) = tree.statement(found.statement) else {
        return;
    };
    emitter.code.usage.tidy();
    emitter.code.span = statement.span;
    if has_breaks {
        emitter.code.open_if(found.go);
        emitter.then(&[Task::Else, Task::EndPart]);
    }
    match found.turn {
        Turn::Numbers { index, end, .. } => {
            emitter.code.add(index, 1);
            test_index(&mut emitter.code, found.go, index, end)
        }
        Turn::Items { place, key } => next_item(emitter, &place, key, found.go),
        Turn::Input(_) | Turn::While(_) => {}
    }
}

fn next_item(emitter: &mut Emitter, place: &Place, key: Register, go: Register) {
    let is_map = emitter.program.types.shape(place.value_type).is_map();
    let other = emitter.code.literal_held(0);
    if !is_map {
        emitter.code.add(key, 1);
    }
    let walk = emitter.walk(place, false);
    let code = &mut emitter.code;
    if is_map {
        open_key(code, Operation::NextKey, key, walk.register, key.0);
        code.number(other, 1);
        code.close();
        close_walk(code, &walk);
        code.copy(go, other);
    } else {
        code.read(Operation::Len, other, walk.register);
        close_walk(code, &walk);
        code.compute(Operation::Less, go, key, other);
    }
    code.usage.release(other);
}

/// Ends a loop. Its else part runs if its turns are used up.
pub fn leave_loop(emitter: &mut Emitter, tree: &Tree<'_>, found: Loop) {
    let Some(statement) = tree.statement(found.statement) else {
        return;
    };
    emitter.code.end_loop();
    emitter.code.usage.tidy();
    emitter.code.span = statement.span;
    if let Some(part) = statement.otherwise {
        emitter.code.open_if(found.go);
        emitter.then(&[Task::Block(part.block), Task::Else, Task::EndPart]);
    }
}

/// The names of the key and of the item of a turn. The only name of a loop over a map is the key's.
fn names_of_turn(key: Option<Span>, name: Span, is_map: bool) -> (Option<Span>, Option<Span>) {
    if is_map && key.is_none() {
        return (Some(name), None);
    }
    (key, Some(name))
}

/// The step to an item of a container.
fn item_way(shape: Shape, key: Key) -> WayKind {
    match shape {
        Shape::Text => WayKind::Byte(key),
        _ if shape.is_map() => WayKind::Key(key),
        _ => WayKind::Item(key),
    }
}

/// The most digits of a number from `low` to before `high`, as far as these are known.
fn digits_between(low: Option<i64>, high: Option<i64>) -> usize {
    match (low, high) {
        (Some(low), Some(high)) => decimal_digits(low).max(decimal_digits(high.wrapping_sub(1))),
        _ => MOST_DIGITS,
    }
}
