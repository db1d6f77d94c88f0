//! `let`, `if let` and `use`.

use crate::methods::begin_method;
use client_code::Operation;
use script_code::{
    About, Code, Emitter, ErrorKind, Handler, Known, MOST_DIGITS, Meaning, NOWHERE, Names, Operand,
    Place, Program, Register, Removed, Root, Shape, Task, TypeAt, Walk, Way, WayKind, close_noting,
    close_walk, is_method, is_number, last_way, near_struct, own_handler, plain_name, read_number,
    steps_of,
};
use script_syntax::{
    Block, Container, ExpressionAt, Held, Range, Span, Statement, StatementAt, StatementKind, Tree,
    Type, Value, ValueKind,
};

/// No statements.
const NOTHING: Block = Block {
    statements: Range { first: 0, end: 0 },
    following: Range { first: 0, end: 0 },
    leaves: false,
};

/// The block of a statement.
pub fn body_of(statement: &Statement) -> Block {
    statement.body.unwrap_or(NOTHING)
}

/// The task for a statement's block, whose names begin here.
pub fn body_task(statement: &Statement, names: usize) -> Task {
    Task::Body(body_of(statement), names, shows_names(statement))
}

/// Whether what follows a statement's block sees the name which the statement gives.
fn shows_names(statement: &Statement) -> bool {
    matches!(
        statement.kind,
        StatementKind::Let { .. } | StatementKind::Use(_)
    )
}

pub fn begin_let(emitter: &mut Emitter, tree: &Tree<'_>, statement: StatementAt) {
    let Some((found, name, value)) = find_named(tree, statement) else {
        return emitter.skip();
    };
    if is_object_name(&emitter.program, tree, name) {
        return emitter.error(name, ErrorKind::OBJECT_NAME);
    }
    if found.body.is_some() {
        return begin_lookup(emitter, tree, statement);
    }
    let ValueKind::Expression(at) = value.kind else {
        return emitter.skip();
    };
    if !emitter.is_place(tree, at) || is_variable(&emitter.names, tree, at) {
        return emitter.then_fresh(at, Task::BindNumber(name, MOST_DIGITS));
    }
    emitter.then_place(at, Task::DoLet(name, at))
}

fn is_object_name(program: &Program, tree: &Tree<'_>, name: Span) -> bool {
    let word = tree.word(name);
    let found = program.object_named(tree, word);
    found.is_some()
}

/// Whether an expression is the name of a number.
pub fn is_variable(names: &Names, tree: &Tree<'_>, at: ExpressionAt) -> bool {
    match plain_name(names, tree, at) {
        Some(name) => match names.get(name) {
            Some(name) => matches!(name.meaning, Meaning::Number { .. }),
            None => false,
        },
        None => false,
    }
}

/// Gives the last place a name, or its number if it is one.
pub fn finish_let(emitter: &mut Emitter, tree: &Tree<'_>, name: Span, at: ExpressionAt) {
    let place = emitter.pop_place();
    if is_number(&place) {
        let digits = if place.is_length { 10 } else { MOST_DIGITS };
        emitter.push_place(place);
        return emitter.then(&[
            Task::Load(at, None),
            Task::Fresh,
            Task::BindNumber(name, digits),
        ]);
    }
    if emitter.fallible(&place) > 0 {
        return emitter.error_at(tree, at, ErrorKind::LET_ABSENT);
    }
    if emitter.openers(&place) > 0 {
        return bind_place(emitter, name, place);
    }
    let walk = emitter.walk(&place, false);
    bind_walk(emitter, name, &place, &walk);
    close_walk(&mut emitter.code, &walk)
}

/// Gives the last number a name.
pub fn bind_number(emitter: &mut Emitter, name: Span, digits: usize) {
    let value = emitter.pop_value();
    emitter.bind(name, Meaning::short_number(value.register, digits))
}

/// Gives a place a name which has no register.
pub fn bind_place(emitter: &mut Emitter, name: Span, place: Place) {
    emitter.bind(
        name,
        Meaning::Place {
            place,
            register: None,
            stamp: 0,
        },
    )
}

/// Gives a place a name, with the register at the end of a walk.
pub fn bind_walk(emitter: &mut Emitter, name: Span, place: &Place, walk: &Walk) {
    let mut place = *place;
    place.is_frozen = place.is_frozen || walk.is_frozen;
    bind_at(emitter, name, place, walk.register)
}

/// Gives a place a name, with the register that refers to it.
pub fn bind_at(emitter: &mut Emitter, name: Span, place: Place, register: Register) {
    let stamp = emitter.code.registers.get(register).stamp;
    emitter.bind(
        name,
        Meaning::Place {
            place,
            register: Some(register),
            stamp,
        },
    )
}

/// What is done if the lookup of a statement fails.
pub fn lookup_handler(emitter: &mut Emitter, statement: &Statement) -> Handler {
    let Some((_, value)) = named_value(statement) else {
        emitter.skip();
        return Handler::Nothing;
    };
    let is_lookup = matches!(value.kind, ValueKind::Expression(_));
    if is_lookup && matches!(statement.kind, StatementKind::IfLet { .. }) {
        return own_handler(statement);
    }
    emitter.handler(statement)
}

pub fn begin_lookup(emitter: &mut Emitter, tree: &Tree<'_>, statement: StatementAt) {
    let Some((found, name, value)) = find_named(tree, statement) else {
        return emitter.skip();
    };
    match value.kind {
        ValueKind::New(written) => make_new(emitter, tree, &found, name, written),
        ValueKind::Take(at) => emitter.then_place(at, Task::DoTake(statement)),
        ValueKind::Expression(at) => look_up(emitter, tree, statement, value.span, at),
    }
}

fn look_up(
    emitter: &mut Emitter,
    tree: &Tree<'_>,
    statement: StatementAt,
    span: Span,
    at: ExpressionAt,
) {
    if is_method(tree, at) {
        return begin_method(emitter, tree, at, statement, true);
    }
    if !emitter.is_place(tree, at) {
        return emitter.error(span, ErrorKind::NOT_LOOKUP);
    }
    emitter.then_place(at, Task::DoLookup(statement))
}

fn make_new(
    emitter: &mut Emitter,
    tree: &Tree<'_>,
    statement: &Statement,
    name: Span,
    written: Type,
) {
    let value_type = match emitter.written_type(tree, written) {
        Ok(found) => found,
        Err(span) => {
            let word = tree.word(span);
            let near = near_struct(&emitter.program, tree, word);
            return emitter.error_about(span, ErrorKind::NO_TYPE, About::near(near));
        }
    };
    let handler = lookup_handler(emitter, statement);
    let register = emitter.code.take();
    emitter.code.open(
        Operation::New,
        [register.0, 0, 0],
        Operand::Type(value_type),
        register,
        Known::Owner(value_type),
    );
    emitter.code.usage.hold(register);
    own(emitter, statement, name, register, value_type, handler)
}

/// Binds an owned object, whose part was just opened, and does the rest.
fn own(
    emitter: &mut Emitter,
    statement: &Statement,
    name: Span,
    register: Register,
    value_type: TypeAt,
    handler: Handler,
) {
    let names = emitter.names.len();
    emitter.bind(
        name,
        Meaning::Owner {
            register,
            value_type,
        },
    );
    emitter.then(&[
        body_task(statement, names),
        Task::Else,
        Task::Handle(handler, register),
        Task::EndPart,
        Task::Release(register),
    ])
}

pub fn take_owned(emitter: &mut Emitter, tree: &Tree<'_>, statement: StatementAt) {
    let Some((found, name, _)) = find_named(tree, statement) else {
        return emitter.skip();
    };
    let place = emitter.pop_place();
    let shape = emitter.program.types.shape(place.value_type);
    let Shape::Of(Container::Own, content) = shape else {
        return emitter.type_error(place.span, ErrorKind::TAKE_OF, place.value_type);
    };
    emitter.check_changeable(&place);
    let handler = lookup_handler(emitter, &found);
    let code = body_code(emitter, tree, &found, &place, handler);
    let register = emitter.code.take_held();
    let walk = emitter.walk(&place, false);
    emitter.remove(&place, Removed::Below, found.span);
    emitter.code.open_change(
        Operation::Take,
        [register.0, walk.register.0, 0],
        register,
        Known::Owner(content),
    );
    emitter.push_task(Task::CloseWalk(walk, handler, code));
    own(emitter, &found, name, register, content, handler)
}

/// `if let` at the last place.
pub fn finish_lookup(emitter: &mut Emitter, tree: &Tree<'_>, statement: StatementAt) {
    let Some((found, name, _)) = find_named(tree, statement) else {
        return emitter.skip();
    };
    let mut place = emitter.pop_place();
    let content = emitter.program.types.shape(place.value_type).content();
    let is_box = content.is_some() && !place.is_length;
    let is_known = matches!(place.root, Root::Number(_)) || emitter.fallible(&place) == 0;
    if is_known && !is_box {
        return emitter.error(place.span, ErrorKind::NEVER_ABSENT);
    }
    let handler = lookup_handler(emitter, &found);
    if is_box {
        enter_one(emitter, &mut place);
    }
    if is_number(&place) {
        return look_up_number(emitter, &found, name, &place, handler);
    }
    look_up_place(emitter, tree, &found, name, place, handler)
}

fn look_up_place(
    emitter: &mut Emitter,
    tree: &Tree<'_>,
    statement: &Statement,
    name: Span,
    place: Place,
    handler: Handler,
) {
    let mut place = place;
    let names = emitter.names.len();
    emitter.keep_keys(tree, &mut place, body_of(statement));
    if emitter.is_flat {
        return look_up_flat(emitter, statement, name, &place, handler, names);
    }
    let code = body_code(emitter, tree, statement, &place, handler);
    let walk = emitter.walk(&place, false);
    bind_walk(emitter, name, &place, &walk);
    emitter.then(&[
        body_task(statement, names),
        Task::CloseWalk(walk, handler, code),
    ])
}

/// A register for the code of a walk, if the handler runs after all its parts. A body that may
/// remove something comes between.
pub fn body_code(
    emitter: &mut Emitter,
    tree: &Tree<'_>,
    statement: &Statement,
    place: &Place,
    handler: Handler,
) -> Option<Register> {
    let removes = matches!(handler, Handler::Part(_)) && emitter.removes(tree, body_of(statement));
    emitter.code_unless_removed(place, handler, removes)
}

/// Goes into an `own` or a `shared`.
fn enter_one(emitter: &mut Emitter, place: &mut Place) {
    match emitter.program.types.shape(place.value_type) {
        Shape::Of(Container::Own, to) => {
            emitter.add_way(place, WayKind::Content { is_shared: false }, to)
        }
        Shape::Of(Container::Shared, to) => {
            emitter.add_way(place, WayKind::Content { is_shared: true }, to)
        }
        _ => {}
    }
}

fn look_up_number(
    emitter: &mut Emitter,
    statement: &Statement,
    name: Span,
    place: &Place,
    handler: Handler,
) {
    let digits = most_digits(&emitter.ways, place);
    if emitter.openers(place) == 1 && !emitter.is_flat {
        return look_up_open(emitter, statement, name, place, handler, digits);
    }
    let names = emitter.names.len();
    let register = emitter.code.literal_held(0);
    let code = emitter.code.literal_held(0);
    let walk = emitter.walk(place, false);
    read_number(&mut emitter.code, register, walk.register, place);
    close_noting(&mut emitter.code, &walk, code);
    emitter.push_task(Task::Release(register));
    let bind = Task::BindSet(name, register, digits);
    branch_on(emitter, code, handler, &[bind, body_task(statement, names)])
}

/// The most digits of the number at a place.
fn most_digits(ways: &[Way], place: &Place) -> usize {
    match last_way(ways, place) {
        _ if place.is_length => 10,
        Some(WayKind::Byte(_)) => 3,
        _ => MOST_DIGITS,
    }
}

/// Looks a number up whose walk opens one part, and does the body in that.
fn look_up_open(
    emitter: &mut Emitter,
    statement: &Statement,
    name: Span,
    place: &Place,
    handler: Handler,
    digits: usize,
) {
    let names = emitter.names.len();
    let walk = emitter.walk(place, false);
    let register = own_register(&mut emitter.code, &walk);
    read_number(&mut emitter.code, register, walk.register, place);
    emitter.bind(name, Meaning::short_number(register, digits));
    emitter.then(&[
        body_task(statement, names),
        Task::CloseWalk(walk, handler, None),
    ])
}

/// The register at the end of a walk if it belongs to the walk alone, or else a new one.
pub fn own_register(code: &mut Code, walk: &Walk) -> Register {
    if walk.is_own() {
        return walk.register;
    }
    code.take()
}

/// Runs the handler if a register isn't 0. Otherwise releases it, and does these tasks.
pub fn branch_on(emitter: &mut Emitter, code: Register, handler: Handler, success: &[Task]) {
    emitter.code.open_if(code);
    emitter.push_task(Task::EndPart);
    emitter.then(success);
    emitter.then(&[Task::Handle(handler, code), Task::Else, Task::Release(code)])
}

/// Looks a place up, and again at each use, so that no part of it stays open.
fn look_up_flat(
    emitter: &mut Emitter,
    statement: &Statement,
    name: Span,
    place: &Place,
    handler: Handler,
    names: usize,
) {
    let code = emitter.code.literal_held(0);
    let walk = emitter.walk(place, false);
    close_noting(&mut emitter.code, &walk, code);
    let bind = Task::BindPlace(name, *place);
    branch_on(emitter, code, handler, &[bind, body_task(statement, names)])
}

// use

pub fn begin_use(emitter: &mut Emitter, tree: &Tree<'_>, statement: StatementAt, held: Range) {
    let Some(found) = tree.statement(statement) else {
        return;
    };
    let places = tree.held(held);
    let Some(first) = places.first() else {
        return;
    };
    let handler = emitter.handler(&found);
    if emitter.is_flat {
        let code = emitter.code.literal_held(0);
        let hold = Task::HoldFlat(statement, 0, code);
        return emitter.then_place(first.place, hold);
    }
    if handler.is_nothing() || places.len() < 2 {
        let hold = Task::Hold(statement, 0, None);
        return emitter.then_place(first.place, hold);
    }
    let code = emitter.code.literal_held(0);
    emitter.then(&[Task::HandleIf(code, handler), Task::Release(code)]);
    emitter.then_place(first.place, Task::Hold(statement, 0, Some(code)))
}

/// The name of a place that a `use` holds.
fn held_name(emitter: &mut Emitter, tree: &Tree<'_>, held: &Held, place: &Place) -> Span {
    let span = emitter.span_of(tree, held.place);
    if matches!(place.root, Root::Number(_)) {
        emitter.error(span, ErrorKind::NEEDLESS_USE);
        return NOWHERE;
    }
    match (held.name, steps_of(tree, held.place, 0)) {
        (Some(name), _) => name,
        (None, Some(steps)) if steps.is_empty() => span,
        (None, _) => {
            emitter.error(span, ErrorKind::UNNAMED_USE);
            NOWHERE
        }
    }
}

/// The last place, which is that of a `use` with this number, and its name. Its keys are kept.
fn begin_hold(
    emitter: &mut Emitter,
    tree: &Tree<'_>,
    statement: &Statement,
    number: usize,
) -> Option<(Span, Place)> {
    let mut place = emitter.pop_place();
    let held = held_place(tree, statement, number)?;
    let name = held_name(emitter, tree, &held, &place);
    emitter.keep_keys(tree, &mut place, body_of(statement));
    Some((name, place))
}

/// Keeps the last place for a `use`, and continues with the next one.
pub fn hold(
    emitter: &mut Emitter,
    tree: &Tree<'_>,
    statement: StatementAt,
    number: usize,
    code: Option<Register>,
) {
    let Some(found) = tree.statement(statement) else {
        return;
    };
    let names = emitter.names.len();
    let Some((name, place)) = begin_hold(emitter, tree, &found, number) else {
        return;
    };
    let close = hold_place(emitter, &found, name, &place, code);
    let inner = emitter.names.len();
    let [first, second] = after_held(tree, statement, &found, number, code, inner);
    emitter.then(&[first, second, Task::EndScope(names), close])
}

/// Finds or makes a place, and binds it. Returns the task that ends its parts.
fn hold_place(
    emitter: &mut Emitter,
    statement: &Statement,
    name: Span,
    place: &Place,
    code: Option<Register>,
) -> Task {
    let handler = match code {
        Some(_) => Handler::Nothing,
        None => emitter.handler(statement),
    };
    let own_code = emitter.code_register(place, handler);
    let walk = emitter.walk(place, true);
    bind_walk(emitter, name, place, &walk);
    emitter.use_last_name();
    match code {
        Some(code) => Task::CloseNoting(walk, code),
        None => Task::CloseWalk(walk, handler, own_code),
    }
}

/// Finds or makes the last place, and binds it without holding it.
pub fn hold_flat(
    emitter: &mut Emitter,
    tree: &Tree<'_>,
    statement: StatementAt,
    number: usize,
    code: Register,
) {
    let Some(found) = tree.statement(statement) else {
        return;
    };
    let names = emitter.names.len();
    let Some((name, place)) = begin_hold(emitter, tree, &found, number) else {
        return;
    };
    let walk = emitter.walk(&place, true);
    close_noting(&mut emitter.code, &walk, code);
    if number > 0 {
        end_if_held(&mut emitter.code);
    }
    bind_place(emitter, name, place);
    emitter.use_last_name();
    emitter.push_task(Task::EndScope(names));
    after_flat(emitter, tree, statement, &found, number, code)
}

/// Begins what is done if the places of a `use` so far were found or made: a register has no code.
fn begin_if_held(code: &mut Code, failure: Register) {
    let is_held = code.take();
    code.is_zero(is_held, failure);
    code.open_if(is_held);
    code.usage.free(is_held)
}

/// Ends what is done then. The keys of the place that was looked up there are numbers in any case.
fn end_if_held(code: &mut Code) {
    code.begin_else();
    code.level_numbers();
    code.end_part()
}

/// Continues with the next place of a `use`, or its body.
fn after_flat(
    emitter: &mut Emitter,
    tree: &Tree<'_>,
    statement: StatementAt,
    found: &Statement,
    number: usize,
    code: Register,
) {
    let next = number.saturating_add(1);
    match held_place(tree, found, next) {
        Some(held) => {
            begin_if_held(&mut emitter.code, code);
            let hold = Task::HoldFlat(statement, next, code);
            emitter.then_place(held.place, hold)
        }
        None => do_flat(emitter, found, code),
    }
}

/// The body of a `use` whose places were found or made, unless a register has a code.
fn do_flat(emitter: &mut Emitter, statement: &Statement, code: Register) {
    let handler = emitter.handler(statement);
    let body = Task::Body(body_of(statement), emitter.names.len(), true);
    branch_on(emitter, code, handler, &[body])
}

/// The name and the value of a `let` or an `if let`.
fn named_value(statement: &Statement) -> Option<(Span, Value)> {
    match statement.kind {
        StatementKind::Let { name, value } | StatementKind::IfLet { name, value } => {
            Some((name, value))
        }
        _ => None,
    }
}

/// The statement with its name and its value, if it is a `let` or an `if let`.
pub fn find_named(tree: &Tree<'_>, statement: StatementAt) -> Option<(Statement, Span, Value)> {
    let found = tree.statement(statement)?;
    let (name, value) = named_value(&found)?;
    Some((found, name, value))
}

/// The place of a `use` with this number, if it has one.
fn held_place(tree: &Tree<'_>, statement: &Statement, number: usize) -> Option<Held> {
    let StatementKind::Use(held) = statement.kind else {
        return None;
    };
    tree.held(held).get(number).copied()
}

/// The tasks after the place of a `use` with this number.
fn after_held(
    tree: &Tree<'_>,
    statement: StatementAt,
    found: &Statement,
    number: usize,
    code: Option<Register>,
    names: usize,
) -> [Task; 2] {
    let next = number.saturating_add(1);
    match held_place(tree, found, next) {
        Some(held) => [
            Task::Place(held.place, 0),
            Task::Hold(statement, next, code),
        ],
        None => [
            Task::Body(body_of(found), names, true),
            Task::EndScope(names),
        ],
    }
}
