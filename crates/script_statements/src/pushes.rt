//! `let` and `if let` with an item that is pushed or popped.

use crate::lookups::{
    bind_at, body_code, body_of, body_task, branch_on, find_named, lookup_handler, own_register,
};
use crate::methods::{Method, hold_pushed, method_at, method_place, open_push};
use client_code::Operation;
use script_code::{
    Code, Emitter, ErrorKind, Handler, Key, Known, MOST_DIGITS, Meaning, Operand, Place, Register,
    Removed, Task, TypeAt, Walk, WayKind, close_noting,
};
use script_syntax::{Span, Statement, StatementAt, Tree, ValueKind};

/// The code of an item that isn't there.
const NO_ITEM: i64 = 6;

/// A push or a pop whose item gets a name.
#[derive(Clone, Copy)]
struct Naming {
    statement: Statement,
    name: Span,
    value: Span,
    method: Method,
    /// The name of the method.
    called: Span,
}

/// An item that is pushed.
#[derive(Clone, Copy)]
struct Pushed {
    item: TypeAt,
    /// The register of its number, if it has one.
    number: Option<Register>,
}

/// The push or pop of a `let` or an `if let`.
fn find_naming(tree: &Tree<'_>, statement: StatementAt) -> Option<Naming> {
    let (statement, name, value) = find_named(tree, statement)?;
    let ValueKind::Expression(at) = value.kind else {
        return None;
    };
    let (called, method) = method_at(tree, at)?;
    Some(Naming {
        statement,
        name,
        value: value.span,
        method,
        called,
    })
}

/// `if let` with a pushed item, at the last place. Its value was worked out, if it has one.
pub fn push_named(emitter: &mut Emitter, tree: &Tree<'_>, statement: StatementAt, has_value: bool) {
    let Some(naming) = find_naming(tree, statement) else {
        return emitter.skip();
    };
    let (place, item) = method_place(emitter, naming.called, naming.method, has_value);
    if place.value_type == TypeAt::TEXT {
        return emitter.error(naming.value, ErrorKind::PUSHED_BYTE_NAME);
    }
    emitter.check_changeable(&place);
    if !naming.method.is_back() {
        emitter.remove(&place, Removed::Below, naming.statement.span);
    }
    let number = hold_pushed(emitter, has_value);
    bind_pushed(emitter, tree, &naming, place, Pushed { item, number })
}

/// Pushes an item, binds it, and does the body.
fn bind_pushed(
    emitter: &mut Emitter,
    tree: &Tree<'_>,
    naming: &Naming,
    place: Place,
    pushed: Pushed,
) {
    let statement = &naming.statement;
    let handler = lookup_handler(emitter, statement);
    let names = emitter.names.len();
    let mut place = place;
    emitter.keep_keys(tree, &mut place, body_of(statement));
    let code = body_code(emitter, tree, statement, &place, handler);
    let index = emitter.code.literal_held(0);
    let walk = emitter.walk(&place, true);
    let register = push_at(&mut emitter.code, naming.method, pushed, &walk, index);
    bind_item(emitter, naming.name, register, index, &place, pushed.item);
    let release = match pushed.number {
        Some(number) => Task::Release(number),
        None => Task::At(statement.span),
    };
    emitter.then(&[
        body_task(statement, names),
        Task::Else,
        Task::Release(index),
        release,
        Task::Handle(handler, register),
        Task::EndPart,
        Task::Release(register),
        Task::CloseWalk(walk, handler, code),
    ])
}

/// Opens the part of an item that is pushed at the end of a walk, and returns its register. The
/// other register is set to its index.
fn push_at(
    code: &mut Code,
    method: Method,
    pushed: Pushed,
    walk: &Walk,
    index: Register,
) -> Register {
    if method.is_back() {
        code.read(Operation::Len, index, walk.register);
    }
    let register = own_register(code, walk);
    code.usage.hold(register);
    open_push(code, method, register, walk, pushed.item);
    if let Some(number) = pushed.number {
        code.act(Operation::Store, register, number.0);
    }
    register
}

/// Binds a pushed item.
fn bind_item(
    emitter: &mut Emitter,
    name: Span,
    register: Register,
    index: Register,
    place: &Place,
    item: TypeAt,
) {
    if item == TypeAt::INT {
        emitter.code.read(Operation::Load, register, register);
        return emitter.bind(name, Meaning::number(register));
    }
    let kind = WayKind::Item(Key::Register(index));
    let place = emitter.longer_place(place, kind, item);
    bind_at(emitter, name, place, register)
}

/// `if let` with a popped item, at the last place.
pub fn pop_named(emitter: &mut Emitter, tree: &Tree<'_>, statement: StatementAt) {
    let Some(naming) = find_naming(tree, statement) else {
        return emitter.skip();
    };
    let (place, item) = method_place(emitter, naming.called, naming.method, false);
    if item != TypeAt::INT {
        return emitter.type_error(naming.value, ErrorKind::ITEM_GOES, item);
    }
    emitter.check_changeable(&place);
    let handler = lookup_handler(emitter, &naming.statement);
    bind_popped(emitter, &naming, &place, handler)
}

/// Removes an item, binds its number, and does the body.
fn bind_popped(emitter: &mut Emitter, naming: &Naming, place: &Place, handler: Handler) {
    let register = emitter.code.literal_held(0);
    let code = emitter.code.literal_held(NO_ITEM);
    emitter.remove(place, Removed::Below, naming.statement.span);
    let walk = emitter.walk(place, false);
    let value_type = place.value_type;
    take_item(
        &mut emitter.code,
        naming.method,
        register,
        code,
        &walk,
        value_type,
    );
    close_noting(&mut emitter.code, &walk, code);
    let body = body_task(&naming.statement, emitter.names.len());
    emitter.push_task(Task::Release(register));
    let bind = Task::BindSet(naming.name, register, MOST_DIGITS);
    branch_on(emitter, code, handler, &[bind, body])
}

/// Reads the first or the last item, and removes it.
fn take_item(
    code: &mut Code,
    method: Method,
    register: Register,
    failure: Register,
    walk: &Walk,
    value_type: TypeAt,
) {
    let from = walk.register;
    let index = code.literal_held(0);
    if method.is_back() {
        code.read(Operation::Len, index, from);
        code.add(index, -1);
    }
    load_item(code, register, from, index, value_type);
    code.number(failure, 0);
    code.close();
    let registers = [index.0, from.0, 0];
    code.open_change(method.operation(), registers, index, Known::Number);
    code.close();
    code.usage.release(index);
}

/// Opens the part that has an item, and reads its number.
fn load_item(code: &mut Code, to: Register, from: Register, index: Register, value_type: TypeAt) {
    let is_text = value_type == TypeAt::TEXT;
    let known = if is_text {
        Known::Number
    } else {
        Known::Reference {
            class: code.class_of(from),
            value_type: TypeAt::INT,
            is_frozen: false,
        }
    };
    let registers = [to.0, from.0, index.0];
    code.open(Operation::At, registers, Operand::Plain(0), to, known);
    if !is_text {
        code.read(Operation::Load, to, to);
    }
}
