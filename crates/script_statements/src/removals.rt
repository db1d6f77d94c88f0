//! Statements that remove places: `delete`, `clear` and `shrink`.

use client_code::Operation;
use script_code::{
    Class, Code, Emitter, ErrorKind, Key, Known, NONE, Object, ObjectKind, Operand, Place,
    Register, Removed, Root, Shape, Task, TypeAt, close_walk, free_key, key_register, kind_of,
    last_step, steps_of, use_object,
};
use script_syntax::{
    Container, ExpressionAt, Span, StatementAt, StatementKind, Step, StepKind, Tree,
};

pub fn begin_delete(
    emitter: &mut Emitter,
    tree: &Tree<'_>,
    statement: StatementAt,
    at: ExpressionAt,
) {
    let span = emitter.span_of(tree, at);
    let Some(steps) = steps_of(tree, at, 0) else {
        return emitter.error(span, ErrorKind::DELETED_VALUE);
    };
    let steps = tree.steps(steps);
    let found = deleted_object(emitter, tree, span);
    if let Some((object, ObjectKind::Array(_))) = found {
        match steps.len() {
            0 => return delete_object(emitter, object, None, span),
            1 => return emitter.error(span, ErrorKind::ARRAY_DELETED_WHOLE),
            _ => {}
        }
    }
    let most_steps = match found {
        Some((_, ObjectKind::Family)) => 1,
        _ => 0,
    };
    if found.is_some() && steps.len() <= most_steps {
        return emitter.then_place(at, Task::DoDelete(statement));
    }
    begin_delete_item(emitter, tree, statement, at, steps)
}

/// The object with a name, and its kind. A local name hides an object.
fn deleted_object(emitter: &Emitter, tree: &Tree<'_>, span: Span) -> Option<(usize, ObjectKind)> {
    let word = tree.word(span);
    if emitter.names.find(tree, word).is_some() {
        return None;
    }
    let at = emitter.program.object_named(tree, word)?;
    Some((at, kind_of(&emitter.program, at)?))
}

fn begin_delete_item(
    emitter: &mut Emitter,
    tree: &Tree<'_>,
    statement: StatementAt,
    at: ExpressionAt,
    steps: &[Step],
) {
    let Some(step) = steps.last() else {
        return emitter.error_at(tree, at, ErrorKind::DELETED_VALUE);
    };
    match step.kind {
        StepKind::Index(key) => begin_delete_key(emitter, tree, statement, at, key),
        _ => emitter.error_at(tree, at, ErrorKind::DELETED_VALUE),
    }
}

fn begin_delete_key(
    emitter: &mut Emitter,
    tree: &Tree<'_>,
    statement: StatementAt,
    at: ExpressionAt,
    key: ExpressionAt,
) {
    emitter.then(&[Task::Place(at, 1), Task::DoDeleteKey(statement)]);
    if emitter.known_number(tree, key).is_none() {
        return emitter.push_task(Task::Evaluate(key, None));
    }
}

/// Deletes a key of the last place.
pub fn delete_key(emitter: &mut Emitter, tree: &Tree<'_>, statement: StatementAt) {
    let Some(found) = tree.statement(statement) else {
        return;
    };
    let StatementKind::Delete(at) = found.kind else {
        return;
    };
    let mut place = emitter.pop_place();
    let Some(
        Step {
            span,
            kind: StepKind::Index(key),
        },
    ) = last_step(tree, at)
    else {
        return emitter.skip();
    };
    let key = last_key(emitter, tree, key);
    emitter.enter_content(&mut place);
    if !emitter.program.types.shape(place.value_type).is_map() {
        return emitter.type_error(span, ErrorKind::DELETED_ITEM, place.value_type);
    }
    emitter.check_changeable(&place);
    emitter.remove(&place, Removed::Key(key), found.span);
    emit_delete_key(emitter, &place, key)
}

/// The key that an expression is, or that was worked out last.
fn last_key(emitter: &mut Emitter, tree: &Tree<'_>, key: ExpressionAt) -> Key {
    match emitter.known_number(tree, key) {
        Some(value) => Key::Literal(value),
        None => Key::Register(emitter.pop_value().register),
    }
}

fn emit_delete_key(emitter: &mut Emitter, place: &Place, key: Key) {
    if let Key::Register(register) = key {
        emitter.code.usage.hold(register);
    }
    let walk = emitter.walk(place, false);
    let (register, is_own) = key_register(&mut emitter.code, key);
    let result = emitter.code.take();
    emitter
        .code
        .compute(Operation::DeleteKey, result, walk.register, register);
    emitter.code.end_others(walk.register);
    emitter.code.usage.free(result);
    free_key(&mut emitter.code, register, is_own);
    if let Key::Register(register) = key {
        emitter.code.usage.release(register);
    }
    close_walk(&mut emitter.code, &walk)
}

/// Deletes the object that the last place is.
pub fn delete_whole(emitter: &mut Emitter, tree: &Tree<'_>, statement: StatementAt) {
    let Some(found) = tree.statement(statement) else {
        return;
    };
    let place = emitter.pop_place();
    match place.root {
        Root::Object(object) if place.len() == 0 && !place.is_length => {
            delete_object(emitter, object, None, place.span)
        }
        Root::Element(object, key) if place.len() == 0 => {
            delete_object(emitter, object, Some(key), place.span)
        }
        _ => emitter.error(found.span, ErrorKind::DELETED_VALUE),
    }
}

fn delete_object(emitter: &mut Emitter, object: usize, key: Option<Key>, span: Span) {
    use_object(&mut emitter.program, object);
    let Some(found) = emitter.program.object(object) else {
        return;
    };
    let root = match key {
        Some(key) => Root::Element(object, key),
        None => Root::Object(object),
    };
    let place = Place {
        root,
        value_type: found.value_type,
        span,
        ..Place::NONE
    };
    let here = emitter.code.span;
    emitter.remove(&place, Removed::Whole, here);
    let result = emitter.code.take();
    match found.kind {
        ObjectKind::Unique => emit_kill_unique(&mut emitter.code, found.value_type, result),
        _ => emit_kill(&mut emitter.code, found, key, result),
    }
    emitter.code.set_number(result);
}

fn emit_kill_unique(code: &mut Code, value_type: TypeAt, to: Register) {
    let operand = Operand::Type(value_type);
    code.emit(Operation::KillUnique, [to.0, 0, 0], operand);
    code.end_class(Class::Unique(value_type))
}

fn emit_kill(code: &mut Code, object: Object, key: Option<Key>, to: Register) {
    let number = match key {
        Some(key) => {
            let (register, _) = key_register(code, key);
            register.0
        }
        None => NONE,
    };
    let operand = Operand::Named(object.value_type, object.constant);
    code.emit(Operation::Kill, [to.0, number, 0], operand);
    code.end_class(Class::Named(object.constant))
}

pub fn clear(emitter: &mut Emitter, tree: &Tree<'_>, statement: StatementAt, at: ExpressionAt) {
    let Some(found) = tree.statement(statement) else {
        return;
    };
    let place = emitter.pop_place();
    if place.is_length || matches!(place.root, Root::Number(_)) {
        return emitter.error_at(tree, at, ErrorKind::NUMBER_CLEARED);
    }
    emitter.check_changeable(&place);
    emitter.remove(&place, Removed::Below, found.span);
    let walk = emitter.walk(&place, false);
    if emitter.code.known(walk.register) == Known::Number {
        return emitter.error_at(tree, at, ErrorKind::NUMBER_CLEARED);
    }
    emitter.code.act(Operation::Clear, walk.register, 0);
    emitter.code.end_others(walk.register);
    close_walk(&mut emitter.code, &walk)
}

pub fn shrink(emitter: &mut Emitter, tree: &Tree<'_>, at: ExpressionAt) {
    let place = emitter.pop_place();
    let is_buffer = matches!(
        emitter.program.types.shape(place.value_type),
        Shape::Text | Shape::Of(Container::Vec | Container::FlatMap, _)
    );
    if place.is_length || !is_buffer {
        let span = emitter.span_of(tree, at);
        return emitter.type_error(span, ErrorKind::SHRINK_OF, place.value_type);
    }
    emitter.check_changeable(&place);
    let walk = emitter.walk(&place, false);
    emitter.code.act(Operation::Shrink, walk.register, 0);
    close_walk(&mut emitter.code, &walk)
}
