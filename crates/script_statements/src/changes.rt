//! Statements that change places.

use crate::lookups::is_variable;
use client_code::Operation;
use script_code::{
    About, Code, Emitter, Error, ErrorKind, Handler, Meaning, Names, Place, Program, Register,
    Removed, Root, Shape, Task, TypeAt, Value, WayKind, close_noting, last_way, plain_name,
};
use script_syntax::{
    BinaryOperator, Container, ExpressionAt, Item, Range, SetOperator, Span, Statement,
    StatementAt, StatementKind, Tree, ValueKind,
};

pub fn begin_set(emitter: &mut Emitter, tree: &Tree<'_>, statement: StatementAt) {
    let Some(found) = tree.statement(statement) else {
        return;
    };
    let StatementKind::Set { place, items, .. } = found.kind else {
        return;
    };
    if let Some(name) = plain_name(&emitter.names, tree, place) {
        if is_variable(&emitter.names, tree, place) {
            return begin_assign(emitter, tree, &found, name, items);
        }
    }
    if emitter.is_text(tree, place) {
        return emitter.then_place(place, Task::DoText(statement));
    }
    if is_own(emitter, tree, place) {
        return begin_put(emitter, tree, statement, &found, place, items);
    }
    emitter.push_task(Task::DoSet(statement));
    if let Ok(value) = only_value(tree, &found, items) {
        emitter.push_task(Task::Evaluate(value, None));
    }
    emitter.push_task(Task::Place(place, 0))
}

fn is_own(emitter: &Emitter, tree: &Tree<'_>, at: ExpressionAt) -> bool {
    match emitter.type_of(tree, at) {
        Some(found) => matches!(
            emitter.program.types.shape(found),
            Shape::Of(Container::Own, _)
        ),
        None => false,
    }
}

/// Sets a number with a name.
fn begin_assign(
    emitter: &mut Emitter,
    tree: &Tree<'_>,
    statement: &Statement,
    name: usize,
    items: Range,
) {
    let StatementKind::Set {
        place,
        operator,
        operator_span,
        ..
    } = statement.kind
    else {
        return;
    };
    let Some(found) = emitter.names.get(name) else {
        return emitter.skip();
    };
    let Meaning::Number {
        register,
        is_fixed,
        ..
    } = found.meaning
    else {
        return emitter.skip();
    };
    let span = emitter.span_of(tree, place);
    if is_fixed {
        return emitter.error(span, ErrorKind::LOOP_NAME);
    }
    if is_object(tree, items) {
        let about = About::name(span);
        return emitter.error_about(operator_span, ErrorKind::IS_NUMBER, about);
    }
    let value = match only_value(tree, statement, items) {
        Ok(value) => value,
        Err(error) => return emitter.fail(error),
    };
    emitter.names.use_name(name);
    emitter.names.lengthen(name);
    assign(
        emitter,
        tree,
        register,
        binary_of(operator),
        operator_span,
        place,
        value,
    )
}

/// Sets the number in a register, which is at this place, to a value, or changes it by one.
fn assign(
    emitter: &mut Emitter,
    tree: &Tree<'_>,
    register: Register,
    operator: Option<BinaryOperator>,
    operator_span: Span,
    place: ExpressionAt,
    value: ExpressionAt,
) {
    emitter.push_task(Task::MoveTo(register));
    let Some(operator) = operator else {
        return emitter.push_task(Task::Evaluate(value, Some(register)));
    };
    if matches!(operator, BinaryOperator::Divide | BinaryOperator::Remainder) {
        return emitter.begin_division(tree, operator_span, operator, place, value);
    }
    let number = Value {
        register,
        is_own: false,
    };
    emitter.then(&[
        Task::Push(number),
        Task::Evaluate(value, None),
        Task::Binary(operator, Some(register)),
    ])
}

/// Sets the number at the last place to the last number.
pub fn set_number(emitter: &mut Emitter, tree: &Tree<'_>, statement: StatementAt) {
    let Some(found) = tree.statement(statement) else {
        return;
    };
    let place = emitter.pop_place();
    check_settable(emitter, &found, &place);
    let StatementKind::Set {
        operator,
        items,
        ..
    } = found.kind
    else {
        return;
    };
    if let Err(error) = only_value(tree, &found, items) {
        return emitter.fail(error);
    }
    if matches!(operator, SetOperator::Divide | SetOperator::Remainder) {
        let span = operator_span(&found);
        return emitter.error(span, ErrorKind::ONLY_NAMED_NUMBERS);
    }
    let value = emitter.pop_value();
    emitter.code.usage.hold(value.register);
    let handler = place_handler(emitter, &found, &place);
    let code = emitter.code_register(&place, handler);
    let walk = emitter.walk(&place, true);
    store(&mut emitter.code, operator, walk.register, value.register);
    emitter.push_task(Task::Release(value.register));
    emitter.close_handling(&walk, handler, code)
}

/// Sets the number that a register refers to, or changes it by a value.
fn store(code: &mut Code, operator: SetOperator, target: Register, value: Register) {
    let operation = match operator {
        SetOperator::Add => Operation::Add,
        SetOperator::Subtract => Operation::Sub,
        SetOperator::Multiply => Operation::Mul,
        _ => return code.act(Operation::Store, target, value.0),
    };
    let sum = code.take();
    code.read(Operation::Load, sum, target);
    code.compute(operation, sum, sum, value);
    code.act(Operation::Store, target, sum.0);
    code.usage.free(sum);
}

/// What is done if the walk to a place fails. Nothing if it can't.
fn place_handler(emitter: &mut Emitter, statement: &Statement, place: &Place) -> Handler {
    if emitter.fallible(place) == 0 {
        return Handler::Nothing;
    }
    emitter.handler(statement)
}

fn check_settable(emitter: &mut Emitter, statement: &Statement, place: &Place) {
    let span = operator_span(statement);
    if place.is_length {
        return emitter.error(place.span, ErrorKind::LENGTH_SET);
    }
    let value_type = place.value_type;
    if value_type != TypeAt::INT {
        let kind = unset_kind(emitter.program.types.shape(value_type));
        return emitter.type_error(span, kind, value_type);
    }
    match last_way(&emitter.ways, place) {
        Some(WayKind::FirstKey | WayKind::NextKey(_)) => {
            emitter.error(place.span, ErrorKind::KEY_SET)
        }
        Some(WayKind::Byte(_)) => emitter.error(place.span, ErrorKind::BYTE_SET),
        _ => emitter.check_changeable(place),
    }
}

// Owned objects

fn begin_put(
    emitter: &mut Emitter,
    tree: &Tree<'_>,
    statement: StatementAt,
    found: &Statement,
    place: ExpressionAt,
    items: Range,
) {
    let StatementKind::Set { operator, .. } = found.kind else {
        return;
    };
    match tree.items(items) {
        [item] if operator == SetOperator::Set => {
            begin_move(emitter, tree, statement, place, item)
        }
        _ => emitter.error(operator_span(found), ErrorKind::ONLY_NUMBERS),
    }
}

fn begin_move(
    emitter: &mut Emitter,
    tree: &Tree<'_>,
    statement: StatementAt,
    place: ExpressionAt,
    item: &Item,
) {
    let owner = match item.value.kind {
        ValueKind::Expression(at) => plain_name(&emitter.names, tree, at),
        _ => None,
    };
    match owner {
        Some(owner) if owner_of(&emitter.names, owner).is_some() => {
            emitter.then_place(place, Task::DoPut(statement, owner))
        }
        _ => no_owner(emitter, tree, item.value.span, ErrorKind::OWNER_WANTED),
    }
}

/// Notes that an owned object is wanted, unless the statement that gives the name has an error.
fn no_owner(emitter: &mut Emitter, tree: &Tree<'_>, span: Span, kind: ErrorKind) {
    if is_unknown(&emitter.names, tree, span) {
        return emitter.skip();
    }
    emitter.error(span, kind)
}

/// Whether the statement that gives a name has an error.
fn is_unknown(names: &Names, tree: &Tree<'_>, span: Span) -> bool {
    let word = tree.word(span);
    match names.find(tree, word) {
        Some(at) => matches!(names.get(at), Some(name) if name.is_unknown()),
        None => false,
    }
}

/// The register and the type of the object that a name owns or owned.
fn owner_of(names: &Names, name: usize) -> Option<(Register, TypeAt)> {
    match names.get(name)?.meaning {
        Meaning::Owner {
            register,
            value_type,
        } => Some((register, value_type)),
        _ => None,
    }
}

/// Checks that a name owns an object of the wanted type, which isn't what the place is in.
fn check_owner(
    emitter: &mut Emitter,
    span: Span,
    name: usize,
    wanted: TypeAt,
    place: &Place,
    in_itself: ErrorKind,
) -> Register {
    let Some((register, found)) = owner_of(&emitter.names, name) else {
        emitter.error(span, ErrorKind::OWNER_WANTED);
        return Register(0);
    };
    if found != wanted {
        emitter.error_about(span, ErrorKind::MISMATCH, About::of_types(found, wanted));
    } else if place.root == Root::Owner(name) {
        emitter.error(span, in_itself);
    } else if !emitter.code.owns(register) {
        moved_error(emitter, span, name);
    } else {
        emitter.names.use_name(name);
        return register;
    }
    Register(0)
}

/// Notes that the object which a name owned was moved or dropped.
fn moved_error(emitter: &mut Emitter, span: Span, name: usize) {
    let line = match emitter.names.get(name) {
        Some(name) => name.span.line,
        None => span.line,
    };
    emitter.error_about(span, ErrorKind::MOVED, About::number(line))
}

/// Moves an owned object into the last place.
pub fn put_owned(emitter: &mut Emitter, tree: &Tree<'_>, statement: StatementAt, owner: usize) {
    let Some(found) = tree.statement(statement) else {
        return;
    };
    let place = emitter.pop_place();
    let Shape::Of(Container::Own, content) = emitter.program.types.shape(place.value_type) else {
        return emitter.skip();
    };
    let span = item_span(tree, &found);
    let register = check_owner(
        emitter,
        span,
        owner,
        content,
        &place,
        ErrorKind::OWNS_ITSELF,
    );
    emitter.check_changeable(&place);
    emitter.remove(&place, Removed::Below, found.span);
    let handler = place_handler(emitter, &found, &place);
    let code = emitter.code_unless_removed(&place, handler, true);
    let walk = emitter.walk(&place, true);
    emitter.code.act(Operation::Put, walk.register, register.0);
    emitter.code.end_others(walk.register);
    emitter.code.forget_owner(register);
    emitter.close_handling(&walk, handler, code)
}

/// Moves an owned object into the last place and freezes it.
pub fn freeze(emitter: &mut Emitter, tree: &Tree<'_>, statement: StatementAt) {
    let Some(found) = tree.statement(statement) else {
        return;
    };
    let StatementKind::Freeze { name, .. } = found.kind else {
        return;
    };
    let place = emitter.pop_place();
    let shape = emitter.program.types.shape(place.value_type);
    let Shape::Of(Container::Shared, content) = shape else {
        return emitter.type_error(place.span, ErrorKind::FREEZE_OF, place.value_type);
    };
    let Some(owner) = owner_named(&emitter.names, tree, name) else {
        return no_owner(emitter, tree, name, ErrorKind::NEW_WANTED);
    };
    let register = check_owner(
        emitter,
        name,
        owner,
        content,
        &place,
        ErrorKind::SHARES_ITSELF,
    );
    emitter.check_changeable(&place);
    let handler = emitter.handler(&found);
    emitter.remove(&place, Removed::Below, found.span);
    let code = emitter.code.literal_held(0);
    let walk = emitter.walk(&place, true);
    emit_freeze(&mut emitter.code, walk.register, register, code);
    emitter.close_coded(&walk, handler, code)
}

/// The local name with this spelling, if it owns or owned an object.
fn owner_named(names: &Names, tree: &Tree<'_>, span: Span) -> Option<usize> {
    let word = tree.word(span);
    let at = names.find(tree, word)?;
    match owner_of(names, at) {
        Some(_) => Some(at),
        None => None,
    }
}

/// Freezes an object. If that fails, the object is dropped, and a register is set to the code.
fn emit_freeze(code: &mut Code, place: Register, owner: Register, failure: Register) {
    let failed = code.take_held();
    code.open_freeze(failed, place, owner);
    code.begin_else();
    code.copy(failure, failed);
    code.drop_owner(owner);
    code.end_part();
    code.usage.release(failed);
}

pub fn begin_share(
    emitter: &mut Emitter,
    statement: StatementAt,
    place: ExpressionAt,
    source: ExpressionAt,
) {
    emitter.then(&[
        Task::Place(place, 0),
        Task::Place(source, 0),
        Task::DoShare(statement),
    ])
}

/// Makes the last place but one share what the last place shares.
pub fn share(emitter: &mut Emitter, tree: &Tree<'_>, statement: StatementAt) {
    let Some(found) = tree.statement(statement) else {
        return;
    };
    let source = emitter.pop_place();
    let place = emitter.pop_place();
    if !is_shared(&emitter.program, &place) {
        return emitter.type_error(place.span, ErrorKind::SHARE_OF, place.value_type);
    }
    if !is_shared(&emitter.program, &source) {
        return emitter.type_error(source.span, ErrorKind::SHARE_OF, source.value_type);
    }
    if place.value_type != source.value_type {
        let about = About::of_types(source.value_type, place.value_type);
        return emitter.error_about(source.span, ErrorKind::MISMATCH, about);
    }
    emitter.check_changeable(&place);
    emitter.remove(&place, Removed::Below, found.span);
    let handler = if emitter.fallible(&source) == 0 {
        place_handler(emitter, &found, &place)
    } else {
        emitter.handler(&found)
    };
    emit_share(emitter, &place, &source, handler)
}

fn is_shared(program: &Program, place: &Place) -> bool {
    matches!(
        program.types.shape(place.value_type),
        Shape::Of(Container::Shared, _)
    )
}

fn emit_share(emitter: &mut Emitter, place: &Place, source: &Place, handler: Handler) {
    let code = emitter.code.literal_held(0);
    let walk = emitter.walk(place, true);
    emitter.code.usage.hold(walk.register);
    let other = emitter.walk(source, false);
    emitter
        .code
        .act(Operation::Share, walk.register, other.register.0);
    emitter.code.end_others(walk.register);
    close_noting(&mut emitter.code, &other, code);
    emitter.code.usage.release(walk.register);
    emitter.close_coded(&walk, handler, code)
}

/// The error of setting a value with this shape, which isn't a number.
fn unset_kind(shape: Shape) -> ErrorKind {
    match shape {
        Shape::Of(Container::Shared, _) => ErrorKind::SHARED_SET,
        Shape::Struct(_) => ErrorKind::STRUCT_SET,
        _ => ErrorKind::CONTAINER_SET,
    }
}

/// The span of an assignment's operator.
fn operator_span(statement: &Statement) -> Span {
    match statement.kind {
        StatementKind::Set { operator_span, .. } => operator_span,
        _ => statement.span,
    }
}

/// The operator of an assignment that also reads.
fn binary_of(operator: SetOperator) -> Option<BinaryOperator> {
    match operator {
        SetOperator::Set => None,
        SetOperator::Add => Some(BinaryOperator::Add),
        SetOperator::Subtract => Some(BinaryOperator::Subtract),
        SetOperator::Multiply => Some(BinaryOperator::Multiply),
        SetOperator::Divide => Some(BinaryOperator::Divide),
        SetOperator::Remainder => Some(BinaryOperator::Remainder),
    }
}

/// The one number of an assignment.
fn only_value(tree: &Tree<'_>, statement: &Statement, items: Range) -> Result<ExpressionAt, Error> {
    let (span, kind) = match tree.items(items) {
        [item] => match item.value.kind {
            ValueKind::Expression(at) if item.width.is_none() => return Ok(at),
            ValueKind::Expression(_) => (item.value.span, ErrorKind::MISPLACED_WIDTH),
            _ => (operator_span(statement), ErrorKind::SEVERAL_VALUES),
        },
        _ => (operator_span(statement), ErrorKind::SEVERAL_VALUES),
    };
    Err(Error::at(span, kind))
}

/// Whether an assignment's only item is `new` or `take`.
fn is_object(tree: &Tree<'_>, items: Range) -> bool {
    match tree.items(items) {
        [item] => !matches!(item.value.kind, ValueKind::Expression(_)),
        _ => false,
    }
}

/// The span of the first item of an assignment.
fn item_span(tree: &Tree<'_>, statement: &Statement) -> Span {
    let StatementKind::Set { items, .. } = statement.kind else {
        return statement.span;
    };
    match tree.items(items).first() {
        Some(item) => item.value.span,
        None => statement.span,
    }
}
