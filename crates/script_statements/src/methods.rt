//! Pushes and pops.

use client_code::Operation;
use script_code::{
    Code, Emitter, ErrorKind, Handler, Known, Operand, Place, Program, Register, Removed, Shape,
    Task, TypeAt, Walk, last_step, own_handler,
};
use script_syntax::{
    Container, ExpressionAt, Range, Span, Statement, StatementAt, StatementKind, StepKind, Tree,
};

/// A push or a pop of a container.
#[derive(Clone, Copy)]
pub enum Method {
    Push,
    PushFront,
    Pop,
    PopFront,
}

static METHODS: [(&str, Method); 4] = [
    ("push", Method::Push),
    ("push_front", Method::PushFront),
    ("pop", Method::Pop),
    ("pop_front", Method::PopFront),
];

impl Method {
    fn named(word: &[u8]) -> Option<Method> {
        for (spelling, method) in &METHODS {
            if spelling.as_bytes() == word {
                return Some(*method);
            }
        }
        None
    }

    /// The operation on a container whose items aren't bytes.
    pub fn operation(self) -> Operation {
        match self {
            Method::Push => Operation::PushBack,
            Method::PushFront => Operation::PushFront,
            Method::Pop => Operation::PopBack,
            Method::PopFront => Operation::PopFront,
        }
    }

    fn is_push(self) -> bool {
        matches!(self, Method::Push | Method::PushFront)
    }

    /// Whether it is at the end of the container, and not at its front.
    pub fn is_back(self) -> bool {
        matches!(self, Method::Push | Method::Pop)
    }
}

/// Works out a method's value and its place, and then the method. The item may get a name.
pub fn begin_method(
    emitter: &mut Emitter,
    tree: &Tree<'_>,
    at: ExpressionAt,
    statement: StatementAt,
    is_named: bool,
) {
    let Some((span, arguments)) = method_of(tree, at) else {
        return emitter.error_at(tree, at, ErrorKind::NO_METHOD);
    };
    let Some(method) = Method::named(tree.word(span)) else {
        return emitter.error(span, ErrorKind::NO_METHOD);
    };
    let value = match value_of(tree.arguments(arguments), method.is_push()) {
        Ok(value) => value,
        Err(kind) => return emitter.error(span, kind),
    };
    let task = method_task(statement, is_named, method.is_push(), value.is_some());
    emitter.then(&[Task::Place(at, 1), task]);
    if let Some(value) = value {
        emitter.push_task(Task::Evaluate(value, None));
    }
}

/// The last place, where a method is done whose name has this span, and the type of its items.
pub fn method_place(
    emitter: &mut Emitter,
    span: Span,
    method: Method,
    has_value: bool,
) -> (Place, TypeAt) {
    let mut place = emitter.pop_place();
    emitter.enter_content(&mut place);
    let item = match item_for(&emitter.program, method, place.value_type) {
        Some(item) if has_value && item != TypeAt::INT => {
            emitter.type_error(span, ErrorKind::ITEM_IS_NO, item);
            TypeAt::INT
        }
        Some(item) => item,
        None => {
            emitter.type_error(span, ErrorKind::WRONG_METHOD, place.value_type);
            TypeAt::INT
        }
    };
    (place, item)
}

/// The type of the items of a container that has a method.
fn item_for(program: &Program, method: Method, container: TypeAt) -> Option<TypeAt> {
    let shape = program.types.shape(container);
    let is_list = matches!(shape, Shape::Of(Container::List, _));
    if is_list || (method.is_back() && shape.is_sequence()) {
        return shape.item();
    }
    None
}

/// A method of the last place, whose item gets no name.
pub fn do_method(emitter: &mut Emitter, tree: &Tree<'_>, statement: StatementAt, has_value: bool) {
    let Some(found) = tree.statement(statement) else {
        return;
    };
    let StatementKind::Call(at) = found.kind else {
        return;
    };
    let Some((span, method)) = method_at(tree, at) else {
        return emitter.skip();
    };
    let (place, item) = method_place(emitter, span, method, has_value);
    emitter.check_changeable(&place);
    if !matches!(method, Method::Push) {
        emitter.remove(&place, Removed::Below, found.span);
    }
    let value = hold_pushed(emitter, has_value);
    let handler = method_handler(emitter, &found, method);
    walk_method(emitter, method, &place, value, item, handler)
}

/// Goes to a place, and does a method there.
fn walk_method(
    emitter: &mut Emitter,
    method: Method,
    place: &Place,
    value: Option<Register>,
    item: TypeAt,
    handler: Handler,
) {
    let code = emitter.code.literal_held(0);
    let walk = emitter.walk(place, method.is_push());
    emit_method(emitter, method, &walk, place, value, item, code);
    emitter.close_coded(&walk, handler, code)
}

/// What is done if a method fails. A pop from nothing isn't told.
fn method_handler(emitter: &mut Emitter, statement: &Statement, method: Method) -> Handler {
    if method.is_push() {
        return emitter.handler(statement);
    }
    own_handler(statement)
}

/// Emits a push or a pop at the end of a walk. If it fails, a register is set to the code.
fn emit_method(
    emitter: &mut Emitter,
    method: Method,
    walk: &Walk,
    place: &Place,
    value: Option<Register>,
    item: TypeAt,
    code: Register,
) {
    let failed = emitter.code.take_held();
    if method.is_push() {
        push_item(emitter, method, failed, walk, place, value, item);
    } else {
        pop_item(&mut emitter.code, method, failed, walk);
    }
    emitter.code.close_noting(failed, code);
    emitter.code.usage.release(failed);
    if let Some(value) = value {
        emitter.code.usage.release(value);
    }
}

/// Opens the part of an item that is removed.
fn pop_item(code: &mut Code, method: Method, register: Register, walk: &Walk) {
    let registers = [register.0, walk.register.0, 0];
    code.open_change(method.operation(), registers, register, Known::Number)
}

/// Opens the part of an item that is pushed, and sets it.
fn push_item(
    emitter: &mut Emitter,
    method: Method,
    register: Register,
    walk: &Walk,
    place: &Place,
    value: Option<Register>,
    item: TypeAt,
) {
    if place.value_type == TypeAt::TEXT {
        let Some(value) = value else {
            return emitter.error(place.span, ErrorKind::BYTE_WANTED);
        };
        let registers = [register.0, walk.register.0, value.0];
        return emitter.code.open(
            Operation::AddByte,
            registers,
            Operand::Plain(0),
            register,
            Known::Number,
        );
    }
    open_push(&mut emitter.code, method, register, walk, item);
    if let Some(value) = value {
        emitter.code.act(Operation::Store, register, value.0);
    }
}

/// The task that does a method.
fn method_task(statement: StatementAt, is_named: bool, is_push: bool, has_value: bool) -> Task {
    if !is_named {
        return Task::DoMethod(statement, has_value);
    }
    if is_push {
        return Task::DoPush(statement, has_value);
    }
    Task::DoPop(statement)
}

/// The value among a method's arguments, if it has one. Only a push may have one.
fn value_of(arguments: &[ExpressionAt], is_push: bool) -> Result<Option<ExpressionAt>, ErrorKind> {
    match arguments {
        [] => Ok(None),
        [value] if is_push => Ok(Some(*value)),
        _ if is_push => Err(ErrorKind::ONE_VALUE),
        _ => Err(ErrorKind::NO_VALUE),
    }
}

/// Keeps the register of the number to push, if there is one.
pub fn hold_pushed(emitter: &mut Emitter, has_value: bool) -> Option<Register> {
    if !has_value {
        return None;
    }
    let register = emitter.pop_value().register;
    emitter.code.usage.hold(register);
    Some(register)
}

/// Opens the part of a pushed item.
pub fn open_push(code: &mut Code, method: Method, register: Register, walk: &Walk, item: TypeAt) {
    let known = Known::Reference {
        class: code.class_of(walk.register),
        value_type: item,
        is_frozen: false,
    };
    let registers = [register.0, walk.register.0, 0];
    code.open_change(method.operation(), registers, register, known)
}

/// The name and the arguments of the method at the end of a place.
fn method_of(tree: &Tree<'_>, at: ExpressionAt) -> Option<(Span, Range)> {
    let step = last_step(tree, at)?;
    match step.kind {
        StepKind::Method(arguments) => Some((step.span, arguments)),
        _ => None,
    }
}

/// The push or pop at the end of a place, and the span of its name.
pub fn method_at(tree: &Tree<'_>, at: ExpressionAt) -> Option<(Span, Method)> {
    let step = last_step(tree, at)?;
    let method = Method::named(tree.word(step.span))?;
    Some((step.span, method))
}
