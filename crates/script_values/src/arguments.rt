//! Calls of functions: arguments and parameters.

use script_code::{
    About, COUNT, Code, Emitter, ErrorKind, Function, Meaning, Register, Task, TypeAt,
    near_function, plain_name, steps_of,
};
use script_syntax::{Block, Expression, ExpressionAt, ExpressionKind, Field, Range, Span, Tree};

/// The call of a function that is being compiled.
#[derive(Clone, Copy)]
pub struct Call {
    /// The function's position.
    pub function: usize,
    pub body: Block,
    /// The function's number, if it gives one.
    pub result: Option<Register>,
    /// Whether its number is used.
    pub wants_value: bool,
    /// The position where the names of its parameters begin.
    pub names: usize,
    /// The first visible name outside.
    base: usize,
    /// The registers that are held during the call.
    held: [bool; COUNT],
}

/// The position of the function with a name. It is an error if there isn't one.
pub fn called_function(emitter: &mut Emitter, tree: &Tree<'_>, span: Span) -> Option<usize> {
    let word = tree.word(span);
    let found = emitter.program.function_named(tree, word);
    if found.is_none() {
        let near = near_function(&emitter.program, tree, word);
        emitter.error_about(span, ErrorKind::NO_FUNCTION, About::near(near));
    }
    found
}

/// Works out the arguments of a call next, and then calls the function with this position.
pub fn begin_call(
    emitter: &mut Emitter,
    tree: &Tree<'_>,
    position: usize,
    at: ExpressionAt,
    span: Span,
    arguments: Range,
    wants_value: bool,
) {
    let Some(function) = emitter.program.functions.get(position).copied() else {
        return emitter.skip();
    };
    let (fields, arguments) = (tree.fields(function.parameters), tree.arguments(arguments));
    if fields.len() != arguments.len() {
        let about = About::numbers(fields.len(), arguments.len());
        return emitter.error_about(span, ErrorKind::ARGUMENT_COUNT, about);
    }
    if wants_value && !function.gives_number {
        return emitter.error(span, ErrorKind::NO_RESULT);
    }
    let here = emitter.code.span;
    emitter.then(&[Task::Call(position, at, wants_value), Task::At(here)]);
    for at in (0..fields.len()).rev() {
        if let (Some(field), Some(argument)) = (fields.get(at), arguments.get(at)) {
            begin_argument(emitter, tree, function.body, *field, *argument);
        }
    }
}

/// Works out the argument for a parameter of a function with this body.
fn begin_argument(
    emitter: &mut Emitter,
    tree: &Tree<'_>,
    body: Block,
    field: Field,
    argument: ExpressionAt,
) {
    let wanted = parameter_type(emitter, tree, field);
    if wanted != TypeAt::INT {
        return begin_place_argument(emitter, tree, wanted, argument);
    }
    let is_named = plain_name(&emitter.names, tree, argument).is_some();
    if !is_named || emitter.assigns(tree, body, tree.word(field.name)) {
        emitter.push_task(Task::Fresh);
    }
    emitter.push_task(Task::Evaluate(argument, None))
}

fn begin_place_argument(
    emitter: &mut Emitter,
    tree: &Tree<'_>,
    wanted: TypeAt,
    argument: ExpressionAt,
) {
    if steps_of(tree, argument, 0).is_none() {
        let span = emitter.span_of(tree, argument);
        return emitter.type_error(span, ErrorKind::ARGUMENT_TYPE, wanted);
    }
    emitter.push_task(Task::Place(argument, 0))
}

fn parameter_type(emitter: &mut Emitter, tree: &Tree<'_>, field: Field) -> TypeAt {
    match emitter.written_type(tree, field.value_type) {
        Ok(found) => found,
        Err(_) => {
            emitter.skip();
            TypeAt::INT
        }
    }
}

/// Begins the call of a function whose arguments are worked out: binds its parameters.
pub fn enter_function(
    emitter: &mut Emitter,
    tree: &Tree<'_>,
    position: usize,
    at: ExpressionAt,
    wants_value: bool,
) -> Option<Call> {
    let Some(function) = emitter.program.functions.get(position).copied() else {
        emitter.skip();
        return None;
    };
    let (names, base) = (emitter.names.len(), emitter.names.base);
    let held = hold_temporaries(&mut emitter.code);
    bind_parameters(emitter, tree, function, at);
    emitter.names.base = names;
    let result = match function.gives_number {
        true => Some(emitter.code.literal_held(0)),
        false => None,
    };
    Some(Call {
        function: position,
        body: function.body,
        result,
        wants_value,
        names,
        base,
        held,
    })
}

/// Ends a call, and pushes the function's number, unless it isn't wanted.
pub fn leave_function(emitter: &mut Emitter, call: &Call) {
    emitter.names.base = call.base;
    keep_temporaries(&mut emitter.code, &call.held);
    match call.result {
        Some(result) if call.wants_value => {
            emitter.code.usage.keep(result);
            emitter.push_value(result, true)
        }
        Some(result) => emitter.code.usage.release(result),
        None => {}
    }
}

/// Keeps the registers that are in use, so that the function's statements don't take them.
fn hold_temporaries(code: &mut Code) -> [bool; COUNT] {
    let mut held = [false; COUNT];
    for index in 0..COUNT {
        let register = Register(index as u8);
        if code.usage.is_temporary(register) {
            code.usage.hold(register);
            held[index] = true;
        }
    }
    held
}

/// Ends what `hold_temporaries` began.
fn keep_temporaries(code: &mut Code, held: &[bool; COUNT]) {
    for index in 0..COUNT {
        if held[index] {
            code.usage.keep(Register(index as u8));
        }
    }
}

fn bind_parameters(emitter: &mut Emitter, tree: &Tree<'_>, function: Function, at: ExpressionAt) {
    let fields = tree.fields(function.parameters);
    let numbers = count_numbers(emitter, tree, fields);
    let places = fields.len().saturating_sub(numbers);
    let first_number = emitter.values.len().saturating_sub(numbers);
    let first_place = emitter.places.len().saturating_sub(places);
    let (mut number, mut place) = (first_number, first_place);
    for (index, field) in fields.iter().enumerate() {
        let wanted = parameter_type(emitter, tree, *field);
        if wanted == TypeAt::INT {
            bind_number_parameter(emitter, *field, number);
            number = number.saturating_add(1);
        } else {
            let span = argument_span(emitter, tree, at, index);
            bind_place_parameter(emitter, tree, function.body, *field, wanted, place, span);
            place = place.saturating_add(1);
        }
        emitter.use_last_name();
    }
    emitter.values.truncate(first_number);
    emitter.places.truncate(first_place);
}

/// How many parameters are numbers.
fn count_numbers(emitter: &mut Emitter, tree: &Tree<'_>, fields: &[Field]) -> usize {
    let mut numbers = 0usize;
    for field in fields {
        if parameter_type(emitter, tree, *field) == TypeAt::INT {
            numbers = numbers.saturating_add(1);
        }
    }
    numbers
}

/// The span of the argument with this number, or of the call.
fn argument_span(emitter: &Emitter, tree: &Tree<'_>, at: ExpressionAt, index: usize) -> Span {
    let argument = match tree.expression(at) {
        Some(
            Expression {
                kind: ExpressionKind::Call(arguments),
                ..
            },
        ) => tree.arguments(arguments).get(index).copied(),
        _ => None,
    };
    emitter.span_of(tree, argument.unwrap_or(at))
}

fn bind_number_parameter(emitter: &mut Emitter, field: Field, value: usize) {
    match emitter.values.get(value).copied() {
        Some(value) => emitter.bind(field.name, Meaning::number(value.register)),
        None => emitter.skip(),
    }
}

fn bind_place_parameter(
    emitter: &mut Emitter,
    tree: &Tree<'_>,
    body: Block,
    field: Field,
    wanted: TypeAt,
    place: usize,
    span: Span,
) {
    let Some(mut place) = emitter.places.get(place).copied() else {
        return emitter.skip();
    };
    let found = if place.is_length {
        TypeAt::INT
    } else {
        place.value_type
    };
    if found != wanted {
        let about = About::of_types(wanted, found);
        return emitter.error_about(span, ErrorKind::ARGUMENT_MISMATCH, about);
    }
    emitter.keep_keys(tree, &mut place, body);
    emitter.bind(
        field.name,
        Meaning::Place {
            place,
            register: None,
            stamp: 0,
        },
    )
}
