//! Declarations: constants, structs, objects, functions and the `fail` part.

use script_code::{
    About, Code, Emitter, Error, ErrorKind, Function, Member, NamedValue, Object, ObjectKind,
    Problem, Program, Shape, StructAt, StructType, TypeAt, append, constant_kind, near_struct,
};
use script_syntax::{
    Block, Declaration, DeclarationKind, ExpressionAt, Range, Span, Statement, StatementKind, Tree,
    Type,
};

/// The most bytes of an object's name.
const LONGEST_NAME: usize = 63;

/// The most bytes of the name of a family.
const LONGEST_FAMILY: usize = 42;

/// How many blocks the search of a `fail` part visits.
const MOST_BLOCKS: usize = 1_000_000;

/// How many blocks may be in each other. Names are looked up one by one, so deeper ones would be slow.
const MOST_NESTED: usize = 1_000;

/// Reads all declarations, and reports their errors.
pub fn declare(emitter: &mut Emitter, tree: &Tree<'_>) {
    check_nesting(emitter, tree);
    for declaration in tree.declarations() {
        declare_name(emitter, tree, *declaration);
    }
    find_values(emitter, tree);
    for declaration in tree.declarations() {
        declare_fields(emitter, tree, *declaration);
        report_noted(emitter);
    }
    check_structs(emitter);
    for declaration in tree.declarations() {
        declare_object(emitter, tree, *declaration);
        report_noted(emitter);
    }
}

/// Reports blocks that are too deep in each other.
fn check_nesting(emitter: &mut Emitter, tree: &Tree<'_>) {
    let mut waiting = Vec::new(emitter.alloc);
    add_outermost(&mut emitter.code, tree, &mut waiting);
    for _ in 0..MOST_BLOCKS {
        let Some(visited) = waiting.pop() else {
            return;
        };
        let block = visited.block;
        if visited.depth > MOST_NESTED {
            return report_nested(emitter, tree, block);
        }
        let code = &mut emitter.code;
        add_nested(code, tree, &mut waiting, block.statements, &visited);
        add_nested(code, tree, &mut waiting, block.following, &visited);
    }
}

/// Adds the outermost blocks of the program.
fn add_outermost(code: &mut Code, tree: &Tree<'_>, waiting: &mut Vec<Visited>) {
    append(waiting, Visited::outermost(tree.body()), &mut code.trouble);
    for declaration in tree.declarations() {
        match declaration.kind {
            DeclarationKind::Fail(block) | DeclarationKind::Function { body: block, .. } => {
                append(waiting, Visited::outermost(block), &mut code.trouble)
            }
            _ => {}
        }
    }
}

/// Adds the blocks of the statements of a visited block.
fn add_nested(
    code: &mut Code,
    tree: &Tree<'_>,
    waiting: &mut Vec<Visited>,
    range: Range,
    visited: &Visited,
) {
    for statement in tree.statements(range) {
        add_blocks(code, waiting, statement, visited);
    }
}

/// Adds the blocks of a statement of a visited block.
fn add_blocks(
    code: &mut Code,
    waiting: &mut Vec<Visited>,
    statement: &Statement,
    visited: &Visited,
) {
    let depth = visited.depth.saturating_add(1);
    if let Some(block) = statement.body {
        let is_in_loop = visited.is_in_loop || is_loop(statement.kind);
        let body = Visited {
            block,
            depth,
            is_in_loop,
        };
        append(waiting, body, &mut code.trouble);
    }
    if let Some(part) = statement.otherwise {
        let otherwise = Visited {
            block: part.block,
            depth,
            is_in_loop: visited.is_in_loop,
        };
        append(waiting, otherwise, &mut code.trouble);
    }
}

fn report_nested(emitter: &mut Emitter, tree: &Tree<'_>, block: Block) {
    if let Some(statement) = tree.statements(block.statements).first() {
        report_at(emitter, statement.span, ErrorKind::NESTED)
    }
}

/// Reports an error that was noted, and continues.
fn report_noted(emitter: &mut Emitter) {
    if let Some(Problem::Error(error)) = emitter.code.trouble.take() {
        emitter.report(error);
    }
}

fn report_at(emitter: &mut Emitter, span: Span, kind: ErrorKind) {
    emitter.report(Error::at(span, kind))
}

fn report_about(emitter: &mut Emitter, span: Span, kind: ErrorKind, about: About) {
    emitter.report(Error { span, kind, about })
}

/// Reports a name which is declared already.
fn check_new(emitter: &mut Emitter, tree: &Tree<'_>, span: Span) {
    if let Some((kind, line)) = emitter.program.declared(tree, tree.word(span)) {
        report_about(emitter, span, kind, About::number(line))
    }
}

/// Declares what other declarations may use.
fn declare_name(emitter: &mut Emitter, tree: &Tree<'_>, declaration: Declaration) {
    let name = declaration.span;
    if let DeclarationKind::Fail(block) = declaration.kind {
        return declare_fail(emitter, tree, name, block);
    }
    check_new(emitter, tree, name);
    let program = &mut emitter.program;
    let code = &mut emitter.code;
    match declaration.kind {
        DeclarationKind::Constant(expression) => {
            let value = NamedValue {
                name,
                expression,
                value: None,
            };
            append(&mut program.values, value, &mut code.trouble)
        }
        DeclarationKind::Struct(_) => {
            let (first, end) = (0, 0);
            let added = StructType { name, first, end };
            append(&mut program.types.structs, added, &mut code.trouble)
        }
        DeclarationKind::Function {
            parameters,
            gives_number,
            body,
        } => {
            let function = Function {
                name,
                parameters,
                gives_number,
                body,
            };
            append(&mut program.functions, function, &mut code.trouble)
        }
        kind => {
            let object = new_object(code, tree, name, object_kind(kind));
            append(&mut program.objects, object, &mut code.trouble)
        }
    }
}

/// An object whose type isn't known yet.
fn new_object(code: &mut Code, tree: &Tree<'_>, name: Span, kind: ObjectKind) -> Object {
    Object {
        name,
        kind,
        value_type: TypeAt::INT,
        constant: code.constant(constant_kind(kind), tree.word(name)),
        is_used: false,
    }
}

fn declare_fail(emitter: &mut Emitter, tree: &Tree<'_>, span: Span, block: Block) {
    if emitter.program.fail.is_some() {
        return report_at(emitter, span, ErrorKind::SECOND_FAIL);
    }
    emitter.program.fail = Some(block);
    check_leaving(emitter, tree, block)
}

/// Reports what would leave the statement that a `fail` part is used in.
fn check_leaving(emitter: &mut Emitter, tree: &Tree<'_>, block: Block) {
    let mut waiting = Vec::new(emitter.alloc);
    append(
        &mut waiting,
        Visited::outermost(block),
        &mut emitter.code.trouble,
    );
    for _ in 0..MOST_BLOCKS {
        let Some(visited) = waiting.pop() else {
            return;
        };
        let block = visited.block;
        check_statements(emitter, tree, &mut waiting, block.statements, &visited);
        check_statements(emitter, tree, &mut waiting, block.following, &visited);
    }
}

fn check_statements(
    emitter: &mut Emitter,
    tree: &Tree<'_>,
    waiting: &mut Vec<Visited>,
    range: Range,
    visited: &Visited,
) {
    for statement in tree.statements(range) {
        let leaves = match statement.kind {
            StatementKind::Return(_) => true,
            StatementKind::Break | StatementKind::Continue => !visited.is_in_loop,
            _ => false,
        };
        if leaves {
            report_at(emitter, statement.span, ErrorKind::LEAVES_FAIL);
        }
        add_blocks(&mut emitter.code, waiting, statement, visited);
    }
}

/// Works out the constants, in any order.
fn find_values(emitter: &mut Emitter, tree: &Tree<'_>) {
    for _ in 0..emitter.program.values.len() {
        if !find_more_values(emitter, tree) {
            break;
        }
    }
    for at in 0..emitter.program.values.len() {
        let _ = find_value(emitter, tree, at, true);
    }
}

/// Works out the constants that depend on known ones. Returns false if there aren't any.
fn find_more_values(emitter: &mut Emitter, tree: &Tree<'_>) -> bool {
    let mut finds = false;
    for at in 0..emitter.program.values.len() {
        finds = find_value(emitter, tree, at, false) || finds;
    }
    finds
}

/// Works out a constant, if it has no value yet. Returns whether it gets one.
fn find_value(emitter: &mut Emitter, tree: &Tree<'_>, at: usize, reports: bool) -> bool {
    let Some(found) = emitter.program.values.get(at).copied() else {
        return false;
    };
    if found.value.is_some() {
        return false;
    }
    match emitter.fold(tree, found.expression) {
        Ok(value) => {
            if let Some(found) = emitter.program.values.get_mut(at) {
                found.value = Some(value);
            }
            true
        }
        Err(error) => {
            if reports {
                emitter.report(error);
            }
            false
        }
    }
}

/// Declares the fields of a struct.
fn declare_fields(emitter: &mut Emitter, tree: &Tree<'_>, declaration: Declaration) {
    let DeclarationKind::Struct(fields) = declaration.kind else {
        return;
    };
    let written = tree.fields(fields);
    if written.is_empty() || written.len() > 8 {
        report_about(
            emitter,
            declaration.span,
            ErrorKind::FIELD_COUNT,
            About::number(written.len()),
        );
    }
    let first = emitter.program.types.members.len();
    for field in written {
        check_field(emitter, tree, field.name, first);
        add_field(emitter, tree, field.name, field.value_type);
    }
    set_fields(&mut emitter.program, tree, declaration.span, first)
}

fn add_field(emitter: &mut Emitter, tree: &Tree<'_>, name: Span, written: Type) {
    let value_type = type_or_int(emitter, tree, written);
    append(
        &mut emitter.program.types.members,
        Member { name, value_type },
        &mut emitter.code.trouble,
    )
}

/// The fields from a position on are those of the struct with this name.
fn set_fields(program: &mut Program, tree: &Tree<'_>, name: Span, first: usize) {
    let end = program.types.members.len();
    let word = tree.word(name);
    if let Some(StructAt(at)) = program.types.struct_named(tree, word) {
        if let Some(found) = program.types.structs.get_mut(at) {
            found.first = first;
            found.end = end;
        }
    }
}

/// Reports a second field with a name.
fn check_field(emitter: &mut Emitter, tree: &Tree<'_>, name: Span, first: usize) {
    for at in first..emitter.program.types.members.len() {
        if let Some(member) = emitter.program.types.members.get(at).copied() {
            if tree.word(member.name) == tree.word(name) {
                return report_at(emitter, name, ErrorKind::DUPLICATE_FIELD);
            }
        }
    }
}

/// The type that is written, or `int` if a struct in it isn't declared.
fn type_or_int(emitter: &mut Emitter, tree: &Tree<'_>, written: Type) -> TypeAt {
    match emitter.written_type(tree, written) {
        Ok(found) => found,
        Err(span) => {
            let near = near_struct(&emitter.program, tree, tree.word(span));
            report_about(emitter, span, ErrorKind::NO_TYPE, About::near(near));
            TypeAt::INT
        }
    }
}

/// Reports each field by which a struct would lie in itself. Its type becomes `int`.
fn check_structs(emitter: &mut Emitter) {
    for at in 0..emitter.program.types.structs.len() {
        let Some(found) = emitter.program.types.structs.get(at).copied() else {
            continue;
        };
        for member in found.first..found.end {
            if lies_in(emitter, member, StructAt(at)) {
                cut_field(emitter, member);
            }
        }
    }
}

fn cut_field(emitter: &mut Emitter, member: usize) {
    let Some(found) = emitter.program.types.members.get_mut(member) else {
        return;
    };
    found.value_type = TypeAt::INT;
    let span = found.name;
    report_at(emitter, span, ErrorKind::CONTAINS_ITSELF)
}

/// Whether a field's value contains a struct, without an `own` or a container between.
fn lies_in(emitter: &mut Emitter, member: usize, wanted: StructAt) -> bool {
    let mut waiting = Vec::new(emitter.alloc);
    append(&mut waiting, member, &mut emitter.code.trouble);
    for _ in 0..MOST_BLOCKS {
        let Some(member) = waiting.pop() else {
            return false;
        };
        if let Some(inner) = struct_of(&emitter.program, member) {
            if inner == wanted {
                return true;
            }
            add_members(emitter, &mut waiting, inner);
        }
    }
    true
}

/// The struct that a field is.
fn struct_of(program: &Program, member: usize) -> Option<StructAt> {
    let found = program.types.members.get(member)?;
    match program.types.shape(found.value_type) {
        Shape::Struct(inner) => Some(inner),
        _ => None,
    }
}

fn add_members(emitter: &mut Emitter, waiting: &mut Vec<usize>, at: StructAt) {
    let Some(found) = emitter.program.types.structs.get(at.0).copied() else {
        return;
    };
    for member in found.first..found.end {
        append(waiting, member, &mut emitter.code.trouble);
    }
}

/// Finds the type and the name of an object, and the types of a function's parameters.
fn declare_object(emitter: &mut Emitter, tree: &Tree<'_>, declaration: Declaration) {
    let (value_type, kind, segment_name) = match declaration.kind {
        DeclarationKind::Object {
            value_type,
            count,
            segment_name,
        } => {
            let kind = single_or_array(emitter, tree, declaration.span, count);
            (value_type, kind, segment_name)
        }
        DeclarationKind::Family {
            value_type,
            segment_name,
        } => (value_type, ObjectKind::Family, segment_name),
        DeclarationKind::Unique(value_type) => (value_type, ObjectKind::Unique, None),
        DeclarationKind::Function { parameters, .. } => {
            return check_parameters(emitter, tree, parameters);
        }
        DeclarationKind::Constant(_) | DeclarationKind::Struct(_) | DeclarationKind::Fail(_) => {
            return;
        }
    };
    set_object(
        emitter,
        tree,
        declaration.span,
        value_type,
        kind,
        segment_name,
    )
}

/// Finds the types of a function's parameters.
fn check_parameters(emitter: &mut Emitter, tree: &Tree<'_>, parameters: Range) {
    for field in tree.fields(parameters) {
        let _ = type_or_int(emitter, tree, field.value_type);
    }
}

fn single_or_array(
    emitter: &mut Emitter,
    tree: &Tree<'_>,
    span: Span,
    count: Option<ExpressionAt>,
) -> ObjectKind {
    let Some(count) = count else {
        return ObjectKind::Single;
    };
    match emitter.needed_number(tree, count) {
        count if count >= 1 && count <= 65_535 => ObjectKind::Array(count),
        _ => {
            emitter.error(span, ErrorKind::ARRAY_LENGTH);
            ObjectKind::Single
        }
    }
}

fn set_object(
    emitter: &mut Emitter,
    tree: &Tree<'_>,
    span: Span,
    written: Type,
    kind: ObjectKind,
    segment_name: Option<Range>,
) {
    let value_type = type_or_int(emitter, tree, written);
    let name = match segment_name {
        Some(bytes) => tree.bytes(bytes),
        None => tree.word(span),
    };
    let longest = if kind == ObjectKind::Family {
        LONGEST_FAMILY
    } else {
        LONGEST_NAME
    };
    if kind != ObjectKind::Unique && !is_segment_name(name, longest) {
        report_about(
            emitter,
            span,
            ErrorKind::SEGMENT_NAME,
            About::number(longest),
        );
    }
    let constant = emitter.code.constant(constant_kind(kind), name);
    let Some(at) = emitter.program.object_named(tree, tree.word(span)) else {
        return;
    };
    if let Some(object) = emitter.program.objects.get_mut(at) {
        object.value_type = value_type;
        object.kind = kind;
        object.constant = constant;
    }
}

/// A block that is visited.
#[derive(Clone, Copy)]
struct Visited {
    block: Block,
    /// How many blocks it is in, with itself.
    depth: usize,
    is_in_loop: bool,
}

impl Visited {
    fn outermost(block: Block) -> Visited {
        Visited {
            block,
            depth: 1,
            is_in_loop: false,
        }
    }
}

fn is_loop(kind: StatementKind) -> bool {
    matches!(
        kind,
        StatementKind::For { .. } | StatementKind::While { .. }
    )
}

/// The kind of a declared object. The length of an array isn't known yet.
fn object_kind(kind: DeclarationKind) -> ObjectKind {
    match kind {
        DeclarationKind::Object { count: Some(_), .. } => ObjectKind::Array(1),
        DeclarationKind::Family { .. } => ObjectKind::Family,
        DeclarationKind::Unique(_) => ObjectKind::Unique,
        _ => ObjectKind::Single,
    }
}

/// Whether the segment allows a name.
fn is_segment_name(name: &[u8], longest: usize) -> bool {
    if name.is_empty() || name.len() > longest {
        return false;
    }
    for byte in name {
        if !matches!(*byte, b'!'..=b'~') || *byte == b'#' {
            return false;
        }
    }
    true
}
