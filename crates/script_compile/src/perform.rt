//! Which function does which task, and which begins which statement.

use crate::blocks::begin_body;
use crate::compiler::Compiler;
use crate::nests::NestKind;
use script_code::{Emitter, ErrorKind, Task, close_noting, tell_no_room};
use script_statements::{begin, begin_method};
use script_syntax::{ExpressionAt, ExpressionKind, StatementAt, StatementKind, Tree};

pub fn perform(compiler: &mut Compiler, tree: &Tree<'_>, task: Task) {
    let emitter = &mut compiler.emitter;
    if perform_part(emitter, tree, task)
        || script_values::perform(emitter, tree, task)
        || script_statements::perform(emitter, tree, task)
    {
        return;
    }
    perform_statement(compiler, tree, task)
}

/// Does a task of blocks, of parts or of places. Returns false for any other task.
fn perform_part(emitter: &mut Emitter, tree: &Tree<'_>, task: Task) -> bool {
    match task {
        Task::Block(block) => {
            let names = emitter.names.len();
            begin_body(emitter, block, names, false)
        }
        Task::Body(block, names, is_inside) => begin_body(emitter, block, names, is_inside),
        Task::Else => emitter.code.begin_else(),
        Task::ElseOne(register) => {
            emitter.code.begin_else();
            emitter.code.number(register, 1)
        }
        Task::EndPart => emitter.code.end_part(),
        Task::CloseWalk(walk, handler, code) => emitter.close_handling(&walk, handler, code),
        Task::CloseNoting(walk, code) => close_noting(&mut emitter.code, &walk, code),
        Task::TellNoRoom(code) => tell_no_room(&mut emitter.code, code),
        Task::Handle(handler, code) => emitter.handle(handler, code),
        Task::HandleIf(code, handler) => emitter.handle_if(code, handler),
        Task::Place(at, dropped) => emitter.begin_place(tree, at, dropped),
        Task::Resolve(at, dropped) => emitter.resolve(tree, at, dropped),
        other => return set_state(emitter, other),
    }
    true
}

/// Does a task that sets a part of the state. Returns false for any other task.
fn set_state(emitter: &mut Emitter, task: Task) -> bool {
    match task {
        Task::Release(register) => {
            emitter.code.usage.release(register);
        }
        Task::Keep(register) => {
            emitter.code.usage.keep(register);
        }
        Task::SetFlat(is_flat) => {
            emitter.is_flat = is_flat;
        }
        Task::SetBase(base) => {
            emitter.names.base = base;
        }
        Task::At(span) => {
            emitter.code.span = span;
        }
        _ => return false,
    }
    true
}

/// Does a task of statements or of nests.
fn perform_statement(compiler: &mut Compiler, tree: &Tree<'_>, task: Task) {
    match task {
        Task::Sequence(sequence) => compiler.next_statement(tree, sequence),
        Task::AfterStatement(rest, exits, deferred) => {
            compiler.after_statement(tree, rest, exits, deferred)
        }
        Task::EndGuard(span) => compiler.end_guard(span),
        Task::EndScope(names) => compiler.end_scope(names),
        Task::Statement(statement) => compiler.begin_statement(tree, statement),
        Task::Perform(statement) => begin_statement(compiler, tree, statement),
        Task::EndStatement => compiler.end_statement(tree),
        Task::EndChoice => {
            let _ = compiler.choices.pop();
        }
        Task::EndNest => compiler.nests.end(&mut compiler.emitter),
        Task::DropNest => compiler.nests.pop(&mut compiler.emitter.code),
        Task::BeginDeferred(at) => compiler.begin_nest(NestKind::Deferred(at)),
        Task::RunDeferred(at) => compiler.run_deferred(at),
        Task::EndDeferred(names) => compiler.end_deferred(names),
        other => perform_construct(compiler, tree, other),
    }
}

/// Does a task of loops, functions or the program.
fn perform_construct(compiler: &mut Compiler, tree: &Tree<'_>, task: Task) {
    match task {
        Task::BeginCall(at, span, arguments) => {
            compiler.begin_call(tree, at, span, arguments, true)
        }
        Task::Call(function, at, wants_value) => compiler.call(tree, function, at, wants_value),
        Task::EndCall => compiler.end_call(),
        Task::BeginLoop(found) => compiler.begin_loop(tree, found),
        Task::EndLoop => compiler.end_loop(tree),
        Task::NextTurn(found) => compiler.next_turn(tree, found),
        Task::EndMain => compiler.end_main(tree),
        Task::DoReturn(statement) => compiler.leave(tree, statement),
        _ => {}
    }
}

fn begin_statement(compiler: &mut Compiler, tree: &Tree<'_>, statement: StatementAt) {
    let Some(found) = tree.statement(statement) else {
        return;
    };
    match found.kind {
        StatementKind::Break | StatementKind::Continue | StatementKind::Stop => {
            compiler.leave(tree, statement)
        }
        StatementKind::Return(_) => compiler.begin_return(tree, statement),
        StatementKind::Call(at) => begin_call(compiler, tree, statement, at),
        _ => begin(&mut compiler.emitter, tree, statement),
    }
}

/// A call of a function, or of a method.
fn begin_call(compiler: &mut Compiler, tree: &Tree<'_>, statement: StatementAt, at: ExpressionAt) {
    let (Some(found), Some(expression)) = (tree.statement(statement), tree.expression(at)) else {
        return;
    };
    match expression.kind {
        ExpressionKind::Call(_) if found.otherwise.is_some() => {
            compiler.emitter.error(found.span, ErrorKind::CALL_ELSE)
        }
        ExpressionKind::Call(arguments) => {
            compiler.begin_call(tree, at, expression.span, arguments, false)
        }
        _ => begin_method(&mut compiler.emitter, tree, at, statement, false),
    }
}
