//! Which function does which task of numbers and texts.

use crate::expressions::{
    binary, compare, evaluate, fresh, load, load_or, logic, logic_end, move_to, truth, unary,
};
use crate::numbers::{divide, write_padded};
use crate::output::{
    begin_text, copy_text, end_text, write_items, write_line, write_number, write_text,
};
use crate::rest::{end_rest, guard_rest};
use script_code::{Emitter, Task};
use script_syntax::Tree;

/// Does a task of numbers or texts. Returns false for any other task.
pub fn perform(emitter: &mut Emitter, tree: &Tree<'_>, task: Task) -> bool {
    match task {
        Task::Evaluate(at, into) => evaluate(emitter, tree, at, into),
        Task::Push(value) => emitter.push_value(value.register, value.is_own),
        Task::Fresh => fresh(emitter),
        Task::Unary(operator, into) => unary(emitter, operator, into),
        Task::Binary(operator, into) => binary(emitter, operator, into),
        Task::Logic(operator, right) => logic(emitter, tree, operator, right),
        Task::LogicEnd(operator, register) => logic_end(emitter, operator, register),
        Task::Truth(register) => truth(emitter, register),
        Task::Divide(operator, known) => divide(emitter, operator, known),
        Task::Compare(at, operator, bytes) => compare(emitter, tree, at, operator, bytes),
        Task::Load(at, into) => load(emitter, tree, at, into),
        Task::MoveTo(register) => move_to(emitter, register),
        Task::Default(at, register) => load_or(emitter, tree, at, register),
        other => return perform_text(emitter, tree, other),
    }
    true
}

/// Does a task of texts, or of what follows a call.
fn perform_text(emitter: &mut Emitter, tree: &Tree<'_>, task: Task) -> bool {
    match task {
        Task::Items(items, output) => write_items(emitter, tree, items, output),
        Task::Digits(at, output) => write_number(emitter, tree, at, &output),
        Task::Padded(width, output) => write_padded(emitter, width, &output),
        Task::WriteText(at) => write_text(emitter, tree, at),
        Task::WriteLine => write_line(emitter),
        Task::DoText(statement) => begin_text(emitter, tree, statement),
        Task::TextCopy(target, at) => copy_text(emitter, tree, &target, at),
        Task::TextEnd(walk, target) => end_text(&mut emitter.code, &walk, &target),
        Task::GuardRest(running) => guard_rest(emitter, running),
        Task::EndRest => end_rest(&mut emitter.code),
        _ => return false,
    }
    true
}
