//! Which function begins which statement, and does which of its tasks.

use crate::branches::{begin_if, branch};
use crate::changes::{begin_set, begin_share, freeze, put_owned, set_number, share};
use crate::lookups::{
    begin_let, begin_lookup, begin_use, bind_number, bind_place, finish_let, finish_lookup, hold,
    hold_flat, take_owned,
};
use crate::loops::{begin_for, begin_while, end_input, loop_items, loop_numbers};
use crate::methods::do_method;
use crate::pushes::{pop_named, push_named};
use crate::removals::{begin_delete, clear, delete_key, delete_whole, shrink};
use script_code::{Emitter, Meaning, Output, Task};
use script_syntax::{StatementAt, StatementKind, Tree};

/// Does a task of a single statement. Returns false for any other task.
pub fn perform(emitter: &mut Emitter, tree: &Tree<'_>, task: Task) -> bool {
    match task {
        Task::DoLet(name, at) => finish_let(emitter, tree, name, at),
        Task::BindNumber(name, digits) => bind_number(emitter, name, digits),
        Task::BindSet(name, register, digits) => {
            emitter.bind(name, Meaning::short_number(register, digits))
        }
        Task::BindPlace(name, place) => bind_place(emitter, name, place),
        Task::DoLookup(statement) => finish_lookup(emitter, tree, statement),
        Task::DoTake(statement) => take_owned(emitter, tree, statement),
        Task::DoPush(statement, has_value) => push_named(emitter, tree, statement, has_value),
        Task::DoPop(statement) => pop_named(emitter, tree, statement),
        Task::Hold(statement, number, code) => hold(emitter, tree, statement, number, code),
        Task::HoldFlat(statement, number, code) => {
            hold_flat(emitter, tree, statement, number, code)
        }
        other => return perform_change(emitter, tree, other),
    }
    true
}

/// Does a task of a statement that gives no name.
fn perform_change(emitter: &mut Emitter, tree: &Tree<'_>, task: Task) -> bool {
    match task {
        Task::DoSet(statement) => set_number(emitter, tree, statement),
        Task::DoPut(statement, owner) => put_owned(emitter, tree, statement, owner),
        Task::DoMethod(statement, has_value) => do_method(emitter, tree, statement, has_value),
        Task::DoFreeze(statement) => freeze(emitter, tree, statement),
        Task::DoShare(statement) => share(emitter, tree, statement),
        Task::DoDelete(statement) => delete_whole(emitter, tree, statement),
        Task::DoDeleteKey(statement) => delete_key(emitter, tree, statement),
        Task::DoClear(statement, at) => clear(emitter, tree, statement, at),
        Task::DoShrink(at) => shrink(emitter, tree, at),
        Task::EndInput(go) => end_input(&mut emitter.code, go),
        Task::DoItems(statement) => loop_items(emitter, tree, statement),
        Task::DoNumbers(statement) => loop_numbers(emitter, tree, statement),
        Task::DoIf(statement) => branch(emitter, tree, statement),
        _ => return false,
    }
    true
}

/// Begins a statement that neither leaves nor calls a function.
pub fn begin(emitter: &mut Emitter, tree: &Tree<'_>, statement: StatementAt) {
    let Some(found) = tree.statement(statement) else {
        return;
    };
    match found.kind {
        StatementKind::Let { .. } => begin_let(emitter, tree, statement),
        StatementKind::IfLet { .. } => begin_lookup(emitter, tree, statement),
        StatementKind::Use(held) => begin_use(emitter, tree, statement, held),
        StatementKind::For { .. } => begin_for(emitter, tree, statement),
        StatementKind::While { .. } => begin_while(emitter, tree, statement),
        StatementKind::If(condition) => begin_if(emitter, statement, condition),
        StatementKind::Print {
            items,
            ends_line,
            ..
        } => emitter.push_task(Task::Items(items, Output::Printed { ends_line })),
        other => begin_change(emitter, tree, statement, other),
    }
}

/// Begins a statement that changes a place.
fn begin_change(
    emitter: &mut Emitter,
    tree: &Tree<'_>,
    statement: StatementAt,
    kind: StatementKind,
) {
    match kind {
        StatementKind::Set { .. } => begin_set(emitter, tree, statement),
        StatementKind::Freeze { place, .. } => {
            emitter.then_place(place, Task::DoFreeze(statement))
        }
        StatementKind::Share { place, source } => begin_share(emitter, statement, place, source),
        StatementKind::Delete(at) => begin_delete(emitter, tree, statement, at),
        StatementKind::Clear(at) => emitter.then_place(at, Task::DoClear(statement, at)),
        StatementKind::Shrink(at) => emitter.then_place(at, Task::DoShrink(at)),
        _ => {}
    }
}
