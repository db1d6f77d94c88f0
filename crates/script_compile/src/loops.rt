//! Loops. Each is one `WHILE`, whose body is compiled until it ends as it begins.

use crate::compiler::{Compiler, Mark};
use crate::constructs::{Construct, ConstructKind};
use script_code::{
    COUNT, Code, Emitter, EndedName, ErrorKind, Known, Loop, Names, Register, Task, Turn, append,
};
use script_statements::{begin_turns, leave_loop, next_turn};
use script_syntax::{ExpressionAt, Tree};
use script_values::has_call;

impl Compiler {
    /// Begins a loop whose first test is done.
    pub fn begin_loop(&mut self, tree: &Tree<'_>, found: Loop) {
        self.emitter.code.usage.tidy();
        self.push_construct(ConstructKind::Loop(found));
        self.start_loop(tree, found)
    }

    /// Begins the body of the innermost loop.
    fn start_loop(&mut self, tree: &Tree<'_>, found: Loop) {
        self.constructs.start_running(&mut self.emitter.code);
        begin_turns(&mut self.emitter, tree, found, self.constructs.running())
    }

    /// Continues to the next turn, unless the loop was left.
    pub fn next_turn(&mut self, tree: &Tree<'_>, found: Loop) {
        next_turn(&mut self.emitter, tree, found, self.constructs.has_breaks());
        if let Turn::While(condition) = found.turn {
            let running = self.constructs.running();
            test_again(&mut self.emitter, tree, condition, found.go, running)
        }
    }

    /// Ends the body of the innermost loop. If it doesn't end as it begins, it is compiled again.
    pub fn end_loop(&mut self, tree: &Tree<'_>) {
        let Some(construct) = self.constructs.last() else {
            return;
        };
        let ConstructKind::Loop(found) = construct.kind else {
            return self.emitter.skip();
        };
        if self.restart_loop(&construct) {
            return self.start_loop(tree, found);
        }
        self.constructs.pop(&mut self.emitter.code);
        leave_loop(&mut self.emitter, tree, found)
    }

    /// Goes back to the beginning of a loop if its body has to be compiled again. The registers that
    /// the body changes are forgotten there, and the names from outside which it ends have ended.
    fn restart_loop(&mut self, construct: &Construct) -> bool {
        let mut forgets = construct.forgets;
        let changes = add_changed(&mut self.emitter, &mut forgets);
        let ended = ended_outside(&mut self.emitter, &construct.mark);
        if !changes && !construct.lacks_running() && ended.is_empty() {
            return false;
        }
        self.go_back(&construct.mark);
        end_names(&mut self.emitter.code, ended.as_slice());
        let mark = self.mark();
        self.constructs.restart(&mark, &forgets);
        forget_registers(&mut self.emitter.code, &forgets);
        true
    }
}

/// Works out the condition of another turn. What it calls may stop the program, while a statement
/// before it may have left the turn.
fn test_again(
    emitter: &mut Emitter,
    tree: &Tree<'_>,
    condition: ExpressionAt,
    go: Register,
    running: Option<Register>,
) {
    if let Some(running) = running {
        if has_call(emitter, tree, condition) {
            emitter.code.number(running, 1);
        }
    }
    emitter.then(&[Task::Evaluate(condition, Some(go)), Task::MoveTo(go)])
}

/// Adds the registers that the body of the innermost loop changes to those to forget before it.
/// Returns whether there are any. An owned object can't be moved in a loop.
fn add_changed(emitter: &mut Emitter, forgets: &mut [bool; COUNT]) -> bool {
    let before = emitter.code.before_loop();
    let mut changes = false;
    for index in 0..COUNT {
        let register = Register(index as u8);
        let known = before.known(register);
        if known != Known::Nothing && known != emitter.code.known(register) {
            if matches!(known, Known::Owner(_)) {
                emitter.error_here(ErrorKind::MOVED_IN_LOOP);
                return false;
            }
            forgets[index] = true;
            changes = true;
        }
    }
    changes
}

/// The names from before a mark which ended after it.
fn ended_outside(emitter: &mut Emitter, mark: &Mark) -> Vec<EndedName> {
    let mut outside = Vec::new(emitter.alloc);
    for at in mark.ended()..emitter.code.ended.len() {
        if let Some(ended) = emitter.code.ended.get(at).copied() {
            if is_outer_name(&emitter.names, ended.name, mark.emitter.names) {
                append(&mut outside, ended, &mut emitter.code.trouble);
            }
        }
    }
    outside
}

fn end_names(code: &mut Code, ended: &[EndedName]) {
    for ended in ended {
        code.end_name(ended.name, ended.span);
    }
}

/// Forgets what these registers contain.
fn forget_registers(code: &mut Code, forgets: &[bool; COUNT]) {
    for index in 0..COUNT {
        if forgets[index] {
            code.forget(Register(index as u8));
        }
    }
}

/// Whether one of the first `count` names has this number.
fn is_outer_name(names: &Names, id: usize, count: usize) -> bool {
    for name in names.all().get(..count).unwrap_or_default() {
        if name.id == id {
            return true;
        }
    }
    false
}
