//! What follows a call that may stop the program.

use script_code::{COUNT, Code, Emitter, Known, PartEnd, Register, Task, Trouble};

/// The rest of the innermost part, and what follows that part in the statement, runs only if
/// a register isn't 0.
pub fn guard_rest(emitter: &mut Emitter, running: Register) {
    let Some(end) = part_end(emitter.tasks.as_slice()) else {
        return emitter.skip();
    };
    emitter.code.open_if(running);
    let after = after_part(emitter.tasks.as_slice(), end);
    let tasks = &mut emitter.tasks;
    let trouble = &mut emitter.code.trouble;
    insert_task(tasks, end.saturating_add(1), Task::EndRest, trouble);
    if let Some(after) = after {
        insert_task(tasks, after, Task::GuardRest(running), trouble);
    }
}

/// The position of the task that ends the innermost part, or the statement.
fn part_end(tasks: &[Task]) -> Option<usize> {
    for at in (0..tasks.len()).rev() {
        if tasks[at].end_of_part().is_some() {
            return Some(at);
        }
    }
    None
}

/// The position under the task at which the innermost part is closed, unless the statement ends
/// with it.
fn after_part(tasks: &[Task], end: usize) -> Option<usize> {
    match tasks.get(end)?.end_of_part()? {
        PartEnd::Whole => None,
        PartEnd::Part => Some(end),
        PartEnd::Success => end_of_else(tasks, end),
    }
}

/// The position of the task that ends an else part, which another task begins.
fn end_of_else(tasks: &[Task], begin: usize) -> Option<usize> {
    for at in (0..begin).rev() {
        if let Task::EndPart = tasks.get(at)? {
            return Some(at);
        }
    }
    None
}

/// Inserts a task under those from a position on.
fn insert_task(tasks: &mut Vec<Task>, at: usize, task: Task, trouble: &mut Trouble) {
    if at <= tasks.len() && tasks.insert(at, task).is_err() {
        trouble.is_out_of_memory = true;
    }
}

/// Ends what `guard_rest` began. A name's number that is given in the part is 0 without it.
pub fn end_rest(code: &mut Code) {
    let given = code.registers;
    code.begin_else();
    for index in 0..COUNT {
        let register = Register(index as u8);
        if given.known(register) == Known::Number
            && code.known(register) != Known::Number
            && code.usage.is_held(register)
        {
            code.number(register, 0);
        }
    }
    code.end_part()
}
