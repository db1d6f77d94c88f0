//! `if`.

use script_code::{Emitter, Task};
use script_syntax::{ExpressionAt, StatementAt, Tree};

pub fn begin_if(emitter: &mut Emitter, statement: StatementAt, condition: ExpressionAt) {
    emitter.then(&[Task::Evaluate(condition, None), Task::DoIf(statement)])
}

/// `if`, after its condition.
pub fn branch(emitter: &mut Emitter, tree: &Tree<'_>, statement: StatementAt) {
    let Some(found) = tree.statement(statement) else {
        return;
    };
    let value = emitter.pop_value();
    emitter.code.open_if(value.register);
    emitter.code.usage.tidy();
    let Some(body) = found.body else {
        return emitter.code.close();
    };
    let otherwise = match found.otherwise {
        Some(part) => Task::Block(part.block),
        None => Task::At(found.span),
    };
    emitter.then(&[Task::Block(body), Task::Else, otherwise, Task::EndPart])
}
