//! Calls of functions. A function is compiled where it is called.

use crate::compiler::Compiler;
use crate::constructs::{Construct, ConstructKind};
use script_code::{ErrorKind, Task};
use script_syntax::{ExpressionAt, Range, Span, Tree};
use script_values::{begin_call, called_function, enter_function, guard_rest, leave_function};

impl Compiler {
    /// Works out the arguments of a call, and then the call.
    pub fn begin_call(
        &mut self,
        tree: &Tree<'_>,
        at: ExpressionAt,
        span: Span,
        arguments: Range,
        wants_value: bool,
    ) {
        let Some(position) = called_function(&mut self.emitter, tree, span) else {
            return;
        };
        if self.constructs.has_function(position) {
            return self.emitter.error(span, ErrorKind::RECURSION);
        }
        begin_call(
            &mut self.emitter,
            tree,
            position,
            at,
            span,
            arguments,
            wants_value,
        )
    }

    /// Begins a function whose arguments are worked out.
    pub fn call(&mut self, tree: &Tree<'_>, position: usize, at: ExpressionAt, wants_value: bool) {
        let call = enter_function(&mut self.emitter, tree, position, at, wants_value);
        if let Some(call) = call {
            let exits = self.constructs.exits();
            self.push_construct(ConstructKind::Function(call, exits));
            self.start_block(call.body, Task::EndCall)
        }
    }

    /// Ends a function. What follows its call in the statement runs only if the function didn't stop
    /// the program.
    pub fn end_call(&mut self) {
        let Some(
            Construct {
                kind: ConstructKind::Function(call, exits),
                ..
            },
        ) = self.constructs.last()
        else {
            return self.emitter.skip();
        };
        if self.restart_running() {
            return self.start_block(call.body, Task::EndCall);
        }
        self.constructs.pop(&mut self.emitter.code);
        self.end_scope(call.names);
        leave_function(&mut self.emitter, &call);
        if call.wants_value && self.constructs.exits() > exits {
            if let Some(running) = self.constructs.need_running() {
                guard_rest(&mut self.emitter, running)
            }
        }
    }
}
