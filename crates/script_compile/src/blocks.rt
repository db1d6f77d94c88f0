//! Blocks, and what leaves them.

use crate::compiler::Compiler;
use crate::constructs::ConstructKind;
use script_code::{Emitter, ErrorKind, Register, Sequence, Task};
use script_syntax::{Block, Range, Span, Statement, StatementAt, StatementKind, Tree};

/// No statements.
const EMPTY: Range = Range { first: 0, end: 0 };

impl Compiler {
    pub fn begin_main(&mut self, tree: &Tree<'_>) {
        self.push_construct(ConstructKind::Main);
        self.start_block(tree.body(), Task::EndMain)
    }

    pub fn end_main(&mut self, tree: &Tree<'_>) {
        if self.restart_running() {
            return self.start_block(tree.body(), Task::EndMain);
        }
        self.constructs.pop(&mut self.emitter.code)
    }

    /// Adds a construct that begins here. Until it ends, walks may keep their parts open. Going back to
    /// its beginning doesn't end it.
    pub fn push_construct(&mut self, kind: ConstructKind) {
        let is_flat = self.emitter.is_flat;
        self.emitter.push_task(Task::SetFlat(is_flat));
        self.emitter.is_flat = false;
        let mut mark = self.mark();
        mark.constructs = mark.constructs.saturating_add(1);
        self.constructs
            .push(kind, mark, &mut self.emitter.code.trouble)
    }

    /// Begins the block of the innermost construct, after which the construct ends by this task.
    pub fn start_block(&mut self, block: Block, end: Task) {
        self.constructs.start_running(&mut self.emitter.code);
        self.emitter.then(&[Task::Block(block), end])
    }

    /// Goes back to the beginning of the construct if that needs a register and has none.
    pub fn restart_running(&mut self) -> bool {
        match self.constructs.last() {
            Some(construct) if construct.lacks_running() => {
                self.go_back(&construct.mark);
                self.constructs.restart(&construct.mark, &construct.forgets);
                true
            }
            _ => false,
        }
    }

    /// Compiles the next statement of a sequence.
    pub fn next_statement(&mut self, tree: &Tree<'_>, sequence: Sequence) {
        if sequence.now.is_empty() && !sequence.later.is_empty() && !sequence.is_inside {
            self.end_scope(sequence.names);
        }
        let mut rest = sequence;
        let Some(statement) = take_first(tree, &mut rest) else {
            self.rest = None;
            return;
        };
        let (exits, deferred) = (self.constructs.exits(), self.nests.deferred_count());
        self.emitter.then(&[
            Task::Statement(statement),
            Task::AfterStatement(rest, exits, deferred),
        ])
    }

    /// Continues a sequence. If the last statement may have left, what follows runs only if it
    /// didn't. If a part of it was put off, what follows is put off too.
    pub fn after_statement(
        &mut self,
        tree: &Tree<'_>,
        rest: Sequence,
        exits: usize,
        deferred: usize,
    ) {
        if self.nests.deferred_count() > deferred && !rest.is_empty() {
            return self.defer(tree, rest);
        }
        if rest.is_empty() || self.constructs.exits() <= exits {
            return self.emitter.push_task(Task::Sequence(rest));
        }
        match self.constructs.need_running() {
            Some(_) if rest.is_guarded && !rest.has_names => {
                self.rest = Some(rest);
            }
            Some(running) => open_guard(&mut self.emitter, running, rest),
            None => self.emitter.push_task(Task::Sequence(rest)),
        }
    }

    /// Ends statements that run only if the construct continues. Those that follow are guarded
    /// again.
    pub fn end_guard(&mut self, span: Span) {
        let code = &mut self.emitter.code;
        code.close();
        code.usage.tidy();
        code.span = span;
        if let (Some(rest), Some(running)) = (self.rest.take(), self.constructs.running()) {
            open_guard(&mut self.emitter, running, rest)
        }
    }

    /// A statement that leaves: `break`, `continue`, `return` or `stop`.
    pub fn leave(&mut self, tree: &Tree<'_>, statement: StatementAt) {
        let Some(found) = tree.statement(statement) else {
            return;
        };
        let target = match found.kind {
            StatementKind::Break | StatementKind::Continue => self.constructs.innermost_loop(),
            StatementKind::Return(_) => self.constructs.innermost_function(),
            _ => Some(0),
        };
        let stays = matches!(found.kind, StatementKind::Continue);
        match target {
            Some(target) => self.constructs.leave(target, stays, &mut self.emitter.code),
            None => refuse_leaving(&mut self.emitter, found.span),
        }
    }

    /// `return`, with its value.
    pub fn begin_return(&mut self, tree: &Tree<'_>, statement: StatementAt) {
        let Some(
            Statement {
                span,
                kind: StatementKind::Return(value),
                ..
            },
        ) = tree.statement(statement)
        else {
            return;
        };
        let Some(call) = self.constructs.innermost_call() else {
            return self.emitter.error(span, ErrorKind::NOT_IN_FUNCTION);
        };
        match (value, call.result) {
            (None, None) => self.leave(tree, statement),
            (Some(value), Some(result)) => self.emitter.then(&[
                Task::Evaluate(value, Some(result)),
                Task::MoveTo(result),
                Task::DoReturn(statement),
            ]),
            (None, Some(_)) => self.emitter.error(span, ErrorKind::RETURN_WITHOUT),
            (Some(_), None) => self.emitter.error(span, ErrorKind::RETURN_WITH),
        }
    }
}

/// Begins a block whose names begin at a position. They end with it, or with what follows it.
pub fn begin_body(emitter: &mut Emitter, block: Block, names: usize, is_inside: bool) {
    emitter.then(&[
        Task::Sequence(Sequence::of(block, names, is_inside)),
        Task::EndScope(names),
    ])
}

/// Compiles statements that run only if a register isn't 0.
fn open_guard(emitter: &mut Emitter, running: Register, rest: Sequence) {
    emitter.code.open_if(running);
    let guarded = Sequence {
        is_guarded: true,
        has_names: false,
        ..rest
    };
    let span = emitter.code.span;
    emitter.then(&[Task::Sequence(guarded), Task::EndGuard(span)])
}

/// Notes that a statement isn't in a loop, unless that may come of another error.
fn refuse_leaving(emitter: &mut Emitter, span: Span) {
    if emitter.errors.is_empty() {
        return emitter.error(span, ErrorKind::NOT_IN_LOOP);
    }
    emitter.skip()
}

/// Takes the first statement of a sequence.
fn take_first(tree: &Tree<'_>, sequence: &mut Sequence) -> Option<StatementAt> {
    if sequence.now.is_empty() {
        sequence.now = sequence.later;
        sequence.later = EMPTY;
    }
    let statement = sequence.now.first_statement()?;
    sequence.now.first = sequence.now.first.saturating_add(1);
    if let StatementKind::Let { .. } = tree.statement(statement)?.kind {
        sequence.has_names = true;
    }
    Some(statement)
}
