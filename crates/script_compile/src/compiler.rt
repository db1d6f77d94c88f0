//! The state of a compilation, and what is done after an error.

use crate::constructs::Constructs;
use crate::nests::{NestKind, Nests, NestsMark};
use crate::seen::SeenNames;
use crate::variables::{Variables, VariablesMark};
use script_code::{
    Code, Emitter, EmitterMark, Error, ErrorClass, Handler, Meaning, Name, Problem, Program,
    Register, Sequence, Task, append,
};
use script_syntax::{Statement, StatementAt, StatementKind, Tree};
use std::alloc::Global;

/// How far a compilation is. Going back to it needs no copy.
#[derive(Clone, Copy)]
pub struct Mark {
    pub emitter: EmitterMark,
    pub constructs: usize,
    choices: usize,
    statements: usize,
    pub nests: NestsMark,
    variables: VariablesMark,
}

/// A statement that is being compiled, with the mark of its beginning.
#[derive(Clone, Copy)]
pub struct Begun {
    pub mark: Mark,
    statement: StatementAt,
}

#[derive(Drop)]
pub struct Compiler {
    pub emitter: Emitter,
    pub constructs: Constructs,
    /// The statements that a guarded sequence left.
    pub rest: Option<Sequence>,
    pub nests: Nests,
    pub variables: Variables,
    pub seen: SeenNames,
    /// The statements that are being compiled, each in the one before.
    pub statements: Vec<Begun>,
    /// The statements among them that can be compiled in another way if their parts are too deep.
    pub choices: Vec<Begun>,
}

impl Compiler {
    pub fn new(alloc: Global, program: Program, code: Code) -> Self {
        Compiler {
            emitter: Emitter::new(alloc, program, code),
            constructs: Constructs::new(alloc),
            rest: None,
            nests: Nests::new(alloc),
            variables: Variables::new(alloc),
            seen: SeenNames::new(alloc),
            statements: Vec::new(alloc),
            choices: Vec::new(alloc),
        }
    }

    pub fn mark(&self) -> Mark {
        Mark {
            emitter: self.emitter.mark(),
            constructs: self.constructs.len(),
            choices: self.choices.len(),
            statements: self.statements.len(),
            nests: self.nests.mark(),
            variables: self.variables.mark(),
        }
    }

    /// Forgets what was compiled since a mark.
    pub fn go_back(&mut self, mark: &Mark) {
        self.emitter.go_back(&mark.emitter);
        self.constructs.truncate(mark.constructs);
        self.choices.truncate(mark.choices);
        self.statements.truncate(mark.statements);
        self.nests.go_back(&mark.nests);
        self.variables.go_back(&mark.variables);
    }

    // Errors

    /// Continues after a task that failed.
    pub fn recover(&mut self, tree: &Tree<'_>) {
        match self.emitter.code.trouble.take() {
            Some(Problem::Error(error)) if error.kind.is_limit() => self.avoid_limit(tree, error),
            Some(Problem::Error(error)) => {
                self.emitter.report(error);
                self.skip_statement(tree)
            }
            _ => self.skip_statement(tree),
        }
    }

    /// After a statement that passes a limit: lists what is alive there, and if it is too deep,
    /// continues in another way.
    fn avoid_limit(&mut self, tree: &Tree<'_>, error: Error) {
        let is_first = self.emitter.errors.is_empty();
        if is_first {
            list_alive(&mut self.emitter, error.kind.class);
        }
        if error.kind.class == ErrorClass::Depth && self.avoid_depth(tree) {
            return self.emitter.alive.clear();
        }
        if is_first {
            // such an error is told alone
            self.emitter.report(error);
            return self.emitter.tasks.clear();
        }
        self.skip_statement(tree)
    }

    /// Compiles a statement around this one again, so that fewer parts are open, or puts this one
    /// off. Returns false if neither is possible.
    fn avoid_depth(&mut self, tree: &Tree<'_>) -> bool {
        let Some(choice) = self.choices.pop() else {
            return self.defer_statement(tree) && self.emitter.code.trouble.take().is_none();
        };
        self.go_back(&choice.mark);
        self.emitter.push_task(Task::SetFlat(false));
        self.begin_nest(NestKind::Statement(choice.statement));
        self.emitter.code.trouble.take().is_none()
    }

    /// After an error in a statement, compiles the blocks in it for their own errors.
    fn skip_statement(&mut self, tree: &Tree<'_>) {
        let Some(begun) = self.statements.pop() else {
            return self.emitter.tasks.clear();
        };
        self.go_back(&begun.mark);
        if let Some(found) = tree.statement(begun.statement) {
            compile_blocks(&mut self.emitter, tree, &found)
        }
    }

    // Statements

    pub fn begin_statement(&mut self, tree: &Tree<'_>, statement: StatementAt) {
        let Some(found) = tree.statement(statement) else {
            return;
        };
        let mark = self.mark();
        let emitter = &mut self.emitter;
        append(
            &mut self.statements,
            Begun { mark, statement },
            &mut emitter.code.trouble,
        );
        emitter.code.span = found.span;
        emitter.push_task(Task::EndStatement);
        if !emitter.is_flat && has_choice(found.kind) {
            self.begin_choice(statement)
        }
        self.emitter.push_task(Task::Perform(statement))
    }

    /// Notes that a statement can be compiled again, from here on.
    fn begin_choice(&mut self, statement: StatementAt) {
        let mark = self.mark();
        let emitter = &mut self.emitter;
        append(
            &mut self.choices,
            Begun { mark, statement },
            &mut emitter.code.trouble,
        );
        emitter.push_task(Task::EndChoice)
    }

    pub fn end_statement(&mut self, tree: &Tree<'_>) {
        if let Some(ended) = self.statements.pop() {
            self.emitter.note_made(tree, ended.statement);
        }
        self.emitter.code.usage.tidy();
    }

    // Names

    /// Ends the names from a position on.
    pub fn end_scope(&mut self, first: usize) {
        for _ in first..self.emitter.names.len() {
            if let Some(name) = self.emitter.names.pop() {
                self.end_name(&name)
            }
        }
    }

    /// Ends a name which was just removed.
    fn end_name(&mut self, name: &Name) {
        let emitter = &mut self.emitter;
        self.variables.end(name, &emitter.names, &mut emitter.code);
        end_meaning(&mut emitter.code, name.meaning);
        self.seen.add(name, &mut emitter.code.trouble)
    }
}

impl Mark {
    /// How many names had ended.
    pub fn ended(&self) -> usize {
        self.emitter.code.ended
    }

    /// How many parts were open.
    pub fn open_parts(&self) -> usize {
        self.emitter.code.parts
    }

    /// Whether a register was held.
    pub fn is_held(&self, register: Register) -> bool {
        self.emitter.code.usage.is_held(register)
    }
}

/// Lists the names which have a register, or the parts that are open, if there are too many.
fn list_alive(emitter: &mut Emitter, class: ErrorClass) {
    match class {
        ErrorClass::Registers => emitter.list_names(),
        ErrorClass::Depth => emitter.list_parts(),
        _ => {}
    }
}

/// Compiles the blocks of a statement with an error. The names which the statement gives are unknown
/// in them.
fn compile_blocks(emitter: &mut Emitter, tree: &Tree<'_>, statement: &Statement) {
    if let Some(part) = statement.otherwise {
        emitter.push_task(Task::Handle(Handler::Part(part), Register(0)));
    }
    if let Some(block) = statement.body {
        let names = emitter.names.len();
        emitter.push_task(Task::Body(block, names, true));
    }
    bind_unknown(emitter, tree, statement.kind)
}

/// Binds the names which a statement with an error gives.
fn bind_unknown(emitter: &mut Emitter, tree: &Tree<'_>, kind: StatementKind) {
    match kind {
        StatementKind::Let { name, .. } | StatementKind::IfLet { name, .. } => {
            emitter.bind(name, Meaning::Unknown)
        }
        StatementKind::For { key, name, .. } => {
            if let Some(key) = key {
                emitter.bind(key, Meaning::Unknown);
            }
            emitter.bind(name, Meaning::Unknown)
        }
        StatementKind::Use(held) => {
            for held in tree.held(held) {
                if let Some(name) = held.name {
                    emitter.bind(name, Meaning::Unknown);
                }
            }
        }
        _ => {}
    }
}

/// Drops the object that a name owns, and releases the name's register.
fn end_meaning(code: &mut Code, meaning: Meaning) {
    if let Meaning::Owner { register, .. } = meaning {
        if code.owns(register) {
            code.drop_owner(register);
        }
    }
    if let Some(register) = meaning.register() {
        code.usage.release(register);
    }
}

/// Whether a statement can be compiled so that fewer parts are open.
fn has_choice(kind: StatementKind) -> bool {
    matches!(
        kind,
        StatementKind::Let { .. }
            | StatementKind::IfLet { .. }
            | StatementKind::If(_)
            | StatementKind::Use(_)
            | StatementKind::For { .. }
    )
}
