//! The state of what is emitted: the code so far, the names, and the tasks that wait.

use crate::code::{Code, CodeMark};
use crate::error::{About, Error, Problem, Warning, WarningKind, append};
use crate::kind::ErrorKind;
use crate::names::{Meaning, Names, Place, Way};
use crate::places::steps_of;
use crate::program::{Folded, MOST_DEPTH, Program};
use crate::registers::Register;
use crate::task::{Task, Value};
use crate::types::TypeAt;
use client_code::MAX_TYPES;
use script_syntax::{ExpressionAt, Span, StatementAt, StatementKind, Step, StepKind, Tree, Type};
use std::alloc::Global;

/// How much is emitted. Going back to it needs no copy.
#[derive(Clone, Copy)]
pub struct EmitterMark {
    pub code: CodeMark,
    pub names: usize,
    base: usize,
    ways: usize,
    values: usize,
    places: usize,
    tasks: usize,
    is_flat: bool,
}

/// Emits the code of numbers, places and texts.
#[derive(Drop)]
pub struct Emitter {
    pub alloc: Global,
    pub program: Program,
    pub code: Code,
    pub names: Names,
    pub ways: Vec<Way>,
    pub values: Vec<Value>,
    pub places: Vec<Place>,
    /// Bytes to print or to add next.
    pub text: Vec<u8>,
    /// Whether the next byte to print, a line end, is printed already.
    pub skips_newline: bool,
    /// Whether places are looked up again at each use, so that no part stays open.
    pub is_flat: bool,
    pub errors: Vec<Error>,
    /// What is alive, or open, at an error about a limit.
    pub alive: Vec<Span>,
    pub warnings: Vec<Warning>,
    pub tasks: Vec<Task>,
    /// The places that the statements just before this one set.
    made: Vec<ExpressionAt>,
}

impl Emitter {
    pub fn new(alloc: Global, program: Program, code: Code) -> Self {
        Emitter {
            alloc,
            program,
            code,
            names: Names::new(alloc),
            ways: Vec::new(alloc),
            values: Vec::new(alloc),
            places: Vec::new(alloc),
            text: Vec::new(alloc),
            skips_newline: false,
            is_flat: false,
            errors: Vec::new(alloc),
            alive: Vec::new(alloc),
            warnings: Vec::new(alloc),
            tasks: Vec::new(alloc),
            made: Vec::new(alloc),
        }
    }

    /// The span of an expression.
    pub fn span_of(&self, tree: &Tree<'_>, at: ExpressionAt) -> Span {
        match tree.expression(at) {
            Some(expression) => expression.span,
            None => self.code.span,
        }
    }

    pub fn mark(&self) -> EmitterMark {
        EmitterMark {
            code: self.code.mark(),
            names: self.names.len(),
            base: self.names.base,
            ways: self.ways.len(),
            values: self.values.len(),
            places: self.places.len(),
            tasks: self.tasks.len(),
            is_flat: self.is_flat,
        }
    }

    /// Forgets what was emitted since a mark.
    pub fn go_back(&mut self, mark: &EmitterMark) {
        self.code.go_back(&mark.code);
        self.names.truncate(mark.names);
        self.names.base = mark.base;
        self.ways.truncate(mark.ways);
        self.values.truncate(mark.values);
        self.places.truncate(mark.places);
        self.tasks.truncate(mark.tasks);
        self.is_flat = mark.is_flat;
        self.text.clear();
        self.skips_newline = false;
    }

    /// Does these tasks next, the first one first.
    pub fn then(&mut self, tasks: &[Task]) {
        for at in (0..tasks.len()).rev() {
            self.push_task(tasks[at]);
        }
    }

    /// Does this task next.
    pub fn push_task(&mut self, task: Task) {
        append(&mut self.tasks, task, &mut self.code.trouble)
    }

    /// Works out a place next, and then does this task.
    pub fn then_place(&mut self, at: ExpressionAt, task: Task) {
        self.then(&[Task::Place(at, 0), task])
    }

    /// Works out a number in a register of its own next, and then does this task.
    pub fn then_fresh(&mut self, at: ExpressionAt, task: Task) {
        self.then(&[Task::Evaluate(at, None), Task::Fresh, task])
    }

    /// Takes the next task away.
    pub fn pop_task(&mut self) -> Option<Task> {
        self.tasks.pop()
    }

    // Errors and warnings

    /// Notes an error in the statement that is being compiled.
    pub fn error(&mut self, span: Span, kind: ErrorKind) {
        self.code
            .trouble
            .note(Problem::Error(Error::at(span, kind)));
    }

    /// Notes an error at the beginning of the statement that is being compiled.
    pub fn error_here(&mut self, kind: ErrorKind) {
        let span = self.code.span;
        self.error(span, kind)
    }

    /// Notes an error at an expression.
    pub fn error_at(&mut self, tree: &Tree<'_>, at: ExpressionAt, kind: ErrorKind) {
        let span = self.span_of(tree, at);
        self.error(span, kind)
    }

    pub fn error_about(&mut self, span: Span, kind: ErrorKind, about: About) {
        self.fail(Error { span, kind, about });
    }

    /// Notes an error about a type.
    pub fn type_error(&mut self, span: Span, kind: ErrorKind, value_type: TypeAt) {
        self.error_about(span, kind, About::of_type(value_type))
    }

    /// Notes this error.
    pub fn fail(&mut self, error: Error) {
        self.code.trouble.note(Problem::Error(error));
    }

    /// Notes that the statement needs something with an error.
    pub fn skip(&mut self) {
        self.code.trouble.note(Problem::Known);
    }

    /// Lists the names which have a register, for an error.
    pub fn list_names(&mut self) {
        for at in 0..self.names.len() {
            if let Some(name) = self.names.get(at) {
                if name.is_visible() && name.meaning.register().is_some() {
                    append(&mut self.alive, name.span, &mut self.code.trouble);
                }
            }
        }
    }

    /// Lists the parts that are open, for an error.
    pub fn list_parts(&mut self) {
        for at in 0..self.code.part_count() {
            let span = self.code.part_span(at);
            append(&mut self.alive, span, &mut self.code.trouble);
        }
    }

    /// Adds an error. One about a limit counts only if it is the first, and then alone, since the
    /// statement that passes the limit isn't compiled.
    pub fn report(&mut self, error: Error) {
        if error.kind.is_limit() && !self.errors.is_empty() {
            return;
        }
        for found in self.errors.as_slice() {
            if found.kind.is_limit() || found.span.start == error.span.start {
                return;
            }
        }
        append(&mut self.errors, error, &mut self.code.trouble)
    }

    /// Whether an error about a limit was reported.
    pub fn passes_limit(&self) -> bool {
        match self.errors.as_slice() {
            [error] => error.kind.is_limit(),
            _ => false,
        }
    }

    pub fn warn(&mut self, span: Span, kind: WarningKind) {
        for found in self.warnings.as_slice() {
            if found.span.start == span.start && found.kind == kind {
                return;
            }
        }
        append(
            &mut self.warnings,
            Warning { span, kind },
            &mut self.code.trouble,
        )
    }

    /// Notes what a statement that ends has made. Only what prints lets that stay known.
    pub fn note_made(&mut self, tree: &Tree<'_>, statement: StatementAt) {
        let Some(found) = tree.statement(statement) else {
            return;
        };
        match found.kind {
            StatementKind::Set { place, .. } => {
                append(&mut self.made, place, &mut self.code.trouble)
            }
            StatementKind::Print { .. } => {}
            _ => self.forget_made(),
        }
    }

    /// What was made may be gone.
    pub fn forget_made(&mut self) {
        self.made.clear();
    }

    /// Whether a statement just before this one made a place.
    pub fn was_made(&self, tree: &Tree<'_>, at: ExpressionAt) -> bool {
        for made in self.made.as_slice() {
            if self.has_same_words(tree, *made, at) {
                return true;
            }
        }
        false
    }

    /// Whether two places are written with the same names and known keys.
    fn has_same_words(&self, tree: &Tree<'_>, one: ExpressionAt, two: ExpressionAt) -> bool {
        let (Some(left), Some(right)) = (steps_of(tree, one, 0), steps_of(tree, two, 0)) else {
            return false;
        };
        let (left, right) = (tree.steps(left), tree.steps(right));
        if tree.word(self.span_of(tree, one)) != tree.word(self.span_of(tree, two))
            || left.len() != right.len()
        {
            return false;
        }
        for (at, one) in left.iter().enumerate() {
            match right.get(at) {
                Some(two) if self.is_same_step(tree, one, two) => {}
                _ => return false,
            }
        }
        true
    }

    fn is_same_step(&self, tree: &Tree<'_>, one: &Step, two: &Step) -> bool {
        match (one.kind, two.kind) {
            (StepKind::Field, StepKind::Field) => tree.word(one.span) == tree.word(two.span),
            (StepKind::Index(one), StepKind::Index(two)) => match self.known_number(tree, one) {
                Some(key) => self.known_number(tree, two) == Some(key),
                None => false,
            },
            _ => false,
        }
    }

    // Names and values

    /// Binds a name to a meaning, and keeps its register.
    pub fn bind(&mut self, span: Span, meaning: Meaning) {
        if self.code.trouble.is_set() {
            return;
        }
        if let Some(register) = meaning.register() {
            self.code.usage.hold(register);
        }
        self.names.push(span, meaning, &mut self.code.trouble);
    }

    /// The name which was bound last is used.
    pub fn use_last_name(&mut self) {
        let last = self.names.len().saturating_sub(1);
        self.names.use_name(last);
    }

    /// The type that is written. `Err` with the name of a struct that isn't declared.
    pub fn written_type(&mut self, tree: &Tree<'_>, written: Type) -> Result<TypeAt, Span> {
        if tree.containers(written.containers).len() >= MAX_TYPES {
            self.error(written.span, ErrorKind::TYPES);
            return Ok(TypeAt::INT);
        }
        self.program
            .types
            .written(tree, written, &mut self.code.trouble)
    }

    pub fn fold(&self, tree: &Tree<'_>, at: ExpressionAt) -> Result<Folded, Error> {
        self.program.fold(tree, &self.names, at, MOST_DEPTH)
    }

    /// The number that an expression always is.
    pub fn known_number(&self, tree: &Tree<'_>, at: ExpressionAt) -> Option<i64> {
        match self.fold(tree, at) {
            Ok(Folded::Number(value)) => Some(value),
            _ => None,
        }
    }

    /// The number that an expression has to be when the program is compiled.
    pub fn needed_number(&mut self, tree: &Tree<'_>, at: ExpressionAt) -> i64 {
        match self.fold(tree, at) {
            Ok(Folded::Number(value)) => return value,
            Ok(Folded::Text(_)) => self.error_at(tree, at, ErrorKind::NOT_CONSTANT),
            Err(error) => self.code.trouble.note(Problem::Error(error)),
        }
        0
    }

    pub fn push_value(&mut self, register: Register, is_own: bool) {
        append(
            &mut self.values,
            Value { register, is_own },
            &mut self.code.trouble,
        )
    }

    /// The number that was worked out last.
    pub fn pop_value(&mut self) -> Value {
        match self.values.pop() {
            Some(value) => value,
            None => {
                self.skip();
                Value::NONE
            }
        }
    }

    pub fn push_place(&mut self, place: Place) {
        append(&mut self.places, place, &mut self.code.trouble)
    }

    /// The place that was worked out last.
    pub fn pop_place(&mut self) -> Place {
        match self.places.pop() {
            Some(place) => place,
            None => {
                self.skip();
                Place::NONE
            }
        }
    }

    pub fn free_value(&mut self, value: Value) {
        if value.is_own {
            self.code.usage.free(value.register);
        }
    }

    /// The most turns of a loop, after `max`.
    pub fn turns(&mut self, tree: &Tree<'_>, max: ExpressionAt) -> i32 {
        match i32::try_from(self.needed_number(tree, max)) {
            Ok(turns) if turns >= 1 && turns <= 1_000_000_000 => turns,
            _ => {
                self.error(self.span_of(tree, max), ErrorKind::TURNS);
                1
            }
        }
    }

    /// The span of a loop or statement, for a bound that is missing.
    pub fn needed_turns(&mut self, tree: &Tree<'_>, span: Span, max: Option<ExpressionAt>) -> i32 {
        match max {
            Some(max) => self.turns(tree, max),
            None => {
                self.error(span, ErrorKind::LOOP_BOUND);
                1
            }
        }
    }
}

/// Whether a name is this word.
pub fn is_word(tree: &Tree<'_>, span: Span, word: &str) -> bool {
    tree.word(span) == word.as_bytes()
}
