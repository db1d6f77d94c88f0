//! Keys of places that are kept while a name refers to the place, and what a block does to them.

use crate::code::Code;
use crate::emitter::Emitter;
use crate::error::{Trouble, append};
use crate::names::{Key, Meaning, Names, Place, Root};
use crate::registers::Register;
use script_syntax::{
    Block, ExpressionAt, ExpressionKind, Range, Span, Statement, StatementKind, StepKind, Tree,
    Value, ValueKind,
};

/// How many blocks a search visits.
const MOST_BLOCKS: usize = 1_000_000;

impl Emitter {
    /// Keeps the keys of a place while a name refers to it. A key whose variable is set in this
    /// block is copied.
    pub fn keep_keys(&mut self, tree: &Tree<'_>, place: &mut Place, block: Block) {
        for at in place.first..place.end {
            self.keep_way(tree, at, block);
        }
        if let Root::Element(object, Key::Register(register)) = place.root {
            let key = Key::Register(self.keep_key(tree, register, block));
            place.root = Root::Element(object, key);
        }
    }

    /// Keeps the key of the step at a position.
    fn keep_way(&mut self, tree: &Tree<'_>, at: usize, block: Block) {
        let Some(way) = self.ways.get(at).copied() else {
            return;
        };
        let Some(Key::Register(register)) = way.kind.key() else {
            return;
        };
        let key = Key::Register(self.keep_key(tree, register, block));
        if let Some(way) = self.ways.get_mut(at) {
            way.kind = way.kind.with_key(key);
        }
    }

    fn keep_key(&mut self, tree: &Tree<'_>, register: Register, block: Block) -> Register {
        let mut kept = register;
        if let Some(span) = variable_in(&self.names, register) {
            let name = tree.word(span);
            if self.assigns(tree, block, name) {
                kept = self.code.take();
                self.code.copy(kept, register);
            }
        }
        let here = self.code.span;
        self.bind(here, Meaning::Hidden(kept));
        kept
    }

    /// Whether a number with this name is set in this block.
    pub fn assigns(&mut self, tree: &Tree<'_>, block: Block, word: &[u8]) -> bool {
        self.has_statement(tree, block, Wanted::Sets(word))
    }

    /// Whether something in this block may remove a place, or move an owned object.
    pub fn removes(&mut self, tree: &Tree<'_>, block: Block) -> bool {
        self.has_statement(tree, block, Wanted::Removes)
    }

    /// Whether a block has such a statement.
    fn has_statement(&mut self, tree: &Tree<'_>, block: Block, wanted: Wanted<'_>) -> bool {
        let mut waiting = Vec::new(self.alloc);
        add_block(&mut waiting, block, &mut self.code.trouble);
        for _ in 0..MOST_BLOCKS {
            let Some(block) = waiting.pop() else {
                return false;
            };
            if has_one(&mut self.code, tree, &mut waiting, block.statements, wanted)
                || has_one(&mut self.code, tree, &mut waiting, block.following, wanted)
            {
                return true;
            }
        }
        true
    }
}

/// The visible variable with this register.
fn variable_in(names: &Names, register: Register) -> Option<Span> {
    for (at, name) in names.all().iter().enumerate() {
        if at >= names.base {
            if let Meaning::Number {
                register: found,
                ..
            } = name.meaning
            {
                if found == register {
                    return Some(name.span);
                }
            }
        }
    }
    None
}

/// Whether one of these statements is such a statement. If not, their blocks are added.
fn has_one(
    code: &mut Code,
    tree: &Tree<'_>,
    waiting: &mut Vec<Block>,
    range: Range,
    wanted: Wanted<'_>,
) -> bool {
    for statement in tree.statements(range) {
        if wanted.is_met(tree, statement) {
            return true;
        }
        add_blocks(waiting, statement, &mut code.trouble);
    }
    false
}

/// A statement that is searched for.
#[derive(Clone, Copy)]
enum Wanted<'w> {
    /// One that sets the number with this name.
    Sets(&'w [u8]),
    /// One that may remove a place, or move an owned object.
    Removes,
}

impl Wanted<'_> {
    fn is_met(self, tree: &Tree<'_>, statement: &Statement) -> bool {
        match self {
            Wanted::Sets(word) => assigns_name(tree, statement, word),
            Wanted::Removes => may_remove(tree, statement),
        }
    }
}

/// Whether a statement may remove a place, or move an owned object.
fn may_remove(tree: &Tree<'_>, statement: &Statement) -> bool {
    match statement.kind {
        StatementKind::Delete(_)
        | StatementKind::Clear(_)
        | StatementKind::Freeze { .. }
        | StatementKind::Share { .. }
        | StatementKind::Call(_) => true,
        StatementKind::Let { value, .. } | StatementKind::IfLet { value, .. } => {
            takes_away(tree, value)
        }
        StatementKind::Set { items, .. } => match tree.items(items) {
            [item] => is_name(tree, item.value),
            _ => false,
        },
        _ => false,
    }
}

/// Whether a value is taken out of a place.
fn takes_away(tree: &Tree<'_>, value: Value) -> bool {
    let ValueKind::Expression(at) = value.kind else {
        return matches!(value.kind, ValueKind::Take(_));
    };
    let Some(steps) = place_steps(tree, at) else {
        return false;
    };
    match tree.steps(steps).last() {
        Some(step) => matches!(step.kind, StepKind::Method(_)),
        None => false,
    }
}

/// Whether a value is a name alone.
fn is_name(tree: &Tree<'_>, value: Value) -> bool {
    match value.kind {
        ValueKind::Expression(at) =>
            matches!(place_steps(tree, at), Some(steps) if steps.is_empty()),
        _ => false,
    }
}

/// The steps of an expression that is a place.
fn place_steps(tree: &Tree<'_>, at: ExpressionAt) -> Option<Range> {
    match tree.expression(at)?.kind {
        ExpressionKind::Place(steps) => Some(steps),
        _ => None,
    }
}

/// Whether a statement sets a number with this name.
fn assigns_name(tree: &Tree<'_>, statement: &Statement, word: &[u8]) -> bool {
    let StatementKind::Set { place, .. } = statement.kind else {
        return false;
    };
    match tree.expression(place) {
        Some(expression) => match expression.kind {
            ExpressionKind::Place(steps) => steps.is_empty() && tree.word(expression.span) == word,
            _ => false,
        },
        None => false,
    }
}

fn add_block(waiting: &mut Vec<Block>, block: Block, trouble: &mut Trouble) {
    append(waiting, block, trouble);
}

fn add_blocks(waiting: &mut Vec<Block>, statement: &Statement, trouble: &mut Trouble) {
    if let Some(block) = statement.body {
        add_block(waiting, block, trouble);
    }
    if let Some(part) = statement.otherwise {
        add_block(waiting, part.block, trouble);
    }
}
