//! Moves what follows a statement into it, since the machine can't jump. What follows a part that always leaves goes into the
//! other part: `if done { break } rest` becomes `if done { break } else { rest }`. What follows a `let` that can fail, or a
//! `use` without a block, goes into its body.

use crate::error::{Error, ErrorKind};
use crate::parser::Parser;
use crate::tree::{
    Block, DeclarationKind, ElsePart, Range, Statement, StatementKind, Value, ValueKind, part,
};

/// The statements after a statement, up to the end of its block.
#[derive(Clone, Copy)]
struct Rest {
    statements: Range,
    leaves: bool,
}

impl Parser {
    /// Moves statements as this module says. Adds an error for each statement that can't be reached, and for each else part
    /// that has to leave and doesn't.
    pub fn nest(&mut self, text: &[u8]) {
        // the statements of a block come before the statement that the block belongs to
        for at in 0..self.nodes.statements.len() {
            self.nest_parts(at, text);
        }
        for at in 0..self.nodes.declarations.len() {
            self.nest_declaration(at, text);
        }
        self.nodes.body = self.nest_block(self.nodes.body, text);
    }

    fn replace(&mut self, at: usize, statement: Statement) {
        if let Some(found) = self.nodes.statements.get_mut(at) {
            *found = statement;
        }
    }

    /// Moves the statements of a statement's blocks.
    fn nest_parts(&mut self, at: usize, text: &[u8]) {
        let Some(mut statement) = self.nodes.statements.get(at).copied() else {
            return;
        };
        if let Some(block) = statement.body {
            statement.body = Some(self.nest_block(block, text));
        }
        if let Some(part) = statement.otherwise {
            let block = self.nest_block(part.block, text);
            statement.otherwise = Some(ElsePart { block, ..part });
        }
        self.replace(at, statement);
    }

    fn nest_declaration(&mut self, at: usize, text: &[u8]) {
        let Some(declaration) = self.nodes.declarations.get(at).copied() else {
            return;
        };
        let kind = match declaration.kind {
            DeclarationKind::Function {
                parameters,
                gives_number,
                body,
            } => DeclarationKind::Function {
                parameters,
                gives_number,
                body: self.nest_block(body, text),
            },
            DeclarationKind::Fail(body) => DeclarationKind::Fail(self.nest_block(body, text)),
            _ => return,
        };
        if let Some(found) = self.nodes.declarations.get_mut(at) {
            found.kind = kind;
        }
    }

    /// Moves the statements of a block whose statements' own blocks are done.
    fn nest_block(&mut self, block: Block, text: &[u8]) -> Block {
        let Range { first, end } = block.statements;
        let mut rest = Rest {
            statements: Range { first: end, end },
            leaves: false,
        };
        for at in (first..end).rev() {
            rest = self.nest_rest(at, rest, text);
        }
        Block {
            statements: rest.statements,
            following: Range::NONE,
            leaves: rest.leaves,
        }
    }

    /// Moves the rest after a statement into the statement if it has to go there. Returns what begins with the statement.
    fn nest_rest(&mut self, at: usize, rest: Rest, text: &[u8]) -> Rest {
        let whole = Range {
            first: at,
            end: rest.statements.end,
        };
        let alone = Range {
            first: at,
            end: rest.statements.first,
        };
        let Some(statement) = self.nodes.statements.get(at).copied() else {
            return Rest {
                statements: whole,
                leaves: false,
            };
        };
        if let Some(error) = self.error_of(statement, rest) {
            self.error(error);
        }
        if let Some(nested) = self.with_rest(statement, rest, text) {
            self.replace(at, nested);
            return Rest {
                statements: alone,
                leaves: leaves(nested),
            };
        }
        let is_last = rest.statements.is_empty();
        Rest {
            statements: whole,
            leaves: if is_last {
                leaves(statement)
            } else {
                rest.leaves
            },
        }
    }

    /// What is wrong with a statement and the rest after it.
    fn error_of(&self, statement: Statement, rest: Rest) -> Option<Error> {
        let next = part(self.nodes.statements.as_slice(), rest.statements).first()?;
        if leaves(statement) {
            return Some(Error {
                span: next.span,
                kind: ErrorKind::Unreachable(statement.span.line),
            });
        }
        if statement.otherwise?.block.leaves {
            return None;
        }
        let kind = match statement.kind {
            StatementKind::Let { value, .. } => match value.kind {
                ValueKind::New(_) => ErrorKind::NewElseStays,
                _ => ErrorKind::LetElseStays,
            },
            StatementKind::Use(_) if statement.body.is_none() => ErrorKind::UseElseStays,
            _ => return None,
        };
        Some(Error {
            span: statement.span,
            kind,
        })
    }

    /// The statement with the rest after it, if the rest has to go into it.
    fn with_rest(&self, statement: Statement, rest: Rest, text: &[u8]) -> Option<Statement> {
        match statement.kind {
            StatementKind::Let { value, .. }
                if statement.otherwise.is_some() || self.can_fail(value, text) => {
                Some(in_body(statement, Block::EMPTY, rest))
            }
            StatementKind::Use(_) if statement.body.is_none() => {
                Some(in_body(statement, Block::EMPTY, rest))
            }
            StatementKind::If(_) | StatementKind::IfLet { .. } => in_other_part(statement, rest),
            _ => None,
        }
    }

    /// Whether a value may be absent where no default is given: an owned object, or what a method gives.
    fn can_fail(&self, value: Value, text: &[u8]) -> bool {
        let ValueKind::Expression(at) = value.kind else {
            return true;
        };
        match self.last_method(at) {
            Some(name) => name.of(text) != b"after".as_slice(),
            None => false,
        }
    }
}

/// Whether a statement always leaves.
fn leaves(statement: Statement) -> bool {
    match statement.kind {
        StatementKind::Break
        | StatementKind::Continue
        | StatementKind::Stop
        | StatementKind::Return(_) => true,
        StatementKind::If(_) | StatementKind::IfLet { .. } | StatementKind::Let { .. } => {
            body_leaves(statement) && else_leaves(statement)
        }
        _ => false,
    }
}

fn body_leaves(statement: Statement) -> bool {
    match statement.body {
        Some(block) => block.leaves,
        None => false,
    }
}

fn else_leaves(statement: Statement) -> bool {
    match statement.otherwise {
        Some(part) => part.block.leaves,
        None => false,
    }
}

/// An `if` with the rest after it in the part that doesn't leave, if the other one leaves.
fn in_other_part(statement: Statement, rest: Rest) -> Option<Statement> {
    if rest.statements.is_empty() {
        return None;
    }
    if body_leaves(statement) {
        return Some(in_else(statement, rest));
    }
    if else_leaves(statement) {
        return Some(in_body(statement, statement.body?, rest));
    }
    None
}

/// A block with the rest after it.
fn followed(block: Block, rest: Rest) -> Block {
    Block {
        statements: block.statements,
        following: rest.statements,
        leaves: rest.leaves,
    }
}

fn in_body(statement: Statement, body: Block, rest: Rest) -> Statement {
    Statement {
        body: Some(followed(body, rest)),
        ..statement
    }
}

fn in_else(statement: Statement, rest: Rest) -> Statement {
    let (code, block) = match statement.otherwise {
        Some(part) => (part.code, part.block),
        None => (None, Block::EMPTY),
    };
    let block = followed(block, rest);
    Statement {
        otherwise: Some(ElsePart { code, block }),
        ..statement
    }
}
