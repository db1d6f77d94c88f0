use crate::error::Error;
use crate::parser::Parser;
use crate::tree::{
    Block, Container, Declaration, ExpressionAt, ExpressionKind, Field, Held, Item, Range, Span,
    Statement, Step, StepKind, part,
};
use std::alloc::AllocError;

impl Parser {
    /// The name of the method whose call ends a place.
    pub fn last_method(&self, at: ExpressionAt) -> Option<Span> {
        let ExpressionKind::Place(steps) = self.nodes.expressions.get(at.0)?.kind else {
            return None;
        };
        let last = part(self.nodes.steps.as_slice(), steps).last()?;
        match last.kind {
            StepKind::Method(_) => Some(last.span),
            _ => None,
        }
    }

    pub fn container(&mut self, container: Container) {
        self.is_out_of_memory |= self.nodes.containers.push(container).is_err();
    }

    pub fn item(&mut self, item: Item) {
        self.is_out_of_memory |= self.nodes.items.push(item).is_err();
    }

    pub fn held(&mut self, held: Held) {
        self.is_out_of_memory |= self.nodes.held.push(held).is_err();
    }

    pub fn field(&mut self, field: Field) {
        self.is_out_of_memory |= self.nodes.fields.push(field).is_err();
    }

    pub fn declaration(&mut self, declaration: Declaration) {
        self.is_out_of_memory |= self.nodes.declarations.push(declaration).is_err();
    }

    pub fn error(&mut self, error: Error) {
        self.is_out_of_memory |= self.errors.push(error).is_err();
    }

    pub fn step(&mut self, step: Step) {
        self.is_out_of_memory |= self.steps.push(step).is_err();
    }

    /// Ends the list of steps that began here.
    pub fn steps_end(&mut self, begin: usize) -> Range {
        let moved = move_end(&mut self.steps, begin, &mut self.nodes.steps);
        self.moved(moved)
    }

    pub fn argument(&mut self, argument: ExpressionAt) {
        self.is_out_of_memory |= self.arguments.push(argument).is_err();
    }

    /// Ends the list of arguments that began here.
    pub fn arguments_end(&mut self, begin: usize) -> Range {
        let moved = move_end(&mut self.arguments, begin, &mut self.nodes.arguments);
        self.moved(moved)
    }

    pub fn statement(&mut self, statement: Statement) {
        self.is_out_of_memory |= self.statements.push(statement).is_err();
    }

    /// Ends the block that began here.
    pub fn block_end(&mut self, begin: usize) -> Block {
        let moved = move_end(&mut self.statements, begin, &mut self.nodes.statements);
        Block {
            statements: self.moved(moved),
            ..Block::EMPTY
        }
    }

    /// The range of moved items, or none if memory was refused.
    fn moved(&mut self, moved: Result<Range, AllocError>) -> Range {
        self.is_out_of_memory |= moved.is_err();
        moved.unwrap_or(Range::NONE)
    }
}

/// Moves what comes from `begin` on to the end of a list of the tree.
fn move_end<T: Copy + Drop>(
    read: &mut Vec<T>,
    begin: usize,
    list: &mut Vec<T>,
) -> Result<Range, AllocError> {
    let first = list.len();
    list.extend_from_slice(read.get(begin..).unwrap_or_default())?;
    read.truncate(begin);
    Ok(Range {
        first,
        end: list.len(),
    })
}
