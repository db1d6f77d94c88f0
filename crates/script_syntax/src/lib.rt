//! Programs in the language for clients: from a text to its tree, or to all errors of the text.
#![tactic(auto)]

mod builder;
mod declaration;
mod error;
mod expression;
mod leaving;
mod lexer;
mod parser;
mod statement;
mod token;
mod tokens;
mod tree;
mod types;
mod word;

pub use error::{Error, ErrorKind, MAX_DEPTH, MAX_SIZE, Message, OtherType, Wanted};
pub use parser::{Failure, parse};
pub use tree::{
    BaseType, BinaryOperator, Block, Container, Declaration, DeclarationKind, ElsePart, Expression,
    ExpressionAt, ExpressionKind, Field, Held, Item, Range, SetOperator, Source, Span, Statement,
    StatementAt, StatementKind, Step, StepKind, Tree, Type, UnaryOperator, Value, ValueKind,
};
pub use word::Word;
