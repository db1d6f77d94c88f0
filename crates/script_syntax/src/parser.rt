use crate::declaration::{Header, begins_declaration};
use crate::error::{Error, ErrorKind};
use crate::lexer::Lexer;
use crate::token::{Token, TokenKind};
use crate::tree::{
    Block, Declaration, DeclarationKind, ElsePart, ExpressionAt, Nodes, Span, Statement,
    StatementKind, Step, Tree,
};
use crate::word::Word;
use std::alloc::Global;

/// Why a text has no tree.
#[derive(Drop)]
pub enum Failure {
    /// The text's errors, in the order of the text.
    Errors(Vec<Error>),
    /// The host is out of memory.
    Memory,
}

/// Reads a program. Statements are moved as `Block::following` says.
pub fn parse(alloc: Global, text: &[u8]) -> Result<Tree<'_>, Failure> {
    let mut parser = Parser::new(alloc, Lexer::read(alloc, text));
    parser.read_program();
    if parser.errors.is_empty() {
        parser.nest(text);
    }
    let nodes = parser.finish()?;
    Ok(Tree { text, nodes })
}

/// Reads the tokens of a program, and makes its tree.
#[derive(Drop)]
pub(crate) struct Parser {
    pub tokens: Vec<Token>,
    /// The position of the next token.
    pub next: usize,
    /// The token after the last one.
    pub end: Token,
    pub nodes: Nodes,
    pub errors: Vec<Error>,
    /// Whether memory was refused. Something is then missing from the tree, which nobody sees.
    pub is_out_of_memory: bool,
    /// The first expression that belongs to the outermost one that is being read.
    pub outermost: usize,
    /// The steps, arguments and statements that were read, of the innermost list last.
    pub steps: Vec<Step>,
    pub arguments: Vec<ExpressionAt>,
    pub statements: Vec<Statement>,
    blocks: Vec<OpenBlock>,
}

/// A block whose `}` isn't read yet. After `else if`, the statement that ends the block.
#[derive(Clone, Copy)]
struct OpenBlock {
    owner: Owner,
    /// The beginning of its statements.
    begin: usize,
    /// Its `{`, or for `ElseIf` the word `if`.
    brace: Span,
}

#[derive(Clone, Copy)]
pub(crate) enum Owner {
    Body(Statement),
    Else {
        statement: Statement,
        code: Option<Span>,
    },
    ElseIf(Statement),
    Declaration(Header),
}

impl Parser {
    fn new(alloc: Global, lexer: Lexer) -> Parser {
        let Lexer {
            tokens,
            bytes,
            next,
            last_line: _,
            is_out_of_memory,
        } = lexer;
        Parser {
            tokens,
            next: 0,
            end: Token {
                span: next.span(0),
                kind: TokenKind::End,
            },
            nodes: Nodes::new(alloc, bytes),
            errors: Vec::new(alloc),
            is_out_of_memory,
            outermost: 0,
            steps: Vec::new(alloc),
            arguments: Vec::new(alloc),
            statements: Vec::new(alloc),
            blocks: Vec::new(alloc),
        }
    }

    /// The nodes of the tree, or what is wrong.
    fn finish(self) -> Result<Nodes, Failure> {
        let mut errors = self.errors;
        if self.is_out_of_memory {
            return Err(Failure::Memory);
        }
        if errors.is_empty() {
            return Ok(self.nodes);
        }
        errors.sort_unstable_by_key(|error| error.span.start);
        Err(Failure::Errors(errors))
    }

    fn read_program(&mut self) {
        // each turn takes a token
        for _ in 0..self.left() {
            let token = self.peek();
            match token.kind {
                TokenKind::End => break,
                _ => self.read_or_recover(token),
            }
        }
        self.add_open_blocks();
        self.nodes.body = self.block_end(0);
    }

    /// Adds an error for each block that is open at the end of the program.
    fn add_open_blocks(&mut self) {
        for i in 0..self.blocks.len() {
            match self.blocks.get(i).copied() {
                Some(block) if self.is_unclosed(block) => self.error(Error {
                    span: block.brace,
                    kind: ErrorKind::OpenBlock,
                }),
                _ => {}
            }
        }
    }

    /// Whether a block that is open at the end of the program is an error. A `}` in a text without a closing quotation mark may
    /// be its own.
    fn is_unclosed(&self, block: OpenBlock) -> bool {
        for error in self.errors.as_slice() {
            if matches!(error.kind, ErrorKind::OpenText) && error.span.start > block.brace.start {
                return false;
            }
        }
        !matches!(block.owner, Owner::ElseIf(_))
    }

    /// Reads a declaration, a statement up to its block, or the end of a block. After an error, continues at the next block or
    /// line.
    fn read_or_recover(&mut self, token: Token) {
        let before = self.next;
        let Err(error) = self.read_next(token) else {
            return;
        };
        self.error(error);
        let has_brace = self.has_read(before, Word::BraceOpen);
        self.skip_line(error.span);
        if token.kind.is(Word::Struct) {
            let is_next = error.span.line == token.span.line && self.is(Word::BraceOpen);
            if has_brace || is_next {
                self.skip_fields(error.span);
            }
        }
        let wrong = Statement::new(token.span, StatementKind::Wrong);
        if self.is(Word::BraceOpen) {
            self.open_block(Owner::Body(wrong));
        } else {
            self.end_statement(wrong);
        }
    }

    /// Skips the rest of a struct, whose error is at `added`.
    fn skip_fields(&mut self, added: Span) {
        for _ in 0..self.left() {
            let token = self.skip_token(added);
            if token.kind.is(Word::BraceClose) {
                break;
            }
        }
    }

    /// Skips the tokens of the line of an error, up to a brace.
    fn skip_line(&mut self, added: Span) {
        for _ in 0..self.left() {
            if self.peek().span.line != added.line
                || self.is(Word::BraceOpen)
                || self.is(Word::BraceClose)
            {
                break;
            }
            self.skip_token(added);
        }
    }

    /// Skips a token. Adds its error, unless that is the error at `added`.
    fn skip_token(&mut self, added: Span) -> Token {
        let token = self.take();
        let span = token.span;
        match token.kind {
            TokenKind::Wrong(kind) if span.start != added.start => self.error(Error { span, kind }),
            _ => {}
        }
        token
    }

    fn read_next(&mut self, token: Token) -> Result<(), Error> {
        match token.kind {
            TokenKind::Word(Word::Semicolon) => {
                self.take();
                Ok(())
            }
            TokenKind::Word(Word::BraceClose) => {
                self.take();
                match self.blocks.pop() {
                    Some(block) => self.close_block(block),
                    None => Err(Error::at(token, ErrorKind::StatementWanted)),
                }
            }
            TokenKind::Word(word) if self.blocks.is_empty() && begins_declaration(word) => {
                self.read_declaration(word)
            }
            _ => self.read_beginning(token.span),
        }
    }

    /// Reads a statement up to its block, or whole if it has none.
    fn read_beginning(&mut self, span: Span) -> Result<(), Error> {
        let kind = self.read_statement()?;
        let statement = Statement::new(span, kind);
        match kind {
            StatementKind::If(_)
            | StatementKind::IfLet { .. }
            | StatementKind::For { .. }
            | StatementKind::While { .. } => self.expect_block(Owner::Body(statement)),
            StatementKind::Use(_) if self.is(Word::BraceOpen) => {
                self.expect_block(Owner::Body(statement))
            }
            _ => self.read_else(statement),
        }
    }

    /// Reads `else` if it is next and the statement can have one. Otherwise the statement is complete.
    fn read_else(&mut self, statement: Statement) -> Result<(), Error> {
        if !can_have_else(statement.kind) || !self.accept(Word::Else) {
            self.end_statement(statement);
            return Ok(());
        }
        if is_if(statement.kind) && self.is(Word::If) {
            let span = self.peek().span;
            self.add_block(Owner::ElseIf(statement), span);
            return Ok(());
        }
        let code = if can_have_code(statement.kind) {
            self.accept_name()
        } else {
            None
        };
        self.expect_block(Owner::Else { statement, code })
    }

    pub fn expect_block(&mut self, owner: Owner) -> Result<(), Error> {
        if !self.is(Word::BraceOpen) {
            return Err(Error::at(self.peek(), ErrorKind::WordWanted(Word::BraceOpen)));
        }
        self.open_block(owner);
        Ok(())
    }

    fn open_block(&mut self, owner: Owner) {
        let brace = self.take().span;
        self.add_block(owner, brace);
    }

    fn add_block(&mut self, owner: Owner, brace: Span) {
        let begin = self.statements.len();
        let block = OpenBlock {
            owner,
            begin,
            brace,
        };
        self.is_out_of_memory |= self.blocks.push(block).is_err();
    }

    fn close_block(&mut self, open: OpenBlock) -> Result<(), Error> {
        let block = self.block_end(open.begin);
        match open.owner {
            Owner::Body(statement) => {
                return self.read_else(Statement {
                    body: Some(block),
                    ..statement
                });
            }
            Owner::Else { statement, code } => self.end_statement(with_else(
                statement, code, block,
            )),
            Owner::ElseIf(statement) => self.end_statement(with_else(statement, None, block)),
            Owner::Declaration(header) => self.declaration(declaration_of(header, block)),
        }
        Ok(())
    }

    /// Adds a complete statement. It ends each `else if` that it belongs to.
    fn end_statement(&mut self, statement: Statement) {
        self.statement(statement);
        for _ in 0..self.blocks.len() {
            let Some((outer, begin)) = self.last_else_if() else {
                break;
            };
            let _ = self.blocks.pop();
            let block = self.block_end(begin);
            self.statement(with_else(outer, None, block));
        }
    }

    /// The statement whose `else if` was read last, if that isn't complete, and where its block begins.
    fn last_else_if(&self) -> Option<(Statement, usize)> {
        let last = self.blocks.last()?;
        match last.owner {
            Owner::ElseIf(statement) => Some((statement, last.begin)),
            _ => None,
        }
    }
}

fn can_have_else(kind: StatementKind) -> bool {
    match kind {
        StatementKind::Let { .. }
        | StatementKind::For { .. }
        | StatementKind::While { .. }
        | StatementKind::Set { .. }
        | StatementKind::Call(_)
        | StatementKind::Freeze { .. }
        | StatementKind::Share { .. }
        | StatementKind::Use(_) => true,
        _ => is_if(kind),
    }
}

/// Whether a statement can fail with a code, which its `else` may name.
fn can_have_code(kind: StatementKind) -> bool {
    !matches!(
        kind,
        StatementKind::If(_) | StatementKind::For { .. } | StatementKind::While { .. }
    )
}

/// Whether `else if` may follow a statement.
fn is_if(kind: StatementKind) -> bool {
    matches!(
        kind,
        StatementKind::If(_) | StatementKind::IfLet { .. } | StatementKind::Wrong
    )
}

fn with_else(statement: Statement, code: Option<Span>, block: Block) -> Statement {
    Statement {
        otherwise: Some(ElsePart { code, block }),
        ..statement
    }
}

fn declaration_of(header: Header, body: Block) -> Declaration {
    match header {
        Header::Function {
            name,
            parameters,
            gives_number,
        } => Declaration {
            span: name,
            kind: DeclarationKind::Function {
                parameters,
                gives_number,
                body,
            },
        },
        Header::Fail(span) => Declaration {
            span,
            kind: DeclarationKind::Fail(body),
        },
    }
}
