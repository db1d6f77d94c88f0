use std::alloc::Global;

/// A part of a program's text.
#[derive(Clone, Copy)]
pub struct Span {
    /// The bytes from `start` to before `end`.
    pub start: usize,
    pub end: usize,
    /// The line and the column of the first character, from 1. Columns count characters.
    pub line: usize,
    pub column: usize,
}

/// The items of one of a tree's lists from `first` to before `end`.
#[derive(Clone, Copy, PartialEq, Eq)]
pub struct Range {
    pub first: usize,
    pub end: usize,
}

/// An expression of a tree. The operands of an expression come before it.
#[derive(Clone, Copy, PartialEq, Eq)]
pub struct ExpressionAt(pub(crate) usize);

/// The position of a statement.
#[derive(Clone, Copy, PartialEq, Eq)]
pub struct StatementAt(pub(crate) usize);

#[derive(Clone, Copy)]
pub struct Expression {
    /// The operator, the literal, or the first name.
    pub span: Span,
    pub kind: ExpressionKind,
}

#[derive(Clone, Copy)]
pub enum ExpressionKind {
    Number(u64),
    /// A text, by its bytes.
    Text(Range),
    Unary(UnaryOperator, ExpressionAt),
    Binary(BinaryOperator, ExpressionAt, ExpressionAt),
    /// A place: a name of an object, a variable or a constant, and these steps from it.
    Place(Range),
    /// The value of a place, or the second expression if the place is absent.
    OrElse(ExpressionAt, ExpressionAt),
    /// A call of the named function, with these arguments.
    Call(Range),
}

#[derive(Clone, Copy, PartialEq, Eq)]
pub enum UnaryOperator {
    Negative,
    Not,
}

#[derive(Clone, Copy, PartialEq, Eq)]
pub enum BinaryOperator {
    Or,
    And,
    Equal,
    NotEqual,
    Less,
    LessOrEqual,
    Greater,
    GreaterOrEqual,
    Add,
    Subtract,
    Multiply,
    Divide,
    Remainder,
}

/// A step from a place to a part of it.
#[derive(Clone, Copy)]
pub struct Step {
    /// The name of the field or of the method, or the opening bracket.
    pub span: Span,
    pub kind: StepKind,
}

#[derive(Clone, Copy)]
pub enum StepKind {
    Field,
    Index(ExpressionAt),
    /// A method with these arguments.
    Method(Range),
}

/// A type: containers around a number, a text or a struct.
#[derive(Clone, Copy)]
pub struct Type {
    /// The first word.
    pub span: Span,
    /// The containers, from the outermost.
    pub containers: Range,
    pub base: BaseType,
}

#[derive(Clone, Copy, PartialEq, Eq)]
pub enum Container {
    Vec,
    List,
    Map,
    FlatMap,
    Own,
    Shared,
}

#[derive(Clone, Copy)]
pub enum BaseType {
    Int,
    Text,
    /// A struct, by its name.
    Struct(Span),
}

/// The right side of a `let`, an `if let` or an assignment.
#[derive(Clone, Copy)]
pub struct Value {
    /// The first word or sign.
    pub span: Span,
    pub kind: ValueKind,
}

#[derive(Clone, Copy)]
pub enum ValueKind {
    Expression(ExpressionAt),
    New(Type),
    /// `take`, with the place.
    Take(ExpressionAt),
}

/// What a `print`, a `write` or an assignment lists.
#[derive(Clone, Copy)]
pub struct Item {
    pub value: Value,
    /// The width after `:`.
    pub width: Option<ExpressionAt>,
}

/// A place that a `use` holds, with the name after `as`.
#[derive(Clone, Copy)]
pub struct Held {
    pub place: ExpressionAt,
    pub name: Option<Span>,
}

/// Statements in braces, and the statements that run after them.
#[derive(Clone, Copy)]
pub struct Block {
    pub statements: Range,
    /// The statements after the statement that has this block, if `parse` moved them into it. What the statement or
    /// `statements` declare isn't visible there, unless the statement is a `let` or a `use` without a block.
    pub following: Range,
    /// Whether the last statement is known to leave: `break`, `continue`, `return`, `stop`, or an `if` or `let` both of whose
    /// parts leave.
    pub leaves: bool,
}

/// `else {..}`, or `else CODE {..}`. After `else if` the block has that one statement.
#[derive(Clone, Copy)]
pub struct ElsePart {
    pub code: Option<Span>,
    pub block: Block,
}

#[derive(Clone, Copy)]
pub struct Statement {
    /// The first word.
    pub span: Span,
    pub kind: StatementKind,
    /// The block of an `if`, a loop or a `use`. A `let` that can fail and a `use` without a block have one too, with the
    /// statements that were after them.
    pub body: Option<Block>,
    pub otherwise: Option<ElsePart>,
}

/// A statement without its blocks. Instead of a place, the expression may also be a call of a function.
#[derive(Clone, Copy)]
pub enum StatementKind {
    Let {
        name: Span,
        value: Value,
    },
    If(ExpressionAt),
    IfLet {
        name: Span,
        value: Value,
    },
    For {
        /// The name before the comma, if there are two.
        key: Option<Span>,
        name: Span,
        source: Source,
        max: Option<ExpressionAt>,
    },
    While {
        condition: ExpressionAt,
        max: Option<ExpressionAt>,
    },
    Break,
    Continue,
    Stop,
    Return(Option<ExpressionAt>),
    Print {
        items: Range,
        max: Option<ExpressionAt>,
        /// Whether it is `print`, and not `write`.
        ends_line: bool,
    },
    Set {
        place: ExpressionAt,
        operator: SetOperator,
        operator_span: Span,
        /// One or more. `new` and `take` are the only item.
        items: Range,
        max: Option<ExpressionAt>,
    },
    /// A call of a function or of a method.
    Call(ExpressionAt),
    Delete(ExpressionAt),
    Clear(ExpressionAt),
    Shrink(ExpressionAt),
    Freeze {
        place: ExpressionAt,
        name: Span,
    },
    Share {
        place: ExpressionAt,
        source: ExpressionAt,
    },
    /// `use`, with the places that it holds.
    Use(Range),
    /// A statement whose beginning has an error. It is only in the tree of a program with errors.
    Wrong,
}

#[derive(Clone, Copy, PartialEq, Eq)]
pub enum SetOperator {
    Set,
    Add,
    Subtract,
    Multiply,
    Divide,
    Remainder,
}

/// What a `for` goes through.
#[derive(Clone, Copy)]
pub enum Source {
    /// The input, at the span of the word.
    Input(Span),
    /// From the first number to before the second.
    Numbers(ExpressionAt, ExpressionAt),
    /// Any other expression. Only a place has items to go through.
    Place(ExpressionAt),
}

#[derive(Clone, Copy)]
pub struct Declaration {
    /// The declared name, or the word `fail`.
    pub span: Span,
    pub kind: DeclarationKind,
}

#[derive(Clone, Copy)]
pub enum DeclarationKind {
    Constant(ExpressionAt),
    /// A struct, with its fields.
    Struct(Range),
    Object {
        value_type: Type,
        /// The number of values, if it is an array.
        count: Option<ExpressionAt>,
        /// The bytes of the name in the segment, after `as`.
        segment_name: Option<Range>,
    },
    Family {
        value_type: Type,
        segment_name: Option<Range>,
    },
    Unique(Type),
    Function {
        parameters: Range,
        gives_number: bool,
        body: Block,
    },
    Fail(Block),
}

/// A field of a struct, or a parameter of a function. A parameter without a type is a number.
#[derive(Clone, Copy)]
pub struct Field {
    pub name: Span,
    pub value_type: Type,
}

/// A program: its declarations and statements, in lists that refer to each other by position.
#[derive(Drop)]
pub struct Tree<'a> {
    pub(crate) text: &'a [u8],
    pub(crate) nodes: Nodes,
}

/// The lists of a tree.
#[derive(Drop)]
pub(crate) struct Nodes {
    pub bytes: Vec<u8>,
    pub expressions: Vec<Expression>,
    pub arguments: Vec<ExpressionAt>,
    pub steps: Vec<Step>,
    pub containers: Vec<Container>,
    pub items: Vec<Item>,
    pub held: Vec<Held>,
    pub fields: Vec<Field>,
    pub statements: Vec<Statement>,
    pub declarations: Vec<Declaration>,
    pub body: Block,
}

impl Nodes {
    /// No nodes, with the bytes of the program's texts.
    pub fn new(alloc: Global, bytes: Vec<u8>) -> Nodes {
        Nodes {
            bytes,
            expressions: Vec::new(alloc),
            arguments: Vec::new(alloc),
            steps: Vec::new(alloc),
            containers: Vec::new(alloc),
            items: Vec::new(alloc),
            held: Vec::new(alloc),
            fields: Vec::new(alloc),
            statements: Vec::new(alloc),
            declarations: Vec::new(alloc),
            body: Block::EMPTY,
        }
    }
}

impl Span {
    /// The bytes of a text in this span.
    pub(crate) fn of(self, text: &[u8]) -> &[u8] {
        text.get(self.start..self.end).unwrap_or_default()
    }
}

impl Range {
    pub(crate) const NONE: Range = Range { first: 0, end: 0 };

    pub fn is_empty(&self) -> bool {
        self.end <= self.first
    }

    /// The position of the first statement in a range of statements.
    pub fn first_statement(self) -> Option<StatementAt> {
        if self.is_empty() {
            return None;
        }
        Some(StatementAt(self.first))
    }
}

impl Statement {
    /// A statement without blocks.
    pub(crate) fn new(span: Span, kind: StatementKind) -> Statement {
        Statement {
            span,
            kind,
            body: None,
            otherwise: None,
        }
    }
}

impl Block {
    pub(crate) const EMPTY: Block = Block {
        statements: Range::NONE,
        following: Range::NONE,
        leaves: false,
    };
}

impl<'a> Tree<'a> {
    /// The program's text.
    pub fn text(&self) -> &'a [u8] {
        self.text
    }

    /// The bytes of the text in a span, for example a name.
    pub fn word(&self, span: Span) -> &'a [u8] {
        span.of(self.text)
    }

    pub fn declarations(&self) -> &[Declaration] {
        self.nodes.declarations.as_slice()
    }

    /// The statements outside functions.
    pub fn body(&self) -> Block {
        self.nodes.body
    }

    pub fn expression(&self, at: ExpressionAt) -> Option<Expression> {
        self.nodes.expressions.get(at.0).copied()
    }

    pub fn statement(&self, at: StatementAt) -> Option<Statement> {
        self.nodes.statements.get(at.0).copied()
    }

    pub fn statements(&self, range: Range) -> &[Statement] {
        part(self.nodes.statements.as_slice(), range)
    }

    /// The bytes of a text, without its quotation marks and escapes.
    pub fn bytes(&self, range: Range) -> &[u8] {
        part(self.nodes.bytes.as_slice(), range)
    }

    /// The arguments of a function or a method.
    pub fn arguments(&self, range: Range) -> &[ExpressionAt] {
        part(self.nodes.arguments.as_slice(), range)
    }

    /// The steps of a place.
    pub fn steps(&self, range: Range) -> &[Step] {
        part(self.nodes.steps.as_slice(), range)
    }

    /// The containers of a type, from the outermost.
    pub fn containers(&self, range: Range) -> &[Container] {
        part(self.nodes.containers.as_slice(), range)
    }

    pub fn items(&self, range: Range) -> &[Item] {
        part(self.nodes.items.as_slice(), range)
    }

    /// The places of a `use`.
    pub fn held(&self, range: Range) -> &[Held] {
        part(self.nodes.held.as_slice(), range)
    }

    /// The fields of a struct, or the parameters of a function.
    pub fn fields(&self, range: Range) -> &[Field] {
        part(self.nodes.fields.as_slice(), range)
    }
}

impl Container {
    pub fn spelling(self) -> &'static str {
        match self {
            Container::Vec => "vec",
            Container::List => "list",
            Container::Map => "map",
            Container::FlatMap => "flat_map",
            Container::Own => "own",
            Container::Shared => "shared",
        }
    }
}

/// The items of a list in a range, or none if the list ends before it does.
pub(crate) fn part<T>(list: &[T], range: Range) -> &[T] {
    list.get(range.first..range.end).unwrap_or_default()
}
