ghost use Rattle.std.specs.Prelude.{◌<◌, IfOk, IfSome};

use crate::error::{Error, ErrorKind, MAX_DEPTH, MAX_SIZE, Wanted};
use crate::parser::Parser;
use crate::token::{Token, TokenKind};
use crate::tree::{
    BinaryOperator, Expression, ExpressionAt, ExpressionKind, Range, Span, Step, StepKind,
    UnaryOperator,
};
use crate::word::Word;

/// The level of the comparisons. Operators of a higher level bind closer.
const COMPARISONS: u8 = 2;

impl Parser {
    /// Reads an expression.
    pub fn read_expression(&mut self) -> Result<ExpressionAt, Error> {
        self.outermost = self.nodes.expressions.len();
        self.read_operators(0, MAX_DEPTH)
    }

    /// Reads a place, or a call of a function.
    pub fn read_place(&mut self) -> Result<ExpressionAt, Error> {
        self.outermost = self.nodes.expressions.len();
        self.read_inner_place(MAX_DEPTH)
    }

    /// The depth of an expression in an expression with this depth. The outermost has the largest.
    fn deeper(&self, depth: u32) -> Result<u32, Error>
        ensures { IfOk result (λ less. less < depth) }
    {
        match depth {
            0 => Err(Error::at(self.peek(), ErrorKind::TooDeep)),
            _ => Ok(depth - 1),
        }
    }

    /// Adds an expression, after its operands.
    fn add(&mut self, span: Span, kind: ExpressionKind) -> Result<ExpressionAt, Error> {
        let at = self.nodes.expressions.len();
        if at.saturating_sub(self.outermost) >= MAX_SIZE {
            let kind = ErrorKind::TooLarge;
            return Err(Error { span, kind });
        }
        self.is_out_of_memory |= self
            .nodes
            .expressions
            .push(Expression { span, kind })
            .is_err();
        Ok(ExpressionAt(at))
    }

    /// Reads operands with the operators of this level and the levels above between them.
    #[cycle(expression)]
    fn read_operators(&mut self, lowest: u8, depth: u32) -> Result<ExpressionAt, Error> {
        let depth = self.deeper(depth)?;
        let mut left = self.read_unary(depth)?;
        // each turn takes a token
        for _ in 0..self.left() {
            let Some((operator, level)) = operator_of(self.peek(), lowest) else {
                break;
            };
            let span = self.take().span;
            let right = self.read_operators(level + 1, depth)?;
            left = self.add(span, ExpressionKind::Binary(operator, left, right))?;
            if level == COMPARISONS && operator_of(self.peek(), level).is_some() {
                return Err(Error::at(self.peek(), ErrorKind::ChainedComparisons));
            }
        }
        Ok(left)
    }

    /// Reads an operand with the signs before it.
    #[cycle(expression)]
    fn read_unary(&mut self, depth: u32) -> Result<ExpressionAt, Error> {
        let token = self.peek();
        let operator = match token.kind {
            TokenKind::Word(Word::Minus) => UnaryOperator::Negative,
            TokenKind::Word(Word::Not) => UnaryOperator::Not,
            _ => return self.read_operand(depth),
        };
        self.take();
        let depth = self.deeper(depth)?;
        let operand = self.read_unary(depth)?;
        self.add(token.span, ExpressionKind::Unary(operator, operand))
    }

    #[cycle(expression)]
    fn read_operand(&mut self, depth: u32) -> Result<ExpressionAt, Error> {
        let token = self.peek();
        let kind = match token.kind {
            TokenKind::Name(_) => return self.read_with_default(depth),
            TokenKind::Word(Word::ParenOpen) => {
                self.take();
                let inner = self.read_operators(0, depth)?;
                self.expect(Word::ParenClose)?;
                return Ok(inner);
            }
            TokenKind::Number(value) => ExpressionKind::Number(value),
            TokenKind::Word(Word::True) => ExpressionKind::Number(1),
            TokenKind::Word(Word::False) => ExpressionKind::Number(0),
            TokenKind::Text(bytes) => ExpressionKind::Text(bytes),
            TokenKind::Word(Word::Take) => return Err(Error::at(token, ErrorKind::MisplacedTake)),
            _ => return Err(Error::at(token, ErrorKind::ValueWanted)),
        };
        self.take();
        self.add(token.span, kind)
    }

    /// Reads a place with its `??`.
    #[cycle(expression)]
    fn read_with_default(&mut self, depth: u32) -> Result<ExpressionAt, Error> {
        let span = self.peek().span;
        let found = self.read_inner_place(depth)?;
        if !self.accept(Word::OrElse) {
            return Ok(found);
        }
        let depth = self.deeper(depth)?;
        let default = self.read_unary(depth)?;
        self.add(span, ExpressionKind::OrElse(found, default))
    }

    /// Reads a place, or a call of a function.
    #[cycle(expression)]
    fn read_inner_place(&mut self, depth: u32) -> Result<ExpressionAt, Error> {
        let span = self.name(Wanted::Name)?;
        let kind = if self.accept(Word::ParenOpen) {
            ExpressionKind::Call(self.read_arguments(depth)?)
        } else {
            ExpressionKind::Place(self.read_steps(depth)?)
        };
        self.add(span, kind)
    }

    #[cycle(expression)]
    fn read_steps(&mut self, depth: u32) -> Result<Range, Error> {
        let begin = self.steps.len();
        // each turn takes a token
        for _ in 0..self.left() {
            let span = self.peek().span;
            let step = if self.accept(Word::Dot) {
                self.read_member(depth)?
            } else if self.accept(Word::BracketOpen) {
                self.read_index(span, depth)?
            } else {
                break;
            };
            self.step(step);
        }
        Ok(self.steps_end(begin))
    }

    /// Reads what follows `[`.
    #[cycle(expression)]
    fn read_index(&mut self, span: Span, depth: u32) -> Result<Step, Error> {
        let index = self.read_operators(0, depth)?;
        self.expect(Word::BracketClose)?;
        let kind = StepKind::Index(index);
        Ok(Step { span, kind })
    }

    /// Reads the field or the method after a dot.
    #[cycle(expression)]
    fn read_member(&mut self, depth: u32) -> Result<Step, Error> {
        let token = self.peek();
        let span = token.span;
        if !is_member(token) {
            return Err(Error::at(token, ErrorKind::MemberWanted));
        }
        self.take();
        let kind = if self.accept(Word::ParenOpen) {
            StepKind::Method(self.read_arguments(depth)?)
        } else {
            StepKind::Field
        };
        Ok(Step { span, kind })
    }

    /// Reads the arguments after `(`, and the `)`.
    #[cycle(expression)]
    fn read_arguments(&mut self, depth: u32) -> Result<Range, Error> {
        let begin = self.arguments.len();
        if !self.accept(Word::ParenClose) {
            // each turn takes a token
            for _ in 0..=self.left() {
                let argument = self.read_operators(0, depth)?;
                self.argument(argument);
                if !self.accept(Word::Comma) {
                    break;
                }
            }
            self.expect(Word::ParenClose)?;
        }
        Ok(self.arguments_end(begin))
    }
}

/// Whether a token may be a field's or a method's name. Reserved words may.
fn is_member(token: Token) -> bool {
    match token.kind {
        TokenKind::Name(_) => true,
        TokenKind::Word(word) => word.is_reserved(),
        _ => false,
    }
}

/// The operator that a token is, with its level, if that is `lowest` or above.
fn operator_of(token: Token, lowest: u8) -> Option<(BinaryOperator, u8)>
    ensures { IfSome result (λ found. found.1 < 5) }
{
    let found = match token.kind {
        TokenKind::Word(word) => operator_word(word)?,
        _ => return None,
    };
    if found.1 < lowest {
        return None;
    }
    Some(found)
}

fn operator_word(word: Word) -> Option<(BinaryOperator, u8)>
    ensures { IfSome result (λ found. found.1 < 5) }
{
    Some(match word {
        Word::OrOr => (BinaryOperator::Or, 0),
        Word::AndAnd => (BinaryOperator::And, 1),
        Word::EqualEqual => (BinaryOperator::Equal, COMPARISONS),
        Word::NotEqual => (BinaryOperator::NotEqual, COMPARISONS),
        Word::Less => (BinaryOperator::Less, COMPARISONS),
        Word::LessEqual => (BinaryOperator::LessOrEqual, COMPARISONS),
        Word::Greater => (BinaryOperator::Greater, COMPARISONS),
        Word::GreaterEqual => (BinaryOperator::GreaterOrEqual, COMPARISONS),
        Word::Plus => (BinaryOperator::Add, 3),
        Word::Minus => (BinaryOperator::Subtract, 3),
        Word::Star => (BinaryOperator::Multiply, 4),
        Word::Slash => (BinaryOperator::Divide, 4),
        Word::Percent => (BinaryOperator::Remainder, 4),
        _ => return None,
    })
}
