use crate::error::{Error, ErrorKind, Wanted};
use crate::parser::Parser;
use crate::token::{Token, TokenKind};
use crate::tree::{
    ExpressionAt, ExpressionKind, Held, Item, Range, SetOperator, Source, Span, StatementKind,
    Value, ValueKind,
};
use crate::word::Word;

impl Parser {
    /// Reads a statement up to its block, or to its `else` if it has no block.
    pub fn read_statement(&mut self) -> Result<StatementKind, Error> {
        let token = self.peek();
        match token.kind {
            TokenKind::Name(_) => self.read_set_or_call(token.span),
            TokenKind::Word(word) if word.is_reserved() => {
                self.take();
                self.read_after_word(token, word)
            }
            _ => Err(Error::at(token, ErrorKind::StatementWanted)),
        }
    }

    /// Reads what follows the first word of a statement.
    fn read_after_word(&mut self, token: Token, word: Word) -> Result<StatementKind, Error> {
        match word {
            Word::Let => self.read_let(),
            Word::If => self.read_if(),
            Word::For => self.read_for(),
            Word::While => self.read_while(),
            Word::Break => Ok(StatementKind::Break),
            Word::Continue => Ok(StatementKind::Continue),
            Word::Stop => Ok(StatementKind::Stop),
            Word::Return => self.read_return(token.span),
            Word::Print => self.read_print(token.span, true),
            Word::Write => self.read_print(token.span, false),
            Word::Delete => Ok(StatementKind::Delete(self.read_place()?)),
            Word::Clear => Ok(StatementKind::Clear(self.read_place()?)),
            Word::Shrink => Ok(StatementKind::Shrink(self.read_place()?)),
            Word::Freeze => self.read_freeze(),
            Word::Share => self.read_share(),
            Word::Use => self.read_use(),
            _ => Err(Error::at(token, ErrorKind::NoStatement)),
        }
    }

    fn read_freeze(&mut self) -> Result<StatementKind, Error> {
        let place = self.read_place()?;
        self.expect(Word::Equal)?;
        let name = self.name(Wanted::Name)?;
        Ok(StatementKind::Freeze { place, name })
    }

    fn read_share(&mut self) -> Result<StatementKind, Error> {
        let place = self.read_place()?;
        self.expect(Word::Equal)?;
        let source = self.read_place()?;
        Ok(StatementKind::Share { place, source })
    }

    fn read_let(&mut self) -> Result<StatementKind, Error> {
        let (name, value) = self.read_named_value()?;
        Ok(StatementKind::Let { name, value })
    }

    fn read_if(&mut self) -> Result<StatementKind, Error> {
        if self.accept(Word::Let) {
            let (name, value) = self.read_named_value()?;
            return Ok(StatementKind::IfLet { name, value });
        }
        Ok(StatementKind::If(self.read_expression()?))
    }

    /// Reads a name and what it is set to.
    fn read_named_value(&mut self) -> Result<(Span, Value), Error> {
        let name = self.name(Wanted::Name)?;
        self.expect(Word::Equal)?;
        let value = self.read_value()?;
        Ok((name, value))
    }

    fn read_for(&mut self) -> Result<StatementKind, Error> {
        let first = self.name(Wanted::Name)?;
        let (key, name) = if self.accept(Word::Comma) {
            (Some(first), self.name(Wanted::Name)?)
        } else {
            (None, first)
        };
        self.expect(Word::In)?;
        let source = self.read_source()?;
        let max = self.read_optional(Word::Max)?;
        Ok(StatementKind::For {
            key,
            name,
            source,
            max,
        })
    }

    fn read_source(&mut self) -> Result<Source, Error> {
        let span = self.peek().span;
        if self.accept(Word::Input) {
            return Ok(Source::Input(span));
        }
        let first = self.read_expression()?;
        match self.read_optional(Word::DotDot)? {
            Some(end) => Ok(Source::Numbers(first, end)),
            None => Ok(Source::Place(first)),
        }
    }

    fn read_while(&mut self) -> Result<StatementKind, Error> {
        let condition = self.read_expression()?;
        let max = self.read_optional(Word::Max)?;
        Ok(StatementKind::While { condition, max })
    }

    /// Reads this word and the expression after it, if the word is next.
    fn read_optional(&mut self, word: Word) -> Result<Option<ExpressionAt>, Error> {
        if !self.accept(word) {
            return Ok(None);
        }
        Ok(Some(self.read_expression()?))
    }

    /// Whether the statement that began here ends before the next token, because nothing follows it in its line.
    fn is_alone(&self, span: Span) -> bool {
        let token = self.peek();
        match token.kind {
            TokenKind::Word(Word::BraceClose | Word::Semicolon) | TokenKind::End => true,
            _ => token.span.line != span.line,
        }
    }

    fn read_return(&mut self, span: Span) -> Result<StatementKind, Error> {
        if self.is_alone(span) {
            return Ok(StatementKind::Return(None));
        }
        Ok(StatementKind::Return(Some(self.read_expression()?)))
    }

    fn read_print(&mut self, span: Span, ends_line: bool) -> Result<StatementKind, Error> {
        if self.is_alone(span) {
            if !ends_line {
                return Err(Error::at(self.peek(), ErrorKind::ValueWanted));
            }
            return Ok(StatementKind::Print {
                items: Range::NONE,
                max: None,
                ends_line,
            });
        }
        let items = self.read_items()?;
        let max = self.read_optional(Word::Max)?;
        Ok(StatementKind::Print {
            items,
            max,
            ends_line,
        })
    }

    fn read_use(&mut self) -> Result<StatementKind, Error> {
        let first = self.nodes.held.len();
        // each turn takes a token
        for _ in 0..=self.left() {
            let place = self.read_place()?;
            let name = if self.accept(Word::As) {
                Some(self.name(Wanted::Name)?)
            } else {
                None
            };
            self.held(Held { place, name });
            if !self.accept(Word::Comma) {
                break;
            }
        }
        let end = self.nodes.held.len();
        Ok(StatementKind::Use(Range { first, end }))
    }

    /// Reads a statement that begins with a name, which is at `start`.
    fn read_set_or_call(&mut self, start: Span) -> Result<StatementKind, Error> {
        let place = self.read_place()?;
        let token = self.peek();
        if let Some(operator) = set_operator(token.kind) {
            self.take();
            let items = self.read_set_items()?;
            let max = self.read_optional(Word::Max)?;
            return Ok(StatementKind::Set {
                place,
                operator,
                operator_span: token.span,
                items,
                max,
            });
        }
        if self.is_call(place) {
            return Ok(StatementKind::Call(place));
        }
        Err(self.nothing_done(start))
    }

    /// The error in a statement that is only a place, before the next token. Takes `++`.
    fn nothing_done(&mut self, start: Span) -> Error {
        let token = self.peek();
        if matches!(token.kind, TokenKind::Wrong(_)) {
            return Error::at(token, ErrorKind::NothingDone);
        }
        let is_increment = self.accept(Word::Plus) && self.accept(Word::Plus);
        Error {
            span: start,
            kind: if is_increment {
                ErrorKind::Increment
            } else {
                ErrorKind::NothingDone
            },
        }
    }

    /// Whether a place is a call of a function, or ends in the call of a method.
    fn is_call(&self, place: ExpressionAt) -> bool {
        match self.nodes.expressions.get(place.0) {
            Some(found) if matches!(found.kind, ExpressionKind::Call(_)) => true,
            _ => self.last_method(place).is_some(),
        }
    }

    /// Reads what a place is set to: `new` or `take`, or one or more items.
    fn read_set_items(&mut self) -> Result<Range, Error> {
        if !self.is(Word::New) && !self.is(Word::Take) {
            return self.read_items();
        }
        let first = self.nodes.items.len();
        let value = self.read_value()?;
        self.item(Item { value, width: None });
        let end = self.nodes.items.len();
        Ok(Range { first, end })
    }

    /// Reads one or more items.
    fn read_items(&mut self) -> Result<Range, Error> {
        let first = self.nodes.items.len();
        // each turn takes a token
        for _ in 0..=self.left() {
            let span = self.peek().span;
            let kind = ValueKind::Expression(self.read_expression()?);
            let width = self.read_optional(Word::Colon)?;
            let value = Value { span, kind };
            self.item(Item { value, width });
            if !self.accept(Word::Comma) {
                break;
            }
        }
        let end = self.nodes.items.len();
        Ok(Range { first, end })
    }

    /// Reads an expression, or `new` with a type, or `take` with a place.
    fn read_value(&mut self) -> Result<Value, Error> {
        let span = self.peek().span;
        let kind = if self.accept(Word::New) {
            ValueKind::New(self.read_type()?)
        } else if self.accept(Word::Take) {
            ValueKind::Take(self.read_place()?)
        } else {
            ValueKind::Expression(self.read_expression()?)
        };
        Ok(Value { span, kind })
    }
}

fn set_operator(kind: TokenKind) -> Option<SetOperator> {
    match kind {
        TokenKind::Word(Word::Equal) => Some(SetOperator::Set),
        TokenKind::Word(Word::PlusEqual) => Some(SetOperator::Add),
        TokenKind::Word(Word::MinusEqual) => Some(SetOperator::Subtract),
        TokenKind::Word(Word::StarEqual) => Some(SetOperator::Multiply),
        TokenKind::Word(Word::SlashEqual) => Some(SetOperator::Divide),
        TokenKind::Word(Word::PercentEqual) => Some(SetOperator::Remainder),
        _ => None,
    }
}
