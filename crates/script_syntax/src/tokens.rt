use crate::error::{Error, ErrorKind, Wanted};
use crate::parser::Parser;
use crate::token::{Token, TokenKind};
use crate::tree::Span;
use crate::word::Word;

impl Parser {
    /// How many tokens are left: an upper bound of the turns of a loop that reads a token in each turn.
    pub fn left(&self) -> usize {
        self.tokens.len().saturating_sub(self.next)
    }

    /// Whether this word was read since the token at `earlier` was next.
    pub fn has_read(&self, earlier: usize, word: Word) -> bool {
        for token in self.tokens.get(earlier..self.next).unwrap_or_default() {
            if token.kind.is(word) {
                return true;
            }
        }
        false
    }

    /// The next token.
    pub fn peek(&self) -> Token {
        self.tokens.get(self.next).copied().unwrap_or(self.end)
    }

    pub fn take(&mut self) -> Token {
        let token = self.peek();
        self.next = self.next.saturating_add(1).min(self.tokens.len());
        token
    }

    /// Whether this word is next.
    pub fn is(&self, word: Word) -> bool {
        self.peek().kind.is(word)
    }

    /// Takes the next token if it is this word.
    pub fn accept(&mut self, word: Word) -> bool {
        let found = self.is(word);
        if found {
            self.take();
        }
        found
    }

    /// Takes this word.
    pub fn expect(&mut self, word: Word) -> Result<Span, Error> {
        let token = self.peek();
        if !token.kind.is(word) {
            return Err(Error::at(token, ErrorKind::WordWanted(word)));
        }
        self.take();
        Ok(token.span)
    }

    /// Takes a name.
    pub fn name(&mut self, wanted: Wanted) -> Result<Span, Error> {
        let token = self.peek();
        match token.kind {
            TokenKind::Name(_) => {
                self.take();
                Ok(token.span)
            }
            TokenKind::Word(word) if word.is_reserved() => {
                Err(Error::at(token, ErrorKind::Reserved(wanted)))
            }
            _ => Err(Error::at(token, ErrorKind::NameWanted(wanted))),
        }
    }

    /// Takes a name if one is next.
    pub fn accept_name(&mut self) -> Option<Span> {
        let token = self.peek();
        match token.kind {
            TokenKind::Name(_) => {
                self.take();
                Some(token.span)
            }
            _ => None,
        }
    }
}
