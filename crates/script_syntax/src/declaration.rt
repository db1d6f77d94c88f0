use crate::error::{Error, ErrorKind, Wanted};
use crate::parser::{Owner, Parser};
use crate::token::TokenKind;
use crate::tree::{BaseType, Declaration, DeclarationKind, ExpressionAt, Field, Range, Span, Type};
use crate::word::Word;

/// What comes before the block of a function or of `fail`.
#[derive(Clone, Copy)]
pub(crate) enum Header {
    Function {
        name: Span,
        parameters: Range,
        gives_number: bool,
    },
    Fail(Span),
}

/// Whether a word begins a declaration.
pub fn begins_declaration(word: Word) -> bool {
    matches!(
        word,
        Word::Const
            | Word::Struct
            | Word::Object
            | Word::Family
            | Word::Unique
            | Word::Fn
            | Word::Fail
    )
}

impl Parser {
    /// Reads a declaration that begins with this word, up to its block if it has one.
    pub fn read_declaration(&mut self, word: Word) -> Result<(), Error> {
        let start = self.take().span;
        match word {
            Word::Fail => self.expect_block(Owner::Declaration(Header::Fail(start))),
            Word::Fn => self.read_function(),
            _ => self.read_named(word),
        }
    }

    /// Reads the name of a declaration that begins with this word, and what follows.
    fn read_named(&mut self, word: Word) -> Result<(), Error> {
        let span = self.name(Wanted::Name)?;
        let kind = self.read_declared(word)?;
        self.declaration(Declaration { span, kind });
        Ok(())
    }

    fn read_declared(&mut self, word: Word) -> Result<DeclarationKind, Error> {
        match word {
            Word::Const => self.read_constant(),
            Word::Struct => self.read_struct(),
            Word::Object => self.read_object(),
            Word::Family => self.read_family(),
            _ => Ok(DeclarationKind::Unique(self.read_type_after_colon()?)),
        }
    }

    fn read_constant(&mut self) -> Result<DeclarationKind, Error> {
        self.expect(Word::Equal)?;
        Ok(DeclarationKind::Constant(self.read_expression()?))
    }

    fn read_struct(&mut self) -> Result<DeclarationKind, Error> {
        self.expect(Word::BraceOpen)?;
        let first = self.nodes.fields.len();
        // each turn takes a token
        for _ in 0..self.left() {
            if self.is(Word::BraceClose) {
                break;
            }
            let name = self.name(Wanted::Field)?;
            let value_type = self.read_type_after_colon()?;
            self.field(Field { name, value_type });
            let _ = self.accept(Word::Comma);
        }
        self.expect(Word::BraceClose)?;
        let end = self.nodes.fields.len();
        Ok(DeclarationKind::Struct(Range { first, end }))
    }

    fn read_object(&mut self) -> Result<DeclarationKind, Error> {
        let count = self.read_count()?;
        let value_type = self.read_type_after_colon()?;
        let segment_name = self.read_segment_name()?;
        Ok(DeclarationKind::Object {
            value_type,
            count,
            segment_name,
        })
    }

    /// Reads the number of an array's values in brackets, if that is next.
    fn read_count(&mut self) -> Result<Option<ExpressionAt>, Error> {
        if !self.accept(Word::BracketOpen) {
            return Ok(None);
        }
        let count = self.read_expression()?;
        self.expect(Word::BracketClose)?;
        Ok(Some(count))
    }

    fn read_family(&mut self) -> Result<DeclarationKind, Error> {
        let value_type = self.read_type_after_colon()?;
        let segment_name = self.read_segment_name()?;
        Ok(DeclarationKind::Family {
            value_type,
            segment_name,
        })
    }

    fn read_type_after_colon(&mut self) -> Result<Type, Error> {
        self.expect(Word::Colon)?;
        self.read_type()
    }

    /// Reads `as` and the name in the segment, if they are next.
    fn read_segment_name(&mut self) -> Result<Option<Range>, Error> {
        if !self.accept(Word::As) {
            return Ok(None);
        }
        let token = self.peek();
        match token.kind {
            TokenKind::Text(name) => {
                self.take();
                Ok(Some(name))
            }
            _ => Err(Error::at(token, ErrorKind::SegmentNameWanted)),
        }
    }

    /// Reads what follows `fn`, up to the block.
    fn read_function(&mut self) -> Result<(), Error> {
        let name = self.name(Wanted::Name)?;
        self.expect(Word::ParenOpen)?;
        let parameters = self.read_parameters()?;
        let gives_number = self.accept(Word::Arrow);
        if gives_number {
            self.expect_int()?;
        }
        self.expect_block(Owner::Declaration(Header::Function {
            name,
            parameters,
            gives_number,
        }))
    }

    fn read_parameters(&mut self) -> Result<Range, Error> {
        let first = self.nodes.fields.len();
        // each turn takes a token
        for _ in 0..self.left() {
            if self.is(Word::ParenClose) {
                break;
            }
            let name = self.name(Wanted::Parameter)?;
            let value_type = if self.is(Word::Colon) {
                self.read_type_after_colon()?
            } else {
                number_type(name)
            };
            self.field(Field { name, value_type });
            let _ = self.accept(Word::Comma);
        }
        self.expect(Word::ParenClose)?;
        let end = self.nodes.fields.len();
        Ok(Range { first, end })
    }

    fn expect_int(&mut self) -> Result<(), Error> {
        let found = self.read_type()?;
        match found.base {
            BaseType::Int if found.containers.is_empty() => Ok(()),
            _ => Err(Error {
                span: found.span,
                kind: ErrorKind::FunctionType,
            }),
        }
    }
}

/// The type of a parameter without a type.
fn number_type(span: Span) -> Type {
    Type {
        span,
        containers: Range::NONE,
        base: BaseType::Int,
    }
}
