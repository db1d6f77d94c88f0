use crate::error::{Error, ErrorKind};
use crate::parser::Parser;
use crate::token::{TokenKind, TypeName};
use crate::tree::{BaseType, Range, Type};
use crate::word::Word;

impl Parser {
    pub fn read_type(&mut self) -> Result<Type, Error> {
        let span = self.peek().span;
        let first = self.nodes.containers.len();
        let base = self.read_base()?;
        let end = self.nodes.containers.len();
        for _ in first..end {
            self.expect(Word::Greater)?;
        }
        Ok(Type {
            span,
            containers: Range { first, end },
            base,
        })
    }

    /// Reads containers with their `<`, and the type in them.
    fn read_base(&mut self) -> Result<BaseType, Error> {
        // each turn takes a token
        for _ in 0..self.left() {
            let token = self.peek();
            let TokenKind::Name(name) = token.kind else {
                break;
            };
            self.take();
            let container = match name {
                TypeName::Container(container) => container,
                TypeName::Int => return Ok(BaseType::Int),
                TypeName::Text => return Ok(BaseType::Text),
                TypeName::Struct => return Ok(BaseType::Struct(token.span)),
                TypeName::Other(other) => return Err(Error::at(token, ErrorKind::NoType(other))),
            };
            self.container(container);
            if !self.accept(Word::Less) {
                return Err(Error::at(self.peek(), ErrorKind::ItemTypeWanted(container)));
            }
        }
        Err(Error::at(self.peek(), ErrorKind::TypeWanted))
    }
}
