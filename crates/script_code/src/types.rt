use crate::error::{Trouble, append};
use script_syntax::{BaseType, Container, Span, Tree, Type};
use std::alloc::{AllocError, Global};

/// A type of a program: its position in the list of types.
#[derive(Clone, Copy, PartialEq, Eq)]
pub struct TypeAt(pub usize);

/// A struct of a program: its position in the list of structs.
#[derive(Clone, Copy, PartialEq, Eq)]
pub struct StructAt(pub usize);

/// What a type is.
#[derive(Clone, Copy, PartialEq, Eq)]
pub enum Shape {
    Int,
    Text,
    Of(Container, TypeAt),
    Struct(StructAt),
}

/// A field of a struct.
#[derive(Clone, Copy)]
pub struct Member {
    pub name: Span,
    pub value_type: TypeAt,
}

/// A declared struct, with the range of its fields.
#[derive(Clone, Copy)]
pub struct StructType {
    pub name: Span,
    pub first: usize,
    pub end: usize,
}

/// The types that a program names. Each is in the list once.
#[derive(Drop)]
pub struct Types {
    shapes: Vec<Shape>,
    pub structs: Vec<StructType>,
    pub members: Vec<Member>,
}

impl TypeAt {
    pub const INT: TypeAt = TypeAt(0);

    pub const TEXT: TypeAt = TypeAt(1);
}

impl Shape {
    /// The type of the items of a container that `[ ]` goes into.
    pub fn item(self) -> Option<TypeAt> {
        match self {
            Shape::Text => Some(TypeAt::INT),
            Shape::Of(Container::Own | Container::Shared, _) => None,
            Shape::Of(_, item) => Some(item),
            Shape::Int | Shape::Struct(_) => None,
        }
    }

    /// The type in an `own` or a `shared`.
    pub fn content(self) -> Option<TypeAt> {
        match self {
            Shape::Of(Container::Own | Container::Shared, content) => Some(content),
            _ => None,
        }
    }

    pub fn is_map(self) -> bool {
        matches!(self, Shape::Of(Container::Map | Container::FlatMap, _))
    }

    /// Whether it is a vector, a list or a text.
    pub fn is_sequence(self) -> bool {
        matches!(
            self,
            Shape::Text | Shape::Of(Container::Vec | Container::List, _)
        )
    }
}

impl Types {
    /// The types without parts.
    pub fn new(alloc: Global) -> Result<Types, AllocError> {
        let mut shapes = Vec::new(alloc);
        shapes.push(Shape::Int)?;
        shapes.push(Shape::Text)?;
        Ok(Types {
            shapes,
            structs: Vec::new(alloc),
            members: Vec::new(alloc),
        })
    }

    pub fn len(&self) -> usize {
        self.shapes.len()
    }

    pub fn shape(&self, at: TypeAt) -> Shape {
        self.shapes.get(at.0).copied().unwrap_or(Shape::Int)
    }

    /// The type with this shape.
    pub fn intern(&mut self, shape: Shape, trouble: &mut Trouble) -> TypeAt {
        for (at, found) in self.shapes.iter().enumerate() {
            if *found == shape {
                return TypeAt(at);
            }
        }
        let at = TypeAt(self.shapes.len());
        append(&mut self.shapes, shape, trouble);
        at
    }

    /// The struct with this name.
    pub fn struct_named(&self, tree: &Tree<'_>, name: &[u8]) -> Option<StructAt> {
        for (at, found) in self.structs.iter().enumerate() {
            if tree.word(found.name) == name {
                return Some(StructAt(at));
            }
        }
        None
    }

    pub fn fields(&self, at: StructAt) -> &[Member] {
        match self.structs.get(at.0) {
            Some(found) => self.members.get(found.first..found.end).unwrap_or_default(),
            None => &[],
        }
    }

    /// The number and the type of the field with this name.
    pub fn field(&self, tree: &Tree<'_>, at: StructAt, name: &[u8]) -> Option<(usize, TypeAt)> {
        for (number, member) in self.fields(at).iter().enumerate() {
            if tree.word(member.name) == name {
                return Some((number, member.value_type));
            }
        }
        None
    }

    fn struct_type(
        &mut self,
        tree: &Tree<'_>,
        name: Span,
        trouble: &mut Trouble,
    ) -> Result<TypeAt, Span> {
        match self.struct_named(tree, tree.word(name)) {
            Some(found) => Ok(self.intern(Shape::Struct(found), trouble)),
            None => Err(name),
        }
    }

    /// The type that a program writes. `Err` with the name of a struct that isn't declared.
    pub fn written(
        &mut self,
        tree: &Tree<'_>,
        written: Type,
        trouble: &mut Trouble,
    ) -> Result<TypeAt, Span> {
        let mut at = match written.base {
            BaseType::Int => TypeAt::INT,
            BaseType::Text => TypeAt::TEXT,
            BaseType::Struct(name) => self.struct_type(tree, name, trouble)?,
        };
        let containers = tree.containers(written.containers);
        for level in (0..containers.len()).rev() {
            at = self.intern(Shape::Of(containers[level], at), trouble);
        }
        Ok(at)
    }
}
