ghost use Rattle.std.specs.Prelude.{◌≡◌};
ghost use Rattle.seg_spec.specs.Types.{IsTable, form_at};
ghost use Rattle.seg_spec.specs.Block as block;
ghost use Rattle.seg_spec.specs.Block.{tag_of};
ghost use Rattle.seg_spec.specs.Frozen.{frozen_words};
ghost use Rattle.seg_block.specs.Tags.{word_of};

use crate::{Entry, KEY, LIST_LINKS};
use seg_block::{Kind, Tag};
use seg_layout::{Type, TypeId, TypeTable};

/// The bytes of a tree's node before its entry.
const TREE_WORDS: u32 = 16;

/// The bytes of a frozen object before its value: the number of cells that point to it, and its own number.
pub const FROZEN_WORDS: u32 = 8;

/// How the blocks that a cell points to are linked.
#[derive(Debug, Clone, Copy, PartialEq, Eq)]
pub enum Shape {
    /// One buffer with entries one after the other.
    Buffer,
    /// A circular list of nodes. Each begins with pointers to the next and to the previous node.
    Ring,
    /// A tree of nodes. Each begins with pointers to its children.
    Tree,
    /// One object.
    Object,
}

/// The layout of what the cell of a container, a string or an own points to: how the blocks are linked, their tag, and
/// their entries.
#[derive(Debug, Clone, Copy, PartialEq, Eq)]
pub struct Content {
    pub shape: Shape,
    pub tag: Tag,
    pub entry: Entry,
}

impl Content {
    ghost use Rattle.seg_cells.specs.Contents.{IsContent, ContentOf, OfBlock, kind_of_shape, IsIndexBuffer, IsIndexNode};

    /// The layout of what a cell of a type points to. `None` for numbers and structs, for shared types, whose values
    /// own nothing themselves, and for types that the table lacks.
    pub fn of(types: &TypeTable, t: TypeId) -> Option<Content>
        ensures { ContentOf types.now t (form_at types.now t) result }
    {
        let (shape, entry) = match types.kind(t)? {
            Type::I64 | Type::Struct(_) | Type::Shared(_) => return None,
            Type::Own(held) => return Some(Content::object(types, held)),
            Type::Str => (Shape::Buffer, Entry::byte()),
            Type::Vec(item) => (Shape::Buffer, Entry::with_value(types, item, 0)),
            Type::FlatMap(value) => (Shape::Buffer, Entry::with_value(types, value, KEY)),
            Type::List(item) => (Shape::Ring, Entry::with_value(types, item, LIST_LINKS)),
            Type::Map(value) => (
                Shape::Tree,
                Entry::with_value(types, value, TREE_WORDS + KEY),
            ),
        };
        Some(Content::new(shape, t, entry))
    }

    /// The layout of an object of a type: one value.
    pub fn object(types: &TypeTable, t: TypeId) -> Content
        ensures content { IsContent types.now Shape.Object (tag_of block.Kind.object t) 0 t result }
        ensures table { IsTable types.now }
    {
        let entry = Entry::with_value(types, t, 0);
        Content::new(Shape::Object, t, entry)
    }

    /// The layout of a frozen object: its count, its number, then one value.
    pub fn frozen(types: &TypeTable, t: TypeId) -> Content
        ensures { IsContent types.now Shape.Object (tag_of block.Kind.frozen t) frozen_words t
            result }
    {
        Content {
            shape: Shape::Object,
            tag: Tag {
                kind: Kind::Frozen,
                type_id: t,
            },
            entry: Entry::with_value(types, t, FROZEN_WORDS),
        }
    }

    /// The layout of the flat index: a buffer of entries of 8 bytes, each beginning with a pointer to a named object.
    pub fn index_buffer() -> Content
        ensures { IsIndexBuffer result }
    {
        Content {
            shape: Shape::Buffer,
            tag: Tag {
                kind: Kind::IndexBuffer,
                type_id: 0,
            },
            entry: Entry::name(),
        }
    }

    /// The layout of the tree index: in each node the tree words, then an entry like in the flat index.
    pub fn index_node() -> Content
        ensures { IsIndexNode result }
    {
        let name = Entry::name();
        Content {
            shape: Shape::Tree,
            tag: Tag {
                kind: Kind::IndexNode,
                type_id: 0,
            },
            entry: Entry {
                size: TREE_WORDS + name.size,
                before: TREE_WORDS,
                held: name.held,
            },
        }
    }

    /// The layout that a block with this tag belongs to, if it is known from the tag alone. Named objects and the index
    /// have none.
    pub fn of_block(types: &TypeTable, tag: Tag) -> Option<Content>
        ensures { OfBlock types.now tag.kind tag.type_id result }
    {
        match tag.kind {
            Kind::Object => Some(Content::object(types, tag.type_id)),
            Kind::Frozen => Some(Content::frozen(types, tag.type_id)),
            Kind::Buffer | Kind::Node => Content::of(types, tag.type_id),
            Kind::Named | Kind::IndexBuffer | Kind::IndexNode => None,
        }
    }

    fn new(shape: Shape, type_id: TypeId, entry: Entry) -> Content
        ensures shape { result.shape ≡ shape }
        ensures entry { result.entry ≡ entry }
        ensures tag { word_of result.tag ≡ tag_of (kind_of_shape shape) type_id }
    {
        let kind = match shape {
            Shape::Buffer => Kind::Buffer,
            Shape::Ring | Shape::Tree => Kind::Node,
            Shape::Object => Kind::Object,
        };
        Content {
            shape,
            tag: Tag { kind, type_id },
            entry,
        }
    }
}
