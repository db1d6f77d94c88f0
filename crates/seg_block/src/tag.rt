ghost use Rattle.std.specs.Prelude.{◌≡◌, ◌+◌, ◌^◌, ◌<◌, IfSome, Some};
ghost use Rattle.seg_spec.specs.Bytes.{set_word};
ghost use Rattle.seg_spec.specs.Window.{with_bytes};
ghost use Rattle.seg_block.specs.Tags.{word_of};

use crate::header::{BlockAt, TAG};
use seg_ptr::Window;
use std::alloc::Allocator;

/// What an allocated block contains.
#[derive(Debug, Clone, Copy, PartialEq, Eq)]
pub enum Kind {
    /// An object with a name: its values, then the name's bytes.
    Named = 1,
    /// A unique or an anonymous object: one value.
    Object = 2,
    /// The items of a string, a vector or a flat map.
    Buffer = 3,
    /// A node of a list or of a map.
    Node = 4,
    /// The entries of the flat index.
    IndexBuffer = 5,
    /// A node of the tree index.
    IndexNode = 6,
    /// An object that values share: the number of cells that point to it, its own number, then its value. Only images
    /// of version 2 have any.
    Frozen = 7,
}

/// What an allocated block contains, and the id of the type it belongs to (0 if none). The header of a free block has
/// the word 0, which isn't a tag.
#[derive(Debug, Clone, Copy, PartialEq, Eq)]
pub struct Tag {
    pub kind: Kind,
    pub type_id: u8,
}

impl Tag {
    /// The tag that a header's word encodes, if it encodes one.
    pub fn read(word: u32) -> Option<Tag>
        ensures spelled { IfSome result (λ t. word ≡ word_of t) }
        ensures every { (t : Tag) → t.type_id < 256 → word ≡ word_of t → result ≡ Some t }
    {
        let kind = match word % 256 {
            1 => Kind::Named,
            2 => Kind::Object,
            3 => Kind::Buffer,
            4 => Kind::Node,
            5 => Kind::IndexBuffer,
            6 => Kind::IndexNode,
            7 => Kind::Frozen,
            _ => return None,
        };
        let type_id = u8::try_from(word / 256).ok()?;
        Some(Tag { kind, type_id })
    }

    /// The header word that encodes the tag.
    pub fn word(self) -> u32
        ensures { result ≡ word_of self }
    {
        self.kind as u32 + 256 * u32::from(self.type_id)
    }

    /// Writes the tag into the header of the block at a position.
    pub fn write<A: Allocator>(self, w: &mut Window<A>, block: BlockAt)
        ensures { w.new ≡ with_bytes w.old (set_word w.old.bytes (block + TAG) (word_of self)) }
    {
        w.put32(block as usize + TAG, self.word());
    }
}
