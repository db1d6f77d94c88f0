ghost use Rattle.std.specs.Prelude.{◌≡◌, ◌↔◌};
ghost use Rattle.seg_spec.specs.Bytes.{word};
ghost use Rattle.seg_spec.specs.Reads.{count_at};

use seg_ptr::{View, Window, header};
use std::alloc::Allocator;

/// The position of the index's cell in the header: its pointer, and the number of names.
pub const INDEX_CELL: u32 = header::INDEX as u32;

/// How the names of a segment are stored.
#[derive(Debug, Clone, Copy, PartialEq, Eq)]
pub enum IndexKind {
    /// A buffer of entries.
    Flat = 0,
    /// A red-black tree of nodes with one entry each.
    Tree = 1,
}

impl IndexKind {
    /// The kind of index in the image's header. Any word but 1 gives a flat one.
    pub fn of<A: Allocator>(w: &Window<A>) -> IndexKind
        ensures { (result ≡ IndexKind.Tree) ↔ (word w.now.bytes 20 ≡ 1) }
    {
        IndexKind::read_in(w.view())
    }

    /// Like [`of`](IndexKind::of), from the segment's bytes.
    pub fn read_in(view: View) -> IndexKind
        ensures { (result ≡ IndexKind.Tree) ↔ (word view.entry.bytes.now 20 ≡ 1) }
    {
        match view.get32(header::INDEX_KIND) {
            1 => IndexKind::Tree,
            _ => IndexKind::Flat,
        }
    }

    /// The header word for this kind.
    pub fn word(self) -> u32
        ensures flat { self ≡ IndexKind.Flat → result ≡ 0 }
        ensures tree { self ≡ IndexKind.Tree → result ≡ 1 }
    {
        self as u32
    }
}

/// How many names there are.
pub fn name_count<A: Allocator>(w: &Window<A>) -> u32
    ensures { result ≡ count_at w.now.bytes 32 }
{
    name_count_in(w.view())
}

/// Like [`name_count`], from the segment's bytes.
pub fn name_count_in(view: View) -> u32
    ensures { result ≡ count_at view.entry.bytes.now 32 }
{
    view.get32(header::INDEX + 4)
}
