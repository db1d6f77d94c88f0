//! The positions of the fields of an image's header, in bytes, and what all headers have in common.
ghost use Rattle.std.specs.Prelude.{◌≡◌, ◌↔◌, IsTrue, codes, replicate};
ghost use Rattle.seg_spec.specs.Bytes.{slice, put, word, set_word};
ghost use Rattle.seg_spec.specs.Header.{IsVersion};
ghost use Rattle.seg_spec.specs.Images.{upgraded};
ghost use Rattle.seg_spec.specs.Window.{with_bytes};

use crate::view::View;
use crate::window::Window;
use std::alloc::Allocator;

/// The first bytes of an image.
const MAGIC: &[u8] = b"SEGIMAGE";

/// The version of the format without frozen objects.
const FIRST_VERSION: u32 = 1;

/// The version of the format that may have frozen objects.
const SHARING_VERSION: u32 = 2;

/// The position of the format's version.
const VERSION: usize = 8;

/// The position of the segment's size in units of 16 bytes.
pub const SIZE: usize = 12;

/// The position of the allocator's number: 0 for sequential fit, 1 for best fit.
pub const ALLOCATOR: usize = 16;

/// The position of the index's kind: 0 for a flat index, 1 for a tree.
pub const INDEX_KIND: usize = 20;

/// The position of the pointer to the free blocks: to the lowest one, or to the root of their tree.
pub const FREE: usize = 24;

/// The position of the next frozen object's number, which is 0 in images of version 1.
pub const NEXT_NUMBER: usize = 28;

/// The position of the index's cell: a pointer to the entries, and then the number of names.
pub const INDEX: usize = 32;

/// The position of the bytes that are 0, up to the type table.
const RESERVED: usize = 40;

/// The position of the type table: 32 entries of 16 bytes.
pub const TYPES: usize = 64;

/// The position of the table of unique objects: a pointer for each type.
pub const UNIQUES: usize = 576;

/// Whether a segment begins like an image of a version that this library reads, with a next number that this version
/// allows.
pub fn is_current(view: View) -> bool
    ensures { IsTrue result ↔ ((slice view.entry.bytes.now 0 8 ≡ codes "SEGIMAGE")
        × IsVersion (word view.entry.bytes.now 8) (word view.entry.bytes.now 28)) }
{
    view.slice(0, MAGIC.len()) == MAGIC
        && match view.get32(VERSION) {
            FIRST_VERSION => view.get32(NEXT_NUMBER) == 0,
            version => version == SHARING_VERSION,
        }
}

/// Whether an image's version may have frozen objects.
pub fn shares(view: View) -> bool
    ensures { IsTrue result ↔ (word view.entry.bytes.now 8 ≡ 2) }
{
    view.get32(VERSION) == SHARING_VERSION
}

/// Writes the first bytes of a new image, of the version that may have frozen objects.
pub fn begin<A: Allocator>(w: &mut Window<A>)
    ensures { w.new ≡ with_bytes w.old (set_word (put w.old.bytes 0 (codes "SEGIMAGE")) 8 2) }
{
    w.copy_in(0, MAGIC);
    upgrade(w);
}

/// Sets an image's version to the one that may have frozen objects.
pub fn upgrade<A: Allocator>(w: &mut Window<A>)
    ensures { w.new ≡ with_bytes w.old (upgraded w.old.bytes) }
{
    w.put32(VERSION, SHARING_VERSION);
}

/// Whether the bytes of the header that are always 0 are 0.
pub fn has_zeros(view: View) -> bool
    ensures { IsTrue result ↔ (slice view.entry.bytes.now 40 24 ≡ replicate 24 0) }
{
    view.slice(RESERVED, TYPES - RESERVED) == [0; TYPES - RESERVED].as_slice()
}
