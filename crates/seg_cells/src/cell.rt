//! A cell: a number, or a pointer and a count.

ghost use Rattle.std.specs.Prelude.{◌≡◌};
ghost use Rattle.seg_spec.specs.Bytes.{signed_long};
ghost use Rattle.seg_spec.specs.Reads.{count_at, start};

use seg_block::{PayloadAt, View, Window};
use std::alloc::Allocator;

/// The position of a cell, in bytes from the segment's start.
pub type CellAt = u32;

/// The count in a cell, after its pointer: the number of bytes, items or nodes.
pub fn count<A: Allocator>(w: &Window<A>, cell: CellAt) -> u32
    ensures { result ≡ count_at w.now.bytes cell }
{
    w.get32(cell as usize + 4)
}

/// Like [`count`], from the segment's bytes.
pub fn count_in(view: View, cell: CellAt) -> u32
    ensures { result ≡ count_at view.entry.bytes.now cell }
{
    view.get32(cell as usize + 4)
}

/// The position of the payload that a cell points to, or 0 if its pointer is null.
pub fn start<A: Allocator>(w: &Window<A>, cell: CellAt) -> PayloadAt
    ensures { result ≡ start w.now.bytes cell }
{
    w.target(cell as usize).unwrap_or(0)
}

/// Like [`start`], from the segment's bytes.
pub fn start_in(view: View, cell: CellAt) -> PayloadAt
    ensures { result ≡ start view.entry.bytes.now cell }
{
    view.target(cell as usize).unwrap_or(0)
}

/// The 64-bit number at a position.
#[tactic(auto, unfolding(seg_spec::specs::Bytes::signed))]
pub fn load<A: Allocator>(w: &Window<A>, at: CellAt) -> i64
    ensures { result ≡ signed_long w.now.bytes at }
{
    w.get64(at as usize).cast_signed()
}

/// Like [`load`], from the segment's bytes.
#[tactic(auto, unfolding(seg_spec::specs::Bytes::signed))]
pub fn load_in(view: View, at: CellAt) -> i64
    ensures { result ≡ signed_long view.entry.bytes.now at }
{
    view.get64(at as usize).cast_signed()
}
