ghost use Rattle.std.specs.Prelude.{◌≡◌, ◌+◌, ◌-◌, ◌*◌, ◌%◌, ◌^◌, ◌<◌, ◌≤◌, length, nat_le};
ghost use Rattle.seg_spec.specs.Heap.{units_at, is_live_at, units_before, tag_at, link_at};
ghost use Rattle.seg_block.specs.Blocks.{payload_at};
ghost use Rattle.seg_block.specs.Headers.{header_at, no_header};

use seg_ptr::{View, Window};
use std::alloc::Allocator;

/// The size of a unit, and of a block's header, in bytes.
pub const UNIT: u32 = 16;

/// The position of a block's header, in bytes from the segment's start.
pub type BlockAt = u32;

/// The position of a block's payload, in bytes from the segment's start.
pub type PayloadAt = u32;

/// The position where the heap begins.
pub const HEAP_START: u32 = 704;

/// The offset in a header of the size of the block before, in bytes.
pub const UNITS_BEFORE: usize = 4;

/// The offset in a header of the block's tag, in bytes.
pub const TAG: usize = 8;

/// The offset in a header of the block's link, in bytes.
pub const LINK: usize = 12;

/// The bit of a header's first word that marks an allocated block. The bits below it are the size in units.
pub(crate) const LIVE: u32 = 1 << 31;

/// The position of the block whose payload begins at `payload`.
pub fn block_of(payload: PayloadAt) -> BlockAt
    ensures { result ≡ payload - UNIT }
{
    payload.saturating_sub(UNIT)
}

/// The size in units of the block at a position, with its header.
pub fn units<A: Allocator>(w: &Window<A>, block: BlockAt) -> u32
    ensures { result ≡ units_at w.now.bytes block }
{
    units_of(w.get32(block as usize))
}

/// Like [`units`], from the segment's bytes.
pub fn units_in(view: View, block: BlockAt) -> u32
    ensures { result ≡ units_at view.entry.bytes.now block }
{
    units_of(view.get32(block as usize))
}

/// Whether the block at a position is allocated.
pub fn is_live<A: Allocator>(w: &Window<A>, block: BlockAt) -> bool
    ensures { result ≡ is_live_at w.now.bytes block }
{
    is_live_of(w.get32(block as usize))
}

/// The size in units of the block before, as the header at a position states it. 0 for the first block.
pub fn units_before<A: Allocator>(w: &Window<A>, block: BlockAt) -> u32
    ensures { result ≡ units_before w.now.bytes block }
{
    w.get32(block as usize + UNITS_BEFORE)
}

/// The tag word of a block ([`Tag::read`](crate::Tag::read)).
pub fn tag_word<A: Allocator>(w: &Window<A>, block: BlockAt) -> u32
    ensures { result ≡ tag_at w.now.bytes block }
{
    w.get32(block as usize + TAG)
}

/// Like [`tag_word`], from the segment's bytes.
pub fn tag_word_in(view: View, block: BlockAt) -> u32
    ensures { result ≡ tag_at view.entry.bytes.now block }
{
    view.get32(block as usize + TAG)
}

/// The position that the block's link points to.
pub fn link<A: Allocator>(w: &Window<A>, block: BlockAt) -> Option<u32>
    ensures { result ≡ link_at w.now.bytes block }
{
    w.target(block as usize + LINK)
}

/// Like [`link`], from the segment's bytes.
pub fn link_in(view: View, block: BlockAt) -> Option<u32>
    ensures { result ≡ link_at view.entry.bytes.now block }
{
    view.target(block as usize + LINK)
}

/// The size of the block's payload in bytes.
pub fn payload<A: Allocator>(w: &Window<A>, block: BlockAt) -> u64
    ensures { result ≡ payload_at w.now.bytes block }
{
    (u64::from(UNIT) * u64::from(units(w, block))).saturating_sub(u64::from(UNIT))
}

/// The size in units in a header's first word.
pub fn units_of(size: u32) -> u32
    ensures { result ≡ size % 2 ^ 31 }
{
    size % LIVE
}

/// Whether a header's first word marks the block as allocated.
fn is_live_of(size: u32) -> bool
    ensures { result ≡ nat_le (2 ^ 31) size }
{
    size >= LIVE
}

/// The header of a block. Each word is read once.
#[derive(Debug, Clone, Copy, PartialEq, Eq)]
pub struct Header {
    /// The size of the block in units, with its header.
    pub units: u32,
    pub is_live: bool,
    /// The size of the block before in units, or 0 for the first block.
    pub units_before: u32,
    /// The tag word ([`Tag::read`](crate::Tag::read)).
    pub tag: u32,
    /// The position that the block's link points to.
    pub link: Option<u32>,
}

impl Header {
    /// The header of the block at a position. If it doesn't lie inside the segment, its words are 0.
    pub fn read(view: View, block: BlockAt) -> Header
        ensures inside { block + UNIT ≤ length view.entry.bytes.now
            → result ≡ header_at view.entry.bytes.now block }
        ensures past { length view.entry.bytes.now < block + UNIT
            → result ≡ no_header view.entry.bytes.now block }
    {
        let header = view.part(block as usize, UNIT as usize);
        let size = header.get32(0);
        Header {
            units: units_of(size),
            is_live: is_live_of(size),
            units_before: header.get32(UNITS_BEFORE),
            tag: header.get32(TAG),
            link: view.target(block as usize + LINK),
        }
    }
}
