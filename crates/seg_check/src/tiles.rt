ghost use Rattle.std.specs.Prelude.{◌≡◌, ℕ, ◌-◌, ◌/◌, ◌↔◌, true, false, get_or, length, IsOk, IsTrue, OnOk, IfOk};
ghost use Rattle.seg_spec.specs.Types.{Table, IsTable};
ghost use Rattle.seg_spec.specs.Heap.{gaps, heap_start};
ghost use Rattle.seg_spec.specs.Block as block;
ghost use Rattle.seg_spec.specs.Block.{AllowsType};
ghost use Rattle.seg_spec.specs.Header.{sharing_version};
ghost use Rattle.seg_spec.specs.Faulty.{HasFront, HasTiles};
ghost use Rattle.seg_block.specs.Tags.{kind_of};
ghost use Rattle.seg_check.specs.Marks.{nothing_known, KnowsTiles};
ghost use Rattle.seg_check.specs.Tiles.{AreLiveTags, FollowsHeader, KnowsGaps};

use crate::claims::Claims;
use crate::free_list::FreeList;
use crate::image::TypedImage;
use seg_block::{HEAP_START, Header, Kind, Tag, UNIT};
use seg_layout::{MAX_TYPES, Type, TypeTable};
use seg_ptr::header;
use std::alloc::Allocator;

/// One more than the largest number of a tag's kind.
const KINDS: usize = 8;

/// More than any word that encodes the tag of a type: the kind's number is the lowest byte, the type the next one.
const TAG_WORDS: usize = 256 * MAX_TYPES;

/// The block before the first one.
const BEFORE_ALL: Header = Header {
    units: 0,
    is_live: true,
    units_before: 0,
    tag: 0,
    link: None,
};

impl TypedImage<'_> {
    /// Checks the blocks, one after the other to the end of the image: each has at least two units and states the size
    /// of the block before; an allocated one has a tag that the types allow, and no link; no two free ones are
    /// adjacent. `Err` has the position of the first wrong header. Returns the check of sequential fit's list, for
    /// which it collects the free blocks.
    pub(crate) fn check_tiles<A: Allocator>(&self, claims: &mut Claims<A>) -> Result<FreeList, u32>
        ensures tiles { HasFront self.now.bytes.bytes.now self.now.types.now
            → IsOk result ↔ HasTiles self.now.bytes.bytes.now self.now.types.now }
        ensures free_list { HasFront self.now.bytes.bytes.now self.now.types.now
            → IfOk result (λ list.
            KnowsGaps self.now.bytes.bytes.now list (gaps self.now.bytes.bytes.now)) }
        ensures known { HasFront self.now.bytes.bytes.now self.now.types.now
            → (slots : ℕ)
            → claims.old
            ≡ nothing_known ((length self.now.bytes.bytes.now - heap_start) / UNIT) slots
            → OnOk result (KnowsTiles self.now.bytes.bytes.now claims.new
            × (length claims.new.naming.counts ≡ slots)) }
    {
        let bytes = self.bytes;
        let tags = LiveTags::of(self.types, header::shares(bytes));
        let mut free_list = FreeList::new();
        let end = bytes.len() as u32;
        let mut at = HEAP_START;
        let mut before = BEFORE_ALL;
        while at < end {
            let header = Header::read(bytes, at);
            let units = header.units;
            if units < 2 || units > (end - at) / UNIT || !tags.follows(header, before) {
                return Err(at);
            }
            claims.add(at, header.is_live);
            if !header.is_live {
                free_list.add(bytes, at);
            }
            before = header;
            at += UNIT * units;
        }
        Ok(free_list)
    }
}

/// The tags that the allocated blocks of an image may have, computed once.
#[derive(Drop)]
struct LiveTags {
    /// For each word, whether it encodes one of these tags.
    are_right: [bool; TAG_WORDS],
}

impl LiveTags {
    /// Includes the tags of frozen objects only if `shares`.
    fn of(types: &TypeTable, shares: bool) -> LiveTags
        ensures { (version : ℕ) → IsTrue shares ↔ (version ≡ sharing_version) →
            IsTable types.now → AreLiveTags version types.now result.are_right }
    {
        let mut are_right = [false; TAG_WORDS];
        for index in 0..KINDS * MAX_TYPES {
            let word = index / MAX_TYPES + 256 * (index % MAX_TYPES);
            if let Some(tag) = Tag::read(word as u32) {
                are_right[word] = is_live_tag(types, tag, shares);
            }
        }
        LiveTags { are_right }
    }

    /// Whether a word encodes one of these tags.
    fn have(&self, word: u32) -> bool
        ensures { result ≡ get_or self.now.are_right word false }
    {
        self.are_right.get(word as usize) == Some(&true)
    }

    /// Whether a header may follow another one, apart from its size.
    fn follows(&self, header: Header, before: Header) -> bool
        ensures { (version : ℕ) (table : Table) → AreLiveTags version table self.now.are_right
            → IsTrue result ↔ FollowsHeader version table before header }
    {
        header.units_before == before.units
            && if header.is_live {
                header.link.is_none() && self.have(header.tag)
            } else {
                header.tag == 0 && before.is_live
            }
    }
}

/// Whether an allocated block may have this tag.
fn is_live_tag(types: &TypeTable, tag: Tag, shares: bool) -> bool
    ensures { IsTrue result ↔ (AllowsType types.now (kind_of tag.kind) tag.type_id ×
        (kind_of tag.kind ≡ block.Kind.frozen → IsTrue shares)) }
{
    let kind = types.kind(tag.type_id);
    match tag.kind {
        Kind::Named | Kind::Object => kind.is_some(),
        Kind::Buffer => matches!(kind, Some(Type::Str | Type::Vec(_) | Type::FlatMap(_))),
        Kind::Node => matches!(kind, Some(Type::List(_) | Type::Map(_))),
        Kind::IndexBuffer | Kind::IndexNode => tag.type_id == 0,
        Kind::Frozen => shares && kind.is_some(),
    }
}
