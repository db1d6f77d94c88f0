ghost use Rattle.std.specs.Prelude.{◌≡◌, ◌↔◌, IsOk};
ghost use Rattle.seg_spec.specs.Bytes.{word};
ghost use Rattle.seg_spec.specs.Header.{allocator_word};
ghost use Rattle.seg_spec.specs.Heap.{HoldsGaps, gaps};
ghost use Rattle.seg_spec.specs.Faulty.{HasFront, HasTiles};
ghost use Rattle.seg_check.specs.Marks.{KnowsTiles};
ghost use Rattle.seg_check.specs.Tiles.{KnowsGaps};

use crate::claims::Claims;
use crate::fault::ContentFault;
use crate::free_list::FreeList;
use crate::marks::Turn;
use seg_block::{PayloadAt, Tag};
use seg_cells::{Content, Entry, Held};
use seg_layout::TypeTable;
use seg_ptr::{View, header};
use std::alloc::Allocator;

/// An image whose header and types are right.
#[derive(Drop)]
pub(crate) struct TypedImage<'a> {
    pub(crate) bytes: View<'a>,
    pub(crate) types: &'a TypeTable,
}

impl TypedImage<'_> {
    /// Checks the free structure of the image's allocator. `Err` has the position of the wrong pointer.
    pub(crate) fn check_free<A: Allocator>(
        &self,
        claims: &Claims<A>,
        free_list: FreeList,
    ) -> Result<(), u32>
        ensures gaps { HasFront self.now.bytes.bytes.now self.now.types.now
            → HasTiles self.now.bytes.bytes.now self.now.types.now
            → KnowsTiles self.now.bytes.bytes.now claims.now
            → KnowsGaps self.now.bytes.bytes.now free_list (gaps self.now.bytes.bytes.now)
            → IsOk result ↔ HoldsGaps (word self.now.bytes.bytes.now allocator_word)
            self.now.bytes.bytes.now (gaps self.now.bytes.bytes.now) }
    {
        match self.bytes.get32(header::ALLOCATOR) {
            0 => free_list.end(self.bytes),
            _ => self.check_free_tree(claims),
        }
    }

    ghost use Rattle.std.specs.Prelude.{◌*◌, IfErr, IfOk};
    ghost use Rattle.seg_block.specs.Tags.{word_of};
    ghost use Rattle.seg_check.specs.Claiming.{Refutes, HaveLiveHeaders, CanClaim, RefusesClaim, ClaimsBlock, turns_where, has_turns};

    /// How a cell claims the blocks of its content.
    pub(crate) fn owner(&self, content: &Content) -> Claimant<'_>
        ensures bytes { result.bytes.bytes.now ≡ self.now.bytes.bytes.now }
        ensures tag { result.tag ≡ content.now.tag }
        ensures entry_size { result.entry_size ≡ content.now.entry.size }
        ensures has_turns { result.has_turns ≡ has_turns self.now.types.now content.now.entry.held }
    {
        Claimant {
            bytes: self.bytes,
            tag: content.tag,
            entry_size: content.entry.size,
            has_turns: self.has_turns(content.entry),
        }
    }

    /// Claims the block that a pointer points to, which must have room for `n` entries, and returns the position of its
    /// payload.
    pub(crate) fn claim_entries<A: Allocator>(
        &self,
        claims: &mut Claims<A>,
        pointer: u32,
        content: &Content,
        count: u32,
    ) -> Result<PayloadAt, ContentFault>
        ensures taken { claims.new.taken ≡ claims.old.taken }
        ensures claimed { HaveLiveHeaders self.now.bytes.bytes.now claims.old.unclaimed →
            IfOk result (λ start. ClaimsBlock self.now.bytes.bytes.now claims.old claims.new pointer
            (word_of content.now.tag) (count * content.now.entry.size)
            (turns_where (has_turns self.now.types.now content.now.entry.held) start count) start) }
        ensures refused { HaveLiveHeaders self.now.bytes.bytes.now claims.old.unclaimed →
            IfErr result (λ fault. Refutes fault (CanClaim self.now.bytes.bytes.now claims.old
            pointer (word_of content.now.tag) (count * content.now.entry.size))) }
        ensures lacks { HaveLiveHeaders self.now.bytes.bytes.now claims.old.allocated → IfErr result
            (RefusesClaim self.now.bytes.bytes.now claims.old
            pointer (word_of content.now.tag) (count * content.now.entry.size)) }
    {
        self.owner(content).claim(claims, pointer, count)
    }

    /// Whether entries may have pointers, so that their values must be checked.
    pub(crate) fn has_turns(&self, entry: Entry) -> bool
        ensures { result ≡ has_turns self.now.types.now entry.held }
    {
        match entry.held {
            Held::Value(item) => self.types.has_pointers(item),
            Held::Bytes | Held::Pointer => false,
        }
    }
}

/// How a cell claims the blocks that it points to. It has its own copy of what each claim reads, since lists and
/// maps claim each of their nodes.
#[derive(Clone, Copy)]
pub(crate) struct Claimant<'a> {
    bytes: View<'a>,
    tag: Tag,
    entry_size: u32,
    /// Whether the entries may have pointers, so that they are put in the queue.
    has_turns: bool,
}

impl Claimant<'_> {
    ghost use Rattle.std.specs.Prelude.{◌*◌, IfErr, IfOk};
    ghost use Rattle.seg_block.specs.Tags.{word_of};
    ghost use Rattle.seg_check.specs.Claiming.{Refutes, HaveLiveHeaders, CanClaim, RefusesClaim, ClaimsBlock, turns_where};

    /// Claims the block that a pointer points to, which must have room for `n` entries, and returns the position of its
    /// payload.
    #[inline(always)]
    pub(crate) fn claim<A: Allocator>(
        self,
        claims: &mut Claims<A>,
        pointer: u32,
        count: u32,
    ) -> Result<PayloadAt, ContentFault>
        ensures taken { claims.new.taken ≡ claims.old.taken }
        ensures claimed { HaveLiveHeaders self.entry.bytes.bytes.now claims.old.unclaimed →
            IfOk result (λ start. ClaimsBlock self.entry.bytes.bytes.now claims.old claims.new
            pointer (word_of self.entry.tag) (count * self.entry.entry_size)
            (turns_where self.entry.has_turns start count) start) }
        ensures refused { HaveLiveHeaders self.entry.bytes.bytes.now claims.old.unclaimed →
            IfErr result (λ fault. Refutes fault (CanClaim self.entry.bytes.bytes.now claims.old
            pointer (word_of self.entry.tag) (count * self.entry.entry_size))) }
        ensures lacks { HaveLiveHeaders self.entry.bytes.bytes.now claims.old.allocated →
            IfErr result (RefusesClaim self.entry.bytes.bytes.now claims.old
            pointer (word_of self.entry.tag) (count * self.entry.entry_size)) }
    {
        let size = u64::from(count) * u64::from(self.entry_size);
        let start = claims.claim(self.bytes, pointer, self.tag, size)?;
        if self.has_turns {
            claims.await_turn(Turn { start, count })?;
        }
        Ok(start)
    }
}
