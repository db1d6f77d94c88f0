ghost use Rattle.std.specs.Prelude.{◌≡◌, ◌≢◌, ℕ, ◌+◌, ◌-◌, ◌*◌, ◌/◌, ◌^◌, ◌<◌, ◌≤◌, ◌⊎◌, ◌↔◌, [], ◌∷◌, ◌++◌, length, IfErr, IfOk, IfSome, IsTrue, MatchOption, MatchResult, OnOk, get_or, vec_len, None, Some};
ghost use Rattle.seg_spec.specs.Heap.{heap_start};
ghost use Rattle.seg_spec.specs.Sound.{times};
ghost use Rattle.seg_block.specs.Tags.{word_of};
ghost use Rattle.seg_spec.specs.Bytes.{word};
ghost use Rattle.seg_spec.specs.Header.{next_word};
ghost use Rattle.seg_check.specs.Marks.{Known, nothing_known, slots_in, IsUnit, IsMarked, AreBlocksCounted, KeepsOtherBlocks, KeepsNaming, AddsBlock};
ghost use Rattle.seg_check.specs.Claiming.{Refutes, HaveLiveHeaders, CanClaim, RefusesClaim, ClaimsBlock};
ghost use Rattle.seg_check.specs.Naming.{IsUnder, CanName, NamesBlock, IsNameable, ClaimsFrozen, frozen_number_at, slot_of, left_at, one_less};
ghost use Rattle.seg_check.specs.Cells.{AreCountsRight};

use crate::bytes::{frozen_number, has_payload};
use crate::fault::ContentFault;
use crate::marks::{Mark, Marks, Turn, Waiting};
use seg_block::{BlockAt, HEAP_START, PayloadAt, Tag, UNIT, block_of};
use seg_cells::CellAt;
use seg_ptr::View;
use std::alloc::{AllocError, Allocator};
use std::marker::Model;

/// The offset of the pointer to a node's right child.
const RIGHT: u32 = 4;

/// The blocks of a heap: which of them have an owner, and which have values that are still to be checked.
#[derive(Drop)]
pub(crate) struct Claims<A: Allocator> {
    marks: Marks<A>,
    /// How many blocks are free.
    free: usize,
    /// How many allocated blocks have no owner so far.
    unclaimed: usize,
    /// The claimed blocks with values, in the order of their claims.
    queue: Vec<Waiting, A>,
    /// How many blocks of the queue were taken from it.
    taken: usize,
    /// For each two units, the frozen object that begins in one of them: how many more cells may point to it, or `None`
    /// if more point to it than it counts. Only for objects that a cell points to so far. Empty if no type shares
    /// objects.
    counts: Vec<Option<u32>, A>,
    /// Whether a cell points to a frozen object so far.
    has_named: bool,
    /// While the values of a frozen object are checked, its number: objects that they point to have lower ones.
    below: Option<u32>,
    /// What `look_ahead` read last. Nothing depends on it, but the compiler keeps the reads, since it is stored.
    ahead: u32,
}

impl<A: Allocator> Model for Claims<A> {
    ghost use Rattle.std.specs.Prelude.{◌≡◌, ◌≤◌, ◌^◌, false, length};
    ghost use Rattle.seg_check.specs.Marks.{Known, known_of, HasNoneNamed};

    ghost Value = { Known };

    ghost view = { λ c. known_of c.marks c.unclaimed c.free c.queue.items c.taken
        c.counts.items c.below };

    ghost invariant = { λ c. (length c.marks ≤ 2 ^ 26) × (c.taken ≤ length c.queue.items)
        × (c.has_named ≡ false → HasNoneNamed c.marks) };
}

impl<A: Allocator> Claims<A> {
    /// No block is known yet. `counts` is only allocated if cells share objects.
    pub(crate) fn new(alloc: A, bytes: View, shares: bool) -> Result<Claims<A>, AllocError>
    where
        A: Copy,
        ensures { IfOk result (λ claims.
            claims ≡ nothing_known ((length bytes.entry.bytes.now - heap_start) / UNIT)
            (slots_in shares ((length bytes.entry.bytes.now - heap_start) / UNIT))) }
    {
        let units = bytes.len().saturating_sub(HEAP_START as usize) / UNIT as usize;
        let slots = if shares {
            units.saturating_add(1) / 2
        } else {
            0
        };
        Ok(Claims {
            marks: Marks::new(alloc, units)?,
            free: 0,
            unclaimed: 0,
            // a block has at least two units, and is claimed at most once
            queue: Vec::with_capacity(alloc, units / 2)?,
            taken: 0,
            counts: Vec::from_elem(alloc, None, slots)?,
            has_named: false,
            below: None,
            ahead: 0,
        })
    }

    /// Adds the block at a position, which wasn't added before. There are fewer blocks than units, so that no count of
    /// them wraps.
    #[inline(always)]
    pub(crate) fn add(&mut self, block: BlockAt, is_live: bool)
        ensures added { IsUnit self.old.units block → times block self.old.unclaimed ≡ 0 →
            times block self.old.free ≡ 0 → times block self.old.allocated ≡ 0 →
            AddsBlock self.old block is_live self.new }
        ensures units { self.new.units ≡ self.old.units }
    {
        if is_live {
            self.set_mark(block, Mark::Live);
            self.unclaimed = self.unclaimed.wrapping_add(1);
        } else {
            self.set_mark(block, Mark::Free);
            self.free = self.free.wrapping_add(1);
        }
    }

    #[inline(always)]
    fn set_mark(&mut self, block: BlockAt, new: Mark)
        ensures own { IsUnit self.old.units block → IsMarked self.new block new }
        ensures live { IsMarked self.old block Mark.Live → IsMarked self.new block new }
        ensures others { KeepsOtherBlocks self.old self.new block }
    {
        if let Some(unit) = self.unit_at(block) {
            self.marks.set(unit, new);
            self.has_named |= new.is_named();
        }
    }

    fn mark(&self, block: BlockAt) -> Mark
        ensures { IsMarked self.now block result }
    {
        match self.unit_at(block) {
            Some(unit) => self.marks.get(unit),
            None => Mark::Inside,
        }
    }

    /// The index of the heap's unit that begins at a position, if one does.
    fn unit_at(&self, position: u32) -> Option<usize>
        ensures unit { IfSome result (λ unit.
            (position ≡ heap_start + UNIT * unit) × (unit < self.now.units)) }
        ensures none { result ≡ None → IsUnit self.now.units position → ⊥ }
    {
        let from_start = position.checked_sub(HEAP_START)?;
        let unit = (from_start / UNIT) as usize;
        if from_start % UNIT == 0 && unit < self.marks.len() {
            Some(unit)
        } else {
            None
        }
    }

    /// Whether a free block begins at this position.
    pub(crate) fn is_free(&self, block: BlockAt) -> bool
        ensures { IsTrue result ↔ (1 ≤ times block self.now.free) }
    {
        self.mark(block).is_free()
    }

    pub(crate) fn free_count(&self) -> usize
        ensures { result ≡ self.now.free_count }
    {
        self.free
    }

    /// Claims the block that a pointer points to, and returns the position of its payload. `BadPointer` if it isn't an
    /// allocated block of this tag with a payload of `size` bytes, then `DoubleOwner` if it was claimed before.
    // Inlined, since a check consists mostly of claims.
    #[inline(always)]
    pub(crate) fn claim(
        &mut self,
        bytes: View,
        pointer: u32,
        tag: Tag,
        size: u64,
    ) -> Result<PayloadAt, ContentFault>
        ensures taken { self.new.taken ≡ self.old.taken }
        ensures claimed { HaveLiveHeaders bytes.entry.bytes.now self.old.unclaimed → IfOk result
            (ClaimsBlock bytes.entry.bytes.now self.old self.new pointer (word_of tag) size []) }
        ensures refused { HaveLiveHeaders bytes.entry.bytes.now self.old.unclaimed →
            IfErr result (λ fault.
            Refutes fault (CanClaim bytes.entry.bytes.now self.old pointer (word_of tag) size)) }
        ensures lacks { HaveLiveHeaders bytes.entry.bytes.now self.old.allocated → IfErr result
            (RefusesClaim bytes.entry.bytes.now self.old pointer (word_of tag) size) }
    {
        let bad = ContentFault::BadPointer(pointer);
        let Some(start) = bytes.target(pointer as usize) else {
            return Err(bad);
        };
        let block = block_of(start);
        let Some(unit) = self.unit_at(block) else {
            return Err(bad);
        };
        if !has_payload(bytes, block, tag.word(), size) {
            return Err(bad);
        }
        match self.marks.get(unit) {
            Mark::Live => {
                self.marks.claim(unit);
                self.unclaimed = self.unclaimed.wrapping_sub(1);
                Ok(start)
            }
            Mark::Claimed | Mark::Named => Err(ContentFault::DoubleOwner(block)),
            Mark::Inside | Mark::Free => Err(bad),
        }
    }

    /// Reads the nodes three links below the one that a pointer points to. The processor fetches them from memory together,
    /// and they are in its cache when the walk reaches them. Without these reads, the walk would wait for one node after the
    /// other.
    #[inline(always)]
    pub(crate) fn look_ahead(&mut self, bytes: View, pointer: u32)
        ensures { self.new ≡ self.old }
    {
        if let Some(node) = bytes.target(pointer as usize) {
            let right = node.wrapping_add(RIGHT);
            self.ahead = far_below(bytes, node) ^ far_below(bytes, right);
        }
    }

    /// Puts a claimed block in the queue. What owns it now owns its values.
    pub(crate) fn await_turn(&mut self, turn: Turn) -> Result<(), ContentFault>
        ensures taken { self.new.taken ≡ self.old.taken }
        ensures waits { OnOk result (self.new ≡ record self.old {
          turns = self.old.turns ++ record { turn = turn; below = self.old.naming.below } ∷ [];
        }) }
        ensures refused { IfErr result (λ fault. fault ≡ ContentFault.Memory) }
    {
        let below = self.below;
        self.queue.push(Waiting { turn, below })?;
        Ok(())
    }

    /// Counts a cell that points to a frozen object, and returns the position of the object's payload. The first such
    /// cell claims the object. `BadPointer` if the cell doesn't point to a frozen object of this tag with a payload of
    /// `size` bytes.
    pub(crate) fn name(
        &mut self,
        bytes: View,
        cell: CellAt,
        tag: Tag,
        size: u64,
    ) -> Result<PayloadAt, ContentFault>
        ensures taken { self.new.taken ≡ self.old.taken }
        ensures named { IsNameable bytes.entry.bytes.now self.old →
            IfOk result
            (NamesBlock bytes.entry.bytes.now self.old self.new cell (word_of tag) size) }
        ensures refused { IsNameable bytes.entry.bytes.now self.old →
            IfErr result (λ fault. Refutes fault
            (CanName bytes.entry.bytes.now self.old cell (word_of tag) size)) }
        ensures fault { IfErr result (λ fault.
            (fault ≡ ContentFault.Memory) ⊎ (fault ≡ ContentFault.BadPointer cell)) }
    {
        let bad = ContentFault::BadPointer(cell);
        let Some(start) = bytes.target(cell as usize) else {
            return Err(bad);
        };
        let block = block_of(start);
        let mark = self.mark(block);
        if mark == Mark::Inside || !has_payload(bytes, block, tag.word(), size) {
            return Err(bad);
        }
        let left = match mark {
            Mark::Live => {
                let turn = Turn { start, count: 1 };
                let below = Some(frozen_number(bytes, start));
                self.claim_frozen(block, Waiting { turn, below })?;
                Some(bytes.get32(start as usize))
            }
            Mark::Named => self.left(block),
            Mark::Inside | Mark::Free | Mark::Claimed => return Err(bad),
        };
        self.put_left(block, one_less(left));
        Ok(start)
    }

    /// Claims the block of a frozen object that has no owner so far, and puts it in the queue.
    fn claim_frozen(&mut self, block: BlockAt, waiting: Waiting) -> Result<(), ContentFault>
        ensures taken { self.new.taken ≡ self.old.taken }
        ensures claimed { IsMarked self.old block Mark.Live →
            OnOk result (ClaimsFrozen self.old self.new block waiting) }
        ensures refused { IfErr result (λ fault. fault ≡ ContentFault.Memory) }
    {
        self.set_mark(block, Mark::Named);
        self.unclaimed = self.unclaimed.wrapping_sub(1);
        self.queue.push(waiting)?;
        Ok(())
    }

    /// How many more cells may point to the frozen object in a block.
    fn left(&self, block: BlockAt) -> Option<u32>
        ensures { heap_start ≤ block → result ≡ left_at self.now block }
    {
        let slot = block.wrapping_sub(HEAP_START) / (2 * UNIT);
        self.counts.get(slot as usize).copied().flatten()
    }

    /// Sets how many more cells may point to the frozen object in a block.
    fn put_left(&mut self, block: BlockAt, left: Option<u32>)
        ensures own { heap_start ≤ block → slot_of block < length self.old.naming.counts →
            left_at self.new block ≡ left }
        ensures others { heap_start ≤ block → (h : ℕ) → slot_of h ≢ slot_of block →
            left_at self.new h ≡ left_at self.old h }
        ensures slots { length self.new.naming.counts ≡ length self.old.naming.counts }
        ensures kept { self.new ≡ record self.old {
          naming =
              record self.old.naming { counts = self.new.naming.counts };
        } }
    {
        let slot = block.wrapping_sub(HEAP_START) / (2 * UNIT);
        if let Some(count) = self.counts.get_mut(slot as usize) {
            *count = left;
        }
    }

    /// Whether cells may now point to a frozen object with this number.
    pub(crate) fn may_name(&self, number: u32) -> bool
        ensures { IsTrue result ↔ IsUnder self.now.naming.below number }
    {
        match self.below {
            Some(below) => number < below,
            None => true,
        }
    }

    /// The next block of the queue, in the order of the claims.
    pub(crate) fn next_turn(&mut self) -> Option<Turn>
        ensures next { IfSome result (λ _.
            (self.old.taken < 2 ^ 64) × (self.new.taken ≡ self.old.taken + 1)) }
        ensures allocated { self.new.allocated ≡ self.old.allocated }
        ensures unclaimed { self.new.unclaimed ≡ self.old.unclaimed }
        ensures counted { AreBlocksCounted self.old → AreBlocksCounted self.new }
        ensures turns { MatchOption result (self.old.turns ≡ [])
            (λ turn. self.old.turns
            ≡ record { turn = turn; below = self.new.naming.below } ∷ self.new.turns) }
        ensures naming { KeepsNaming self.old self.new }
    {
        let next = self.queue.get(self.taken).copied()?;
        self.taken += 1;
        self.below = next.below;
        Some(next.turn)
    }

    /// Checks the frozen objects that cells point to, by ascending position: each counts its cells, and has a number
    /// below `next`.
    pub(crate) fn check_counts(&self, bytes: View, next: u32) -> Result<(), ContentFault>
        ensures { next ≡ word bytes.entry.bytes.now next_word →
            MatchResult result (λ _. AreCountsRight bytes.entry.bytes.now self.now)
            (λ fault. Refutes fault (AreCountsRight bytes.entry.bytes.now self.now) ×
            ((block : ℕ) × (fault ≡ ContentFault.BadValue (block + UNIT)) ×
            (1 ≤ times block self.now.naming.named))) }
    {
        if !self.has_named {
            return Ok(());
        }
        let marks = &self.marks;
        let mut block = HEAP_START;
        for unit in 0..marks.len() {
            let mark = marks.get(unit);
            if mark.is_named() && !self.is_right(bytes, block, next) {
                return Err(ContentFault::BadValue(block.saturating_add(UNIT)));
            }
            block = block.saturating_add(UNIT);
        }
        Ok(())
    }

    /// Whether the frozen object in a block counts its cells, and has a number below `next`.
    fn is_right(&self, bytes: View, block: BlockAt, next: u32) -> bool
        ensures { heap_start ≤ block → block + 20 < 2 ^ 32 → IsTrue result
            ↔ ((left_at self.now block ≡ Some 0)
            × (frozen_number_at bytes.entry.bytes.now (block + 16) < next)) }
    {
        let number = frozen_number(bytes, block.wrapping_add(UNIT));
        self.left(block) == Some(0) && number < next
    }

    /// The lowest allocated block without an owner.
    pub(crate) fn first_unowned(&self) -> Option<BlockAt>
        ensures { AreBlocksCounted self.now → MatchOption result (self.now.unclaimed ≡ [])
            (λ block. (1 ≤ times block self.now.unclaimed) ×
            ((h : ℕ) → 1 ≤ times h self.now.unclaimed → block ≤ h)) }
    {
        if self.unclaimed == 0 {
            return None;
        }
        let marks = &self.marks;
        let mut block = HEAP_START;
        for unit in 0..marks.len() {
            let mark = marks.get(unit);
            if mark.is_unclaimed() {
                return Some(block);
            }
            block = block.saturating_add(UNIT);
        }
        None
    }
}

/// A count after one more cell, or `None` if it was 0 or `None`.
fn one_less(left: Option<u32>) -> Option<u32>
    ensures { result ≡ one_less left }
{
    match left {
        Some(left) => left.checked_sub(1),
        None => None,
    }
}

/// Words of the grandchildren of the node that a pointer points to.
#[inline(always)]
fn far_below(bytes: View, pointer: u32) -> u32 {
    match bytes.target(pointer as usize) {
        Some(node) => below(bytes, node) ^ below(bytes, node.wrapping_add(RIGHT)),
        None => 0,
    }
}

/// Words of the children of the node that a pointer points to.
#[inline(always)]
fn below(bytes: View, pointer: u32) -> u32 {
    match bytes.target(pointer as usize) {
        Some(node) => ends_of(bytes, node) ^ ends_of(bytes, node.wrapping_add(RIGHT)),
        None => 0,
    }
}

/// Words of the node that a pointer points to: of its block's header, and of what follows its tree fields. They may lie in
/// two lines of the processor's cache.
#[inline(always)]
fn ends_of(bytes: View, pointer: u32) -> u32 {
    let node = bytes.get32(pointer as usize).wrapping_add(pointer);
    let (header, key) = (node.wrapping_sub(UNIT / 2), node.wrapping_add(UNIT));
    bytes.get32(header as usize) ^ bytes.get32(key as usize)
}
