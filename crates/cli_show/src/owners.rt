use crate::blocks::{blocks, live_tag};
use crate::extent::Extent;
use crate::roots::{Root, value_count};
use crate::walk::{Met, ValueWalk, most_turns};
use cli_progress::{Watch, Work};
use seg_block::{Block, Fit, HEAP_START, Tag, UNIT};
use seg_manager::{Heap, Place, Type, Window};
use std::alloc::{AllocError, Global};

/// A block of the heap, its purpose, and the object that it belongs to.
#[derive(Clone, Copy)]
pub(crate) struct OwnedBlock {
    pub(crate) block: Block,
    /// `None` if the block is free.
    pub(crate) tag: Option<Tag>,
    /// The object's index in the list of objects.
    pub(crate) root: Option<u32>,
}

/// How many bytes of the heap share an entry of the table of blocks.
const PAGE: u32 = 256;

/// The blocks of a segment's heap in ascending order of their positions, each with the object that it belongs to.
pub(crate) fn owned_blocks<F: Fit>(
    alloc: Global,
    heap: &Heap<F, Global>,
    roots: &[Root],
    watch: &dyn Watch,
) -> Result<Vec<OwnedBlock>, AllocError> {
    let blocks = unowned_blocks(alloc, heap.window(), watch)?;
    let mut claims = Claims {
        before: blocks_before(alloc, heap.window(), blocks.as_slice())?,
        blocks,
        last: NO_BLOCK,
        walk: ValueWalk::new(alloc, Extent::All, Work::Mapping, value_count(roots)),
    };
    for (root, index) in roots.iter().zip(0..u32::MAX) {
        claims.last = NO_BLOCK;
        claim_object(heap, &mut claims, root, index, watch)?;
    }
    let Claims { blocks, .. } = claims;
    Ok(blocks)
}

/// The blocks, each without an object.
pub(crate) fn unowned_blocks(
    alloc: Global,
    w: &Window<Global>,
    watch: &dyn Watch,
) -> Result<Vec<OwnedBlock>, AllocError> {
    let mut unowned = Vec::new(alloc);
    for block in &blocks(alloc, w, watch)? {
        unowned.push(OwnedBlock {
            block: *block,
            tag: live_tag(w, block.at),
            root: None,
        })?;
    }
    Ok(unowned)
}

/// How many blocks begin before each page of the heap, and how many there are.
fn blocks_before(
    alloc: Global,
    w: &Window<Global>,
    blocks: &[OwnedBlock],
) -> Result<Vec<u32>, AllocError> {
    let mut before = Vec::new(alloc);
    let mut count: u32 = 0;
    for it in blocks {
        let pages = page_of(it.block.at).saturating_add(1);
        before.resize(pages.max(before.len()), count)?;
        count = count.saturating_add(1);
    }
    before.resize(page_of(w.len()).saturating_add(2), count)?;
    Ok(before)
}

/// The page of the heap that contains a position.
fn page_of(at: u32) -> usize {
    (at.saturating_sub(HEAP_START) / PAGE) as usize
}

/// A block that contains no position.
const NO_BLOCK: Block = Block { at: 0, units: 0 };

/// Blocks that objects claim.
#[derive(Drop)]
struct Claims {
    blocks: Vec<OwnedBlock>,
    /// How many of the blocks begin before each page, and at last how many there are.
    before: Vec<u32>,
    /// The block that the object claimed last. All fields of a struct are in one block.
    last: Block,
    /// The walk through the objects that claim them.
    walk: ValueWalk,
}

impl Claims {
    /// Assigns to an object the block that contains a position, if there is one.
    fn claim(&mut self, at: u32, index: u32) {
        if contains(self.last, at) {
            return;
        }
        let page = page_of(at);
        let first = self.before_page(page).saturating_sub(1);
        let end = self.before_page(page.saturating_add(1));
        let near = self.blocks.get(first..end).unwrap_or_default();
        if let Some(found) = block_around(near, at) {
            if let Some(block) = self.blocks.get_mut(first.saturating_add(found)) {
                block.root = Some(index);
                self.last = block.block;
            }
        }
    }

    fn before_page(&self, page: usize) -> usize {
        self.before.get(page).copied().unwrap_or(0) as usize
    }
}

/// Assigns blocks to an object: its own, and those of all values inside it.
fn claim_object<F: Fit>(
    heap: &Heap<F, Global>,
    claims: &mut Claims,
    root: &Root,
    index: u32,
    watch: &dyn Watch,
) -> Result<(), AllocError> {
    let size = heap.types().size(root.first.type_id);
    for value in 0..root.count {
        claim_value(heap, claims, root.value(value, size), index, watch)?;
    }
    Ok(())
}

/// Assigns to an object the blocks of a value and of all values inside it.
fn claim_value<F: Fit>(
    heap: &Heap<F, Global>,
    claims: &mut Claims,
    value: Place,
    index: u32,
    watch: &dyn Watch,
) -> Result<(), AllocError> {
    claim_blocks(heap, claims, value, index);
    claims.walk.begin(heap, value, watch)?;
    for _ in 0..most_turns(heap.window().len()) {
        match claims.walk.next(heap, watch)? {
            Some(Met::Part { part, .. }) => claim_blocks(heap, claims, part.place, index),
            Some(Met::End { .. }) => {}
            None => break,
        }
    }
    Ok(())
}

/// Assigns to an object the block that contains a value, and the value's buffer.
fn claim_blocks<F: Fit>(heap: &Heap<F, Global>, claims: &mut Claims, value: Place, index: u32) {
    claims.claim(value.at, index);
    match heap.types().kind(value.type_id) {
        Some(Type::Str | Type::Vec(_) | Type::FlatMap(_)) => {
            claims.claim(heap.start(value.at), index);
        }
        // nodes and objects are assigned when the walk reaches the values in them
        Some(Type::List(_) | Type::Map(_) | Type::Own(_)) => {}
        Some(Type::I64 | Type::Struct(_) | Type::Shared(_)) | None => {}
    }
}

/// Whether a position is in a block.
fn contains(block: Block, at: u32) -> bool {
    at.checked_sub(block.at)
        .is_some_and(|offset| offset / UNIT < block.units)
}

/// The last block that begins at or before a position.
fn block_around(blocks: &[OwnedBlock], at: u32) -> Option<usize> {
    match blocks.binary_search_by(|it| it.block.at.cmp(&at)) {
        Ok(found) => Some(found),
        Err(following) => following.checked_sub(1),
    }
}
