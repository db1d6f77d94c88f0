use cli_progress::{Pace, Watch, Work};
use seg_block::{Block, HEAP_START, Tag, UNIT, block_at, is_live, tag_word};
use seg_manager::Window;
use std::alloc::{AllocError, Global};

/// All blocks of the heap, with free ones, in ascending order of their positions.
pub(crate) fn blocks(
    alloc: Global,
    w: &Window<Global>,
    watch: &dyn Watch,
) -> Result<Vec<Block>, AllocError> {
    let mut blocks = Vec::new(alloc);
    let mut pace = Pace::new();
    let mut at = HEAP_START;
    for _ in 0..w.len() / UNIT {
        let Some(block) = block_at(w, at) else {
            break;
        };
        blocks.push(block)?;
        if pace.is_due(blocks.len() as u64) {
            watch.show(Work::Scanning, u64::from(at), u64::from(w.len()));
        }
        at = at.saturating_add(block.units.saturating_mul(UNIT));
    }
    Ok(blocks)
}

/// The tag of the block at a position, if it is allocated.
pub(crate) fn live_tag(w: &Window<Global>, block: u32) -> Option<Tag> {
    if is_live(w, block) {
        Tag::read(tag_word(w, block))
    } else {
        None
    }
}
