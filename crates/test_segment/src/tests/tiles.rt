//! The blocks of a heap.

use seg_block::{HEAP_START, UNIT, block_at, is_live};
use seg_image::Window;
use std::alloc::Global;
use support_data::number;

/// The rest of a text after its first word, if that is this block: its position and its units, as `704/2`.
fn after_block(text: &str, at: u32, units: u32) -> Option<&str> {
    let (word, rest) = text.split_once(' ').unwrap_or((text, ""));
    let (told_at, told_units) = word.split_once('/')?;
    (number(told_at) == Some(at) && number(told_units) == Some(units)).then_some(rest)
}

/// Whether the words of a text are the allocated blocks, in order.
pub(crate) fn are_live(w: &Window<Global>, text: &str) -> bool {
    let mut rest = text;
    let mut at = HEAP_START;
    for _ in 0..w.len() / UNIT {
        let Some(block) = block_at(w, at) else {
            break;
        };
        if is_live(w, at) {
            match after_block(rest, at, block.units) {
                Some(after) => rest = after,
                None => return false,
            }
        }
        at = block.at + UNIT * block.units;
    }
    rest.is_empty()
}
