ghost use Rattle.std.specs.Prelude.{ℕ};

use crate::free_list::{release_joined, take_front, take_whole};
use crate::search::{Found, first_fit, link_before};
use seg_block::{
    Block, BlockAt, Fit, HEAP_START, LINK, TAG, UNIT, UNITS_BEFORE, block_at, granted, is_live,
    last_block, resize, set_size,
};
use seg_ptr::Window;
use seg_ptr::header::{FREE, SIZE};
use std::alloc::Allocator;

/// The sequential-fit allocator: it takes the lowest free block that is large enough.
pub struct SeqFit;

impl Fit for SeqFit {
    ghost allocator = { 0 };

    fn word() -> u32 {
        0
    }

    fn free_words() -> u32 {
        0
    }

    fn init<A: Allocator>(w: &mut Window<A>) {
        let units = w.len().saturating_sub(HEAP_START) / UNIT;
        w.put32(HEAP_START as usize + UNITS_BEFORE, 0);
        w.put32(HEAP_START as usize + TAG, 0);
        w.point(HEAP_START as usize + LINK, None);
        w.point(FREE, Some(HEAP_START + UNIT));
        set_size(w, HEAP_START, units, false);
    }

    // Inlined: a call would take a fifth of its instructions.
    #[inline(always)]
    fn allocate<A: Allocator>(w: &mut Window<A>, need: u32) -> Option<BlockAt> {
        let Found { link, block, next } = first_fit(w, need)?;
        let units = granted(block.units, need);
        let bytes = w.bytes_mut();
        if units == block.units {
            take_whole(bytes, link, block, next);
        } else {
            take_front(bytes, link, block, next, units);
        }
        Some(block.at)
    }

    fn free<A: Allocator>(w: &mut Window<A>, block: BlockAt) {
        let Some(block) = block_at(w, block) else {
            return;
        };
        release_joined(w, block);
    }

    fn resize<A: Allocator>(w: &mut Window<A>, block: Block, room: u32, units: u32) {
        resize::<Self, A>(w, block, room, units);
    }

    fn enlarge<A: Allocator>(w: &mut Window<A>, last: Block, units: u32) {
        let live = is_live(w, last.at);
        set_size(w, last.at, units, live);
    }

    fn cut_end<A: Allocator>(w: &mut Window<A>) -> u32 {
        let len = w.len();
        let Some(last) = last_block(w, len) else {
            return 0;
        };
        if is_live(w, last.at) {
            w.put32(SIZE, len / UNIT);
            return 0;
        }
        if last.at <= HEAP_START {
            w.put32(SIZE, HEAP_START / UNIT + 2);
            set_size(w, HEAP_START, 2, false);
            return last.units - 2;
        }
        let link = link_before(w, last);
        w.put32(SIZE, last.at / UNIT);
        w.point(link, None);
        last.units
    }
}
