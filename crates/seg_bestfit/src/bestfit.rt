use crate::free_tree::{best_fit, put_in, release_joined, take_front, take_out, take_whole};
use seg_block::{
    Block, BlockAt, Fit, FreeStructure, HEAP_START, UNIT, UNITS_BEFORE, block_at, cut, free_before,
    granted, is_live, last_block, resize, room_after, set_size,
};
use seg_ptr::Window;
use seg_ptr::header::{FREE, SIZE};
use seg_rbtree::{Path, TREE_WORDS};
use std::alloc::Allocator;

/// The best-fit allocator: it takes the smallest free block that is large enough, the lowest among equals. Sizes are in
/// units.
pub struct BestFit;

impl Fit for BestFit {
    ghost allocator = { 1 };

    fn word() -> u32 {
        1
    }

    fn free_words() -> u32 {
        TREE_WORDS
    }

    fn init<A: Allocator>(w: &mut Window<A>) {
        let units = w.len().saturating_sub(HEAP_START) / UNIT;
        w.put32(HEAP_START as usize + UNITS_BEFORE, 0);
        w.point(FREE, None);
        set_size(w, HEAP_START, units, true);
        let at = HEAP_START;
        Self::release(w, (), Block { at, units });
    }

    fn allocate<A: Allocator>(w: &mut Window<A>, need: u32) -> Option<BlockAt> {
        let mut path = Path::new(FREE);
        let gap = best_fit(&mut path, w, need)?;
        // no free block has a size between `need` and this block's size, so a rest of at least `need` units keeps its place
        // in the order
        if gap.units - need >= need {
            take_front(w, &path, gap, need);
            return Some(gap.at);
        }
        take_whole(w, &mut path, gap);
        cut::<Self, A>(w, (), gap, granted(gap.units, need));
        Some(gap.at)
    }

    fn free<A: Allocator>(w: &mut Window<A>, block: BlockAt) {
        let Some(block) = block_at(w, block) else {
            return;
        };
        let room = room_after(w, block);
        let whole = match free_before(w, block) {
            Some(gap) => {
                take_out(w, gap);
                Block {
                    units: gap.units + block.units,
                    ..gap
                }
            }
            None => block,
        };
        release_joined(w, whole, room);
    }

    fn resize<A: Allocator>(w: &mut Window<A>, block: Block, room: u32, units: u32) {
        resize::<Self, A>(w, block, room, units);
    }

    fn enlarge<A: Allocator>(w: &mut Window<A>, last: Block, units: u32) {
        if is_live(w, last.at) {
            set_size(w, last.at, units, true);
        } else {
            take_out(w, last);
            set_size(w, last.at, units, false);
            put_in(w, Block { units, ..last });
        }
    }

    fn cut_end<A: Allocator>(w: &mut Window<A>) -> u32 {
        let len = w.len();
        let Some(last) = last_block(w, len) else {
            return 0;
        };
        if is_live(w, last.at) {
            w.put32(SIZE, len / UNIT);
            return 0;
        }
        take_out(w, last);
        if last.at <= HEAP_START {
            w.put32(SIZE, HEAP_START / UNIT + 2);
            set_size(w, HEAP_START, 2, false);
            let at = HEAP_START;
            put_in(w, Block { at, units: 2 });
            return last.units - 2;
        }
        w.put32(SIZE, last.at / UNIT);
        last.units
    }
}
