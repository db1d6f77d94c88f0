use crate::extent::Extent;
use crate::parts::{Parts, ValuePart};
use cli_progress::{Pace, Watch, Work};
use seg_block::Fit;
use seg_manager::{Heap, MAX_TYPES, Place, Type};
use seg_map::KeyCursor;
use std::alloc::{AllocError, Global};

/// All of a walk, of which a watch is told how much is done.
const WHOLE: u64 = 1 << 60;

/// How many bytes of a text take as long as a value.
const TEXT: u32 = 16;

/// An event of a walk through a value.
#[derive(Clone, Copy)]
pub(crate) enum Met {
    /// A value inside it, at this level, counted from 1.
    Part {
        level: usize,
        part: ValuePart,
    },
    /// The end of a value whose parts are at this level; `rest` is how many of them the walk skipped.
    End {
        whole: Place,
        level: usize,
        rest: u32,
    },
}

/// A walk through values, one after the other, and through all values inside each of them, each before the values inside it. It
/// needs host memory for the values on its path, and no recursion. Now and then it tells a watch how far it is.
#[derive(Drop)]
pub(crate) struct ValueWalk {
    /// The values on the path, the outermost first.
    open: Vec<Parts>,
    /// The path to the last key of a map.
    cursor: KeyCursor,
    extent: Extent,
    /// What the walk is for.
    work: Work,
    /// How many values it walks through, and how many of them were begun or skipped.
    count: u64,
    begun: u64,
    /// The values that it met, and the bytes of texts, in units of work.
    units: u64,
    pace: Pace,
}

impl ValueWalk {
    /// A walk through this many values.
    pub(crate) fn new(alloc: Global, extent: Extent, work: Work, count: u64) -> ValueWalk {
        ValueWalk {
            open: Vec::new(alloc),
            cursor: KeyCursor::new(),
            extent,
            work,
            count,
            begun: 0,
            units: 0,
            pace: Pace::new(),
        }
    }

    pub(crate) fn alloc(&self) -> Global {
        *self.open.allocator()
    }

    /// Skips this many values.
    pub(crate) fn skip(&mut self, count: u16) {
        self.begun = self.begun.saturating_add(u64::from(count));
    }

    /// Begins the next value.
    pub(crate) fn begin<F: Fit>(
        &mut self,
        heap: &Heap<F, Global>,
        value: Place,
        watch: &dyn Watch,
    ) -> Result<(), AllocError> {
        self.begun = self.begun.saturating_add(1);
        self.open.clear();
        self.enter(heap, value, watch)
    }

    /// The next event inside the value, or `None` after all its parts.
    pub(crate) fn next<F: Fit>(
        &mut self,
        heap: &Heap<F, Global>,
        watch: &dyn Watch,
    ) -> Result<Option<Met>, AllocError> {
        let level = self.open.len();
        let Some(parts) = self.open.last_mut() else {
            return Ok(None);
        };
        let whole = parts.whole();
        if parts.came() >= self.extent.parts() || level > self.extent.level() {
            let rest = parts.left();
            self.open.truncate(level.saturating_sub(1));
            return Ok(Some(Met::End { whole, level, rest }));
        }
        let Some(part) = parts.next(heap, &mut self.cursor) else {
            self.open.truncate(level.saturating_sub(1));
            return Ok(Some(Met::End {
                whole,
                level,
                rest: 0,
            }));
        };
        self.enter(heap, part.place, watch)?;
        Ok(Some(Met::Part { level, part }))
    }

    /// Continues with the parts of a value.
    fn enter<F: Fit>(
        &mut self,
        heap: &Heap<F, Global>,
        value: Place,
        watch: &dyn Watch,
    ) -> Result<(), AllocError> {
        self.open.push(Parts::of(heap, value))?;
        self.units = self.units.saturating_add(units(heap, value));
        if self.pace.is_due(self.units) {
            watch.show(self.work, self.done(), WHOLE);
        }
        Ok(())
    }

    /// How much of the walk is done, of `WHOLE`, as if the parts of each value took equally long.
    fn done(&self) -> u64 {
        let mut share = WHOLE / self.count.max(1);
        let mut done = self.begun.saturating_sub(1).saturating_mul(share);
        for parts in &self.open {
            // the last part that came is on the path, so it isn't done
            let came = parts.came().saturating_sub(1);
            share /= u64::from(parts.count()).max(1);
            done = done.saturating_add(u64::from(came).saturating_mul(share));
        }
        done
    }
}

/// How much work a value is, without the values inside it.
fn units<F: Fit>(heap: &Heap<F, Global>, value: Place) -> u64 {
    let bytes = match heap.types().kind(value.type_id) {
        Some(Type::Str) => heap.count(value.at),
        Some(_) | None => 0,
    };
    u64::from(bytes / TEXT).saturating_add(1)
}

/// An upper bound for the number of events of a walk in a segment of `len` bytes. Every 8 bytes belong to one value, or to
/// structs in one another, of which there are at most as many as types; and a walk has two events for each value, at its
/// beginning and at its end.
pub(crate) fn most_turns(len: u32) -> u64 {
    u64::from(len) / 8 * 2 * MAX_TYPES as u64
}
