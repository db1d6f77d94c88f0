use crate::watch::Watch;
use crate::work::Work;

/// How many units of work are done between two calls of a watch. A unit, for example a value or a byte of a text, takes at most
/// a few microseconds.
const STEP: u64 = 1 << 14;

/// Decides when a watch is told how far work is: once in many units, so that telling it costs almost nothing.
#[derive(Clone, Copy)]
pub struct Pace {
    /// How many units were done when the watch was last told.
    told: u64,
}

impl Pace {
    /// The pace of work that begins.
    pub fn new() -> Pace {
        Pace { told: 0 }
    }

    /// Shows that this many of some units are done, if it is due.
    pub fn show(&mut self, watch: &dyn Watch, work: Work, done: u64, whole: u64) {
        if self.is_due(done) {
            watch.show(work, done, whole);
        }
    }

    /// Whether to tell the watch now that this many units are done.
    pub fn is_due(&mut self, done: u64) -> bool {
        let is_due = done.saturating_sub(self.told) >= STEP;
        if is_due {
            self.told = done;
        }
        is_due
    }
}
