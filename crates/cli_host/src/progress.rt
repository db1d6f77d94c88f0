//! A line on a terminal that shows how far long work is.

use cli_progress::{Watch, Work};
use std::cell::Cell;
use std::rt::Clock;
use std::time::Instant;

/// How many milliseconds a command works before it shows how far it is.
const PATIENCE: u128 = 1000;

/// How many bytes of an image are checked in a millisecond, at least.
const CHECKED: u64 = 1 << 19;

/// A whole bar.
const BAR: &str = "########################################";

/// The rest of an empty bar.
const GAP: &str = "                                        ";

/// What the terminal shows.
#[derive(Clone, Copy, PartialEq, Eq)]
struct Shown {
    work: Work,
    /// How much of the work is done. `None` if it can't tell.
    percent: Option<u64>,
}

/// Shows how far long work is, on the terminal of the error output.
#[derive(Drop)]
pub struct Progress<'a, R> {
    rt: &'a R,
    /// When the command began. `None` if nothing is shown.
    begun: Option<Instant>,
    shown: Cell<Option<Shown>>,
}

impl<'a, R: Clock + Eprint> Progress<'a, R> {
    /// Shows nothing unless it `is_wanted`.
    pub fn new(rt: &'a R, is_wanted: bool) -> Progress<'a, R> {
        let begun = if is_wanted {
            Instant::now(rt).ok()
        } else {
            None
        };
        Progress {
            rt,
            begun,
            shown: Cell::new(None),
        }
    }

    /// Removes the line.
    pub fn clear(&self) {
        if self.shown.get().is_some() {
            self.shown.set(None);
            let _ = eprint!(self.rt; "\r\x1b[K");
        }
    }

    /// Whether the command will have worked for longer than a second after some more milliseconds.
    fn is_due(&self, more: u64) -> bool {
        match self.begun {
            Some(begun) => match begun.elapsed(self.rt) {
                Ok(elapsed) => elapsed.as_millis().saturating_add(u128::from(more)) >= PATIENCE,
                Err(_) => false,
            },
            None => false,
        }
    }

    /// Notes what the terminal shows from now on. Returns false if it shows it already.
    fn note(&self, shown: Shown) -> bool {
        let is_new = self.shown.get() != Some(shown);
        self.shown.set(Some(shown));
        is_new
    }
}

// An error of the terminal is ignored: the command works all the same.
impl<R: Clock + Eprint> Watch for Progress<'_, R> {
    /// Shows how much of some work is done, if the command has worked for more than a second.
    fn show(&self, work: Work, done: u64, whole: u64) {
        if !self.is_due(0) {
            return;
        }
        let percent = share(100, done, whole);
        let is_new = self.note(Shown {
            work,
            percent: Some(percent),
        });
        if !is_new {
            return;
        }
        let marks = share(BAR.len() as u64, done, whole) as usize;
        let bar = BAR.get(..marks).unwrap_or("");
        let gap = GAP.get(marks..).unwrap_or("");
        let _ = eprint!(self.rt; "\r{} [{bar}{gap}] {percent:3} %\x1b[K", work.word());
    }

    /// Shows what the work is, with an empty bar, if the command will have worked for more than a second when the work is done.
    fn begin(&self, work: Work, bytes: u64) {
        let is_new = self.is_due(bytes / CHECKED)
            && self.note(Shown {
                work,
                percent: None,
            });
        if is_new {
            let _ = eprint!(self.rt; "\r{} [{}]\x1b[K", work.word(), GAP);
        }
    }
}

/// The part of `all` that corresponds to `done` of `whole`.
fn share(all: u64, done: u64, whole: u64) -> u64 {
    let part = u128::from(all) * u128::from(done.min(whole)) / u128::from(whole.max(1));
    u64::try_from(part).unwrap_or(all)
}
