use crate::work::Work;

/// Is told how far long work is. What it is told changes nothing that a command prints or writes.
pub trait Watch {
    /// `done` of `whole` of some work is done.
    fn show(&self, work: Work, done: u64, whole: u64);

    /// Work on this many bytes begins, and can't tell how far it is.
    fn begin(&self, work: Work, bytes: u64);
}

/// A watch that ignores what it is told.
#[derive(Clone, Copy)]
pub struct Silent;

impl Watch for Silent {
    fn show(&self, _work: Work, _done: u64, _whole: u64) {}

    fn begin(&self, _work: Work, _bytes: u64) {}
}
