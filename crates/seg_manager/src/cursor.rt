//! The path to the key of a map that was returned last.

ghost use Rattle.std.specs.Prelude.{ℕ, List};
ghost use Rattle.seg_rbtree.specs.Following.{LeadsInside};
ghost use Rattle.seg_manager.specs.Cursors.{IsCursorInside};

use seg_map::KeyCursor;

/// A path in a map, which is only valid while it is kept.
#[derive(Drop)]
pub(crate) struct Cursor {
    pub(crate) key: KeyCursor,
    is_kept: bool,
}

impl Cursor {
    pub(crate) fn new() -> Cursor
        ensures { (bytes : List ℕ) → IsCursorInside bytes result }
    {
        Cursor {
            key: KeyCursor::new(),
            is_kept: false,
        }
    }

    /// Drops the path, which may be out of date from here on.
    // This is a single write, since it happens each time the heap is borrowed to be changed.
    pub(crate) fn lose(&mut self)
        ensures { (bytes : List ℕ) → IsCursorInside bytes self.new }
    {
        self.is_kept = false;
    }

    /// Keeps the path from here on: the present one, or the path to the root if it was dropped.
    pub(crate) fn keep(&mut self)
        ensures { (bytes : List ℕ) → IsCursorInside bytes self.old →
            LeadsInside bytes self.new.key.path }
    {
        if !self.is_kept {
            self.key.rewind();
            self.is_kept = true;
        }
    }
}
