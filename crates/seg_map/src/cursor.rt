ghost use Rattle.std.specs.Prelude.{ℕ, List};
ghost use Rattle.seg_rbtree.specs.Following.{LeadsInside};

use seg_rbtree::Path;

/// Where a walk through the keys of a map is, so that the next key is found without a search: the path to the last key
/// in a tree map, the index of its entry in a flat map.
///
/// If the map was changed since, a path is out of date, but an index isn't: it is only used if the key is there.
#[derive(Drop)]
pub struct KeyCursor {
    pub(crate) path: Path,
    pub(crate) index: u32,
}

impl KeyCursor {
    /// A cursor that is at no key.
    #[inline(always)]
    pub fn new() -> KeyCursor
        ensures inside { (bytes : List ℕ) → LeadsInside bytes result.path }
    {
        KeyCursor {
            path: Path::new(0),
            index: 0,
        }
    }

    /// Forgets the path.
    pub fn rewind(&mut self)
        ensures inside { (bytes : List ℕ) → LeadsInside bytes self.new.path }
    {
        self.path.rewind();
    }
}
