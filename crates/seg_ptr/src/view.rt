ghost use Rattle.std.specs.Prelude.{◌≡◌, ◌+◌, ◌<◌, ◌≤◌, ◌↔◌, [], length, IsTrue};
ghost use Rattle.seg_spec.specs.Bytes.{slice, byte, half, word, long};
ghost use Rattle.seg_spec.specs.Pointer.{target};
ghost use Rattle.seg_ptr.specs.declared.window.TheConstants.{MAX_LEN};

use crate::pointer::named;

/// The bytes of a segment's [`Window`](crate::Window), or of an image that a host borrows, to read. It reads like a
/// window: a number that doesn't lie in the bytes is 0.
// A copy of this stays in registers. A window behind a reference doesn't if other memory is written meanwhile.
#[derive(Debug, Clone, Copy)]
pub struct View<'a> {
    bytes: &'a [u8],
    // A view is never longer than a segment may be.
    pub ghost small: { length bytes.now ≤ MAX_LEN },
}

impl<'a> View<'a> {
    /// The view of at most [`MAX_LEN`](crate::MAX_LEN) bytes.
    pub fn new(bytes: &'a [u8]) -> View<'a>
        requires { length bytes.now ≤ MAX_LEN }
        ensures { result.bytes.now ≡ bytes.now }
    {
        View { bytes }
    }

    pub fn len(self) -> usize
        ensures { result ≡ length self.entry.bytes.now }
    {
        self.bytes.len()
    }

    pub fn is_empty(self) -> bool
        ensures { IsTrue result ↔ (length self.entry.bytes.now ≡ 0) }
    {
        self.bytes.is_empty()
    }

    /// The `n` bytes from a position on, with positions counted from their start. Empty if they don't all lie in this
    /// view.
    pub fn part(self, at: usize, n: usize) -> View<'a>
        ensures inside { at + n ≤ length self.entry.bytes.now
            → result.bytes.now ≡ slice self.entry.bytes.now at n }
        ensures past { length self.entry.bytes.now < at + n → result.bytes.now ≡ [] }
    {
        match self.bytes.get(at..at.saturating_add(n)) {
            Some(bytes) => View { bytes },
            None => View { bytes: &[] },
        }
    }

    /// The `n` bytes from a position on, or fewer if the view ends before.
    pub fn slice(self, at: usize, n: usize) -> &'a [u8]
        ensures { result.now ≡ slice self.entry.bytes.now at n }
    {
        let from = at.min(self.bytes.len());
        let len = n.min(self.bytes.len() - from);
        &self.bytes[from..from + len]
    }

    /// The byte at a position.
    pub fn get8(self, at: usize) -> u8
        ensures { result ≡ byte self.entry.bytes.now at }
    {
        let [a] = self.part(at, 1).bytes else {
            return 0;
        };
        *a
    }

    /// The 16-bit number at a position.
    pub fn get16(self, at: usize) -> u16
        ensures { result ≡ half self.entry.bytes.now at }
    {
        let [a, b] = self.part(at, 2).bytes else {
            return 0;
        };
        u16::from_le_bytes([*a, *b])
    }

    /// The 32-bit number at a position.
    pub fn get32(self, at: usize) -> u32
        ensures { result ≡ word self.entry.bytes.now at }
    {
        let [a, b, c, d] = self.part(at, 4).bytes else {
            return 0;
        };
        u32::from_le_bytes([*a, *b, *c, *d])
    }

    /// The 64-bit number at a position.
    pub fn get64(self, at: usize) -> u64
        ensures { result ≡ long self.entry.bytes.now at }
    {
        let [a, b, c, d, e, f, g, h] = self.part(at, 8).bytes else {
            return 0;
        };
        u64::from_le_bytes([*a, *b, *c, *d, *e, *f, *g, *h])
    }

    /// The position that the pointer at a position points to.
    #[tactic(auto, unfolding(seg_spec::specs::Pointer::target))]
    pub fn target(self, at: usize) -> Option<u32>
        ensures { result ≡ target self.entry.bytes.now at }
    {
        named(at, self.get32(at))
    }
}
