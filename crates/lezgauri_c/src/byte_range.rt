ghost use Rattle.std.specs.Prelude.{◌≡◌, ◌+◌, ◌≤◌, length};
ghost use Rattle.seg_spec.specs.Bytes.{slice};

use seg_value::View;

/// Bytes of an image, as calls return them in place.
#[repr(C)]
#[derive(Debug, Clone, Copy, PartialEq, Eq)]
pub struct ByteRange {
    /// The position of the first one, in bytes from the image's start.
    pub at: u32,
    /// How many there are.
    pub len: u32,
}

/// The range of the `n` bytes from a position on, or of fewer if the image ends before.
pub(crate) fn range_in(view: View, from: usize, n: usize) -> ByteRange
    ensures bytes { slice view.entry.bytes.now result.at result.len
        ≡ slice view.entry.bytes.now from n }
    ensures inside { result.at + result.len ≤ length view.entry.bytes.now }
{
    let at = from.min(view.len());
    let len = n.min(view.len() - at);
    ByteRange {
        at: at as u32,
        len: len as u32,
    }
}
