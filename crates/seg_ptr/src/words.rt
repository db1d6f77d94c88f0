//! Writes numbers and pointers into a segment's bytes, borrowed by [`Window::bytes_mut`](crate::Window::bytes_mut).
// The slice's address and length stay in registers. A window behind a reference is loaded again after each write.

ghost use Rattle.std.specs.Prelude.{◌≡◌, ◌+◌, ◌≤◌, length};
ghost use Rattle.seg_spec.specs.Bytes.{set_word};
ghost use Rattle.seg_spec.specs.Pointer.{set_pointer};

use crate::pointer::distance;

/// Writes a little-endian number of 32 bits. It must fit.
pub fn set_word(bytes: &mut [u8], at: usize, value: u32)
    requires { at + 4 ≤ length bytes.old }
    ensures bytes { bytes.new ≡ set_word bytes.old at value }
    ensures length { length bytes.new ≡ length bytes.old }
{
    bytes[at..at + 4].copy_from_slice(&u32::to_le_bytes(value));
}

/// Makes the pointer at a position point to `to`. It must fit.
pub fn set_pointer(bytes: &mut [u8], at: usize, to: Option<u32>)
    requires { at + 4 ≤ length bytes.old }
    ensures bytes { bytes.new ≡ set_pointer bytes.old at to }
    ensures length { length bytes.new ≡ length bytes.old }
{
    set_word(bytes, at, distance(at, to));
}

/// Writes a little-endian number of 32 bits. Nothing changes if it doesn't fit.
pub fn put_word(bytes: &mut [u8], at: usize, value: u32)
    ensures bytes { bytes.new ≡ set_word bytes.old at value }
    ensures length { length bytes.new ≡ length bytes.old }
{
    if at.saturating_add(4) <= bytes.len() {
        set_word(bytes, at, value);
    }
}

/// Makes the pointer at a position point to `to`. Nothing changes if it doesn't fit.
pub fn put_pointer(bytes: &mut [u8], at: usize, to: Option<u32>)
    ensures bytes { bytes.new ≡ set_pointer bytes.old at to }
    ensures length { length bytes.new ≡ length bytes.old }
{
    put_word(bytes, at, distance(at, to));
}
