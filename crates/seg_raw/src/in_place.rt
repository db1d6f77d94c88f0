ghost use Rattle.std.specs.Prelude.{◌≡◌, ◌+◌, ◌-◌, ◌≤◌, ◌++◌, take, replicate, vec_len, vec_capacity};
ghost use Rattle.seg_raw.specs.Homes.{home_of};

use std::alloc::Allocator;

/// Keeps the first `len` bytes, in the same memory.
pub fn shorten<A: Allocator>(bytes: &mut Vec<u8, A>, len: usize)
    ensures bytes { bytes.new.items ≡ take len bytes.old.items }
    ensures len { vec_len bytes.new + (vec_len bytes.old - len) ≡ vec_len bytes.old }
    ensures home { home_of bytes.new ≡ home_of bytes.old }
{
    while bytes.len() > len {
        bytes.take_last();
    }
}

/// Adds zero bytes until there are `len` bytes, in the same memory.
pub fn lengthen<A: Allocator>(bytes: &mut Vec<u8, A>, len: usize)
    requires { len ≤ vec_capacity bytes.old }
    ensures bytes { bytes.new.items
        ≡ bytes.old.items ++ replicate (len - vec_len bytes.old) 0 }
    ensures len { vec_len bytes.new ≡ vec_len bytes.old + (len - vec_len bytes.old) }
    ensures home { home_of bytes.new ≡ home_of bytes.old }
{
    for _ in bytes.len()..len {
        bytes.push_reserved(0);
    }
}
