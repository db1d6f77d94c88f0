ghost use Rattle.std.specs.Prelude.{◌≡◌, ℕ, ◌+◌, ◌-◌, ◌*◌, ◌^◌, ◌<◌, ◌≤◌, ◌==◌, List, ◌++◌, length, take, replicate, IfOk, IsOkUnless, vec_len};
ghost use Rattle.seg_spec.specs.Bytes.{slice, put, byte, word, long, set_byte, set_word, set_long};

use crate::fault::Fault;
use crate::in_place::shorten;
use std::alloc::Allocator;
use std::marker::Model;
use std_alloc::vec::run_mut;

/// A region of the host's bytes. Contracts see its bytes, and the memory that they are in. Positions and lengths are in
/// bytes.
#[derive(Drop)]
pub struct Region<A: Allocator> {
    data: Vec<u8, A>,
}

impl<A: Allocator> Model for Region<A> {
    ghost use Rattle.std.specs.Prelude.{◌≤◌, ◌^◌, length};
    ghost use Rattle.seg_raw.specs.Homes.{Area, home_of};

    ghost Value = { Area };

    ghost view = { λ r. record { bytes = r.data.items; home = home_of r.data } };

    ghost invariant = { λ r. length r.data.items ≤ 2 ^ 31 };
}

impl<A: Allocator> Region<A> {
    ghost use Rattle.std.specs.Borrow.{Lends, Array, sem, u8 as octet};
    ghost use Rattle.seg_raw.specs.Homes.{home_of, with_area_bytes};
    ghost use Rattle.seg_raw.specs.Lending.{lent};
    ghost use Rattle.seg_raw.specs.contracts.region.Region.{the_row};

    /// A region of `len` zero bytes.
    pub fn new(alloc: A, len: u32) -> Result<Region<A>, Fault>
        requires { len ≤ 2 ^ 31 }
        ensures zeroed { IfOk result (λ r. r.bytes ≡ replicate len 0) }
        ensures refused { IsOkUnless result Fault.Memory }
    {
        let data = Vec::from_elem(alloc, 0u8, len as usize)?;
        Ok(Region { data })
    }

    /// A region of `len` bytes with `bytes` from a position on, and 0 before and after them.
    pub fn with_bytes(alloc: A, len: u32, at: u32, bytes: &[u8]) -> Result<Region<A>, Fault>
        requires room { at + length bytes.now ≤ len }
        requires at_most { len ≤ 2 ^ 31 }
        ensures bytes { IfOk result (λ r.
            r.bytes ≡ replicate at 0 ++ bytes.now ++ replicate (len - (at + length bytes.now)) 0) }
        ensures refused { IsOkUnless result Fault.Memory }
    {
        let mut data = Vec::with_capacity(alloc, len as usize)?;
        data.resize(at as usize, 0)?;
        data.extend_from_slice(bytes)?;
        data.resize(len as usize, 0)?;
        Ok(Region { data })
    }

    /// A region of these bytes, without a copy.
    pub fn from_vec(bytes: Vec<u8, A>) -> Region<A>
        requires { vec_len bytes ≤ 2 ^ 31 }
        ensures bytes { result.bytes ≡ bytes.items }
        ensures home { result.home ≡ home_of bytes }
    {
        Region { data: bytes }
    }

    /// Its bytes, without a copy.
    pub fn into_vec(self) -> Vec<u8, A>
        ensures bytes { result.items ≡ self.bytes }
        ensures home { home_of result ≡ self.home }
    {
        self.data
    }

    /// Keeps the first `n` bytes, in the same memory.
    pub fn truncate(&mut self, n: usize)
        ensures bytes { self.new.bytes ≡ take n self.old.bytes }
        ensures home { self.new.home ≡ self.old.home }
    {
        shorten(&mut self.data, n);
    }

    pub fn len(&self) -> u32
        ensures len { result ≡ length self.now.bytes }
        ensures at_most { result ≤ 2 ^ 31 }
    {
        self.data.len() as u32
    }

    pub fn is_empty(&self) -> bool
        ensures { result ≡ (length self.now.bytes == 0) }
    {
        self.data.is_empty()
    }

    /// The byte at a position.
    pub fn get8(&self, at: usize) -> u8
        requires { at + 1 ≤ length self.now.bytes }
        ensures { result ≡ byte self.now.bytes at }
    {
        self.data[at]
    }

    /// The little-endian 32-bit number at a position.
    pub fn get32(&self, at: usize) -> u32
        requires { at + 4 ≤ length self.now.bytes }
        ensures { result ≡ word self.now.bytes at }
    {
        let data = &self.data;
        u32::from_le_bytes([data[at], data[at + 1], data[at + 2], data[at + 3]])
    }

    /// The little-endian 64-bit number at a position.
    #[tactic(auto, using(crate::proofs::Numbers::long_read))]
    pub fn get64(&self, at: usize) -> u64
        requires { at + 8 ≤ length self.now.bytes }
        ensures { result ≡ long self.now.bytes at }
    {
        let _ = &self.data;
        u64::from(self.get32(at + 4)) * (1 << 32) + u64::from(self.get32(at))
    }

    pub fn put8(&mut self, at: usize, value: u8)
        requires { at + 1 ≤ length self.old.bytes }
        ensures bytes { self.new.bytes ≡ set_byte self.old.bytes at value }
        ensures length { length self.new.bytes ≡ length self.old.bytes }
        ensures home { self.new.home ≡ self.old.home }
    {
        self.data[at] = value;
    }

    pub fn put32(&mut self, at: usize, value: u32)
        requires { at + 4 ≤ length self.old.bytes }
        ensures bytes { self.new.bytes ≡ set_word self.old.bytes at value }
        ensures length { length self.new.bytes ≡ length self.old.bytes }
        ensures home { self.new.home ≡ self.old.home }
    {
        self.copy_in(at, &u32::to_le_bytes(value));
    }

    pub fn put64(&mut self, at: usize, value: u64)
        requires { at + 8 ≤ length self.old.bytes }
        ensures bytes { self.new.bytes ≡ set_long self.old.bytes at value }
        ensures length { length self.new.bytes ≡ length self.old.bytes }
        ensures home { self.new.home ≡ self.old.home }
    {
        self.copy_in(at, &u64::to_le_bytes(value));
    }

    /// The `n` bytes from a position on.
    pub fn slice(&self, at: usize, n: usize) -> &[u8]
        requires { at + n ≤ length self.now.bytes }
        ensures { result.now ≡ slice self.now.bytes at n }
    {
        &self.data[at..at + n]
    }

    /// The `n` bytes from a position on, to write.
    pub fn slice_mut(&mut self, at: usize, n: usize) -> &mut [u8]
        requires { at + n ≤ length self.old.bytes }
        ensures value { result.now ≡ slice self.old.bytes at n }
        ensures* writes_back { sem 𝓛 (Lends (the_row A.row A.Allocator) (Array octet 0)
            self.entry result (λ xs. with_area_bytes self.old (lent self.old.bytes at xs))) }
    {
        run_mut(&mut self.data, at, at + n)
    }

    /// Writes `bytes` from a position on.
    pub fn copy_in(&mut self, at: usize, bytes: &[u8])
        requires { at + length bytes.now ≤ length self.old.bytes }
        ensures bytes { self.new.bytes ≡ put self.old.bytes at bytes.now }
        ensures length { length self.new.bytes ≡ length self.old.bytes }
        ensures home { self.new.home ≡ self.old.home }
    {
        self.data[at..at + bytes.len()].copy_from_slice(bytes);
    }

    /// Copies the `n` bytes from `from` on to `to`. The two ranges may overlap.
    pub fn move_within(&mut self, from: usize, to: usize, n: usize)
        requires source { from + n ≤ length self.old.bytes }
        requires target { to + n ≤ length self.old.bytes }
        ensures bytes { self.new.bytes ≡ put self.old.bytes to (slice self.old.bytes from n) }
        ensures length { length self.new.bytes ≡ length self.old.bytes }
        ensures home { self.new.home ≡ self.old.home }
    {
        let bytes = self.data.as_mut_slice();
        if from <= to {
            copy_up(bytes, from, to - from, n);
        } else {
            copy_down(bytes, to, from - to, n);
        }
    }

    /// Writes `byte` to `n` bytes from a position on.
    pub fn fill(&mut self, at: usize, n: usize, byte: u8)
        requires { at + n ≤ length self.old.bytes }
        ensures bytes { self.new.bytes ≡ put self.old.bytes at (replicate n byte) }
        ensures length { length self.new.bytes ≡ length self.old.bytes }
        ensures home { self.new.home ≡ self.old.home }
    {
        self.data[at..at + n].fill(byte);
    }
}

/// Copies the `n` bytes from `from` on to a place `distance` bytes further up.
fn copy_up(bytes: &mut [u8], from: usize, distance: usize, n: usize)
    requires { from + distance + n ≤ length bytes.old }
    ensures bytes { bytes.new ≡ put bytes.old (from + distance) (slice bytes.old from n) }
    ensures length { length bytes.new ≡ length bytes.old }
{
    // the compiler calls the C library's memmove for a copy by a constant distance
    match distance {
        8 => bytes.copy_within(from..from + n, from + 8),
        16 => bytes.copy_within(from..from + n, from + 16),
        _ => bytes.copy_within(from..from + n, from + distance),
    }
}

/// Copies the `n` bytes from `distance` bytes above `to` on to `to`.
fn copy_down(bytes: &mut [u8], to: usize, distance: usize, n: usize)
    requires { to + distance + n ≤ length bytes.old }
    ensures bytes { bytes.new ≡ put bytes.old to (slice bytes.old (to + distance) n) }
    ensures length { length bytes.new ≡ length bytes.old }
{
    match distance {
        8 => bytes.copy_within(to + 8..to + 8 + n, to),
        16 => bytes.copy_within(to + 16..to + 16 + n, to),
        _ => bytes.copy_within(to + distance..to + distance + n, to),
    }
}
