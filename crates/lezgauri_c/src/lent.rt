ghost use Rattle.std.specs.Prelude.{◌≡◌, ℕ, ◌≤◌, ◌<◌, ◌^◌, List, [], length, vec_len, vec_capacity};
ghost use Rattle.std.specs.Borrow.{sem, u8 as octet};
ghost use Rattle.std_alloc.specs.Vec.{vec_ptr};
ghost use Rattle.std_alloc.specs.Vec.Ownership.{lodged};

use std::marker::Model;
use std::mem::replace;
use std_alloc::vec::{Lodged, lodge};

/// A host's memory: its address, its number of bytes in use, and its size in bytes.
///
/// It isn't `Drop`, so the compiler refuses code that loses the memory.
#[repr(C)]
pub struct Lent {
    pub at: *mut u8,
    len: usize,
    pub room: usize,
    pub ghost bytes: { List ℕ },
    ghost counted: { (len ≡ length bytes) × (len ≤ room) },
    ghost small: { room < 2 ^ 63 },
}

impl Model for Lent {
    ghost also_owns = { λ m. lodged octet m.at m.len m.room m.bytes };
}

impl Lent {
    ghost use Rattle.seg_raw.specs.Homes.{home_of};
    ghost use Rattle.lezgauri_c.specs.Memory.{memory_of};

    /// No memory.
    pub fn none() -> Lent
        ensures { result.bytes ≡ [] }
    {
        Lent::from_vec(Vec::new(Lodged))
    }

    /// Takes the memory as a `Vec`, in place. No memory is left in `self`.
    pub fn take(&mut self) -> Vec<u8, Lodged>
        ensures bytes { result.items ≡ self.old.bytes }
        ensures room { vec_capacity result ≡ self.old.room }
        ensures home { home_of result ≡ memory_of self.old }
    {
        replace(self, Lent::none()).into_vec()
    }

    /// Puts back bytes whose memory was taken.
    pub fn give_back(&mut self, bytes: Vec<u8, Lodged>)
        ensures bytes { self.new.bytes ≡ bytes.items }
        ensures room { self.new.room ≡ vec_capacity bytes }
        ensures home { memory_of self.new ≡ home_of bytes }
    {
        let none = replace(self, Lent::from_vec(bytes));
        let _ = none.into_vec();
    }

    /// The bytes as a `Vec`, in place.
    pub fn into_vec(self) -> Vec<u8, Lodged>
        ensures { (result.items ≡ self.bytes) × (vec_len result ≡ self.len)
            × (vec_capacity result ≡ self.room) × (vec_ptr result ≡ self.at) }
    {
        let Lent { at, len, room } = self;
        unsafe { lodge(at, len, room) }
    }

    /// The memory of bytes that were lent.
    pub fn from_vec(vec: Vec<u8, Lodged>) -> Lent
        ensures { (result.bytes ≡ vec.items) × (result.len ≡ vec_len vec)
            × (result.room ≡ vec_capacity vec) × (result.at ≡ vec_ptr vec) }
    {
        let mut vec = vec;
        let at = vec.as_mut_ptr();
        let room = vec.capacity();
        Lent::of(vec, at, room)
    }

    fn of(vec: Vec<u8, Lodged>, at: *mut u8, room: usize) -> Lent
        requires { (at ≡ vec_ptr vec) × (room ≡ vec_capacity vec) }
        ensures { (result.bytes ≡ vec.items) × (result.len ≡ vec_len vec)
            × (result.room ≡ vec_capacity vec) × (result.at ≡ vec_ptr vec) }
    {
        let len = vec.dislodge();
        Lent { at, len, room }
    }
}
