ghost use Rattle.std.specs.Prelude.{◌≡◌, ℕ, ◌-◌, ◌≤◌, ◌++◌, length, take, replicate, Vec, vec_len};
ghost use Rattle.std_alloc.specs.declared.vec.lodged.Lodged.{Lodged as Tenant};
ghost use Rattle.seg_raw.specs.Homes.{home_of};
ghost use Rattle.lezgauri.specs.Loans.{IsLoan, IsWhole, IsReturned, IsFilled};

use seg_raw::{lengthen, shorten};
use std_alloc::vec::{Lodged, lodge};

/// Calls `work` with the first `used` bytes of `bytes` as a vector, in place and without a copy, and returns its
/// result. The vector has the rest of the slice as its room, and `work` gives back a vector in the same memory.
/// Afterwards `bytes` has that vector's bytes, and 0 after them.
pub fn lend<R, F: FnOnce(Vec<u8, Lodged>) -> (Vec<u8, Lodged>, R)>(
    bytes: &mut [u8],
    used: usize,
    work: F,
) -> R
    requires used { used ≤ length bytes.old }
    requires callable { (vec : Vec ℕ Tenant) → IsLoan bytes.old used vec → F.pre work vec }
    requires returned { (vec : Vec ℕ Tenant) (out : Vec ℕ Tenant × R) → IsLoan bytes.old used vec
        → F.post work vec out → home_of out.0 ≡ home_of vec }
    ensures { (vec : Vec ℕ Tenant) × (back : Vec ℕ Tenant) × IsLoan bytes.old used vec
        × F.post work vec (back, result)
        × (bytes.new ≡ back.items ++ replicate (length bytes.old - vec_len back) 0) }
{
    lend_whole(
        bytes,
        |vec|
            requires { (short : Vec ℕ Tenant) → short.items ≡ take used vec.items
                → home_of short ≡ home_of vec → F.pre work short }
            ensures { (short : Vec ℕ Tenant) × (back : Vec ℕ Tenant)
                × (short.items ≡ take used vec.items) × (home_of short ≡ home_of vec)
                × F.post work short (back, result.1) × IsFilled back result.0 }
        {
            let (back, result) = work(cut(vec, used));
            (filled(back), result)
        },
    )
}

/// The first `len` items, in the same memory.
fn cut(mut vec: Vec<u8, Lodged>, len: usize) -> Vec<u8, Lodged>
    ensures items { result.items ≡ take len vec.items }
    ensures home { home_of result ≡ home_of vec }
{
    shorten(&mut vec, len);
    vec
}

/// The vector with 0 in the rest of its memory.
fn filled(mut vec: Vec<u8, Lodged>) -> Vec<u8, Lodged>
    ensures { IsFilled vec result }
{
    let room = vec.capacity();
    lengthen(&mut vec, room);
    vec
}

/// Calls `work` with the bytes as a vector without further room, which it gives back with as many bytes.
fn lend_whole<R, F: FnOnce(Vec<u8, Lodged>) -> (Vec<u8, Lodged>, R)>(bytes: &mut [u8], work: F) -> R
    requires callable { (vec : Vec ℕ Tenant) → IsWhole bytes.old vec → F.pre work vec }
    requires returned { (vec : Vec ℕ Tenant) (out : Vec ℕ Tenant × R) → IsWhole bytes.old vec
        → F.post work vec out → IsReturned bytes.old vec out.0 }
    ensures { (vec : Vec ℕ Tenant) × (back : Vec ℕ Tenant) × IsWhole bytes.old vec
        × F.post work vec (back, result) × (bytes.new ≡ back.items) }
{
    let len = bytes.len();
    let at = bytes.as_mut_ptr();
    let (back, result) = work(unsafe { lodge(at, len, len) });
    let _len = back.dislodge();
    result
}
