ghost use Rattle.std.specs.Prelude.{◌≡◌, ◌↔◌, ◌⊎◌, ◌<◌, ◌≤◌, length, take, IsOk, IfErr, OnOk, OnErr};
ghost use Rattle.seg_spec.specs.Faulty.{IsImageLength};
ghost use Rattle.seg_manager.specs.NewSegments.{word_of_kind};
ghost use Rattle.lezgauri_c.specs.Segments.{IsNewImage};
ghost use Rattle.seg_raw.specs.Homes.{home_of};
ghost use Rattle.lezgauri_c.specs.Memory.{memory_of};

use crate::lent::Lent;
use crate::status::{BAD_ARGUMENT, OK};
use lezgauri::{BestFit, Fit, IndexKind, Region, SeqFit, is_size};
use seg_manager::create;
use seg_raw::{Fault as Reason, shorten};
use std::alloc::Allocator;
use std_alloc::vec::Lodged;

/// Makes the front of the memory a new segment of `size` bytes without objects or types. Returns `OK`; `BadSize` if a segment
/// can't have this size; `NoHostRoom` if the memory has fewer bytes; or `BAD_ARGUMENT` if there is no such allocator or index.
///
/// The allocator is 0 for sequential fit and 1 for best fit, the index 0 for a flat one and 1 for a tree.
#[tactic(auto, using(crate::proofs::Numbers::number_above))]
#[unsafe(no_mangle)]
pub extern "C" fn lezgauri_raw_create(
    memory: &mut Lent,
    size: u32,
    allocator: u32,
    index: u32,
) -> u32
    ensures created { result ≡ 0 → IsNewImage allocator index size memory.new.bytes }
    ensures done { (result ≡ 0) ↔ ((allocator ≤ 1) × (index ≤ 1) × IsImageLength size
        × (size ≤ length memory.old.bytes)) }
    ensures argument { result ≡ 100 → (1 < allocator) ⊎ (1 < index) }
    ensures size { result ≡ 5 → ¬ IsImageLength size }
    ensures room { result ≡ 6 → length memory.old.bytes < size }
    ensures kept { 0 < result → memory.new.bytes ≡ memory.old.bytes }
    ensures status { (result ≡ 0) ⊎ (result ≡ 5) ⊎ (result ≡ 6) ⊎ (result ≡ 100) }
    ensures home { memory_of memory.new ≡ memory_of memory.old }
{
    let index = match index {
        0 => IndexKind::Flat,
        1 => IndexKind::Tree,
        _ => return BAD_ARGUMENT,
    };
    let (created, bytes) = match allocator {
        0 => new_image::<SeqFit, Lodged>(memory.take(), size, index),
        1 => new_image::<BestFit, Lodged>(memory.take(), size, index),
        _ => return BAD_ARGUMENT,
    };
    memory.give_back(bytes);
    match created {
        Ok(()) => OK,
        Err(fault) => u32::from(fault.code()),
    }
}

/// A new segment at the front of bytes, and nothing after it. If there can't be one, the bytes are returned unchanged.
fn new_image<F: Fit, A: Allocator>(
    bytes: Vec<u8, A>,
    size: u32,
    index: IndexKind,
) -> (Result<(), Reason>, Vec<u8, A>)
    ensures created { OnOk result.0
        (IsNewImage F.allocator (word_of_kind index) size result.1.items) }
    ensures done { IsOk result.0 ↔ (IsImageLength size × (size ≤ length bytes.items)) }
    ensures fault { IfErr result.0 (λ fault. ((fault ≡ Reason.BadSize) × ¬ IsImageLength size)
        ⊎ ((fault ≡ Reason.NoHostRoom) × (length bytes.items < size))) }
    ensures kept { OnErr result.0 (result.1.items ≡ bytes.items) }
    ensures home { home_of result.1 ≡ home_of bytes }
{
    if !is_size(size) {
        return (Err(Reason::BadSize), bytes);
    }
    if bytes.len() < size as usize {
        return (Err(Reason::NoHostRoom), bytes);
    }
    let mut bytes = bytes;
    shorten(&mut bytes, size as usize);
    let segment = create::<F, A>(Region::from_vec(bytes), 0, size, index).unwrap();
    (Ok(()), segment.into_window().into_bytes())
}
