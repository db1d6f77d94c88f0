ghost use Rattle.std.specs.Prelude.{◌≡◌, ◌↔◌, ◌+◌, ◌<◌, ◌≤◌, length, vec_capacity, IsOk, OnOk, OnErr};
ghost use Rattle.seg_spec.specs.Bytes.{word};
ghost use Rattle.seg_spec.specs.Header.{allocator_word};
ghost use Rattle.seg_spec.specs.Heap.{gaps};
ghost use Rattle.seg_spec.specs.Images.{IsSound};
ghost use Rattle.seg_spec.specs.Window.{region_of};
ghost use Rattle.seg_manager.specs.Gaps.{bytes_in_gaps, largest_of};
ghost use Rattle.seg_manager.specs.Sizes.{MayGrowTo};
ghost use Rattle.lezgauri_c.specs.Segments.{HasGrown, HasShrunk};
ghost use Rattle.lezgauri_c.specs.Memory.{memory_of};
ghost use Rattle.seg_raw.specs.Homes.{home_of};

use crate::lent::Lent;
use crate::run_in_place::{open_window, types_of};
use crate::status::OK;
use client_vm::{MAX_LEN, Window, header};
use lezgauri::{BestFit, Fit, Region, Segment, SeqFit, TypeTable, is_size};
use seg_raw::{Fault as Reason, lengthen};
use std::alloc::Allocator;

/// Adds `extra` bytes at the end of an image that an earlier call found sound, or changed. Returns `OK`; `BadSize` if a segment
/// can't have the new size, or `extra` isn't a multiple of 16; or `NoHostRoom` if the memory ends before.
#[tactic(auto, using(crate::proofs::Numbers::number_above))]
#[unsafe(no_mangle)]
pub extern "C" fn lezgauri_raw_grow(image: &mut Lent, extra: u32) -> u32
    ensures grown { result ≡ 0 → (sound : IsSound image.old.bytes) →
        HasGrown image.old.bytes image.new.bytes extra sound }
    ensures done { IsSound image.old.bytes → (result ≡ 0)
        ↔ (MayGrowTo extra (length image.old.bytes + extra)
        × (length image.old.bytes + extra ≤ image.old.room)) }
    ensures size { result ≡ 5 → ¬ MayGrowTo extra (length image.old.bytes + extra) }
    ensures room { result ≡ 6 → image.old.room < length image.old.bytes + extra }
    ensures kept { 0 < result → image.new.bytes ≡ image.old.bytes }
    ensures home { memory_of image.new ≡ memory_of image.old }
{
    let (grown, bytes) = grow(image.take(), extra);
    image.give_back(bytes);
    match grown {
        Ok(()) => OK,
        Err(fault) => u32::from(fault.code()),
    }
}

/// Adds `extra` bytes at the end of an image, in the capacity of its memory.
fn grow<A: Allocator>(image: Vec<u8, A>, extra: u32) -> (Result<(), Reason>, Vec<u8, A>)
    ensures grown { OnOk result.0 ((sound : IsSound image.items) →
        HasGrown image.items result.1.items extra sound) }
    ensures done { IsSound image.items → IsOk result.0
        ↔ (MayGrowTo extra (length image.items + extra)
        × (length image.items + extra ≤ vec_capacity image)) }
    ensures size { result.0 ≡ Err Reason.BadSize →
        ¬ MayGrowTo extra (length image.items + extra) }
    ensures room { result.0 ≡ Err Reason.NoHostRoom →
        vec_capacity image < length image.items + extra }
    ensures kept { OnErr result.0 (result.1.items ≡ image.items) }
    ensures home { home_of result.1 ≡ home_of image }
{
    let len = match u32::try_from(image.len()) {
        Ok(len) if len <= MAX_LEN => len,
        _ => return (Err(Reason::BadHeader), image),
    };
    let size = len.saturating_add(extra);
    if extra % 16 != 0 || !is_size(size) {
        return (Err(Reason::BadSize), image);
    }
    if image.capacity() < size as usize {
        return (Err(Reason::NoHostRoom), image);
    }
    let mut bytes = image;
    lengthen(&mut bytes, size as usize);
    let window = Window::place(Region::from_vec(bytes), 0, len).unwrap();
    match types_of(&window) {
        Ok(types) => (Ok(()), grown(window, types, extra)),
        Err(_) => (Err(Reason::BadHeader), window.into_bytes()),
    }
}

/// The image in a window with `extra` more bytes, with the image's allocator.
fn grown<A: Allocator>(window: Window<A>, types: TypeTable, extra: u32) -> Vec<u8, A>
    requires size { MayGrowTo extra (length window.bytes + extra) }
    requires room { length window.before + (length window.bytes + extra)
        ≤ length (region_of window) }
    ensures grown { (sound : IsSound window.bytes) → types ≡ sound.picture.table →
        HasGrown window.bytes result.items extra sound }
    ensures home { home_of result ≡ window.home }
{
    if window.get32(header::ALLOCATOR) == BestFit::word() {
        grown_on::<BestFit, A>(window, types, extra)
    } else {
        grown_on::<SeqFit, A>(window, types, extra)
    }
}

fn grown_on<F: Fit, A: Allocator>(window: Window<A>, types: TypeTable, extra: u32) -> Vec<u8, A>
    requires size { MayGrowTo extra (length window.bytes + extra) }
    requires room { length window.before + (length window.bytes + extra)
        ≤ length (region_of window) }
    ensures grown { (sound : IsSound window.bytes) → types ≡ sound.picture.table →
        word window.bytes allocator_word ≡ F.allocator →
        HasGrown window.bytes result.items extra sound }
    ensures home { home_of result ≡ window.home }
{
    let mut segment: Segment<F, A> = Segment::new(window, types);
    seg_manager::grow(&mut segment, extra).unwrap();
    segment.into_window().into_bytes()
}

/// Cuts the free block at the end of an image that an earlier call found sound, or changed. If the whole heap is one free block,
/// two units of it stay. Returns `OK`.
#[tactic(auto, using(crate::proofs::Numbers::number_above))]
#[unsafe(no_mangle)]
pub extern "C" fn lezgauri_raw_shrink(image: &mut Lent) -> u32
    ensures shrunk { result ≡ 0 → (sound : IsSound image.old.bytes) →
        HasShrunk image.old.bytes image.new.bytes sound }
    ensures done { IsSound image.old.bytes → result ≡ 0 }
    ensures kept { 0 < result → image.new.bytes ≡ image.old.bytes }
    ensures home { memory_of image.new ≡ memory_of image.old }
{
    let (result, bytes) = match open_window(image.take()) {
        Ok((window, types)) => (OK, shrunk(window, types)),
        Err((fault, bytes)) => (u32::from(fault.code()), bytes),
    };
    image.give_back(bytes);
    result
}

/// The image in a window without the free block at its end, with the image's allocator.
fn shrunk<A: Allocator>(window: Window<A>, types: TypeTable) -> Vec<u8, A>
    ensures shrunk { (sound : IsSound window.bytes) → types ≡ sound.picture.table →
        HasShrunk window.bytes result.items sound }
    ensures home { home_of result ≡ window.home }
{
    if window.get32(header::ALLOCATOR) == BestFit::word() {
        shrunk_on::<BestFit, A>(window, types)
    } else {
        shrunk_on::<SeqFit, A>(window, types)
    }
}

fn shrunk_on<F: Fit, A: Allocator>(window: Window<A>, types: TypeTable) -> Vec<u8, A>
    ensures shrunk { (sound : IsSound window.bytes) → types ≡ sound.picture.table →
        word window.bytes allocator_word ≡ F.allocator →
        HasShrunk window.bytes result.items sound }
    ensures home { home_of result ≡ window.home }
{
    let mut segment: Segment<F, A> = Segment::new(window, types);
    let _ = seg_manager::shrink_to_fit(&mut segment);
    segment.into_window().into_bytes()
}

/// The size of all free blocks of an image's heap, and of the largest one, in bytes with their headers. The image is one that an
/// earlier call found sound, or changed. Returns `OK`.
#[tactic(auto, using(crate::proofs::Numbers::number_above))]
#[unsafe(no_mangle)]
pub extern "C" fn lezgauri_raw_free_memory(
    image: &mut Lent,
    all: &mut u32,
    largest: &mut u32,
) -> u32
    ensures all { result ≡ 0 → IsSound image.old.bytes →
        all.new ≡ bytes_in_gaps (gaps image.old.bytes) }
    ensures largest { result ≡ 0 → IsSound image.old.bytes →
        largest.new ≡ largest_of (gaps image.old.bytes) }
    ensures done { IsSound image.old.bytes → result ≡ 0 }
    ensures kept { image.new.bytes ≡ image.old.bytes }
    ensures unwritten { 0 < result → (all.new ≡ all.old) × (largest.new ≡ largest.old) }
    ensures home { memory_of image.new ≡ memory_of image.old }
{
    let (result, bytes) = match open_window(image.take()) {
        Ok((window, types)) => {
            let (free, bytes) = free_memory(window, types);
            (*all, *largest) = free;
            (OK, bytes)
        }
        Err((fault, bytes)) => (u32::from(fault.code()), bytes),
    };
    image.give_back(bytes);
    result
}

/// The free memory of the segment in a window: all of it, and the largest block. Also returns the image.
fn free_memory<A: Allocator>(window: Window<A>, types: TypeTable) -> ((u32, u32), Vec<u8, A>)
    ensures free { IsSound window.bytes → (result.0.0 ≡ bytes_in_gaps (gaps window.bytes))
        × (result.0.1 ≡ largest_of (gaps window.bytes)) }
    ensures kept { result.1.items ≡ window.bytes }
    ensures home { home_of result.1 ≡ window.home }
{
    if window.get32(header::ALLOCATOR) == BestFit::word() {
        free_memory_on::<BestFit, A>(window, types)
    } else {
        free_memory_on::<SeqFit, A>(window, types)
    }
}

fn free_memory_on<F: Fit, A: Allocator>(
    window: Window<A>,
    types: TypeTable,
) -> ((u32, u32), Vec<u8, A>)
    ensures free { IsSound window.bytes → word window.bytes allocator_word ≡ F.allocator →
        (result.0.0 ≡ bytes_in_gaps (gaps window.bytes))
        × (result.0.1 ≡ largest_of (gaps window.bytes)) }
    ensures kept { result.1.items ≡ window.bytes }
    ensures home { home_of result.1 ≡ window.home }
{
    let segment: Segment<F, A> = Segment::new(window, types);
    let free = (
        seg_manager::free_memory(&segment),
        seg_manager::largest_gap(&segment),
    );
    (free, segment.into_window().into_bytes())
}
