ghost use Rattle.std.specs.Prelude.{◌≡◌, ◌<◌, List, ℕ, IfErr, OnOk, OnErr};
ghost use Rattle.seg_spec.specs.Images.{IsSound, upgraded};
ghost use Rattle.seg_spec.specs.Types.{Agree, AreOfVersion, Spells};
ghost use Rattle.lezgauri_c.specs.Changes.{HasMoreTypes, RefusesTypes, RefusesTypesAs};
ghost use Rattle.lezgauri_c.specs.Told.{no_fault};
ghost use Rattle.lezgauri_c.specs.Memory.{memory_of};
ghost use Rattle.seg_raw.specs.Homes.{home_of};

use crate::fault::Fault;
use crate::lent::Lent;
use crate::run_in_place::{open_window, upgrade};
use crate::status::OK;
use client_vm::{Refused, Window};
use lezgauri::{Image, TypeTable};
use seg_raw::Fault as Reason;
use std::alloc::Allocator;

/// Gives an image that an earlier call found sound, or changed, the types of a longer table, whose entries these are. The image is then one
/// of version 2. Returns `OK`, or a fault's number: `BadType` if an entry is wrong, `TypeMismatch` if one differs from the image's; then
/// nothing changes.
#[tactic(auto, using(crate::proofs::Numbers::numbers))]
#[unsafe(no_mangle)]
pub extern "C" fn lezgauri_raw_add_types(image: &mut Lent, entries: &[u8], fault: &mut Fault) -> u32
    ensures added { result ≡ 0 → (sound : IsSound image.old.bytes) →
        HasMoreTypes image.old.bytes image.new.bytes entries.now sound }
    ensures refused { 0 < result → (sound : IsSound image.old.bytes) →
        RefusesTypesAs sound.picture.table entries.now fault.new }
    ensures number { fault.new.number ≡ result }
    ensures no_fault { result ≡ 0 → fault.new ≡ no_fault }
    ensures kept { 0 < result → image.new.bytes ≡ image.old.bytes }
    ensures home { memory_of image.new ≡ memory_of image.old }
{
    let (added, bytes) = add_types(image.take(), entries);
    image.give_back(bytes);
    match added {
        Ok(()) => {
            *fault = Fault::NONE;
            OK
        }
        Err(reason) => {
            *fault = Fault::from(Refused::from(reason));
            fault.number
        }
    }
}

/// Adds the types in a longer table's entries to an image.
fn add_types<A: Allocator>(image: Vec<u8, A>, entries: &[u8]) -> (Result<(), Reason>, Vec<u8, A>)
    ensures added { OnOk result.0 ((sound : IsSound image.items) →
        HasMoreTypes image.items result.1.items entries.now sound) }
    ensures refused { IfErr result.0 (λ reason. (sound : IsSound image.items) →
        RefusesTypes sound.picture.table entries.now reason) }
    ensures kept { OnErr result.0 (result.1.items ≡ image.items) }
    ensures home { home_of result.1 ≡ home_of image }
{
    let more = match TypeTable::read_shared(entries) {
        Ok(more) => more,
        Err(reason) => return (Err(reason), image),
    };
    let (window, types) = match open_window(image) {
        Ok(it) => it,
        Err((fault, image)) => return (Err(fault), image),
    };
    match types.agrees(&more) {
        Ok(()) => (Ok(()), with_types(window, types, &more)),
        Err(fault) => (Err(fault), window.into_bytes()),
    }
}

/// The image in a window, of version 2 and with the types of a longer table.
fn with_types<A: Allocator>(window: Window<A>, types: TypeTable, more: &TypeTable) -> Vec<u8, A>
    requires { Agree types more.now }
    ensures added { (sound : IsSound window.bytes) → types ≡ sound.picture.table →
        AreOfVersion 2 more.now → (entries : List ℕ) → Spells entries more.now →
        HasMoreTypes window.bytes result.items entries sound }
    ensures home { home_of result ≡ window.home }
{
    let mut window = window;
    upgrade(&mut window);
    let mut image = Image::in_window(window, types);
    image.add_types(more).unwrap();
    image.into_bytes()
}

/// Makes an image that an earlier call found sound, or changed, one of version 2, which may have frozen objects. Returns `OK`.
#[tactic(auto, using(crate::proofs::Numbers::number_above))]
#[unsafe(no_mangle)]
pub extern "C" fn lezgauri_raw_upgrade(image: &mut Lent) -> u32
    ensures upgraded { result ≡ 0 → image.new.bytes ≡ upgraded image.old.bytes }
    ensures sound { IsSound image.old.bytes → IsSound image.new.bytes }
    ensures done { IsSound image.old.bytes → result ≡ 0 }
    ensures kept { 0 < result → image.new.bytes ≡ image.old.bytes }
    ensures home { memory_of image.new ≡ memory_of image.old }
{
    let (result, bytes) = match open_window(image.take()) {
        Ok((window, _)) => (OK, upgraded(window)),
        Err((fault, bytes)) => (u32::from(fault.code()), bytes),
    };
    image.give_back(bytes);
    result
}

/// The image in a window, of version 2.
fn upgraded<A: Allocator>(window: Window<A>) -> Vec<u8, A>
    ensures upgraded { result.items ≡ upgraded window.bytes }
    ensures home { home_of result ≡ window.home }
{
    let mut window = window;
    upgrade(&mut window);
    window.into_bytes()
}
