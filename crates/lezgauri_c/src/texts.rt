ghost use Rattle.std.specs.Prelude.{◌≡◌, ◌⊎◌, ◌<◌, ◌≤◌, ◌++◌, length, drop, IfOk, IfErr};
ghost use Rattle.lezgauri_c.specs.Texts.{IsAssembled, IsPrinted, IsNoText, IsNoFile, IsNoTextAs, IsNoFileAs, HasBytes, HasTooLittleRoom};
ghost use Rattle.lezgauri_c.specs.Told.{no_fault};

use crate::buffer::put;
use crate::fault::Fault;
use crate::status::{OK, TOO_SMALL};
use client_vm::Refused;
use lezgauri::{assemble, parse, print};
use std::alloc::Global;

/// Assembles the text of a client. The client's file goes to the front of `file`, and `needed` is its length. Returns `OK`;
/// `TOO_SMALL` if `file` has fewer bytes, and then it is unchanged; or the number of the fault, and then `needed` is 0 too.
#[tactic(auto, using(crate::proofs::Numbers::numbers))]
#[unsafe(no_mangle)]
pub extern "C" fn lezgauri_raw_assemble(
    alloc: Global,
    text: &[u8],
    file: &mut [u8],
    needed: &mut usize,
    fault: &mut Fault,
) -> u32
    ensures assembled { result ≡ 0 →
        HasBytes (IsAssembled text.now) file.old file.new needed.new }
    ensures small { result ≡ 102 → HasTooLittleRoom (IsAssembled text.now) file.old needed.new }
    ensures refused { (0 < result) × (result ≤ 100) →
        IsNoTextAs text.now fault.new × (needed.new ≡ 0) }
    ensures kept { 0 < result → file.new ≡ file.old }
    ensures number { fault.new.number ≡ result }
    ensures no_fault { result ≡ 0 → fault.new ≡ no_fault }
    ensures status { result ≤ 102 }
{
    match assembled(alloc, text) {
        Ok(made) => give(made.as_slice(), file, needed, fault),
        Err(refused) => {
            *needed = 0;
            *fault = Fault::from(refused);
            fault.number
        }
    }
}

/// Writes the canonical text of the client in a file to the front of `text`, as `lezgauri_raw_assemble` writes a file.
#[tactic(auto, using(crate::proofs::Numbers::numbers))]
#[unsafe(no_mangle)]
pub extern "C" fn lezgauri_raw_print(
    alloc: Global,
    file: &[u8],
    text: &mut [u8],
    needed: &mut usize,
    fault: &mut Fault,
) -> u32
    ensures printed { result ≡ 0 →
        HasBytes (IsPrinted file.now) text.old text.new needed.new }
    ensures small { result ≡ 102 → HasTooLittleRoom (IsPrinted file.now) text.old needed.new }
    ensures refused { (0 < result) × (result ≤ 100) →
        IsNoFileAs file.now fault.new × (needed.new ≡ 0) }
    ensures kept { 0 < result → text.new ≡ text.old }
    ensures number { fault.new.number ≡ result }
    ensures no_fault { result ≡ 0 → fault.new ≡ no_fault }
    ensures status { result ≤ 102 }
{
    match printed(alloc, file) {
        Ok(made) => give(made.as_slice(), text, needed, fault),
        Err(refused) => {
            *needed = 0;
            *fault = Fault::from(refused);
            fault.number
        }
    }
}

/// The file of the client that a text spells.
fn assembled(alloc: Global, text: &[u8]) -> Result<Vec<u8>, Refused>
    ensures assembled { IfOk result (λ file. IsAssembled text.now file.items) }
    ensures refused { IfErr result (IsNoText text.now) }
{
    Ok(assemble(alloc, text)?)
}

/// The canonical text of the client in a file.
fn printed(alloc: Global, file: &[u8]) -> Result<Vec<u8>, Refused>
    ensures printed { IfOk result (λ text. IsPrinted file.now text.items) }
    ensures refused { IfErr result (IsNoFile file.now) }
{
    match parse(file) {
        Ok(client) => Ok(print(alloc, &client)?),
        Err(fault) => Err(Refused {
            client: Some(0),
            fault,
        }),
    }
}

/// Copies bytes that a call made to the front of the caller's memory. `needed` is how many there are. Returns `OK`, or `TOO_SMALL`
/// if they don't fit, and then nothing is copied.
fn give(made: &[u8], room: &mut [u8], needed: &mut usize, fault: &mut Fault) -> u32
    ensures given { result ≡ 0 → room.new ≡ made.now ++ drop (length made.now) room.old }
    ensures small { result ≡ 102 → length room.old < length made.now }
    ensures needed { needed.new ≡ length made.now }
    ensures kept { 0 < result → room.new ≡ room.old }
    ensures number { fault.new.number ≡ result }
    ensures no_fault { result ≡ 0 → fault.new ≡ no_fault }
    ensures status { (result ≡ 0) ⊎ (result ≡ 102) }
{
    *needed = made.len();
    if put(made, room) {
        *fault = Fault::NONE;
        OK
    } else {
        *fault = Fault::SMALL;
        TOO_SMALL
    }
}
