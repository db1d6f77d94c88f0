ghost use Rattle.std.specs.Prelude.{◌≡◌, ◌⊎◌, ◌<◌, ◌≤◌, ◌*◌, ◌++◌, ℕ, flat_map, length, drop, IfOk, MatchResult};
ghost use Rattle.seg_spec.specs.Bytes.{slice};
ghost use Rattle.seg_spec.specs.Header.{types_start};
ghost use Rattle.seg_spec.specs.Types.{Table, form_bytes};
ghost use Rattle.lezgauri.specs.Faults.{IsImageOf};

use crate::buffer::put;
use crate::status::{OK, TOO_SMALL};
use client_vm::header;
use lezgauri::{ENTRY, MAX_TYPES, TypeTable};
use seg_raw::Fault as Reason;

/// Copies the used entries of the type table of an image that an earlier call found sound, or changed, to the front of `entries`.
/// `count` is how many there are. Returns `OK`, or `TOO_SMALL` if `entries` has fewer bytes, and then nothing is copied.
///
/// If other bytes have no type table, it returns the fault's number, and `count` is 0.
#[tactic(auto, using(crate::proofs::Numbers::numbers))]
#[unsafe(no_mangle)]
pub extern "C" fn lezgauri_raw_types(image: &[u8], entries: &mut [u8], count: &mut usize) -> u32
    ensures types { (table : Table) → IsImageOf image.now table → result ≡ 0 →
        entries.new ≡ flat_map form_bytes table ++ drop (ENTRY * length table) entries.old }
    ensures counted { (table : Table) → IsImageOf image.now table →
        (count.new ≡ length table) × ((result ≡ 0) ⊎ (result ≡ 102)) }
    ensures copied { result ≡ 0 → entries.new ≡
        slice image.now types_start (ENTRY * count.new) ++ drop (ENTRY * count.new) entries.old }
    ensures small { result ≡ 102 → length entries.old < ENTRY * count.new }
    ensures kept { 0 < result → entries.new ≡ entries.old }
    ensures status { result ≤ 102 }
{
    match used_entries(image) {
        Ok(used) => {
            *count = used.len() / ENTRY;
            if put(used, entries) { OK } else { TOO_SMALL }
        }
        Err(reason) => {
            *count = 0;
            u32::from(reason.code())
        }
    }
}

/// The used entries of the type table of an image.
fn used_entries(image: &[u8]) -> Result<&[u8], Reason>
    ensures types { (table : Table) → IsImageOf image.now table →
        MatchResult result (λ used. used.now ≡ flat_map form_bytes table) (λ _. ⊥) }
    ensures whole { IfOk result (λ used. (n : ℕ) × (length used.now ≡ ENTRY * n) ×
        (used.now ≡ slice image.now types_start (ENTRY * n))) }
{
    let Some(table) = image.get(header::TYPES..header::TYPES + ENTRY * MAX_TYPES) else {
        return Err(Reason::BadHeader);
    };
    let types = TypeTable::read_shared(table)?;
    Ok(&table[..ENTRY * types.len()])
}
