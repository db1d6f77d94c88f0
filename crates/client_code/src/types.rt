ghost use Rattle.std.specs.Prelude.{◌≡◌, ◌≤◌, ◌<◌, ◌+◌, ◌*◌, ℕ, IfSome, IfNone, IfOk, IfErr, length};
ghost use Rattle.seg_spec.specs.Bytes.{slice};
ghost use Rattle.seg_spec.specs.Types.{Table, IsUsed};
ghost use Rattle.client_spec.specs.Grammar.{file_version};
ghost use Rattle.client_code.specs.Files.{AreTypes};

use crate::header::{FIRST_VERSION, SHARING_VERSION};
use seg_layout::{MAX_TYPES, Type, TypeId, TypeTable};
use seg_raw::Fault;

/// The size of a type entry, in bytes.
pub const ENTRY: u32 = seg_layout::ENTRY as u32;

/// The most types of a client.
pub const MOST_TYPES: u32 = MAX_TYPES as u32;

/// The position of the type entries in a client file.
pub const TYPES_AT: u32 = 20;

const I64_KIND: u8 = 1;

/// The bytes of entry `i`. `None` if the file ends before the end of the entry.
fn entry(file: &[u8], i: u32) -> Option<&[u8]>
    requires { i ≤ MOST_TYPES }
    ensures { IfSome result (λ bytes. length bytes.now ≡ ENTRY) }
{
    let at = (TYPES_AT + ENTRY * i) as usize;
    file.get(at..at + ENTRY as usize)
}

/// The first entry that is cut off or unused, or the number of entries.
fn first_missing(file: &[u8], count: u32) -> u32
    requires { count ≤ MOST_TYPES }
    ensures { result ≤ count }
{
    for i in 0..count {
        match entry(file, i) {
            Some([kind, ..]) if *kind != 0 => {}
            _ => return i,
        }
    }
    count
}

/// The entries as a table. Entries that are cut off become `i64`, since earlier entries may refer to them.
fn entries(file: &[u8], count: u32) -> [u8; 512]
    requires { count ≤ MOST_TYPES }
{
    let mut table = [0; 512];
    for i in 0..count {
        let at = (ENTRY * i) as usize;
        match entry(file, i) {
            Some(bytes) => table[at..at + 16].copy_from_slice(bytes),
            None => table[at] = I64_KIND,
        }
    }
    table
}

/// The position of the first entry that is wrong or cut off.
fn first_wrong(file: &[u8], count: u32) -> u32
    requires { count ≤ MOST_TYPES }
{
    let missing = first_missing(file, count);
    let table = entries(file, count);
    let wrong = match TypeTable::read_shared(&table[..(ENTRY * count) as usize]) {
        Err(Fault::BadType(i)) => missing.min(i),
        _ => missing,
    };
    TYPES_AT + ENTRY * wrong
}

/// The entries, if the file has all of them and each is used.
fn used_entries(file: &[u8], count: u32) -> Option<&[u8]>
    requires { count ≤ MOST_TYPES }
    ensures found { IfSome result (λ bytes. (TYPES_AT + ENTRY * count ≤ length file.now)
        × (bytes.now ≡ slice file.now TYPES_AT (ENTRY * count))
        × (length bytes.now ≡ ENTRY * count)
        × ((k : ℕ) → k < count → IsUsed bytes.now k)) }
    ensures none { IfNone result (TYPES_AT + ENTRY * count ≤ length file.now →
        ((k : ℕ) → k < count → IsUsed (slice file.now TYPES_AT (ENTRY * count)) k) → ⊥) }
{
    let at = TYPES_AT as usize;
    let bytes = file.get(at..at + (ENTRY * count) as usize)?;
    for i in 0..count {
        if bytes[(ENTRY * i) as usize] == 0 {
            return None;
        }
    }
    Some(bytes)
}

/// The types of a client file. Fails with the position of the first entry that is wrong or cut off.
pub fn read_types(file: &[u8], count: u32) -> Result<TypeTable, Fault>
    requires { count ≤ MOST_TYPES }
    ensures count { IfOk result (λ table. length table ≡ count) }
    ensures found { IfOk result (λ table. AreTypes file.now table) }
    ensures wrong { IfErr result (λ fault. (table : Table) → length table ≡ count →
        AreTypes file.now table → ⊥) }
    ensures fault { IfErr result (λ fault. (at : ℕ) × (fault ≡ Fault.BadCode at)) }
{
    if let Some(bytes) = used_entries(file, count) {
        if let Ok(types) = TypeTable::read_shared(bytes) {
            return Ok(types);
        }
    }
    Err(Fault::BadCode(first_wrong(file, count)))
}

/// The version that a client file with these types has.
pub fn version_of(types: &TypeTable) -> u32
    ensures { result ≡ file_version types.now }
{
    for t in 0..types.len() {
        if let Some(Type::Shared(_)) = types.kind(t as TypeId) {
            return SHARING_VERSION;
        }
    }
    FIRST_VERSION
}
