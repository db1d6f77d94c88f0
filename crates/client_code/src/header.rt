ghost use Rattle.std.specs.Prelude.{◌≡◌, ◌≢◌, ◌≤◌, ◌<◌, ◌+◌, ◌*◌, ℕ, length, IfOk, IfErr, OnOk, MatchOption};
ghost use Rattle.seg_spec.specs.Bytes as bytes;
ghost use Rattle.client_spec.specs.Grammar.{file_version};
ghost use Rattle.client_code.specs.Files.{IsFileVersion, IsFileHeader, AreHeaderWordsRight};
ghost use Rattle.client_code.specs.declared.header.TheConstants.{MOST_CONSTANTS, MOST_INSTRUCTIONS};
ghost use Rattle.client_code.specs.declared.types.TheConstants.{MOST_TYPES};

use crate::types::{ENTRY, MOST_TYPES, TYPES_AT, version_of};
use byteorder::{ByteOrder, LittleEndian};
use seg_layout::TypeTable;
use seg_raw::Fault;

/// The first bytes of a client file.
pub const MAGIC: &[u8; 4] = b"SEGC";

/// The version of files whose types have no shared cells.
pub const FIRST_VERSION: u32 = 1;

/// The version of files whose types have shared cells.
pub const SHARING_VERSION: u32 = 2;

/// The most constants of a client.
pub const MOST_CONSTANTS: u32 = 256;

/// The most instructions of a client.
pub const MOST_INSTRUCTIONS: u32 = 4096;

/// The counts in the header of a client file: how many types, constants and instructions follow.
#[derive(Debug, Clone, Copy, PartialEq, Eq)]
pub struct FileHeader {
    pub types: u32,
    pub constants: u32,
    pub instructions: u32,
    ghost limits: { (types ≤ MOST_TYPES) × (constants ≤ MOST_CONSTANTS)
        × (instructions ≤ MOST_INSTRUCTIONS) },
}

fn word(file: &[u8], at: u32) -> Option<u32>
    requires { at ≤ 16 }
    ensures { MatchOption result (length file.now < at + 4) (λ n. (at + 4 ≤ length file.now)
        × (n ≡ bytes.word file.now at)) }
{
    let bytes = file.get(at as usize..at as usize + 4)?;
    Some(LittleEndian::read_u32(bytes))
}

/// Tests that the header has the version that these types need.
pub fn check_version(file: &[u8], types: &TypeTable) -> Result<(), Fault>
    ensures found { OnOk result (bytes.word file.now 4 ≡ file_version types.now) }
    ensures wrong { IfErr result (λ fault. 8 ≤ length file.now →
        bytes.word file.now 4 ≢ file_version types.now) }
    ensures fault { IfErr result (λ fault. fault ≡ Fault.BadCode 4) }
{
    if word(file, 4) == Some(version_of(types)) {
        Ok(())
    } else {
        Err(Fault::BadCode(4))
    }
}

/// The word at a position, if it is at most `most`.
fn count(file: &[u8], at: u32, most: u32) -> Result<u32, Fault>
    requires { at ≤ 16 }
    ensures found { IfOk result (λ n. (n ≤ most) × (at + 4 ≤ length file.now)
        × (n ≡ bytes.word file.now at)) }
    ensures wrong { IfErr result (λ fault. at + 4 ≤ length file.now → bytes.word file.now at ≤ most
        → ⊥) }
    ensures fault { IfErr result (λ fault. fault ≡ Fault.BadCode at) }
{
    match word(file, at) {
        Some(n) if n <= most => Ok(n),
        _ => Err(Fault::BadCode(at)),
    }
}

impl FileHeader {
    /// The header of a file. Fails with the position of the first field that is wrong or cut off.
    pub fn read(file: &[u8]) -> Result<FileHeader, Fault>
        ensures found { IfOk result
            (λ h. IsFileHeader file.now h.types h.constants h.instructions) }
        ensures wrong { IfErr result (λ fault. (t c i : ℕ) → t ≤ MOST_TYPES → c ≤ MOST_CONSTANTS →
            i ≤ MOST_INSTRUCTIONS → IsFileHeader file.now t c i → ⊥) }
        ensures fault { IfErr result (λ fault. (place : ℕ) × (fault ≡ Fault.BadCode place)
            × AreHeaderWordsRight file.now place × (AreHeaderWordsRight file.now (place + 4) → ⊥)) }
    {
        if !file.starts_with(MAGIC) {
            return Err(Fault::BadCode(0));
        }
        let Some(FIRST_VERSION | SHARING_VERSION) = word(file, 4) else {
            return Err(Fault::BadCode(4));
        };
        let types = count(file, 8, MOST_TYPES)?;
        let constants = count(file, 12, MOST_CONSTANTS)?;
        let instructions = count(file, 16, MOST_INSTRUCTIONS)?;
        Ok(FileHeader {
            types,
            constants,
            instructions,
        })
    }

    /// The position of the first constant, after the type entries.
    pub fn constants_at(&self) -> u32
        ensures { result ≡ TYPES_AT + ENTRY * self.now.types }
    {
        TYPES_AT + ENTRY * self.types
    }
}
