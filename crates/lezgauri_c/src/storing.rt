ghost use Rattle.std.specs.Prelude.{◌≡◌, ◌≢◌, ◌+◌, ◌<◌, ◌≤◌, Some, length};
ghost use Rattle.seg_spec.specs.Bytes.{signed_long, set_long, ChangesOnly};
ghost use Rattle.seg_spec.specs.Types.{Form, form_at};
ghost use Rattle.lezgauri_c.specs.Places.{type_number};
ghost use Rattle.lezgauri_c.specs.Values.{table_in, IsReadStatus, OnSound};

use crate::kept_types::KeptTypes;
use crate::place::place_at;
use crate::reading::on_reader;
use crate::status::{OK, code_status};
use lezgauri::ImageRead;
use seg_raw::Code;
use std::alloc::Global;

/// The size of a number in bytes.
const NUMBER: usize = 8;

/// Stores a number at a place of an image that an earlier call found sound, or changed, in place. Returns the status for `OtherType` if
/// the place isn't a number, for `OutOfRange` if it doesn't lie in the image; then nothing changes.
#[unsafe(no_mangle)]
pub extern "C" fn lezgauri_raw_store(
    alloc: Global,
    image: &mut [u8],
    types: &mut KeptTypes,
    at: u32,
    type_id: u32,
    number: i64,
) -> u32
    ensures stored { OnSound image.old types.old (λ picture.
        form_at picture.table (type_number type_id) ≡ Some Form.i64 →
        at + 8 ≤ length image.old → (result ≡ 0) × (signed_long image.new at ≡ number)) }
    ensures other { OnSound image.old types.old (λ picture.
        form_at picture.table (type_number type_id) ≢ Some Form.i64 → result ≡ 114) }
    ensures changes { ChangesOnly image.old image.new at 8 }
    ensures kept { 0 < result → image.new ≡ image.old }
    ensures same { table_in types.new ≡ table_in types.old }
    ensures status { IsReadStatus result }
{
    let place = place_at(at, type_id);
    let loaded = on_reader!(alloc, image, types, reader => reader.load(place));
    match loaded {
        Ok(_) => put_number(image, at, number),
        Err(code) => code_status(code),
    }
}

/// Writes a number at a position. Returns the status for `OutOfRange` if it doesn't fit.
fn put_number(image: &mut [u8], at: u32, number: i64) -> u32
    ensures stored { at + 8 ≤ length image.old →
        (result ≡ 0) × (signed_long image.new at ≡ number) }
    ensures past { length image.old < at + 8 → result ≡ 115 }
    ensures changes { ChangesOnly image.old image.new at 8 }
    ensures kept { 0 < result → image.new ≡ image.old }
{
    let at = at as usize;
    if image.len() < at + NUMBER {
        return code_status(Code::OutOfRange);
    }
    set_long(image, at, number.cast_unsigned());
    OK
}

/// Writes a little-endian number of 64 bits. It must fit.
fn set_long(bytes: &mut [u8], at: usize, value: u64)
    requires { at + 8 ≤ length bytes.old }
    ensures { bytes.new ≡ set_long bytes.old at value }
{
    bytes[at..at + NUMBER].copy_from_slice(&u64::to_le_bytes(value));
}
