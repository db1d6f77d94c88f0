ghost use Rattle.std.specs.Prelude.{◌≡◌, ◌⊎◌, ◌<◌, Some, None, Ok, IsSome};
ghost use Rattle.seg_spec.specs.Images.{IsSound};
ghost use Rattle.lezgauri_c.specs.KeptImages.{table_kept};
ghost use Rattle.lezgauri_c.specs.Values.{table_in};

use crate::kept_image::KeptImage;
use crate::kept_types::KeptTypes;
use crate::status::OK;
use lezgauri::{TypeTable, read_types};
use seg_raw::Fault;
use seg_value::{MAX_LEN, View};
use std::alloc::Global;

/// Reads the types of an image that an earlier call found sound, or changed, and keeps them instead of the types that were kept before.
/// Returns `OK`, or a fault's number, and then nothing changes. For a sound image only `Memory` is possible, and only if no types were
/// kept.
#[unsafe(no_mangle)]
pub extern "C" fn lezgauri_raw_open_types(alloc: Global, image: &[u8], types: &mut KeptTypes) -> u32
    ensures types { (sound : IsSound image.now) → result ≡ 0 →
        table_in types.new ≡ Some sound.picture.table }
    ensures done { IsSound image.now → (result ≡ 0) ⊎ (result ≡ 1) }
    ensures again { IsSound image.now → IsSome (table_in types.old) → result ≡ 0 }
    ensures kept { 0 < result → table_in types.new ≡ table_in types.old }
{
    match table_of(image) {
        Ok(table) => keep(alloc, types, KeptImage::of(table)),
        Err(fault) => u32::from(fault.code()),
    }
}

/// Frees the types, if there are any.
#[unsafe(no_mangle)]
pub extern "C" fn lezgauri_raw_close_types(alloc: Global, types: &mut KeptTypes)
    ensures { table_in types.new ≡ None }
{
    types.close(alloc);
}

/// Keeps types, in the memory of those that were kept before, if there are any.
fn keep(alloc: Global, types: &mut KeptTypes, image: KeptImage) -> u32
    ensures types { result ≡ 0 → table_in types.new ≡ Some (table_kept image) }
    ensures status { (result ≡ 0) ⊎ (result ≡ 1) }
    ensures again { IsSome (table_in types.old) → result ≡ 0 }
    ensures kept { 0 < result → table_in types.new ≡ table_in types.old }
{
    let boxed = match types.take(alloc) {
        Some(mut kept) => {
            *kept = image;
            kept
        }
        None => match Box::new(alloc, image) {
            Ok(made) => made,
            Err(_) => return u32::from(Fault::Memory.code()),
        },
    };
    types.keep(alloc, boxed);
    OK
}

/// The type table of an image.
fn table_of(image: &[u8]) -> Result<TypeTable, Fault>
    ensures { (sound : IsSound image.now) → result ≡ Ok sound.picture.table }
{
    if image.len() > MAX_LEN as usize {
        return Err(Fault::BadHeader);
    }
    read_types(View::new(image))
}
