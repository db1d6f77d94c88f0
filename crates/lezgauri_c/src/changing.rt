//! What all exports that change an image have in common: the image in lent memory is opened for one call of `Image` or one run, without a
//! check and without reading its types, which C keeps.
//! A call of `Image` keeps the image's version. Only images of version 2 have shared types, so no call makes a frozen object in an image of
//! version 1.

ghost use Rattle.std.specs.Prelude.{◌≡◌, ◌<◌, ◌≤◌, Some, None, IfOk, IfErr, OnErr};
ghost use Rattle.lezgauri.specs.Images.{segment_of, bytes_in};
ghost use Rattle.lezgauri_c.specs.Changes.{TellsCount, TellsDone, TellsFound, IsOpenedOn};
ghost use Rattle.lezgauri_c.specs.KeptImages.{table_kept};
ghost use Rattle.lezgauri_c.specs.Memory.{memory_of};
ghost use Rattle.lezgauri_c.specs.Values.{table_in, IsUnopened, OnSound};

use crate::kept_image::KeptImage;
use crate::kept_types::KeptTypes;
use crate::lent::Lent;
use crate::run_in_place::window_of;
use crate::status::{BAD_ARGUMENT, OK, code_status};
use lezgauri::{Code, StoppedAt};
use seg_raw::Fault;
use std::alloc::Global;

/// A call on the image in lent memory, with the types that C keeps, or a return of a status if it can't be opened.
macro_rules! on_image {
    ($alloc:ident, $lent:ident, $types:ident, $opened:ident => $call:expr) => {{
        let mut $opened = match crate::changing::open_image($alloc, $lent, $types) {
            Ok(kept) => kept,
            Err(status) => return status,
        };
        let returned = $call;
        crate::changing::close_image($alloc, $lent, $types, $opened);
        returned
    }};
}

pub(crate) use crate::place::{give, place_at, type_number};
pub(crate) use on_image;

/// Opens an image that an earlier call found sound, or changed, with the types that C keeps. Its memory is then the open image's.
/// Returns `BAD_ARGUMENT` if C keeps no types, and the number of `BadHeader` if the image is longer than any segment.
// Inlined in each export, as `close_image` is. So the image's parts stay in registers.
#[inline(always)]
#[tactic(auto, using(crate::proofs::Numbers::numbers))]
pub(crate) fn open_image(
    alloc: Global,
    image: &mut Lent,
    types: &mut KeptTypes,
) -> Result<Box<KeptImage>, u32>
    ensures opened { IfOk result (λ opened. IsOpenedOn image.old types.old opened.value) }
    ensures status { IfErr result (IsUnopened image.old.bytes types.old) }
    ensures none { IfErr result (λ status. table_in types.old ≡ None → status ≡ 100) }
    ensures unsound { OnErr result (OnSound image.old.bytes types.old (λ _. ⊥)) }
    ensures kept { OnErr result (image.new.bytes ≡ image.old.bytes) }
    ensures kept_home { OnErr result (memory_of image.new ≡ memory_of image.old) }
    ensures same { OnErr result (table_in types.new ≡ table_in types.old) }
{
    let Some(mut kept) = types.take(alloc) else {
        return Err(BAD_ARGUMENT);
    };
    let bytes = image.take();
    match window_of(bytes) {
        Ok(window) => {
            kept.enter(window);
            Ok(kept)
        }
        Err(bytes) => {
            image.give_back(bytes);
            types.keep(alloc, kept);
            Err(u32::from(Fault::BadHeader.code()))
        }
    }
}

/// Gives the memory of an open image back, and keeps its types.
#[inline(always)]
pub(crate) fn close_image(
    alloc: Global,
    lent: &mut Lent,
    types: &mut KeptTypes,
    opened: Box<KeptImage>,
)
    ensures bytes { lent.new.bytes ≡ bytes_in opened.value.image }
    ensures home { memory_of lent.new ≡ (segment_of opened.value.image).window.home }
    ensures types { table_in types.new ≡ Some (table_kept opened.value) }
{
    let mut kept = opened;
    lent.give_back(kept.leave().into_bytes());
    types.keep(alloc, kept);
}

/// `OK`, or the status for a code.
pub(crate) fn done(returned: Result<(), Code>) -> u32
    ensures told { TellsDone result returned }
    ensures number { 0 < result → 110 < result }
{
    match returned {
        Ok(()) => OK,
        Err(code) => code_status(code),
    }
}

/// Gives the caller how many of the numbers or entries were done, and returns `OK`, or the status for the code of the first that wasn't.
pub(crate) fn give_count(returned: Result<(), StoppedAt>, len: usize, count: &mut usize) -> u32
    ensures told { TellsCount result count.new len returned }
    ensures number { 0 < result → 110 < result }
    ensures all { result ≡ 0 → count.new ≡ len }
{
    match returned {
        Ok(()) => {
            *count = len;
            OK
        }
        Err(stopped) => {
            *count = stopped.done;
            code_status(stopped.code)
        }
    }
}

/// `OK`, or the status for `Absent` if there was nothing.
pub(crate) fn found(there: bool) -> u32
    ensures told { TellsFound result there }
    ensures number { 0 < result → 110 < result }
{
    if there { OK } else { code_status(Code::Absent) }
}
