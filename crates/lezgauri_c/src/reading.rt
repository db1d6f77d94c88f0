//! What all exports that read an image in place have in common: the types that C keeps are taken out of their box for one call.

ghost use Rattle.std.specs.Prelude.{◌≡◌, ◌⊎◌, ◌<◌, ◌≤◌, Some, IfOk, IfErr, OnErr};
ghost use Rattle.lezgauri_c.specs.KeptImages.{table_kept, types_in};
ghost use Rattle.lezgauri_c.specs.Values.{table_in, Tells, IsUnopened};

use crate::kept_image::KeptImage;
use crate::kept_types::KeptTypes;
use crate::reader::Reader;
use crate::status::{BAD_ARGUMENT, OK, code_status};
use seg_raw::{Code, Fault};
use seg_value::{MAX_LEN, View};
use std::alloc::Global;

/// A call on a reader of the image, with the types that C keeps, or a return of a status if there can't be one.
macro_rules! on_reader {
    ($alloc:ident, $image:expr, $types:ident, $reader:ident => $call:expr) => {{
        let opened = match crate::reading::Opened::take($alloc, $image, $types) {
            Ok(opened) => opened,
            Err(status) => return status,
        };
        let $reader = opened.reader();
        let returned = $call;
        opened.give_back($alloc, $types);
        returned
    }};
}

pub(crate) use on_reader;

/// An image, and the types that C keeps, out of their box.
///
/// It isn't `Drop`, so the compiler refuses code that loses the types.
pub(crate) struct Opened<'a> {
    view: View<'a>,
    types: Box<KeptImage>,
}

impl<'a> Opened<'a> {
    /// Takes the types out of their box. `BAD_ARGUMENT` if C keeps no types, and the number of `BadHeader` if the image is longer than
    /// any segment.
    pub(crate) fn take(
        alloc: Global,
        image: &'a [u8],
        types: &mut KeptTypes,
    ) -> Result<Opened<'a>, u32>
        ensures image { IfOk result (λ opened. opened.view.bytes.now ≡ image.now) }
        ensures types { IfOk result
            (λ opened. table_in types.old ≡ Some (table_kept opened.types.value)) }
        ensures status { IfErr result (IsUnopened image.now types.old) }
        ensures kept { OnErr result (table_in types.new ≡ table_in types.old) }
    {
        let Some(kept) = types.take(alloc) else {
            return Err(BAD_ARGUMENT);
        };
        if image.len() > MAX_LEN as usize {
            types.keep(alloc, kept);
            return Err(u32::from(Fault::BadHeader.code()));
        }
        Ok(Opened {
            view: View::new(image),
            types: kept,
        })
    }

    pub(crate) fn reader(&self) -> Reader<'_>
        ensures image { result.view.bytes.now ≡ self.now.view.bytes.now }
        ensures types { types_in result ≡ table_kept self.now.types.value }
    {
        Reader {
            view: self.view,
            kept: &self.types,
        }
    }

    /// Puts the types back.
    pub(crate) fn give_back(self, alloc: Global, types: &mut KeptTypes)
        ensures { table_in types.new ≡ Some (table_kept self.entry.types.value) }
    {
        let Opened {
            view: _,
            types: kept,
        } = self;
        types.keep(alloc, kept);
    }
}

/// Gives the caller the value that a call returned, and returns `OK`, or returns the status for a code.
pub(crate) fn tell<T: Copy>(returned: Result<T, Code>, value: &mut T) -> u32
    ensures told { Tells result value.new returned }
    ensures unwritten { 0 < result → value.new ≡ value.old }
    ensures status { (result ≡ 0) ⊎ ((111 ≤ result) × (result ≤ 117)) }
{
    match returned {
        Ok(found) => {
            *value = found;
            OK
        }
        Err(code) => code_status(code),
    }
}
