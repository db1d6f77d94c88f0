ghost use Rattle.std.specs.Prelude.{◌≡◌, IfErr, IfOk, OnErr, OnOk};
ghost use Rattle.seg_spec.specs.Bytes.{word};
ghost use Rattle.seg_spec.specs.Header.{allocator_word};
ghost use Rattle.seg_spec.specs.Images.{upgraded};
ghost use Rattle.seg_spec.specs.Window.{with_bytes};
ghost use Rattle.seg_raw.specs.declared.fault.Fault.TheVariants.{Memory};
ghost use Rattle.seg_check.specs.Faults.{IsImageOf, IsFaultOfOpening, IsFrontRight};
ghost use Rattle.seg_check.specs.Owners.{IsOwnerFaultOf};
ghost use Rattle.seg_check.specs.Positions.{IsFaultAt};

use crate::check;
use seg_block::Fit;
use seg_layout::TypeTable;
use seg_ptr::{Window, header};
use seg_raw::Fault;
use std::alloc::Allocator;

/// Checks an image, and returns its types. The image then is one of the version that may have frozen objects. Fails
/// with the image's first fault, or with `BadHeader` if a sound image has the other allocator; then nothing changes.
pub fn open<F: Fit, A: Allocator, B: Allocator>(
    alloc: B,
    window: &mut Window<A>,
) -> Result<TypeTable, Fault>
    ensures opened { OnOk result
        (window.new ≡ with_bytes window.old (upgraded window.old.bytes)) }
    ensures image { IfOk result (IsImageOf window.old.bytes) }
    ensures allocator { OnOk result (word window.old.bytes allocator_word ≡ F.allocator) }
    ensures fault { IfErr result (IsFaultOfOpening F.allocator window.old.bytes) }
    ensures owner { IfErr result (IsOwnerFaultOf window.old.bytes) }
    ensures position { IfErr result (IsFaultAt window.old.bytes) }
    ensures memory { IfErr result (λ fault. fault ≡ Memory → IsFrontRight window.old.bytes) }
    ensures unchanged { OnErr result (window.new ≡ window.old) }
{
    let types = check(alloc, window.view())?;
    if window.get32(header::ALLOCATOR) != F::word() {
        return Err(Fault::BadHeader);
    }
    header::upgrade(window);
    Ok(types)
}
