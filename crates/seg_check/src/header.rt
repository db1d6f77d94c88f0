ghost use Rattle.std.specs.Prelude.{◌≤◌, ◌↔◌, length, IsTrue, IsOk, IsOkUnless, OnOk};
ghost use Rattle.seg_spec.specs.Sound.{HasHeader};
ghost use Rattle.seg_check.specs.Headers.{HasKnownWords};

use seg_block::UNIT;
use seg_ptr::{MAX_LEN, MIN_LEN, View, header};
use seg_raw::Fault;

/// Checks the image's length and its first 64 bytes.
pub(crate) fn check_header(view: View) -> Result<(), Fault>
    ensures header { OnOk result (HasHeader view.entry.bytes.now) }
    ensures every { HasHeader view.entry.bytes.now → IsOk result }
    ensures refused { IsOkUnless result Fault.BadHeader }
{
    let len = view.len() as u32;
    let sized = len >= MIN_LEN
        && len <= MAX_LEN
        && len % UNIT == 0
        && view.get32(header::SIZE) == len / UNIT;
    if sized && has_known_words(view) {
        Ok(())
    } else {
        Err(Fault::BadHeader)
    }
}

/// Whether the magic, the version, the allocator (0 sequential fit, 1 best fit), the index (0 flat, 1 tree) and the
/// bytes that are always 0 are right.
fn has_known_words(view: View) -> bool
    ensures { IsTrue result ↔ HasKnownWords view.entry.bytes.now }
{
    header::is_current(view)
        && view.get32(header::ALLOCATOR) <= 1
        && view.get32(header::INDEX_KIND) <= 1
        && header::has_zeros(view)
}
