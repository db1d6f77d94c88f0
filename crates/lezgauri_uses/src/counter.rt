ghost use Rattle.std.specs.Prelude.{◌≡◌, List, [], true, false, IfOk, IfErr, OnErr};
ghost use Rattle.lezgauri.specs.Index.{Root};
ghost use Rattle.lezgauri.specs.Sound.{Picture};
ghost use Rattle.lezgauri.specs.SoundImages.{IsSound};
ghost use Rattle.lezgauri.specs.Images.{segment_of, allocator_of, types_of, IsOpen};
ghost use Rattle.lezgauri.specs.ClientFiles.{OfTree};
ghost use Rattle.lezgauri.specs.ReadyClients.{client_in};
ghost use Rattle.lezgauri.specs.Runs.{MayRun};
ghost use Rattle.lezgauri.specs.Staying.{code_passes, keeps_name};
ghost use Rattle.lezgauri_uses.specs.Counts.{HasCounted, RefusesToCount};
ghost use Rattle.lezgauri_uses.specs.Numbers.{HasNumber};

use lezgauri::{
    AllocatorKind, Error, Image, ImageRead, IndexKind, Ready, Sink, TypeId, prepare, run, verify,
};
use std::alloc::Global;

/// The type of a counter's number.
const NUMBER: TypeId = 0;

/// An image with room for a counter. The first client makes the counter.
pub fn new_counter(alloc: Global) -> Result<Vec<u8>, Error>
    ensures sound { IfOk result (λ image. IsSound image.items) }
{
    let image = Image::create(alloc, 1024, AllocatorKind::Seq, IndexKind::Flat)?;
    Ok(image.into_bytes())
}

/// Runs a client `times` times on an image, one run after the other, and returns the image after the last run. A failed output
/// ends this early. Nothing is written if the image or the client is refused.
pub fn count<W: Sink>(
    alloc: Global,
    image: Vec<u8>,
    client: &[u8],
    times: u32,
    out: &mut W,
) -> Result<Vec<u8>, Error>
    requires works { W.has_failed out.old ≡ false }
    ensures sound { IfOk result (λ saved. IsSound saved.items) }
    ensures counts { IfOk result (λ saved. HasCounted image.items client.now times
        (W.taken out.old) (W.taken out.new) (W.has_failed out.new) saved.items) }
    ensures refused { IfErr result (RefusesToCount image.items client.now) }
    ensures nothing_written { OnErr result (out.new ≡ out.old) }
{
    let mut image = Image::open(alloc, image)?;
    let client = prepare(alloc, verify(&image, client)?)?;
    for _ in 0..times {
        if out.failed() {
            break;
        }
        run(&mut image, &client, b"", out)?;
    }
    Ok(image.into_bytes())
}

/// Runs a client on an open image, and returns the number of a named object after the run. The object is looked up before the run:
/// a client that can't destroy it leaves it where it is.
pub fn number_after<W: Sink>(
    image: &mut Image<Global>,
    client: &Ready<Global>,
    name: &[u8],
    out: &mut W,
) -> Result<i64, Error>
    requires works { W.has_failed out.old ≡ false }
    ensures reads { IfOk result (λ number. OfTree (client_in client.now)
        (λ tree. (others : List Root) → MayRun (allocator_of image.old) others
        (segment_of image.old).window (types_of image.old) tree [] →
        code_passes (keeps_name tree.constants name.now) tree.code ≡ true →
        (picture : Picture) → IsOpen image.new picture → HasNumber picture name.now number)) }
{
    let number = image.find(name, NUMBER)?;
    run(image, client, b"", out)?;
    Ok(image.load(number)?)
}
