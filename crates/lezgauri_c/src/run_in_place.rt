ghost use Rattle.std.specs.Prelude.{◌≡◌, ◌<◌, ◌↔◌, true, false, Ok, [], ◌∷◌, length, IfOk, IfErr, OnErr, ℕ};
ghost use Rattle.seg_spec.specs.Header.{max_length};
ghost use Rattle.seg_spec.specs.Types.{Table};
ghost use Rattle.seg_spec.specs.Images.{upgraded};
ghost use Rattle.seg_spec.specs.Window.{region_of, with_bytes};
ghost use Rattle.lezgauri.specs.Faults.{IsImageOf, IsFaultOf};
ghost use Rattle.lezgauri.specs.ClientFiles.{OfTree};
ghost use Rattle.lezgauri.specs.Ended.{Ended};
ghost use Rattle.lezgauri.specs.Images.{segment_of, allocator_of, bytes_in, types_of};
ghost use Rattle.lezgauri.specs.Texts.{AreWrong};
ghost use Rattle.client_vm.specs.ReadyClients.{client_in};
ghost use Rattle.client_vm.specs.Reports.{IsReportOf};
ghost use Rattle.client_vm.specs.Together.{opened};
ghost use Rattle.lezgauri_c.specs.Calls.{effect_of_one};
ghost use Rattle.lezgauri_c.specs.Prepared.{client_bytes_of};
ghost use Rattle.lezgauri_c.specs.Runs.{IsSoundSegment, HasRunOnSegment, ReadyRan};
ghost use Rattle.seg_raw.specs.Homes.{home_of};

use crate::accepting::ready;
use client_vm::{MAX_LEN, Ready, Refused, Report as Told, Sink, Window, header, run};
use lezgauri::{Fit, Image, Segment, TypeTable, read_types};
use seg_raw::{Fault as Reason, Region};
use std::alloc::{Allocator, Global};

/// Verifies a client and runs it on an open image in place. If it is refused, nothing changes.
pub(crate) fn verify_and_run<A: Allocator, W: Sink>(
    alloc: Global,
    image: &mut Image<A>,
    client: &[u8],
    input: &[u8],
    sink: &mut W,
) -> Result<Told, Refused>
    requires works { W.has_failed sink.old ≡ false }
    ensures within { IfOk result (IsReportOf client.now) }
    ensures runs { IfOk result (λ told.
        IsSoundSegment (allocator_of image.old) (segment_of image.old) →
        HasRunOnSegment (allocator_of image.old) client.now input.now
        (segment_of image.old) (segment_of image.new)
        (effect_of_one (W.taken sink.old) (W.taken sink.new) (bytes_in image.new) told)) }
    ensures ended { IfOk result
        (λ told. (told.ended ≡ Ended.OutputFailed) ↔ (W.has_failed sink.new ≡ true)) }
    ensures refused { IfErr result (AreWrong (types_of image.old) (client.now ∷ [])) }
    ensures unchanged { OnErr result ((image.new ≡ image.old) × (sink.new ≡ sink.old)) }
    ensures home { (segment_of image.new).window.home ≡ (segment_of image.old).window.home }
{
    let client = ready(alloc, client, image.types())?;
    Ok(run_ready(image, &client, input, sink))
}

/// Runs a prepared client on an open image in place. If its types and the image's differ, nothing changes.
pub(crate) fn run_again<A: Allocator, W: Sink>(
    image: &mut Image<A>,
    client: &Ready<Global>,
    input: &[u8],
    sink: &mut W,
) -> Result<Told, Refused>
    requires works { W.has_failed sink.old ≡ false }
    ensures within { IfOk result (IsReportOf (client_bytes_of client.now)) }
    ensures runs { OfTree (client_in client.now) (λ _. IfOk result (λ told.
        IsSoundSegment (allocator_of image.old) (segment_of image.old) →
        HasRunOnSegment (allocator_of image.old) (client_bytes_of client.now) input.now
        (segment_of image.old) (segment_of image.new)
        (effect_of_one (W.taken sink.old) (W.taken sink.new) (bytes_in image.new) told))) }
    ensures refused { OfTree (client_in client.now)
        (λ _. IfErr result (AreWrong (types_of image.old) (client_bytes_of client.now ∷ []))) }
    ensures mismatch { IfErr result
        (λ refused. (k : ℕ) × (refused.fault ≡ Reason.TypeMismatch k)) }
    ensures unchanged { OnErr result ((image.new ≡ image.old) × (sink.new ≡ sink.old)) }
    ensures home { (segment_of image.new).window.home ≡ (segment_of image.old).window.home }
{
    match image.types().agrees(client.verified().types()) {
        Ok(()) => Ok(run_ready(image, client, input, sink)),
        Err(fault) => Err(Refused {
            client: Some(0),
            fault,
        }),
    }
}

/// Runs a client on an open image whose types agree with the client's.
fn run_ready<A: Allocator, W: Sink>(
    image: &mut Image<A>,
    client: &Ready<Global>,
    input: &[u8],
    sink: &mut W,
) -> Told
    requires works { W.has_failed sink.old ≡ false }
    ensures within { IsReportOf (client_bytes_of client.now) result }
    ensures runs { ReadyRan (allocator_of image.old) client.now input.now
        (segment_of image.old) (segment_of image.new)
        (effect_of_one (W.taken sink.old) (W.taken sink.new) (bytes_in image.new) result) }
    ensures ended { (result.ended ≡ Ended.OutputFailed) ↔ (W.has_failed sink.new ≡ true) }
    ensures home { (segment_of image.new).window.home ≡ (segment_of image.old).window.home }
{
    match image {
        Image::Seq(segment) => run_on(segment, client, input, sink),
        Image::Best(segment) => run_on(segment, client, input, sink),
    }
}

/// Runs a client on a segment.
fn run_on<F: Fit, A: Allocator, W: Sink>(
    segment: &mut Segment<F, A>,
    client: &Ready<Global>,
    input: &[u8],
    sink: &mut W,
) -> Told
    requires works { W.has_failed sink.old ≡ false }
    ensures within { IsReportOf (client_bytes_of client.now) result }
    ensures runs { ReadyRan F.allocator client.now input.now segment.old segment.new
        (effect_of_one (W.taken sink.old) (W.taken sink.new) segment.new.window.bytes result) }
    ensures ended { (result.ended ≡ Ended.OutputFailed) ↔ (W.has_failed sink.new ≡ true) }
    ensures home { segment.new.window.home ≡ segment.old.window.home }
{
    upgrade_segment(segment);
    run(segment, client, input, &[], sink)
}

/// Makes the image in a segment one of the version that may have frozen objects.
fn upgrade_segment<F: Fit, A: Allocator>(segment: &mut Segment<F, A>)
    ensures window { segment.new.window ≡ opened segment.old.window }
    ensures types { segment.new.types ≡ segment.old.types }
{
    upgrade(segment.heap_mut().window_mut());
}

/// A window on an image, in the image's own memory, and the image's types. Bytes that aren't an image are returned with a fault.
pub(crate) fn open_window<A: Allocator>(
    image: Vec<u8, A>,
) -> Result<(Window<A>, TypeTable), (Reason, Vec<u8, A>)>
    ensures bytes { IfOk result (λ it. it.0.bytes ≡ image.items) }
    ensures region { IfOk result (λ it. region_of it.0 ≡ image.items) }
    ensures base { IfOk result (λ it. length it.0.before ≡ 0) }
    ensures types { IfOk result (λ it. (table : Table) → IsImageOf image.items table →
        it.1 ≡ table) }
    ensures fault { OnErr result ((table : Table) → IsImageOf image.items table → ⊥) }
    ensures kept { IfErr result (λ it. it.1.items ≡ image.items) }
    ensures home { IfOk result (λ it. it.0.home ≡ home_of image) }
    ensures kept_home { IfErr result (λ it. home_of it.1 ≡ home_of image) }
{
    let window = match window_of(image) {
        Ok(window) => window,
        Err(image) => return Err((Reason::BadHeader, image)),
    };
    match types_of(&window) {
        Ok(types) => Ok((window, types)),
        Err(fault) => Err((fault, window.into_bytes())),
    }
}

/// A window on an image, in the image's own memory. Bytes that are too many for a segment are returned.
pub(crate) fn window_of<A: Allocator>(image: Vec<u8, A>) -> Result<Window<A>, Vec<u8, A>>
    ensures bytes { IfOk result (λ window. window.bytes ≡ image.items) }
    ensures region { IfOk result (λ window. region_of window ≡ image.items) }
    ensures base { IfOk result (λ window. length window.before ≡ 0) }
    ensures fault { OnErr result (IsFaultOf image.items Reason.BadHeader) }
    ensures long { OnErr result (max_length < length image.items) }
    ensures kept { IfErr result (λ bytes. bytes.items ≡ image.items) }
    ensures home { IfOk result (λ window. window.home ≡ home_of image) }
    ensures kept_home { IfErr result (λ bytes. home_of bytes ≡ home_of image) }
{
    let len = match u32::try_from(image.len()) {
        Ok(len) if len <= MAX_LEN => len,
        _ => return Err(image),
    };
    Ok(Window::place(Region::from_vec(image), 0, len).unwrap())
}

/// The types of the image in a window.
pub(crate) fn types_of<A: Allocator>(window: &Window<A>) -> Result<TypeTable, Reason>
    ensures { (table : Table) → IsImageOf window.now.bytes table → result ≡ Ok table }
{
    read_types(window.view())
}

/// Makes an image one of the version that may have frozen objects. Writes nothing to an image of that version, so that a run that
/// only reads leaves the pages of a mapped file as they are.
pub(crate) fn upgrade<A: Allocator>(window: &mut Window<A>)
    ensures { window.new ≡ with_bytes window.old (upgraded window.old.bytes) }
{
    if !header::shares(window.view()) {
        header::upgrade(window);
    }
}
