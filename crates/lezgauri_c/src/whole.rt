ghost use Rattle.std.specs.Prelude.{◌≡◌, ◌≢◌, ◌↔◌, ◌≤◌, ◌<◌, true, false, None, [], ◌∷◌, length, IfOk, IfErr, OnErr};
ghost use Rattle.seg_spec.specs.Window.{region_of};
ghost use Rattle.lezgauri.specs.Ended.{Ended};
ghost use Rattle.lezgauri.specs.Faults.{IsImageOf, IsFaultOf};
ghost use Rattle.lezgauri.specs.Images.{segment_of, allocator_of, bytes_in, types_of};
ghost use Rattle.client_vm.specs.Admitted.{IsWrong};
ghost use Rattle.client_vm.specs.Outcomes.{HasOutcome};
ghost use Rattle.client_vm.specs.Reports.{IsReportOf};
ghost use Rattle.lezgauri_c.specs.Calls.{whole_job, effect_of_one, HasRunOn, WantsRoom, IsReportedAs};
ghost use Rattle.lezgauri_c.specs.Told.{no_fault, status_number};
ghost use Rattle.lezgauri_c.specs.Memory.{memory_of};
ghost use Rattle.lezgauri_c.specs.Runs.{IsSoundSegment};
ghost use Rattle.lezgauri_c.specs.Values.{table_in, OnSound};

use crate::buffer::{Counter, replace};
use crate::fault::Fault;
use crate::kept_types::KeptTypes;
use crate::lent::Lent;
use crate::report::Report;
use crate::run_in_place::{verify_and_run, window_of};
use crate::status::{BAD_ARGUMENT, OK, OUTPUT_FULL, TOO_SMALL};
use client_vm::{Refused, Report as Told, Sink};
use lezgauri::{Image, TypeTable};
use seg_raw::Fault as Reason;
use std::alloc::Global;

/// Runs a client on an image, all or nothing, with the types that C keeps and without checking the whole image again. The client runs to
/// its end on a copy. If the output has room for everything that it prints, the copy replaces the image. If not, `OUTPUT_FULL` is
/// returned, the output is empty, and nothing else changes. Either way `needed` is the length of all its output in bytes. Returns
/// `BAD_ARGUMENT` if C keeps no types. The kept types don't change, so they aren't the image's if the client added some.
///
/// For a sound image `TOO_SMALL` is never returned.
#[tactic(auto, using(crate::proofs::Numbers::numbers))]
#[unsafe(no_mangle)]
pub extern "C" fn lezgauri_raw_run_whole(
    alloc: Global,
    image: &mut Lent,
    types: &mut KeptTypes,
    client: &[u8],
    input: &[u8],
    output: &mut Lent,
    needed: &mut usize,
    report: &mut Report,
    fault: &mut Fault,
) -> u32
    ensures whole { result ≡ 0 → HasRunOn image.old.bytes types.old client.now input.now
        Ended.Done output.old.bytes output.new.bytes image.new.bytes report.new }
    ensures length { result ≡ 0 → needed.new ≡ length output.new.bytes }
    ensures full { result ≡ 101 → WantsRoom image.old.bytes types.old client.now input.now
        output.old.bytes output.old.room needed.new }
    ensures emptied { result ≡ 101 → output.new.bytes ≡ [] }
    ensures refused { (0 < result) × (result ≤ 100) → OnSound image.old.bytes types.old
        (λ _. IsReportedAs image.old.bytes (client.now ∷ []) fault.new) }
    ensures number { (0 < result) × (result ≤ 100) → fault.new.number ≡ result }
    ensures no_fault { (ended : Ended) → result ≡ status_number ended → fault.new ≡ no_fault }
    ensures kept { 0 < result →
        (image.new.bytes ≡ image.old.bytes) × (report.new ≡ report.old) }
    ensures unwritten { (0 < result) × (result ≤ 100) →
        (output.new.bytes ≡ output.old.bytes) × (needed.new ≡ 0) }
    ensures small { OnSound image.old.bytes types.old (λ _. result ≢ 102) }
    ensures argument { (result ≡ 100) ↔ (table_in types.old ≡ None) }
    ensures same { table_in types.new ≡ table_in types.old }
    ensures status { result ≤ 102 }
    ensures home { memory_of image.new ≡ memory_of image.old }
{
    let Some(kept) = types.take(alloc) else {
        *fault = Fault::ARGUMENT;
        *needed = 0;
        return BAD_ARGUMENT;
    };
    let mut bytes = image.take();
    let mut sink = Counter::new(output.take());
    let ran = run_on_copy(
        alloc,
        bytes.as_slice(),
        kept.types(),
        client,
        input,
        &mut sink,
    );
    types.keep(alloc, kept);
    let count = sink.count();
    let (whole, printed) = sink.into_whole();
    output.give_back(printed);
    match ran {
        Ok(ran) => {
            *fault = Fault::NONE;
            *needed = count;
            if !whole {
                image.give_back(bytes);
                return OUTPUT_FULL;
            }
            let replaced = replace(ran.image.as_slice(), bytes.as_mut_slice());
            image.give_back(bytes);
            if !replaced {
                return TOO_SMALL;
            }
            *report = Report::from(ran.told);
            OK
        }
        Err(refused) => {
            image.give_back(bytes);
            *fault = Fault::from(refused);
            *needed = 0;
            fault.number
        }
    }
}

/// The result of a client on a copy of an image: its report, and the copy.
#[derive(Drop)]
struct Ran {
    told: Told,
    image: Vec<u8>,
}

/// Runs a client on a copy of an image with these types.
fn run_on_copy<W: Sink>(
    alloc: Global,
    image: &[u8],
    types: &TypeTable,
    client: &[u8],
    input: &[u8],
    sink: &mut W,
) -> Result<Ran, Refused>
    requires works { W.has_failed sink.old ≡ false }
    ensures within { IfOk result (λ ran. IsReportOf client.now ran.told) }
    ensures outcome { IfOk result (λ ran. IsImageOf image.now types.now → HasOutcome
        (whole_job image.now (client.now ∷ []) input.now)
        (effect_of_one (W.taken sink.old) (W.taken sink.new) ran.image.items ran.told)) }
    ensures ended { IfOk result
        (λ ran. (ran.told.ended ≡ Ended.OutputFailed) ↔ (W.has_failed sink.new ≡ true)) }
    ensures refused { IfErr result (λ refused. IsImageOf image.now types.now →
        IsWrong image.now (client.now ∷ []) refused) }
    ensures unwritten { OnErr result (sink.new ≡ sink.old) }
{
    let mut copy = copy_of(alloc, image, types)?;
    match verify_and_run(alloc, &mut copy, client, input, sink) {
        Ok(told) => Ok(Ran {
            told,
            image: copy.into_bytes(),
        }),
        Err(refused) => Err(refused),
    }
}

/// A copy of an image with these types, open in memory of its own.
fn copy_of(alloc: Global, image: &[u8], types: &TypeTable) -> Result<Image<Global>, Reason>
    ensures bytes { IfOk result (λ copy. bytes_in copy ≡ image.now) }
    ensures region { IfOk result (λ copy. region_of (segment_of copy).window ≡ image.now) }
    ensures base { IfOk result (λ copy. length (segment_of copy).window.before ≡ 0) }
    ensures types { IfOk result (λ copy. types_of copy ≡ types.now) }
    ensures sound { IfOk result (λ copy. IsImageOf image.now types.now →
        IsSoundSegment (allocator_of copy) (segment_of copy)) }
    ensures fault { IfErr result (IsFaultOf image.now) }
{
    match window_of(Vec::from_slice(alloc, image)?) {
        Ok(window) => Ok(Image::in_window(window, types.copy())),
        Err(_) => Err(Reason::BadHeader),
    }
}
