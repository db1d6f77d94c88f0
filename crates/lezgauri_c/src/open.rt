ghost use Rattle.std.specs.Prelude.{◌≡◌, ◌≤◌, ◌<◌, ◌↔◌, None, [], ◌∷◌};
ghost use Rattle.lezgauri.specs.Ended.{Ended};
ghost use Rattle.lezgauri_c.specs.Calls.{HasRunOn, IsReportedAs};
ghost use Rattle.lezgauri_c.specs.Told.{no_fault, status_number};
ghost use Rattle.lezgauri_c.specs.Memory.{memory_of};
ghost use Rattle.lezgauri_c.specs.Values.{table_in, OnSound, KeepsTypes};

use crate::buffer::Buffer;
use crate::changing::{close_image, open_image};
use crate::fault::Fault;
use crate::kept_types::KeptTypes;
use crate::lent::Lent;
use crate::report::Report;
use crate::run_in_place::verify_and_run;
use crate::running::status_of;
use std::alloc::Global;

/// Runs a client on an image that an earlier call found sound, or changed, with the types that C keeps and without checking the whole
/// image again. Returns `OK`, `OUTPUT_FULL` if the output has no room, or the number of the first fault; then nothing ran. The image is
/// changed in place, and the client's output is added after the bytes of `output` that are in use. The types that C keeps are then the
/// image's, also if the client added some. Returns `BAD_ARGUMENT` if C keeps no types.
///
/// On any other bytes the run also ends within the client's bound, and reads and writes nothing else.
#[tactic(auto, using(crate::proofs::Numbers::numbers))]
#[unsafe(no_mangle)]
pub extern "C" fn lezgauri_raw_run_on(
    alloc: Global,
    image: &mut Lent,
    types: &mut KeptTypes,
    client: &[u8],
    input: &[u8],
    output: &mut Lent,
    report: &mut Report,
    fault: &mut Fault,
) -> u32
    ensures outcome { (ended : Ended) → result ≡ status_number ended →
        HasRunOn image.old.bytes types.old client.now input.now ended output.old.bytes
        output.new.bytes image.new.bytes report.new }
    ensures refused { (0 < result) × (result ≤ 100) → OnSound image.old.bytes types.old
        (λ _. IsReportedAs image.old.bytes (client.now ∷ []) fault.new) }
    ensures number { (0 < result) × (result ≤ 100) → fault.new.number ≡ result }
    ensures no_fault { (ended : Ended) → result ≡ status_number ended → fault.new ≡ no_fault }
    ensures kept { (0 < result) × (result ≤ 100) →
        (image.new.bytes ≡ image.old.bytes) × (table_in types.new ≡ table_in types.old) }
    ensures unwritten { (0 < result) × (result ≤ 100) →
        (output.new.bytes ≡ output.old.bytes) × (report.new ≡ report.old) }
    ensures types { (ended : Ended) → result ≡ status_number ended →
        OnSound image.old.bytes types.old (λ _. KeepsTypes image.new.bytes types.new) }
    ensures argument { (result ≡ 100) ↔ (table_in types.old ≡ None) }
    ensures status { result ≤ 101 }
    ensures home { memory_of image.new ≡ memory_of image.old }
{
    let mut opened = match open_image(alloc, image, types) {
        Ok(opened) => opened,
        Err(status) => {
            *fault = Fault::unopened(status);
            return status;
        }
    };
    let mut sink = Buffer::new(output.take());
    let ran = verify_and_run(alloc, &mut opened.image, client, input, &mut sink);
    close_image(alloc, image, types, opened);
    output.give_back(sink.into_bytes());
    match ran {
        Ok(told) => {
            *fault = Fault::NONE;
            *report = Report::from(told);
            status_of(told.ended)
        }
        Err(refused) => {
            *fault = Fault::from(refused);
            fault.number
        }
    }
}
