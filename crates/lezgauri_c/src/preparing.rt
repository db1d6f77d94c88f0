ghost use Rattle.std.specs.Prelude.{◌≡◌, ◌⊎◌, ◌<◌, ◌≤◌, ◌↔◌, ℕ, List, None, [], ◌∷◌, IfOk, IfErr};
ghost use Rattle.client_spec.specs.Syntax as syntax;
ghost use Rattle.client_spec.specs.Grammar.{SpellsClient};
ghost use Rattle.client_spec.specs.Clients.{IsVerified};
ghost use Rattle.lezgauri.specs.Texts.{AreWrong};
ghost use Rattle.lezgauri.specs.Ended.{Ended};
ghost use Rattle.lezgauri_c.specs.Calls.{HasRunOn, IsWrongAs, IsReportedAs};
ghost use Rattle.lezgauri_c.specs.Prepared.{in_hand, client_bytes_of, HoldsClient, OfClient};
ghost use Rattle.lezgauri_c.specs.Told.{no_fault, status_number};
ghost use Rattle.lezgauri_c.specs.Memory.{memory_of};
ghost use Rattle.lezgauri_c.specs.Values.{table_in, OnSound, KeepsTypes};

use crate::accepting::ready;
use crate::buffer::Buffer;
use crate::changing::{close_image, open_image};
use crate::fault::Fault;
use crate::kept_types::KeptTypes;
use crate::lent::Lent;
use crate::prepared::Prepared;
use crate::report::Report;
use crate::run_in_place::run_again;
use crate::running::status_of;
use crate::status::{BAD_ARGUMENT, OK};
use client_vm::{Ready, Refused};
use lezgauri::TypeTable;
use std::alloc::Global;

/// Verifies a client against the types of a segment, which C keeps, and prepares it to run any number of times. Returns `OK` with the
/// client in `prepared`, or the number of the first fault with no client in `prepared`. Returns `BAD_ARGUMENT` if C keeps no types.
///
/// The client's bytes must not change until it is closed, because the prepared client refers to them.
#[tactic(auto, using(crate::proofs::Numbers::number_above, crate::proofs::Numbers::number_below))]
#[unsafe(no_mangle)]
pub extern "C" fn lezgauri_raw_prepare(
    alloc: Global,
    types: &mut KeptTypes,
    client: &'static [u8],
    prepared: &mut Prepared,
    fault: &mut Fault,
) -> u32
    ensures ready { result ≡ 0 → HoldsClient types.old client.now prepared.new }
    ensures refused { 0 < result → (image : List ℕ) → OnSound image types.old
        (λ _. IsWrongAs image (client.now ∷ []) fault.new) }
    ensures none { 0 < result → in_hand prepared.new ≡ None }
    ensures number { fault.new.number ≡ result }
    ensures no_fault { result ≡ 0 → fault.new ≡ no_fault }
    ensures argument { (result ≡ 100) ↔ (table_in types.old ≡ None) }
    ensures same { table_in types.new ≡ table_in types.old }
{
    let Some(kept) = types.take(alloc) else {
        prepared.close(alloc);
        *fault = Fault::ARGUMENT;
        return BAD_ARGUMENT;
    };
    let made = boxed_ready(alloc, kept.types(), client);
    types.keep(alloc, kept);
    match made {
        Ok(client) => {
            prepared.keep(alloc, client);
            *fault = Fault::NONE;
            OK
        }
        Err(refused) => {
            prepared.close(alloc);
            *fault = Fault::from(refused);
            fault.number
        }
    }
}

/// Runs the prepared client on an image that an earlier call found sound, or changed, in place. It is like `lezgauri_raw_run_on`,
/// but verifies and decodes nothing, and allocates no memory. Returns `OK`, `OUTPUT_FULL`, or the number of the fault:
/// `TYPE_MISMATCH` if the client's types and the image's differ, and then nothing ran. Returns `BAD_ARGUMENT` if there is no
/// prepared client, or C keeps no types.
#[tactic(auto, using(crate::proofs::Numbers::numbers))]
#[unsafe(no_mangle)]
pub extern "C" fn lezgauri_raw_run_client(
    alloc: Global,
    image: &mut Lent,
    types: &mut KeptTypes,
    prepared: &mut Prepared,
    input: &[u8],
    output: &mut Lent,
    report: &mut Report,
    fault: &mut Fault,
) -> u32
    ensures outcome { (ended : Ended) → result ≡ status_number ended → OfClient prepared.old
        (λ text. HasRunOn image.old.bytes types.old text input.now ended output.old.bytes
        output.new.bytes image.new.bytes report.new) }
    ensures refused { (0 < result) × (result ≤ 99) → OnSound image.old.bytes types.old (λ _.
        OfClient prepared.old (λ text. IsReportedAs image.old.bytes (text ∷ []) fault.new)) }
    ensures mismatch { (0 < result) × (result ≤ 99) →
        OnSound image.old.bytes types.old (λ _. result ≡ 4) }
    ensures number { (0 < result) × (result ≤ 100) → fault.new.number ≡ result }
    ensures no_fault { (ended : Ended) → result ≡ status_number ended → fault.new ≡ no_fault }
    ensures kept { (0 < result) × (result ≤ 100) →
        (image.new.bytes ≡ image.old.bytes) × (table_in types.new ≡ table_in types.old) }
    ensures unwritten { (0 < result) × (result ≤ 100) →
        (output.new.bytes ≡ output.old.bytes) × (report.new ≡ report.old) }
    ensures types { (ended : Ended) → result ≡ status_number ended →
        OnSound image.old.bytes types.old (λ _. OfClient prepared.old
        (λ _. KeepsTypes image.new.bytes types.new)) }
    ensures argument { (result ≡ 100) ↔
        ((in_hand prepared.old ≡ None) ⊎ (table_in types.old ≡ None)) }
    ensures same { in_hand prepared.new ≡ in_hand prepared.old }
    ensures status { result ≤ 101 }
    ensures home { memory_of image.new ≡ memory_of image.old }
{
    if !prepared.is_there() {
        *fault = Fault::ARGUMENT;
        return BAD_ARGUMENT;
    }
    let mut opened = match open_image(alloc, image, types) {
        Ok(opened) => opened,
        Err(status) => {
            *fault = Fault::unopened(status);
            return status;
        }
    };
    let client = prepared.take(alloc);
    let mut sink = Buffer::new(output.take());
    let ran = run_again(&mut opened.image, &client, input, &mut sink);
    close_image(alloc, image, types, opened);
    prepared.keep(alloc, client);
    output.give_back(sink.into_bytes());
    match ran {
        Ok(told) => {
            *fault = Fault::NONE;
            *report = Report::from(told);
            status_of(told.ended)
        }
        Err(refused) => {
            *fault = Fault::from(refused);
            fault.number
        }
    }
}

/// Frees the prepared client, if there is one.
#[unsafe(no_mangle)]
pub extern "C" fn lezgauri_raw_client_close(alloc: Global, prepared: &mut Prepared)
    ensures { in_hand prepared.new ≡ None }
{
    prepared.close(alloc);
}

/// A client verified against types, and made ready in memory of its own.
fn boxed_ready(
    alloc: Global,
    types: &TypeTable,
    client: &'static [u8],
) -> Result<Box<Ready<'static, Global>>, Refused>
    ensures text { IfOk result (λ made. client_bytes_of made.value ≡ client.now) }
    ensures accepted { IfOk result (λ made. (tree : syntax.Client) ×
        SpellsClient client.now tree × IsVerified types.now tree) }
    ensures wrong { IfErr result (AreWrong types.now (client.now ∷ [])) }
{
    let client = ready(alloc, client, types)?;
    Ok(Box::new(alloc, client)?)
}
