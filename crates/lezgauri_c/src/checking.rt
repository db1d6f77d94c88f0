ghost use Rattle.std.specs.Prelude.{◌≡◌, ◌<◌, [], ◌∷◌, IfOk, IfErr};
ghost use Rattle.client_vm.specs.Admitted.{IsWrong};
ghost use Rattle.lezgauri_c.specs.Calls.{Accepts, IsFaultAs, AcceptsClient, IsWrongAs};
ghost use Rattle.lezgauri_c.specs.Told.{no_fault};

use crate::accepting::accepted;
use crate::fault::Fault;
use crate::status::OK;
use client_vm::Refused;
use lezgauri::check;
use std::alloc::Global;

/// Checks an image. Returns `OK` if it is sound, or else the number of its first fault.
#[tactic(auto, using(crate::proofs::Numbers::number_above))]
#[unsafe(no_mangle)]
pub extern "C" fn lezgauri_raw_check(alloc: Global, image: &[u8], fault: &mut Fault) -> u32
    ensures sound { result ≡ 0 → Accepts image.now }
    ensures refused { 0 < result → IsFaultAs image.now fault.new }
    ensures number { fault.new.number ≡ result }
    ensures no_fault { result ≡ 0 → fault.new ≡ no_fault }
{
    match check(alloc, image) {
        Ok(_) => {
            *fault = Fault::NONE;
            OK
        }
        Err(reason) => {
            *fault = Fault::from(Refused::from(reason));
            fault.number
        }
    }
}

/// Verifies a client on an image. Returns `OK` and the bound of the client's steps, or the number of the first fault, the image's
/// or the client's, and a bound of 0.
#[tactic(auto, using(crate::proofs::Numbers::number_above))]
#[unsafe(no_mangle)]
pub extern "C" fn lezgauri_raw_verify(
    alloc: Global,
    image: &[u8],
    client: &[u8],
    bound: &mut u64,
    fault: &mut Fault,
) -> u32
    ensures accepted { result ≡ 0 → AcceptsClient image.now client.now bound.new }
    ensures refused { 0 < result → IsWrongAs image.now (client.now ∷ []) fault.new }
    ensures number { fault.new.number ≡ result }
    ensures no_fault { result ≡ 0 → fault.new ≡ no_fault }
    ensures no_bound { 0 < result → bound.new ≡ bound.old }
{
    match bound_of(alloc, image, client) {
        Ok(steps) => {
            *bound = steps;
            *fault = Fault::NONE;
            OK
        }
        Err(refused) => {
            *fault = Fault::from(refused);
            fault.number
        }
    }
}

/// The bound of a client's steps on an image.
fn bound_of(alloc: Global, image: &[u8], client: &[u8]) -> Result<u64, Refused>
    ensures accepted { IfOk result (AcceptsClient image.now client.now) }
    ensures wrong { IfErr result (IsWrong image.now (client.now ∷ [])) }
{
    let types = check(alloc, image)?;
    Ok(accepted(client, &types)?.bound())
}
