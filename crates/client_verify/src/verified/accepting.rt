ghost use Rattle.std.specs.Prelude.{◌≡◌, ℕ, IfOk, IfErr};
ghost use Rattle.client_spec.specs.Run as run;
ghost use Rattle.client_spec.specs.Safe.{IsAccepted};
ghost use Rattle.client_spec.specs.Typed.{Reason, reason_number};
ghost use Rattle.client_spec.specs.Clients.{IsVerified};
ghost use Rattle.client_code.specs.Clients.{OfTree};
ghost use Rattle.client_verify.specs.Accepted.{client_of};
ghost use Rattle.client_verify.specs.Passing.{at_most};
ghost use Rattle.client_verify.specs.Refusals.{IsRefused, IsRejected, IsRejectedAt};

use super::{MOST_STEPS, Verified};
use crate::verifier::Verifier;
use client_code::{Client, TypedClient};
use seg_layout::TypeTable;
use seg_raw::Fault;

/// Verifies a client: its types must agree with the table, each instruction must find in the registers what it needs, and the
/// bound must be within the limit. Fails with the first of `TypeMismatch`, `Rejected` and `TooLong`.
pub fn verify<'a>(client: Client<'a>, table: &TypeTable) -> Result<Verified<'a>, Fault>
    ensures client { IfOk result (λ verified. client_of verified ≡ client.entry) }
    ensures accepted { IfOk result (λ verified. OfTree client.entry (IsVerified table.now)) }
    ensures refused { IfErr result (λ fault. OfTree client.entry
        (λ tree. IsRefused table.now tree fault)) }
{
    verify_typed(TypedClient::of(client), table)
}

/// Like `verify`, for a client whose types are already read.
pub fn verify_typed<'a>(typed: TypedClient<'a>, table: &TypeTable) -> Result<Verified<'a>, Fault>
    ensures client { IfOk result (λ verified. client_of verified ≡ typed.entry.client) }
    ensures accepted { IfOk result (λ verified. OfTree typed.entry.client (IsVerified table.now)) }
    ensures refused { IfErr result (λ fault. OfTree typed.entry.client
        (λ tree. IsRefused table.now tree fault)) }
{
    table.agrees(&typed.types)?;
    let bound = bound_of(typed.client, &typed.types)?;
    if bound > MOST_STEPS {
        return Err(Fault::TooLong);
    }
    Ok(Verified { typed, bound })
}

/// The most steps of a client's code, or the first instruction that is rejected.
#[inline(never)]
fn bound_of(client: Client, types: &TypeTable) -> Result<u64, Fault>
    ensures accepted { IfOk result (λ bound. OfTree client.entry (λ tree. types.now ≡ tree.types →
        IsAccepted tree × (bound ≡ at_most (run.bound tree.code)))) }
    ensures rejected { IfErr result (λ fault. OfTree client.entry (λ tree. types.now ≡ tree.types →
        (i : ℕ) × (reason : Reason) × (fault ≡ Fault.Rejected i (reason_number reason)) ×
        IsRejected tree reason × IsRejectedAt tree i reason)) }
{
    let mut verifier = Verifier::new(types);
    for i in 0..client.instruction_count() {
        if let Some(instruction) = client.instruction(i) {
            if let Err(reason) = verifier.pass(instruction) {
                return Err(Fault::Rejected {
                    instruction: i,
                    reason: reason.number(),
                });
            }
        }
    }
    Ok(verifier.steps())
}
