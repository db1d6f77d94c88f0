ghost use Rattle.std.specs.Prelude.{◌≡◌, ◌≤◌};
ghost use Rattle.client_spec.specs.Run as run;
ghost use Rattle.client_spec.specs.Safe.{IsAccepted, NeverGoesWrong};
ghost use Rattle.client_code.specs.Clients.{OfTree};
ghost use Rattle.client_verify.specs.declared.verified.TheConstants.{MOST_STEPS};

use client_code::{Client, TypedClient};
use seg_layout::TypeTable;

mod accepting;

pub use accepting::{verify, verify_typed};

/// The most steps of a client.
pub const MOST_STEPS: u64 = 1_000_000_000;

/// A client that the verifier accepted.
#[derive(Drop)]
pub struct Verified<'a> {
    typed: TypedClient<'a>,
    bound: u64,
    ghost within: { bound ≤ MOST_STEPS },
    ghost accepted: { OfTree typed.client (λ tree. ∥ IsAccepted tree ∥₁) },
    ghost bounded: { OfTree typed.client (λ tree. bound ≡ run.bound tree.code) },
}

impl<'a> Verified<'a> {
    ghost use Rattle.client_verify.specs.Accepted.{client_of};

    /// The client. On the machine of names and values it never meets an instruction without a row, and takes at most its bound of
    /// steps.
    pub fn client(&self) -> Client<'a>
        ensures client { result ≡ client_of self.now }
        ensures safe { OfTree result NeverGoesWrong }
    {
        self.typed.client
    }

    /// The client's types.
    pub fn types(&self) -> &TypeTable
        ensures { OfTree (client_of self.now) (λ tree. result.now ≡ tree.types) }
    {
        &self.typed.types
    }

    /// The most steps that a run of the client takes.
    pub fn bound(&self) -> u64
        ensures few { result ≤ MOST_STEPS }
        ensures bound { OfTree (client_of self.now) (λ tree. result ≡ run.bound tree.code) }
    {
        self.bound
    }
}
