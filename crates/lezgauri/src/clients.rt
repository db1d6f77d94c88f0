//! Runs of clients on an open image, one after the other.

ghost use Rattle.std.specs.Prelude.{◌≡◌, ◌↔◌, ◌≤◌, ℕ, List, [], true, false, IsOk, IfOk, IfErr, OnErr};
ghost use Rattle.seg_spec.specs.Index.{Root};
ghost use Rattle.seg_spec.specs.Types.{Agree, IsFirstDifference};
ghost use Rattle.client_spec.specs.Syntax as syntax;
ghost use Rattle.client_spec.specs.Grammar.{SpellsClient};
ghost use Rattle.client_spec.specs.Clients.{IsVerified};
ghost use Rattle.client_spec.specs.Run as definitions;
ghost use Rattle.client_code.specs.Clients.{OfTree, bytes_of};
ghost use Rattle.client_verify.specs.Accepted.{client_of};
ghost use Rattle.client_vm.specs.ReadyClients.{client_in};
ghost use Rattle.client_vm.specs.Runs.{MayRun, HasRun};
ghost use Rattle.client_sim.specs.Staying.{code_passes, keeps_name, keeps_unique, NameStays, UniqueStays};
ghost use Rattle.client_verify.specs.Texts.{IsWrongText};
ghost use Rattle.seg_image.specs.Images.{segment_of, allocator_of};

use client_code::parse_typed;
use client_verify::{Verified, verify_typed};
use client_vm::{Ended, Ready, Report, Sink, run as run_on_segment};
use seg_image::{Fault, Image};
use std::alloc::Allocator;

/// Reads a client file, and verifies the client against an image's types. Fails with `BadCode` and the position of the first
/// field that is wrong or cut off, or with a fault of the verifier: `TypeMismatch`, `Rejected` or `TooLong`.
pub fn verify<'c, A: Allocator>(image: &Image<A>, client: &'c [u8]) -> Result<Verified<'c>, Fault>
    ensures text { IfOk result (λ verified. bytes_of (client_of verified) ≡ client.now) }
    ensures accepted { IfOk result (λ _. (tree : syntax.Client) ×
        SpellsClient client.now tree × IsVerified (segment_of image.now).types tree) }
    ensures wrong { IfErr result (IsWrongText (segment_of image.now).types client.now) }
{
    verify_typed(parse_typed(client)?, image.types())
}

/// Adds a client's types to an image, and runs the client on it, to the end of its code or to an output that fails. A run takes
/// at most [`Verified::bound`] steps, and no host memory. Clients can run one after the other, each any number of times. A client
/// leaves a named object where it is if it has no `KILL` of its name or family, and the unique object of a type if it has no
/// `UKILL` of the type, so that the host can keep the places that it found. Fails with `TypeMismatch` if the client was verified
/// against other types; then nothing changes.
pub fn run<A: Allocator, B: Allocator, W: Sink>(
    image: &mut Image<A>,
    client: &Ready<B>,
    input: &[u8],
    out: &mut W,
) -> Result<Report, Fault>
    requires works { W.has_failed out.old ≡ false }
    ensures agrees { OfTree (client_in client.now)
        (λ tree. IsOk result ↔ Agree (segment_of image.old).types tree.types) }
    ensures ended { IfOk result
        (λ report. (report.ended ≡ Ended.OutputFailed) ↔ (W.has_failed out.new ≡ true)) }
    ensures steps { IfOk result (λ report. OfTree (client_in client.now)
        (λ tree. report.steps ≤ definitions.bound tree.code)) }
    ensures runs { IfOk result (λ report. OfTree (client_in client.now)
        (λ tree. (others : List Root) → MayRun (allocator_of image.old) others
        (segment_of image.old).window (segment_of image.old).types tree [] →
        HasRun (allocator_of image.old) tree others [] input.now
        (segment_of image.old).window (segment_of image.old).types (W.taken out.old)
        (segment_of image.new).window (segment_of image.new).types (W.taken out.new)
        report)) }
    ensures names_stay { IfOk result (λ _. OfTree (client_in client.now)
        (λ tree. (others : List Root) → MayRun (allocator_of image.old) others
        (segment_of image.old).window (segment_of image.old).types tree [] →
        (name : List ℕ) → code_passes (keeps_name tree.constants name) tree.code ≡ true →
        NameStays (segment_of image.old).window.bytes (segment_of image.new).window.bytes
        name)) }
    ensures uniques_stay { IfOk result (λ _. OfTree (client_in client.now)
        (λ tree. (others : List Root) → MayRun (allocator_of image.old) others
        (segment_of image.old).window (segment_of image.old).types tree [] →
        (T : ℕ) → code_passes (keeps_unique T) tree.code ≡ true →
        UniqueStays (segment_of image.old).window.bytes (segment_of image.new).window.bytes
        T)) }
    ensures allocator { allocator_of image.new ≡ allocator_of image.old }
    ensures home { (segment_of image.new).window.home ≡ (segment_of image.old).window.home }
    ensures differs { IfErr result (λ fault. OfTree (client_in client.now)
        (λ tree. (k : ℕ) × (fault ≡ Fault.TypeMismatch k)
        × IsFirstDifference (segment_of image.old).types tree.types k)) }
    ensures unchanged { OnErr result ((image.new ≡ image.old) × (out.new ≡ out.old)) }
{
    image.types().agrees(client.verified().types())?;
    Ok(match image {
        Image::Seq(segment) => run_on_segment(segment, client, input, &[], out),
        Image::Best(segment) => run_on_segment(segment, client, input, &[], out),
    })
}
