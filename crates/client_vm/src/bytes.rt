ghost use Rattle.std.specs.Prelude.{ℕ, List, ◌≡◌, ◌⊎◌, ◌↔◌, ◌≤◌, ◌<◌, ◌+◌, ◌*◌, ◌^◌, true, false, IfOk, IfErr, OnErr, OnOk, [], length, drop, map, vec_len, vec_capacity};
ghost use Rattle.std.specs.Result.{IsOkUnless};
ghost use Rattle.seg_spec.specs.Bytes.{word};
ghost use Rattle.seg_spec.specs.Header.{allocator_word};
ghost use Rattle.seg_spec.specs.Faulty.{IsImageLength};
ghost use Rattle.seg_spec.specs.Window.{region_of};
ghost use Rattle.seg_check.specs.Faults.{IsImageOf};
ghost use Rattle.client_spec.specs.Syntax as syntax;
ghost use Rattle.client_spec.specs.Clients.{AreAccepted};
ghost use Rattle.client_spec.specs.Outcome.{CanMove};
ghost use Rattle.client_vm.specs.Admitted.{IsWrong};
ghost use Rattle.client_vm.specs.Moves.{moves_of};
ghost use Rattle.client_vm.specs.Jobs.{job_at, job_of, effect_of};
ghost use Rattle.client_vm.specs.Outcomes.{IsFaultOfCall, IsRefusedFor, HasOutcome};
ghost use Rattle.client_vm.specs.Runs.{ending_of, IsReadyToRun};
ghost use Rattle.client_vm.specs.Together.{ending_if, AdmittedRan, HaveRun, HaveRunOn};
ghost use Rattle.client_verify.specs.Texts.{AreWrong, texts_of};
ghost use Rattle.client_vm.specs.ReadyClients.{texts_in};
ghost use Rattle.client_vm.specs.Reports.{AreReportsOf, HasReportsOf};

use crate::interpreter::run;
use crate::moves::{Move, first_bad_move, is_place};
use crate::outcome::{Outcome, Schedule, Unrun};
use crate::ready::{Ready, prepare};
use crate::report::{Ended, Report};
use crate::sink::Sink;
use client_verify::{Refused, Verified, verify_all};
use seg_bestfit::BestFit;
use seg_check::check;
use seg_layout::TypeTable;
use seg_manager::{Fit, Segment, Window, header, is_size};
use seg_raw::{Fault, Region};
use seg_seqfit::SeqFit;
use std::alloc::{AllocError, Allocator};

/// The most bytes of a region (2 GiB).
const MAX_ROOM: u32 = 1 << 31;

/// Checks an image, verifies the clients, runs them on a copy of it in order, and returns the saved image and their reports.
///
/// Fails for the image's length, its base, a move, the image's first fault, or a client's fault, tested in this order; then
/// nothing was written. All memory is allocated before the first step. Each client makes the moves again, and reads the input
/// that the clients before it left. After a failed output no further client runs.
pub fn run_bytes<A: Allocator + Copy, W: Sink>(
    alloc: A,
    image: &[u8],
    clients: &[&[u8]],
    input: &[u8],
    schedule: &Schedule,
    out: &mut W,
) -> Result<Outcome<A>, Refused>
    requires works { W.has_failed out.old ≡ false }
    ensures refused { IfErr result (IsRefusedFor
        (job_of image.now (map (λ c. c.now) clients.now) input.now schedule.now)) }
    ensures outcome { IfOk result (λ o. HasOutcome
        (job_of image.now (map (λ c. c.now) clients.now) input.now schedule.now)
        (effect_of (W.taken out.old) (W.taken out.new) o)) }
    ensures nothing_written { OnErr result (out.new ≡ out.old) }
    ensures ended { IfOk result
        (λ o. (o.ended ≡ Ended.OutputFailed) ↔ (W.has_failed out.new ≡ true)) }
    ensures reports { IfOk result (λ o. HasReportsOf (map (λ c. c.now) clients.now)
        o.reports.items o.ended) }
{
    let len = fitting(image, schedule)?;
    run_copy(
        alloc,
        image,
        len,
        clients,
        input,
        &least_room(schedule, len),
        out,
    )
}

/// Like [`run_bytes`], on bytes that the caller gives away. A failure returns them unchanged. They are copied only if there are
/// moves and the region is larger than the segment.
pub fn run_image<A: Allocator + Copy, W: Sink>(
    alloc: A,
    image: Vec<u8, A>,
    clients: &[&[u8]],
    input: &[u8],
    schedule: &Schedule,
    out: &mut W,
) -> Result<Outcome<A>, Unrun<A>>
    requires works { W.has_failed out.old ≡ false }
    ensures refused { IfErr result (λ unrun. IsRefusedFor
        (job_of image.items (map (λ c. c.now) clients.now) input.now schedule.now)
        unrun.refused) }
    ensures given_back { IfErr result (λ unrun. unrun.bytes.items ≡ image.items) }
    ensures outcome { IfOk result (λ o. HasOutcome
        (job_of image.items (map (λ c. c.now) clients.now) input.now schedule.now)
        (effect_of (W.taken out.old) (W.taken out.new) o)) }
    ensures nothing_written { OnErr result (out.new ≡ out.old) }
    ensures ended { IfOk result
        (λ o. (o.ended ≡ Ended.OutputFailed) ↔ (W.has_failed out.new ≡ true)) }
    ensures reports { IfOk result (λ o. HasReportsOf (map (λ c. c.now) clients.now)
        o.reports.items o.ended) }
{
    let len = match fitting(image.as_slice(), schedule) {
        Ok(len) => len,
        Err(fault) => {
            return Err(Unrun {
                refused: Refused::from(fault),
                bytes: image,
            });
        }
    };
    let least = least_room(schedule, len);
    if len == least.room {
        return run_own(alloc, image, len, clients, input, least.moves, out);
    }
    match run_copy(alloc, image.as_slice(), len, clients, input, &least, out) {
        Ok(outcome) => Ok(outcome),
        Err(refused) => Err(Unrun {
            refused,
            bytes: image,
        }),
    }
}

/// The schedule in the smallest region. Without moves a run doesn't depend on the image's place, so the region can be the image.
fn least_room<'a>(schedule: &Schedule<'a>, len: u32) -> Schedule<'a>
    ensures moves { result.moves.now ≡ schedule.now.moves.now }
    ensures place { ((result.room ≡ schedule.now.room) × (result.base ≡ schedule.now.base)) ⊎
        ((moves_of schedule.now.moves.now ≡ []) × (result.room ≡ len) × (result.base ≡ 0)) }
{
    if schedule.moves.is_empty() {
        Schedule {
            room: len,
            base: 0,
            moves: schedule.moves,
        }
    } else {
        *schedule
    }
}

/// Runs clients on a copy of the image of `len` bytes.
fn run_copy<A: Allocator + Copy, W: Sink>(
    alloc: A,
    image: &[u8],
    len: u32,
    clients: &[&[u8]],
    input: &[u8],
    schedule: &Schedule,
    out: &mut W,
) -> Result<Outcome<A>, Refused>
    requires works { W.has_failed out.old ≡ false }
    requires len { len ≡ length image.now }
    requires can_move { CanMove image.now schedule.now.room schedule.now.base
        (moves_of schedule.now.moves.now) }
    ensures refused { IfErr result (IsWrong image.now (map (λ c. c.now) clients.now)) }
    ensures outcome { IfOk result (λ o. HasOutcome
        (job_of image.now (map (λ c. c.now) clients.now) input.now schedule.now)
        (effect_of (W.taken out.old) (W.taken out.new) o)) }
    ensures nothing_written { OnErr result (out.new ≡ out.old) }
    ensures ended { IfOk result
        (λ o. (o.ended ≡ Ended.OutputFailed) ↔ (W.has_failed out.new ≡ true)) }
    ensures reports { IfOk result (λ o. HasReportsOf (map (λ c. c.now) clients.now)
        o.reports.items o.ended) }
{
    let window = copied(alloc, image, len, schedule)?;
    match run_in(alloc, window, clients, input, schedule.moves, out) {
        Ok(outcome) => Ok(outcome),
        Err((refused, _)) => Err(refused),
    }
}

/// Runs clients on the image of `len` bytes in the caller's memory, which is the whole region.
fn run_own<A: Allocator + Copy, W: Sink>(
    alloc: A,
    image: Vec<u8, A>,
    len: u32,
    clients: &[&[u8]],
    input: &[u8],
    moves: &[Move],
    out: &mut W,
) -> Result<Outcome<A>, Unrun<A>>
    requires works { W.has_failed out.old ≡ false }
    requires len { len ≡ length image.items }
    requires can_move { CanMove image.items len 0 (moves_of moves.now) }
    ensures refused { IfErr result (λ unrun.
        IsWrong image.items (map (λ c. c.now) clients.now) unrun.refused) }
    ensures given_back { IfErr result (λ unrun. unrun.bytes.items ≡ image.items) }
    ensures outcome { IfOk result (λ o. HasOutcome
        (job_at image.items (map (λ c. c.now) clients.now) input.now len 0 (moves_of moves.now))
        (effect_of (W.taken out.old) (W.taken out.new) o)) }
    ensures nothing_written { OnErr result (out.new ≡ out.old) }
    ensures ended { IfOk result
        (λ o. (o.ended ≡ Ended.OutputFailed) ↔ (W.has_failed out.new ≡ true)) }
    ensures reports { IfOk result (λ o. HasReportsOf (map (λ c. c.now) clients.now)
        o.reports.items o.ended) }
{
    let window = Window::place(Region::from_vec(image), 0, len).unwrap();
    match run_in(alloc, window, clients, input, moves, out) {
        Ok(outcome) => Ok(outcome),
        Err((refused, window)) => Err(Unrun {
            refused,
            bytes: window.into_bytes(),
        }),
    }
}

/// Runs clients on the image in a window. A failure returns the image unchanged.
fn run_in<A: Allocator + Copy, W: Sink>(
    alloc: A,
    window: Window<A>,
    clients: &[&[u8]],
    input: &[u8],
    moves: &[Move],
    out: &mut W,
) -> Result<Outcome<A>, (Refused, Window<A>)>
    requires works { W.has_failed out.old ≡ false }
    ensures refused { IfErr result (λ it.
        IsWrong window.bytes (map (λ c. c.now) clients.now) it.0) }
    ensures given_back { IfErr result (λ it. it.1 ≡ window) }
    ensures runs { IfOk result (λ o. HaveRunOn (map (λ c. c.now) clients.now)
        (moves_of moves.now) input.now window (effect_of (W.taken out.old) (W.taken out.new) o)) }
    ensures nothing_written { OnErr result (out.new ≡ out.old) }
    ensures ended { IfOk result
        (λ o. (o.ended ≡ Ended.OutputFailed) ↔ (W.has_failed out.new ≡ true)) }
    ensures reports { IfOk result (λ o. HasReportsOf (map (λ c. c.now) clients.now)
        o.reports.items o.ended) }
{
    match admit(alloc, &window, clients) {
        Ok(admitted) => Ok(run_admitted(window, admitted, input, moves, out)),
        Err(refused) => Err((refused, window)),
    }
}

/// Everything that is prepared before a client runs: the types of a sound image, the clients, and memory for the report of each.
#[derive(Drop)]
struct Admitted<'a, A: Allocator> {
    types: TypeTable,
    programs: Vec<Ready<'a, A>, A>,
    reports: Vec<Report, A>,
}

/// Checks the image in a window, and verifies and prepares the clients.
fn admit<'a, A: Allocator + Copy>(
    alloc: A,
    window: &Window<A>,
    clients: &[&'a [u8]],
) -> Result<Admitted<'a, A>, Refused>
    ensures texts { IfOk result
        (λ it. texts_in it.programs.items ≡ map (λ c. c.now) clients.now) }
    ensures empty { IfOk result (λ it. it.reports.items ≡ []) }
    ensures room { IfOk result (λ it. length it.programs.items ≤ vec_capacity it.reports) }
    ensures image { IfOk result (λ it. IsImageOf window.now.bytes it.types) }
    ensures accepted { IfOk result (λ it. (trees : List syntax.Client) ×
        AreAccepted it.types (map (λ c. c.now) clients.now) trees) }
    ensures refused { IfErr result (IsWrong window.now.bytes (map (λ c. c.now) clients.now)) }
{
    let types = check(alloc, window.view())?;
    let (programs, reports) = prepared(alloc, clients, &types)?;
    Ok(Admitted {
        types,
        programs,
        reports,
    })
}

/// Runs the admitted clients, with the image's allocator.
fn run_admitted<A: Allocator, W: Sink>(
    window: Window<A>,
    admitted: Admitted<A>,
    input: &[u8],
    moves: &[Move],
    out: &mut W,
) -> Outcome<A>
    requires works { W.has_failed out.old ≡ false }
    requires empty { admitted.reports.items ≡ [] }
    requires room { length admitted.programs.items ≤ vec_capacity admitted.reports }
    ensures runs { IsImageOf window.bytes admitted.entry.types →
        AdmittedRan admitted.entry (moves_of moves.now) input.now window
        (effect_of (W.taken out.old) (W.taken out.new) result) }
    ensures ended { (result.ended ≡ Ended.OutputFailed) ↔ (W.has_failed out.new ≡ true) }
    ensures reports { HasReportsOf (texts_in admitted.entry.programs.items) result.reports.items
        result.ended }
{
    if window.get32(header::ALLOCATOR) == BestFit::word() {
        run_on::<BestFit, A, W>(window, admitted, input, moves, out)
    } else {
        run_on::<SeqFit, A, W>(window, admitted, input, moves, out)
    }
}

/// Opens the image in a window, and runs the admitted clients.
fn run_on<F: Fit, A: Allocator, W: Sink>(
    mut window: Window<A>,
    admitted: Admitted<A>,
    input: &[u8],
    moves: &[Move],
    out: &mut W,
) -> Outcome<A>
    requires works { W.has_failed out.old ≡ false }
    requires empty { admitted.reports.items ≡ [] }
    requires room { length admitted.programs.items ≤ vec_capacity admitted.reports }
    ensures runs { IsImageOf window.bytes admitted.entry.types →
        word window.bytes allocator_word ≡ F.allocator →
        AdmittedRan admitted.entry (moves_of moves.now) input.now window
        (effect_of (W.taken out.old) (W.taken out.new) result) }
    ensures ended { (result.ended ≡ Ended.OutputFailed) ↔ (W.has_failed out.new ≡ true) }
    ensures reports { HasReportsOf (texts_in admitted.entry.programs.items) result.reports.items
        result.ended }
{
    header::upgrade(&mut window);
    let Admitted {
        types,
        programs,
        reports,
    } = admitted;
    let segment = Segment::<F, A>::new(window, types);
    run_verified(segment, programs, input, moves, reports, out)
}

/// The clients, verified and prepared, and memory for the report of each.
fn prepared<'a, A: Allocator + Copy>(
    alloc: A,
    clients: &[&'a [u8]],
    types: &TypeTable,
) -> Result<(Vec<Ready<'a, A>, A>, Vec<Report, A>), Refused>
    ensures texts { IfOk result
        (λ it. texts_in it.0.items ≡ map (λ c. c.now) clients.now) }
    ensures empty { IfOk result (λ it. it.1.items ≡ []) }
    ensures room { IfOk result (λ it. length it.0.items ≤ vec_capacity it.1) }
    ensures accepted { OnOk result ((trees : List syntax.Client) ×
        AreAccepted types.now (map (λ c. c.now) clients.now) trees) }
    ensures refused { IfErr result (λ refused.
        AreWrong types.now (map (λ c. c.now) clients.now) refused) }
{
    let verified = verify_all(alloc, clients, types)?;
    let programs = all_ready(alloc, verified)?;
    let reports = Vec::with_capacity(alloc, clients.len())?;
    Ok((programs, reports))
}

/// Prepares each verified client.
fn all_ready<'a, A: Allocator + Copy>(
    alloc: A,
    clients: Vec<Verified<'a>, A>,
) -> Result<Vec<Ready<'a, A>, A>, AllocError>
    ensures { IfOk result
        (λ programs. texts_in programs.items ≡ texts_of clients.entry.items) }
{
    let mut programs = Vec::with_capacity(alloc, clients.len())?;
    for client in clients {
        programs.push(prepare(alloc, client)?)?;
    }
    Ok(programs)
}

/// Runs clients on an open segment, and saves it. `reports` has room for one report each.
fn run_verified<F: Fit, A: Allocator, W: Sink>(
    mut segment: Segment<F, A>,
    programs: Vec<Ready<A>, A>,
    input: &[u8],
    moves: &[Move],
    mut reports: Vec<Report, A>,
    out: &mut W,
) -> Outcome<A>
    requires works { W.has_failed out.old ≡ false }
    requires empty { reports.items ≡ [] }
    requires room { length programs.items ≤ vec_capacity reports }
    ensures runs { (trees : List syntax.Client) →
        AreAccepted segment.types (texts_in programs.entry.items) trees →
        IsReadyToRun F.allocator [] segment.window segment.types (moves_of moves.now) →
        HaveRun trees (moves_of moves.now) input.now segment.window (W.taken out.old)
        result.image.items (W.taken out.new) result.reports.items (ending_of result.ended) }
    ensures ended { (result.ended ≡ Ended.OutputFailed) ↔ (W.has_failed out.new ≡ true) }
    ensures reports { HasReportsOf (texts_in programs.entry.items) result.reports.items
        result.ended }
{
    let ready = programs.as_slice();
    run_all(&mut segment, ready, input, moves, out, &mut reports);
    let ended = if out.failed() {
        Ended::OutputFailed
    } else {
        Ended::Done
    };
    Outcome {
        image: segment.into_window().into_bytes(),
        reports,
        ended,
    }
}

/// A window on a copy of the image of `len` bytes, at its base. The rest of the region is zeros.
fn copied<A: Allocator>(
    alloc: A,
    image: &[u8],
    len: u32,
    schedule: &Schedule,
) -> Result<Window<A>, Fault>
    requires len { len ≡ length image.now }
    requires can_move { CanMove image.now schedule.now.room schedule.now.base
        (moves_of schedule.now.moves.now) }
    ensures bytes { IfOk result (λ window. window.bytes ≡ image.now) }
    ensures room { IfOk result (λ window. length (region_of window) ≡ schedule.now.room) }
    ensures base { IfOk result (λ window. length window.before ≡ schedule.now.base) }
    ensures refused { IsOkUnless result Fault.Memory }
{
    let region = Region::with_bytes(alloc, schedule.room, schedule.base, image)?;
    Ok(Window::place(region, schedule.base, len).unwrap())
}

/// The length of an image that may be at this place and make the moves.
fn fitting(image: &[u8], schedule: &Schedule) -> Result<u32, Fault>
    ensures len { IfOk result (λ n. n ≡ length image.now) }
    ensures fits { OnOk result (CanMove image.now schedule.now.room schedule.now.base
        (moves_of schedule.now.moves.now)) }
    ensures refused { (texts : List (List ℕ)) → IfErr result (IsFaultOfCall image.now texts
        schedule.now.room schedule.now.base (moves_of schedule.now.moves.now)) }
{
    let len = image_len(image)?;
    if schedule.room > MAX_ROOM || !is_place(schedule.room, schedule.base, len) {
        return Err(Fault::Misplaced);
    }
    if let Some(i) = first_bad_move(len, schedule.room, schedule.moves) {
        return Err(Fault::BadMove(u32::try_from(i).unwrap_or(u32::MAX)));
    }
    Ok(len)
}

/// The length of an image, if a segment may have it.
fn image_len(image: &[u8]) -> Result<u32, Fault>
    ensures len { IfOk result (λ n. n ≡ length image.now) }
    ensures fits { OnOk result (IsImageLength (length image.now)) }
    ensures refused { IfErr result (λ f. (f ≡ Fault.BadHeader) ×
        (IsImageLength (length image.now) → ⊥)) }
{
    match u32::try_from(image.len()) {
        Ok(len) if is_size(len) => Ok(len),
        _ => Err(Fault::BadHeader),
    }
}

/// Runs the clients until an output fails, and adds the report of each that ran.
fn run_all<F: Fit, A: Allocator, B: Allocator, W: Sink>(
    segment: &mut Segment<F, A>,
    programs: &[Ready<B>],
    input: &[u8],
    moves: &[Move],
    out: &mut W,
    reports: &mut Vec<Report, B>,
)
    ensures reports { reports.old.items ≡ [] →
        length programs.now ≤ vec_capacity reports.old →
        AreReportsOf (texts_in programs.now) reports.new.items }
    ensures all { reports.old.items ≡ [] → length programs.now ≤ vec_capacity reports.old →
        W.has_failed out.new ≡ false → length reports.new.items ≡ length programs.now }
    ensures runs { reports.old.items ≡ [] → length programs.now ≤ vec_capacity reports.old →
        W.has_failed out.old ≡ false → (trees : List syntax.Client) →
        AreAccepted segment.old.types (texts_in programs.now) trees →
        IsReadyToRun F.allocator [] segment.old.window segment.old.types (moves_of moves.now) →
        HaveRun trees (moves_of moves.now) input.now segment.old.window (W.taken out.old)
        segment.new.window.bytes (W.taken out.new) reports.new.items
        (ending_if (W.has_failed out.new)) }
{
    let mut left = input;
    for program in programs {
        if out.failed() {
            break;
        }
        let report = run(segment, program, left, moves, out);
        left = rest(left, report.read);
        // `reports` has room for it
        let _ = reports.push(report);
    }
}

/// The input after its first `read` bytes.
fn rest(input: &[u8], read: usize) -> &[u8]
    ensures { result.now ≡ drop read input.now }
{
    match input.get(read..) {
        Some(rest) => rest,
        None => &[],
    }
}
