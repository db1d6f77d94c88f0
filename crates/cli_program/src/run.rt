ghost use Rattle.std.specs.Prelude.{◌≡◌, false, IfOk, IfErr, OnOk, OnErr};
ghost use Rattle.client_vm.specs.Jobs.{effect_of};
ghost use Rattle.client_vm.specs.Outcomes.{HasOutcome};
ghost use Rattle.cli_program.specs.Runs.{read_of, room_of, job_of_run, IsRefusal, HasSaved, HasFailed, HasSavedOf, HasFailedOf};

use crate::failure::Failure;
use crate::inputs::{Inputs, read_inputs, slices};
use crate::saving::save;
use cli_host::{Files, Run, Watch, Work};
use client_vm::{Outcome, Refused, Schedule, Sink, run_image};
use std::alloc::Global;

/// `run IMAGE OUT CLIENT.. [--base N] [--room N] [--input FILE] [--keep-on-failure]`: runs the clients, and writes the saved image,
/// also if their output failed, unless the file is kept then.
pub fn run_files<'a, F: Files, O: Sink>(
    alloc: Global,
    run: &Run<'a>,
    files: &mut F,
    out: &mut O,
    watch: &dyn Watch,
) -> Result<(), Failure<'a>>
    requires works { O.has_failed out.old ≡ false }
    ensures saved { OnOk result (HasSaved run.now (F.was_read files.old) (F.was_read files.new)
        (F.was_written files.old) (F.was_written files.new) (O.taken out.old) (O.taken out.new)) }
    ensures failed { IfErr result (HasFailed run.now (F.was_read files.old) (F.was_read files.new)
        (F.was_written files.old) (F.was_written files.new) (O.taken out.old) (O.taken out.new)) }
{
    let inputs = read_inputs(alloc, files, run)?;
    run_inputs(alloc, run, inputs, files, out, watch)
}

/// Runs clients whose bytes are given, and writes the saved image, also if their output failed, unless the file is kept then.
pub fn run_inputs<'a, F: Files, O: Sink>(
    alloc: Global,
    run: &Run<'a>,
    inputs: Inputs,
    files: &mut F,
    out: &mut O,
    watch: &dyn Watch,
) -> Result<(), Failure<'a>>
    requires works { O.has_failed out.old ≡ false }
    ensures saved { OnOk result (HasSavedOf run.now (read_of inputs) (F.was_written files.old)
        (F.was_written files.new) (O.taken out.old) (O.taken out.new)) }
    ensures failed { IfErr result (HasFailedOf run.now (read_of inputs)
        (F.was_written files.old) (F.was_written files.new) (O.taken out.old)
        (O.taken out.new)) }
    ensures nothing_read { F.was_read files.new ≡ F.was_read files.old }
{
    watch.begin(Work::Checking, inputs.image.len() as u64);
    let outcome = outcome_of(alloc, run, inputs, out)?;
    save(
        files,
        run.out,
        outcome.image.as_slice(),
        outcome.ended,
        run.keeps_on_failure,
    )
}

/// Runs the clients on an image.
fn outcome_of<O: Sink>(
    alloc: Global,
    run: &Run,
    inputs: Inputs,
    out: &mut O,
) -> Result<Outcome<Global>, Refused>
    requires works { O.has_failed out.old ≡ false }
    ensures refused { IfErr result (IsRefusal (job_of_run run.now (read_of inputs))) }
    ensures outcome { IfOk result (λ o. HasOutcome (job_of_run run.now (read_of inputs))
        (effect_of (O.taken out.old) (O.taken out.new) o)) }
    ensures nothing_written { OnErr result (out.new ≡ out.old) }
{
    let Inputs {
        image,
        clients,
        input,
    } = inputs;
    let clients = slices(alloc, clients.as_slice())?;
    let schedule = Schedule {
        room: room_of(run, image.len()),
        base: run.base,
        moves: &[],
    };
    Ok(run_image(
        alloc,
        image,
        clients.as_slice(),
        input.as_slice(),
        &schedule,
        out,
    )?)
}

/// The region's size in bytes: `--room`, or just enough for the image at its base.
fn room_of(run: &Run, len: usize) -> u32
    ensures { result ≡ room_of run.now len }
{
    let len = u32::try_from(len).unwrap_or(u32::MAX);
    run.room.unwrap_or(run.base.saturating_add(len))
}
