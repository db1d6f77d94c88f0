ghost use Rattle.std.specs.Prelude.{◌≡◌, ◌≤◌, false, IfErr, OnOk};
ghost use Rattle.cli_program.specs.Runs.{HasSaved, HasFailed};
ghost use Rattle.cli_commands.specs.Requests.{OfRun};

use crate::clients::{Verification, assemble_file, print_file, verify_file};
use crate::explaining::explain_failure;
use crate::programs::{compile_file, run_sources};
use crate::traces::trace_files;
use cli_host::{Asked, Files, Request, Watch};
use cli_images::{compare_files, image_file, load_file, new_file};
use cli_program::{Failure, print, report, run_files, tell_failure};
use lezgauri::Sink;
use std::alloc::Global;
use std::convert::AsStr;

/// Runs the command line, which begins with the program's name, and returns the status: 0 for success, 1 for a fault that the
/// library reports, 2 for a wrong command line, 3 for a failed file or output. The watch is told how far long work is.
pub fn command<S: AsStr, F: Files, O: Sink, E: Sink>(
    alloc: Global,
    words: &[S],
    files: &mut F,
    out: &mut O,
    err: &mut E,
    watch: &dyn Watch,
) -> u8
    requires out_works { O.has_failed out.old ≡ false }
    requires err_works { E.has_failed err.old ≡ false }
    ensures status { result ≤ 3 }
{
    match cli_host::read(alloc, words) {
        Ok(asked) => answer(alloc, &asked, files, out, err, watch),
        Err(misread) => report(alloc, &Failure::from(misread), err),
    }
}

/// Performs a request, and returns the status.
fn answer<F: Files, O: Sink, E: Sink>(
    alloc: Global,
    asked: &Asked,
    files: &mut F,
    out: &mut O,
    err: &mut E,
    watch: &dyn Watch,
) -> u8
    requires out_works { O.has_failed out.old ≡ false }
    requires err_works { E.has_failed err.old ≡ false }
    ensures status { result ≤ 3 }
    ensures saved { OfRun asked.now.request (λ run. result ≡ 0 → HasSaved run
        (F.was_read files.old) (F.was_read files.new) (F.was_written files.old)
        (F.was_written files.new) (O.taken out.old) (O.taken out.new)) }
{
    match perform(alloc, asked, files, out, err, watch) {
        Ok(()) => 0,
        Err(failure) => {
            if !err.failed() {
                tell_failure(alloc, &failure, err);
            }
            if asked.explained && !err.failed() {
                // if there is no memory for an explanation, only the line is printed
                let _ = explain_failure(alloc, &asked.request, &failure, files, err, watch);
            }
            failure.status()
        }
    }
}

/// Performs a request. Warnings of programs are told on the error output.
fn perform<'a, F: Files, O: Sink, E: Sink>(
    alloc: Global,
    asked: &Asked<'a>,
    files: &mut F,
    out: &mut O,
    err: &mut E,
    watch: &dyn Watch,
) -> Result<(), Failure<'a>>
    requires works { O.has_failed out.old ≡ false }
    ensures saved { OfRun asked.now.request (λ run. OnOk result (HasSaved run
        (F.was_read files.old) (F.was_read files.new) (F.was_written files.old)
        (F.was_written files.new) (O.taken out.old) (O.taken out.new))) }
    ensures failed { OfRun asked.now.request (λ run. IfErr result (HasFailed run
        (F.was_read files.old) (F.was_read files.new) (F.was_written files.old)
        (F.was_written files.new) (O.taken out.old) (O.taken out.new))) }
{
    match &asked.request {
        Request::New(new) => new_file(alloc, new, files),
        Request::Image { file, task } => image_file(alloc, file, *task, files, out, watch),
        Request::Compare { one, other } => compare_files(alloc, one, other, files, out, watch),
        Request::Load(load) => load_file(alloc, load, files, watch),
        Request::Verify { image, client } => {
            let verification = Verification {
                image: *image,
                client: *client,
                explained: asked.explained,
            };
            verify_file(alloc, verification, files, out, err, watch)
        }
        Request::Run(run) => run_files(alloc, run, files, out, watch),
        Request::RunSources(run) => run_sources(alloc, run, files, out, err, watch),
        Request::Trace(trace) => trace_files(alloc, trace, files, out, err, watch),
        Request::Assemble(assembly) => assemble_file(alloc, assembly, files),
        Request::Compile(compilation) => compile_file(alloc, compilation, files, err, watch),
        Request::Print { client } => print_file(alloc, client, files, out),
        Request::Help(text) => print(out, text.as_bytes()),
    }
}
