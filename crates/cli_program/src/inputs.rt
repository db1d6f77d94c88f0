ghost use Rattle.std.specs.Prelude.{◌≡◌, [], map, IfOk, IfNone};
ghost use Rattle.cli_host.specs.Accesses.{AddsAccesses};
ghost use Rattle.cli_program.specs.Runs.{WasRead, input_read, read_of};

use cli_host::{
    FileFailure, Files, Format, Run, is_same_file, read_file, read_files, read_image, refuse_input,
    refuse_other_format,
};
use std::alloc::{AllocError, Global};

/// What a run reads: the bytes of an image, of the clients, and of the input.
#[derive(Drop)]
pub struct Inputs {
    pub image: Vec<u8>,
    pub clients: Vec<Vec<u8>>,
    pub input: Vec<u8>,
}

/// Reads the files of a run in the order of the arguments. `OUT` is checked at its place in that order.
pub fn read_inputs<'a, F: Files>(
    alloc: Global,
    files: &mut F,
    run: &Run<'a>,
) -> Result<Inputs, FileFailure<'a>>
    ensures read { IfOk result (λ inputs.
        WasRead run.now (F.was_read files.old) (F.was_read files.new) (read_of inputs)) }
    ensures nothing_written { F.was_written files.new ≡ F.was_written files.old }
{
    let image = read_image(alloc, files, run.image)?;
    check_out(alloc, files, run)?;
    let clients = read_files(alloc, files, run.clients.as_slice())?;
    let input = read_input(alloc, files, run.input)?;
    Ok(Inputs {
        image,
        clients,
        input,
    })
}

/// Refuses to write the saved image over a client, over the input, or over a file that isn't an image. It may overwrite the image
/// itself, since that is checked before anything runs.
fn check_out<'a, F: Files>(
    alloc: Global,
    files: &mut F,
    run: &Run<'a>,
) -> Result<(), FileFailure<'a>>
    ensures nothing_read { F.was_read files.new ≡ F.was_read files.old }
    ensures nothing_written { F.was_written files.new ≡ F.was_written files.old }
{
    for client in &run.clients {
        refuse_input(files, run.out, client)?;
    }
    if let Some(input) = run.input {
        refuse_input(files, run.out, input)?;
    }
    if run.forced || is_same_file(files, run.out, run.image)? {
        return Ok(());
    }
    refuse_other_format(alloc, files, run.out, Format::Image)
}

/// The bytes of the input's file; empty if there is none.
pub fn read_input<'a, F: Files>(
    alloc: Global,
    files: &mut F,
    name: Option<&'a str>,
) -> Result<Vec<u8>, FileFailure<'a>>
    ensures read { IfOk result (λ bytes. AddsAccesses (F.was_read files.old) (F.was_read files.new)
        (input_read name.entry bytes.items)) }
    ensures empty { IfOk result (λ bytes. IfNone name.entry (bytes.items ≡ [])) }
    ensures nothing_written { F.was_written files.new ≡ F.was_written files.old }
{
    match name {
        Some(name) => read_file(alloc, files, name),
        None => Ok(Vec::new(alloc)),
    }
}

/// The bytes of several files, as slices.
pub fn slices(alloc: Global, files: &[Vec<u8>]) -> Result<Vec<&[u8]>, AllocError>
    ensures { IfOk result (λ slices.
        map (λ slice. slice.now) slices.items ≡ map (λ file. file.items) files.now) }
{
    let mut slices = Vec::new(alloc);
    for file in files {
        slices.push(file.as_slice())?;
    }
    Ok(slices)
}
