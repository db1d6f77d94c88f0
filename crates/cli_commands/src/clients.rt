//! The commands on clients, all but `run` and `trace`.

ghost use Rattle.std.specs.Prelude.{◌≡◌, false};

use crate::door::{assembled, opened, printed, verified};
use crate::programs::{CoreClient, client_of, compiled_core, is_client_text, tell_warnings};
use cli_explain::{ProgramLines, explain_steps};
use cli_host::{
    Assembly, Files, Format, Watch, is_program, read_file, read_image, refuse_input,
    refuse_other_format, write_file,
};
use cli_program::{Failure, print};
use lezgauri::{Image, Sink, Verified};
use script_compile::Client;
use std::alloc::{AllocError, Global};

/// The files to verify: an image and a client. If it is explained, what each line of the client costs is asked for too.
#[derive(Clone, Copy)]
pub struct Verification<'a> {
    pub image: &'a str,
    pub client: &'a str,
    pub explained: bool,
}

/// `verify FILE CLIENT`: prints the most steps that the client can take on the image; of a program or a text also what each line
/// takes, and of a program whether its client was shown to do what it says, if that is asked for.
pub fn verify_file<'a, F: Files, O: Sink, E: Sink>(
    alloc: Global,
    verification: Verification<'a>,
    files: &mut F,
    out: &mut O,
    err: &mut E,
    watch: &dyn Watch,
) -> Result<(), Failure<'a>>
    requires works { O.has_failed out.old ≡ false }
{
    let Verification {
        image,
        client: name,
        explained,
    } = verification;
    let image = read_image(alloc, files, image)?;
    let bytes = read_file(alloc, files, name)?;
    let image = opened(alloc, image, watch)?;
    let source = bytes.as_slice();
    let compared = compared_client(alloc, name, source, explained, &image)?;
    tell_warnings(&compared.client.warnings, err);
    let has_lines = is_program(name) || is_client_text(name, source);
    verify_client(
        alloc,
        &image,
        &compared,
        source,
        explained && has_lines,
        out,
    )
}

/// A client, and whether it was shown to do what its program says, if it is a program's and that was asked for.
#[derive(Drop)]
struct Compared {
    client: Client,
    is_shown: Option<bool>,
}

/// The client in a file with this name, for an image. If `explained`, the client of a program is compared with it.
fn compared_client<'a>(
    alloc: Global,
    name: &str,
    source: &[u8],
    explained: bool,
    image: &Image<Global>,
) -> Result<Compared, Failure<'a>> {
    if explained && is_program(name) {
        let CoreClient { client, core } = compiled_core(alloc, name, source, image.types())?;
        return Ok(Compared {
            client,
            is_shown: Some(core.is_some()),
        });
    }
    Ok(Compared {
        client: client_of(alloc, name, source, image.types())?,
        is_shown: None,
    })
}

/// Prints the most steps of a client, and if they are explained, what each line of its text or program costs.
fn verify_client<'a, O: Sink>(
    alloc: Global,
    image: &Image<Global>,
    compared: &Compared,
    source: &[u8],
    is_explained: bool,
    out: &mut O,
) -> Result<(), Failure<'a>>
    requires works { O.has_failed out.old ≡ false }
{
    let client = &compared.client;
    let verified = verified(image, client.bytes.as_slice())?;
    let bound = verified.bound();
    print(out, format!(in alloc; "steps {bound}\n")?.as_bytes())?;
    if !is_explained || out.failed() {
        return Ok(());
    }
    let mut table = steps_of(alloc, source, client.lines.as_slice(), &verified)?;
    if let Some(is_shown) = compared.is_shown {
        table.push_str(meaning_line(is_shown))?;
    }
    print(out, table.as_bytes())
}

/// The line that tells whether the client of a program was shown to do what it says.
fn meaning_line(is_shown: bool) -> &'static str {
    if is_shown {
        "meaning shown\n"
    } else {
        "meaning not shown\n"
    }
}

/// What each line of a program or a text costs.
fn steps_of(
    alloc: Global,
    text: &[u8],
    lines: &[usize],
    verified: &Verified,
) -> Result<String, AllocError> {
    let program = ProgramLines { text, lines };
    explain_steps(alloc, program, &verified.client(), verified.bound())
}

/// `asm TEXT OUT [--force]`: assembles a text, and writes the client. Refuses to write over the text, and without `--force` over
/// a file that isn't a client.
pub fn assemble_file<'a, F: Files>(
    alloc: Global,
    assembly: &Assembly<'a>,
    files: &mut F,
) -> Result<(), Failure<'a>> {
    let text = read_file(alloc, files, assembly.text)?;
    refuse_input(files, assembly.client, assembly.text)?;
    if !assembly.forced {
        refuse_other_format(alloc, files, assembly.client, Format::Client)?;
    }
    let assembled = assembled(alloc, text.as_slice())?;
    Ok(write_file(files, assembly.client, assembled.as_slice())?)
}

/// `print CLIENT`: prints the client's canonical text.
pub fn print_file<'a, F: Files, O: Sink>(
    alloc: Global,
    client: &'a str,
    files: &mut F,
    out: &mut O,
) -> Result<(), Failure<'a>>
    requires works { O.has_failed out.old ≡ false }
{
    let client = read_file(alloc, files, client)?;
    let text = printed(alloc, client.as_slice())?;
    print(out, text.as_slice())
}
