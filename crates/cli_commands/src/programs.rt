//! Programs: the command that compiles one, and programs and assembler texts in place of clients.

ghost use Rattle.std.specs.Prelude.{◌≡◌, false, IfOk, IfSome};
ghost use Rattle.script_meaning.specs.Following.{FileMeans};

use crate::door::{assembled, checked, compiled, parsed};
use cli_explain::instruction_lines;
use cli_host::{
    Compilation, Files, Format, Run, Watch, has_source, is_program, is_text, read_file, read_image,
    refuse_input, refuse_other_format, write_file,
};
use cli_program::{Failure, Inputs, read_inputs, run_inputs, tell};
use lezgauri::{Fault, Refused, Sink, TypeTable};
use script_compile::Client;
use script_meaning::{Program, shown_core};
use std::alloc::{AllocError, Global};

/// `compile PROGRAM OUT [--on IMAGE] [--force]`: compiles a program for an image's types, and writes the client. Refuses to write
/// over the program or the image, and without `--force` over a file that isn't a client.
pub fn compile_file<'a, F: Files, E: Sink>(
    alloc: Global,
    compilation: &Compilation<'a>,
    files: &mut F,
    err: &mut E,
    watch: &dyn Watch,
) -> Result<(), Failure<'a>> {
    let Compilation {
        program,
        client,
        image,
        forced,
    } = *compilation;
    let text = read_file(alloc, files, program)?;
    refuse_input(files, client, program)?;
    let types = match image {
        Some(image) => {
            refuse_input(files, client, image)?;
            let image = read_image(alloc, files, image)?;
            checked(alloc, image.as_slice(), watch)?
        }
        None => TypeTable::new(),
    };
    if !forced {
        refuse_other_format(alloc, files, client, Format::Client)?;
    }
    let Client {
        bytes,
        warnings,
        ..
    } = compiled(alloc, program, text.as_slice(), &types)?;
    tell_warnings(&warnings, err);
    Ok(write_file(files, client, bytes.as_slice())?)
}

/// Tells warnings on the error output, unless that has failed.
pub(crate) fn tell_warnings<E: Sink>(warnings: &String, err: &mut E) {
    if !err.failed() {
        tell(err, warnings.as_bytes());
    }
}

/// `run` of clients of which some are programs or texts: translates these before anything runs, runs the clients, and writes the
/// saved image, also if their output failed, unless the file is kept then.
pub fn run_sources<'a, F: Files, O: Sink, E: Sink>(
    alloc: Global,
    run: &Run<'a>,
    files: &mut F,
    out: &mut O,
    err: &mut E,
    watch: &dyn Watch,
) -> Result<(), Failure<'a>>
    requires works { O.has_failed out.old ≡ false }
{
    let Inputs {
        image,
        clients: sources,
        input,
    } = read_inputs(alloc, files, run)?;
    let types = checked(alloc, image.as_slice(), watch)?;
    let Translated { clients, warnings } = translate_all(
        alloc,
        run.clients.as_slice(),
        sources.as_slice(),
        types,
        true,
    )?;
    tell_warnings(&warnings, err);
    let inputs = Inputs {
        image,
        clients: files_of(alloc, clients)?,
        input,
    };
    run_inputs(alloc, run, inputs, files, out, watch)
}

/// Clients of which some were programs or texts, with the warnings of the programs.
#[derive(Drop)]
pub(crate) struct Translated {
    pub clients: Vec<Client>,
    pub warnings: String,
}

/// The clients in files with these names, for an image with these types. Each program is compiled for the types that the clients
/// before it leave. A wrong line of a text is told with the client's number if `is_numbered`.
pub(crate) fn translate_all<'a>(
    alloc: Global,
    names: &[&str],
    sources: &[Vec<u8>],
    types: TypeTable,
    is_numbered: bool,
) -> Result<Translated, Failure<'a>> {
    let mut types = types;
    let mut translated = Translated {
        clients: Vec::new(alloc),
        warnings: String::new(alloc),
    };
    for (number, source) in sources.iter().enumerate() {
        let name = names.get(number).copied().unwrap_or("");
        let client = match client_of(alloc, name, source.as_slice(), &types) {
            Ok(client) => client,
            Err(failure) if is_numbered => return Err(numbered(failure, number)),
            Err(failure) => return Err(failure),
        };
        types = types_after(types, client.bytes.as_slice());
        translated.add(client)?;
    }
    Ok(translated)
}

impl Translated {
    fn add(&mut self, client: Client) -> Result<(), Fault> {
        self.warnings.push_str(client.warnings.as_str())?;
        match self.clients.push(client) {
            Ok(()) => Ok(()),
            Err(_) => Err(Fault::Memory),
        }
    }
}

/// A failure of the client with this number.
fn numbered<'a>(failure: Failure<'a>, number: usize) -> Failure<'a> {
    match failure {
        Failure::Refused(
            Refused {
                fault: Fault::BadLine(line),
                ..
            },
        ) => Failure::from(Refused {
            client: Some(number),
            fault: Fault::BadLine(line),
        }),
        other => other,
    }
}

/// The client of a program, and its core.
#[derive(Drop)]
pub struct CoreClient {
    pub client: Client,
    /// What the client was shown to do. `None` if the program isn't one of the core, or if that couldn't be shown.
    pub core: Option<Program>,
}

/// Compiles the program in a file with this name, for an image with these types, and compares its client with the program. If that
/// succeeds, the client does what the program says.
pub fn compiled_core<'a>(
    alloc: Global,
    name: &str,
    source: &[u8],
    types: &TypeTable,
) -> Result<CoreClient, Failure<'a>>
    ensures { IfOk result (λ made. IfSome made.core (FileMeans made.client.bytes.items)) }
{
    let client = compiled(alloc, name, source, types)?;
    let core = shown_core(alloc, source, client.bytes.as_slice())?;
    Ok(CoreClient { client, core })
}

/// The client in a file with this name, for an image with these types. A program is compiled, and a text is assembled.
pub(crate) fn client_of<'a>(
    alloc: Global,
    name: &str,
    source: &[u8],
    types: &TypeTable,
) -> Result<Client, Failure<'a>> {
    if is_program(name) {
        return compiled(alloc, name, source, types);
    }
    if is_client_text(name, source) {
        return Ok(text_client(alloc, source)?);
    }
    Ok(plain_client(Vec::from_slice(alloc, source)?, Vec::new(alloc)))
}

/// Whether a file with this name and these contents is an assembler text.
pub(crate) fn is_client_text(name: &str, source: &[u8]) -> bool {
    is_text(name) && !source.starts_with(Format::Client.magic().as_bytes())
}

/// The client that a text describes.
fn text_client(alloc: Global, text: &[u8]) -> Result<Client, Fault> {
    let bytes = assembled(alloc, text)?;
    Ok(plain_client(bytes, instruction_lines(alloc, text)?))
}

/// A client without variables, whose instructions come from these lines of a text, if it has one.
fn plain_client(bytes: Vec<u8>, lines: Vec<usize>) -> Client {
    let alloc = *bytes.allocator();
    Client {
        bytes,
        lines,
        variables: Vec::new(alloc),
        warnings: String::new(alloc),
    }
}

/// The files of clients.
fn files_of(alloc: Global, clients: Vec<Client>) -> Result<Vec<Vec<u8>>, AllocError> {
    let mut files = Vec::new(alloc);
    for client in clients {
        files.push(client.bytes)?;
    }
    Ok(files)
}

/// The clients in files with these names, for the types of an image, as [`run_sources`] translated them; none if it couldn't.
pub(crate) fn translated_again(
    alloc: Global,
    names: &[&str],
    sources: &[Vec<u8>],
    image: &[u8],
    watch: &dyn Watch,
) -> Vec<Vec<u8>> {
    match translated_files(alloc, names, sources, image, watch) {
        Ok(files) => files,
        Err(_) => Vec::new(alloc),
    }
}

fn translated_files<'a>(
    alloc: Global,
    names: &[&str],
    sources: &[Vec<u8>],
    image: &[u8],
    watch: &dyn Watch,
) -> Result<Vec<Vec<u8>>, Failure<'a>> {
    let types = checked(alloc, image, watch)?;
    let Translated { clients, .. } = translate_all(alloc, names, sources, types, true)?;
    Ok(files_of(alloc, clients)?)
}

/// The types of an image after a client has run on it. If the client can't run, it leaves them.
fn types_after(types: TypeTable, client: &[u8]) -> TypeTable {
    let Ok(client) = parsed(client) else {
        return types;
    };
    match types.extends(&client.types()) {
        Ok(longer) => longer,
        Err(_) => types,
    }
}
