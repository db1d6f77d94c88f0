ghost use Rattle.std.specs.Prelude.{◌≡◌, false};

use crate::programs::{is_client_text, translated_again};
use cli_explain::{Sources, explain};
use cli_host::{Files, Request, Watch, has_source, read_file, read_files, read_image};
use cli_program::{Failure, slices, tell};
use lezgauri::{Fault, Refused, Sink};
use std::alloc::{AllocError, Global};

/// Explains why a command failed, in words. For a refusal it reads the files again, and leaves out a file that can't be read any
/// more.
pub fn explain_failure<'a, F: Files, E: Sink>(
    alloc: Global,
    request: &Request<'a>,
    failure: &Failure,
    files: &mut F,
    err: &mut E,
    watch: &dyn Watch,
) -> Result<(), AllocError>
    requires works { E.has_failed err.old ≡ false }
{
    match failure {
        Failure::Refused(refused) => {
            let words = refusal(alloc, request, refused, files, watch)?;
            tell(err, words.as_slice());
        }
        _ => {
            let words = failure.explanation(alloc, request)?;
            tell(err, words.as_bytes());
        }
    }
    Ok(())
}

/// Why the library refused what a command gave it.
fn refusal<'a, F: Files>(
    alloc: Global,
    request: &Request<'a>,
    refused: &Refused,
    files: &mut F,
    watch: &dyn Watch,
) -> Result<Vec<u8>, AllocError> {
    if let (Request::Load(_), Fault::BadLine(line)) = (request, refused.fault) {
        return wrong_dump(alloc, line);
    }
    let read = Read::again(alloc, request, files, watch)?;
    explained(alloc, refused, &read)
}

fn wrong_dump(alloc: Global, line: u32) -> Result<Vec<u8>, AllocError> {
    let words = format!(in alloc;
        "line {line} of the text isn't one that may come there: `segtool dump` prints such texts\n"
    )?;
    Ok(words.into_bytes())
}

/// The explanation of a refusal by the library, from the files that could be read.
fn explained(alloc: Global, refused: &Refused, read: &Read) -> Result<Vec<u8>, AllocError> {
    let clients = slices(alloc, read.clients())?;
    let sources = Sources {
        image: read.image.as_deref(),
        clients: clients.as_slice(),
        text: read.text_of(refused),
    };
    // the number of the only client isn't needed
    let client = if read.names.len() > 1 {
        refused.client
    } else {
        None
    };
    explain(alloc, refused.fault, client, &sources)
}

/// The contents of the files that a command works on, if they can be read again.
#[derive(Drop)]
struct Read<'a> {
    image: Option<Vec<u8>>,
    /// The text to assemble.
    text: Option<Vec<u8>>,
    /// The names of the clients' files, and what they contain.
    names: Vec<&'a str>,
    sources: Vec<Vec<u8>>,
    /// What these are translated to, if some of them are programs or texts.
    translated: Option<Vec<Vec<u8>>>,
}

impl<'a> Read<'a> {
    fn again<F: Files>(
        alloc: Global,
        request: &Request<'a>,
        files: &mut F,
        watch: &dyn Watch,
    ) -> Result<Read<'a>, AllocError> {
        let image = match image_of(request) {
            Some(name) => read_image(alloc, files, name).ok(),
            None => None,
        };
        let text = match request {
            Request::Assemble(assembly) => read_file(alloc, files, assembly.text).ok(),
            _ => None,
        };
        let names = clients_of(alloc, request)?;
        let sources = match read_files(alloc, files, names.as_slice()) {
            Ok(sources) => sources,
            Err(_) => Vec::new(alloc),
        };
        let mut read = Read {
            image,
            text,
            names,
            sources,
            translated: None,
        };
        read.translate(alloc, watch);
        Ok(read)
    }

    /// Translates programs and texts.
    fn translate(&mut self, alloc: Global, watch: &dyn Watch) {
        let names = self.names.as_slice();
        if let (Some(image), true) = (&self.image, has_source(names)) {
            let sources = self.sources.as_slice();
            let clients = translated_again(alloc, names, sources, image.as_slice(), watch);
            self.translated = Some(clients);
        }
    }

    /// The clients, as far as they can be translated.
    fn clients(&self) -> &[Vec<u8>] {
        match &self.translated {
            Some(clients) => clients.as_slice(),
            None => self.sources.as_slice(),
        }
    }

    /// The text to assemble, or the text of the refused client.
    fn text_of(&self, refused: &Refused) -> Option<&[u8]> {
        if let Some(text) = &self.text {
            return Some(text.as_slice());
        }
        let number = refused.client.unwrap_or(0);
        let (name, source) = (self.names.get(number)?, self.sources.get(number)?);
        if is_client_text(name, source.as_slice()) {
            Some(source.as_slice())
        } else {
            None
        }
    }
}

/// The file of the image that a command works on.
fn image_of<'a>(request: &Request<'a>) -> Option<&'a str> {
    match request {
        Request::Image { file, .. } => Some(file),
        Request::Verify { image, .. } => Some(image),
        Request::Run(run) | Request::RunSources(run) => Some(run.image),
        Request::Trace(trace) => Some(trace.image),
        Request::Compile(compilation) => compilation.image,
        Request::New(_)
        | Request::Compare { .. }
        | Request::Load(_)
        | Request::Assemble(_)
        | Request::Print { .. }
        | Request::Help(_) => None,
    }
}

/// The files of the clients that a command works on.
fn clients_of<'a>(alloc: Global, request: &Request<'a>) -> Result<Vec<&'a str>, AllocError> {
    match request {
        Request::Verify { client, .. } | Request::Print { client } => {
            Vec::from_slice(alloc, &[*client])
        }
        Request::Trace(trace) => Vec::from_slice(alloc, trace.clients.as_slice()),
        Request::Run(run) | Request::RunSources(run) => {
            Vec::from_slice(alloc, run.clients.as_slice())
        }
        Request::New(_)
        | Request::Image { .. }
        | Request::Compare { .. }
        | Request::Load(_)
        | Request::Assemble(_)
        | Request::Compile(_)
        | Request::Help(_) => Ok(Vec::new(alloc)),
    }
}
