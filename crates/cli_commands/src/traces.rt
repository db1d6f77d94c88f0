//! The command `trace`.

ghost use Rattle.std.specs.Prelude.{◌≡◌, false};

use crate::door::{opened, ready, types_left};
use crate::programs::{Translated, tell_warnings, translate_all};
use cli_host::{Files, Trace, Watch, read_files, read_image};
use cli_program::{Failure, print, read_input};
use client_trace::{LastLines, SourceMap, StepRange, Untraced, Variable, View, trace_view};
use lezgauri::{Fault, Image, Ready, Refused, Sink, TypeTable};
use script_compile::{Client, VariableChange};
use std::alloc::{AllocError, Global};
use std::str;

/// `trace IMAGE CLIENT.. [--input FILE] [--step A..B] [--only NAME] [--last N] [--changes]`: prints each step of the clients on
/// the image, with the registers' contents. Nothing runs unless all of them can.
pub fn trace_files<'a, F: Files, O: Sink, E: Sink>(
    alloc: Global,
    trace: &Trace<'a>,
    files: &mut F,
    out: &mut O,
    err: &mut E,
    watch: &dyn Watch,
) -> Result<(), Failure<'a>>
    requires works { O.has_failed out.old ≡ false }
{
    let image = read_image(alloc, files, trace.image)?;
    let texts = read_files(alloc, files, trace.clients.as_slice())?;
    let input = read_input(alloc, files, trace.input)?;
    let mut image = opened(alloc, image, watch)?;
    let Translated { clients, warnings } = translate_all(
        alloc,
        trace.clients.as_slice(),
        texts.as_slice(),
        types_of(&image),
        trace.clients.len() > 1,
    )?;
    tell_warnings(&warnings, err);
    test_clients(clients.as_slice(), types_of(&image))?;
    let traced = Traced {
        alloc,
        trace,
        clients: clients.as_slice(),
        texts: texts.as_slice(),
        input: input.as_slice(),
    };
    traced.print(&mut image, out)
}

/// A copy of the types of an image.
fn types_of(image: &Image<Global>) -> TypeTable {
    match TypeTable::new().extends(image.types()) {
        Ok(types) => types,
        // can't happen: the types extend no types
        Err(_) => TypeTable::new(),
    }
}

/// Fails unless these clients can run one after the other on an image with these types.
fn test_clients<'a>(clients: &[Client], types: TypeTable) -> Result<(), Failure<'a>> {
    let mut types = types;
    for (number, client) in clients.iter().enumerate() {
        types = match types_left(&types, client.bytes.as_slice()) {
            Ok(types) => types,
            Err(fault) => {
                return Err(Failure::from(Refused {
                    client: number_of(number, clients),
                    fault,
                }));
            }
        };
    }
    Ok(())
}

/// The number of a client, unless it is the only one.
fn number_of(number: usize, clients: &[Client]) -> Option<usize> {
    if clients.len() > 1 {
        Some(number)
    } else {
        None
    }
}

/// Clients to trace, with their files and their input.
#[derive(Drop)]
struct Traced<'t, 'a> {
    alloc: Global,
    trace: &'t Trace<'a>,
    clients: &'t [Client],
    texts: &'t [Vec<u8>],
    input: &'t [u8],
}

impl Traced<'_, '_> {
    /// Prints the lines that are asked for.
    fn print<'a, O: Sink>(&self, image: &mut Image<Global>, out: &mut O) -> Result<(), Failure<'a>>
        requires works { O.has_failed out.old ≡ false }
    {
        let Some(most) = self.trace.last else {
            return ended(self.write(image, out));
        };
        let mut last = LastLines::new(self.alloc, most as usize);
        ended(self.write(image, &mut last))?;
        print(out, last.into_bytes()?.as_slice())
    }

    /// Runs the clients, and writes their lines.
    fn write<O: Sink>(&self, image: &mut Image<Global>, out: &mut O) -> Result<(), Untraced> {
        let mut input = self.input;
        for (number, client) in self.clients.iter().enumerate() {
            let text = match self.texts.get(number) {
                Some(text) => text.as_slice(),
                None => &[],
            };
            let variables = variables_in(self.alloc, text, client.variables.as_slice())?;
            let view = View {
                source: SourceMap {
                    lines: client.lines.as_slice(),
                    variables: variables.as_slice(),
                },
                client: number_of(number, self.clients),
                steps: StepRange {
                    first: self.trace.steps.first,
                    last: self.trace.steps.last,
                },
                only: self.trace.only,
                marks_changes: self.trace.marks_changes,
            };
            let Ok(ready) = ready(self.alloc, image, client.bytes.as_slice()) else {
                return Err(Untraced::Memory);
            };
            let read = write_client(self.alloc, image, &ready, input, &view, out)?;
            input = input.get(read..).unwrap_or_default();
        }
        Ok(())
    }
}

/// The changes of variables, with the names in the text of the program.
fn variables_in<'t>(
    alloc: Global,
    text: &'t [u8],
    changes: &[VariableChange],
) -> Result<Vec<Variable<'t>>, AllocError> {
    let mut variables = Vec::new(alloc);
    for change in changes {
        let name = match change.name {
            Some(span) => text.get(span.start..span.end).unwrap_or_default(),
            None => &[],
        };
        variables.push(Variable {
            instruction: change.instruction,
            register: change.register.0,
            name: str::from_utf8(name).unwrap_or_default(),
        })?;
    }
    Ok(variables)
}

/// Runs a client, and writes its lines, unless the output has failed. Returns how many bytes of the input it read.
fn write_client<O: Sink>(
    alloc: Global,
    image: &mut Image<Global>,
    client: &Ready<Global>,
    input: &[u8],
    view: &View<'_>,
    out: &mut O,
) -> Result<usize, Untraced> {
    if out.failed() {
        return Err(Untraced::OutputFailed);
    }
    match image {
        Image::Seq(segment) => trace_view(alloc, segment, client, input, view, out),
        Image::Best(segment) => trace_view(alloc, segment, client, input, view, out),
    }
}

/// Why a trace ended before its run did.
fn ended<'a>(traced: Result<(), Untraced>) -> Result<(), Failure<'a>> {
    match traced {
        Ok(()) => Ok(()),
        Err(Untraced::Memory) => Err(Failure::from(Fault::Memory)),
        Err(Untraced::OutputFailed) => Err(Failure::Output),
    }
}
