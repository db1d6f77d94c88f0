//! From a program's text to a client, or to lines that tell what is wrong.

use crate::entry::{Translation, translate};
use crate::failure::{Failure, Wrong};
use crate::report::Report;
use crate::variables::VariableChange;
use client_code::TypeTable;
use script_code::Warning;
use script_syntax::{Span, Tree, parse};
use std::alloc::{AllocError, Global};

/// The client of a program.
#[derive(Drop)]
pub struct Client {
    /// The client's file.
    pub bytes: Vec<u8>,
    /// For each instruction the line of the program that it comes from.
    pub lines: Vec<usize>,
    /// Which variables the registers have, in the order of the instructions.
    pub variables: Vec<VariableChange>,
    /// A line for each warning, with the line of the program and a hint.
    pub warnings: String,
}

/// Why a program has no client.
#[derive(Drop)]
pub enum Refusal {
    /// All errors of the program: a line for each, with the line of the program and a hint.
    Errors(String),
    /// The host is out of memory.
    Memory,
}

impl From<AllocError> for Refusal {
    fn from(_: AllocError) -> Refusal {
        Refusal::Memory
    }
}

/// Compiles the program in a file with this name, for the types of an image.
pub fn client_of(
    alloc: Global,
    file: &str,
    text: &[u8],
    image: &TypeTable,
) -> Result<Client, Refusal> {
    let report = Report::new(alloc, file, text);
    match parse(alloc, text) {
        Ok(tree) => client_of_tree(alloc, &tree, image, report),
        Err(script_syntax::Failure::Memory) => Err(Refusal::Memory),
        Err(script_syntax::Failure::Errors(errors)) => {
            Err(refused(syntax_lines(report, errors.as_slice())))
        }
    }
}

fn client_of_tree(
    alloc: Global,
    tree: &Tree<'_>,
    image: &TypeTable,
    report: Report<'_>,
) -> Result<Client, Refusal> {
    match translate(alloc, tree, image) {
        Ok(translation) => Ok(told_client(alloc, translation, report)?),
        Err(Failure::Errors(wrong)) => Err(refused(error_lines(report, &wrong))),
        Err(Failure::Memory) => Err(Refusal::Memory),
    }
}

/// The client, with its warnings.
fn told_client(
    alloc: Global,
    translation: Translation,
    report: Report<'_>,
) -> Result<Client, AllocError> {
    let Translation {
        compiled,
        variables,
    } = translation;
    Ok(Client {
        bytes: compiled.file(alloc)?,
        lines: lines_of(alloc, compiled.places.as_slice())?,
        variables,
        warnings: warning_lines(report, compiled.warnings.as_slice())?,
    })
}

fn lines_of(alloc: Global, places: &[Span]) -> Result<Vec<usize>, AllocError> {
    let mut lines = Vec::new(alloc);
    for place in places {
        lines.push(place.line)?;
    }
    Ok(lines)
}

/// The refusal with these lines.
fn refused(lines: Result<String, AllocError>) -> Refusal {
    match lines {
        Ok(lines) => Refusal::Errors(lines),
        Err(_) => Refusal::Memory,
    }
}

fn syntax_lines(report: Report<'_>, errors: &[script_syntax::Error]) -> Result<String, AllocError> {
    let mut report = report;
    let text = report.text;
    for error in errors {
        let message = error.message(text);
        report.add("error", error.span, &message, error.hint())?;
    }
    report.into_lines()
}

fn error_lines(report: Report<'_>, wrong: &Wrong) -> Result<String, AllocError> {
    let mut report = report;
    let (text, types) = (report.text, &wrong.types);
    for error in wrong.errors.as_slice() {
        let message = error.message(text, types);
        let hint = error.hint(text, types, wrong.alive.as_slice());
        report.add("error", error.span, &message, hint)?;
    }
    report.into_lines()
}

fn warning_lines(report: Report<'_>, warnings: &[Warning]) -> Result<String, AllocError> {
    let mut report = report;
    let text = report.text;
    for warning in warnings {
        let message = warning.message(text);
        report.add("warning", warning.span, &message, warning.hint())?;
    }
    report.into_lines()
}
