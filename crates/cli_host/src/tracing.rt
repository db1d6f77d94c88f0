//! Reading the arguments of `trace`.

use crate::request::{Steps, Trace};
use crate::run::{clients_of, input_of};
use crate::{Misread, word};
use clap::ArgMatches;
use std::alloc::Global;

/// The clients and the lines that the arguments of `trace` ask for.
pub(crate) fn trace_of<'a>(
    alloc: Global,
    arguments: &ArgMatches<'a>,
) -> Result<Trace<'a>, Misread> {
    Ok(Trace {
        image: word(arguments, "FILE"),
        clients: clients_of(alloc, arguments)?,
        input: input_of(arguments),
        steps: steps_of(alloc, arguments.get_str("step"))?,
        only: arguments.get_str("only"),
        last: arguments.get_one("last"),
        marks_changes: arguments.get_flag("changes"),
    })
}

/// The steps that `--step` asks for: all if it is left out.
fn steps_of(alloc: Global, range: Option<&str>) -> Result<Steps, Misread> {
    let Some(range) = range else {
        return Ok(Steps::ALL);
    };
    match Steps::parse(range) {
        Some(steps) => Ok(steps),
        None => Err(Misread::Words(format!(in alloc;
            "error: invalid value '{range}' for '--step <A..B>': a step is wanted, or two with `..` between them\n\n\
For more information, try '--help'.\n"
        )?)),
    }
}

impl Steps {
    const ALL: Steps = Steps {
        first: 0,
        last: u64::MAX,
    };

    /// The steps that `A..B`, `A..`, `..B` or `A` means.
    fn parse(range: &str) -> Option<Steps> {
        match range.split_once("..") {
            Some((first, last)) => Some(Steps {
                first: step(first, Steps::ALL.first)?,
                last: step(last, Steps::ALL.last)?,
            }),
            None => {
                let only = range.parse().ok()?;
                Some(Steps {
                    first: only,
                    last: only,
                })
            }
        }
    }
}

/// The step that a word means, or one for no word.
fn step(word: &str, default: u64) -> Option<u64> {
    if word.is_empty() {
        return Some(default);
    }
    word.parse().ok()
}
