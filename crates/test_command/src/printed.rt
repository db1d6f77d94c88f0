//! What a command prints.

use cli_commands::command;
use cli_host::Silent;
use lezgauri::Through;
use std::alloc::Global;
use std::str;
use support_data::{Limited, Stored};

/// The outputs of a command, and its status.
#[derive(Drop)]
pub(crate) struct Printed {
    pub(crate) status: u8,
    pub(crate) out: Vec<u8>,
    pub(crate) err: Vec<u8>,
}

/// How much an output takes.
#[derive(Clone, Copy)]
pub(crate) struct Taken {
    pub(crate) at_a_time: usize,
    pub(crate) in_all: usize,
}

/// An output without limits.
pub(crate) const ALL: Taken = Taken {
    at_a_time: usize::MAX,
    in_all: usize::MAX,
};

impl Printed {
    /// Runs a command line with an output that takes this much.
    pub(crate) fn by(alloc: Global, words: &[&str], files: &mut Stored, taken: Taken) -> Printed {
        let mut out = Through::new(Limited::new(alloc, taken.at_a_time, taken.in_all));
        let mut err = Through::new(Limited::unlimited(alloc));
        let status = command(alloc, words, files, &mut out, &mut err, &Silent);
        Printed {
            status,
            out: out.into_inner().bytes,
            err: err.into_inner().bytes,
        }
    }

    /// Whether the status is this one, and the outputs are these lines. After a line `---` come the lines of the error output; without
    /// one, all lines are of the error output if the command fails. The status `>` allows any output, and the status 2 without lines
    /// any error output.
    pub(crate) fn is(&self, status: &str, lines: &str) -> bool {
        let (out, err) = (self.out.as_slice(), self.err.as_slice());
        match status {
            ">" => self.status == 0 && err.is_empty(),
            "2" if lines.is_empty() => self.status == 2 && out.is_empty() && !err.is_empty(),
            _ => {
                let status = status.parse().unwrap_or(0);
                let (wanted, wanted_err) = match lines.split_once("---\n") {
                    Some(parts) => parts,
                    None if status == 0 => (lines, ""),
                    None => ("", lines),
                };
                self.status == status && is_lines(out, wanted) && is_lines(err, wanted_err)
            }
        }
    }

    /// Whether the command failed with this line.
    pub(crate) fn is_fault(&self, line: &str) -> bool {
        self.status == 1 && self.err.as_slice().strip_suffix(b"\n") == Some(line.as_bytes())
    }

    /// The lines of the error output after the first.
    pub(crate) fn explanation(&self) -> &str {
        let told = str::from_utf8(self.err.as_slice()).unwrap_or("no text");
        told.split_once('\n').map_or("", |parts| parts.1)
    }

    /// The output, or the error output of a command that failed.
    pub(crate) fn shown(&self) -> &str {
        let text = if self.status == 0 {
            &self.out
        } else {
            &self.err
        };
        str::from_utf8(text.as_slice()).unwrap_or("no text")
    }
}

/// Whether a text consists of these lines. If the last line ends in a backslash, the text has no line end there.
fn is_lines(text: &[u8], lines: &str) -> bool {
    let lines = lines.strip_suffix("\\\n").unwrap_or(lines);
    text == lines.as_bytes()
}
