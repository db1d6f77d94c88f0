//! Explanations of why a file can't be read or written.

use cli_host::{FileProblem, Format};
use std::alloc::{AllocError, Global};

/// Why a file can't be read or written, and what would be right, in words.
pub(crate) fn told(alloc: Global, name: &str, problem: FileProblem) -> Result<String, AllocError> {
    match problem {
        FileProblem::TooLong { limit } => format!(in alloc;
            "`{name}` has more than {limit} bytes; an image may have 2^30 bytes, and a client, a text or the input 2^20\n"
        ),
        FileProblem::OtherFormat(format) => {
            let wanted = noun_of(format);
            let magic = format.magic();
            format!(in alloc;
                "`{name}` isn't empty and isn't {wanted}, which begins with `{magic}`, so nothing was written over it; \
                 name another file, or add --force\n"
            )
        }
        plain => {
            let words = plain_words(plain);
            format!(in alloc; "`{name}` {words}\n")
        }
    }
}

/// The noun for a file of a format.
fn noun_of(format: Format) -> &'static str {
    match format {
        Format::Image => "an image",
        Format::Client => "a client",
        Format::Picture => "an SVG picture",
    }
}

/// The words after the file's name, for a problem without numbers.
fn plain_words(problem: FileProblem) -> &'static str {
    match problem {
        FileProblem::Missing => "doesn't exist, or is a link to a file that doesn't exist",
        FileProblem::NoFolder => {
            "can't be made: its folder doesn't exist, or it is a link to a file that doesn't exist"
        }
        FileProblem::Folder => "is a folder, and should be a file",
        FileProblem::Unreadable => {
            "may not be read: its permissions or those of its folders don't allow it"
        }
        FileProblem::Unwritable => {
            "may not be written: its folder should allow reading and writing, since a new file is made there and renamed; \
a device or a pipe should allow writing"
        }
        FileProblem::NoSpace => {
            "couldn't be written whole: the disk is full, or a limit on the size of files is reached"
        }
        FileProblem::System => {
            "couldn't be read or written: the system failed for a rare reason, such as a broken disk or links in a circle"
        }
        FileProblem::Input => {
            "is a file that the command reads, under this name or another, so it wasn't written; name another file"
        }
        FileProblem::TooLong { .. } | FileProblem::OtherFormat(_) => "",
    }
}
