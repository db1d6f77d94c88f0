use crate::line::{Argument, Takes, number, word};
use clap::ArgMatches;
use std::alloc::{AllocError, Global};

/// Clients to run one after the other on an image, in a region of `room` bytes. If `room` is `None`, the region is just large
/// enough for the image at its base.
#[derive(Drop)]
pub struct Run<'a> {
    pub image: &'a str,
    pub out: &'a str,
    pub clients: Vec<&'a str>,
    pub input: Option<&'a str>,
    pub base: u32,
    pub room: Option<u32>,
    /// Whether `out` is overwritten even if it isn't an image.
    pub forced: bool,
    /// Whether `out` stays as it is if the clients' output fails.
    pub keeps_on_failure: bool,
}

/// The end of the name of a program's file.
const PROGRAM: &[u8] = b".lez";

/// The end of the name of an assembler text's file.
const TEXT: &[u8] = b".text";

/// Whether the file with this name is a program, in place of a client.
pub fn is_program(name: &str) -> bool {
    name.as_bytes().ends_with(PROGRAM)
}

/// Whether the file with this name is an assembler text, in place of a client. It may contain a client all the same.
pub fn is_text(name: &str) -> bool {
    name.as_bytes().ends_with(TEXT)
}

/// Whether one of the files with these names is a program or a text.
pub fn has_source(names: &[&str]) -> bool {
    for name in names {
        if is_program(name) || is_text(name) {
            return true;
        }
    }
    false
}

/// The clients that run.
pub const CLIENTS: Argument = Argument {
    id: "CLIENT",
    takes: Takes::Words,
    help: "The files of the clients, programs (.lez) or assembler texts (.text), which run one after the other",
};

/// The file that a client reads.
pub const INPUT: Argument = Argument {
    id: "input",
    takes: Takes::File,
    help: "The file that the clients read, byte by byte; - is the standard input [default: empty]",
};

/// Allows overwriting a file that isn't an image.
pub const FORCE: Argument = Argument {
    id: "force",
    takes: Takes::Flag,
    help: "Overwrite a file even if it isn't an image",
};

/// Keeps a file unless the whole run succeeds.
const KEEP_ON_FAILURE: Argument = Argument {
    id: "keep-on-failure",
    takes: Takes::Flag,
    help: "If the output fails, leave OUT as it is",
};

/// The arguments of a run.
pub const RUN: [Argument; 8] = [
    Argument {
        id: "IMAGE",
        takes: Takes::Word,
        help: "The file of the image",
    },
    Argument {
        id: "OUT",
        takes: Takes::Word,
        help: "The file to which the saved image is written",
    },
    CLIENTS,
    Argument {
        id: "base",
        takes: Takes::Number,
        help: "The position of the segment in the host's region, a multiple of 16 [default: 0]",
    },
    Argument {
        id: "room",
        takes: Takes::Number,
        help: "The size of the host's region in bytes [default: as much as the segment needs]",
    },
    INPUT,
    FORCE,
    KEEP_ON_FAILURE,
];

/// The run in a command line with the arguments [`RUN`].
pub fn run_of<'a>(alloc: Global, arguments: &ArgMatches<'a>) -> Result<Run<'a>, AllocError> {
    Ok(Run {
        image: word(arguments, "IMAGE"),
        out: word(arguments, "OUT"),
        clients: clients_of(alloc, arguments)?,
        input: input_of(arguments),
        base: number(arguments, "base"),
        room: arguments.get_one("room"),
        forced: arguments.get_flag("force"),
        keeps_on_failure: arguments.get_flag("keep-on-failure"),
    })
}

/// The file of the argument [`INPUT`].
pub(crate) fn input_of<'a>(arguments: &ArgMatches<'a>) -> Option<&'a str> {
    match arguments.get_str("input") {
        Some("-") => Some("/dev/stdin"),
        named => named,
    }
}

/// The files of the argument [`CLIENTS`].
pub(crate) fn clients_of<'a>(
    alloc: Global,
    arguments: &ArgMatches<'a>,
) -> Result<Vec<&'a str>, AllocError> {
    Vec::from_slice(alloc, arguments.get_strs("CLIENT").unwrap_or(&[]))
}
