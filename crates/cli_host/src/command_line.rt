use crate::{Argument, CLIENTS, CommandRow, FORCE, INPUT, RUN, Takes, parser, parser_of};
use clap::Command;
use std::alloc::{AllocError, Global};

/// The version of Lezgauri, then the versions of files that it reads. `Makefile` takes the first word from here.
const VERSION: &str = "0.1.0 (image versions 1 and 2, client versions 1 and 2)";

/// The argument that all commands have.
static EXPLAIN: Argument = Argument {
    id: "explain",
    takes: Takes::Flag,
    help: "After a failure, also print what is wrong, where, and what would be right",
};

const IMAGE: Argument = Argument {
    id: "FILE",
    takes: Takes::Word,
    help: "The file of the image",
};

const CLIENT: Argument = Argument {
    id: "CLIENT",
    takes: Takes::Word,
    help: "The file of the client",
};

const CLIENT_OR_SOURCE: Argument = Argument {
    id: "CLIENT",
    takes: Takes::Word,
    help: "The file of the client, of a program (.lez) or of an assembler text (.text)",
};

const JSON: Argument = Argument {
    id: "json",
    takes: Takes::Flag,
    help: "Print all of it as JSON",
};

const IMAGE_AS_JSON: [Argument; 2] = [IMAGE, JSON];

const NEW: [Argument; 5] = [
    Argument {
        id: "FILE",
        takes: Takes::Word,
        help: "The file to which the image is written",
    },
    Argument {
        id: "SIZE",
        takes: Takes::Bytes,
        help: "The size of the segment in bytes, a multiple of 16 from 736 to 2^30",
    },
    Argument {
        id: "ALG",
        takes: Takes::OneOf(&["seq", "best"]),
        help: "The allocator: sequential fit or best fit",
    },
    Argument {
        id: "INDEX",
        takes: Takes::OneOf(&["flat", "tree"]),
        help: "The index of names: a sorted buffer (flat) or a red-black tree (tree)",
    },
    FORCE,
];

const TRACE: [Argument; 7] = [
    IMAGE,
    CLIENTS,
    INPUT,
    Argument {
        id: "step",
        takes: Takes::Text("A..B"),
        help: "Print only the steps of each client from A to B, both included; also A.., ..B or A",
    },
    Argument {
        id: "only",
        takes: Takes::Text("NAME"),
        help: "Print only the steps that find, read or change the object with this name, or a register with this variable of a program",
    },
    Argument {
        id: "last",
        takes: Takes::Number,
        help: "Print only the last N lines",
    },
    Argument {
        id: "changes",
        takes: Takes::Flag,
        help: "Mark with an asterisk the register that a step sets, and the reference through which it changes a value",
    },
];

const STAT: [Argument; 3] = [
    IMAGE,
    JSON,
    Argument {
        id: "all",
        takes: Takes::Flag,
        help: "Also print the version, the allocator, the index, the number of types and blocks, and fragmentation",
    },
];

const LIST: [Argument; 3] = [
    IMAGE,
    JSON,
    Argument {
        id: "types",
        takes: Takes::Flag,
        help: "Also print each object's type in words",
    },
];

const SHOW: [Argument; 5] = [
    IMAGE,
    JSON,
    Argument {
        id: "NAME",
        takes: Takes::Optional,
        help: "The name of an object, or a pattern of names with * and ? [default: all objects]",
    },
    Argument {
        id: "all",
        takes: Takes::Flag,
        help: "Print long texts, long containers and deeply nested values in full",
    },
    Argument {
        id: "types",
        takes: Takes::Flag,
        help: "Print each object's type after its name, in words",
    },
];

const PATH: Argument = Argument {
    id: "PATH",
    takes: Takes::Word,
    help: "The path of a value: an object's name and steps, such as users[3].0",
};

const GET: [Argument; 2] = [IMAGE, PATH];

const SET: [Argument; 3] = [
    IMAGE,
    PATH,
    Argument {
        id: "VALUE",
        takes: Takes::Value,
        help: "A number, or the bytes of a text, in which two hexadecimal digits follow each backslash",
    },
];

const DELETE: [Argument; 2] = [
    IMAGE,
    Argument {
        id: "PATH",
        takes: Takes::Word,
        help: "The name of an object, or the path of a key in a map, such as prices[7]",
    },
];

const LOAD: [Argument; 3] = [
    Argument {
        id: "TEXT",
        takes: Takes::Word,
        help: "The file of the text that dump printed",
    },
    Argument {
        id: "FILE",
        takes: Takes::Word,
        help: "The file to which the image is written",
    },
    FORCE,
];

const COMPARE: [Argument; 2] = [
    IMAGE,
    Argument {
        id: "OTHER",
        takes: Takes::Word,
        help: "The file of the image to compare it with",
    },
];

const MAP: [Argument; 4] = [
    IMAGE,
    JSON,
    Argument {
        id: "svg",
        takes: Takes::File,
        help: "Write a picture to this file instead of printing",
    },
    Argument {
        id: "force",
        takes: Takes::Flag,
        help: "Overwrite a file even if it isn't an SVG picture",
    },
];

const GROW: [Argument; 2] = [
    IMAGE,
    Argument {
        id: "EXTRA",
        takes: Takes::Bytes,
        help: "How many bytes to add, a multiple of 16",
    },
];

const ASSEMBLE: [Argument; 3] = [
    Argument {
        id: "TEXT",
        takes: Takes::Word,
        help: "The file of the client's text",
    },
    Argument {
        id: "OUT",
        takes: Takes::Word,
        help: "The file to which the client is written",
    },
    Argument {
        id: "force",
        takes: Takes::Flag,
        help: "Overwrite a file even if it isn't a client",
    },
];

const COMPILE: [Argument; 4] = [
    Argument {
        id: "PROGRAM",
        takes: Takes::Word,
        help: "The file of the program",
    },
    Argument {
        id: "OUT",
        takes: Takes::Word,
        help: "The file to which the client is written",
    },
    Argument {
        id: "on",
        takes: Takes::File,
        help: "The image whose types the client uses by number [default: a new image]",
    },
    Argument {
        id: "force",
        takes: Takes::Flag,
        help: "Overwrite a file even if it isn't a client",
    },
];

// Each table is read by a function of its own: one table of all commands is more than the prover gets through.

/// The commands that make, check and run. The help text has the tables in the order of this file.
static RUNNING: &[CommandRow] = &[
    CommandRow {
        name: "new",
        about: "Makes the image of an empty segment",
        arguments: &NEW,
        examples: "Example:\n  segtool new shop.image 65536 best tree",
    },
    CommandRow {
        name: "check",
        about: "Prints ok if a file is a sound image, otherwise its first fault",
        arguments: &IMAGE_AS_JSON,
        examples: "Examples:\n  segtool check shop.image\n  segtool check damaged.image --explain",
    },
    CommandRow {
        name: "verify",
        about: "Checks a client and prints the most steps that it can take on an image",
        arguments: &[IMAGE, CLIENT_OR_SOURCE],
        examples: "Examples:\n  segtool verify shop.image stock.client\n  segtool verify shop.image stock.client --explain\n  segtool verify shop.image bytes.lez --explain\n\nOf a program or a text, --explain prints the steps of each line.",
    },
    CommandRow {
        name: "run",
        about: "Runs clients on an image, prints their output and saves the image",
        arguments: &RUN,
        examples: "Examples:\n  segtool run shop.image shop.image stock.client\n  segtool run shop.image saved.image stock.client sell.client --input orders.txt\n  segtool run shop.image shop.image bytes.lez\n\nOUT may be IMAGE, but not a client or the input. A client, and the input, have at most 2^20 bytes.\nIf the output fails (status 3), the run ends there, and the image as it is then is still written to OUT, unless --keep-on-failure is given.",
    },
    CommandRow {
        name: "trace",
        about: "Runs clients, prints each step with the registers after it, and saves nothing",
        arguments: &TRACE,
        examples: "Examples:\n  segtool trace shop.image stock.client\n  segtool trace shop.image sell.client --input orders.txt\n  segtool trace shop.image stock.client sell.client --only prices --changes\n  segtool trace shop.image bytes.lez --step 100..120\n\nOf several clients each line begins with the client's number, from 0.",
    },
];

/// The commands on what a segment contains.
static CONTENT: &[CommandRow] = &[
    CommandRow {
        name: "stat",
        about: "Prints the size of a segment, its free memory, and how many objects it has",
        arguments: &STAT,
        examples: "Example:\n  segtool stat shop.image",
    },
    CommandRow {
        name: "list",
        about: "Prints the name, type number and number of values of each object, then the types of unique objects",
        arguments: &LIST,
        examples: "Examples:\n  segtool list shop.image\n  segtool list shop.image --types",
    },
    CommandRow {
        name: "types",
        about: "Prints the types of a segment, as the lines that begin a client's text",
        arguments: &IMAGE_AS_JSON,
        examples: "Example:\n  segtool types shop.image",
    },
    CommandRow {
        name: "show",
        about: "Prints the objects of a segment with their values",
        arguments: &SHOW,
        examples: "Examples:\n  segtool show shop.image\n  segtool show shop.image prices --all\n  segtool show shop.image 'user#*' --types",
    },
    CommandRow {
        name: "get",
        about: "Prints the value of a path: a number, a text, or lines as those of show",
        arguments: &GET,
        examples: "Examples:\n  segtool get shop.image visits\n  segtool get shop.image 'users[3].0'\n\n[N] is an item of a vector or a list, the value of a key, or one of an object's values;\n.N is a field of a struct; .content is the object of an own or of a shared cell.",
    },
    CommandRow {
        name: "set",
        about: "Sets the number or the text of a path, and rewrites the file",
        arguments: &SET,
        examples: "Examples:\n  segtool set shop.image visits 0\n  segtool set shop.image 'prices[7]' -12\n  segtool set shop.image greeting 'good morning'\n\nA missing key is added, and an item if the index is the number of items.",
    },
    CommandRow {
        name: "del",
        about: "Deletes an object, or a key of a map, and rewrites the file",
        arguments: &DELETE,
        examples: "Examples:\n  segtool del shop.image visits\n  segtool del shop.image 'prices[7]'",
    },
    CommandRow {
        name: "dump",
        about: "Prints the whole content of a segment as a text that people can read and edit",
        arguments: &[IMAGE],
        examples: "Example:\n  segtool dump shop.image > shop.dump",
    },
    CommandRow {
        name: "load",
        about: "Makes the image of a segment with the content of a text that dump printed",
        arguments: &LOAD,
        examples: "Example:\n  segtool load shop.dump shop.image\n\nThe first line has the size; a segment in which the content doesn't fit is made larger.",
    },
    CommandRow {
        name: "diff",
        about: "Prints the values in which two images differ, by their paths",
        arguments: &COMPARE,
        examples: "Example:\n  segtool diff shop.image saved.image\n\nLines with - are values of FILE, lines with + values of OTHER. Without differences nothing is printed.",
    },
];

/// The commands on a heap and on client files.
static HEAP_AND_CLIENTS: &[CommandRow] = &[
    CommandRow {
        name: "map",
        about: "Prints each block of the heap: its position, its size in units of 16 bytes, its use and its object",
        arguments: &MAP,
        examples: "Examples:\n  segtool map shop.image\n  segtool map shop.image --svg heap.svg",
    },
    CommandRow {
        name: "grow",
        about: "Adds free memory at the end of a segment, rewrites the file and prints the new size",
        arguments: &GROW,
        examples: "Example:\n  segtool grow shop.image 4096\n\nIf the output fails (status 3), the file is still rewritten.",
    },
    CommandRow {
        name: "shrink",
        about: "Removes the free memory at the end of a segment, rewrites the file and prints the new size",
        arguments: &[IMAGE],
        examples: "Example:\n  segtool shrink shop.image\n\nIf the output fails (status 3), the file is still rewritten.",
    },
    CommandRow {
        name: "upgrade",
        about: "Rewrites an image as version 2 and prints the version",
        arguments: &[IMAGE],
        examples: "Example:\n  segtool upgrade shop.image\n\nIf the output fails (status 3), the file is still rewritten.",
    },
    CommandRow {
        name: "asm",
        about: "Assembles the text of a client to a client file",
        arguments: &ASSEMBLE,
        examples: "Example:\n  segtool asm stock.text stock.client",
    },
    CommandRow {
        name: "compile",
        about: "Compiles a program to a client file, or prints its errors",
        arguments: &COMPILE,
        examples: "Examples:\n  segtool compile bytes.lez bytes.client --on shop.image\n  segtool compile bytes.lez bytes.client",
    },
    CommandRow {
        name: "print",
        about: "Prints the text of a client file",
        arguments: &[CLIENT],
        examples: "Example:\n  segtool print stock.client",
    },
];

/// The end of each help text.
const STATUSES: &str =
    "Exit status: 0 success; 1 a fault, an absent name, or a program's errors; 2 a wrong command line; 3 a file or the output failed.\n\
Each command takes --explain, which explains its failure.";

/// The parser of `segtool`'s command line.
pub fn command_line<'a>(alloc: Global) -> Result<Command<'a>, AllocError> {
    let mut commands = Vec::new(alloc);
    add_commands(alloc, &mut commands, running())?;
    add_commands(alloc, &mut commands, content())?;
    add_commands(alloc, &mut commands, heap_and_clients())?;
    program(alloc).subcommands(commands)
}

fn program<'a>(alloc: Global) -> Command<'a> {
    Command::new(alloc, "segtool")
        .version(VERSION)
        .about("Checks images of managed segments, and runs verified clients on them")
        .after_help(STATUSES)
        .subcommand_required(true)
        .arg_required_else_help(true)
}

/// Adds the commands of a table.
fn add_commands<'a>(
    alloc: Global,
    commands: &mut Vec<Command<'a>>,
    table: &'static [CommandRow],
) -> Result<(), AllocError> {
    for line in table {
        commands.push(command(alloc, line)?)?;
    }
    Ok(())
}

fn running() -> &'static [CommandRow] {
    RUNNING
}

fn content() -> &'static [CommandRow] {
    CONTENT
}

fn heap_and_clients() -> &'static [CommandRow] {
    HEAP_AND_CLIENTS
}

fn command<'a>(alloc: Global, line: &'static CommandRow) -> Result<Command<'a>, AllocError> {
    parser(alloc, line)?.arg(parser_of(alloc, &EXPLAIN))
}
