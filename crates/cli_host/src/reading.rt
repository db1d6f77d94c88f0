use crate::command_line::command_line;
use crate::request::{
    Allocator, Asked, Assembly, Compilation, ImageTask, Index, JsonTask, Load, NewImage, Picture,
    Request,
};
use crate::tracing::trace_of;
use crate::{Misread, Run, has_source, number, run_of, word};
use clap::ArgMatches;
use std::alloc::Global;
use std::convert::AsStr;

/// The request of a command line of `segtool`, which begins with the program's name.
pub fn read<'a, S: AsStr>(alloc: Global, words: &'a [S]) -> Result<Asked<'a>, Misread> {
    match command_line(alloc)?.try_get_matches_from(words) {
        Ok(matches) => Ok(Asked {
            request: request_of(alloc, &matches)?,
            explained: is_explained(&matches),
        }),
        Err(error) if !error.use_stderr() => Ok(Asked {
            request: Request::Help(error.to_string(alloc)?),
            explained: false,
        }),
        Err(error) => Err(Misread::of(alloc, &error)),
    }
}

/// Whether failures of the command are explained in words.
fn is_explained(matches: &ArgMatches) -> bool {
    match matches.subcommand() {
        Some((_, arguments)) => arguments.get_flag("explain"),
        None => false,
    }
}

fn request_of<'a>(alloc: Global, matches: &ArgMatches<'a>) -> Result<Request<'a>, Misread> {
    match matches.subcommand() {
        Some(("run", arguments)) => Ok(run_request(run_of(alloc, arguments)?)),
        Some(("trace", arguments)) => Ok(Request::Trace(trace_of(alloc, arguments)?)),
        Some(("new", arguments)) => Ok(Request::New(new_of(arguments))),
        Some(("map", arguments)) => Ok(Request::Image {
            file: word(arguments, "FILE"),
            task: map_of(alloc, arguments)?,
        }),
        Some((command, arguments)) => match task_of(command, arguments) {
            Some(task) => Ok(Request::Image {
                file: word(arguments, "FILE"),
                task,
            }),
            None => Ok(client_request(alloc, command, arguments)),
        },
        // can't happen: the parser requires a command
        None => Ok(Request::Help(String::new(alloc))),
    }
}

/// The request to run clients. If some of them are programs or texts, it is another one.
fn run_request(run: Run<'_>) -> Request<'_> {
    if has_source(run.clients.as_slice()) {
        Request::RunSources(run)
    } else {
        Request::Run(run)
    }
}

/// The task of a command, if it is one on an image alone, but for `map`.
fn task_of<'a>(command: &str, arguments: &ArgMatches<'a>) -> Option<ImageTask<'a>> {
    match json_task_of(command, arguments) {
        Some(task) => Some(ImageTask::Json(task)),
        None => text_task_of(command, arguments),
    }
}

/// What a command prints as JSON, with `--json`.
fn json_task_of<'a>(command: &str, arguments: &ArgMatches<'a>) -> Option<JsonTask<'a>> {
    let task = match command {
        "check" => JsonTask::Check,
        "stat" => JsonTask::Stat,
        "list" => JsonTask::List,
        "types" => JsonTask::Types,
        "show" => JsonTask::Show {
            name: arguments.get_str("NAME"),
        },
        _ => return None,
    };
    if arguments.get_flag("json") {
        Some(task)
    } else {
        None
    }
}

/// The task of a command that prints no JSON, if it is one on an image alone, but for `map`.
fn text_task_of<'a>(command: &str, arguments: &ArgMatches<'a>) -> Option<ImageTask<'a>> {
    match command {
        "check" => Some(ImageTask::Check),
        "stat" => Some(ImageTask::Stat {
            all: arguments.get_flag("all"),
        }),
        "list" => Some(ImageTask::List {
            typed: arguments.get_flag("types"),
        }),
        "types" => Some(ImageTask::Types),
        "show" => Some(ImageTask::Show {
            name: arguments.get_str("NAME"),
            whole: arguments.get_flag("all"),
            typed: arguments.get_flag("types"),
        }),
        "dump" => Some(ImageTask::Dump),
        "get" => Some(ImageTask::Get {
            path: word(arguments, "PATH"),
        }),
        "set" => Some(ImageTask::Set {
            path: word(arguments, "PATH"),
            value: word(arguments, "VALUE"),
        }),
        "del" => Some(ImageTask::Delete {
            path: word(arguments, "PATH"),
        }),
        "grow" => Some(ImageTask::Grow {
            extra: number(arguments, "EXTRA"),
        }),
        "shrink" => Some(ImageTask::Shrink),
        "upgrade" => Some(ImageTask::Upgrade),
        _ => None,
    }
}

/// The task of `map`: lines, a picture or JSON.
fn map_of<'a>(alloc: Global, arguments: &ArgMatches<'a>) -> Result<ImageTask<'a>, Misread> {
    match (arguments.get_str("svg"), arguments.get_flag("json")) {
        (Some(_), true) => Err(Misread::Words(format!(in alloc;
            "error: the argument '--json' cannot be used with '--svg <FILE>'\n\n\
For more information, try '--help'.\n"
        )?)),
        (Some(file), false) => Ok(ImageTask::Picture(Picture {
            file,
            forced: arguments.get_flag("force"),
        })),
        (None, true) => Ok(ImageTask::Json(JsonTask::Map)),
        (None, false) => Ok(ImageTask::Map),
    }
}

/// The request of a command with several files.
fn client_request<'a>(alloc: Global, command: &str, arguments: &ArgMatches<'a>) -> Request<'a> {
    match command {
        "verify" => Request::Verify {
            image: word(arguments, "FILE"),
            client: word(arguments, "CLIENT"),
        },
        "diff" => Request::Compare {
            one: word(arguments, "FILE"),
            other: word(arguments, "OTHER"),
        },
        "load" => Request::Load(Load {
            text: word(arguments, "TEXT"),
            image: word(arguments, "FILE"),
            forced: arguments.get_flag("force"),
        }),
        "asm" => Request::Assemble(Assembly {
            text: word(arguments, "TEXT"),
            client: word(arguments, "OUT"),
            forced: arguments.get_flag("force"),
        }),
        "compile" => Request::Compile(Compilation {
            program: word(arguments, "PROGRAM"),
            client: word(arguments, "OUT"),
            image: arguments.get_str("on"),
            forced: arguments.get_flag("force"),
        }),
        "print" => Request::Print {
            client: word(arguments, "CLIENT"),
        },
        // can't happen: the parser has no other command
        _ => Request::Help(String::new(alloc)),
    }
}

fn new_of<'a>(arguments: &ArgMatches<'a>) -> NewImage<'a> {
    NewImage {
        file: word(arguments, "FILE"),
        size: number(arguments, "SIZE"),
        allocator: match word(arguments, "ALG") {
            "best" => Allocator::Best,
            _ => Allocator::Seq,
        },
        index: match word(arguments, "INDEX") {
            "tree" => Index::Tree,
            _ => Index::Flat,
        },
        forced: arguments.get_flag("force"),
    }
}
