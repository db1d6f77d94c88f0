//! Explanations of failures in words.

use crate::failure::Failure;
use crate::problems::told;
use cli_host::{ImageTask, Request};
use std::alloc::{AllocError, Global};

impl Failure<'_> {
    /// What went wrong and what helps, in words. Empty if the message has the words already, and for a refusal by the library,
    /// whose explanation needs the command's files.
    pub fn explanation(&self, alloc: Global, request: &Request) -> Result<String, AllocError> {
        match self {
            Failure::Absent(path) if is_about_a_value(request) => format!(in alloc;
                "no value of the image has the path `{path}`: a name, or `unique tT`, and steps: [N] is an item or a key, .N a field, \
.content the object of an own; `segtool show` prints all values\n"
            ),
            Failure::Absent(name) => format!(in alloc;
                "no object of the image has the name `{name}`; `segtool list` prints those that it has\n"
            ),
            Failure::Full(name) => format!(in alloc;
                "no free block of the segment is large enough for `{name}`, and nothing was written; `segtool grow` adds memory\n"
            ),
            Failure::File(name, problem) => told(alloc, name, *problem),
            Failure::Output => failed_output(alloc, request),
            Failure::Words(_) | Failure::Program(_) | Failure::Refused(_) => Ok(String::new(alloc)),
        }
    }
}

/// Whether a command works on one value of an image.
fn is_about_a_value(request: &Request) -> bool {
    matches!(
        request,
        Request::Image {
            task: ImageTask::Get { .. } | ImageTask::Set { .. } | ImageTask::Delete { .. },
            ..
        }
    )
}

/// What a failed output means for a command.
fn failed_output(alloc: Global, request: &Request) -> Result<String, AllocError> {
    match request {
        Request::Run(run) | Request::RunSources(run) if run.keeps_on_failure => {
            let out = run.out;
            format!(in alloc;
                "the output couldn't be written, and the run ended there; `{out}` is unchanged\n"
            )
        }
        _ => String::from_str(alloc, saved_anyway(request)),
    }
}

/// What a failed output means for a command that saves what it made all the same.
fn saved_anyway(request: &Request) -> &'static str {
    match request {
        Request::Run(_) | Request::RunSources(_) => {
            "the output couldn't be written, and the run ended there; the image as it was then was saved, unless its file failed too\n"
        }
        Request::Image {
            task: ImageTask::Grow { .. } | ImageTask::Shrink | ImageTask::Upgrade,
            ..
        } => "the output couldn't be written; the image was saved, unless its file failed too\n",
        Request::New(_)
        | Request::Image { .. }
        | Request::Compare { .. }
        | Request::Load(_)
        | Request::Verify { .. }
        | Request::Trace(_)
        | Request::Assemble(_)
        | Request::Compile(_)
        | Request::Print { .. }
        | Request::Help(_) => "the output couldn't be written\n",
    }
}
