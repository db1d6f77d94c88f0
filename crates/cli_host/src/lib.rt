//! What the program gets from its host: the command line, as the request that its arguments make, and files by their names.
#![tactic(auto)]

mod command_line;
mod files;
mod host;
mod line;
mod misread;
mod named;
mod overwriting;
mod problem;
mod progress;
mod reading;
mod request;
mod run;
mod tracing;

pub use cli_progress::{Pace, Silent, Watch, Work};
pub use files::{FileFault, Files};
pub use host::HostFiles;
pub use line::{Argument, CommandRow, Takes, number, parser, parser_of, word};
pub use misread::Misread;
pub use named::{FileFailure, read_file, read_files, read_image, write_file};
pub use overwriting::{is_same_file, refuse_input, refuse_other_format};
pub use problem::{FileProblem, Format};
pub use progress::Progress;
pub use reading::read;
pub use request::{
    Allocator, Asked, Assembly, Compilation, ImageTask, Index, JsonTask, Load, NewImage, Picture,
    Request, Steps, Trace,
};
pub use run::{CLIENTS, FORCE, INPUT, RUN, Run, has_source, is_program, is_text, run_of};
