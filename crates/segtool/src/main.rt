//! The program `segtool`: makes, checks and shows images of managed segments, and runs clients on them. This file connects the
//! commands to the host's arguments, files and outputs.
#![tactic(auto)]

use cli_commands::command;
use cli_host::{HostFiles, Progress};
use cli_program::{Coloured, Through, Watched, is_dumb, refuse, wants_colours, words};
use std::io::IsTerminal;
use std::process::ExitCode;

fn main(rt: HostRuntime) -> ExitCode {
    let stderr = rt.stderr();
    let is_terminal = stderr.is_terminal();
    let progress = Progress::new(&rt, is_terminal && !is_dumb(&rt));
    let mut out = Watched::new(Through::new(rt.stdout()), &progress);
    let reports = Coloured::new(rt.alloc(), stderr, is_terminal && wants_colours(&rt));
    let mut err = Watched::new(Through::new(reports), &progress);
    let mut files = HostFiles::new(&rt, &progress);
    let status = match words(&rt) {
        Ok(words) => command(
            rt.alloc(),
            words.as_slice(),
            &mut files,
            &mut out,
            &mut err,
            &progress,
        ),
        Err(error) => refuse(&error, &mut err),
    };
    progress.clear();
    ExitCode::from(status)
}
