ghost use Rattle.std.specs.Prelude.{◌≡◌, ◌<◌, ◌≤◌, None};
ghost use Rattle.cli_program.specs.declared.failure.Failure.TheVariants as failure;
ghost use Rattle.cli_program.specs.Failures.{out_of_memory, failure_of};

use cli_host::{FileFailure, FileProblem, Misread};
use client_vm::{Fault, Refused};
use std::alloc::{AllocError, Global};

/// Why a command failed.
#[derive(Drop)]
pub enum Failure<'a> {
    /// The command line is wrong, for this reason.
    Words(String),
    /// A program has these errors, in lines.
    Program(String),
    /// The image has no object with this name, or no value with this path.
    Absent(&'a str),
    /// No free block of the segment is large enough for what has this name.
    Full(&'a str),
    /// The library refused the image, a client or an argument.
    Refused(Refused),
    /// The file with this name can't be read or written, for this reason.
    File(&'a str, FileProblem),
    /// The standard output failed.
    Output,
}

impl Failure<'_> {
    /// The exit status of the program.
    pub fn status(&self) -> u8
        ensures { (0 < result) × (result ≤ 3) }
    {
        match self {
            Failure::Refused(_) | Failure::Absent(_) | Failure::Full(_) | Failure::Program(_) => 1,
            Failure::Words(_) => 2,
            Failure::File(_, _) | Failure::Output => 3,
        }
    }

    /// The message for the error output: one line, or several for a wrong command line or program.
    pub fn line(&self, alloc: Global) -> Result<String, AllocError> {
        match self {
            Failure::Words(text) | Failure::Program(text) => format!(in alloc; "{text}"),
            Failure::Absent(name) => format!(in alloc; "absent {name}\n"),
            Failure::Full(name) => format!(in alloc; "full {name}\n"),
            Failure::Refused(refused) => format!(in alloc; "{refused}\n"),
            Failure::File(name, _) => format!(in alloc; "file {name}\n"),
            Failure::Output => String::from_str(alloc, "file -\n"),
        }
    }
}

impl From<Refused> for Failure<'_> {
    ghost from_gives = { λ refused made. made ≡ failure.Refused refused };

    fn from(refused: Refused) -> Self {
        Failure::Refused(refused)
    }
}

impl From<Fault> for Failure<'_> {
    ghost from_gives = { λ fault made. made ≡ failure.Refused (record { client = None; fault = fault }) };

    fn from(fault: Fault) -> Self {
        Failure::Refused(Refused::from(fault))
    }
}

impl From<AllocError> for Failure<'_> {
    ghost from_gives = { λ _ made. made ≡ failure.Refused out_of_memory };

    fn from(_: AllocError) -> Self {
        Failure::from(Fault::Memory)
    }
}

impl<'a> From<FileFailure<'a>> for Failure<'a> {
    ghost from_gives = { λ failed made. made ≡ failure_of failed };

    fn from(failure: FileFailure<'a>) -> Self {
        match failure {
            FileFailure::Memory => Failure::from(Fault::Memory),
            FileFailure::File(name, problem) => Failure::File(name, problem),
        }
    }
}

impl From<Misread> for Failure<'_> {
    fn from(misread: Misread) -> Self {
        match misread {
            Misread::Memory => Failure::from(Fault::Memory),
            Misread::Words(text) => Failure::Words(text),
        }
    }
}
