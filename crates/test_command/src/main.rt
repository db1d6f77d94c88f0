//! The program `test_command` plays cases: commands of `segtool` on files in memory, with what they have to print. The arguments
//! are a file of texts and the files of cases, which are in `data/`. It prints how many cases it played.
#![tactic(auto)]

mod cases;
mod player;
mod printed;
mod programs;

use crate::cases::{Case, MARK, Turn};
use crate::player::Player;
use cli_host::{Files, HostFiles, Progress};
use std::process::{ExitCode, Termination};
use std::test::Fail;
use std::{env, str};

/// The most bytes of a file of cases.
const LIMIT: u64 = 1 << 20;

fn main(rt: HostRuntime) -> Result<ExitCode, Fail> {
    let words: Vec<String> = env::args(&rt)?.collect(rt.alloc())?;
    let [_, texts, files @ ..] = words.as_slice() else {
        return Err(Fail::new("the arguments are a file of texts and files of cases"));
    };
    let texts = read(&rt, texts)?;
    let texts = str::from_utf8(texts.as_slice())?;
    let mut all = Count::default();
    for file in files {
        play_file(&rt, texts, file, &mut all)?;
    }
    let Count { played, failed } = all;
    if failed > 0 {
        println!(rt; "{failed} of {played} cases failed")?;
        return Ok(ExitCode::FAILURE);
    }
    println!(rt; "{played} cases")?;
    Ok(ExitCode::SUCCESS)
}

/// How many cases were played, and how many of them failed.
#[derive(Default, Drop)]
struct Count {
    played: u32,
    failed: u32,
}

fn read(rt: &HostRuntime, name: &String) -> Result<Vec<u8>, Fail> {
    let silent = Progress::new(rt, false);
    match HostFiles::new(rt, &silent).read(rt.alloc(), name.as_str(), LIMIT) {
        Ok(bytes) => Ok(bytes),
        Err(_) => Err(Fail::new(format_args!("{name} can't be read"))),
    }
}

/// Plays the cases of a file, and tells which of them fail, and why.
fn play_file(rt: &HostRuntime, texts: &str, name: &String, count: &mut Count) -> Result<(), Fail> {
    let bytes = read(rt, name)?;
    let mut parts = str::from_utf8(bytes.as_slice())?.split(MARK);
    let first = parts.next().unwrap_or("");
    for part in parts {
        let case = Case::of(part);
        let played = play(rt, texts, first, case);
        if played.is_err() {
            let _ = println!(rt; "{name}: {}", case.title);
            count.failed = count.failed.saturating_add(1);
        }
        let _ = played.report(rt);
        count.played = count.played.saturating_add(1);
    }
    Ok(())
}

/// Plays a case after the first statements of its file, each time on new files.
fn play<'a>(rt: &HostRuntime, texts: &'a str, first: &'a str, case: Case<'a>) -> Result<(), Fail> {
    for number in 0..case.turns() {
        let mut player = Player::new(rt.alloc(), texts, Turn::of(number));
        player.follow(first)?;
        player.follow(case.text)?;
    }
    Ok(())
}
