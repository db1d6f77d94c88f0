//! Clients, their output and their effects, written as text. Each statement begins with `$`, and lines belong to the statement
//! above them:
//!
//!     $ client add                      the text of a client with the name `add`
//!     ...
//!     $ on 1024 add add; free 240       runs clients on a new segment of 1024 bytes; 240 bytes are free afterwards
//!     1                                 the lines that they must print; with `\` at its end a line has no line end
//!     2
//!     $ then add; named 1 largest 240   runs a client on the saved image
//!     3
//!     $ on 768 add reads AB             the input is AB
//!     $ on 1024 add takes 1             the output takes one byte, and then fails
//!     1\
//!     $ change 720=5                    changes the saved image (`support_data::change`)
//!     $ has 720=5 704->720              it has these numbers and pointers
//!
//! Long clients can be given beside the text, with their names. Clients run twice: on an image of their own, and with a move before
//! each of the first steps and an output that takes one byte at a time. Both runs must do the same, and the saved image must be
//! sound.

use client_vm::{Ended, Move};
use std::alloc::{AllocError, Global};
use std::str;
use std::test::Fail;
use support_data::{
    PLAIN, Ran, SegmentKind, Setting, Statistics, change, client, empty, is_true, outcome_in,
    outcome_of, statements, statistics_of,
};

/// A text of statements, which is performed on each of these kinds of segments. Each client has a name and a text.
pub(crate) struct Play {
    pub(crate) kinds: &'static [SegmentKind],
    pub(crate) clients: &'static [(&'static str, &'static str)],
    pub(crate) text: &'static str,
}

pub(crate) fn play_each(alloc: Global, plays: &'static [Play]) -> Result<(), Fail> {
    for play in plays {
        plays_with(alloc, play.kinds, play.clients, play.text)?;
    }
    Ok(())
}

/// Performs the statements of a text on each of these kinds of segments, with these clients.
pub(crate) fn plays_with(
    alloc: Global,
    kinds: &[SegmentKind],
    clients: &[(&str, &str)],
    text: &str,
) -> Result<(), Fail> {
    for kind in kinds {
        let mut stage = Stage::new(alloc, *kind);
        for (name, client) in clients {
            stage.add(*name, *client)?;
        }
        stage.follow(text)?;
    }
    Ok(())
}

/// The state of a text's statements on one kind of segment.
#[derive(Drop)]
struct Stage<'a> {
    alloc: Global,
    kind: SegmentKind,
    clients: Vec<(&'a str, Vec<u8>)>,
    image: Vec<u8>,
}

impl<'a> Stage<'a> {
    fn new(alloc: Global, kind: SegmentKind) -> Stage<'a> {
        Stage {
            alloc,
            kind,
            clients: Vec::new(alloc),
            image: Vec::new(alloc),
        }
    }

    fn follow(&mut self, text: &'a str) -> Result<(), Fail> {
        for it in statements(self.alloc, text)? {
            self.perform(it.words.trim(), it.lines)?;
        }
        Ok(())
    }

    fn perform(&mut self, statement: &'a str, lines: &str) -> Result<(), Fail> {
        let (verb, rest) = statement.split_once(' ').ok_or("no statement")?;
        match verb {
            "client" => self.add(rest, lines),
            "on" => self.run_anew(rest, lines),
            "then" => self.run(rest, lines),
            "change" => Ok(change(self.image.as_mut_slice(), rest).ok_or("no change")?),
            "has" => has(self.alloc, self.image.as_slice(), rest),
            _ => Err(Fail::from("no statement")),
        }
    }

    fn add(&mut self, name: &'a str, text: &str) -> Result<(), Fail> {
        self.clients.push((name, client(self.alloc, text)?))?;
        Ok(())
    }

    fn run_anew(&mut self, words: &str, lines: &str) -> Result<(), Fail> {
        let (size, words) = words.split_once(' ').ok_or("no size")?;
        self.image = empty(self.alloc, size.parse::<u32>()?, self.kind)?;
        self.run(words, lines)
    }

    /// Runs clients. They must print these lines.
    fn run(&mut self, words: &str, lines: &str) -> Result<(), Fail> {
        let (run, facts) = words.split_once(';').unwrap_or((words, ""));
        let (run, limit) = run.split_once(" takes ").unwrap_or((run, ""));
        let (names, input) = run.split_once(" reads ").unwrap_or((run, ""));
        let setting = Setting {
            input: input.as_bytes(),
            limit: limit_of(limit)?,
            ..PLAIN
        };
        let ran = self.outcome(names, setting)?;
        prints(&ran, setting.limit, words, lines)?;
        leaves(self.alloc, &ran, facts)?;
        self.image = ran.image;
        Ok(())
    }

    /// The outcome of clients, which is the same with moves.
    fn outcome(&self, names: &str, setting: Setting) -> Result<Ran, Fail> {
        let mut files = Vec::new(self.alloc);
        for name in names.split_whitespace() {
            files.push(self.file(name).ok_or("no such client")?)?;
        }
        run_twice(self.alloc, self.image.as_slice(), files.as_slice(), setting)
    }

    fn file(&self, name: &str) -> Option<&[u8]> {
        let client = self.clients.iter().find(|client| client.0 == name)?;
        Some(client.1.as_slice())
    }
}

/// How many bytes an output takes. No word is no limit.
fn limit_of(word: &str) -> Result<usize, Fail> {
    if word.is_empty() {
        Ok(usize::MAX)
    } else {
        Ok(word.parse::<usize>()?)
    }
}

/// The outcome of clients in the image's own memory, if it is the same with moves and an output that takes a byte at a time.
fn run_twice(
    alloc: Global,
    image: &[u8],
    clients: &[&[u8]],
    setting: Setting,
) -> Result<Ran, Fail> {
    let moves = moves(alloc)?;
    let moving = Setting {
        room: room_for(image),
        moves: moves.as_slice(),
        at_a_time: 1,
        ..setting
    };
    let moved = outcome_of(alloc, image, clients, moving)?;
    let ran = match outcome_in(alloc, Vec::from_slice(alloc, image)?, clients, setting) {
        Ok(ran) => ran,
        Err(unrun) => return Err(Fail::from(unrun.refused.fault)),
    };
    if are_alike(&ran, &moved) {
        Ok(ran)
    } else {
        Err(Fail::from("another outcome with moves"))
    }
}

/// The second place of an image, which is at 0 first.
const BASE: u32 = 272;

/// The length of a region that has both places.
fn room_for(image: &[u8]) -> u32 {
    u32::try_from(image.len()).unwrap_or(0).saturating_add(BASE)
}

/// A move before each of the first 200 steps, from one place to the other.
fn moves(alloc: Global) -> Result<Vec<Move>, AllocError> {
    let mut moves = Vec::new(alloc);
    for step in 1..=200 {
        let base = if step % 2 == 0 { 0 } else { BASE };
        moves.push(Move { step, base })?;
    }
    Ok(moves)
}

/// Whether two runs print, save and report the same.
fn are_alike(ran: &Ran, moved: &Ran) -> bool {
    ran.out.as_slice() == moved.out.as_slice()
        && ran.image.as_slice() == moved.image.as_slice()
        && ran.reports == moved.reports
}

/// Tests that a run printed exactly these lines, and ended at the limit of its output if that has one.
fn prints(ran: &Ran, limit: usize, words: &str, lines: &str) -> Result<(), Fail> {
    let has_failed = ran.ended == Ended::OutputFailed;
    if has_failed == (limit < usize::MAX) && is_printed(ran.out.as_slice(), lines) {
        return Ok(());
    }
    let printed = str::from_utf8(ran.out.as_slice()).unwrap_or("bytes");
    Err(Fail::new(format_args!("{words} printed {printed:?}")))
}

/// Whether exactly these lines were printed.
fn is_printed(printed: &[u8], lines: &str) -> bool {
    let mut rest = printed;
    for line in lines.trim_end().lines() {
        let line = line.trim_start();
        let after = match line.strip_suffix('\\') {
            Some(unended) => rest.strip_prefix(unended.as_bytes()),
            None => after_line(rest, line),
        };
        match after {
            Some(after) => rest = after,
            None => return false,
        }
    }
    rest.is_empty()
}

fn after_line<'p>(printed: &'p [u8], line: &str) -> Option<&'p [u8]> {
    printed.strip_prefix(line.as_bytes())?.strip_prefix(b"\n")
}

/// Tests that a run's image is sound, and these numbers of the run and its image. Each number comes after a word for what it counts.
fn leaves(alloc: Global, ran: &Ran, facts: &str) -> Result<(), Fail> {
    let left = statistics_of(alloc, ran.image.as_slice())?;
    let words: Vec<&str> = facts.split_whitespace().collect(alloc)?;
    for fact in words.as_slice().chunks(2) {
        let [what, wanted] = *fact else {
            return Err(Fail::from("a number is missing"));
        };
        let number = number(&left, ran, what).ok_or("no such number")?;
        if number != wanted.parse::<u64>()? {
            return Err(Fail::new(format_args!("{what} {number}")));
        }
    }
    Ok(())
}

fn number(left: &Statistics, ran: &Ran, what: &str) -> Option<u64> {
    match what {
        "free" => Some(u64::from(left.free)),
        "largest" => Some(u64::from(left.largest)),
        "named" => Some(u64::from(left.named)),
        "unique" => Some(left.unique as u64),
        "steps" => Some(ran.reports.first()?.steps),
        _ => None,
    }
}

/// Tests that changes leave an image as it is.
fn has(alloc: Global, image: &[u8], changes: &str) -> Result<(), Fail> {
    let mut changed = Vec::from_slice(alloc, image)?;
    change(changed.as_mut_slice(), changes).ok_or("no change")?;
    is_true(changed.as_slice() == image).ok_or("other numbers")?;
    Ok(())
}
