use crate::abstract_run::{AbstractRun, Sharing};
use crate::counts::Counts;
use crate::generator::{Generator, Version};
use crate::model::Objects;
use crate::position::Position;
use client_code::{Client, TypeTable, parse};
use std::alloc::Global;
use std::io::Eprint;
use std::test::Fail;
use support_data::{
    KINDS, PLAIN, SegmentKind, Setting, client, empty, run_files, statistics_of, verified,
    write_words,
};

const INPUT: &[u8] = b"the input of a client";

/// The steps and the input that a client took, and what it did with frozen objects.
#[derive(Clone, Copy)]
struct Retraced {
    steps: u64,
    read: usize,
    sharing: Sharing,
}

/// How many clients run one after the other on one segment.
const TURN: u32 = 10;

/// How many clients run for a seed: a turn on a segment of each kind and size.
pub(crate) const ROUND: u32 = 320;

/// The position of the next frozen object's number in an image.
const NEXT_NUMBER: usize = 28;

/// The sizes of the segments, and the numbers of their next frozen objects. Some segments run out of numbers.
const SEGMENTS: [(u32, u32); 8] = [
    (800, 0),
    (880, 0),
    (960, 0),
    (1040, 0),
    (1200, 0),
    (1600, u32::MAX - 3),
    (2400, u32::MAX - 8),
    (4096, 0),
];

/// Runs a client on the model, and compares it with the output of the real run.
fn retrace(
    alloc: Global,
    objects: &mut Objects,
    client: Client,
    printed: Vec<u8>,
) -> Result<Retraced, Fail> {
    let mut run = AbstractRun::new(alloc, INPUT, printed);
    let steps = steps_of(alloc, &mut run, objects, client)?;
    if !run.rest().is_empty() {
        return Err(Fail::from("the run printed more"));
    }
    Ok(Retraced {
        steps,
        read: INPUT.len().wrapping_sub(run.input.len()),
        sharing: run.sharing,
    })
}

/// Runs a client to its end. Returns the number of its steps.
fn steps_of(
    alloc: Global,
    run: &mut AbstractRun,
    objects: &mut Objects,
    client: Client,
) -> Result<u64, Fail> {
    let mut position = Position::new(alloc, client);
    position.to_end(run, objects)?;
    Ok(position.steps)
}

/// The image that a client left, and what it did with frozen objects.
#[derive(Drop)]
struct Followed {
    image: Vec<u8>,
    sharing: Sharing,
}

/// Fails if a run and the model differ in a number.
fn same(what: &str, run: u64, model: u64) -> Result<(), Fail> {
    if run == model {
        Ok(())
    } else {
        Err(Fail::new(format_args!("{what}: {run}, but {model} in the model")))
    }
}

/// Runs a client on an image and on the model, if it is accepted.
fn follow(
    alloc: Global,
    objects: &mut Objects,
    image: &[u8],
    file: &[u8],
) -> Result<Option<Followed>, Fail> {
    let parsed = parse(file)?;
    let Ok(accepted) = verified(file, &TypeTable::new()) else {
        return Ok(None);
    };
    let setting = Setting {
        input: INPUT,
        room: 4096,
        ..PLAIN
    };
    let ran = run_files(alloc, image, &[file], setting)?;
    let report = ran.reports.first().copied().unwrap_or_default();
    let retraced = retrace(alloc, objects, parsed, ran.out)?;
    same("steps", report.steps, retraced.steps)?;
    same(
        "bytes of the input",
        report.read as u64,
        retraced.read as u64,
    )?;
    if report.steps > accepted.bound() {
        return Err(Fail::new("more steps than the bound"));
    }
    Ok(Some(Followed {
        image: ran.image,
        sharing: retraced.sharing,
    }))
}

/// Tests that the image and the model have equally many names, unique objects and numbers for frozen objects.
fn agree(alloc: Global, objects: &Objects, image: &[u8]) -> Result<(), Fail> {
    let left = statistics_of(alloc, image)?;
    same("names", u64::from(left.named), objects.named.len() as u64)?;
    same(
        "unique objects",
        left.unique as u64,
        objects.uniques.len() as u64,
    )?;
    let next_number = objects.next_number.to_le_bytes();
    match image.get(NEXT_NUMBER..) {
        Some(rest) if rest.starts_with(&next_number) => Ok(()),
        _ => Err(Fail::new("another number of the next frozen object")),
    }
}

/// A client: the seed of its round, the segment that it runs on, and its place in the turn.
#[derive(Debug, Clone, Copy)]
struct Case {
    seed: u32,
    kind: SegmentKind,
    size: u32,
    client: u32,
}

impl Case {
    /// The text of the client. Every fourth is of version 1.
    fn text(self, alloc: Global) -> Result<String, Fail> {
        let version = if self.client % 4 == 0 {
            Version::One
        } else {
            Version::Two
        };
        let seed = u64::from(self.seed)
            .wrapping_mul(10_000)
            .wrapping_add(u64::from(self.size))
            .wrapping_add(u64::from(self.client));
        Ok(Generator::new(alloc, version, seed).client(60)?)
    }
}

/// A segment, and the same objects in the model.
#[derive(Drop)]
struct Pair {
    image: Vec<u8>,
    objects: Objects,
}

impl Pair {
    /// An empty segment and an empty model. The next frozen object gets this number.
    fn new(alloc: Global, kind: SegmentKind, size: u32, next_number: u32) -> Result<Pair, Fail> {
        let mut image = empty(alloc, size, kind)?;
        write_words(image.as_mut_slice(), NEXT_NUMBER, &[next_number]);
        Ok(Pair {
            image,
            objects: Objects::new(alloc, next_number),
        })
    }

    /// Runs a client on both, and compares them.
    fn step(&mut self, alloc: Global, counts: &mut Counts, case: Case) -> Result<(), Fail> {
        let text = case.text(alloc)?;
        let file = client(alloc, text.as_str())?;
        if let Some(followed) = follow(
            alloc,
            &mut self.objects,
            self.image.as_slice(),
            file.as_slice(),
        )? {
            self.image = followed.image;
            counts.add(followed.sharing);
        }
        agree(alloc, &self.objects, self.image.as_slice())
    }
}

/// Runs clients one after the other on one new segment. If one fails, prints the case, which repeats the failure.
fn follow_turn(
    rt: &(impl Eprint + AllocGlobal),
    counts: &mut Counts,
    first: Case,
    next_number: u32,
    clients: u32,
) -> Result<(), Fail> {
    let mut pair = Pair::new(rt.alloc(), first.kind, first.size, next_number)?;
    for client in 0..clients {
        let case = Case { client, ..first };
        if let Err(fail) = pair.step(rt.alloc(), counts, case) {
            // if this line can't be printed, the failure still matters more
            let _ = eprintln!(rt; "{case:?}");
            return Err(fail);
        }
    }
    Ok(())
}

/// Runs random clients with all operations. Their output, steps and codes must be as in the model. Each round has a seed that
/// is one higher than in the round before.
pub(crate) fn follow_rounds(
    rt: &(impl Eprint + AllocGlobal),
    seed: u32,
    clients: u32,
) -> Result<Counts, Fail> {
    let mut counts = Counts::default();
    let mut left = clients;
    for round in 0..clients.div_ceil(ROUND) {
        let seed = seed.wrapping_add(round);
        for kind in KINDS {
            for (size, next_number) in SEGMENTS {
                let turn = left.min(TURN);
                let first = Case {
                    seed,
                    kind,
                    size,
                    client: 0,
                };
                follow_turn(rt, &mut counts, first, next_number, turn)?;
                left -= turn;
            }
        }
    }
    if left > 0 {
        return Err(Fail::new("a round has fewer clients than it should"));
    }
    Ok(counts)
}
