//! Segments of each kind, and runs of clients on them.

use crate::output::Limited;
use crate::windows::window;
use client_text::assemble;
use client_vm::{
    Ended, Move, Outcome, Ready, Refused, Report, Schedule, Through, Unrun, Verified, parse,
    prepare, run_bytes, run_image, verify,
};
use seg_bestfit::BestFit;
use seg_check::{check, save};
use seg_manager::{
    Fault, Fit, IndexKind, Region, Segment, TypeTable, create, free_memory, largest_gap, num_named,
};
use seg_seqfit::SeqFit;
use std::alloc::Global;
use std::test::Fail;

/// How a segment stores its free blocks and its names.
#[derive(Debug, Clone, Copy, PartialEq, Eq)]
pub struct SegmentKind {
    pub is_best_fit: bool,
    pub index: IndexKind,
}

pub const SEQ_FLAT: SegmentKind = SegmentKind {
    is_best_fit: false,
    index: IndexKind::Flat,
};

pub const SEQ_TREE: SegmentKind = SegmentKind {
    is_best_fit: false,
    index: IndexKind::Tree,
};

pub const BEST_FLAT: SegmentKind = SegmentKind {
    is_best_fit: true,
    index: IndexKind::Flat,
};

pub const BEST_TREE: SegmentKind = SegmentKind {
    is_best_fit: true,
    index: IndexKind::Tree,
};

pub const KINDS: [SegmentKind; 4] = [SEQ_FLAT, SEQ_TREE, BEST_FLAT, BEST_TREE];

/// The image of an empty segment.
pub fn empty(alloc: Global, size: u32, kind: SegmentKind) -> Result<Vec<u8>, Fail> {
    if kind.is_best_fit {
        empty_on::<BestFit>(alloc, size, kind.index)
    } else {
        empty_on::<SeqFit>(alloc, size, kind.index)
    }
}

fn empty_on<F: Fit>(alloc: Global, size: u32, index: IndexKind) -> Result<Vec<u8>, Fail> {
    Ok(save(alloc, created::<F>(alloc, size, index)?.window())?)
}

/// An empty segment.
pub fn created<F: Fit>(
    alloc: Global,
    size: u32,
    index: IndexKind,
) -> Result<Segment<F, Global>, Fault> {
    let region = Region::new(alloc, size.min(1 << 21))?;
    match create(region, 0, size, index) {
        Ok(segment) => Ok(segment),
        Err((fault, _region)) => Err(fault),
    }
}

/// Assembles a client: its text becomes a client file.
pub fn client(alloc: Global, text: &str) -> Result<Vec<u8>, Fail> {
    Ok(assemble(alloc, text.as_bytes())?)
}

/// The client in a file, if it is accepted on a segment with these types.
pub fn verified<'c>(file: &'c [u8], types: &TypeTable) -> Result<Verified<'c>, Fault> {
    verify(parse(file)?, types)
}

/// Like [`verified`], and prepared to run.
pub fn ready<'c>(
    alloc: Global,
    file: &'c [u8],
    types: &TypeTable,
) -> Result<Ready<'c, Global>, Fault> {
    Ok(prepare(alloc, verified(file, types)?)?)
}

/// The result of a run of clients.
#[derive(Drop)]
pub struct Ran {
    pub out: Vec<u8>,
    pub image: Vec<u8>,
    pub reports: Vec<Report>,
    pub ended: Ended,
}

/// The settings of a run besides the image and the clients.
#[derive(Clone, Copy)]
pub struct Setting<'a> {
    pub input: &'a [u8],
    pub room: u32,
    pub base: u32,
    pub moves: &'a [Move],
    pub at_a_time: usize,
    pub limit: usize,
}

/// A region of 2 MiB, no input, and an output without a limit.
pub const PLAIN: Setting<'static> = Setting {
    input: &[],
    room: 1 << 21,
    base: 0,
    moves: &[],
    at_a_time: usize::MAX,
    limit: usize::MAX,
};

/// Runs clients. The saved image must be accepted.
pub fn run_files(
    alloc: Global,
    image: &[u8],
    clients: &[&[u8]],
    setting: Setting,
) -> Result<Ran, Fail> {
    match outcome_of(alloc, image, clients, setting) {
        Ok(ran) => {
            let _ = statistics_of(alloc, ran.image.as_slice())?;
            Ok(ran)
        }
        Err(refused) => Err(Fail::from(refused.fault)),
    }
}

/// The outcome of a run of clients, or why nothing runs.
pub fn outcome_of(
    alloc: Global,
    image: &[u8],
    clients: &[&[u8]],
    setting: Setting,
) -> Result<Ran, Refused> {
    let mut out = Through::new(output_of(alloc, setting));
    let schedule = schedule_of(setting);
    let outcome = run_bytes(alloc, image, clients, setting.input, &schedule, &mut out)?;
    Ok(came_to(outcome, out))
}

/// The outcome of a run of clients on an image of the caller's. If nothing runs, its bytes are returned.
pub fn outcome_in(
    alloc: Global,
    image: Vec<u8>,
    clients: &[&[u8]],
    setting: Setting,
) -> Result<Ran, Unrun<Global>> {
    let mut out = Through::new(output_of(alloc, setting));
    let schedule = schedule_of(setting);
    let outcome = run_image(alloc, image, clients, setting.input, &schedule, &mut out)?;
    Ok(came_to(outcome, out))
}

fn output_of(alloc: Global, setting: Setting) -> Limited {
    Limited::new(alloc, setting.at_a_time, setting.limit)
}

fn schedule_of(setting: Setting<'_>) -> Schedule<'_> {
    Schedule {
        room: setting.room,
        base: setting.base,
        moves: setting.moves,
    }
}

fn came_to(outcome: Outcome<Global>, out: Through<Limited>) -> Ran {
    Ran {
        out: out.into_inner().bytes,
        image: outcome.image,
        reports: outcome.reports,
        ended: outcome.ended,
    }
}

/// The sizes and numbers of what an image contains.
#[derive(Debug, Clone, Copy, PartialEq, Eq)]
pub struct Statistics {
    pub free: u32,
    pub largest: u32,
    pub named: u32,
    pub unique: usize,
}

/// The statistics of an image, which must be accepted.
pub fn statistics_of(alloc: Global, image: &[u8]) -> Result<Statistics, Fail> {
    let placed = window(alloc, image)?;
    let types = check(alloc, placed.view())?;
    // the numbers don't depend on the allocator
    let segment = Segment::<SeqFit, Global>::new(placed, types);
    Ok(Statistics {
        free: free_memory(&segment),
        largest: largest_gap(&segment),
        named: num_named(&segment),
        unique: segment.num_unique(),
    })
}
