//! A segment that moves in its host's memory while a client runs.

use client_vm::{Ended, Move, Through, moves_fit, run};
use seg_manager::{Fault, Region, Segment};
use std::alloc::Global;
use std::test::Fail;
use support_data::{
    INCREMENT_FILE, Limited, SeqFit, counter, counter_saved, is_true, opened, placed, ready,
};

// A move before each step of the increment client.
static MOVES: [Move; 6] = [
    Move { step: 1, base: 800 },
    Move { step: 2, base: 0 },
    Move { step: 3, base: 800 },
    Move { step: 4, base: 0 },
    Move { step: 5, base: 800 },
    Move { step: 6, base: 16 },
];

/// The counter's segment at the start of a host's memory.
fn counter_segment(alloc: Global) -> Result<Segment<SeqFit, Global>, Fail> {
    let image = counter(alloc)?;
    let window = placed(Region::new(alloc, 2048)?, 0, image.as_slice())?;
    Ok(opened::<SeqFit>(alloc, window)?)
}

/// Runs the increment client with the moves. Returns whether it prints its number in six steps.
fn increments(alloc: Global, segment: &mut Segment<SeqFit, Global>) -> Result<bool, Fault> {
    let client = ready(alloc, &INCREMENT_FILE, segment.types())?;
    let mut out = Through::new(Limited::unlimited(alloc));
    let report = run(segment, &client, b"", &MOVES, &mut out);
    let is_done = report.steps == 6 && report.ended == Ended::Done;
    Ok(is_done && out.into_inner().bytes.as_slice() == b"42\n".as_slice())
}

/// Whether the moves fit a segment.
fn fits(segment: &Segment<SeqFit, Global>) -> bool {
    moves_fit(segment, &MOVES).is_none()
}

/// Whether a segment is the counter's after the increment client.
fn is_incremented(alloc: Global, segment: &Segment<SeqFit, Global>) -> Result<bool, Fail> {
    let saved = counter_saved(alloc, 42)?;
    Ok(segment.window().slice(0, 784) == saved.as_slice())
}

#[test]
fn a_segment_moves_before_each_step(rt: HostRuntime) -> Result<(), Fail> {
    let mut segment = counter_segment(rt.alloc())?;
    is_true(fits(&segment)).expect(&rt, "moves");
    is_true(increments(rt.alloc(), &mut segment)?).expect(&rt, "run");
    is_true(is_incremented(rt.alloc(), &segment)?).expect(&rt, "segment");
    Ok(())
}
