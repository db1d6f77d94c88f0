//! Clients that run on an image that stays open.

use lezgauri::{Ended, Fault, Image, Ready, Report, Through, prepare, run, verify};
use std::alloc::Global;
use std::test::Fail;
use support_data::{INCREMENT_FILE, Limited, counter, counter_saved, equal, is_true};

/// The counter's image, opened.
fn opened_counter(alloc: Global) -> Result<Image<Global>, Fail> {
    match Image::open(alloc, counter(alloc)?) {
        Ok(image) => Ok(image),
        Err(unopened) => Err(Fail::from(unopened.fault)),
    }
}

/// Runs a client without input. Returns its report, and whether it printed this line.
fn ran(
    alloc: Global,
    image: &mut Image<Global>,
    client: &Ready<Global>,
    line: &[u8],
) -> Result<(Report, bool), Fault> {
    let mut out = Through::new(Limited::unlimited(alloc));
    let report = run(image, client, b"", &mut out)?;
    Ok((report, out.into_inner().bytes.as_slice() == line))
}

/// The report of the increment client. It takes six steps, since `ELSE` and `END` aren't steps.
const DONE: Report = Report {
    steps: 6,
    read: 0,
    ended: Ended::Done,
};

/// Two runs of one client: 41 + 1 + 1. Returns whether they did what they should.
fn increments(alloc: Global, image: &mut Image<Global>) -> Result<bool, Fault> {
    let client = prepare(alloc, verify(image, &INCREMENT_FILE)?)?;
    let first = ran(alloc, image, &client, b"42\n")?;
    let second = ran(alloc, image, &client, b"43\n")?;
    Ok(first == (DONE, true) && second == (DONE, true))
}

#[test]
fn clients_run_in_turn(rt: HostRuntime) -> Result<(), Fail> {
    let mut image = opened_counter(rt.alloc())?;
    is_true(increments(rt.alloc(), &mut image)?).expect(&rt, "run");
    let saved = counter_saved(rt.alloc(), 43)?;
    equal(image.bytes(), saved.as_slice()).expect(&rt, "saved");
    Ok(())
}

/// The file ends in its last instruction, which begins at 95.
#[test]
fn half_a_client_is_not_verified(rt: HostRuntime) -> Result<(), Fail> {
    let image = opened_counter(rt.alloc())?;
    let cut = verify(&image, &INCREMENT_FILE[..102]).err();
    is_true(cut == Some(Fault::BadCode(95))).expect(&rt, "cut");
    Ok(())
}
