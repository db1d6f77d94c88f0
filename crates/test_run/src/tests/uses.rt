//! Hosts that embed the library.

use lezgauri::{Code, Error, Fault, Through};
use lezgauri_uses::{Cache, Settings, count, new_counter, read_settings, write_settings};
use std::alloc::Global;
use std::fmt::InlineText;
use std::test::Fail;
use support_data::{COUNT, Limited, SETTINGS, client, equal, is_true};

/// Runs a client this many times on an image. Returns the image afterwards if the client printed this text.
fn counted(
    alloc: Global,
    image: Vec<u8>,
    text: &str,
    times: u32,
    printed: &str,
) -> Result<Vec<u8>, Fail> {
    let file = client(alloc, text)?;
    let mut out = Through::new(Limited::unlimited(alloc));
    let image = count(alloc, image, file.as_slice(), times, &mut out)?;
    is_true(out.into_inner().bytes.as_slice() == printed.as_bytes()).ok_or("printed otherwise")?;
    Ok(image)
}

/// The client makes its number in the first run.
#[test]
fn a_counter_counts(rt: HostRuntime) -> Result<(), Fail> {
    counted(rt.alloc(), new_counter(rt.alloc())?, COUNT, 3, "1\n2\n3\n")?;
    Ok(())
}

static ERRORS: [(Error, &str); 2] = [
    (Error::Fault(Fault::BadHeader), "the call failed: fault 10"),
    (
        Error::Code(Code::Null),
        "the request was refused: code 6: no value",
    ),
];

#[test]
fn errors_are_printed(rt: HostRuntime) {
    for (error, line) in &ERRORS {
        assert!(rt; InlineText::<64>::of(*error).as_str() == *line, "{line}");
    }
}

/// An image with settings that a host wrote.
fn with_settings(alloc: Global) -> Result<Vec<u8>, Fail> {
    let settings = Settings {
        limit: 640,
        port: 8080,
        greeting: Vec::from_slice(alloc, b"good day")?,
    };
    Ok(write_settings(alloc, &settings)?)
}

/// A host reads what a host wrote, and a client prints it.
#[test]
fn settings_are_shared(rt: HostRuntime) -> Result<(), Fail> {
    let image = with_settings(rt.alloc())?;
    let printed = "1\n640\n2\n8080\ngood day\n";
    let image = counted(rt.alloc(), image, SETTINGS, 1, printed)?;
    let read = read_settings(rt.alloc(), image)?;
    is_true(read.limit == 640 && read.port == 8080).expect(&rt, "true");
    equal(read.greeting.as_slice(), b"good day".as_slice()).expect(&rt, "equal");
    Ok(())
}

/// Enters 1, 2 and 3, in this order, with their squares.
fn enter_squares(cache: &mut Cache) -> Result<(), Error> {
    cache.enter(1, 1)?;
    cache.enter(2, 4)?;
    cache.enter(3, 9)
}

/// A cache of two keys drops the first key for the third, and has the other two after it is opened again.
#[test]
fn a_cache_keeps_to_its_limit(rt: HostRuntime) -> Result<(), Fail> {
    let mut cache = Cache::new(rt.alloc(), 2)?;
    enter_squares(&mut cache)?;
    let cache = Cache::open(rt.alloc(), cache.save(rt.alloc())?, 2)?;
    let found = [cache.get(1), cache.get(2), cache.get(3)];
    is_true(found == [Err(Code::Absent), Ok(4), Ok(9)]).expect(&rt, "squares");
    Ok(())
}
