//! An image in memory that its host lends for a call.

ghost use Rattle.std.specs.Prelude.{◌≡◌, ◌≤◌, length};
ghost use Rattle.lezgauri.specs.Homes.{home_of};
ghost use Rattle.lezgauri.specs.Images.{segment_of};

use lezgauri::{Error, Image, Lodged, Through, lend, prepare, run, verify};
use std::alloc::Global;
use std::test::Fail;
use support_data::{INCREMENT_FILE, Limited, counter, counter_saved, is_true};

/// Runs the increment client on an image.
fn increment(alloc: Global, image: &mut Image<Lodged>) -> Result<(), Error>
    ensures { (segment_of image.new).window.home ≡ (segment_of image.old).window.home }
{
    let client = prepare(alloc, verify(image, &INCREMENT_FILE)?)?;
    let mut out = Through::new(Limited::unlimited(alloc));
    run(image, &client, b"", &mut out)?;
    Ok(())
}

/// The same on the image in the first 784 bytes.
fn increment_in(alloc: Global, memory: &mut [u8]) -> Result<(), Error>
    requires { 784 ≤ length memory.old }
{
    lend(
        memory,
        784,
        |bytes|
            ensures { home_of result.0 ≡ home_of bytes }
        {
            match Image::open(alloc, bytes) {
                Ok(mut image) => {
                    let ran = increment(alloc, &mut image);
                    (image.into_bytes(), ran)
                }
                Err(unopened) => (unopened.bytes, Err(Error::from(unopened.fault))),
            }
        },
    )
}

/// Whether it can be done in this memory, which must be longer than the image.
fn increments(alloc: Global, memory: &mut [u8]) -> bool {
    memory.len() > 784 && increment_in(alloc, memory).is_ok()
}

/// The image changes in place, and 0 is after it.
#[test]
fn an_image_is_opened_in_lent_memory(rt: HostRuntime) -> Result<(), Fail> {
    let mut memory = counter(rt.alloc())?;
    memory.resize(1024, 7)?;
    is_true(increments(rt.alloc(), memory.as_mut_slice())).expect(&rt, "run");
    let mut wanted = counter_saved(rt.alloc(), 42)?;
    wanted.resize(1024, 0)?;
    is_true(memory.as_slice() == wanted.as_slice()).expect(&rt, "memory");
    Ok(())
}
