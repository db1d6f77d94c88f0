//! Calls on images while the host is out of memory. Each reports that.

use linked_list_allocator::LocalHeap;
use seg_image::{AllocatorKind, Fault, Image, IndexKind, check};
use std::alloc::Global;
use std::test::Fail;
use support_data::counter;

/// A call that allocates host memory.
#[derive(Clone, Copy)]
enum Call {
    Create,
    Check,
    Open,
    Save,
    Grow,
}

/// Makes a call with this host memory, most of them on an image that is opened in it.
fn make(heap: &LocalHeap, image: &[u8], call: Call) -> Result<(), Fault> {
    match call {
        Call::Create => {
            Image::create(heap, 1024, AllocatorKind::Seq, IndexKind::Flat)?;
        }
        Call::Check => {
            check(heap, image)?;
        }
        Call::Open | Call::Save | Call::Grow => {
            let mut image = Image::open(heap, Vec::from_slice(heap, image)?)?;
            on_image(heap, &mut image, call)?;
        }
    }
    Ok(())
}

fn on_image<'h>(
    heap: &'h LocalHeap,
    image: &mut Image<&'h LocalHeap>,
    call: Call,
) -> Result<(), Fault> {
    match call {
        Call::Save => {
            image.save(heap)?;
        }
        Call::Grow => {
            image.grow(1600)?;
        }
        _ => {}
    }
    Ok(())
}

/// How often a call is out of memory until there is enough memory for it. Then it must succeed.
fn refusals_of(alloc: Global, call: Call) -> Result<usize, Fail> {
    let image = counter(alloc)?;
    for size in 1..512usize {
        let heap = LocalHeap::new(alloc, size * 16)?;
        match make(&heap, image.as_slice(), call) {
            Ok(()) => return Ok(size - 1),
            Err(Fault::Memory) => {}
            Err(fault) => return Err(Fail::from(fault)),
        }
    }
    Err(Fail::from("never enough"))
}

// Calls, and how many units of 16 bytes each needs at least, and at most if that matters. The image of 784 bytes takes 49 units. A
// call on an image needs memory for what it works on and for what it makes. A check copies nothing of the image.
static CALLS: [(&str, Call, usize, usize); 5] = [
    ("create", Call::Create, 63, 512),
    ("check", Call::Check, 1, 48),
    ("open", Call::Open, 49, 512),
    ("save", Call::Save, 97, 512),
    ("grow", Call::Grow, 148, 512),
];

#[test]
fn calls_answer_memory_until_there_is_enough(rt: HostRuntime) -> Result<(), Fail> {
    for (name, call, least, most) in &CALLS {
        let refusals = refusals_of(rt.alloc(), *call)?;
        assert!(rt; refusals >= *least && refusals <= *most, "{name}");
    }
    Ok(())
}
