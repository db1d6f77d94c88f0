//! The checker on small images: with each byte changed to each other value, and cut at each length.

use crate::tests::image::image_of;
use seg_image::check;
use std::alloc::Global;
use std::ops::Range;
use std::test::Fail;
use support_data::{equal, front, write};

/// The number 41, named x: its object is at 704, the buffer of the index at 736.
const COUNTER: &str = "
type i64
720 named t0 2
752 index t0 3
720=41 728='x'
32->752 36=1
752->720 756=1,1
=> sound
64=9 => type 0
32->null 36=0 => unowned 704
36=2 760=0xffffffd8 764=1,1 => twice 704 ; a second entry for the same object
";

/// The same in version 2.
const COUNTER_2: &str = "
8=2
type i64
720 named t0 2
752 index t0 3
720=41 728='x'
32->752 36=1
752->720 756=1,1
";

/// The text hi, named s: its object is at 704, the buffer of the index at 736, its own buffer at 784.
const GREETING: &str = "
type str
720 named t0 2
752 index t0 3
800 buffer t0 2
720->800 724=2 728='s'
32->752 36=1
752->720 756=1,1
800='hi'
=> sound
720=0 | 720=1 | 720=0x7fffffff => pointer 720
";

/// Whether an image stays sound with this byte. These bytes may have another value: the version; the allocator, as there is no free
/// block; the kind of a second type, if it has no parts; the name, if it is another printable letter; and what the name and the index
/// don't use. In version 2 the four bytes of the next number may be any, since no object is frozen. A number may be any, and so may a
/// text, with any length that fits in the buffer.
fn is_harmless(image: &[u8], at: usize, byte: u8) -> bool {
    match at {
        8 | 80 => byte == 1 || byte == 2,
        16 => byte == 1,
        28..32 => image.get(8) == Some(&2),
        724 => image.get(64) == Some(&1) || byte <= 16,
        720..728 => image.get(64) == Some(&1),
        728 => byte >= 0x21 && byte <= 0x7e,
        729..736 | 760..784 | 800..816 => true,
        _ => false,
    }
}

/// The number of an image's first fault, or 0 if it is sound.
fn fault_of(alloc: Global, image: &[u8]) -> usize {
    match check(alloc, image) {
        Ok(_) => 0,
        Err(fault) => usize::from(fault.code()),
    }
}

/// The number of the fault of a wrong header.
const HEADER: usize = 10;

/// How many changes of a byte had each result, by the number of the fault.
type Counts = [u32; 18];

/// Changes the byte at a position to each other value, and tests that exactly the harmless changes are accepted.
fn change_byte(
    alloc: Global,
    image: &mut [u8],
    at: usize,
    counts: &mut Counts,
) -> Result<(), Fail> {
    let old = *image.get(at).ok_or("no byte")?;
    for byte in 0..=255u8 {
        if byte != old {
            write(image, at, &[byte]);
            let fault = fault_of(alloc, image);
            if (fault == 0) != is_harmless(image, at, byte) {
                return Err(Fail::new(format_args!("{byte} at {at}: {fault}")));
            }
            let count = counts.get_mut(fault).ok_or("no such fault")?;
            *count = count.wrapping_add(1);
        }
    }
    write(image, at, &[old]);
    Ok(())
}

/// Does that with each of these bytes, and tests that no image that is cut off before one is accepted.
fn change_each(alloc: Global, text: &str, bytes: Range<usize>) -> Result<Counts, Fail> {
    let mut image = image_of(alloc, text)?;
    let image = image.as_mut_slice();
    let mut counts = [0; 18];
    for at in bytes {
        change_byte(alloc, image, at, &mut counts)?;
        if fault_of(alloc, front(image, at)) != HEADER {
            return Err(Fail::new(format_args!("accepted at {at}")));
        }
    }
    Ok(counts)
}

#[test]
fn finds_each_changed_byte_of_the_counter(rt: HostRuntime) -> Result<(), Fail> {
    // accepted: version, allocator, second type, name, and the number with what the name and the index don't use
    let accepted = 1 + 1 + 2 + 93 + (8 + 7 + 24) * 255;
    // 3 is a wrong type; 10 to 14 are a wrong header, block, free structure, index and pointer
    let wanted = [
        accepted, 0, 0, 130_556, 0, 0, 0, 0, 0, 0, 13_257, 8_154, 1_020, 622, 36_269, 0, 0, 0,
    ];
    equal(change_each(rt.alloc(), COUNTER, 0..784)?, wanted).expect(&rt, "counts");
    Ok(())
}

/// The types and the unique objects, between the first 64 bytes and the heap, are left out.
#[test]
fn finds_changed_bytes_of_the_counter_in_version_2(rt: HostRuntime) -> Result<(), Fail> {
    change_each(rt.alloc(), COUNTER_2, 0..64)?;
    change_each(rt.alloc(), COUNTER_2, 704..784)?;
    Ok(())
}

#[test]
fn finds_each_changed_byte_of_the_greeting(rt: HostRuntime) -> Result<(), Fail> {
    change_each(rt.alloc(), GREETING, 0..816)?;
    Ok(())
}
