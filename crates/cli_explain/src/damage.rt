//! Explanations of faults in an image.

use crate::broken_block::{block_flaw, free_list_flaw};
use crate::broken_pointer::{owners_flaw, pointer_flaw, unowned_flaw};
use crate::broken_value::{free_tree_flaw, index_flaw, value_flaw};
use crate::bytes::word;
use crate::explanation::Explanation;
use crate::field::entry_flaw;
use crate::flaw::{Flaw, Right};
use crate::image::Image;
use crate::mistaken::no_image;
use crate::sources::{type_bytes, types_of};
use client_code::{ENTRY, TypeTable};
use seg_index::{Fault, MAX_LEN, MIN_LEN, header, is_size};
use seg_value::Layouts;

/// The position of the version.
const VERSION: usize = 8;

/// Explains a fault in an image's length or header.
pub(crate) fn add_bad_header(explanation: &mut Explanation, image: Option<&[u8]>) {
    let Some(image) = image else {
        return;
    };
    if !image.starts_with(b"SEGIMAGE") {
        explanation.add(no_image(image));
    } else if !u32::try_from(image.len()).is_ok_and(|len| is_size(len)) {
        let len = image.len();
        write!(
            explanation,
            "the image has {len} bytes, but should have {MIN_LEN} to {MAX_LEN}, a multiple of 16\n"
        );
    } else {
        add_bad_word(explanation, image);
    }
}

fn add_bad_word(explanation: &mut Explanation, image: &[u8]) {
    let units = image.len() / 16;
    let size = word(image, header::SIZE);
    if size as usize != units && matches!(word(image, VERSION), 1 | 2) {
        write!(
            explanation,
            "the length at byte 12 is {size} units of 16 bytes, but the file has {units}\n"
        );
        return;
    }
    let flaw = match wrong_number(image) {
        Some(flaw) => flaw,
        None => zero_flaw(image),
    };
    write!(explanation, "{flaw}\n");
}

/// The first byte of the header that should be 0 and isn't.
fn zero_flaw(image: &[u8]) -> Flaw<'static> {
    let from = if word(image, VERSION) == 1 { 28 } else { 32 };
    for at in from..header::TYPES {
        let is_zero = matches!(image.get(at), None | Some(0));
        if !is_zero && !matches!(at, 32..=39) {
            return Flaw::Number(
                "byte ",
                at,
                " should be 0, like all reserved bytes of the header",
            );
        }
    }
    Flaw::Unmet("the reserved bytes of the header should be 0")
}

/// The first field of the header with a wrong number.
fn wrong_number(image: &[u8]) -> Option<Flaw<'static>> {
    let version = word(image, VERSION);
    if !matches!(version, 1 | 2) {
        let right = Right::Words("1 or 2");
        return Some(Flaw::should("the version at byte 8", version, right));
    }
    let allocator = word(image, header::ALLOCATOR);
    if allocator > 1 {
        let right = Right::Words("0 (sequential fit) or 1 (best fit)");
        return Some(Flaw::should("the allocator at byte 16", allocator, right));
    }
    let index = word(image, header::INDEX_KIND);
    let right = Right::Words("0 (flat) or 1 (a tree)");
    (index > 1).then_some(Flaw::should("the index at byte 20", index, right))
}

/// Explains a fault in an entry of an image's type table.
pub(crate) fn add_bad_type(explanation: &mut Explanation, number: u32, image: Option<&[u8]>) {
    let Some(image) = image else {
        return;
    };
    let index = number as usize;
    let place = header::TYPES.saturating_add(index.saturating_mul(ENTRY));
    let flaw = entry_flaw(type_bytes(image), index, word(image, VERSION) == 2);
    write!(
        explanation,
        "the entry of type {number} begins at byte {place}\n{flaw}\n"
    );
}

/// Describes the place of a byte in an image, and the rule that is broken there. Returns false if the image is too long to be read.
pub(crate) fn add_place(
    explanation: &mut Explanation,
    fault: Fault,
    at: u32,
    bytes: &[u8],
) -> bool {
    let layouts = Layouts::of(types_of(bytes).unwrap_or(TypeTable::new()));
    let Some(image) = Image::new(bytes, &layouts) else {
        return false;
    };
    let location = image.location(at);
    write!(explanation, "byte {at} is {location}\n");
    if matches!(fault, Fault::BadFree(_) | Fault::BadPointer(_)) {
        add_target(explanation, image, at);
    }
    let flaw = place_flaw(image, fault, at);
    write!(explanation, "{flaw}\n");
    true
}

/// Which rule is broken at a byte.
fn place_flaw(image: Image<'_>, fault: Fault, at: u32) -> Flaw<'_> {
    let view = image.view;
    match fault {
        Fault::BadBlock(_) => block_flaw(view, image.types(), at),
        Fault::BadFree(_) if view.get32(header::ALLOCATOR) == 1 => free_tree_flaw(view),
        Fault::BadFree(_) => free_list_flaw(view, at),
        Fault::BadIndex(_) => index_flaw(image, at),
        Fault::DoubleOwner(_) => owners_flaw(view, at),
        Fault::Unowned(_) => unowned_flaw(view, at),
        Fault::BadPointer(_) => pointer_flaw(image, at),
        _ => value_flaw(image, at),
    }
}

fn add_target(explanation: &mut Explanation, image: Image, at: u32) {
    match image.view.target(at as usize) {
        None => explanation.add("the pointer there is null\n"),
        Some(to) => {
            let location = image.location(to);
            write!(
                explanation,
                "the pointer there points to byte {to}, {location}\n"
            );
        }
    }
}
