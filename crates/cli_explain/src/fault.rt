use crate::damage::{add_bad_header, add_bad_type, add_place};
use crate::explanation::Explanation;
use crate::field::add_bad_code;
use crate::rejection::{Rejected, add_bound, add_rejection};
use crate::sources::Sources;
use crate::text::add_bad_line;
use crate::types::TypeWords;
use client_code::{Type, TypeId, TypeTable};
use seg_index::{Fault, MAX_LEN, MIN_LEN};
use std::alloc::{AllocError, Global};

/// Explains a fault in one or more lines, each ended by `\n`: what the fault is, where it is, and what would be right. `client`
/// is the number of the client that has the fault, from 0, if there are several clients.
pub fn explain(
    alloc: Global,
    fault: Fault,
    client: Option<usize>,
    sources: &Sources,
) -> Result<Vec<u8>, AllocError> {
    let mut explanation = Explanation::new(alloc);
    if let Some(number) = client {
        write!(
            explanation,
            "the fault is in client {number}, counted from 0\n"
        );
    }
    if !add_image_place(&mut explanation, fault, sources.image) {
        add_places(&mut explanation, alloc, fault, client, sources)?;
        add_rule(&mut explanation, fault);
    }
    Ok(explanation.into_text()?.into_bytes())
}

/// Adds the place of a fault in an image, and the rule that is broken there. Returns false if there is none, or no image.
fn add_image_place(explanation: &mut Explanation, fault: Fault, image: Option<&[u8]>) -> bool {
    match (place_of(fault), image) {
        (Some(at), Some(image)) => add_place(explanation, fault, at, image),
        (Some(_) | None, _) => false,
    }
}

/// The position of a fault in an image.
fn place_of(fault: Fault) -> Option<u32> {
    match fault {
        Fault::BadBlock(at)
        | Fault::BadIndex(at)
        | Fault::DoubleOwner(at)
        | Fault::Unowned(at)
        | Fault::BadValue(at)
        | Fault::BadFree(at)
        | Fault::BadPointer(at) => Some(at),
        _ => None,
    }
}

/// Adds the place of another fault.
fn add_places(
    explanation: &mut Explanation,
    alloc: Global,
    fault: Fault,
    client: Option<usize>,
    sources: &Sources,
) -> Result<(), AllocError> {
    match fault {
        Fault::Memory
        | Fault::Misplaced
        | Fault::BadSize
        | Fault::NoHostRoom
        | Fault::BadMove(_)
        | Fault::BadBlock(_)
        | Fault::BadIndex(_)
        | Fault::DoubleOwner(_)
        | Fault::Unowned(_)
        | Fault::BadValue(_)
        | Fault::BadFree(_)
        | Fault::BadPointer(_) => {}
        Fault::BadHeader => add_bad_header(explanation, sources.image),
        Fault::BadType(number) => add_bad_type(explanation, number, sources.image),
        Fault::TypeMismatch(number) => add_mismatch(explanation, number, client, sources),
        Fault::BadCode(at) => add_bad_code(explanation, sources.file(client), at),
        Fault::BadLine(number) => add_bad_line(explanation, sources.text, number),
        Fault::Rejected {
            instruction,
            reason,
        } => {
            let rejected = Rejected {
                number: instruction,
                reason,
            };
            return add_rejection(
                explanation,
                alloc,
                sources.client(client),
                sources.text,
                rejected,
            );
        }
        Fault::TooLong => return add_bound(explanation, alloc, sources.client(client)),
    }
    Ok(())
}

/// Describes a type entry of the client, and the image's type with that number.
fn add_mismatch(
    explanation: &mut Explanation,
    number: u32,
    client: Option<usize>,
    sources: &Sources,
) {
    if let Some(client) = sources.client(client) {
        add_kind(explanation, number, "in the client", &client.types());
    }
    if let Some(types) = sources.types_before(client) {
        add_kind(explanation, number, "in the image", &types);
    }
}

fn add_kind(explanation: &mut Explanation, number: u32, place: &str, types: &TypeTable) {
    if let Some(kind) = kind_of(number, types) {
        let kind = TypeWords(kind);
        write!(explanation, "type {number} is {kind} {place}\n");
    }
}

fn kind_of(number: u32, types: &TypeTable) -> Option<Type> {
    types.kind(TypeId::try_from(number).ok()?)
}

/// Adds the rule that is broken, for a fault that has one rule.
fn add_rule(explanation: &mut Explanation, fault: Fault) {
    match fault {
        Fault::Misplaced => write!(
            explanation,
            "the base should be a multiple of 16, and the segment should end within the room, \
at {MAX_LEN} bytes at most\n"
        ),
        Fault::BadSize => write!(
            explanation,
            "a segment has {MIN_LEN} to {MAX_LEN} bytes, a multiple of 16\n"
        ),
        Fault::BadMove(number) => write!(
            explanation,
            "move {number}, counted from 0, should come at step 1 or later, and later than the move before; \
its base should be a multiple of 16 from which the segment ends within its room\n"
        ),
        told => explanation.add(rule(told)),
    }
}

/// The rule as a line, for a fault whose rule has no numbers.
fn rule(fault: Fault) -> &'static str {
    match fault {
        Fault::Memory => "the host refused a request for memory\n",
        Fault::NoHostRoom => "the region is too small for the larger segment\n",
        Fault::TypeMismatch(_) =>
            "a client has to declare the types of the image with the same numbers; new types come after them\n",
        Fault::BadBlock(_) => {
            "a block's header should have a size of 2 units or more within the heap, the size of the block before, a valid tag, \
and a null link if the block is allocated; two free blocks should not be adjacent\n"
        }
        Fault::BadFree(_) => {
            "the free blocks should form a list in ascending order (sequential fit), \
or a red-black tree ordered by size (best fit)\n"
        }
        Fault::BadIndex(_) => {
            "the names should be in ascending order, as many as the number at byte 36, each of 1 to 63 visible bytes \
and with 1 to 65535 values\n"
        }
        Fault::BadPointer(_) => {
            "it should point to the first payload byte of an allocated block of the right kind and type, with enough room\n"
        }
        Fault::DoubleOwner(_) => "one pointer should own the block, but two do\n",
        Fault::Unowned(_) => {
            "a pointer of the index, of a unique object or of a value should own the block, but none does\n"
        }
        Fault::TooLong => {
            "a loop takes 1 step, and in each turn 1 step and the steps of its body, so the turns of nested loops multiply\n"
        }
        Fault::Misplaced
        | Fault::BadSize
        | Fault::BadMove(_)
        | Fault::BadHeader
        | Fault::BadType(_)
        | Fault::BadValue(_)
        | Fault::BadCode(_)
        | Fault::BadLine(_)
        | Fault::Rejected { .. } => "",
    }
}
