use client_code::{Fault, TypeTable, parse};
use client_text::{assemble, print};
use client_verify::verify;
use std::alloc::Global;
use std::process::Abort;

/// Types and constants of every kind, for the programs in the tables of tests.
const FRONT: &[u8] = b"type i64
type str
type vec t0
type list t0
type flat_map t0
type map t0
type own t0
type struct t0 t1 t6
type shared t0
type shared t7
type shared t4
type shared t2
type shared t8
text hi
name n
family f
name m
";

// The calls with long contracts. What calls these functions instead has a short proof.

/// The file that a text assembles to.
pub fn assembled(alloc: Global, text: &[u8]) -> Result<Vec<u8>, Fault> {
    assemble(alloc, text)
}

/// The text of the client in a file.
pub fn printed(alloc: Global, file: &[u8]) -> Result<Vec<u8>, Fault> {
    print(alloc, &parse(file)?)
}

/// What a fault without a position has in its place.
pub const NOWHERE: u32 = u32::MAX;

/// The position of the fault in a file that is no client's.
pub fn fault_in(file: &[u8]) -> Option<u32> {
    match parse(file) {
        Ok(_) => None,
        Err(Fault::BadCode(at)) => Some(at),
        Err(_) => Some(NOWHERE),
    }
}

fn verdict_of(file: &[u8]) -> Result<u64, Fault> {
    Ok(verify(parse(file)?, &TypeTable::new())?.bound())
}

/// Assembles a text, and prints the client as its canonical text.
pub fn canonical(alloc: Global, text: &[u8]) -> Result<Vec<u8>, Fault> {
    printed(alloc, assembled(alloc, text)?.as_slice())
}

/// The result of the verifier for a text: the bound, or the fault.
pub fn verdict(alloc: Global, text: &[u8]) -> Result<u64, Fault> {
    verdict_of(assembled(alloc, text)?.as_slice())
}

/// The same for a program after `FRONT`. `;` ends its lines too.
pub fn verdict_after_front(alloc: Global, program: &[u8]) -> Result<u64, Fault> {
    let mut text = Vec::from_slice(alloc, FRONT)?;
    for byte in program {
        text.extend_from_slice(&[if *byte == b';' { b'\n' } else { *byte }])?;
    }
    verdict(alloc, text.as_slice())
}

/// The same for a program inside `FINDOR r0 - t k1`, which is instruction 0: r0 refers to a value of the type.
pub fn verdict_with(alloc: Global, type_id: u8, program: &str) -> Result<u64, Fault> {
    let text = format!(in alloc; "FINDOR r0 - t{type_id} k1;{program};ELSE;END")?;
    verdict_after_front(alloc, text.as_bytes())
}

/// The rejected instruction and the reason, if a text is rejected.
fn rejection(verdict: Result<u64, Fault>) -> Option<(u32, u8)> {
    match verdict {
        Err(
            Fault::Rejected {
                instruction,
                reason,
            },
        ) => Some((instruction, reason)),
        _ => None,
    }
}

/// The type of r0, a program that is accepted inside the opener, and the bound.
pub type Accepted = (u8, &'static str, u64);

/// The type of r0, a program that is rejected inside the opener, the rejected instruction, and the reason.
pub type Rejected = (u8, &'static str, u32, u8);

pub fn check_accepted(rt: &(impl Abort + AllocGlobal), row: &Accepted) {
    let (type_id, program, bound) = *row;
    let found = verdict_with(rt.alloc(), type_id, program).ok();
    assert!(rt; found == Some(bound), "t{type_id}: {program}");
}

pub fn check_rejected(rt: &(impl Abort + AllocGlobal), row: &Rejected) {
    let (type_id, program, instruction, reason) = *row;
    let found = rejection(verdict_with(rt.alloc(), type_id, program));
    assert!(rt;
        found == Some((instruction, reason)),
        "t{type_id}: {program}"
    );
}
