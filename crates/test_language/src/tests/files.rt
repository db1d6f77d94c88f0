use crate::tests::every;
use crate::tests::support::{NOWHERE, assembled, fault_in, printed};
use client_code::{Client, Fault, Instruction, OPERATIONS, Operation, parse};
use std::alloc::Global;
use std::test::Fail;
use support_data::{INCREMENT, INCREMENT_FILE, change, write};

/// The start of the field of the increment client that a file of this length cuts off.
fn cut_field(len: u32) -> u32 {
    match len {
        0..20 => len / 4 * 4,
        20..36 => 20,
        36..39 => 36,
        _ => CODE_OF_INCREMENT + len.saturating_sub(CODE_OF_INCREMENT) / 8 * 8,
    }
}

/// Whether the first bytes of the increment client are wrong at the field that is cut off.
fn is_wrong_at_the_cut(file: &[u8], len: u32) -> bool {
    let front = file.get(..len as usize).unwrap_or_default();
    fault_in(front) == Some(cut_field(len))
}

#[test]
fn a_cut_file_is_wrong_at_the_cut_field(rt: HostRuntime) {
    for len in 0..103 {
        assert!(rt; is_wrong_at_the_cut(&INCREMENT_FILE, len), "{len}");
    }
    assert!(rt; cut_field(102) == 95);
}

/// Whether a client has the types, the constants and the number of instructions of the increment client.
fn has_counts(client: &Client) -> bool {
    client.type_count() == 1 && client.constants().len() == 1 && client.instruction(8).is_none()
}

/// Whether an instruction that uses no constant has these registers.
fn has(instruction: Instruction, a: u8, b: u8, c: u8) -> bool {
    instruction.a == a && instruction.b == b && instruction.c == c && instruction.number == 0
}

/// Whether the first instructions of a client are those of the increment client.
fn is_increment(client: &Client) -> bool {
    match (client.instruction(0), client.instruction(1)) {
        (Some(find), Some(load)) => {
            matches!(find.operation, Operation::Find)
                && has(find, 0, 16, 16)
                && matches!(load.operation, Operation::Load)
                && has(load, 1, 0, 0)
        }
        _ => false,
    }
}

#[test]
fn the_increment_in_bytes_and_text(rt: HostRuntime) -> Result<(), Fail> {
    let file = assembled(rt.alloc(), INCREMENT.as_bytes())?;
    assert!(rt; file.as_slice() == INCREMENT_FILE.as_slice());
    let client = parse(file.as_slice())?;
    assert!(rt; has_counts(&client) && is_increment(&client));
    Ok(())
}

/// The position of the fault in a file, which is `NOWHERE` in a client's file if the client's text doesn't assemble to it again.
fn fault_in_round(alloc: Global, file: &[u8]) -> Option<u32> {
    match fault_in(file) {
        None if !goes_round(alloc, file) => Some(NOWHERE),
        found => found,
    }
}

fn goes_round(alloc: Global, file: &[u8]) -> bool {
    match reassembled(alloc, file) {
        Ok(again) => again.as_slice() == file,
        Err(_) => false,
    }
}

/// Prints a client, and assembles the text.
fn reassembled(alloc: Global, file: &[u8]) -> Result<Vec<u8>, Fault> {
    assembled(alloc, printed(alloc, file)?.as_slice())
}

/// The number of operations in the model that the expected counts come from. To it, a later operation is a fault.
const COUNTED_OPERATIONS: usize = 52;

/// Whether the byte at a position is the number of an operation that isn't counted.
fn is_later_operation(file: &[u8], code_at: usize, at: usize) -> bool {
    let number = usize::from(file.get(at).copied().unwrap_or(0));
    at >= code_at
        && (at - code_at) % Instruction::SIZE == 0
        && number > COUNTED_OPERATIONS
        && number <= OPERATIONS
}

/// How many files are clients, and the sum of the positions of the faults in the others.
#[derive(Clone, Copy)]
struct Count {
    clients: u32,
    positions: u64,
}

impl Count {
    const NONE: Count = Count {
        clients: 0,
        positions: 0,
    };

    fn add(&mut self, fault: Option<u32>) {
        match fault {
            None => self.clients = self.clients.wrapping_add(1),
            Some(at) => self.positions = self.positions.wrapping_add(u64::from(at)),
        }
    }
}

/// The position of the fault that the model finds in a file whose byte at a position was changed.
fn fault_to_model(alloc: Global, file: &[u8], code_at: usize, at: usize) -> Option<u32> {
    match fault_in_round(alloc, file) {
        Some(NOWHERE) => Some(NOWHERE),
        _ if is_later_operation(file, code_at, at) => Some(u32::try_from(at).unwrap_or(NOWHERE)),
        found => found,
    }
}

/// Counts the files in which one byte is combined by `^` with this change.
fn count_changes(alloc: Global, file: &mut [u8], code_at: u32, change: u8, count: &mut Count) {
    for at in 0..file.len() {
        file[at] ^= change;
        count.add(fault_to_model(alloc, file, code_at as usize, at));
        file[at] ^= change;
    }
}

/// The position of the code in the increment client: after the header, a type and a name.
const CODE_OF_INCREMENT: u32 = 20 + 16 + 3;

/// The same in `every::TEXT`, which has nine types, and constants of 4, 1 and 2 bytes.
const CODE_OF_EVERY: u32 = 20 + 9 * 16 + 6 + 3 + 4;

// The expected counts come from a model of the format that was written independently, from the rules of the format.
#[test]
fn each_byte_changed_to_each_value(rt: HostRuntime) -> Result<(), Fail> {
    let mut file = Vec::from_slice(rt.alloc(), &INCREMENT_FILE)?;
    let mut count = Count::NONE;
    for change in 0..=255 {
        count_changes(
            rt.alloc(),
            file.as_mut_slice(),
            CODE_OF_INCREMENT,
            change,
            &mut count,
        );
    }
    assert!(rt; count.clients == 1426 && count.positions == 1204682);
    Ok(())
}

#[test]
fn every_operation_with_each_bit_changed(rt: HostRuntime) -> Result<(), Fail> {
    let mut file = assembled(rt.alloc(), every::TEXT.as_bytes())?;
    let mut count = Count::NONE;
    for bit in 0..8u32 {
        count_changes(
            rt.alloc(),
            file.as_mut_slice(),
            CODE_OF_EVERY,
            1 << bit,
            &mut count,
        );
    }
    assert!(rt; count.clients == 663 && count.positions == 3600928);
    Ok(())
}

static OTHER_FILES: [(&str, u32); 18] = [
    ("", 0),
    ("SEG", 0),
    ("SEGD\x01\0\0\0", 0),
    ("SEGC\0\0\0\0", 4),
    ("SEGC\x03\0\0\0", 4),
    ("SEGC\x01\0\0\x01", 4),
    ("SEGC\x02\0\0\0", 8),
    // version 2 without types of shared cells
    ("SEGC\x02\0\0\0\0\0\0\0\0\0\0\0\0\0\0\0", 4),
    ("SEGC\x01\0\0\0\x21\0\0\0\0\0\0\0\0\0\0\0", 8),
    ("SEGC\x01\0\0\0\0\0\0\0\x01\x01\0\0\0\0\0\0", 12),
    ("SEGC\x01\0\0\0\0\0\0\0\0\0\0\0\x01\x10\0\0", 16),
    // one byte too many
    ("SEGC\x01\0\0\0\0\0\0\0\0\0\0\0\0\0\0\0\0", 20),
    // no END, and one byte too many after the code
    (
        "SEGC\x01\0\0\0\0\0\0\0\0\0\0\0\x01\0\0\0\x08\0\0\0\0\0\0\0\0",
        28,
    ),
    // two types: vec t1, and t1 is cut
    (
        "SEGC\x01\0\0\0\x02\0\0\0\0\0\0\0\0\0\0\0\x03\x01\x01\0\0\0\0\0\0\0\0\0\0\0\0\0",
        36,
    ),
    (
        "SEGC\x01\0\0\0\x02\0\0\0\0\0\0\0\0\0\0\0\x03\x01\x01\0\0\0\0\0\0\0\0\0\0\0\0\0\x01\0\0",
        36,
    ),
    // vec t2, and there is no t2
    (
        "SEGC\x01\0\0\0\x02\0\0\0\0\0\0\0\0\0\0\0\x03\x01\x02\0\0\0\0\0\0\0\0\0\0\0\0\0",
        20,
    ),
    // vec t1, and t1 is unused
    (
        "SEGC\x01\0\0\0\x02\0\0\0\0\0\0\0\0\0\0\0\x03\x01\x01\0\0\0\0\0\0\0\0\0\0\0\0\0\0\0\0\0\0\0\0\0\0\0\0\0\0\0\0\0",
        20,
    ),
    // vec t0, and t1 is unused
    (
        "SEGC\x01\0\0\0\x02\0\0\0\0\0\0\0\0\0\0\0\x03\x01\0\0\0\0\0\0\0\0\0\0\0\0\0\0\0\0\0\0\0\0\0\0\0\0\0\0\0\0\0\0",
        36,
    ),
];

#[test]
fn other_wrong_files(rt: HostRuntime) {
    for (file, at) in &OTHER_FILES {
        assert!(rt; fault_in(file.as_bytes()) == Some(*at), "{file:?}");
    }
}

/// A file of version 1 with the types `i64` and `vec t0`. The second type is at 36.
const TWO_TYPES: &str =
    "SEGC\x01\0\0\0\x02\0\0\0\0\0\0\0\0\0\0\0\x01\0\0\0\0\0\0\0\0\0\0\0\0\0\0\0\x03\x01\0\0\0\0\0\0\0\0\0\0\0\0\0\0";

/// That file with these changes, and more bytes after its types. `None` if a change isn't understood, or memory runs out.
fn changed(alloc: Global, changes: &str, rest: &str) -> Option<Vec<u8>> {
    let mut file = Vec::from_slice(alloc, TWO_TYPES.as_bytes()).ok()?;
    change(file.as_mut_slice(), changes)?;
    file.extend_from_slice(rest.as_bytes()).ok()?;
    Some(file)
}

// Changes of the version (at 4), the number of constants (at 12) and the second type, more bytes, and the position of the fault.
// The type is `vec t0`, or `shared t0` by the entry 0x109.
static VERSIONS: [(&str, &str, Option<u32>); 12] = [
    ("", "", None),
    ("4=2 36=0x109", "", None),
    ("4=2", "", Some(4)),
    ("36=0x109", "", Some(4)),
    ("4=3 36=0x109", "", Some(4)),
    ("4=0", "", Some(4)),
    // a wrong type is reported before a version that doesn't fit the types
    ("36=0x20109", "", Some(36)),
    ("4=2 36=0x20103", "", Some(36)),
    ("36=0x9", "", Some(36)),
    // but after an unknown version
    ("4=3 36=0x20109", "", Some(4)),
    // a wrong constant is reported after such a version
    ("12=1 36=0x109", "\x04\0", Some(4)),
    ("4=2 12=1 36=0x109", "\x04\0", Some(52)),
];

#[test]
fn versions_and_types(rt: HostRuntime) -> Result<(), Fail> {
    for (changes, rest, wanted) in &VERSIONS {
        let file = changed(rt.alloc(), changes, rest).ok_or("no file")?;
        let found = fault_in_round(rt.alloc(), file.as_slice());
        assert!(rt; found == *wanted, "{changes}");
    }
    Ok(())
}

// A text with two types, and the changes of `TWO_TYPES` to its file.
static TEXTS: [(&str, &str); 2] = [
    ("type i64\ntype vec t0\n", ""),
    ("type i64\ntype shared t0\n", "4=2 36=0x109"),
];

#[test]
fn a_text_that_shares_is_a_file_of_version_2(rt: HostRuntime) -> Result<(), Fail> {
    for (text, changes) in &TEXTS {
        let file = assembled(rt.alloc(), text.as_bytes())?;
        let wanted = changed(rt.alloc(), changes, "").ok_or("no file")?;
        assert!(rt; file.as_slice() == wanted.as_slice(), "{text}");
    }
    Ok(())
}

/// The position of the code in a file with two types and no constants.
const CODE_AT: usize = 52;

/// The code of the text below.
const SHARING_CODE: &str =
    "\x33\x05\0\x02\0\0\0\0\x0a\0\0\0\0\0\0\0\x0b\0\0\0\0\0\0\0\x34\0\x01\0\0\0\0\0";

/// Whether a client freezes and then shares.
fn is_sharing(client: &Client) -> bool {
    match (client.instruction(0), client.instruction(3)) {
        (Some(freeze), Some(share)) => {
            matches!(freeze.operation, Operation::Freeze)
                && has(freeze, 5, 0, 2)
                && matches!(share.operation, Operation::Share)
                && has(share, 0, 1, 0)
        }
        _ => false,
    }
}

#[test]
fn freezing_and_sharing_in_bytes(rt: HostRuntime) -> Result<(), Fail> {
    let text = "type i64\ntype shared t0\nFREEZE r5 r0 r2\nELSE\nEND\nSHARE r1 r0\n";
    let file = assembled(rt.alloc(), text.as_bytes())?;
    assert!(rt; file.as_slice().get(CODE_AT..) == Some(SHARING_CODE.as_bytes()));
    assert!(rt; is_sharing(&parse(file.as_slice())?));
    Ok(())
}

// The type after `i64`, the code, the index of a byte in the code, the byte that replaces it, and the position of the fault.
static CODES: [(&str, &str, usize, u8, Option<u32>); 16] = [
    // an operation of version 2 is allowed only in a file of version 2
    ("own", "PUT r1 r0", 0, 52, Some(52)),
    ("shared", "PUT r1 r0", 0, 52, None),
    (
        "own",
        "SHRINK r0\nADDB r5 r0 r2\nELSE\nEND",
        8,
        51,
        Some(60),
    ),
    ("shared", "SHRINK r0\nADDB r5 r0 r2\nELSE\nEND", 8, 51, None),
    // the first number without an operation
    ("shared", "PUT r1 r0", 0, OPERATIONS as u8 + 1, Some(52)),
    // registers are 0 to 15, and unused operands are 0
    ("shared", "SHARE r1 r0", 1, 1, Some(52)),
    ("shared", "SHARE r1 r0", 2, 16, Some(52)),
    ("shared", "SHARE r1 r0", 3, 15, None),
    ("shared", "SHARE r1 r0", 3, 16, Some(52)),
    ("shared", "SHARE r1 r0", 4, 1, Some(52)),
    ("shared", "FREEZE r5 r0 r2\nELSE\nEND", 1, 16, Some(52)),
    ("shared", "FREEZE r5 r0 r2\nELSE\nEND", 2, 16, Some(52)),
    ("shared", "FREEZE r5 r0 r2\nELSE\nEND", 3, 16, Some(52)),
    ("shared", "FREEZE r5 r0 r2\nELSE\nEND", 7, 128, Some(52)),
    // FREEZE is an opener, and SHARE is plain
    ("shared", "SHARE r1 r0\nSHARE r1 r0", 8, 51, Some(68)),
    ("shared", "FREEZE r0 r1 r2\nELSE\nEND", 0, 52, Some(60)),
];

/// The position of the fault in a file with two types and this code, in which a byte of the code is replaced.
fn fault_in_code(
    alloc: Global,
    second: &str,
    code: &str,
    place: usize,
    byte: u8,
) -> Result<Option<u32>, Fault> {
    let text = format!(in alloc; "type i64\ntype {second} t0\n{code}\n")?;
    let mut file = assembled(alloc, text.as_bytes())?;
    write(file.as_mut_slice(), CODE_AT.saturating_add(place), &[byte]);
    Ok(fault_in_round(alloc, file.as_slice()))
}

#[test]
fn versions_and_code(rt: HostRuntime) -> Result<(), Fail> {
    for (second, code, place, byte, wanted) in &CODES {
        let found = fault_in_code(rt.alloc(), second, code, *place, *byte)?;
        assert!(rt; found == *wanted, "{code}: {place}");
    }
    Ok(())
}
