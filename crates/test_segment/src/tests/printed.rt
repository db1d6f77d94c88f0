//! How faults and codes are printed.

use seg_image::{Code, Fault};
use std::fmt::InlineText;

static FAULTS: [(Fault, &str); 19] = [
    (Fault::Memory, "fault 1"),
    (Fault::Misplaced, "fault 2"),
    (Fault::BadType(31), "fault 3 31"),
    (Fault::TypeMismatch(0), "fault 4 0"),
    (Fault::BadSize, "fault 5"),
    (Fault::NoHostRoom, "fault 6"),
    (Fault::BadHeader, "fault 10"),
    (Fault::BadBlock(704), "fault 11 704"),
    (Fault::BadFree(24), "fault 12 24"),
    (Fault::BadIndex(752), "fault 13 752"),
    (Fault::BadPointer(720), "fault 14 720"),
    (Fault::DoubleOwner(704), "fault 15 704"),
    (Fault::Unowned(704), "fault 16 704"),
    (Fault::BadValue(u32::MAX), "fault 17 4294967295"),
    (Fault::BadCode(95), "fault 20 95"),
    (Fault::BadLine(1), "fault 21 1"),
    (
        Fault::Rejected {
            instruction: 3,
            reason: 2,
        },
        "fault 22 3 2",
    ),
    (Fault::TooLong, "fault 23"),
    (Fault::BadMove(1), "fault 24 1"),
];

#[test]
fn prints_faults(rt: HostRuntime) {
    for (fault, line) in &FAULTS {
        assert!(rt; InlineText::<64>::of(*fault).as_str() == *line, "{line}");
    }
}

static CODES: [(Code, &str); 7] = [
    (Code::AlreadyExists, "code 1: the object exists already"),
    (Code::BadAlloc, "code 2: out of memory"),
    (Code::Absent, "code 3: no such object or key"),
    (Code::OtherType, "code 4: wrong type"),
    (Code::OutOfRange, "code 5: out of range"),
    (Code::Null, "code 6: no value"),
    (
        Code::NumbersUsedUp,
        "code 7: no number is left for a frozen object",
    ),
];

#[test]
fn prints_codes(rt: HostRuntime) {
    for (code, line) in &CODES {
        assert!(rt; InlineText::<64>::of(*code).as_str() == *line, "{line}");
    }
}
