use crate::tests::support::{Accepted, Rejected, check_accepted, check_rejected, verdict};
use client_code::Fault;

// Clients that freeze, share and read objects.
static ACCEPTED: [Accepted; 20] = [
    (
        8,
        "NEW r2 t0; FREEZE r1 r0 r2; OUTI r1; ELSE; OUTI r1; DROP r2; END; ELSE; END",
        5,
    ),
    (
        8,
        "NEW r2 t0; FREEZE r1 r0 r2; CONTENT r3 r0; LOAD r4 r3; ELSE; END; ELSE; REF r3 r2; DROP r2; END; ELSE; END",
        5,
    ),
    (8, "SHARE r0 r0", 2),
    (8, "FINDOR r1 - t8 k3; SHARE r0 r1; ELSE; END", 3),
    (8, "CLEAR r0", 2),
    (8, "CONTENT r1 r0; LOAD r2 r1; ELSE; OUTI r1; END", 3),
    (8, "CONTENT r1 r0; MOV r2 r1; LOAD r3 r2; ELSE; END", 4),
    (8, "CONTENT r1 r0; FORGET r1; ELSE; END", 3),
    (
        8,
        "CONTENT r1 r0; CONST r2 1; WHILE r2 2; LOAD r2 r1; END; ELSE; END",
        8,
    ),
    (9, "CONTENT r1 r0; FIELD r2 r1 0; LOAD r3 r2; ELSE; END", 4),
    (
        9,
        "CONTENT r1 r0; FIELD r2 r1 1; LEN r3 r2; OUTS r2; ELSE; END",
        5,
    ),
    (
        9,
        "CONTENT r1 r0; FIELD r2 r1 1; CONST r3 0; AT r4 r2 r3; OUTI r4; ELSE; END; ELSE; END",
        6,
    ),
    (
        9,
        "CONTENT r1 r0; FIELD r2 r1 2; CONTENT r3 r2; LOAD r4 r3; ELSE; END; ELSE; END",
        5,
    ),
    (
        10,
        "CONTENT r1 r0; CONST r2 7; GETK r3 r1 r2; LOAD r4 r3; ELSE; END; ELSE; END",
        5,
    ),
    (
        10,
        "CONTENT r1 r0; FIRSTK r2 r1; NEXTK r3 r1 r2; OUTI r3; ELSE; END; ELSE; END; ELSE; END",
        5,
    ),
    (
        11,
        "CONTENT r1 r0; CONST r2 0; AT r3 r1 r2; LOAD r4 r3; ELSE; END; ELSE; END",
        5,
    ),
    (
        12,
        "CONTENT r1 r0; CONTENT r2 r1; LOAD r3 r2; ELSE; END; ELSE; END",
        4,
    ),
    (
        12,
        "CONTENT r1 r0; FINDOR r2 - t8 k3; SHARE r2 r1; ELSE; END; ELSE; END",
        4,
    ),
    // references of another class stay valid
    (
        8,
        "FINDOR r5 - t8 k3; CONTENT r1 r5; SHARE r0 r5; LOAD r2 r1; ELSE; END; ELSE; END",
        5,
    ),
    (
        8,
        "NEW r2 t0; NEW r3 t0; REF r4 r3; FREEZE r1 r0 r2; LOAD r5 r4; DROP r3; ELSE; DROP r2; DROP r3; END; ELSE; DROP r2; END; ELSE; END",
        7,
    ),
];

#[test]
fn what_may_be_frozen_and_shared(rt: HostRuntime) {
    for row in &ACCEPTED {
        check_accepted(&rt, row);
    }
}

// A wrong register b, or a wrong register c.
static WRONG_OPERAND: [Rejected; 14] = [
    (0, "NEW r2 t0; FREEZE r1 r0 r2; ELSE; END; ELSE; END", 2, 1),
    (6, "NEW r2 t0; FREEZE r1 r0 r2; ELSE; END; ELSE; END", 2, 1),
    (8, "NEW r2 t1; FREEZE r1 r0 r2; ELSE; END; ELSE; END", 2, 1),
    (8, "NEW r2 t8; FREEZE r1 r0 r2; ELSE; END; ELSE; END", 2, 1),
    (8, "FREEZE r1 r0 r2; ELSE; END", 1, 1),
    (8, "FREEZE r1 r0 r0; ELSE; END", 1, 1),
    (8, "FREEZE r1 r2 r0; ELSE; END", 1, 1),
    (8, "NEW r2 t0; PUT r0 r2; ELSE; END", 2, 1),
    (8, "TAKE r1 r0; ELSE; END", 1, 1),
    (8, "LOAD r1 r0", 1, 1),
    (8, "SHARE r0 r1", 1, 1),
    (8, "SHARE r1 r0", 1, 1),
    (6, "SHARE r0 r0", 1, 1),
    (8, "FINDOR r1 - t9 k3; SHARE r0 r1; ELSE; END", 2, 1),
];

// Read-only values can't be changed, nor the values that they refer to.
static READ_ONLY: [Rejected; 15] = [
    (8, "CONTENT r1 r0; CONST r2 1; STORE r1 r2; ELSE; END", 3, 1),
    (
        8,
        "CONTENT r1 r0; CONST r2 1; MOV r3 r1; STORE r3 r2; ELSE; END",
        4,
        1,
    ),
    (8, "CONTENT r1 r0; CLEAR r1; ELSE; END", 2, 1),
    (
        9,
        "CONTENT r1 r0; FIELD r2 r1 1; SETS r3 r2 k0; ELSE; END; ELSE; END",
        3,
        1,
    ),
    (
        9,
        "CONTENT r1 r0; FIELD r2 r1 1; ADDS r3 r2 k0; ELSE; END; ELSE; END",
        3,
        1,
    ),
    (
        9,
        "CONTENT r1 r0; FIELD r2 r1 1; SHRINK r2; ELSE; END",
        3,
        1,
    ),
    (
        9,
        "CONTENT r1 r0; FIELD r2 r1 2; TAKE r3 r2; ELSE; END; ELSE; END",
        3,
        1,
    ),
    (
        9,
        "NEW r4 t0; CONTENT r1 r0; FIELD r2 r1 2; PUT r2 r4; ELSE; END; ELSE; END",
        4,
        1,
    ),
    (
        9,
        "CONTENT r1 r0; FIELD r2 r1 2; CONTENT r3 r2; CLEAR r3; ELSE; END; ELSE; END",
        4,
        1,
    ),
    (
        10,
        "CONTENT r1 r0; CONST r2 1; PUTK r3 r1 r2; ELSE; END; ELSE; END",
        3,
        1,
    ),
    (
        10,
        "CONTENT r1 r0; CONST r2 1; DELK r3 r1 r2; ELSE; END",
        3,
        1,
    ),
    (11, "CONTENT r1 r0; PUSH r2 r1; ELSE; END; ELSE; END", 2, 1),
    (11, "CONTENT r1 r0; POP r2 r1; ELSE; END; ELSE; END", 2, 1),
    (12, "CONTENT r1 r0; SHARE r1 r1; ELSE; END", 2, 1),
    (
        12,
        "NEW r2 t0; CONTENT r1 r0; FREEZE r3 r1 r2; ELSE; END; ELSE; END; ELSE; END",
        3,
        1,
    ),
];

// References that end, also into frozen objects, and a use of each after that.
static ENDED: [Rejected; 9] = [
    (8, "MOV r5 r0; SHARE r0 r0; CONTENT r6 r5; ELSE; END", 3, 1),
    (8, "CONTENT r1 r0; SHARE r0 r0; LOAD r2 r1; ELSE; END", 3, 1),
    (8, "CONTENT r1 r0; CLEAR r0; LOAD r2 r1; ELSE; END", 3, 1),
    (
        8,
        "CONTENT r1 r0; KILL r2 - t8 k1; LOAD r3 r1; ELSE; END",
        3,
        1,
    ),
    (
        8,
        "NEW r2 t0; CONTENT r1 r0; FREEZE r3 r0 r2; LOAD r4 r1; ELSE; END; ELSE; END; ELSE; END",
        4,
        1,
    ),
    (
        8,
        "NEW r2 t0; REF r3 r2; FREEZE r1 r0 r2; LOAD r4 r3; ELSE; END; ELSE; END",
        4,
        1,
    ),
    (
        8,
        "NEW r2 t0; REF r3 r2; FREEZE r1 r0 r2; ELSE; LOAD r4 r3; END; ELSE; END",
        5,
        1,
    ),
    (
        8,
        "NEW r2 t0; FREEZE r1 r0 r2; DROP r2; ELSE; END; ELSE; END",
        3,
        1,
    ),
    // the reference is read-only after one part, and not after the other
    (
        9,
        "FINDOR r1 - t0 k1; CONTENT r2 r0; FIELD r1 r2 0; ELSE; END; LOAD r3 r1; ELSE; END",
        6,
        1,
    ),
];

// Owners that are lost if an object isn't frozen, or before it is.
static OWNER_LOST: [Rejected; 3] = [
    (8, "NEW r2 t0; FREEZE r1 r0 r2; ELSE; END; ELSE; END", 4, 2),
    (8, "NEW r2 t0; FREEZE r2 r0 r2; ELSE; END; ELSE; END", 2, 2),
    (
        8,
        "NEW r2 t0; NEW r9 t0; FREEZE r9 r0 r2; ELSE; END; ELSE; END; ELSE; END",
        3,
        2,
    ),
];

#[test]
fn what_may_not_be_frozen_and_shared(rt: HostRuntime) {
    for row in &WRONG_OPERAND {
        check_rejected(&rt, row);
    }
    for row in &READ_ONLY {
        check_rejected(&rt, row);
    }
    for row in &ENDED {
        check_rejected(&rt, row);
    }
    for row in &OWNER_LOST {
        check_rejected(&rt, row);
    }
}

#[test]
fn an_object_frozen_into_itself(rt: HostRuntime) {
    let text =
        "type i64\ntype shared t2\ntype struct t0 t1\nNEW r0 t2\nREF r1 r0\nFIELD r2 r1 1\nFREEZE r3 r2 r0\nELSE\nEND\nELSE\nEND";
    let inside = Err(Fault::Rejected {
        instruction: 3,
        reason: 3,
    });
    assert!(rt; verdict(rt.alloc(), text.as_bytes()) == inside);
}
