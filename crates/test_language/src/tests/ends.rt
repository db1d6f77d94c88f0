use crate::tests::support::{Accepted, Rejected, check_accepted, check_rejected};

// References that an instruction ends, and a use of each after that.
static ENDED: [Rejected; 27] = [
    (2, "MOV r5 r0; PUSH r1 r0; LEN r6 r5; ELSE; END", 3, 1),
    (2, "MOV r5 r0; PUSH r1 r0; ELSE; LEN r6 r5; END", 4, 1),
    (
        2,
        "PUSH r1 r0; PUSH r2 r0; LOAD r3 r1; ELSE; END; ELSE; END",
        3,
        1,
    ),
    (3, "MOV r5 r0; PUSHF r1 r0; LEN r6 r5; ELSE; END", 3, 1),
    (1, "MOV r5 r0; POP r1 r0; OUTS r5; ELSE; END", 3, 1),
    (3, "MOV r5 r0; POPF r1 r0; ELSE; LEN r6 r5; END", 4, 1),
    (
        5,
        "CONST r2 1; MOV r5 r0; PUTK r1 r0 r2; LEN r6 r5; ELSE; END",
        4,
        1,
    ),
    (
        5,
        "CONST r2 1; GETK r5 r0 r2; PUTK r1 r0 r2; LOAD r6 r5; ELSE; END; ELSE; END",
        4,
        1,
    ),
    (4, "CONST r2 1; MOV r5 r0; DELK r1 r0 r2; LEN r6 r5", 4, 1),
    (2, "MOV r5 r0; CLEAR r0; LEN r6 r5", 3, 1),
    (
        7,
        "FIELD r1 r0 1; FIELD r2 r0 0; CLEAR r1; LOAD r3 r2",
        4,
        1,
    ),
    (
        6,
        "MOV r5 r0; TAKE r1 r0; DROP r1; ELSE; CLEAR r5; END",
        5,
        1,
    ),
    (
        6,
        "CONTENT r1 r0; NEW r2 t0; PUT r0 r2; LOAD r3 r1; ELSE; END; ELSE; END",
        4,
        1,
    ),
    (
        6,
        "NEW r2 t0; REF r3 r2; PUT r0 r2; LOAD r4 r3; ELSE; END",
        4,
        1,
    ),
    (6, "NEW r2 t0; PUT r0 r2; DROP r2; ELSE; END", 3, 1),
    (2, "KILL r1 - t2 k1; LEN r6 r0", 2, 1),
    (2, "KILL r0 - t2 k1; LEN r6 r0", 2, 1),
    (
        0,
        "CONST r1 1; CONST r2 2; FINDOR r3 r1 t0 k2; KILL r4 r2 t0 k2; LOAD r5 r3; ELSE; END",
        5,
        1,
    ),
    (2, "UFINDOR r1 t2; UKILL r2 t2; LEN r3 r1; ELSE; END", 3, 1),
    (
        2,
        "UFIND r1 t2; UFIND r2 t2; CLEAR r1; LEN r3 r2; ELSE; END; ELSE; END",
        4,
        1,
    ),
    (
        2,
        "NEW r1 t2; REF r2 r1; DROP r1; LEN r3 r2; ELSE; END",
        4,
        1,
    ),
    (
        2,
        "NEW r1 t2; REF r2 r1; PUSH r3 r2; DROP r1; LOAD r4 r3; ELSE; END; ELSE; END",
        5,
        1,
    ),
    (2, "NEW r1 t2; DROP r1; REF r2 r1; ELSE; END", 3, 1),
    (0, "FORGET r0; LOAD r1 r0", 2, 1),
    // what is known in one part only, or differs between the parts
    (0, "GETB r1; CONST r2 1; ELSE; END; OUTI r2", 5, 1),
    (
        0,
        "CONST r2 1; IF r2; MOV r3 r0; ELSE; CONST r3 1; END; OUTI r3",
        7,
        1,
    ),
    (0, "CONST r1 1; WHILE r1 3; CONST r2 1; END; OUTI r2", 5, 1),
];

// References that an instruction doesn't end.
static KEPT: [Accepted; 16] = [
    (
        2,
        "PUSH r1 r0; LEN r6 r0; LOAD r2 r1; ELSE; LEN r6 r0; END",
        4,
    ),
    (
        2,
        "FINDOR r5 - t2 k3; PUSH r1 r0; LEN r6 r5; ELSE; END; ELSE; END",
        4,
    ),
    (1, "MOV r5 r0; SETS r1 r0 k0; OUTS r5; ELSE; END", 4),
    (1, "MOV r5 r0; ADDS r1 r0 k0; OUTS r5; ELSE; END", 4),
    (
        1,
        "CONST r2 65; MOV r5 r0; ADDB r1 r0 r2; OUTS r5; ELSE; END",
        5,
    ),
    (1, "MOV r5 r0; SHRINK r0; OUTS r5", 4),
    (2, "KILL r1 - t2 k3; LEN r6 r0", 3),
    (2, "UFINDOR r1 t2; UKILL r2 t3; LEN r3 r1; ELSE; END", 4),
    (2, "MOV r5 r0; FORGET r0; LEN r6 r5", 4),
    (
        6,
        "NEW r2 t0; PUT r0 r2; CONTENT r3 r0; ELSE; END; ELSE; END",
        4,
    ),
    (
        0,
        "NEW r1 t2; NEW r2 t2; REF r3 r1; REF r4 r2; DROP r1; LEN r5 r4; DROP r2; ELSE; DROP r1; END; ELSE; END",
        8,
    ),
    (
        0,
        "GETB r1; CONST r2 1; ELSE; CONST r2 2; END; ADD r3 r1 r2",
        4,
    ),
    (
        0,
        "NEW r1 t0; CONST r2 1; IF r2; ELSE; END; DROP r1; ELSE; END",
        5,
    ),
    (0, "CONST r1 1; WHILE r1 3; CONST r2 1; END", 9),
    (
        0,
        "CONST r1 1; WHILE r1 3; CONST r1 0; LOAD r2 r0; END; LOAD r2 r0",
        13,
    ),
    (
        0,
        "NEW r1 t0; CONST r2 1; WHILE r2 2; REF r3 r1; LOAD r4 r3; END; DROP r1; ELSE; END",
        11,
    ),
];

// Owners that are lost on one of two paths, and registers that a loop's body changes.
static JOINS: [Rejected; 8] = [
    (0, "NEW r1 t0; ELSE; END", 3, 2),
    (6, "TAKE r1 r0; ELSE; END", 3, 2),
    (
        0,
        "NEW r1 t0; CONST r2 1; IF r2; DROP r1; ELSE; END; ELSE; END",
        6,
        2,
    ),
    (
        0,
        "NEW r1 t0; CONST r2 1; IF r2; ELSE; DROP r1; END; ELSE; END",
        6,
        2,
    ),
    (0, "CONST r1 1; WHILE r1 3; MOV r1 r0; END", 4, 4),
    (
        0,
        "NEW r1 t0; CONST r2 1; WHILE r2 2; DROP r1; END; ELSE; END",
        5,
        4,
    ),
    (
        2,
        "CONST r2 1; PUSH r1 r0; WHILE r2 2; POP r3 r0; ELSE; END; END; ELSE; END",
        7,
        4,
    ),
    (0, "CONST r1 1; WHILE r1 3; FORGET r0; END", 4, 4),
];

#[test]
fn references_that_end(rt: HostRuntime) {
    for row in &ENDED {
        check_rejected(&rt, row);
    }
}

#[test]
fn references_that_stay(rt: HostRuntime) {
    for row in &KEPT {
        check_accepted(&rt, row);
    }
}

#[test]
fn parts_that_end_apart(rt: HostRuntime) {
    for row in &JOINS {
        check_rejected(&rt, row);
    }
}
