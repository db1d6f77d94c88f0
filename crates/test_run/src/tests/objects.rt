use crate::tests::plays::{Play, play_each};
use std::test::Fail;
use support_data::{BEST_FLAT, BEST_TREE, KINDS, SEQ_FLAT, SEQ_TREE};

/// Makes x, stores 42 and prints it, or prints the code.
const MAKE: &str = "type i64
    name x
    MAKE r0 - - t0 k0
      CONST r1 42
      STORE r0 r1
      OUTI r1
    ELSE
      OUTI r0
    END";

/// Makes an array of three numbers, stores 9 in the last one, and prints the count and this number.
const ROWS: &str = "type i64
    family row
    CONST r0 -5
    CONST r1 3
    CONST r2 9
    CONST r4 2
    MAKE r3 r0 r1 t0 k0
      FIND r5 r0 r4 t0 k0
        STORE r5 r2
      ELSE
      END
    ELSE
    END
    COUNT r6 r0 t0 k0
      OUTI r6
    ELSE
    END
    FIND r5 r0 r4 t0 k0
      LOAD r6 r5
      OUTI r6
    ELSE
    END";

/// Prints the code of each call that [`ROWS`]'s array refuses: for a missing item, another type, a name without an object, a wrong
/// count, and an existing name.
const REFUSED: &str = "type i64
    type str
    family row
    CONST r0 -5
    CONST r1 3
    FIND r5 r0 r1 t0 k0
    ELSE
      OUTI r5
    END
    FIND r5 r0 r0 t0 k0
    ELSE
      OUTI r5
    END
    COUNT r6 r0 t1 k0
    ELSE
      OUTI r6
    END
    COUNT r6 r1 t0 k0
    ELSE
      OUTI r6
    END
    MAKE r3 r0 r0 t1 k0
    ELSE
      OUTI r3
    END
    MAKE r3 r0 - t1 k0
    ELSE
      OUTI r3
    END
    FINDOR r3 r0 t1 k0
    ELSE
      OUTI r3
    END";

/// Makes the unique pair with a 9 in its second field, and fails to make it again.
const MAKE_PAIR: &str = "type i64
    type struct t0 t0
    UMAKE r0 t1
      FIELD r1 r0 1
      CONST r2 9
      STORE r1 r2
      UMAKE r3 t1
      ELSE
        OUTI r3
      END
      LOAD r4 r1
      OUTI r4
    ELSE
    END";

/// Finds the unique pair by both instructions, and no unique number.
const FIND_PAIR: &str = "type i64
    type struct t0 t0
    UFIND r0 t1
      FIELD r1 r0 1
      LOAD r4 r1
      OUTI r4
    ELSE
    END
    UFIND r0 t0
    ELSE
      OUTI r0
    END
    UFINDOR r0 t1
      FIELD r1 r0 1
      LOAD r4 r1
      OUTI r4
    ELSE
    END";

/// Destroys the unique pair, and finds none to destroy afterwards.
const KILL_PAIR_TWICE: &str = "type i64
    type struct t0 t0
    UKILL r0 t1
    OUTI r0
    UKILL r0 t1
    OUTI r0";

/// Makes two numbers, and the second one again.
const MAKE_TWO: &str = "type i64
    name y
    name x
    MAKE r0 - - t0 k0
    ELSE
    END
    MAKE r0 - - t0 k1
    ELSE
    END
    MAKE r0 - - t0 k1
    ELSE
      OUTI r0
    END";

/// Destroys the two numbers.
const KILL_TWO: &str = "type i64
    name x
    name y
    KILL r0 - t0 k0
    KILL r0 - t0 k1";

static PLAYS: [Play; 8] = [
    // The object has 2 units.
    Play {
        kinds: &KINDS,
        clients: &[("make", MAKE)],
        text: "$ on 1024 make; free 240 named 1
        42
        $ on 784 make; free 0 named 1
        42
        $ on 752 make; free 48 named 0
        2
        $ on 736 make; free 32 named 0
        2",
    },
    // A flat index prefers 3 units, and accepts 2.
    Play {
        kinds: &[SEQ_FLAT, BEST_FLAT],
        clients: &[
            ("make", MAKE),
            ("make_two", MAKE_TWO),
            ("kill_two", KILL_TWO),
        ],
        text: "$ on 768 make; free 0 named 1
        42
        $ on 1024 make_two; free 208 named 2
        1
        $ then kill_two; free 320 named 0",
    },
    // A node of a tree index has 3 units.
    Play {
        kinds: &[SEQ_TREE, BEST_TREE],
        clients: &[
            ("make", MAKE),
            ("make_two", MAKE_TWO),
            ("kill_two", KILL_TWO),
        ],
        text: "$ on 768 make; free 64 named 0
        2
        $ on 1024 make_two; free 160 named 2
        1
        $ then kill_two; free 320 named 0",
    },
    // Destroys an object once.
    Play {
        kinds: &KINDS,
        clients: &[("make", MAKE)],
        text: "$ client kill_twice
            type i64
            name x
            KILL r0 - t0 k0
            OUTI r0
            KILL r0 - t0 k0
            OUTI r0
        $ on 1024 make kill_twice; free 320 largest 320 named 0
        42
        1
        0",
    },
    // An empty shared cell is as large as a number. Clients without types of shared cells run on the same image.
    Play {
        kinds: &KINDS,
        clients: &[],
        text: "$ client make
            type i64
            type shared t0
            name x
            MAKE r0 - - t1 k0
              CONST r1 7
              OUTI r1
            ELSE
              OUTI r0
            END
        $ client number
            type i64
            name y
            MAKE r0 - - t0 k0
            ELSE
            END
        $ client other
            type i64
            name x
            FIND r0 - - t0 k0
            ELSE
              OUTI r0
            END
        $ client kill
            type i64
            type shared t0
            name x
            FIND r0 - - t1 k0
              CONST r1 5
              OUTI r1
            ELSE
            END
            KILL r0 - t1 k0
            OUTI r0
        $ on 1024 make; free 240 named 1
        7
        $ then make other; free 240 named 1
        1
        4
        $ then kill; free 320 named 0
        5
        1
        $ on 1024 number make; named 2
        7",
    },
    // The second client has one more type, and refers to the array of the first.
    Play {
        kinds: &KINDS,
        clients: &[("rows", ROWS), ("refused", REFUSED)],
        text: "$ on 1024 rows refused
        3
        9
        5
        5
        4
        3
        5
        1
        4",
    },
    // Unique objects.
    Play {
        kinds: &KINDS,
        clients: &[
            ("make", MAKE_PAIR),
            ("find", FIND_PAIR),
            ("kill_twice", KILL_PAIR_TWICE),
        ],
        text: "$ on 1024 make; free 288 named 0 unique 1
        1
        9
        $ then find kill_twice; free 320 named 0
        9
        3
        9
        1
        0",
    },
    // A client reads two bytes of the input, or prints the code at its end. Each client reads the input that the clients before it
    // left.
    Play {
        kinds: &[SEQ_FLAT],
        clients: &[],
        text: "$ client twice
            GETB r0
              OUTI r0
              GETB r0
              ELSE
                OUTI r0
              END
            ELSE
            END
        $ client once
            GETB r0
              OUTI r0
            ELSE
              OUTI r0
            END
        $ on 736 twice reads A; free 32 named 0
        65
        6
        $ on 736 once once once reads AB; free 32 named 0
        65
        66
        6",
    },
];

#[test]
fn each_play(rt: HostRuntime) -> Result<(), Fail> {
    play_each(rt.alloc(), &PLAYS)
}
