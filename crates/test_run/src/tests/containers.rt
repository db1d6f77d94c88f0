use crate::tests::plays::{Play, play_each};
use std::test::Fail;
use support_data::{BEST_FLAT, KINDS, SEQ_FLAT};

/// Makes a vector of five texts.
const FIVE_TEXTS: &str = "type str
    type vec t0
    name v
text a
text bb
text ccc
text dddd
text eeeee
    MAKE r0 - - t1 k0
      PUSH r1 r0
        SETS r2 r1 k1
        ELSE
        END
      ELSE
      END
      PUSH r1 r0
        SETS r2 r1 k2
        ELSE
        END
      ELSE
      END
      PUSH r1 r0
        SETS r2 r1 k3
        ELSE
        END
      ELSE
      END
      PUSH r1 r0
        SETS r2 r1 k4
        ELSE
        END
      ELSE
      END
      PUSH r1 r0
        SETS r2 r1 k5
        ELSE
        END
      ELSE
      END
    ELSE
    END";

/// Prints the texts of that vector.
const PRINT_TEXTS: &str = "type str
    type vec t0
    name v
    CONST r1 1
    FIND r0 - - t1 k0
      CONST r3 0
      LEN r4 r0
      WHILE r4 9
        AT r5 r0 r3
          OUTS r5
        ELSE
        END
        ADD r3 r3 r1
        SUB r4 r4 r1
      END
    ELSE
    END";

/// Assigns a text of 5 bytes, appends 20, and prints both lengths and the text.
const GROW_TEXT: &str = "type str
    name s
text hello
text abcdefghijklmnopqrst
    FINDOR r0 - t0 k0
      SETS r1 r0 k1
        OUTI r1
      ELSE
      END
      ADDS r1 r0 k2
        OUTI r1
      ELSE
      END
      OUTS r0
    ELSE
    END";

/// Assigns a text of one byte, and shrinks its buffer.
const SHRINK_TEXT: &str = "type str
    name s
text a
    FINDOR r0 - t0 k0
      SETS r1 r0 k1
      ELSE
      END
      SHRINK r0
    ELSE
    END";

/// Pops the only byte of a text, prints the code of a second pop, and shrinks the buffer.
const EMPTY_TEXT: &str = "type str
    name s
    FINDOR r0 - t0 k0
      POP r1 r0
        OUTI r1
      ELSE
      END
      POP r1 r0
      ELSE
        OUTI r1
      END
      SHRINK r0
    ELSE
    END";

/// Pushes three numbers at the back of a list, and one at its front.
const PUSH_NUMBERS: &str = "type i64
    type list t0
    name l
    CONST r2 7
    MAKE r0 - - t1 k0
      PUSH r1 r0
        STORE r1 r2
      ELSE
      END
      PUSH r1 r0
      ELSE
      END
      PUSH r1 r0
      ELSE
      END
      PUSHF r1 r0
        CONST r2 8
        STORE r1 r2
      ELSE
      END
    ELSE
    END";

/// Pops the last number of the list, and prints how many remain and the second one.
const POP_NUMBER: &str = "type i64
    type list t0
    name l
    CONST r2 1
    FIND r0 - - t1 k0
      POP r1 r0
        OUTI r1
      ELSE
      END
      AT r1 r0 r2
        LOAD r1 r1
        OUTI r1
      ELSE
      END
    ELSE
    END";

/// Clears the list, and prints the code of another pop.
const CLEAR_LIST: &str = "type i64
    type list t0
    name l
    FIND r0 - - t1 k0
      CLEAR r0
      POPF r1 r0
      ELSE
        OUTI r1
      END
    ELSE
    END";

/// Destroys the list.
const KILL_LIST: &str = "type i64
    type list t0
    name l
    KILL r0 - t1 k0";

static PLAYS: [Play; 5] = [
    // The fifth push has no room for 8 items, and gets room for fewer. The last text gets the block of the old buffer. The output
    // fails in the third text.
    Play {
        kinds: &[SEQ_FLAT],
        clients: &[("make", FIVE_TEXTS), ("print", PRINT_TEXTS)],
        text: r"$ on 1024 make print; free 0 named 1
        abbcccddddeeeee\
        $ on 1024 make print takes 4; free 0 named 1
        abbc\
        $ then print
        abbcccddddeeeee\",
    },
    Play {
        kinds: &[BEST_FLAT],
        clients: &[("make", FIVE_TEXTS), ("print", PRINT_TEXTS)],
        text: r"$ on 1024 make print
        abbcccddddeeeee\",
    },
    // A text of 5 bytes has a buffer of 2 units, and one of 25 bytes a buffer of 3 in the same place. Shrinking frees the units
    // that aren't needed.
    Play {
        kinds: &[SEQ_FLAT],
        clients: &[
            ("grow", GROW_TEXT),
            ("shrink", SHRINK_TEXT),
            ("empty", EMPTY_TEXT),
        ],
        text: r"$ on 1024 grow; free 192 named 1
        5
        25
        helloabcdefghijklmnopqrst\
        $ then shrink; free 208 named 1
        $ then empty; free 240 named 1
        0
        6",
    },
    // The bytes of a text, one by one.
    Play {
        kinds: &KINDS,
        clients: &[],
        text: "$ client bytes
            type str
            name s
            CONST r1 255
            CONST r2 256
            CONST r3 0
            CONST r4 -1
            CONST r5 1
            FINDOR r0 - t0 k0
              ADDB r6 r0 r1
                OUTI r6
              ELSE
              END
              ADDB r6 r0 r2
              ELSE
                OUTI r6
              END
              ADDB r6 r0 r4
              ELSE
                OUTI r6
              END
              AT r6 r0 r3
                OUTI r6
              ELSE
              END
              AT r6 r0 r5
              ELSE
                OUTI r6
              END
              AT r6 r0 r4
              ELSE
                OUTI r6
              END
              LEN r6 r0
              OUTI r6
            ELSE
            END
        $ on 1024 bytes
        1
        5
        5
        255
        5
        5
        1",
    },
    // Each node of a list of numbers has 2 units.
    Play {
        kinds: &[SEQ_FLAT],
        clients: &[
            ("push", PUSH_NUMBERS),
            ("pop", POP_NUMBER),
            ("clear", CLEAR_LIST),
            ("kill", KILL_LIST),
        ],
        text: "$ on 1024 push; free 112 named 1
        $ then pop; free 144 named 1
        3
        7
        $ then clear; free 240 named 1
        6
        $ then kill; free 320 named 0",
    },
];

#[test]
fn each_play(rt: HostRuntime) -> Result<(), Fail> {
    play_each(rt.alloc(), &PLAYS)
}
