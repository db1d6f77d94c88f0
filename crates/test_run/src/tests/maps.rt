use crate::tests::plays::{Play, play_each};
use std::test::Fail;
use support_data::{KINDS, SEQ_FLAT};

/// Makes a map of each kind with the smallest and the largest number as keys. Prints the first key, the next key, and the code
/// after the last one.
const PRINT_KEYS: &str = "type i64
    type flat_map t0
    type map t0
    name flat
    name tree
    CONST r1 -2147483648
    CONST r2 1
    MUL r3 r1 r1
    ADD r3 r3 r3
    SUB r4 r3 r2
    MAKE r0 - - t1 k0
      PUTK r5 r0 r4
      ELSE
      END
      PUTK r5 r0 r3
      ELSE
      END
      FIRSTK r6 r0
        OUTI r6
        NEXTK r6 r0 r6
          OUTI r6
          NEXTK r6 r0 r6
          ELSE
            OUTI r6
          END
        ELSE
        END
      ELSE
      END
    ELSE
    END
    MAKE r0 - - t2 k1
      PUTK r5 r0 r4
      ELSE
      END
      PUTK r5 r0 r3
      ELSE
      END
      FIRSTK r6 r0
        OUTI r6
        NEXTK r6 r0 r6
          OUTI r6
          NEXTK r6 r0 r6
          ELSE
            OUTI r6
          END
        ELSE
        END
      ELSE
      END
    ELSE
    END";

/// Puts four numbers into a flat map, each with itself as its key.
const PUT_FOUR: &str = "type i64
    type flat_map t0
    name m
    CONST r1 3
    CONST r2 1
    CONST r3 2
    CONST r4 4
    FINDOR r0 - t1 k0
      PUTK r5 r0 r1
        STORE r5 r1
      ELSE
      END
      PUTK r5 r0 r2
        STORE r5 r2
      ELSE
      END
      PUTK r5 r0 r3
        STORE r5 r3
      ELSE
      END
      PUTK r5 r0 r4
        STORE r5 r4
      ELSE
      END
    ELSE
    END";

/// Puts a fifth key, and prints the results of calls before and after it. Then deletes a key twice.
const PUT_FIFTH: &str = "type i64
    type flat_map t0
    name m
    CONST r1 5
    CONST r2 1
    FINDOR r0 - t1 k0
      GETK r5 r0 r1
      ELSE
        OUTI r5
      END
      PUTK r5 r0 r1
        LOAD r5 r5
        OUTI r5
      ELSE
      END
      GETK r5 r0 r2
        LOAD r5 r5
        OUTI r5
      ELSE
      END
      DELK r5 r0 r2
      OUTI r5
      DELK r5 r0 r2
      OUTI r5
      LEN r5 r0
      OUTI r5
    ELSE
    END";

static PLAYS: [Play; 3] = [
    Play {
        kinds: &KINDS,
        clients: &[("print_keys", PRINT_KEYS)],
        text: "$ on 2048 print_keys; named 2
        -9223372036854775808
        9223372036854775807
        6
        -9223372036854775808
        9223372036854775807
        6",
    },
    // A flat map of 4 numbers has a buffer of 5 units, and one of 5 numbers a buffer of 9 units in the same place.
    Play {
        kinds: &[SEQ_FLAT],
        clients: &[("put_four", PUT_FOUR), ("put_fifth", PUT_FIFTH)],
        text: "$ on 1024 put_four; free 160 named 1
        $ then put_fifth; free 96 named 1
        3
        0
        1
        1
        0
        4",
    },
    // A node of a map of numbers has 3 units.
    Play {
        kinds: &[SEQ_FLAT],
        clients: &[],
        text: "$ client put
            type i64
            type map t0
            name m
            CONST r1 3
            CONST r2 1
            CONST r3 2
            FINDOR r0 - t1 k0
              PUTK r5 r0 r1
              ELSE
              END
              PUTK r5 r0 r2
              ELSE
              END
              PUTK r5 r0 r3
              ELSE
              END
            ELSE
            END
        $ on 1024 put; free 96 named 1",
    },
];

#[test]
fn each_play(rt: HostRuntime) -> Result<(), Fail> {
    play_each(rt.alloc(), &PLAYS)
}
