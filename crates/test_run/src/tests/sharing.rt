//! Clients that freeze, share and read objects. Outputs and heaps are worked out by hand: an empty segment of 1024 bytes has a
//! heap of 320 bytes at 704, in which a number, a cell and a frozen number take 32 bytes each.

use crate::tests::plays::{Play, play_each};
use std::test::Fail;
use support_data::{COUNT, KINDS, NOTICE, PUBLISH, SEQ_FLAT};

/// Freezes a number into a cell, shares it with another cell, destroys the first cell, and reads the number through the second.
pub(crate) const SHARE: &str = "type i64
    type shared t0
    name a
    name b
    CONST r4 7
    MAKE r0 - - t1 k0
      MAKE r1 - - t1 k1
        NEW r2 t0
          REF r3 r2
          STORE r3 r4
          FREEZE r5 r0 r2
            SHARE r1 r0
            KILL r6 - t1 k0
            CONTENT r7 r1
              LOAD r8 r7
              OUTI r8
            ELSE
            END
          ELSE
            DROP r2
          END
        ELSE
        END
      ELSE
      END
    ELSE
    END";

/// Freezes a number into the cell `a`, or prints the code.
const FREEZE: &str = "type i64
    type shared t0
    name a
    CONST r4 7
    MAKE r0 - - t1 k0
      NEW r2 t0
        REF r3 r2
        STORE r3 r4
        FREEZE r5 r0 r2
        ELSE
          OUTI r5
          DROP r2
        END
      ELSE
      END
    ELSE
    END";

/// Freezes a struct into `h`, then another one that shares the first. At the end `h` shares the first again.
const REPLACE: &str = "type i64
    type shared t2
    type struct t0 t1
    name h
    MAKE r0 - - t1 k0
      NEW r1 t2
        FREEZE r2 r0 r1
          NEW r1 t2
            REF r3 r1
            FIELD r4 r3 1
            SHARE r4 r0
            FREEZE r2 r0 r1
              CONTENT r5 r0
                FIELD r6 r5 1
                SHARE r0 r6
              ELSE
              END
            ELSE
              DROP r1
            END
          ELSE
          END
        ELSE
          DROP r1
        END
      ELSE
      END
    ELSE
    END";

/// Freezes a struct with a value of each kind into `h`.
const FREEZE_EACH_KIND: &str = "type i64
    type str
    type vec t0
    type list t0
    type flat_map t0
    type map t0
    type own t0
    type shared t0
    type struct t0 t1 t2 t3 t4 t5 t6 t7
    type shared t8
    name h
text abc
    CONST r7 -5
    MAKE r0 - - t9 k0
      NEW r1 t8
        REF r2 r1
        FIELD r3 r2 0
        CONST r4 11
        STORE r3 r4
        FIELD r3 r2 1
        SETS r5 r3 k1
        ELSE
        END
        FIELD r3 r2 2
        CONST r4 12
        PUSH r6 r3
          STORE r6 r4
        ELSE
        END
        REF r2 r1
        FIELD r3 r2 3
        CONST r4 13
        PUSHF r6 r3
          STORE r6 r4
        ELSE
        END
        REF r2 r1
        FIELD r3 r2 4
        CONST r4 14
        PUTK r6 r3 r7
          STORE r6 r4
        ELSE
        END
        REF r2 r1
        FIELD r3 r2 5
        CONST r4 15
        PUTK r6 r3 r7
          STORE r6 r4
        ELSE
        END
        REF r2 r1
        FIELD r3 r2 6
        CONST r4 16
        NEW r8 t0
          REF r9 r8
          STORE r9 r4
          PUT r3 r8
        ELSE
        END
        REF r2 r1
        FIELD r3 r2 7
        CONST r4 17
        NEW r8 t0
          REF r9 r8
          STORE r9 r4
          FREEZE r5 r3 r8
          ELSE
            DROP r8
          END
        ELSE
        END
        FREEZE r5 r0 r1
          OUTI r5
        ELSE
          DROP r1
        END
      ELSE
      END
    ELSE
    END";

/// Reads each of these values, by each instruction that reads it.
const READ_EACH_KIND: &str = "type i64
    type str
    type vec t0
    type list t0
    type flat_map t0
    type map t0
    type own t0
    type shared t0
    type struct t0 t1 t2 t3 t4 t5 t6 t7
    type shared t8
    name h
    FIND r0 - - t9 k0
      CONTENT r1 r0
        CONST r10 0
        CONST r11 1
        FIELD r2 r1 0
        LOAD r3 r2
        OUTI r3
        FIELD r2 r1 1
        OUTS r2
        LEN r3 r2
        OUTI r3
        AT r3 r2 r11
          OUTI r3
        ELSE
        END
        FIELD r2 r1 2
        LEN r3 r2
        OUTI r3
        AT r4 r2 r10
          LOAD r3 r4
          OUTI r3
        ELSE
        END
        FIELD r2 r1 3
        LEN r3 r2
        OUTI r3
        AT r4 r2 r10
          MOV r5 r4
          LOAD r3 r5
          OUTI r3
        ELSE
        END
        AT r4 r2 r11
        ELSE
          OUTI r4
        END
        FIELD r2 r1 4
        LEN r3 r2
        OUTI r3
        FIRSTK r5 r2
          OUTI r5
          GETK r6 r2 r5
            LOAD r3 r6
            OUTI r3
          ELSE
          END
          NEXTK r6 r2 r5
          ELSE
            OUTI r6
          END
        ELSE
        END
        FIELD r2 r1 5
        LEN r3 r2
        OUTI r3
        FIRSTK r5 r2
          OUTI r5
          GETK r6 r2 r5
            LOAD r3 r6
            OUTI r3
          ELSE
          END
          NEXTK r6 r2 r5
          ELSE
            OUTI r6
          END
        ELSE
        END
        FIELD r2 r1 6
        CONTENT r4 r2
          LOAD r3 r4
          OUTI r3
        ELSE
        END
        FIELD r2 r1 7
        CONTENT r4 r2
          LOAD r3 r4
          OUTI r3
          MOV r5 r2
          FORGET r2
          CONTENT r4 r5
            LOAD r3 r4
            OUTI r3
          ELSE
          END
        ELSE
        END
      ELSE
      END
    ELSE
    END";

static PLAYS: [Play; 7] = [
    // A frozen number is shared and read.
    Play {
        kinds: &KINDS,
        clients: &[("share", SHARE)],
        text: r"$ client kill
            type i64
            type shared t0
            name b
            KILL r0 - t1 k0
            OUTI r0
        $ on 1024 share; free 208 named 1 steps 12
        7
        $ then kill; free 320 named 0 largest 320
        1
        $ on 1024 share takes 1; free 208 named 1
        7\",
    },
    // The cell `b` is at 800, and the frozen object at 864: its count, its number and its value. The word at 28 is the next number.
    // If no number is left, nothing is frozen, and the object can still be dropped. In the last image the cell `h` is at 720. It
    // shares the first struct, which was made at 784 and frozen to 832. The second one was frozen to 880, which is free again.
    Play {
        kinds: &[SEQ_FLAT],
        clients: &[
            ("share", SHARE),
            ("count", COUNT),
            ("freeze", FREEZE),
            ("replace", REPLACE),
        ],
        text: "$ on 1024 share
        7
        $ has 28=1 800->864 804=1 864=1 868=0 872:7
        $ then count count; free 176 named 2
        1
        2
        $ has 28=1 800->864 804=1 864=1 868=0 872:7
        $ on 1024 share
        7
        $ change 28=0xffffffff
        $ then freeze; free 176 named 2
        7
        $ on 1024 replace
        $ has 28=2 720->832 724=1 832=1 836=0 840:0 848->null 852=0",
    },
    // A cell shares the object of its content.
    Play {
        kinds: &KINDS,
        clients: &[("replace", REPLACE)],
        text: "$ on 1024 replace; free 192 named 1",
    },
    // The unique cell shares a frozen 7, and an object with the value 8 takes the last free block. It can't be frozen, and both
    // objects stay. A block of 32 bytes uses up a free block of 48, since 16 bytes can't be a block.
    Play {
        kinds: &KINDS,
        clients: &[],
        text: "$ client freeze
            type i64
            type shared t0
            CONST r4 7
            CONST r9 8
            UMAKE r0 t1
              NEW r2 t0
                REF r3 r2
                STORE r3 r4
                FREEZE r5 r0 r2
                ELSE
                  DROP r2
                END
              ELSE
              END
              NEW r2 t0
                REF r3 r2
                STORE r3 r9
                FREEZE r5 r0 r2
                ELSE
                  OUTI r5
                  REF r3 r2
                  LOAD r6 r3
                  OUTI r6
                  DROP r2
                END
              ELSE
              END
              CONTENT r7 r0
                LOAD r8 r7
                OUTI r8
              ELSE
              END
            ELSE
            END
        $ on 800 freeze; free 32 unique 1
        2
        8
        7
        $ on 816 freeze; free 32 unique 1
        2
        8
        7
        $ on 832 freeze; free 64 unique 1
        8",
    },
    // Sharing from an empty cell empties the other cell. Sharing from the cell itself changes nothing.
    Play {
        kinds: &KINDS,
        clients: &[("share", SHARE)],
        text: "$ client itself
            type i64
            type shared t0
            name b
            FIND r0 - - t1 k0
              SHARE r0 r0
              MOV r2 r0
              SHARE r2 r0
              CONTENT r1 r2
                LOAD r1 r1
                OUTI r1
              ELSE
              END
            ELSE
            END
        $ client nothing
            type i64
            type shared t0
            name b
            name c
            MAKE r2 - - t1 k1
              FIND r0 - - t1 k0
                SHARE r0 r2
                CONTENT r1 r0
                ELSE
                  OUTI r1
                END
                SHARE r0 r2
              ELSE
              END
            ELSE
            END
            KILL r3 - t1 k1
        $ on 1024 share itself; free 208 named 1
        7
        7
        $ then nothing itself; free 240 named 1
        6",
    },
    // The numbers of the struct are 11 to 17 in the order of its fields; the key is -5, and `b` is 98.
    Play {
        kinds: &KINDS,
        clients: &[("freeze", FREEZE_EACH_KIND), ("read", READ_EACH_KIND)],
        text: r"$ client kill
            type i64
            type str
            type vec t0
            type list t0
            type flat_map t0
            type map t0
            type own t0
            type shared t0
            type struct t0 t1 t2 t3 t4 t5 t6 t7
            type shared t8
            name h
            KILL r0 - t9 k0
        $ on 4096 freeze; named 1
        1
        $ then read; named 1
        11
        abc\
        3
        98
        1
        12
        1
        13
        5
        1
        -5
        14
        6
        1
        -5
        15
        6
        16
        17
        17
        $ then kill; named 0 free 3392 largest 3392",
    },
    // A notice is published and printed, twice. Before that there is no notice to print.
    Play {
        kinds: &KINDS,
        clients: &[("publish", PUBLISH), ("notice", NOTICE)],
        text: "$ on 2048 notice publish notice; named 2
        no notice
        7
        closed on Monday
        $ then publish notice; named 2
        7
        closed on Monday",
    },
];

#[test]
fn each_play(rt: HostRuntime) -> Result<(), Fail> {
    play_each(rt.alloc(), &PLAYS)
}
