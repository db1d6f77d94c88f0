//! Segments of several sizes: which requests have room, and that all memory is free after all objects are destroyed.

use crate::tests::plays::{Play, play_each};
use std::test::Fail;
use support_data::{KINDS, MAKE_EACH_KIND, SEQ_FLAT};

/// Destroys the objects that [`MAKE_EACH_KIND`] makes.
const KILL_EACH_KIND: &str = "type i64
    type str
    type vec t1
    type list t0
    type flat_map t0
    type map t1
    type own t7
    type struct t0 t1
    name a
    name b
    name c
    name d
    name e
    family f
    CONST r1 7
    KILL r0 - t0 k0
    KILL r0 - t1 k1
    KILL r0 - t2 k2
    KILL r0 - t3 k3
    KILL r0 - t4 k4
    KILL r0 r1 t5 k5
    UKILL r0 t6
    UKILL r0 t7";

/// The types of [`MAKE_EACH_KIND`] and a type of shared cells. Freezes a number into a unique cell.
const FREEZE: &str = "type i64
    type str
    type vec t1
    type list t0
    type flat_map t0
    type map t1
    type own t7
    type struct t0 t1
    type shared t0
    UMAKE r0 t8
      NEW r3 t0
        FREEZE r4 r0 r3
        ELSE
          OUTI r4
          DROP r3
        END
      ELSE
        OUTI r3
      END
    ELSE
      OUTI r0
    END";

/// Destroys that cell, and the number with it.
const RELEASE: &str = "type i64
    type str
    type vec t1
    type list t0
    type flat_map t0
    type map t1
    type own t7
    type struct t0 t1
    type shared t0
    UKILL r0 t8";

static PLAYS: [Play; 2] = [
    // The smallest segment has room for the cell alone: no room for the number to freeze, six named objects, and the second and the
    // third unique one. The larger one has room for all.
    Play {
        kinds: &KINDS,
        clients: &[
            ("freeze", FREEZE),
            ("make", MAKE_EACH_KIND),
            ("kill", KILL_EACH_KIND),
            ("release", RELEASE),
        ],
        text: "$ on 736 freeze make; free 0 named 0 unique 1
        2
        2
        2
        2
        2
        2
        2
        2
        2
        $ then kill release; free 32 named 0 unique 0
        $ on 4096 freeze make; named 6 unique 3
        $ then kill release; free 3392 largest 3392 named 0 unique 0",
    },
    // Prints the length of a vector after a push, or the code. The object has 2 units, or 3; the index 2 or 3; and the vector's
    // buffer 3 for four numbers, or 2 for one.
    Play {
        kinds: &[SEQ_FLAT],
        clients: &[],
        text: "$ client push
            type i64
            type vec t0
            name v
            MAKE r0 - - t1 k0
              PUSH r1 r0
                LEN r2 r0
                OUTI r2
              ELSE
                OUTI r1
              END
            ELSE
              OUTI r0
            END
        $ on 736 push; named 0 free 32
        2
        $ on 752 push; named 0 free 48
        2
        $ on 768 push; named 1 free 0
        2
        $ on 784 push; named 1 free 0
        2
        $ on 800 push; named 1 free 0
        2
        $ on 816 push; named 1 free 0
        1
        $ on 832 push; named 1 free 0
        1
        $ on 848 push; named 1 free 0
        1
        $ on 864 push; named 1 free 32
        1",
    },
];

#[test]
fn each_play(rt: HostRuntime) -> Result<(), Fail> {
    play_each(rt.alloc(), &PLAYS)
}
