use crate::tests::plays::{Play, play_each, plays_with};
use std::test::Fail;
use support_data::{BEST_TREE, KINDS, SEQ_FLAT, chain};

/// A chain of 20,000 objects, each of which owns the one before, is made and destroyed.
#[test]
fn a_chain_of_owners(rt: HostRuntime) -> Result<(), Fail> {
    let chain = chain(rt.alloc(), 20_000)?;
    plays_with(
        rt.alloc(),
        &[SEQ_FLAT, BEST_TREE],
        &[("chain", chain.as_str())],
        "$ on 1048576 chain; free 1047872 named 0 largest 1047872 steps 160004",
    )
}

static PLAYS: [Play; 2] = [
    // The object of an own is destroyed when it is replaced, cleared, or dropped with its owner.
    Play {
        kinds: &KINDS,
        clients: &[],
        text: "$ client owners
            type i64
            type own t0
            CONST r1 5
            NEW r0 t1
              REF r2 r0
              CONTENT r3 r2
              ELSE
                OUTI r3
              END
              TAKE r3 r2
                DROP r3
              ELSE
                OUTI r3
              END
              NEW r3 t0
                REF r4 r3
                STORE r4 r1
                PUT r2 r3
              ELSE
              END
              CONTENT r3 r2
                LOAD r3 r3
                OUTI r3
              ELSE
              END
              NEW r3 t0
                PUT r2 r3
              ELSE
              END
              CLEAR r2
              NEW r3 t0
                PUT r2 r3
              ELSE
              END
              DROP r0
            ELSE
            END
        $ on 1024 owners; free 320 named 0
        6
        6
        5",
    },
    // The output fails while a register owns an object, which is destroyed then. The second client doesn't run.
    Play {
        kinds: &KINDS,
        clients: &[],
        text: r"$ client print
            type i64
            NEW r0 t0
              CONST r1 42
              OUTI r1
              DROP r0
            ELSE
            END
        $ on 1024 print print takes 2; free 320 named 0 steps 3
        42\",
    },
];

#[test]
fn each_play(rt: HostRuntime) -> Result<(), Fail> {
    play_each(rt.alloc(), &PLAYS)
}
