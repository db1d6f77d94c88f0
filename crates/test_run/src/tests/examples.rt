//! The clients of `examples/` that share their objects.

use crate::tests::plays::{Play, play_each};
use std::test::Fail;
use support_data::{CACHE, CONFIGURE, COUNT, KINDS, SETTINGS};

static PLAYS: [Play; 3] = [
    // Clients share a counter over several runs of the program.
    Play {
        kinds: &KINDS,
        clients: &[("count", COUNT)],
        text: "$ on 1024 count count
        1
        2
        $ then count
        3
        $ on 736 count
        no room",
    },
    // Clients share settings.
    Play {
        kinds: &KINDS,
        clients: &[("configure", CONFIGURE), ("settings", SETTINGS)],
        text: "$ on 1024 settings
        no settings
        $ on 1024 configure settings configure
        1
        640
        2
        8080
        hello, world
        $ then settings
        1
        640
        2
        8080
        hello, world",
    },
    // When a fourth entry is added, the oldest one is removed.
    Play {
        kinds: &KINDS,
        clients: &[("cache", CACHE)],
        text: "$ on 2048 cache reads ABCADAC
        miss 4225
        miss 4356
        miss 4489
        hit 4225
        miss 4624
        miss 4225
        hit 4489
        $ then cache reads DB
        hit 4624
        miss 4356",
    },
];

#[test]
fn each_play(rt: HostRuntime) -> Result<(), Fail> {
    play_each(rt.alloc(), &PLAYS)
}
