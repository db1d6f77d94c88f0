//! Data and helpers for test crates: pseudo-random numbers, images and clients written by hand from their formats, files in memory,
//! an output with a limit, tests of what a call returned, and runs of clients on segments of each kind. No function here has a contract
//! about its result, so a test with many calls has a short proof.
#![tactic(auto)]

mod changes;
mod clients;
mod comparison;
mod examples;
mod files;
mod images;
mod output;
mod random;
mod runs;
mod transcript;
mod windows;

pub use changes::{change, counter_where, number};
pub use clients::{INCREMENT, INCREMENT_FILE, MAKE_EACH_KIND, chain};
pub use comparison::{equal, is_true};
pub use examples::{CACHE, CONFIGURE, COUNT, NOTICE, PUBLISH, SETTINGS};
pub use files::Stored;
pub use images::{counter, counter_saved, front, sharing, write, write_words};
pub use output::Limited;
pub use random::Random;
pub use runs::{
    BEST_FLAT, BEST_TREE, KINDS, PLAIN, Ran, SEQ_FLAT, SEQ_TREE, SegmentKind, Setting, Statistics,
    client, created, empty, outcome_in, outcome_of, ready, run_files, statistics_of, verified,
};
pub use seg_seqfit::SeqFit;
pub use transcript::{Statement, statements};
pub use windows::{opened, placed, window};
