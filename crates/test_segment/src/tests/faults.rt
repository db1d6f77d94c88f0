//! The first fault of each image is the one that is written.

use crate::tests::blocks::BLOCKS;
use crate::tests::calls::play;
use crate::tests::frozen::FROZEN;
use crate::tests::lists::LISTS;
use crate::tests::maps::MAPS;
use crate::tests::names::NAMES;
use crate::tests::order::ORDER;
use crate::tests::types::TYPES;
use crate::tests::values::VALUES;
use std::test::Fail;

static TEXTS: [&str; 8] = [TYPES, BLOCKS, NAMES, VALUES, LISTS, MAPS, FROZEN, ORDER];

#[test]
fn finds_the_first_fault(rt: HostRuntime) -> Result<(), Fail> {
    for text in &TEXTS {
        play(rt.alloc(), text)?;
    }
    Ok(())
}
