//! The heap block by block, as lines of text.

use crate::lines::IndentedText;
use crate::owners::{OwnedBlock, owned_blocks};
use crate::purpose::Purpose;
use crate::roots::{Root, RootName, roots};
use cli_progress::{Pace, Watch, Work};
use seg_block::{Block, Fit};
use seg_manager::Segment;
use std::alloc::{AllocError, Global};

/// The length of the longest bar.
const LONGEST_BAR: u32 = 32;

/// The longest bar, of an allocated block.
static ALLOCATED: [u8; LONGEST_BAR as usize] = [b'#'; LONGEST_BAR as usize];

/// The longest bar, of a free block.
static FREE: [u8; LONGEST_BAR as usize] = [b'.'; LONGEST_BAR as usize];

/// A line for each block of the heap, in ascending order of position: its position in bytes, its size in units of 16 bytes, its
/// purpose, the object that it belongs to, and a bar of proportional length.
pub fn heap_lines<F: Fit>(
    alloc: Global,
    segment: &Segment<F, Global>,
    watch: &dyn Watch,
) -> Result<Vec<u8>, AllocError> {
    let roots = roots(alloc, segment, watch)?;
    let owned = owned_blocks(alloc, segment.heap(), roots.as_slice(), watch)?;
    let largest = most_units(owned.as_slice());
    let mut lines = IndentedText::new(alloc);
    let mut pace = Pace::new();
    for (number, it) in owned.iter().enumerate() {
        pace.show(watch, Work::Printing, number as u64, owned.len() as u64);
        add_block(&mut lines, it, roots.as_slice(), largest);
    }
    lines.into_bytes()
}

/// The units of the largest block.
fn most_units(owned: &[OwnedBlock]) -> u32 {
    let mut most = 1;
    for it in owned {
        most = it.block.units.max(most);
    }
    most
}

fn add_block(lines: &mut IndentedText, it: &OwnedBlock, roots: &[Root], largest: u32) {
    let Block { at, units } = it.block;
    write!(lines, "{at} {units} ");
    let longest = if it.tag.is_some() { &ALLOCATED } else { &FREE };
    lines.add_bar(longest, bar(units, largest));
    lines.add(b" ");
    lines.add(Purpose::of(it).word().as_bytes());
    if let Some(root) = root_of(it, roots) {
        add_owner(lines, root);
    }
    lines.end();
}

/// The object that a block belongs to.
pub(crate) fn root_of<'a, 'b>(it: &OwnedBlock, roots: &'b [Root<'a>]) -> Option<&'b Root<'a>> {
    roots.get(it.root? as usize)
}

/// The length of the bar of a block with this many units: at least 1.
fn bar(units: u32, largest: u32) -> u32 {
    let length = u64::from(units) * u64::from(LONGEST_BAR) / u64::from(largest.max(1));
    u32::try_from(length).unwrap_or(LONGEST_BAR).max(1)
}

pub(crate) fn add_owner(lines: &mut IndentedText, root: &Root) {
    lines.add(b" of ");
    match root.name {
        RootName::Named(name) => lines.add(name),
        RootName::Unique => lines.add_number("unique t", i64::from(root.first.type_id)),
        RootName::Frozen { number, .. } => lines.add_number("frozen ", i64::from(number)),
    }
}
