//! The heap block by block, as JSON.

use crate::document::Document;
use crate::json_objects::add_name;
use crate::listing::root_of;
use crate::owners::{OwnedBlock, owned_blocks};
use crate::purpose::Purpose;
use crate::roots::{Root, roots};
use cli_progress::{Pace, Watch, Work};
use seg_block::{Block, Fit};
use seg_manager::Segment;
use std::alloc::{AllocError, Global};

/// The blocks in ascending order of position: the position in bytes, the size in units of 16 bytes, the purpose, and the object
/// that the block belongs to.
pub fn heap_json<F: Fit>(
    alloc: Global,
    segment: &Segment<F, Global>,
    watch: &dyn Watch,
) -> Result<Vec<u8>, AllocError> {
    let roots = roots(alloc, segment, watch)?;
    let owned = owned_blocks(alloc, segment.heap(), roots.as_slice(), watch)?;
    let mut json = Document::new(alloc);
    let mut pace = Pace::new();
    json.begin_list("blocks");
    for (number, it) in owned.iter().enumerate() {
        pace.show(watch, Work::Printing, number as u64, owned.len() as u64);
        add_block(&mut json, it, roots.as_slice());
    }
    json.end_array();
    json.into_line()
}

fn add_block(json: &mut Document, it: &OwnedBlock, roots: &[Root]) {
    let Block { at, units } = it.block;
    json.begin_object();
    json.add_number("at", i64::from(at));
    json.add_number("units", i64::from(units));
    json.add_word("use", Purpose::of(it).word());
    if let Some(root) = root_of(it, roots) {
        json.key("of");
        json.begin_object();
        add_name(json, root);
        json.end_object();
    }
    json.end_object()
}
