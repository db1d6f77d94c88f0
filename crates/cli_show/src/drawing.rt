//! The heap as an SVG picture.

ghost use Rattle.std.specs.Prelude.{◌<◌};

use crate::lines::IndentedText;
use crate::listing::{add_owner, root_of};
use crate::objects::value_words;
use crate::owners::{OwnedBlock, owned_blocks, unowned_blocks};
use crate::purpose::{COUNT, PURPOSES, Purpose};
use crate::roots::{Root, roots};
use cli_progress::Watch;
use seg_block::{Fit, HEAP_START, Kind, Tag, UNIT};
use seg_manager::{Heap, Place, Segment};
use std::alloc::{AllocError, Global};

/// The number of cells in a row.
const COLUMNS: u32 = 128;

/// The highest number of rows.
const ROWS: u32 = 64;

/// The width and the height of a cell, in pixels. The last pixel of each is the space after it.
const WIDTH: u32 = 8;

const HEIGHT: u32 = 12;

/// The height above the first row, with the legend, in pixels.
const TOP: u32 = 40;

/// The space below and to the right of the cells, in pixels.
const MARGIN: u32 = 8;

/// The space to the left of the cells, with the positions of the rows.
const LEFT: u32 = 72;

/// How far a block that continues in another row reaches out of the row, in pixels.
const REACH: u32 = 4;

/// The bytes of a frozen object before its value.
const FROZEN_WORDS: u32 = 8;

/// A picture of the heap in rows, from its lowest unit on, coloured by the purpose of blocks, with a legend. Of a heap with at most
/// 8192 units each block is a shape, whose title describes it. In a larger heap a cell is several units and shows the block that
/// has most of them, so that the picture has at most 8192 shapes.
pub fn picture<F: Fit>(
    alloc: Global,
    segment: &Segment<F, Global>,
    watch: &dyn Watch,
) -> Result<Vec<u8>, AllocError> {
    let units = segment.window().len().saturating_sub(HEAP_START) / UNIT;
    let scale = units.div_ceil(COLUMNS * ROWS).max(1);
    let mut lines = IndentedText::new(alloc);
    add_head(&mut lines, units.div_ceil(scale).div_ceil(COLUMNS));
    if scale == 1 {
        add_blocks(&mut lines, segment, watch)?;
    } else {
        add_cells(&mut lines, segment.heap(), units, scale, watch)?;
    }
    add_rows(&mut lines, units, scale);
    lines.add(b"</svg>\n");
    lines.into_bytes()
}

/// The picture's title, and its colours on a light and on a dark page. The colours of blocks can be told apart by colour-blind
/// people too.
const HEAD: &str = "<title>The heap of a segment</title>
<style>.p{fill:#ffffff}text{fill:#1f2328}.s{font-size:9px}.o{fill:#0072b2}.f{fill:#cc79a7}.b{fill:#56b4e9}.n{fill:#009e73}.i{fill:#e69f00}.g{fill:#dde1e6}@media(prefers-color-scheme:dark){.p{fill:#0d1117}text{fill:#f0f6fc}.g{fill:#30363d}}</style>
";

/// Begins a picture with this number of rows, with its background.
fn add_head(lines: &mut IndentedText, rows: u32) {
    let (left, margin) = (LEFT, MARGIN);
    let width = LEFT + COLUMNS * WIDTH + MARGIN;
    let height = rows
        .saturating_mul(HEIGHT)
        .saturating_add(TOP)
        .saturating_add(MARGIN);
    write!(
        lines,
        "<svg xmlns=\"http://www.w3.org/2000/svg\" viewBox=\"-{left} 0 {width} {height}\" font-family=\"sans-serif\" font-size=\"14\">\n"
    );
    lines.add(HEAD.as_bytes());
    write!(
        lines,
        "<rect class=\"p\" x=\"-{left}\" width=\"{width}\" height=\"{height}\" rx=\"{margin}\"/>\n"
    );
}

/// Which purposes occur, in the order of the legend.
type Occurring = [bool; COUNT];

fn note(occurring: &mut Occurring, purpose: Purpose) {
    if let Some(occurs) = occurring.get_mut(purpose.index()) {
        *occurs = true;
    }
}

/// Adds the colours of the purposes that occur, and the size of a cell.
fn add_legend(lines: &mut IndentedText, occurring: &Occurring, scale: u32) {
    let mut x = 0u32;
    for index in 0..COUNT {
        if occurring[index] {
            add_key(lines, x, PURPOSES[index]);
            x = x.saturating_add(90);
        }
    }
    let bytes = scale.saturating_mul(UNIT);
    write!(
        lines,
        "<text x=\"{x}\" y=\"21\">a cell: {bytes} bytes</text>\n"
    );
}

/// Adds a purpose's colour and word to the legend.
fn add_key(lines: &mut IndentedText, x: u32, purpose: Purpose) {
    let (class, word) = (purpose.class(), purpose.legend());
    let after = x.saturating_add(20);
    write!(
        lines,
        "<rect class=\"{class}\" x=\"{x}\" y=\"8\" width=\"16\" height=\"16\"/><text x=\"{after}\" y=\"21\">{word}</text>\n"
    );
}

/// Adds to each row the position of its first byte.
fn add_rows(lines: &mut IndentedText, units: u32, scale: u32) {
    for row in 0..units.div_ceil(scale.max(1)).div_ceil(COLUMNS) {
        let y = row.saturating_mul(HEIGHT).saturating_add(TOP + HEIGHT - 3);
        let at = row
            .saturating_mul(COLUMNS)
            .saturating_mul(scale)
            .saturating_mul(UNIT)
            .saturating_add(HEAP_START);
        write!(
            lines,
            "<text class=\"s\" x=\"-8\" y=\"{y}\" text-anchor=\"end\">{at}</text>\n"
        );
    }
}

/// Adds a shape for each block, if a cell is a unit.
fn add_blocks<F: Fit>(
    lines: &mut IndentedText,
    segment: &Segment<F, Global>,
    watch: &dyn Watch,
) -> Result<(), AllocError> {
    let alloc = lines.alloc();
    let roots = roots(alloc, segment, watch)?;
    let owned = owned_blocks(alloc, segment.heap(), roots.as_slice(), watch)?;
    add_block_legend(lines, owned.as_slice());
    for it in &owned {
        add_block(lines, segment.heap(), it, root_of(it, roots.as_slice()))?;
    }
    Ok(())
}

fn add_block_legend(lines: &mut IndentedText, owned: &[OwnedBlock]) {
    let mut occurring = [false; COUNT];
    for it in owned {
        note(&mut occurring, Purpose::of(it));
    }
    add_legend(lines, &occurring, 1);
}

fn add_block<F: Fit>(
    lines: &mut IndentedText,
    heap: &Heap<F, Global>,
    it: &OwnedBlock,
    root: Option<&Root>,
) -> Result<(), AllocError> {
    let from = it.block.at.saturating_sub(HEAP_START) / UNIT;
    let to = from.saturating_add(it.block.units);
    let description = description(lines.alloc(), heap, it, root)?;
    begin_shape(lines, from, to, Purpose::of(it));
    add_escaped(lines, description.as_slice());
    end_shape(lines);
    Ok(())
}

/// A block's position, size, purpose, object, type and value.
fn description<F: Fit>(
    alloc: Global,
    heap: &Heap<F, Global>,
    it: &OwnedBlock,
    root: Option<&Root>,
) -> Result<Vec<u8>, AllocError> {
    let mut words = IndentedText::new(alloc);
    let (at, bytes) = (it.block.at, u64::from(it.block.units) * u64::from(UNIT));
    let purpose = Purpose::of(it).word();
    write!(words, "byte {at}, {bytes} bytes: {purpose}");
    if let Some(root) = root {
        add_owner(&mut words, root);
    }
    if let Some(tag) = it.tag {
        add_contents(&mut words, heap, it.block.at, tag, root)?;
    }
    words.into_bytes()
}

/// Adds the type and the value in a block with a tag, unless it is a block of the index.
fn add_contents<F: Fit>(
    words: &mut IndentedText,
    heap: &Heap<F, Global>,
    block: u32,
    tag: Tag,
    root: Option<&Root>,
) -> Result<(), AllocError> {
    let start = block.saturating_add(UNIT);
    let at = match tag.kind {
        Kind::IndexBuffer | Kind::IndexNode => return Ok(()),
        Kind::Buffer | Kind::Node => None,
        Kind::Named | Kind::Object => Some(start),
        Kind::Frozen => Some(start.saturating_add(FROZEN_WORDS)),
    };
    words.add_number(", type ", i64::from(tag.type_id));
    match (at, root) {
        (None, _) => {}
        (Some(_), Some(root)) if root.count > 1 && tag.kind == Kind::Named => {
            words.add_number(", values: ", i64::from(root.count));
        }
        (Some(at), _) => {
            let type_id = tag.type_id;
            words.add(b", value: ");
            let value = value_words(words.alloc(), heap, Place { at, type_id })?;
            words.add(value.as_slice());
        }
    }
    Ok(())
}

/// Adds bytes of a text in XML.
fn add_escaped(lines: &mut IndentedText, bytes: &[u8]) {
    for byte in bytes {
        match *byte {
            b'<' => lines.add(b"&lt;"),
            b'&' => lines.add(b"&amp;"),
            other => lines.add(&[other]),
        }
    }
}

/// A cell of the picture of a large heap. All cells have the same number of units.
#[derive(Clone, Copy)]
struct PictureCell {
    /// The purpose of the block that has most of the cell's units.
    purpose: Purpose,
    /// How many of the cell's units that block has.
    units: u32,
}

/// Adds a shape for each run of cells with the same purpose, each of `scale` units.
fn add_cells<F: Fit>(
    lines: &mut IndentedText,
    heap: &Heap<F, Global>,
    units: u32,
    scale: u32,
    watch: &dyn Watch,
) -> Result<(), AllocError> {
    let alloc = lines.alloc();
    let blocks = unowned_blocks(alloc, heap.window(), watch)?;
    let count = units.div_ceil(scale.max(1));
    let cells = cells(alloc, blocks.as_slice(), count, scale.max(1))?;
    add_cell_legend(lines, cells.as_slice(), scale);
    add_runs(lines, cells.as_slice(), scale);
    Ok(())
}

fn add_cell_legend(lines: &mut IndentedText, cells: &[PictureCell], scale: u32) {
    let mut occurring = [false; COUNT];
    for cell in cells {
        note(&mut occurring, cell.purpose);
    }
    add_legend(lines, &occurring, scale);
}

/// The cells of the picture, each of `scale` units.
fn cells(
    alloc: Global,
    blocks: &[OwnedBlock],
    count: u32,
    scale: u32,
) -> Result<Vec<PictureCell>, AllocError>
    requires some { 0 < scale }
{
    let empty = PictureCell {
        purpose: Purpose::Gap,
        units: 0,
    };
    let mut cells = Vec::from_elem(alloc, empty, count as usize)?;
    for it in blocks {
        paint(cells.as_mut_slice(), it, scale);
    }
    Ok(cells)
}

/// Gives a block each cell of which it has more units than the blocks before it.
fn paint(cells: &mut [PictureCell], it: &OwnedBlock, scale: u32)
    requires some { 0 < scale }
{
    let from = it.block.at.saturating_sub(HEAP_START) / UNIT;
    let to = from.saturating_add(it.block.units);
    for index in from / scale..to.div_ceil(scale) {
        let begin = index.saturating_mul(scale);
        let units = to
            .min(begin.saturating_add(scale))
            .saturating_sub(from.max(begin));
        if let Some(cell) = cells.get_mut(index as usize) {
            if units > cell.units {
                *cell = PictureCell {
                    purpose: Purpose::of(it),
                    units,
                };
            }
        }
    }
}

/// Adds a shape for each run of cells with the same purpose.
fn add_runs(lines: &mut IndentedText, cells: &[PictureCell], scale: u32) {
    let mut from = 0;
    let mut to = 0u32;
    for cell in cells {
        to = to.saturating_add(1);
        if purpose_at(cells, to) != Some(cell.purpose) {
            add_run(lines, from, to, cell.purpose, scale);
            from = to;
        }
    }
}

fn purpose_at(cells: &[PictureCell], index: u32) -> Option<Purpose> {
    Some(cells.get(index as usize)?.purpose)
}

fn add_run(lines: &mut IndentedText, from: u32, to: u32, purpose: Purpose, scale: u32) {
    begin_shape(lines, from, to, purpose);
    let (first, last) = (position(from, scale), position(to, scale).saturating_sub(1));
    let word = purpose.legend();
    write!(lines, "bytes {first} to {last}: mostly {word}");
    end_shape(lines);
}

/// The position of the first byte of a cell.
fn position(cell: u32, scale: u32) -> u32 {
    cell.saturating_mul(scale)
        .saturating_mul(UNIT)
        .saturating_add(HEAP_START)
}

/// Begins the shape of the cells from `from` to before `to`, up to its title.
fn begin_shape(lines: &mut IndentedText, from: u32, to: u32, purpose: Purpose) {
    lines.add(b"<path class=\"");
    lines.add(purpose.class().as_bytes());
    lines.add(b"\" d=\"");
    let last_row = to.saturating_sub(1) / COLUMNS;
    for row in from / COLUMNS..last_row.saturating_add(1) {
        let begin = row.saturating_mul(COLUMNS);
        let end = begin.saturating_add(COLUMNS);
        add_row(
            lines,
            row,
            Reach {
                from: from.max(begin).saturating_sub(begin),
                to: to.min(end).saturating_sub(begin),
                is_begun: from < begin,
                continues: to > end,
            },
        );
    }
    lines.add(b"\"><title>");
}

fn end_shape(lines: &mut IndentedText) {
    lines.add(b"</title></path>\n");
}

/// The cells of a shape in one row, by their columns: from `from` to before `to`.
#[derive(Clone, Copy)]
struct Reach {
    from: u32,
    to: u32,
    /// Whether the shape begins in a row before, and whether it continues in the next one.
    is_begun: bool,
    continues: bool,
}

/// Adds the part of a shape in a row. If the shape continues, the part reaches out of the row.
fn add_row(lines: &mut IndentedText, row: u32, reach: Reach) {
    let before = if reach.is_begun { REACH } else { 0 };
    let after = if reach.continues { REACH } else { 0 };
    let sign = if reach.is_begun { "-" } else { "" };
    let x = if reach.is_begun {
        REACH
    } else {
        reach.from.saturating_mul(WIDTH)
    };
    let y = row.saturating_mul(HEIGHT).saturating_add(TOP);
    let width = reach
        .to
        .saturating_sub(reach.from)
        .saturating_mul(WIDTH)
        .saturating_sub(1)
        .saturating_add(before)
        .saturating_add(after);
    let height = HEIGHT - 1;
    write!(lines, "M{sign}{x} {y}h{width}v{height}h-{width}z");
}
