//! Numbers about a segment, as lines and as JSON.

use crate::blocks::{blocks, live_tag};
use crate::document::Document;
use crate::dumping::{allocator_word, index_word};
use crate::lines::IndentedText;
use cli_progress::Watch;
use seg_block::Fit;
use seg_manager::{Segment, Window};
use std::alloc::{AllocError, Global};

/// A number or a word about a segment, with its name.
#[derive(Clone, Copy)]
pub struct Statistic {
    name: &'static str,
    value: StatisticValue,
}

#[derive(Clone, Copy)]
enum StatisticValue {
    Number(u32),
    Percent(u32),
    Word(&'static str),
}

impl Statistic {
    pub fn number(name: &'static str, number: u32) -> Statistic {
        Statistic {
            name,
            value: StatisticValue::Number(number),
        }
    }

    fn percent(name: &'static str, percent: u32) -> Statistic {
        Statistic {
            name,
            value: StatisticValue::Percent(percent),
        }
    }

    fn word(name: &'static str, word: &'static str) -> Statistic {
        Statistic {
            name,
            value: StatisticValue::Word(word),
        }
    }
}

/// A line for each number or word, with its name.
pub fn statistic_lines(alloc: Global, statistics: &[Statistic]) -> Result<Vec<u8>, AllocError> {
    let mut lines = IndentedText::new(alloc);
    for statistic in statistics {
        add_line(&mut lines, statistic);
    }
    lines.into_bytes()
}

fn add_line(lines: &mut IndentedText, statistic: &Statistic) {
    let name = statistic.name;
    match statistic.value {
        StatisticValue::Number(number) => write!(lines, "{name} {number}\n"),
        StatisticValue::Percent(percent) => write!(lines, "{name} {percent}%\n"),
        StatisticValue::Word(word) => write!(lines, "{name} {word}\n"),
    }
}

/// A JSON object with a member for each number or word.
pub fn statistics_json(alloc: Global, statistics: &[Statistic]) -> Result<Vec<u8>, AllocError> {
    let mut json = Document::new(alloc);
    for statistic in statistics {
        match statistic.value {
            StatisticValue::Number(number) | StatisticValue::Percent(number) => {
                json.add_number(statistic.name, i64::from(number))
            }
            StatisticValue::Word(word) => json.add_word(statistic.name, word),
        }
    }
    json.into_line()
}

/// Whether an image is sound, as JSON. If it isn't, with the number of its fault, and the fault's position if it has one.
pub fn soundness_json(
    alloc: Global,
    fault: Option<(u8, Option<u32>)>,
) -> Result<Vec<u8>, AllocError> {
    let mut json = Document::new(alloc);
    json.key("sound");
    json.boolean(fault.is_none());
    if let Some((code, at)) = fault {
        json.add_number("fault", i64::from(code));
        if let Some(at) = at {
            json.add_number("at", i64::from(at));
        }
    }
    json.into_line()
}

/// The blocks of a heap, as numbers.
#[derive(Clone, Copy)]
struct BlockCounts {
    allocated: u32,
    gaps: u32,
    /// The units of all gaps, and of the largest.
    free: u32,
    largest: u32,
}

/// The version of the image, the allocator, the index, the number of types, of allocated blocks and of gaps, and the part of the
/// free memory that isn't in the largest gap.
pub fn details<F: Fit>(
    alloc: Global,
    segment: &Segment<F, Global>,
    version: u32,
    watch: &dyn Watch,
) -> Result<Vec<Statistic>, AllocError> {
    let w = segment.window();
    let counts = block_counts(alloc, w, watch)?;
    let types = u32::try_from(segment.types().len()).unwrap_or(u32::MAX);
    let statistics = [
        Statistic::number("version", version),
        Statistic::word("allocator", allocator_word(w)),
        Statistic::word("index", index_word(w)),
        Statistic::number("types", types),
        Statistic::number("blocks", counts.allocated),
        Statistic::number("gaps", counts.gaps),
        Statistic::percent("fragmentation", fragmentation(counts)),
    ];
    Vec::from_slice(alloc, &statistics)
}

/// How many percent of the free memory aren't in the largest gap.
fn fragmentation(counts: BlockCounts) -> u32 {
    let outside = counts.free.saturating_sub(counts.largest);
    let percent = u64::from(outside) * 100 / u64::from(counts.free.max(1));
    u32::try_from(percent).unwrap_or(100)
}

fn block_counts(
    alloc: Global,
    w: &Window<Global>,
    watch: &dyn Watch,
) -> Result<BlockCounts, AllocError> {
    let mut counts = BlockCounts {
        allocated: 0,
        gaps: 0,
        free: 0,
        largest: 0,
    };
    for block in &blocks(alloc, w, watch)? {
        if live_tag(w, block.at).is_some() {
            counts.allocated = counts.allocated.saturating_add(1);
        } else {
            counts.gaps = counts.gaps.saturating_add(1);
            counts.free = counts.free.saturating_add(block.units);
            counts.largest = counts.largest.max(block.units);
        }
    }
    Ok(counts)
}
