//! Makes an image from the text that `dump` prints.

use crate::building::{Building, Wrong};
use crate::door::{assembled, checked, created, declared, extended, grown, shrunk};
use crate::lines::{Lines, Words};
use crate::paths::number;
use cli_host::{Pace, Watch, Work};
use lezgauri::{AllocatorKind, Fault, Image, IndexKind, MAX_LEN, TypeTable};
use std::alloc::Global;

/// How often a segment's size can be doubled, from the least to the greatest.
const DOUBLINGS: u32 = 21;

/// Why a text makes no image.
#[derive(Clone, Copy)]
pub(crate) enum Unloaded {
    Fault(Fault),
    /// The largest segment has no room for the content.
    Full,
}

impl From<Fault> for Unloaded {
    fn from(fault: Fault) -> Self {
        Unloaded::Fault(fault)
    }
}

impl Unloaded {
    /// What is wrong in a line.
    fn of(wrong: Wrong, line: u32) -> Unloaded {
        match wrong {
            Wrong::Memory => Unloaded::Fault(Fault::Memory),
            Wrong::Full => Unloaded::Full,
            Wrong::Line => Unloaded::Fault(Fault::BadLine(line)),
        }
    }
}

/// A text after its first line and its types.
#[derive(Drop)]
struct Dump<'a> {
    shape: Shape,
    types: TypeTable,
    /// The lines of the objects.
    objects: Lines<'a>,
}

/// The segment that the first line describes.
#[derive(Clone, Copy)]
struct Shape {
    size: u32,
    allocator: AllocatorKind,
    index: IndexKind,
}

/// The image that a text describes. If the content needs more room than the text says, the segment is larger.
pub(crate) fn loaded(alloc: Global, text: &[u8], watch: &dyn Watch) -> Result<Vec<u8>, Unloaded> {
    let dump = dump_of(alloc, text)?;
    let mut size = dump.shape.size;
    for _ in 0..=DOUBLINGS {
        match built(alloc, &dump, size, watch) {
            Ok(image) => return saved(alloc, image, dump.shape.size, watch),
            Err(Unloaded::Full) if size < MAX_LEN => size = size.saturating_mul(2).min(MAX_LEN),
            Err(unloaded) => return Err(unloaded),
        }
    }
    Err(Unloaded::Full)
}

/// The bytes of an image, of this size if its objects leave the end free.
fn saved(
    alloc: Global,
    image: Image<Global>,
    size: u32,
    watch: &dyn Watch,
) -> Result<Vec<u8>, Unloaded> {
    let mut image = image;
    fit(&mut image, size)?;
    let bytes = image.into_bytes();
    checked(alloc, bytes.as_slice(), watch)?;
    Ok(bytes)
}

/// Gives an image this size, or the least one above it that its objects allow.
fn fit(image: &mut Image<Global>, size: u32) -> Result<(), Fault> {
    let least = shrunk(image);
    if least < size {
        grown(image, size - least)?;
    }
    Ok(())
}

/// Makes the objects of a text in a segment of this size.
fn built(
    alloc: Global,
    dump: &Dump,
    size: u32,
    watch: &dyn Watch,
) -> Result<Image<Global>, Unloaded> {
    let mut building = Building::new(alloc, empty(alloc, dump, size)?);
    let mut lines = dump.objects;
    let mut pace = Pace::new();
    let whole = lines.rest.len();
    for _ in 0..whole {
        let Some(line) = lines.next_meant() else {
            break;
        };
        let done = whole.saturating_sub(lines.rest.len());
        pace.show(watch, Work::Loading, done as u64, whole as u64);
        if let Err(wrong) = building.take(alloc, line) {
            return Err(Unloaded::of(wrong, lines.number));
        }
    }
    match building.finished() {
        Ok(image) => Ok(image),
        Err(wrong) => Err(Unloaded::of(wrong, lines.number.saturating_add(1))),
    }
}

/// The image of a segment with the text's types, without objects.
fn empty(alloc: Global, dump: &Dump, size: u32) -> Result<Image<Global>, Fault> {
    let mut image = created(alloc, size, dump.shape.allocator, dump.shape.index)?;
    extended(&mut image, &dump.types)?;
    Ok(image)
}

/// Reads the first line and the types.
fn dump_of(alloc: Global, text: &[u8]) -> Result<Dump<'_>, Fault> {
    let mut lines = Lines::new(text);
    let shape = match lines.next_meant() {
        Some(line) => shape_of(line),
        None => None,
    };
    let shape = shape.ok_or(Fault::BadLine(lines.number.max(1)))?;
    let objects = after_types(lines);
    let types = types_between(alloc, lines, objects)?;
    Ok(Dump {
        shape,
        types,
        objects,
    })
}

/// The first line: `segment SIZE ALG INDEX`.
fn shape_of(line: &[u8]) -> Option<Shape> {
    let mut words = Words::new(line);
    if words.next()? != b"segment".as_slice() {
        return None;
    }
    let size = u32::try_from(number(words.next()?)?).ok()?;
    let allocator = allocator_of(words.next()?)?;
    let index = index_of(words.last()?)?;
    Some(Shape {
        size,
        allocator,
        index,
    })
}

fn allocator_of(word: &[u8]) -> Option<AllocatorKind> {
    if word == b"seq".as_slice() {
        return Some(AllocatorKind::Seq);
    }
    if word == b"best".as_slice() {
        return Some(AllocatorKind::Best);
    }
    None
}

fn index_of(word: &[u8]) -> Option<IndexKind> {
    if word == b"flat".as_slice() {
        return Some(IndexKind::Flat);
    }
    if word == b"tree".as_slice() {
        return Some(IndexKind::Tree);
    }
    None
}

/// The lines after those of types.
fn after_types(lines: Lines) -> Lines {
    let mut after = lines;
    let mut ahead = lines;
    for _ in 0..lines.rest.len() {
        match ahead.next_meant() {
            Some(line) if is_type(line) => after = ahead,
            Some(_) | None => break,
        }
    }
    after
}

fn is_type(line: &[u8]) -> bool {
    match Words::new(line).next() {
        Some(word) => word == b"type".as_slice(),
        None => false,
    }
}

/// The types that these lines declare, up to others.
fn types_between(alloc: Global, lines: Lines, end: Lines) -> Result<TypeTable, Fault> {
    let len = lines.rest.len().saturating_sub(end.rest.len());
    let text = lines.rest.get(..len).unwrap_or(&[]);
    match types_of(alloc, text) {
        Err(Fault::BadLine(line)) => Err(Fault::BadLine(line.saturating_add(lines.number))),
        types => types,
    }
}

/// The types of a client with this text.
fn types_of(alloc: Global, text: &[u8]) -> Result<TypeTable, Fault> {
    let client = assembled(alloc, text)?;
    declared(client.as_slice())
}
