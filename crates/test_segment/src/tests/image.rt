//! Images, and the faults that the checker must find in them, written as text. `;` begins a comment. A line is one of these:
//!
//!     type vec t1             the next type: its kind, and its parts
//!     720 unique t0 2         the next block: the position of its payload, its kind, its type, and its units
//!     752 gap 2               the next block, which is free
//!     chain node 720 60       60 nodes of 3 units, each to the left of the one before; the pointer at 720 points to the first
//!     720->752 724=20         changes that stay
//!     724=33 => pointer 720   with these changes, which are undone, this is the first fault; `|` separates several such lists
//!
//! A change is `at=word`, where the word may also be `low,high`, its halves, or `'ab'`, its bytes; `at:number` for a number of 64
//! bits; `at->named` or `at->null` for a pointer. A block is `named`; an `object` (`unique` if its type's pointer for unique
//! objects points to it); a `buffer`; a `node`; an `index` or an `index_node`, for names; or `frozen`, an object that cells
//! share. A fault is written as what is wrong, and where: `header`, `type`, `block`, `free`, `index`, `pointer`, `twice` for two
//! owners, `unowned`, or `value`; `sound` is no fault. An image has version 1, unless 8=2 sets another.

use seg_image::{ENTRY, Fault, check};
use std::alloc::Global;
use std::test::Fail;
use support_data::{change, number, write, write_words};

/// The bit of a header's first word that is set if the block is allocated.
const LIVE: u32 = 1 << 31;

/// The word of a pointer that points to nothing.
const NULL: u32 = 1;

/// The position of the image's size, in units.
const SIZE: usize = 12;

/// The position of the types.
const TYPES: usize = 64;

/// The position of the pointers to unique objects.
const UNIQUES: u32 = 576;

/// The position of the heap.
const HEAP: usize = 704;

/// An image that is built block by block.
#[derive(Drop)]
struct ImageBuilder {
    bytes: Vec<u8>,
    types: usize,
    /// The units of the last block. 0 if there is no block yet.
    before: u32,
}

/// The image of a text, after a test of the faults that the text states.
pub(crate) fn image_of(alloc: Global, text: &str) -> Result<Vec<u8>, Fail> {
    let mut image = ImageBuilder::empty(alloc)?;
    for line in text.lines() {
        image.follow(alloc, without_comment(line))?;
    }
    Ok(image.bytes)
}

pub(crate) fn without_comment(line: &str) -> &str {
    match line.split_once(';') {
        Some((line, _)) => line.trim(),
        None => line.trim(),
    }
}

impl ImageBuilder {
    /// An image with a header but without types, names, unique objects and blocks.
    fn empty(alloc: Global) -> Result<ImageBuilder, Fail> {
        let mut bytes = Vec::from_elem(alloc, 0u8, HEAP)?;
        let header = bytes.as_mut_slice();
        write(header, 0, b"SEGIMAGE");
        write_words(header, 8, &[1, 0, 0, 0, NULL, 0, NULL]);
        write_words(header, UNIQUES as usize, &[NULL; 32]);
        Ok(ImageBuilder {
            bytes,
            types: 0,
            before: 0,
        })
    }

    /// Does what a line requires.
    fn follow(&mut self, alloc: Global, line: &str) -> Result<(), Fail> {
        let Some((changes, fault)) = line.split_once("=>") else {
            return match self.build(line) {
                Some(()) => Ok(()),
                None => Err(Fail::new(format_args!("not understood: {line}"))),
            };
        };
        for change in changes.split('|') {
            self.finds(alloc, change, fault)?;
        }
        Ok(())
    }

    /// Tests that the image with these changes has this first fault.
    fn finds(&self, alloc: Global, changes: &str, fault: &str) -> Result<(), Fail> {
        let mut changed = Vec::from_slice(alloc, self.bytes.as_slice())?;
        change(changed.as_mut_slice(), changes).ok_or("changes aren't understood")?;
        let found = check(alloc, changed.as_slice()).err();
        if is_told(found, fault) {
            return Ok(());
        }
        Err(Fail::new(format_args!("{changes} => {fault}, not {found:?}")))
    }

    fn build(&mut self, line: &str) -> Option<()> {
        if let Some(words) = line.strip_prefix("type ") {
            return self.add_type(words);
        }
        if let Some(words) = line.strip_prefix("chain ") {
            return self.add_chain(words);
        }
        let (first, words) = line.split_once(' ').unwrap_or((line, ""));
        match number(first) {
            Some(at) => self.add_block(at, words),
            None => change(self.bytes.as_mut_slice(), line),
        }
    }

    fn add_type(&mut self, words: &str) -> Option<()> {
        let at = TYPES.saturating_add(self.types.saturating_mul(ENTRY));
        write(self.bytes.as_mut_slice(), at, &entry_of(words)?);
        self.types = self.types.saturating_add(1);
        Some(())
    }

    /// Adds a block: its kind, its type if it isn't free, and its units.
    fn add_block(&mut self, payload: u32, words: &str) -> Option<()> {
        let (kind, words) = words.split_once(' ')?;
        if kind == "gap" {
            return self.push(payload, number(words)?, 0);
        }
        let (t, units) = words.split_once(' ')?;
        let t = type_id(t)?;
        if kind == "unique" {
            self.point(UNIQUES + 4 * u32::from(t), payload);
        }
        self.push(payload, LIVE.wrapping_add(number(units)?), tag_of(kind, t)?)
    }

    /// Adds a block at the end of the heap. `size` is its first word: its units, with a bit if it is allocated.
    fn push(&mut self, payload: u32, size: u32, tag: u32) -> Option<()> {
        let units = size % LIVE;
        let block = self.bytes.len();
        let end = block.saturating_add((units as usize).saturating_mul(16));
        if payload as usize != block.saturating_add(16) || self.bytes.resize(end, 0).is_err() {
            return None;
        }
        let bytes = self.bytes.as_mut_slice();
        write_words(bytes, block, &[size, self.before, tag, NULL]);
        write_words(bytes, SIZE, &[u32::try_from(end / 16).ok()?]);
        self.before = units;
        Some(())
    }

    /// Makes a pointer point to a payload.
    fn point(&mut self, at: u32, payload: u32) {
        let distance = payload.wrapping_sub(at);
        write_words(self.bytes.as_mut_slice(), at as usize, &[distance]);
    }

    /// Adds nodes: their kind, the pointer to the first one, and their number.
    fn add_chain(&mut self, words: &str) -> Option<()> {
        let (kind, words) = words.split_once(' ')?;
        let (from, nodes) = words.split_once(' ')?;
        let (tag, nodes) = (tag_of(kind, 0)?, number(nodes)?);
        let mut pointer = number(from)?;
        for _ in 0..nodes {
            let node = u32::try_from(self.bytes.len()).ok()?.saturating_add(16);
            self.push(node, LIVE + 3, tag)?;
            write_words(self.bytes.as_mut_slice(), node as usize, &[NULL, NULL]);
            self.point(pointer, node);
            pointer = node;
        }
        Some(())
    }
}

/// The entry of a type: its kind and its parts, at most 14.
pub(crate) fn entry_of(words: &str) -> Option<[u8; ENTRY]> {
    let mut words = words.split_whitespace();
    let mut entry = [0; ENTRY];
    entry[0] = kind_of(words.next()?, TYPE_KINDS)?;
    for part in words {
        let parts = entry[1];
        *entry.get_mut(usize::from(parts) + 2)? = type_id(part)?;
        entry[1] = parts.saturating_add(1);
    }
    Some(entry)
}

/// The kinds of types, by their numbers in entries. There is no type of the first kind.
const TYPE_KINDS: &str = "unused i64 str vec list flat_map map own struct shared";

/// The kinds of allocated blocks, by their numbers in tags. There is no block of the first kind.
const BLOCK_KINDS: &str = "none named object buffer node index index_node frozen";

/// The tag of an allocated block.
fn tag_of(kind: &str, t: u8) -> Option<u32> {
    let kind = match kind {
        "unique" => "object",
        _ => kind,
    };
    Some(u32::from(kind_of(kind, BLOCK_KINDS)?) + 256 * u32::from(t))
}

/// The number of a kind among these kinds.
fn kind_of(word: &str, kinds: &str) -> Option<u8> {
    let mut number = 0u8;
    for kind in kinds.split_whitespace() {
        if kind == word {
            return Some(number);
        }
        number = number.saturating_add(1);
    }
    None
}

pub(crate) fn type_id(word: &str) -> Option<u8> {
    word.strip_prefix('t')?.parse().ok()
}

/// Whether a fault is the one that these words describe.
pub(crate) fn is_told(fault: Option<Fault>, words: &str) -> bool {
    let (kind, at) = in_words(fault);
    match words.trim().split_once(' ') {
        Some((told, told_at)) => kind == told && number(told_at) == at,
        None => kind == words.trim() && at.is_none(),
    }
}

/// What is wrong, and where, in words.
fn in_words(fault: Option<Fault>) -> (&'static str, Option<u32>) {
    match fault {
        None => ("sound", None),
        Some(Fault::BadHeader) => ("header", None),
        Some(Fault::BadType(t)) => ("type", Some(t)),
        Some(Fault::BadBlock(at)) => ("block", Some(at)),
        Some(Fault::BadFree(at)) => ("free", Some(at)),
        Some(Fault::BadIndex(at)) => ("index", Some(at)),
        Some(Fault::BadPointer(at)) => ("pointer", Some(at)),
        Some(Fault::DoubleOwner(at)) => ("twice", Some(at)),
        Some(Fault::Unowned(at)) => ("unowned", Some(at)),
        Some(Fault::BadValue(at)) => ("value", Some(at)),
        Some(_) => ("other", None),
    }
}
