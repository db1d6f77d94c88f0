//! The differences between two segments, by names and values.

use crate::contents::{Entry, Object, Objects, entries};
use crate::extent::Extent;
use crate::lines::IndentedText;
use crate::parts::Selector;
use crate::walk::ValueWalk;
use cli_progress::{Pace, Watch, Work};
use seg_block::Fit;
use seg_manager::Segment;
use std::alloc::{AllocError, Global};
use std::cmp::Ordering;

/// How many of the last steps of a path are printed.
const SHOWN_STEPS: usize = 8;

/// A line for each value that only one of two segments has, or that differs: `-` and the value in the first one, `+` and that in
/// the second one.
pub fn difference<F: Fit, G: Fit>(
    alloc: Global,
    one: &Segment<F, Global>,
    other: &Segment<G, Global>,
    watch: &dyn Watch,
) -> Result<Vec<u8>, AllocError> {
    let mine = Objects::of(alloc, one, watch)?;
    let theirs = Objects::of(alloc, other, watch)?;
    let values = mine.values.saturating_add(theirs.values);
    let mut walk = ValueWalk::new(alloc, Extent::All, Work::Collecting, values);
    let mut lines = IndentedText::new(alloc);
    let (mut my_next, mut their_next) = (0, 0);
    for _ in 0..mine.all.len().saturating_add(theirs.all.len()) {
        let (my_object, their_object) = least(
            mine.all.get(my_next).copied(),
            theirs.all.get(their_next).copied(),
        );
        let my_entries = entries(&mut walk, one.heap(), &mine, my_object, watch)?;
        let their_entries = entries(&mut walk, other.heap(), &theirs, their_object, watch)?;
        let mut my_cursor = Cursor::new(alloc, b"- ", my_object, my_entries.as_slice());
        let mut their_cursor = Cursor::new(alloc, b"+ ", their_object, their_entries.as_slice());
        compare(&mut lines, &mut my_cursor, &mut their_cursor, watch)?;
        my_next = after(my_next, my_object);
        their_next = after(their_next, their_object);
    }
    lines.into_bytes()
}

/// The index after an object, if there is one.
fn after(index: usize, object: Option<Object>) -> usize {
    match object {
        Some(_) => index.saturating_add(1),
        None => index,
    }
}

/// The next objects to compare: both if they have the same name, otherwise the one that comes first.
fn least<'a, 'b>(
    one: Option<Object<'a>>,
    other: Option<Object<'b>>,
) -> (Option<Object<'a>>, Option<Object<'b>>) {
    let (Some(mine), Some(theirs)) = (one, other) else {
        return (one, other);
    };
    match mine.order(&theirs) {
        Ordering::Less => (one, None),
        Ordering::Equal => (one, other),
        Ordering::Greater => (None, other),
    }
}

/// A place in the values of an object.
#[derive(Drop)]
struct Cursor<'a, 'h> {
    /// What a line about this object begins with.
    sign: &'static [u8],
    object: Option<Object<'h>>,
    entries: &'a [Entry<'h>],
    next: usize,
    /// The steps to the last value, with the index in the object first.
    path: Vec<Selector>,
}

impl<'a, 'h> Cursor<'a, 'h> {
    fn new(
        alloc: Global,
        sign: &'static [u8],
        object: Option<Object<'h>>,
        entries: &'a [Entry<'h>],
    ) -> Cursor<'a, 'h> {
        Cursor {
            sign,
            object,
            entries,
            next: 0,
            path: Vec::new(alloc),
        }
    }

    fn entry(&self) -> Option<Entry<'h>> {
        self.entries.get(self.next).copied()
    }

    fn advance(&mut self, entry: Entry) -> Result<(), AllocError> {
        self.path.truncate(entry.level);
        self.path.push(entry.step)?;
        self.next = self.next.saturating_add(1);
        Ok(())
    }

    /// Goes to a value, and adds a line with it.
    fn take(&mut self, lines: &mut IndentedText, entry: Entry) -> Result<(), AllocError> {
        self.advance(entry)?;
        self.report(lines, entry);
        Ok(())
    }

    /// Adds a line with the last value.
    fn report(&self, lines: &mut IndentedText, entry: Entry) {
        lines.add(self.sign);
        if let Some(object) = self.object {
            object.add_name(lines);
            let from = usize::from(object.root.count == 1);
            add_steps(lines, self.path.get(from..).unwrap_or(&[]));
        }
        lines.add(b": ");
        entry.content.add(lines);
        lines.end();
    }
}

/// Adds the lines of all differences between the values of two objects with the same name, or of one.
fn compare(
    lines: &mut IndentedText,
    one: &mut Cursor,
    other: &mut Cursor,
    watch: &dyn Watch,
) -> Result<(), AllocError> {
    let most = one.entries.len().saturating_add(other.entries.len());
    let mut pace = Pace::new();
    for _ in 0..most {
        let done = one.next.saturating_add(other.next) as u64;
        pace.show(watch, Work::Comparing, done, most as u64);
        match (one.entry(), other.entry()) {
            (Some(mine), Some(theirs)) => compare_entries(lines, one, mine, other, theirs)?,
            (Some(mine), None) => one.take(lines, mine)?,
            (None, Some(theirs)) => other.take(lines, theirs)?,
            (None, None) => break,
        }
    }
    Ok(())
}

fn compare_entries(
    lines: &mut IndentedText,
    one: &mut Cursor,
    mine: Entry,
    other: &mut Cursor,
    theirs: Entry,
) -> Result<(), AllocError> {
    match mine.order(&theirs) {
        Ordering::Less => one.take(lines, mine),
        Ordering::Greater => other.take(lines, theirs),
        Ordering::Equal if mine.content.is_same(&theirs.content) => {
            one.advance(mine)?;
            other.advance(theirs)
        }
        Ordering::Equal => {
            one.take(lines, mine)?;
            other.take(lines, theirs)
        }
    }
}

/// Adds the last steps of a path, after the number of the others.
fn add_steps(lines: &mut IndentedText, steps: &[Selector]) {
    let left_out = steps.len().saturating_sub(SHOWN_STEPS);
    if left_out > 0 {
        write!(lines, ".({left_out} parts)");
    }
    for step in steps.get(left_out..).unwrap_or(&[]) {
        add_step(lines, *step);
    }
}

/// Adds a step as in the path of a value.
fn add_step(lines: &mut IndentedText, step: Selector) {
    match step {
        Selector::Index(index) => lines.add_index(index),
        Selector::Key(key) => write!(lines, "[{key}]"),
        Selector::Field(index) => write!(lines, ".{index}"),
        Selector::Content => lines.add(b".content"),
    }
}
