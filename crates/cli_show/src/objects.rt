//! The objects of a segment with their values, as indented lines.

use crate::extent::{Detail, Extent};
use crate::lines::IndentedText;
use crate::parts::Selector;
use crate::reached::Reached;
use crate::roots::{Root, RootName, frozen_number, roots, value_count};
use crate::selection::Selection;
use crate::types::add_type;
use crate::walk::{Met, ValueWalk, most_turns};
use cli_progress::{Watch, Work};
use seg_block::Fit;
use seg_manager::{Heap, Place, Segment, Type, TypeId, frozen};
use std::alloc::{AllocError, Global};

/// The objects that a name or a pattern selects, or all objects, and each frozen object that a shown cell points to: the named
/// ones in ascending order of their names, the unique ones in order of type, and the frozen ones in descending order of their
/// numbers. `None` if nothing is selected.
pub fn objects_text<F: Fit>(
    alloc: Global,
    segment: &Segment<F, Global>,
    name: Option<&[u8]>,
    detail: Detail,
    watch: &dyn Watch,
) -> Result<Option<Vec<u8>>, AllocError> {
    let roots = roots(alloc, segment, watch)?;
    let selection = Selection::of(name, roots.as_slice());
    let values = value_count(roots.as_slice());
    let mut shown = Shown::new(alloc, segment.heap(), detail, roots.as_slice(), values)?;
    let mut found = selection.is_all();
    for root in &roots {
        if selection.has(root) || shown.reached.has(root.first.at) {
            shown.add_object(root, watch)?;
            found = true;
        } else {
            shown.walk.skip(root.count);
        }
    }
    let lines = shown.lines.into_bytes()?;
    Ok(found.then_some(lines))
}

/// Values, one after the other: a number, a text as a client's text spells it, or the lines that show another value.
pub fn value_lines<F: Fit>(
    alloc: Global,
    segment: &Segment<F, Global>,
    values: &[Place],
    watch: &dyn Watch,
) -> Result<Vec<u8>, AllocError> {
    let detail = Detail {
        extent: Extent::All,
        typed: false,
    };
    let mut shown = Shown::new(alloc, segment.heap(), detail, &[], values.len() as u64)?;
    for value in values {
        shown.add_alone(*value, watch)?;
    }
    shown.lines.into_bytes()
}

/// The bytes of a string.
pub(crate) fn text_of<'h, F: Fit>(heap: &'h Heap<F, Global>, text: Place) -> &'h [u8] {
    let from = heap.start(text.at) as usize;
    heap.window().slice(from, heap.count(text.at) as usize)
}

/// A value in words on one line, without the values inside it.
pub(crate) fn value_words<F: Fit>(
    alloc: Global,
    heap: &Heap<F, Global>,
    value: Place,
) -> Result<Vec<u8>, AllocError> {
    let detail = Detail {
        extent: Extent::Cut,
        typed: false,
    };
    let mut shown = Shown::new(alloc, heap, detail, &[], 0)?;
    shown.add_content(value);
    shown.lines.into_bytes()
}

/// Objects of a heap as lines.
#[derive(Drop)]
struct Shown<'h, F: Fit> {
    heap: &'h Heap<F, Global>,
    detail: Detail,
    lines: IndentedText,
    reached: Reached,
    walk: ValueWalk,
}

impl<'h, F: Fit> Shown<'h, F> {
    /// Shows this many values of these objects, or of others.
    fn new(
        alloc: Global,
        heap: &'h Heap<F, Global>,
        detail: Detail,
        roots: &[Root],
        values: u64,
    ) -> Result<Shown<'h, F>, AllocError> {
        Ok(Shown {
            heap,
            detail,
            lines: IndentedText::new(alloc),
            reached: Reached::new(alloc, heap, roots)?,
            walk: ValueWalk::new(alloc, detail.extent, Work::Printing, values),
        })
    }

    /// Adds an object, with its values and all values inside them.
    fn add_object(&mut self, root: &Root, watch: &dyn Watch) -> Result<(), AllocError> {
        let size = self.heap.types().size(root.first.type_id);
        for index in 0..root.count {
            add_root_name(&mut self.lines, root, index);
            self.add_root_type(root.first.type_id);
            self.add_value(root.value(index, size), watch)?;
        }
        Ok(())
    }

    /// Adds an object's type in brackets, if types are shown.
    fn add_root_type(&mut self, t: TypeId) {
        if self.detail.typed {
            self.lines.add(b" (");
            add_type(&mut self.lines, self.heap.types(), t);
            self.lines.add(b")");
        }
    }

    /// Ends the line of a value, and adds the lines of all values inside it.
    fn add_value(&mut self, value: Place, watch: &dyn Watch) -> Result<(), AllocError> {
        self.end_line(value);
        self.add_parts(value, watch)
    }

    /// Adds a value without a name, and the lines of all values inside it.
    fn add_alone(&mut self, value: Place, watch: &dyn Watch) -> Result<(), AllocError> {
        match self.heap.types().kind(value.type_id) {
            Some(Type::Str) => self.lines.add_spelled(text_of(self.heap, value)),
            Some(_) | None => self.add_content(value),
        }
        self.lines.end();
        self.add_parts(value, watch)
    }

    /// Adds the lines of all values inside a value.
    fn add_parts(&mut self, value: Place, watch: &dyn Watch) -> Result<(), AllocError> {
        self.walk.begin(self.heap, value, watch)?;
        for _ in 0..most_turns(self.heap.window().len()) {
            let Some(met) = self.walk.next(self.heap, watch)? else {
                break;
            };
            match met {
                Met::Part { level, part } => {
                    self.lines.begin(level);
                    add_step(&mut self.lines, part.step);
                    self.end_line(part.place);
                }
                Met::End { level, rest, .. } => add_rest(&mut self.lines, level, rest),
            }
        }
        Ok(())
    }

    /// Ends a line with a value: a number, a text, or the kind of value and how many parts it has.
    fn end_line(&mut self, value: Place) {
        self.lines.add(b": ");
        self.add_content(value);
        self.lines.end();
    }

    fn add_content(&mut self, value: Place) {
        // a sound image has no value of an unknown type
        let Some(kind) = self.heap.types().kind(value.type_id) else {
            return;
        };
        match kind {
            Type::I64 => self.lines.add_number("", self.heap.load(value.at)),
            Type::Str => self
                .lines
                .add_text(text_of(self.heap, value), self.detail.extent),
            Type::Vec(_) => self.add_counted("vector of ", value),
            Type::List(_) => self.add_counted("list of ", value),
            Type::FlatMap(_) => self.add_counted("flat map of ", value),
            Type::Map(_) => self.add_counted("map of ", value),
            Type::Own(_) => self
                .lines
                .add(own_word(self.heap.count(value.at)).as_bytes()),
            Type::Struct(_) => self.lines.add(b"struct"),
            Type::Shared(_) => self.add_shared(value),
        }
    }

    /// Adds a container, with the number of its parts.
    fn add_counted(&mut self, words: &str, value: Place) {
        self.lines
            .add_number(words, i64::from(self.heap.count(value.at)));
    }

    /// Adds the number of the frozen object that a cell points to.
    fn add_shared(&mut self, cell: Place) {
        match frozen(self.heap, cell) {
            Some(value) => {
                self.reached.add(value);
                let number = frozen_number(self.heap.window(), value);
                self.lines.add_number("frozen ", i64::from(number));
            }
            None => self.lines.add(b"nothing"),
        }
    }
}

/// Begins the line of one of an object's values.
fn add_root_name(lines: &mut IndentedText, root: &Root, index: u16) {
    match root.name {
        RootName::Named(name) => lines.add(name),
        RootName::Unique => lines.add_number("unique t", i64::from(root.first.type_id)),
        RootName::Frozen { count, number } => write!(lines, "frozen {number}, count {count}"),
    }
    if root.count > 1 {
        lines.add_index(u32::from(index));
    }
}

/// Adds how many parts aren't shown, if there are any.
fn add_rest(lines: &mut IndentedText, level: usize, rest: u32) {
    if rest > 0 {
        lines.begin(level);
        write!(lines, "and {rest} more\n");
    }
}

fn add_step(lines: &mut IndentedText, step: Selector) {
    match step {
        Selector::Index(index) => lines.add_index(index),
        Selector::Key(key) => lines.add_number("", key),
        Selector::Field(index) => lines.add_number("field ", i64::from(index)),
        Selector::Content => lines.add(b"content"),
    }
}

/// The word for the contents of an own, by the number of objects in it.
pub(crate) fn own_word(count: u32) -> &'static str {
    if count == 0 { "nothing" } else { "an object" }
}
