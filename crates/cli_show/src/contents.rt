//! The objects of a segment and their values, in an order in which two segments can be compared.

use crate::extent::Extent;
use crate::lines::IndentedText;
use crate::objects::{own_word, text_of};
use crate::parts::Selector;
use crate::roots::{Root, RootName, frozen_number, roots, value_count};
use crate::walk::{Met, ValueWalk, most_turns};
use cli_progress::Watch;
use seg_block::Fit;
use seg_manager::{Heap, Place, Segment, Type, frozen};
use std::alloc::{AllocError, Global};
use std::cmp::Ordering;

/// An object. The frozen ones are numbered from 0.
#[derive(Clone, Copy)]
pub(crate) struct Object<'h> {
    pub(crate) root: Root<'h>,
    rank: u32,
}

/// The objects of a segment in order: the named ones by their names, the unique ones by their types, and the frozen ones by their
/// numbers.
#[derive(Drop)]
pub(crate) struct Objects<'h> {
    pub(crate) all: Vec<Object<'h>>,
    /// How many values they have.
    pub(crate) values: u64,
    /// The numbers of the frozen ones.
    numbers: Vec<u32>,
}

impl<'h> Objects<'h> {
    pub(crate) fn of<F: Fit>(
        alloc: Global,
        segment: &'h Segment<F, Global>,
        watch: &dyn Watch,
    ) -> Result<Objects<'h>, AllocError> {
        let roots = roots(alloc, segment, watch)?;
        let mut objects = Objects {
            all: Vec::new(alloc),
            values: value_count(roots.as_slice()),
            numbers: Vec::new(alloc),
        };
        for root in &roots {
            if !root.is_frozen() {
                objects.add(*root)?;
            }
        }
        for index in (0..roots.len()).rev() {
            if roots[index].is_frozen() {
                objects.add_frozen(roots[index])?;
            }
        }
        Ok(objects)
    }

    fn add(&mut self, root: Root<'h>) -> Result<(), AllocError> {
        self.all.push(Object { root, rank: 0 })?;
        Ok(())
    }

    fn add_frozen(&mut self, root: Root<'h>) -> Result<(), AllocError> {
        let rank = u32::try_from(self.numbers.len()).unwrap_or(u32::MAX);
        self.all.push(Object { root, rank })?;
        self.numbers.push(root.number())?;
        Ok(())
    }

    /// How many frozen objects have lower numbers.
    fn rank(&self, number: u32) -> u32 {
        let found = match self.numbers.binary_search_by(|it| it.cmp(&number)) {
            Ok(found) => found,
            Err(found) => found,
        };
        u32::try_from(found).unwrap_or(u32::MAX)
    }
}

impl Object<'_> {
    /// The order of objects.
    pub(crate) fn order(&self, other: &Object) -> Ordering {
        match (self.root.name, other.root.name) {
            (RootName::Named(name), RootName::Named(other)) => name.cmp(other),
            _ => self.key().cmp(&other.key()),
        }
    }

    /// The place of an object in the order, if not both are named.
    fn key(&self) -> (u8, u32) {
        match self.root.name {
            RootName::Named(_) => (0, 0),
            RootName::Unique => (1, u32::from(self.root.first.type_id)),
            RootName::Frozen { .. } => (2, self.rank),
        }
    }

    /// Adds the object's name.
    pub(crate) fn add_name(&self, lines: &mut IndentedText) {
        match self.root.name {
            RootName::Named(name) => lines.add(name),
            RootName::Unique => lines.add_number("unique t", i64::from(self.root.first.type_id)),
            RootName::Frozen { .. } => lines.add_number("frozen ", i64::from(self.rank)),
        }
    }
}

/// What is compared of a value, without the values inside it.
#[derive(Clone, Copy)]
pub(crate) enum Content<'h> {
    Number(i64),
    Text(&'h [u8]),
    /// The kind of a container, and how many parts it has.
    Counted(&'static str, u32),
    /// A shared cell: the number of the frozen object.
    Frozen(u32),
    /// A value of another kind.
    Word(&'static str),
}

fn content_of<'h, F: Fit>(
    objects: &Objects,
    heap: &'h Heap<F, Global>,
    value: Place,
) -> Content<'h> {
    let counted = match heap.types().kind(value.type_id) {
        Some(Type::I64) => return Content::Number(heap.load(value.at)),
        Some(Type::Str) => return Content::Text(text_of(heap, value)),
        Some(Type::Own(_)) => return Content::Word(own_word(heap.count(value.at))),
        Some(Type::Shared(_)) => return shared_content(objects, heap, value),
        Some(Type::Struct(_)) | None => return Content::Word("struct"),
        Some(Type::Vec(_)) => "vector of ",
        Some(Type::List(_)) => "list of ",
        Some(Type::FlatMap(_)) => "flat map of ",
        Some(Type::Map(_)) => "map of ",
    };
    Content::Counted(counted, heap.count(value.at))
}

impl Content<'_> {
    pub(crate) fn is_same(&self, other: &Content) -> bool {
        match (*self, *other) {
            (Content::Number(one), Content::Number(two)) => one == two,
            (Content::Text(one), Content::Text(two)) => one == two,
            (Content::Counted(one, count), Content::Counted(two, other)) => {
                one == two && count == other
            }
            (Content::Frozen(one), Content::Frozen(two)) => one == two,
            (Content::Word(one), Content::Word(two)) => one == two,
            _ => false,
        }
    }

    /// Adds the content as in the lines of `show`.
    pub(crate) fn add(&self, lines: &mut IndentedText) {
        match *self {
            Content::Number(number) => lines.add_number("", number),
            Content::Text(bytes) => lines.add_text(bytes, Extent::Cut),
            Content::Counted(word, count) => lines.add_number(word, i64::from(count)),
            Content::Frozen(rank) => lines.add_number("frozen ", i64::from(rank)),
            Content::Word(word) => lines.add(word.as_bytes()),
        }
    }
}

fn shared_content<'h, F: Fit>(
    objects: &Objects,
    heap: &'h Heap<F, Global>,
    cell: Place,
) -> Content<'h> {
    match frozen(heap, cell) {
        Some(value) => Content::Frozen(objects.rank(frozen_number(heap.window(), value))),
        None => Content::Word("nothing"),
    }
}

/// A value of an object: its level, from 0, the step to it from the value around it, and its content.
#[derive(Clone, Copy)]
pub(crate) struct Entry<'h> {
    pub(crate) level: usize,
    pub(crate) step: Selector,
    pub(crate) content: Content<'h>,
}

impl Entry<'_> {
    /// The order of two values inside the same one, or in values of it: a deeper one comes first, since the values around it came
    /// before.
    pub(crate) fn order(&self, other: &Entry) -> Ordering {
        match other.level.cmp(&self.level) {
            Ordering::Equal => step_key(self.step).cmp(&step_key(other.step)),
            order => order,
        }
    }
}

fn step_key(step: Selector) -> (u8, i64) {
    match step {
        Selector::Index(index) => (0, i64::from(index)),
        Selector::Key(key) => (1, key),
        Selector::Field(index) => (2, i64::from(index)),
        Selector::Content => (3, 0),
    }
}

/// All values of an object, each before the values inside it. None if there is no object.
pub(crate) fn entries<'h, F: Fit>(
    walk: &mut ValueWalk,
    heap: &'h Heap<F, Global>,
    objects: &Objects,
    object: Option<Object>,
    watch: &dyn Watch,
) -> Result<Vec<Entry<'h>>, AllocError> {
    let mut entries = Vec::new(walk.alloc());
    if let Some(object) = object {
        let size = heap.types().size(object.root.first.type_id);
        for index in 0..object.root.count {
            let value = object.root.value(index, size);
            entries.push(Entry {
                level: 0,
                step: Selector::Index(u32::from(index)),
                content: content_of(objects, heap, value),
            })?;
            walk.begin(heap, value, watch)?;
            add_parts(&mut entries, walk, heap, objects, watch)?;
        }
    }
    Ok(entries)
}

/// Adds all values inside the value at which a walk begins.
fn add_parts<'h, F: Fit>(
    entries: &mut Vec<Entry<'h>>,
    walk: &mut ValueWalk,
    heap: &'h Heap<F, Global>,
    objects: &Objects,
    watch: &dyn Watch,
) -> Result<(), AllocError> {
    for _ in 0..most_turns(heap.window().len()) {
        match walk.next(heap, watch)? {
            Some(Met::Part { level, part }) => entries.push(Entry {
                level,
                step: part.step,
                content: content_of(objects, heap, part.place),
            })?,
            Some(Met::End { .. }) => {}
            None => break,
        }
    }
    Ok(())
}
