//! The objects of a segment as JSON.

use crate::document::Document;
use crate::extent::Extent;
use crate::objects::text_of;
use crate::parts::Selector;
use crate::reached::Reached;
use crate::roots::{Root, RootName, frozen_number, roots, value_count};
use crate::selection::Selection;
use crate::walk::{Met, ValueWalk, most_turns};
use cli_progress::{Pace, Watch, Work};
use seg_block::Fit;
use seg_manager::{Heap, Place, Segment, Type, frozen};
use std::alloc::{AllocError, Global};

/// The named and the unique objects, with their types and numbers of values.
pub fn list_json<F: Fit>(
    alloc: Global,
    segment: &Segment<F, Global>,
    watch: &dyn Watch,
) -> Result<Vec<u8>, AllocError> {
    let roots = roots(alloc, segment, watch)?;
    let mut json = Document::new(alloc);
    let mut pace = Pace::new();
    json.begin_list("objects");
    for (number, root) in roots.iter().enumerate() {
        pace.show(watch, Work::Printing, number as u64, roots.len() as u64);
        if !root.is_frozen() {
            json.begin_object();
            add_name(&mut json, root);
            json.add_number("count", i64::from(root.count));
            json.end_object();
        }
    }
    json.end_array();
    json.into_line()
}

/// The objects that a name or a pattern selects, or all objects, and the frozen objects that can be reached from them, with all
/// their values. `None` if nothing is selected.
pub fn objects_json<F: Fit>(
    alloc: Global,
    segment: &Segment<F, Global>,
    name: Option<&[u8]>,
    watch: &dyn Watch,
) -> Result<Option<Vec<u8>>, AllocError> {
    let roots = roots(alloc, segment, watch)?;
    let selection = Selection::of(name, roots.as_slice());
    let mut objects = Objects::new(alloc, segment.heap(), roots.as_slice())?;
    let mut found = selection.is_all();
    for root in &roots {
        if selection.has(root) || objects.reached.has(root.first.at) {
            objects.add(root, watch)?;
            found = true;
        } else {
            objects.walk.skip(root.count);
        }
    }
    let line = objects.into_line()?;
    Ok(found.then_some(line))
}

/// Objects of a heap as JSON.
#[derive(Drop)]
struct Objects<'h, F: Fit> {
    heap: &'h Heap<F, Global>,
    json: Document,
    reached: Reached,
    walk: ValueWalk,
}

impl<'h, F: Fit> Objects<'h, F> {
    fn new(
        alloc: Global,
        heap: &'h Heap<F, Global>,
        roots: &[Root],
    ) -> Result<Objects<'h, F>, AllocError> {
        let reached = Reached::new(alloc, heap, roots)?;
        let mut json = Document::new(alloc);
        json.begin_list("objects");
        Ok(Objects {
            heap,
            json,
            reached,
            walk: ValueWalk::new(alloc, Extent::All, Work::Printing, value_count(roots)),
        })
    }

    /// Adds an object with all its values.
    fn add(&mut self, root: &Root, watch: &dyn Watch) -> Result<(), AllocError> {
        self.json.begin_object();
        add_name(&mut self.json, root);
        self.json.begin_list("values");
        let size = self.heap.types().size(root.first.type_id);
        for index in 0..root.count {
            self.add_value(root.value(index, size), watch)?;
        }
        self.json.end_array();
        self.json.end_object();
        Ok(())
    }

    /// Adds a value and all values inside it.
    fn add_value(&mut self, value: Place, watch: &dyn Watch) -> Result<(), AllocError> {
        self.begin(value);
        self.walk.begin(self.heap, value, watch)?;
        for _ in 0..most_turns(self.heap.window().len()) {
            let Some(met) = self.walk.next(self.heap, watch)? else {
                break;
            };
            match met {
                Met::Part { part, .. } => {
                    self.add_key(part.step);
                    self.begin(part.place);
                }
                Met::End { whole, .. } => self.end(whole),
            }
        }
        Ok(())
    }

    /// Adds the key of a part of a map. Parts of other values need none, since they are in order.
    fn add_key(&mut self, step: Selector) {
        match step {
            Selector::Key(key) => self.json.number_key(key),
            Selector::Index(_) | Selector::Field(_) | Selector::Content => {}
        }
    }

    /// Adds the beginning of a value with parts, or else the whole value. The content of an own follows.
    fn begin(&mut self, value: Place) {
        match self.heap.types().kind(value.type_id) {
            Some(Type::I64) => self.json.number(self.heap.load(value.at)),
            Some(Type::Str) => self.json.bytes(text_of(self.heap, value)),
            Some(Type::Vec(_) | Type::List(_) | Type::Struct(_)) => self.json.begin_array(),
            Some(Type::FlatMap(_) | Type::Map(_)) => self.json.begin_object(),
            Some(Type::Own(_)) => self.begin_own(value),
            Some(Type::Shared(_)) => self.add_shared(value),
            // a sound image has no value of an unknown type
            None => {}
        }
    }

    fn begin_own(&mut self, value: Place) {
        if self.heap.count(value.at) == 0 {
            self.json.null()
        }
    }

    /// Ends a value with parts.
    fn end(&mut self, value: Place) {
        match self.heap.types().kind(value.type_id) {
            Some(Type::Vec(_) | Type::List(_) | Type::Struct(_)) => self.json.end_array(),
            Some(Type::FlatMap(_) | Type::Map(_)) => self.json.end_object(),
            Some(Type::I64 | Type::Str | Type::Own(_) | Type::Shared(_)) | None => {}
        }
    }

    /// Adds the number of the frozen object that a cell points to.
    fn add_shared(&mut self, cell: Place) {
        let Some(value) = frozen(self.heap, cell) else {
            return self.json.null();
        };
        self.reached.add(value);
        let number = frozen_number(self.heap.window(), value);
        self.json.begin_object();
        self.json.add_number("frozen", i64::from(number));
        self.json.end_object()
    }

    fn into_line(self) -> Result<Vec<u8>, AllocError> {
        let Objects { mut json, .. } = self;
        json.end_array();
        json.into_line()
    }
}

/// Adds the members that name an object, and its type.
pub(crate) fn add_name(json: &mut Document, root: &Root) {
    match root.name {
        RootName::Named(name) => {
            json.key("name");
            json.bytes(name)
        }
        RootName::Unique => {
            json.key("unique");
            json.boolean(true)
        }
        RootName::Frozen { count, number } => {
            json.add_number("frozen", i64::from(number));
            json.add_number("cells", i64::from(count))
        }
    }
    json.add_number("type", i64::from(root.first.type_id))
}
