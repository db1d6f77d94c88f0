use seg_block::Fit;
use seg_manager::{Heap, Place, Type, TypeId};
use seg_map::{KeyCursor, first_entry_by, next_entry_by};
use seg_seq::{at, next};
use std::alloc::Global;

/// A step from a value to a part of it.
#[derive(Clone, Copy)]
pub(crate) enum Selector {
    /// The item of a vector or a list with this index, from 0.
    Index(u32),
    /// The value of this key in a map.
    Key(i64),
    /// The field of a struct with this index, from 0.
    Field(u32),
    /// The object of an own.
    Content,
}

/// A direct part of a value.
#[derive(Clone, Copy)]
pub(crate) struct ValuePart {
    pub(crate) step: Selector,
    pub(crate) place: Place,
}

impl ValuePart {
    fn new(step: Selector, at: u32, type_id: TypeId) -> ValuePart {
        ValuePart {
            step,
            place: Place { at, type_id },
        }
    }
}

/// An iterator over the direct parts of a value.
#[derive(Clone, Copy)]
pub(crate) struct Parts {
    whole: Place,
    /// How many parts were returned so far.
    came: u32,
    left: u32,
    /// The last list item that was returned.
    item: u32,
    /// The last key of a map that was returned.
    key: i64,
}

impl Parts {
    pub(crate) fn of<F: Fit>(heap: &Heap<F, Global>, whole: Place) -> Parts {
        Parts {
            whole,
            came: 0,
            left: part_count(heap, whole),
            item: 0,
            key: 0,
        }
    }

    /// The value that they are parts of.
    pub(crate) fn whole(&self) -> Place {
        self.whole
    }

    pub(crate) fn came(&self) -> u32 {
        self.came
    }

    /// How many parts are still to come.
    pub(crate) fn left(&self) -> u32 {
        self.left
    }

    /// How many parts there are.
    pub(crate) fn count(&self) -> u32 {
        self.came.saturating_add(self.left)
    }

    /// The next part. The cursor is left at the key of a map, so that the next key is a step away.
    pub(crate) fn next<F: Fit>(
        &mut self,
        heap: &Heap<F, Global>,
        cursor: &mut KeyCursor,
    ) -> Option<ValuePart> {
        self.left = self.left.checked_sub(1)?;
        let index = self.came;
        self.came = index.saturating_add(1);
        match heap.types().kind(self.whole.type_id)? {
            Type::I64 | Type::Str | Type::Shared(_) => None,
            Type::Struct(_) => self.field(heap, index),
            Type::Vec(t) => self.item(heap, index, t),
            Type::List(t) => self.list_item(heap, index, t),
            Type::FlatMap(t) | Type::Map(t) => self.entry(heap, cursor, index, t),
            Type::Own(t) => Some(ValuePart::new(Selector::Content, heap.start(self.whole.at), t)),
        }
    }

    fn field<F: Fit>(&self, heap: &Heap<F, Global>, index: u32) -> Option<ValuePart> {
        let cell = heap.types().field(self.whole.type_id, index)?;
        Some(ValuePart {
            step: Selector::Field(index),
            place: self.whole.part(cell),
        })
    }

    fn item<F: Fit>(&self, heap: &Heap<F, Global>, index: u32, t: TypeId) -> Option<ValuePart> {
        let item = item_at(heap, self.whole, index)?;
        Some(ValuePart::new(Selector::Index(index), item, t))
    }

    /// The list item after the last one.
    fn list_item<F: Fit>(
        &mut self,
        heap: &Heap<F, Global>,
        index: u32,
        t: TypeId,
    ) -> Option<ValuePart> {
        self.item = match index {
            0 => item_at(heap, self.whole, 0)?,
            1.. => next(heap, self.item),
        };
        Some(ValuePart::new(Selector::Index(index), self.item, t))
    }

    /// The value of the key after the last one.
    fn entry<F: Fit>(
        &mut self,
        heap: &Heap<F, Global>,
        cursor: &mut KeyCursor,
        index: u32,
        t: TypeId,
    ) -> Option<ValuePart> {
        let entry = match index {
            0 => first_entry_by(heap, cursor, self.whole).ok()?,
            1.. => next_entry_by(heap, cursor, self.whole, self.key).ok()?,
        };
        self.key = entry.key;
        Some(ValuePart::new(Selector::Key(entry.key), entry.value, t))
    }
}

fn item_at<F: Fit>(heap: &Heap<F, Global>, whole: Place, index: u32) -> Option<u32> {
    at(heap, whole, index).ok()
}

/// How many direct parts a value has.
fn part_count<F: Fit>(heap: &Heap<F, Global>, whole: Place) -> u32 {
    match heap.types().kind(whole.type_id) {
        None | Some(Type::I64 | Type::Str | Type::Shared(_)) => 0,
        Some(Type::Struct(_)) => heap.types().field_count(whole.type_id),
        Some(Type::Vec(_) | Type::List(_) | Type::FlatMap(_) | Type::Map(_) | Type::Own(_)) => {
            heap.count(whole.at)
        }
    }
}
