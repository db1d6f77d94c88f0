//! The model: the objects of a segment without its bytes. Names and unique types refer to values, and a value is known by its
//! index in the list of all values ever made.

use std::alloc::{AllocError, Global};
use std::collections::BTreeMap;
use std::mem;

/// The kind of a type, with the types of its parts.
#[derive(Clone, Copy)]
pub(crate) enum Shape {
    Number,
    Text,
    /// A vector or a list.
    Sequence(usize),
    /// A map of either kind.
    Keyed(usize),
    Own(usize),
    Shared(usize),
    Struct(&'static [usize]),
}

/// The types of the random clients, in order. They are the same as in the generator's text.
pub(crate) const SHAPES: [Shape; 14] = [
    Shape::Number,
    Shape::Text,
    Shape::Sequence(1),
    Shape::Sequence(0),
    Shape::Keyed(1),
    Shape::Keyed(2),
    Shape::Own(7),
    Shape::Struct(&[0, 6, 1]),
    Shape::Sequence(7),
    Shape::Shared(10),
    Shape::Struct(&[0, 9, 5, 1]),
    Shape::Shared(8),
    Shape::Shared(1),
    Shape::Sequence(9),
];

/// The shape of a type.
pub(crate) fn shape_of(t: usize) -> Shape {
    SHAPES.get(t).copied().unwrap_or(Shape::Number)
}

/// The contents of a value.
#[derive(Clone, Drop)]
pub(crate) enum ValueContent {
    Number(i64),
    Text(Vec<u8>),
    Items(Vec<usize>),
    Keyed(BTreeMap<i64, usize>),
    /// The object of an own, or a copy of the frozen object of a shared cell.
    Held(Option<usize>),
    Fields(Vec<usize>),
}

/// A value: its type and its contents.
#[derive(Clone, Drop)]
pub(crate) struct Value {
    pub(crate) t: usize,
    pub(crate) content: ValueContent,
}

/// A named object: its type and its values.
#[derive(Drop)]
pub(crate) struct Object {
    pub(crate) t: usize,
    pub(crate) values: Vec<usize>,
}

/// The objects of a segment.
#[derive(Drop)]
pub(crate) struct Objects {
    alloc: Global,
    values: Vec<Value>,
    pub(crate) named: BTreeMap<Vec<u8>, Object>,
    pub(crate) uniques: BTreeMap<usize, usize>,
    /// The number of the next object that is frozen.
    pub(crate) next_number: u32,
}

impl Objects {
    pub(crate) fn new(alloc: Global, next_number: u32) -> Objects {
        Objects {
            alloc,
            values: Vec::new(alloc),
            named: BTreeMap::new(alloc),
            uniques: BTreeMap::new(alloc),
            next_number,
        }
    }

    pub(crate) fn get(&self, value: usize) -> Option<&Value> {
        self.values.get(value)
    }

    pub(crate) fn content(&mut self, value: usize) -> Option<&mut ValueContent> {
        Some(&mut self.values.get_mut(value)?.content)
    }

    pub(crate) fn type_of(&self, value: usize) -> usize {
        match self.values.get(value) {
            Some(value) => value.t,
            None => 0,
        }
    }

    pub(crate) fn shape(&self, value: usize) -> Shape {
        shape_of(self.type_of(value))
    }

    /// Makes a new value: the default of a type. No struct here has a field that is a struct.
    pub(crate) fn make(&mut self, t: usize) -> Result<usize, AllocError> {
        let content = self.default_of(t)?;
        let value = self.values.len();
        self.values.push(Value { t, content })?;
        Ok(value)
    }

    /// Resets a value to the default of its type.
    pub(crate) fn clear(&mut self, value: usize) -> Result<(), AllocError> {
        let content = self.default_of(self.type_of(value))?;
        if let Some(slot) = self.values.get_mut(value) {
            slot.content = content;
        }
        Ok(())
    }

    fn default_of(&mut self, t: usize) -> Result<ValueContent, AllocError> {
        match shape_of(t) {
            Shape::Struct(fields) => {
                let mut values = Vec::new(self.alloc);
                for field in fields {
                    let content = simple_default(self.alloc, *field);
                    values.push(self.values.len())?;
                    self.values.push(Value { t: *field, content })?;
                }
                Ok(ValueContent::Fields(values))
            }
            _ => Ok(simple_default(self.alloc, t)),
        }
    }

    /// Copies a value, with everything that it refers to.
    pub(crate) fn copy(&mut self, value: usize) -> Result<usize, AllocError> {
        let first = self.copy_alone(value)?;
        // the copy of a part comes after the copy of the whole, so the loop reaches each copy
        for copy in first..usize::MAX {
            let Some(slot) = self.content(copy) else {
                break;
            };
            let mut content = mem::replace(slot, ValueContent::Held(None));
            self.copy_parts(&mut content)?;
            if let Some(slot) = self.content(copy) {
                *slot = content;
            }
        }
        Ok(first)
    }

    /// Copies a value, which then refers to the same parts.
    fn copy_alone(&mut self, value: usize) -> Result<usize, AllocError> {
        let copy = self.values.len();
        if let Some(original) = self.values.get(value) {
            let original = original.clone()?;
            self.values.push(original)?;
        }
        Ok(copy)
    }

    /// Makes contents refer to copies of their parts.
    fn copy_parts(&mut self, content: &mut ValueContent) -> Result<(), AllocError> {
        match content {
            ValueContent::Number(_) | ValueContent::Text(_) | ValueContent::Held(None) => Ok(()),
            ValueContent::Items(parts) | ValueContent::Fields(parts) => self.copy_each(parts),
            ValueContent::Keyed(entries) => self.copy_entries(entries),
            ValueContent::Held(Some(part)) => {
                *part = self.copy_alone(*part)?;
                Ok(())
            }
        }
    }

    fn copy_each(&mut self, parts: &mut [usize]) -> Result<(), AllocError> {
        for part in parts {
            *part = self.copy_alone(*part)?;
        }
        Ok(())
    }

    fn copy_entries(&mut self, entries: &mut BTreeMap<i64, usize>) -> Result<(), AllocError> {
        for part in entries.values_mut() {
            *part = self.copy_alone(*part)?;
        }
        Ok(())
    }

    /// An object with this many new values.
    pub(crate) fn make_object(&mut self, t: usize, count: i64) -> Result<Object, AllocError> {
        let mut values = Vec::new(self.alloc);
        for _ in 0..count {
            values.push(self.make(t)?)?;
        }
        Ok(Object { t, values })
    }
}

/// The default of a type that isn't a struct.
fn simple_default(alloc: Global, t: usize) -> ValueContent {
    match shape_of(t) {
        Shape::Number | Shape::Struct(_) => ValueContent::Number(0),
        Shape::Text => ValueContent::Text(Vec::new(alloc)),
        Shape::Sequence(_) => ValueContent::Items(Vec::new(alloc)),
        Shape::Keyed(_) => ValueContent::Keyed(BTreeMap::new(alloc)),
        Shape::Own(_) | Shape::Shared(_) => ValueContent::Held(None),
    }
}
