//! Instructions with an else part, on the model.

use crate::abstract_run::{AbstractRun, Register};
use crate::model::{Object, Objects, Shape, ValueContent};
use client_code::{Instruction, Operation};
use std::alloc::AllocError;
use std::collections::BTreeMap;
use std::ops::Bound;
use std::test::Fail;

const EXISTS: i64 = 1;

const NO_ROOM: i64 = 2;

const ABSENT: i64 = 3;

const OTHER_TYPE: i64 = 4;

const OUT_OF_RANGE: i64 = 5;

const NONE: i64 = 6;

const NO_NUMBER: i64 = 7;

/// The result of an opener, or its code.
type Answer = Result<Register, i64>;

impl AbstractRun {
    /// Performs an opener, and returns whether it succeeded.
    pub(crate) fn open(&mut self, objects: &mut Objects, i: Instruction) -> Result<bool, Fail> {
        if i.operation == Operation::If {
            return Ok(self.number(i.b) != 0);
        }
        match self.answer(objects, i)? {
            Ok(content) => {
                self.set(i.a, content);
                Ok(true)
            }
            Err(code) => {
                self.give(i, code);
                Ok(false)
            }
        }
    }

    fn answer(&mut self, objects: &mut Objects, i: Instruction) -> Result<Answer, Fail> {
        match i.operation {
            Operation::GetByte => Ok(self.read_byte()),
            Operation::Make => self.make(objects, i),
            Operation::Find => self.find(objects, i),
            Operation::FindOrMake => self.find_or_make(objects, i),
            Operation::Count => self.count(objects, i),
            Operation::MakeUnique | Operation::FindUnique | Operation::FindOrMakeUnique => {
                self.unique(objects, i)
            }
            Operation::New => self.with_room(objects, usize::from(i.type_id())),
            Operation::PushBack | Operation::PushFront => self.push(objects, i),
            Operation::PutKey => self.put_key(objects, i),
            Operation::Freeze => self.freeze(objects, i),
            Operation::Content => self.content(objects, i),
            _ => Ok(self.on_content(objects, i)?),
        }
    }

    fn read_byte(&mut self) -> Answer {
        match self.input.split_first() {
            Some((first, rest)) => {
                self.input = rest;
                Ok(Register::Number(i64::from(*first)))
            }
            None => Err(NONE),
        }
    }

    /// Makes a new value, if the real run found room for it.
    fn with_room(&self, objects: &mut Objects, t: usize) -> Result<Answer, Fail> {
        if self.found_room() {
            Ok(Ok(Register::Value(objects.make(t)?)))
        } else {
            Ok(Err(NO_ROOM))
        }
    }

    /// Makes the object of a name, if the real run found room for it.
    fn make_named(
        &self,
        objects: &mut Objects,
        i: Instruction,
        count: i64,
    ) -> Result<Answer, Fail> {
        if !self.found_room() {
            return Ok(Err(NO_ROOM));
        }
        let object = objects.make_object(usize::from(i.type_id()), count)?;
        let first = object.values.first().copied().unwrap_or(usize::MAX);
        let _ = objects.named.insert(self.name(i)?, object)?;
        Ok(Ok(Register::Value(first)))
    }

    fn make(&self, objects: &mut Objects, i: Instruction) -> Result<Answer, Fail> {
        let count = if i.c == Instruction::NONE {
            1
        } else {
            self.number(i.c)
        };
        if !(1..=65_535).contains(&count) {
            return Ok(Err(OUT_OF_RANGE));
        }
        if objects.named.contains_key(&self.name(i)?) {
            return Ok(Err(EXISTS));
        }
        self.make_named(objects, i, count)
    }

    /// The object of a name, if it has the instruction's type.
    fn named<'o>(
        &self,
        objects: &'o Objects,
        i: Instruction,
    ) -> Result<Result<&'o Object, i64>, Fail> {
        let name = self.name(i)?;
        Ok(match objects.named.get(&name) {
            None => Err(ABSENT),
            Some(object) if object.t != usize::from(i.type_id()) => Err(OTHER_TYPE),
            Some(object) => Ok(object),
        })
    }

    fn find(&self, objects: &Objects, i: Instruction) -> Result<Answer, Fail> {
        let item = if i.c == Instruction::NONE {
            0
        } else {
            self.number(i.c)
        };
        self.item(objects, i, item)
    }

    /// A value of the object with the instruction's name.
    fn item(&self, objects: &Objects, i: Instruction, item: i64) -> Result<Answer, Fail> {
        Ok(match self.named(objects, i)? {
            Err(code) => Err(code),
            Ok(object) => place(object.values.as_slice(), item),
        })
    }

    fn find_or_make(&self, objects: &mut Objects, i: Instruction) -> Result<Answer, Fail> {
        match self.item(objects, i, 0)? {
            Err(ABSENT) => self.make_named(objects, i, 1),
            found => Ok(found),
        }
    }

    fn count(&self, objects: &Objects, i: Instruction) -> Result<Answer, Fail> {
        Ok(match self.named(objects, i)? {
            Err(code) => Err(code),
            Ok(object) => Ok(Register::Number(object.values.len() as i64)),
        })
    }

    fn unique(&self, objects: &mut Objects, i: Instruction) -> Result<Answer, Fail> {
        let t = usize::from(i.type_id());
        if let Some(value) = objects.uniques.get(&t).copied() {
            return Ok(match i.operation {
                Operation::MakeUnique => Err(EXISTS),
                _ => Ok(Register::Value(value)),
            });
        }
        if i.operation == Operation::FindUnique {
            return Ok(Err(ABSENT));
        }
        let answer = self.with_room(objects, t)?;
        if let Ok(Register::Value(value)) = answer {
            let _ = objects.uniques.insert(t, value)?;
        }
        Ok(answer)
    }

    fn push(&self, objects: &mut Objects, i: Instruction) -> Result<Answer, Fail> {
        let container = self.value(i.b);
        let Shape::Sequence(item) = objects.shape(container) else {
            return Err(Fail::from("no sequence"));
        };
        let answer = self.with_room(objects, item)?;
        if let (Ok(Register::Value(value)), Some(ValueContent::Items(items))) = (
            answer,
            objects.content(container),
        ) {
            if i.operation == Operation::PushFront {
                items.insert(0, value)?;
            } else {
                items.push(value)?;
            }
        }
        Ok(answer)
    }

    fn put_key(&self, objects: &mut Objects, i: Instruction) -> Result<Answer, Fail> {
        let (map, key) = (self.value(i.b), self.number(i.c));
        let Shape::Keyed(item) = objects.shape(map) else {
            return Err(Fail::from("no map"));
        };
        if let Some(ValueContent::Keyed(entries)) = objects.content(map) {
            if let Some(value) = entries.get(&key) {
                return Ok(Ok(Register::Value(*value)));
            }
        }
        let answer = self.with_room(objects, item)?;
        if let (Ok(Register::Value(value)), Some(ValueContent::Keyed(entries))) = (
            answer,
            objects.content(map),
        ) {
            let _ = entries.insert(key, value)?;
        }
        Ok(answer)
    }

    /// Freezes register c's object into register b's cell, if a number is left and the real run found room.
    fn freeze(&mut self, objects: &mut Objects, i: Instruction) -> Result<Answer, Fail> {
        if objects.next_number == u32::MAX {
            self.sharing.had_no_number = true;
            return Ok(Err(NO_NUMBER));
        }
        if !self.found_room() {
            self.sharing.had_no_room = true;
            return Ok(Err(NO_ROOM));
        }
        objects.next_number = objects.next_number.wrapping_add(1);
        let Some(ValueContent::Held(held)) = objects.content(self.value(i.b)) else {
            return Err(Fail::from("no cell"));
        };
        *held = Some(self.value(i.c));
        self.set(i.c, Register::Undefined);
        self.sharing.froze = true;
        Ok(Ok(Register::Number(1)))
    }

    /// The object of an own or a shared cell.
    fn content(&mut self, objects: &mut Objects, i: Instruction) -> Result<Answer, Fail> {
        let cell = self.value(i.b);
        let is_shared = matches!(objects.shape(cell), Shape::Shared(_));
        let Some(ValueContent::Held(held)) = objects.content(cell) else {
            return Err(Fail::from("no cell"));
        };
        self.sharing.read |= is_shared && held.is_some();
        Ok(value_or(*held, NONE))
    }

    /// Performs an opener on the contents of register b's value.
    fn on_content(&self, objects: &mut Objects, i: Instruction) -> Result<Answer, Fail> {
        match objects.content(self.value(i.b)) {
            Some(ValueContent::Text(text)) => self.on_text(text, i),
            Some(ValueContent::Items(items)) => Ok(self.on_items(items, i)),
            Some(ValueContent::Held(held)) => Ok(value_or(held.take(), NONE)),
            Some(ValueContent::Keyed(entries)) => Ok(self.on_entries(entries, i)),
            _ => Err(Fail::from("no meaning")),
        }
    }

    fn on_entries(&self, entries: &BTreeMap<i64, usize>, i: Instruction) -> Answer {
        let key = self.number(i.c);
        match i.operation {
            Operation::GetKey => value_or(entries.get(&key).copied(), ABSENT),
            Operation::FirstKey => key_of(entries.first_key_value()),
            _ => {
                let above = (Bound::Excluded(key), Bound::Unbounded);
                key_of(entries.range(above).next())
            }
        }
    }

    fn on_text(&self, text: &mut Vec<u8>, i: Instruction) -> Result<Answer, Fail> {
        let c = self.number(i.c);
        match i.operation {
            Operation::At => return Ok(byte_at(text.as_slice(), c)),
            Operation::PopBack => {
                if text.pop().is_none() {
                    return Ok(Err(NONE));
                }
            }
            Operation::AddByte if u8::try_from(c).is_err() => return Ok(Err(OUT_OF_RANGE)),
            _ if !self.found_room() => return Ok(Err(NO_ROOM)),
            _ => self.write_text(text, i)?,
        }
        Ok(Ok(Register::Number(text.len() as i64)))
    }

    /// Adds a byte or a text, or assigns a text.
    fn write_text(&self, text: &mut Vec<u8>, i: Instruction) -> Result<(), AllocError> {
        if i.operation == Operation::AddByte {
            text.push(u8::try_from(self.number(i.c)).unwrap_or(0))?;
            return Ok(());
        }
        if i.operation != Operation::AddStr {
            text.clear();
        }
        text.extend_from_slice(self.constant())
    }

    fn on_items(&self, items: &mut Vec<usize>, i: Instruction) -> Answer {
        if i.operation == Operation::At {
            return place(items.as_slice(), self.number(i.c));
        }
        if items.is_empty() {
            return Err(NONE);
        }
        if i.operation == Operation::PopFront {
            let _ = items.remove(0);
        } else {
            let _ = items.pop();
        }
        Ok(Register::Number(items.len() as i64))
    }
}

/// The value at an index.
fn place(values: &[usize], index: i64) -> Answer {
    match usize::try_from(index) {
        Ok(index) => value_or(values.get(index).copied(), OUT_OF_RANGE),
        Err(_) => Err(OUT_OF_RANGE),
    }
}

/// The byte at an index.
fn byte_at(text: &[u8], index: i64) -> Answer {
    let Ok(index) = usize::try_from(index) else {
        return Err(OUT_OF_RANGE);
    };
    match text.get(index) {
        Some(byte) => Ok(Register::Number(i64::from(*byte))),
        None => Err(OUT_OF_RANGE),
    }
}

/// A value that exists, or a code.
fn value_or(value: Option<usize>, code: i64) -> Answer {
    match value {
        Some(value) => Ok(Register::Value(value)),
        None => Err(code),
    }
}

/// The key of an entry.
fn key_of(entry: Option<(&i64, &usize)>) -> Answer {
    match entry {
        Some((key, _)) => Ok(Register::Number(*key)),
        None => Err(NONE),
    }
}
