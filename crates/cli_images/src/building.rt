//! The objects of an image, made from the lines of a dump.

use crate::door::{
    anonymous, anonymous_destroyed, assign, constructed, cut, entry_of, field_of, frozen, kind_of,
    pushed, put, put_content, shared, shared_type_of, store, unique_constructed,
};
use crate::lines::Words;
use crate::paths::{Start, number, split, value_of};
use crate::spelling::unspelled;
use cli_show::kind_word;
use lezgauri::{Code, Image, Place, Type, TypeId};
use std::alloc::{AllocError, Global};

/// What is wrong with a line.
#[derive(Clone, Copy)]
pub(crate) enum Wrong {
    /// The program is out of memory.
    Memory,
    /// No free block of the segment is large enough.
    Full,
    /// The line isn't one that may come here.
    Line,
}

impl From<Code> for Wrong {
    fn from(code: Code) -> Self {
        match code {
            Code::BadAlloc => Wrong::Full,
            _ => Wrong::Line,
        }
    }
}

impl From<AllocError> for Wrong {
    fn from(_: AllocError) -> Self {
        Wrong::Memory
    }
}

/// An object whose values didn't all come yet.
#[derive(Clone, Copy)]
struct OpenObject {
    first: Place,
    count: u32,
    came: u32,
    /// The number of a frozen object.
    frozen: Option<u32>,
}

/// A value whose parts didn't all come yet.
#[derive(Clone, Copy)]
struct OpenValue {
    whole: Place,
    came: u32,
}

/// A cell that shares a frozen object until the image is finished.
#[derive(Clone, Copy)]
struct Keeper {
    number: u32,
    cell: Place,
}

/// An image while its objects are made.
#[derive(Drop)]
pub(crate) struct Building {
    image: Image<Global>,
    object: Option<OpenObject>,
    /// The values around the next one, the innermost last.
    open: Vec<OpenValue>,
    /// In ascending order of numbers.
    keepers: Vec<Keeper>,
}

impl Building {
    pub(crate) fn new(alloc: Global, image: Image<Global>) -> Building {
        Building {
            image,
            object: None,
            open: Vec::new(alloc),
            keepers: Vec::new(alloc),
        }
    }

    /// Takes the next line.
    pub(crate) fn take(&mut self, alloc: Global, line: &[u8]) -> Result<(), Wrong> {
        if self.object.is_none() {
            return self.begin(line);
        }
        if line == b"end".as_slice() {
            self.close()?;
        } else {
            let (place, word) = self.next_place(line)?;
            self.fill(alloc, place, word)?;
        }
        self.settle()
    }

    /// The image, after all lines.
    pub(crate) fn finished(self) -> Result<Image<Global>, Wrong> {
        let Building {
            image,
            object,
            open: _,
            keepers,
        } = self;
        if object.is_some() {
            return Err(Wrong::Line);
        }
        Ok(without(image, keepers.as_slice()))
    }

    /// Begins an object.
    fn begin(&mut self, line: &[u8]) -> Result<(), Wrong> {
        let mut words = Words::new(line);
        let word = words.next().unwrap_or_default();
        if word == b"name".as_slice() {
            return self.begin_named(&mut words);
        }
        if word == b"unique".as_slice() {
            return self.begin_unique(&mut words);
        }
        if word == b"frozen".as_slice() {
            return self.begin_frozen(&mut words);
        }
        Err(Wrong::Line)
    }

    /// `name NAME tT`, or `name NAME tT COUNT`.
    fn begin_named(&mut self, words: &mut Words) -> Result<(), Wrong> {
        let name = words.next().ok_or(Wrong::Line)?;
        let t = next_type(words)?;
        let count = if words.is_done() {
            1
        } else {
            last_number(words)?
        };
        let first = constructed(&mut self.image, name, t, count)?;
        self.expect(first, count, None);
        Ok(())
    }

    /// `unique tT`.
    fn begin_unique(&mut self, words: &mut Words) -> Result<(), Wrong> {
        let t = last_type(words)?;
        let first = unique_constructed(&mut self.image, t)?;
        self.expect(first, 1, None);
        Ok(())
    }

    /// `frozen N tT`.
    fn begin_frozen(&mut self, words: &mut Words) -> Result<(), Wrong> {
        let number = next_number(words)?;
        if let Some(keeper) = self.keepers.last() {
            if number <= keeper.number {
                return Err(Wrong::Line);
            }
        }
        let t = last_type(words)?;
        let first = anonymous(&mut self.image, t)?;
        self.expect(first, 1, Some(number));
        Ok(())
    }

    /// Expects the values of an object.
    fn expect(&mut self, first: Place, count: u32, frozen: Option<u32>) {
        self.object = Some(OpenObject {
            first,
            count,
            came: 0,
            frozen,
        });
    }

    /// The place of the next value, and the line without a key.
    fn next_place<'a>(&mut self, line: &'a [u8]) -> Result<(Place, &'a [u8]), Wrong> {
        let Some(mut value) = self.open.pop() else {
            return Ok((self.next_value()?, line));
        };
        let (whole, index) = (value.whole, value.came);
        value.came = index.saturating_add(1);
        if self.open.push(value).is_err() {
            return Err(Wrong::Memory);
        }
        part_place(&mut self.image, whole, index, line)
    }

    /// The next value of the object.
    fn next_value(&mut self) -> Result<Place, Wrong> {
        let mut object = self.object.ok_or(Wrong::Line)?;
        let start = Start {
            first: object.first,
            count: object.count,
            steps: &[],
        };
        let place = value_of(&self.image, start, object.came).ok_or(Wrong::Line)?;
        object.came = object.came.saturating_add(1);
        self.object = Some(object);
        Ok(place)
    }

    /// Sets a value, or begins one that has parts.
    fn fill(&mut self, alloc: Global, place: Place, word: &[u8]) -> Result<(), Wrong> {
        match kind_of(&self.image, place) {
            Some(Type::I64) => {
                let number = number(word).ok_or(Wrong::Line)?;
                Ok(store(&mut self.image, place, number)?)
            }
            Some(Type::Str) => fill_text(alloc, &mut self.image, place, word),
            Some(Type::Shared(_)) => self.fill_shared(place, word),
            Some(kind) => self.open_value(place, kind, word),
            None => Err(Wrong::Line),
        }
    }

    /// `nothing`, or `frozen N`.
    fn fill_shared(&mut self, place: Place, word: &[u8]) -> Result<(), Wrong> {
        if word == b"nothing".as_slice() {
            return Ok(());
        }
        let mut words = Words::new(word);
        if words.next() != Some(b"frozen".as_slice()) {
            return Err(Wrong::Line);
        }
        let number = last_number(&mut words)?;
        let cell = self.keeper(number).ok_or(Wrong::Line)?;
        Ok(shared(&mut self.image, place, cell)?)
    }

    /// The cell that shares the frozen object with this number.
    fn keeper(&self, number: u32) -> Option<Place> {
        let keepers = self.keepers.as_slice();
        let found = keepers
            .binary_search_by(|keeper| keeper.number.cmp(&number))
            .ok()?;
        Some(keepers.get(found)?.cell)
    }

    /// `nothing` for an own, or the word of a type with parts.
    fn open_value(&mut self, place: Place, kind: Type, word: &[u8]) -> Result<(), Wrong> {
        if matches!(kind, Type::Own(_)) && word == b"nothing".as_slice() {
            return Ok(());
        }
        if word != kind_word(kind).as_bytes() {
            return Err(Wrong::Line);
        }
        let value = OpenValue {
            whole: place,
            came: 0,
        };
        if self.open.push(value).is_err() {
            return Err(Wrong::Memory);
        }
        Ok(())
    }

    /// Ends the innermost open value.
    fn close(&mut self) -> Result<(), Wrong> {
        let value = self.open.pop().ok_or(Wrong::Line)?;
        cut(&mut self.image, value.whole);
        Ok(())
    }

    /// Ends the object if all its values came.
    fn settle(&mut self) -> Result<(), Wrong> {
        let Some(object) = self.object else {
            return Ok(());
        };
        if !self.open.is_empty() || object.came < object.count {
            return Ok(());
        }
        self.object = None;
        match object.frozen {
            Some(number) => self.keep(number, object.first),
            None => Ok(()),
        }
    }

    /// Freezes an object.
    fn keep(&mut self, number: u32, object: Place) -> Result<(), Wrong> {
        let t = shared_type_of(&self.image, object.type_id).ok_or(Wrong::Line)?;
        let cell = anonymous(&mut self.image, t)?;
        frozen(&mut self.image, cell, object)?;
        if self.keepers.push(Keeper { number, cell }).is_err() {
            return Err(Wrong::Memory);
        }
        Ok(())
    }
}

/// An image without these cells.
fn without(image: Image<Global>, keepers: &[Keeper]) -> Image<Global> {
    let mut image = image;
    for keeper in keepers {
        anonymous_destroyed(&mut image, keeper.cell);
    }
    image
}

/// The place of a part, by its index or by the key before it, and the rest of the line.
fn part_place<'a>(
    image: &mut Image<Global>,
    whole: Place,
    index: u32,
    line: &'a [u8],
) -> Result<(Place, &'a [u8]), Wrong> {
    match kind_of(image, whole) {
        Some(Type::Struct(_)) => {
            let field = field_of(image, whole, index).ok_or(Wrong::Line)?;
            Ok((field, line))
        }
        Some(Type::Vec(_) | Type::List(_)) => Ok((pushed(image, whole)?, line)),
        Some(Type::FlatMap(_) | Type::Map(_)) => {
            let (key, rest) = split(line, b':').ok_or(Wrong::Line)?;
            Ok((new_entry(image, whole, key)?, rest.trim_ascii_start()))
        }
        Some(Type::Own(_)) if index == 0 => Ok((put_content(image, whole)?, line)),
        Some(_) | None => Err(Wrong::Line),
    }
}

/// The value of a key that the map doesn't have yet.
fn new_entry(image: &mut Image<Global>, map: Place, key: &[u8]) -> Result<Place, Wrong> {
    let key = number(key).ok_or(Wrong::Line)?;
    if entry_of(image, map, key).is_some() {
        return Err(Wrong::Line);
    }
    Ok(put(image, map, key)?)
}

/// Sets a text, given in quotation marks.
fn fill_text(
    alloc: Global,
    image: &mut Image<Global>,
    place: Place,
    word: &[u8],
) -> Result<(), Wrong> {
    let [b'"', spelling @ .., b'"'] = word else {
        return Err(Wrong::Line);
    };
    let bytes = unspelled(alloc, spelling)?.ok_or(Wrong::Line)?;
    assign(image, place, bytes.as_slice())?;
    cut(image, place);
    Ok(())
}

fn next_number(words: &mut Words) -> Result<u32, Wrong> {
    number_of(words.next()).ok_or(Wrong::Line)
}

fn last_number(words: &mut Words) -> Result<u32, Wrong> {
    number_of(words.last()).ok_or(Wrong::Line)
}

fn number_of(word: Option<&[u8]>) -> Option<u32> {
    u32::try_from(number(word?)?).ok()
}

fn next_type(words: &mut Words) -> Result<TypeId, Wrong> {
    type_of(words.next()).ok_or(Wrong::Line)
}

fn last_type(words: &mut Words) -> Result<TypeId, Wrong> {
    type_of(words.last()).ok_or(Wrong::Line)
}

/// The number in `tN`.
fn type_of(word: Option<&[u8]>) -> Option<TypeId> {
    let digits = word?.strip_prefix(b"t".as_slice())?;
    u8::try_from(number(digits)?).ok()
}
