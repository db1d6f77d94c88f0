//! Calls on images, written as text, and what they return. After `$ new 4096` the calls on the lines below are made on a new image
//! of that size, once for each allocator and index. After `$ new 4096 t4 t5` they are made once for each of these types too, which
//! `t` then is. After `$ one 4096` they are made only with sequential fit and a flat index, and after `$ open counter` or
//! `$ open sharing` on one of these images. After `$ image` the lines build an image, as in `image.rt`. `;` begins a comment. A line
//! is one of these:
//!
//!     P = construct pair t7       P is the place that the call returns
//!     find pair t7 => P           the call returns this place, number, code or fault
//!     destroy pair t0 => no       the call returns false
//!     assign T: good day          the bytes, words or numbers that a call is given, or with which its results are compared
//!     20 times push_back V        the call is made 20 times; `|` separates several calls
//!
//! Without a result, a call must succeed, and not return false or a number. The words before the colon are names, places (capital
//! letters), types (`t3`) and numbers; a name that has a space is given after the colon. Codes are written as in `answers.rt`, and
//! the faults of images as in `image.rt`; `size` is the fault of a size that no image has. A value is read in the open image, and in
//! a checked image of the same bytes if they are sound.

use crate::tests::answers::Answer;
use crate::tests::changing::change;
use crate::tests::image::{entry_of, image_of, type_id, without_comment};
use crate::tests::reading::read;
use crate::tests::verbs::{Verb, verb_of};
use seg_image::{AllocatorKind, Image, IndexKind, Place, TypeId, TypeTable};
use std::alloc::Global;
use std::test::Fail;
use support_data::{counter, number, sharing, statements};

/// A kind of image.
type Kind = (AllocatorKind, IndexKind);

const SEQ_FLAT: Kind = (AllocatorKind::Seq, IndexKind::Flat);

// Both allocators with both indexes.
static KINDS: [Kind; 4] = [
    SEQ_FLAT,
    (AllocatorKind::Seq, IndexKind::Tree),
    (AllocatorKind::Best, IndexKind::Flat),
    (AllocatorKind::Best, IndexKind::Tree),
];

/// The types of a new image: a number, a text, containers of numbers, an own, a struct and a shared cell. Then pairs of a number and
/// a shared cell of such a pair, and pairs of a number and an own of such a pair.
const TYPES: &str =
    "i64, str, vec t0, list t0, flat_map t0, map t0, own t0, struct t0 t1, shared t0, own t11, \
    shared t11, struct t0 t10, own t13, struct t0 t12";

fn table(alloc: Global) -> Result<TypeTable, Fail> {
    let mut bytes = Vec::new(alloc);
    for words in TYPES.split(',') {
        bytes.extend_from_slice(&entry_of(words).ok_or("no type")?)?;
    }
    Ok(TypeTable::read_shared(&bytes)?)
}

/// The place of a letter to which no place was given yet.
const UNKNOWN: Place = Place { at: 0, type_id: 31 };

/// The places of the letters from A to Z.
type Places = [Place; 26];

/// A call, with its arguments by what they are. A line has at most one name, type and number, and two places.
#[derive(Clone, Copy)]
pub(crate) struct Call<'a> {
    pub(crate) verb: Verb,
    pub(crate) name: &'a [u8],
    pub(crate) t: TypeId,
    pub(crate) number: Option<i64>,
    pub(crate) place: Place,
    pub(crate) other: Place,
    /// The text after the colon.
    pub(crate) text: &'a str,
    /// The letter to which the result is given.
    target: Option<usize>,
    /// The result as it is written.
    told: &'a str,
}

impl<'a> Call<'a> {
    /// The call of a line, where `t` is this type. `None` if there is no such call.
    fn of(line: &'a str, places: &Places, t: TypeId) -> Option<Call<'a>> {
        let (line, told) = line.split_once("=>").unwrap_or((line, ""));
        let (line, text) = line.split_once(':').unwrap_or((line, ""));
        let (letter, line) = line.split_once(" = ").unwrap_or(("", line));
        let (word, arguments) = line.trim().split_once(' ').unwrap_or((line.trim(), ""));
        let mut call = Call {
            verb: verb_of(word)?,
            name: b"",
            t,
            number: None,
            place: UNKNOWN,
            other: UNKNOWN,
            text: text.trim(),
            target: index_of(letter.trim()),
            told: told.trim(),
        };
        for argument in arguments.split_whitespace() {
            call.take(argument, places);
        }
        if call.name.is_empty() {
            call.name = call.text.as_bytes();
        }
        Some(call)
    }

    fn take(&mut self, argument: &'a str, places: &Places) {
        if let Some(place) = place_of(argument, places) {
            self.other = self.place;
            self.place = place;
        } else if let Some(t) = type_id(argument) {
            self.t = t;
        } else if let Ok(number) = argument.parse() {
            self.number = Some(number);
        } else if argument != "t" {
            self.name = argument.as_bytes();
        }
    }

    /// The number as a key or a value.
    pub(crate) fn long(&self) -> i64 {
        self.number.unwrap_or(0)
    }

    /// The number as a size, an index or a byte.
    pub(crate) fn size(&self) -> u32 {
        u32::try_from(self.long()).unwrap_or(u32::MAX)
    }

    /// The number of values of a new object.
    pub(crate) fn count(&self) -> u32 {
        match self.number {
            Some(_) => self.size(),
            None => 1,
        }
    }
}

fn index_of(letter: &str) -> Option<usize> {
    match letter.as_bytes() {
        [letter] if letter.is_ascii_uppercase() => Some(usize::from(letter.wrapping_sub(b'A'))),
        _ => None,
    }
}

fn place_of(letter: &str, places: &Places) -> Option<Place> {
    places.get(index_of(letter)?).copied()
}

/// Whether a word is this number.
pub(crate) fn is_written(word: &str, number: i64) -> bool {
    word.parse().ok() == Some(number)
}

/// Whether a call returned what is written.
fn is_returned(found: Answer, told: &str, places: &Places) -> bool {
    match found {
        Answer::Word(word) => told == word,
        Answer::Number(number) => is_written(told, number),
        Answer::Place(place) => told.is_empty() || place_of(told, places) == Some(place),
    }
}

/// Makes the calls of each statement, and finds the faults of each image.
pub(crate) fn play(alloc: Global, text: &str) -> Result<(), Fail> {
    for statement in statements(alloc, text)? {
        let words = statement.words.trim();
        let (word, words) = words.split_once(' ').unwrap_or((words, ""));
        match word {
            "new" => on_new(alloc, words, statement.lines, &KINDS)?,
            "one" => on_new(alloc, words, statement.lines, &[SEQ_FLAT])?,
            "open" => Host::open(alloc, words)?.follow(alloc, statement.lines, 0)?,
            "image" => {
                image_of(alloc, statement.lines)?;
            }
            _ => return Err(Fail::new(format_args!("no such statement: {word}"))),
        }
    }
    Ok(())
}

/// Makes calls on new images of a size, of each of these kinds, once for each type if there are types.
fn on_new(alloc: Global, words: &str, lines: &str, kinds: &[Kind]) -> Result<(), Fail> {
    let (size, types) = words.split_once(' ').unwrap_or((words, "t0"));
    let size = number(size).ok_or("no size")?;
    for word in types.split_whitespace() {
        let t = type_id(word).ok_or("no type")?;
        for (allocator, index) in kinds {
            let image = Image::create(alloc, size, *allocator, *index)?;
            Host::with_types(alloc, image)?.follow(alloc, lines, t)?;
        }
    }
    Ok(())
}

/// An image, and the places of letters.
#[derive(Drop)]
struct Host {
    image: Image<Global>,
    places: Places,
}

impl Host {
    fn of(image: Image<Global>) -> Host {
        Host {
            image,
            places: [UNKNOWN; 26],
        }
    }

    /// An image to which the types above are added.
    fn with_types(alloc: Global, mut image: Image<Global>) -> Result<Host, Fail> {
        image.add_types(&table(alloc)?)?;
        Ok(Host::of(image))
    }

    /// The image with a name, opened.
    fn open(alloc: Global, name: &str) -> Result<Host, Fail> {
        let bytes = match name {
            "counter" => counter(alloc)?,
            "sharing" => sharing(alloc)?,
            _ => return Err(Fail::new("no such image")),
        };
        let image = Image::open(alloc, bytes).ok();
        Ok(Host::of(image.ok_or("unsound")?))
    }

    /// Makes the calls of these lines.
    fn follow(&mut self, alloc: Global, lines: &str, t: TypeId) -> Result<(), Fail> {
        for line in lines.lines() {
            let line = without_comment(line);
            match line.split_once(" times ") {
                Some((count, calls)) => {
                    self.repeat(alloc, number(count).ok_or("no number")?, calls, t)?
                }
                None if line.is_empty() => {}
                None => self.make(alloc, line, t)?,
            }
        }
        Ok(())
    }

    /// Makes several calls, one after the other, this often.
    fn repeat(&mut self, alloc: Global, count: u32, calls: &str, t: TypeId) -> Result<(), Fail> {
        for _ in 0..count {
            for call in calls.split('|') {
                self.make(alloc, call, t)?;
            }
        }
        Ok(())
    }

    /// Makes the call of a line.
    fn make(&mut self, alloc: Global, line: &str, t: TypeId) -> Result<(), Fail> {
        let Some(call) = Call::of(line, &self.places, t) else {
            return Err(Fail::new(format_args!("not understood: {line}")));
        };
        let found = answer(alloc, &mut self.image, &call).ok_or("no such image")?;
        if !is_returned(found, call.told, &self.places) {
            let (word, number) = found.parts();
            return Err(Fail::new(format_args!("{line}, not {word} {number}")));
        }
        self.keep(found, call.target);
        Ok(())
    }

    /// Gives a place to a letter.
    fn keep(&mut self, found: Answer, target: Option<usize>) {
        if let (Answer::Place(place), Some(index)) = (found, target) {
            if let Some(slot) = self.places.get_mut(index) {
                *slot = place;
            }
        }
    }
}

/// Makes a call. Returns `None` if there is no such call.
fn answer(alloc: Global, image: &mut Image<Global>, call: &Call) -> Option<Answer> {
    match read(alloc, image, call) {
        Some(found) => Some(found),
        None => change(alloc, image, call),
    }
}
