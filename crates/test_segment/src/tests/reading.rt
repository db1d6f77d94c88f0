//! The calls that only read an image.

use crate::tests::answers::{Answer, count, flag, flag_or_code, number, place, size};
use crate::tests::calls::{Call, is_written};
use crate::tests::verbs::Verb;
use seg_image::{CheckedImage, Code, Entries, Image, ImageRead, Keys, Named, Place};
use std::alloc::Global;

/// Makes a call on an open image. Returns `None` if the call doesn't only read.
pub(crate) fn read(alloc: Global, image: &Image<Global>, call: &Call) -> Option<Answer> {
    match read_value(image, call) {
        Some(found) => Some(read_again(alloc, image, call, found)),
        None => read_objects(image, call),
    }
}

/// Reads a value, which was found in an open image, in a checked image with the same bytes and in its reader, if they are sound.
/// Returns false if they differ.
fn read_again(alloc: Global, image: &Image<Global>, call: &Call, found: Answer) -> Answer {
    match CheckedImage::open(alloc, image.bytes()) {
        Ok(checked) if !reads_the_same(&checked, call, found) => flag(false),
        _ => found,
    }
}

fn reads_the_same(checked: &CheckedImage, call: &Call, found: Answer) -> bool {
    read_value(checked, call) == Some(found) && read_value(&checked.reader(), call) == Some(found)
}

fn read_value<S: ImageRead>(image: &S, call: &Call) -> Option<Answer> {
    Some(match call.verb {
        Verb::Load => number(ImageRead::load(image, call.place)),
        Verb::Content => place(ImageRead::content(image, call.place)),
        Verb::Frozen => place(image.frozen(call.place)),
        Verb::Text => flag_or_code(is_text(image.text(call.place), call.text)),
        Verb::Len => size(ImageRead::len(image, call.place)),
        Verb::Item => place(image.item(call.place, call.size())),
        _ => return None,
    })
}

fn read_objects(image: &Image<Global>, call: &Call) -> Option<Answer> {
    Some(match call.verb {
        Verb::Find => place(image.find(call.name, call.t)),
        Verb::FindItem => place(image.find_item(call.name, call.t, call.size())),
        Verb::FindUnique => place(image.find_unique(call.t)),
        Verb::Count => size(ImageRead::count(image, call.name, call.t).map(|count| u32::from(
            count,
        ))),
        Verb::NumUnique => count(image.num_unique()),
        Verb::Names => flag(are_named(image, call.text)),
        Verb::IsNamed => flag(image.named_object(call.name).is_some()),
        _ => return read_containers(image, call),
    })
}

fn read_containers(image: &Image<Global>, call: &Call) -> Option<Answer> {
    Some(match call.verb {
        Verb::Items => flag_or_code(are_items(image, call)),
        Verb::NumberBytes => flag_or_code(are_bytes(image.number_bytes(call.place), call.text)),
        Verb::PairBytes => flag_or_code(are_bytes(image.pair_bytes(call.place), call.text)),
        Verb::Get => place(image.get(call.place, call.long())),
        Verb::FirstKey => number(image.first_key(call.place)),
        Verb::LastKey => number(image.last_key(call.place)),
        Verb::NextKey => number(image.next_key(call.place, call.long())),
        Verb::PreviousKey => number(image.previous_key(call.place, call.long())),
        Verb::FirstEntry => entry(image, image.first_entry(call.place), call.text),
        Verb::LastEntry => entry(image, image.last_entry(call.place), call.text),
        Verb::NextEntry => entry(image, image.next_entry(call.place, call.long()), call.text),
        Verb::PreviousEntry => entry(
            image,
            image.previous_entry(call.place, call.long()),
            call.text,
        ),
        Verb::Keys => flag_or_code(are_keys(image.keys(call.place), call.text)),
        Verb::KeysAbove => flag_or_code(are_keys(
            image.keys_above(call.place, call.long()),
            call.text,
        )),
        Verb::Entries => flag_or_code(are_entries(image, image.entries(call.place), call.text)),
        Verb::EntriesAbove => flag_or_code(are_entries(
            image,
            image.entries_above(call.place, call.long()),
            call.text,
        )),
        _ => return None,
    })
}

fn is_text(found: Result<&[u8], Code>, text: &str) -> Result<bool, Code> {
    Ok(found? == text.as_bytes())
}

/// Whether these are the bytes of the numbers in a text.
fn are_bytes(found: Result<&[u8], Code>, text: &str) -> Result<bool, Code> {
    let mut bytes = found?;
    for word in text.split_whitespace() {
        let number: i64 = word.parse().unwrap_or(0);
        match bytes.strip_prefix(&number.to_le_bytes()) {
            Some(rest) => bytes = rest,
            None => return Ok(false),
        }
    }
    Ok(bytes.is_empty())
}

/// Whether the word at a position of a text is this number.
fn is_word(text: &str, index: usize, number: i64) -> bool {
    match text.split_whitespace().nth(index) {
        Some(word) => is_written(word, number),
        None => false,
    }
}

/// Whether a text has this many words.
fn has_words(text: &str, count: usize) -> bool {
    text.split_whitespace().count() == count
}

/// Whether a vector or a list has the numbers of the call's text.
fn are_items(image: &Image<Global>, call: &Call) -> Result<bool, Code> {
    let mut count = 0usize;
    for item in image.items(call.place)? {
        if !is_word(call.text, count, ImageRead::load(image, item)?) {
            return Ok(false);
        }
        count = count.wrapping_add(1);
    }
    Ok(has_words(call.text, count))
}

/// Whether these are the keys of a text, in order.
fn are_keys(keys: Result<Keys<'_, Image<Global>>, Code>, text: &str) -> Result<bool, Code> {
    let mut count = 0usize;
    for key in keys? {
        if !is_word(text, count, key) {
            return Ok(false);
        }
        count = count.wrapping_add(1);
    }
    Ok(has_words(text, count))
}

/// Whether these are the entries of a text, in order: each key is followed by its number.
fn are_entries(
    image: &Image<Global>,
    entries: Result<Entries<'_, Image<Global>>, Code>,
    text: &str,
) -> Result<bool, Code> {
    let mut count = 0usize;
    for (key, value) in entries? {
        let number = ImageRead::load(image, value)?;
        if !is_word(text, count, key) || !is_word(text, count.wrapping_add(1), number) {
            return Ok(false);
        }
        count = count.wrapping_add(2);
    }
    Ok(has_words(text, count))
}

/// Whether an entry of a map has the key and the number of a text.
fn entry(image: &Image<Global>, found: Result<(i64, Place), Code>, text: &str) -> Answer {
    flag_or_code(is_entry(image, found, text))
}

fn is_entry(
    image: &Image<Global>,
    found: Result<(i64, Place), Code>,
    text: &str,
) -> Result<bool, Code> {
    let (key, value) = found?;
    let number = ImageRead::load(image, value)?;
    Ok(is_word(text, 0, key) && is_word(text, 1, number) && has_words(text, 2))
}

/// Whether an object is the one that a word describes: its name, its type, and the number of its values if there are several, as
/// `b/0/3`.
fn is_named(named: Named, word: &str) -> bool {
    let Some((name, rest)) = word.split_once('/') else {
        return false;
    };
    let (t, count) = rest.split_once('/').unwrap_or((rest, "1"));
    named.name == name.as_bytes()
        && is_written(t, i64::from(named.type_id))
        && is_written(count, i64::from(named.count))
}

/// Whether exactly these names are in the index, in this order.
fn are_named(image: &Image<Global>, text: &str) -> bool {
    let count = text.split_whitespace().count();
    follow_one_another(image, text)
        && image.names().count() == count
        && image.num_named() as usize == count
}

/// Whether each of these names is found, and comes after the one before.
fn follow_one_another(image: &Image<Global>, text: &str) -> bool {
    let mut next = image.first_name();
    for word in text.split_whitespace() {
        let Some(named) = next else {
            return false;
        };
        if !is_named(named, word) || image.named_object(named.name) != next {
            return false;
        }
        next = image.next_name(named.name);
    }
    next.is_none()
}
