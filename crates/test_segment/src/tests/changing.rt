//! The calls that may change an image, and those on its bytes.

use crate::tests::answers::{Answer, count, done, flag, number, place, size, size_of};
use crate::tests::calls::Call;
use crate::tests::image::is_told;
use crate::tests::tiles::are_live;
use crate::tests::verbs::Verb;
use seg_image::{CheckedImage, Code, Fault, Image, ImageRead, Pair, Place, check};
use seg_value::{set_own, take_own};
use std::alloc::Global;
use support_data::{counter_saved, sharing};

/// Makes a call. Returns `None` if there is no such call.
pub(crate) fn change(alloc: Global, image: &mut Image<Global>, call: &Call) -> Option<Answer> {
    Some(match call.verb {
        Verb::Construct => place(image.construct(call.name, call.t, call.count())),
        Verb::FindOrConstruct => place(image.find_or_construct(call.name, call.t)),
        Verb::Destroy => flag(image.destroy(call.name, call.t)),
        Verb::ConstructUnique => place(image.construct_unique(call.t)),
        Verb::FindOrConstructUnique => place(image.find_or_construct_unique(call.t)),
        Verb::DestroyUnique => flag(image.destroy_unique(call.t)),
        Verb::ConstructAnonymous => place(image.construct_anonymous(call.t)),
        Verb::DestroyAnonymous => {
            image.destroy_anonymous(call.place);
            done(Ok(()))
        }
        _ => return change_values(alloc, image, call),
    })
}

fn change_values(alloc: Global, image: &mut Image<Global>, call: &Call) -> Option<Answer> {
    Some(match call.verb {
        Verb::Field => place(image.field(call.place, call.size())),
        Verb::Store => done(image.store(call.place, call.long())),
        Verb::Clear => done(image.clear(call.place)),
        Verb::PutContent => place(image.put_content(call.place)),
        Verb::SetOwn => give(image, call.other, call.place),
        Verb::TakeOwn => place(take(image, call.place)),
        Verb::Freeze => done(image.freeze(call.other, call.place)),
        Verb::Share => done(image.share(call.other, call.place)),
        Verb::Assign => done(image.assign(call.place, call.text.as_bytes())),
        Verb::Append => done(image.append(call.place, call.text.as_bytes())),
        Verb::PushByte => push_byte(image, call),
        _ => return change_containers(alloc, image, call),
    })
}

fn change_containers(alloc: Global, image: &mut Image<Global>, call: &Call) -> Option<Answer> {
    Some(match call.verb {
        Verb::PushBack => place(image.push_back(call.place)),
        Verb::PushFront => place(image.push_front(call.place)),
        Verb::PushNumber => size(push_number(image, call)),
        Verb::PushNumbers => done(push_numbers(alloc, image, call)),
        Verb::PopBack => done(image.pop_back(call.place)),
        Verb::PopFront => done(image.pop_front(call.place)),
        Verb::ShrinkToFit => done(image.shrink_to_fit(call.place)),
        Verb::Put => place(image.put(call.place, call.long())),
        Verb::PutNumbers => done(put_numbers(alloc, image, call)),
        Verb::Remove => flag(image.remove(call.place, call.long())),
        Verb::FirstInTurn => first_in_turn(image, call.place),
        Verb::NextInTurn => next_in_turn(image, call.place, call.long()),
        Verb::Next => neighbour(seg_seq::next(image, call.place.at), call),
        Verb::Previous => neighbour(seg_seq::previous(image, call.place.at), call),
        _ => return change_memory(alloc, image, call),
    })
}

fn change_memory(alloc: Global, image: &mut Image<Global>, call: &Call) -> Option<Answer> {
    Some(match call.verb {
        Verb::Size => size_of(image.size()),
        Verb::FreeMemory => size_of(image.free_memory()),
        Verb::LargestGap => size_of(image.largest_gap()),
        Verb::Shrink => size_of(image.shrink()),
        Verb::Grow => grow(image, call),
        Verb::ZeroFreeMemory => {
            image.zero_free_memory();
            done(Ok(()))
        }
        Verb::AllMemoryDeallocated => flag(image.all_memory_deallocated()),
        _ => return on_bytes(alloc, image, call),
    })
}

/// Calls on the bytes of an image, and comparisons of its blocks and places.
fn on_bytes(alloc: Global, image: &mut Image<Global>, call: &Call) -> Option<Answer> {
    Some(match call.verb {
        Verb::Types => count(image.types().len()),
        Verb::Fault => flag(has_fault(alloc, image.bytes(), call.text)),
        Verb::Reopen => flag(reopen(alloc, image)?),
        Verb::Saves => flag(saves(alloc, image, call.text)?),
        Verb::Blocks => flag(are_live(image.window(), call.text)),
        Verb::Distance => size_of(call.place.at.wrapping_sub(call.other.at)),
        _ => return None,
    })
}

/// Whether this is the fault of an image, also if it is opened only for reading.
fn has_fault(alloc: Global, image: &[u8], text: &str) -> bool {
    let opened = CheckedImage::open(alloc, image).err();
    is_told(check(alloc, image).err(), text) && is_told(opened, text)
}

/// Makes an own the owner of an object.
fn give(image: &mut Image<Global>, own: Place, object: Place) -> Answer {
    match image {
        Image::Seq(segment) => set_own(segment.heap_mut(), own, object.at),
        Image::Best(segment) => set_own(segment.heap_mut(), own, object.at),
    }
    done(Ok(()))
}

/// Takes the object out of an own. Returns its place.
fn take(image: &mut Image<Global>, own: Place) -> Result<Place, Code> {
    let Place { at: _, type_id } = ImageRead::content(image, own)?;
    let object = match image {
        Image::Seq(segment) => take_own(segment.heap_mut(), own),
        Image::Best(segment) => take_own(segment.heap_mut(), own),
    };
    let at = object.ok_or(Code::Null)?;
    Ok(Place { at, type_id })
}

/// Makes an image larger. Returns its size.
fn grow(image: &mut Image<Global>, call: &Call) -> Answer {
    match image.grow(call.size()) {
        Ok(size) => size_of(size),
        Err(Fault::BadSize) => Answer::Word("size"),
        Err(_) => Answer::Word("fault"),
    }
}

/// Adds a byte to a text. Returns its length.
fn push_byte(image: &mut Image<Global>, call: &Call) -> Answer {
    let byte = u8::try_from(call.size()).unwrap_or(0);
    size(match image {
        Image::Seq(segment) => seg_seq::push_byte(segment.heap_mut(), call.place, byte),
        Image::Best(segment) => seg_seq::push_byte(segment.heap_mut(), call.place, byte),
    })
}

/// Pushes a number onto a vector. Returns its position.
fn push_number(image: &mut Image<Global>, call: &Call) -> Result<u32, Code> {
    let vector = image.numbers(call.place)?;
    image.push_number(vector, call.long())
}

/// Pushes the numbers of the call's text onto a vector.
fn push_numbers(alloc: Global, image: &mut Image<Global>, call: &Call) -> Result<(), Code> {
    let vector = image.numbers(call.place)?;
    image
        .push_numbers(vector, &numbers_of(alloc, call)?)
        .map_err(|stopped| stopped.code)
}

/// Puts the keys and numbers of the call's text into a map, each key before its number.
fn put_numbers(alloc: Global, image: &mut Image<Global>, call: &Call) -> Result<(), Code> {
    let numbers = numbers_of(alloc, call)?;
    let mut entries = Vec::new(alloc);
    for pair in numbers.as_slice().chunks_exact(2) {
        let entry = Pair {
            key: pair[0],
            number: pair[1],
        };
        entries.push(entry).map_err(|_| Code::BadAlloc)?;
    }
    image
        .put_numbers(call.place, &entries)
        .map_err(|stopped| stopped.code)
}

/// The numbers of the call's text.
fn numbers_of(alloc: Global, call: &Call) -> Result<Vec<i64>, Code> {
    let mut numbers = Vec::new(alloc);
    for word in call.text.split_whitespace() {
        numbers
            .push(word.parse().unwrap_or(0))
            .map_err(|_| Code::BadAlloc)?;
    }
    Ok(numbers)
}

/// The first key of a map. The segment remembers where it is.
fn first_in_turn(image: &mut Image<Global>, map: Place) -> Answer {
    number(match image {
        Image::Seq(segment) => segment.first_key(map),
        Image::Best(segment) => segment.first_key(map),
    })
}

/// The key after another one, beside which the segment may be already.
fn next_in_turn(image: &mut Image<Global>, map: Place, after: i64) -> Answer {
    number(match image {
        Image::Seq(segment) => segment.next_key(map, after),
        Image::Best(segment) => segment.next_key(map, after),
    })
}

/// The item beside an item of a list.
fn neighbour(at: u32, call: &Call) -> Answer {
    let type_id = call.place.type_id;
    Answer::Place(Place { at, type_id })
}

/// Opens the bytes of an image as the image. Returns whether they are sound.
fn reopen(alloc: Global, image: &mut Image<Global>) -> Option<bool> {
    let bytes = Vec::from_slice(alloc, image.bytes()).ok()?;
    *image = Image::open(alloc, bytes).ok()?;
    Some(true)
}

/// Whether an image is saved as the one with a name.
fn saves(alloc: Global, image: &Image<Global>, name: &str) -> Option<bool> {
    let wanted = match name {
        "counter" => counter_saved(alloc, 41),
        "sharing" => sharing(alloc),
        _ => return None,
    };
    match (image.save(alloc), wanted) {
        (Ok(saved), Ok(wanted)) => Some(saved.as_slice() == wanted.as_slice()),
        _ => Some(false),
    }
}
