//! The library calls that the commands make. They have no contracts here: the commands are tested, not proved.

use cli_host::{Watch, Work};
use lezgauri::{
    AllocatorKind, Client, Code, Fault, Image, ImageRead, IndexKind, MAX_TYPES, Place, Type,
    TypeId, TypeTable, assemble, check, parse,
};
use seg_value::freeze;
use std::alloc::Global;

/// An image after it is opened, or its first fault.
pub fn opened(alloc: Global, bytes: Vec<u8>, watch: &dyn Watch) -> Result<Image<Global>, Fault> {
    watch.begin(Work::Checking, bytes.len() as u64);
    match Image::open(alloc, bytes) {
        Ok(image) => Ok(image),
        Err(unopened) => Err(unopened.fault),
    }
}

/// The types of a sound image, or its first fault.
pub fn checked(alloc: Global, bytes: &[u8], watch: &dyn Watch) -> Result<TypeTable, Fault> {
    watch.begin(Work::Checking, bytes.len() as u64);
    check(alloc, bytes)
}

/// The client that a text assembles to.
pub fn assembled(alloc: Global, text: &[u8]) -> Result<Vec<u8>, Fault> {
    assemble(alloc, text)
}

/// A client that is read from its file.
pub fn parsed(client: &[u8]) -> Result<Client<'_>, Fault> {
    parse(client)
}

pub(crate) fn created(
    alloc: Global,
    size: u32,
    allocator: AllocatorKind,
    index: IndexKind,
) -> Result<Image<Global>, Fault> {
    Image::create(alloc, size, allocator, index)
}

/// Grows the segment by `extra` bytes, and returns the new size in bytes.
pub(crate) fn grown(image: &mut Image<Global>, extra: u32) -> Result<u32, Fault> {
    image.grow(extra)
}

/// Cuts off the free memory at the end, and returns the new size in bytes.
pub(crate) fn shrunk(image: &mut Image<Global>) -> u32 {
    image.shrink()
}

/// The first value and the number of values of the object with this name.
pub(crate) fn named_value(image: &Image<Global>, name: &[u8]) -> Option<(Place, u32)> {
    let named = image.named_object(name)?;
    let first = image.find(name, named.type_id).ok()?;
    Some((first, u32::from(named.count)))
}

/// The value of the unique object of a type.
pub(crate) fn unique_value(image: &Image<Global>, t: TypeId) -> Option<Place> {
    image.find_unique(t).ok()
}

pub(crate) fn kind_of(image: &Image<Global>, place: Place) -> Option<Type> {
    image.types().kind(place.type_id)
}

/// The size of a value in bytes.
pub(crate) fn size_of(image: &Image<Global>, place: Place) -> u32 {
    image.types().size(place.type_id)
}

/// The number of items, keys, bytes or objects in a value.
pub(crate) fn count_of(image: &Image<Global>, place: Place) -> u32 {
    image.len(place).unwrap_or(0)
}

pub(crate) fn field_of(image: &Image<Global>, place: Place, index: u32) -> Option<Place> {
    image.field(place, index).ok()
}

pub(crate) fn item_of(image: &Image<Global>, place: Place, index: u32) -> Option<Place> {
    image.item(place, index).ok()
}

pub(crate) fn entry_of(image: &Image<Global>, map: Place, key: i64) -> Option<Place> {
    image.get(map, key).ok()
}

pub(crate) fn content_of(image: &Image<Global>, own: Place) -> Option<Place> {
    image.content(own).ok()
}

pub(crate) fn frozen_of(image: &Image<Global>, shared: Place) -> Option<Place> {
    image.frozen(shared).ok()
}

pub(crate) fn store(image: &mut Image<Global>, place: Place, number: i64) -> Result<(), Code> {
    image.store(place, number)
}

pub(crate) fn assign(image: &mut Image<Global>, place: Place, bytes: &[u8]) -> Result<(), Code> {
    image.assign(place, bytes)
}

/// Adds an item at the end of a vector or a list.
pub(crate) fn pushed(image: &mut Image<Global>, sequence: Place) -> Result<Place, Code> {
    image.push_back(sequence)
}

/// The value of a key, which is added if the map doesn't have it.
pub(crate) fn put(image: &mut Image<Global>, map: Place, key: i64) -> Result<Place, Code> {
    image.put(map, key)
}

/// Gives an own a new object, and returns its value.
pub(crate) fn put_content(image: &mut Image<Global>, own: Place) -> Result<Place, Code> {
    image.put_content(own)
}

/// Removes a key. False if the map doesn't have it.
pub(crate) fn removed(image: &mut Image<Global>, map: Place, key: i64) -> bool {
    image.remove(map, key)
}

/// Destroys the object with this name. False if no object of this type has it.
pub(crate) fn destroyed(image: &mut Image<Global>, name: &[u8], t: TypeId) -> bool {
    image.destroy(name, t)
}

/// Destroys the unique object of a type. False if it doesn't exist.
pub(crate) fn unique_destroyed(image: &mut Image<Global>, t: TypeId) -> bool {
    image.destroy_unique(t)
}

/// Adds the types of a longer table.
pub(crate) fn extended(image: &mut Image<Global>, types: &TypeTable) -> Result<(), Fault> {
    image.add_types(types)
}

/// The types that a client declares.
pub(crate) fn declared(client: &[u8]) -> Result<TypeTable, Fault> {
    let client = parsed(client)?;
    Ok(client.types())
}

/// Makes a named object with this number of values, and returns the first one.
pub(crate) fn constructed(
    image: &mut Image<Global>,
    name: &[u8],
    t: TypeId,
    count: u32,
) -> Result<Place, Code> {
    image.construct(name, t, count)
}

/// Makes the unique object of a type.
pub(crate) fn unique_constructed(image: &mut Image<Global>, t: TypeId) -> Result<Place, Code> {
    image.construct_unique(t)
}

/// Makes an object that has to be frozen or destroyed before the image is saved.
pub(crate) fn anonymous(image: &mut Image<Global>, t: TypeId) -> Result<Place, Code> {
    image.construct_anonymous(t)
}

pub(crate) fn anonymous_destroyed(image: &mut Image<Global>, object: Place) {
    image.destroy_anonymous(object);
}

/// Freezes an object that has no owner, for a shared cell.
pub(crate) fn frozen(image: &mut Image<Global>, cell: Place, object: Place) -> Result<(), Code> {
    match image {
        Image::Seq(segment) => freeze(segment.heap_mut(), cell, object.at),
        Image::Best(segment) => freeze(segment.heap_mut(), cell, object.at),
    }
}

/// Makes a shared cell point to what another one points to.
pub(crate) fn shared(image: &mut Image<Global>, to: Place, from: Place) -> Result<(), Code> {
    image.share(to, from)
}

/// The first type of cells that share objects of a type.
pub(crate) fn shared_type_of(image: &Image<Global>, object: TypeId) -> Option<TypeId> {
    for t in 0..MAX_TYPES as TypeId {
        if is_shared_of(image, t, object) {
            return Some(t);
        }
    }
    None
}

/// Whether a type is of cells that share objects of another one.
fn is_shared_of(image: &Image<Global>, t: TypeId, object: TypeId) -> bool {
    match image.types().kind(t) {
        Some(Type::Shared(shared)) => shared == object,
        Some(_) | None => false,
    }
}

/// Cuts the buffer of a value, if it has one, to what it uses.
pub(crate) fn cut(image: &mut Image<Global>, place: Place) {
    let _ = image.shrink_to_fit(place);
}
