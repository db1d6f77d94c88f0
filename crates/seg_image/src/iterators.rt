//! Iterators over what can be read of an image: its names, the items of a sequence, and the keys of a map with their
//! values.

ghost use Rattle.std.specs.Prelude.{◌≡◌, ◌<◌, ◌≤◌, ℕ, List, length, None, IsSomeAnd, MatchOption, slice_get};
ghost use Rattle.std.specs.Iterator.{at_most};
ghost use Rattle.std.specs.Option.{option_map};
ghost use Rattle.std.specs.Result.{result_ok};
ghost use Rattle.seg_spec.specs.Sound.{Picture};
ghost use Rattle.seg_spec.specs.Value.{Values, count};
ghost use Rattle.seg_rbtree.specs.Following.{LeadsInside};
ghost use Rattle.seg_value.specs.CellPlaces.{place_of};
ghost use Rattle.seg_map.specs.Maps.{FindsEntry, first_of};
ghost use Rattle.seg_seq.specs.Lists.{HasList};
ghost use Rattle.seg_seq.specs.Sequences.{HasItems, ShowsItem};
ghost use Rattle.seg_manager.specs.NamedObjects.{DescribesRoot};
ghost use Rattle.seg_manager.specs.Segments.{IsSegment};
ghost use Rattle.seg_image.specs.Iterators.{item_before, NamesNext, ItemsNext, ShowsItemBefore, keys_after, KeysNext, EntriesNext};
ghost use Rattle.seg_image.specs.Places.{WhereMap};

use crate::places::{placed_entry, value_type_at};
use seg_layout::TypeId;
use seg_manager::Named;
use seg_map::{KeyCursor, KeyValue};
use seg_raw::Code;
use seg_value::{Place, SegmentRead, ValueAt};

/// The names of an image in order, from [`ImageRead::names`].
#[derive(Drop)]
pub struct Names<'a, S> {
    pub(crate) image: &'a S,
    pub(crate) last: Option<&'a [u8]>,
    pub(crate) left: u32,
}

/// The places of the items of a vector or a list in order, from [`ImageRead::items`].
#[derive(Drop)]
pub struct Items<'a, S> {
    pub(crate) image: &'a S,
    pub(crate) sequence: Place,
    pub(crate) item_type: TypeId,
    pub(crate) is_list: bool,
    /// The position of the last item that was returned, in a list.
    pub(crate) last: Option<ValueAt>,
    pub(crate) len: u32,
    pub(crate) left: u32,
}

/// The keys of a map in order, from [`ImageRead::keys`] or [`ImageRead::keys_above`].
#[derive(Drop)]
pub struct Keys<'a, S> {
    pub(crate) image: &'a S,
    pub(crate) map: Place,
    /// Where the last key is, so that the next one is a step away.
    pub(crate) cursor: KeyCursor,
    pub(crate) last: Option<i64>,
    pub(crate) left: u32,
}

/// The keys of a map in order with the places of their values, from [`ImageRead::entries`] or
/// [`ImageRead::entries_above`].
#[derive(Drop)]
pub struct Entries<'a, S>(pub(crate) Keys<'a, S>);

impl<'a, S: SegmentRead> Iterator for Names<'a, S> {
    type Item = Named<'a>;

    ghost next_gives = { NamesNext S.allocator S.stored };

    // On any bytes it ends after this many names.
    ghost remaining = { λ names. at_most names.left };

    fn next(&mut self) -> Option<Named<'a>> {
        let left = self.left.checked_sub(1)?;
        let named = name_after(self.image, self.last)?;
        self.last = Some(named.name);
        self.left = left;
        Some(named)
    }
}

/// The first name after another one, or the first of all.
fn name_after<'a, S: SegmentRead>(image: &'a S, last: Option<&[u8]>) -> Option<Named<'a>>
    ensures { (picture : Picture) (n : ℕ) →
        IsSegment (S.allocator image.now) (S.stored image.now) picture →
        n ≤ length picture.names →
        option_map (λ name. name.now) last.entry
        ≡ option_map (λ r. r.name) (item_before picture.names n) →
        MatchOption result (slice_get picture.names n ≡ None)
        (λ it. IsSomeAnd (slice_get picture.names n)
        (DescribesRoot it.name.now it.type_id it.count)) }
{
    match last {
        Some(name) => seg_manager::next_name(image, name),
        None => seg_manager::first_name(image),
    }
}

impl<'a, S: SegmentRead> Iterator for Items<'a, S> {
    type Item = Place;

    ghost next_gives = { ItemsNext S.allocator S.stored };

    ghost remaining = { λ items. at_most items.left };

    fn next(&mut self) -> Option<Place> {
        let left = self.left.checked_sub(1)?;
        let index = self.len.saturating_sub(self.left);
        let at = item_after(self.image, self.sequence, self.last, index)?;
        self.last = self.is_list.then_some(at);
        self.left = left;
        Some(Place {
            at,
            type_id: self.item_type,
        })
    }
}

/// The position of the item with this index in a vector or a list. In a list it is the item after the last one that was
/// returned.
fn item_after<S: SegmentRead>(
    image: &S,
    sequence: Place,
    last: Option<ValueAt>,
    index: u32,
) -> Option<ValueAt>
    ensures vector { (U : ℕ) (vs : Values) (blocks : List ℕ) →
        HasItems (S.allocator image.now) (S.stored image.now) (place_of sequence) U vs blocks →
        index < count vs → last ≡ None →
        IsSomeAnd result (ShowsItem (S.stored image.now) (place_of sequence) U index) }
    ensures list { (U : ℕ) (vs : Values) (blocks : List ℕ) →
        HasList (S.allocator image.now) (S.stored image.now) (place_of sequence) U vs blocks →
        index < count vs → ShowsItemBefore (S.stored image.now) (place_of sequence) U index last →
        IsSomeAnd result (ShowsItem (S.stored image.now) (place_of sequence) U index) }
{
    match last {
        Some(last) => Some(seg_seq::next(image, last)),
        None => seg_seq::at(image, sequence, index).ok(),
    }
}

impl<'a, S: SegmentRead> Iterator for Keys<'a, S> {
    type Item = i64;

    ghost next_gives = { KeysNext S.allocator S.stored };

    ghost remaining = { λ keys. at_most keys.left };

    fn next(&mut self) -> Option<i64> {
        let left = self.left.checked_sub(1)?;
        let entry = entry_after(self.image, &mut self.cursor, self.map, self.last).ok()?;
        self.last = Some(entry.key);
        self.left = left;
        Some(entry.key)
    }
}

impl<'a, S: SegmentRead> Iterator for Entries<'a, S> {
    type Item = (i64, Place);

    ghost next_gives = { EntriesNext S.allocator S.stored };

    ghost remaining = { λ entries. at_most entries.0.left };

    fn next(&mut self) -> Option<(i64, Place)> {
        let keys = &mut self.0;
        let left = keys.left.checked_sub(1)?;
        let value = value_type_at(keys.image, keys.map).ok()?;
        let found = entry_after(keys.image, &mut keys.cursor, keys.map, keys.last);
        let entry = placed_entry(found, value).ok()?;
        keys.last = Some(entry.0);
        keys.left = left;
        Some(entry)
    }
}

/// The least key of a map above another one, or the least of all, with the position of its value. The cursor is left at
/// the key, so the following call is one step.
fn entry_after<S: SegmentRead>(
    image: &S,
    cursor: &mut KeyCursor,
    map: Place,
    last: Option<i64>,
) -> Result<KeyValue, Code>
    ensures next { LeadsInside (S.stored image.now).window.bytes cursor.old.path →
        WhereMap (S.allocator image.now) (S.stored image.now) map
        (λ U keys vs blocks. FindsEntry (S.stored image.now).window.bytes
        (S.stored image.now).types (place_of map) U (first_of (keys_after keys last))
        (result_ok result)) }
    ensures inside { LeadsInside (S.stored image.now).window.bytes cursor.old.path →
        LeadsInside (S.stored image.now).window.bytes cursor.new.path }
{
    match last {
        Some(key) => seg_map::next_entry_by(image, cursor, map, key),
        None => seg_map::first_entry_by(image, cursor, map),
    }
}
