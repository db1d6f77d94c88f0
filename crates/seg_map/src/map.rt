ghost use Rattle.std.specs.Prelude.{◌≡◌, ℕ, ℤ, List, length, true, false, Ok, Err, IsOkUnless};
ghost use Rattle.std.specs.Result.{result_ok};
ghost use Rattle.seg_spec.specs.Items.{key_place};
ghost use Rattle.seg_spec.specs.Owning.{Stands};
ghost use Rattle.seg_spec.specs.Reads.{count_at};
ghost use Rattle.seg_spec.specs.Types.{form_at};
ghost use Rattle.seg_spec.specs.Value.{Values, Map};
ghost use Rattle.seg_spec.specs.Window.{KeepsHost};
ghost use Rattle.seg_cells.specs.Places.{place_of};
ghost use Rattle.seg_rbtree.specs.Following.{LeadsInside};
ghost use Rattle.seg_map.specs.EitherMap.{has_keys, IsMapOf, WhereMaps, key_asks, KeepsTreePaths, KeepsKeysBut};
ghost use Rattle.seg_map.specs.Maps.{FindsValue, FindsEntry, PutsKey, RemovesKey, first_of, last_of, keys_above, lower_keys};

use crate::cursor::KeyCursor;
use crate::key_value::KeyValue;
use crate::{flat, tree};
use seg_raw::Code;
use seg_value::{Content, Fit, Heap, KEY, Place, SegmentRead, Shape, ValueAt};
use std::alloc::Allocator;

/// The two kinds of maps, with the layout of what the map's cell points to.
enum MapKind {
    Flat(Content),
    Tree(Content),
}

impl MapKind {
    ghost use Rattle.seg_map.specs.EitherMap.{MapKindOf};

    /// The kind of the map at a place. `OtherType` if the place isn't a map.
    fn of<S: SegmentRead>(source: &S, map: Place) -> Result<MapKind, Code>
        ensures { MapKindOf (S.stored source.now).types map.type_id
            (form_at (S.stored source.now).types map.type_id) result }
    {
        let content = source.content(map.type_id).ok_or(Code::OtherType)?;
        match content.shape {
            Shape::Buffer => {
                if content.entry.before == KEY {
                    Ok(MapKind::Flat(content))
                } else {
                    Err(Code::OtherType)
                }
            }
            Shape::Tree => Ok(MapKind::Tree(content)),
            Shape::Ring | Shape::Object => Err(Code::OtherType),
        }
    }
}

/// How many keys a map has. `OtherType` if the place isn't a map.
pub fn len<S: SegmentRead>(source: &S, map: Place) -> Result<u32, Code>
    ensures other { has_keys (form_at (S.stored source.now).types map.type_id) ≡ false →
        result ≡ Err Code.OtherType }
    ensures counted { has_keys (form_at (S.stored source.now).types map.type_id) ≡ true →
        result ≡ Ok (count_at (S.stored source.now).window.bytes map.at) }
    ensures keys { WhereMaps (S.allocator source.now) (S.stored source.now).window.bytes
        (S.stored source.now).types (place_of map) (λ U keys vs blocks. result ≡ Ok (length keys)) }
{
    match MapKind::of(source, map)? {
        MapKind::Flat(_) | MapKind::Tree(_) => Ok(source.count(map.at)),
    }
}

/// The position of a key's value. `OtherType` if the place isn't a map, `Absent` if the map doesn't have the key.
pub fn get<S: SegmentRead>(source: &S, map: Place, key: i64) -> Result<ValueAt, Code>
    ensures other { has_keys (form_at (S.stored source.now).types map.type_id) ≡ false →
        result ≡ Err Code.OtherType }
    ensures code { has_keys (form_at (S.stored source.now).types map.type_id) ≡ true →
        IsOkUnless result Code.Absent }
    ensures finds { WhereMaps (S.allocator source.now) (S.stored source.now).window.bytes
        (S.stored source.now).types (place_of map)
        (λ U keys vs blocks. FindsValue (S.stored source.now).window.bytes
        (S.stored source.now).types (place_of map) U keys key (result_ok result)) }
{
    match MapKind::of(source, map)? {
        MapKind::Flat(content) => flat::get(source, content.entry, map.at, key),
        MapKind::Tree(content) => tree::get(source, content.entry, map.at, key),
    }
    .ok_or(Code::Absent)
}

/// The position of a key's value. A missing key is added with a default value. `OtherType` if the place isn't a map,
/// `BadAlloc` if there is no room for the key; then nothing changes.
pub fn put<F: Fit, A: Allocator>(
    heap: &mut Heap<F, A>,
    map: Place,
    key: i64,
) -> Result<ValueAt, Code>
    ensures window { KeepsHost heap.old.window heap.new.window }
    ensures types { heap.new.types ≡ heap.old.types }
    ensures other { has_keys (form_at heap.old.types map.type_id) ≡ false →
        (result ≡ Err Code.OtherType) × (heap.new.window ≡ heap.old.window) }
    ensures code { has_keys (form_at heap.old.types map.type_id) ≡ true →
        IsOkUnless result Code.BadAlloc }
    ensures puts { WhereMaps F.allocator heap.old.window.bytes heap.old.types (place_of map)
        (λ U keys vs blocks. PutsKey F.allocator heap.old.window.bytes heap.new.window.bytes
        heap.old.types (place_of map) U keys vs key blocks
        (key_asks heap.old.window.bytes heap.old.types map.at
        (form_at heap.old.types map.type_id)) (key_place keys key) result) }
    ensures keeps { WhereMaps F.allocator heap.old.window.bytes heap.old.types (place_of map)
        (λ U keys vs blocks. KeepsTreePaths (form_at heap.old.types map.type_id)
        heap.old.window.bytes heap.new.window.bytes heap.old.types (place_of map)) }
{
    match MapKind::of(heap, map)? {
        MapKind::Flat(content) => flat::put(heap, &content, map.at, key),
        MapKind::Tree(content) => tree::put(heap, &content, map.at, key),
    }
}

/// Removes a key, and destroys its value. False if the map doesn't have the key, or if the place isn't a map.
pub fn remove<F: Fit, A: Allocator>(heap: &mut Heap<F, A>, map: Place, key: i64) -> bool
    ensures window { KeepsHost heap.old.window heap.new.window }
    ensures types { heap.new.types ≡ heap.old.types }
    ensures other { has_keys (form_at heap.old.types map.type_id) ≡ false →
        (result ≡ false) × (heap.new.window ≡ heap.old.window) }
    ensures removes { (U : ℕ) (keys : List ℤ) (vs : Values) (blocks : List ℕ) →
        IsMapOf (form_at heap.old.types map.type_id) U →
        (s : Stands F.allocator heap.old.window.bytes heap.old.types (place_of map) (Map keys vs)
        blocks) →
        RemovesKey heap.old.window.bytes heap.new.window.bytes heap.old.types (place_of map) keys vs
        s.home blocks (KeepsKeysBut (form_at heap.old.types map.type_id) heap.old.window.bytes
        heap.new.window.bytes heap.old.types (place_of map) key) (key_place keys key) result }
{
    let Ok(kind) = MapKind::of(heap, map) else {
        return false;
    };
    match kind {
        MapKind::Flat(content) => flat::remove(heap, &content, map.at, key),
        MapKind::Tree(content) => tree::remove(heap, &content, map.at, key),
    }
}

/// The least key with the position of its value. `OtherType` if the place isn't a map, `Null` if the map is empty.
pub fn first_entry<S: SegmentRead>(source: &S, map: Place) -> Result<KeyValue, Code>
    ensures other { has_keys (form_at (S.stored source.now).types map.type_id) ≡ false →
        result ≡ Err Code.OtherType }
    ensures code { has_keys (form_at (S.stored source.now).types map.type_id) ≡ true →
        IsOkUnless result Code.Null }
    ensures first { WhereMaps (S.allocator source.now) (S.stored source.now).window.bytes
        (S.stored source.now).types (place_of map)
        (λ U keys vs blocks. FindsEntry (S.stored source.now).window.bytes
        (S.stored source.now).types (place_of map) U (first_of keys) (result_ok result)) }
{
    match MapKind::of(source, map)? {
        MapKind::Flat(content) => flat::first_entry(source, content.entry, map.at),
        MapKind::Tree(content) => tree::first_entry(source, content.entry, map.at),
    }
    .ok_or(Code::Null)
}

/// Like [`first_entry`]. The cursor is left at the key.
pub fn first_entry_by<S: SegmentRead>(
    source: &S,
    cursor: &mut KeyCursor,
    map: Place,
) -> Result<KeyValue, Code>
    ensures other { has_keys (form_at (S.stored source.now).types map.type_id) ≡ false →
        result ≡ Err Code.OtherType }
    ensures code { has_keys (form_at (S.stored source.now).types map.type_id) ≡ true →
        IsOkUnless result Code.Null }
    ensures first { WhereMaps (S.allocator source.now) (S.stored source.now).window.bytes
        (S.stored source.now).types (place_of map)
        (λ U keys vs blocks. FindsEntry (S.stored source.now).window.bytes
        (S.stored source.now).types (place_of map) U (first_of keys) (result_ok result)) }
    ensures inside { LeadsInside (S.stored source.now).window.bytes cursor.old.path
        → LeadsInside (S.stored source.now).window.bytes cursor.new.path }
{
    match MapKind::of(source, map)? {
        MapKind::Flat(content) => {
            cursor.index = 0;
            flat::first_entry(source, content.entry, map.at)
        }
        MapKind::Tree(content) => {
            tree::first_entry_by(source, content.entry, &mut cursor.path, map.at)
        }
    }
    .ok_or(Code::Null)
}

/// The least key. `OtherType` if the place isn't a map, `Null` if the map is empty.
pub fn first_key<S: SegmentRead>(source: &S, map: Place) -> Result<i64, Code>
    ensures other { has_keys (form_at (S.stored source.now).types map.type_id) ≡ false →
        result ≡ Err Code.OtherType }
    ensures code { has_keys (form_at (S.stored source.now).types map.type_id) ≡ true →
        IsOkUnless result Code.Null }
    ensures first { WhereMaps (S.allocator source.now) (S.stored source.now).window.bytes
        (S.stored source.now).types (place_of map)
        (λ U keys vs blocks. result_ok result ≡ first_of keys) }
{
    let entry = first_entry(source, map)?;
    Ok(entry.key)
}

/// Like [`first_key`]. The cursor is left at the key.
pub fn first_key_by<S: SegmentRead>(
    source: &S,
    cursor: &mut KeyCursor,
    map: Place,
) -> Result<i64, Code>
    ensures other { has_keys (form_at (S.stored source.now).types map.type_id) ≡ false →
        result ≡ Err Code.OtherType }
    ensures code { has_keys (form_at (S.stored source.now).types map.type_id) ≡ true →
        IsOkUnless result Code.Null }
    ensures first { WhereMaps (S.allocator source.now) (S.stored source.now).window.bytes
        (S.stored source.now).types (place_of map)
        (λ U keys vs blocks. result_ok result ≡ first_of keys) }
    ensures inside { LeadsInside (S.stored source.now).window.bytes cursor.old.path
        → LeadsInside (S.stored source.now).window.bytes cursor.new.path }
{
    let entry = first_entry_by(source, cursor, map)?;
    Ok(entry.key)
}

/// The least key above another, which need not exist, with the position of its value. `OtherType` if the place isn't a
/// map, `Null` if no key is above it.
pub fn next_entry<S: SegmentRead>(source: &S, map: Place, after: i64) -> Result<KeyValue, Code>
    ensures other { has_keys (form_at (S.stored source.now).types map.type_id) ≡ false →
        result ≡ Err Code.OtherType }
    ensures code { has_keys (form_at (S.stored source.now).types map.type_id) ≡ true →
        IsOkUnless result Code.Null }
    ensures next { WhereMaps (S.allocator source.now) (S.stored source.now).window.bytes
        (S.stored source.now).types (place_of map)
        (λ U keys vs blocks. FindsEntry (S.stored source.now).window.bytes
        (S.stored source.now).types (place_of map) U (first_of (keys_above keys after))
        (result_ok result)) }
{
    match MapKind::of(source, map)? {
        MapKind::Flat(content) => flat::next_entry(source, content.entry, map.at, after),
        MapKind::Tree(content) => tree::next_entry(source, content.entry, map.at, after),
    }
    .ok_or(Code::Null)
}

/// Like [`next_entry`]. The cursor is left at the key, so the following call is one step.
pub fn next_entry_by<S: SegmentRead>(
    source: &S,
    cursor: &mut KeyCursor,
    map: Place,
    after: i64,
) -> Result<KeyValue, Code>
    ensures other { has_keys (form_at (S.stored source.now).types map.type_id) ≡ false →
        result ≡ Err Code.OtherType }
    ensures code { has_keys (form_at (S.stored source.now).types map.type_id) ≡ true →
        IsOkUnless result Code.Null }
    ensures next { LeadsInside (S.stored source.now).window.bytes cursor.old.path
        → WhereMaps (S.allocator source.now) (S.stored source.now).window.bytes
        (S.stored source.now).types (place_of map)
        (λ U keys vs blocks. FindsEntry (S.stored source.now).window.bytes
        (S.stored source.now).types (place_of map) U (first_of (keys_above keys after))
        (result_ok result)) }
    ensures inside { LeadsInside (S.stored source.now).window.bytes cursor.old.path
        → LeadsInside (S.stored source.now).window.bytes cursor.new.path }
{
    match MapKind::of(source, map)? {
        MapKind::Flat(content) => {
            flat::next_entry_by(source, content.entry, &mut cursor.index, map.at, after)
        }
        MapKind::Tree(content) => {
            tree::next_entry_by(source, content.entry, &mut cursor.path, map.at, after)
        }
    }
    .ok_or(Code::Null)
}

/// The least key above another, which need not exist. `OtherType` if the place isn't a map, `Null` if no key is above
/// it.
pub fn next_key<S: SegmentRead>(source: &S, map: Place, after: i64) -> Result<i64, Code>
    ensures other { has_keys (form_at (S.stored source.now).types map.type_id) ≡ false →
        result ≡ Err Code.OtherType }
    ensures code { has_keys (form_at (S.stored source.now).types map.type_id) ≡ true →
        IsOkUnless result Code.Null }
    ensures next { WhereMaps (S.allocator source.now) (S.stored source.now).window.bytes
        (S.stored source.now).types (place_of map)
        (λ U keys vs blocks. result_ok result ≡ first_of (keys_above keys after)) }
{
    let entry = next_entry(source, map, after)?;
    Ok(entry.key)
}

/// Like [`next_key`]. The cursor is left at the key, so the following call is one step.
pub fn next_key_by<S: SegmentRead>(
    source: &S,
    cursor: &mut KeyCursor,
    map: Place,
    after: i64,
) -> Result<i64, Code>
    ensures other { has_keys (form_at (S.stored source.now).types map.type_id) ≡ false →
        result ≡ Err Code.OtherType }
    ensures code { has_keys (form_at (S.stored source.now).types map.type_id) ≡ true →
        IsOkUnless result Code.Null }
    ensures next { LeadsInside (S.stored source.now).window.bytes cursor.old.path
        → WhereMaps (S.allocator source.now) (S.stored source.now).window.bytes
        (S.stored source.now).types (place_of map)
        (λ U keys vs blocks. result_ok result ≡ first_of (keys_above keys after)) }
    ensures inside { LeadsInside (S.stored source.now).window.bytes cursor.old.path
        → LeadsInside (S.stored source.now).window.bytes cursor.new.path }
{
    let entry = next_entry_by(source, cursor, map, after)?;
    Ok(entry.key)
}

/// The greatest key with the position of its value. `OtherType` if the place isn't a map, `Null` if the map is empty.
pub fn last_entry<S: SegmentRead>(source: &S, map: Place) -> Result<KeyValue, Code>
    ensures other { has_keys (form_at (S.stored source.now).types map.type_id) ≡ false →
        result ≡ Err Code.OtherType }
    ensures code { has_keys (form_at (S.stored source.now).types map.type_id) ≡ true →
        IsOkUnless result Code.Null }
    ensures last { WhereMaps (S.allocator source.now) (S.stored source.now).window.bytes
        (S.stored source.now).types (place_of map)
        (λ U keys vs blocks. FindsEntry (S.stored source.now).window.bytes
        (S.stored source.now).types (place_of map) U (last_of keys) (result_ok result)) }
{
    match MapKind::of(source, map)? {
        MapKind::Flat(content) => flat::last_entry(source, content.entry, map.at),
        MapKind::Tree(content) => tree::last_entry(source, content.entry, map.at),
    }
    .ok_or(Code::Null)
}

/// The greatest key. `OtherType` if the place isn't a map, `Null` if the map is empty.
pub fn last_key<S: SegmentRead>(source: &S, map: Place) -> Result<i64, Code>
    ensures other { has_keys (form_at (S.stored source.now).types map.type_id) ≡ false →
        result ≡ Err Code.OtherType }
    ensures code { has_keys (form_at (S.stored source.now).types map.type_id) ≡ true →
        IsOkUnless result Code.Null }
    ensures last { WhereMaps (S.allocator source.now) (S.stored source.now).window.bytes
        (S.stored source.now).types (place_of map)
        (λ U keys vs blocks. result_ok result ≡ last_of keys) }
{
    let entry = last_entry(source, map)?;
    Ok(entry.key)
}

/// The greatest key below another, which need not exist, with the position of its value. `OtherType` if the place isn't
/// a map, `Null` if no key is below it.
pub fn previous_entry<S: SegmentRead>(source: &S, map: Place, before: i64) -> Result<KeyValue, Code>
    ensures other { has_keys (form_at (S.stored source.now).types map.type_id) ≡ false →
        result ≡ Err Code.OtherType }
    ensures code { has_keys (form_at (S.stored source.now).types map.type_id) ≡ true →
        IsOkUnless result Code.Null }
    ensures previous { WhereMaps (S.allocator source.now) (S.stored source.now).window.bytes
        (S.stored source.now).types (place_of map)
        (λ U keys vs blocks. FindsEntry (S.stored source.now).window.bytes
        (S.stored source.now).types (place_of map) U (last_of (lower_keys keys before))
        (result_ok result)) }
{
    match MapKind::of(source, map)? {
        MapKind::Flat(content) => flat::previous_entry(source, content.entry, map.at, before),
        MapKind::Tree(content) => tree::previous_entry(source, content.entry, map.at, before),
    }
    .ok_or(Code::Null)
}

/// The greatest key below another, which need not exist. `OtherType` if the place isn't a map, `Null` if no key is
/// below it.
pub fn previous_key<S: SegmentRead>(source: &S, map: Place, before: i64) -> Result<i64, Code>
    ensures other { has_keys (form_at (S.stored source.now).types map.type_id) ≡ false →
        result ≡ Err Code.OtherType }
    ensures code { has_keys (form_at (S.stored source.now).types map.type_id) ≡ true →
        IsOkUnless result Code.Null }
    ensures previous { WhereMaps (S.allocator source.now) (S.stored source.now).window.bytes
        (S.stored source.now).types (place_of map)
        (λ U keys vs blocks. result_ok result ≡ last_of (lower_keys keys before)) }
{
    let entry = previous_entry(source, map, before)?;
    Ok(entry.key)
}
