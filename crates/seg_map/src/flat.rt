//! A flat map: a buffer of entries {key, value} in ascending order of their keys.

ghost use Rattle.std.specs.Prelude.{◌≡◌, ◌≤◌, ℕ, ℤ, List, length, take, Some, None, IsOkUnless, MatchResult, slice_get};
ghost use Rattle.seg_spec.specs.Items.{key_place, keys_below};
ghost use Rattle.seg_spec.specs.Owning.{Stands};
ghost use Rattle.seg_spec.specs.Types.{Form, form_at};
ghost use Rattle.seg_spec.specs.Value.{Values, Map};
ghost use Rattle.seg_spec.specs.Window.{KeepsHost};
ghost use Rattle.seg_cells.specs.Places.{object_at};
ghost use Rattle.seg_cells.specs.Entries.{IsEntryOf};
ghost use Rattle.seg_value.specs.Entries.{NamesFlatMap, flat_asks};
ghost use Rattle.seg_map.specs.Maps.{WhereMap, FindsValue, FindsEntry, PutsKey, RemovesKey, KeepsLowerKeys, first_of, last_of, keys_above, lower_keys};

use crate::key_value::KeyValue;
use seg_raw::Code;
use seg_value::{CellAt, Content, Entry, Fit, Heap, SegmentRead, ValueAt, binary_search};
use std::alloc::Allocator;

/// `Ok` with the index of a key's entry, or `Err` with the index to insert it at.
fn search<S: SegmentRead>(source: &S, entry: Entry, cell: CellAt, key: i64) -> Result<u32, u32>
    ensures { WhereMap Form.flat_map (S.allocator source.now) (S.stored source.now).window.bytes
        (S.stored source.now).types cell
        (λ T U keys vs blocks. IsEntryOf (S.stored source.now).types 8 U entry →
        MatchResult result (λ index. key_place keys key ≡ Some index)
        (λ index. (key_place keys key ≡ None) × (index ≡ keys_below keys key))) }
{
    let entries = source.start(cell);
    binary_search(source.count(cell), |index| {
        source.load(entry.at(entries, index)).cmp(&key)
    })
}

/// Like [`search`], without a search if the key is above all others: tables are often built in the order of their keys.
fn search_to_put<S: SegmentRead>(
    source: &S,
    entry: Entry,
    cell: CellAt,
    key: i64,
) -> Result<u32, u32>
    ensures { WhereMap Form.flat_map (S.allocator source.now) (S.stored source.now).window.bytes
        (S.stored source.now).types cell
        (λ T U keys vs blocks. IsEntryOf (S.stored source.now).types 8 U entry →
        MatchResult result (λ index. key_place keys key ≡ Some index)
        (λ index. (key_place keys key ≡ None) × (index ≡ keys_below keys key))) }
{
    let count = source.count(cell);
    if let Some(last) = count.checked_sub(1)
        && source.load(entry.at(source.start(cell), last)) < key
    {
        return Err(count);
    }
    search(source, entry, cell, key)
}

/// The position of a key's value.
pub(crate) fn get<S: SegmentRead>(
    source: &S,
    entry: Entry,
    cell: CellAt,
    key: i64,
) -> Option<ValueAt>
    ensures { WhereMap Form.flat_map (S.allocator source.now) (S.stored source.now).window.bytes
        (S.stored source.now).types cell
        (λ T U keys vs blocks. IsEntryOf (S.stored source.now).types 8 U entry →
        FindsValue (S.stored source.now).window.bytes (S.stored source.now).types
        (object_at cell T) U keys key result) }
{
    let index = search(source, entry, cell, key).ok()?;
    Some(entry.value_at(source.start(cell), index))
}

/// The position of a key's value. A missing key is added.
pub(crate) fn put<F: Fit, A: Allocator>(
    heap: &mut Heap<F, A>,
    content: &Content,
    cell: CellAt,
    key: i64,
) -> Result<ValueAt, Code>
    ensures window { KeepsHost heap.old.window heap.new.window }
    ensures types { heap.new.types ≡ heap.old.types }
    ensures code { IsOkUnless result Code.BadAlloc }
    ensures puts { WhereMap Form.flat_map F.allocator heap.old.window.bytes heap.old.types cell
        (λ T U keys vs blocks. NamesFlatMap heap.old.types T U content.now →
        PutsKey F.allocator heap.old.window.bytes heap.new.window.bytes heap.old.types
        (object_at cell T) U keys vs key blocks
        (flat_asks heap.old.window.bytes heap.old.types cell U) (key_place keys key) result) }
{
    match search_to_put(heap, content.entry, cell, key) {
        Ok(index) => Ok(content.entry.value_at(heap.start(cell), index)),
        Err(index) => insert(heap, content, cell, index, key),
    }
}

/// Inserts a key with a default value at an index, and returns the position of the value.
fn insert<F: Fit, A: Allocator>(
    heap: &mut Heap<F, A>,
    content: &Content,
    cell: CellAt,
    index: u32,
    key: i64,
) -> Result<ValueAt, Code>
    ensures window { KeepsHost heap.old.window heap.new.window }
    ensures types { heap.new.types ≡ heap.old.types }
    ensures code { IsOkUnless result Code.BadAlloc }
    ensures inserts { WhereMap Form.flat_map F.allocator heap.old.window.bytes heap.old.types cell
        (λ T U keys vs blocks. NamesFlatMap heap.old.types T U content.now →
        key_place keys key ≡ None → index ≡ keys_below keys key →
        PutsKey F.allocator heap.old.window.bytes heap.new.window.bytes heap.old.types
        (object_at cell T) U keys vs key blocks
        (flat_asks heap.old.window.bytes heap.old.types cell U) None result) }
{
    let at = heap.open_entry(content, cell, index)?;
    heap.store(at, key);
    if let Some(value) = content.entry.value(at, 0) {
        heap.init_default(value);
    }
    Ok(content.entry.value_at(at, 0))
}

/// Removes a key with its value. False if the map doesn't have the key.
pub(crate) fn remove<F: Fit, A: Allocator>(
    heap: &mut Heap<F, A>,
    content: &Content,
    cell: CellAt,
    key: i64,
) -> bool
    ensures window { KeepsHost heap.old.window heap.new.window }
    ensures types { heap.new.types ≡ heap.old.types }
    ensures removes { (T U : ℕ) (keys : List ℤ) (vs : Values) (blocks : List ℕ) →
        form_at heap.old.types T ≡ Some (Form.flat_map U) →
        NamesFlatMap heap.old.types T U content.now →
        (s : Stands F.allocator heap.old.window.bytes heap.old.types (object_at cell T)
        (Map keys vs) blocks) →
        RemovesKey heap.old.window.bytes heap.new.window.bytes heap.old.types (object_at cell T)
        keys vs s.home blocks (KeepsLowerKeys heap.old.window.bytes heap.new.window.bytes
        heap.old.types (object_at cell T) key) (key_place keys key) result }
{
    let Ok(index) = search(heap, content.entry, cell, key) else {
        return false;
    };
    if let Some(value) = content.entry.value(heap.start(cell), index) {
        heap.clear(value);
    }
    heap.close_entry(content, cell, index);
    true
}

/// The entry with this index, if the map has one.
fn entry_at<S: SegmentRead>(source: &S, entry: Entry, cell: CellAt, index: u32) -> Option<KeyValue>
    ensures { WhereMap Form.flat_map (S.allocator source.now) (S.stored source.now).window.bytes
        (S.stored source.now).types cell
        (λ T U keys vs blocks. IsEntryOf (S.stored source.now).types 8 U entry →
        FindsEntry (S.stored source.now).window.bytes (S.stored source.now).types
        (object_at cell T) U (slice_get keys index) result) }
{
    if index < source.count(cell) {
        let entries = source.start(cell);
        Some(KeyValue {
            key: source.load(entry.at(entries, index)),
            value: entry.value_at(entries, index),
        })
    } else {
        None
    }
}

/// The least key, with the position of its value.
pub(crate) fn first_entry<S: SegmentRead>(
    source: &S,
    entry: Entry,
    cell: CellAt,
) -> Option<KeyValue>
    ensures { WhereMap Form.flat_map (S.allocator source.now) (S.stored source.now).window.bytes
        (S.stored source.now).types cell
        (λ T U keys vs blocks. IsEntryOf (S.stored source.now).types 8 U entry →
        FindsEntry (S.stored source.now).window.bytes (S.stored source.now).types
        (object_at cell T) U (first_of keys) result) }
{
    entry_at(source, entry, cell, 0)
}

/// The index of the least key above another, or of the end.
#[inline(never)]
fn index_above<S: SegmentRead>(source: &S, entry: Entry, cell: CellAt, after: i64) -> u32
    ensures { WhereMap Form.flat_map (S.allocator source.now) (S.stored source.now).window.bytes
        (S.stored source.now).types cell
        (λ T U keys vs blocks. IsEntryOf (S.stored source.now).types 8 U entry →
        slice_get keys result ≡ first_of (keys_above keys after)) }
{
    match search(source, entry, cell, after) {
        Ok(index) => index.saturating_add(1),
        Err(index) => index,
    }
}

/// The least key above another, with the position of its value.
pub(crate) fn next_entry<S: SegmentRead>(
    source: &S,
    entry: Entry,
    cell: CellAt,
    after: i64,
) -> Option<KeyValue>
    ensures { WhereMap Form.flat_map (S.allocator source.now) (S.stored source.now).window.bytes
        (S.stored source.now).types cell
        (λ T U keys vs blocks. IsEntryOf (S.stored source.now).types 8 U entry →
        FindsEntry (S.stored source.now).window.bytes (S.stored source.now).types
        (object_at cell T) U (first_of (keys_above keys after)) result) }
{
    entry_at(source, entry, cell, index_above(source, entry, cell, after))
}

/// Like [`next_entry`]. The index is left at the key. There is no search if the other key has the index before.
pub(crate) fn next_entry_by<S: SegmentRead>(
    source: &S,
    entry: Entry,
    index: &mut u32,
    cell: CellAt,
    after: i64,
) -> Option<KeyValue>
    ensures { WhereMap Form.flat_map (S.allocator source.now) (S.stored source.now).window.bytes
        (S.stored source.now).types cell
        (λ T U keys vs blocks. IsEntryOf (S.stored source.now).types 8 U entry →
        FindsEntry (S.stored source.now).window.bytes (S.stored source.now).types
        (object_at cell T) U (first_of (keys_above keys after)) result) }
{
    *index = match entry_at(source, entry, cell, *index) {
        Some(last) if last.key == after => index.saturating_add(1),
        _ => index_above(source, entry, cell, after),
    };
    entry_at(source, entry, cell, *index)
}

/// The last entry before an index, if there is one.
fn entry_before<S: SegmentRead>(
    source: &S,
    entry: Entry,
    cell: CellAt,
    index: u32,
) -> Option<KeyValue>
    ensures { WhereMap Form.flat_map (S.allocator source.now) (S.stored source.now).window.bytes
        (S.stored source.now).types cell
        (λ T U keys vs blocks. IsEntryOf (S.stored source.now).types 8 U entry →
        index ≤ length keys →
        FindsEntry (S.stored source.now).window.bytes (S.stored source.now).types
        (object_at cell T) U (last_of (take index keys)) result) }
{
    entry_at(source, entry, cell, index.checked_sub(1)?)
}

/// The greatest key, with the position of its value.
pub(crate) fn last_entry<S: SegmentRead>(source: &S, entry: Entry, cell: CellAt) -> Option<KeyValue>
    ensures { WhereMap Form.flat_map (S.allocator source.now) (S.stored source.now).window.bytes
        (S.stored source.now).types cell
        (λ T U keys vs blocks. IsEntryOf (S.stored source.now).types 8 U entry →
        FindsEntry (S.stored source.now).window.bytes (S.stored source.now).types
        (object_at cell T) U (last_of keys) result) }
{
    entry_before(source, entry, cell, source.count(cell))
}

/// The greatest key below another, with the position of its value.
pub(crate) fn previous_entry<S: SegmentRead>(
    source: &S,
    entry: Entry,
    cell: CellAt,
    before: i64,
) -> Option<KeyValue>
    ensures { WhereMap Form.flat_map (S.allocator source.now) (S.stored source.now).window.bytes
        (S.stored source.now).types cell
        (λ T U keys vs blocks. IsEntryOf (S.stored source.now).types 8 U entry →
        FindsEntry (S.stored source.now).window.bytes (S.stored source.now).types
        (object_at cell T) U (last_of (lower_keys keys before)) result) }
{
    let index = match search(source, entry, cell, before) {
        Ok(index) | Err(index) => index,
    };
    entry_before(source, entry, cell, index)
}
