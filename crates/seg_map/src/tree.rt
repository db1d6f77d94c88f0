//! A map as a red-black tree of nodes: tree words, the key, the value. The map's cell points to the root.

ghost use Rattle.std.specs.Prelude.{◌≡◌, ℕ, ℤ, ◌+◌, ◌%◌, ◌^◌, List, [], ◌∷◌, Some, ⊤, IsOkUnless};
ghost use Rattle.std.specs.Ordering.{int_cmp};
ghost use Rattle.std.specs.Cmp.{on_total, int_cmp_total};
ghost use Rattle.std.proofs.Common.{arith, inl, inr, ⊎_elim};
ghost use Rattle.std.proofs.lemmas.Bool.{cases_lt};
ghost use Rattle.seg_spec.specs.Bytes.{signed, signed_long};
ghost use Rattle.seg_spec.specs.Window.{KeepsHost};
ghost use Rattle.seg_spec.specs.Shrinking.{KeepsPathsInside};
ghost use Rattle.seg_spec.proofs.BytesLaws.{number-slice};
ghost use Rattle.seg_spec.proofs.OrderLaws.{steps_up};
ghost use Rattle.seg_spec.specs.Owning.{Stands};
ghost use Rattle.seg_spec.specs.Types.{Form, form_at, size};
ghost use Rattle.seg_spec.specs.Value.{Values, Map};
ghost use Rattle.seg_spec.specs.Demand.{block_for};
ghost use Rattle.seg_spec.specs.Items.{key_place};
ghost use Rattle.seg_rbtree.specs.Parts.{byte_range};
ghost use Rattle.seg_rbtree.specs.Roots.{root_word};
ghost use Rattle.seg_rbtree.specs.Following.{LeadsInside};
ghost use Rattle.seg_rbtree.proofs.Keys.{equal_to_one};
ghost use Rattle.seg_cells.specs.Entries.{IsEntryOf};
ghost use Rattle.seg_cells.specs.Places.{object_at};
ghost use Rattle.seg_map.specs.Maps.{WhereMap, FindsValue, FindsEntry, PutsKey, RemovesKey, first_of, last_of, keys_above, lower_keys};
ghost use Rattle.seg_map.specs.Trees.{VALUE, NamesTree, KeepsOtherKeys};

use crate::key_value::KeyValue;
use seg_raw::Code;
use seg_rbtree::{NodeAt, NodeOrder, Path, TREE_WORDS, Tree, UniqueKeys};
use seg_value::{CellAt, Content, Entry, Fit, Heap, SegmentRead, ValueAt, View};
use std::alloc::Allocator;
use std::cmp::Ordering;

struct ByKey;

impl NodeOrder<i64> for ByKey {
    ghost exact = { ⊤ };

    ghost compare = { λ _ bytes x y. int_cmp (signed_long bytes ((x + 16) % 2 ^ 32))
        (signed_long bytes ((y + 16) % 2 ^ 32)) };

    ghost compare_key = { λ _ bytes x key. int_cmp (signed_long bytes ((x + 16) % 2 ^ 32)) key };

    ghost read = { λ _ _ x. byte_range ((x + 16) % 2 ^ 32) 8 ∷ [] };

    fn nodes(&self, view: View, node: NodeAt, other: NodeAt) -> Ordering {
        key_of(view, node).cmp(&key_of(view, other))
    }

    fn key(&self, view: View, node: NodeAt, key: i64) -> Ordering {
        key_of(view, node).cmp(&key)
    }

    ghost total = { λ _ _ bytes. on_total (λ x. signed_long bytes ((x + 16) % 2 ^ 32))
        int_cmp_total };

    ghost keyed = { λ _ _ bytes x y key less. steps_up int_cmp_total
        (signed_long bytes ((x + 16) % 2 ^ 32)) (signed_long bytes ((y + 16) % 2 ^ 32)) key less };

    ghost apart = { λ _ _ _ x low _. (
      ⊎_elim (λ before. inl (omega (arith, before)))
          (λ following. inr (omega (arith, following))) (cases_lt ((x + 16) % 2 ^ 32 + 7) x),
      tt,
    ) };

    ghost steady = { λ _ _ old new x y same_x same_y i. int_cmp
        (signed (number-slice 8 old new ((x + 16) % 2 ^ 32) ((x + 16) % 2 ^ 32) same_x.0 i))
        (signed (number-slice 8 old new ((y + 16) % 2 ^ 32) ((y + 16) % 2 ^ 32) same_y.0 i)) };
}

impl UniqueKeys<i64> for ByKey {
    ghost one = { λ _ _ bytes x y key first second. equal_to_one int_cmp_total
        (signed_long bytes ((x + 16) % 2 ^ 32)) (signed_long bytes ((y + 16) % 2 ^ 32))
        key first second };
}

fn key_place(node: NodeAt) -> u32
    ensures { result ≡ (node + 16) % 2 ^ 32 }
{
    node.wrapping_add(TREE_WORDS)
}

#[tactic(auto, unfolding(seg_spec::specs::Bytes::signed))]
fn key_of(view: View, node: NodeAt) -> i64
    ensures { result ≡ signed_long view.entry.bytes.now ((node + 16) % 2 ^ 32) }
{
    view.get64(key_place(node) as usize).cast_signed()
}

fn tree_of(cell: CellAt) -> Tree
    ensures { root_word result ≡ cell }
{
    Tree::new(cell as usize)
}

/// The position of a key's value.
pub(crate) fn get<S: SegmentRead>(
    source: &S,
    entry: Entry,
    cell: CellAt,
    key: i64,
) -> Option<ValueAt>
    ensures { WhereMap Form.map (S.allocator source.now) (S.stored source.now).window.bytes
        (S.stored source.now).types cell
        (λ T U keys vs blocks. IsEntryOf (S.stored source.now).types VALUE U entry
        → FindsValue (S.stored source.now).window.bytes (S.stored source.now).types
        (object_at cell T) U keys key result) }
{
    let node = tree_of(cell).find(source.view(), &ByKey, key)?;
    Some(entry.value_at(node, 0))
}

/// The position of a key's value. A missing key is added.
pub(crate) fn put<F: Fit, A: Allocator>(
    heap: &mut Heap<F, A>,
    content: &Content,
    cell: CellAt,
    key: i64,
) -> Result<ValueAt, Code>
    ensures window { KeepsHost heap.old.window heap.new.window }
    ensures types { heap.new.types ≡ heap.old.types }
    ensures code { IsOkUnless result Code.BadAlloc }
    ensures puts { WhereMap Form.map F.allocator heap.old.window.bytes heap.old.types cell
        (λ T U keys vs blocks. NamesTree heap.old.types T U content.now
        → PutsKey F.allocator heap.old.window.bytes heap.new.window.bytes heap.old.types
        (object_at cell T) U keys vs key blocks (block_for (VALUE + size heap.old.types U) ∷ [])
        (key_place keys key) result) }
    ensures keeps { WhereMap Form.map F.allocator heap.old.window.bytes heap.old.types cell
        (λ T U keys vs blocks. NamesTree heap.old.types T U content.now
        → KeepsPathsInside heap.old.window.bytes heap.new.window.bytes heap.old.types
        (object_at cell T)) }
{
    let mut path = tree_of(cell).path_to_key(heap.window(), &ByKey, key);
    if let Some(node) = path.node(heap.window()) {
        return Ok(content.entry.value_at(node, 0));
    }
    let node = heap.new_block(content)?;
    heap.store(key_place(node), key);
    path.insert(heap.window_mut(), node);
    let nodes = heap.count(cell).saturating_add(1);
    heap.set_count(cell, nodes);
    Ok(content.entry.value_at(node, 0))
}

/// Removes a key with its value. False if the map doesn't have the key.
pub(crate) fn remove<F: Fit, A: Allocator>(
    heap: &mut Heap<F, A>,
    content: &Content,
    cell: CellAt,
    key: i64,
) -> bool
    ensures window { KeepsHost heap.old.window heap.new.window }
    ensures types { heap.new.types ≡ heap.old.types }
    ensures removes { (T U : ℕ) (keys : List ℤ) (vs : Values) (blocks : List ℕ) →
        form_at heap.old.types T ≡ Some (Form.map U) → NamesTree heap.old.types T U content.now →
        (s : Stands F.allocator heap.old.window.bytes heap.old.types (object_at cell T)
        (Map keys vs) blocks) →
        RemovesKey heap.old.window.bytes heap.new.window.bytes heap.old.types (object_at cell T)
        keys vs s.home blocks (KeepsOtherKeys heap.old.window.bytes heap.new.window.bytes
        heap.old.types (object_at cell T) key) (key_place keys key) result }
{
    let mut path = tree_of(cell).path_to_key(heap.window(), &ByKey, key);
    let Some(node) = path.node(heap.window()) else {
        return false;
    };
    path.remove(heap.window_mut());
    let nodes = heap.count(cell).saturating_sub(1);
    heap.set_count(cell, nodes);
    if let Some(value) = content.entry.value(node, 0) {
        heap.clear(value);
    }
    heap.free_block(node);
    true
}

/// A node's key, with the position of its value.
fn entry_at(view: View, entry: Entry, node: NodeAt) -> KeyValue
    ensures key { result.key ≡ signed_long view.entry.bytes.now ((node + 16) % 2 ^ 32) }
    ensures value { result.value ≡ (node + entry.before) % 2 ^ 32 }
{
    KeyValue {
        key: key_of(view, node),
        value: entry.value_at(node, 0),
    }
}

/// The least key, with the position of its value.
pub(crate) fn first_entry<S: SegmentRead>(
    source: &S,
    entry: Entry,
    cell: CellAt,
) -> Option<KeyValue>
    ensures { WhereMap Form.map (S.allocator source.now) (S.stored source.now).window.bytes
        (S.stored source.now).types cell
        (λ T U keys vs blocks. IsEntryOf (S.stored source.now).types VALUE U entry
        → FindsEntry (S.stored source.now).window.bytes (S.stored source.now).types
        (object_at cell T) U (first_of keys) result) }
{
    let view = source.view();
    let node = tree_of(cell).first(view)?;
    Some(entry_at(view, entry, node))
}

/// Like [`first_entry`]. The cursor is left at the key.
pub(crate) fn first_entry_by<S: SegmentRead>(
    source: &S,
    entry: Entry,
    cursor: &mut Path,
    cell: CellAt,
) -> Option<KeyValue>
    ensures first { WhereMap Form.map (S.allocator source.now) (S.stored source.now).window.bytes
        (S.stored source.now).types cell
        (λ T U keys vs blocks. IsEntryOf (S.stored source.now).types VALUE U entry
        → FindsEntry (S.stored source.now).window.bytes (S.stored source.now).types
        (object_at cell T) U (first_of keys) result) }
    ensures inside { LeadsInside (S.stored source.now).window.bytes cursor.new }
{
    let view = source.view();
    let node = cursor.first(view, tree_of(cell))?;
    Some(entry_at(view, entry, node))
}

/// The least key above another, with the position of its value.
pub(crate) fn next_entry<S: SegmentRead>(
    source: &S,
    entry: Entry,
    cell: CellAt,
    after: i64,
) -> Option<KeyValue>
    ensures { WhereMap Form.map (S.allocator source.now) (S.stored source.now).window.bytes
        (S.stored source.now).types cell
        (λ T U keys vs blocks. IsEntryOf (S.stored source.now).types VALUE U entry
        → FindsEntry (S.stored source.now).window.bytes (S.stored source.now).types
        (object_at cell T) U (first_of (keys_above keys after)) result) }
{
    let view = source.view();
    let node = tree_of(cell).next_after(view, &ByKey, after)?;
    Some(entry_at(view, entry, node))
}

/// Like [`next_entry`]. The cursor is left at the key. It takes one step if the cursor was at the other key.
pub(crate) fn next_entry_by<S: SegmentRead>(
    source: &S,
    entry: Entry,
    cursor: &mut Path,
    cell: CellAt,
    after: i64,
) -> Option<KeyValue>
    ensures next { LeadsInside (S.stored source.now).window.bytes cursor.old
        → WhereMap Form.map (S.allocator source.now) (S.stored source.now).window.bytes
        (S.stored source.now).types cell
        (λ T U keys vs blocks. IsEntryOf (S.stored source.now).types VALUE U entry
        → FindsEntry (S.stored source.now).window.bytes (S.stored source.now).types
        (object_at cell T) U (first_of (keys_above keys after)) result) }
    ensures inside { LeadsInside (S.stored source.now).window.bytes cursor.old
        → LeadsInside (S.stored source.now).window.bytes cursor.new }
{
    let view = source.view();
    let node = cursor.next_after(view, tree_of(cell), &ByKey, after)?;
    Some(entry_at(view, entry, node))
}

/// The greatest key, with the position of its value.
pub(crate) fn last_entry<S: SegmentRead>(source: &S, entry: Entry, cell: CellAt) -> Option<KeyValue>
    ensures { WhereMap Form.map (S.allocator source.now) (S.stored source.now).window.bytes
        (S.stored source.now).types cell
        (λ T U keys vs blocks. IsEntryOf (S.stored source.now).types VALUE U entry
        → FindsEntry (S.stored source.now).window.bytes (S.stored source.now).types
        (object_at cell T) U (last_of keys) result) }
{
    let view = source.view();
    let node = tree_of(cell).last(view)?;
    Some(entry_at(view, entry, node))
}

/// The greatest key below another, with the position of its value.
pub(crate) fn previous_entry<S: SegmentRead>(
    source: &S,
    entry: Entry,
    cell: CellAt,
    before: i64,
) -> Option<KeyValue>
    ensures { WhereMap Form.map (S.allocator source.now) (S.stored source.now).window.bytes
        (S.stored source.now).types cell
        (λ T U keys vs blocks. IsEntryOf (S.stored source.now).types VALUE U entry
        → FindsEntry (S.stored source.now).window.bytes (S.stored source.now).types
        (object_at cell T) U (last_of (lower_keys keys before)) result) }
{
    let view = source.view();
    let node = tree_of(cell).last_below(view, &ByKey, before)?;
    Some(entry_at(view, entry, node))
}
