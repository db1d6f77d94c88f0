ghost use Rattle.std.specs.Prelude.{◌≡◌, ℕ, ◌+◌, ◌-◌, ◌%◌, ◌^◌, suc, List, [], ◌∷◌, Some, Err, IsOk, MatchResult, IsOkUnless};
ghost use Rattle.seg_spec.specs.Calls.{Refuses};
ghost use Rattle.seg_spec.specs.Demand.{block_for};
ghost use Rattle.seg_spec.specs.Owning.{Stands};
ghost use Rattle.seg_spec.specs.Reads as reads;
ghost use Rattle.seg_spec.specs.Reads.{Leads};
ghost use Rattle.seg_spec.specs.Types.{Form, form_at, size};
ghost use Rattle.seg_spec.specs.Value.{Value, Values, Seq, Selector, nil, cons, count, append, default_of};
ghost use Rattle.seg_spec.specs.Items.{remove_nth};
ghost use Rattle.seg_spec.specs.Window.{KeepsHost};
ghost use Rattle.seg_cells.specs.Places.{place_of, object_at};
ghost use Rattle.seg_seq.specs.Rings.{around};
ghost use Rattle.seg_seq.specs.declared.ring.Way.TheVariants as way;
ghost use Rattle.seg_seq.specs.Lists.{IsList, HasList, IsNoList, AddsItem, LosesItem};
ghost use Rattle.seg_seq.specs.Sequences.{ShowsItem};

use crate::kind::SequenceKind;
use crate::ring::{Way, insert, neighbour, remove};
use seg_block::Fit;
use seg_ptr::NodeAt;
use seg_raw::Code;
use seg_value::{CellAt, Content, Heap, LIST_LINKS, Place, SegmentRead, ValueAt};
use std::alloc::Allocator;

fn node_of(item: ValueAt) -> NodeAt
    ensures { result ≡ (item + (2 ^ 32 - 8)) % 2 ^ 32 }
{
    item.wrapping_sub(LIST_LINKS)
}

pub(crate) fn item_of(node: NodeAt) -> ValueAt
    ensures { result ≡ (node + 8) % 2 ^ 32 }
{
    node.wrapping_add(LIST_LINKS)
}

/// The item after an item of a list; after the last one this is the first one.
pub fn next<S: SegmentRead>(source: &S, item: ValueAt) -> ValueAt
    ensures { (allocator U i : ℕ) (list : reads.Place) (vs : Values) (blocks : List ℕ) →
        HasList allocator (S.stored source.now) list U vs blocks →
        ShowsItem (S.stored source.now) list U i item →
        ShowsItem (S.stored source.now) list U (around way.Forward (count vs) i 1) result }
{
    item_of(neighbour(source, node_of(item), Way::Forward))
}

/// The item before an item of a list; before the first one this is the last one.
pub fn previous<S: SegmentRead>(source: &S, item: ValueAt) -> ValueAt
    ensures { (allocator U i : ℕ) (list : reads.Place) (vs : Values) (blocks : List ℕ) →
        HasList allocator (S.stored source.now) list U vs blocks →
        ShowsItem (S.stored source.now) list U i item →
        ShowsItem (S.stored source.now) list U (around way.Backward (count vs) i 1) result }
{
    item_of(neighbour(source, node_of(item), Way::Backward))
}

/// Adds a default item at the front of a list, and returns its position. `OtherType` if the place isn't a list,
/// `BadAlloc` if there is no room for the item; then nothing changes.
pub fn push_front<F: Fit, A: Allocator>(heap: &mut Heap<F, A>, list: Place) -> Result<ValueAt, Code>
    ensures window { KeepsHost heap.old.window heap.new.window }
    ensures types { heap.new.types ≡ heap.old.types }
    ensures other { IsNoList heap.old.types list.type_id →
        (result ≡ Err Code.OtherType) × (heap.new.window ≡ heap.old.window) }
    ensures code { (U : ℕ) → form_at heap.old.types list.type_id ≡ Some (Form.list U) →
        IsOkUnless result Code.BadAlloc }
    ensures pushed { (U : ℕ) (vs : Values) (blocks : List ℕ) →
        HasList F.allocator heap.old (place_of list) U vs blocks →
        MatchResult result
        (λ at. AddsItem F.allocator heap.old.window.bytes heap.new.window.bytes heap.old.types
        (place_of list) U (cons (default_of heap.old.types U) vs) blocks 0 at (λ i. Some (suc i)))
        (λ code. Refuses F.allocator heap.old.window.bytes heap.new.window.bytes
        (block_for (8 + size heap.old.types U) ∷ [])) }
{
    let (SequenceKind::List, content) = SequenceKind::of(heap, list)? else {
        return Err(Code::OtherType);
    };
    let item = push_node(heap, &content, list.at)?;
    heap.window_mut()
        .point(list.at as usize, Some(node_of(item)));
    Ok(item)
}

/// Adds a node with a default item at the end, and returns the item's position.
pub(crate) fn push_node<F: Fit, A: Allocator>(
    heap: &mut Heap<F, A>,
    content: &Content,
    cell: CellAt,
) -> Result<ValueAt, Code>
    ensures window { KeepsHost heap.old.window heap.new.window }
    ensures types { heap.new.types ≡ heap.old.types }
    ensures code { IsOkUnless result Code.BadAlloc }
    ensures pushed { (T U : ℕ) (vs : Values) (blocks : List ℕ) →
        IsList heap.old.types T U content.now →
        Stands F.allocator heap.old.window.bytes heap.old.types (object_at cell T) (Seq vs) blocks →
        MatchResult result
        (λ at. AddsItem F.allocator heap.old.window.bytes heap.new.window.bytes heap.old.types
        (object_at cell T) U (append vs (cons (default_of heap.old.types U) nil)) blocks
        (count vs) at (λ i. Some i))
        (λ code. Refuses F.allocator heap.old.window.bytes heap.new.window.bytes
        (block_for (8 + size heap.old.types U) ∷ [])) }
{
    let node = heap.new_block(content)?;
    insert(heap, cell, node);
    Ok(item_of(node))
}

/// Destroys the first item of a list. `OtherType` if the place isn't a list, `Null` if the list is empty.
pub fn pop_front<F: Fit, A: Allocator>(heap: &mut Heap<F, A>, list: Place) -> Result<(), Code>
    ensures window { KeepsHost heap.old.window heap.new.window }
    ensures types { heap.new.types ≡ heap.old.types }
    ensures other { IsNoList heap.old.types list.type_id →
        (result ≡ Err Code.OtherType) × (heap.new.window ≡ heap.old.window) }
    ensures empty { (allocator U : ℕ) (blocks : List ℕ) →
        HasList allocator heap.old (place_of list) U nil blocks →
        (result ≡ Err Code.Null) × (heap.new.window ≡ heap.old.window) }
    ensures popped { (U : ℕ) (v : Value) (vs : Values) (blocks : List ℕ) →
        (it : HasList F.allocator heap.old (place_of list) U (cons v vs) blocks) →
        IsOk result ×
        LosesItem heap.old.window.bytes heap.new.window.bytes heap.old.types
        (place_of list) (cons v vs) 0 vs it.stands.home blocks }
{
    let (SequenceKind::List, content) = SequenceKind::of(heap, list)? else {
        return Err(Code::OtherType);
    };
    let first = heap.window().target(list.at as usize).ok_or(Code::Null)?;
    remove_node(heap, &content, list.at, first);
    Ok(())
}

/// Removes a node from a list, and destroys it with its item.
pub(crate) fn remove_node<F: Fit, A: Allocator>(
    heap: &mut Heap<F, A>,
    content: &Content,
    cell: CellAt,
    node: NodeAt,
)
    ensures window { KeepsHost heap.old.window heap.new.window }
    ensures types { heap.new.types ≡ heap.old.types }
    ensures removed { (T U j : ℕ) (vs : Values) (blocks : List ℕ) →
        IsList heap.old.types T U content.now →
        (s : Stands F.allocator heap.old.window.bytes heap.old.types (object_at cell T) (Seq vs)
        blocks) →
        Leads heap.old.window.bytes heap.old.types (object_at cell T) (Selector.item j ∷ [])
        (object_at (node + 8) U) →
        LosesItem heap.old.window.bytes heap.new.window.bytes heap.old.types
        (object_at cell T) vs j (remove_nth vs j) s.home blocks }
{
    remove(heap, cell, node);
    if let Some(item) = content.entry.value(node, 0) {
        heap.clear(item);
    }
    heap.free_block(node);
}
