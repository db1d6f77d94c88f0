ghost use Rattle.std.specs.Prelude.{◌≡◌, ℕ, ◌+◌, ◌-◌, ◌<◌, ◌≤◌, List, [], ◌∷◌, length, take, Some, None, true, false, Ok, Err, MatchResult};
ghost use Rattle.seg_spec.specs.Reads.{count_at};
ghost use Rattle.seg_spec.specs.Demand.{block_for};
ghost use Rattle.seg_spec.specs.Items.{without_last};
ghost use Rattle.seg_spec.specs.Types.{Form, form_at, size};
ghost use Rattle.seg_spec.specs.Value.{Values, nil, cons, count, append, default_of, Text};
ghost use Rattle.seg_spec.specs.Window.{KeepsHost};
ghost use Rattle.seg_value.specs.Buffers.{NamesBuffer};
ghost use Rattle.seg_cells.specs.Places.{place_of, object_at};
ghost use Rattle.seg_seq.specs.Kinds.{is_sequence};
ghost use Rattle.seg_seq.specs.Lists.{HasList, AddsItem, LosesItem};
ghost use Rattle.seg_seq.specs.Sequences.{HasText, HasItems, item_type, Declines, HasNone, ComesToHold, LacksRoom, push_asks, CountsItem, PushesBack, PopsBack, IsPast, ShowsByte, ShowsItem};

use crate::kind::SequenceKind;
use crate::list::{item_of, push_node, remove_node};
use crate::ring::{Way, neighbour, node_at};
use seg_block::Fit;
use seg_raw::Code;
use seg_value::{CellAt, Content, Heap, Held, Place, SegmentRead, ValueAt};
use std::alloc::Allocator;

/// How many bytes a string has, or how many items a vector or a list has. `OtherType` for other places.
pub fn len<S: SegmentRead>(source: &S, sequence: Place) -> Result<u32, Code>
    ensures text { (xs blocks : List ℕ) →
        HasText (S.allocator source.now) (S.stored source.now) (place_of sequence) xs blocks →
        result ≡ Ok (length xs) }
    ensures vector { (U : ℕ) (vs : Values) (blocks : List ℕ) →
        HasItems (S.allocator source.now) (S.stored source.now) (place_of sequence) U vs blocks →
        result ≡ Ok (count vs) }
    ensures list { (U : ℕ) (vs : Values) (blocks : List ℕ) →
        HasList (S.allocator source.now) (S.stored source.now) (place_of sequence) U vs blocks →
        result ≡ Ok (count vs) }
    ensures other { is_sequence (form_at (S.stored source.now).types sequence.type_id) ≡ false →
        result ≡ Err Code.OtherType }
    ensures counted { is_sequence (form_at (S.stored source.now).types sequence.type_id) ≡ true →
        result ≡ Ok (count_at (S.stored source.now).window.bytes sequence.at) }
{
    SequenceKind::of(source, sequence)?;
    Ok(source.count(sequence.at))
}

/// The position of an item of a vector or a list, or of a byte of a string. `OtherType` for other places, `OutOfRange`
/// if there is no such item.
pub fn at<S: SegmentRead>(source: &S, sequence: Place, index: u32) -> Result<ValueAt, Code>
    ensures text { (xs blocks : List ℕ) →
        HasText (S.allocator source.now) (S.stored source.now) (place_of sequence) xs blocks →
        MatchResult result
        (ShowsByte (S.stored source.now) (place_of sequence) xs index) (IsPast index (length xs)) }
    ensures vector { (U : ℕ) (vs : Values) (blocks : List ℕ) →
        HasItems (S.allocator source.now) (S.stored source.now) (place_of sequence) U vs blocks →
        MatchResult result
        (ShowsItem (S.stored source.now) (place_of sequence) U index) (IsPast index (count vs)) }
    ensures list { (U : ℕ) (vs : Values) (blocks : List ℕ) →
        HasList (S.allocator source.now) (S.stored source.now) (place_of sequence) U vs blocks →
        MatchResult result
        (ShowsItem (S.stored source.now) (place_of sequence) U index) (IsPast index (count vs)) }
    ensures other { is_sequence (form_at (S.stored source.now).types sequence.type_id) ≡ false →
        result ≡ Err Code.OtherType }
    ensures counted { is_sequence (form_at (S.stored source.now).types sequence.type_id) ≡ true →
        MatchResult result (λ at. index < count_at (S.stored source.now).window.bytes sequence.at)
        (IsPast index (count_at (S.stored source.now).window.bytes sequence.at)) }
{
    let (kind, content) = SequenceKind::of(source, sequence)?;
    if index >= source.count(sequence.at) {
        return Err(Code::OutOfRange);
    }
    match kind {
        SequenceKind::Text | SequenceKind::Vector => Ok(
            content.entry.value_at(source.start(sequence.at), index),
        ),
        SequenceKind::List => Ok(item_of(node_at(source, sequence.at, index))),
    }
}

/// Appends a default item to a vector or a list, and returns its position. `OtherType` if the place is neither,
/// `BadAlloc` if there is no room for the item; then nothing changes.
pub fn push_back<F: Fit, A: Allocator>(
    heap: &mut Heap<F, A>,
    sequence: Place,
) -> Result<ValueAt, Code>
    ensures window { KeepsHost heap.old.window heap.new.window }
    ensures types { heap.new.types ≡ heap.old.types }
    ensures vector { (U : ℕ) (vs : Values) (blocks : List ℕ) →
        HasItems F.allocator heap.old (place_of sequence) U vs blocks →
        MatchResult result
        (PushesBack F.allocator heap.old heap.new (place_of sequence) U vs blocks)
        (LacksRoom F.allocator heap.old heap.new (push_asks heap.old (place_of sequence) U)) }
    ensures list { (U : ℕ) (vs : Values) (blocks : List ℕ) →
        HasList F.allocator heap.old (place_of sequence) U vs blocks →
        MatchResult result
        (λ at. AddsItem F.allocator heap.old.window.bytes heap.new.window.bytes heap.old.types
        (place_of sequence) U (append vs (cons (default_of heap.old.types U) nil)) blocks
        (count vs) at (λ i. Some i))
        (LacksRoom F.allocator heap.old heap.new (block_for (8 + size heap.old.types U) ∷ [])) }
    ensures other { item_type (form_at heap.old.types sequence.type_id) ≡ None →
        Declines Code.OtherType heap.old heap.new result }
{
    let (kind, content) = SequenceKind::of(heap, sequence)?;
    match kind {
        SequenceKind::Text => Err(Code::OtherType),
        SequenceKind::Vector => push_entry(heap, &content, sequence.at),
        SequenceKind::List => push_node(heap, &content, sequence.at),
    }
}

/// Appends a default entry to a buffer, and returns the position of its value.
#[inline(always)]
fn push_entry<F: Fit, A: Allocator>(
    heap: &mut Heap<F, A>,
    content: &Content,
    cell: CellAt,
) -> Result<ValueAt, Code>
    ensures window { KeepsHost heap.old.window heap.new.window }
    ensures types { heap.new.types ≡ heap.old.types }
    ensures vector { (T U : ℕ) (vs : Values) (blocks : List ℕ) →
        NamesBuffer heap.old.types T content.now →
        HasItems F.allocator heap.old (object_at cell T) U vs blocks →
        MatchResult result
        (PushesBack F.allocator heap.old heap.new (object_at cell T) U vs blocks)
        (LacksRoom F.allocator heap.old heap.new (push_asks heap.old (object_at cell T) U)) }
{
    let at = count_entry(heap, content, cell)?;
    match content.entry.held {
        Held::Value(type_id) => heap.init_default(Place { at, type_id }),
        Held::Bytes | Held::Pointer => {}
    }
    Ok(at)
}

/// Makes room for one more entry in a buffer and counts it. Returns the position of its value, which isn't written.
#[inline(always)]
pub(crate) fn count_entry<F: Fit, A: Allocator>(
    heap: &mut Heap<F, A>,
    content: &Content,
    cell: CellAt,
) -> Result<ValueAt, Code>
    ensures window { KeepsHost heap.old.window heap.new.window }
    ensures types { heap.new.types ≡ heap.old.types }
    ensures vector { (T U : ℕ) (vs : Values) (blocks : List ℕ) →
        NamesBuffer heap.old.types T content.now →
        HasItems F.allocator heap.old (object_at cell T) U vs blocks →
        MatchResult result
        (CountsItem F.allocator heap.old heap.new (object_at cell T) U vs blocks)
        (LacksRoom F.allocator heap.old heap.new (push_asks heap.old (object_at cell T) U)) }
{
    let kept = heap.count(cell);
    let len = kept.saturating_add(1);
    let start = heap.reserve(content, cell, len)?;
    heap.set_count(cell, len);
    Ok(content.entry.value_at(start, kept))
}

/// Destroys the last item of a vector or a list, or drops the last byte of a string. `OtherType` for other places,
/// `Null` if it is empty.
pub fn pop_back<F: Fit, A: Allocator>(heap: &mut Heap<F, A>, sequence: Place) -> Result<(), Code>
    ensures window { KeepsHost heap.old.window heap.new.window }
    ensures types { heap.new.types ≡ heap.old.types }
    ensures text { (xs blocks : List ℕ) →
        HasText F.allocator heap.old (place_of sequence) xs blocks →
        MatchResult result
        (λ done. ComesToHold F.allocator heap.old heap.new (place_of sequence)
        (Text (take (length xs - 1) xs)) [] [] blocks)
        (HasNone heap.old heap.new (length xs)) }
    ensures vector { (U : ℕ) (vs : Values) (blocks : List ℕ) →
        (it : HasItems F.allocator heap.old (place_of sequence) U vs blocks) →
        MatchResult result
        (λ done. PopsBack heap.old heap.new (place_of sequence) vs it.stands.home blocks)
        (HasNone heap.old heap.new (count vs)) }
    ensures list { (U : ℕ) (vs : Values) (blocks : List ℕ) →
        (it : HasList F.allocator heap.old (place_of sequence) U vs blocks) →
        MatchResult result
        (λ done. (1 ≤ count vs) ×
        LosesItem heap.old.window.bytes heap.new.window.bytes heap.old.types
        (place_of sequence) vs (count vs - 1) (without_last vs) it.stands.home blocks)
        (HasNone heap.old heap.new (count vs)) }
    ensures other { is_sequence (form_at heap.old.types sequence.type_id) ≡ false →
        Declines Code.OtherType heap.old heap.new result }
    ensures counted { is_sequence (form_at heap.old.types sequence.type_id) ≡ true →
        MatchResult result (λ done. 1 ≤ count_at heap.old.window.bytes sequence.at)
        (HasNone heap.old heap.new (count_at heap.old.window.bytes sequence.at)) }
{
    let (kind, content) = SequenceKind::of(heap, sequence)?;
    let last = heap.count(sequence.at).checked_sub(1).ok_or(Code::Null)?;
    match kind {
        SequenceKind::Text | SequenceKind::Vector => {
            pop_entry(heap, &content, sequence.at, last);
        }
        SequenceKind::List => {
            let node = neighbour(heap, heap.start(sequence.at), Way::Backward);
            remove_node(heap, &content, sequence.at, node);
        }
    }
    Ok(())
}

/// Destroys the last entry of a buffer.
fn pop_entry<F: Fit, A: Allocator>(
    heap: &mut Heap<F, A>,
    content: &Content,
    cell: CellAt,
    last: u32,
)
    ensures window { KeepsHost heap.old.window heap.new.window }
    ensures types { heap.new.types ≡ heap.old.types }
    ensures text { (T : ℕ) (xs blocks : List ℕ) → NamesBuffer heap.old.types T content.now →
        HasText F.allocator heap.old (object_at cell T) xs blocks → length xs ≡ last + 1 →
        ComesToHold F.allocator heap.old heap.new (object_at cell T) (Text (take last xs)) [] []
        blocks }
    ensures vector { (T U : ℕ) (vs : Values) (blocks : List ℕ) →
        NamesBuffer heap.old.types T content.now →
        (it : HasItems F.allocator heap.old (object_at cell T) U vs blocks) → count vs ≡ last + 1 →
        PopsBack heap.old heap.new (object_at cell T) vs it.stands.home blocks }
{
    if let Some(item) = content.entry.value(heap.start(cell), last) {
        heap.clear(item);
    }
    heap.set_count(cell, last);
}
