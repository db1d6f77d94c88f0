//! Cells that share a frozen object, in images of version 2.

ghost use Rattle.std.specs.Prelude.{◌≡◌, ℕ, suc, ◌+◌, ◌%◌, ◌^◌, ◌<◌, ◌≤◌, List, [], ◌∷◌, ◌++◌, length, Option, Some, None, Err, option_map, IsOkUnless, MatchResult};
ghost use Rattle.std.specs.List.{AllByRecursion};
ghost use Rattle.seg_spec.specs.Block.{block_of};
ghost use Rattle.seg_spec.specs.Bytes.{word, set_word};
ghost use Rattle.seg_spec.specs.Header.{next_word};
ghost use Rattle.seg_spec.specs.Calls.{IsLoose, Refuses};
ghost use Rattle.seg_spec.specs.Clearing.{ClearsPlace};
ghost use Rattle.seg_spec.specs.Demand.{block_for};
ghost use Rattle.seg_spec.specs.Frozen.{Frozen, frozen_words};
ghost use Rattle.seg_spec.specs.Heap.{IsHeap};
ghost use Rattle.seg_spec.specs.Owning.{Stands};
ghost use Rattle.seg_spec.specs.Pointer.{target, set_pointer};
ghost use Rattle.seg_spec.specs.Reads as reads;
ghost use Rattle.seg_spec.specs.Reads.{Holds};
ghost use Rattle.seg_spec.specs.Shared.{names_in, IsBelow, raised_by, left};
ghost use Rattle.seg_spec.specs.Types.{Form, IsTable, form_at, size};
ghost use Rattle.seg_spec.specs.Value.{Value};
ghost use Rattle.seg_spec.specs.Window.{with_bytes, KeepsHost};
ghost use Rattle.seg_cells.specs.Places.{place_of, object_at};
ghost use Rattle.seg_value.specs.Sharing.{MovesParts};
ghost use Rattle.seg_spec.specs.Sharing.{FrozenBeside, FreezesParts, cell_count};

use crate::{Content, FROZEN_WORDS, Heap, SegmentRead};
use seg_block::{Fit, PayloadAt};
use seg_cells::{CellAt, Place, ValueAt};
use seg_layout::{Type, TypeId};
use seg_ptr::Code;
use seg_ptr::header::NEXT_NUMBER;
use std::alloc::Allocator;

/// The position of the value of the frozen object that a cell points to, if it points to one.
pub fn frozen<S: SegmentRead>(source: &S, cell: Place) -> Option<ValueAt>
    ensures { result ≡ option_map (λ p. (p + frozen_words) % 2 ^ 32)
        (target (S.stored source.now).window.bytes cell.at) }
{
    let payload = source.view().target(cell.at as usize)?;
    Some(payload.wrapping_add(FROZEN_WORDS))
}

/// Makes a cell outside frozen objects point to what another cell points to, if anything. The object that it pointed to
/// before is released.
pub fn share<F: Fit, A: Allocator>(heap: &mut Heap<F, A>, to: Place, from: Place)
    ensures window { KeepsHost heap.old.window heap.new.window }
    ensures types { heap.new.types ≡ heap.old.types }
    ensures shared { (T next : ℕ) (v w : Value) (blocks others : List ℕ)
        (theirs : ℕ → List ℕ) (kept : List reads.Place) (now : List Frozen) →
        form_at heap.old.types to.type_id ≡ Some (Form.shared T) →
        form_at heap.old.types from.type_id ≡ Some (Form.shared T) →
        (s : Stands F.allocator heap.old.window.bytes heap.old.types (place_of to) v blocks) →
        Holds heap.old.window.bytes heap.old.types (place_of from) w others →
        FrozenBeside heap.old.window.bytes heap.old.types (s.home ∷ blocks)
        (names_in v ++ kept) next theirs now →
        AllByRecursion (IsBelow next now) (names_in w) →
        AllByRecursion (λ f. f.count ≤ length heap.old.window.bytes) now →
        ClearsPlace heap.old.window.bytes heap.new.window.bytes heap.old.types (place_of to) w
        blocks [] theirs now (left (names_in v) (raised_by (names_in w) now)) }
{
    let object = heap.window().target(from.at as usize);
    raise(heap, object);
    heap.clear(to);
    name(heap, to.at, object);
}

/// Freezes an object, given by the position of its value. The object must not have an owner, and must not reach the
/// cell. The cell then points to the frozen object, and the object that it pointed to before is released; the cell must
/// be outside frozen objects. `NumbersUsedUp` if there isn't a number for one more, `BadAlloc` if no free block is
/// large enough; then nothing changes.
pub fn freeze<F: Fit, A: Allocator>(
    heap: &mut Heap<F, A>,
    cell: Place,
    object: PayloadAt,
) -> Result<(), Code>
    ensures window { KeepsHost heap.old.window heap.new.window }
    ensures types { heap.new.types ≡ heap.old.types }
    ensures next { suc (word heap.old.window.bytes next_word) ≤ 2 ^ 32 }
    ensures used_up { suc (word heap.old.window.bytes next_word) ≡ 2 ^ 32 →
        (result ≡ Err Code.NumbersUsedUp) × (heap.new.window ≡ heap.old.window) }
    ensures code { suc (word heap.old.window.bytes next_word) < 2 ^ 32 →
        IsOkUnless result Code.BadAlloc }
    ensures frozen { (T : ℕ) (v w : Value) (blocks inside : List ℕ)
        (theirs : ℕ → List ℕ) (kept : List reads.Place) (now : List Frozen) →
        form_at heap.old.types cell.type_id ≡ Some (Form.shared T) →
        (s : Stands F.allocator heap.old.window.bytes heap.old.types (place_of cell) v blocks) →
        IsLoose heap.old.window.bytes heap.old.types (object_at object T) w inside →
        FrozenBeside heap.old.window.bytes heap.old.types
        (s.home ∷ (blocks ++ block_of object ∷ inside)) (names_in w ++ (names_in v ++ kept))
        (word heap.old.window.bytes next_word) theirs now →
        suc (word heap.old.window.bytes next_word) < 2 ^ 32 →
        MatchResult result
        (λ done. FreezesParts F.allocator heap.old.window.bytes heap.new.window.bytes
        heap.old.types (place_of cell) T object w inside blocks (names_in v) theirs now)
        (λ code. Refuses F.allocator heap.old.window.bytes heap.new.window.bytes
        (block_for (frozen_words + size heap.old.types T) ∷ [])) }
{
    let number = heap.window().get32(NEXT_NUMBER);
    if number == u32::MAX {
        return Err(Code::NumbersUsedUp);
    }
    let held = shared_type(heap, cell.type_id);
    let payload = move_frozen(heap, held, object, number)?;
    heap.clear(cell);
    name(heap, cell.at, Some(payload));
    Ok(())
}

/// The type of the objects that cells of type `t` share, or `t` itself if it isn't a shared type.
fn shared_type<F: Fit, A: Allocator>(heap: &Heap<F, A>, t: TypeId) -> TypeId
    ensures { (T : ℕ) → form_at heap.now.types t ≡ Some (Form.shared T) → result ≡ T }
{
    let Some(Type::Shared(held)) = heap.types().kind(t) else {
        return t;
    };
    held
}

/// Moves an object of a type to a new block, with a frozen object's words before its value. Returns the position of the
/// payload. `BadAlloc` if no free block is large enough; then nothing changes.
fn move_frozen<F: Fit, A: Allocator>(
    heap: &mut Heap<F, A>,
    t: TypeId,
    object: PayloadAt,
    number: u32,
) -> Result<PayloadAt, Code>
    ensures window { KeepsHost heap.old.window heap.new.window }
    ensures types { heap.new.types ≡ heap.old.types }
    ensures code { IsOkUnless result Code.BadAlloc }
    ensures moved { (v : Value) (inside : List ℕ) → IsTable heap.old.types →
        t < length heap.old.types → IsHeap F.allocator heap.old.window.bytes →
        IsLoose heap.old.window.bytes heap.old.types (object_at object t) v inside →
        number ≡ word heap.old.window.bytes next_word → suc number < 2 ^ 32 →
        MatchResult result
        (MovesParts F.allocator heap.old.window.bytes heap.new.window.bytes heap.old.types
        t object v inside)
        (λ code. Refuses F.allocator heap.old.window.bytes heap.new.window.bytes
        (block_for (frozen_words + size heap.old.types t) ∷ [])) }
{
    let content = Content::frozen(heap.types(), t);
    let payload = heap.new_block(&content)?;
    heap.shift(t, object, payload.wrapping_add(FROZEN_WORDS), 1);
    heap.free_block(object);
    count_frozen(heap, payload, number);
    Ok(payload)
}

/// Writes the words of a frozen object with one cell, and the number of the next object.
fn count_frozen<F: Fit, A: Allocator>(heap: &mut Heap<F, A>, payload: PayloadAt, number: u32)
    ensures window { heap.new.window ≡ with_bytes heap.old.window (set_word (set_word (set_word
        heap.old.window.bytes payload 1) (payload + 4) number)
        next_word ((number + 1) % 2 ^ 32)) }
    ensures types { heap.new.types ≡ heap.old.types }
{
    let w = heap.window_mut();
    w.put32(payload as usize, 1);
    w.put32(payload as usize + 4, number);
    w.put32(NEXT_NUMBER, number.wrapping_add(1));
}

/// Raises the count of a frozen object, if there is one.
fn raise<F: Fit, A: Allocator>(heap: &mut Heap<F, A>, object: Option<PayloadAt>)
    ensures window { KeepsHost heap.old.window heap.new.window }
    ensures types { heap.new.types ≡ heap.old.types }
    ensures none { object ≡ None → heap.new.window ≡ heap.old.window }
    ensures raised { (p : ℕ) → object ≡ Some p →
        suc (word heap.old.window.bytes p) < 2 ^ 32 →
        heap.new.window.bytes ≡
        set_word heap.old.window.bytes p (suc (word heap.old.window.bytes p)) }
{
    let Some(payload) = object else {
        return;
    };
    let w = heap.window_mut();
    let count = w.get32(payload as usize).saturating_add(1);
    w.put32(payload as usize, count);
}

/// Makes a cell point to a frozen object, or makes its pointer null.
fn name<F: Fit, A: Allocator>(heap: &mut Heap<F, A>, cell: CellAt, object: Option<PayloadAt>)
    ensures window { heap.new.window ≡ with_bytes heap.old.window (set_word
        (set_pointer heap.old.window.bytes cell object) (cell + 4) (cell_count object)) }
    ensures types { heap.new.types ≡ heap.old.types }
{
    heap.window_mut().point(cell as usize, object);
    heap.set_count(cell, u32::from(object.is_some()));
}
