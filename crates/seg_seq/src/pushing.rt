//! Appends an item to a vector that has room for it, without an allocation.

ghost use Rattle.std.specs.Prelude.{◌≡◌, ℕ, ◌+◌, List, length, Some, None, IfSome, MatchOption};
ghost use Rattle.seg_spec.specs.Bytes.{set_word, set_long};
ghost use Rattle.seg_spec.specs.Types.{Form, form_at};
ghost use Rattle.seg_spec.specs.Value.{Values, Int};
ghost use Rattle.seg_spec.specs.Window.{KeepsHost};
ghost use Rattle.seg_cells.specs.Places.{place_of, object_at};
ghost use Rattle.seg_seq.specs.Sequences.{HasItems, IsFull, PushesBack, PushesItem};

use crate::room::Room;
use seg_block::Fit;
use seg_layout::{Type, TypeId};
use seg_ptr::words::put_word;
use seg_value::{CellAt, Heap, Place, ValueAt};
use std::alloc::Allocator;

/// The bytes of a number.
const NUMBER: usize = 8;

/// Appends a default item to a vector whose buffer has room for it, and returns the item. `None` if there is no room,
/// or the place isn't a vector; then nothing changes.
#[inline(always)]
pub fn push_in_place<F: Fit, A: Allocator>(heap: &mut Heap<F, A>, vector: Place) -> Option<Place>
    ensures window { KeepsHost heap.old.window heap.new.window }
    ensures types { heap.new.types ≡ heap.old.types }
    ensures none { result ≡ None → heap.new.window ≡ heap.old.window }
    ensures some { IfSome result
        (λ item. form_at heap.old.types vector.type_id ≡ Some (Form.vec item.type_id)) }
    ensures vector { (U : ℕ) (vs : Values) (blocks : List ℕ) →
        HasItems F.allocator heap.old (place_of vector) U vs blocks →
        MatchOption result
        (IsFull heap.old (place_of vector) U)
        (λ item. PushesBack F.allocator heap.old heap.new (place_of vector) U vs blocks item.at) }
{
    match heap.number_type(vector.type_id) {
        Some(type_id) => {
            let at = push_number_in_place(heap, vector.at, 0)?;
            Some(Place { at, type_id })
        }
        None => push_any_in_place(heap, vector),
    }
}

/// Like [`push_in_place`], for a vector of any values.
// Inlined: a call would return the item through memory, and the code for numbers would have to do the same.
#[inline(always)]
fn push_any_in_place<F: Fit, A: Allocator>(heap: &mut Heap<F, A>, vector: Place) -> Option<Place>
    ensures window { KeepsHost heap.old.window heap.new.window }
    ensures types { heap.new.types ≡ heap.old.types }
    ensures none { result ≡ None → heap.new.window ≡ heap.old.window }
    ensures some { IfSome result
        (λ item. form_at heap.old.types vector.type_id ≡ Some (Form.vec item.type_id)) }
    ensures vector { (U : ℕ) (vs : Values) (blocks : List ℕ) →
        HasItems F.allocator heap.old (place_of vector) U vs blocks →
        MatchOption result
        (IsFull heap.old (place_of vector) U)
        (λ item. PushesBack F.allocator heap.old heap.new (place_of vector) U vs blocks item.at) }
{
    let Some(Type::Vec(type_id)) = heap.types().kind(vector.type_id) else {
        return None;
    };
    let at = push_value(heap, vector.at, type_id)?;
    Some(Place { at, type_id })
}

/// Appends a number to the vector of numbers whose cell is at a position, and returns the number's position. `None` if
/// its buffer has no room; then nothing changes.
#[inline(always)]
pub(crate) fn push_number_in_place<F: Fit, A: Allocator>(
    heap: &mut Heap<F, A>,
    cell: CellAt,
    number: i64,
) -> Option<ValueAt>
    ensures window { KeepsHost heap.old.window heap.new.window }
    ensures types { heap.new.types ≡ heap.old.types }
    ensures none { result ≡ None → heap.new.window ≡ heap.old.window }
    ensures vector { (T U : ℕ) (vs : Values) (blocks : List ℕ) →
        HasItems F.allocator heap.old (object_at cell T) U vs blocks →
        form_at heap.old.types U ≡ Some Form.i64 →
        MatchOption result (IsFull heap.old (object_at cell T) U)
        (PushesItem (Int number) F.allocator heap.old heap.new (object_at cell T) U vs blocks) }
{
    let room = Room::of(heap.window().view(), cell, NUMBER as u32)?;
    let len = room.count.wrapping_add(1);
    let bytes = heap.window_mut().bytes_mut();
    put_number(bytes, cell, len, room.at, number.cast_unsigned());
    Some(room.position())
}

/// Writes the count of a cell, and a number to a position.
// Both writes are to the same borrowed slice, which stays in registers.
#[inline(always)]
fn put_number(bytes: &mut [u8], cell: CellAt, count: u32, at: usize, number: u64)
    ensures bytes { bytes.new ≡ set_long (set_word bytes.old (cell + 4) count) at number }
    ensures length { length bytes.new ≡ length bytes.old }
{
    put_word(bytes, cell as usize + 4, count);
    if at.saturating_add(NUMBER) <= bytes.len() {
        bytes[at..at + NUMBER].copy_from_slice(&u64::to_le_bytes(number));
    }
}

/// Appends a default item of this type to the vector whose cell is at a position, and returns the item's position.
/// `None` if its buffer has no room.
#[inline(always)]
fn push_value<F: Fit, A: Allocator>(
    heap: &mut Heap<F, A>,
    cell: CellAt,
    type_id: TypeId,
) -> Option<ValueAt>
    ensures window { KeepsHost heap.old.window heap.new.window }
    ensures types { heap.new.types ≡ heap.old.types }
    ensures none { result ≡ None → heap.new.window ≡ heap.old.window }
    ensures vector { (T U : ℕ) (vs : Values) (blocks : List ℕ) →
        HasItems F.allocator heap.old (object_at cell T) U vs blocks → type_id ≡ U →
        MatchOption result (IsFull heap.old (object_at cell T) U)
        (PushesBack F.allocator heap.old heap.new (object_at cell T) U vs blocks) }
{
    let room = Room::of(heap.window().view(), cell, heap.types().size(type_id))?;
    let at = room.position();
    heap.set_count(cell, room.count.wrapping_add(1));
    heap.init_default(Place { at, type_id });
    Some(at)
}
