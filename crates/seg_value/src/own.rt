//! Values that own one object.

ghost use Rattle.std.specs.Prelude.{◌≡◌, ℕ, List, ◌∷◌, ◌++◌, Some, None};
ghost use Rattle.seg_spec.specs.Block.{block_of};
ghost use Rattle.seg_spec.specs.Calls.{IsLoose};
ghost use Rattle.seg_spec.specs.Clearing.{BesideShared};
ghost use Rattle.seg_spec.specs.Owning.{Stands};
ghost use Rattle.seg_spec.specs.Shared.{named_in};
ghost use Rattle.seg_spec.specs.Types.{Form, form_at};
ghost use Rattle.seg_spec.specs.Value.{Value, Empty, Full};
ghost use Rattle.seg_spec.specs.Window.{KeepsHost};
ghost use Rattle.seg_cells.specs.Places.{place_of, object_at};
ghost use Rattle.seg_value.specs.Places.{TakesOwn, SetsOwn};

use crate::Heap;
use seg_block::{Fit, PayloadAt};
use seg_cells::Place;
use std::alloc::Allocator;

/// Makes an own the owner of an object, given by the position of its value. The object must not have an owner, and must
/// not reach the own's cell. The own's previous object is destroyed first.
pub fn set_own<F: Fit, A: Allocator>(heap: &mut Heap<F, A>, own: Place, object: PayloadAt)
    ensures window { KeepsHost heap.old.window heap.new.window }
    ensures types { heap.new.types ≡ heap.old.types }
    ensures set { (U : ℕ) (v w : Value) (blocks inside : List ℕ) →
        form_at heap.old.types own.type_id ≡ Some (Form.own U) →
        (s : Stands F.allocator heap.old.window.bytes heap.old.types (place_of own) v blocks) →
        IsLoose heap.old.window.bytes heap.old.types (object_at object U) w inside →
        BesideShared heap.old.window.bytes heap.old.types
        (s.home ∷ (blocks ++ block_of object ∷ inside)) (named_in v)
        (SetsOwn heap.old.window.bytes heap.new.window.bytes heap.old.types (place_of own)
        w blocks (block_of object ∷ inside)) }
{
    if let Some(old) = take_own(heap, own) {
        heap.destroy(old);
    }
    heap.window_mut().point(own.at as usize, Some(object));
    heap.set_count(own.at, 1);
}

/// Takes the object out of an own, and returns the position of its value. The own is then empty.
pub fn take_own<F: Fit, A: Allocator>(heap: &mut Heap<F, A>, own: Place) -> Option<PayloadAt>
    ensures window { KeepsHost heap.old.window heap.new.window }
    ensures types { heap.new.types ≡ heap.old.types }
    ensures empty { (allocator U : ℕ) (blocks : List ℕ) →
        form_at heap.old.types own.type_id ≡ Some (Form.own U) →
        Stands allocator heap.old.window.bytes heap.old.types (place_of own) Empty blocks →
        (result ≡ None) × (heap.new.window ≡ heap.old.window) }
    ensures taken { (allocator U : ℕ) (v : Value) (blocks : List ℕ) →
        form_at heap.old.types own.type_id ≡ Some (Form.own U) →
        Stands allocator heap.old.window.bytes heap.old.types (place_of own) (Full v) blocks →
        TakesOwn heap.old.window.bytes heap.new.window.bytes heap.old.types (place_of own) U v
        blocks result }
{
    let object = heap.window().target(own.at as usize)?;
    heap.window_mut().point(own.at as usize, None);
    heap.set_count(own.at, 0);
    Some(object)
}
