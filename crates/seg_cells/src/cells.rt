//! The cells of a value. The cells of a struct are its fields' cells. Fields have lower type ids, so the recursion is
//! no deeper than the type table is long.

ghost use Rattle.std.specs.Prelude.{◌≡◌, ℕ, ◌+◌, ◌*◌, ◌≤◌, map, length};
ghost use Rattle.seg_spec.specs.Bytes.{word, set_word};
ghost use Rattle.seg_spec.specs.Cells.{further, IsWithin, ChangesCells, ChangesEach, IsDefaulted, IsFurther};
ghost use Rattle.seg_spec.specs.Reads.{spaced};
ghost use Rattle.seg_spec.specs.Types.{IsTable, size, form_at, fields_of};
ghost use Rattle.seg_spec.specs.Window.{with_bytes, KeepsHost};
ghost use Rattle.seg_cells.specs.Cells.{cells_of};
ghost use Rattle.seg_cells.specs.Places.{LiesWithin};
ghost use Rattle.seg_cells.specs.Pointers.{PointsAgain};

use crate::entry::{Entry, Held};
use crate::place::Place;
use seg_block::Window;
use seg_layout::{MAX_TYPES, TypeId, TypeTable};
use std::alloc::Allocator;

/// The distance in a null pointer.
const NULL: u32 = 1;

/// The cell of an empty container, an empty string or an empty own: a null pointer and the count 0.
const EMPTY: u64 = 1;

/// The number of type ids: each byte is an index into an array of this length.
pub const IDS: usize = 256;

/// What a value of a type consists of.
#[derive(Debug, Clone, Copy, PartialEq, Eq)]
pub enum Cells {
    /// A number, without pointers. Also for types that the table lacks.
    Number,
    /// One cell with a pointer.
    Pointer,
    /// The cells of fields.
    Fields,
}

impl Cells {
    ghost use Rattle.seg_cells.specs.Cells.{cells_of, AreCells};

    fn of(types: &TypeTable, t: TypeId) -> Cells
        ensures cells { result ≡ cells_of (form_at types.now t) }
        ensures table { IsTable types.now }
    {
        if !types.has_pointers(t) {
            return Cells::Number;
        }
        if types.field_count(t) == 0 {
            Cells::Pointer
        } else {
            Cells::Fields
        }
    }

    /// What values of each type consist of, also for types that the table lacks.
    pub fn of_each(types: &TypeTable) -> [Cells; IDS]
        ensures cells { AreCells types.now result }
        ensures table { IsTable types.now }
    {
        let mut each = [Cells::of(types, TypeId::MAX); IDS];
        for t in 0..MAX_TYPES {
            each[t] = Cells::of(types, t as TypeId);
        }
        each
    }
}

/// Writes the default of a value: 0 for numbers, empty or null for others.
// Inlined, since most values are one cell and need no recursion.
#[inline(always)]
pub fn set_default<A: Allocator>(w: &mut Window<A>, types: &TypeTable, cells: Cells, place: Place)
    ensures host { KeepsHost w.old w.new }
    ensures cells { IsTable types.now → cells ≡ cells_of (form_at types.now place.type_id) →
        LiesWithin w.old.bytes types.now place →
        ChangesCells IsDefaulted w.old.bytes w.new.bytes types.now place.at place.type_id }
{
    match cells {
        Cells::Number => w.put64(place.at as usize, 0),
        Cells::Pointer => w.put64(place.at as usize, EMPTY),
        Cells::Fields => set_fields(w, types, place),
    }
}

/// Writes the default of a value without fields.
#[inline]
fn set_cell<A: Allocator>(w: &mut Window<A>, types: &TypeTable, cell: Place)
    ensures host { KeepsHost w.old w.new }
    ensures cells { length (fields_of types.now cell.type_id) ≡ 0 →
        LiesWithin w.old.bytes types.now cell →
        ChangesCells IsDefaulted w.old.bytes w.new.bytes types.now cell.at cell.type_id }
{
    let word = if types.has_pointers(cell.type_id) {
        EMPTY
    } else {
        0
    };
    w.put64(cell.at as usize, word);
}

/// Writes the default of a value, field by field.
#[cold]
#[inline(never)]
fn set_fields<A: Allocator>(w: &mut Window<A>, types: &TypeTable, place: Place)
    ensures host { KeepsHost w.old w.new }
    ensures cells { LiesWithin w.old.bytes types.now place →
        ChangesCells IsDefaulted w.old.bytes w.new.bytes types.now place.at place.type_id }
    ensures table { IsTable types.now }
{
    let fields = types.field_count(place.type_id);
    if fields == 0 {
        set_cell(w, types, place);
        return;
    }
    for index in 0..fields {
        if let Some(field) = types.field(place.type_id, index) {
            let part = place.part(field);
            if types.field_count(part.type_id) == 0 {
                set_cell(w, types, part);
            } else {
                set_fields(w, types, part);
            }
        }
    }
}

/// Corrects the pointers of a value that was moved `distance` bytes further on: they point to the same blocks as
/// before.
fn point_again<A: Allocator>(w: &mut Window<A>, types: &TypeTable, place: Place, distance: u32)
    ensures host { KeepsHost w.old w.new }
    ensures pointed { LiesWithin w.old.bytes types.now place →
        ChangesCells (λ old new at form. IsFurther old new distance at form)
        w.old.bytes w.new.bytes types.now place.at place.type_id }
{
    if !types.has_pointers(place.type_id) {
        return;
    }
    let fields = types.field_count(place.type_id);
    if fields == 0 {
        point_cell_again(w, place.at as usize, distance);
        return;
    }
    for index in 0..fields {
        if let Some(field) = types.field(place.type_id, index) {
            point_again(w, types, place.part(field), distance);
        }
    }
}

/// Corrects the pointers of `n` entries that were moved: they point to the same blocks as before.
pub fn point_each_again<A: Allocator>(
    w: &mut Window<A>,
    types: &TypeTable,
    entry: Entry,
    start: u32,
    n: u32,
    distance: u32,
)
    ensures host { KeepsHost w.old w.new }
    ensures bytes { entry.held ≡ Held.Bytes → w.new ≡ w.old }
    ensures values { (t : ℕ) → entry.held ≡ Held.Value t →
        entry.before + size types.now t ≤ entry.size →
        IsWithin w.old.bytes start (n * entry.size) →
        ChangesEach (λ old new at form. IsFurther old new distance at form)
        w.old.bytes w.new.bytes types.now t start (n * entry.size)
        (map (λ p. p + entry.before) (spaced start entry.size n)) }
    ensures pointers { entry.held ≡ Held.Pointer → entry.before + 4 ≤ entry.size →
        IsWithin w.old.bytes start (n * entry.size) →
        PointsAgain distance w.old.bytes w.new.bytes start entry.size entry.before n }
{
    match entry.held {
        Held::Bytes => {}
        Held::Pointer => point_pointers_again(w, entry, start, n, distance),
        Held::Value(t) => point_values_again(w, types, entry, t, start, n, distance),
    }
}

/// Corrects `n` entries that begin with a pointer.
fn point_pointers_again<A: Allocator>(
    w: &mut Window<A>,
    entry: Entry,
    start: u32,
    n: u32,
    distance: u32,
)
    ensures host { KeepsHost w.old w.new }
    ensures pointed { entry.before + 4 ≤ entry.size →
        IsWithin w.old.bytes start (n * entry.size) →
        PointsAgain distance w.old.bytes w.new.bytes start entry.size entry.before n }
{
    for index in 0..n {
        point_cell_again(w, entry.value_at(start, index) as usize, distance);
    }
}

/// Corrects the pointers in the values of `n` entries.
fn point_values_again<A: Allocator>(
    w: &mut Window<A>,
    types: &TypeTable,
    entry: Entry,
    t: TypeId,
    start: u32,
    n: u32,
    distance: u32,
)
    ensures host { KeepsHost w.old w.new }
    ensures pointed { entry.before + size types.now t ≤ entry.size →
        IsWithin w.old.bytes start (n * entry.size) →
        ChangesEach (λ old new at form. IsFurther old new distance at form)
        w.old.bytes w.new.bytes types.now t start (n * entry.size)
        (map (λ p. p + entry.before) (spaced start entry.size n)) }
{
    if !types.has_pointers(t) {
        return;
    }
    for index in 0..n {
        let value = Place {
            at: entry.value_at(start, index),
            type_id: t,
        };
        point_again(w, types, value, distance);
    }
}

/// Corrects a pointer that was moved `distance` bytes further on.
fn point_cell_again<A: Allocator>(w: &mut Window<A>, pointer: usize, distance: u32)
    ensures { w.new ≡ with_bytes w.old
        (set_word w.old.bytes pointer (further distance (word w.old.bytes pointer))) }
{
    let old = w.get32(pointer);
    let new = if old == NULL {
        NULL
    } else {
        old.wrapping_add(distance)
    };
    w.put32(pointer, new);
}
