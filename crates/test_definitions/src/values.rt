//! Lemmas about values and places.

ghost use Rattle.std.specs.Prelude.{◌≡◌, ℕ, ◌+◌, ◌<◌, List, [], ◌++◌, length, Some, All};
ghost use Rattle.seg_spec.specs.Cells.{EachCell, IsMoved};
ghost use Rattle.std.specs.List.{AllByRecursion};
ghost use Rattle.seg_spec.specs.Bytes.{IsSame};
ghost use Rattle.seg_spec.specs.Types.{Table, IsTable, size};
ghost use Rattle.seg_spec.specs.Value.{Value, Has, default_of, Selector, value_at};
ghost use Rattle.seg_spec.specs.Block.{KeepsBlock};
ghost use Rattle.seg_spec.specs.Reads.{Place, Holds, Leads, LeadsToValue};
ghost use Rattle.seg_spec.specs.Parts.{Persists};
ghost use Rattle.seg_spec.specs.Fresh.{IsFresh};
ghost use Rattle.seg_spec.specs.Apart.{ComesApart};

/// A place contains at most one value, and owns one list of blocks.
pub fn one_value()
    ensures { (bytes : List ℕ) (table : Table) (place : Place) (v w : Value) (xs ys : List ℕ) →
        Holds bytes table place v xs → Holds bytes table place w ys → (v ≡ w) × (xs ≡ ys) }
{}

/// If a place and its blocks are kept, it contains the same value.
pub fn same_value()
    ensures { (old new : List ℕ) (table : Table) (place : Place) (v : Value) (blocks : List ℕ) →
        IsTable table → IsSame old new place.at (size table place.type) →
        AllByRecursion (KeepsBlock old new) blocks →
        Holds old table place v blocks → Holds new table place v blocks }
{}

/// A value that persists is still contained, in the same blocks. What persists through one call and then through another
/// persists through both.
pub fn persisting()
    ensures contained { (old new : List ℕ) (table : Table) (before after : Place) (v : Value)
        (blocks : List ℕ) → Holds old table before v blocks →
        Persists old new table before after → Holds new table after v blocks }
    ensures through { (old mid new : List ℕ) (table : Table) (before between after : Place) →
        Persists old mid table before between → Persists mid new table between after →
        Persists old new table before after }
{}

/// If a place inside a value gets another value, and everything around the place is kept, the whole value changes by that one
/// alone.
pub fn changing()
    ensures { (bytes : List ℕ) (table : Table) (place inner : Place) (path : List Selector)
        (v : Value) (blocks : List ℕ) →
        IsTable table → Leads bytes table place path inner → Holds bytes table place v blocks →
        ComesApart bytes table place path inner v blocks }
{}

/// If a value has a part at a path, the path refers to a place that contains the part. Two paths, the second of which continues
/// from the end of the first, can be joined.
pub fn paths()
    ensures found { (bytes : List ℕ) (table : Table) (place : Place) (path : List Selector)
        (v inner : Value) (blocks : List ℕ) →
        Holds bytes table place v blocks → value_at v path ≡ Some inner →
        LeadsToValue bytes table place path inner }
    ensures joined { (bytes : List ℕ) (table : Table) (place middle inner : Place)
        (path more : List Selector) →
        Leads bytes table place path middle → Leads bytes table middle more inner →
        Leads bytes table place (path ++ more) inner }
{}

/// If a place and its blocks are kept, each path from it refers to the same place as before.
pub fn same_paths()
    ensures { (old new : List ℕ) (table : Table) (place inner : Place) (path : List Selector)
        (v : Value) (blocks : List ℕ) →
        IsTable table → IsSame old new place.at (size table place.type) →
        AllByRecursion (KeepsBlock old new) blocks →
        Holds old table place v blocks → Leads old table place path inner →
        Leads new table place path inner }
{}

/// A place whose cells are 0 or null contains the default value of its type.
pub fn defaulting()
    ensures { (bytes : List ℕ) (table : Table) (place : Place) →
        IsTable table → place.type < length table → IsFresh bytes table place →
        Holds bytes table place (default_of table place.type) [] }
{}

/// The value in a place fits the place's type.
pub fn fitting()
    ensures { (bytes : List ℕ) (table : Table) (place : Place) (v : Value) (blocks : List ℕ) →
        All (λ b. b < 256) bytes → Holds bytes table place v blocks → Has table place.type v }
{}

/// A value stays the same if types are added to the table.
pub fn more_types()
    ensures { (bytes : List ℕ) (old more : Table) (place : Place) (v : Value) (blocks : List ℕ) →
        IsTable old → Holds bytes old place v blocks → Holds bytes (old ++ more) place v blocks }
{}

/// If the cells of a value move and still point to the same blocks, which are kept, the value is the same at its new place.
pub fn moving()
    ensures { (old new : List ℕ) (table : Table) (place : Place) (to : ℕ) (v : Value)
        (blocks : List ℕ) →
        IsTable table → Holds old table place v blocks →
        EachCell table place.type (λ d form. IsMoved old new (place.at + d) (to + d) form) →
        AllByRecursion (KeepsBlock old new) blocks →
        Holds new table (record { at = to; type = place.type }) v blocks }
{}
