//! Lemmas about objects that values share.

ghost use Rattle.std.specs.Prelude.{◌≡◌, ◌≢◌, ℕ, suc, ◌+◌, ◌≤◌, List, [], ◌∷◌, ◌++◌, length, map};
ghost use Rattle.std.specs.List.{AllByRecursion};
ghost use Rattle.seg_spec.specs.Value.{Value};
ghost use Rattle.seg_spec.specs.Reads.{Place};
ghost use Rattle.seg_spec.specs.Sound.{times};
ghost use Rattle.seg_spec.specs.Frozen.{Frozen};
ghost use Rattle.seg_spec.specs.Shared.{names_in, names_of, times_named, IsBelow, IsCounted, IsFalling, meaning, unfolded, raised, left, freed};
ghost use Rattle.seg_spec.specs.Releasing.{Releases};

/// If an object becomes frozen, with the next number, and one cell shares it, the objects are still counted.
pub fn freezing()
    ensures { (next at type : ℕ) (v : Value) (frozen : List Frozen) (kept : List Place) →
        AllByRecursion (λ f. f.at ≢ at) frozen → IsCounted next frozen (names_in v ++ kept) →
        IsCounted (suc next)
        (record { at = at; type = type; number = next; count = 1; value = v } ∷ frozen)
        (record { at = at; type = type } ∷ kept) }
{}

/// If one more cell shares an object, the object's count rises by one.
pub fn sharing()
    ensures { (next : ℕ) (frozen : List Frozen) (cells : List Place) (cell : Place) →
        IsCounted next frozen cells → IsBelow next frozen cell →
        IsCounted next (raised cell.at frozen) (cell ∷ cells) }
{}

/// After cells are destroyed, each remaining object counts the remaining cells, and no remaining cell shares a freed object. Each
/// object either remains or is freed.
pub fn releasing()
    ensures left { (next : ℕ) (gone kept : List Place) (frozen : List Frozen) →
        IsFalling frozen → IsCounted next frozen (gone ++ kept) →
        IsCounted next (left gone frozen) kept }
    ensures freed { (next : ℕ) (gone kept : List Place) (frozen : List Frozen) →
        IsFalling frozen → IsCounted next frozen (gone ++ kept) →
        AllByRecursion (λ f. times_named f.at kept
        + times_named f.at (names_of (left gone frozen)) ≡ 0) (freed gone frozen) }
    ensures all { (at : ℕ) (gone : List Place) (frozen : List Frozen) →
        times at (map (λ f. f.at) (left gone frozen))
        + times at (map (λ f. f.at) (freed gone frozen))
        ≡ times at (map (λ f. f.at) frozen) }
{}

/// Cells are released one by one, in any order. After each turn the objects count the cells that are kept or still to be
/// released, and in the end the same objects remain. Each turn releases one cell, which was destroyed or is in a freed object. So
/// the number of turns is known, and each release can be completed.
pub fn releasing_in_turns()
    ensures counted { (next turns : ℕ) (gone kept pending : List Place)
        (frozen now : List Frozen) →
        IsFalling frozen → IsCounted next frozen (gone ++ kept) →
        Releases gone frozen turns pending now →
        IsFalling now × IsCounted next now (pending ++ kept) }
    ensures order { (next turns : ℕ) (gone kept : List Place) (frozen result : List Frozen) →
        IsFalling frozen → IsCounted next frozen (gone ++ kept) →
        Releases gone frozen turns [] result → result ≡ left gone frozen }
    ensures turns { (turns : ℕ) (gone pending : List Place) (frozen now : List Frozen) →
        Releases gone frozen turns pending now →
        turns + length pending + length (names_of now) ≡ length gone + length (names_of frozen) }
    ensures ends { (gone : List Place) (frozen : List Frozen) →
        (turns : ℕ) × (result : List Frozen) × Releases gone frozen turns [] result }
{}

/// Along shared cells the numbers of objects fall, so there are no cycles, and a deeper reading gives a cell the same copy.
/// Destroying other cells doesn't change the copies of the cells that remain.
pub fn reading()
    ensures deep { (next n m : ℕ) (frozen : List Frozen) (cells : List Place) (cell : Place) →
        IsCounted next frozen cells → IsBelow n frozen cell → n ≤ m →
        meaning n frozen cell.at ≡ meaning m frozen cell.at }
    ensures kept { (next : ℕ) (gone kept : List Place) (frozen : List Frozen) (v : Value) →
        IsFalling frozen → IsCounted next frozen (gone ++ kept) →
        AllByRecursion (IsBelow next (left gone frozen)) (names_in v) →
        unfolded next (left gone frozen) v ≡ unfolded next frozen v }
{}
