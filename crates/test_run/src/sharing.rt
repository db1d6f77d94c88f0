//! What a run's outcome implies for shared objects.

ghost use Rattle.std.specs.Prelude.{◌≡◌, ◌≢◌, ℕ, ◌-◌, ◌/◌, ◌<◌, ◌≤◌, List, [], ◌∷◌, ◌++◌, length};
ghost use Rattle.std.specs.List.{AllByRecursion};
ghost use Rattle.seg_spec.specs.Bytes.{word};
ghost use Rattle.seg_spec.specs.Header.{version_word, next_word, sharing_version};
ghost use Rattle.seg_spec.specs.Value.{Value, Full};
ghost use Rattle.seg_spec.specs.Heap.{heap_start, span, live, gaps};
ghost use Rattle.seg_spec.specs.Block.{block_of};
ghost use Rattle.seg_spec.specs.Reads.{Place};
ghost use Rattle.seg_spec.specs.Index.{Root, ListsNames};
ghost use Rattle.seg_spec.specs.Frozen.{blocks_by};
ghost use Rattle.seg_spec.specs.Shared.{names_in, times_named, IsBelow, meaning, raised_by, freed};
ghost use Rattle.seg_spec.specs.Sound.{Picture, HoldsRoots, IsHeld, times, positions, SameBlocks};
ghost use Rattle.seg_spec.specs.Destroying.{HoldFrozen};
ghost use Rattle.seg_spec.specs.Counting.{owners_in, AreCounted, FrozenGone};
ghost use Rattle.seg_spec.specs.Images.{upgraded};
ghost use Rattle.client_spec.specs.Syntax.{Constant, Instruction, Client};
ghost use Rattle.client_spec.specs.Machine.{State};
ghost use Rattle.client_spec.specs.Answer.{success};
ghost use Rattle.client_spec.specs.Trees.{AreTrees};
ghost use Rattle.client_spec.specs.Pictures.{HasObjects, Pictures};
ghost use Rattle.client_spec.specs.Asks.{WithFrozen, Returns, Renames};
ghost use Rattle.client_spec.specs.OnImages.{Move, Situation, RowOn, Given, Left, RunsClient};
ghost use Rattle.test_run.specs.Saved.{OfSaved, all_cells};

/// The saved image is sound, whatever the image, the clients, their input, the place and the moves are. Each frozen object in it
/// counts the cells that share it, at least one. The object's number is below the image's next number, and above the numbers of
/// the objects that it shares. So cells form no cycles, and each cell has one tree. Each frozen object has a cell. Each allocated
/// block belongs to the index, an owner or a frozen object. Without named and unique objects no block is allocated.
pub fn shared_objects()
    ensures counts { OfSaved (λ saved sound. AllByRecursion (λ f.
        (1 ≤ f.count) × (f.count ≡ times_named f.at (all_cells sound.picture)))
        sound.picture.frozen) }
    ensures numbers { OfSaved (λ saved sound. AllByRecursion (λ f.
        (f.number < word saved next_word) ×
        AllByRecursion (IsBelow f.number sound.picture.frozen) (names_in f.value))
        sound.picture.frozen) }
    ensures trees { OfSaved (λ saved sound. AllByRecursion (λ cell. (tree : Value) ×
        ((n : ℕ) → word saved next_word ≤ n →
        meaning n sound.picture.frozen cell.at ≡ Full tree))
        (all_cells sound.picture)) }
    ensures unnamed { OfSaved (λ saved sound. (at : ℕ) →
        times_named at (all_cells sound.picture) ≡ 0 →
        AllByRecursion (λ f. f.at ≢ at) sound.picture.frozen) }
    ensures blocks { OfSaved (λ saved sound.
        (index own : List ℕ) × (theirs : ℕ → List ℕ) ×
        ListsNames saved sound.picture.names index ×
        HoldsRoots saved sound.picture.table (owners_in sound.picture) own ×
        HoldFrozen saved sound.picture.table theirs sound.picture.frozen ×
        SameBlocks (positions (live saved))
        (index ++ (own ++ blocks_by theirs sound.picture.frozen))) }
    ensures nothing { OfSaved (λ saved sound. sound.picture.names ≡ [] →
        sound.picture.uniques ≡ [] → (live saved ≡ []) ×
        (gaps saved ≡ span heap_start ((length saved - heap_start) / 16) ∷ [])) }
{}

/// A client begins on the trees of the image's objects, and ends on the trees of the image that it leaves. These trees contain no
/// positions.
pub fn runs_of_trees()
    ensures objects { (client : Client) (given : Given) (left : Left) →
        (runs : RunsClient client given left) →
        HasObjects (word given.image next_word) runs.is_first.picture runs.first.state ×
        HasObjects (word left.image next_word) runs.is_left.picture runs.last.state }
    ensures trees { (client : Client) (given : Given) (left : Left) →
        (runs : RunsClient client given left) →
        AreTrees runs.first.state × AreTrees runs.last.state }
{}

/// The blocks that a row frees aren't allocated after it. If a row destroys all cells of a frozen object, it frees the object's
/// block, and the blocks of the objects that only this object shared. SHARE first counts the new cell, so an object that both
/// cells share isn't freed. No picture has a frozen object without a cell.
pub fn rows_with_shared_objects()
    ensures returned { (constants : List Constant) (others : List Root) (moves : List Move)
        (i : Instruction) (x y : Situation) →
        (row : RowOn constants others moves i x success y) →
        (gives : List ℕ) × Returns constants i row.before.pictured gives ×
        ((h : ℕ) → 1 ≤ times h gives → times h (positions (live y.image)) ≡ 0) }
    ensures in_the_row { (constants : List Constant) (others : List Root) (moves : List Move)
        (i : Instruction) (x y : Situation) →
        (row : RowOn constants others moves i x success y) →
        (gives : List ℕ) × Returns constants i row.before.pictured gives ×
        ((gone : List Place) (own : List ℕ) →
        WithFrozen constants i row.before.pictured gone own gives →
        AllByRecursion (λ f. f.count ≤ times_named f.at gone →
        times (block_of f.at) (positions (live y.image)) ≡ 0)
        row.before.pictured.picture.frozen) }
    ensures last_cell { (bytes : List ℕ) (picture : Picture) (gone : List Place)
        (blocks : List ℕ) →
        FrozenGone bytes picture gone blocks →
        AllByRecursion (λ f. f.count ≤ times_named f.at gone → 1 ≤ times (block_of f.at) blocks)
        picture.frozen }
    ensures with_it { (bytes : List ℕ) (picture : Picture) (gone : List Place)
        (blocks : List ℕ) →
        FrozenGone bytes picture gone blocks →
        AllByRecursion (λ f. 1 ≤ times (block_of f.at) blocks) (freed gone picture.frozen) }
    ensures shared { (constants : List Constant) (i : Instruction) (others : List Root) (s : State)
        (bytes : List ℕ) (pictured : Pictures others s bytes) (place : Place) (gives : List ℕ) →
        (renames : Renames constants i pictured place gives) →
        AllByRecursion (λ f. 1 ≤ times (block_of f.at) gives) (freed (names_in renames.value)
        (raised_by (names_in renames.other) pictured.picture.frozen)) }
    ensures unnamed { (others : List Root) (s : State) (bytes : List ℕ) (at : ℕ) →
        (pictured : Pictures others s bytes) →
        times_named at (all_cells pictured.picture) ≡ 0 →
        AllByRecursion (λ f. f.at ≢ at) pictured.picture.frozen }
{}

/// An opened image is of version 2, and has the same picture and the same allocated blocks. An image of version 1 has no frozen
/// objects.
pub fn upgraded_images()
    ensures picture { (image : List ℕ) (picture : Picture) → IsHeld image picture →
        IsHeld (upgraded image) picture }
    ensures counts { (image : List ℕ) (picture : Picture) →
        AreCounted (word image next_word) picture →
        AreCounted (word (upgraded image) next_word) picture }
    ensures version { (image : List ℕ) (picture : Picture) → IsHeld image picture →
        word (upgraded image) version_word ≡ sharing_version }
    ensures blocks { (image : List ℕ) (picture : Picture) → IsHeld image picture →
        live (upgraded image) ≡ live image }
    ensures first_version { (image : List ℕ) (picture : Picture) → IsHeld image picture →
        AreCounted (word image next_word) picture → word image version_word ≡ 1 →
        picture.frozen ≡ [] }
{}
