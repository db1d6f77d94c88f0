//! States as clients see them: a shared cell has a copy of its object, where the image has the object's position.

ghost use Rattle.std.specs.Prelude.{◌≡◌, ◌⊎◌, ℕ, List, Bool, Some};
ghost use Rattle.std.specs.List.{AllByRecursion};
ghost use Rattle.seg_spec.specs.Types.{Table};
ghost use Rattle.seg_spec.specs.Value.{Value, Empty, Full};
ghost use Rattle.seg_spec.specs.Shared.{names_in, replaced};
ghost use Rattle.client_spec.specs.Syntax.{Constant, Instruction};
ghost use Rattle.client_spec.specs.Machine.{State};
ghost use Rattle.client_spec.specs.Answer.{Answer};
ghost use Rattle.client_spec.specs.Effect.{outcome};
ghost use Rattle.client_spec.specs.Shape.{HasShape};
ghost use Rattle.client_spec.specs.Trees.{Unfolds, AreTrees};

/// An instruction with a row from a state with positions has the same row from the state's trees, whatever the positions mean. A
/// row from trees gives trees.
pub fn rows_of_trees()
    ensures same { (meaning : ℕ → Value) (constants : List Constant) (i : Instruction)
        (room : Bool) (plain s plain' : State) (answer : Answer) →
        Unfolds meaning plain s → outcome constants i room plain ≡ Some (answer, plain') →
        (s' : State) × (outcome constants i room s ≡ Some (answer, s')) ×
        Unfolds meaning plain' s' }
    ensures stay { (constants : List Constant) (i : Instruction) (room : Bool) (s s' : State)
        (answer : Answer) →
        AreTrees s → outcome constants i room s ≡ Some (answer, s') → AreTrees s' }
{}

/// A value with the shape of a type still has it after each position in it is replaced by nothing, or by an object of the type of
/// that position.
pub fn shapes_of_trees()
    ensures { (meaning : ℕ → Value) (types : Table) (T : ℕ) (v : Value) →
        HasShape types T v → AllByRecursion (λ q. (meaning q.at ≡ Empty) ⊎
        ((u : Value) × (meaning q.at ≡ Full u) × HasShape types q.type u)) (names_in v) →
        HasShape types T (replaced meaning v) }
{}
