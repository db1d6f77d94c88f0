//! The rows of FREEZE and SHARE on a small image.

ghost use Rattle.std.specs.Prelude.{◌≡◌, ℕ, List, [], ◌∷◌, codes, pos, Some, None};
ghost use Rattle.seg_spec.specs.Value.{Int, Empty, nil, cons, Selector, value_at};
ghost use Rattle.seg_spec.specs.Index.{plain_root};
ghost use Rattle.seg_spec.specs.Demand.{units_for};
ghost use Rattle.seg_spec.specs.Fixtures.{sharing_table, sharing_cell, sharing_picture};
ghost use Rattle.client_spec.specs.declared.table.Operation.{Operation};
ghost use Rattle.client_spec.specs.Machine.{Origin, Register, State};
ghost use Rattle.client_spec.specs.Answer.{path_from};
ghost use Rattle.client_spec.specs.Pictures.{Pictures, value_through};
ghost use Rattle.client_spec.specs.Asks.{Asks, Returns};
ghost use Rattle.client_spec.specs.Fixtures.{at};

/// A path through a shared cell refers to the value of the cell's object, which is the number 41, and doesn't continue from
/// there. It refers to nothing if there is no object at the position, or if only the cell's own parts count.
pub fn through_a_shared_cell()
    ensures itself { value_through sharing_picture.frozen sharing_cell [] ≡ Some sharing_cell }
    ensures content { value_through sharing_picture.frozen sharing_cell
        (Selector.content ∷ []) ≡ Some (Int (pos 41)) }
    ensures further { value_through sharing_picture.frozen sharing_cell
        (Selector.content ∷ Selector.content ∷ []) ≡ None }
    ensures no_object { value_through [] sharing_cell (Selector.content ∷ []) ≡ None }
    ensures empty { value_through sharing_picture.frozen Empty (Selector.content ∷ []) ≡ None }
    ensures inside { value_at sharing_cell (Selector.content ∷ []) ≡ None }
{}

/// The first of two cells shares the frozen number 41, and the second is empty. Registers 1 and 2 refer to the cells, and
/// register 3 owns the number 9. FREEZE of the 9 requests one block of 2 units. It frees the block of the 9 at 832; into the
/// first cell it also frees the block at 800, since then no cell shares the 41. SHARE frees that block if the first cell becomes
/// like the second, and nothing the other way round.
pub fn rows_of_shared_cells()
    ensures { (image : List ℕ) × (s : State) × (pictured : Pictures [] s image) ×
        (pictured.picture ≡ record {
          table = sharing_table;
          names = plain_root (codes "p") 720 1 (cons sharing_cell (cons Empty nil)) ∷ [];
          uniques = [];
          loose = plain_root [] 848 0 (cons (Int (pos 9)) nil) ∷ [];
          frozen = record { at = 816; type = 0; number = 0; count = 1; value = Int (pos 41) } ∷ [];
        }) ×
        (s.registers ≡ Register.Undefined
        ∷ Register.Reference (path_from (Origin.Name (codes "p") 0))
        ∷ Register.Reference (path_from (Origin.Name (codes "p") 1))
        ∷ Register.Owner (Int (pos 9)) 0 ∷ []) ×
        Asks [] (at Operation.Freeze 0 1 3 (pos 0)) pictured (units_for 2 ∷ []) ×
        (Asks [] (at Operation.Freeze 0 1 3 (pos 0)) pictured [] → ⊥) ×
        Returns [] (at Operation.Freeze 0 1 3 (pos 0)) pictured (832 ∷ 800 ∷ []) ×
        (Returns [] (at Operation.Freeze 0 1 3 (pos 0)) pictured (832 ∷ []) → ⊥) ×
        Returns [] (at Operation.Freeze 0 2 3 (pos 0)) pictured (832 ∷ []) ×
        (Returns [] (at Operation.Freeze 0 2 3 (pos 0)) pictured (832 ∷ 800 ∷ []) → ⊥) ×
        Returns [] (at Operation.Share 0 1 2 (pos 0)) pictured (800 ∷ []) ×
        (Returns [] (at Operation.Share 0 1 2 (pos 0)) pictured [] → ⊥) ×
        Returns [] (at Operation.Share 0 2 1 (pos 0)) pictured [] ×
        (Returns [] (at Operation.Share 0 2 1 (pos 0)) pictured (800 ∷ []) → ⊥) }
{}
