//! Each operation on a small state, worked out by hand from the instruction table: x is a named object, register 1 refers to it,
//! register 2 is a number, and register 3 owns the number 9.

ghost use Rattle.std.specs.Prelude.{◌≡◌, ◌^◌, ◌-◌, pos, negsuc, [], ◌∷◌, codes, true, false, Some, None};
ghost use Rattle.seg_spec.specs.Value.{Int, Text, Seq, Map, Empty, Full, Struct, nil, cons, Selector};
ghost use Rattle.client_spec.specs.declared.table.Operation.{Operation};
ghost use Rattle.client_spec.specs.Machine.{Origin, Register, extend};
ghost use Rattle.client_spec.specs.Answer.{success, is_zero, already_exists, bad_alloc, absent, other_type, out_of_range, null_or_none, path_from};
ghost use Rattle.client_spec.specs.Fixtures.{x, y, no_names, with_items, holding, with_shared_cells, with_numbers, two_items, two_fields, row, register_after, value_after, output_after, input_after};

/// Numbers: constants, copies, sums that wrap at 64 bits, and comparisons. A register that owns an object is not overwritten.
#[tactic(auto, unfolding(client_spec::specs::Effect::effect, seg_spec::specs::Value::default_of))]
pub fn numbers()
    ensures constant { register_after 0
        (row Operation.Const 0 0 0 (negsuc 2) true (holding 0 (Int (pos 5)) (pos 3)))
        ≡ Some (success, Register.Int (negsuc 2)) }
    ensures over_an_owner { row Operation.Const 3 0 0 (pos 1) true (holding 0 (Int (pos 5)) (pos 3))
        ≡ None }
    ensures copy { register_after 0 (row Operation.Mov 0 2 0 (pos 0) true
        (holding 0 (Int (pos 5)) (pos 3))) ≡ Some (success, Register.Int (pos 3)) }
    ensures copy_of_a_reference { register_after 0
        (row Operation.Mov 0 1 0 (pos 0) true (holding 0 (Int (pos 5)) (pos 3)))
        ≡ Some (success, Register.Reference x) }
    ensures no_copy_of_a_stale_reference { row Operation.Mov 0 1 0 (pos 0) true
        (record (holding 0 (Int (pos 5)) (pos 3)) { names = no_names })
        ≡ None }
    ensures no_copy_of_an_owner { row Operation.Mov 0 3 0 (pos 0) true
        (holding 0 (Int (pos 5)) (pos 3)) ≡ None }
    ensures sum { register_after 0 (row Operation.Add 0 2 2 (pos 0) true
        (holding 0 (Int (pos 5)) (pos 3))) ≡ Some (success, Register.Int (pos 6)) }
    ensures sum_wraps { register_after 0
        (row Operation.Add 0 2 2 (pos 0) true (holding 0 (Int (pos 5)) (pos (2 ^ 62))))
        ≡ Some (success, Register.Int (negsuc (2 ^ 63 - 1))) }
    ensures difference_of_two { register_after 0
        (row Operation.Sub 0 0 1 (pos 0) true (with_numbers (pos 5) (pos 3)))
        ≡ Some (success, Register.Int (pos 2)) }
    ensures difference_below_zero { register_after 0
        (row Operation.Sub 0 1 0 (pos 0) true (with_numbers (pos 5) (pos 3)))
        ≡ Some (success, Register.Int (negsuc 1)) }
    ensures difference { register_after 2
        (row Operation.Sub 2 2 2 (pos 0) true (holding 0 (Int (pos 5)) (pos 3)))
        ≡ Some (success, Register.Int (pos 0)) }
    ensures product { register_after 0
        (row Operation.Mul 0 2 2 (pos 0) true (holding 0 (Int (pos 5)) (pos 3)))
        ≡ Some (success, Register.Int (pos 9)) }
    ensures less { register_after 0 (row Operation.Less 0 0 1 (pos 0) true
        (with_numbers (pos 3) (pos 5)))
        ≡ Some (success, Register.Int (pos 1)) }
    ensures larger { register_after 0
        (row Operation.Less 0 0 1 (pos 0) true (with_numbers (pos 5) (pos 3)))
        ≡ Some (success, Register.Int (pos 0)) }
    ensures not_less { register_after 0
        (row Operation.Less 0 2 2 (pos 0) true (holding 0 (Int (pos 5)) (pos 3)))
        ≡ Some (success, Register.Int (pos 0)) }
    ensures equal { register_after 0
        (row Operation.Equal 0 2 2 (pos 0) true (holding 0 (Int (pos 5)) (pos 3)))
        ≡ Some (success, Register.Int (pos 1)) }
    ensures not_equal { register_after 0
        (row Operation.Equal 0 0 1 (pos 0) true (with_numbers (pos 3) (pos 5)))
        ≡ Some (success, Register.Int (pos 0)) }
    ensures no_number { row Operation.Add 0 1 2 (pos 0) true (holding 0 (Int (pos 5)) (pos 3))
        ≡ None }
    ensures is_not_zero { register_after 2
        (row Operation.If 0 2 0 (pos 0) true (holding 0 (Int (pos 5)) (pos 3)))
        ≡ Some (success, Register.Int (pos 3)) }
    ensures is_zero { register_after 2
        (row Operation.If 0 2 0 (pos 0) true (holding 0 (Int (pos 5)) (pos 0)))
        ≡ Some (is_zero, Register.Int (pos 0)) }
{}

/// Output is appended, and an input byte is taken.
#[tactic(auto, unfolding(client_spec::specs::Effect::effect, seg_spec::specs::Value::default_of))]
pub fn output_and_input()
    ensures number { output_after (row Operation.OutInt 0 2 0 (pos 0) true
        (holding 0 (Int (pos 5)) (negsuc 41))) ≡ Some (success, codes "=-42\n") }
    ensures text { output_after (row Operation.OutStr 0 1 0 (pos 0) true
        (holding 1 (Text (codes "abc")) (pos 1))) ≡ Some (success, codes "=abc") }
    ensures no_text { row Operation.OutStr 0 1 0 (pos 0) true (holding 0 (Int (pos 5)) (pos 3))
        ≡ None }
    ensures constant { output_after (row Operation.OutConst 0 0 0 (pos 3) true
        (holding 0 (Int (pos 5)) (pos 3))) ≡ Some (success, codes "=hi") }
    ensures no_constant_text { row Operation.OutConst 0 0 0 (pos 0) true
        (holding 0 (Int (pos 5)) (pos 3)) ≡ None }
    ensures byte { register_after 0 (row Operation.GetByte 0 0 0 (pos 0) true
        (holding 0 (Int (pos 5)) (pos 3))) ≡ Some (success, Register.Int (pos 65)) }
    ensures byte_is_taken { input_after
        (row Operation.GetByte 0 0 0 (pos 0) true (holding 0 (Int (pos 5)) (pos 3)))
        ≡ Some (success, []) }
    ensures no_byte { register_after 0
        (row Operation.GetByte 0 0 0 (pos 0) true
        (record (holding 0 (Int (pos 5)) (pos 3)) { input = [] }))
        ≡ Some (null_or_none, Register.Int (pos 6)) }
{}

/// A constant spells a name alone, or as a family's prefix with the number in a register. The number of an instruction is `256 *
/// type + constant`.
#[tactic(auto, unfolding(client_spec::specs::Effect::effect, seg_spec::specs::Value::default_of))]
pub fn named_objects()
    ensures make { register_after 0 (row Operation.Make 0 16 16 (pos 1) true
        (with_items 0 (cons (Int (pos 5)) (cons (Int (pos 8)) nil)) (pos 1)))
        ≡ Some (success, Register.Reference (path_from (Origin.Name (codes "y") 0))) }
    ensures make_default { value_after (path_from (Origin.Name (codes "y") 0))
        (row Operation.Make 0 16 16 (pos 1) true
        (with_items 0 (cons (Int (pos 5)) (cons (Int (pos 8)) nil)) (pos 1)))
        ≡ Some (success, Some (Int (pos 0))) }
    ensures make_many { value_after (path_from (Origin.Name (codes "y") 1))
        (row Operation.Make 0 16 2 (pos 257) true (with_items 0 (cons (Int (pos 5)) nil) (pos 2)))
        ≡ Some (success, Some (Text [])) }
    ensures make_in_a_family { value_after (path_from (Origin.Name (codes "p#1") 0))
        (row Operation.Make 0 2 16 (pos 2) true
        (with_items 0 (cons (Int (pos 5)) (cons (Int (pos 8)) nil)) (pos 1)))
        ≡ Some (success, Some (Int (pos 0))) }
    ensures make_in_a_family_below_zero { value_after (path_from (Origin.Name (codes "p#-7") 0))
        (row Operation.Make 0 2 16 (pos 2) true
        (with_items 0 (cons (Int (pos 5)) (cons (Int (pos 8)) nil)) (negsuc 6)))
        ≡ Some (success, Some (Int (pos 0))) }
    ensures make_none { register_after 0
        (row Operation.Make 0 16 2 (pos 1) true (holding 0 (Int (pos 5)) (pos 0)))
        ≡ Some (out_of_range, Register.Int (pos 5)) }
    ensures make_too_many_first { register_after 0
        (row Operation.Make 0 16 2 (pos 0) true (holding 0 (Int (pos 5)) (pos 65536)))
        ≡ Some (out_of_range, Register.Int (pos 5)) }
    ensures make_again { register_after 0
        (row Operation.Make 0 16 16 (pos 0) true
        (with_items 0 (cons (Int (pos 5)) (cons (Int (pos 8)) nil)) (pos 1)))
        ≡ Some (already_exists, Register.Int (pos 1)) }
    ensures make_without_room { register_after 0
        (row Operation.Make 0 16 16 (pos 1) false
        (with_items 0 (cons (Int (pos 5)) (cons (Int (pos 8)) nil)) (pos 1)))
        ≡ Some (bad_alloc, Register.Int (pos 2)) }
    ensures make_changes_nothing_then { value_after (path_from (Origin.Name (codes "y") 0))
        (row Operation.Make 0 16 16 (pos 1) false
        (with_items 0 (cons (Int (pos 5)) (cons (Int (pos 8)) nil)) (pos 1)))
        ≡ Some (bad_alloc, None) }
    ensures find { register_after 0 (row Operation.Find 0 16 2 (pos 0) true
        (with_items 0 (cons (Int (pos 5)) (cons (Int (pos 8)) nil)) (pos 1)))
        ≡ Some (success, Register.Reference (path_from (Origin.Name (codes "x") 1))) }
    ensures find_first { register_after 0
        (row Operation.Find 0 16 16 (pos 0) true
        (with_items 0 (cons (Int (pos 5)) (cons (Int (pos 8)) nil)) (pos 1)))
        ≡ Some (success, Register.Reference (path_from (Origin.Name (codes "x") 0))) }
    ensures find_absent { register_after 0
        (row Operation.Find 0 16 16 (pos 1) true
        (with_items 0 (cons (Int (pos 5)) (cons (Int (pos 8)) nil)) (pos 1)))
        ≡ Some (absent, Register.Int (pos 3)) }
    ensures find_other_type { register_after 0
        (row Operation.Find 0 16 2 (pos 256) true (with_items 0 nil (pos 7)))
        ≡ Some (other_type, Register.Int (pos 4)) }
    ensures find_out_of_range { register_after 0
        (row Operation.Find 0 16 2 (pos 0) true (holding 0 (Int (pos 5)) (pos 1)))
        ≡ Some (out_of_range, Register.Int (pos 5)) }
    ensures find_below_zero { register_after 0
        (row Operation.Find 0 16 2 (pos 0) true (holding 0 (Int (pos 5)) (negsuc 0)))
        ≡ Some (out_of_range, Register.Int (pos 5)) }
    ensures find_or_make_found { value_after x
        (row Operation.FindOrMake 0 16 0 (pos 0) false
        (with_items 0 (cons (Int (pos 5)) (cons (Int (pos 8)) nil)) (pos 1)))
        ≡ Some (success, Some (Int (pos 5))) }
    ensures find_or_make_made { value_after (path_from (Origin.Name (codes "y") 0))
        (row Operation.FindOrMake 0 16 0 (pos 1) true
        (with_items 0 (cons (Int (pos 5)) (cons (Int (pos 8)) nil)) (pos 1)))
        ≡ Some (success, Some (Int (pos 0))) }
    ensures find_or_make_other_type { register_after 0
        (row Operation.FindOrMake 0 16 0 (pos 256) true
        (with_items 0 (cons (Int (pos 5)) (cons (Int (pos 8)) nil)) (pos 1)))
        ≡ Some (other_type, Register.Int (pos 4)) }
    ensures find_or_make_without_room { register_after 0
        (row Operation.FindOrMake 0 16 0 (pos 1) false
        (with_items 0 (cons (Int (pos 5)) (cons (Int (pos 8)) nil)) (pos 1)))
        ≡ Some (bad_alloc, Register.Int (pos 2)) }
    ensures count { register_after 0
        (row Operation.Count 0 16 0 (pos 0) true
        (with_items 0 (cons (Int (pos 5)) (cons (Int (pos 8)) nil)) (pos 1)))
        ≡ Some (success, Register.Int (pos 2)) }
    ensures count_absent { register_after 0
        (row Operation.Count 0 16 0 (pos 1) true
        (with_items 0 (cons (Int (pos 5)) (cons (Int (pos 8)) nil)) (pos 1)))
        ≡ Some (absent, Register.Int (pos 3)) }
    ensures count_other_type { register_after 0
        (row Operation.Count 0 16 0 (pos 256) true
        (with_items 0 (cons (Int (pos 5)) (cons (Int (pos 8)) nil)) (pos 1)))
        ≡ Some (other_type, Register.Int (pos 4)) }
    ensures kill { register_after 0 (row Operation.Kill 0 16 0 (pos 0) true
        (with_items 0 (cons (Int (pos 5)) (cons (Int (pos 8)) nil)) (pos 1)))
        ≡ Some (success, Register.Int (pos 1)) }
    ensures kill_destroys { value_after x
        (row Operation.Kill 0 16 0 (pos 0) true
        (with_items 0 (cons (Int (pos 5)) (cons (Int (pos 8)) nil)) (pos 1)))
        ≡ Some (success, None) }
    ensures kill_absent { register_after 0
        (row Operation.Kill 0 16 0 (pos 1) true
        (with_items 0 (cons (Int (pos 5)) (cons (Int (pos 8)) nil)) (pos 1)))
        ≡ Some (success, Register.Int (pos 0)) }
    ensures kill_other_type { value_after x
        (row Operation.Kill 0 16 0 (pos 256) true
        (with_items 0 (cons (Int (pos 5)) (cons (Int (pos 8)) nil)) (pos 1)))
        ≡ Some (success, Some (Int (pos 5))) }
{}

/// The unique object of a type, and objects that registers own.
#[tactic(auto, unfolding(client_spec::specs::Effect::effect, seg_spec::specs::Value::default_of))]
pub fn unique_and_owned_objects()
    ensures make { value_after (path_from (Origin.Unique 1))
        (row Operation.MakeUnique 0 0 0 (pos 1) true (holding 0 (Int (pos 5)) (pos 3)))
        ≡ Some (success, Some (Text [])) }
    ensures make_again { register_after 0
        (row Operation.MakeUnique 0 0 0 (pos 0) true (holding 0 (Int (pos 5)) (pos 3)))
        ≡ Some (already_exists, Register.Int (pos 1)) }
    ensures make_without_room { register_after 0
        (row Operation.MakeUnique 0 0 0 (pos 1) false (holding 0 (Int (pos 5)) (pos 3)))
        ≡ Some (bad_alloc, Register.Int (pos 2)) }
    ensures find { register_after 0 (row Operation.FindUnique 0 0 0 (pos 0) true
        (holding 0 (Int (pos 5)) (pos 3)))
        ≡ Some (success, Register.Reference (path_from (Origin.Unique 0))) }
    ensures find_absent { register_after 0
        (row Operation.FindUnique 0 0 0 (pos 1) true (holding 0 (Int (pos 5)) (pos 3)))
        ≡ Some (absent, Register.Int (pos 3)) }
    ensures find_or_make_found { value_after (path_from (Origin.Unique 0))
        (row Operation.FindOrMakeUnique 0 0 0 (pos 0) false (holding 0 (Int (pos 5)) (pos 3)))
        ≡ Some (success, Some (Int (pos 6))) }
    ensures find_or_make_made { value_after (path_from (Origin.Unique 1))
        (row Operation.FindOrMakeUnique 0 0 0 (pos 1) true (holding 0 (Int (pos 5)) (pos 3)))
        ≡ Some (success, Some (Text [])) }
    ensures find_or_make_without_room { register_after 0
        (row Operation.FindOrMakeUnique 0 0 0 (pos 1) false (holding 0 (Int (pos 5)) (pos 3)))
        ≡ Some (bad_alloc, Register.Int (pos 2)) }
    ensures kill { value_after (path_from (Origin.Unique 0))
        (row Operation.KillUnique 0 0 0 (pos 0) true (holding 0 (Int (pos 5)) (pos 3)))
        ≡ Some (success, None) }
    ensures kill_answers { register_after 0
        (row Operation.KillUnique 0 0 0 (pos 0) true (holding 0 (Int (pos 5)) (pos 3)))
        ≡ Some (success, Register.Int (pos 1)) }
    ensures kill_absent { register_after 0
        (row Operation.KillUnique 0 0 0 (pos 1) true (holding 0 (Int (pos 5)) (pos 3)))
        ≡ Some (success, Register.Int (pos 0)) }
    ensures new { register_after 0 (row Operation.New 0 0 0 (pos 1) true
        (holding 0 (Int (pos 5)) (pos 3))) ≡ Some (success, Register.Owner (Text []) 1) }
    ensures new_without_room { register_after 0
        (row Operation.New 0 0 0 (pos 1) false (holding 0 (Int (pos 5)) (pos 3)))
        ≡ Some (bad_alloc, Register.Int (pos 2)) }
    ensures drop { register_after 3 (row Operation.Drop 0 3 0 (pos 0) true
        (holding 0 (Int (pos 5)) (pos 3))) ≡ Some (success, Register.Undefined) }
    ensures drop_no_owner { row Operation.Drop 0 2 0 (pos 0) true (holding 0 (Int (pos 5)) (pos 3))
        ≡ None }
    ensures reference { register_after 0
        (row Operation.Ref 0 3 0 (pos 0) true (holding 0 (Int (pos 5)) (pos 3)))
        ≡ Some (success, Register.Reference (path_from (Origin.Owned 3))) }
    ensures reference_over_its_owner { row Operation.Ref 3 3 0 (pos 0) true
        (holding 0 (Int (pos 5)) (pos 3)) ≡ None }
    ensures forget { register_after 2
        (row Operation.Forget 0 2 0 (pos 0) true (holding 0 (Int (pos 5)) (pos 3)))
        ≡ Some (success, Register.Undefined) }
    ensures forget_an_owner { row Operation.Forget 0 3 0 (pos 0) true
        (holding 0 (Int (pos 5)) (pos 3)) ≡ None }
{}

/// Owners, numbers and structs.
#[tactic(auto, unfolding(client_spec::specs::Effect::effect, seg_spec::specs::Value::default_of))]
pub fn values()
    ensures put { value_after x (row Operation.Put 0 1 3 (pos 0) true (holding 6 Empty (pos 0)))
        ≡ Some (success, Some (Full (Int (pos 9)))) }
    ensures put_over_another { value_after x
        (row Operation.Put 0 1 3 (pos 0) true (holding 6 (Full (Int (pos 4))) (pos 0)))
        ≡ Some (success, Some (Full (Int (pos 9)))) }
    ensures put_empties { register_after 3
        (row Operation.Put 0 1 3 (pos 0) true (holding 6 Empty (pos 0)))
        ≡ Some (success, Register.Undefined) }
    ensures put_into_no_owner { row Operation.Put 0 1 3 (pos 0) true
        (holding 0 (Int (pos 5)) (pos 3)) ≡ None }
    ensures put_into_itself { row Operation.Put 0 0 3 (pos 0) true
        (record (holding 6 Empty (pos 0)) {
          registers = Register.Reference
              (path_from (Origin.Owned 3)) ∷ Register.Undefined ∷ Register.Undefined
              ∷ Register.Owner Empty 6 ∷ [];
        }) ≡ None }
    ensures take { register_after 0 (row Operation.Take 0 1 0 (pos 0) true
        (holding 6 (Full (Int (pos 4))) (pos 0))) ≡ Some (success, Register.Owner (Int (pos 4)) 0) }
    ensures take_leaves_none { value_after x
        (row Operation.Take 0 1 0 (pos 0) true (holding 6 (Full (Int (pos 4))) (pos 0)))
        ≡ Some (success, Some Empty) }
    ensures take_none { register_after 0
        (row Operation.Take 0 1 0 (pos 0) true (holding 6 Empty (pos 0)))
        ≡ Some (null_or_none, Register.Int (pos 6)) }
    ensures content { register_after 0
        (row Operation.Content 0 1 0 (pos 0) true (holding 6 (Full (Int (pos 4))) (pos 0)))
        ≡ Some (success, Register.Reference (extend x (Selector.content))) }
    ensures content_of_none { register_after 0
        (row Operation.Content 0 1 0 (pos 0) true (holding 6 Empty (pos 0)))
        ≡ Some (null_or_none, Register.Int (pos 6)) }
    ensures clear { value_after x (row Operation.Clear 0 1 0 (pos 0) true
        (holding 6 (Full (Int (pos 4))) (pos 0))) ≡ Some (success, Some Empty) }
    ensures clear_a_struct { value_after x
        (row Operation.Clear 0 1 0 (pos 0) true
        (holding 7 two_fields (pos 0)))
        ≡ Some (success, Some (Struct (cons (Int (pos 0)) (cons (Text []) nil)))) }
    ensures load { register_after 0 (row Operation.Load 0 1 0 (pos 0) true
        (holding 0 (Int (pos 5)) (pos 3))) ≡ Some (success, Register.Int (pos 5)) }
    ensures load_no_number { row Operation.Load 0 1 0 (pos 0) true (holding 6 Empty (pos 0))
        ≡ None }
    ensures store { value_after x (row Operation.Store 0 1 2 (pos 0) true
        (holding 0 (Int (pos 5)) (pos 3))) ≡ Some (success, Some (Int (pos 3))) }
    ensures field { register_after 0
        (row Operation.Field 0 1 0 (pos 1) true
        (holding 7 two_fields (pos 0)))
        ≡ Some (success, Register.Reference (extend x (Selector.field 1))) }
    ensures no_field { row Operation.Field 0 1 0 (pos 2) true
        (holding 7 two_fields (pos 0)) ≡ None }
{}

/// Vectors and lists. POP works on texts too.
#[tactic(auto, unfolding(client_spec::specs::Effect::effect, seg_spec::specs::Value::default_of))]
pub fn sequences()
    ensures length { register_after 0
        (row Operation.Len 0 1 0 (pos 0) true
        (holding 2 two_items (pos 1)))
        ≡ Some (success, Register.Int (pos 2)) }
    ensures at { register_after 0 (row Operation.At 0 1 2 (pos 0) true
        (holding 2 two_items (pos 1)))
        ≡ Some (success, Register.Reference (extend x (Selector.item 1))) }
    ensures at_the_end { register_after 0
        (row Operation.At 0 1 2 (pos 0) true
        (holding 2 two_items (pos 2)))
        ≡ Some (out_of_range, Register.Int (pos 5)) }
    ensures push { value_after x (row Operation.PushBack 0 1 0 (pos 0) true
        (holding 2 two_items (pos 1)))
        ≡ Some (
          success,
          Some
              (Seq (cons (Int (pos 4)) (cons (Int (pos 5)) (cons (Int (pos 0)) nil)))),
        ) }
    ensures push_refers { register_after 0
        (row Operation.PushBack 0 1 0 (pos 0) true
        (holding 3 two_items (pos 1)))
        ≡ Some (success, Register.Reference (extend x (Selector.item 2))) }
    ensures push_without_room { register_after 0
        (row Operation.PushBack 0 1 0 (pos 0) false
        (holding 2 two_items (pos 1)))
        ≡ Some (bad_alloc, Register.Int (pos 2)) }
    ensures push_front { value_after x
        (row Operation.PushFront 0 1 0 (pos 0) true
        (holding 3 two_items (pos 1)))
        ≡ Some (
          success,
          Some
              (Seq (cons (Int (pos 0)) (cons (Int (pos 4)) (cons (Int (pos 5)) nil)))),
        ) }
    ensures push_front_refers { register_after 0
        (row Operation.PushFront 0 1 0 (pos 0) true
        (holding 3 two_items (pos 1)))
        ≡ Some (success, Register.Reference (extend x (Selector.item 0))) }
    ensures push_front_without_room { register_after 0
        (row Operation.PushFront 0 1 0 (pos 0) false
        (holding 3 two_items (pos 1)))
        ≡ Some (bad_alloc, Register.Int (pos 2)) }
    ensures no_push_front_of_a_vector { row Operation.PushFront 0 1 0 (pos 0) true
        (holding 2 two_items (pos 1)) ≡ None }
    ensures pop { value_after x (row Operation.PopBack 0 1 0 (pos 0) true
        (holding 2 two_items (pos 1)))
        ≡ Some (success, Some (Seq (cons (Int (pos 4)) nil))) }
    ensures pop_answers { register_after 0
        (row Operation.PopBack 0 1 0 (pos 0) true
        (holding 3 two_items (pos 1)))
        ≡ Some (success, Register.Int (pos 1)) }
    ensures pop_none { register_after 0
        (row Operation.PopBack 0 1 0 (pos 0) true (holding 3 (Seq nil) (pos 0)))
        ≡ Some (null_or_none, Register.Int (pos 6)) }
    ensures pop_a_byte { value_after x
        (row Operation.PopBack 0 1 0 (pos 0) true (holding 1 (Text (codes "abc")) (pos 1)))
        ≡ Some (success, Some (Text (codes "ab"))) }
    ensures pop_front { value_after x
        (row Operation.PopFront 0 1 0 (pos 0) true
        (holding 3 two_items (pos 1)))
        ≡ Some (success, Some (Seq (cons (Int (pos 5)) nil))) }
    ensures pop_front_answers { register_after 0
        (row Operation.PopFront 0 1 0 (pos 0) true
        (holding 3 two_items (pos 1)))
        ≡ Some (success, Register.Int (pos 1)) }
    ensures pop_front_none { register_after 0
        (row Operation.PopFront 0 1 0 (pos 0) true (holding 3 (Seq nil) (pos 0)))
        ≡ Some (null_or_none, Register.Int (pos 6)) }
    ensures no_pop_front_of_a_vector { row Operation.PopFront 0 1 0 (pos 0) true
        (holding 2 two_items (pos 1)) ≡ None }
{}

/// Texts.
#[tactic(auto, unfolding(client_spec::specs::Effect::effect, seg_spec::specs::Value::default_of))]
pub fn texts()
    ensures length { register_after 0
        (row Operation.Len 0 1 0 (pos 0) true (holding 1 (Text (codes "abc")) (pos 1)))
        ≡ Some (success, Register.Int (pos 3)) }
    ensures byte { register_after 0 (row Operation.At 0 1 2 (pos 0) true
        (holding 1 (Text (codes "abc")) (pos 1))) ≡ Some (success, Register.Int (pos 98)) }
    ensures byte_out_of_range { register_after 0
        (row Operation.At 0 1 2 (pos 0) true (holding 1 (Text (codes "abc")) (negsuc 0)))
        ≡ Some (out_of_range, Register.Int (pos 5)) }
    ensures set { value_after x (row Operation.SetStr 0 1 0 (pos 3) true
        (holding 1 (Text (codes "abc")) (pos 1))) ≡ Some (success, Some (Text (codes "hi"))) }
    ensures set_answers { register_after 0
        (row Operation.SetStr 0 1 0 (pos 3) true (holding 1 (Text (codes "abc")) (pos 1)))
        ≡ Some (success, Register.Int (pos 2)) }
    ensures set_without_room { value_after x
        (row Operation.SetStr 0 1 0 (pos 3) false (holding 1 (Text (codes "abc")) (pos 1)))
        ≡ Some (bad_alloc, Some (Text (codes "abc"))) }
    ensures add { value_after x (row Operation.AddStr 0 1 0 (pos 3) true
        (holding 1 (Text (codes "abc")) (pos 1))) ≡ Some (success, Some (Text (codes "abchi"))) }
    ensures add_answers { register_after 0
        (row Operation.AddStr 0 1 0 (pos 3) true (holding 1 (Text (codes "abc")) (pos 1)))
        ≡ Some (success, Register.Int (pos 5)) }
    ensures add_without_room { register_after 0
        (row Operation.AddStr 0 1 0 (pos 3) false (holding 1 (Text (codes "abc")) (pos 1)))
        ≡ Some (bad_alloc, Register.Int (pos 2)) }
    ensures add_byte { value_after x
        (row Operation.AddByte 0 1 2 (pos 0) true (holding 1 (Text (codes "abc")) (pos 33)))
        ≡ Some (success, Some (Text (codes "abc!"))) }
    ensures add_byte_answers { register_after 0
        (row Operation.AddByte 0 1 2 (pos 0) true (holding 1 (Text (codes "abc")) (pos 1)))
        ≡ Some (success, Register.Int (pos 4)) }
    ensures add_no_byte_first { register_after 0
        (row Operation.AddByte 0 1 2 (pos 0) false (holding 1 (Text (codes "abc")) (pos 256)))
        ≡ Some (out_of_range, Register.Int (pos 5)) }
    ensures add_byte_without_room { register_after 0
        (row Operation.AddByte 0 1 2 (pos 0) false (holding 1 (Text (codes "abc")) (pos 1)))
        ≡ Some (bad_alloc, Register.Int (pos 2)) }
    ensures shrink { value_after x (row Operation.Shrink 0 1 0 (pos 0) true
        (holding 1 (Text (codes "abc")) (pos 1))) ≡ Some (success, Some (Text (codes "abc"))) }
    ensures no_shrink_of_a_list { row Operation.Shrink 0 1 0 (pos 0) true
        (holding 3 two_items (pos 1)) ≡ None }
{}

/// Maps, of both kinds. The keys are -2 and 7.
#[tactic(auto, unfolding(client_spec::specs::Effect::effect, seg_spec::specs::Value::default_of))]
pub fn maps()
    ensures length { register_after 0
        (row Operation.Len 0 1 0 (pos 0) true
        (holding 4 (Map (negsuc 1 ∷ pos 7 ∷ []) (cons (Int (pos 4)) (cons (Int (pos 5)) nil)))
        (pos 0))) ≡ Some (success, Register.Int (pos 2)) }
    ensures get { register_after 0 (row Operation.GetKey 0 1 2 (pos 0) true
        (holding 4 (Map (negsuc 1 ∷ pos 7 ∷ []) (cons (Int (pos 4)) (cons (Int (pos 5)) nil)))
        (pos 7))) ≡ Some (success, Register.Reference (extend x (Selector.key (pos 7)))) }
    ensures get_absent { register_after 0
        (row Operation.GetKey 0 1 2 (pos 0) true
        (holding 5 (Map (negsuc 1 ∷ pos 7 ∷ []) (cons (Int (pos 4)) (cons (Int (pos 5)) nil)))
        (pos 0))) ≡ Some (absent, Register.Int (pos 3)) }
    ensures put_found { value_after x
        (row Operation.PutKey 0 1 2 (pos 0) false
        (holding 4 (Map (negsuc 1 ∷ pos 7 ∷ []) (cons (Int (pos 4)) (cons (Int (pos 5)) nil)))
        (pos 7))) ≡ Some (
          success,
          Some
              (Map (negsuc 1 ∷ pos 7 ∷ []) (cons (Int (pos 4)) (cons (Int (pos 5)) nil))),
        ) }
    ensures put_added { value_after x
        (row Operation.PutKey 0 1 2 (pos 0) true
        (holding 5 (Map (negsuc 1 ∷ pos 7 ∷ []) (cons (Int (pos 4)) (cons (Int (pos 5)) nil)))
        (pos 1))) ≡ Some (
          success,
          Some
              (Map (negsuc 1 ∷ pos 1 ∷ pos 7 ∷ [])
              (cons (Int (pos 4)) (cons (Int (pos 0)) (cons (Int (pos 5)) nil)))),
        ) }
    ensures put_refers { register_after 0
        (row Operation.PutKey 0 1 2 (pos 0) true
        (holding 4 (Map (negsuc 1 ∷ pos 7 ∷ []) (cons (Int (pos 4)) (cons (Int (pos 5)) nil)))
        (pos 8))) ≡ Some (success, Register.Reference (extend x (Selector.key (pos 8)))) }
    ensures put_without_room { register_after 0
        (row Operation.PutKey 0 1 2 (pos 0) false
        (holding 4 (Map (negsuc 1 ∷ pos 7 ∷ []) (cons (Int (pos 4)) (cons (Int (pos 5)) nil)))
        (pos 8))) ≡ Some (bad_alloc, Register.Int (pos 2)) }
    ensures delete { value_after x (row Operation.DeleteKey 0 1 2 (pos 0) true
        (holding 4 (Map (negsuc 1 ∷ pos 7 ∷ []) (cons (Int (pos 4)) (cons (Int (pos 5)) nil)))
        (negsuc 1))) ≡ Some (success, Some (Map (pos 7 ∷ []) (cons (Int (pos 5)) nil))) }
    ensures delete_answers { register_after 0
        (row Operation.DeleteKey 0 1 2 (pos 0) true
        (holding 5 (Map (negsuc 1 ∷ pos 7 ∷ []) (cons (Int (pos 4)) (cons (Int (pos 5)) nil)))
        (pos 7))) ≡ Some (success, Register.Int (pos 1)) }
    ensures delete_absent { register_after 0
        (row Operation.DeleteKey 0 1 2 (pos 0) true
        (holding 5 (Map (negsuc 1 ∷ pos 7 ∷ []) (cons (Int (pos 4)) (cons (Int (pos 5)) nil)))
        (pos 8))) ≡ Some (success, Register.Int (pos 0)) }
    ensures first { register_after 0
        (row Operation.FirstKey 0 1 0 (pos 0) true
        (holding 5 (Map (negsuc 1 ∷ pos 7 ∷ []) (cons (Int (pos 4)) (cons (Int (pos 5)) nil)))
        (pos 0))) ≡ Some (success, Register.Int (negsuc 1)) }
    ensures first_of_none { register_after 0
        (row Operation.FirstKey 0 1 0 (pos 0) true (holding 5 (Map [] nil) (pos 0)))
        ≡ Some (null_or_none, Register.Int (pos 6)) }
    ensures next { register_after 0 (row Operation.NextKey 0 1 2 (pos 0) true
        (holding 4 (Map (negsuc 1 ∷ pos 7 ∷ []) (cons (Int (pos 4)) (cons (Int (pos 5)) nil)))
        (negsuc 1))) ≡ Some (success, Register.Int (pos 7)) }
    ensures no_next { register_after 0
        (row Operation.NextKey 0 1 2 (pos 0) true
        (holding 4 (Map (negsuc 1 ∷ pos 7 ∷ []) (cons (Int (pos 4)) (cons (Int (pos 5)) nil)))
        (pos 7))) ≡ Some (null_or_none, Register.Int (pos 6)) }
{}

/// Frozen objects. In these states a shared cell has a copy of its object: x and y are such cells, to which registers 1 and 2
/// refer, and register 3 owns the number 9.
#[tactic(auto, unfolding(client_spec::specs::Effect::effect, seg_spec::specs::Value::default_of))]
pub fn frozen_objects()
    ensures freeze { value_after x (row Operation.Freeze 0 1 3 (pos 0) true
        (with_shared_cells (Full (Int (pos 5))) Empty))
        ≡ Some (success, Some (Full (Int (pos 9)))) }
    ensures freeze_gives { register_after 0
        (row Operation.Freeze 0 1 3 (pos 0) true (with_shared_cells Empty Empty))
        ≡ Some (success, Register.Int (pos 1)) }
    ensures freeze_takes { register_after 3
        (row Operation.Freeze 0 1 3 (pos 0) true (with_shared_cells Empty Empty))
        ≡ Some (success, Register.Undefined) }
    ensures freeze_without_room { register_after 0
        (row Operation.Freeze 0 1 3 (pos 0) false (with_shared_cells Empty Empty))
        ≡ Some (bad_alloc, Register.Int (pos 2)) }
    ensures owned_without_room { register_after 3
        (row Operation.Freeze 0 1 3 (pos 0) false (with_shared_cells Empty Empty))
        ≡ Some (bad_alloc, Register.Owner (Int (pos 9)) 0) }
    ensures kept_without_room { value_after x (row Operation.Freeze 0 1 3 (pos 0) false
        (with_shared_cells (Full (Int (pos 5))) Empty))
        ≡ Some (bad_alloc, Some (Full (Int (pos 5)))) }
    ensures freeze_into_an_own { row Operation.Freeze 0 1 3 (pos 0) true
        (holding 6 Empty (pos 3)) ≡ None }
    ensures freeze_of_a_number { row Operation.Freeze 0 1 0 (pos 0) true
        (with_shared_cells Empty Empty) ≡ None }
    ensures share { value_after y (row Operation.Share 0 2 1 (pos 0) true
        (with_shared_cells (Full (Int (pos 5))) Empty))
        ≡ Some (success, Some (Full (Int (pos 5)))) }
    ensures share_of_nothing { value_after y (row Operation.Share 0 2 1 (pos 0) true
        (with_shared_cells Empty (Full (Int (pos 5))))) ≡ Some (success, Some Empty) }
    ensures shared_is_kept { value_after x (row Operation.Share 0 2 1 (pos 0) true
        (with_shared_cells (Full (Int (pos 5))) Empty))
        ≡ Some (success, Some (Full (Int (pos 5)))) }
    ensures content { register_after 0 (row Operation.Content 0 1 0 (pos 0) true
        (with_shared_cells (Full (Int (pos 5))) Empty))
        ≡ Some (success, Register.Reference (extend x Selector.content)) }
    ensures no_content { register_after 0
        (row Operation.Content 0 1 0 (pos 0) true (with_shared_cells Empty Empty))
        ≡ Some (null_or_none, Register.Int (pos 6)) }
{}
