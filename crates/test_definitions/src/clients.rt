//! Worked examples: small clients.

ghost use Rattle.std.specs.Prelude.{◌≡◌, ℕ, ◌^◌, ◌<◌, ◌++◌, pos, [], ◌∷◌, codes, replicate, Ok, Err};
ghost use Rattle.client_spec.specs.Syntax.{no_more};
ghost use Rattle.client_spec.specs.Grammar.{file_version, client_bytes, SpellsClient};
ghost use Rattle.client_spec.specs.Text.{text_of};
ghost use Rattle.client_spec.specs.Run.{finished, stopped, stuck, bound};
ghost use Rattle.client_spec.specs.Clients.{outputs, image_after, ending_after, table_after, StayWithin, AreMoves, IsFirstBadMove, IsLeftInPlace};
ghost use Rattle.client_spec.specs.Safe.{IsFront, Writes};
ghost use Rattle.client_spec.specs.Typed.{Reason, RegisterType, types_after};
ghost use Rattle.client_spec.specs.Fixtures.{increment, chain, cycle, dangling, lost, retyped, three_turns, counting_down, idle, echo, kill_twice, as_a_text, nested, types, constants, beginning, counted, no_names, RunsTo, left_with, two_runs, given_at_0, move_to};
ghost use Rattle.seg_spec.specs.Types.{Form};

/// The client that adds one to x: its 103 bytes, its text, its bound of steps, and what is known after it.
#[tactic(auto, unfolding(client_spec::specs::Grammar::client_bytes, client_spec::specs::Grammar::listing, client_spec::specs::Typed::types_by, client_spec::specs::Typed::rule, client_spec::specs::Typed::sharing_rule))]
pub fn the_increment()
    ensures bytes { client_bytes increment ≡
        83 ∷ 69 ∷ 71 ∷ 67 ∷ 1 ∷ 0 ∷ 0 ∷ 0 ∷ 1 ∷ 0 ∷ 0 ∷ 0 ∷ 1 ∷ 0 ∷ 0 ∷ 0 ∷ 8 ∷ 0 ∷ 0 ∷ 0
        ∷ 1 ∷ 0 ∷ 0 ∷ 0 ∷ 0 ∷ 0 ∷ 0 ∷ 0 ∷ 0 ∷ 0 ∷ 0 ∷ 0 ∷ 0 ∷ 0 ∷ 0 ∷ 0 ∷ 2 ∷ 1 ∷ 120
        ∷ 17 ∷ 0 ∷ 16 ∷ 16 ∷ 0 ∷ 0 ∷ 0 ∷ 0 ∷ 33 ∷ 1 ∷ 0 ∷ 0 ∷ 0 ∷ 0 ∷ 0 ∷ 0
        ∷ 1 ∷ 2 ∷ 0 ∷ 0 ∷ 1 ∷ 0 ∷ 0 ∷ 0 ∷ 3 ∷ 1 ∷ 1 ∷ 2 ∷ 0 ∷ 0 ∷ 0 ∷ 0
        ∷ 34 ∷ 0 ∷ 0 ∷ 1 ∷ 0 ∷ 0 ∷ 0 ∷ 0 ∷ 12 ∷ 0 ∷ 1 ∷ 0 ∷ 0 ∷ 0 ∷ 0 ∷ 0
        ∷ 10 ∷ 0 ∷ 0 ∷ 0 ∷ 0 ∷ 0 ∷ 0 ∷ 0 ∷ 11 ∷ 0 ∷ 0 ∷ 0 ∷ 0 ∷ 0 ∷ 0 ∷ 0 ∷ [] }
    ensures client { SpellsClient (client_bytes increment) increment }
    ensures text { text_of increment
        ≡ codes "type i64\nname x\nFIND r0 - - t0 k0\nLOAD r1 r0\nCONST r2 1\n"
        ++ codes "ADD r1 r1 r2\nSTORE r0 r1\nOUTI r1\nELSE\nEND\n" }
    ensures steps { bound increment.code ≡ 6 }
    ensures accepted { types_after increment.types increment.constants increment.code
        (replicate 16 RegisterType.Undefined) ≡ Ok (replicate 16 RegisterType.Undefined) }
{}

/// A client with a type of shared cells is of version 2: its 52 bytes and its text. Clients without such types are of version 1.
#[tactic(auto, unfolding(client_spec::specs::Grammar::client_bytes, client_spec::specs::Grammar::listing))]
pub fn the_sharing()
    ensures bytes { client_bytes
        (record { types = Form.i64 ∷ Form.shared 0 ∷ []; constants = []; code = no_more }) ≡
        83 ∷ 69 ∷ 71 ∷ 67 ∷ 2 ∷ 0 ∷ 0 ∷ 0 ∷ 2 ∷ 0 ∷ 0 ∷ 0 ∷ 0 ∷ 0 ∷ 0 ∷ 0 ∷ 0 ∷ 0 ∷ 0 ∷ 0
        ∷ 1 ∷ 0 ∷ 0 ∷ 0 ∷ 0 ∷ 0 ∷ 0 ∷ 0 ∷ 0 ∷ 0 ∷ 0 ∷ 0 ∷ 0 ∷ 0 ∷ 0 ∷ 0
        ∷ 9 ∷ 1 ∷ 0 ∷ 0 ∷ 0 ∷ 0 ∷ 0 ∷ 0 ∷ 0 ∷ 0 ∷ 0 ∷ 0 ∷ 0 ∷ 0 ∷ 0 ∷ 0 ∷ [] }
    ensures text { text_of
        (record { types = Form.i64 ∷ Form.shared 0 ∷ []; constants = []; code = no_more })
        ≡ codes "type i64\ntype shared t0\n" }
    ensures first { file_version (Form.shared 1 ∷ Form.i64 ∷ []) ≡ 2 }
    ensures none { file_version [] ≡ 1 }
    ensures others { file_version (Form.i64 ∷ Form.str ∷ Form.vec 0 ∷ Form.list 0
        ∷ Form.flat_map 0 ∷ Form.map 0 ∷ Form.own 0 ∷ Form.struct (0 ∷ 1 ∷ []) ∷ []) ≡ 1 }
{}

/// The client that makes a chain of 20,000 owned nodes and destroys it.
#[tactic(auto, unfolding(client_spec::specs::Grammar::listing, client_spec::specs::Typed::types_by, client_spec::specs::Typed::rule, client_spec::specs::Typed::sharing_rule))]
pub fn the_chain()
    ensures text { text_of chain
        ≡ codes "type i64\ntype own t2\ntype struct t0 t1\nname h\nCONST r0 20000\nCONST r1 1\n"
        ++ codes "FINDOR r2 - t1 k0\nWHILE r0 20000\nNEW r3 t2\nREF r4 r3\nFIELD r5 r4 1\n"
        ++ codes "TAKE r6 r2\nPUT r5 r6\nELSE\nEND\nPUT r2 r3\nELSE\nEND\nSUB r0 r0 r1\n"
        ++ codes "END\nELSE\nEND\nKILL r7 - t1 k0\n" }
    ensures steps { bound chain.code ≡ 160005 }
    ensures accepted { types_after chain.types chain.constants chain.code
        (replicate 16 RegisterType.Undefined) ≡
        Ok (RegisterType.Int ∷ RegisterType.Int ∷ replicate 5 RegisterType.Undefined ++
        RegisterType.Int ∷ replicate 8 RegisterType.Undefined) }
{}

/// Clients that are refused: one puts an object into itself, one uses a reference into a family after an object of the family may
/// have been destroyed, one never drops its object, and one changes a register's type in a loop.
#[tactic(auto, unfolding(client_spec::specs::Typed::types_by, client_spec::specs::Typed::rule, client_spec::specs::Typed::sharing_rule))]
pub fn refused()
    ensures cycle { types_after cycle.types cycle.constants cycle.code
        (replicate 16 RegisterType.Undefined) ≡ Err Reason.PutIntoItself }
    ensures dangling { types_after dangling.types dangling.constants dangling.code
        (replicate 16 RegisterType.Undefined) ≡ Err Reason.WrongOperand }
    ensures lost { types_after types constants lost (replicate 16 RegisterType.Undefined) ≡
        Err Reason.OwnerLost }
    ensures changed { types_after types constants retyped (replicate 16 RegisterType.Undefined) ≡
        Err Reason.ChangedInLoop }
{}

/// The bound counts the body of a loop once for each possible iteration: three iterations of one instruction after two
/// instructions, five of one after one, and seven nested loops of 1000 each.
pub fn steps_of_loops()
    ensures three { bound (three_turns (pos 1)) ≡ 9 }
    ensures idle { bound idle ≡ 12 }
    ensures nested { 10 ^ 9 < bound (nested 7) }
{}

/// Runs: three iterations, a loop that its register ends, a loop without iterations, the increment of 41, input bytes that are
/// printed, an object that is destroyed twice, and one that is found with another type.
pub fn runs()
    ensures three { RunsTo [] (three_turns (pos 1)) (beginning [] no_names []) 9
        (codes "7\n7\n7\n") }
    ensures down { RunsTo [] counting_down (beginning [] no_names []) 9 (codes "2\n1\n") }
    ensures idle { RunsTo [] idle (beginning [] no_names []) 2 (codes "") }
    ensures increment { RunsTo increment.constants increment.code counted 6 (codes "42\n") }
    ensures echo { RunsTo [] echo (beginning [] no_names (codes "A")) 4 (codes "65\n6\n") }
    ensures destroyed { RunsTo increment.constants kill_twice counted 4 (codes "1\n0\n") }
    ensures other_type { RunsTo increment.constants as_a_text
        (record counted { types = Form.i64 ∷ Form.str ∷ [] }) 2 (codes "4\n") }
{}

/// Two runs, the second of which was cut short: their output, the image after them, and how they ended. Runs of the increment
/// have at most 6 steps, and never get stuck.
#[tactic(auto, unfolding(client_spec::specs::Grammar::listing))]
pub fn several_runs()
    ensures outputs { outputs two_runs ≡ codes "424" }
    ensures image { image_after (codes "0") two_runs ≡ codes "b" }
    ensures first_image { image_after (codes "0") [] ≡ codes "0" }
    ensures ending { ending_after two_runs ≡ stopped }
    ensures no_ending { ending_after [] ≡ finished }
    ensures table { table_after [] (increment ∷ chain ∷ []) ≡ chain.types }
    ensures shorter { table_after chain.types (increment ∷ []) ≡ chain.types }
    ensures within { StayWithin (increment ∷ increment ∷ []) two_runs }
    ensures too_long { StayWithin (increment ∷ []) (left_with 7 finished [] [] ∷ []) → ⊥ }
    ensures stuck { StayWithin (increment ∷ []) (left_with 6 stuck [] [] ∷ []) → ⊥ }
    ensures too_many { StayWithin [] (left_with 6 finished [] [] ∷ []) → ⊥ }
{}

/// In a region of 2048 bytes a segment of 1024 bytes may move to 1024 and back. It may not move to base 8 or too far, nor at step
/// 0 or at steps that don't ascend.
pub fn bad_moves()
    ensures all_fit { AreMoves 2048 1024 0 (move_to 1 1024 ∷ move_to 3 0 ∷ []) }
    ensures odd_base { IsFirstBadMove 2048 1024 (move_to 1 1024 ∷ move_to 3 8 ∷ []) 1 }
    ensures too_far { IsFirstBadMove 2048 1024 (move_to 1 1040 ∷ []) 0 }
    ensures not_ascending { IsFirstBadMove 2048 1024 (move_to 1 1024 ∷ move_to 1 0 ∷ []) 1 }
    ensures step_zero { IsFirstBadMove 2048 1024 (move_to 0 1024 ∷ []) 0 }
    ensures not_first { IsFirstBadMove 2048 1024 (move_to 1 8 ∷ move_to 3 8 ∷ []) 1 → ⊥ }
    ensures none { (k : ℕ) → IsFirstBadMove 2048 1024 [] k → ⊥ }
{}

/// An image of two bytes that fills its host is left in place if two other bytes are left, but not if three are. The increment's
/// output may be cut short after "4" of "42". A run only appends to the output.
pub fn what_is_left()
    ensures placed { IsLeftInPlace (given_at_0 (codes "ab"))
        (left_with 1 finished [] (codes "cd")) }
    ensures larger { IsLeftInPlace (given_at_0 (codes "ab"))
        (left_with 1 finished [] (codes "cde")) → ⊥ }
    ensures front { IsFront increment counted (record counted { output = codes "4" }) }
    ensures more { Writes (record counted { output = codes "4" })
        (record counted { output = codes "42" }) }
    ensures less { Writes (record counted { output = codes "4" }) counted → ⊥ }
    ensures other_types { Writes counted (record counted { types = [] }) → ⊥ }
{}
