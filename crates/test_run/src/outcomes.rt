//! What a run's outcome means, and the fault of a run that didn't begin.

ghost use Rattle.std.specs.Prelude.{◌≡◌, [], ◌∷◌, codes, Some, None};
ghost use Rattle.seg_spec.specs.Fixtures.{counter, greeting, empty, lost_gap};
ghost use Rattle.seg_spec.specs.Images.{upgraded};
ghost use Rattle.client_spec.specs.Grammar.{client_bytes};
ghost use Rattle.client_spec.specs.Outcome.{Refusal, IsRefusalOf};
ghost use Rattle.client_spec.specs.Fixtures.{increment, move_to};
ghost use Rattle.client_vm.specs.Jobs.{Job, Effect, job_at, effect_at};
ghost use Rattle.client_vm.specs.Outcomes.{HasOutcome, IsRefusedFor};

use client_vm::{Ended, Refused, Report};
use seg_raw::Fault;

/// The fault of a refused call gives a reason why no client runs. If clients ran, the only possible fault is that the host is out
/// of memory.
pub fn faults_and_outcomes()
    ensures reason { (job : Job) (refused : Refused) → IsRefusedFor job refused →
        (refusal : Refusal) ×
        IsRefusalOf job.image job.texts job.room job.base job.moves refusal }
    ensures not_both { (job : Job) (effect : Effect) (refused : Refused) →
        HasOutcome job effect → IsRefusedFor job refused → refused.fault ≡ Fault.Memory }
{}

/// Without clients, the image with the number 41 named x is saved unchanged. Nothing is printed, there is no report, and the run
/// isn't stopped.
pub fn no_clients()
    ensures whole { HasOutcome (job_at counter [] [] 2048 0 []) (effect_at
        (Some (codes "=")) (Some (codes "=")) (upgraded counter) [] Ended.Done) }
    ensures wrote { HasOutcome (job_at counter [] [] 2048 0 []) (effect_at
        (Some (codes "=")) (Some (codes "=4")) (upgraded counter) [] Ended.Done) → ⊥ }
    ensures another { HasOutcome (job_at counter [] [] 2048 0 [])
        (effect_at None None empty [] Ended.Done) → ⊥ }
    ensures stopped { HasOutcome (job_at counter [] [] 2048 0 [])
        (effect_at None None (upgraded counter) [] Ended.OutputFailed) → ⊥ }
    ensures a_report { (report : Report) → HasOutcome (job_at counter [] [] 2048 0 [])
        (effect_at None None (upgraded counter) (report ∷ []) Ended.Done) → ⊥ }
    ensures no_place { HasOutcome (job_at counter [] [] 2048 8 [])
        (effect_at None None (upgraded counter) [] Ended.Done) → ⊥ }
{}

/// Refusals: three bytes, which are no image; a base of 8; a move at step 0; an image whose free list lacks its free block; an
/// empty file, which is no client; and the client that adds one to a number, on an image whose only type is a text.
pub fn refused()
    ensures no_image { IsRefusedFor (job_at (codes "abc") [] [] 2048 0 [])
        (record { client = None; fault = Fault.BadHeader }) }
    ensures no_place { IsRefusedFor (job_at counter [] [] 2048 8 [])
        (record { client = None; fault = Fault.Misplaced }) }
    ensures a_place { IsRefusedFor (job_at counter [] [] 2048 16 [])
        (record { client = None; fault = Fault.Misplaced }) → ⊥ }
    ensures bad_move { IsRefusedFor (job_at counter [] [] 2048 0 (move_to 0 16 ∷ []))
        (record { client = None; fault = Fault.BadMove 0 }) }
    ensures another_move { IsRefusedFor (job_at counter [] [] 2048 0 (move_to 0 16 ∷ []))
        (record { client = None; fault = Fault.BadMove 1 }) → ⊥ }
    ensures lost_gap { IsRefusedFor (job_at lost_gap [] [] 2048 0 [])
        (record { client = None; fault = Fault.BadFree 24 }) }
    ensures sound { IsRefusedFor (job_at counter [] [] 2048 0 [])
        (record { client = None; fault = Fault.BadFree 24 }) → ⊥ }
    ensures no_client { IsRefusedFor (job_at counter ([] ∷ []) [] 2048 0 [])
        (record { client = Some 0; fault = Fault.BadCode 0 }) }
    ensures first_client { IsRefusedFor (job_at counter ([] ∷ []) [] 2048 0 [])
        (record { client = Some 1; fault = Fault.BadCode 0 }) → ⊥ }
    ensures other_types { IsRefusedFor
        (job_at greeting (client_bytes increment ∷ []) [] 2048 0 [])
        (record { client = Some 0; fault = Fault.TypeMismatch 0 }) }
    ensures its_types { IsRefusedFor (job_at counter (client_bytes increment ∷ []) [] 2048 0 [])
        (record { client = Some 0; fault = Fault.TypeMismatch 0 }) → ⊥ }
{}
