//! Two runs of the same clients on images that are alike.

ghost use Rattle.std.specs.Prelude.{◌≡◌, ◌≢◌, ℕ, List, [], length, codes, true};
ghost use Rattle.seg_spec.specs.Types.{Agree};
ghost use Rattle.seg_spec.specs.Index.{Root};
ghost use Rattle.seg_spec.specs.Fixtures.{counter};
ghost use Rattle.test_definitions.specs.RefusedOutcomes.{IsOutcomeOf};
ghost use Rattle.client_spec.specs.Syntax.{Constant, Instruction, Statements, Client};
ghost use Rattle.client_spec.specs.Run.{Ending, stopped, Run};
ghost use Rattle.client_spec.specs.OnImages.{Move, Situation, image_machine, Given, Left, IsFirst, IsLeftAfter};
ghost use Rattle.client_spec.specs.Fixtures.{increment};
ghost use Rattle.client_spec.specs.Clients.{outputs, ending_after};
ghost use Rattle.client_spec.specs.Outcome.{IsOutcome};
ghost use Rattle.test_definitions.specs.Alike.{AreAlike, StandAlike};
ghost use Rattle.test_definitions.specs.Agreement.{RunAlike, IsLonger, AlikeUpTo, AllAgree, OneOutcome};

/// Two runs of the same code from situations that are alike take the same steps and end alike. An output may fail in one of them;
/// the other then writes more.
pub fn two_runs()
    ensures { (constants : List Constant) (others : List Root) (moves : List Move)
        (code : Statements) (x z y w : Situation) (n m : ℕ) (end other : Ending) →
        RunAlike others x z →
        Run Situation (image_machine constants others moves) code x y n end →
        Run Situation (image_machine constants others moves) code z w m other →
        AlikeUpTo others y n end w m other }
{}

/// On images that are alike, with one base and one input, a client begins in situations that are alike.
pub fn first_situations()
    ensures { (client : Client) (given other : Given) (x z : Situation)
        (alike : AreAlike given.others [] given.image other.image) →
        other.base ≡ given.base → other.input ≡ given.input →
        Agree alike.picture.table client.types →
        IsFirst client given x → IsFirst client other z → RunAlike given.others x z }
{}

/// If two runs of a client end in situations that are alike, the images that they leave are alike. The objects that registers own
/// are freed, and so are the frozen objects to which no other cell points.
pub fn last_situations()
    ensures { (given other : Given) (x z : Situation) (left left_too : Left) →
        other.others ≡ given.others → StandAlike given.others x z →
        IsLeftAfter given x left → IsLeftAfter other z left_too →
        AreAlike given.others [] left.image left_too.image }
{}

/// Two outcomes of the same image, texts, input, room, base and moves agree: they have the same steps, input read, endings, output
/// and bases, and leave images that are alike. An output may fail in one of them: its output is then the beginning of the other's.
/// So two outcomes agree if they wrote as many bytes, or if no output failed.
pub fn one_outcome()
    ensures up_to_a_failure { (image : List ℕ) (texts : List (List ℕ)) (input : List ℕ)
        (room base : ℕ) (moves : List Move) (lefts others : List Left) →
        IsOutcome image texts input room base moves lefts →
        IsOutcome image texts input room base moves others → OneOutcome lefts others }
    ensures of_one_length { (image : List ℕ) (texts : List (List ℕ)) (input : List ℕ)
        (room base : ℕ) (moves : List Move) (lefts others : List Left) →
        IsOutcome image texts input room base moves lefts →
        IsOutcome image texts input room base moves others →
        length (outputs others) ≡ length (outputs lefts) → AllAgree lefts others }
    ensures without_failures { (image : List ℕ) (texts : List (List ℕ)) (input : List ℕ)
        (room base : ℕ) (moves : List Move) (lefts others : List Left) →
        IsOutcome image texts input room base moves lefts →
        IsOutcome image texts input room base moves others →
        ending_after lefts ≢ stopped → ending_after others ≢ stopped → AllAgree lefts others }
{}

/// In each outcome the increment of the number 41 named x takes 6 steps and prints 42, unless its output fails. Then the output is a
/// proper beginning of that. So no outcome prints 43.
pub fn one_increment()
    ensures prints { (left : Left) → IsOutcomeOf increment counter left →
        left.ending ≢ stopped → (left.steps ≡ 6) × (left.output ≡ codes "42\n") }
    ensures cut { (left : Left) → IsOutcomeOf increment counter left →
        left.ending ≡ stopped → IsLonger left.output (codes "42\n") }
    ensures refused { (left : Left) → IsOutcomeOf increment counter left →
        left.output ≡ codes "43\n" → ⊥ }
{}
