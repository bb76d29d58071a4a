//! Laws of computations that ask.

ghost use Rattle.std.specs.Prelude.{◌≡◌, ◌++◌, ◌+◌, ℕ, List};
ghost use Rattle.image_parts.specs.Alike.{AreAlike};
ghost use Rattle.image_parts.specs.Asking.{Agrees, Asking, bind, then_run, outcome, reads, turns};

/// Under two images that agree on what is read under the one, outcome and reads are the same.
#[tactic(auto, using(crate::proofs::QuestionLemmas::two_images))]
pub fn two_images<N, V, A>()
    ensures { (m : Asking N V A) (first second : N → V) → Agrees second (reads m first) → AreAlike m first second }
{}

/// What is read under an image is as that image has it.
#[tactic(auto, using(crate::proofs::QuestionLemmas::reads_agree))]
pub fn what_is_read_is_of_the_image<N, V, A>()
    ensures { (m : Asking N V A) (image : N → V) → Agrees image (reads m image) }
{}

/// One computation and then another: the second goes on with what the first answers, and both are read.
#[tactic(auto, using(crate::proofs::QuestionLemmas::outcome_bind, crate::proofs::QuestionLemmas::reads_bind))]
pub fn one_after_another<N, V, A, B>()
    ensures answers { (m : Asking N V A) (f : A → Asking N V B) (image : N → V)
        → outcome (bind m f) image ≡ outcome (f (outcome m image)) image }
    ensures read { (m : Asking N V A) (f : A → Asking N V B) (image : N → V)
        → reads (bind m f) image ≡ reads m image ++ reads (f (outcome m image)) image }
{}

/// Turns and then further turns are all of them, one after another.
#[tactic(auto, using(crate::proofs::BlockLemmas::turns_add))]
pub fn turns_are_one_after_another<N, V, S, L>()
    ensures { (step : ℕ → S → Asking N V (S × List L)) (image : N → V) (some more t : ℕ) (s : S)
        → outcome (turns step (some + more) t s) image ≡ then_run (outcome (turns step some t s) image)
        (λ x. outcome (turns step more (t + some) x) image) }
{}
