//! What a call writes, over every source and every sink, whatever of their reads and writes fail.

ghost use Rattle.std.specs.Prelude.{◌≡◌, List, ℕ, Some};
ghost use Rattle.shm_program.specs.{declared.outcome.Finished.Finished as AFinished, Outcomes.{IsCall, Sides}};
ghost use Rattle.shm_program.specs.{Streams.{Grows, IsTextOf, WritesFrontOf}, Words.AreDetermined};

/// What a sink holds after a call is what it held before and a front of one text, the one that the words and the bytes that were read give: all of
/// it with status 0, 2 or 3, not all of it with 5, and nothing with 4 or 6.
///
/// Two calls with the same words, which ask neither for a run nor for `tree`, and whose sources have the same bytes left, write fronts of one text,
/// whatever of their reads and writes fail.
pub fn calls_write_fronts_of_one_text()
    ensures front { (ws : List (List ℕ)) (old new : Sides) (code : ℕ) (made : AFinished) → IsCall ws old new code made → WritesFrontOf ws old new code }
    ensures one { (ws : List (List ℕ)) (bytes text again : List ℕ) → AreDetermined ws → IsTextOf ws bytes text → IsTextOf ws bytes again → text ≡ again }
    ensures both { (ws : List (List ℕ)) (left : List ℕ) (old new before after : Sides) (code other : ℕ) (made two : AFinished) → AreDetermined ws → old.left ≡ Some left → before.left ≡ Some left → IsCall ws old new code made → IsCall ws before after other two → (text : List ℕ) × Grows code old.held new.held text × Grows other before.held after.held text }
{}
