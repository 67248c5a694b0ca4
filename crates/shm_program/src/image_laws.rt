//! What an audit tells of the image of a pool that was replayed.

ghost use Rattle.std.specs.Prelude.{◌≡◌, ◌++◌, List, ℕ, None, codes};
ghost use Rattle.shm_audit.specs.Faults.{image_fault_of};
ghost use Rattle.shm_script.specs.Values.{Traced};
ghost use Rattle.shm_versions.specs.RunTexts.{last_line};
ghost use Rattle.shm_program.specs.declared.outcome.Finished.{Finished as AFinished};
ghost use Rattle.shm_program.specs.declared.words.{Form.TheVariants.{Image, Report}, Job.TheVariants.Audit};
ghost use Rattle.shm_program.specs.{Outcomes.JobAnswers, Replays.{IsRan, IsTold}};

/// What is written for `replay --image` is an image without a fault, so that `audit` doesn't refuse it; and what is answered to it for `audit`
/// is the word `clean` and the line `live L refs F` with which each report of this trace ends.
pub fn images_are_clean()
    ensures faultless { (t : Traced) (finished : AFinished) (image : List ℕ) → IsTold Image t finished image → image_fault_of image ≡ None }
    ensures audited { (t : Traced) (finished ended : AFinished) (image text : List ℕ) (status : ℕ) → (told : IsTold Image t finished image) → JobAnswers Audit image status ended text → (status ≡ 0) × (text ≡ codes "clean " ++ last_line told.0.run.closed) }
    ensures report { (t : Traced) (finished other : AFinished) (report : List ℕ) → (r : IsRan t finished) → IsTold Report t other report → (front : List ℕ) × (report ≡ front ++ last_line r.run.closed) }
{}
