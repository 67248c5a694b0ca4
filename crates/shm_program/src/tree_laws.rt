//! What holds of each script for versions of a map that was run.

ghost use Rattle.std.specs.Prelude.{◌≡◌, ◌++◌, List, ℕ, codes};
ghost use Rattle.shm_tree.specs.Scripts.{TreeScripted as AScript};
ghost use Rattle.shm_program.specs.{declared.outcome.Finished.Finished as AFinished, Trees.IsTreeTold};

/// What is written for `tree` ends with the line `live 0 refs 0`: whether all lines were finished or not, no block is live in the closed pool, and
/// none of its words names one.
pub fn scripts_leave_nothing()
    ensures { (s : AScript) (finished : AFinished) (text : List ℕ) → IsTreeTold s finished text → (front : List ℕ) × (text ≡ front ++ codes "live 0 refs 0\n") }
{}
