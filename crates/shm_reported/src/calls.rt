//! The headline: what a call writes of a trace is the report of a run in which each count was exact at each time.

ghost use Rattle.std.specs.Prelude.{◌≡◌, ℕ, List, [], ◌∷◌, None, Some, codes};
ghost use Rattle.shm_headline.specs.Headline.{Reported, ReportedCut};
ghost use Rattle.shm_reported.specs.Jobs.{HasWritten, WritesReport};
ghost use Rattle.shm_script.specs.Values.{Traced};
ghost use Rattle.shm_team.specs.declared.team.Ran.{Ran as ATeam};
ghost use Rattle.shm_program.specs.declared.{outcome.Finished.Finished as AFinished, words.Form.TheVariants.Report};
ghost use Rattle.shm_program.specs.declared.words.Job.{Job as AJob, TheVariants.{Poll, Replay, Rescue, Run}};
ghost use Rattle.shm_program.specs.{Outcomes.{IsCall, Sides, Spells}, Replays.{IsLimitedTold, IsTeamTold, IsTold}};
ghost use Rattle.shm_program.specs.Words.{job_of};

/// What is written of a trace that was replayed, or run by clients, is the report of a run as the headline says; with a limit of polls, of a run of
/// the trace with the lives cut.
pub fn reports_are_of_runs()
    ensures replay { (bytes : List ℕ) (t : Traced) (finished : AFinished) (text : List ℕ) → Spells bytes t → IsTold Report t finished text → Reported bytes text }
    ensures run { (how : ATeam → AFinished) (bytes : List ℕ) (t : Traced) (finished : AFinished) (text : List ℕ) → Spells bytes t → IsTeamTold how Report t finished text → Reported bytes text }
    ensures limited { (turns : ℕ) (bytes : List ℕ) (t : Traced) (finished : AFinished) (text : List ℕ) → Spells bytes t → IsLimitedTold turns t finished text → ReportedCut bytes text }
{}

/// A call of the program that ends with the status 0, over a source and a sink that show their bytes, where its words ask for a report: all
/// bytes were read, a text was written after those that were held, and the text is reported of these bytes. The words `replay`, `run`, `run
/// --medics K` and `poll Q` ask so; where `poll Q --limit P` gave clients up, the text is reported of a run with the lives cut.
pub fn headline()
    ensures whole { (words : List (List ℕ)) (job : AJob) (old new : Sides) (made : AFinished) (bytes held : List ℕ) → job_of words ≡ Some job → WritesReport job → IsCall words old new 0 made → old.left ≡ Some bytes → old.held ≡ Some held → HasWritten Reported bytes held new }
    ensures limited { (words : List (List ℕ)) (q most : ℕ) (old new : Sides) (made : AFinished) (bytes held : List ℕ) → job_of words ≡ Some (Poll q (Some most)) → IsCall words old new 0 made → old.left ≡ Some bytes → old.held ≡ Some held → HasWritten ReportedCut bytes held new }
    ensures replay { job_of (codes "replay" ∷ []) ≡ Some (Replay Report) }
    ensures run { job_of (codes "run" ∷ []) ≡ Some (Run Report) }
    ensures medics { job_of (codes "run" ∷ codes "--medics" ∷ codes "2" ∷ []) ≡ Some (Rescue Report 2) }
    ensures poll { job_of (codes "poll" ∷ codes "8" ∷ []) ≡ Some (Poll 8 None) }
{}
