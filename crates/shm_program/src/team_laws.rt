//! What holds of each trace that was run by clients, on threads, with others that recover the dead, or polled, and of the image of what they left.
//! A run under a limit of polls is one of the trace with the scripts as they were cut.

ghost use Rattle.std.specs.Prelude.{◌≡◌, ◌<◌, ◌∷◌, ◌++◌, List, ℕ, None, codes};
ghost use Rattle.std.specs.FinMap as finmap;
ghost use Rattle.shm_graph.specs.declared.{memo.Step.Step as AStep, run.Move.{Move as AMove, TheVariants.Word}};
ghost use Rattle.shm_graph.specs.{Runs.first_state, Tables.map_of};
ghost use Rattle.shm_agents.specs.Turns.{script_in};
ghost use Rattle.shm_audit.specs.Faults.{image_fault_of};
ghost use Rattle.shm_replay.specs.Replays.{fold_in};
ghost use Rattle.shm_script.specs.Values.{Traced};
ghost use Rattle.shm_team.specs.declared.team.Ran.{Ran as ATeam};
ghost use Rattle.shm_versions.specs.RunTexts.{last_line};
ghost use Rattle.shm_program.specs.declared.outcome.Finished.{Finished as AFinished};
ghost use Rattle.shm_program.specs.declared.words.{Form.TheVariants.{Image, Report}, Job.TheVariants.Audit};
ghost use Rattle.shm_program.specs.{Outcomes.JobAnswers, Replays.{IsTeam, IsTeamTold, team_pool}};
ghost use Rattle.shm_program.specs.Runs.{IsOneEvent, IsSoundState, IsSoundTurn};

/// The state before the first turn is sound. Each turn, in the order in which they were taken, could be taken where it was taken, and led to a
/// sound state. Each word step was one event of the graph of references.
pub fn team_runs_are_sound()
    ensures first { (how : ATeam → AFinished) (t : Traced) (finished : AFinished) → (r : IsTeam how t finished) → let p = team_pool r.run r.turns in IsSoundState p (first_state p.start) }
    ensures states { (how : ATeam → AFinished) (t : Traced) (finished : AFinished) → (r : IsTeam how t finished) → (before after : List AMove) (m : AMove) → r.turns ≡ before ++ m ∷ after → IsSoundTurn (team_pool r.run r.turns) before m }
    ensures events { (how : ATeam → AFinished) (t : Traced) (finished : AFinished) → (r : IsTeam how t finished) → (before after : List AMove) (s : AStep) → r.turns ≡ before ++ Word s ∷ after → IsOneEvent (team_pool r.run r.turns) before s }
{}

/// The map of each identity in the closed pool is the fold of its log, and that of an identity without a script is empty.
pub fn team_tables_are_of_logs()
    ensures folded { (how : ATeam → AFinished) (t : Traced) (finished : AFinished) → (r : IsTeam how t finished) → (c key : ℕ) → c < t.clients → map_of (r.team.table c) key ≡ finmap.get (fold_in r.run.logs.items c) key }
    ensures empty { (how : ATeam → AFinished) (t : Traced) (finished : AFinished) → (r : IsTeam how t finished) → (c key : ℕ) → c < t.clients → script_in t.scripts c ≡ None → map_of (r.team.table c) key ≡ None }
{}

/// What is written for `run --image`, with medics or without, is an image without a fault, so that `audit` doesn't refuse it; and what is answered
/// to it for `audit` is the word `clean` and the line `live L refs F` of that pool, with which a report of it ends.
pub fn team_images_are_clean()
    ensures faultless { (how : ATeam → AFinished) (t : Traced) (finished : AFinished) (image : List ℕ) → IsTeamTold how Image t finished image → image_fault_of image ≡ None }
    ensures audited { (how : ATeam → AFinished) (t : Traced) (finished ended : AFinished) (image text : List ℕ) (status : ℕ) → (told : IsTeamTold how Image t finished image) → JobAnswers Audit image status ended text → (status ≡ 0) × (text ≡ codes "clean " ++ last_line (team_pool told.0.run told.0.turns)) }
    ensures report { (how : ATeam → AFinished) (t : Traced) (finished : AFinished) (report : List ℕ) → (told : IsTeamTold how Report t finished report) → (front : List ℕ) × (report ≡ front ++ last_line (team_pool told.0.run told.0.turns)) }
{}
