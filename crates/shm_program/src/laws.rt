//! What holds of each trace that was replayed.

ghost use Rattle.std.specs.{Prelude.{◌≡◌, ◌<◌, ◌∷◌, ◌++◌, List, ℕ, None, Option, Some, true}, List.flat_map};
ghost use Rattle.std.specs.FinMap as finmap;
ghost use Rattle.shm_graph.specs.declared.{memo.Step.Step as AStep, run.Move.{Move as AMove, TheVariants.Word}};
ghost use Rattle.shm_graph.specs.{Runs.first_state, Tables.map_of};
ghost use Rattle.shm_agents.specs.Turns.{script_in};
ghost use Rattle.shm_replay.specs.Replays.{fold_in};
ghost use Rattle.shm_report.specs.Logs.{log_text};
ghost use Rattle.shm_script.specs.Values.{Traced};
ghost use Rattle.shm_program.specs.declared.{outcome.Finished.Finished as AFinished, words.Form.TheVariants.Report};
ghost use Rattle.shm_program.specs.declared.words.{Form.Form as AForm, Job.Job as AJob};
ghost use Rattle.shm_program.specs.{Outcomes.{JobAnswers, Asks, Decided, Done, Refused}, Replays.{IsRan, IsTold}};
ghost use Rattle.shm_program.specs.{Runs.{IsOneEvent, IsSoundState, IsSoundTurn}, Words.{AreDetermined, is_determined}};

/// The report of a trace that was replayed begins with the text of these very logs.
pub fn replay_writes_log()
    ensures { (t : Traced) (finished : AFinished) (text : List ℕ) → (told : IsTold Report t finished text) → (rest : List ℕ) × (text ≡ flat_map log_text told.0.run.logs.items ++ rest) }
{}

/// The state before the first turn of the pool that was replayed is sound. Each turn could be taken where it was taken, and led to a sound state.
/// Each word step was one event of the graph of references.
pub fn replays_are_sound()
    ensures first { (t : Traced) (finished : AFinished) → (r : IsRan t finished) → IsSoundState r.run.closed (first_state r.run.closed.start) }
    ensures states { (t : Traced) (finished : AFinished) → (r : IsRan t finished) → (before after : List AMove) (m : AMove) → r.run.closed.turns ≡ before ++ m ∷ after → IsSoundTurn r.run.closed before m }
    ensures events { (t : Traced) (finished : AFinished) → (r : IsRan t finished) → (before after : List AMove) (s : AStep) → r.run.closed.turns ≡ before ++ Word s ∷ after → IsOneEvent r.run.closed before s }
{}

/// The map of each identity in the closed pool is the fold of its log, and that of an identity without a script is empty.
pub fn tables_are_of_logs()
    ensures folded { (t : Traced) (finished : AFinished) → (r : IsRan t finished) → (c key : ℕ) → c < t.clients → map_of (r.replay.table c) key ≡ finmap.get (fold_in r.run.logs.items c) key }
    ensures empty { (t : Traced) (finished : AFinished) → (r : IsRan t finished) → (c key : ℕ) → c < t.clients → script_in t.scripts c ≡ None → map_of (r.replay.table c) key ≡ None }
{}

/// What is written of a trace that was replayed follows from the trace and the form alone.
pub fn replays_write_one_text()
    ensures { (form : AForm) (t : Traced) (one other : AFinished) (text again : List ℕ) → IsTold form t one text → IsTold form t other again → text ≡ again }
{}

/// The status that a job answers follows from its bytes alone, and of each job but a run and `tree` so does the text.
pub fn answers_follow_from_bytes()
    ensures status { (job : AJob) (bytes : List ℕ) (status other : ℕ) (one two : AFinished) (text again : List ℕ) → JobAnswers job bytes status one text → JobAnswers job bytes other two again → status ≡ other }
    ensures text { (job : AJob) (bytes : List ℕ) (status other : ℕ) (one two : AFinished) (text again : List ℕ) → is_determined job ≡ true → JobAnswers job bytes status one text → JobAnswers job bytes other two again → text ≡ again }
{}

/// Where the source tells its bytes, whether what a call asks for is done or refused follows from the words of the call and from those bytes alone,
/// and unless the words ask for a run or for `tree` so does the text that the call writes.
pub fn calls_write_one_text()
    ensures text { (ws : List (List ℕ)) (left : List ℕ) (after other : Option (List ℕ)) (one two : AFinished) (text again : List ℕ) → AreDetermined ws → Decided ws (Some left) after one text → Decided ws (Some left) other two again → text ≡ again }
    ensures apart { (ws : List (List ℕ)) (left : List ℕ) (after other : Option (List ℕ)) (one two : AFinished) (text again : List ℕ) → Asks ws (λ job. Done job (Some left) after one text) → Asks ws (λ job. Refused job (Some left) other two again) → ⊥ }
{}
