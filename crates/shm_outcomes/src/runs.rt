//! What a run of a trace by clients tells, on threads, polled or with medics.

ghost use Rattle.std.specs.Prelude.{◌≡◌, ℕ, ◌+◌, ◌<◌, List, ◌∷◌, ◌++◌, length, None, Some, slice_index};
ghost use Rattle.std.specs.List.{AllByRecursion};
ghost use Rattle.shm_graph.specs.{declared.memo.Agent.Agent as AnAgent, Agents.steps_of, Runs.account_at};
ghost use Rattle.shm_graph.specs.declared.memo.Fate.TheVariants as fate;
ghost use Rattle.shm_agents.specs.{Logs.BeganWith, Turns.{lives_of, script_in}};
ghost use Rattle.shm_async.specs.Limited.{IsLimitedRun};
ghost use Rattle.shm_count.specs.Roots.{member};
ghost use Rattle.shm_plain.specs.Pools.{Pool};
ghost use Rattle.shm_replay.specs.Replays.{IsReplay};
ghost use Rattle.shm_script.specs.{Logged.Logged, Ranges.IsTrace, Values.{Scripted, Traced}};
ghost use Rattle.shm_team.specs.Rans.{IsTeamRun, entries_in};
ghost use Rattle.shm_outcomes.specs.{Crews.{HasCrew, IsCloserAlone}, Histories.{AreLogged, IsLogOfScript}};

/// Two runs of one trace that took the same turns, in the same order, end in the same pool and have the same logs; and so does a replay that took these turns.
pub fn runs_are_determined()
    ensures runs { (t : Traced) (p q : Pool) (ls ms : List Logged) → IsTeamRun t p ls → IsTeamRun t q ms → p.turns ≡ q.turns → (p ≡ q) × (ls ≡ ms) }
    ensures replays { (t : Traced) (p q : Pool) (ls ms : List Logged) → IsReplay t p ls → IsTeamRun t q ms → p.turns ≡ q.turns → (p ≡ q) × (ls ≡ ms) }
{}

/// Each log is one of a script of the trace: it has the first commands of that script, in order, none of which was refused for a spent era. And each
/// command that an identity finished is an entry of its log, with the answer that its machine gave.
pub fn commands_are_logged()
    ensures lines { (t : Traced) (p : Pool) (ls : List Logged) → IsTeamRun t p ls → AllByRecursion (IsLogOfScript t.scripts) ls }
    ensures finished { (t : Traced) (p : Pool) (ls : List Logged) → IsTeamRun t p ls → (c : ℕ) → c < t.clients → AreLogged (member p.start.geometry c) (account_at p.accounts c).told (entries_in ls c) }
{}

/// Each script has a log, and its end tells who worked for the identity. Where the client ended it began all its lines, and a client of the closing
/// came behind it, which joined, took what waited for it, and left. Where it died it had made all the word steps of its life, and begun a front of its lines.
/// For an identity without a script the client of the closing came alone.
pub fn agents_are_of_lines()
    ensures scripts { (t : Traced) (p : Pool) (ls : List Logged) → IsTeamRun t p ls → (c : ℕ) (s : Scripted) → c < t.clients → script_in t.scripts c ≡ Some s → HasCrew s (account_at p.accounts c) ls }
    ensures others { (t : Traced) (p : Pool) (ls : List Logged) → IsTeamRun t p ls → (c : ℕ) → c < t.clients → script_in t.scripts c ≡ None → IsCloserAlone (account_at p.accounts c) }
{}

/// Where identities are given up after so many turns, a client that died before the word steps of its life were made had made exactly so many. And an
/// agent of any kind that died so was given its last turn with them: its word steps, those of the agents before it, and their deaths are so many.
pub fn cuts_are_told()
    ensures clients { (t : Traced) (turns : ℕ) (p : Pool) (ls : List Logged) → IsLimitedRun t turns p ls → (c : ℕ) (s : Scripted) (steps : ℕ) → c < t.clients → script_in t.scripts c ≡ Some s → BeganWith (account_at p.accounts c).memo.agents steps fate.Died → steps < slice_index (lives_of s.life) 0 → steps ≡ turns }
    ensures agents { (t : Traced) (turns : ℕ) (p : Pool) (ls : List Logged) → IsTrace t → IsLimitedRun t turns p ls → (c : ℕ) (s : Scripted) (before behind : List AnAgent) (a : AnAgent) → c < t.clients → script_in t.scripts c ≡ Some s → (account_at p.accounts c).memo.agents ≡ before ++ a ∷ behind → a.fate ≡ fate.Died → a.steps < slice_index (lives_of s.life) (length before) → steps_of before + length before + a.steps ≡ turns }
{}
