//! What a replay and a run leave of a trace, in words, counts, logs and maps alone.

ghost use Rattle.std.specs.Prelude.{◌≡◌, ℕ, ◌≤◌, List, length};
ghost use Rattle.shm_async.specs.Limited.{IsLimitedRun};
ghost use Rattle.shm_graph.specs.Spots.{see};
ghost use Rattle.shm_headline.specs.Headline.{AreShorter, Headline, Reported, ReportedCut};
ghost use Rattle.shm_plain.specs.Pools.{Pool};
ghost use Rattle.shm_replay.specs.Replays.{IsReplay};
ghost use Rattle.shm_report.specs.Report.{report_of};
ghost use Rattle.shm_script.specs.{Logged.Logged, Ranges.IsTrace, Text.text_of, Values.Traced};
ghost use Rattle.shm_team.specs.Rans.{IsTeamRun};

/// What the replay of a trace leaves, and what clients on threads or clients that are polled leave of it, is as the headline says; and the
/// report of its words and logs is one that the headline speaks of. Where polled clients are given up after so many turns, this holds of the
/// trace with the lives cut.
pub fn runs_are_headlines()
    ensures replay { (t : Traced) (p : Pool) (ls : List Logged) → IsTrace t → IsReplay t p ls → Headline t ls p.words }
    ensures team { (t : Traced) (p : Pool) (ls : List Logged) → IsTrace t → IsTeamRun t p ls → Headline t ls p.words }
    ensures limited { (t : Traced) (turns : ℕ) (p : Pool) (ls : List Logged) → IsTrace t → (r : IsLimitedRun t turns p ls) → AreShorter t.scripts r.scripts × Headline (record t { scripts = r.scripts }) ls p.words }
    ensures replay_told { (t : Traced) (p : Pool) (ls : List Logged) (bytes : List ℕ) → IsTrace t → length bytes ≤ 1048576 → bytes ≡ text_of t → (r : IsReplay t p ls) → Reported bytes (report_of p.start.geometry (see p.start.geometry p.words) r.table ls) }
    ensures team_told { (t : Traced) (p : Pool) (ls : List Logged) (bytes : List ℕ) → IsTrace t → length bytes ≤ 1048576 → bytes ≡ text_of t → (r : IsTeamRun t p ls) → Reported bytes (report_of p.start.geometry (see p.start.geometry p.words) r.table ls) }
    ensures limited_told { (t : Traced) (turns : ℕ) (p : Pool) (ls : List Logged) (bytes : List ℕ) → IsTrace t → length bytes ≤ 1048576 → bytes ≡ text_of t → (r : IsLimitedRun t turns p ls) → ReportedCut bytes (report_of p.start.geometry (see p.start.geometry p.words) r.run.table ls) }
{}
