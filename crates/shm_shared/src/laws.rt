//! A run of sessions of a pool for tables, or of one for single blocks, is a run of the pool.

ghost use Rattle.std.specs.Prelude.{◌≡◌, ℕ, List, true, false};
ghost use Rattle.shm_words.specs.Layout.{GeometryFits};
ghost use Rattle.shm_graph.specs.declared.run.{Account.Account as AnAccount, Start.Start as AStart};
ghost use Rattle.shm_graph.specs.Runs.{EraFits, Leads, first_state, first_words, state};
ghost use Rattle.shm_headline.specs.{TurnsOf.turns_of, WordRuns.{Goes, nobody}};
ghost use Rattle.shm_sessions.specs.Logs.{Happening, IsLog, nothing_open, turns_in};
ghost use Rattle.shm_singles.specs.Singles.{singles};
ghost use Rattle.shm_sitting.specs.Tables.{tables};

/// Sessions of a pool for tables, whose word steps are made as they ask for them, in one order, with one session an identity at a time, are
/// a run of the pool, whichever of them die, and when: the words are those that the turns lead to, and the counts are exact at first and after each turn.
pub fn table_sessions_lead()
    ensures leads { (s : AStart) → GeometryFits s.geometry → EraFits s.first_era → s.tables ≡ true → (hs : List Happening) (ws : List ℕ) → IsLog s.geometry tables nothing_open (first_words s) hs ws → (es : List AnAccount) × Leads s.geometry (first_state s) (turns_in s.geometry tables nothing_open hs) (state ws es) }
    ensures goes { (s : AStart) → GeometryFits s.geometry → EraFits s.first_era → s.tables ≡ true → (hs : List Happening) (ws : List ℕ) → IsLog s.geometry tables nothing_open (first_words s) hs ws → Goes s.geometry nobody (first_words s) (turns_of (turns_in s.geometry tables nothing_open hs)) ws }
{}

/// The same of sessions of a pool for single blocks. An operation that finds its identity's era spent leaves it dead: so its client dies with
/// that answer, and whoever takes the identity next recovers it.
pub fn block_sessions_lead()
    ensures leads { (s : AStart) → GeometryFits s.geometry → EraFits s.first_era → s.tables ≡ false → (hs : List Happening) (ws : List ℕ) → IsLog s.geometry singles nothing_open (first_words s) hs ws → (es : List AnAccount) × Leads s.geometry (first_state s) (turns_in s.geometry singles nothing_open hs) (state ws es) }
    ensures goes { (s : AStart) → GeometryFits s.geometry → EraFits s.first_era → s.tables ≡ false → (hs : List Happening) (ws : List ℕ) → IsLog s.geometry singles nothing_open (first_words s) hs ws → Goes s.geometry nobody (first_words s) (turns_of (turns_in s.geometry singles nothing_open hs)) ws }
{}
