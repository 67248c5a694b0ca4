//! A run of sessions is a run of the pool.

ghost use Rattle.std.specs.Prelude.{◌≡◌, ℕ, ◌<◌, List};
ghost use Rattle.shm_words.specs.Layout.{GeometryFits};
ghost use Rattle.shm_graph.specs.declared.run.{Account.Account as AnAccount, Start.Start as AStart};
ghost use Rattle.shm_graph.specs.Runs.{EraFits, Leads, first_memo, first_state, first_words, state};
ghost use Rattle.shm_headline.specs.{TurnsOf.turns_of, WordRuns.{Goes, nobody}};
ghost use Rattle.shm_sessions.specs.Logs.{Happening, IsLog, nothing_open, turns_in};

use crate::keeps::Keeps;

/// Sessions whose word steps are made as they ask for them, in one order, with one session an identity at a time, are a run of the pool,
/// whichever of them die, and when: the words are those that the turns lead to, and the counts are exact at first and after each turn.
pub fn sessions_lead<S: Keeps>()
    ensures leads { (s : AStart) → GeometryFits s.geometry → EraFits s.first_era → ((c : ℕ) → c < s.geometry.clients → S.always (first_memo s c)) → (hs : List Happening) (ws : List ℕ) → IsLog s.geometry S.operations nothing_open (first_words s) hs ws → (es : List AnAccount) × Leads s.geometry (first_state s) (turns_in s.geometry S.operations nothing_open hs) (state ws es) }
    ensures goes { (s : AStart) → GeometryFits s.geometry → EraFits s.first_era → ((c : ℕ) → c < s.geometry.clients → S.always (first_memo s c)) → (hs : List Happening) (ws : List ℕ) → IsLog s.geometry S.operations nothing_open (first_words s) hs ws → Goes s.geometry nobody (first_words s) (turns_of (turns_in s.geometry S.operations nothing_open hs)) ws }
{}
