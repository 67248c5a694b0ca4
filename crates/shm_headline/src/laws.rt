//! What the words of a pool alone tell of its steps in progress, and of its runs.

ghost use Rattle.std.specs.Prelude.{◌≡◌, ℕ, ◌<◌, List, ◌∷◌, None, Some, false};
ghost use Rattle.shm_words.specs.{declared.geometry.Geometry.Geometry as AGeometry, Layout.GeometryFits};
ghost use Rattle.shm_graph.specs.declared.{memo.Agent.Agent as AnAgent, run.Account.Account as AnAccount};
ghost use Rattle.shm_graph.specs.declared.{run.{Move.Move as AMove, Start.Start as AStart}, spot.Spot.Spot as ASpot};
ghost use Rattle.shm_graph.specs.{Agents.acts, Ops.cover_of};
ghost use Rattle.shm_graph.specs.Runs.{EraFits, Held, Leads, State, account_at, first_state, first_words, memos_of};
ghost use Rattle.shm_graph.specs.{Sound.IsSound, Spots.see, Views.{View, held_overs, targets}};
ghost use Rattle.shm_graph.specs.declared.memo.Fate.TheVariants as fate;
ghost use Rattle.shm_headline.specs.{MachineRuns.AreMade, Now.{IsExact, given_by, names, owed, record_of}};
ghost use Rattle.shm_headline.specs.{TurnsOf.turns_of, WordRuns.{Goes, death_of, nobody}};

use shm_graph::Machine;

/// In a sound state the words alone show what each step in progress makes of its slot, and the block whose count it has still to lower, as the
/// memos do. So each word names by the words what it names by the memos, and the counts are exact; they are in each state that holds.
pub fn words_tell_steps()
    ensures given { (g : AGeometry) (w : ASpot → ℕ) (v : View) → IsSound g w v → (c : ℕ) → c < g.clients → given_by g w c (record_of g w c) ≡ cover_of (v.op c) }
    ensures owed { (g : AGeometry) (w : ASpot → ℕ) (v : View) → IsSound g w v → (c : ℕ) → c < g.clients → owed g w c ≡ held_overs v c }
    ensures names { (g : AGeometry) (w : ASpot → ℕ) (v : View) → IsSound g w v → (p : ASpot) → names g w p ≡ targets g w v p }
    ensures exact { (g : AGeometry) (ws : List ℕ) (v : View) → GeometryFits g → IsSound g (see g ws) v → IsExact g (see g ws) }
    ensures held { (g : AGeometry) (ws : List ℕ) (es : List AnAccount) → Held g ws es → IsExact g (see g ws) }
{}

/// A run is, by its words alone, a run in which the counts are exact at first and after each turn, and turns are of those who may take them: from any
/// state that holds, and from a pool's first state, where nobody is at work. And the turns show of the first
/// agent of an identity whether it died, and after how many word steps.
pub fn runs_by_words()
    ensures leads { (g : AGeometry) (a : State) (ms : List AMove) (b : State) → Held g a.words a.accounts → Leads g a ms b → Goes g (λ c. acts (memos_of a.accounts c)) a.words (turns_of ms) b.words }
    ensures runs { (s : AStart) (ms : List AMove) (b : State) → GeometryFits s.geometry → EraFits s.first_era → Leads s.geometry (first_state s) ms b → Goes s.geometry nobody (first_words s) (turns_of ms) b.words }
    ensures died { (s : AStart) (ms : List AMove) (b : State) → GeometryFits s.geometry → EraFits s.first_era → Leads s.geometry (first_state s) ms b → (c : ℕ) (a : AnAgent) (others : List AnAgent) → c < s.geometry.clients → (account_at b.accounts c).memo.agents ≡ a ∷ others → a.fate ≡ fate.Died → death_of c false 0 (turns_of ms) ≡ Some a.steps }
    ensures ended { (s : AStart) (ms : List AMove) (b : State) → GeometryFits s.geometry → EraFits s.first_era → Leads s.geometry (first_state s) ms b → (c : ℕ) (a : AnAgent) (others : List AnAgent) → c < s.geometry.clients → (account_at b.accounts c).memo.agents ≡ a ∷ others → a.fate ≡ fate.Ended → death_of c false 0 (turns_of ms) ≡ None }
{}

/// Whatever machines of one kind step, each in a state whose memo it fits, in any order and with deaths between any two word steps: each state on
/// the way is Held, so sound, and each word step is one event.
pub fn machines_lead<M: Machine>()
    ensures { (g : AGeometry) (a : State) (ms : List AMove) (b : State) → Held g a.words a.accounts → AreMade M.control M.fits g a ms b → Leads g a ms b }
{}
