//! The laws of runs, and of machines that run by themselves.

ghost use Rattle.std.specs.Prelude.{◌≡◌, ◌≢◌, ℕ, Bool, true, false, ◌<◌, ◌⊎◌, List, [], ◌∷◌, ◌++◌, length};
ghost use Rattle.shm_words.specs.{declared.geometry.Geometry.Geometry as AGeometry, Layout.total_of};
ghost use Rattle.shm_graph.specs.declared.ask.{Ask.{Ask as AnAsk, TheVariants.{Load, Store, Exchange}}, Me.Me as AMe};
ghost use Rattle.shm_graph.specs.declared.memo.{Memo.Memo as AMemo, Kind.Kind as AKind, Status.TheVariants.{New, Gone}};
ghost use Rattle.shm_graph.specs.declared.spot.Spot.{Spot as ASpot, TheVariants.Status};
ghost use Rattle.shm_graph.specs.declared.run.{Account.Account as AnAccount, Move.Move as AMove};
ghost use Rattle.shm_graph.specs.declared.run.{Move.TheVariants.{Dies, Begins}, Start.Start as AStart};
ghost use Rattle.shm_graph.specs.{Spots.{spot_at, classes_in, see, is_in_body}, Blocks.classes, Views.{View, view}};
ghost use Rattle.shm_graph.specs.{Held.HeldAt, Controllers.IsAllowed, Events.Event};
ghost use Rattle.shm_graph.specs.Asks.{Trail, at_of, words_after, words_set};
ghost use Rattle.shm_graph.specs.Laws.{Frame, Stands, KeptAt, GoneNow, MayEnd};
ghost use Rattle.shm_graph.specs.Runs.{Held, State, account_at, first_state, memos_of, moved, IsMove, Turned, Leads};
ghost use Rattle.shm_graph.specs.CallEvents.{steps_of_call, events_of, steps_in, events_in, own_turns, IsUnbroken};
ghost use Rattle.shm_graph.specs.{Sound.IsSound, Clean.IsClean, Whole.{fits_now, gives_now, WholeInside, WholeKeeps}};
ghost use Rattle.shm_graph.specs.{ManySteps.{HasRun, IsAlong, Stop}, Tells.{Tells, GoesOn, machine_steps, tells_along}};

use crate::machine::Machine;
use crate::site::Site;

/// A step on the list of words that is allowed is the step at its spot.
pub fn word_steps()
    ensures { (g : AGeometry) (ws : List ℕ) (v : View) (c : ℕ) (a : AnAsk) (p : ASpot) → HeldAt g (see g ws) v → length ws ≡ total_of g → at_of a < total_of g → spot_at g (classes_in g ws) (at_of a) ≡ p → IsAllowed g (see g ws) v c a p → see g (words_set a ws) ≡ words_after (see g ws) a p }
{}

/// A run goes on by a turn and by another run, and ends in a state that holds.
pub fn runs_compose()
    ensures more { (g : AGeometry) (a : State) (ms : List AMove) (b : State) (m : AMove) → Leads g a ms b → IsMove b m → Turned g b m → Leads g a (ms ++ m ∷ []) (moved b m) }
    ensures append { (g : AGeometry) (a : State) (ms : List AMove) (b : State) (ns : List AMove) (c : State) → Leads g a ms b → Leads g b ns c → Leads g a (ms ++ ns) c }
    ensures split { (g : AGeometry) (a : State) (ms : List AMove) (ns : List AMove) (c : State) → Leads g a (ms ++ ns) c → (b : State) × Leads g a ms b × Leads g b ns c }
    ensures held { (g : AGeometry) (a : State) (ms : List AMove) (b : State) → Held g a.words a.accounts → Leads g a ms b → Held g b.words b.accounts }
{}

/// The invariant outlives the death of an agent, and the beginning of one.
pub fn agents_change()
    ensures dies { (g : AGeometry) (s : State) (c : ℕ) → Held g s.words s.accounts → c < g.clients → Turned g s (Dies c) }
    ensures begins { (g : AGeometry) (s : State) (c : ℕ) (k : AKind) → Held g s.words s.accounts → c < g.clients → Turned g s (Begins c k) }
{}

/// The law of a machine that runs by itself, of any machine: it asks for words of the pool, and each of its steps is a turn after
/// which it fits again, or gives what it answers.
pub fn machine_law<M: Machine>()
    ensures inside { WholeInside M.control (fits_now M.control M.fits) (gives_now M.gives) }
    ensures keeps { WholeKeeps M.control (fits_now M.control M.fits) (gives_now M.gives) }
{}

/// A state that holds is sound: memos show what the words say, counts are numbers of references, and no word is two identities'
/// to store.
pub fn held_state_sound()
    ensures { (g : AGeometry) (ws : List ℕ) (es : List AnAccount) → Held g ws es → IsSound g (see g ws) (view (memos_of es)) }
{}

/// A state that holds is clean where each identity is one that nobody has joined or that is gone.
pub fn still_state_clean()
    ensures { (g : AGeometry) (ws : List ℕ) (es : List AnAccount) → Held g ws es → ((c : ℕ) → c < g.clients → ((memos_of es c).status ≡ New) ⊎ ((memos_of es c).status ≡ Gone)) → IsClean g (see g ws) }
{}

/// In any frame these steps keep the invariant: the stores of the statuses live and dead, and of gone where nothing is left to
/// finish; a load of a word outside the pages' bodies; and an exchange there that finds another word than it names. A recoverer
/// loads its hold word only where no step of its identity is committed.
pub fn steps_keep()
    ensures live { (me : AMe) (w : ASpot → ℕ) (r : ℕ → AMemo) (f : Frame) (tr : Trail) (at : ℕ) → Stands me w r f tr → spot_at me.geometry (classes w) at ≡ Status me.who → KeptAt me w r (Store at 1) f (λ n m. Unit {0}) (spot_at me.geometry (classes w) at) }
    ensures dead { (me : AMe) (w : ASpot → ℕ) (r : ℕ → AMemo) (f : Frame) (tr : Trail) (at : ℕ) → Stands me w r f tr → spot_at me.geometry (classes w) at ≡ Status me.who → KeptAt me w r (Store at 2) f (λ n m. Unit {0}) (spot_at me.geometry (classes w) at) }
    ensures gone { (me : AMe) (w : ASpot → ℕ) (r : ℕ → AMemo) (f : Frame) (tr : Trail) (at : ℕ) → Stands me w r f tr → spot_at me.geometry (classes w) at ≡ Status me.who → GoneNow me.who (r me.who) → KeptAt me w r (Store at 3) f (λ n m. Unit {0}) (spot_at me.geometry (classes w) at) }
    ensures load { (me : AMe) (w : ASpot → ℕ) (r : ℕ → AMemo) (f : Frame) (tr : Trail) (at : ℕ) (p : ASpot) → Stands me w r f tr → spot_at me.geometry (classes w) at ≡ p → is_in_body p ≡ false → MayEnd me.who (r me.who) p → KeptAt me w r (Load at) f (λ n m. Unit {0}) (spot_at me.geometry (classes w) at) }
    ensures lost { (me : AMe) (w : ASpot → ℕ) (r : ℕ → AMemo) (f : Frame) (tr : Trail) (at from to : ℕ) (p : ASpot) → Stands me w r f tr → spot_at me.geometry (classes w) at ≡ p → is_in_body p ≡ false → MayEnd me.who (r me.who) p → w p ≢ from → KeptAt me w r (Exchange at from to) f (λ n m. Unit {0}) (spot_at me.geometry (classes w) at) }
{}

/// What is accounted for of an identity has its turns of the run, the first one first.
pub fn accounts_keep_turns()
    ensures { (s : AStart) (ms : List AMove) (b : State) → Leads s.geometry (first_state s) ms b → (c : ℕ) → c < s.geometry.clients → (account_at b.accounts c).turns ≡ own_turns c ms }
{}

/// The events of a call are a function of its pairs and of the memo before it: no word of the pool enters.
pub fn call_events()
    ensures told { (g : AGeometry) (c : ℕ) (a : State) (ms : List AMove) (b : State) → c < length a.accounts → IsUnbroken c ms → Leads g a ms b → events_in g c a ms ≡ events_of (memos_of a.accounts c) (steps_in c ms) }
    ensures pairs { (g : AGeometry) (c : ℕ) (a : State) (ms : List AMove) (b : State) (me : AMe) (line : List ℕ) (whole : Bool) (tr : Trail) → c < length a.accounts → IsUnbroken c ms → Leads g a ms b → steps_in c ms ≡ steps_of_call me line true whole tr → events_in g c a ms ≡ events_of (memos_of a.accounts c) (steps_of_call me line true whole tr) }
{}

/// The events of a call of a machine that runs by itself are those that it tells: its control and the words found give them.
pub fn own_events<M: Machine>()
    ensures { (does : M → ℕ → Event) → Tells M.control M.fits does → (g : AGeometry) (c : ℕ) (a : State) (ms : List AMove) (b : State) (m : M) (r0 : AMemo) (tr : Trail) → M.control.me m ≡ record { geometry = g; who = c } → c < g.clients → c < length a.accounts → Held g a.words a.accounts → IsUnbroken c ms → Leads g a ms b → fits_now M.control M.fits m r0 (memos_of a.accounts c) → GoesOn M.control m tr → steps_in c ms ≡ machine_steps M.control m tr → events_in g c a ms ≡ tells_along M.control does m tr }
{}

/// Many word steps of a machine ran along a trail: the machine is where that leads, its life fell by as much as that is long, and it has answered at the
/// last pair, or no life is left.
pub fn runs_along<M: Machine, S: Site>()
    ensures { (site : S) (n : ℕ) (m : M) (w : S.Words) (z : Stop M S.Words M.Answer) → HasRun M.control (S.made site) (S.seen site) n m w z → IsAlong M.control (S.made site) (S.seen site) n m w z }
{}
