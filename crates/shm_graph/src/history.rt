//! What a user of a pool may conclude from its runs.

ghost use Rattle.std.specs.Prelude.{◌≡◌, ◌≢◌, ℕ, ◌+◌, ◌<◌, ◌≤◌, ◌⊎◌, false, List, ◌∷◌, ◌++◌, Some};
ghost use Rattle.shm_words.specs.{declared.geometry.Geometry.Geometry as AGeometry, Layout.{GeometryFits, total_of}};
ghost use Rattle.shm_words.specs.Tags.{tag_author, tag_plain, tag_refs};
ghost use Rattle.shm_graph.specs.declared.{ask.Ask.TheVariants.Exchange, memo.Agent.Agent as AnAgent};
ghost use Rattle.shm_graph.specs.declared.{memo.{Kind.Kind as AKind, Step.Step as AStep}, run.Move.Move as AMove};
ghost use Rattle.shm_graph.specs.declared.run.{Move.TheVariants.{Word, Begins}, Start.Start as AStart};
ghost use Rattle.shm_graph.specs.{declared.spot.Spot.Spot as ASpot, Agents.{acts, last_agent, steps_made}, Asks.at_of};
ghost use Rattle.shm_graph.specs.{Blocks.{IsLive, classes, headers}, Controllers.IsController};
ghost use Rattle.shm_graph.specs.{Events.{Alloc, Up, ChangeUp, Free}, Histories.{IsTaken, event_at}, Ops.indegree};
ghost use Rattle.shm_graph.specs.{Runs.{EraFits, Held, State, first_state, memos_of, moved, Leads}, Sound.IsSound};
ghost use Rattle.shm_graph.specs.{Spots.{classes_in, see, spot_at}, Views.{held_overs, own_word, targets, view}};
ghost use Rattle.shm_graph.specs.declared.memo.Fate.TheVariants as fate;
ghost use Rattle.shm_graph.specs.declared.memo.Kind.TheVariants as kind;
ghost use Rattle.shm_graph.specs.declared.spot.Spot.TheVariants as spot;

/// Each state of a run from a pool's first state is sound, and each turn of a run is taken in a state to which the turns before it
/// lead.
pub fn runs_are_sound()
    ensures sound { (s : AStart) (ms : List AMove) (b : State) → GeometryFits s.geometry → EraFits s.first_era → Leads s.geometry (first_state s) ms b → IsSound s.geometry (see s.geometry b.words) (view (memos_of b.accounts)) }
    ensures taken { (g : AGeometry) (a : State) (ms : List AMove) (m : AMove) (ns : List AMove) (z : State) → Held g a.words a.accounts → Leads g a (ms ++ m ∷ ns) z → (b : State) × Leads g a ms b × IsTaken g b m × Leads g (moved b m) ns z }
{}

/// What a word step in a run leaves and needs: it is of this pool, and asks for a word of it; no word that another identity controls
/// changes; a block that is allocated was named by nothing, and is live and its author's then; a block that is live before and after
/// the step keeps its numbers of reference words and of plain words, and its author; no reference comes but to a block that has one; a
/// change begins only where its identity holds over none; no reference of a block that is freed is passed by; a header of another
/// client is overwritten only by one whose own row shows its era; no word of a row falls, and an own era rises by at most one.
pub fn word_turns()
    ensures others { (g : AGeometry) (s : State) (t : AStep) → IsTaken g s (Word t) → (d : ℕ) (p : ASpot) → d < g.clients → d ≢ t.me.who → IsController g (see g s.words) (view (memos_of s.accounts)) d p → see g (moved s (Word t)).words p ≡ see g s.words p }
    ensures allocated { (g : AGeometry) (s : State) (t : AStep) → IsTaken g s (Word t) → (c k b : ℕ) → event_at g s t ≡ Alloc c k b → (p : ASpot) → targets g (see g s.words) (view (memos_of s.accounts)) p ≢ b }
    ensures raised { (g : AGeometry) (s : State) (t : AStep) → IsTaken g s (Word t) → (c : ℕ) (p : ASpot) (b : ℕ) → event_at g s t ≡ Up c p b → 0 < indegree g (classes (see g s.words)) (targets g (see g s.words) (view (memos_of s.accounts))) (held_overs (view (memos_of s.accounts))) b }
    ensures changed { (g : AGeometry) (s : State) (t : AStep) → IsTaken g s (Word t) → (c : ℕ) (p : ASpot) (a b : ℕ) → event_at g s t ≡ ChangeUp c p a b → (0 < indegree g (classes (see g s.words)) (targets g (see g s.words) (view (memos_of s.accounts))) (held_overs (view (memos_of s.accounts))) b) × (held_overs (view (memos_of s.accounts)) c ≡ 0) }
    ensures freed { (g : AGeometry) (s : State) (t : AStep) → IsTaken g s (Word t) → (c b : ℕ) → event_at g s t ≡ Free c b → (i : ℕ) → targets g (see g s.words) (view (memos_of s.accounts)) (spot.Body b i) ≡ 0 }
    ensures rows { (g : AGeometry) (s : State) (t : AStep) → IsTaken g s (Word t) → (at from to b : ℕ) → t.ask ≡ Exchange at from to → spot_at g (classes_in g s.words) at ≡ spot.Head b → see g s.words (spot.Head b) ≡ from → IsLive (headers (see g s.words)) b → t.me.who ≢ (headers (see g s.words) b).client → (headers (see g s.words) b).era ≤ see g s.words (spot.Era t.me.who (headers (see g s.words) b).client) }
    ensures eras { (g : AGeometry) (s : State) (t : AStep) → IsTaken g s (Word t) → (i j : ℕ) → let n = see g s.words (spot.Era i j) in let x = see g (moved s (Word t)).words (spot.Era i j) in (n ≤ x) × (i ≡ j → x ≤ n + 1) }
    ensures placed { (g : AGeometry) (s : State) (t : AStep) → IsTaken g s (Word t) → (t.me.geometry ≡ g) × (at_of t.ask < total_of g) }
    ensures authored { (g : AGeometry) (s : State) (t : AStep) → IsTaken g s (Word t) → (c k b : ℕ) → event_at g s t ≡ Alloc c k b → let x = see g (moved s (Word t)).words in IsLive (headers x) b × (tag_author g.wide (x (spot.Tag b)) ≡ c) }
    ensures shaped { (g : AGeometry) (s : State) (t : AStep) → IsTaken g s (Word t) → (b : ℕ) → let w = see g s.words in let x = see g (moved s (Word t)).words in IsLive (headers w) b → IsLive (headers x) b → (tag_refs g.wide (x (spot.Tag b)) ≡ tag_refs g.wide (w (spot.Tag b))) × (tag_plain g.wide (x (spot.Tag b)) ≡ tag_plain g.wide (w (spot.Tag b))) × (tag_author g.wide (x (spot.Tag b)) ≡ tag_author g.wide (w (spot.Tag b))) }
{}

/// Along a run no word of a row falls. In a run from a pool's first state each own era is at least the first era, and at most that and
/// the word steps that the agents of its identity have made, as a word and as the memo of that identity shows it.
pub fn eras_rise()
    ensures rows { (g : AGeometry) (a : State) (ms : List AMove) (b : State) → Held g a.words a.accounts → Leads g a ms b → (i j : ℕ) → see g a.words (spot.Era i j) ≤ see g b.words (spot.Era i j) }
    ensures words { (s : AStart) (ms : List AMove) (b : State) → GeometryFits s.geometry → EraFits s.first_era → Leads s.geometry (first_state s) ms b → (c : ℕ) → c < s.geometry.clients → let n = see s.geometry b.words (spot.Era c c) in (s.first_era ≤ n) × (n ≤ s.first_era + steps_made (memos_of b.accounts c)) }
    ensures memo { (s : AStart) (ms : List AMove) (b : State) → GeometryFits s.geometry → EraFits s.first_era → Leads s.geometry (first_state s) ms b → (c : ℕ) → c < s.geometry.clients → let n = own_word (memos_of b.accounts c).own (spot.Era c c) in (s.first_era ≤ n) × (n ≤ s.first_era + steps_made (memos_of b.accounts c)) }
{}

/// In a run an agent begins only where none of its identity acts: a client where the status word is 0 or 3, a recoverer where the
/// last agent died.
pub fn agents_begin()
    ensures client { (g : AGeometry) (s : State) (c : ℕ) → IsTaken g s (Begins c kind.Client) → (see g s.words (spot.Status c) ≡ 0) ⊎ (see g s.words (spot.Status c) ≡ 3) }
    ensures recoverer { (g : AGeometry) (s : State) (c : ℕ) → IsTaken g s (Begins c kind.Recoverer) → (a : AnAgent) × (last_agent (memos_of s.accounts c).agents ≡ Some a) × (a.fate ≡ fate.Died) }
    ensures still { (g : AGeometry) (s : State) (c : ℕ) (k : AKind) → IsTaken g s (Begins c k) → acts (memos_of s.accounts c) ≡ false }
{}
