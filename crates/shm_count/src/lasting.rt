//! What count steps and tear-downs leave of their agent, of the status and of what is known.

ghost use Rattle.std.specs.Prelude.{◌≡◌, ◌≢◌, ◌⊎◌, ◌<◌, ◌^◌, ◌++◌, ◌∷◌, [], if◌then◌else◌, ℕ, true, false, Bool, List, Result, Ok, Err, IfOk};
ghost use Rattle.std.specs.List.{Contains, filter};
ghost use Rattle.shm_graph.specs.declared.{ask.Me.Me as AMe, memo.Memo.Memo as AMemo, spot.Spot.Spot as ASpot};
ghost use Rattle.shm_graph.specs.{Asks.Trail, Events.Event as AnEvent, Held.is_slot, Idle.IsIdle, Reach.is_named};
ghost use Rattle.shm_graph.specs.{MemoAfterStore.{is_of, not_block}, Views.own_word};
ghost use Rattle.shm_graph.specs.declared.spot.Spot.TheVariants as spots;
ghost use Rattle.plans.specs.{Grown.{Grows, grown}, Parts.PartLaws};
ghost use Rattle.shm_count.specs.declared.answer.{EraSpent.EraSpent as ASpent, UpFault.UpFault as AFault};
ghost use Rattle.shm_count.specs.declared.answer.UpFault.TheVariants.{EraSpent, CountFull};
ghost use Rattle.shm_count.specs.declared.point.{Aim.TheVariants.Down, Half.TheVariants.First};
ghost use Rattle.shm_count.specs.declared.point.StepState.{StepState as AState};
ghost use Rattle.shm_count.specs.declared.tear_point.TearState.{TearState as ATearState};
ghost use Rattle.shm_count.specs.MadeSteps.{change_making, down_making, made_up_part, tear_making, up_making};
ghost use Rattle.shm_count.specs.{Operating.{TearDownLeaves, tearing}, Refusing.ReadsCount};
ghost use Rattle.shm_count.specs.Roots.{AreRootsReached, root_word};
ghost use Rattle.shm_count.specs.Step.{Control.{last_era, block_at, raises, step_control}, StepGives};
ghost use Rattle.shm_count.specs.{Step.Machines.{down_control, up_control}, Tear.{Control.tear_control, TearGives}};
ghost use Rattle.shm_count.specs.{Tear.Memos.{Knows, Retains}, Lasting.is_lasting, Waiting.LeavesQueues};

/// Whatever a count step answers, the status and the agent are what they were, and what was read of tails and heads stays.
pub fn step_lasts()
    ensures { (p : ASpot) (m : AState) (r0 r : AMemo) (tr : Trail) (a : Result Bool AFault) → StepGives p m r0 r tr a → (r.status ≡ r0.status) × Grows true r0 r }
{}

/// Whatever a tear-down answers, the agent is what it was, and what was read of tails and heads stays; known head slots stay known, and words and
/// value blocks of blocks that are named.
pub fn tear_lasts()
    ensures { (m : ATearState) (r0 r : AMemo) (tr : Trail) (a : Result (Unit {0}) ASpent) → TearGives m r0 r tr a → Retains m.me.who r0 r × Grows true r0 r }
{}

/// Whatever a tear-down answers, the same blocks are named by the own roots, the own home and known head slots as before, and of these
/// blocks each word that was known is known, and each value block is one; head slots stay known; the looks are as before, or there are none.
pub fn tear_retains()
    ensures named { (m : ATearState) (r0 r : AMemo) (tr : Trail) (a : Result (Unit {0}) ASpent) → TearGives m r0 r tr a → (b : ℕ) → is_named m.me.who r b ≡ is_named m.me.who r0 b }
    ensures words { (m : ATearState) (r0 r : AMemo) (tr : Trail) (a : Result (Unit {0}) ASpent) → TearGives m r0 r tr a → (b : ℕ) (p : ASpot) (x : ℕ) → is_named m.me.who r0 b ≡ true → is_of b p ≡ true → Knows r0 p x → Knows r p x }
    ensures values { (m : ATearState) (r0 r : AMemo) (tr : Trail) (a : Result (Unit {0}) ASpent) → TearGives m r0 r tr a → (b : ℕ) → is_named m.me.who r0 b ≡ true → Contains r0.values b → Contains r.values b }
    ensures slots { (m : ATearState) (r0 r : AMemo) (tr : Trail) (a : Result (Unit {0}) ASpent) → TearGives m r0 r tr a → (p : ASpot) (x : ℕ) → is_slot p ≡ true → Knows r0 p x → Knows r p x }
    ensures looks { (m : ATearState) (r0 r : AMemo) (tr : Trail) (a : Result (Unit {0}) ASpent) → TearGives m r0 r tr a → (r.looks ≡ r0.looks) ⊎ (r.looks ≡ []) }
{}

/// Once a tear-down is done its block is no zero-count block any more. Whatever it answers, the roots, the latch and what waits in queues are
/// what they were, and what roots name is in reach.
pub fn tear_keeps()
    ensures freed { (me : AMe) (b : ℕ) (r0 r : AMemo) (tr : Trail) (es : List AnEvent) (a : Result (Unit {0}) ASpent) → TearDownLeaves (tearing me b) r0 r tr es a → IfOk a (λ u. r.dying ≡ filter (not_block b) r0.dying) }
    ensures roots { (me : AMe) (b : ℕ) (r0 r : AMemo) (tr : Trail) (es : List AnEvent) (a : Result (Unit {0}) ASpent) → TearDownLeaves (tearing me b) r0 r tr es a → (k : ℕ) → root_word me.who r k ≡ root_word me.who r0 k }
    ensures left { (me : AMe) (b : ℕ) (r0 r : AMemo) (tr : Trail) (es : List AnEvent) (a : Result (Unit {0}) ASpent) → TearDownLeaves (tearing me b) r0 r tr es a → LeavesQueues r0 r }
    ensures reached { (me : AMe) (b : ℕ) (r0 r : AMemo) (tr : Trail) (es : List AnEvent) (a : Result (Unit {0}) ASpent) → TearDownLeaves (tearing me b) r0 r tr es a → IsIdle me.who r0 → AreRootsReached me.who r }
{}

/// A step down that is done at an own root leaves it empty, and its block joins the zero-count blocks where its count came to 0; of the
/// other blocks that are named still each word that was known is known, and each value block is one; head slots stay known.
pub fn root_down_retains()
    ensures root { (k t : ℕ) (m : AState) (r0 r : AMemo) (tr : Trail) (z : Bool) → StepGives (spots.Root m.me.who k) m r0 r tr (Ok z) → m.aim ≡ Down t → own_word r0.own (spots.Era m.me.who m.me.who) < 2 ^ 47 → (own_word r.own (spots.Root m.me.who k) ≡ 0) × (r.dying ≡ r0.dying ++ (if z then t ∷ [] else [])) }
    ensures words { (k t : ℕ) (m : AState) (r0 r : AMemo) (tr : Trail) (z : Bool) → StepGives (spots.Root m.me.who k) m r0 r tr (Ok z) → m.aim ≡ Down t → own_word r0.own (spots.Era m.me.who m.me.who) < 2 ^ 47 → (b : ℕ) (p : ASpot) (x : ℕ) → is_named m.me.who r b ≡ true → (z ≡ true → b ≢ t) → is_of b p ≡ true → Knows r0 p x → Knows r p x }
    ensures values { (k t : ℕ) (m : AState) (r0 r : AMemo) (tr : Trail) (z : Bool) → StepGives (spots.Root m.me.who k) m r0 r tr (Ok z) → m.aim ≡ Down t → own_word r0.own (spots.Era m.me.who m.me.who) < 2 ^ 47 → (b : ℕ) → is_named m.me.who r b ≡ true → Contains r0.values b → Contains r.values b }
    ensures slots { (k t : ℕ) (m : AState) (r0 r : AMemo) (tr : Trail) (z : Bool) → StepGives (spots.Root m.me.who k) m r0 r tr (Ok z) → m.aim ≡ Down t → own_word r0.own (spots.Era m.me.who m.me.who) < 2 ^ 47 → (p : ASpot) (x : ℕ) → is_slot p ≡ true → Knows r0 p x → Knows r p x }
{}

/// A count step is refused as spent exactly with the own era that leaves no room, and nothing changed; and as full only where it raises
/// the block, and a header of it that the call read shows 1,023: then but for the redo record and the own row no own word changed.
pub fn step_refusals()
    ensures spent { (p : ASpot) (m : AState) (r0 r : AMemo) (tr : Trail) (e : ℕ) → StepGives p m r0 r tr (Err (EraSpent e)) → (e ≡ own_word r0.own (spots.Era m.me.who m.me.who)) × (last_era m.aim < e) × (r.own ≡ r0.own) × (r.known ≡ r0.known) × (r.dying ≡ r0.dying) }
    ensures full { (p : ASpot) (m : AState) (r0 r : AMemo) (tr : Trail) (b n : ℕ) → StepGives p m r0 r tr (Err (CountFull b n)) → (n ≡ 1023) × (b ≡ block_at m.aim First) × (raises m.aim First ≡ true) × ReadsCount b n tr }
    ensures stays { (p : ASpot) (m : AState) (r0 r : AMemo) (tr : Trail) (b n : ℕ) → StepGives p m r0 r tr (Err (CountFull b n)) → (r.known ≡ r0.known) × (r.dying ≡ r0.dying) × ((q : ASpot) → is_lasting m.me.who q ≡ true → own_word r.own q ≡ own_word r0.own q) }
{}

/// A tear-down in a larger machine leaves all that was read, and the blocks that the call made, but for those that its events touch.
pub fn tear_in_call()
    ensures { (first : Bool) → PartLaws first tear_control (grown first (tear_making first)) }
{}

/// A step up in a larger machine, at a block that the call made, is not refused as full.
pub fn up_of_made()
    ensures { (p : ASpot) → PartLaws false up_control (made_up_part p) }
{}

/// A count step in a larger machine leaves all that was read, and the blocks that the call made, but for those that its events touch.
pub fn step_in_call()
    ensures up { (first : Bool) (p : ASpot) → PartLaws first up_control (grown first (up_making p first)) }
    ensures down { (first : Bool) (p : ASpot) → PartLaws first down_control (grown first (down_making p first)) }
    ensures change { (first : Bool) (p : ASpot) → PartLaws first step_control (grown first (change_making p first)) }
{}
