//! How a count step begins, and what count steps and tear-downs do to the graph of references.

ghost use Rattle.std.specs.Prelude.{◌≡◌, ◌≢◌, ℕ, ◌-◌, ◌^◌, ◌<◌, [], ◌∷◌, ◌++◌, Bool, List, Result, Ok, Err, is_ok};
ghost use Rattle.std.specs.List.{All, Contains};
ghost use Rattle.shm_graph.specs.declared.{ask.Me.Me as AMe, memo.Memo.Memo as AMemo, spot.Spot.Spot as ASpot};
ghost use Rattle.shm_graph.specs.{declared.run.Move.Move as AMove, Asks.Trail, Events.{Event, Free}};
ghost use Rattle.shm_graph.specs.{Runs.{State, memos_of}, Tells.Tells, Views.own_word};
ghost use Rattle.shm_graph.specs.declared.spot.Spot.TheVariants as spots;
ghost use Rattle.shm_count.specs.declared.answer.{EraSpent.EraSpent as ASpent, UpFault.UpFault as AFault};
ghost use Rattle.shm_count.specs.declared.point.{StepPoint.TheVariants.Era, StepState.StepState as AState};
ghost use Rattle.shm_count.specs.{declared.tear_point.TearState.TearState as ATear, Calling.{IsCall, happened_in}};
ghost use Rattle.shm_count.specs.CountParts.{IsStep, IsTear};
ghost use Rattle.shm_count.specs.Step.Machines.{IsUp, IsDown, IsChange, up_control, down_control, up_told, down_told};
ghost use Rattle.shm_count.specs.Step.Control.{step_control, StepInRange};
ghost use Rattle.shm_count.specs.Step.{ExchangeMade.{step_exchanged, step_exchanging}, Events.{step_event, own_events}};
ghost use Rattle.shm_count.specs.{Step.{StepFits, CanStep}, StepsAt.{UpGivesAt, DownGivesAt, ChangeGivesAt}};
ghost use Rattle.shm_count.specs.Tear.Control.{tear_control};
ghost use Rattle.shm_count.specs.Tear.Events.{Visit, Walk, InOrder, events_of, IsTearing, frees_of};
ghost use Rattle.shm_count.specs.Tear.{TearGives, TearLeaves};
ghost use Rattle.plans.specs.Deciding.{Decides};

/// A count step that has just been made fits each memo that shows its slot to be the identity's, holding what the step needs there,
/// and a block that is to be raised to be in reach.
pub fn step_begins()
    ensures { (p : ASpot) (m : AState) (r : AMemo) → m.point ≡ Era → StepInRange m → CanStep m.me m.slot m.aim p r → StepFits p m r r [] }
{}

/// The event of each word step of a count step is the one that it tells: an exchange of the header that finds it is the half of the
/// step, and no other word step is an event.
pub fn step_events()
    ensures { (p : ASpot) → Tells step_control (StepFits p) (step_event p) }
{}

/// In a run of a pool the own events of a count step that is done are exactly its own, and where it is refused there are none.
pub fn step_own_events()
    ensures up { (p : ASpot) (m : AState) (a : State) (ms : List AMove) (b : State) (r : AMemo) (tr : Trail) (x : Result (Unit {0}) AFault) → IsUp m → IsStep p m (memos_of a.accounts m.me.who) → IsCall up_control m a ms b tr → UpGivesAt p m (memos_of a.accounts m.me.who) r tr x → happened_in m.me a ms ≡ own_events m.me m.aim p (up_told x) }
    ensures down { (p : ASpot) (m : AState) (a : State) (ms : List AMove) (b : State) (r : AMemo) (tr : Trail) (x : Result Bool ASpent) → IsDown m → IsStep p m (memos_of a.accounts m.me.who) → IsCall down_control m a ms b tr → DownGivesAt p m (memos_of a.accounts m.me.who) r tr x → happened_in m.me a ms ≡ own_events m.me m.aim p (down_told x) }
    ensures change { (p : ASpot) (m : AState) (a : State) (ms : List AMove) (b : State) (r : AMemo) (tr : Trail) (x : Result Bool AFault) → IsChange m → IsStep p m (memos_of a.accounts m.me.who) → IsCall step_control m a ms b tr → ChangeGivesAt p m (memos_of a.accounts m.me.who) r tr x → happened_in m.me a ms ≡ own_events m.me m.aim p x }
{}

/// In a run of a pool a tear-down that has answered leaves what its answer says of the own events of the run.
pub fn tear_own_events()
    ensures { (m : ATear) (a : State) (ms : List AMove) (b : State) (r : AMemo) (tr : Trail) (x : Result (Unit {0}) ASpent) → IsTear m (memos_of a.accounts m.me.who) → IsCall tear_control m a ms b tr → TearGives m (memos_of a.accounts m.me.who) r tr x → TearLeaves m.me m.first (memos_of a.accounts m.me.who) r (happened_in m.me a ms) tr x }
{}

/// The events of a tear-down that is done: the block itself is freed last; each reference that is lost is one of a block that is freed,
/// and each other block that is freed lost a reference.
pub fn tear_done()
    ensures last { (me : AMe) (first : ℕ) (r0 r : AMemo) (es : List Event) (tr : Trail) → TearLeaves me first r0 r es tr (Ok tt) → (before : List Event) × (es ≡ before ++ Free me.who first ∷ []) }
    ensures each { (me : AMe) (first : ℕ) (r0 r : AMemo) (es : List Event) (tr : Trail) → TearLeaves me first r0 r es tr (Ok tt) → All (IsTearing me.who first es) es }
{}

/// The events of a tear-down that is refused: with the freeing of the blocks that it was working on, the innermost first, which are
/// zero-count blocks still, they are those of a walk over the block. The own era leaves no room for a step down.
pub fn tear_stopped()
    ensures walk { (me : AMe) (first : ℕ) (r0 r : AMemo) (es : List Event) (tr : Trail) (e : ASpent) → TearLeaves me first r0 r es tr (Err e) → (vs : List Visit) × (vs ≢ []) × All (λ v. Contains r.dying v.block) vs × ((x : Walk) × InOrder 0 x × (es ++ frees_of me.who vs ≡ events_of me.who first x)) }
    ensures spent { (me : AMe) (first : ℕ) (r0 r : AMemo) (es : List Event) (tr : Trail) (e : ASpent) → TearLeaves me first r0 r es tr (Err e) → (e.era ≡ own_word r.own (spots.Era me.who me.who)) × (2 ^ 47 - 3 < e.era) }
{}

/// What a count step answers is decided by its exchange, of a change by that of its first half: from then on it is done, whatever words are found,
/// and before it a step that ends is refused.
pub fn steps_decide()
    ensures up { Decides up_control step_exchanged step_exchanging is_ok }
    ensures down { Decides down_control step_exchanged step_exchanging is_ok }
    ensures change { Decides step_control step_exchanged step_exchanging is_ok }
{}
