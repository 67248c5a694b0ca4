//! What holds of the machine of any plan, and of any word step.

ghost use Rattle.std.specs.{Prelude.{◌≡◌, ◌||◌, ℕ, Bool, true, false, Option, Some, [], List}, List.Contains};
ghost use Rattle.shm_graph.specs.declared.{memo.Memo.Memo as AMemo, ask.{Ask.Ask as AnAsk, Me.Me as AMe}};
ghost use Rattle.shm_graph.specs.{declared.spot.Spot.Spot as ASpot, Asks.Trail, Changes.memo_on};
ghost use Rattle.shm_graph.specs.{Laws.{Frame, event_on, framed, is_some}, Tells.{Tells, after_all, happens_along}};
ghost use Rattle.plans.specs.{Plans.plan_trail, CallsControl.{calls_control, calls_of, calls_does}};
ghost use Rattle.plans.specs.CallsFit.{CallsFits, CallsGives};
ghost use Rattle.plans.specs.Deciding.{Foretells, PlanForetells, StillRuns, calls_deciding, calls_effect, is_decided_along};
ghost use Rattle.plans.specs.{Grown.Grows, MadeStays.touches, Placed.MayStand};

use crate::plan::Plan;
use shm_graph::Machine;

/// Before its first word step it fits each memo of which what the plan knows before its first call is so.
pub fn calls_begin<P: Plan>()
    ensures { (p : P) (r : AMemo) → P.plan.steered.first p ≡ true → P.plan.steered.start p ≡ p → P.plan.knows p r r [] [] → CallsFits P.Call.control P.plan (calls_of P.plan.steered p) r r [] }
{}

/// The events of its word steps are those that its calls tell of.
pub fn calls_events<P: Plan>()
    ensures { Tells (calls_control P.Call.control P.plan.steered) (CallsFits P.Call.control P.plan) (calls_does P.Call.control P.plan) }
{}

/// What it gives is what the plan leaves, by the events that it tells of; and what it asked is one of the plan's trails.
pub fn calls_leave<P: Plan>()
    ensures leaves { (p : P) (r0 r : AMemo) (tr : Trail) (a : P.Answer) → P.plan.steered.start p ≡ p → CallsGives P.Call.control P.plan (calls_of P.plan.steered p) r0 r tr a → P.plan.leaves p r0 r tr (happens_along (calls_control P.Call.control P.plan.steered) (calls_does P.Call.control P.plan) (calls_of P.plan.steered p) tr) a }
    ensures trail { (p : P) (r0 r : AMemo) (tr : Trail) (a : P.Answer) → P.plan.steered.start p ≡ p → CallsGives P.Call.control P.plan (calls_of P.plan.steered p) r0 r tr a → plan_trail P.plan p tr a }
{}

/// Each word step leaves its agent what it is, and what was read of tails and heads, and where it isn't a machine's first all that was read.
pub fn step_grows()
    ensures { (first : Bool) (m : AMemo) (me : AMe) (a : AnAsk) (f : Frame) (n : ℕ) (p : ASpot) → MayStand first f → Grows first m (memo_on m (framed me a f n) p) }
{}

/// Where it isn't a machine's first, a block that the call made is so still, unless its event changes the number of references to the block.
pub fn step_spares()
    ensures { (m : AMemo) (me : AMe) (a : AnAsk) (f : Frame) (n : ℕ) (p : ASpot) (d : ℕ) → f.fresh ≡ false → touches d (event_on m (framed me a f n) p) ≡ false → Contains m.made d → Contains (memo_on m (framed me a f n) p).made d }
{}

/// Where the calls of a plan tell of its deciding step, and what it will answer stays from that step on, the machine foretells its answer.
pub fn calls_foretell<P: Plan>()
    ensures { (decided : P → P.Call → Bool) (deciding : P → P.Call → ℕ → Bool) (says : P → P.Call.Answer → Bool) (will : P → P.Answer) → PlanForetells P.Call.control P.plan decided deciding says P.Answer (λ a. a) will → Foretells (calls_control P.Call.control P.plan.steered) (λ a. a) (calls_effect P.Call.control P.plan decided deciding says will) (calls_deciding P.Call.control P.plan decided deciding says) }
{}

/// A machine that foretells its answer shows it exactly from the deciding step on, and the answer is what any state before it showed, whatever
/// words are found.
pub fn foretold_answers<M: Machine>()
    ensures shown { (effect : M → Option M.Answer) (deciding : M → ℕ → Bool) → Foretells M.control (λ a. a) effect deciding → (m : M) (tr : Trail) → StillRuns M.control m tr → is_some (effect (after_all M.control m tr)) ≡ (is_some (effect m) || is_decided_along M.control deciding m tr) }
    ensures stays { (effect : M → Option M.Answer) (deciding : M → ℕ → Bool) → Foretells M.control (λ a. a) effect deciding → (m : M) (tr : Trail) (x : M.Answer) → StillRuns M.control m tr → effect m ≡ Some x → effect (after_all M.control m tr) ≡ Some x }
    ensures answers { (effect : M → Option M.Answer) (deciding : M → ℕ → Bool) → Foretells M.control (λ a. a) effect deciding → (m : M) (tr : Trail) (n : ℕ) (x a : M.Answer) → StillRuns M.control m tr → effect m ≡ Some x → M.control.turns (after_all M.control m tr) n ≡ Some a → a ≡ x }
{}
