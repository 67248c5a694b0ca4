//! What an allocation leaves of its agent, of the status, of the roots and of the blocks that the call made.

ghost use Rattle.std.specs.Prelude.{◌≡◌, ◌≢◌, ℕ, ◌<◌, true, false, Bool, List, Result, Ok, IfErr, IfOk};
ghost use Rattle.std.specs.List.{Contains};
ghost use Rattle.shm_graph.specs.{declared.{memo.Memo.Memo as AMemo, spot.Spot.TheVariants.Root}, Agents.recovers};
ghost use Rattle.shm_graph.specs.{Asks.Trail, Events.Event, Operations.IsHeld, Views.own_word};
ghost use Rattle.plans.specs.{Grown.{Grows, grown}, Parts.PartLaws};
ghost use Rattle.shm_count.specs.declared.{answer.Made.Made as AMade, point.Aim.TheVariants.Up};
ghost use Rattle.shm_count.specs.{MadeSteps.made_up_part, Roots.{AreRootsReached, root_step, root_word}};
ghost use Rattle.shm_count.specs.{Step.Control.IsInside, Waiting.LeavesQueues};
ghost use Rattle.shm_alloc.specs.declared.alloc.AllocFault.{AllocFault as AFault};
ghost use Rattle.shm_alloc.specs.{declared.point.AllocState.AllocState as AState, Alloc.Control.alloc_control};
ghost use Rattle.shm_alloc.specs.Alloc.{AllocGives, CanAlloc, AsPart.{AllocLeaves, alloc_making}};

/// Whatever an allocation answers, the status and the agent are what they were, and what was read of tails and heads stays; a block of
/// which it answers is one that the call made.
pub fn alloc_lasts()
    ensures { (m : AState) (r0 r : AMemo) (tr : Trail) (a : Result AMade AFault) → AllocGives m r0 r tr a → (r.status ≡ r0.status) × Grows true r0 r × IfOk a (λ x. Contains r.made x.block) }
{}

/// An allocation in a larger machine leaves all that was read, and the blocks that the call had made.
pub fn alloc_in_call()
    ensures { (first : Bool) → PartLaws first alloc_control (grown first (alloc_making first)) }
{}

/// Where an allocation answers a root, it was the least empty one: it names the block now, and all roots below it are set, as they were.
pub fn alloc_least_root()
    ensures empty { (m : AState) (r0 r : AMemo) (tr : Trail) (a : AMade) → AllocGives m r0 r tr (Ok a) → own_word r0.own (Root m.me.who a.root) ≡ 0 }
    ensures named { (m : AState) (r0 r : AMemo) (tr : Trail) (a : AMade) → AllocGives m r0 r tr (Ok a) → own_word r.own (Root m.me.who a.root) ≡ a.block }
    ensures below { (m : AState) (r0 r : AMemo) (tr : Trail) (a : AMade) → AllocGives m r0 r tr (Ok a) → (j : ℕ) → j < a.root → own_word r.own (Root m.me.who j) ≢ 0 }
{}

/// The root that is answered names the block, which lies in the pool, and the other roots name what they named; refused, all do. The zero-count
/// blocks, the latch and what waits in queues are what they were, and what roots name is in reach.
pub fn alloc_keeps()
    ensures number { (m : AState) (r0 r : AMemo) (tr : Trail) (es : List Event) (a : Result AMade AFault) → AllocLeaves m r0 r tr es a → IfOk a (λ x. x.root < 16) }
    ensures named { (m : AState) (r0 r : AMemo) (tr : Trail) (es : List Event) (a : Result AMade AFault) → AllocLeaves m r0 r tr es a → IfOk a (λ x. root_word m.me.who r x.root ≡ x.block) }
    ensures roots { (m : AState) (r0 r : AMemo) (tr : Trail) (es : List Event) (a : Result AMade AFault) → AllocLeaves m r0 r tr es a → IfOk a (λ x. (k : ℕ) → k ≢ x.root → root_word m.me.who r k ≡ root_word m.me.who r0 k) }
    ensures inside { (m : AState) (r0 r : AMemo) (tr : Trail) (es : List Event) (a : Result AMade AFault) → AllocLeaves m r0 r tr es a → m.me.who < m.me.geometry.clients → IsHeld m.me r → IfOk a (λ x. IsInside m.me x.block) }
    ensures refused { (m : AState) (r0 r : AMemo) (tr : Trail) (es : List Event) (a : Result AMade AFault) → AllocLeaves m r0 r tr es a → IfErr a (λ f. (k : ℕ) → root_word m.me.who r k ≡ root_word m.me.who r0 k) }
    ensures dying { (m : AState) (r0 r : AMemo) (tr : Trail) (es : List Event) (a : Result AMade AFault) → AllocLeaves m r0 r tr es a → r.dying ≡ r0.dying }
    ensures left { (m : AState) (r0 r : AMemo) (tr : Trail) (es : List Event) (a : Result AMade AFault) → AllocLeaves m r0 r tr es a → LeavesQueues r0 r }
    ensures reached { (m : AState) (r0 r : AMemo) (tr : Trail) (es : List Event) (a : Result AMade AFault) → AllocLeaves m r0 r tr es a → AreRootsReached m.me.who r }
{}

/// What an allocation that made a block leaves is all that a step up at another root needs of the memo, where this root is empty and the
/// identity is a client: the block is in reach, and one that the call made, so that the step is not refused as full.
pub fn made_may_be_raised()
    ensures { (m : AState) (r0 r : AMemo) (tr : Trail) (es : List Event) (a : AMade) (k : ℕ) → AllocLeaves m r0 r tr es (Ok a) → CanAlloc m.me r0 → recovers r0 ≡ false → IsInside m.me a.block → k < 16 → own_word r.own (Root m.me.who k) ≡ 0 → (made_up_part (Root m.me.who k)).needs (root_step m.me.geometry m.me.who k (Up a.block)) r }
{}
