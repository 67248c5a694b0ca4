//! What stays on the way of a drain.

ghost use Rattle.std.specs.Prelude.{◌≡◌, false};
ghost use Rattle.shm_graph.specs.{declared.memo.Memo.Memo as AMemo, Asks.Trail};
ghost use Rattle.plans.specs.{declared.calls.Calls.Calls as ACalls, CallsFit.CallsFits};
ghost use Rattle.shm_count.specs.Steady.{SameMap};
ghost use Rattle.shm_queue.specs.{declared.drain.DrainState.DrainState as ADrainState, Machines.drain};
ghost use Rattle.shm_queue.specs.Drain.{Control.{DrainCall, drain_parts}, drain_plan};

/// While a client takes all that waits for it, the map of its table is what it was at the beginning, and whether the pool is for tables too.
pub fn drain_stays()
    ensures { (m : ACalls ADrainState DrainCall) (r0 r : AMemo) (tr : Trail) → drain.finished m ≡ false → CallsFits drain_parts drain_plan m r0 r tr → SameMap r0 r }
{}
