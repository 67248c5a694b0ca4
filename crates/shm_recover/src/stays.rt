//! What stays on the way of a recovery and of a leaving, so that who comes after one that died in the middle finds it.

ghost use Rattle.std.specs.Prelude.{◌≡◌, false};
ghost use Rattle.shm_graph.specs.{declared.memo.Memo.Memo as AMemo, Asks.Trail};
ghost use Rattle.plans.specs.{declared.calls.Calls.Calls as ACalls, CallsFit.CallsFits};
ghost use Rattle.shm_count.specs.Steady.{SameMap};
ghost use Rattle.shm_recover.specs.declared.leave.LeaveState.{LeaveState as ALeaveState};
ghost use Rattle.shm_recover.specs.declared.recover.RecoverState.{RecoverState as ARecoverState};
ghost use Rattle.shm_recover.specs.{Leave.{Control.{LeaveCall, leave_parts}, leave_plan}, Machines.Recovering.recover};
ghost use Rattle.shm_recover.specs.{Machines.leave, Recover.{Control.{RecoverCall, recover_parts}, recover_plan}};

/// While a recovery runs, and while a client leaves, the map of its table is what it was at the beginning, and whether the pool is for tables too.
/// A machine that has answered tells by its answer what it left.
pub fn maps_stay()
    ensures recover { (m : ACalls ARecoverState RecoverCall) (r0 r : AMemo) (tr : Trail) → recover.finished m ≡ false → CallsFits recover_parts recover_plan m r0 r tr → SameMap r0 r }
    ensures leave { (m : ACalls ALeaveState LeaveCall) (r0 r : AMemo) (tr : Trail) → leave.finished m ≡ false → CallsFits leave_parts leave_plan m r0 r tr → SameMap r0 r }
{}
