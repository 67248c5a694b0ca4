//! How many word steps a count step and a tear-down make.

ghost use Rattle.std.specs.Prelude.{ℕ, ◌+◌, Bool, List, length, Result, Ok, Err};
ghost use Rattle.shm_graph.specs.{declared.{memo.Memo.Memo as AMemo, spot.Spot.Spot as ASpot}, Asks.{Trail, IsWithin}};
ghost use Rattle.shm_graph.specs.{Bounds.tear_steps, Tells.happens_along};
ghost use Rattle.shm_count.specs.declared.answer.{EraSpent.EraSpent as ASpent, UpFault.UpFault as AFault};
ghost use Rattle.shm_count.specs.declared.point.StepState.{StepState as AState};
ghost use Rattle.shm_count.specs.{declared.tear_point.TearState.TearState as ATearState, Step.StepGives};
ghost use Rattle.shm_count.specs.{Step.Asks.steps_of, Tear.Control.tear_control};
ghost use Rattle.shm_count.specs.Tear.{Events.{Visit, frees, tear_event, tear_start}, TearGives, TornPartly};

/// Whatever a count step answers, it took at most 8 word steps, a change at most 13, in format 2 one more, and three more for each
/// exchange that failed.
pub fn step_bound()
    ensures { (p : ASpot) (m : AState) (r0 r : AMemo) (tr : Trail) (a : Result Bool AFault) → StepGives p m r0 r tr a → IsWithin (steps_of m.me.geometry.wide m.aim) tr }
{}

/// A tear-down took at most 164 word steps, in format 2 180, for each block that it freed, or left as a zero-count block where it was
/// refused, and three more for each exchange that failed.
pub fn tear_bound()
    ensures done { (m : ATearState) (r0 r : AMemo) (tr : Trail) → TearGives m r0 r tr (Ok tt) → IsWithin (tear_steps m.me.geometry.wide (frees (happens_along tear_control tear_event (tear_start m) tr))) tr }
    ensures spent { (m : ATearState) (r0 r : AMemo) (tr : Trail) (e : ASpent) → TearGives m r0 r tr (Err e) → let es = happens_along tear_control tear_event (tear_start m) tr in (vs : List Visit) × TornPartly m.me m.first r0 r es tr e.era vs × IsWithin (tear_steps m.me.geometry.wide (frees es + length vs)) tr }
{}
