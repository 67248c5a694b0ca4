//! How many word steps a leaving makes.

ghost use Rattle.std.specs.Prelude.{◌≡◌, ℕ, ◌+◌, ◌*◌, false, true, Ok, Err, List, length};
ghost use Rattle.shm_graph.specs.{declared.{ask.Me.Me as AMe, memo.Memo.Memo as AMemo}, Asks.{Trail, IsWithin}};
ghost use Rattle.shm_graph.specs.{Bounds.leave_steps, Events.Event as AnEvent};
ghost use Rattle.shm_count.specs.{declared.answer.EraSpent.EraSpent as ASpent, Tear.Events.{Visit, frees}};
ghost use Rattle.shm_ref.specs.Lefts.{Stopped};
ghost use Rattle.shm_recover.specs.Leave.{Control.leaving, LeaveLeaves};

/// A leaving took at most two word steps for each segment, 145, and 164 for each block that it freed or left on the way, in format 2 161
/// and 180, and three more for each exchange that failed.
pub fn leave_bound()
    ensures done { (me : AMe) (r0 r : AMemo) (tr : Trail) (es : List AnEvent) → LeaveLeaves (leaving me) r0 r tr es (Ok tt) → IsWithin (leave_steps me.geometry.wide me.geometry.segments (frees es)) tr }
    ensures spent { (me : AMe) (r0 r : AMemo) (tr : Trail) (es : List AnEvent) (e : ASpent) → LeaveLeaves (leaving me) r0 r tr es (Err e) → (vs : List Visit) × Stopped me r0 r e.era vs × IsWithin (leave_steps me.geometry.wide me.geometry.segments (frees es + length vs)) tr }
    ensures steps { (g t : ℕ) → leave_steps false g t ≡ 2 * g + 164 * t + 145 }
    ensures wide { (g t : ℕ) → leave_steps true g t ≡ 2 * g + 180 * t + 161 }
{}
