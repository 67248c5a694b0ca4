//! When a recovery may begin, what it leaves, and how many word steps the machines that it is made of take.

ghost use Rattle.std.specs.Prelude.{◌≡◌, ℕ, ◌+◌, ◌*◌, ◌-◌, ◌<◌, false, true, Ok, Err, [], List, length};
ghost use Rattle.shm_graph.specs.declared.{ask.Me.Me as AMe, memo.Memo.Memo as AMemo, spot.Spot.Spot as ASpot};
ghost use Rattle.shm_graph.specs.{Asks.{Trail, IsWithin}, Bounds.{recovery_steps, redo_steps, tear_steps}, Held.HeldAt};
ghost use Rattle.shm_graph.specs.{Sound.IsGone, Views.view, Events.Event as AnEvent};
ghost use Rattle.shm_count.specs.{declared.answer.EraSpent.EraSpent as ASpent, Tear.Events.{Visit, frees}};
ghost use Rattle.shm_recover.specs.{FinishTakes.FinishDone, GiveUp.GivenUp, Machines.Recovering.RecoverFits};
ghost use Rattle.shm_recover.specs.{Mend.MayMend, Recover.{Control.recovering, RecoverLeaves, RecoverStopped}};
ghost use Rattle.shm_recover.specs.{Scan.{Control.scanning, ScanLeaves}, TakeBack.Control.taking_back};
ghost use Rattle.shm_recover.specs.TakeBack.{BackLeaves, BackStopped};

/// It took at most 11 word steps for each other client, 164 for each block that it freed or left on the way, in format 2 12 and 180, and
/// three more for each exchange that failed.
pub fn take_back_bound()
    ensures done { (me : AMe) (r0 r : AMemo) (tr : Trail) (es : List AnEvent) → BackLeaves (taking_back me) r0 r tr es (Ok tt) → IsWithin ((10 + redo_steps me.geometry.wide) * (me.geometry.clients - 1) + tear_steps me.geometry.wide (frees es)) tr }
    ensures spent { (me : AMe) (r0 r : AMemo) (tr : Trail) (es : List AnEvent) (e : ASpent) → BackLeaves (taking_back me) r0 r tr es (Err e) → (vs : List Visit) × BackStopped me r0 r tr es e.era vs × IsWithin ((10 + redo_steps me.geometry.wide) * (me.geometry.clients - 1) + tear_steps me.geometry.wide (frees es + length vs)) tr }
{}

/// It took at most four word steps for each other client, and three more for each exchange that failed.
pub fn finish_takes_bound()
    ensures { (me : AMe) (r0 r : AMemo) (tr : Trail) (es : List AnEvent) → FinishDone me r0 r tr es → IsWithin (4 * (me.geometry.clients - 1)) tr }
{}

/// A scan took at most 528 word steps for each segment and 164 for each block that it freed, in format 2 180, and three more for each
/// exchange that failed.
pub fn scan_bound()
    ensures { (me : AMe) (n : ℕ) (r0 r : AMemo) (tr : Trail) (es : List AnEvent) → ScanLeaves (scanning me) r0 r tr es (Ok n) → IsWithin (528 * me.geometry.segments + tear_steps me.geometry.wide (frees es)) tr }
{}

/// It took at most two word steps for each segment and one, and three more for each exchange that failed.
pub fn give_up_bound()
    ensures { (me : AMe) (r0 r : AMemo) (tr : Trail) (es : List AnEvent) → GivenUp me r0 r tr es → IsWithin (2 * me.geometry.segments + 1) tr }
{}

/// A recovery fits each memo that the mending of the step in progress fits.
pub fn recover_begins()
    ensures { (me : AMe) (r : AMemo) → MayMend me r → RecoverFits me r r [] }
{}

/// Where a recovery answered that it is done, nothing of the identity is left in the words.
pub fn recover_gone()
    ensures { (me : AMe) (r0 : AMemo) (tr : Trail) (es : List AnEvent) (w : ASpot → ℕ) (r : ℕ → AMemo) → me.who < me.geometry.clients → HeldAt me.geometry w (view r) → RecoverLeaves (recovering me) r0 (r me.who) tr es (Ok tt) → IsGone me.geometry w (view r) me.who }
{}

/// A recovery took at most 530 word steps for each segment, 400, and 164 for each block that it freed or left on the way, in format 2 432
/// and 180, and three more for each exchange that failed.
pub fn recover_bound()
    ensures done { (me : AMe) (r0 r : AMemo) (tr : Trail) (es : List AnEvent) → RecoverLeaves (recovering me) r0 r tr es (Ok tt) → IsWithin (recovery_steps me.geometry.wide me.geometry.segments (frees es)) tr }
    ensures spent { (me : AMe) (r0 r : AMemo) (tr : Trail) (es : List AnEvent) (e : ASpent) → RecoverLeaves (recovering me) r0 r tr es (Err e) → (s : RecoverStopped me r0 r tr es e.era) × IsWithin (recovery_steps me.geometry.wide me.geometry.segments (frees es + length s.vs)) tr }
    ensures steps { (g t : ℕ) → recovery_steps false g t ≡ 530 * g + 164 * t + 400 }
    ensures wide { (g t : ℕ) → recovery_steps true g t ≡ 530 * g + 180 * t + 432 }
{}
