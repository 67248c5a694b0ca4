//! How many word steps machines over queues make.

ghost use Rattle.std.specs.Prelude.{◌≡◌, ℕ, ◌+◌, ◌*◌, ◌⊎◌, true, false, Result, Ok, Err, length, List};
ghost use Rattle.shm_graph.specs.{declared.{ask.Me.Me as AMe, memo.Memo.Memo as AMemo}, Asks.{Trail, IsWithin}};
ghost use Rattle.shm_graph.specs.{Bounds.{drain_steps, redo_steps, tear_steps}, Events.Event as AnEvent};
ghost use Rattle.shm_count.specs.{Tear.Events.frees, declared.answer.{EraSpent.EraSpent as ASpent, Made.Made as AMade}};
ghost use Rattle.shm_queue.specs.declared.answer.PeekFault.{PeekFault as APeekFault};
ghost use Rattle.shm_queue.specs.declared.answer.PeekFault.TheVariants.{CountFull as IsCounted, Empty as IsVacant, EraSpent as IsLate, RootsFull as AreFull};
ghost use Rattle.shm_queue.specs.declared.answer.SendFault.{SendFault as ASendFault};
ghost use Rattle.shm_queue.specs.declared.answer.TakeFault.TheVariants.{Empty as IsEmpty, EraSpent as IsSpent};
ghost use Rattle.shm_queue.specs.Drain.{DrainStopped, DrainLeaves, Control.draining};
ghost use Rattle.shm_queue.specs.Receive.{ReceiveStopped, ReceiveLeaves, Control.receiving};
ghost use Rattle.shm_queue.specs.{Take.{TakeStopped, TakeLeaves, Control.taking}, Send.{SendLeaves, Control.sending}};
ghost use Rattle.shm_queue.specs.Peek.{PeekLeaves, Control.peeking};

/// A send took at most 11 word steps, in format 2 12, and three more for each exchange that failed.
pub fn send_bound()
    ensures { (me : AMe) (i b : ℕ) (r0 r : AMemo) (tr : Trail) (es : List AnEvent) (a : Result ℕ ASendFault) → SendLeaves (sending me i b) r0 r tr es a → IsWithin (10 + redo_steps me.geometry.wide) tr }
{}

/// A take took at most 12 word steps and 164 for each block that it freed or left on the way, in format 2 13 and 180, and three more for
/// each exchange that failed; one of an empty queue took two, and one that was refused before the item was taken four.
pub fn take_bound()
    ensures done { (me : AMe) (s : ℕ) (r0 r : AMemo) (tr : Trail) (es : List AnEvent) → TakeLeaves (taking me s) r0 r tr es (Ok tt) → IsWithin (11 + redo_steps me.geometry.wide + tear_steps me.geometry.wide (frees es)) tr }
    ensures empty { (me : AMe) (s n : ℕ) (r0 r : AMemo) (tr : Trail) (es : List AnEvent) → TakeLeaves (taking me s) r0 r tr es (Err (IsEmpty n)) → IsWithin 2 tr }
    ensures spent { (me : AMe) (s e : ℕ) (r0 r : AMemo) (tr : Trail) (es : List AnEvent) → TakeLeaves (taking me s) r0 r tr es (Err (IsSpent e)) → IsWithin 4 tr ⊎ ((t : TakeStopped me s r0 r tr es e) × IsWithin (11 + redo_steps me.geometry.wide + tear_steps me.geometry.wide (frees es + length t.left)) tr) }
{}

/// A peek took at most 27 word steps, in format 2 28, and three more for each exchange that failed.
pub fn peek_bound()
    ensures { (me : AMe) (s : ℕ) (r0 r : AMemo) (tr : Trail) (es : List AnEvent) (a : Result AMade APeekFault) → PeekLeaves (peeking me s) r0 r tr es a → IsWithin (26 + redo_steps me.geometry.wide) tr }
{}

/// A drain in a pool of n clients took at most 12 word steps for each item that it took, 164 for each block that it freed or left on the
/// way, in format 2 13 and 180, 2 n and 4 more, and three more for each exchange that failed. Where a take was refused in its tear-down,
/// its item counts too.
pub fn drain_bound()
    ensures done { (me : AMe) (n : ℕ) (r0 r : AMemo) (tr : Trail) (es : List AnEvent) → DrainLeaves (draining me) r0 r tr es (Ok n) → IsWithin (drain_steps me.geometry.wide me.geometry.clients n (frees es)) tr }
    ensures spent { (me : AMe) (r0 r : AMemo) (tr : Trail) (es : List AnEvent) (e : ASpent) → DrainLeaves (draining me) r0 r tr es (Err e) → (d : DrainStopped me r0 r tr es e.era) × (IsWithin (drain_steps me.geometry.wide me.geometry.clients (length d.items) (frees es)) tr ⊎ ((t : TakeStopped me d.from d.q r d.last d.after e.era) × IsWithin (drain_steps me.geometry.wide me.geometry.clients (length d.items + 1) (frees es + length t.left)) tr)) }
    ensures steps { (n q t : ℕ) → drain_steps false n q t ≡ 12 * q + 2 * n + 164 * t + 4 }
    ensures wide { (n q t : ℕ) → drain_steps true n q t ≡ 13 * q + 2 * n + 180 * t + 4 }
{}

/// A receive took at most 39 word steps and 164 for each block that it freed or left on the way, in format 2 41 and 180, and three more
/// for each exchange that failed; one of an empty queue took two, one whose peek was refused 27, and one whose take was refused before
/// the item was taken 31, in format 2 28 and 32.
pub fn receive_bound()
    ensures done { (me : AMe) (s : ℕ) (r0 r : AMemo) (tr : Trail) (es : List AnEvent) (made : AMade) → ReceiveLeaves (receiving me s) r0 r tr es (Ok made) → IsWithin (37 + 2 * redo_steps me.geometry.wide + tear_steps me.geometry.wide (frees es)) tr }
    ensures empty { (me : AMe) (s n : ℕ) (r0 r : AMemo) (tr : Trail) (es : List AnEvent) → ReceiveLeaves (receiving me s) r0 r tr es (Err (IsVacant n)) → IsWithin 2 tr }
    ensures full { (me : AMe) (s : ℕ) (r0 r : AMemo) (tr : Trail) (es : List AnEvent) → ReceiveLeaves (receiving me s) r0 r tr es (Err AreFull) → IsWithin (26 + redo_steps me.geometry.wide) tr }
    ensures counted { (me : AMe) (s b n : ℕ) (r0 r : AMemo) (tr : Trail) (es : List AnEvent) → ReceiveLeaves (receiving me s) r0 r tr es (Err (IsCounted b n)) → IsWithin (26 + redo_steps me.geometry.wide) tr }
    ensures spent { (me : AMe) (s e : ℕ) (r0 r : AMemo) (tr : Trail) (es : List AnEvent) → ReceiveLeaves (receiving me s) r0 r tr es (Err (IsLate e)) → IsWithin (26 + redo_steps me.geometry.wide) tr ⊎ ((d : ReceiveStopped me s r0 r tr es e) × (IsWithin (30 + redo_steps me.geometry.wide) tr ⊎ ((t : TakeStopped me s d.look.q r d.look.next d.look.after e) × IsWithin (37 + 2 * redo_steps me.geometry.wide + tear_steps me.geometry.wide (frees es + length t.left)) tr))) }
{}
