//! What latches, roots and references keep, whatever is answered: what a caller reads off what they leave, once for each pool.

ghost use Rattle.std.specs.Prelude.{◌≡◌, ◌≢◌, ◌==◌, ℕ, ◌<◌, Bool, true, not, None, Some, Result, IfOk, IfErr, List, []};
ghost use Rattle.std.specs.List.{Contains};
ghost use Rattle.shm_graph.specs.declared.{ask.Me.Me as AMe, memo.Memo.Memo as AMemo};
ghost use Rattle.shm_graph.specs.{declared.spot.Spot.TheVariants.{Body, Home}, Asks.Trail, Core.core};
ghost use Rattle.shm_graph.specs.{Events.Event as AnEvent, Held.is_loose, Idle.IsIdle, Reach.{is_named, is_reached}};
ghost use Rattle.shm_graph.specs.Views.{own_word};
ghost use Rattle.shm_count.specs.declared.answer.{EraSpent.EraSpent as ASpent, ShareFault.ShareFault as AShareFault};
ghost use Rattle.shm_count.specs.{declared.answer.UpFault.UpFault as AnUpFault, Roots.{AreRootsReached, root_word}};
ghost use Rattle.shm_count.specs.{Tear.Memos.Knows, UpRoot.UpRootLeaves, Waiting.{LeavesQueues, LeavesWaiting}};
ghost use Rattle.shm_ref.specs.declared.answer.{Busy.Busy as ABusy, HomeFault.HomeFault as AHomeFault};
ghost use Rattle.shm_ref.specs.declared.answer.LookFault.{LookFault as ALookFault};
ghost use Rattle.shm_ref.specs.declared.answer.{NoSuchWord.NoSuchWord as ANoSuchWord, NotHeld.NotHeld as ANotHeld};
ghost use Rattle.shm_ref.specs.{declared.answer.SetFault.SetFault as ASetFault, DropRoot.Control.dropping};
ghost use Rattle.shm_ref.specs.{DropRoot.DropLeaves, Hold.{Control.holding, HoldLeaves}};
ghost use Rattle.shm_ref.specs.{HomeOf.{HomeOfLeaves, finding}, Look.{LookLeaves, looking}, OnlyRead.OnlyRead};
ghost use Rattle.shm_ref.specs.{Read.{ReadLeaves, reading}, Release.Released, RootOf.Named};
ghost use Rattle.shm_ref.specs.RootSteps.{ChangeLeaves, LowerLeaves, RaiseLeaves, changing, lowering, raising};
ghost use Rattle.shm_ref.specs.{SetHome.{HomeLeaves, homing}, SetRef.{Control.setting, Told.SetTold, SetLeaves}};

/// A latch that was asked for is held where that was done, and none is where it was refused, if none was. Its roots, what is in reach, the
/// zero-count blocks and what waits in queues are what they were.
pub fn hold_keeps()
    ensures held { (me : AMe) (a : ℕ) (r0 r : AMemo) (tr : Trail) (es : List AnEvent) (b : Result (Unit {0}) ABusy) → HoldLeaves (holding me a) r0 r tr es b → IfOk b (λ u. r.latch ≡ Some a) }
    ensures refused { (me : AMe) (a : ℕ) (r0 r : AMemo) (tr : Trail) (es : List AnEvent) (b : Result (Unit {0}) ABusy) → HoldLeaves (holding me a) r0 r tr es b → r0.latch ≡ None → IfErr b (λ e. r.latch ≡ None) }
    ensures roots { (me : AMe) (a : ℕ) (r0 r : AMemo) (tr : Trail) (es : List AnEvent) (b : Result (Unit {0}) ABusy) → HoldLeaves (holding me a) r0 r tr es b → (k : ℕ) → root_word me.who r k ≡ root_word me.who r0 k }
    ensures reaches { (me : AMe) (a : ℕ) (r0 r : AMemo) (tr : Trail) (es : List AnEvent) (b : Result (Unit {0}) ABusy) → HoldLeaves (holding me a) r0 r tr es b → (d : ℕ) → is_reached me.who r d ≡ is_reached me.who r0 d }
    ensures loose { (me : AMe) (a : ℕ) (r0 r : AMemo) (tr : Trail) (es : List AnEvent) (b : Result (Unit {0}) ABusy) → HoldLeaves (holding me a) r0 r tr es b → is_loose r.part ≡ is_loose r0.part }
    ensures waiting { (me : AMe) (a : ℕ) (r0 r : AMemo) (tr : Trail) (es : List AnEvent) (b : Result (Unit {0}) ABusy) → HoldLeaves (holding me a) r0 r tr es b → LeavesWaiting r0 r }
{}

/// Once a latch is given back no look is left, but what roots name is in reach still. The roots, the zero-count blocks and what waits in queues
/// are what they were.
pub fn release_keeps()
    ensures looks { (me : AMe) (r0 r : AMemo) (tr : Trail) (es : List AnEvent) → Released me r0 r tr es → r.looks ≡ [] }
    ensures roots { (me : AMe) (r0 r : AMemo) (tr : Trail) (es : List AnEvent) → Released me r0 r tr es → (k : ℕ) → root_word me.who r k ≡ root_word me.who r0 k }
    ensures loose { (me : AMe) (r0 r : AMemo) (tr : Trail) (es : List AnEvent) → Released me r0 r tr es → is_loose r.part ≡ is_loose r0.part }
    ensures waiting { (me : AMe) (r0 r : AMemo) (tr : Trail) (es : List AnEvent) → Released me r0 r tr es → LeavesWaiting r0 r }
    ensures reached { (me : AMe) (r0 r : AMemo) (tr : Trail) (es : List AnEvent) → Released me r0 r tr es → IsIdle me.who r0 → AreRootsReached me.who r }
{}

/// A block that a home names is in reach; what was in reach is so still, since words alone were read. Refused between two calls, the latch of
/// the author wasn't held.
pub fn home_of_keeps()
    ensures reached { (me : AMe) (a : ℕ) (r0 r : AMemo) (tr : Trail) (es : List AnEvent) (b : Result ℕ ANotHeld) → HomeOfLeaves (finding me a) r0 r tr es b → IfOk b (λ d. d ≢ 0 → is_reached me.who r d ≡ true) }
    ensures other { (me : AMe) (a : ℕ) (r0 r : AMemo) (tr : Trail) (es : List AnEvent) (b : Result ℕ ANotHeld) → HomeOfLeaves (finding me a) r0 r tr es b → IsIdle me.who r0 → IfErr b (λ e. r0.latch ≢ Some a) }
    ensures reads { (me : AMe) (a : ℕ) (r0 r : AMemo) (tr : Trail) (es : List AnEvent) (b : Result ℕ ANotHeld) → HomeOfLeaves (finding me a) r0 r tr es b → OnlyRead r0 r }
    ensures stays { (me : AMe) (a : ℕ) (r0 r : AMemo) (tr : Trail) (es : List AnEvent) (b : Result ℕ ANotHeld) → HomeOfLeaves (finding me a) r0 r tr es b → (d : ℕ) → is_reached me.who r0 d ≡ true → is_reached me.who r d ≡ true }
    ensures loose { (me : AMe) (a : ℕ) (r0 r : AMemo) (tr : Trail) (es : List AnEvent) (b : Result ℕ ANotHeld) → HomeOfLeaves (finding me a) r0 r tr es b → is_loose r.part ≡ is_loose r0.part }
{}

/// The answer is what the root names, and nothing changed.
pub fn root_of_keeps()
    ensures names { (me : AMe) (k b : ℕ) (r0 r : AMemo) (tr : Trail) (es : List AnEvent) → Named me k r0 r tr es b → b ≡ root_word me.who r0 k }
    ensures same { (me : AMe) (k b : ℕ) (r0 r : AMemo) (tr : Trail) (es : List AnEvent) → Named me k r0 r tr es b → core r ≡ core r0 }
{}

/// A block that a reference word names is in reach; what was in reach is so still, since words alone were read.
pub fn look_keeps()
    ensures reached { (me : AMe) (b k : ℕ) (r0 r : AMemo) (tr : Trail) (es : List AnEvent) (a : Result ℕ ALookFault) → LookLeaves (looking me b k) r0 r tr es a → IfOk a (λ d. d ≢ 0 → is_reached me.who r d ≡ true) }
    ensures reads { (me : AMe) (b k : ℕ) (r0 r : AMemo) (tr : Trail) (es : List AnEvent) (a : Result ℕ ALookFault) → LookLeaves (looking me b k) r0 r tr es a → OnlyRead r0 r }
    ensures stays { (me : AMe) (b k : ℕ) (r0 r : AMemo) (tr : Trail) (es : List AnEvent) (a : Result ℕ ALookFault) → LookLeaves (looking me b k) r0 r tr es a → (d : ℕ) → is_reached me.who r0 d ≡ true → is_reached me.who r d ≡ true }
    ensures loose { (me : AMe) (b k : ℕ) (r0 r : AMemo) (tr : Trail) (es : List AnEvent) (a : Result ℕ ALookFault) → LookLeaves (looking me b k) r0 r tr es a → is_loose r.part ≡ is_loose r0.part }
{}

/// Once a plain word was read, what was in reach is so still, since words alone were read.
pub fn read_keeps()
    ensures reads { (me : AMe) (b k : ℕ) (r0 r : AMemo) (tr : Trail) (es : List AnEvent) (a : Result ℕ ANoSuchWord) → ReadLeaves (reading me b k) r0 r tr es a → OnlyRead r0 r }
    ensures stays { (me : AMe) (b k : ℕ) (r0 r : AMemo) (tr : Trail) (es : List AnEvent) (a : Result ℕ ANoSuchWord) → ReadLeaves (reading me b k) r0 r tr es a → (d : ℕ) → is_reached me.who r0 d ≡ true → is_reached me.who r d ≡ true }
    ensures loose { (me : AMe) (b k : ℕ) (r0 r : AMemo) (tr : Trail) (es : List AnEvent) (a : Result ℕ ANoSuchWord) → ReadLeaves (reading me b k) r0 r tr es a → is_loose r.part ≡ is_loose r0.part }
{}

/// The home was empty and names the block where that was done, and names what it named where it was refused. The latch and the roots are
/// what they were, and what roots name is in reach.
pub fn set_home_keeps()
    ensures empty { (me : AMe) (b : ℕ) (r0 r : AMemo) (tr : Trail) (es : List AnEvent) (a : Result (Unit {0}) AHomeFault) → HomeLeaves (homing me b) r0 r tr es a → IfOk a (λ u. own_word r0.own (Home me.who) ≡ 0) }
    ensures set { (me : AMe) (b : ℕ) (r0 r : AMemo) (tr : Trail) (es : List AnEvent) (a : Result (Unit {0}) AHomeFault) → HomeLeaves (homing me b) r0 r tr es a → IfOk a (λ u. own_word r.own (Home me.who) ≡ b) }
    ensures refused { (me : AMe) (b : ℕ) (r0 r : AMemo) (tr : Trail) (es : List AnEvent) (a : Result (Unit {0}) AHomeFault) → HomeLeaves (homing me b) r0 r tr es a → IfErr a (λ f. own_word r.own (Home me.who) ≡ own_word r0.own (Home me.who)) }
    ensures latch { (me : AMe) (b : ℕ) (r0 r : AMemo) (tr : Trail) (es : List AnEvent) (a : Result (Unit {0}) AHomeFault) → HomeLeaves (homing me b) r0 r tr es a → r.latch ≡ r0.latch }
    ensures roots { (me : AMe) (b : ℕ) (r0 r : AMemo) (tr : Trail) (es : List AnEvent) (a : Result (Unit {0}) AHomeFault) → HomeLeaves (homing me b) r0 r tr es a → (k : ℕ) → root_word me.who r k ≡ root_word me.who r0 k }
    ensures loose { (me : AMe) (b : ℕ) (r0 r : AMemo) (tr : Trail) (es : List AnEvent) (a : Result (Unit {0}) AHomeFault) → HomeLeaves (homing me b) r0 r tr es a → is_loose r.part ≡ is_loose r0.part }
    ensures reached { (me : AMe) (b : ℕ) (r0 r : AMemo) (tr : Trail) (es : List AnEvent) (a : Result (Unit {0}) AHomeFault) → HomeLeaves (homing me b) r0 r tr es a → IsIdle me.who r0 → AreRootsReached me.who r }
{}

/// A reference word was set under the own latch, and is known where own words name its block still; the zero-count blocks are what they were
/// then. Refused, it is told why, and what stays in reach. The latch, the roots and what waits in queues are what they were, and what roots
/// name is in reach.
pub fn set_ref_keeps()
    ensures held { (me : AMe) (b k to : ℕ) (r0 r : AMemo) (tr : Trail) (es : List AnEvent) (a : Result (Unit {0}) ASetFault) → SetLeaves (setting me b k to) r0 r tr es a → IsIdle me.who r0 → IfOk a (λ u. r0.latch ≡ Some me.who) }
    ensures set { (me : AMe) (b k to : ℕ) (r0 r : AMemo) (tr : Trail) (es : List AnEvent) (a : Result (Unit {0}) ASetFault) → SetLeaves (setting me b k to) r0 r tr es a → IfOk a (λ u. is_named me.who r b ≡ true → Knows r (Body b k) to) }
    ensures refused { (me : AMe) (b k to : ℕ) (r0 r : AMemo) (tr : Trail) (es : List AnEvent) (a : Result (Unit {0}) ASetFault) → SetLeaves (setting me b k to) r0 r tr es a → IsIdle me.who r0 → IfErr a (λ e. SetTold me.geometry.wide me.who b k to r0 r e) }
    ensures left { (me : AMe) (b k to : ℕ) (r0 r : AMemo) (tr : Trail) (es : List AnEvent) (a : Result (Unit {0}) ASetFault) → SetLeaves (setting me b k to) r0 r tr es a → LeavesQueues r0 r }
    ensures dying { (me : AMe) (b k to : ℕ) (r0 r : AMemo) (tr : Trail) (es : List AnEvent) (a : Result (Unit {0}) ASetFault) → SetLeaves (setting me b k to) r0 r tr es a → IfOk a (λ u. r.dying ≡ r0.dying) }
    ensures roots { (me : AMe) (b k to : ℕ) (r0 r : AMemo) (tr : Trail) (es : List AnEvent) (a : Result (Unit {0}) ASetFault) → SetLeaves (setting me b k to) r0 r tr es a → (j : ℕ) → root_word me.who r j ≡ root_word me.who r0 j }
    ensures reached { (me : AMe) (b k to : ℕ) (r0 r : AMemo) (tr : Trail) (es : List AnEvent) (a : Result (Unit {0}) ASetFault) → SetLeaves (setting me b k to) r0 r tr es a → IsIdle me.who r0 → AreRootsReached me.who r }
{}

/// The root that is answered names the block. The latch, the zero-count blocks and what waits in queues are what they were, and what roots name
/// is in reach.
pub fn share_keeps()
    ensures number { (me : AMe) (b : ℕ) (r0 r : AMemo) (tr : Trail) (es : List AnEvent) (a : Result ℕ AShareFault) → UpRootLeaves me b r0 r tr es a → IfOk a (λ k. k < 16) }
    ensures named { (me : AMe) (b : ℕ) (r0 r : AMemo) (tr : Trail) (es : List AnEvent) (a : Result ℕ AShareFault) → UpRootLeaves me b r0 r tr es a → IfOk a (λ k. root_word me.who r k ≡ b) }
    ensures left { (me : AMe) (b : ℕ) (r0 r : AMemo) (tr : Trail) (es : List AnEvent) (a : Result ℕ AShareFault) → UpRootLeaves me b r0 r tr es a → LeavesQueues r0 r }
    ensures dying { (me : AMe) (b : ℕ) (r0 r : AMemo) (tr : Trail) (es : List AnEvent) (a : Result ℕ AShareFault) → UpRootLeaves me b r0 r tr es a → r.dying ≡ r0.dying }
    ensures reached { (me : AMe) (b : ℕ) (r0 r : AMemo) (tr : Trail) (es : List AnEvent) (a : Result ℕ AShareFault) → UpRootLeaves me b r0 r tr es a → IsIdle me.who r0 → AreRootsReached me.who r }
{}

/// The root is empty where it was dropped, and the answer says whether it named a block; the zero-count blocks are what they were then. The
/// other roots, the latch and what waits in queues are what they were, and what roots name is in reach.
pub fn drop_root_keeps()
    ensures emptied { (me : AMe) (k : ℕ) (r0 r : AMemo) (tr : Trail) (es : List AnEvent) (a : Result Bool ASpent) → DropLeaves (dropping me k) r0 r tr es a → IfOk a (λ z. root_word me.who r k ≡ 0) }
    ensures named { (me : AMe) (k : ℕ) (r0 r : AMemo) (tr : Trail) (es : List AnEvent) (a : Result Bool ASpent) → DropLeaves (dropping me k) r0 r tr es a → IfOk a (λ z. z ≡ not (root_word me.who r0 k == 0)) }
    ensures dying { (me : AMe) (k : ℕ) (r0 r : AMemo) (tr : Trail) (es : List AnEvent) (a : Result Bool ASpent) → DropLeaves (dropping me k) r0 r tr es a → IfOk a (λ z. r.dying ≡ r0.dying) }
    ensures roots { (me : AMe) (k : ℕ) (r0 r : AMemo) (tr : Trail) (es : List AnEvent) (a : Result Bool ASpent) → DropLeaves (dropping me k) r0 r tr es a → (j : ℕ) → j ≢ k → root_word me.who r j ≡ root_word me.who r0 j }
    ensures left { (me : AMe) (k : ℕ) (r0 r : AMemo) (tr : Trail) (es : List AnEvent) (a : Result Bool ASpent) → DropLeaves (dropping me k) r0 r tr es a → LeavesQueues r0 r }
    ensures reached { (me : AMe) (k : ℕ) (r0 r : AMemo) (tr : Trail) (es : List AnEvent) (a : Result Bool ASpent) → DropLeaves (dropping me k) r0 r tr es a → AreRootsReached me.who r }
{}

/// The root names the block where that was done, and the other roots what they named; refused, all do. The latch and what waits in queues are
/// what they were, and what roots name is in reach.
pub fn raise_root_keeps()
    ensures raised { (me : AMe) (k b : ℕ) (r0 r : AMemo) (tr : Trail) (es : List AnEvent) (a : Result (Unit {0}) AnUpFault) → RaiseLeaves (raising me k b) r0 r tr es a → IfOk a (λ u. root_word me.who r k ≡ b) }
    ensures roots { (me : AMe) (k b : ℕ) (r0 r : AMemo) (tr : Trail) (es : List AnEvent) (a : Result (Unit {0}) AnUpFault) → RaiseLeaves (raising me k b) r0 r tr es a → IfOk a (λ u. (j : ℕ) → j ≢ k → root_word me.who r j ≡ root_word me.who r0 j) }
    ensures refused { (me : AMe) (k b : ℕ) (r0 r : AMemo) (tr : Trail) (es : List AnEvent) (a : Result (Unit {0}) AnUpFault) → RaiseLeaves (raising me k b) r0 r tr es a → IfErr a (λ e. (j : ℕ) → root_word me.who r j ≡ root_word me.who r0 j) }
    ensures left { (me : AMe) (k b : ℕ) (r0 r : AMemo) (tr : Trail) (es : List AnEvent) (a : Result (Unit {0}) AnUpFault) → RaiseLeaves (raising me k b) r0 r tr es a → LeavesQueues r0 r }
    ensures reached { (me : AMe) (k b : ℕ) (r0 r : AMemo) (tr : Trail) (es : List AnEvent) (a : Result (Unit {0}) AnUpFault) → RaiseLeaves (raising me k b) r0 r tr es a → IsIdle me.who r0 → AreRootsReached me.who r }
{}

/// The root is empty where that was done, and the other roots name what they named; refused, all do. A block whose count came to 0 is a
/// zero-count block. The latch and what waits in queues are what they were, and what roots name is in reach.
pub fn lower_root_keeps()
    ensures emptied { (me : AMe) (k b : ℕ) (r0 r : AMemo) (tr : Trail) (es : List AnEvent) (a : Result Bool ASpent) → LowerLeaves (lowering me k b) r0 r tr es a → IfOk a (λ z. root_word me.who r k ≡ 0) }
    ensures roots { (me : AMe) (k b : ℕ) (r0 r : AMemo) (tr : Trail) (es : List AnEvent) (a : Result Bool ASpent) → LowerLeaves (lowering me k b) r0 r tr es a → IfOk a (λ z. (j : ℕ) → j ≢ k → root_word me.who r j ≡ root_word me.who r0 j) }
    ensures dying { (me : AMe) (k b : ℕ) (r0 r : AMemo) (tr : Trail) (es : List AnEvent) (a : Result Bool ASpent) → LowerLeaves (lowering me k b) r0 r tr es a → IfOk a (λ z. z ≡ true → Contains r.dying b) }
    ensures refused { (me : AMe) (k b : ℕ) (r0 r : AMemo) (tr : Trail) (es : List AnEvent) (a : Result Bool ASpent) → LowerLeaves (lowering me k b) r0 r tr es a → IfErr a (λ e. (j : ℕ) → root_word me.who r j ≡ root_word me.who r0 j) }
    ensures left { (me : AMe) (k b : ℕ) (r0 r : AMemo) (tr : Trail) (es : List AnEvent) (a : Result Bool ASpent) → LowerLeaves (lowering me k b) r0 r tr es a → LeavesQueues r0 r }
    ensures reached { (me : AMe) (k b : ℕ) (r0 r : AMemo) (tr : Trail) (es : List AnEvent) (a : Result Bool ASpent) → LowerLeaves (lowering me k b) r0 r tr es a → IsIdle me.who r0 → AreRootsReached me.who r }
{}

/// The root names the block after where that was done, and the other roots what they named; refused, all do. A block before whose count came
/// to 0 is a zero-count block. The latch and what waits in queues are what they were, and what roots name is in reach.
pub fn change_root_keeps()
    ensures changed { (me : AMe) (k b d : ℕ) (r0 r : AMemo) (tr : Trail) (es : List AnEvent) (a : Result Bool AnUpFault) → ChangeLeaves (changing me k b d) r0 r tr es a → IfOk a (λ z. root_word me.who r k ≡ d) }
    ensures roots { (me : AMe) (k b d : ℕ) (r0 r : AMemo) (tr : Trail) (es : List AnEvent) (a : Result Bool AnUpFault) → ChangeLeaves (changing me k b d) r0 r tr es a → IfOk a (λ z. (j : ℕ) → j ≢ k → root_word me.who r j ≡ root_word me.who r0 j) }
    ensures dying { (me : AMe) (k b d : ℕ) (r0 r : AMemo) (tr : Trail) (es : List AnEvent) (a : Result Bool AnUpFault) → ChangeLeaves (changing me k b d) r0 r tr es a → IfOk a (λ z. z ≡ true → Contains r.dying b) }
    ensures refused { (me : AMe) (k b d : ℕ) (r0 r : AMemo) (tr : Trail) (es : List AnEvent) (a : Result Bool AnUpFault) → ChangeLeaves (changing me k b d) r0 r tr es a → IfErr a (λ e. (j : ℕ) → root_word me.who r j ≡ root_word me.who r0 j) }
    ensures left { (me : AMe) (k b d : ℕ) (r0 r : AMemo) (tr : Trail) (es : List AnEvent) (a : Result Bool AnUpFault) → ChangeLeaves (changing me k b d) r0 r tr es a → LeavesQueues r0 r }
    ensures reached { (me : AMe) (k b d : ℕ) (r0 r : AMemo) (tr : Trail) (es : List AnEvent) (a : Result Bool AnUpFault) → ChangeLeaves (changing me k b d) r0 r tr es a → IsIdle me.who r0 → AreRootsReached me.who r }
{}
