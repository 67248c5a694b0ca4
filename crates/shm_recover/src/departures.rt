//! What a leaving and a recovery leave of an identity in the words, what a recovery and a scan keep of it, and what stays where the own era
//! is spent.

ghost use Rattle.std.specs.Prelude.{◌≡◌, ◌≢◌, ℕ, ◌+◌, ◌-◌, ◌%◌, ◌^◌, ◌<◌, ◌≤◌, ◌⊎◌, true, false, Ok, Err, None, List, [], ◌∷◌, ◌++◌, length, slice_index, slice_index_or};
ghost use Rattle.std.specs.List.{Contains};
ghost use Rattle.shm_graph.specs.declared.{ask.Me.Me as AMe, memo.{Memo.Memo as AMemo, Op.TheVariants.Nothing}};
ghost use Rattle.shm_graph.specs.{declared.spot.Spot.Spot as ASpot, Asks.{IsWithin, Trail}, Blocks.{IsLive, headers}};
ghost use Rattle.shm_graph.specs.{Bounds.recovery_steps, Events.{Event as AnEvent, ChangeDown, Free}};
ghost use Rattle.shm_graph.specs.{Held.{HeldAt, IsDying, is_root}, Reach.shown, Views.{own_word, targets, view}};
ghost use Rattle.shm_graph.specs.Sound.{IsGone};
ghost use Rattle.shm_graph.specs.declared.memo.Status.TheVariants as status;
ghost use Rattle.shm_graph.specs.declared.spot.Spot.TheVariants as spot;
ghost use Rattle.shm_count.specs.{declared.answer.EraSpent.EraSpent as ASpent, Roots.root_word};
ghost use Rattle.shm_count.specs.{Tear.Events.{Visit, frees}, Lasting.is_lasting};
ghost use Rattle.shm_ref.specs.DropRoots.{Control.dropping_roots, RootsLeaves};
ghost use Rattle.shm_recover.specs.{Departures.{LeftOrRecovered, WasSpent}, Leave.{Control.leaving, LeaveLeaves}};
ghost use Rattle.shm_recover.specs.{Recover.{Control.recovering, Losses.IsLoss, RecoverLeaves}, Scan.Control.scanning};
ghost use Rattle.shm_recover.specs.Scan.{IsApart, ScanLeaves};

/// In each state that holds once a leaving or a recovery is done the words have nothing of the identity: its status word is 3, no step
/// of it is in progress, its roots and its hold word are 0, no latch word and no segment word is its number and one, and each
/// zero-count block is another identity's. The slot at a tail of its that isn't 8 items ahead is empty, and the slot at a head of its that
/// isn't at the tail names the item that comes next, a live block. Each event of it takes a reference of the identity away, or frees a block.
pub fn departed_hold_nothing()
    ensures status { (me : AMe) (r0 : AMemo) (tr : Trail) (es : List AnEvent) (w : ASpot → ℕ) (r : ℕ → AMemo) → me.who < me.geometry.clients → HeldAt me.geometry w (view r) → LeftOrRecovered me r0 (r me.who) tr es → w (spot.Status me.who) ≡ 3 }
    ensures idle { (me : AMe) (r0 : AMemo) (tr : Trail) (es : List AnEvent) (w : ASpot → ℕ) (r : ℕ → AMemo) → me.who < me.geometry.clients → HeldAt me.geometry w (view r) → LeftOrRecovered me r0 (r me.who) tr es → (r me.who).op ≡ Nothing }
    ensures roots { (me : AMe) (r0 : AMemo) (tr : Trail) (es : List AnEvent) (w : ASpot → ℕ) (r : ℕ → AMemo) → me.who < me.geometry.clients → HeldAt me.geometry w (view r) → LeftOrRecovered me r0 (r me.who) tr es → (k : ℕ) → w (spot.Root me.who k) ≡ 0 }
    ensures hold { (me : AMe) (r0 : AMemo) (tr : Trail) (es : List AnEvent) (w : ASpot → ℕ) (r : ℕ → AMemo) → me.who < me.geometry.clients → HeldAt me.geometry w (view r) → LeftOrRecovered me r0 (r me.who) tr es → w (spot.Hold me.who) ≡ 0 }
    ensures latches { (me : AMe) (r0 : AMemo) (tr : Trail) (es : List AnEvent) (w : ASpot → ℕ) (r : ℕ → AMemo) → me.who < me.geometry.clients → HeldAt me.geometry w (view r) → LeftOrRecovered me r0 (r me.who) tr es → (a : ℕ) → w (spot.Latch a) ≢ me.who + 1 }
    ensures segments { (me : AMe) (r0 : AMemo) (tr : Trail) (es : List AnEvent) (w : ASpot → ℕ) (r : ℕ → AMemo) → me.who < me.geometry.clients → HeldAt me.geometry w (view r) → LeftOrRecovered me r0 (r me.who) tr es → (s : ℕ) → w (spot.Segment s) ≢ me.who + 1 }
    ensures zero_counts { (me : AMe) (r0 : AMemo) (tr : Trail) (es : List AnEvent) (w : ASpot → ℕ) (r : ℕ → AMemo) → me.who < me.geometry.clients → HeldAt me.geometry w (view r) → LeftOrRecovered me r0 (r me.who) tr es → (b : ℕ) → IsLive (headers w) b → (headers w b).count ≡ 0 → ((headers w b).client ≢ me.who) × ((headers w b).client < me.geometry.clients) }
    ensures sends { (me : AMe) (r0 : AMemo) (tr : Trail) (es : List AnEvent) (w : ASpot → ℕ) (r : ℕ → AMemo) → me.who < me.geometry.clients → HeldAt me.geometry w (view r) → LeftOrRecovered me r0 (r me.who) tr es → (i : ℕ) → i < me.geometry.clients → i ≢ me.who → w (spot.Tail me.who i) < w (spot.QueueHead me.who i) + 8 → w (spot.Slot me.who i (w (spot.Tail me.who i) % 8)) ≡ 0 }
    ensures takes { (me : AMe) (r0 : AMemo) (tr : Trail) (es : List AnEvent) (w : ASpot → ℕ) (r : ℕ → AMemo) → me.who < me.geometry.clients → HeldAt me.geometry w (view r) → LeftOrRecovered me r0 (r me.who) tr es → (s : ℕ) → s < me.geometry.clients → s ≢ me.who → w (spot.QueueHead s me.who) < w (spot.Tail s me.who) → let b = w (spot.Slot s me.who (w (spot.QueueHead s me.who) % 8)) in (b ≢ 0) × IsLive (headers w) b × (b ≡ slice_index (slice_index_or (r s).sent me.who []) (w (spot.QueueHead s me.who))) }
    ensures losses { (me : AMe) (r0 r : AMemo) (tr : Trail) (es : List AnEvent) → LeftOrRecovered me r0 r tr es → (e : AnEvent) → Contains es e → IsLoss me.who e ⊎ ((a : ℕ) × (e ≡ ChangeDown me.who a)) }
{}

/// From the state in which a recovery begins to one in which it is done: what the dead identity had sent, and its tails, are as they were;
/// so is what it had received from another one, with the head, but that an item which it had taken, and whose head it hadn't stored, is
/// received; its home names what it named, a committed step counted as done; and no word of its row fell.
pub fn recovery_keeps()
    ensures sent { (me : AMe) (w : ASpot → ℕ) (r : ℕ → AMemo) (x : ASpot → ℕ) (q : ℕ → AMemo) (tr : Trail) (es : List AnEvent) → me.who < me.geometry.clients → HeldAt me.geometry w (view r) → HeldAt me.geometry x (view q) → RecoverLeaves (recovering me) (r me.who) (q me.who) tr es (Ok tt) → (q me.who).sent ≡ (r me.who).sent }
    ensures tails { (me : AMe) (w : ASpot → ℕ) (r : ℕ → AMemo) (x : ASpot → ℕ) (q : ℕ → AMemo) (tr : Trail) (es : List AnEvent) → me.who < me.geometry.clients → HeldAt me.geometry w (view r) → HeldAt me.geometry x (view q) → RecoverLeaves (recovering me) (r me.who) (q me.who) tr es (Ok tt) → (i : ℕ) → x (spot.Tail me.who i) ≡ w (spot.Tail me.who i) }
    ensures received { (me : AMe) (w : ASpot → ℕ) (r : ℕ → AMemo) (x : ASpot → ℕ) (q : ℕ → AMemo) (tr : Trail) (es : List AnEvent) → me.who < me.geometry.clients → HeldAt me.geometry w (view r) → HeldAt me.geometry x (view q) → RecoverLeaves (recovering me) (r me.who) (q me.who) tr es (Ok tt) → (s : ℕ) → slice_index (r me.who).untaken s ≡ 0 → (slice_index_or (q me.who).received s [] ≡ slice_index_or (r me.who).received s []) × (x (spot.QueueHead s me.who) ≡ w (spot.QueueHead s me.who)) }
    ensures half_taken { (me : AMe) (w : ASpot → ℕ) (r : ℕ → AMemo) (x : ASpot → ℕ) (q : ℕ → AMemo) (tr : Trail) (es : List AnEvent) → me.who < me.geometry.clients → HeldAt me.geometry w (view r) → HeldAt me.geometry x (view q) → RecoverLeaves (recovering me) (r me.who) (q me.who) tr es (Ok tt) → (s : ℕ) → slice_index (r me.who).untaken s ≢ 0 → (slice_index_or (q me.who).received s [] ≡ slice_index_or (r me.who).received s [] ++ slice_index (r me.who).untaken s ∷ []) × (x (spot.QueueHead s me.who) ≡ w (spot.QueueHead s me.who) + 1) }
    ensures home { (me : AMe) (w : ASpot → ℕ) (r : ℕ → AMemo) (x : ASpot → ℕ) (q : ℕ → AMemo) (tr : Trail) (es : List AnEvent) → me.who < me.geometry.clients → HeldAt me.geometry w (view r) → HeldAt me.geometry x (view q) → RecoverLeaves (recovering me) (r me.who) (q me.who) tr es (Ok tt) → x (spot.Home me.who) ≡ targets me.geometry w (view r) (spot.Home me.who) }
    ensures rows { (me : AMe) (w : ASpot → ℕ) (r : ℕ → AMemo) (x : ASpot → ℕ) (q : ℕ → AMemo) (tr : Trail) (es : List AnEvent) → me.who < me.geometry.clients → HeldAt me.geometry w (view r) → HeldAt me.geometry x (view q) → RecoverLeaves (recovering me) (r me.who) (q me.who) tr es (Ok tt) → (j : ℕ) → w (spot.Era me.who j) ≤ x (spot.Era me.who j) }
{}

/// A leaving or a recovery is refused with an own era of 2^47 - 2, which leaves no room for a step down, and no step is in progress then.
/// A leaving is refused only as its drop of all roots is, and leaves what that leaves (`drop_roots_refusals` of shm_ref): status, latch,
/// segments, queues and partition are as they were, each root is empty or as it was, and every other own word but the redo record and
/// the row is as it was. After a recovery the identity is dead, with no latch; segments, what was sent
/// and the tails are as they were, and the home as after a recovery that is done. An item that was taken is received or waits
/// still, and a head moved only once no root was left and nothing waited for a tail. The blocks that it was tearing down are zero-count
/// blocks still, and count for its word steps as those that it freed.
pub fn spent_departures()
    ensures era { (me : AMe) (r0 : AMemo) (tr : Trail) (es : List AnEvent) (e : ASpent) (w : ASpot → ℕ) (r : ℕ → AMemo) → me.who < me.geometry.clients → HeldAt me.geometry w (view r) → WasSpent me r0 (r me.who) tr es e → (e.era ≡ 2 ^ 47 - 2) × (w (spot.Era me.who me.who) ≡ 2 ^ 47 - 2) × ((r me.who).op ≡ Nothing) }
    ensures leaving_drops { (me : AMe) (r0 r : AMemo) (tr : Trail) (es : List AnEvent) (e : ASpent) → LeaveLeaves (leaving me) r0 r tr es (Err e) → RootsLeaves (dropping_roots me) r0 r tr es (Err e) }
    ensures leaving { (me : AMe) (r0 r : AMemo) (tr : Trail) (es : List AnEvent) (e : ASpent) → LeaveLeaves (leaving me) r0 r tr es (Err e) → (r.status ≡ r0.status) × (r.latch ≡ r0.latch) × (r.owned ≡ r0.owned) × (r.sent ≡ r0.sent) × (r.received ≡ r0.received) × (r.unsent ≡ r0.unsent) × (r.untaken ≡ r0.untaken) × (r.part ≡ r0.part) }
    ensures leaving_roots { (me : AMe) (r0 r : AMemo) (tr : Trail) (es : List AnEvent) (e : ASpent) → LeaveLeaves (leaving me) r0 r tr es (Err e) → (k : ℕ) → (root_word me.who r k ≡ 0) ⊎ (root_word me.who r k ≡ root_word me.who r0 k) }
    ensures leaving_words { (me : AMe) (r0 r : AMemo) (tr : Trail) (es : List AnEvent) (e : ASpent) → LeaveLeaves (leaving me) r0 r tr es (Err e) → (p : ASpot) → is_lasting me.who p ≡ true → is_root p ≡ false → own_word r.own p ≡ own_word r0.own p }
    ensures recovery { (me : AMe) (r0 r : AMemo) (tr : Trail) (es : List AnEvent) (e : ASpent) → RecoverLeaves (recovering me) r0 r tr es (Err e) → (r.status ≡ status.Dead) × (r.latch ≡ None) × (r.owned ≡ r0.owned) × (r.sent ≡ r0.sent) × ((i : ℕ) → own_word r.own (spot.Tail me.who i) ≡ own_word r0.own (spot.Tail me.who i)) × (own_word r.own (spot.Home me.who) ≡ shown r0 (spot.Home me.who)) }
    ensures received { (me : AMe) (r0 r : AMemo) (tr : Trail) (es : List AnEvent) (e : ASpent) → RecoverLeaves (recovering me) r0 r tr es (Err e) → (s : ℕ) → slice_index r0.untaken s ≡ 0 → (slice_index_or r.received s [] ≡ slice_index_or r0.received s []) × (own_word r.own (spot.QueueHead s me.who) ≡ own_word r0.own (spot.QueueHead s me.who)) }
    ensures half_taken { (me : AMe) (r0 r : AMemo) (tr : Trail) (es : List AnEvent) (e : ASpent) → RecoverLeaves (recovering me) r0 r tr es (Err e) → (s : ℕ) → slice_index r0.untaken s ≢ 0 → ((slice_index_or r.received s [] ≡ slice_index_or r0.received s []) × (own_word r.own (spot.QueueHead s me.who) ≡ own_word r0.own (spot.QueueHead s me.who)) × (slice_index r.untaken s ≡ slice_index r0.untaken s)) ⊎ ((slice_index_or r.received s [] ≡ slice_index_or r0.received s [] ++ slice_index r0.untaken s ∷ []) × (own_word r.own (spot.QueueHead s me.who) ≡ own_word r0.own (spot.QueueHead s me.who) + 1) × (slice_index r.untaken s ≡ 0)) }
    ensures order { (me : AMe) (r0 r : AMemo) (tr : Trail) (es : List AnEvent) (e : ASpent) → RecoverLeaves (recovering me) r0 r tr es (Err e) → (s : ℕ) → own_word r.own (spot.QueueHead s me.who) ≢ own_word r0.own (spot.QueueHead s me.who) → ((k : ℕ) → root_word me.who r k ≡ 0) × ((j : ℕ) → slice_index r.unsent j ≡ 0) }
    ensures unfreed { (me : AMe) (r0 r : AMemo) (tr : Trail) (es : List AnEvent) (e : ASpent) → RecoverLeaves (recovering me) r0 r tr es (Err e) → (vs : List Visit) × ((v : Visit) → Contains vs v → Contains r.dying v.block) × IsWithin (recovery_steps me.geometry.wide me.geometry.segments (frees es + length vs)) tr }
{}

/// A scan that is done found all zero-count blocks of its identity, each once, and answers how many they were; each block whose header
/// showed it as one in the state in which the scan began is freed among its events, and none is left. After a scan that was refused each of
/// them was found, or is one still.
pub fn scan_frees_all()
    ensures found { (me : AMe) (n : ℕ) (r0 r : AMemo) (tr : Trail) (es : List AnEvent) → ScanLeaves (scanning me) r0 r tr es (Ok n) → (bs : List ℕ) × (n ≡ length bs) × IsApart bs × ((b : ℕ) → Contains bs b → Contains r0.dying b) × ((b : ℕ) → Contains r0.dying b → Contains bs b) }
    ensures freed { (me : AMe) (n : ℕ) (w : ASpot → ℕ) (r : ℕ → AMemo) (q : AMemo) (tr : Trail) (es : List AnEvent) → me.who < me.geometry.clients → HeldAt me.geometry w (view r) → ScanLeaves (scanning me) (r me.who) q tr es (Ok n) → (b : ℕ) → IsDying (headers w b) me.who → Contains es (Free me.who b) }
    ensures none { (me : AMe) (n : ℕ) (w : ASpot → ℕ) (r0 : AMemo) (r : ℕ → AMemo) (tr : Trail) (es : List AnEvent) → me.who < me.geometry.clients → HeldAt me.geometry w (view r) → ScanLeaves (scanning me) r0 (r me.who) tr es (Ok n) → (b : ℕ) → IsLive (headers w) b → (headers w b).count ≡ 0 → (headers w b).client ≢ me.who }
    ensures stopped { (me : AMe) (r0 r : AMemo) (tr : Trail) (es : List AnEvent) (e : ASpent) → ScanLeaves (scanning me) r0 r tr es (Err e) → (bs : List ℕ) × IsApart bs × ((b : ℕ) → Contains bs b → Contains r0.dying b) × ((b : ℕ) → Contains r0.dying b → Contains bs b ⊎ Contains r.dying b) }
{}

/// Where a leaving answered that it is done, nothing of the identity is left in the words.
pub fn leave_gone()
    ensures { (me : AMe) (r0 : AMemo) (tr : Trail) (es : List AnEvent) (w : ASpot → ℕ) (r : ℕ → AMemo) → me.who < me.geometry.clients → HeldAt me.geometry w (view r) → LeaveLeaves (leaving me) r0 (r me.who) tr es (Ok tt) → IsGone me.geometry w (view r) me.who }
{}
