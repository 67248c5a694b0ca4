//! Why machines over queues are refused, and what stays then; and what a drain has read.

ghost use Rattle.std.specs.Prelude.{◌≡◌, ◌≢◌, ◌⊎◌, ℕ, ◌+◌, ◌-◌, ◌%◌, ◌^◌, ◌<◌, ◌≤◌, Ok, Err, List, [], ◌∷◌, ◌++◌, length, slice_index_or};
ghost use Rattle.std.specs.List.{Contains};
ghost use Rattle.shm_words.specs.Layout.{address};
ghost use Rattle.shm_words.specs.declared.place.Place.TheVariants as place;
ghost use Rattle.shm_graph.specs.declared.{ask.Me.Me as AMe, memo.{Fact.TheVariants.Counter, Memo.Memo as AMemo}};
ghost use Rattle.shm_graph.specs.{Asks.{Trail, pair}, Core.core, Events.Event as AnEvent, Views.own_word};
ghost use Rattle.shm_graph.specs.declared.ask.Ask.TheVariants as ask;
ghost use Rattle.shm_graph.specs.declared.spot.Spot.TheVariants as spots;
ghost use Rattle.shm_graph.specs.Events as event;
ghost use Rattle.kind_parts.specs.WordParts.{as_known};
ghost use Rattle.plans.specs.Plans.{plan_trail};
ghost use Rattle.shm_count.specs.{declared.answer.EraSpent.EraSpent as ASpent, Lowering.StoppedAt, Refusing.ReadsCount};
ghost use Rattle.shm_count.specs.{Roots.root_word, Slots.Untouched, Tear.Events.{Visit as AVisit, Walks}};
ghost use Rattle.shm_queue.specs.{declared.answer.PeekFault.PeekFault as APeekFault, Drain.Control.draining};
ghost use Rattle.shm_queue.specs.Drain.{DrainLeaves, ItemsEvents, TakenItem as AnItem, blocks_from};
ghost use Rattle.shm_queue.specs.{Peek.{Control.peeking, PeekLeaves, peek_plan}, Receive.Control.receiving};
ghost use Rattle.shm_queue.specs.{Receive.{ReceiveLeaves, receive_plan}, Send.{Control.sending, SendLeaves, send_plan}};
ghost use Rattle.shm_queue.specs.Take.{Control.taking, Received, TakeLeaves, slot_memo};
ghost use Rattle.shm_queue.specs.declared.answer.PeekFault.TheVariants as peek;
ghost use Rattle.shm_queue.specs.declared.answer.SendFault.TheVariants as send;
ghost use Rattle.shm_queue.specs.declared.answer.TakeFault.TheVariants as take;

/// A send is refused only, in this order, where the own tail is 8 above the head that it loaded; where the own era leaves no room for the
/// step up; where a header of the block that was read shows 1,023. No event is told, and what was sent is as before.
pub fn send_refusals()
    ensures queue { (me : AMe) (i b h n : ℕ) (r0 r : AMemo) (tr : Trail) (es : List AnEvent) → SendLeaves (sending me i b) r0 r tr es (Err (send.QueueFull h n)) → (n ≡ own_word r0.own (spots.Tail me.who i)) × (n ≡ h + 8) × (core r ≡ core r0) × (es ≡ []) }
    ensures head { (me : AMe) (i b h n : ℕ) (tr : Trail) → plan_trail send_plan (sending me i b) tr (Err (send.QueueFull h n)) → Contains tr (pair (ask.Load (address me.geometry (place.Head me.who i))) h) }
    ensures spent { (me : AMe) (i b e : ℕ) (r0 r : AMemo) (tr : Trail) (es : List AnEvent) → SendLeaves (sending me i b) r0 r tr es (Err (send.EraSpent e)) → (e ≡ own_word r0.own (spots.Era me.who me.who)) × (2 ^ 47 - 3 < e) × Untouched me.who r0 r × (es ≡ []) }
    ensures full { (me : AMe) (i b d n : ℕ) (r0 r : AMemo) (tr : Trail) (es : List AnEvent) → SendLeaves (sending me i b) r0 r tr es (Err (send.CountFull d n)) → (d ≡ b) × (n ≡ 1023) × Untouched me.who r0 r × (es ≡ []) }
    ensures read { (me : AMe) (i b d n : ℕ) (tr : Trail) → plan_trail send_plan (sending me i b) tr (Err (send.CountFull d n)) → ReadsCount d n tr }
{}

/// A take finds the queue empty only where the tail that it read is the own head, below which no tail was read before; nothing changed. It
/// is refused as spent at the step down where it tells no event: the item, which is known, stays in the queue, a tail that was read is above the
/// head, and the era is the own one.
/// Where it tells one the item is taken, and a step down of its tear-down was refused: what was being torn down are zero-count blocks still.
pub fn take_refusals()
    ensures empty { (me : AMe) (s n : ℕ) (r0 r : AMemo) (tr : Trail) (es : List AnEvent) → TakeLeaves (taking me s) r0 r tr es (Err (take.Empty n)) → (n ≡ own_word r0.own (spots.QueueHead s me.who)) × Contains r.facts (Counter (spots.Tail s me.who) n) × ((y : ℕ) → Contains r0.facts (Counter (spots.Tail s me.who) y) → y ≤ n) × (core r ≡ core r0) × (es ≡ []) }
    ensures kept { (me : AMe) (s e : ℕ) (r0 r : AMemo) (tr : Trail) (es : List AnEvent) → TakeLeaves (taking me s) r0 r tr es (Err (take.EraSpent e)) → es ≡ [] → (2 ^ 47 - 3 < e) × (e ≡ own_word r0.own (spots.Era me.who me.who)) × ((b : ℕ) × Untouched me.who (slot_memo me.who s (own_word r0.own (spots.QueueHead s me.who)) b r0) r) × ((y : ℕ) × Contains r.facts (Counter (spots.Tail s me.who) y) × (own_word r0.own (spots.QueueHead s me.who) < y)) }
    ensures taken { (me : AMe) (s e : ℕ) (r0 r : AMemo) (tr : Trail) (es : List AnEvent) → TakeLeaves (taking me s) r0 r tr es (Err (take.EraSpent e)) → es ≢ [] → (2 ^ 47 - 3 < e) × (e ≤ own_word r.own (spots.Era me.who me.who)) × ((n : ℕ) × (b : ℕ) × (b ≢ 0) × as_known (spots.Slot s me.who (n % 8)) r0 b × Received me.who s n b r0 r × ((vs : List AVisit) × (ds : List AnEvent) × (es ≡ event.Down me.who (spots.Slot s me.who (n % 8)) b ∷ ds) × Walks me.who b ds vs × StoppedAt me r0 r e vs)) }
{}

/// A peek finds the queue empty as a take does. Otherwise it read a tail above the own head, and the item there is known; it is refused only, in
/// this order, where the own era leaves no room for the step up; where each root names a block; where a header of the item that was read shows
/// 1,023. No event is told, and no root changed.
pub fn peek_refusals()
    ensures empty { (me : AMe) (s n : ℕ) (r0 r : AMemo) (tr : Trail) (es : List AnEvent) → PeekLeaves (peeking me s) r0 r tr es (Err (peek.Empty n)) → TakeLeaves (taking me s) r0 r tr es (Err (take.Empty n)) }
    ensures waits { (me : AMe) (s : ℕ) (r0 r : AMemo) (tr : Trail) (es : List AnEvent) (f : APeekFault) → PeekLeaves (peeking me s) r0 r tr es (Err f) → (f ≡ peek.Empty (own_word r0.own (spots.QueueHead s me.who))) ⊎ ((y : ℕ) × Contains r.facts (Counter (spots.Tail s me.who) y) × (own_word r0.own (spots.QueueHead s me.who) < y)) }
    ensures spent { (me : AMe) (s e : ℕ) (r0 r : AMemo) (tr : Trail) (es : List AnEvent) → PeekLeaves (peeking me s) r0 r tr es (Err (peek.EraSpent e)) → (e ≡ own_word r0.own (spots.Era me.who me.who)) × (2 ^ 47 - 3 < e) × ((b : ℕ) × Untouched me.who (slot_memo me.who s (own_word r0.own (spots.QueueHead s me.who)) b r0) r) × (es ≡ []) }
    ensures roots { (me : AMe) (s : ℕ) (r0 r : AMemo) (tr : Trail) (es : List AnEvent) → PeekLeaves (peeking me s) r0 r tr es (Err peek.RootsFull) → (own_word r0.own (spots.Era me.who me.who) + 3 ≤ 2 ^ 47) × ((j : ℕ) → j < 16 → root_word me.who r0 j ≢ 0) × ((b : ℕ) × Untouched me.who (slot_memo me.who s (own_word r0.own (spots.QueueHead s me.who)) b r0) r) × (es ≡ []) }
    ensures full { (me : AMe) (s d n : ℕ) (r0 r : AMemo) (tr : Trail) (es : List AnEvent) → PeekLeaves (peeking me s) r0 r tr es (Err (peek.CountFull d n)) → (own_word r0.own (spots.Era me.who me.who) + 3 ≤ 2 ^ 47) × (n ≡ 1023) × Untouched me.who (slot_memo me.who s (own_word r0.own (spots.QueueHead s me.who)) d r0) r × (es ≡ []) }
    ensures read { (me : AMe) (s d n : ℕ) (tr : Trail) → plan_trail peek_plan (peeking me s) tr (Err (peek.CountFull d n)) → ReadsCount d n tr }
{}

/// A receive that is refused without an event was refused as its peek is. Only one that is refused as spent may tell events: the item then has
/// the root that was the least empty one, and its take was refused; the own head is what it was, or has passed the item.
pub fn receive_refusals()
    ensures peeked { (me : AMe) (s : ℕ) (r0 r : AMemo) (tr : Trail) (es : List AnEvent) (f : APeekFault) → ReceiveLeaves (receiving me s) r0 r tr es (Err f) → es ≡ [] → PeekLeaves (peeking me s) r0 r tr es (Err f) }
    ensures only { (me : AMe) (s : ℕ) (r0 r : AMemo) (tr : Trail) (es : List AnEvent) (f : APeekFault) → ReceiveLeaves (receiving me s) r0 r tr es (Err f) → es ≢ [] → (e : ℕ) × (f ≡ peek.EraSpent e) × (2 ^ 47 - 3 < e) × (e ≤ own_word r.own (spots.Era me.who me.who)) }
    ensures rooted { (me : AMe) (s e : ℕ) (r0 r : AMemo) (tr : Trail) (es : List AnEvent) → ReceiveLeaves (receiving me s) r0 r tr es (Err (peek.EraSpent e)) → es ≢ [] → (k : ℕ) × (b : ℕ) × (k < 16) × (root_word me.who r0 k ≡ 0) × ((j : ℕ) → j < k → root_word me.who r0 j ≢ 0) × (root_word me.who r k ≡ b)
        × ((own_word r.own (spots.QueueHead s me.who) ≡ own_word r0.own (spots.QueueHead s me.who)) ⊎ (own_word r.own (spots.QueueHead s me.who) ≡ own_word r0.own (spots.QueueHead s me.who) + 1)) }
    ensures read { (me : AMe) (s d n : ℕ) (tr : Trail) → plan_trail receive_plan (receiving me s) tr (Err (peek.CountFull d n)) → ReadsCount d n tr }
{}

/// A drain that is done has read of each queue a tail that is the own head. One that is refused has taken these items: each queue's joined in
/// order what was received, and the own head passed them. A step down at the next item was refused, so that the events are those of these
/// items; or one of the tear-down of the last one: what was being torn down are zero-count blocks still.
pub fn drain_refusals()
    ensures empty { (me : AMe) (n : ℕ) (r0 r : AMemo) (tr : Trail) (es : List AnEvent) → DrainLeaves (draining me) r0 r tr es (Ok n) → (s : ℕ) → s < me.geometry.clients → s ≢ me.who → Contains r.facts (Counter (spots.Tail s me.who) (own_word r.own (spots.QueueHead s me.who))) }
    ensures spent { (me : AMe) (r0 r : AMemo) (tr : Trail) (es : List AnEvent) (e : ASpent) → DrainLeaves (draining me) r0 r tr es (Err e) → (2 ^ 47 - 3 < e.era) × (e.era ≤ own_word r.own (spots.Era me.who me.who)) }
    ensures items { (me : AMe) (r0 r : AMemo) (tr : Trail) (es : List AnEvent) (e : ASpent) → DrainLeaves (draining me) r0 r tr es (Err e)
        → (xs : List AnItem) × ((s : ℕ) → slice_index_or r.received s [] ≡ slice_index_or r0.received s [] ++ blocks_from s xs) × ((s : ℕ) → own_word r.own (spots.QueueHead s me.who) ≡ own_word r0.own (spots.QueueHead s me.who) + length (blocks_from s xs))
        × ((ItemsEvents me.who xs es × (r.dying ≡ r0.dying)) ⊎ ((ys : List AnItem) × (x : AnItem) × (before : List AnEvent) × (ds : List AnEvent) × (vs : List AVisit) × (xs ≡ ys ++ x ∷ []) × ItemsEvents me.who ys before × (es ≡ before ++ event.Down me.who (spots.Slot x.from me.who (x.place % 8)) x.block ∷ ds) × Walks me.who x.block ds vs × StoppedAt me r0 r e.era vs)) }
{}
