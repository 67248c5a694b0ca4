//! What machines over queues leave of the memo, whatever they answer: what was sent and received, what waits, the roots and the latch.

ghost use Rattle.std.specs.Prelude.{◌≡◌, ◌≢◌, ◌⊎◌, ℕ, ◌+◌, ◌%◌, ◌<◌, Result, Err, IfErr, IfOk, List, [], ◌++◌, length, slice_index_or};
ghost use Rattle.shm_graph.specs.{declared.{ask.Me.Me as AMe, memo.Memo.Memo as AMemo}, Asks.Trail, Core.core};
ghost use Rattle.shm_graph.specs.{Events.Event as AnEvent, Idle.IsIdle, MemoAfterStore.lane_with, Views.own_word};
ghost use Rattle.shm_graph.specs.declared.spot.Spot.TheVariants as spots;
ghost use Rattle.shm_count.specs.declared.answer.{EraSpent.EraSpent as ASpent, Made.Made as AMade};
ghost use Rattle.shm_count.specs.{Roots.{AreRootsReached, root_word}, Tear.Memos.Knows, Waiting.LeavesQueues};
ghost use Rattle.shm_queue.specs.declared.answer.{PeekFault.PeekFault as APeekFault, SendFault.SendFault as ASendFault};
ghost use Rattle.shm_queue.specs.{declared.answer.TakeFault.TakeFault as ATakeFault, Drain.Control.draining};
ghost use Rattle.shm_queue.specs.{Drain.{DrainLeaves, TakenItem as AnItem, blocks_from}, Keeping.{HasReceived, IsLeft}};
ghost use Rattle.shm_queue.specs.{Peek.{Control.peeking, PeekLeaves}, Receive.{Control.receiving, ReceiveLeaves}};
ghost use Rattle.shm_queue.specs.{Send.{Control.sending, SendLeaves}, Take.{Control.taking, TakeLeaves}};
ghost use Rattle.shm_queue.specs.declared.answer.PeekFault.TheVariants as peek;
ghost use Rattle.shm_queue.specs.declared.answer.TakeFault.TheVariants as take;

/// A send that is done answers the tail before, and its block stands at the end of what was sent to that identity; one that is refused sent
/// nothing. Whatever it answers, the latch, what waits, the zero-count blocks and the roots are what they were, and what roots name is in reach.
pub fn send_keeps()
    ensures place { (me : AMe) (i b : ℕ) (r0 r : AMemo) (tr : Trail) (es : List AnEvent) (a : Result ℕ ASendFault) → SendLeaves (sending me i b) r0 r tr es a → IfOk a (λ n. n ≡ own_word r0.own (spots.Tail me.who i)) }
    ensures sent { (me : AMe) (i b : ℕ) (r0 r : AMemo) (tr : Trail) (es : List AnEvent) (a : Result ℕ ASendFault) → SendLeaves (sending me i b) r0 r tr es a → IfOk a (λ n. r.sent ≡ lane_with r0.sent i b) }
    ensures refused { (me : AMe) (i b : ℕ) (r0 r : AMemo) (tr : Trail) (es : List AnEvent) (a : Result ℕ ASendFault) → SendLeaves (sending me i b) r0 r tr es a → IfErr a (λ f. r.sent ≡ r0.sent) }
    ensures left { (me : AMe) (i b : ℕ) (r0 r : AMemo) (tr : Trail) (es : List AnEvent) (a : Result ℕ ASendFault) → SendLeaves (sending me i b) r0 r tr es a → LeavesQueues r0 r }
    ensures dying { (me : AMe) (i b : ℕ) (r0 r : AMemo) (tr : Trail) (es : List AnEvent) (a : Result ℕ ASendFault) → SendLeaves (sending me i b) r0 r tr es a → r.dying ≡ r0.dying }
    ensures roots { (me : AMe) (i b : ℕ) (r0 r : AMemo) (tr : Trail) (es : List AnEvent) (a : Result ℕ ASendFault) → SendLeaves (sending me i b) r0 r tr es a → (k : ℕ) → root_word me.who r k ≡ root_word me.who r0 k }
    ensures reached { (me : AMe) (i b : ℕ) (r0 r : AMemo) (tr : Trail) (es : List AnEvent) (a : Result ℕ ASendFault) → SendLeaves (sending me i b) r0 r tr es a → IsIdle me.who r0 → AreRootsReached me.who r }
{}

/// A peek that is done answers a root and the block that it names; the block is known in the slot at the own head, and the other roots name what
/// they named. Whatever it answers, the own head, what was received, the zero-count blocks, the latch and what waits are what they were, so that
/// a take may follow; what roots name is in reach. Where it is refused all roots name what they named.
pub fn peek_keeps()
    ensures number { (me : AMe) (s : ℕ) (r0 r : AMemo) (tr : Trail) (es : List AnEvent) (a : Result AMade APeekFault) → PeekLeaves (peeking me s) r0 r tr es a → IfOk a (λ made. made.root < 16) }
    ensures named { (me : AMe) (s : ℕ) (r0 r : AMemo) (tr : Trail) (es : List AnEvent) (a : Result AMade APeekFault) → PeekLeaves (peeking me s) r0 r tr es a → IfOk a (λ made. root_word me.who r made.root ≡ made.block) }
    ensures known { (me : AMe) (s : ℕ) (r0 r : AMemo) (tr : Trail) (es : List AnEvent) (a : Result AMade APeekFault) → PeekLeaves (peeking me s) r0 r tr es a → IfOk a (λ made. Knows r (spots.Slot s me.who (own_word r0.own (spots.QueueHead s me.who) % 8)) made.block) }
    ensures head { (me : AMe) (s : ℕ) (r0 r : AMemo) (tr : Trail) (es : List AnEvent) (a : Result AMade APeekFault) → PeekLeaves (peeking me s) r0 r tr es a → own_word r.own (spots.QueueHead s me.who) ≡ own_word r0.own (spots.QueueHead s me.who) }
    ensures stays { (me : AMe) (s : ℕ) (r0 r : AMemo) (tr : Trail) (es : List AnEvent) (a : Result AMade APeekFault) → PeekLeaves (peeking me s) r0 r tr es a → IsLeft r0 r }
    ensures left { (me : AMe) (s : ℕ) (r0 r : AMemo) (tr : Trail) (es : List AnEvent) (a : Result AMade APeekFault) → PeekLeaves (peeking me s) r0 r tr es a → LeavesQueues r0 r }
    ensures roots { (me : AMe) (s : ℕ) (r0 r : AMemo) (tr : Trail) (es : List AnEvent) (a : Result AMade APeekFault) → PeekLeaves (peeking me s) r0 r tr es a → IfOk a (λ made. (k : ℕ) → k ≢ made.root → root_word me.who r k ≡ root_word me.who r0 k) }
    ensures kept { (me : AMe) (s : ℕ) (r0 r : AMemo) (tr : Trail) (es : List AnEvent) (a : Result AMade APeekFault) → PeekLeaves (peeking me s) r0 r tr es a → IfErr a (λ f. (k : ℕ) → root_word me.who r k ≡ root_word me.who r0 k) }
    ensures reached { (me : AMe) (s : ℕ) (r0 r : AMemo) (tr : Trail) (es : List AnEvent) (a : Result AMade APeekFault) → PeekLeaves (peeking me s) r0 r tr es a → IsIdle me.who r0 → AreRootsReached me.who r }
{}

/// A take that is done received one item, the own head is one more, and the zero-count blocks are those before. One that found the own era
/// spent received nothing, with no more zero-count blocks, or one item. Whatever it answers, the latch, what waits and the roots are what they
/// were, and what roots name is in reach.
pub fn take_keeps()
    ensures taken { (me : AMe) (s : ℕ) (r0 r : AMemo) (tr : Trail) (es : List AnEvent) (a : Result (Unit {0}) ATakeFault) → TakeLeaves (taking me s) r0 r tr es a → IfOk a (λ u. HasReceived s r0 r) }
    ensures head { (me : AMe) (s : ℕ) (r0 r : AMemo) (tr : Trail) (es : List AnEvent) (a : Result (Unit {0}) ATakeFault) → TakeLeaves (taking me s) r0 r tr es a → IfOk a (λ u. own_word r.own (spots.QueueHead s me.who) ≡ own_word r0.own (spots.QueueHead s me.who) + 1) }
    ensures spent { (me : AMe) (s e : ℕ) (r0 r : AMemo) (tr : Trail) (es : List AnEvent) → TakeLeaves (taking me s) r0 r tr es (Err (take.EraSpent e)) → IsLeft r0 r ⊎ HasReceived s r0 r }
    ensures left { (me : AMe) (s : ℕ) (r0 r : AMemo) (tr : Trail) (es : List AnEvent) (a : Result (Unit {0}) ATakeFault) → TakeLeaves (taking me s) r0 r tr es a → LeavesQueues r0 r }
    ensures dying { (me : AMe) (s : ℕ) (r0 r : AMemo) (tr : Trail) (es : List AnEvent) (a : Result (Unit {0}) ATakeFault) → TakeLeaves (taking me s) r0 r tr es a → IfOk a (λ u. r.dying ≡ r0.dying) }
    ensures roots { (me : AMe) (s : ℕ) (r0 r : AMemo) (tr : Trail) (es : List AnEvent) (a : Result (Unit {0}) ATakeFault) → TakeLeaves (taking me s) r0 r tr es a → (k : ℕ) → root_word me.who r k ≡ root_word me.who r0 k }
    ensures reached { (me : AMe) (s : ℕ) (r0 r : AMemo) (tr : Trail) (es : List AnEvent) (a : Result (Unit {0}) ATakeFault) → TakeLeaves (taking me s) r0 r tr es a → IsIdle me.who r0 → AreRootsReached me.who r }
{}

/// A receive that is done answers a root and the block that it names, which joined what was received; the other roots name what they named, and
/// the zero-count blocks are those before. Where it found the queue empty nothing changed. Whatever it answers, the latch and what waits are what
/// they were, and what roots name is in reach.
pub fn receive_keeps()
    ensures number { (me : AMe) (s : ℕ) (r0 r : AMemo) (tr : Trail) (es : List AnEvent) (a : Result AMade APeekFault) → ReceiveLeaves (receiving me s) r0 r tr es a → IfOk a (λ made. made.root < 16) }
    ensures named { (me : AMe) (s : ℕ) (r0 r : AMemo) (tr : Trail) (es : List AnEvent) (a : Result AMade APeekFault) → ReceiveLeaves (receiving me s) r0 r tr es a → IfOk a (λ made. root_word me.who r made.root ≡ made.block) }
    ensures received { (me : AMe) (s : ℕ) (r0 r : AMemo) (tr : Trail) (es : List AnEvent) (a : Result AMade APeekFault) → ReceiveLeaves (receiving me s) r0 r tr es a → IfOk a (λ made. r.received ≡ lane_with r0.received s made.block) }
    ensures empty { (me : AMe) (s n : ℕ) (r0 r : AMemo) (tr : Trail) (es : List AnEvent) → ReceiveLeaves (receiving me s) r0 r tr es (Err (peek.Empty n)) → (n ≡ own_word r0.own (spots.QueueHead s me.who)) × (core r ≡ core r0) }
    ensures left { (me : AMe) (s : ℕ) (r0 r : AMemo) (tr : Trail) (es : List AnEvent) (a : Result AMade APeekFault) → ReceiveLeaves (receiving me s) r0 r tr es a → LeavesQueues r0 r }
    ensures dying { (me : AMe) (s : ℕ) (r0 r : AMemo) (tr : Trail) (es : List AnEvent) (a : Result AMade APeekFault) → ReceiveLeaves (receiving me s) r0 r tr es a → IfOk a (λ made. r.dying ≡ r0.dying) }
    ensures roots { (me : AMe) (s : ℕ) (r0 r : AMemo) (tr : Trail) (es : List AnEvent) (a : Result AMade APeekFault) → ReceiveLeaves (receiving me s) r0 r tr es a → IfOk a (λ made. (k : ℕ) → k ≢ made.root → root_word me.who r k ≡ root_word me.who r0 k) }
    ensures reached { (me : AMe) (s : ℕ) (r0 r : AMemo) (tr : Trail) (es : List AnEvent) (a : Result AMade APeekFault) → ReceiveLeaves (receiving me s) r0 r tr es a → IsIdle me.who r0 → AreRootsReached me.who r }
{}

/// A drain that is done answers how many items it took, each of which joined what was received from its sender, in order; the zero-count
/// blocks are those before. Whatever it answers, the latch, what waits and the roots are what they were, and what roots name is in reach.
pub fn drain_keeps()
    ensures received { (me : AMe) (r0 r : AMemo) (tr : Trail) (es : List AnEvent) (a : Result ℕ ASpent) → DrainLeaves (draining me) r0 r tr es a → IfOk a (λ n. (xs : List AnItem) × (n ≡ length xs) × ((s : ℕ) → slice_index_or r.received s [] ≡ slice_index_or r0.received s [] ++ blocks_from s xs)) }
    ensures left { (me : AMe) (r0 r : AMemo) (tr : Trail) (es : List AnEvent) (a : Result ℕ ASpent) → DrainLeaves (draining me) r0 r tr es a → LeavesQueues r0 r }
    ensures dying { (me : AMe) (r0 r : AMemo) (tr : Trail) (es : List AnEvent) (a : Result ℕ ASpent) → DrainLeaves (draining me) r0 r tr es a → IfOk a (λ n. r.dying ≡ r0.dying) }
    ensures roots { (me : AMe) (r0 r : AMemo) (tr : Trail) (es : List AnEvent) (a : Result ℕ ASpent) → DrainLeaves (draining me) r0 r tr es a → (k : ℕ) → root_word me.who r k ≡ root_word me.who r0 k }
    ensures reached { (me : AMe) (r0 r : AMemo) (tr : Trail) (es : List AnEvent) (a : Result ℕ ASpent) → DrainLeaves (draining me) r0 r tr es a → IsIdle me.who r0 → AreRootsReached me.who r }
{}
