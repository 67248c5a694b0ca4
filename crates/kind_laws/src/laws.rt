//! The laws of the kinds of word step: under the kind's condition the invariant outlives the step.

ghost use Rattle.std.specs.Prelude.{◌≡◌, ℕ, ◌+◌, ◌<◌, Option, Some, List};
ghost use Rattle.shm_words.specs.{declared.geometry.Geometry.Geometry as AGeometry, Headers.header_of};
ghost use Rattle.shm_graph.specs.declared.spot.Spot.{Spot as ASpot};
ghost use Rattle.shm_graph.specs.declared.spot.Spot.TheVariants.{Redo, RedoMore, Hold, Latch, Era, Root, Tail, QueueHead, Segment, Page, Head, Body, Home, Slot, Tag};
ghost use Rattle.shm_graph.specs.declared.memo.{Op.Op as AnOp, Stored.Stored as AStored, Look.Look as ALook};
ghost use Rattle.shm_graph.specs.declared.memo.{Making.Making as AMaking, Test.Test as ATest};
ghost use Rattle.shm_graph.specs.{declared.table.Part.Part as APart, Spots.upd, Views.View};
ghost use Rattle.shm_graph.specs.Events.{Nothing, Alloc, Up, Down, ChangeUp, ChangeDown, Free, graph_of, Happens};
ghost use Rattle.shm_graph.specs.{Held.HeldAt, MemoAfterRead.next_row};
ghost use Rattle.kind_laws.specs.OwnWords.{BeginNeeds, begin_view, MoreNeeds, more_view, RowNeeds, row_store_view, CloseNeeds, close_view, TailNeeds, tail_view, QueueHeadNeeds, head_view, HoldNeeds, hold_view};
ghost use Rattle.kind_laws.specs.Segments.{ClassNeeds, class_view, ClaimNeeds, claim_view, SegmentBackNeeds, segment_back_view};
ghost use Rattle.kind_laws.specs.Slotting.{RootNeeds, root_view, BodyNeeds, body_view, HomeNeeds, home_view, QueueNeeds, queue_view};
ghost use Rattle.kind_laws.specs.Latches.{BackNeeds, back_view, LatchNeeds, latch_view, LookNeeds, look_view};
ghost use Rattle.kind_laws.specs.Preparing.{FreeNeeds, free_view, PrepareNeeds, prepare_view, LinkNeeds, link_view};
ghost use Rattle.kind_laws.specs.HeaderExchanges.{AllocNeeds, alloc_view, UpNeeds, up_view, LowerNeeds, lower_view, ChangeNeeds, change_view, SecondNeeds, second_view};
ghost use Rattle.kind_laws.specs.Loads.{header_view, row_view};

/// Stores of own words: a redo record, in format 2 its first word, which begins a step; in format 2 the second word of one, while no step
/// is in progress; a row, the own era that closes a step or the first half of a change, the tail of a queue whose send is closed, and the
/// head of a queue whose item was taken.
pub fn own_stores_kept()
    ensures redo { (g : AGeometry) (w : ASpot → ℕ) (v : View) (c x : ℕ) (o : AnOp) → HeldAt g w v → BeginNeeds g w v c x o → HeldAt g (upd w (Redo c) x) (begin_view v c x o) }
    ensures more { (g : AGeometry) (w : ASpot → ℕ) (v : View) (c x : ℕ) → HeldAt g w v → MoreNeeds g w v c x → HeldAt g (upd w (RedoMore c) x) (more_view v c x) }
    ensures row { (g : AGeometry) (w : ASpot → ℕ) (v : View) (c j x : ℕ) → HeldAt g w v → RowNeeds g w v c j x → HeldAt g (upd w (Era c j) x) (row_store_view v c j x) }
    ensures era { (g : AGeometry) (w : ASpot → ℕ) (v : View) (c : ℕ) (o : AnOp) → HeldAt g w v → CloseNeeds g v c o → HeldAt g (upd w (Era c c) (w (Era c c) + 1)) (close_view v c (w (Era c c) + 1) o) }
    ensures tail { (g : AGeometry) (w : ASpot → ℕ) (v : View) (c r : ℕ) → HeldAt g w v → TailNeeds g w v c r → HeldAt g (upd w (Tail c r) (w (Tail c r) + 1)) (tail_view v c r (w (Tail c r) + 1)) }
    ensures head { (g : AGeometry) (w : ASpot → ℕ) (v : View) (c s : ℕ) → HeldAt g w v → QueueHeadNeeds g w v c s → HeldAt g (upd w (QueueHead s c) (w (QueueHead s c) + 1)) (head_view v c s (w (QueueHead s c) + 1)) }
{}

/// Stores of shared words: the new value of a committed step in its root, or in a reference word of a block, for the first time or
/// again; a page's class; a latch that is given back; and the header of a zero-count block that is freed.
pub fn shared_stores_kept()
    ensures root { (g : AGeometry) (w : ASpot → ℕ) (v : View) (c k x : ℕ) (o : AnOp) → HeldAt g w v → RootNeeds g w v c k x o → HeldAt g (upd w (Root c k) x) (root_view v c k x o) }
    ensures body { (g : AGeometry) (w : ASpot → ℕ) (v : View) (c b i x : ℕ) (o : AnOp) → HeldAt g w v → BodyNeeds g v c b i x o → HeldAt g (upd w (Body b i) x) (body_view v c b i x o) }
    ensures class { (g : AGeometry) (w : ASpot → ℕ) (v : View) (c s q k : ℕ) → HeldAt g w v → ClassNeeds g w v c s q k → HeldAt g (upd w (Page s q) k) (class_view v c s q k) }
    ensures latch { (g : AGeometry) (w : ASpot → ℕ) (v : View) (c a : ℕ) (kept : List AStored) (values : List ℕ) → HeldAt g w v → BackNeeds g w v c a kept values → HeldAt g (upd w (Latch a) 0) (back_view v c kept values) }
    ensures free { (g : AGeometry) (w : ASpot → ℕ) (v : View) (c b tag : ℕ) → HeldAt g w v → FreeNeeds g v c b tag → HeldAt g (upd w (Head b) 0) (free_view v c b) }
{}

/// Stores of own words, of a slot, of a class and of a latch, and the exchange of a latch, leave the graph as it is.
pub fn stores_are_quiet()
    ensures redo { (g : AGeometry) (w : ASpot → ℕ) (v : View) (c x : ℕ) (o : AnOp) → HeldAt g w v → BeginNeeds g w v c x o → Happens g w Nothing (graph_of g w v) (graph_of g (upd w (Redo c) x) (begin_view v c x o)) }
    ensures more { (g : AGeometry) (w : ASpot → ℕ) (v : View) (c x : ℕ) → HeldAt g w v → MoreNeeds g w v c x → Happens g w Nothing (graph_of g w v) (graph_of g (upd w (RedoMore c) x) (more_view v c x)) }
    ensures row { (g : AGeometry) (w : ASpot → ℕ) (v : View) (c j x : ℕ) → HeldAt g w v → RowNeeds g w v c j x → Happens g w Nothing (graph_of g w v) (graph_of g (upd w (Era c j) x) (row_store_view v c j x)) }
    ensures era { (g : AGeometry) (w : ASpot → ℕ) (v : View) (c : ℕ) (o : AnOp) → HeldAt g w v → CloseNeeds g v c o → Happens g w Nothing (graph_of g w v) (graph_of g (upd w (Era c c) (w (Era c c) + 1)) (close_view v c (w (Era c c) + 1) o)) }
    ensures tail { (g : AGeometry) (w : ASpot → ℕ) (v : View) (c r : ℕ) → HeldAt g w v → TailNeeds g w v c r → Happens g w Nothing (graph_of g w v) (graph_of g (upd w (Tail c r) (w (Tail c r) + 1)) (tail_view v c r (w (Tail c r) + 1))) }
    ensures head { (g : AGeometry) (w : ASpot → ℕ) (v : View) (c s : ℕ) → HeldAt g w v → QueueHeadNeeds g w v c s → Happens g w Nothing (graph_of g w v) (graph_of g (upd w (QueueHead s c) (w (QueueHead s c) + 1)) (head_view v c s (w (QueueHead s c) + 1))) }
    ensures root { (g : AGeometry) (w : ASpot → ℕ) (v : View) (c k x : ℕ) (o : AnOp) → HeldAt g w v → RootNeeds g w v c k x o → Happens g w Nothing (graph_of g w v) (graph_of g (upd w (Root c k) x) (root_view v c k x o)) }
    ensures body { (g : AGeometry) (w : ASpot → ℕ) (v : View) (c b i x : ℕ) (o : AnOp) → HeldAt g w v → BodyNeeds g v c b i x o → Happens g w Nothing (graph_of g w v) (graph_of g (upd w (Body b i) x) (body_view v c b i x o)) }
    ensures class { (g : AGeometry) (w : ASpot → ℕ) (v : View) (c s q k : ℕ) → HeldAt g w v → ClassNeeds g w v c s q k → Happens g w Nothing (graph_of g w v) (graph_of g (upd w (Page s q) k) (class_view v c s q k)) }
    ensures back { (g : AGeometry) (w : ASpot → ℕ) (v : View) (c a : ℕ) (kept : List AStored) (values : List ℕ) → HeldAt g w v → BackNeeds g w v c a kept values → Happens g w Nothing (graph_of g w v) (graph_of g (upd w (Latch a) 0) (back_view v c kept values)) }
    ensures latch { (g : AGeometry) (w : ASpot → ℕ) (v : View) (c a : ℕ) → HeldAt g w v → LatchNeeds g w v c a → Happens g w Nothing (graph_of g w v) (graph_of g (upd w (Latch a) (c + 1)) (latch_view v c a)) }
{}

/// Exchanges that succeed: of a latch, and of a header, by which a block becomes live, is raised, is lowered, or a half of a change
/// is committed.
pub fn exchanges_kept()
    ensures latch { (g : AGeometry) (w : ASpot → ℕ) (v : View) (c a : ℕ) → HeldAt g w v → LatchNeeds g w v c a → HeldAt g (upd w (Latch a) (c + 1)) (latch_view v c a) }
    ensures alloc { (g : AGeometry) (w : ASpot → ℕ) (v : View) (c k b e to tag : ℕ) (m : AMaking) → HeldAt g w v → AllocNeeds g w v c k b e to tag m → HeldAt g (upd w (Head b) to) (alloc_view v c k b e m) }
    ensures up { (g : AGeometry) (w : ASpot → ℕ) (v : View) (c b e to : ℕ) (p : ASpot) (part : APart) → HeldAt g w v → UpNeeds g w v c b e to p part → HeldAt g (upd w (Head b) to) (up_view v c b e p part) }
    ensures down { (g : AGeometry) (w : ASpot → ℕ) (v : View) (c b e n to : ℕ) (p : ASpot) (looks : List ALook) (kept : List AStored) (values : List ℕ) (part : APart) → HeldAt g w v → LowerNeeds g w v c b e n to p looks kept values part → HeldAt g (upd w (Head b) to) (lower_view v c b e n p looks kept values part) }
    ensures first { (g : AGeometry) (w : ASpot → ℕ) (v : View) (c x b e to : ℕ) (p : ASpot) (looks : List ALook) (kept : List AStored) (values : List ℕ) (part : APart) → HeldAt g w v → ChangeNeeds g w v c x b e to p looks kept values part → HeldAt g (upd w (Head b) to) (change_view v c x b e p looks kept values part) }
    ensures second { (g : AGeometry) (w : ASpot → ℕ) (v : View) (c b y e n to : ℕ) (p : ASpot) (looks : List ALook) (kept : List AStored) (values : List ℕ) → HeldAt g w v → SecondNeeds g w v c b y e n to p looks kept values → HeldAt g (upd w (Head b) to) (second_view v c b y e n p looks kept values) }
{}

/// The event of each exchange of a header that succeeds.
pub fn exchanges_are_events()
    ensures alloc { (g : AGeometry) (w : ASpot → ℕ) (v : View) (c k b e to tag : ℕ) (m : AMaking) → HeldAt g w v → AllocNeeds g w v c k b e to tag m → Happens g w (Alloc c k b) (graph_of g w v) (graph_of g (upd w (Head b) to) (alloc_view v c k b e m)) }
    ensures up { (g : AGeometry) (w : ASpot → ℕ) (v : View) (c b e to : ℕ) (p : ASpot) (part : APart) → HeldAt g w v → UpNeeds g w v c b e to p part → Happens g w (Up c p b) (graph_of g w v) (graph_of g (upd w (Head b) to) (up_view v c b e p part)) }
    ensures down { (g : AGeometry) (w : ASpot → ℕ) (v : View) (c b e n to : ℕ) (p : ASpot) (looks : List ALook) (kept : List AStored) (values : List ℕ) (part : APart) → HeldAt g w v → LowerNeeds g w v c b e n to p looks kept values part → Happens g w (Down c p b) (graph_of g w v) (graph_of g (upd w (Head b) to) (lower_view v c b e n p looks kept values part)) }
{}

/// Loads: of a header and of a row by a recoverer that tests whether a step was committed, and of a reference word of a block under
/// its author's latch. The graph stays.
pub fn loads_kept()
    ensures header { (g : AGeometry) (w : ASpot → ℕ) (v : View) (c b : ℕ) → HeldAt g w v → c < g.clients → (((header_of (w (Head b))).client ≡ c) × ((header_of (w (Head b))).era ≡ w (Era c c)) → ⊥) → HeldAt g w (header_view v c (w (Head b)) (Some (record { block = b; next = 0 }))) }
    ensures row { (g : AGeometry) (w : ASpot → ℕ) (v : View) (c k : ℕ) (t : ATest) → HeldAt g w v → c < g.clients → v.test c ≡ Some t → next_row c t.next ≡ k → w (Era k c) < w (Era c c) → HeldAt g w (row_view v c k (w (Era k c)) (Some (record { block = t.block; next = k + 1 }))) }
    ensures look { (g : AGeometry) (w : ASpot → ℕ) (v : View) (c b i : ℕ) → HeldAt g w v → LookNeeds g w v c b i → HeldAt g w (look_view v c b i (w (Body b i))) }
    ensures header_quiet { (g : AGeometry) (w : ASpot → ℕ) (v : View) (c b : ℕ) (test : Option ATest) → Happens g w Nothing (graph_of g w v) (graph_of g w (header_view v c (w (Head b)) test)) }
    ensures row_quiet { (g : AGeometry) (w : ASpot → ℕ) (v : View) (c k : ℕ) (test : Option ATest) → Happens g w Nothing (graph_of g w v) (graph_of g w (row_view v c k (w (Era k c)) test)) }
    ensures look_quiet { (g : AGeometry) (w : ASpot → ℕ) (v : View) (c b i : ℕ) → Happens g w Nothing (graph_of g w v) (graph_of g w (look_view v c b i (w (Body b i)))) }
{}

/// The events of the halves of a change, and of the store that frees a block.
pub fn changes_are_events()
    ensures first { (g : AGeometry) (w : ASpot → ℕ) (v : View) (c x b e to : ℕ) (p : ASpot) (looks : List ALook) (kept : List AStored) (values : List ℕ) (part : APart) → HeldAt g w v → ChangeNeeds g w v c x b e to p looks kept values part → Happens g w (ChangeUp c p x b) (graph_of g w v) (graph_of g (upd w (Head b) to) (change_view v c x b e p looks kept values part)) }
    ensures second { (g : AGeometry) (w : ASpot → ℕ) (v : View) (c b y e n to : ℕ) (p : ASpot) (looks : List ALook) (kept : List AStored) (values : List ℕ) → HeldAt g w v → SecondNeeds g w v c b y e n to p looks kept values → Happens g w (ChangeDown c b) (graph_of g w v) (graph_of g (upd w (Head b) to) (second_view v c b y e n p looks kept values)) }
    ensures free { (g : AGeometry) (w : ASpot → ℕ) (v : View) (c b tag : ℕ) → HeldAt g w v → FreeNeeds g v c b tag → Happens g w (Free c b) (graph_of g w v) (graph_of g (upd w (Head b) 0) (free_view v c b)) }
{}

/// The store of the own hold word where no latch is held, the exchange by which a segment becomes the identity's, and the store that
/// gives one up.
pub fn holding_kept()
    ensures hold { (g : AGeometry) (w : ASpot → ℕ) (v : View) (c x : ℕ) → HeldAt g w v → HoldNeeds g w v c x → HeldAt g (upd w (Hold c) x) (hold_view v c x) }
    ensures claim { (g : AGeometry) (w : ASpot → ℕ) (v : View) (c s : ℕ) → HeldAt g w v → ClaimNeeds g w v c s → HeldAt g (upd w (Segment s) (c + 1)) (claim_view v c s) }
    ensures give { (g : AGeometry) (w : ASpot → ℕ) (v : View) (c s : ℕ) → HeldAt g w v → SegmentBackNeeds g v c s → HeldAt g (upd w (Segment s) 0) (segment_back_view g v c s) }
    ensures hold_quiet { (g : AGeometry) (w : ASpot → ℕ) (v : View) (c x : ℕ) → HeldAt g w v → HoldNeeds g w v c x → Happens g w Nothing (graph_of g w v) (graph_of g (upd w (Hold c) x) (hold_view v c x)) }
    ensures claim_quiet { (g : AGeometry) (w : ASpot → ℕ) (v : View) (c s : ℕ) → HeldAt g w v → ClaimNeeds g w v c s → Happens g w Nothing (graph_of g w v) (graph_of g (upd w (Segment s) (c + 1)) (claim_view v c s)) }
    ensures give_quiet { (g : AGeometry) (w : ASpot → ℕ) (v : View) (c s : ℕ) → HeldAt g w v → SegmentBackNeeds g v c s → Happens g w Nothing (graph_of g w v) (graph_of g (upd w (Segment s) 0) (segment_back_view g v c s)) }
{}

/// The new value of a committed step is stored in the own home, or in a slot of a queue, for the first time or again.
pub fn slot_stores_kept()
    ensures home { (g : AGeometry) (w : ASpot → ℕ) (v : View) (c x : ℕ) (o : AnOp) → HeldAt g w v → HomeNeeds g w v c x o → HeldAt g (upd w (Home c) x) (home_view v c x o) }
    ensures queue { (g : AGeometry) (w : ASpot → ℕ) (v : View) (c s r k x : ℕ) (o : AnOp) → HeldAt g w v → QueueNeeds g w v c s r k x o → HeldAt g (upd w (Slot s r k) x) (queue_view v c o) }
    ensures home_quiet { (g : AGeometry) (w : ASpot → ℕ) (v : View) (c x : ℕ) (o : AnOp) → HeldAt g w v → HomeNeeds g w v c x o → Happens g w Nothing (graph_of g w v) (graph_of g (upd w (Home c) x) (home_view v c x o)) }
    ensures queue_quiet { (g : AGeometry) (w : ASpot → ℕ) (v : View) (c s r k x : ℕ) (o : AnOp) → HeldAt g w v → QueueNeeds g w v c s r k x o → Happens g w Nothing (graph_of g w v) (graph_of g (upd w (Slot s r k) x) (queue_view v c o)) }
{}

/// Stores of words that nothing counts: of a free block that is prepared, and of the link of a zero-count block.
pub fn block_stores_kept()
    ensures prepare { (g : AGeometry) (w : ASpot → ℕ) (v : View) (c b k : ℕ) (p : ASpot) (x : ℕ) → HeldAt g w v → PrepareNeeds g w v c b k p x → HeldAt g (upd w p x) (prepare_view v c b k p x) }
    ensures link { (g : AGeometry) (w : ASpot → ℕ) (v : View) (c b x : ℕ) → HeldAt g w v → LinkNeeds g w v c b x → HeldAt g (upd w (Tag b) x) (link_view v c b x) }
    ensures prepare_quiet { (g : AGeometry) (w : ASpot → ℕ) (v : View) (c b k : ℕ) (p : ASpot) (x : ℕ) → HeldAt g w v → PrepareNeeds g w v c b k p x → Happens g w Nothing (graph_of g w v) (graph_of g (upd w p x) (prepare_view v c b k p x)) }
    ensures link_quiet { (g : AGeometry) (w : ASpot → ℕ) (v : View) (c b x : ℕ) → HeldAt g w v → LinkNeeds g w v c b x → Happens g w Nothing (graph_of g w v) (graph_of g (upd w (Tag b) x) (link_view v c b x)) }
{}
