//! What a user of a pool may conclude from its states: of any sound state, and of a clean pool.

ghost use Rattle.std.specs.Prelude.{◌≡◌, ◌≢◌, ℕ, ◌+◌, ◌<◌, ◌≤◌, ◌%◌, if◌then◌else◌, List, Some, slice_index, take};
ghost use Rattle.shm_words.specs.{declared.geometry.Geometry.Geometry as AGeometry, Layout.{GeometryFits, total_of}};
ghost use Rattle.shm_words.specs.Redos.{redo_of};
ghost use Rattle.shm_words.specs.declared.redo.Redo.TheVariants as redos;
ghost use Rattle.shm_graph.specs.declared.memo.{First.First as AFirst, ChangeStage.TheVariants.Raising};
ghost use Rattle.shm_graph.specs.declared.{memo.Op.TheVariants.{Nothing, Up, Down, Change}, spot.Spot.Spot as ASpot};
ghost use Rattle.shm_graph.specs.{Spots.{see, spot_at, spot_address}, Blocks.{IsLive, classes, headers}};
ghost use Rattle.shm_graph.specs.References.{references_in_all, references, references_to, sum_below};
ghost use Rattle.shm_graph.specs.{Views.{View, targets, held_overs, ons}, Held.{Shown, odd}, Sound.IsSound};
ghost use Rattle.shm_graph.specs.Clean.{IsClean};
ghost use Rattle.shm_graph.specs.declared.spot.Spot.TheVariants as spot;

/// In a sound state each block that a word names is live, with a count above 0; a free block is named by no word, so that none is
/// handed out while a reference reaches it; and where no change is between its halves the count of a live block is the number of
/// words that name it.
pub fn references_are_counted()
    ensures named { (g : AGeometry) (ws : List ℕ) (v : View) → GeometryFits g → IsSound g (see g ws) v → (p : ASpot) → targets g (see g ws) v p ≢ 0 → IsLive (headers (see g ws)) (targets g (see g ws) v p) × (0 < (headers (see g ws) (targets g (see g ws) v p)).count) }
    ensures free { (g : AGeometry) (w : ASpot → ℕ) (v : View) → IsSound g w v → (b : ℕ) → w (spot.Head b) ≡ 0 → (p : ASpot) → targets g w v p ≡ b → b ≡ 0 }
    ensures counted { (g : AGeometry) (w : ASpot → ℕ) (v : View) → IsSound g w v → ((c : ℕ) → c < g.clients → held_overs v c ≡ 0) → (b : ℕ) → b ≢ 0 → IsLive (headers w) b → (headers w b).count ≡ references_to g (classes w) (targets g w v) b }
{}

/// In a sound state the words tell whether an identity's step is committed and not yet closed: where it is, its block's header or a
/// row of another identity shows the own era; where one of these shows it, it is. No header shows an era that is still to come.
pub fn commitment_is_shown()
    ensures shown { (g : AGeometry) (w : ASpot → ℕ) (v : View) → IsSound g w v → (c b : ℕ) → c < g.clients → ons v c ≡ Some b → Shown g.clients (λ i j. w (spot.Era i j)) (headers w b) c }
    ensures by_header { (g : AGeometry) (w : ASpot → ℕ) (v : View) → IsSound g w v → (b : ℕ) → IsLive (headers w) b → w (spot.Era (headers w b).client (headers w b).client) ≤ (headers w b).era → ons v (headers w b).client ≡ Some b }
    ensures by_row { (g : AGeometry) (w : ASpot → ℕ) (v : View) → IsSound g w v → (k c : ℕ) → k < g.clients → c < g.clients → k ≢ c → w (spot.Era c c) ≤ w (spot.Era k c) → (b : ℕ) × (ons v c ≡ Some b) }
    ensures past { (g : AGeometry) (w : ASpot → ℕ) (v : View) → IsSound g w v → (b : ℕ) → IsLive (headers w) b → ((headers w b).client < g.clients) × (1 ≤ (headers w b).era) × ((headers w b).era ≤ w (spot.Era (headers w b).client (headers w b).client)) }
{}

/// In a sound state the redo record, in format 2 by both its words, names the slot and the blocks of the step in progress.
pub fn redo_tells_the_step()
    ensures up { (g : AGeometry) (w : ASpot → ℕ) (v : View) → IsSound g w v → (c : ℕ) (s : AFirst) (p : ASpot) (b e : ℕ) → c < g.clients → v.op c ≡ Up s p b e → redo_of g.wide (w (spot.Redo c)) (w (spot.RedoMore c)) ≡ Some (redos.Up (spot_address g p) b) }
    ensures down { (g : AGeometry) (w : ASpot → ℕ) (v : View) → IsSound g w v → (c : ℕ) (s : AFirst) (p : ASpot) (b e : ℕ) → c < g.clients → v.op c ≡ Down s p b e → redo_of g.wide (w (spot.Redo c)) (w (spot.RedoMore c)) ≡ Some (redos.Down (spot_address g p) b) }
    ensures change { (g : AGeometry) (w : ASpot → ℕ) (v : View) → IsSound g w v → (c : ℕ) (s : AFirst) (p : ASpot) (a b e : ℕ) → c < g.clients → v.op c ≡ Change (Raising s) p a b e → redo_of g.wide (w (spot.Redo c)) (w (spot.RedoMore c)) ≡ Some (redos.Change (odd (w (spot.Era c c))) (spot_address g p) a b) }
{}

/// In a sound state what was received is a front of what was sent, the items that wait are live blocks, at most 8 wait, and nothing
/// waits in a queue from an identity to itself.
pub fn queues_keep_their_items()
    ensures queue_head { (g : AGeometry) (w : ASpot → ℕ) (v : View) → IsSound g w v → (s r : ℕ) → s < g.clients → r < g.clients → s ≢ r → v.received r s ≡ take (w (spot.QueueHead s r)) (v.sent s r) }
    ensures waiting { (g : AGeometry) (w : ASpot → ℕ) (v : View) → IsSound g w v → (s r n : ℕ) → s < g.clients → r < g.clients → s ≢ r → w (spot.QueueHead s r) < n → n < w (spot.Tail s r) → IsLive (headers w) (slice_index (v.sent s r) n) }
    ensures room { (g : AGeometry) (w : ASpot → ℕ) (v : View) → IsSound g w v → (s r : ℕ) → s < g.clients → r < g.clients → s ≢ r → (w (spot.QueueHead s r) ≤ w (spot.Tail s r)) × (w (spot.Tail s r) ≤ w (spot.QueueHead s r) + 8) }
    ensures apart { (g : AGeometry) (w : ASpot → ℕ) (v : View) → IsSound g w v → (s r k : ℕ) → s < g.clients → targets g w v (spot.Slot s r k) ≢ 0 → s ≢ r }
{}

/// In a sound state nothing is left of an identity whose status word is 3. No step of it is in progress, so that no header and no row
/// of another identity shows its own era; no root of it names a block; its hold word is 0, and no latch word and no segment word is its
/// number and one; and each zero-count block is another identity's. Of each queue from it that isn't full the slot at the tail is
/// empty, and of each queue to it that isn't empty the slot at the head names the item that comes next, a live block. Its home and its
/// tables stay.
pub fn gone_leaves_nothing()
    ensures idle { (g : AGeometry) (w : ASpot → ℕ) (v : View) → IsSound g w v → (c : ℕ) → c < g.clients → w (spot.Status c) ≡ 3 → v.op c ≡ Nothing }
    ensures closed { (g : AGeometry) (w : ASpot → ℕ) (v : View) → IsSound g w v → (c : ℕ) → c < g.clients → w (spot.Status c) ≡ 3 → ((b : ℕ) → IsLive (headers w) b → (headers w b).client ≡ c → (headers w b).era < w (spot.Era c c)) × ((k : ℕ) → k < g.clients → k ≢ c → w (spot.Era k c) < w (spot.Era c c)) }
    ensures roots { (g : AGeometry) (w : ASpot → ℕ) (v : View) → IsSound g w v → (c : ℕ) → c < g.clients → w (spot.Status c) ≡ 3 → (k : ℕ) → w (spot.Root c k) ≡ 0 }
    ensures hold { (g : AGeometry) (w : ASpot → ℕ) (v : View) → IsSound g w v → (c : ℕ) → c < g.clients → w (spot.Status c) ≡ 3 → w (spot.Hold c) ≡ 0 }
    ensures latches { (g : AGeometry) (w : ASpot → ℕ) (v : View) → IsSound g w v → (c : ℕ) → c < g.clients → w (spot.Status c) ≡ 3 → (a : ℕ) → w (spot.Latch a) ≢ c + 1 }
    ensures segments { (g : AGeometry) (w : ASpot → ℕ) (v : View) → IsSound g w v → (c : ℕ) → c < g.clients → w (spot.Status c) ≡ 3 → (s : ℕ) → w (spot.Segment s) ≢ c + 1 }
    ensures zero_counts { (g : AGeometry) (w : ASpot → ℕ) (v : View) → IsSound g w v → (c : ℕ) → c < g.clients → w (spot.Status c) ≡ 3 → (b : ℕ) → IsLive (headers w) b → (headers w b).count ≡ 0 → ((headers w b).client ≢ c) × ((headers w b).client < g.clients) }
    ensures sends { (g : AGeometry) (w : ASpot → ℕ) (v : View) → IsSound g w v → (c : ℕ) → c < g.clients → w (spot.Status c) ≡ 3 → (r : ℕ) → r < g.clients → r ≢ c → w (spot.Tail c r) < w (spot.QueueHead c r) + 8 → w (spot.Slot c r (w (spot.Tail c r) % 8)) ≡ 0 }
    ensures takes { (g : AGeometry) (w : ASpot → ℕ) (v : View) → IsSound g w v → (c : ℕ) → c < g.clients → w (spot.Status c) ≡ 3 → (s : ℕ) → s < g.clients → s ≢ c → w (spot.QueueHead s c) < w (spot.Tail s c) → let b = w (spot.Slot s c (w (spot.QueueHead s c) % 8)) in (b ≢ 0) × IsLive (headers w) b × (b ≡ slice_index (v.sent s c) (w (spot.QueueHead s c))) }
{}

/// In a sound state each word of a page without a class is 0: the blocks of a page that is given a class are free.
pub fn unused_pages_are_empty()
    ensures { (g : AGeometry) (ws : List ℕ) (v : View) → GeometryFits g → IsSound g (see g ws) v → (a : ℕ) → a < total_of g → spot_at g (classes (see g ws)) a ≡ spot.Unused a → slice_index ws a ≡ 0 }
{}

/// In a clean pool each live block is named by a word, each word that names anything names a live block, each other block has the
/// header 0, headers name identities of the pool, no identity is at work, and the counts of all live blocks add up to the number of
/// words that name any.
pub fn clean_pools()
    ensures named { (g : AGeometry) (w : ASpot → ℕ) → IsClean g w → (b : ℕ) → IsLive (headers w) b → (a : ℕ) × (a < total_of g) × (references g.wide w (spot_at g (classes w) a) ≡ b) }
    ensures empty { (g : AGeometry) (w : ASpot → ℕ) → IsClean g w → ((b : ℕ) → w (spot.Head b) ≡ 0) → (p : ASpot) → references g.wide w p ≡ 0 }
    ensures headers { (g : AGeometry) (w : ASpot → ℕ) → IsClean g w → (b : ℕ) → w (spot.Head b) ≢ 0 → IsLive (headers w) b × ((headers w b).client < g.clients) }
    ensures joinable { (g : AGeometry) (w : ASpot → ℕ) → IsClean g w → (c : ℕ) → c < g.clients → (w (spot.Status c) ≢ 1) × (w (spot.Status c) ≢ 2) }
    ensures sum { (g : AGeometry) (ws : List ℕ) → GeometryFits g → IsClean g (see g ws) → references_in_all g (classes (see g ws)) (references g.wide (see g ws)) ≡ sum_below (total_of g) (λ b. if (headers (see g ws) b).live then (headers (see g ws) b).count else 0) }
{}
