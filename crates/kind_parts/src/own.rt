//! The laws of the stores of own words, as machines use them.

ghost use Rattle.std.specs.Prelude.{◌≡◌, ℕ, ◌+◌, ◌<◌, true, false};
ghost use Rattle.shm_words.specs.declared.{geometry.Geometry.Geometry as AGeometry, redo.Redo.Redo as ARedo};
ghost use Rattle.shm_words.specs.{declared.redo.Redo.TheVariants.{Up, Down}, Redos.redo_second};
ghost use Rattle.shm_graph.specs.declared.{ask.{Ask.TheVariants.Store, Me.Me as AMe}, memo.Memo.Memo as AMemo};
ghost use Rattle.shm_graph.specs.declared.spot.Spot.{Spot as ASpot};
ghost use Rattle.shm_graph.specs.declared.spot.Spot.TheVariants.{Redo, RedoMore, Hold, Era, Root, Tail, QueueHead};
ghost use Rattle.shm_graph.specs.{Spots.{spot_at, spot_address}, Blocks.classes, Views.{own_word, view}};
ghost use Rattle.shm_graph.specs.{Held.{HeldAt, Names}, Asks.Trail, Laws.{Frame, Stands, KeptAt}};
ghost use Rattle.kind_laws.specs.OwnWords.{BeginNeeds};
ghost use Rattle.kind_parts.specs.OwnWords.{MayShow, MayHold, MaySend, MayReceive, MayClose, MayAdd, MayRemove, op_begun, MayReady, RedoMayBegin};

/// Own words are stored: the row of another client, the own hold word, which may be a machine's first step, the tail of a queue to
/// another client and the head of one from another, the own era, which closes a step or half of a change, in format 2 the second word of a
/// redo record, while no step is in progress, and the redo word, which begins a step.
pub fn own_stores()
    ensures row { (me : AMe) (w : ASpot → ℕ) (r : ℕ → AMemo) (f : Frame) (tr : Trail) (at j x : ℕ) → Stands me w r f tr → f.fresh ≡ false → spot_at me.geometry (classes w) at ≡ Era me.who j → MayShow me.who (r me.who) j x → KeptAt me w r (Store at x) f (λ n m. Unit {0}) (spot_at me.geometry (classes w) at) }
    ensures hold { (me : AMe) (w : ASpot → ℕ) (r : ℕ → AMemo) (f : Frame) (tr : Trail) (at x : ℕ) → Stands me w r f tr → spot_at me.geometry (classes w) at ≡ Hold me.who → MayHold me.geometry.clients (r me.who) x → KeptAt me w r (Store at x) f (λ n m. Unit {0}) (spot_at me.geometry (classes w) at) }
    ensures tail { (me : AMe) (w : ASpot → ℕ) (r : ℕ → AMemo) (f : Frame) (tr : Trail) (at i : ℕ) → Stands me w r f tr → f.fresh ≡ false → spot_at me.geometry (classes w) at ≡ Tail me.who i → MaySend me.geometry.clients me.who (r me.who) i → KeptAt me w r (Store at (own_word (r me.who).own (Tail me.who i) + 1)) f (λ n m. Unit {0}) (spot_at me.geometry (classes w) at) }
    ensures head { (me : AMe) (w : ASpot → ℕ) (r : ℕ → AMemo) (f : Frame) (tr : Trail) (at i : ℕ) → Stands me w r f tr → f.fresh ≡ false → spot_at me.geometry (classes w) at ≡ QueueHead i me.who → MayReceive me.geometry.clients me.who (r me.who) i → KeptAt me w r (Store at (own_word (r me.who).own (QueueHead i me.who) + 1)) f (λ n m. Unit {0}) (spot_at me.geometry (classes w) at) }
    ensures era { (me : AMe) (w : ASpot → ℕ) (r : ℕ → AMemo) (f : Frame) (tr : Trail) (at : ℕ) → Stands me w r f tr → f.fresh ≡ false → spot_at me.geometry (classes w) at ≡ Era me.who me.who → MayClose (r me.who) (own_word (r me.who).own (Era me.who me.who) + 1) → KeptAt me w r (Store at (own_word (r me.who).own (Era me.who me.who) + 1)) f (λ n m. Unit {0}) (spot_at me.geometry (classes w) at) }
    ensures more { (me : AMe) (w : ASpot → ℕ) (r : ℕ → AMemo) (f : Frame) (tr : Trail) (at : ℕ) (red : ARedo) → Stands me w r f tr → f.fresh ≡ false → spot_at me.geometry (classes w) at ≡ RedoMore me.who → MayReady me.geometry (r me.who) → Names me.geometry (classes w) red → KeptAt me w r (Store at (redo_second true red)) f (λ n m. Unit {0}) (spot_at me.geometry (classes w) at) }
    ensures redo { (me : AMe) (w : ASpot → ℕ) (r : ℕ → AMemo) (f : Frame) (tr : Trail) (at x : ℕ) → Stands me w r f tr → f.fresh ≡ false → spot_at me.geometry (classes w) at ≡ Redo me.who → BeginNeeds me.geometry w (view r) me.who x (op_begun me.geometry me.who (r me.who) x) → KeptAt me w r (Store at x) f (λ n m. Unit {0}) (spot_at me.geometry (classes w) at) }
{}

/// What a memo shows of a step that a redo record begins at an own root: an empty root is to have a block, or a block is to leave its
/// root. In format 2 it shows that the second word of the record may be stored, and once it is, that the first one may.
pub fn root_begins()
    ensures up { (g : AGeometry) (w : ASpot → ℕ) (r : ℕ → AMemo) (c : ℕ) → HeldAt g w (view r) → c < g.clients → (k b : ℕ) → MayAdd c (r c) k b → RedoMayBegin g w r c (Up (spot_address g (Root c k)) b) }
    ensures down { (g : AGeometry) (w : ASpot → ℕ) (r : ℕ → AMemo) (c : ℕ) → HeldAt g w (view r) → c < g.clients → (k b : ℕ) → MayRemove c (r c) k b → RedoMayBegin g w r c (Down (spot_address g (Root c k)) b) }
{}
