//! The laws of the kinds of word step that prepare segments, pages and blocks, as machines use them.

ghost use Rattle.std.specs.Prelude.{◌≡◌, ℕ, ◌+◌, false};
ghost use Rattle.shm_graph.specs.declared.ask.{Ask.TheVariants.{Store, Exchange}, Me.Me as AMe};
ghost use Rattle.shm_graph.specs.declared.memo.{Making.Making as AMaking, Memo.Memo as AMemo};
ghost use Rattle.shm_graph.specs.declared.spot.Spot.{Spot as ASpot};
ghost use Rattle.shm_graph.specs.declared.spot.Spot.TheVariants.{Latch, Segment, Page, Head, Tag, Body};
ghost use Rattle.shm_graph.specs.{Spots.spot_at, Blocks.classes, Asks.Trail, Laws.{Frame, Stands, KeptAt}};
ghost use Rattle.kind_parts.specs.Conditions.{IsHere};
ghost use Rattle.kind_parts.specs.Preparing.{MayGive, MayClass, MayLatch, MayTag, MayBody, MayAlloc, MayFree, MayLink};

/// A segment that nobody owns becomes the identity's, and an own one is given up; a page gets its class; a latch that nobody holds is
/// taken; words of a free block of an own segment are stored, and it becomes live in a root; a zero-count block is freed, and its
/// link is stored.
pub fn preparing_steps()
    ensures claim { (me : AMe) (w : ASpot → ℕ) (r : ℕ → AMemo) (f : Frame) (tr : Trail) (at s : ℕ) → Stands me w r f tr → f.fresh ≡ false → spot_at me.geometry (classes w) at ≡ Segment s → w (Segment s) ≡ 0 → IsHere (r me.who) → KeptAt me w r (Exchange at 0 (me.who + 1)) f (λ n m. Unit {0}) (spot_at me.geometry (classes w) at) }
    ensures give { (me : AMe) (w : ASpot → ℕ) (r : ℕ → AMemo) (f : Frame) (tr : Trail) (at s : ℕ) → Stands me w r f tr → f.fresh ≡ false → spot_at me.geometry (classes w) at ≡ Segment s → MayGive (r me.who) s → KeptAt me w r (Store at 0) f (λ n m. Unit {0}) (spot_at me.geometry (classes w) at) }
    ensures class { (me : AMe) (w : ASpot → ℕ) (r : ℕ → AMemo) (f : Frame) (tr : Trail) (at s q k : ℕ) → Stands me w r f tr → f.fresh ≡ false → spot_at me.geometry (classes w) at ≡ Page s q → MayClass (r me.who) s q k → KeptAt me w r (Store at k) f (λ n m. Unit {0}) (spot_at me.geometry (classes w) at) }
    ensures latch { (me : AMe) (w : ASpot → ℕ) (r : ℕ → AMemo) (f : Frame) (tr : Trail) (at a : ℕ) → Stands me w r f tr → f.fresh ≡ false → spot_at me.geometry (classes w) at ≡ Latch a → w (Latch a) ≡ 0 → MayLatch me.who (r me.who) a → KeptAt me w r (Exchange at 0 (me.who + 1)) f (λ n m. Unit {0}) (spot_at me.geometry (classes w) at) }
    ensures tag { (me : AMe) (w : ASpot → ℕ) (r : ℕ → AMemo) (f : Frame) (tr : Trail) (at b x : ℕ) → Stands me w r f tr → f.fresh ≡ false → spot_at me.geometry (classes w) at ≡ Tag b → MayTag me.geometry (r me.who) b x → KeptAt me w r (Store at x) f (λ n m. Unit {0}) (spot_at me.geometry (classes w) at) }
    ensures body { (me : AMe) (w : ASpot → ℕ) (r : ℕ → AMemo) (f : Frame) (tr : Trail) (at b i x : ℕ) → Stands me w r f tr → f.fresh ≡ false → spot_at me.geometry (classes w) at ≡ Body b i → MayBody (r me.who) b i x → KeptAt me w r (Store at x) f (λ n m. Unit {0}) (spot_at me.geometry (classes w) at) }
    ensures alloc { (me : AMe) (w : ASpot → ℕ) (r : ℕ → AMemo) (f : Frame) (tr : Trail) (at i b e to tag : ℕ) (k : AMaking) → Stands me w r f tr → f.fresh ≡ false → spot_at me.geometry (classes w) at ≡ Head b → MayAlloc me.geometry.wide me.who (r me.who) i b e to tag k → KeptAt me w r (Exchange at 0 to) f (λ n m. Unit {0}) (spot_at me.geometry (classes w) at) }
    ensures free { (me : AMe) (w : ASpot → ℕ) (r : ℕ → AMemo) (f : Frame) (tr : Trail) (at b tag : ℕ) → Stands me w r f tr → f.fresh ≡ false → spot_at me.geometry (classes w) at ≡ Head b → MayFree me.geometry.wide (r me.who) b tag → KeptAt me w r (Store at 0) f (λ n m. Unit {0}) (spot_at me.geometry (classes w) at) }
    ensures link { (me : AMe) (w : ASpot → ℕ) (r : ℕ → AMemo) (f : Frame) (tr : Trail) (at b tag x : ℕ) → Stands me w r f tr → f.fresh ≡ false → spot_at me.geometry (classes w) at ≡ Tag b → MayLink me.geometry.wide (r me.who) b tag x → KeptAt me w r (Store at x) f (λ n m. Unit {0}) (spot_at me.geometry (classes w) at) }
{}
