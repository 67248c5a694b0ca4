//! The laws of the stores into slots, as machines use them.

ghost use Rattle.std.specs.Prelude.{◌≡◌, ℕ, ◌^◌, ◌<◌, false};
ghost use Rattle.shm_graph.specs.declared.{ask.{Ask.TheVariants.Store, Me.Me as AMe}, memo.Memo.Memo as AMemo};
ghost use Rattle.shm_graph.specs.declared.spot.Spot.{Spot as ASpot, TheVariants.{Home, Root, Slot, Body}};
ghost use Rattle.shm_graph.specs.{Spots.spot_at, Ops.{On, cover_of}, Blocks.classes, Asks.Trail};
ghost use Rattle.shm_graph.specs.Laws.{Frame, Stands, KeptAt};
ghost use Rattle.kind_parts.specs.Conditions.{IsHere, MayWrite};

/// The new value of a committed step is stored into its slot; also again, where the slot was stored before and the own era wasn't.
pub fn slot_stores()
    ensures root { (me : AMe) (w : ASpot → ℕ) (r : ℕ → AMemo) (f : Frame) (tr : Trail) (at k x : ℕ) → Stands me w r f tr → f.fresh ≡ false → spot_at me.geometry (classes w) at ≡ Root me.who k → MayWrite (r me.who) (Root me.who k) x → KeptAt me w r (Store at x) f (λ n m. Unit {0}) (spot_at me.geometry (classes w) at) }
    ensures home { (me : AMe) (w : ASpot → ℕ) (r : ℕ → AMemo) (f : Frame) (tr : Trail) (at x : ℕ) → Stands me w r f tr → f.fresh ≡ false → spot_at me.geometry (classes w) at ≡ Home me.who → MayWrite (r me.who) (Home me.who) x → KeptAt me w r (Store at x) f (λ n m. Unit {0}) (spot_at me.geometry (classes w) at) }
    ensures queue { (me : AMe) (w : ASpot → ℕ) (r : ℕ → AMemo) (f : Frame) (tr : Trail) (at i j k x : ℕ) → Stands me w r f tr → f.fresh ≡ false → spot_at me.geometry (classes w) at ≡ Slot i j k → MayWrite (r me.who) (Slot i j k) x → KeptAt me w r (Store at x) f (λ n m. Unit {0}) (spot_at me.geometry (classes w) at) }
    ensures body { (me : AMe) (w : ASpot → ℕ) (r : ℕ → AMemo) (f : Frame) (tr : Trail) (at b i x : ℕ) → Stands me w r f tr → f.fresh ≡ false → spot_at me.geometry (classes w) at ≡ Body b i → MayWrite (r me.who) (Body b i) x → KeptAt me w r (Store at x) f (λ n m. Unit {0}) (spot_at me.geometry (classes w) at) }
    ensures committed { (m : AMemo) (p : ASpot) (x : ℕ) → IsHere m → cover_of m.op ≡ On p x → x < 2 ^ 64 → MayWrite m p x }
{}
