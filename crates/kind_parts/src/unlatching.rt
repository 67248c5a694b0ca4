//! The law of the store that gives a latch back, as machines use it.

ghost use Rattle.std.specs.Prelude.{◌≡◌, ℕ, false};
ghost use Rattle.shm_graph.specs.declared.{ask.{Ask.TheVariants.Store, Me.Me as AMe}, memo.Memo.Memo as AMemo};
ghost use Rattle.shm_graph.specs.{declared.spot.Spot.{Spot as ASpot, TheVariants.Latch}, Spots.spot_at, Blocks.classes};
ghost use Rattle.shm_graph.specs.{Asks.Trail, Laws.{Frame, Stands, KeptAt}};
ghost use Rattle.kind_parts.specs.Unlatching.{MayUnlatch};

/// A latch that is held is given back while no step is in progress.
pub fn latch_given_back()
    ensures back { (me : AMe) (w : ASpot → ℕ) (r : ℕ → AMemo) (f : Frame) (tr : Trail) (at a : ℕ) → Stands me w r f tr → f.fresh ≡ false → spot_at me.geometry (classes w) at ≡ Latch a → MayUnlatch (r me.who) a → KeptAt me w r (Store at 0) f (λ n m. Unit {0}) (spot_at me.geometry (classes w) at) }
{}
