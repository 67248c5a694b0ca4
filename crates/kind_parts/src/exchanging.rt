//! The laws of the exchanges of headers that succeed, as machines use them.

ghost use Rattle.std.specs.Prelude.{◌≡◌, ℕ, false};
ghost use Rattle.shm_graph.specs.declared.{ask.{Ask.TheVariants.Exchange, Me.Me as AMe}, memo.Memo.Memo as AMemo};
ghost use Rattle.shm_graph.specs.{declared.spot.Spot.{Spot as ASpot, TheVariants.Head}, Spots.spot_at, Blocks.classes};
ghost use Rattle.shm_graph.specs.{Views.view, Asks.Trail, Laws.{Frame, Stands, KeptAt}};
ghost use Rattle.kind_parts.specs.{Raising.{MayRaise, IsReparted}, Lowering.{MayLower, MayLowerFormer, MayChange}};

/// The header of a block is exchanged: the step in progress raises the block, or takes a reference to it out of its slot; a change puts
/// a reference to it into its slot, or takes the one that it holds over.
pub fn header_exchanges()
    ensures up { (me : AMe) (w : ASpot → ℕ) (r : ℕ → AMemo) (f : Frame) (tr : Trail) (at b e from to : ℕ) (p : ASpot) → Stands me w r f tr → f.fresh ≡ false → spot_at me.geometry (classes w) at ≡ Head b → w (Head b) ≡ from → MayRaise me.who (r me.who) p b e from to → IsReparted me.geometry w (view r) me.who (r me.who) p b → KeptAt me w r (Exchange at from to) f (λ n m. Unit {0}) (spot_at me.geometry (classes w) at) }
    ensures down { (me : AMe) (w : ASpot → ℕ) (r : ℕ → AMemo) (f : Frame) (tr : Trail) (at b e n from to : ℕ) (p : ASpot) → Stands me w r f tr → f.fresh ≡ false → spot_at me.geometry (classes w) at ≡ Head b → w (Head b) ≡ from → MayLower me.who (r me.who) p b e n from to → IsReparted me.geometry w (view r) me.who (r me.who) p 0 → KeptAt me w r (Exchange at from to) f (λ n m. Unit {0}) (spot_at me.geometry (classes w) at) }
    ensures first { (me : AMe) (w : ASpot → ℕ) (r : ℕ → AMemo) (f : Frame) (tr : Trail) (at a b e from to : ℕ) (p : ASpot) → Stands me w r f tr → f.fresh ≡ false → spot_at me.geometry (classes w) at ≡ Head b → w (Head b) ≡ from → MayChange me.who (r me.who) p a b e from to → IsReparted me.geometry w (view r) me.who (r me.who) p b → KeptAt me w r (Exchange at from to) f (λ n m. Unit {0}) (spot_at me.geometry (classes w) at) }
    ensures second { (me : AMe) (w : ASpot → ℕ) (r : ℕ → AMemo) (f : Frame) (tr : Trail) (at a b e n from to : ℕ) (p : ASpot) → Stands me w r f tr → f.fresh ≡ false → spot_at me.geometry (classes w) at ≡ Head a → w (Head a) ≡ from → MayLowerFormer me.who (r me.who) p a b e n from to → KeptAt me w r (Exchange at from to) f (λ n m. Unit {0}) (spot_at me.geometry (classes w) at) }
{}
