//! The laws of loads of words of pages' bodies, and of exchanges of headers that fail, as machines use them.

ghost use Rattle.std.specs.Prelude.{◌≡◌, ◌≢◌, ℕ};
ghost use Rattle.shm_graph.specs.declared.ask.{Ask.TheVariants.{Load, Exchange}, Me.Me as AMe};
ghost use Rattle.shm_graph.specs.declared.{memo.Memo.Memo as AMemo, spot.Spot.Spot as ASpot};
ghost use Rattle.shm_graph.specs.{declared.spot.Spot.TheVariants.{Head, Tag, Body}, Spots.spot_at, Blocks.classes};
ghost use Rattle.shm_graph.specs.{Asks.Trail, Laws.{Frame, Stands, KeptAt}};
ghost use Rattle.kind_parts.specs.LoadNeeds.{IsTold, IsCovered, MayLook};

/// A header is loaded; the tag of a block of which the memo tells something, and a word of a block that it tells; an exchange of a
/// header finds another word than it names.
pub fn body_loads()
    ensures header { (me : AMe) (w : ASpot → ℕ) (r : ℕ → AMemo) (f : Frame) (tr : Trail) (at b : ℕ) → Stands me w r f tr → spot_at me.geometry (classes w) at ≡ Head b → KeptAt me w r (Load at) f (λ n m. Unit {0}) (spot_at me.geometry (classes w) at) }
    ensures tag { (me : AMe) (w : ASpot → ℕ) (r : ℕ → AMemo) (f : Frame) (tr : Trail) (at b : ℕ) → Stands me w r f tr → spot_at me.geometry (classes w) at ≡ Tag b → IsTold me.geometry.wide me.who (r me.who) b → KeptAt me w r (Load at) f (λ n m. Unit {0}) (spot_at me.geometry (classes w) at) }
    ensures word { (me : AMe) (w : ASpot → ℕ) (r : ℕ → AMemo) (f : Frame) (tr : Trail) (at b i : ℕ) → Stands me w r f tr → spot_at me.geometry (classes w) at ≡ Body b i → IsCovered me.geometry.wide me.who (r me.who) at → MayLook me.geometry.wide me.who (r me.who) b i → KeptAt me w r (Load at) f (λ n m. Unit {0}) (spot_at me.geometry (classes w) at) }
    ensures lost { (me : AMe) (w : ASpot → ℕ) (r : ℕ → AMemo) (f : Frame) (tr : Trail) (at from to b : ℕ) → Stands me w r f tr → spot_at me.geometry (classes w) at ≡ Head b → w (Head b) ≢ from → KeptAt me w r (Exchange at from to) f (λ n m. Unit {0}) (spot_at me.geometry (classes w) at) }
{}
