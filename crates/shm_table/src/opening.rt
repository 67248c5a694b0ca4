//! What the opening of a table leaves.

ghost use Rattle.std.specs.Prelude.{◌≡◌, ◌≢◌, ℕ, Ok, Err, List};
ghost use Rattle.shm_graph.specs.declared.{ask.Me.Me as AMe, memo.Memo.Memo as AMemo, spot.Spot.TheVariants.Home};
ghost use Rattle.shm_graph.specs.{Asks.Trail, Views.own_word, Events.Event as AnEvent};
ghost use Rattle.shm_table.specs.declared.answer.PutFault.{PutFault as AFault, TheVariants.CountFull};
ghost use Rattle.shm_table.specs.{OpenTable.{Control.opening, OpenLeaves}, Staying.Cleared};

/// Once a table was opened the home names a directory, the one that it named if it named one, and each root and the zero-count blocks are as
/// they were. An opening is refused only where the home named none, and never since a count is full.
pub fn open_table_tells()
    ensures home { (me : AMe) (r0 r : AMemo) (tr : Trail) (es : List AnEvent) → OpenLeaves (opening me) r0 r tr es (Ok tt) → own_word r.own (Home me.who) ≢ 0 }
    ensures stays { (me : AMe) (r0 r : AMemo) (tr : Trail) (es : List AnEvent) → OpenLeaves (opening me) r0 r tr es (Ok tt) → own_word r0.own (Home me.who) ≢ 0 → own_word r.own (Home me.who) ≡ own_word r0.own (Home me.who) }
    ensures cleared { (me : AMe) (r0 r : AMemo) (tr : Trail) (es : List AnEvent) → OpenLeaves (opening me) r0 r tr es (Ok tt) → Cleared me.who r0 r }
    ensures empty { (me : AMe) (r0 r : AMemo) (tr : Trail) (es : List AnEvent) (f : AFault) → OpenLeaves (opening me) r0 r tr es (Err f) → own_word r0.own (Home me.who) ≡ 0 }
    ensures room { (me : AMe) (r0 r : AMemo) (tr : Trail) (es : List AnEvent) (b n : ℕ) → OpenLeaves (opening me) r0 r tr es (Err (CountFull b n)) → ⊥ }
{}
