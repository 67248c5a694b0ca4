//! What a memo shows of a count step that a redo record begins, for changes and for the slots beside roots.

ghost use Rattle.std.specs.Prelude.{◌≡◌, ℕ, ◌<◌};
ghost use Rattle.shm_words.specs.declared.geometry.Geometry.{Geometry as AGeometry};
ghost use Rattle.shm_words.specs.{declared.redo.Redo.TheVariants.{Up, Down, Change}, Redos.redo_first};
ghost use Rattle.shm_graph.specs.declared.{memo.Memo.Memo as AMemo, spot.Spot.Spot as ASpot};
ghost use Rattle.shm_graph.specs.{declared.spot.Spot.TheVariants.{Era, Home, Root, Slot, Body}, Spots.spot_address};
ghost use Rattle.shm_graph.specs.{Views.{own_word, view}, Held.{HeldAt, odd}};
ghost use Rattle.kind_laws.specs.OwnWords.{BeginNeeds};
ghost use Rattle.kind_parts.specs.OwnWords.{RedoMayBegin};
ghost use Rattle.kind_parts.specs.Beginning.{MayReplaceRoot, MaySet, MayPut, MayTake, MayTakeBack, MayFill, MayClear, MayReplace};

/// A change begins at an own root, which is to have another block.
pub fn changes_begin()
    ensures root { (g : AGeometry) (w : ASpot → ℕ) (r : ℕ → AMemo) (c : ℕ) → HeldAt g w (view r) → c < g.clients → (k a b : ℕ) → MayReplaceRoot c (r c) k a b → RedoMayBegin g w r c (Change (odd (own_word (r c).own (Era c c))) (spot_address g (Root c k)) a b) }
{}

/// A step begins at the own home, which is to have a block, at the next slot of a queue to another client, which is to have a block or
/// lose the one that waits there for its tail, or at the head slot of a queue from another, whose block is to be taken.
pub fn slots_begin()
    ensures home { (g : AGeometry) (w : ASpot → ℕ) (r : ℕ → AMemo) (c : ℕ) → HeldAt g w (view r) → c < g.clients → (b : ℕ) → MaySet c (r c) b → RedoMayBegin g w r c (Up (spot_address g (Home c)) b) }
    ensures send { (g : AGeometry) (w : ASpot → ℕ) (r : ℕ → AMemo) (c : ℕ) → HeldAt g w (view r) → c < g.clients → (i k b : ℕ) → MayPut g.clients c (r c) i k b → RedoMayBegin g w r c (Up (spot_address g (Slot c i k)) b) }
    ensures take { (g : AGeometry) (w : ASpot → ℕ) (r : ℕ → AMemo) (c : ℕ) → HeldAt g w (view r) → c < g.clients → (s k b : ℕ) → MayTake c (r c) s k b → RedoMayBegin g w r c (Down (spot_address g (Slot s c k)) b) }
    ensures unsend { (g : AGeometry) (w : ASpot → ℕ) (r : ℕ → AMemo) (c : ℕ) → HeldAt g w (view r) → c < g.clients → (i k b : ℕ) → MayTakeBack g.clients c (r c) i k b → RedoMayBegin g w r c (Down (spot_address g (Slot c i k)) b) }
{}

/// A step begins at a reference word of a block that the client may store: its own block, which it has in reach under its own latch, or
/// one that it is taking apart. An empty word is to have a block, its block is to go, or it is to have another.
pub fn words_begin()
    ensures up { (g : AGeometry) (w : ASpot → ℕ) (r : ℕ → AMemo) (c : ℕ) → HeldAt g w (view r) → c < g.clients → (d i b : ℕ) → MayFill g.wide c (r c) d i b → RedoMayBegin g w r c (Up (spot_address g (Body d i)) b) }
    ensures down { (g : AGeometry) (w : ASpot → ℕ) (r : ℕ → AMemo) (c : ℕ) → HeldAt g w (view r) → c < g.clients → (d i b : ℕ) → MayClear g.wide c (r c) d i b → RedoMayBegin g w r c (Down (spot_address g (Body d i)) b) }
    ensures change { (g : AGeometry) (w : ASpot → ℕ) (r : ℕ → AMemo) (c : ℕ) → HeldAt g w (view r) → c < g.clients → (d i a b : ℕ) → MayReplace g.wide c (r c) d i a b → RedoMayBegin g w r c (Change (odd (own_word (r c).own (Era c c))) (spot_address g (Body d i)) a b) }
{}
