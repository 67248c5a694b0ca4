//! The laws of count steps at the words that the own partition of a table is read from, and of walks along its chains.

ghost use Rattle.std.specs.Prelude.{◌≡◌, ◌≢◌, ℕ, ◌<◌, ◌%◌, false, List, [], ◌∷◌, ◌++◌, None};
ghost use Rattle.shm_words.specs.declared.geometry.Geometry.{Geometry as AGeometry};
ghost use Rattle.shm_graph.specs.declared.{memo.Memo.Memo as AMemo, spot.Spot.Spot as ASpot};
ghost use Rattle.shm_graph.specs.declared.{spot.Spot.TheVariants.{Home, Body}, table.Entry.Entry as AnEntry};
ghost use Rattle.shm_graph.specs.{Chains.part_set, Held.{HeldAt, is_loose}, Ops.{Quiet, On, cover, cover_of}};
ghost use Rattle.shm_graph.specs.Views.{own_word, view};
ghost use Rattle.kind_parts.specs.Raising.{IsReparted};
ghost use Rattle.kind_parts.specs.Reparting.{sight, chain_in, map_in, TableStep, map_after, Begins, IsKnown};
ghost use Rattle.kind_parts.specs.Walking.{IsWalking};

/// A count step has begun at a word that the own partition is read from, and the memo shows that it is one that tables make. Then the
/// partition that the memo's change computes is the one that the words hold once the step is committed, and its map is what the step
/// makes of the map before.
pub fn table_steps()
    ensures part { (g : AGeometry) (w : ASpot → ℕ) (r : ℕ → AMemo) (c : ℕ) → HeldAt g w (view r) → c < g.clients → (p : ASpot) (old new : ℕ) → Begins (r c).op p old new → TableStep g.wide c (sight c (r c)) p old new → IsReparted g w (view r) c (r c) p new }
    ensures map { (g : AGeometry) (w : ASpot → ℕ) (r : ℕ → AMemo) (c : ℕ) → HeldAt g w (view r) → c < g.clients → (p : ASpot) (old new : ℕ) → Begins (r c).op p old new → (s : TableStep g.wide c (sight c (r c)) p old new) → is_loose (r c).part ≡ false → (k : ℕ) → map_in (part_set (r c).known c (cover (On p new) (Home c) (own_word (r c).own (Home c))) p new (r c).part) k ≡ map_after g.wide c (sight c (r c)) p old new s (map_in (r c).part) k }
{}

/// A walk along a chain of the own partition: it begins where the word of a bucket is known, a known key word is the key of the entry at
/// which it is, a known next word leads on from an entry of another key, and where it ends the partition doesn't have the key.
pub fn table_walks()
    ensures nowhere { (g : AGeometry) (w : ASpot → ℕ) (r : ℕ → AMemo) (c : ℕ) → HeldAt g w (view r) → c < g.clients → cover_of (r c).op ≡ Quiet → is_loose (r c).part ≡ false → (key : ℕ) → own_word (r c).own (Home c) ≡ 0 → map_in (r c).part key ≡ None }
    ensures first { (g : AGeometry) (w : ASpot → ℕ) (r : ℕ → AMemo) (c : ℕ) → HeldAt g w (view r) → c < g.clients → cover_of (r c).op ≡ Quiet → is_loose (r c).part ≡ false → (key at : ℕ) → own_word (r c).own (Home c) ≢ 0 → IsKnown (sight c (r c)) (Body (own_word (r c).own (Home c)) (key % 16)) at → IsWalking (sight c (r c)) key (Body (own_word (r c).own (Home c)) (key % 16)) at [] (chain_in (r c).part (key % 16)) }
    ensures key { (g : AGeometry) (w : ASpot → ℕ) (r : ℕ → AMemo) (c : ℕ) → HeldAt g w (view r) → c < g.clients → cover_of (r c).op ≡ Quiet → is_loose (r c).part ≡ false → (key : ℕ) (p : ASpot) (at x : ℕ) (xs : List AnEntry) (e : AnEntry) (ys : List AnEntry) → IsWalking (sight c (r c)) key p at xs (e ∷ ys) → IsKnown (sight c (r c)) (Body at 2) x → e.key ≡ x }
    ensures next { (g : AGeometry) (w : ASpot → ℕ) (r : ℕ → AMemo) (c : ℕ) → HeldAt g w (view r) → c < g.clients → cover_of (r c).op ≡ Quiet → is_loose (r c).part ≡ false → (key : ℕ) (p : ASpot) (at next : ℕ) (xs : List AnEntry) (e : AnEntry) (ys : List AnEntry) → IsWalking (sight c (r c)) key p at xs (e ∷ ys) → e.key ≢ key → IsKnown (sight c (r c)) (Body at 0) next → IsWalking (sight c (r c)) key (Body at 0) next (xs ++ e ∷ []) ys }
    ensures end { (g : AGeometry) (w : ASpot → ℕ) (r : ℕ → AMemo) (c : ℕ) → HeldAt g w (view r) → c < g.clients → cover_of (r c).op ≡ Quiet → is_loose (r c).part ≡ false → (key : ℕ) (p : ASpot) (xs left : List AnEntry) → IsWalking (sight c (r c)) key p 0 xs left → map_in (r c).part key ≡ None }
{}
