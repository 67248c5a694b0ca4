//! Kinds of word step as parts of larger machines: what one needs of the memo, and what it leaves.

ghost use Rattle.std.specs.Prelude.{◌≡◌, ℕ, ◌+◌, ◌<◌, Bool, false, Some};
ghost use Rattle.shm_words.specs.declared.place.Place.TheVariants.{Latch, Root, Slot, Tail as TailPlace};
ghost use Rattle.shm_words.specs.Layout.{address, total_of};
ghost use Rattle.shm_graph.specs.declared.ask.{Ask.TheVariants.{Load, Store, Exchange}, Me.Me as AMe};
ghost use Rattle.shm_graph.specs.declared.memo.Memo.{Memo as AMemo};
ghost use Rattle.shm_graph.specs.{declared.spot.Spot.TheVariants.{Root as RootSpot, Tail, Body}, Views.own_word};
ghost use Rattle.plans.specs.Words.{IsWord};
ghost use Rattle.kind_parts.specs.{OwnWords.MaySend, Preparing.MayLatch, LoadNeeds.IsSettled, Unlatching.MayUnlatch};
ghost use Rattle.kind_parts.specs.WordParts.{OwnLoaded, LatchTaken, LatchGiven, IsHeadSlot, HeadSlotLoaded, TailStored, IsLatchedWord, ReferenceLoaded};

/// An own root is loaded; a latch is exchanged, and given back; the head slot of a queue is loaded, and the tail of one is stored; a
/// reference word is loaded under its author's latch. The other kinds stand in proofs/.
pub fn word_parts()
    ensures root { (first : Bool) (me : AMe) (m : AMemo) (k : ℕ) → me.who < me.geometry.clients → k < 16 → IsWord first me (Load (address me.geometry (Root me.who k))) (OwnLoaded (RootSpot me.who k)) (record { me = me; ask = Load (address me.geometry (Root me.who k)); over = false }) m }
    ensures take { (me : AMe) (m : AMemo) (a : ℕ) → me.who < me.geometry.clients → a < me.geometry.clients → MayLatch me.who m a → IsWord false me (Exchange (address me.geometry (Latch a)) 0 (me.who + 1)) (LatchTaken a) (record { me = me; ask = Exchange (address me.geometry (Latch a)) 0 (me.who + 1); over = false }) m }
    ensures give { (me : AMe) (m : AMemo) (a : ℕ) → me.who < me.geometry.clients → a < me.geometry.clients → MayUnlatch m a → IsWord false me (Store (address me.geometry (Latch a)) 0) (LatchGiven me.geometry.wide me.who) (record { me = me; ask = Store (address me.geometry (Latch a)) 0; over = false }) m }
    ensures head { (first : Bool) (me : AMe) (m : AMemo) (s k : ℕ) → me.who < me.geometry.clients → IsHeadSlot me.geometry.clients me.who m s k → IsWord first me (Load (address me.geometry (Slot s me.who k))) (HeadSlotLoaded me.who s k) (record { me = me; ask = Load (address me.geometry (Slot s me.who k)); over = false }) m }
    ensures send { (me : AMe) (m : AMemo) (i : ℕ) → me.who < me.geometry.clients → MaySend me.geometry.clients me.who m i → IsWord false me (Store (address me.geometry (TailPlace me.who i)) (own_word m.own (Tail me.who i) + 1)) (TailStored me.who i) (record { me = me; ask = Store (address me.geometry (TailPlace me.who i)) (own_word m.own (Tail me.who i) + 1); over = false }) m }
    ensures reference { (first : Bool) (me : AMe) (m : AMemo) (b i : ℕ) → me.who < me.geometry.clients → (0 < b + 2 + i) × (b + 2 + i < total_of me.geometry) → IsLatchedWord me.geometry.wide me.who m b i → IsSettled m (Body b i) → IsWord first me (Load (b + 2 + i)) (ReferenceLoaded b i) (record { me = me; ask = Load (b + 2 + i); over = false }) m }
{}
