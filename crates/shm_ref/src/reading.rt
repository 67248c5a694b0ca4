//! What reading leaves, and why it may go on.

ghost use Rattle.std.specs.Prelude.{◌≡◌, ℕ, ◌+◌, ◌<◌, ◌≤◌, true, Result, List};
ghost use Rattle.shm_words.specs.Layout.{total_of};
ghost use Rattle.shm_graph.specs.{declared.{ask.Me.Me as AMe, memo.Memo.Memo as AMemo}, Reach.is_reached, Asks.Trail};
ghost use Rattle.shm_graph.specs.Events.{Event as AnEvent};
ghost use Rattle.plans.specs.Parts.{IsHeld};
ghost use Rattle.shm_ref.specs.declared.answer.LookFault.{LookFault as ALookFault};
ghost use Rattle.shm_ref.specs.declared.answer.{NoSuchWord.NoSuchWord as ANoSuchWord, NotHeld.NotHeld as ANotHeld};
ghost use Rattle.shm_ref.specs.{HomeOf.{finding, HomeOfLeaves}, Look.{LookLeaves, looking}, OnlyRead.OnlyRead};
ghost use Rattle.shm_ref.specs.{Read.{ReadLeaves, reading}, ReadParts.{MayAsk, MayRead}};

/// In a state that holds a block in reach lies in the pool, so that its words may be read.
pub fn reach_lies()
    ensures { (me : AMe) (b : ℕ) (r : AMemo) → me.who < me.geometry.clients → IsHeld me r → is_reached me.who r b ≡ true → b + 2 ≤ total_of me.geometry }
{}

/// Whatever a home, a reference word or a plain word that is asked for answers, nothing but words was read.
pub fn reads_only()
    ensures home { (me : AMe) (a : ℕ) (r0 r : AMemo) (tr : Trail) (es : List AnEvent) (b : Result ℕ ANotHeld) → HomeOfLeaves (finding me a) r0 r tr es b → OnlyRead r0 r }
    ensures look { (me : AMe) (b k : ℕ) (r0 r : AMemo) (tr : Trail) (es : List AnEvent) (a : Result ℕ ALookFault) → LookLeaves (looking me b k) r0 r tr es a → OnlyRead r0 r }
    ensures read { (me : AMe) (b k : ℕ) (r0 r : AMemo) (tr : Trail) (es : List AnEvent) (a : Result ℕ ANoSuchWord) → ReadLeaves (reading me b k) r0 r tr es a → OnlyRead r0 r }
{}

/// So reading may go on, and what was in reach is.
pub fn reading_goes_on()
    ensures asks { (me : AMe) (r0 r : AMemo) → OnlyRead r0 r → MayAsk me r0 → MayAsk me r }
    ensures reach { (me : AMe) (b : ℕ) (r0 r : AMemo) → OnlyRead r0 r → MayRead me b r0 → MayRead me b r }
{}
