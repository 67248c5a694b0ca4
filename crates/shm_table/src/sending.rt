//! What the send of what a key has leaves of the queue.

ghost use Rattle.std.specs.Prelude.{◌≡◌, ℕ, ◌+◌, Some, List};
ghost use Rattle.shm_graph.specs.declared.{ask.Me.Me as AMe, memo.Memo.Memo as AMemo, spot.Spot.TheVariants.Tail};
ghost use Rattle.shm_graph.specs.{Asks.Trail, MemoAfterStore.lane_with, Views.own_word, Events.Event as AnEvent};
ghost use Rattle.kind_parts.specs.Reparting.{map_in};
ghost use Rattle.shm_script.specs.declared.log.Answer.TheVariants as answer;
ghost use Rattle.shm_table.specs.SendKey.{Control.sending_key, SendKeyLeaves};

/// Once what a key has was sent, it is the block that the map had at the key: it joined what was sent, at its end, and the tail is one more.
pub fn send_key_sends()
    ensures { (me : AMe) (i key : ℕ) (r0 r : AMemo) (tr : Trail) (es : List AnEvent) → SendKeyLeaves (sending_key me i key) r0 r tr es answer.Ok → (n : ℕ) × (b : ℕ) × (map_in r0.part key ≡ Some (n, b)) × (r.sent ≡ lane_with r0.sent i b) × (own_word r.own (Tail me.who i) ≡ own_word r0.own (Tail me.who i) + 1) }
{}
