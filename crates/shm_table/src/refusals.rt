//! What commands on a table that are refused leave as it was, and where each refusal comes.

ghost use Rattle.std.specs.Prelude.{◌≡◌, ◌≢◌, ◌⊎◌, ◌+◌, ◌-◌, ◌^◌, ◌<◌, ◌≤◌, ◌++◌, ℕ, true, false, List, None, Some, Err, []};
ghost use Rattle.std.specs.List.{Contains};
ghost use Rattle.shm_words.specs.Layout.{address};
ghost use Rattle.shm_words.specs.declared.place.Place.TheVariants as place;
ghost use Rattle.shm_graph.specs.declared.{ask.{Ask.TheVariants.Load, Me.Me as AMe}, memo.Fact.TheVariants.Counter};
ghost use Rattle.shm_graph.specs.{declared.{memo.Memo.Memo as AMemo, spot.Spot.Spot as ASpot}, Asks.{Trail, pair}};
ghost use Rattle.shm_graph.specs.{Events.Event, Views.own_word};
ghost use Rattle.shm_graph.specs.declared.spot.Spot.TheVariants as spots;
ghost use Rattle.shm_graph.specs.Events as event;
ghost use Rattle.kind_parts.specs.Reparting.{map_in};
ghost use Rattle.plans.specs.Plans.{plan_trail};
ghost use Rattle.shm_count.specs.{Refusing.ReadsCount, Roots.root_word, Lasting.is_lasting};
ghost use Rattle.shm_alloc.specs.{declared.request.Request.Request as ARequest, Alloc.Asks.alloc_trail};
ghost use Rattle.shm_alloc.specs.Alloc.Counts.{taken_in, used_in};
ghost use Rattle.shm_alloc.specs.declared.alloc.AllocFault.TheVariants as alloc_fault;
ghost use Rattle.shm_script.specs.declared.{line.Line.Line as ALine, log.Answer.Answer as AnAnswer};
ghost use Rattle.shm_script.specs.declared.log.Answer.TheVariants as answer;
ghost use Rattle.shm_table.specs.declared.{answer.PutFault.PutFault as AFault, copy.CopyState.CopyState as ACopy};
ghost use Rattle.shm_table.specs.declared.{del.DelState.DelState as ADel, get.GetState.GetState as AGet};
ghost use Rattle.shm_table.specs.declared.{put.PutState.PutState as APut, recv.RecvState.RecvState as AReceive};
ghost use Rattle.shm_table.specs.{declared.send_key.SendKeyState.SendKeyState as ASend, Answers.fault_answer};
ghost use Rattle.shm_table.specs.{Commands.CommandCause, Causes.Shows, CopyKey.Control.copying};
ghost use Rattle.shm_table.specs.{CopyKey.{CopyLeaves, copy_plan}, Del.{Control.deleting, DelLeaves, del_plan}};
ghost use Rattle.shm_table.specs.{Find.EndsNowhere, Get.GetLeaves, Put.{Control.putting, PutLeaves, put_plan}};
ghost use Rattle.shm_table.specs.RecvKey.{Control.receiving_key, RecvLeaves, recv_plan};
ghost use Rattle.shm_table.specs.Refusals.{CommandLeaves, is_apart, is_refusal, is_spent, named_after, taken_by};
ghost use Rattle.shm_table.specs.{SendKey.{Control.sending_key, SendKeyLeaves, send_key_plan}, Staying.is_set};
ghost use Rattle.shm_table.specs.Undoing.{IsTakenBack};
ghost use Rattle.shm_table.specs.declared.answer.PutFault.TheVariants as fault;

/// Whatever command is refused, the own map, the queues and the latches are as before, and so are own words but for roots, the home, the hold
/// word, the redo record and the row; a root that named a block names it still, and a zero-count block is still one. The home is as before, or
/// it named none and names a directory that was made. Unless the own era was spent, all roots and all zero-count blocks are as before, and
/// nothing was done to the graph but that: a block that the command brought into a root lost it again, and so did one that was to be an entry.
pub fn command_refusals()
    ensures map { (me : AMe) (l : ALine) (r0 r : AMemo) (tr : Trail) (es : List Event) (a : AnAnswer) → is_refusal a ≡ true → CommandLeaves me l r0 r tr es a → (k : ℕ) → map_in r.part k ≡ map_in r0.part k }
    ensures latch { (me : AMe) (l : ALine) (r0 r : AMemo) (tr : Trail) (es : List Event) (a : AnAnswer) → is_refusal a ≡ true → CommandLeaves me l r0 r tr es a → r0.latch ≡ None → r.latch ≡ None }
    ensures queues { (me : AMe) (l : ALine) (r0 r : AMemo) (tr : Trail) (es : List Event) (a : AnAnswer) → is_refusal a ≡ true → CommandLeaves me l r0 r tr es a → (r.sent ≡ r0.sent) × (r.received ≡ r0.received) × (r.unsent ≡ r0.unsent) × (r.untaken ≡ r0.untaken) }
    ensures words { (me : AMe) (l : ALine) (r0 r : AMemo) (tr : Trail) (es : List Event) (a : AnAnswer) → is_refusal a ≡ true → CommandLeaves me l r0 r tr es a → (p : ASpot) → is_lasting me.who p ≡ true → is_set p ≡ false → own_word r.own p ≡ own_word r0.own p }
    ensures roots { (me : AMe) (l : ALine) (r0 r : AMemo) (tr : Trail) (es : List Event) (a : AnAnswer) → is_refusal a ≡ true → CommandLeaves me l r0 r tr es a → (j : ℕ) → root_word me.who r0 j ≢ 0 → root_word me.who r j ≡ root_word me.who r0 j }
    ensures cleared { (me : AMe) (l : ALine) (r0 r : AMemo) (tr : Trail) (es : List Event) (a : AnAnswer) → is_refusal a ≡ true → CommandLeaves me l r0 r tr es a → is_spent a ≡ false → ((j : ℕ) → root_word me.who r j ≡ root_word me.who r0 j) × (r.dying ≡ r0.dying) }
    ensures dying { (me : AMe) (l : ALine) (r0 r : AMemo) (tr : Trail) (es : List Event) (a : AnAnswer) → is_refusal a ≡ true → CommandLeaves me l r0 r tr es a → (b : ℕ) → Contains r0.dying b → Contains r.dying b }
    ensures home { (me : AMe) (l : ALine) (r0 r : AMemo) (tr : Trail) (es : List Event) (a : AnAnswer) → is_refusal a ≡ true → CommandLeaves me l r0 r tr es a → (own_word r.own (spots.Home me.who) ≡ own_word r0.own (spots.Home me.who)) ⊎ ((own_word r0.own (spots.Home me.who) ≡ 0) × (own_word r.own (spots.Home me.who) ≢ 0) × ((k : ℕ) × Contains es (event.Alloc me.who k (own_word r.own (spots.Home me.who)))) × Contains es (event.Up me.who (spots.Home me.who) (own_word r.own (spots.Home me.who)))) }
    ensures events { (me : AMe) (l : ALine) (r0 r : AMemo) (tr : Trail) (es : List Event) (a : AnAnswer) → is_refusal a ≡ true → CommandLeaves me l r0 r tr es a → is_spent a ≡ false → IsTakenBack me.who (taken_by me.who l) (own_word r0.own (spots.Home me.who)) (own_word r.own (spots.Home me.who)) es }
{}

/// Why a put, a copy or a receive was refused. `EraSpent`: the era that is answered leaves no room for a count step, and the own era is at least
/// that afterwards. `RootsFull`: but for at most one all 16 own roots named blocks. `Full`: some own root was empty. `CountFull`: the count that is
/// answered is 1,023.
pub fn command_causes()
    ensures spent { (me : AMe) (r0 r : AMemo) (e : ℕ) → CommandCause me r0 r (fault.EraSpent e) → (2 ^ 47 - 4 < e) × (e ≤ own_word r.own (spots.Era me.who me.who)) }
    ensures roots { (me : AMe) (r0 r : AMemo) → CommandCause me r0 r fault.RootsFull → (k : ℕ) × ((j : ℕ) → j < 16 → k ≢ j → root_word me.who r0 j ≢ 0) }
    ensures full { (me : AMe) (r0 r : AMemo) (s b : ℕ) → CommandCause me r0 r (fault.Full s b) → (k : ℕ) × (k < 16) × (root_word me.who r0 k ≡ 0) }
    ensures count { (me : AMe) (r0 r : AMemo) (b n : ℕ) → CommandCause me r0 r (fault.CountFull b n) → n ≡ 1023 }
{}

/// A put is refused by `EraSpent`, `RootsFull`, `Full` and `CountFull` alone, each for its cause.
pub fn put_refusals()
    ensures answers { (m : APut) (r0 r : AMemo) (tr : Trail) (es : List Event) (a : AnAnswer) → is_refusal a ≡ true → PutLeaves m r0 r tr es a → (f : AFault) × (a ≡ fault_answer f) }
    ensures cause { (m : APut) (r0 r : AMemo) (tr : Trail) (es : List Event) (f : AFault) → PutLeaves m r0 r tr es (fault_answer f) → CommandCause m.me r0 r f }
{}

/// A copy is refused as a put is, and as missing where no entry of the author has the other key: its home was read as 0, or a whole chain of other
/// keys; then no event happened. In the own table it is so exactly where the map hasn't the key.
pub fn copy_refusals()
    ensures answers { (m : ACopy) (r0 r : AMemo) (tr : Trail) (es : List Event) (a : AnAnswer) → is_refusal a ≡ true → a ≢ answer.Missing → CopyLeaves m r0 r tr es a → (f : AFault) × (a ≡ fault_answer f) }
    ensures cause { (m : ACopy) (r0 r : AMemo) (tr : Trail) (es : List Event) (f : AFault) → CopyLeaves m r0 r tr es (fault_answer f) → CommandCause m.me r0 r f }
    ensures missing { (m : ACopy) (r0 r : AMemo) (tr : Trail) (es : List Event) → CopyLeaves m r0 r tr es answer.Missing → (m.author ≡ m.me.who → map_in r0.part m.other ≡ None) × (es ≡ []) }
    ensures has { (m : ACopy) (r0 r : AMemo) (tr : Trail) (es : List Event) (a : AnAnswer) → a ≢ answer.Missing → CopyLeaves m r0 r tr es a → m.author ≡ m.me.who → map_in r0.part m.other ≢ None }
    ensures ends { (m : ACopy) (r0 r : AMemo) (tr : Trail) (es : List Event) → CopyLeaves m r0 r tr es answer.Missing → (before walk after : Trail) × (home first : ℕ) × (tr ≡ before ++ (walk ++ after)) × EndsNowhere m.me m.author m.other home first walk }
{}

/// A removal is refused as missing exactly where the own map hasn't the key: the own home was read as 0, or a whole chain of other keys. It is
/// refused as spent and as full where the map has the key: with the own era, or since the entry that follows has the greatest count.
pub fn del_refusals()
    ensures answers { (m : ADel) (r0 r : AMemo) (tr : Trail) (es : List Event) → (DelLeaves m r0 r tr es answer.RootsFull → ⊥) × ((s b : ℕ) → DelLeaves m r0 r tr es (answer.Full s b) → ⊥) × ((x y : ℕ) → DelLeaves m r0 r tr es (answer.QueueFull x y) → ⊥) × ((x : ℕ) → DelLeaves m r0 r tr es (answer.Empty x) → ⊥) }
    ensures missing { (m : ADel) (r0 r : AMemo) (tr : Trail) (es : List Event) → DelLeaves m r0 r tr es answer.Missing → map_in r0.part m.key ≡ None }
    ensures has { (m : ADel) (r0 r : AMemo) (tr : Trail) (es : List Event) (a : AnAnswer) → a ≢ answer.Missing → DelLeaves m r0 r tr es a → map_in r0.part m.key ≢ None }
    ensures ends { (m : ADel) (r0 r : AMemo) (tr : Trail) (es : List Event) → DelLeaves m r0 r tr es answer.Missing → (before walk after : Trail) × (home first : ℕ) × (tr ≡ before ++ (walk ++ after)) × EndsNowhere m.me m.me.who m.key home first walk }
    ensures spent { (m : ADel) (r0 r : AMemo) (tr : Trail) (es : List Event) (e : ℕ) → DelLeaves m r0 r tr es (answer.EraSpent e) → (e ≡ own_word r0.own (spots.Era m.me.who m.me.who)) × (2 ^ 47 - 4 < e) }
    ensures count { (m : ADel) (r0 r : AMemo) (tr : Trail) (es : List Event) (b n : ℕ) → DelLeaves m r0 r tr es (answer.CountFull b n) → (b ≢ 0) × (n ≡ 1023) }
    ensures none { (m : ADel) (r0 r : AMemo) (tr : Trail) (es : List Event) (a : AnAnswer) → is_refusal a ≡ true → DelLeaves m r0 r tr es a → es ≡ [] }
{}

/// A reading is refused as missing alone, exactly where no entry of the author has the key: its home was read as 0, or a whole chain of other
/// keys; in the own table the map hasn't the key. No event happened.
pub fn get_refusals()
    ensures answers { (m : AGet) (r0 r : AMemo) (tr : Trail) (es : List Event) (a : AnAnswer) → is_refusal a ≡ true → GetLeaves m r0 r tr es a → a ≡ answer.Missing }
    ensures missing { (m : AGet) (r0 r : AMemo) (tr : Trail) (es : List Event) → GetLeaves m r0 r tr es answer.Missing → (m.author ≡ m.me.who → map_in r0.part m.key ≡ None) × (es ≡ []) }
    ensures has { (m : AGet) (r0 r : AMemo) (tr : Trail) (es : List Event) (a : AnAnswer) → a ≢ answer.Missing → GetLeaves m r0 r tr es a → m.author ≡ m.me.who → map_in r0.part m.key ≢ None }
    ensures ends { (m : AGet) (r0 r : AMemo) (tr : Trail) (es : List Event) → GetLeaves m r0 r tr es answer.Missing → (before walk after : Trail) × (home first : ℕ) × (tr ≡ before ++ (walk ++ after)) × EndsNowhere m.me m.author m.key home first walk }
{}

/// A send is refused as missing exactly where the own map hasn't the key. Where it has it: as a full queue with the own tail, which is 8 above
/// the head that was read; as spent with the own era, which leaves no room for a step up; as full with the block that the key has, whose count
/// was read as 1,023. No event happened.
pub fn send_key_refusals()
    ensures answers { (m : ASend) (r0 r : AMemo) (tr : Trail) (es : List Event) → (SendKeyLeaves m r0 r tr es answer.RootsFull → ⊥) × ((s b : ℕ) → SendKeyLeaves m r0 r tr es (answer.Full s b) → ⊥) × ((x : ℕ) → SendKeyLeaves m r0 r tr es (answer.Empty x) → ⊥) }
    ensures missing { (m : ASend) (r0 r : AMemo) (tr : Trail) (es : List Event) → SendKeyLeaves m r0 r tr es answer.Missing → map_in r0.part m.key ≡ None }
    ensures has { (m : ASend) (r0 r : AMemo) (tr : Trail) (es : List Event) (a : AnAnswer) → a ≢ answer.Missing → SendKeyLeaves m r0 r tr es a → map_in r0.part m.key ≢ None }
    ensures queue { (m : ASend) (r0 r : AMemo) (tr : Trail) (es : List Event) (h n : ℕ) → SendKeyLeaves m r0 r tr es (answer.QueueFull h n) → (n ≡ own_word r0.own (spots.Tail m.me.who m.to)) × (n ≡ h + 8) }
    ensures spent { (m : ASend) (r0 r : AMemo) (tr : Trail) (es : List Event) (e : ℕ) → SendKeyLeaves m r0 r tr es (answer.EraSpent e) → (e ≡ own_word r0.own (spots.Era m.me.who m.me.who)) × (2 ^ 47 - 3 < e) }
    ensures count { (m : ASend) (r0 r : AMemo) (tr : Trail) (es : List Event) (b n : ℕ) → SendKeyLeaves m r0 r tr es (answer.CountFull b n) → ((x : ℕ) × (map_in r0.part m.key ≡ Some (x, b))) × (n ≡ 1023) }
    ensures none { (m : ASend) (r0 r : AMemo) (tr : Trail) (es : List Event) (a : AnAnswer) → is_refusal a ≡ true → SendKeyLeaves m r0 r tr es a → es ≡ [] }
{}

/// A receive is refused as a put is, and as empty where the tail that was read is the own head, with which it answers; then no event happened.
/// With any other answer the tail that was read is above the own head.
pub fn recv_refusals()
    ensures answers { (m : AReceive) (r0 r : AMemo) (tr : Trail) (es : List Event) (a : AnAnswer) → is_refusal a ≡ true → ((x : ℕ) → a ≢ answer.Empty x) → RecvLeaves m r0 r tr es a → (f : AFault) × (a ≡ fault_answer f) }
    ensures cause { (m : AReceive) (r0 r : AMemo) (tr : Trail) (es : List Event) (f : AFault) → RecvLeaves m r0 r tr es (fault_answer f) → CommandCause m.me r0 r f }
    ensures empty { (m : AReceive) (r0 r : AMemo) (tr : Trail) (es : List Event) (n : ℕ) → RecvLeaves m r0 r tr es (answer.Empty n) → (n ≡ own_word r0.own (spots.QueueHead m.from m.me.who)) × Contains r.facts (Counter (spots.Tail m.from m.me.who) n) × (es ≡ []) }
    ensures waits { (m : AReceive) (r0 r : AMemo) (tr : Trail) (es : List Event) (a : AnAnswer) → ((x : ℕ) → a ≢ answer.Empty x) → RecvLeaves m r0 r tr es a → (y : ℕ) × (q : AMemo) × Contains q.facts (Counter (spots.Tail m.from m.me.who) y) × (own_word r0.own (spots.QueueHead m.from m.me.who) < y) }
{}

/// By the events of a command that was taken back each own root that was empty is empty again, and the own home that was `before` is `after`.
/// But for words of blocks no other spot names anything else than before: no root and no home of another identity, no slot of a queue.
pub fn taken_back()
    ensures roots { (c : ℕ) (l : ALine) (before after : ℕ) (es : List Event) → IsTakenBack c (taken_by c l) before after es → (k : ℕ) → named_after (spots.Root c k) es 0 ≡ 0 }
    ensures home { (c : ℕ) (l : ALine) (before after : ℕ) (es : List Event) → IsTakenBack c (taken_by c l) before after es → named_after (spots.Home c) es before ≡ after }
    ensures others { (c : ℕ) (l : ALine) (before after : ℕ) (es : List Event) → IsTakenBack c (taken_by c l) before after es → (p : ASpot) (x : ℕ) → is_apart c p ≡ true → named_after p es x ≡ x }
{}

/// What the whole trail of a command shows of its refusals. The era that is answered as spent was read as the own era. Where all roots were set,
/// each own root was read and named a block. A count that is answered as full was read in a header of the block that is answered. Where no block
/// was free, a part of the trail is that of a whole allocation without a hint that found none, and the numbers are those of the segments of others
/// and of the blocks in use that it shows.
pub fn refusal_trails()
    ensures put { (me : AMe) (key n : ℕ) (tr : Trail) (a : AnAnswer) → plan_trail put_plan (putting me key n) tr a → Shows me a tr }
    ensures copy { (me : AMe) (key b other : ℕ) (tr : Trail) (a : AnAnswer) → plan_trail copy_plan (copying me key b other) tr a → Shows me a tr }
    ensures del { (me : AMe) (key : ℕ) (tr : Trail) (a : AnAnswer) → plan_trail del_plan (deleting me key) tr a → Shows me a tr }
    ensures send { (me : AMe) (to key : ℕ) (tr : Trail) (a : AnAnswer) → plan_trail send_key_plan (sending_key me to key) tr a → Shows me a tr }
    ensures recv { (me : AMe) (from key : ℕ) (tr : Trail) (a : AnAnswer) → plan_trail recv_plan (receiving_key me from key) tr a → Shows me a tr }
    ensures spent { (me : AMe) (e : ℕ) (tr : Trail) → Shows me (answer.EraSpent e) tr → Contains tr (pair (Load (address me.geometry (place.Era me.who me.who))) e) }
    ensures roots { (me : AMe) (tr : Trail) → Shows me answer.RootsFull tr → (j : ℕ) → j < 16 → (n : ℕ) × (n ≢ 0) × Contains tr (pair (Load (address me.geometry (place.Root me.who j))) n) }
    ensures count { (me : AMe) (b n : ℕ) (tr : Trail) → Shows me (answer.CountFull b n) tr → ReadsCount b n tr }
    ensures full { (me : AMe) (s b : ℕ) (tr : Trail) → me.who < me.geometry.clients → Shows me (answer.Full s b) tr → (before middle after : Trail) × (tr ≡ before ++ (middle ++ after)) × ((q : ARequest) × (q.near ≡ record { segment = 0; page = 0; index = 0 }) × alloc_trail me q middle (Err (alloc_fault.Full s b))) × (s ≡ taken_in me middle) × (b ≡ used_in me middle) }
{}
