//! Why machines over latches, roots and references are refused, and what stays then; and which latch a success needed.

ghost use Rattle.std.specs.Prelude.{◌≡◌, ◌≢◌, ◌⊎◌, ℕ, ◌+◌, ◌*◌, ◌-◌, ◌^◌, ◌<◌, ◌≤◌, false, None, Some, Ok, Err, List, [], ◌∷◌, ◌++◌, length};
ghost use Rattle.std.specs.List.{Contains};
ghost use Rattle.shm_words.specs.{Layout.address, Tags.{tag_author, tag_plain, tag_refs}};
ghost use Rattle.shm_words.specs.declared.place.Place.TheVariants as place;
ghost use Rattle.shm_graph.specs.declared.{ask.Me.Me as AMe, memo.Memo.Memo as AMemo, spot.Spot.Spot as ASpot};
ghost use Rattle.shm_graph.specs.{Asks.{IsWithin, Trail, pair}, Bounds.{redo_steps, tear_steps}, Core.core};
ghost use Rattle.shm_graph.specs.{Events.Event as AnEvent, MemoAfterRead.home_read, Spots.same_spot, Views.own_word};
ghost use Rattle.shm_graph.specs.declared.ask.Ask.TheVariants as ask;
ghost use Rattle.shm_graph.specs.declared.spot.Spot.TheVariants as spots;
ghost use Rattle.shm_graph.specs.Events as event;
ghost use Rattle.kind_parts.specs.WordParts.{as_known};
ghost use Rattle.plans.specs.Plans.{plan_trail};
ghost use Rattle.shm_count.specs.{declared.answer.EraSpent.EraSpent as ASpent, Lowering.StoppedAt, Refusing.ReadsCount};
ghost use Rattle.shm_count.specs.{Roots.root_word, Slots.{Took, Untouched}, Step.Control.last_era};
ghost use Rattle.shm_count.specs.{Tear.Events.{Visit as AVisit, Walks, frees}, UpRoot.UpRootLeaves};
ghost use Rattle.shm_count.specs.declared.answer.ShareFault.TheVariants as share;
ghost use Rattle.shm_ref.specs.declared.answer.{Busy.Busy as ABusy, NoSuchWord.NoSuchWord as ANoSuchWord};
ghost use Rattle.shm_ref.specs.{declared.answer.NotHeld.NotHeld as ANotHeld, DropRoot.{Control.dropping, DropLeaves}};
ghost use Rattle.shm_ref.specs.{DropRoots.{Control.dropping_roots, RootsLeaves}, Hold.{Control.holding, HoldLeaves}};
ghost use Rattle.shm_ref.specs.{HomeOf.{HomeOfLeaves, finding}, Lefts.RootsEvents, Look.{LookLeaves, looking}};
ghost use Rattle.shm_ref.specs.{Read.{ReadLeaves, reading}, ReadParts.tagged, Release.Released};
ghost use Rattle.shm_ref.specs.{SetHome.{HomeLeaves, home_plan, homing}, SetRef.Control.setting};
ghost use Rattle.shm_ref.specs.SetRef.{Memos.{tag_seen, word_seen}, IsRead, SetLeaves, aim_of, set_plan, taken_events};
ghost use Rattle.shm_ref.specs.declared.answer.HomeFault.TheVariants as home;
ghost use Rattle.shm_ref.specs.declared.answer.LookFault.TheVariants as look;
ghost use Rattle.shm_ref.specs.declared.answer.SetFault.TheVariants as set;

/// A latch is refused only as busy, with the client of the pool whose number and one the exchange found; the hold word is 0 then, and
/// nothing else of the memo changed.
pub fn hold_refusals()
    ensures busy { (me : AMe) (a : ℕ) (r0 r : AMemo) (tr : Trail) (es : List AnEvent) (e : ABusy) → HoldLeaves (holding me a) r0 r tr es (Err e) → (e.holder < me.geometry.clients) × Contains tr (pair (ask.Exchange (address me.geometry (place.Latch a)) 0 (me.who + 1)) (e.holder + 1)) × (es ≡ []) }
    ensures stays { (me : AMe) (a : ℕ) (r0 r : AMemo) (tr : Trail) (es : List AnEvent) (e : ABusy) → HoldLeaves (holding me a) r0 r tr es (Err e) → (own_word r.own (spots.Hold me.who) ≡ 0) × ((p : ASpot) → same_spot (spots.Hold me.who) p ≡ false → own_word r.own p ≡ own_word r0.own p) × (core r ≡ core (record r0 { own = r.own })) }
{}

/// What a home names is refused only where the own hold word isn't that of the author, and nothing changed.
pub fn home_of_refusals()
    ensures { (me : AMe) (a : ℕ) (r0 r : AMemo) (tr : Trail) (es : List AnEvent) (e : ANotHeld) → HomeOfLeaves (finding me a) r0 r tr es (Err e) → (own_word r0.own (spots.Hold me.who) ≢ a + 1) × (core r ≡ core r0) × (es ≡ []) }
{}

/// A look is refused for want of a reference word only where the block's tag, which was loaded, tells of no word of that index, and the
/// answer is how many it tells of; and for want of the latch only where it tells of one, and the own hold word isn't that of the tag's
/// author. Both times the tag is known, as what was known of it before, and nothing else changed.
pub fn look_refusals()
    ensures none { (me : AMe) (b k n : ℕ) (r0 r : AMemo) (tr : Trail) (es : List AnEvent) → LookLeaves (looking me b k) r0 r tr es (Err (look.NoSuchRef n)) → (x : ℕ) × Contains tr (pair (ask.Load (b + 1)) x) × as_known (spots.Tag b) r0 x × (n ≡ tag_refs me.geometry.wide x) × (n ≤ k) × (core r ≡ core (tagged b x r0)) × (es ≡ []) }
    ensures other { (me : AMe) (b k : ℕ) (r0 r : AMemo) (tr : Trail) (es : List AnEvent) → LookLeaves (looking me b k) r0 r tr es (Err look.NotHeld) → (x : ℕ) × Contains tr (pair (ask.Load (b + 1)) x) × as_known (spots.Tag b) r0 x × (k < tag_refs me.geometry.wide x) × (own_word r0.own (spots.Hold me.who) ≢ tag_author me.geometry.wide x + 1) × (core r ≡ core (tagged b x r0)) × (es ≡ []) }
{}

/// A plain word is refused only where the block's tag, which was loaded, tells of no plain word of that index, and the answer is how many
/// it tells of; the tag is known, and nothing else changed.
pub fn read_refusals()
    ensures { (me : AMe) (b k : ℕ) (r0 r : AMemo) (tr : Trail) (es : List AnEvent) (e : ANoSuchWord) → ReadLeaves (reading me b k) r0 r tr es (Err e) → (x : ℕ) × Contains tr (pair (ask.Load (b + 1)) x) × as_known (spots.Tag b) r0 x × (e.plain ≡ tag_plain me.geometry.wide x) × (e.plain ≤ k) × (core r ≡ core (tagged b x r0)) × (es ≡ []) }
{}

/// A home is read only under the latch of its author, and a reference word only under that of the author whom the block's tag names; the
/// latch that is given back is the one that was held.
pub fn latch_needed()
    ensures home { (me : AMe) (a b : ℕ) (r0 r : AMemo) (tr : Trail) (es : List AnEvent) → HomeOfLeaves (finding me a) r0 r tr es (Ok b) → r0.latch ≡ Some a }
    ensures look { (me : AMe) (b k v : ℕ) (r0 r : AMemo) (tr : Trail) (es : List AnEvent) → LookLeaves (looking me b k) r0 r tr es (Ok v) → (x : ℕ) × Contains tr (pair (ask.Load (b + 1)) x) × (k < tag_refs me.geometry.wide x) × (r0.latch ≡ Some (tag_author me.geometry.wide x)) }
    ensures release { (me : AMe) (r0 r : AMemo) (tr : Trail) (es : List AnEvent) → Released me r0 r tr es → (a : ℕ) × (r0.latch ≡ Some a) × Contains tr (pair (ask.Store (address me.geometry (place.Latch a)) 0) 0) × (r.latch ≡ None) }
{}

/// The own home isn't set only where it names a block, which is answered; or where it is empty, and the own era leaves no room for the
/// step up, or a header of the block that was read shows 1,023. The home stays as it was.
pub fn set_home_refusals()
    ensures set { (me : AMe) (b x : ℕ) (r0 r : AMemo) (tr : Trail) (es : List AnEvent) → HomeLeaves (homing me b) r0 r tr es (Err (home.HomeSet x)) → (x ≡ own_word r0.own (spots.Home me.who)) × (x ≢ 0) × (core r ≡ core (home_read r0 me.who x)) × (es ≡ []) }
    ensures spent { (me : AMe) (b e : ℕ) (r0 r : AMemo) (tr : Trail) (es : List AnEvent) → HomeLeaves (homing me b) r0 r tr es (Err (home.EraSpent e)) → (own_word r0.own (spots.Home me.who) ≡ 0) × (e ≡ own_word r0.own (spots.Era me.who me.who)) × (2 ^ 47 - 3 < e) × Untouched me.who r0 r × (es ≡ []) }
    ensures full { (me : AMe) (b d n : ℕ) (r0 r : AMemo) (tr : Trail) (es : List AnEvent) → HomeLeaves (homing me b) r0 r tr es (Err (home.CountFull d n)) → (own_word r0.own (spots.Home me.who) ≡ 0) × (d ≡ b) × (n ≡ 1023) × Untouched me.who r0 r × (es ≡ []) }
    ensures read { (me : AMe) (b d n : ℕ) (tr : Trail) → plan_trail home_plan (homing me b) tr (Err (home.CountFull d n)) → ReadsCount d n tr }
{}

/// A reference word isn't set only, in this order, where the block's tag names another author, or tells of no such word; where the own
/// hold word isn't the own one; where the own era leaves no room for the count step, or a header of the block that the word is to name
/// shows 1,023. No event is told then, and the word is what it was. Where an event is told the word was set, and a step down of the tear-down
/// of the block that it named was refused: what was being torn down are zero-count blocks still.
pub fn set_ref_refusals()
    ensures author { (me : AMe) (b k to a : ℕ) (r0 r : AMemo) (tr : Trail) (es : List AnEvent) → SetLeaves (setting me b k to) r0 r tr es (Err (set.NotAuthor a)) → (t : ℕ) × as_known (spots.Tag b) r0 t × (a ≡ tag_author me.geometry.wide t) × (a ≢ me.who) × (core r ≡ core (tag_seen b t r0)) × (es ≡ []) }
    ensures none { (me : AMe) (b k to n : ℕ) (r0 r : AMemo) (tr : Trail) (es : List AnEvent) → SetLeaves (setting me b k to) r0 r tr es (Err (set.NoSuchRef n)) → (t : ℕ) × as_known (spots.Tag b) r0 t × (tag_author me.geometry.wide t ≡ me.who) × (n ≡ tag_refs me.geometry.wide t) × (n ≤ k) × (core r ≡ core (tag_seen b t r0)) × (es ≡ []) }
    ensures other { (me : AMe) (b k to : ℕ) (r0 r : AMemo) (tr : Trail) (es : List AnEvent) → SetLeaves (setting me b k to) r0 r tr es (Err set.NotHeld) → (t : ℕ) × as_known (spots.Tag b) r0 t × (tag_author me.geometry.wide t ≡ me.who) × (k < tag_refs me.geometry.wide t) × (own_word r0.own (spots.Hold me.who) ≢ me.who + 1) × (core r ≡ core (tag_seen b t r0)) × (es ≡ []) }
    ensures full { (me : AMe) (b k to d n : ℕ) (r0 r : AMemo) (tr : Trail) (es : List AnEvent) → SetLeaves (setting me b k to) r0 r tr es (Err (set.CountFull d n)) → (d ≡ to) × (to ≢ 0) × (n ≡ 1023) × ((t : ℕ) × (old : ℕ) × IsRead me.geometry.wide me.who b k t old r0 × (old ≢ to) × Untouched me.who (word_seen b k t old r0) r) × (es ≡ []) }
    ensures kept { (me : AMe) (b k to e : ℕ) (r0 r : AMemo) (tr : Trail) (es : List AnEvent) → SetLeaves (setting me b k to) r0 r tr es (Err (set.EraSpent e)) → es ≡ [] → (t : ℕ) × (old : ℕ) × IsRead me.geometry.wide me.who b k t old r0 × (old ≢ to) × (e ≡ own_word r0.own (spots.Era me.who me.who)) × (last_era (aim_of old to) < e) × Untouched me.who (word_seen b k t old r0) r }
    ensures torn { (me : AMe) (b k to e : ℕ) (r0 r : AMemo) (tr : Trail) (es : List AnEvent) → SetLeaves (setting me b k to) r0 r tr es (Err (set.EraSpent e)) → es ≢ [] → (2 ^ 47 - 3 < e) × ((t : ℕ) × (old : ℕ) × IsRead me.geometry.wide me.who b k t old r0 × (old ≢ 0) × (old ≢ to) × Took me.who (spots.Body b k) false old to false (word_seen b k t old r0) r × ((vs : List AVisit) × (ds : List AnEvent) × (es ≡ taken_events me.who (spots.Body b k) old to ++ ds) × Walks me.who old ds vs × StoppedAt me (word_seen b k t old r0) r e vs)) }
    ensures read { (me : AMe) (b k to d n : ℕ) (tr : Trail) → plan_trail set_plan (setting me b k to) tr (Err (set.CountFull d n)) → ReadsCount d n tr }
{}

/// A share is refused only, in this order, where the own era leaves no room for the step up; where each root names a block; where a header
/// of the block that was read shows 1,023. No event is told, and no root changed.
pub fn share_refusals()
    ensures spent { (me : AMe) (b e : ℕ) (r0 r : AMemo) (tr : Trail) (es : List AnEvent) → UpRootLeaves me b r0 r tr es (Err (share.EraSpent e)) → (e ≡ own_word r0.own (spots.Era me.who me.who)) × (2 ^ 47 - 3 < e) × (core r ≡ core r0) × (es ≡ []) }
    ensures roots { (me : AMe) (b : ℕ) (r0 r : AMemo) (tr : Trail) (es : List AnEvent) → UpRootLeaves me b r0 r tr es (Err share.RootsFull) → (own_word r0.own (spots.Era me.who me.who) + 3 ≤ 2 ^ 47) × ((j : ℕ) → j < 16 → root_word me.who r0 j ≢ 0) × (core r ≡ core r0) × (es ≡ []) }
    ensures full { (me : AMe) (b d n : ℕ) (r0 r : AMemo) (tr : Trail) (es : List AnEvent) → UpRootLeaves me b r0 r tr es (Err (share.CountFull d n)) → (own_word r0.own (spots.Era me.who me.who) + 3 ≤ 2 ^ 47) × ((k : ℕ) × (k < 16) × (root_word me.who r0 k ≡ 0)) × (d ≡ b) × (n ≡ 1023) × ReadsCount d n tr × Untouched me.who r0 r × (es ≡ []) }
{}

/// A drop of a root is refused only as spent, and only of a root that names a block; the other roots are what they were. What the root
/// names tells which step down was refused. Where it names what it named that was its own: nothing was done, and the era is the own one.
/// Where it is empty that was one of the tear-down: the loss of its reference is the first event, and what was being torn down are zero-count
/// blocks still.
pub fn drop_root_refusals()
    ensures spent { (me : AMe) (k : ℕ) (r0 r : AMemo) (tr : Trail) (es : List AnEvent) (e : ASpent) → DropLeaves (dropping me k) r0 r tr es (Err e) → (2 ^ 47 - 3 < e.era) × (e.era ≤ own_word r.own (spots.Era me.who me.who)) × (root_word me.who r0 k ≢ 0) }
    ensures others { (me : AMe) (k j : ℕ) (r0 r : AMemo) (tr : Trail) (es : List AnEvent) (e : ASpent) → DropLeaves (dropping me k) r0 r tr es (Err e) → j ≢ k → root_word me.who r j ≡ root_word me.who r0 j }
    ensures kept { (me : AMe) (k : ℕ) (r0 r : AMemo) (tr : Trail) (es : List AnEvent) (e : ASpent) → DropLeaves (dropping me k) r0 r tr es (Err e) → root_word me.who r k ≢ 0 → (e.era ≡ own_word r0.own (spots.Era me.who me.who)) × (root_word me.who r k ≡ root_word me.who r0 k) × Untouched me.who r0 r × (es ≡ []) }
    ensures emptied { (me : AMe) (k : ℕ) (r0 r : AMemo) (tr : Trail) (es : List AnEvent) (e : ASpent) → DropLeaves (dropping me k) r0 r tr es (Err e) → root_word me.who r k ≡ 0 → (vs : List AVisit) × (ds : List AnEvent) × (es ≡ event.Down me.who (spots.Root me.who k) (root_word me.who r0 k) ∷ ds) × Walks me.who (root_word me.who r0 k) ds vs × StoppedAt me r0 r e.era vs }
{}

/// A drop of all roots is refused at one root, the first whose own drop is: the roots before it are empty, with their events first, and
/// those behind it are what they were. It names what it named, and no event follows; or it is empty, the loss of its reference comes next, and
/// what was being torn down are zero-count blocks still. The word steps are those of the drops of the roots up to it.
pub fn drop_roots_refusals()
    ensures spent { (me : AMe) (r0 r : AMemo) (tr : Trail) (es : List AnEvent) (e : ASpent) → RootsLeaves (dropping_roots me) r0 r tr es (Err e) → (2 ^ 47 - 3 < e.era) × (e.era ≤ own_word r.own (spots.Era me.who me.who)) }
    ensures at { (me : AMe) (r0 r : AMemo) (tr : Trail) (es : List AnEvent) (e : ASpent) → RootsLeaves (dropping_roots me) r0 r tr es (Err e)
        → (k : ℕ) × (k < 16) × ((j : ℕ) → j < k → root_word me.who r j ≡ 0) × ((j : ℕ) → k < j → root_word me.who r j ≡ root_word me.who r0 j) × (root_word me.who r0 k ≢ 0)
        × ((vs : List AVisit) × (before : List AnEvent) × (after : List AnEvent) × StoppedAt me r0 r e.era vs × (es ≡ before ++ after) × RootsEvents me.who r0 k before
        × (((root_word me.who r k ≡ root_word me.who r0 k) × (after ≡ []) × (vs ≡ [])) ⊎ ((root_word me.who r k ≡ 0) × ((ds : List AnEvent) × (after ≡ event.Down me.who (spots.Root me.who k) (root_word me.who r0 k) ∷ ds) × Walks me.who (root_word me.who r0 k) ds vs)))
        × IsWithin ((8 + redo_steps me.geometry.wide) * (k + 1) + tear_steps me.geometry.wide (frees es + length vs)) tr) }
{}
