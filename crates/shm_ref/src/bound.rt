//! How many word steps machines over latches and roots make.

ghost use Rattle.std.specs.Prelude.{◌≡◌, ℕ, ◌+◌, ◌*◌, Bool, Result, Ok, Err, List, length};
ghost use Rattle.shm_graph.specs.{declared.{ask.Me.Me as AMe, memo.Memo.Memo as AMemo}, Asks.{Trail, IsWithin}};
ghost use Rattle.shm_graph.specs.{Bounds.{redo_steps, tear_steps, up_steps, change_steps}, Events.Event as AnEvent};
ghost use Rattle.shm_count.specs.declared.answer.{EraSpent.EraSpent as ASpent, ShareFault.ShareFault as AShareFault};
ghost use Rattle.shm_count.specs.{Tear.Events.{Visit, frees}, UpRoot.UpRootLeaves};
ghost use Rattle.shm_count.specs.declared.answer.ShareFault.TheVariants as share;
ghost use Rattle.shm_ref.specs.declared.answer.{Busy.Busy as ABusy, LookFault.TheVariants.{NoSuchRef, NotHeld}};
ghost use Rattle.shm_ref.specs.declared.answer.{NoSuchWord.NoSuchWord as ANoSuchWord, NotHeld.NotHeld as ANotHeld};
ghost use Rattle.shm_ref.specs.declared.answer.{HomeFault.HomeFault as AHomeFault, SetFault.SetFault as ASetFault};
ghost use Rattle.shm_ref.specs.{Lefts.Stopped, SetHome.{HomeLeaves, homing}, SetRef.Control.setting};
ghost use Rattle.shm_ref.specs.{SetRef.{SetLeaves, SetStays}, DropRoot.{DropLeaves, Control.dropping}};
ghost use Rattle.shm_ref.specs.{DropRoots.{RootsLeaves, Control.dropping_roots}, Hold.{HoldLeaves, Control.holding}};
ghost use Rattle.shm_ref.specs.{Release.Released, RootOf.Named, HomeOf.{HomeOfLeaves, finding}};
ghost use Rattle.shm_ref.specs.{Look.{LookLeaves, looking}, Read.{ReadLeaves, reading}};

/// A drop of a root took at most 9 word steps and 164 for each block that it freed or left on the way, in format 2 10 and 180, and three
/// more for each exchange that failed.
pub fn drop_root_bound()
    ensures done { (me : AMe) (k : ℕ) (r0 r : AMemo) (tr : Trail) (es : List AnEvent) (z : Bool) → DropLeaves (dropping me k) r0 r tr es (Ok z) → IsWithin (8 + redo_steps me.geometry.wide + tear_steps me.geometry.wide (frees es)) tr }
    ensures spent { (me : AMe) (k : ℕ) (r0 r : AMemo) (tr : Trail) (es : List AnEvent) (e : ASpent) → DropLeaves (dropping me k) r0 r tr es (Err e) → (vs : List Visit) × Stopped me r0 r e.era vs × IsWithin (8 + redo_steps me.geometry.wide + tear_steps me.geometry.wide (frees es + length vs)) tr }
{}

/// A drop of all roots took at most 144 word steps and 164 for each block that it freed or left on the way, in format 2 160 and 180, and
/// three more for each exchange that failed.
pub fn drop_roots_bound()
    ensures done { (me : AMe) (r0 r : AMemo) (tr : Trail) (es : List AnEvent) → RootsLeaves (dropping_roots me) r0 r tr es (Ok tt) → IsWithin ((8 + redo_steps me.geometry.wide) * 16 + tear_steps me.geometry.wide (frees es)) tr }
    ensures spent { (me : AMe) (r0 r : AMemo) (tr : Trail) (es : List AnEvent) (e : ASpent) → RootsLeaves (dropping_roots me) r0 r tr es (Err e) → (vs : List Visit) × Stopped me r0 r e.era vs × IsWithin ((8 + redo_steps me.geometry.wide) * 16 + tear_steps me.geometry.wide (frees es + length vs)) tr }
{}

/// A latch is taken in two word steps, and found held in three.
pub fn hold_bound()
    ensures taken { (me : AMe) (a : ℕ) (r0 r : AMemo) (tr : Trail) (es : List AnEvent) → HoldLeaves (holding me a) r0 r tr es (Ok tt) → length tr ≡ 2 }
    ensures busy { (me : AMe) (a : ℕ) (r0 r : AMemo) (tr : Trail) (es : List AnEvent) (e : ABusy) → HoldLeaves (holding me a) r0 r tr es (Err e) → length tr ≡ 3 }
    ensures within { (me : AMe) (a : ℕ) (r0 r : AMemo) (tr : Trail) (es : List AnEvent) (b : Result (Unit {0}) ABusy) → HoldLeaves (holding me a) r0 r tr es b → IsWithin 2 tr }
{}

/// A latch is given back in three word steps.
pub fn release_bound()
    ensures { (me : AMe) (r0 r : AMemo) (tr : Trail) (es : List AnEvent) → Released me r0 r tr es → length tr ≡ 3 }
{}

/// What a root names is told in one word step.
pub fn root_of_bound()
    ensures { (me : AMe) (k : ℕ) (r0 r : AMemo) (tr : Trail) (es : List AnEvent) (b : ℕ) → Named me k r0 r tr es b → length tr ≡ 1 }
{}

/// A share into root k took at most k + 9 word steps, in format 2 k + 10, one that was refused as spent one, one that found no empty root
/// 17, and none more than 24, in format 2 25, besides three for each exchange that failed.
pub fn share_bound()
    ensures done { (me : AMe) (b : ℕ) (r0 r : AMemo) (tr : Trail) (es : List AnEvent) (k : ℕ) → UpRootLeaves me b r0 r tr es (Ok k) → IsWithin (up_steps me.geometry.wide + 1 + k) tr }
    ensures spent { (me : AMe) (b : ℕ) (r0 r : AMemo) (tr : Trail) (es : List AnEvent) (e : ℕ) → UpRootLeaves me b r0 r tr es (Err (share.EraSpent e)) → IsWithin 1 tr }
    ensures full { (me : AMe) (b : ℕ) (r0 r : AMemo) (tr : Trail) (es : List AnEvent) → UpRootLeaves me b r0 r tr es (Err share.RootsFull) → IsWithin 17 tr }
    ensures within { (me : AMe) (b : ℕ) (r0 r : AMemo) (tr : Trail) (es : List AnEvent) (a : Result ℕ AShareFault) → UpRootLeaves me b r0 r tr es a → IsWithin (up_steps me.geometry.wide + 16) tr }
{}

/// What a home names is told in two word steps, and that the latch isn't held in one.
pub fn home_of_bound()
    ensures found { (me : AMe) (a : ℕ) (r0 r : AMemo) (tr : Trail) (es : List AnEvent) (b : ℕ) → HomeOfLeaves (finding me a) r0 r tr es (Ok b) → length tr ≡ 2 }
    ensures other { (me : AMe) (a : ℕ) (r0 r : AMemo) (tr : Trail) (es : List AnEvent) (e : ANotHeld) → HomeOfLeaves (finding me a) r0 r tr es (Err e) → length tr ≡ 1 }
{}

/// What a reference word names is told in three word steps, that the latch isn't held in two, and that there is no such word in one.
pub fn look_bound()
    ensures found { (me : AMe) (b k : ℕ) (r0 r : AMemo) (tr : Trail) (es : List AnEvent) (v : ℕ) → LookLeaves (looking me b k) r0 r tr es (Ok v) → length tr ≡ 3 }
    ensures other { (me : AMe) (b k : ℕ) (r0 r : AMemo) (tr : Trail) (es : List AnEvent) → LookLeaves (looking me b k) r0 r tr es (Err NotHeld) → length tr ≡ 2 }
    ensures none { (me : AMe) (b k n : ℕ) (r0 r : AMemo) (tr : Trail) (es : List AnEvent) → LookLeaves (looking me b k) r0 r tr es (Err (NoSuchRef n)) → length tr ≡ 1 }
{}

/// A plain word is read in two word steps, and that there is none is told in one.
pub fn read_bound()
    ensures found { (me : AMe) (b k : ℕ) (r0 r : AMemo) (tr : Trail) (es : List AnEvent) (v : ℕ) → ReadLeaves (reading me b k) r0 r tr es (Ok v) → length tr ≡ 2 }
    ensures none { (me : AMe) (b k : ℕ) (r0 r : AMemo) (tr : Trail) (es : List AnEvent) (e : ANoSuchWord) → ReadLeaves (reading me b k) r0 r tr es (Err e) → length tr ≡ 1 }
{}

/// It takes at most 9 word steps, in format 2 10, and three more for each exchange that failed.
pub fn set_home_bound()
    ensures { (me : AMe) (b : ℕ) (r0 r : AMemo) (tr : Trail) (es : List AnEvent) (a : Result (Unit {0}) AHomeFault) → HomeLeaves (homing me b) r0 r tr es a → IsWithin (1 + up_steps me.geometry.wide) tr }
{}

/// It takes at most 16 word steps and 164 for each block that it freed or left on the way, in format 2 17 and 180, and three more for each
/// exchange that failed.
pub fn set_ref_bound()
    ensures done { (me : AMe) (b k to : ℕ) (r0 r : AMemo) (tr : Trail) (es : List AnEvent) → SetLeaves (setting me b k to) r0 r tr es (Ok tt) → IsWithin (3 + change_steps me.geometry.wide + tear_steps me.geometry.wide (frees es)) tr }
    ensures refused { (me : AMe) (b k to : ℕ) (r0 r : AMemo) (tr : Trail) (es : List AnEvent) (f : ASetFault) → SetLeaves (setting me b k to) r0 r tr es (Err f) → (vs : List Visit) × SetStays me b k to r0 r es vs f × IsWithin (3 + change_steps me.geometry.wide + tear_steps me.geometry.wide (frees es + length vs)) tr }
{}
