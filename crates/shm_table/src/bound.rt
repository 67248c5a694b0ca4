//! How many word steps machines over tables make.

ghost use Rattle.std.specs.Prelude.{ℕ, ◌+◌, ◌*◌, List, Bool, Ok, Err, length, ◌≡◌, Result, true, false};
ghost use Rattle.shm_graph.specs.{declared.{ask.Me.Me as AMe, memo.Memo.Memo as AMemo}, Asks.{Trail, IsWithin}};
ghost use Rattle.shm_graph.specs.Bounds.{alloc_steps, change_steps, up_steps, tear_steps, command_steps, redo_steps};
ghost use Rattle.shm_graph.specs.Events.{Event as AnEvent};
ghost use Rattle.shm_table.specs.declared.{enter.Entered.Entered as AnEntered, find.Found.Found as AFound};
ghost use Rattle.shm_table.specs.declared.answer.PutFault.{PutFault as APutFault};
ghost use Rattle.shm_table.specs.declared.fetch_head.FetchedHead.{FetchedHead as AFetched};
ghost use Rattle.shm_table.specs.Find.{Bound.{IsWhole, keys_read}, Control.{Passed, finding}, FindLeaves};
ghost use Rattle.shm_table.specs.{Replace.{Control.replacing, ReplaceEvents, ReplaceLeaves}, Unlink.Control.unlinking};
ghost use Rattle.shm_table.specs.{Unlink.{UnlinkEvents, UnlinkLeaves}, Del.{Bound.IsShort, Control.deleting}};
ghost use Rattle.shm_table.specs.{Del.DelLeaves, OpenTable.{Control.opening, OpenLeaves, OpenLeft}};
ghost use Rattle.shm_table.specs.PutRoot.{Bound.IsPutShort, Control.putting_root};
ghost use Rattle.shm_table.specs.{PutRoot.{PutRootLeaves, put_root_steps, HasSearch}, Put.Control.putting};
ghost use Rattle.shm_table.specs.{Put.{PutLeaves, put_steps}, Unlatch.Unlatched};
ghost use Rattle.shm_table.specs.Get.{Bound.{LocateAsked, GetAsked, keys_got}, Control.getting, GetLeaves};
ghost use Rattle.shm_table.specs.{Locate.Located, Fetch.{Control.fetching, FetchLeaves, fetch_steps}};
ghost use Rattle.shm_table.specs.CopyKey.{Bound.IsCopyShort, Control.copying, CopyLeaves, copy_steps};
ghost use Rattle.shm_table.specs.FetchHead.{Control.fetching_head, FetchHeadLeaves, fetch_head_steps};
ghost use Rattle.shm_table.specs.TakeHead.{Control.taking_head, TakeHeadLeaves, take_head_steps};
ghost use Rattle.shm_table.specs.RecvKey.{Control.receiving_key, RecvLeaves, recv_steps};
ghost use Rattle.shm_table.specs.SendKey.{Bound.{IsSendShort, own_steps}, Control.sending_key};
ghost use Rattle.shm_table.specs.{SendKey.{SendKeyLeaves, send_key_steps}, Enter.{EnterLeaves, Control.entering}};
ghost use Rattle.shm_table.specs.declared.fetch.Fetched.TheVariants as fetched;
ghost use Rattle.shm_count.specs.{Tear.Events.{Visit, frees}, declared.answer.UpFault.UpFault as AUpFault};
ghost use Rattle.shm_count.specs.declared.answer.EraSpent.{EraSpent as ASpent};
ghost use Rattle.shm_script.specs.declared.log.Answer.{Answer as AnAnswer};
ghost use Rattle.shm_script.specs.declared.log.Answer.TheVariants as answer;

/// A search took at most 2 word steps, and 2 for each entry whose key it read.
pub fn find_bound()
    ensures { (me : AMe) (a key : ℕ) (r0 r : AMemo) (tr : Trail) (es : List AnEvent) (b : AFound) → FindLeaves (finding me a key) r0 r tr es b → (ps : List Passed) × IsWhole me a key ps tr b × IsWithin (2 + 2 * keys_read ps b) tr }
{}

/// A new entry took at most the word steps of an allocation and 29 more, in format 2 32, and three more for each exchange that failed.
pub fn enter_bound()
    ensures { (me : AMe) (key v home first : ℕ) (r0 r : AMemo) (tr : Trail) (es : List AnEvent) (b : AnEntered) → EnterLeaves (entering me key v home first) r0 r tr es b → IsWithin (alloc_steps me.geometry.wide me.geometry.segments + 2 * up_steps me.geometry.wide + change_steps me.geometry.wide) tr }
{}

/// It takes at most 14 word steps, and 164 for each block that it freed or left on the way, in format 2 15 and 180.
pub fn replace_bound()
    ensures done { (me : AMe) (entry v : ℕ) (r0 r : AMemo) (tr : Trail) (es : List AnEvent) (z : Bool) → ReplaceLeaves (replacing me entry v) r0 r tr es (Ok z) → (vs : List Visit) × ReplaceEvents me entry v r0 es vs × IsWithin (1 + change_steps me.geometry.wide + tear_steps me.geometry.wide (frees es + length vs)) tr }
    ensures refused { (me : AMe) (entry v : ℕ) (r0 r : AMemo) (tr : Trail) (es : List AnEvent) (f : APutFault) → ReplaceLeaves (replacing me entry v) r0 r tr es (Err f) → IsWithin (1 + change_steps me.geometry.wide) tr }
{}

/// It takes at most 14 word steps, and 164 for each block that it freed or left on the way, in format 2 15 and 180.
pub fn unlink_bound()
    ensures done { (me : AMe) (entry before word : ℕ) (r0 r : AMemo) (tr : Trail) (es : List AnEvent) → UnlinkLeaves (unlinking me entry before word) r0 r tr es (Ok tt) → (vs : List Visit) × UnlinkEvents me entry before word es vs × IsWithin (1 + change_steps me.geometry.wide + tear_steps me.geometry.wide (frees es + length vs)) tr }
    ensures refused { (me : AMe) (entry before word : ℕ) (r0 r : AMemo) (tr : Trail) (es : List AnEvent) (f : AUpFault) → UnlinkLeaves (unlinking me entry before word) r0 r tr es (Err f) → IsWithin (1 + change_steps me.geometry.wide) tr }
{}

/// It takes at most 20 word steps, 2 for each key that it read, and 164 for each block that it freed or left on the way, in format 2 21 and
/// 180; that is within what a command may take.
pub fn del_bound()
    ensures own { (me : AMe) (key : ℕ) (r0 r : AMemo) (tr : Trail) (es : List AnEvent) (a : AnAnswer) → DelLeaves (deleting me key) r0 r tr es a → IsShort me key (λ k t. 19 + redo_steps me.geometry.wide + 2 * k + tear_steps me.geometry.wide t) r tr es }
    ensures command { (me : AMe) (key : ℕ) (r0 r : AMemo) (tr : Trail) (es : List AnEvent) (a : AnAnswer) → DelLeaves (deleting me key) r0 r tr es a → IsShort me key (command_steps me.geometry.wide me.geometry.segments) r tr es }
{}

/// The opening of a table took at most a word step for the home, those of an allocation, of a step up and of the drop of a root, with 164
/// more for each block that was freed, or is left as a zero-count block, in format 2 180.
pub fn open_table_bound()
    ensures done { (me : AMe) (r0 r : AMemo) (tr : Trail) (es : List AnEvent) → OpenLeaves (opening me) r0 r tr es (Ok tt) → IsWithin (1 + alloc_steps me.geometry.wide me.geometry.segments + up_steps me.geometry.wide + (8 + redo_steps me.geometry.wide) + tear_steps me.geometry.wide (frees es)) tr }
    ensures refused { (me : AMe) (r0 r : AMemo) (tr : Trail) (es : List AnEvent) (f : APutFault) → OpenLeaves (opening me) r0 r tr es (Err f) → (vs : List Visit) × OpenLeft me r0 r es vs f × IsWithin (1 + alloc_steps me.geometry.wide me.geometry.segments + up_steps me.geometry.wide + (8 + redo_steps me.geometry.wide) + tear_steps me.geometry.wide (frees es + length vs)) tr }
{}

/// It takes at most the word steps of its calls, 2 for each key that it read, and 164 for each block that it freed or left on the way, in
/// format 2 180; that is within what a command may take.
pub fn put_root_bound()
    ensures own { (me : AMe) (key v : ℕ) (r0 r : AMemo) (tr : Trail) (es : List AnEvent) (a : Result Bool APutFault) → PutRootLeaves (putting_root me key v) r0 r tr es a → IsPutShort me key (λ k t. put_root_steps me.geometry.wide me.geometry.segments + 2 * k + tear_steps me.geometry.wide t) r tr es }
    ensures command { (me : AMe) (key v : ℕ) (r0 r : AMemo) (tr : Trail) (es : List AnEvent) (a : Result Bool APutFault) → PutRootLeaves (putting_root me key v) r0 r tr es a → IsPutShort me key (command_steps me.geometry.wide me.geometry.segments) r tr es }
{}

/// It takes at most the word steps of its calls, 2 for each key that it read, and 164 for each block that it freed or left on the way, in
/// format 2 180; that is within what a command may take.
pub fn put_bound()
    ensures own { (me : AMe) (key n : ℕ) (r0 r : AMemo) (tr : Trail) (es : List AnEvent) (a : AnAnswer) → PutLeaves (putting me key n) r0 r tr es a → IsPutShort me key (λ k t. put_steps me.geometry.wide me.geometry.segments + 2 * k + tear_steps me.geometry.wide t) r tr es }
    ensures command { (me : AMe) (key n : ℕ) (r0 r : AMemo) (tr : Trail) (es : List AnEvent) (a : AnAnswer) → PutLeaves (putting me key n) r0 r tr es a → IsPutShort me key (command_steps me.geometry.wide me.geometry.segments) r tr es }
{}

/// It takes two word steps.
pub fn unlatch_bound()
    ensures { (me : AMe) (a : ℕ) (r0 r : AMemo) (tr : Trail) (es : List AnEvent) → Unlatched me a r0 r tr es → length tr ≡ 2 }
{}

/// It took at most 4 word steps, and 2 for each entry whose key it read, and three more for each exchange that failed: a try that found the
/// latch held is three word steps.
pub fn locate_bound()
    ensures { (me : AMe) (a key : ℕ) (r0 r : AMemo) (tr : Trail) (es : List AnEvent) (b : AFound) → Located me a key r0 r tr es b → (ps : List Passed) × LocateAsked me a key ps tr b × IsWithin (4 + 2 * keys_read ps b) tr }
{}

/// Where the key was missing it took at most 6 word steps, and 2 for each entry whose key it read; otherwise 7 and so many; and three more for
/// each exchange that failed.
pub fn get_bound()
    ensures missing { (me : AMe) (a key : ℕ) (r0 r : AMemo) (tr : Trail) (es : List AnEvent) → GetLeaves (getting me a key) r0 r tr es answer.Missing → (ps : List Passed) × GetAsked me a key ps tr answer.Missing × IsWithin (6 + 2 * keys_got ps answer.Missing) tr }
    ensures found { (me : AMe) (a key : ℕ) (r0 r : AMemo) (tr : Trail) (es : List AnEvent) (n v : ℕ) → GetLeaves (getting me a key) r0 r tr es (answer.Value n v) → (ps : List Passed) × GetAsked me a key ps tr (answer.Value n v) × IsWithin (7 + 2 * keys_got ps (answer.Value n v)) tr }
    ensures within { (me : AMe) (a key : ℕ) (r0 r : AMemo) (tr : Trail) (es : List AnEvent) (b : AnAnswer) → GetLeaves (getting me a key) r0 r tr es b → (ps : List Passed) × GetAsked me a key ps tr b × IsWithin (command_steps me.geometry.wide me.geometry.segments (keys_got ps b) 0) tr }
{}

/// Where an entry has the key it takes at most 32 word steps, in format 2 33, and 2 for each key that it read.
pub fn fetch_bound()
    ensures rooted { (me : AMe) (a key k v n : ℕ) (r0 r : AMemo) (tr : Trail) (es : List AnEvent) → FetchLeaves (fetching me a key) r0 r tr es (fetched.Rooted k v n) → (keys : ℕ) × HasSearch me a key keys tr × IsWithin (fetch_steps me.geometry.wide + 2 * keys) tr }
    ensures refused { (me : AMe) (a key : ℕ) (f : APutFault) (r0 r : AMemo) (tr : Trail) (es : List AnEvent) → FetchLeaves (fetching me a key) r0 r tr es (fetched.Refused f) → (keys : ℕ) × HasSearch me a key keys tr × IsWithin (fetch_steps me.geometry.wide + 2 * keys) tr }
    ensures steps { fetch_steps false ≡ 32 }
    ensures wide { fetch_steps true ≡ 33 }
{}

/// A copy takes at most the word steps of a put without its value block, 32 more, 2 for each key that it read in both tables, and 164 for
/// each block that it freed or left on the way, in format 2 33 and 180; that is within what a command may take.
pub fn copy_bound()
    ensures own { (me : AMe) (key a other : ℕ) (r0 r : AMemo) (tr : Trail) (es : List AnEvent) (b : AnAnswer) → CopyLeaves (copying me key a other) r0 r tr es b → IsCopyShort me key a other (λ k t. copy_steps me.geometry.wide me.geometry.segments + 2 * k + tear_steps me.geometry.wide t) r tr es }
    ensures command { (me : AMe) (key a other : ℕ) (r0 r : AMemo) (tr : Trail) (es : List AnEvent) (b : AnAnswer) → CopyLeaves (copying me key a other) r0 r tr es b → IsCopyShort me key a other (command_steps me.geometry.wide me.geometry.segments) r tr es }
{}

/// It takes at most 28 word steps, in format 2 29.
pub fn fetch_head_bound()
    ensures within { (me : AMe) (s : ℕ) (r0 r : AMemo) (tr : Trail) (es : List AnEvent) (b : AFetched) → FetchHeadLeaves (fetching_head me s) r0 r tr es b → IsWithin (fetch_head_steps me.geometry.wide) tr }
    ensures steps { fetch_head_steps false ≡ 28 }
    ensures wide { fetch_head_steps true ≡ 29 }
{}

/// It takes at most nine word steps, in format 2 ten.
pub fn take_head_bound()
    ensures within { (me : AMe) (s n b : ℕ) (r0 r : AMemo) (tr : Trail) (es : List AnEvent) (a : Result (Unit {0}) ASpent) → TakeHeadLeaves (taking_head me s n b) r0 r tr es a → IsWithin (take_head_steps me.geometry.wide) tr }
    ensures steps { take_head_steps false ≡ 9 }
    ensures wide { take_head_steps true ≡ 10 }
{}

/// It takes at most the word steps of a `PutRoot`, 46 more, 2 for each key that it read, and 164 for each block that it freed or left on
/// the way, in format 2 49 and 180; that is within what a command may take.
pub fn recv_bound()
    ensures own { (me : AMe) (s key : ℕ) (r0 r : AMemo) (tr : Trail) (es : List AnEvent) (b : AnAnswer) → RecvLeaves (receiving_key me s key) r0 r tr es b → IsPutShort me key (λ k t. recv_steps me.geometry.wide me.geometry.segments + 2 * k + tear_steps me.geometry.wide t) r tr es }
    ensures command { (me : AMe) (s key : ℕ) (r0 r : AMemo) (tr : Trail) (es : List AnEvent) (b : AnAnswer) → RecvLeaves (receiving_key me s key) r0 r tr es b → IsPutShort me key (command_steps me.geometry.wide me.geometry.segments) r tr es }
{}

/// It takes at most 18 word steps, in format 2 19, and 2 for each key that it read; that is within what a command may take.
pub fn send_key_bound()
    ensures own { (me : AMe) (i key : ℕ) (r0 r : AMemo) (tr : Trail) (es : List AnEvent) (a : AnAnswer) → SendKeyLeaves (sending_key me i key) r0 r tr es a → IsSendShort me key (own_steps me.geometry.wide) tr }
    ensures command { (me : AMe) (i key : ℕ) (r0 r : AMemo) (tr : Trail) (es : List AnEvent) (a : AnAnswer) → SendKeyLeaves (sending_key me i key) r0 r tr es a → IsSendShort me key (λ k. command_steps me.geometry.wide me.geometry.segments k 0) tr }
    ensures steps { send_key_steps false ≡ 18 }
    ensures wide { send_key_steps true ≡ 19 }
{}
