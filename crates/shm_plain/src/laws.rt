//! What holds of each pool.

ghost use Rattle.std.specs.Prelude.{◌≡◌, ◌≢◌, ℕ, ◌+◌, ◌<◌, ◌≤◌, List, [], length, ◌∷◌, ◌++◌, slice_index_or};
ghost use Rattle.std.specs.List.{Contains};
ghost use Rattle.shm_graph.specs.declared.{memo.Step.Step as AStep, run.Move.{Move as AMove, TheVariants.Word}};
ghost use Rattle.shm_graph.specs.declared.run.Start.{Start as AStart};
ghost use Rattle.shm_graph.specs.declared.spot.Spot.TheVariants.{Era, Home, QueueHead, Slot, Tail};
ghost use Rattle.shm_graph.specs.{declared.table.{Entry.Entry as AnEntry, Part.TheVariants.Table}, Agents.steps_made};
ghost use Rattle.shm_graph.specs.{Asks.at_of, Events.{Happens, graph_of}, Laws.event_on, References.references};
ghost use Rattle.shm_graph.specs.{Runs.{State, IsMove, Leads, first_state, memos_of, moved}, Sound.IsSound};
ghost use Rattle.shm_graph.specs.{Spots.{classes_in, see, spot_at}, MemoAfterStore.lane_with};
ghost use Rattle.shm_graph.specs.{Tables.{IsPartition, contents_of}, Views.{own_word, view}};
ghost use Rattle.shm_plain.specs.Lanes.{IsFirst, Wait, received_of, sent_of};
ghost use Rattle.shm_plain.specs.Pools.{Pool as APool, IsRun, after_fall, first_pool, memo_of};

use crate::closed::PlainClosed;
use crate::pool::PlainPool;

/// A pool is sound, and so was each state that its turns led to. Each turn was one that could be taken where it was taken, and each
/// word step was one event of the graph of references, which the memo and the spot tell.
pub fn turns_of_pool(pool: &PlainPool)
    ensures now { IsSound pool.now.start.geometry (see pool.now.start.geometry pool.now.words) (view (memos_of pool.now.accounts)) }
    ensures states { (before after : List AMove) (m : AMove) → pool.now.turns ≡ before ++ m ∷ after → (s : State) × Leads pool.now.start.geometry (first_state pool.now.start) before s × IsMove s m × IsSound pool.now.start.geometry (see pool.now.start.geometry (moved s m).words) (view (memos_of (moved s m).accounts)) }
    ensures events { (before after : List AMove) (t : AStep) → pool.now.turns ≡ before ++ Word t ∷ after → (s : State) × Leads pool.now.start.geometry (first_state pool.now.start) before s × (let g = pool.now.start.geometry in let p = spot_at g (classes_in g s.words) (at_of t.ask) in let s2 = moved s (Word t) in Happens g (see g s.words) (event_on (memos_of s.accounts t.me.who) t p) (graph_of g (see g s.words) (view (memos_of s.accounts))) (graph_of g (see g s2.words) (view (memos_of s2.accounts)))) }
{
    // for the proof: its turns lead to the words and accounts
    pool.geometry();
}

/// In a pool what each identity received from another one is a front of what that one sent to it, and at most 8 items wait. The head of
/// their queue says how many were received, and the tail how many were sent.
pub fn queues_of_pool(pool: &PlainPool)
    ensures queue_head { (s c : ℕ) → s < pool.now.start.geometry.clients → c < pool.now.start.geometry.clients → s ≢ c → (items : List ℕ) × Wait pool.now s c items × (length items ≤ 8) }
    ensures head { (s c : ℕ) → s < pool.now.start.geometry.clients → c < pool.now.start.geometry.clients → s ≢ c → own_word (memo_of pool.now c).own (QueueHead s c) ≡ length (received_of pool.now s c) }
    ensures tail { (s c : ℕ) → s < pool.now.start.geometry.clients → c < pool.now.start.geometry.clients → s ≢ c → own_word (memo_of pool.now s).own (Tail s c) ≡ length (sent_of pool.now s c) }
{
    // for the proof: its turns lead to the words and accounts
    pool.geometry();
}

/// In a pool to which its turns lead an item that is known in the slot at a head is the first one that waits. One that joined what was received
/// while its sender did nothing was the first one before. No two items of a queue are the first one.
pub fn first_items()
    ensures known { (p : APool) → IsRun p → (s c k b : ℕ) → s < p.start.geometry.clients → c < p.start.geometry.clients → s ≢ c → Contains (memo_of p c).known (record { spot = Slot s c k; value = b }) → IsFirst p s c b }
    ensures received { (p q : APool) → IsRun q → (s c b : ℕ) → s < q.start.geometry.clients → c < q.start.geometry.clients → s ≢ c → memo_of q s ≡ memo_of p s → (memo_of q c).received ≡ lane_with (memo_of p c).received s b → IsFirst p s c b }
    ensures one { (p : APool) (s c b d : ℕ) → IsFirst p s c b → IsFirst p s c d → b ≡ d }
{}

/// In a pool to which its turns lead each own era is at least the first era, and at most that and the word steps that the agents of its
/// identity have made.
pub fn own_eras_of_runs()
    ensures least { (p : APool) → IsRun p → (c : ℕ) → c < p.start.geometry.clients → p.start.first_era ≤ own_word (memo_of p c).own (Era c c) }
    ensures most { (p : APool) → IsRun p → (c : ℕ) → c < p.start.geometry.clients → own_word (memo_of p c).own (Era c c) ≤ p.start.first_era + steps_made (memo_of p c) }
{}

/// What pools count of word steps: in a first pool no identity has made one, and a death leaves what each has made. What a call adds
/// is `made` of `Ran`.
pub fn steps_of_pools()
    ensures first { (s : AStart) (c : ℕ) → steps_made (memo_of (first_pool s) c) ≡ 0 }
    ensures falls { (p : APool) (c d : ℕ) → steps_made (memo_of (after_fall p c) d) ≡ steps_made (memo_of p d) }
{}

/// In a closed pool that was made for tables the words hold the partition of each identity that is a part of its memo.
pub fn table_of_closed(closed: &PlainClosed)
    ensures { (c : ℕ) → c < closed.now.start.geometry.clients → (chains : List (List AnEntry)) → (memo_of closed.now c).part ≡ Table chains → let w = see closed.now.start.geometry closed.now.words in IsPartition (contents_of closed.now.start.geometry.wide w (references closed.now.start.geometry.wide w)) c (w (Home c)) (λ b. slice_index_or chains b []) }
{
    // for the proof: its turns lead to the words and accounts, and the words are clean
    closed.geometry();
}
