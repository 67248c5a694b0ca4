//! What is read off the calls of a client most often, and what a closed pool says of two identities.

ghost use Rattle.std.specs.Prelude.{◌≡◌, ◌≢◌, ◌<◌, ℕ, List, [], Ok, Result, take, slice_index_or};
ghost use Rattle.shm_graph.specs.declared.run.{Account.Account as AnAccount, Start.Start as AStart};
ghost use Rattle.shm_graph.specs.{declared.spot.Spot.TheVariants.QueueHead, Runs.account_at, Spots.see};
ghost use Rattle.shm_alloc.specs.declared.alloc.AllocFault.{AllocFault as AnAllocFault};
ghost use Rattle.shm_count.specs.declared.answer.Made.{Made as AMade};
ghost use Rattle.shm_pool.specs.{declared.reply.Reply.TheVariants.Done, Called.{HasAllocated, HasRoot}};
ghost use Rattle.shm_pool.specs.{Endings.ClientMayLeave, Tokens.{Acting, IsClosedRun}};

use shm_alloc::alloc_keeps;

/// A block that a client made is named by the root that is told, and in reach. Whatever an allocation answers, a client that might leave before may
/// leave.
pub fn alloc_gives()
    ensures made { (n before left : ℕ) (xs : List ℕ) (t t' : Acting) (x : AMade) → HasAllocated n xs t t' before left (Done (Ok x)) → HasRoot x t' }
    ensures leaves { (n before left : ℕ) (xs : List ℕ) (t t' : Acting) (a : Result AMade AnAllocFault) → HasAllocated n xs t t' before left (Done a) → ClientMayLeave t.of t.account → ClientMayLeave t'.of t'.account }
{
    alloc_keeps();
}

/// In a closed pool what the identity `j` received from another one, `i`, is a front of what that one sent to it: as many blocks as the head of their
/// queue says.
pub fn closed_queues()
    ensures { (s : AStart) (ws : List ℕ) (es : List AnAccount) (i j : ℕ) → IsClosedRun s ws es → i < s.geometry.clients → j < s.geometry.clients → i ≢ j → slice_index_or (account_at es j).memo.received i [] ≡ take (see s.geometry ws (QueueHead i j)) (slice_index_or (account_at es i).memo.sent j []) }
{}
