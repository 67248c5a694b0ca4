//! What the calls of a shared pool tell.

ghost use Rattle.std.specs.Prelude.{◌≡◌, ℕ, Bool, List, false, length, Err, Ok, Result};
ghost use Rattle.shm_alloc.specs.declared.{alloc.AllocFault.AllocFault as AnAllocFault, request.Near.Near as ANear};
ghost use Rattle.shm_count.specs.declared.answer.Made.{Made as AMade};
ghost use Rattle.shm_graph.specs.declared.{ask.Life.Life as ALife, run.Account.Account as AnAccount};
ghost use Rattle.shm_recover.specs.{Leave.{Control.leaving, LeaveLeaves}, Recover.{Control.recovering, RecoverLeaves}};
ghost use Rattle.shm_script.specs.declared.{line.Line.Line as ALine, log.Answer.Answer as AnAnswer};
ghost use Rattle.shm_table.specs.Command.{Maps.MapSoFar, Sends.SentSoFar};
ghost use Rattle.shm_pool.specs.declared.reply.Reply.{Reply as AReply, TheVariants.{Died, Done}};
ghost use Rattle.shm_pool.specs.declared.token.Cause.{Cause as ACause};
ghost use Rattle.shm_pool.specs.{Called.{HasAllocatedNear, HasCalled, HasCommanded}, Doing.HasDone};
ghost use Rattle.shm_pool.specs.{Endings.{HasLeft, HasNotLeft, HasNotRecovered, HasRecovered, spent}, Rescues.Rescuing};
ghost use Rattle.shm_pool.specs.Tokens.{Acting, Its, Token, me_of, recovering_account};
ghost use Rattle.shm_pool.specs.declared.token.Cause.TheVariants as cause;
ghost use Rattle.shm_async.specs.Rescued.{HasStepped, account_by};
ghost use Rattle.shm_outcomes.specs.{Happened.HasMadeSo, Turning.AreTurns, Written.IsWritten};

use plans::Plan;
use shm_graph::Operation;

/// Each word step of a whole call of a shared pool, and of one that was cut off, is one turn of the pool, in a state that is held: of an operation
/// that a client runs, of its named calls, of a leaving and of a recovery, also one that is polled. The account at the end is what these steps make of
/// the one before, and they are the word steps that the call took from the life.
pub fn calls_are_turns<O: Operation, P: Plan>()
    ensures operations { (m : O) (t t' : Acting) (before left : ℕ) (o : AReply O.Answer) → HasDone O.control O.does O.leaves O.rests m t t' before left o → t.dead ≡ false → AreTurns t.account t'.account before left }
    ensures plans { (p : P) (t t' : Acting) (before left : ℕ) (o : AReply P.Answer) → HasCalled P.Call.control P.plan p t t' before left o → t.dead ≡ false → AreTurns t.account t'.account before left }
    ensures allocations { (n : ℕ) (xs : List ℕ) (near : ANear) (t t' : Acting) (before left : ℕ) (o : AReply (Result AMade AnAllocFault)) → HasAllocatedNear n xs near t t' before left o → t.dead ≡ false → AreTurns t.account t'.account before left }
    ensures commands { (l : ALine) (t t' : Acting) (before left : ℕ) (o : AReply AnAnswer) → HasCommanded l t t' before left o → t.dead ≡ false → AreTurns t.account t'.account before left }
    ensures left { (p : Its) (e : AnAccount) (before left : ℕ) (t : Token) → HasLeft p e before left t → AreTurns e t.account before left }
    ensures not_left { (p : Its) (e : AnAccount) (before left : ℕ) (x : ACause) (t : Token) → HasNotLeft p e before left x t → AreTurns e t.account before left }
    ensures recovered { (p : Its) (e : AnAccount) (before left : ℕ) (t : Token) → HasRecovered p e before left t → AreTurns (recovering_account e) t.account before left }
    ensures not_recovered { (p : Its) (e : AnAccount) (before left : ℕ) (x : ACause) (t : Token) → HasNotRecovered p e before left x t → AreTurns (recovering_account e) t.account before left }
    ensures polled { (over : Bool) (n : ℕ) (u v : Rescuing) (before left : ALife) → HasStepped over n u v before left → AreTurns (account_by u) (account_by v) before.left left.left }
{}

/// What calls of a shared pool did. A leaving and a recovery that ended, or met a spent era, left what their pages say, by the events that happened. A
/// command in which the client died has used up the life, and the client's map and what it has sent are as after the answer that it showed. A block
/// that was allocated has the tag, the empty reference words and the plain words that were asked for.
pub fn effects_tell()
    ensures left { (p : Its) (e : AnAccount) (before left : ℕ) (t : Token) → HasLeft p e before left t → HasMadeSo (LeaveLeaves (leaving (me_of p e))) e t.account (Ok tt) }
    ensures not_left { (p : Its) (e : AnAccount) (before left era : ℕ) (t : Token) → HasNotLeft p e before left (cause.EraSpent era) t → HasMadeSo (LeaveLeaves (leaving (me_of p e))) e t.account (Err (spent era)) }
    ensures recovered { (p : Its) (e : AnAccount) (before left : ℕ) (t : Token) → HasRecovered p e before left t → HasMadeSo (RecoverLeaves (recovering (me_of p e))) (recovering_account e) t.account (Ok tt) }
    ensures not_recovered { (p : Its) (e : AnAccount) (before left era : ℕ) (t : Token) → HasNotRecovered p e before left (cause.EraSpent era) t → HasMadeSo (RecoverLeaves (recovering (me_of p e))) (recovering_account e) t.account (Err (spent era)) }
    ensures died { (l : ALine) (t t' : Acting) (before left : ℕ) → HasCommanded l t t' before left Died → t.dead ≡ false → (left ≡ 0) × MapSoFar l t'.effect t.account.memo t'.account.memo × SentSoFar l t'.effect t.account.memo t'.account.memo }
    ensures allocated { (n : ℕ) (xs : List ℕ) (near : ANear) (t t' : Acting) (before left : ℕ) (x : AMade) → HasAllocatedNear n xs near t t' before left (Done (Ok x)) → IsWritten (me_of t.of t.account) n xs x.block t'.account.memo }
{}
