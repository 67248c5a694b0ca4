//! The closing of a pool that threads shared: each identity is visited, one alone.

ghost use Rattle.std.specs.{Prelude.{◌≡◌, ◌++◌, ◌∷◌, [], ℕ, List, IfOk, false, true}, List.AllByRecursion};
ghost use Rattle.shm_graph.specs.declared.memo.Fate.TheVariants.{Acts, Ended};
ghost use Rattle.shm_graph.specs.declared.memo.Kind.TheVariants.{Client as AClient, Recoverer as ARecoverer};
ghost use Rattle.shm_graph.specs.declared.{memo.Status.TheVariants.Gone, run.Account.Account as AnAccount};
ghost use Rattle.shm_graph.specs.{Agents.acts, Runs.account_died};
ghost use Rattle.shm_queue.specs.Drain.Control.{drain_line};
ghost use Rattle.shm_recover.specs.{Join.join_line, Leave.Control.leave_line, Recover.Control.recover_line};
ghost use Rattle.shm_pool.specs.{Calls.IsBetween, Endings.ClientMayLeave};
ghost use Rattle.shm_team.specs.{declared.done.Done.Done as ADone, Lefts.{IsGivenBack, account_in, is_corpse}};
ghost use Rattle.shm_team.specs.Visits.{AreVisits, HasRun, HasStayed, IsVisited};

use crate::done::Done;
use crate::left::Left;
use shm_graph::Life;
use shm_pool::{Client, Corpse, Reply, SharedPool, Vacant};
use shm_script::Log;
use std::alloc::{AllocError, Global};
use std::sync::Wait;

/// How many word steps the recovery of an identity has in a closing, and how many its join, drain and leaving have together.
const LIFE: u64 = 1 << 40;

/// Waits and never returns.
fn never<R: Wait, T>(rt: &R) -> T
    ensures { ⊥ }
{
    for _ in rt.forever() {}
    unreachable!()
}

/// The identity is recovered. Where its recoverer dies this never returns.
fn recover<R: Wait>(rt: &R, pool: &SharedPool, corpse: Corpse) -> Vacant
    requires of { corpse.of ≡ pool.now }
    requires acts { acts corpse.account.memo ≡ true }
    ensures of { (result.of ≡ corpse.of) × (result.account.who ≡ corpse.account.who) }
    ensures gone { result.account.memo.status ≡ Gone }
    ensures ran { HasRun ARecoverer (recover_line ∷ []) Ended (account_died corpse.account) result.account }
    ensures stayed { HasStayed (account_died corpse.account) result.account }
{
    // for the proof: the account stood
    corpse.client();
    match corpse.recover(pool, &mut Life::of(LIFE)) {
        Ok(token) => token,
        Err(_) => never(rt),
    }
}

/// A client of the identity joins.
fn join<R: Wait>(rt: &R, pool: &SharedPool, token: Vacant, life: &mut Life) -> Client
    requires of { token.of ≡ pool.now }
    ensures of { (result.of ≡ token.of) × (result.account.who ≡ token.account.who) }
    ensures here { result.dead ≡ false }
    ensures between { IsBetween result.account }
    ensures may { ClientMayLeave result.of result.account }
    ensures ran { HasRun AClient (join_line ∷ []) Acts token.account result.account }
    ensures stayed { HasStayed token.account result.account }
{
    match token.join(pool, life) {
        Ok(client) => client,
        Err(_) => never(rt),
    }
}

/// The identity takes all that waits for it.
fn drain<R: Wait>(rt: &R, pool: &SharedPool, client: &mut Client, life: &mut Life)
    requires of { client.old.of ≡ pool.now }
    requires here { client.old.dead ≡ false }
    requires between { IsBetween client.old.account }
    requires may { ClientMayLeave client.old.of client.old.account }
    ensures of { (client.new.of ≡ client.old.of) × (client.new.account.who ≡ client.old.account.who) }
    ensures here { client.new.dead ≡ false }
    ensures may { ClientMayLeave client.new.of client.new.account }
    ensures ran { (e : AnAccount) (lines : List (List ℕ)) → HasRun AClient lines Acts e client.old.account → HasRun AClient (lines ++ drain_line ∷ []) Acts e client.new.account }
    ensures stayed { HasStayed client.old.account client.new.account }
{
    match client.drain(pool, life) {
        Reply::Done(Ok(_)) => {}
        _ => never(rt),
    }
}

/// The client leaves.
fn leave<R: Wait>(rt: &R, pool: &SharedPool, client: Client, life: &mut Life) -> Vacant
    requires of { client.of ≡ pool.now }
    requires here { client.dead ≡ false }
    requires may { ClientMayLeave client.of client.account }
    ensures of { (result.of ≡ client.of) × (result.account.who ≡ client.account.who) }
    ensures gone { result.account.memo.status ≡ Gone }
    ensures ran { (e : AnAccount) (lines : List (List ℕ)) → HasRun AClient lines Acts e client.account → HasRun AClient (lines ++ leave_line ∷ []) Ended e result.account }
    ensures stayed { HasStayed client.account result.account }
{
    match client.leave(pool, life) {
        Ok(token) => token,
        Err(_) => never(rt),
    }
}

/// A client of the identity joins, takes all that waits for it, and leaves.
fn enter<R: Wait>(rt: &R, pool: &SharedPool, token: Vacant) -> Vacant
    requires of { token.of ≡ pool.now }
    ensures of { (result.of ≡ token.of) × (result.account.who ≡ token.account.who) }
    ensures gone { result.account.memo.status ≡ Gone }
    ensures ran { HasRun AClient (join_line ∷ drain_line ∷ leave_line ∷ []) Ended token.account result.account }
    ensures stayed { HasStayed token.account result.account }
{
    let mut life = Life::of(LIFE);
    let mut client = join(rt, pool, token, &mut life);
    drain(rt, pool, &mut client, &mut life);
    leave(rt, pool, client, &mut life)
}

/// The identity is recovered where its last agent died; then a client of it joins, takes all that waits for it, and leaves. Where one of these
/// agents dies this never returns.
fn visit<R: Wait>(rt: &R, pool: &SharedPool, left: Left) -> Vacant
    requires left { IsGivenBack pool.now left }
    ensures of { result.of ≡ pool.now }
    ensures visited { IsVisited (is_corpse left) (account_in left) result.account }
{
    match left {
        Left::Vacant(token) => enter(rt, pool, token),
        Left::Corpse(corpse) => {
            let token = recover(rt, pool, corpse);
            enter(rt, pool, token)
        }
    }
}

/// Each identity is visited, one after the other. The logs and the tokens are in the order of the identities.
pub(crate) fn visit_all<R: Wait>(
    rt: &R,
    alloc: Global,
    pool: &SharedPool,
    dones: Vec<Done>,
) -> Result<(Vec<Option<Log>>, Vec<Vacant>), AllocError>
    requires left { AllByRecursion (λ (d : ADone). IsGivenBack pool.now d.left) dones.items }
    ensures visits { IfOk result (λ r. AreVisits pool.now dones.items r.0.items r.1.items) }
{
    let mut logs = Vec::new(alloc);
    let mut tokens = Vec::new(alloc);
    for done in dones {
        let Done { log, left } = done;
        let token = visit(rt, pool, left);
        logs.push(log)?;
        tokens.push(token)?;
    }
    Ok((logs, tokens))
}
