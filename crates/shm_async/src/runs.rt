//! A trace is run by clients that are polled on one thread.

ghost use Rattle.std.specs.Prelude.{◌≡◌, ◌*◌, ◌≤◌, IfOk, List, length};
ghost use Rattle.shm_graph.specs.declared.run.Move.{Move as AMove};
ghost use Rattle.shm_plain.specs.Pools.{pool as pool_of};
ghost use Rattle.shm_replay.specs.Replays.{start_of};
ghost use Rattle.shm_team.specs.{Dones.AreDones, Jobs.AreJobs, Rans.IsTeamRun};
ghost use Rattle.shm_async.specs.{Limited.IsLimitedRun, LimitedMembers.{AreLimited, AreLimitedDones}};

use crate::limits::{Limit, LimitedMembers};
use crate::members::{all_members, finish_all};
use crate::polls::{Members, Which, poll_all};
use shm_play::cast::Cast;
use shm_play::play::Play;
use shm_pool::SharedPool;
use shm_script::Trace;
use shm_team::{Done, Job, Ran, begin, settle};
use std::alloc::{AllocError, AllocGlobal, Global};
use std::random::RandomSource;
use std::sync::Wait;

/// An executor polls the identities of a trace, and where it gives up the caller makes the turns that are left.
fn poll_jobs<A: Play, R: Wait + RandomSource + AllocGlobal>(
    rt: &R,
    alloc: Global,
    pool: &SharedPool,
    trace: &Trace,
    jobs: Vec<Job<A>>,
    q: u32,
) -> Result<Vec<Done>, AllocError>
    requires turns { 1 ≤ q }
    requires many { length jobs.items ≡ trace.now.clients }
    requires jobs { AreJobs trace.now pool.now 0 jobs.items }
    ensures many { IfOk result (λ v. length v.items ≡ trace.now.clients) }
    ensures dones { IfOk result (λ v. AreDones trace.now pool.now 0 v.items) }
{
    let members = all_members(alloc, pool, trace, jobs, q)?;
    let which = Which { pool, trace };
    let Members { members } = poll_all(rt, &which, Members { members });
    finish_all(alloc, pool, trace, members)
}

/// An executor polls them, and where it gives up the caller makes all that is left.
fn poll_out<'p, A: Play, R: Wait + RandomSource + AllocGlobal>(
    rt: &R,
    alloc: Global,
    limit: &Limit<'p>,
    members: LimitedMembers<'p, A>,
) -> Result<Vec<Done>, AllocError>
    requires { AreLimited limit.now.trace.now limit.now.pool.now limit.now.turns members }
    ensures many { IfOk result (λ v. length v.items ≡ limit.now.trace.now.clients) }
    ensures dones { IfOk result (λ v. AreLimitedDones limit.now.trace.now limit.now.pool.now 0 limit.now.turns v.items) }
{
    poll_all(rt, limit, members).dones(alloc, limit)
}

/// The same, where those are cut after `limit` polls that have turns left.
fn poll_limit<A: Play, R: Wait + RandomSource + AllocGlobal>(
    rt: &R,
    alloc: Global,
    pool: &SharedPool,
    trace: &Trace,
    jobs: Vec<Job<A>>,
    q: u32,
    limit: u32,
) -> Result<Vec<Done>, AllocError>
    requires turns { (1 ≤ q) × (q ≤ 1000000) }
    requires polls { (1 ≤ limit) × (limit ≤ 1000000) }
    requires start { pool.now.start ≡ start_of trace.now }
    requires many { length jobs.items ≡ trace.now.clients }
    requires jobs { AreJobs trace.now pool.now 0 jobs.items }
    ensures many { IfOk result (λ v. length v.items ≡ trace.now.clients) }
    ensures dones { IfOk result (λ v. AreLimitedDones trace.now pool.now 0 (q * limit) v.items) }
{
    let turns = q as u64 * limit as u64;
    let members = LimitedMembers::of(alloc, pool, trace, jobs, q, limit)?;
    poll_out(rt, alloc, &Limit { pool, trace, turns }, members)
}

/// Runs a trace by clients that are polled on this thread, whoever plays its scripts.
fn run_async_of<A: Play, R: Wait + RandomSource + AllocGlobal>(
    rt: &R,
    alloc: Global,
    trace: &Trace,
    q: u32,
) -> Result<Ran, AllocError>
    requires { (1 ≤ q) × (q ≤ 1000000) }
    ensures { IfOk result (λ r. (turns : List AMove) × IsTeamRun trace.now (pool_of r.closed.start r.closed.words r.closed.accounts turns) r.logs.items) }
{
    trace.in_grammar();
    let (pool, jobs) = begin::<A>(alloc, trace)?;
    let dones = poll_jobs(rt, alloc, &pool, trace, jobs, q)?;
    settle(rt, alloc, trace, pool, dones)
}

/// Runs a trace under a limit, whoever plays its scripts.
fn run_limited_of<A: Play, R: Wait + RandomSource + AllocGlobal>(
    rt: &R,
    alloc: Global,
    trace: &Trace,
    q: u32,
    limit: u32,
) -> Result<Ran, AllocError>
    requires turns { (1 ≤ q) × (q ≤ 1000000) }
    requires polls { (1 ≤ limit) × (limit ≤ 1000000) }
    ensures { IfOk result (λ r. (turns : List AMove) × IsLimitedRun trace.now (q * limit) (pool_of r.closed.start r.closed.words r.closed.accounts turns) r.logs.items) }
{
    trace.in_grammar();
    let (pool, jobs) = begin::<A>(alloc, trace)?;
    let dones = poll_limit(rt, alloc, &pool, trace, jobs, q, limit)?;
    settle(rt, alloc, trace, pool, dones)
}

/// Runs a trace by clients that are polled on this thread. There is one future for each script; one future polls each of them that is not
/// ready yet, once per poll and in the order of the identities, and a poll gives an identity `q` turns, from 1 to 1,000,000. Where the
/// executor gives up, the caller makes the turns that are left. The order of the trace is not used. Then the pool is settled, as after
/// clients on threads: an agent of the closing that dies waits, and never returns.
///
/// # Errors
///
/// Want of memory, and nothing else.
pub fn run_async<R: Wait + RandomSource + AllocGlobal>(
    rt: &R,
    alloc: Global,
    trace: &Trace,
    q: u32,
) -> Result<Ran, AllocError>
    requires { (1 ≤ q) × (q ≤ 1000000) }
    ensures { IfOk result (λ r. (turns : List AMove) × IsTeamRun trace.now (pool_of r.closed.start r.closed.words r.closed.accounts turns) r.logs.items) }
{
    run_async_of::<Cast, R>(rt, alloc, trace, q)
}

/// The same, where the future of an identity that is not ready after `limit` polls, from 1 to 1,000,000, is cancelled, and a recovery of
/// the identity with a life of 2^40 word steps takes its place, which is polled likewise. Further numbers of its life line are not used.
///
/// # Errors
///
/// Want of memory, and nothing else.
pub fn run_limited<R: Wait + RandomSource + AllocGlobal>(
    rt: &R,
    alloc: Global,
    trace: &Trace,
    q: u32,
    limit: u32,
) -> Result<Ran, AllocError>
    requires turns { (1 ≤ q) × (q ≤ 1000000) }
    requires polls { (1 ≤ limit) × (limit ≤ 1000000) }
    ensures { IfOk result (λ r. (turns : List AMove) × IsLimitedRun trace.now (q * limit) (pool_of r.closed.start r.closed.words r.closed.accounts turns) r.logs.items) }
{
    run_limited_of::<Cast, R>(rt, alloc, trace, q, limit)
}
