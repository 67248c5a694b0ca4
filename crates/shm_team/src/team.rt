//! A trace is run by clients on threads.

ghost use Rattle.std.specs.Prelude.{IfOk, List};
ghost use Rattle.shm_graph.specs.declared.run.Move.{Move as AMove};
ghost use Rattle.shm_plain.specs.Pools.{pool as pool_of};
ghost use Rattle.shm_team.specs.Rans.{IsTeamRun};

use crate::gate::Gate;
use crate::jobs::begin;
use crate::settling::settle;
use crate::worker::work_all;
use shm_play::cast::Cast;
use shm_play::play::Play;
use shm_pool::Closed;
use shm_script::{Log, Trace};
use std::alloc::{AllocError, Global};
use std::marker::Send;
use std::sync::Wait;
use std::thread::Threads;

/// What clients leave of a trace: the closed pool, and the logs of the clients in the order of the scripts.
#[derive(Drop)]
pub struct Ran {
    pub closed: Closed,
    pub logs: Vec<Log>,
}

/// Runs a trace by clients on threads, whoever plays its scripts.
fn run_team_of<A: Play + Send, R: Threads + Wait + Sync, G: Gate>(
    rt: &R,
    alloc: Global,
    trace: &Trace,
    gate: &G,
) -> Result<Ran, AllocError>
    ensures { IfOk result (λ r. (turns : List AMove) × IsTeamRun trace.now (pool_of r.closed.start r.closed.words r.closed.accounts turns) r.logs.items) }
{
    trace.in_grammar();
    let (pool, jobs) = begin::<A>(alloc, trace)?;
    let dones = work_all(rt, &pool, trace, gate, jobs)?;
    settle(rt, alloc, trace, pool, dones)
}

/// Runs a trace by clients on threads. For each script one worker runs the agents of its identity, in a thread of its own where one can be
/// made; where none can, the caller does that work itself. The order of the trace is not used. Then the caller visits each identity, one
/// alone: where its last agent died it is recovered, and then a client of it joins, takes all that waits for it, and leaves; and the pool
/// is closed.
///
/// No clause tells that nobody else works on the pool while an identity is visited, and so none tells that 2^40 word steps are enough. Where
/// an agent of the closing dies the call waits and never returns.
///
/// # Errors
///
/// Want of memory, and nothing else.
pub fn run_team<R: Threads + Wait + Sync, G: Gate>(
    rt: &R,
    alloc: Global,
    trace: &Trace,
    gate: &G,
) -> Result<Ran, AllocError>
    ensures { IfOk result (λ r. (turns : List AMove) × IsTeamRun trace.now (pool_of r.closed.start r.closed.words r.closed.accounts turns) r.logs.items) }
{
    run_team_of::<Cast, R, G>(rt, alloc, trace, gate)
}
