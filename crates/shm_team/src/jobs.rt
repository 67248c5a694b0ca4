//! What there is to do of a trace, by identity.

ghost use Rattle.std.specs.{Prelude.{◌≡◌, ◌<◌, IfOk, length}, List.AllByRecursion};
ghost use Rattle.shm_words.specs.Layout.{GeometryFits};
ghost use Rattle.shm_pool.specs.Tokens.{Its as APool, Token as AToken, first_tokens};
ghost use Rattle.shm_replay.specs.Replays.{start_of};
ghost use Rattle.shm_team.specs.Jobs.{AreJobs};

use shm_play::play::Play;
use shm_play::players::Players;
use shm_pool::{SharedPool, Vacant};
use shm_replay::replaying::{agents_of, geometry_of};
use shm_script::Trace;
use shm_words::Geometry;
use std::alloc::{AllocError, Global};

/// The agents of an identity before their first word step, if it has a script; and its token.
#[derive(Drop)]
pub struct Job<A: Play> {
    pub agents: Option<Players<A>>,
    pub token: Vacant,
}

/// For each identity the agents of its script, if it has one, and its token.
fn all_jobs<A: Play>(
    alloc: Global,
    geometry: Geometry,
    trace: &Trace,
    tokens: Vec<Vacant>,
) -> Result<Vec<Job<A>>, AllocError>
    requires geometry { geometry ≡ (start_of trace.now).geometry }
    requires fits { GeometryFits geometry }
    requires who { AllByRecursion (λ (k : AToken). k.account.who < trace.now.clients) tokens.items }
    ensures many { IfOk result (λ v. length v.items ≡ length tokens.items) }
    ensures jobs { IfOk result (λ v. (p : APool) → tokens.items ≡ first_tokens p 0 trace.now.clients → p.start ≡ start_of trace.now → AreJobs trace.now p 0 v.items) }
{
    let mut jobs = Vec::new(alloc);
    for token in tokens {
        let agents = agents_of(alloc, geometry, trace, token.client())?;
        jobs.push(Job { agents, token })?;
    }
    Ok(jobs)
}

/// The pool of a trace, and what there is to do of each identity, in order.
///
/// # Errors
///
/// Want of memory, and nothing else.
pub fn begin<A: Play>(alloc: Global, trace: &Trace) -> Result<(SharedPool, Vec<Job<A>>), AllocError>
    ensures start { IfOk result (λ r. r.0.start ≡ start_of trace.now) }
    ensures many { IfOk result (λ r. length r.1.items ≡ trace.now.clients) }
    ensures jobs { IfOk result (λ r. AreJobs trace.now r.0 0 r.1.items) }
{
    let geometry = geometry_of(trace);
    let (pool, tokens) = SharedPool::make(alloc, geometry, 1, true)?;
    let jobs = all_jobs(alloc, geometry, trace, tokens)?;
    Ok((pool, jobs))
}
