//! A worker: the agents of an identity at work, one after the other, until none of them has anything left to do.

ghost use Rattle.std.specs.Prelude.{◌≡◌, ◌<◌, ℕ, IfOk, length, slice_index_or};
ghost use Rattle.shm_graph.specs.Runs.{first_account};
ghost use Rattle.shm_agents.specs.Agents.{AgentsStand};
ghost use Rattle.shm_team.specs.{declared.jobs.Job.Job as AJob, Dones.{IsDone, IsFinished}, Jobs.{AreDone, IsJob}};

use crate::done::{Done, Finish, hand_back};
use crate::gate::Gate;
use crate::jobs::Job;
use crate::left::Left;
use shm_agents::agents::Standing;
use shm_play::play::Play;
use shm_play::players::Players;
use shm_pool::{Post, SharedPool, Vacant};
use shm_script::{Script, Trace};
use std::alloc::AllocError;
use std::marker::Send;
use std::thread;
use std::thread::Threads;

/// The agents of a script work on the pool until none of them has anything left to do. The gate is passed before each command.
fn work<A: Play, G: Gate>(
    pool: &SharedPool,
    script: &Script,
    gate: &G,
    mut agents: Players<A>,
    token: Vacant,
) -> Finish
    requires of { token.of ≡ pool.now }
    requires first { token.account ≡ first_account token.of.start token.account.who }
    requires me { agents.me.who ≡ token.account.who }
    requires stands { AgentsStand token.of.start script.now agents token.account }
    ensures { IsFinished token.of script.now result.log result.token }
{
    let mut post = Post::new(pool, token);
    let mut passed: u32 = 0;
    while agents.standing() == Standing::AtWork {
        if agents.is_at_command() && passed as usize <= agents.answered() {
            gate.pass(agents.client(), passed);
            passed = passed.saturating_add(1);
        }
        agents.turn(script, &mut post);
    }
    hand_back(agents, post)
}

/// One worker. Where the identity has no script it gives the token back as it is.
fn work_at<A: Play, G: Gate>(pool: &SharedPool, trace: &Trace, gate: &G, job: Job<A>) -> Done
    requires { IsJob trace.now pool.now job.token.account.who job }
    ensures { IsDone trace.now pool.now job.token.account.who result }
{
    let Job { agents, token } = job;
    match agents {
        None => Done {
            log: None,
            left: Left::Vacant(token),
        },
        Some(agents) => {
            let at = agents.script();
            let Finish { log, token } = work(pool, &trace.scripts[at], gate, agents, token);
            Done {
                log: Some(log),
                left: token,
            }
        }
    }
}

/// A worker for each job, each in a thread of its own where one can be made. Where none can, the caller does that work itself.
pub(crate) fn work_all<A: Play + Send, R: Threads + Sync, G: Gate>(
    rt: &R,
    pool: &SharedPool,
    trace: &Trace,
    gate: &G,
    jobs: Vec<Job<A>>,
) -> Result<Vec<Done>, AllocError>
    requires { (i : ℕ) (j : AJob A) → i < length jobs.items → let x : AJob A = slice_index_or jobs.items i j in IsJob trace.now pool.now x.token.account.who x }
    ensures { IfOk result (λ v. AreDone trace.now pool.now jobs.items v.items) }
{
    thread::map_vec(
        rt,
        jobs,
        &|job: Job<A>| -> Done
            requires { IsJob trace.now pool.now job.token.account.who job }
            ensures { IsDone trace.entry.now pool.entry.now job.token.account.who result }
        { work_at(pool, trace, gate, job) },
    )
}
