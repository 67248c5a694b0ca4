//! A worker: the client of an identity at work until it has left or died; then its corpse is put into the morgue.

ghost use Rattle.std.specs.Prelude.{◌≡◌, ◌<◌, ◌∷◌, ℕ, IfOk, MatchOption, Some, [], length, slice_get, slice_index_or, true};
ghost use Rattle.std.specs.List.{Contains};
ghost use Rattle.shm_graph.specs.Runs.{first_account};
ghost use Rattle.shm_agents.specs.Agents.{AgentsStand, is_client};
ghost use Rattle.shm_pool.specs.{Posts.IsPosted, Tokens.Its as APool};
ghost use Rattle.shm_script.specs.Values.{Traced as ATrace};
ghost use Rattle.shm_team.specs.{Dones.IsDone, Jobs.AreAgentsOf, Working.AreAtWork};
ghost use Rattle.shm_morgue.specs.{Crew.{HasWorked, IsTask, WasLeft}, Dead.{HasParted, IsRescue}, Entries.entry};
ghost use Rattle.shm_morgue.specs.Slots.{IsEnough};

use crate::gate::Gate;
use crate::morgue::{Morgue, NoRoom, Porter};
use crate::rescue::rescue;
use crate::rule::Pools;
use shm_agents::agents::Standing;
use shm_play::play::Play;
use shm_play::players::Players;
use shm_pool::{Corpse, Post, SharedPool, Vacant};
use shm_script::{Log, Script, Trace};
use shm_team::{Done, Finish, Job, Left, hand_back};
use std::alloc::AllocError;
use std::marker::{Send, Sync};
use std::sync::Wait;
use std::sync::atomic::{AtomicU32, Ordering};
use std::thread;
use std::thread::Threads;

/// What a worker has still to do. Once it is let go the worker counts as ended, also where it never began.
pub(crate) struct Shift<'a> {
    ended: &'a AtomicU32,
}

impl<'a> Shift<'a> {
    pub(crate) fn of(ended: &'a AtomicU32) -> Shift<'a> {
        Shift { ended }
    }
}

impl Drop for Shift<'_> {
    fn drop(self) {
        let Shift { ended } = self;
        ended.fetch_add(1, Ordering::SeqCst);
    }
}

/// What a worker does: the job of an identity, whose corpse its porter puts.
#[derive(Drop)]
pub(crate) struct Task<'a, J: Pools, A: Play> {
    pub(crate) job: Job<A>,
    pub(crate) porter: Porter<J>,
    pub(crate) shift: Shift<'a>,
}

/// What a worker leaves of its identity: the log of its client, if it has a script; and its token, unless the porter has put it.
pub(crate) struct Outcome {
    pub(crate) log: Option<Log>,
    pub(crate) left: Option<Left>,
}

// by hand, so that who lets it go needn't know what it is made of
impl Drop for Outcome {
    fn drop(self) {
        let Outcome {
            log: _log,
            left: _left,
        } = self;
    }
}

impl Outcome {
    /// What is done of the identity: where its corpse was put, its token is who rescued it has kept.
    pub(crate) fn done(self, slot: &mut Option<Left>) -> Done
        requires { (t : ATrace) × (p : APool) × (c : ℕ) × IsEnough t p c self slot.old }
        ensures { (t : ATrace) (p : APool) (c : ℕ) → IsEnough t p c self slot.old → IsDone t p c result }
    {
        let Outcome { log, left } = self;
        let left = match left {
            Some(left) => left,
            None => match slot.take() {
                Some(left) => left,
                None => unreachable!(),
            },
        };
        Done { log, left }
    }
}

/// A worker that has ended.
#[derive(Drop)]
pub(crate) struct Worked<J: Pools> {
    pub(crate) porter: Porter<J>,
    pub(crate) outcome: Outcome,
}

/// The client works until it has left or died. The gate is passed before each command.
fn work<A: Play, G: Gate>(script: &Script, gate: &G, agents: &mut Players<A>, post: &mut Post<'_>)
    requires posted { IsPosted post.old agents.old.me.who }
    requires stands { AgentsStand post.old.of.start script.now agents.old post.old.account }
    requires client { is_client agents.old ≡ true }
    ensures work { AreAtWork script.now post.old agents.old post.new agents.new }
    ensures parted { HasParted script.now agents.new post.new.account }
{
    let mut passed: u32 = 0;
    while agents.is_client() {
        if agents.is_at_command() && passed as usize <= agents.answered() {
            gate.pass(agents.client(), passed);
            passed = passed.saturating_add(1);
        }
        agents.turn(script, post);
    }
}

/// The porter puts the corpse. Where there is no room the identity is recovered here.
fn put<J: Pools, R: Wait>(
    rt: &R,
    pool: &SharedPool,
    trace: &Trace,
    morgue: &Morgue<J>,
    porter: &mut Porter<J>,
    corpse: Corpse,
) -> Option<Left>
    requires porter { (porter.old.of ≡ morgue.now) × (porter.old.entries ≡ []) }
    requires corpse { (corpse.of ≡ pool.now) × (corpse.account.who ≡ porter.old.client) }
    requires pool { Contains J.pools pool.now }
    ensures of { porter.new.of ≡ porter.old.of }
    ensures put { MatchOption result (porter.new.entries ≡ entry corpse 0 ∷ []) (λ k. (porter.new.entries ≡ []) × IsRescue trace.now pool.now corpse k) }
{
    match porter.put(rt, morgue, corpse) {
        Ok(_) => None,
        Err(NoRoom { corpse }) => Some(rescue(rt, pool, trace, corpse)),
    }
}

/// The agents of a script at the post of their identity: its client works until it has left or died, and where it died its corpse is put.
fn serve<J: Pools, A: Play, R: Wait, G: Gate>(
    rt: &R,
    pool: &SharedPool,
    trace: &Trace,
    script: &Script,
    morgue: &Morgue<J>,
    gate: &G,
    porter: &mut Porter<J>,
    mut agents: Players<A>,
    token: Vacant,
) -> Outcome
    requires porter { (porter.old.of ≡ morgue.now) × (porter.old.client ≡ token.account.who) × (porter.old.entries ≡ []) }
    requires token { (token.of ≡ pool.now) × (token.account ≡ first_account token.of.start token.account.who) }
    requires agents { AreAgentsOf trace.now pool.now.start token.account.who token.account agents }
    requires script { slice_get trace.now.scripts agents.script ≡ Some script.now }
    requires pool { Contains J.pools pool.now }
    ensures of { porter.new.of ≡ porter.old.of }
    ensures left { WasLeft trace.now pool.now token.account.who porter.new.entries result.log result.left }
{
    let mut post = Post::new(pool, token);
    work(script, gate, &mut agents, &mut post);
    if agents.standing() == Standing::AtWork {
        let corpse = post.corpse();
        return Outcome {
            log: Some(agents.log()),
            left: put(rt, pool, trace, morgue, porter, corpse),
        };
    }
    let Finish { log, token } = hand_back(agents, post);
    Outcome {
        log: Some(log),
        left: Some(token),
    }
}

/// One worker. Where the identity has no script it gives the token back as it is.
fn work_at<J: Pools, A: Play, R: Wait, G: Gate>(
    rt: &R,
    pool: &SharedPool,
    trace: &Trace,
    morgue: &Morgue<J>,
    gate: &G,
    task: Task<'_, J, A>,
) -> Worked<J>
    requires task { IsTask trace.now pool.now morgue.now task.job task.porter }
    requires pool { Contains J.pools pool.now }
    ensures { HasWorked trace.now pool.now morgue.now task.entry.job.token.account.who result.porter result.outcome }
{
    let Task {
        job: Job { agents, token },
        mut porter,
        shift: _shift,
    } = task;
    match agents {
        None => Worked {
            porter,
            outcome: Outcome {
                log: None,
                left: Some(Left::Vacant(token)),
            },
        },
        Some(agents) => {
            let at = agents.script();
            let outcome = serve(
                rt,
                pool,
                trace,
                &trace.scripts[at],
                morgue,
                gate,
                &mut porter,
                agents,
                token,
            );
            Worked { porter, outcome }
        }
    }
}

/// A worker for each task, each in a thread of its own where one can be made. Where none can, the caller does that work itself.
pub(crate) fn work_all<
    'a,
    J: Pools + Send + Sync,
    A: Play + Send,
    R: Threads + Wait + Sync,
    G: Gate,
>(
    rt: &R,
    pool: &SharedPool,
    trace: &Trace,
    morgue: &Morgue<J>,
    gate: &G,
    tasks: Vec<Task<'a, J, A>>,
) -> Result<Vec<Worked<J>>, AllocError>
    requires tasks { (i : ℕ) (d : _) → i < length tasks.items → let k = slice_index_or tasks.items i d in (k.job.token.account.who ≡ i) × IsTask trace.now pool.now morgue.now k.job k.porter }
    requires pool { Contains J.pools pool.now }
    ensures many { IfOk result (λ v. length v.items ≡ length tasks.entry.items) }
    ensures worked { IfOk result (λ v. (i : ℕ) (d : _) → i < length tasks.entry.items → let x = slice_index_or v.items i d in HasWorked trace.now pool.now morgue.now i x.porter x.outcome) }
{
    thread::map_vec(
        rt,
        tasks,
        &|task: Task<J, A>| -> Worked<J>
            requires { IsTask trace.now pool.now morgue.now task.job task.porter × Contains J.pools pool.now }
            ensures { HasWorked trace.entry.now pool.entry.now morgue.entry.now task.entry.job.token.account.who result.porter result.outcome }
        { work_at(rt, pool, trace, morgue, gate, task) },
    )
}
