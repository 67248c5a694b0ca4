//! The identities of a trace under a limit, as they are polled in rounds.

ghost use Rattle.std.specs.Prelude.{◌≡◌, ◌*◌, ◌-◌, ◌≤◌, ℕ, IfOk, length};
ghost use Rattle.shm_script.specs.Values.{Traced as ATrace};
ghost use Rattle.shm_team.specs.{declared.jobs.Job.Job as AJob, Jobs.AreJobs};
ghost use Rattle.shm_async.specs.Each.{EachFrom};
ghost use Rattle.shm_async.specs.LimitedMembers.{AreLimited, AreLimitedDones, AreLimitedHere, HasRoom, IsLimitedDone, IsLimitedHere, MayStart};

use crate::each::{Makes, make_all, put_in};
use crate::limited::LimitedMember;
use crate::polls::Rounds;
use counted_slot::Fits;
use shm_play::play::Play;
use shm_pool::SharedPool;
use shm_script::Trace;
use shm_team::{Done, Job};
use std::alloc::{AllocError, Global};

/// Which pool and which trace the identities are of, and after how many turns they are cut.
#[derive(Clone, Copy, Drop)]
pub(crate) struct Limit<'p> {
    pub(crate) pool: &'p SharedPool,
    pub(crate) trace: &'p Trace,
    pub(crate) turns: u64,
}

/// The identities of a trace, of which a poll gives each `q` turns. After `left` polls those are cut that have turns left.
#[derive(Drop)]
pub(crate) struct LimitedMembers<'p, A: Play> {
    pub(crate) pool: &'p SharedPool,
    pub(crate) q: u32,
    pub(crate) left: u32,
    pub(crate) members: Vec<Option<LimitedMember<'p, A>>>,
}

impl<'p, A: Play> Fits for LimitedMembers<'p, A> {
    type Tag = Limit<'p>;

    ghost fits = { λ w x. AreLimited w.trace.now w.pool.now w.turns x };
}

impl<'p, A: Play> Rounds for LimitedMembers<'p, A> {
    fn round(&mut self) -> bool {
        let more = poll_each(self.pool, self.q, self.left, &mut self.members);
        self.left = self.left.saturating_sub(1);
        more
    }
}

/// How the identities of a trace begin: a poll gives each of them `q` turns, and after `limit` polls those are cut that have turns left.
#[derive(Drop)]
struct Start<'p> {
    pool: &'p SharedPool,
    trace: &'p Trace,
    q: u32,
    limit: u32,
}

impl<'p, A: Play> Makes<Job<A>, Option<LimitedMember<'p, A>>> for Start<'p> {
    ghost takes = { λ m c j. MayStart m.trace.now m.pool.now m.q m.limit c j };

    ghost gives = { λ m c x. IsLimitedHere m.trace.now m.pool.now c (m.q * m.limit) m.limit x };

    fn make(&self, job: Job<A>) -> Option<LimitedMember<'p, A>> {
        Some(LimitedMember::of(self.pool, self.trace, job, self.q))
    }
}

/// The identities of a trace before their first turns.
fn start_all<'p, A: Play>(
    alloc: Global,
    start: &Start<'p>,
    jobs: Vec<Job<A>>,
) -> Result<Vec<Option<LimitedMember<'p, A>>>, AllocError>
    requires { EachFrom (λ (c : ℕ) (j : AJob A). MayStart start.now.trace.now start.now.pool.now start.now.q start.now.limit c j) 0 jobs.items }
    ensures many { IfOk result (λ v. length v.items ≡ length jobs.items) }
    ensures here { IfOk result (λ v. EachFrom (λ (c : ℕ) (x : _). IsLimitedHere start.now.trace.now start.now.pool.now c (start.now.q * start.now.limit) start.now.limit x) 0 v.items) }
{
    make_all(alloc, start, jobs)
}

/// Polls an identity that is here, and tells whether anything is left of it.
fn poll_one<'p, A: Play>(
    pool: &'p SharedPool,
    q: u32,
    left: u32,
    slot: &mut Option<LimitedMember<'p, A>>,
) -> bool
    requires turns { 1 ≤ q }
    requires here { (t : ATrace) × (c : ℕ) × (turns : ℕ) × IsLimitedHere t pool.now c turns left slot.old }
    ensures { (t : ATrace) (c turns : ℕ) → IsLimitedHere t pool.now c turns left slot.old → IsLimitedHere t pool.now c turns (left - 1) slot.new }
{
    match slot.take() {
        None => false,
        Some(member) => {
            let member = member.polled(pool, q, left);
            let more = member.is_left();
            put_in(slot, member);
            more
        }
    }
}

/// Polls each identity once, in order, and tells whether anything is left of one of them.
fn poll_each<'p, A: Play>(
    pool: &'p SharedPool,
    q: u32,
    left: u32,
    members: &mut [Option<LimitedMember<'p, A>>],
) -> bool
    requires turns { 1 ≤ q }
    requires here { (t : ATrace) × (turns : ℕ) × AreLimitedHere t pool.now turns left members.old }
    ensures { (t : ATrace) (turns : ℕ) → AreLimitedHere t pool.now turns left members.old → AreLimitedHere t pool.now turns (left - 1) members.new }
{
    let mut more = false;
    for at in 0..members.len() {
        more |= poll_one(pool, q, left, &mut members[at]);
    }
    more
}

impl<'p, A: Play> LimitedMembers<'p, A> {
    /// Those of a trace before their first turns. A poll gives each of them `q` turns, and after `limit` polls those are cut that have turns left.
    pub(crate) fn of(
        alloc: Global,
        pool: &'p SharedPool,
        trace: &'p Trace,
        jobs: Vec<Job<A>>,
        q: u32,
        limit: u32,
    ) -> Result<LimitedMembers<'p, A>, AllocError>
        requires turns { 1 ≤ q }
        requires polls { 1 ≤ limit }
        requires room { HasRoom pool.now (q * limit) }
        requires many { length jobs.items ≡ trace.now.clients }
        requires jobs { AreJobs trace.now pool.now 0 jobs.items }
        ensures { IfOk result (λ x. AreLimited trace.now pool.now (q * limit) x) }
    {
        let start = Start {
            pool,
            trace,
            q,
            limit,
        };
        let members = start_all(alloc, &start, jobs)?;
        Ok(LimitedMembers {
            pool,
            q,
            left: limit,
            members,
        })
    }

    /// Makes all that is left of them.
    pub(crate) fn dones(self, alloc: Global, limit: &Limit<'p>) -> Result<Vec<Done>, AllocError>
        requires { AreLimited limit.now.trace.now limit.now.pool.now limit.now.turns self }
        ensures many { IfOk result (λ v. length v.items ≡ limit.now.trace.now.clients) }
        ensures dones { IfOk result (λ v. AreLimitedDones limit.now.trace.now limit.now.pool.now 0 limit.now.turns v.items) }
    {
        let LimitedMembers {
            pool: _,
            q,
            left,
            members,
        } = self;
        let Limit { pool, trace, turns } = *limit;
        let end = End {
            pool,
            trace,
            turns,
            q,
            left,
        };
        end_all(alloc, &end, members)
    }
}

/// How the identities of a trace come to their end: a poll gives each of them `q` turns, and after `left` polls those are cut that have turns
/// left.
#[derive(Drop)]
struct End<'p> {
    pool: &'p SharedPool,
    trace: &'p Trace,
    turns: u64,
    q: u32,
    left: u32,
}

impl<'p, A: Play> Makes<Option<LimitedMember<'p, A>>, Done> for End<'p> {
    ghost takes = { λ m c x. (1 ≤ m.q) × IsLimitedHere m.trace.now m.pool.now c m.turns m.left x };

    ghost gives = { λ m c d. IsLimitedDone m.trace.now m.pool.now c m.turns d };

    fn make(&self, slot: Option<LimitedMember<'p, A>>) -> Done {
        match slot {
            None => unreachable!(),
            Some(member) => member.done(self.pool, self.q, self.left),
        }
    }
}

/// Makes all that is left of identities that are here.
fn end_all<'p, A: Play>(
    alloc: Global,
    end: &End<'p>,
    members: Vec<Option<LimitedMember<'p, A>>>,
) -> Result<Vec<Done>, AllocError>
    requires { EachFrom (λ (c : ℕ) (x : _). (1 ≤ end.now.q) × IsLimitedHere end.now.trace.now end.now.pool.now c end.now.turns end.now.left x) 0 members.items }
    ensures many { IfOk result (λ v. length v.items ≡ length members.entry.items) }
    ensures dones { IfOk result (λ v. AreLimitedDones end.now.trace.now end.now.pool.now 0 end.now.turns v.items) }
{
    make_all(alloc, end, members)
}
