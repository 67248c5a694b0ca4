//! The identities of a trace, each of which is polled until all is done of it.

ghost use Rattle.std.specs.Prelude.{◌≡◌, ◌≢◌, ◌≤◌, ℕ, None, Some, IfOk, length};
ghost use Rattle.shm_pool.specs.Tokens.{Its as APool};
ghost use Rattle.shm_script.specs.Values.{Traced as ATrace};
ghost use Rattle.shm_team.specs.{declared.{done.Done.Done as ADone, jobs.Job.Job as AJob}, Dones.{AreDones, IsDone}};
ghost use Rattle.shm_team.specs.Jobs.{AreJobs, IsJob};
ghost use Rattle.shm_async.specs.{Each.EachFrom, Members.{AreMembers, MemberAtWork, MemberHere, IsMember}};
ghost use Rattle.shm_async.specs.Polled.{MayGive};

use crate::each::{Makes, make_all, put_in};
use crate::identity::CourseFuture;
use shm_play::play::Play;
use shm_pool::SharedPool;
use shm_script::Trace;
use shm_team::{Done, Finish, Job, Left};
use std::alloc::{AllocError, Global};

/// An identity of a trace: its agents have turns left, or all is done.
#[derive(Drop)]
pub(crate) enum Member<'p, A: Play> {
    Works(CourseFuture<'p, A>),
    Finished(Done),
}

/// What is done of an identity, by what its future gave.
pub(crate) fn done_of(finish: Finish) -> Done
    ensures { result ≡ record { log = Some finish.log; left = finish.token } }
{
    let Finish { log, token } = finish;
    Done {
        log: Some(log),
        left: token,
    }
}

impl<'p, A: Play> Member<'p, A> {
    /// The identity of a job, before its first turn.
    fn of(pool: &'p SharedPool, trace: &'p Trace, job: Job<A>, q: u32) -> Member<'p, A>
        requires turns { 1 ≤ q }
        requires job { IsJob trace.now pool.now job.token.account.who job }
        ensures { IsMember trace.now pool.now job.token.account.who result }
    {
        let Job { agents, token } = job;
        match agents {
            None => Member::Finished(Done {
                log: None,
                left: Left::Vacant(token),
            }),
            Some(agents) => {
                let at = agents.script();
                Member::Works(CourseFuture::of(pool, agents, token, &trace.scripts[at], q))
            }
        }
    }

    /// Whether it has turns left.
    fn is_left(&self) -> bool {
        matches!(self, Member::Works(_))
    }

    /// It is polled, unless all is done.
    fn polled(self) -> Member<'p, A>
        ensures { (t : ATrace) (p : APool) (c : ℕ) → IsMember t p c self.entry → IsMember t p c result }
    {
        match self {
            Member::Finished(done) => Member::Finished(done),
            Member::Works(future) => turned(future),
        }
    }

    /// All its turns are made.
    fn done(self) -> Done
        requires { (t : ATrace) × (p : APool) × (c : ℕ) × IsMember t p c self }
        ensures { (t : ATrace) (p : APool) (c : ℕ) → IsMember t p c self.entry → IsDone t p c result }
    {
        match self {
            Member::Finished(done) => done,
            Member::Works(future) => done_of(run_out(future)),
        }
    }
}

/// The agents get the turns of one poll.
fn turned<A: Play>(mut future: CourseFuture<'_, A>) -> Member<'_, A>
    ensures { (t : ATrace) (p : APool) (c : ℕ) → MemberAtWork t p c future.entry → IsMember t p c result }
{
    match future.advance() {
        None => Member::Works(future),
        Some(finish) => Member::Finished(done_of(finish)),
    }
}

/// Makes all turns that are left.
fn run_out<A: Play>(mut future: CourseFuture<'_, A>) -> Finish
    requires { future.site ≢ None }
    ensures { MayGive future.entry result }
{
    'turns: loop {
        match future.advance() {
            None => {}
            Some(finish) => return finish,
        }
    }
}

/// How the identities of a trace begin: a poll gives each of them `q` turns.
#[derive(Drop)]
struct Start<'p> {
    pool: &'p SharedPool,
    trace: &'p Trace,
    q: u32,
}

impl<'p, A: Play> Makes<Job<A>, Option<Member<'p, A>>> for Start<'p> {
    ghost takes = { λ m c j. (1 ≤ m.q) × (j.token.account.who ≡ c) × IsJob m.trace.now m.pool.now c j };

    ghost gives = { λ m c x. MemberHere m.trace.now m.pool.now c x };

    fn make(&self, job: Job<A>) -> Option<Member<'p, A>> {
        Some(Member::of(self.pool, self.trace, job, self.q))
    }
}

/// The identities of a trace before their first turns.
fn start_all<'p, A: Play>(
    alloc: Global,
    start: &Start<'p>,
    jobs: Vec<Job<A>>,
) -> Result<Vec<Option<Member<'p, A>>>, AllocError>
    requires { EachFrom (λ (c : ℕ) (j : AJob A). (1 ≤ start.now.q) × (j.token.account.who ≡ c) × IsJob start.now.trace.now start.now.pool.now c j) 0 jobs.items }
    ensures many { IfOk result (λ v. length v.items ≡ length jobs.items) }
    ensures here { IfOk result (λ v. EachFrom (λ (c : ℕ) (x : _). MemberHere start.now.trace.now start.now.pool.now c x) 0 v.items) }
{
    make_all(alloc, start, jobs)
}

/// The same, which are all here.
pub(crate) fn all_members<'p, A: Play>(
    alloc: Global,
    pool: &'p SharedPool,
    trace: &'p Trace,
    jobs: Vec<Job<A>>,
    q: u32,
) -> Result<Vec<Option<Member<'p, A>>>, AllocError>
    requires turns { 1 ≤ q }
    requires many { length jobs.items ≡ trace.now.clients }
    requires jobs { AreJobs trace.now pool.now 0 jobs.items }
    ensures { IfOk result (λ v. AreMembers trace.now pool.now v.items) }
{
    start_all(alloc, &Start { pool, trace, q }, jobs)
}

/// Polls an identity that is here, and tells whether it has turns left.
fn poll_one<A: Play>(slot: &mut Option<Member<'_, A>>) -> bool
    ensures { (t : ATrace) (p : APool) (c : ℕ) → MemberHere t p c slot.old → MemberHere t p c slot.new }
{
    match slot.take() {
        None => false,
        Some(member) => {
            let member = member.polled();
            let left = member.is_left();
            put_in(slot, member);
            left
        }
    }
}

/// Polls each identity once, in order, and tells whether one of them has turns left.
pub(crate) fn poll_each<A: Play>(members: &mut [Option<Member<'_, A>>]) -> bool
    ensures { (t : ATrace) (p : APool) → AreMembers t p members.old → AreMembers t p members.new }
{
    let mut left = false;
    for at in 0..members.len() {
        left |= poll_one(&mut members[at]);
    }
    left
}

/// How the identities of a trace come to their end. The pool and the trace only say which identities they are.
#[derive(Drop)]
struct End<'a> {
    pool: &'a SharedPool,
    trace: &'a Trace,
}

impl<'a, 'p, A: Play> Makes<Option<Member<'p, A>>, Done> for End<'a> {
    ghost takes = { λ m c x. MemberHere m.trace.now m.pool.now c x };

    ghost gives = { λ m c d. IsDone m.trace.now m.pool.now c d };

    fn make(&self, slot: Option<Member<'p, A>>) -> Done {
        let _ = self.pool;
        let _ = self.trace;
        match slot {
            None => unreachable!(),
            Some(member) => member.done(),
        }
    }
}

/// Makes the turns that are left of identities that are here.
fn end_all<A: Play>(
    alloc: Global,
    end: &End<'_>,
    members: Vec<Option<Member<'_, A>>>,
) -> Result<Vec<Done>, AllocError>
    requires { EachFrom (λ (c : ℕ) (x : _). MemberHere end.now.trace.now end.now.pool.now c x) 0 members.items }
    ensures many { IfOk result (λ v. length v.items ≡ length members.entry.items) }
    ensures dones { IfOk result (λ v. EachFrom (λ (c : ℕ) (d : ADone). IsDone end.now.trace.now end.now.pool.now c d) 0 v.items) }
{
    make_all(alloc, end, members)
}

/// Makes the turns that are left of all identities.
pub(crate) fn finish_all<A: Play>(
    alloc: Global,
    pool: &SharedPool,
    trace: &Trace,
    members: Vec<Option<Member<'_, A>>>,
) -> Result<Vec<Done>, AllocError>
    requires { AreMembers trace.now pool.now members.items }
    ensures many { IfOk result (λ v. length v.items ≡ trace.now.clients) }
    ensures dones { IfOk result (λ v. AreDones trace.now pool.now 0 v.items) }
{
    end_all(alloc, &End { pool, trace }, members)
}
