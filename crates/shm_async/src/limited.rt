//! An identity of a trace under a limit: it is polled so many times at most, and then cut, and recovered.

ghost use Rattle.std.specs.Prelude.{◌≡◌, ◌+◌, ◌*◌, ◌-◌, ◌^◌, ◌<◌, ◌≤◌, ℕ, IfErr};
ghost use Rattle.shm_graph.specs.Runs.{Stood};
ghost use Rattle.shm_pool.specs.Tokens.{Its as APool};
ghost use Rattle.shm_script.specs.Values.{Traced as ATrace};
ghost use Rattle.shm_team.specs.Jobs.{IsJob};
ghost use Rattle.shm_async.specs.LimitedMembers.{IsDue, IsLimitedDone, IsLimitedMember, IsMending, IsPending, IsSpent, left_of, polls_left};

use crate::identity::CourseFuture;
use crate::members::done_of;
use crate::recovery::RecoveryFuture;
use shm_play::play::Play;
use shm_pool::{SharedPool, Stopped, Vacant};
use shm_script::{Log, Trace};
use shm_team::{Done, Finish, Job, Left};

/// How many word steps the recovery of an identity has whose agents were cut.
const LIFE: u64 = 1 << 40;

/// An identity of a trace: its agents have turns left; or they were cut, and it is recovered; or all is done.
#[derive(Drop)]
pub(crate) enum LimitedMember<'p, A: Play> {
    Works(CourseFuture<'p, A>),
    Recovers(Cut<'p>),
    Finished(Done),
}

/// An identity whose agents were cut: the log of its client, and its recovery.
#[derive(Drop)]
pub(crate) struct Cut<'p> {
    log: Log,
    recovery: RecoveryFuture<'p>,
}

impl<'p, A: Play> LimitedMember<'p, A> {
    /// The identity of a job, before its first turn. A poll gives it `q` turns.
    pub(crate) fn of(
        pool: &'p SharedPool,
        trace: &'p Trace,
        job: Job<A>,
        q: u32,
    ) -> LimitedMember<'p, A>
        requires turns { 1 ≤ q }
        requires job { IsJob trace.now pool.now job.token.account.who job }
        ensures { (limit : ℕ) → 0 < limit → pool.now.start.first_era + q * limit ≤ 2 ^ 46 → IsLimitedMember trace.now pool.now job.token.account.who (q * limit) limit result }
    {
        let Job { agents, token } = job;
        match agents {
            None => LimitedMember::Finished(Done {
                log: None,
                left: Left::Vacant(token),
            }),
            Some(agents) => {
                let at = agents.script();
                LimitedMember::Works(CourseFuture::of(pool, agents, token, &trace.scripts[at], q))
            }
        }
    }

    /// Whether it has turns left, or word steps of its recovery.
    pub(crate) fn is_left(&self) -> bool {
        !matches!(self, LimitedMember::Finished(_))
    }

    /// It is polled, unless all is done. With the last of the polls that are left its agents are cut, unless none of them is left.
    pub(crate) fn polled(self, pool: &'p SharedPool, q: u32, left: u32) -> LimitedMember<'p, A>
        requires turns { 1 ≤ q }
        requires member { (t : ATrace) × (c : ℕ) × (turns : ℕ) × IsLimitedMember t pool.now c turns left self }
        ensures member { (t : ATrace) (c turns : ℕ) → IsLimitedMember t pool.now c turns left self.entry → IsLimitedMember t pool.now c turns (left - 1) result }
        ensures fewer { 0 < polls_left left self.entry → polls_left (left - 1) result < polls_left left self.entry }
    {
        match self {
            LimitedMember::Finished(done) => LimitedMember::Finished(done),
            LimitedMember::Works(future) => worked(pool, q, left, future),
            LimitedMember::Recovers(cut) => mended(cut),
        }
    }

    /// Makes all that is left of it.
    pub(crate) fn done(self, pool: &'p SharedPool, q: u32, left: u32) -> Done
        requires turns { 1 ≤ q }
        requires member { (t : ATrace) × (c : ℕ) × (turns : ℕ) × IsLimitedMember t pool.now c turns left self }
        ensures { (t : ATrace) (c turns : ℕ) → IsLimitedMember t pool.now c turns left self.entry → IsLimitedDone t pool.now c turns result }
    {
        let mut member = self;
        let mut left = left;
        'polls: loop {
            match member {
                LimitedMember::Finished(done) => return done,
                other => member = other.polled(pool, q, left),
            }
            left = left.saturating_sub(1);
        }
    }
}

/// The agents get the turns of a poll.
fn worked<'p, A: Play>(
    pool: &'p SharedPool,
    q: u32,
    left: u32,
    mut future: CourseFuture<'p, A>,
) -> LimitedMember<'p, A>
    requires turns { 1 ≤ q }
    requires due { (t : ATrace) × (c : ℕ) × (turns : ℕ) × IsDue t pool.now c turns left future }
    ensures member { (t : ATrace) (c turns : ℕ) → IsDue t pool.now c turns left future.entry → IsLimitedMember t pool.now c turns (left - 1) result }
    ensures fewer { polls_left (left - 1) result < left + 2 ^ 40 + 1 }
{
    match future.advance() {
        Some(finish) => LimitedMember::Finished(done_of(finish)),
        None => after_poll(pool, q, left, future),
    }
}

/// Agents of which one is left after the first of so many polls: they wait for the next one, and with the last one they are cut.
fn after_poll<'p, A: Play>(
    pool: &'p SharedPool,
    q: u32,
    left: u32,
    future: CourseFuture<'p, A>,
) -> LimitedMember<'p, A>
    requires turns { 1 ≤ q }
    requires some { 0 < left }
    requires pending { (t : ATrace) × (c : ℕ) × (turns : ℕ) × IsPending t pool.now c turns left future }
    ensures member { (t : ATrace) (c turns : ℕ) → IsPending t pool.now c turns left future.entry → IsLimitedMember t pool.now c turns (left - 1) result }
    ensures fewer { polls_left (left - 1) result < left + 2 ^ 40 + 1 }
{
    if left > 1 {
        LimitedMember::Works(future)
    } else {
        LimitedMember::Recovers(cut_off(pool, q, future))
    }
}

/// The agents are cut that have had all their turns, and the identity is recovered. A poll of it gives `q` turns.
fn cut_off<'p, A: Play>(pool: &'p SharedPool, q: u32, future: CourseFuture<'p, A>) -> Cut<'p>
    requires turns { 1 ≤ q }
    requires spent { (t : ATrace) × (c : ℕ) × (turns : ℕ) × IsSpent t pool.now c turns future }
    ensures mending { (t : ATrace) (c turns : ℕ) → IsSpent t pool.now c turns future.entry → IsMending t pool.now c turns result }
    ensures life { result.recovery.life.left ≡ 2 ^ 40 }
{
    // one of them is left, and has made a word step
    let Some(Finish { log, token }) = future.cancel() else {
        unreachable!()
    };
    let Left::Corpse(corpse) = token else {
        unreachable!()
    };
    Cut {
        log,
        recovery: RecoveryFuture::new(pool, corpse, LIFE, q),
    }
}

/// The recovery gets the turns of a poll.
fn mended<A: Play>(cut: Cut<'_>) -> LimitedMember<'_, A>
    requires { (t : ATrace) × (p : APool) × (c : ℕ) × (turns : ℕ) × IsMending t p c turns cut }
    ensures member { (t : ATrace) (p : APool) (c turns left : ℕ) → IsMending t p c turns cut.entry → IsLimitedMember t p c turns left result }
    ensures fewer { (left : ℕ) → polls_left left result < cut.entry.recovery.life.left + 1 }
{
    let Cut { log, mut recovery } = cut;
    match recovery.advance() {
        None => LimitedMember::Recovers(Cut { log, recovery }),
        Some(over) => LimitedMember::Finished(Done {
            log: Some(log),
            left: left_by(over),
        }),
    }
}

/// The token that a recovery gave.
fn left_by(over: Result<Vacant, Stopped>) -> Left
    ensures left { result ≡ left_of over }
    ensures stood { IfErr over (λ s. Stood s.corpse.of.start s.corpse.account) }
{
    match over {
        Ok(token) => Left::Vacant(token),
        Err(stopped) => {
            let Stopped { corpse, cause: _ } = stopped;
            // for the proof: its account stood
            corpse.client();
            Left::Corpse(corpse)
        }
    }
}
