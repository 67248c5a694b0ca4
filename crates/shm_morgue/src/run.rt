//! A trace is run by workers whose dead go through a morgue to medics.

ghost use Rattle.std.specs.Prelude.{◌≡◌, ◌<◌, ◌≤◌, ◌++◌, ◌∷◌, ℕ, IfOk, List, None, [], length, replicate, slice_index_or, vec_capacity};
ghost use Rattle.std.specs.List.{All, AllByRecursion};
ghost use Rattle.shm_graph.specs.declared.run.Move.{Move as AMove};
ghost use Rattle.shm_plain.specs.Pools.{pool as pool_of};
ghost use Rattle.shm_replay.specs.Replays.{start_of};
ghost use Rattle.shm_team.specs.{Dones.AreDones, Jobs.AreJobs, Rans.IsTeamRun};
ghost use Rattle.shm_morgue.specs.Crew.{HasWorked, HaveWorked, IsRound, IsTask};
ghost use Rattle.shm_morgue.specs.Entries.{IsCarried, IsOf, Puts as APorter, Takes as AMedic, all_taken, first_medics, first_porters};
ghost use Rattle.shm_morgue.specs.{Slots.{AreEnough, AreRescued, either}, declared.rule.Taken.Taken as ATaken};

use crate::closing::{MorgueCause, MorgueStop};
use crate::gate::Gate;
use crate::making::Made3;
use crate::medic::{Round, blank_slots, clients_of, heal_all, rescue_into};
use crate::morgue::{Medic, Morgue, Porter};
use crate::rule::{Pools, Taken};
use crate::worker::{Outcome, Shift, Task, Worked, work_all};
use shm_play::cast::Cast;
use shm_play::play::Play;
use shm_pool::SharedPool;
use shm_script::Trace;
use shm_team::{Done, Job, Left, Ran, begin, settle};
use std::alloc::{AllocError, Global};
use std::marker::{Brand, Send, Sync};
use std::sync::Wait;
use std::sync::atomic::AtomicU32;
use std::thread;
use std::thread::Threads;

/// A task for each identity, in order, where there is room for all of them.
fn tasks_in<'a, J: Pools, A: Play>(
    pool: &SharedPool,
    trace: &Trace,
    morgue: &Morgue<J>,
    ended: &'a AtomicU32,
    jobs: Vec<Job<A>>,
    porters: Vec<Porter<J>>,
    mut tasks: Vec<Task<'a, J, A>>,
) -> Vec<Task<'a, J, A>>
    requires jobs { AreJobs trace.now pool.now 0 jobs.items }
    requires porters { porters.items ≡ first_porters morgue.now 0 (length jobs.items) }
    requires none { tasks.items ≡ [] }
    requires room { length jobs.items ≤ vec_capacity tasks }
    ensures many { length result.items ≡ length jobs.items }
    ensures tasks { (i : ℕ) (d : _) → i < length result.items → let k = slice_index_or result.items i d in (k.job.token.account.who ≡ i) × IsTask trace.now pool.now morgue.now k.job k.porter }
{
    let _ = pool;
    let _ = trace;
    let _ = morgue;
    let mut rest = porters.into_iter();
    for job in jobs {
        let Some(porter) = rest.next() else {
            unreachable!()
        };
        tasks.push_reserved(Task {
            job,
            porter,
            shift: Shift::of(ended),
        });
    }
    tasks
}

/// A task for each identity, in order.
fn all_tasks<'a, J: Pools, A: Play>(
    alloc: Global,
    pool: &SharedPool,
    trace: &Trace,
    morgue: &Morgue<J>,
    ended: &'a AtomicU32,
    jobs: Vec<Job<A>>,
    porters: Vec<Porter<J>>,
) -> Result<Vec<Task<'a, J, A>>, AllocError>
    requires jobs { AreJobs trace.now pool.now 0 jobs.items }
    requires porters { porters.items ≡ first_porters morgue.now 0 (length jobs.items) }
    ensures many { IfOk result (λ v. length v.items ≡ length jobs.items) }
    ensures tasks { IfOk result (λ v. (i : ℕ) (d : _) → i < length v.items → let k = slice_index_or v.items i d in (k.job.token.account.who ≡ i) × IsTask trace.now pool.now morgue.now k.job k.porter) }
{
    let tasks = Vec::with_capacity(alloc, jobs.len())?;
    Ok(tasks_in(pool, trace, morgue, ended, jobs, porters, tasks))
}

/// The work of each medic, in order.
fn all_rounds<J: Pools>(
    alloc: Global,
    pool: &SharedPool,
    trace: &Trace,
    morgue: &Morgue<J>,
    medics: Vec<Medic<J>>,
) -> Result<Vec<Round<J>>, AllocError>
    requires clients { pool.now.start.geometry.clients ≡ trace.now.clients }
    requires medics { medics.items ≡ first_medics morgue.now morgue.now.medics }
    ensures many { IfOk result (λ v. length v.items ≡ morgue.now.medics) }
    ensures rounds { IfOk result (λ v. All (λ r. IsRound trace.now pool.now morgue.now r.medic r.slots.items) v.items) }
{
    let _ = pool;
    let _ = morgue;
    let clients = clients_of(trace);
    let mut rounds = Vec::new(alloc);
    let mut number: u8 = 0;
    for medic in medics {
        let slots = blank_slots(alloc, clients)?;
        rounds.push(Round {
            number,
            medic,
            slots,
        })?;
        number = number.saturating_add(1);
    }
    Ok(rounds)
}

/// All workers and all medics at work beside each other. Medics wait for the workers, so that the caller does the work of the workers: where no thread
/// can be made for the medics, their work comes last.
fn all_at_work<'a, J: Pools + Send + Sync, A: Play + Send, R: Threads + Wait + Sync, G: Gate>(
    rt: &R,
    pool: &SharedPool,
    trace: &Trace,
    morgue: &Morgue<J>,
    gate: &G,
    ended: &AtomicU32,
    tasks: Vec<Task<'a, J, A>>,
    rounds: Vec<Round<J>>,
) -> Result<(Vec<Worked<J>>, Vec<Round<J>>), AllocError>
    requires tasks { (i : ℕ) (d : _) → i < length tasks.items → let k = slice_index_or tasks.items i d in (k.job.token.account.who ≡ i) × IsTask trace.now pool.now morgue.now k.job k.porter }
    requires rounds { All (λ r. IsRound trace.now pool.now morgue.now r.medic r.slots.items) rounds.items }
    requires pools { J.pools ≡ pool.now ∷ [] }
    ensures tasks { IfOk result (λ v. length v.0.items ≡ length tasks.entry.items) }
    ensures worked { IfOk result (λ v. (i : ℕ) (d : _) → i < length v.0.items → let x = slice_index_or v.0.items i d in HasWorked trace.now pool.now morgue.now i x.porter x.outcome) }
    ensures rounds { IfOk result (λ v. length v.1.items ≡ length rounds.items) }
    ensures healed { IfOk result (λ v. All (λ r. IsRound trace.now pool.now morgue.now r.medic r.slots.items) v.1.items) }
{
    let (healed, worked) = thread::join(
        rt,
        move || -> Result<Vec<Round<J>>, AllocError>
            requires { All (λ r. IsRound trace.now pool.now morgue.now r.medic r.slots.items) rounds.items × (J.pools ≡ pool.now ∷ []) }
        { heal_all(rt, pool, trace, morgue, gate, ended, rounds) },
        move || -> Result<Vec<Worked<J>>, AllocError>
            requires { ((i : ℕ) (d : _) → i < length tasks.items → let k = slice_index_or tasks.items i d in (k.job.token.account.who ≡ i) × IsTask trace.now pool.now morgue.now k.job k.porter) × (J.pools ≡ pool.now ∷ []) }
        { work_all(rt, pool, trace, morgue, gate, tasks) },
    );
    Ok((worked?, healed?))
}

/// The porters of workers, and what each leaves of its identity, in order, where there is room for all of them.
fn parts_in<J: Pools>(
    pool: &SharedPool,
    trace: &Trace,
    morgue: &Morgue<J>,
    works: Vec<Worked<J>>,
    mut porters: Vec<Porter<J>>,
    mut outcomes: Vec<Outcome>,
) -> (Vec<Porter<J>>, Vec<Outcome>)
    requires works { (i : ℕ) (d : _) → i < length works.items → let x = slice_index_or works.items i d in HasWorked trace.now pool.now morgue.now i x.porter x.outcome }
    requires none { (porters.items ≡ []) × (outcomes.items ≡ []) }
    requires room { (length works.items ≤ vec_capacity porters) × (length works.items ≤ vec_capacity outcomes) }
    ensures many { length result.0.items ≡ length works.items }
    ensures worked { HaveWorked trace.now pool.now morgue.now 0 result.0.items result.1.items }
{
    let _ = pool;
    let _ = trace;
    let _ = morgue;
    for worked in works {
        let Worked { porter, outcome } = worked;
        porters.push_reserved(porter);
        outcomes.push_reserved(outcome);
    }
    (porters, outcomes)
}

/// The porters of workers, and what each leaves of its identity, in order.
fn parts<J: Pools>(
    alloc: Global,
    pool: &SharedPool,
    trace: &Trace,
    morgue: &Morgue<J>,
    works: Vec<Worked<J>>,
) -> Result<(Vec<Porter<J>>, Vec<Outcome>), AllocError>
    requires { (i : ℕ) (d : _) → i < length works.items → let x = slice_index_or works.items i d in HasWorked trace.now pool.now morgue.now i x.porter x.outcome }
    ensures many { IfOk result (λ v. length v.0.items ≡ length works.items) }
    ensures worked { IfOk result (λ v. HaveWorked trace.now pool.now morgue.now 0 v.0.items v.1.items) }
{
    let porters = Vec::with_capacity(alloc, works.len())?;
    let outcomes = Vec::with_capacity(alloc, works.len())?;
    Ok(parts_in(pool, trace, morgue, works, porters, outcomes))
}

/// What lies in another place comes into this one.
fn merge_one(slot: &mut Option<Left>, other: &mut Option<Left>)
    ensures { slot.new ≡ either other.old slot.old }
{
    if let Some(left) = other.take() {
        *slot = Some(left);
    }
}

/// What lies in other places comes into these.
fn merge(slots: &mut [Option<Left>], others: &mut [Option<Left>])
    requires { length others.old ≡ length slots.old }
    ensures many { length slots.new ≡ length slots.old }
    ensures merged { (c : ℕ) → slice_index_or slots.new c None ≡ either (slice_index_or others.old c None) (slice_index_or slots.old c None) }
{
    for at in 0..others.len() {
        merge_one(&mut slots[at], &mut others[at]);
    }
}

/// The medics, and all that they rescued, where there is room for all of them.
fn gather_in<J: Pools>(
    pool: &SharedPool,
    trace: &Trace,
    morgue: &Morgue<J>,
    rounds: Vec<Round<J>>,
    mut medics: Vec<Medic<J>>,
    mut slots: Vec<Option<Left>>,
) -> (Vec<Medic<J>>, Vec<Option<Left>>)
    requires clients { pool.now.start.geometry.clients ≡ trace.now.clients }
    requires rounds { All (λ r. IsRound trace.now pool.now morgue.now r.medic r.slots.items) rounds.items }
    requires none { (medics.items ≡ []) × (slots.items ≡ replicate trace.now.clients None) }
    requires room { length rounds.items ≤ vec_capacity medics }
    ensures many { length result.0.items ≡ length rounds.items }
    ensures of { AllByRecursion (λ (m : AMedic). m.of ≡ morgue.now) result.0.items }
    ensures rescued { AreRescued trace.now pool.now (all_taken result.0.items) result.1.items }
{
    let _ = pool;
    let _ = trace;
    let _ = morgue;
    for round in rounds {
        let Round {
            number: _,
            medic,
            slots: mut others,
        } = round;
        merge(&mut slots, &mut others);
        medics.push_reserved(medic);
    }
    (medics, slots)
}

/// The medics, and all that they rescued.
fn gather<J: Pools>(
    alloc: Global,
    pool: &SharedPool,
    trace: &Trace,
    morgue: &Morgue<J>,
    rounds: Vec<Round<J>>,
) -> Result<(Vec<Medic<J>>, Vec<Option<Left>>), AllocError>
    requires clients { pool.now.start.geometry.clients ≡ trace.now.clients }
    requires rounds { All (λ r. IsRound trace.now pool.now morgue.now r.medic r.slots.items) rounds.items }
    ensures many { IfOk result (λ v. length v.0.items ≡ length rounds.items) }
    ensures of { IfOk result (λ v. AllByRecursion (λ (m : AMedic). m.of ≡ morgue.now) v.0.items) }
    ensures rescued { IfOk result (λ v. AreRescued trace.now pool.now (all_taken v.0.items) v.1.items) }
{
    let medics = Vec::with_capacity(alloc, rounds.len())?;
    let slots = blank_slots(alloc, clients_of(trace))?;
    Ok(gather_in(pool, trace, morgue, rounds, medics, slots))
}

/// What is left in a morgue whose porters and medics are all there.
fn close<J: Pools, R: Wait>(
    rt: &R,
    alloc: Global,
    morgue: Morgue<J>,
    porters: Vec<Porter<J>>,
    medics: Vec<Medic<J>>,
) -> Result<Vec<Taken>, AllocError>
    requires porters { AllByRecursion (λ (p : APorter). p.of ≡ morgue) porters.items }
    requires medics { AllByRecursion (λ (m : AMedic). m.of ≡ morgue) medics.items }
    requires all { (length porters.items ≡ morgue.clients) × (length medics.items ≡ morgue.medics) }
    ensures carried { IfOk result (λ v. IsCarried porters.items medics.items v.items) }
    ensures of { IfOk result (λ v. All (IsOf J.pools) v.items) }
{
    match morgue.close(rt, alloc, porters, medics) {
        Ok(left) => Ok(left),
        Err(stop) => {
            let MorgueStop {
                morgue: _,
                porters: _,
                medics: _,
                cause,
            } = stop;
            match cause {
                MorgueCause::Memory(error) => Err(error),
                MorgueCause::Absent { .. } => unreachable!(),
            }
        }
    }
}

/// The identities of the corpses that are left are recovered by the caller.
fn rescue_all<R: Wait>(
    rt: &R,
    pool: &SharedPool,
    trace: &Trace,
    left: Vec<Taken>,
    slots: &mut [Option<Left>],
)
    requires of { All (λ (x : ATaken). x.corpse.of ≡ pool.now) left.items }
    requires many { length slots.old ≡ pool.now.start.geometry.clients }
    ensures { (xs : List ATaken) → AreRescued trace.now pool.now xs slots.old → AreRescued trace.now pool.now (xs ++ left.items) slots.new }
{
    for taken in left {
        rescue_into(rt, pool, trace, taken, slots);
    }
}

/// What is done of each identity, in order.
fn all_done(
    alloc: Global,
    pool: &SharedPool,
    trace: &Trace,
    outcomes: Vec<Outcome>,
    slots: &mut [Option<Left>],
) -> Result<Vec<Done>, AllocError>
    requires many { length outcomes.items ≤ length slots.old }
    requires enough { AreEnough trace.now pool.now 0 outcomes.items slots.old }
    ensures many { IfOk result (λ v. length v.items ≡ length outcomes.items) }
    ensures dones { IfOk result (λ v. AreDones trace.now pool.now 0 v.items) }
{
    let _ = pool;
    let _ = trace;
    let mut dones = Vec::new(alloc);
    for outcome in outcomes {
        let at = dones.len();
        dones.push(outcome.done(&mut slots[at]))?;
    }
    Ok(dones)
}

/// All workers and all medics at work, with the porters and the medics of a morgue as it was made.
fn all_work<J: Pools + Send + Sync, A: Play + Send, R: Threads + Wait + Sync, G: Gate>(
    rt: &R,
    alloc: Global,
    pool: &SharedPool,
    trace: &Trace,
    morgue: &Morgue<J>,
    gate: &G,
    jobs: Vec<Job<A>>,
    porters: Vec<Porter<J>>,
    medics: Vec<Medic<J>>,
) -> Result<(Vec<Worked<J>>, Vec<Round<J>>), AllocError>
    requires pools { J.pools ≡ pool.now ∷ [] }
    requires clients { pool.now.start.geometry.clients ≡ trace.now.clients }
    requires jobs { AreJobs trace.now pool.now 0 jobs.items }
    requires porters { porters.items ≡ first_porters morgue.now 0 (length jobs.items) }
    requires medics { medics.items ≡ first_medics morgue.now morgue.now.medics }
    ensures tasks { IfOk result (λ v. length v.0.items ≡ length jobs.items) }
    ensures worked { IfOk result (λ v. (i : ℕ) (d : _) → i < length v.0.items → let x = slice_index_or v.0.items i d in HasWorked trace.now pool.now morgue.now i x.porter x.outcome) }
    ensures rounds { IfOk result (λ v. length v.1.items ≡ morgue.now.medics) }
    ensures healed { IfOk result (λ v. All (λ r. IsRound trace.now pool.now morgue.now r.medic r.slots.items) v.1.items) }
{
    let ended = AtomicU32::new(0);
    let tasks = all_tasks(alloc, pool, trace, morgue, &ended, jobs, porters)?;
    let rounds = all_rounds(alloc, pool, trace, morgue, medics)?;
    let (works, rounds) = all_at_work(rt, pool, trace, morgue, gate, &ended, tasks, rounds)?;
    Ok((works, rounds))
}

/// What is done of each identity, once workers and medics have ended: the morgue is closed, and what is left in it is recovered.
fn all_closed<J: Pools, R: Wait>(
    rt: &R,
    alloc: Global,
    pool: &SharedPool,
    trace: &Trace,
    morgue: Morgue<J>,
    works: Vec<Worked<J>>,
    rounds: Vec<Round<J>>,
) -> Result<Vec<Done>, AllocError>
    requires pools { J.pools ≡ pool.now ∷ [] }
    requires clients { pool.now.start.geometry.clients ≡ trace.now.clients }
    requires all { (length works.items ≡ trace.now.clients) × (morgue.clients ≡ trace.now.clients) × (length rounds.items ≡ morgue.medics) }
    requires worked { (i : ℕ) (d : _) → i < length works.items → let x = slice_index_or works.items i d in HasWorked trace.now pool.now morgue i x.porter x.outcome }
    requires healed { All (λ r. IsRound trace.now pool.now morgue r.medic r.slots.items) rounds.items }
    ensures many { IfOk result (λ v. length v.items ≡ trace.now.clients) }
    ensures dones { IfOk result (λ v. AreDones trace.now pool.now 0 v.items) }
{
    let (porters, outcomes) = parts(alloc, pool, trace, &morgue, works)?;
    let (medics, mut slots) = gather(alloc, pool, trace, &morgue, rounds)?;
    let left = close(rt, alloc, morgue, porters, medics)?;
    rescue_all(rt, pool, trace, left, &mut slots);
    all_done(alloc, pool, trace, outcomes, &mut slots)
}

/// What is done of each identity by workers and medics with a morgue of their own, and by the caller what they left in it.
fn run_in<J: Pools + Send + Sync, A: Play + Send, R: Threads + Wait + Sync, G: Gate>(
    rt: &R,
    alloc: Global,
    pool: &SharedPool,
    trace: &Trace,
    medics: u8,
    gate: &G,
    jobs: Vec<Job<A>>,
) -> Result<Vec<Done>, AllocError>
    requires pools { J.pools ≡ pool.now ∷ [] }
    requires medics { (1 ≤ medics) × (medics ≤ 4) }
    requires start { pool.now.start ≡ start_of trace.now }
    requires many { length jobs.items ≡ trace.now.clients }
    requires jobs { AreJobs trace.now pool.now 0 jobs.items }
    ensures many { IfOk result (λ v. length v.items ≡ trace.now.clients) }
    ensures dones { IfOk result (λ v. AreDones trace.now pool.now 0 v.items) }
{
    trace.in_grammar();
    let Made3 {
        morgue,
        porters,
        medics,
    } = Morgue::<J>::make(alloc, clients_of(trace), medics)?;
    let (works, rounds) = all_work(rt, alloc, pool, trace, &morgue, gate, jobs, porters, medics)?;
    all_closed(rt, alloc, pool, trace, morgue, works, rounds)
}

/// Runs a trace by workers and medics, whoever plays its scripts.
fn run_morgue_of<A: Play + Send, R: Threads + Wait + Sync, G: Gate>(
    rt: &R,
    alloc: Global,
    trace: &Trace,
    medics: u8,
    gate: &G,
) -> Result<Ran, AllocError>
    requires { (1 ≤ medics) × (medics ≤ 4) }
    ensures { IfOk result (λ r. (turns : List AMove) × IsTeamRun trace.now (pool_of r.closed.start r.closed.words r.closed.accounts turns) r.logs.items) }
{
    trace.in_grammar();
    let (pool, jobs) = begin::<A>(alloc, trace)?;
    let dones = run_in::<Brand, A, R, G>(rt, alloc, &pool, trace, medics, gate, jobs)?;
    settle(rt, alloc, trace, pool, dones)
}

/// Runs a trace by clients on threads, as `run_team` of shm_team does, but that a worker whose client died puts the corpse into a morgue, from
/// which medics, in threads of their own, take corpses and recover their identities by the further numbers of the life line, until one of these
/// recoverers succeeds or all of them died. A worker that finds no room recovers its identity itself, and the caller those whose corpses are
/// left. Then the caller visits each identity, one alone, and closes the pool.
///
/// Where a recoverer is told that the own era of its identity is spent, or where an agent of the closing dies, the call waits and never returns.
/// No clause tells whoever takes a corpse how many word steps its agents made, and so none that the era, which begins at 1, isn't spent; and none
/// tells that nobody else works on the pool while an identity is visited.
///
/// # Errors
///
/// Want of memory, and nothing else.
pub fn run_morgue<R: Threads + Wait + Sync, G: Gate>(
    rt: &R,
    alloc: Global,
    trace: &Trace,
    medics: u8,
    gate: &G,
) -> Result<Ran, AllocError>
    requires { (1 ≤ medics) × (medics ≤ 4) }
    ensures { IfOk result (λ r. (turns : List AMove) × IsTeamRun trace.now (pool_of r.closed.start r.closed.words r.closed.accounts turns) r.logs.items) }
{
    run_morgue_of::<Cast, R, G>(rt, alloc, trace, medics, gate)
}
