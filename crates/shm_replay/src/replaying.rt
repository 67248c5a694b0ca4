//! Replays of whole traces.

ghost use Rattle.std.specs.Prelude.{◌≡◌, ℕ, ◌+◌, ◌<◌, ◌≤◌, ◌++◌, true, None, Some, List, [], length, vec_len, vec_capacity, slice_get, slice_index_or, slice_set, IfOk, MatchOption};
ghost use Rattle.shm_words.specs.Layout.{GeometryFits};
ghost use Rattle.shm_graph.specs.{declared.memo.Status.TheVariants.Gone, Runs.account_at};
ghost use Rattle.shm_plain.specs.Pools.{Pool as APool, IsRun, first_pool, memo_of};
ghost use Rattle.shm_script.specs.Values.{Scripted as AScript};
ghost use Rattle.shm_agents.specs.Turns.{script_in};
ghost use Rattle.shm_replay.specs.{Closings.{AreVisits, HasTold, SameTable, is_dead}, Gathered.{log_at, logs_by}};
ghost use Rattle.shm_replay.specs.{Orders.IsGivenAll, Replays.{IsReplay, start_of}, Seats.{AreSeated, Seat}};

use crate::closing::visit_all;
use crate::order::{give_items, give_rounds};
use shm_graph::Me;
use shm_plain::{PlainClosed, PlainPool};
use shm_play::cast::Cast;
use shm_play::play::Play;
use shm_play::players::Players;
use shm_script::{Log, Script, Trace};
use shm_words::Geometry;
use std::alloc::{AllocError, Global};

/// What a replay leaves: the closed pool, and the logs of the clients in the order of the scripts.
#[derive(Drop)]
pub struct Replayed {
    pub closed: PlainClosed,
    pub logs: Vec<Log>,
}

/// The sizes and the format of a trace's pool.
pub fn geometry_of(trace: &Trace) -> Geometry
    ensures geometry { result ≡ (start_of trace.now).geometry }
    ensures fits { GeometryFits result }
{
    trace.in_grammar();
    if trace.wide {
        Geometry::wide(trace.clients, trace.segments).unwrap()
    } else {
        Geometry::new(trace.clients, trace.segments).unwrap()
    }
}

/// Which of the scripts is that of the identity.
fn script_of(scripts: &[Script], who: u8) -> Option<usize>
    ensures { MatchOption result (script_in scripts.now who ≡ None) (λ at. (s : AScript) × (slice_get scripts.now at ≡ Some s) × (script_in scripts.now who ≡ Some s)) }
{
    for (at, script) in scripts.iter().enumerate() {
        if script.client == who {
            return Some(at);
        }
    }
    None
}

/// The agents of an identity before their first word step, if the identity has a script.
pub fn agents_of<A: Play>(
    alloc: Global,
    geometry: Geometry,
    trace: &Trace,
    who: u8,
) -> Result<Option<Players<A>>, AllocError>
    requires geometry { geometry ≡ (start_of trace.now).geometry }
    requires fits { GeometryFits geometry }
    requires who { who < trace.now.clients }
    ensures { IfOk result (λ o. Seat trace.now (first_pool (start_of trace.now)) who o) }
{
    trace.in_grammar();
    let scripts = trace.scripts.as_slice();
    match script_of(scripts, who) {
        None => Ok(None),
        Some(at) => {
            let agents = Players::new(alloc, Me::new(geometry, who), at, &scripts[at])?;
            Ok(Some(agents))
        }
    }
}

/// The agents of all identities, by number, before their first word steps.
fn all_agents<A: Play>(
    alloc: Global,
    geometry: Geometry,
    trace: &Trace,
) -> Result<Vec<Option<Players<A>>>, AllocError>
    requires geometry { geometry ≡ (start_of trace.now).geometry }
    requires fits { GeometryFits geometry }
    ensures { IfOk result (λ v. AreSeated trace.now (first_pool (start_of trace.now)) v.items) }
{
    let mut all = Vec::with_capacity(alloc, trace.clients as usize)?;
    for who in 0..trace.clients {
        let agents = agents_of(alloc, geometry, trace, who)?;
        all.push_reserved(agents);
    }
    Ok(all)
}

/// Gives the turns of the trace, and closes the pool.
fn play<A: Play>(agents: &mut [Option<Players<A>>], trace: &Trace, pool: &mut PlainPool)
    requires seated { AreSeated trace.now pool.old agents.old }
    requires start { pool.old.start ≡ start_of trace.now }
    ensures played { (q : APool) × IsGivenAll trace.now pool.old q × AreSeated trace.now q agents.new × AreVisits 0 trace.now.clients q pool.new × IsRun q × ((c : ℕ) → c < trace.now.clients → SameTable (memo_of q c) (memo_of pool.new c)) × ((c : ℕ) → c < trace.now.clients → is_dead (slice_index_or agents.new c None) ≡ true → HasTold (account_at q.accounts c) (account_at pool.new.accounts c)) }
    ensures gone { (c : ℕ) → c < trace.now.clients → (memo_of pool.new c).status ≡ Gone }
    ensures start { pool.new.start ≡ pool.old.start }
{
    give_items(agents, trace, pool);
    give_rounds(agents, trace, pool);
    // for the proof: the pool is a run
    pool.geometry();
    visit_all(pool, agents);
}

/// Takes the log of the client of an identity, if it has one.
fn take_log<A: Play>(agents: &mut [Option<Players<A>>], who: u8, logs: &mut Vec<Log>)
    requires who { who < length agents.old }
    requires room { vec_len logs.old < vec_capacity logs.old }
    ensures count { vec_len logs.new ≤ vec_len logs.old + 1 }
    ensures logs { logs.new.items ≡ logs.old.items ++ log_at (slice_index_or agents.old who None) }
    ensures taken { agents.new ≡ slice_set agents.old who None }
    ensures room { vec_capacity logs.new ≡ vec_capacity logs.old }
{
    match agents[who as usize].take() {
        None => {}
        Some(own) => logs.push_reserved(own.log()),
    }
}

/// Takes the logs of the scripts' clients, in the order of the scripts.
pub fn take_logs<A: Play>(agents: &mut [Option<Players<A>>], trace: &Trace, logs: &mut Vec<Log>)
    requires many { length agents.old ≡ trace.now.clients }
    requires empty { logs.old.items ≡ [] }
    requires none { vec_len logs.old ≡ 0 }
    requires room { length trace.now.scripts ≤ vec_capacity logs.old }
    ensures { logs.new.items ≡ logs_by trace.now.scripts agents.old }
{
    trace.in_grammar();
    for script in trace.scripts.as_slice() {
        take_log(agents, script.client, logs);
    }
}

/// Replays a trace, whatever plays its scripts.
fn replay_of<A: Play>(alloc: Global, trace: &Trace) -> Result<Replayed, AllocError>
    ensures { IfOk result (λ r. IsReplay trace.now r.closed r.logs.items) }
{
    trace.in_grammar();
    let geometry = geometry_of(trace);
    let mut pool = PlainPool::make(alloc, geometry, 1, true)?;
    let mut agents = all_agents::<A>(alloc, geometry, trace)?;
    let mut logs = Vec::with_capacity(alloc, trace.scripts.len())?;
    play(&mut agents, trace, &mut pool);
    take_logs(&mut agents, trace, &mut logs);
    Ok(Replayed {
        closed: pool.close(),
        logs,
    })
}

/// Replays a trace: the turns of its order, rounds until no agent has anything left to do, and the closing. It takes all its memory first.
///
/// # Errors
///
/// Want of memory, and nothing else.
pub fn replay(alloc: Global, trace: &Trace) -> Result<Replayed, AllocError>
    ensures { IfOk result (λ r. IsReplay trace.now r.closed r.logs.items) }
{
    replay_of::<Cast>(alloc, trace)
}
