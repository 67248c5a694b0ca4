//! Replays of whole traces, watched.

ghost use Rattle.std.specs.Prelude.{◌≡◌, ◌<◌, [], IfErr, IfOk};
ghost use Rattle.shm_words.specs.Layout.{GeometryFits};
ghost use Rattle.shm_plain.specs.Pools.{Pool as APool, first_pool};
ghost use Rattle.shm_replay.specs.{Orders.IsGivenAll, Replays.start_of, Seats.AreSeated};
ghost use Rattle.shm_watch.specs.Turns.{shown_of};

use crate::order::{give_items, give_rounds};
use crate::shown::Watcher;
use crate::watched::Watched;
use shm_plain::PlainPool;
use shm_play::cast::Cast;
use shm_play::play::Play;
use shm_play::players::Players;
use shm_replay::replaying::{agents_of, geometry_of};
use shm_script::Trace;
use shm_words::Geometry;
use std::alloc::{AllocError, Global};

/// The agents of all identities, by number, before their first word steps.
fn all_agents<A: Play>(
    alloc: Global,
    geometry: Geometry,
    trace: &Trace,
) -> Result<Vec<Option<Players<A>>>, AllocError>
    requires geometry { geometry ≡ (start_of trace.now).geometry }
    requires fits { GeometryFits geometry }
    ensures { IfOk result (λ v. AreSeated trace.now (first_pool (start_of trace.now)) v.items) }
{
    let mut all = Vec::with_capacity(alloc, trace.clients as usize)?;
    for who in 0..trace.clients {
        let agents = agents_of(alloc, geometry, trace, who)?;
        all.push_reserved(agents);
    }
    Ok(all)
}

/// Gives the turns of the trace.
fn play<A: Play, W: Watcher>(
    agents: &mut [Option<Players<A>>],
    trace: &Trace,
    pool: &mut Watched<W>,
)
    requires { AreSeated trace.now pool.old agents.old }
    ensures { IsGivenAll trace.now pool.old pool.new }
{
    give_items(agents, trace, pool);
    give_rounds(agents, trace, pool);
}

/// The agents of all identities and their pool, before the first turn.
fn stage<A: Play>(
    alloc: Global,
    trace: &Trace,
) -> Result<(Vec<Option<Players<A>>>, PlainPool), AllocError>
    ensures seated { IfOk result (λ s. AreSeated trace.now s.1 s.0.items) }
    ensures first { IfOk result (λ s. s.1 ≡ first_pool (start_of trace.now)) }
{
    trace.in_grammar();
    let geometry = geometry_of(trace);
    let agents = all_agents::<A>(alloc, geometry, trace)?;
    let pool = PlainPool::make(alloc, geometry, 1, true)?;
    Ok((agents, pool))
}

/// Shows the turns that a trace gives, whatever plays its scripts.
fn watch_by<A: Play, W: Watcher>(alloc: Global, trace: &Trace, watcher: W) -> Result<W, W>
    requires { W.saw watcher [] }
    ensures shown { IfOk result (λ w. (p : APool) × IsGivenAll trace.now (first_pool (start_of trace.now)) p × W.saw w (shown_of p.turns)) }
    ensures short { IfErr result (λ w. w ≡ watcher) }
{
    let (mut agents, pool) = match stage::<A>(alloc, trace) {
        Ok(stage) => stage,
        Err(_) => return Err(watcher),
    };
    let mut pool = Watched::new(pool, watcher);
    play(&mut agents, trace, &mut pool);
    Ok(pool.watcher())
}

/// Shows the turns of a trace's replay to a watcher: those of its order, and rounds until no agent has anything left to do. The closing of the pool
/// isn't shown.
///
/// # Errors
///
/// Want of memory, and nothing else. Then the watcher was shown nothing, and is handed back as it was.
pub fn watch<W: Watcher>(alloc: Global, trace: &Trace, watcher: W) -> Result<W, W>
    requires { W.saw watcher [] }
    ensures shown { IfOk result (λ w. (p : APool) × IsGivenAll trace.now (first_pool (start_of trace.now)) p × W.saw w (shown_of p.turns)) }
    ensures short { IfErr result (λ w. w ≡ watcher) }
{
    watch_by::<Cast, W>(alloc, trace, watcher)
}
