//! A medic at work: it takes corpses and has their identities recovered, until all workers have ended and the queue is empty.

ghost use Rattle.std.specs.{Prelude.{◌≡◌, ◌++◌, ◌∷◌, IfOk, List, None, [], length, replicate}, List.All};
ghost use Rattle.shm_morgue.specs.{Crew.IsRound, Slots.AreRescued, declared.rule.Taken.Taken as ATaken};

use crate::gate::Gate;
use crate::morgue::{Medic, Morgue};
use crate::rescue::rescue;
use crate::rule::{Pools, Taken};
use shm_pool::SharedPool;
use shm_script::Trace;
use shm_team::Left;
use std::alloc::{AllocError, Global};
use std::marker::{Send, Sync};
use std::sync::Wait;
use std::sync::atomic::{AtomicU32, Ordering};
use std::thread;
use std::thread::Threads;

/// The work of a medic: by identity what it rescued.
#[derive(Drop)]
pub(crate) struct Round<J: Pools> {
    pub(crate) number: u8,
    pub(crate) medic: Medic<J>,
    pub(crate) slots: Vec<Option<Left>>,
}

/// How many identities a trace has.
pub(crate) fn clients_of(trace: &Trace) -> u8
    ensures { result ≡ trace.now.clients }
{
    trace.clients
}

/// A place for each identity, with nothing in it.
pub(crate) fn blank_slots(alloc: Global, clients: u8) -> Result<Vec<Option<Left>>, AllocError>
    ensures { IfOk result (λ v. v.items ≡ replicate clients None) }
{
    let mut slots = Vec::with_capacity(alloc, clients as usize)?;
    for _client in 0..clients {
        slots.push_reserved(None);
    }
    Ok(slots)
}

/// The identity of a corpse is recovered, and what is left of it is kept.
pub(crate) fn rescue_into<R: Wait>(
    rt: &R,
    pool: &SharedPool,
    trace: &Trace,
    taken: Taken,
    slots: &mut [Option<Left>],
)
    requires of { taken.corpse.of ≡ pool.now }
    requires many { length slots.old ≡ pool.now.start.geometry.clients }
    ensures many { length slots.new ≡ length slots.old }
    ensures rescued { (xs : List ATaken) → AreRescued trace.now pool.now xs slots.old → AreRescued trace.now pool.now (xs ++ taken ∷ []) slots.new }
{
    let Taken { corpse, number: _ } = taken;
    let client = corpse.client();
    slots[client as usize] = Some(rescue(rt, pool, trace, corpse));
}

/// A medic works until all workers have ended and the queue is empty behind them.
fn heal<J: Pools, R: Wait, G: Gate>(
    rt: &R,
    pool: &SharedPool,
    trace: &Trace,
    morgue: &Morgue<J>,
    gate: &G,
    ended: &AtomicU32,
    round: Round<J>,
) -> Round<J>
    requires round { IsRound trace.now pool.now morgue.now round.medic round.slots.items }
    requires pools { J.pools ≡ pool.now ∷ [] }
    ensures { IsRound trace.now pool.now morgue.now result.medic result.slots.items }
{
    let Round {
        number,
        mut medic,
        mut slots,
    } = round;
    let clients = clients_of(trace);
    for _look in rt.forever() {
        let over = ended.load(Ordering::SeqCst) >= clients as u32;
        match medic.take(rt, morgue) {
            Some(taken) => {
                gate.rescue(number, taken.corpse.client());
                rescue_into(rt, pool, trace, taken, &mut slots);
            }
            None => {
                if over {
                    break;
                }
            }
        }
    }
    Round {
        number,
        medic,
        slots,
    }
}

/// Each medic at work, each in a thread of its own where one can be made. Where none can, the caller does that work itself.
pub(crate) fn heal_all<J: Pools + Send + Sync, R: Threads + Wait + Sync, G: Gate>(
    rt: &R,
    pool: &SharedPool,
    trace: &Trace,
    morgue: &Morgue<J>,
    gate: &G,
    ended: &AtomicU32,
    rounds: Vec<Round<J>>,
) -> Result<Vec<Round<J>>, AllocError>
    requires rounds { All (λ r. IsRound trace.now pool.now morgue.now r.medic r.slots.items) rounds.items }
    requires pools { J.pools ≡ pool.now ∷ [] }
    ensures many { IfOk result (λ v. length v.items ≡ length rounds.items) }
    ensures rounds { IfOk result (λ v. All (λ r. IsRound trace.now pool.now morgue.now r.medic r.slots.items) v.items) }
{
    thread::map_vec(
        rt,
        rounds,
        &|round: Round<J>| -> Round<J>
            requires { IsRound trace.now pool.now morgue.now round.medic round.slots.items × (J.pools ≡ pool.now ∷ []) }
            ensures { IsRound trace.entry.now pool.entry.now morgue.entry.now result.medic result.slots.items }
        { heal(rt, pool, trace, morgue, gate, ended, round) },
    )
}
