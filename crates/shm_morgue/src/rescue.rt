//! The recoverers of an identity whose client died, one after the other.

ghost use Rattle.std.specs.Prelude.{◌≡◌, ◌+◌, ◌<◌, ℕ, MatchOption, None, Some, length, slice_get, slice_index};
ghost use Rattle.shm_agents.specs.Turns.{lives_of, script_in};
ghost use Rattle.shm_script.specs.{Logged.Logged as ALog, Values.Scripted as AScript};
ghost use Rattle.shm_team.specs.{Dones.IsFinished, Lefts.token_in};
ghost use Rattle.shm_morgue.specs.Dead.{AreDead, IsNext, IsRescue, left_by};

use shm_graph::{Life, Turn};
use shm_pool::{Corpse, Rescuer, SharedPool};
use shm_script::{Script, Trace};
use shm_team::Left;
use std::sync::Wait;

/// How many word steps the last recoverer of an identity has.
const LIFE: u64 = 1 << 40;

/// Waits and never returns.
fn never<R: Wait, T>(rt: &R) -> T
    ensures { ⊥ }
{
    for _ in rt.forever() {}
    unreachable!()
}

/// How many agents a script with this life line has at most.
fn agents_of(life: &[u64]) -> usize
    ensures { result ≡ length (lives_of life.now) }
{
    if life.is_empty() { 2 } else { life.len() + 1 }
}

/// The word steps of the agent with this number, of a script with this life line.
fn life_at(life: &[u64], agent: usize) -> u64
    requires { agent < length (lives_of life.now) }
    ensures { result ≡ slice_index (lives_of life.now) agent }
{
    if agent < life.len() {
        life[agent]
    } else {
        LIFE
    }
}

/// The token of an identity whose recoverer has ended or died.
fn give_back(rescuer: Rescuer) -> Left
    ensures { result ≡ left_by rescuer }
{
    match rescuer.end() {
        Ok(token) => Left::Vacant(token),
        Err(corpse) => Left::Corpse(corpse),
    }
}

/// A recoverer with so many word steps recovers the identity; or it dies, and the corpse is its.
///
/// Where it is told that the identity's own era is spent this never returns.
fn recover<R: Wait>(rt: &R, pool: &SharedPool, corpse: Corpse, steps: u64) -> Left
    requires { corpse.of ≡ pool.now }
    ensures of { (token_in result).of ≡ pool.now }
    ensures next { (s : AScript) (n : ℕ) (l : ALog) → slice_get (lives_of s.life) n ≡ Some steps → AreDead pool.now s n l corpse → IsNext pool.now s (n + 1) l result }
{
    let mut life = Life::of(steps);
    let mut rescuer = corpse.start();
    'steps: loop {
        match rescuer.step(pool, &mut life) {
            Turn::More => {}
            Turn::Died => return give_back(rescuer),
            Turn::Done(Ok(())) => return give_back(rescuer),
            Turn::Done(Err(_)) => return never(rt),
        }
    }
}

/// The agents that come behind the client, each with its number of the life line, until one of them recovers the identity, or none is left.
fn recover_by<R: Wait>(rt: &R, pool: &SharedPool, life: &[u64], corpse: Corpse) -> Left
    requires { corpse.of ≡ pool.now }
    ensures { (s : AScript) (l : ALog) → s.life ≡ life.now → AreDead pool.now s 1 l corpse → IsFinished pool.now s l result }
{
    let mut last = corpse;
    for agent in 1..agents_of(life) {
        match recover(rt, pool, last, life_at(life, agent)) {
            Left::Vacant(token) => return Left::Vacant(token),
            Left::Corpse(next) => last = next,
        }
    }
    Left::Corpse(last)
}

/// The script of a client.
fn script_of(scripts: &[Script], client: u8) -> Option<&Script>
    ensures { MatchOption result (script_in scripts.now client ≡ None) (λ s. script_in scripts.now client ≡ Some s.now) }
{
    for script in scripts {
        if script.client == client {
            return Some(script);
        }
    }
    None
}

/// The identity of a corpse is recovered by the agents that come behind its client. Where all of them die the corpse is the last one's.
pub(crate) fn rescue<R: Wait>(rt: &R, pool: &SharedPool, trace: &Trace, corpse: Corpse) -> Left
    requires { corpse.of ≡ pool.now }
    ensures { IsRescue trace.now pool.now corpse result }
{
    match script_of(trace.scripts.as_slice(), corpse.client()) {
        None => Left::Corpse(corpse),
        Some(script) => recover_by(rt, pool, script.life.as_slice(), corpse),
    }
}
