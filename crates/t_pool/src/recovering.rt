//! Clients that fall, and their recovery.

ghost use Rattle.std.specs.Prelude.{◌≡◌, IfOk, IfErr, IfSome};
ghost use Rattle.shm_words.specs.Layout.{GeometryFits};
ghost use Rattle.shm_pool.specs.Calls.{IsBetween};

use crate::team::{pop_of, put_back, visit, work};
use shm_graph::{Life, Turn};
use shm_pool::{Client, Closed, Corpse, SharedPool, Vacant};
use shm_words::Geometry;
use std::alloc::{AllocError, Global};
use std::thread;
use std::thread::Threads;

/// Recovers a corpse. Where so many word steps don't do, or the own era leaves no room, there is a corpse again.
pub fn bury(pool: &SharedPool, corpse: Corpse, steps: u64) -> Result<Vacant, Corpse>
    requires of { corpse.of ≡ pool.now }
    ensures ok { IfOk result (λ v. v.of ≡ pool.now) }
    ensures err { IfErr result (λ c. c.of ≡ pool.now) }
{
    let mut life = Life::of(steps);
    match corpse.recover(pool, &mut life) {
        Ok(token) => Ok(token),
        Err(stopped) => Err(stopped.corpse),
    }
}

/// The same, one word step at a time.
pub fn rescue(pool: &SharedPool, corpse: Corpse, steps: u64) -> Result<Vacant, Corpse>
    requires of { corpse.of ≡ pool.now }
    ensures ok { IfOk result (λ v. v.of ≡ pool.now) }
    ensures err { IfErr result (λ c. c.of ≡ pool.now) }
{
    let mut life = Life::of(steps);
    let mut rescuer = corpse.start();
    while let Turn::More = rescuer.step(pool, &mut life) {}
    rescuer.end()
}

/// Joins, works and falls, after so many word steps at the latest.
fn visit_and_fall(pool: &SharedPool, token: Vacant, steps: u64) -> Corpse
    requires of { token.of ≡ pool.now }
    ensures { result.of ≡ pool.now }
{
    match visit(pool, token, steps) {
        Ok(visited) => visited.client.fall(),
        Err(corpse) => corpse,
    }
}

/// Joins.
fn enter(pool: &SharedPool, token: Vacant) -> Result<Client, Corpse>
    requires of { token.of ≡ pool.now }
    ensures of { IfOk result (λ c. c.of ≡ pool.now) }
    ensures between { IfOk result (λ c. IsBetween c.account) }
{
    let mut life = Life::of(1);
    match token.join(pool, &mut life) {
        Ok(client) => Ok(client),
        Err(stopped) => Err(stopped.corpse),
    }
}

/// Works and falls; the block that it made and freed, where the work was done.
fn work_and_fall(pool: &SharedPool, mut client: Client, steps: u64) -> (Corpse, Option<u32>)
    requires of { client.of ≡ pool.now }
    requires between { IsBetween client.account }
    ensures { result.0.of ≡ pool.now }
{
    let mut life = Life::of(steps);
    let block = work(&mut client, pool, &mut life);
    (client.fall(), block)
}

/// On two threads a client that falls after so many word steps at the latest, and one that joins.
fn fall_beside<R: Threads + Sync>(
    rt: &R,
    pool: &SharedPool,
    a: Vacant,
    b: Vacant,
    steps: u64,
) -> (Corpse, Result<Client, Corpse>)
    requires of { (a.of ≡ pool.now) × (b.of ≡ pool.now) }
    ensures corpse { result.0.of ≡ pool.now }
    ensures of { IfOk result.1 (λ c. c.of ≡ pool.now) }
    ensures between { IfOk result.1 (λ c. IsBetween c.account) }
{
    thread::join(
        rt,
        move || visit_and_fall(pool, a, steps),
        move || enter(pool, b),
    )
}

/// On two threads the recovery of a corpse, in single steps, and the work of a client.
fn bury_beside<R: Threads + Sync>(
    rt: &R,
    pool: &SharedPool,
    corpse: Corpse,
    client: Client,
    steps: u64,
) -> (Result<Vacant, Corpse>, (Corpse, Option<u32>))
    requires of { (corpse.of ≡ pool.now) × (client.of ≡ pool.now) }
    requires between { IsBetween client.account }
    ensures buried { IfOk result.0 (λ v. v.of ≡ pool.now) }
    ensures corpse { result.1.0.of ≡ pool.now }
{
    thread::join(
        rt,
        move || rescue(pool, corpse, steps),
        move || work_and_fall(pool, client, steps),
    )
}

/// A pool of two clients. One falls after so many word steps at the latest, and is recovered on another thread while the other client
/// works; that one falls too and is recovered, and the pool is closed. None where the work or a recovery wasn't done.
pub fn recover_and_close<R: Threads + Sync>(
    rt: &R,
    alloc: Global,
    geometry: Geometry,
    steps: u64,
) -> Result<Option<Closed>, AllocError>
    requires geometry { GeometryFits geometry }
    ensures { IfOk result (λ o. IfSome o (λ c. c.start.geometry ≡ geometry)) }
{
    let (pool, mut all) = SharedPool::make(alloc, geometry, 1, false)?;
    let Some(b) = pop_of(&pool, &mut all) else {
        return Ok(None);
    };
    let Some(a) = pop_of(&pool, &mut all) else {
        return Ok(None);
    };
    let (corpse, entered) = fall_beside(rt, &pool, a, b, steps);
    let Ok(client) = entered else {
        return Ok(None);
    };
    let (buried, (fallen, block)) = bury_beside(rt, &pool, corpse, client, 10_000);
    let Ok(a) = buried else {
        return Ok(None);
    };
    let Ok(b) = bury(&pool, fallen, 10_000) else {
        return Ok(None);
    };
    put_back(&pool, &mut all, b)?;
    put_back(&pool, &mut all, a)?;
    if block.is_none() {
        return Ok(None);
    }
    Ok(pool.close(alloc, all).ok())
}
