//! Commands of two clients on tables, on two threads, of which one client dies.

ghost use Rattle.std.specs.Prelude.{◌≡◌, ◌≢◌, ◌<◌, true, IfOk, IfErr, IfSome};
ghost use Rattle.shm_words.specs.Layout.{GeometryFits};
ghost use Rattle.shm_script.specs.Ranges.{LineFits};
ghost use Rattle.shm_pool.specs.{Called.HasCommanded, Tokens.token_first};
ghost use Rattle.t_pool.specs.Tables.{IsFirst, IsOpen, IsPeer, SameIdentity};

use crate::recovering::bury;
use crate::team::{pop_of, put_back};
use shm_graph::Life;
use shm_pool::{Client, Closed, Corpse, Reply, SharedPool, Vacant};
use shm_script::{Answer, Line};
use shm_words::Geometry;
use std::alloc::{AllocError, Global};
use std::thread;
use std::thread::Threads;

/// Joins a pool for tables, in one word step.
pub fn open(pool: &SharedPool, token: Vacant) -> Result<Client, Corpse>
    requires first { IsFirst pool.now token }
    ensures client { IfOk result (λ c. (c.of ≡ pool.now) × (c.account.who ≡ token.account.who)) }
    ensures open { IfOk result IsOpen }
    ensures err { IfErr result (λ c. c.of ≡ pool.now) }
{
    match token.join(pool, &mut Life::of(1)) {
        Ok(client) => Ok(client),
        Err(stopped) => Err(stopped.corpse),
    }
}

/// Runs the command of a line; none where the client died in it, or before.
pub fn run_line(
    client: &mut Client,
    pool: &SharedPool,
    life: &mut Life,
    line: &Line,
) -> Option<Answer>
    requires pool { client.old.of ≡ pool.now }
    requires open { IsOpen client.old }
    requires line { LineFits client.old.of.start.geometry.clients client.old.account.who line.now }
    ensures same { SameIdentity client.old client.new }
    ensures open { IsOpen client.new }
{
    // for the proof: it is a client's
    client.me();
    match client.command(pool, life, line) {
        Reply::Done(answer) => Some(answer),
        Reply::Died => None,
    }
}

/// A put, a copy of a key of `author`, a send to `other` and a receive from it; whether all were answered.
fn play_round(
    client: &mut Client,
    pool: &SharedPool,
    life: &mut Life,
    peers: (u8, u8),
    key: u32,
) -> Option<()>
    requires pool { client.old.of ≡ pool.now }
    requires open { IsOpen client.old }
    requires peers { IsPeer client.old peers.0 × (peers.1 < client.old.of.start.geometry.clients) }
    requires key { key < 16 }
    ensures same { SameIdentity client.old client.new }
    ensures open { IsOpen client.new }
{
    let (other, author) = peers;
    let put = Line::Put {
        key,
        number: u64::from(key),
    };
    let copy = Line::Copy {
        key: key + 16,
        author,
        other: key,
    };
    let recv = Line::Recv {
        from: other,
        key: key + 32,
    };
    run_line(client, pool, life, &put)?;
    run_line(client, pool, life, &copy)?;
    run_line(client, pool, life, &Line::Send { to: other, key })?;
    run_line(client, pool, life, &recv)?;
    Some(())
}

/// Plays so many rounds with the identity `other`, and copies from `author`; how many were answered whole before one wasn't.
pub fn play(
    client: &mut Client,
    pool: &SharedPool,
    life: &mut Life,
    peers: (u8, u8),
    rounds: u32,
) -> u32
    requires pool { client.old.of ≡ pool.now }
    requires open { IsOpen client.old }
    requires peers { IsPeer client.old peers.0 × (peers.1 < client.old.of.start.geometry.clients) }
    ensures same { SameIdentity client.old client.new }
    ensures open { IsOpen client.new }
{
    for round in 0..rounds {
        if play_round(client, pool, life, peers, round % 16).is_none() {
            return round;
        }
    }
    rounds
}

/// Plays and falls, after so many word steps at the latest.
fn play_and_fall(pool: &SharedPool, mut client: Client, peers: (u8, u8), steps: u64) -> Corpse
    requires pool { client.of ≡ pool.now }
    requires open { IsOpen client }
    requires peers { IsPeer client peers.0 × (peers.1 < client.of.start.geometry.clients) }
    ensures { result.of ≡ pool.now }
{
    play(&mut client, pool, &mut Life::of(steps), peers, 100);
    client.fall()
}

/// Plays on, and says how many rounds were answered.
fn play_on(pool: &SharedPool, mut client: Client, peers: (u8, u8)) -> (Client, u32)
    requires pool { client.of ≡ pool.now }
    requires open { IsOpen client }
    requires peers { IsPeer client peers.0 × (peers.1 < client.of.start.geometry.clients) }
    ensures same { SameIdentity client result.0 }
    ensures open { IsOpen result.0 }
{
    let rounds = play(&mut client, pool, &mut Life::of(u64::MAX), peers, 50);
    (client, rounds)
}

/// On two threads: identity 0 plays and falls, and identity 1 plays. That one copies its own keys, so that it waits for no latch of the dead.
fn fall_beside<R: Threads + Sync>(
    rt: &R,
    pool: &SharedPool,
    first: Client,
    second: Client,
    steps: u64,
) -> (Corpse, (Client, u32))
    requires pool { (first.of ≡ pool.now) × (second.of ≡ pool.now) }
    requires who { (first.account.who ≡ 0) × (second.account.who ≡ 1) }
    requires two { pool.now.start.geometry.clients ≡ 2 }
    requires open { IsOpen first × IsOpen second }
    ensures corpse { result.0.of ≡ pool.now }
    ensures client { SameIdentity second result.1.0 × IsOpen result.1.0 }
{
    thread::join(
        rt,
        move || play_and_fall(pool, first, (1, 1), steps),
        move || play_on(pool, second, (0, 1)),
    )
}

/// On two threads: the dead identity 0 is recovered, and identity 1 goes on, and copies keys of that one.
fn bury_beside<R: Threads + Sync>(
    rt: &R,
    pool: &SharedPool,
    corpse: Corpse,
    client: Client,
) -> (Result<Vacant, Corpse>, (Client, u32))
    requires pool { (corpse.of ≡ pool.now) × (client.of ≡ pool.now) }
    requires who { client.account.who ≡ 1 }
    requires two { pool.now.start.geometry.clients ≡ 2 }
    requires open { IsOpen client }
    ensures buried { IfOk result.0 (λ v. v.of ≡ pool.now) }
    ensures client { SameIdentity client result.1.0 × IsOpen result.1.0 }
{
    thread::join(
        rt,
        move || bury(pool, corpse, 1_000_000),
        move || play_on(pool, client, (0, 0)),
    )
}

/// What came of two clients that played: how many rounds the second one was answered beside the first client and beside its recovery, and
/// the closed pool.
#[derive(Drop)]
pub struct Played {
    pub beside: u32,
    pub on: u32,
    pub closed: Closed,
}

/// Plays with both clients of a pool for tables.
fn play_two<R: Threads + Sync>(
    rt: &R,
    pool: &SharedPool,
    zero: Vacant,
    one: Vacant,
    steps: u64,
) -> Option<(Vacant, Vacant, (u32, u32))>
    requires first { IsFirst pool.now zero × IsFirst pool.now one }
    requires who { (zero.account.who ≡ 0) × (one.account.who ≡ 1) }
    requires two { pool.now.start.geometry.clients ≡ 2 }
    ensures { IfSome result (λ r. (r.0.of ≡ pool.now) × (r.1.of ≡ pool.now)) }
{
    let (Ok(first), Ok(second)) = (open(pool, zero), open(pool, one)) else {
        return None;
    };
    let (corpse, (second, beside)) = fall_beside(rt, pool, first, second, steps);
    let (buried, (second, on)) = bury_beside(rt, pool, corpse, second);
    let zero = buried.ok()?;
    let one = bury(pool, second.fall(), 1_000_000).ok()?;
    Some((zero, one, (beside, on)))
}

/// A pool for tables of two clients that play a hundred rounds each. The first one falls after so many word steps at the latest, and is recovered
/// on another thread while the second one goes on; the pool is closed. None where an identity didn't join, or wasn't recovered.
pub fn play_and_close<R: Threads + Sync>(
    rt: &R,
    alloc: Global,
    geometry: Geometry,
    steps: u64,
) -> Result<Option<Played>, AllocError>
    requires geometry { GeometryFits geometry }
    requires two { geometry.clients ≡ 2 }
{
    let (pool, mut all) = SharedPool::make(alloc, geometry, 1, true)?;
    let Some(one) = pop_of(&pool, &mut all) else {
        return Ok(None);
    };
    let Some(zero) = pop_of(&pool, &mut all) else {
        return Ok(None);
    };
    if zero.client() != 0 || one.client() != 1 {
        return Ok(None);
    }
    let Some((zero, one, (beside, on))) = play_two(rt, &pool, zero, one, steps) else {
        return Ok(None);
    };
    put_back(&pool, &mut all, one)?;
    put_back(&pool, &mut all, zero)?;
    Ok(match pool.close(alloc, all) {
        Ok(closed) => Some(Played { beside, on, closed }),
        Err(_) => None,
    })
}
