//! A block that two clients share, each on a thread of its own, where one of them dies.

ghost use Rattle.std.specs.Prelude.{◌≡◌, ◌≢◌, ◌<◌, [], IfOk, IfSome};
ghost use Rattle.shm_words.specs.Layout.{GeometryFits};
ghost use Rattle.shm_pool.specs.{Called.{HasRoot, Rests}, Tokens.{first_tokens, token_first}};
ghost use Rattle.t_uses.specs.Sharing.{IsFirst, IsQuiet, SameIdentity};

use shm_alloc::alloc_keeps;
use shm_count::Made;
use shm_graph::Life;
use shm_pool::{Client, Closed, Corpse, Reply, SharedPool, Vacant, alloc_gives};
use shm_queue::receive_keeps;
use shm_words::Geometry;
use std::alloc::{AllocError, Global};
use std::thread;
use std::thread::Threads;

/// Joins a pool for single calls.
fn enter(pool: &SharedPool, token: Vacant) -> Option<Client>
    requires first { IsFirst pool.now token }
    ensures client { IfSome result (λ c. (c.of ≡ pool.now) × (c.account.who ≡ token.account.who)) }
    ensures quiet { IfSome result IsQuiet }
{
    match token.join(pool, &mut Life::of(1)) {
        Ok(client) => Some(client),
        Err(_) => None,
    }
}

/// Makes a block that holds 77; a root names it.
fn make(client: &mut Client, pool: &SharedPool, life: &mut Life) -> Option<Made>
    requires pool { client.old.of ≡ pool.now }
    requires quiet { IsQuiet client.old }
    ensures same { SameIdentity client.old client.new }
    ensures rests { Rests client.new }
    ensures root { IfSome result (λ made. HasRoot made client.new × IsQuiet client.new) }
{
    // for the proof: what an allocation leaves
    alloc_gives();
    alloc_keeps();
    match client.alloc(pool, life, 0, &[77]) {
        Ok(Reply::Done(Ok(made))) => Some(made),
        _ => None,
    }
}

/// Makes such a block, and sends it to the identity `to`.
fn give(client: &mut Client, pool: &SharedPool, life: &mut Life, to: u8) -> Option<Made>
    requires pool { client.old.of ≡ pool.now }
    requires quiet { IsQuiet client.old }
    requires to { (to < client.old.of.start.geometry.clients) × (client.old.account.who ≢ to) }
    ensures same { SameIdentity client.old client.new }
    ensures rests { Rests client.new }
    ensures root { IfSome result (λ made. made.root < 16) }
{
    let made = make(client, pool, life)?;
    match client.send(pool, life, to, made.block) {
        Reply::Done(Ok(_)) => Some(made),
        _ => None,
    }
}

/// Receives a block of the identity `from`; a root names it.
fn take(client: &mut Client, pool: &SharedPool, life: &mut Life, from: u8) -> Option<Made>
    requires pool { client.old.of ≡ pool.now }
    requires quiet { IsQuiet client.old }
    requires from { (from < client.old.of.start.geometry.clients) × (from ≢ client.old.account.who) }
    ensures same { SameIdentity client.old client.new }
    ensures rests { Rests client.new }
    ensures root { IfSome result (λ made. HasRoot made client.new) }
{
    // for the proof: what a receive leaves
    receive_keeps();
    let Reply::Done(Ok(made)) = client.receive(pool, life, from) else {
        return None;
    };
    if made.block == 0 { None } else { Some(made) }
}

/// Reads the first plain word of a block that a root names, and drops that root.
fn read_and_drop(client: &mut Client, pool: &SharedPool, life: &mut Life, made: Made) -> Option<u64>
    requires pool { client.old.of ≡ pool.now }
    requires rests { Rests client.old }
    requires root { HasRoot made client.old }
    ensures same { SameIdentity client.old client.new }
    ensures rests { Rests client.new }
{
    let Reply::Done(Ok(word)) = client.read(pool, life, made.block, 0) else {
        return None;
    };
    let Reply::Done(Ok(true)) = client.drop_root(pool, life, made.root) else {
        return None;
    };
    Some(word)
}

/// Recovers a corpse.
pub fn bury(pool: &SharedPool, corpse: Corpse) -> Option<Vacant>
    requires { corpse.of ≡ pool.now }
    ensures { IfSome result (λ v. v.of ≡ pool.now) }
{
    match corpse.recover(pool, &mut Life::of(100_000)) {
        Ok(vacant) => Some(vacant),
        Err(_) => None,
    }
}

/// Drops a root, and dies after so many word steps at the latest; and is recovered.
fn drop_and_die(pool: &SharedPool, mut client: Client, root: u8, steps: u64) -> Option<Vacant>
    requires pool { client.of ≡ pool.now }
    requires rests { Rests client }
    requires root { root < 16 }
    ensures { IfSome result (λ v. v.of ≡ pool.now) }
{
    client.drop_root(pool, &mut Life::of(steps), root);
    bury(pool, client.fall())
}

/// Receives and reads the block of the identity 0, and falls; and is recovered.
fn take_and_fall(pool: &SharedPool, mut client: Client) -> Option<(u64, Vacant)>
    requires pool { client.of ≡ pool.now }
    requires quiet { IsQuiet client }
    requires who { client.account.who ≡ 1 }
    ensures { IfSome result (λ r. r.1.of ≡ pool.now) }
{
    let mut life = Life::of(100_000);
    let made = take(&mut client, pool, &mut life, 0)?;
    let word = read_and_drop(&mut client, pool, &mut life, made)?;
    let vacant = bury(pool, client.fall())?;
    Some((word, vacant))
}

/// Client 0 makes a block and sends it to client 1. Then, on two threads, client 0 drops its root and dies after so many word steps at the latest, and
/// client 1 receives the block and reads it, which lives on for it whatever becomes of client 0. The word that was read, and both tokens.
fn share_beside<R: Threads + Sync>(
    rt: &R,
    pool: &SharedPool,
    zero: Vacant,
    one: Vacant,
    steps: u64,
) -> Option<(u64, Vacant, Vacant)>
    requires first { IsFirst pool.now zero × IsFirst pool.now one }
    requires who { (zero.account.who ≡ 0) × (one.account.who ≡ 1) }
    requires two { pool.now.start.geometry.clients ≡ 2 }
    ensures { IfSome result (λ r. (r.1.of ≡ pool.now) × (r.2.of ≡ pool.now)) }
{
    let mut first = enter(pool, zero)?;
    let second = enter(pool, one)?;
    let made = give(&mut first, pool, &mut Life::of(100_000), 1)?;
    let (dropped, taken) = thread::join(
        rt,
        move || drop_and_die(pool, first, made.root, steps),
        move || take_and_fall(pool, second),
    );
    let (word, one) = taken?;
    Some((word, dropped?, one))
}

/// Takes the tokens of a pool of two identities.
fn take_two(pool: &SharedPool, all: &mut Vec<Vacant>) -> Option<(Vacant, Vacant)>
    requires { all.old.items ≡ first_tokens pool.now 0 2 }
    ensures tokens { IfSome result (λ r. (r.0 ≡ token_first pool.now 0) × (r.1 ≡ token_first pool.now 1)) }
    ensures none { IfSome result (λ r. all.new.items ≡ []) }
{
    // for the proof: the contract alone speaks of the pool
    let _ = pool;
    let one = all.pop()?;
    let zero = all.pop()?;
    Some((zero, one))
}

/// Shares a block so in a pool of its own, and closes it: the word that was read, and the pool.
pub fn shared_while_one_dies<R: Threads + Sync>(
    rt: &R,
    alloc: Global,
    geometry: Geometry,
    steps: u64,
) -> Result<Option<(u64, Closed)>, AllocError>
    requires geometry { GeometryFits geometry × (geometry.clients ≡ 2) }
    ensures { IfOk result (λ o. IfSome o (λ r. r.1.start.geometry ≡ geometry)) }
{
    let (pool, mut all) = SharedPool::make(alloc, geometry, 1, false)?;
    let Some((zero, one)) = take_two(&pool, &mut all) else {
        return Ok(None);
    };
    let Some((word, zero, one)) = share_beside(rt, &pool, zero, one, steps) else {
        return Ok(None);
    };
    all.push(one)?;
    all.push(zero)?;
    Ok(match pool.close(alloc, all) {
        Ok(closed) => Some((word, closed)),
        Err(_) => None,
    })
}
