//! What a client does, and two of them on two threads.

ghost use Rattle.std.specs.Prelude.{◌≡◌, ◌<◌, false, IfOk, IfErr, IfSome};
ghost use Rattle.shm_words.specs.Layout.{GeometryFits};
ghost use Rattle.shm_graph.specs.Runs.{EraFits};
ghost use Rattle.shm_pool.specs.{Tokens.{AllOf, token_first}, Called.{HasRoot, Rests}, Calls.IsBetween};
ghost use Rattle.t_pool.specs.Clients.{AllFirst};

use shm_count::Made;
use shm_graph::Life;
use shm_pool::{Client, Closed, Corpse, Reply, SharedPool, Vacant, alloc_gives};
use shm_ref::share_keeps;
use shm_words::Geometry;
use std::alloc::{AllocError, Global};
use std::thread;
use std::thread::Threads;

/// Makes a block that holds 77; a root names it.
fn make_one(client: &mut Client, pool: &SharedPool, life: &mut Life) -> Option<Made>
    requires pool { client.old.of ≡ pool.now }
    requires between { client.old.dead ≡ false → IsBetween client.old.account }
    ensures same { (client.new.of ≡ client.old.of) × (client.new.account.who ≡ client.old.account.who) }
    ensures rests { Rests client.new }
    ensures root { IfSome result (λ made. HasRoot made client.new) }
{
    // for the proof: what a block that was made is named by
    alloc_gives();
    match client.alloc(pool, life, 0, &[77]) {
        Ok(Reply::Done(Ok(made))) => Some(made),
        _ => None,
    }
}

/// Lets a further root name a block that a root names.
fn name_again(client: &mut Client, pool: &SharedPool, life: &mut Life, made: Made) -> Option<u8>
    requires pool { client.old.of ≡ pool.now }
    requires rests { Rests client.old }
    requires root { HasRoot made client.old }
    ensures same { (client.new.of ≡ client.old.of) × (client.new.account.who ≡ client.old.account.who) }
    ensures rests { Rests client.new }
    ensures number { IfSome result (λ k. k < 16) }
{
    // for the proof: what a share leaves
    share_keeps();
    match client.share(pool, life, made.block) {
        Reply::Done(Ok(root)) => Some(root),
        _ => None,
    }
}

/// Makes a block, lets a second root name it and drops both roots, the last of which frees it; gives the block.
pub fn work(client: &mut Client, pool: &SharedPool, life: &mut Life) -> Option<u32>
    requires pool { client.old.of ≡ pool.now }
    requires between { client.old.dead ≡ false → IsBetween client.old.account }
    ensures same { (client.new.of ≡ client.old.of) × (client.new.account.who ≡ client.old.account.who) }
    ensures rests { Rests client.new }
{
    let made = make_one(client, pool, life)?;
    let other = name_again(client, pool, life, made)?;
    let Reply::Done(Ok(true)) = client.drop_root(pool, life, made.root) else {
        return None;
    };
    let Reply::Done(Ok(true)) = client.drop_root(pool, life, other) else {
        return None;
    };
    Some(made.block)
}

/// A client that has done its work: the block that it made and freed, and how many word steps it had left.
#[derive(Drop)]
pub struct Visited {
    pub client: Client,
    pub block: u32,
    pub left: u64,
}

/// Joins and works. Where no word step was left, or the work was refused, the corpse comes back.
pub fn visit(pool: &SharedPool, token: Vacant, steps: u64) -> Result<Visited, Corpse>
    requires of { token.of ≡ pool.now }
    ensures ok { IfOk result (λ v. (v.client.of ≡ pool.now) × Rests v.client) }
    ensures err { IfErr result (λ c. c.of ≡ pool.now) }
{
    let mut life = Life::of(steps);
    let mut client = match token.join(pool, &mut life) {
        Ok(client) => client,
        Err(stopped) => return Err(stopped.corpse),
    };
    let done = work(&mut client, pool, &mut life);
    match done {
        Some(block) => Ok(Visited {
            client,
            block,
            left: life.left,
        }),
        None => Err(client.fall()),
    }
}

/// Takes the last token.
pub fn pop_of(pool: &SharedPool, all: &mut Vec<Vacant>) -> Option<Vacant>
    requires { AllFirst pool.now all.old.items }
    ensures rest { AllFirst pool.now all.new.items }
    ensures tokens { AllOf pool.now all.new.items }
    ensures of { IfSome result (λ t. t.of ≡ pool.now) }
    ensures first { IfSome result (λ t. t ≡ token_first pool.now t.account.who) }
{
    // for the proof: the contract alone speaks of the pool
    let _ = pool;
    all.pop()
}

/// Two clients beside each other.
pub fn both<R: Threads + Sync>(
    rt: &R,
    pool: &SharedPool,
    a: Vacant,
    b: Vacant,
    steps: (u64, u64),
) -> (Result<Visited, Corpse>, Result<Visited, Corpse>)
    requires of { (a.of ≡ pool.now) × (b.of ≡ pool.now) }
{
    let (first, second) = steps;
    thread::join(
        rt,
        move || visit(pool, a, first),
        move || visit(pool, b, second),
    )
}

/// A pool of two clients that work on two threads, so many word steps each; none where a token is missing.
pub fn run_two<R: Threads + Sync>(
    rt: &R,
    alloc: Global,
    geometry: Geometry,
    steps: (u64, u64),
) -> Result<Option<Team>, AllocError>
    requires geometry { GeometryFits geometry }
{
    let (pool, mut all) = SharedPool::make(alloc, geometry, 1, false)?;
    let Some(b) = pop_of(&pool, &mut all) else {
        return Ok(None);
    };
    let Some(a) = pop_of(&pool, &mut all) else {
        return Ok(None);
    };
    let (first, second) = both(rt, &pool, a, b, steps);
    Ok(Some(Team {
        pool,
        first,
        second,
    }))
}

/// The pool, and what came of the two clients.
#[derive(Drop)]
pub struct Team {
    pub pool: SharedPool,
    pub first: Result<Visited, Corpse>,
    pub second: Result<Visited, Corpse>,
}

/// Joins and leaves. Where no word step was left, the corpse comes back.
pub fn pass_by(pool: &SharedPool, token: Vacant, steps: u64) -> Result<Vacant, Corpse>
    requires of { token.of ≡ pool.now }
    ensures ok { IfOk result (λ v. v.of ≡ pool.now) }
    ensures err { IfErr result (λ c. c.of ≡ pool.now) }
{
    let mut life = Life::of(steps);
    let client = match token.join(pool, &mut life) {
        Ok(client) => client,
        Err(stopped) => return Err(stopped.corpse),
    };
    match client.leave(pool, &mut life) {
        Ok(token) => Ok(token),
        Err(stopped) => Err(stopped.corpse),
    }
}

/// Takes a token back.
pub fn put_back(pool: &SharedPool, all: &mut Vec<Vacant>, token: Vacant) -> Result<(), AllocError>
    requires all { AllOf pool.now all.old.items }
    requires of { token.of ≡ pool.now }
    ensures { IfOk result (λ _. AllOf pool.now all.new.items) }
{
    // for the proof: the contract alone speaks of the pool
    let _ = pool;
    all.push(token)?;
    Ok(())
}

/// Two identities pass by beside each other.
fn pass_two<R: Threads + Sync>(
    rt: &R,
    pool: &SharedPool,
    a: Vacant,
    b: Vacant,
    steps: u64,
) -> (Result<Vacant, Corpse>, Result<Vacant, Corpse>)
    requires of { (a.of ≡ pool.now) × (b.of ≡ pool.now) }
    ensures { IfOk result.0 (λ v. v.of ≡ pool.now) × IfOk result.1 (λ v. v.of ≡ pool.now) }
{
    thread::join(
        rt,
        move || pass_by(pool, a, steps),
        move || pass_by(pool, b, steps),
    )
}

/// A pool that two identities join and leave on two threads, closed; none where one ran out of word steps.
pub fn pass_and_close<R: Threads + Sync>(
    rt: &R,
    alloc: Global,
    geometry: Geometry,
    steps: u64,
) -> Result<Option<Closed>, AllocError>
    requires geometry { GeometryFits geometry }
    ensures { IfOk result (λ o. IfSome o (λ c. c.start.geometry ≡ geometry)) }
{
    let (pool, mut all) = SharedPool::make(alloc, geometry, 1, false)?;
    let Some(b) = pop_of(&pool, &mut all) else {
        return Ok(None);
    };
    let Some(a) = pop_of(&pool, &mut all) else {
        return Ok(None);
    };
    let (first, second) = pass_two(rt, &pool, a, b, steps);
    let Ok(a) = first else {
        return Ok(None);
    };
    let Ok(b) = second else {
        return Ok(None);
    };
    put_back(&pool, &mut all, b)?;
    put_back(&pool, &mut all, a)?;
    Ok(pool.close(alloc, all).ok())
}
