//! Single calls of one client: a block that it makes comes to be its home, and refers to itself for a while. And a leaving in single steps.

ghost use Rattle.std.specs.Prelude.{◌≡◌, ◌⊎◌, None, Some, IfOk, IfSome};
ghost use Rattle.shm_words.specs.Layout.{GeometryFits};
ghost use Rattle.t_uses.specs.{Sharing.{IsFirst, SameIdentity}, Singles.{HasBlock, IsAtRest}};

use crate::polled::take_one;
use crate::threads::bury;
use plans::Calls;
use shm_alloc::alloc_keeps;
use shm_count::Made;
use shm_graph::{Life, Turn};
use shm_pool::{Client, Closed, Reply, SharedPool, Vacant};
use shm_recover::Leave;
use shm_ref::{
    hold_keeps, home_of_keeps, look_keeps, release_keeps, set_home_keeps, set_ref_keeps,
};
use shm_words::Geometry;
use std::alloc::{AllocError, Global};

/// Joins a pool for single calls.
fn enter(pool: &SharedPool, token: Vacant, life: &mut Life) -> Option<Client>
    requires first { IsFirst pool.now token }
    ensures of { IfSome result (λ c. c.of ≡ pool.now) }
    ensures rests { IfSome result (IsAtRest None) }
{
    match token.join(pool, life) {
        Ok(client) => Some(client),
        Err(_) => None,
    }
}

/// Makes a block with one reference word; a root names it.
fn make(client: &mut Client, pool: &SharedPool, life: &mut Life) -> Option<Made>
    requires pool { client.old.of ≡ pool.now }
    requires rests { IsAtRest None client.old }
    ensures same { SameIdentity client.old client.new }
    ensures block { IfSome result (λ x. HasBlock None x client.new) }
{
    // for the proof: what an allocation leaves
    alloc_keeps();
    match client.alloc(pool, life, 1, &[]) {
        Ok(Reply::Done(Ok(made))) if made.block != 0 => Some(made),
        _ => None,
    }
}

/// Makes the block the home of the client.
fn set_home(client: &mut Client, pool: &SharedPool, life: &mut Life, made: Made) -> Option<()>
    requires pool { client.old.of ≡ pool.now }
    requires block { HasBlock None made client.old }
    ensures same { SameIdentity client.old client.new }
    ensures block { IfSome result (λ _. HasBlock None made client.new) }
{
    // for the proof: what the setting of a home keeps
    set_home_keeps();
    match client.set_home(pool, life, made.block) {
        Reply::Done(Ok(())) => Some(()),
        _ => None,
    }
}

/// Takes the latch of the client.
fn take_latch(client: &mut Client, pool: &SharedPool, life: &mut Life, made: Made) -> Option<()>
    requires pool { client.old.of ≡ pool.now }
    requires block { HasBlock None made client.old }
    ensures same { SameIdentity client.old client.new }
    ensures block { IfSome result (λ _. HasBlock (Some client.new.account.who) made client.new) }
{
    // for the proof: what a hold keeps, and of which block the contract speaks
    hold_keeps();
    let _ = made;
    let who = client.client();
    match client.hold(pool, life, who) {
        Reply::Done(Ok(())) => Some(()),
        _ => None,
    }
}

/// The block that the home of the client names.
fn home(client: &mut Client, pool: &SharedPool, life: &mut Life, made: Made) -> Option<u32>
    requires pool { client.old.of ≡ pool.now }
    requires block { HasBlock (Some client.old.account.who) made client.old }
    ensures same { SameIdentity client.old client.new }
    ensures block { IfSome result (λ _. HasBlock (Some client.new.account.who) made client.new) }
{
    // for the proof: what a look at a home keeps, and of which block the contract speaks
    home_of_keeps();
    let _ = made;
    let who = client.client();
    match client.home_of(pool, life, who) {
        Reply::Done(Ok(block)) => Some(block),
        _ => None,
    }
}

/// Has the reference word of the block name that block, or none.
fn set_ref(
    client: &mut Client,
    pool: &SharedPool,
    life: &mut Life,
    made: Made,
    to: u32,
) -> Option<()>
    requires pool { client.old.of ≡ pool.now }
    requires block { HasBlock (Some client.old.account.who) made client.old }
    requires to { (to ≡ 0) ⊎ (to ≡ made.block) }
    ensures same { SameIdentity client.old client.new }
    ensures block { IfSome result (λ _. HasBlock (Some client.new.account.who) made client.new) }
{
    // for the proof: what the setting of a reference keeps
    set_ref_keeps();
    match client.set_ref(pool, life, made.block, 0, to) {
        Reply::Done(Ok(())) => Some(()),
        _ => None,
    }
}

/// What the reference word of the block names.
fn look(client: &mut Client, pool: &SharedPool, life: &mut Life, made: Made) -> Option<u32>
    requires pool { client.old.of ≡ pool.now }
    requires block { HasBlock (Some client.old.account.who) made client.old }
    ensures same { SameIdentity client.old client.new }
    ensures block { IfSome result (λ _. HasBlock (Some client.new.account.who) made client.new) }
{
    // for the proof: what a look keeps
    look_keeps();
    match client.look(pool, life, made.block, 0) {
        Reply::Done(Ok(block)) => Some(block),
        _ => None,
    }
}

/// Gives the latch of the client back.
fn give_back(client: &mut Client, pool: &SharedPool, life: &mut Life, made: Made) -> Option<()>
    requires pool { client.old.of ≡ pool.now }
    requires block { HasBlock (Some client.old.account.who) made client.old }
    ensures same { SameIdentity client.old client.new }
    ensures block { IfSome result (λ _. HasBlock None made client.new) }
{
    // for the proof: what a release keeps, and of which block the contract speaks
    release_keeps();
    let _ = made;
    match client.release(pool, life) {
        Reply::Done(()) => Some(()),
        Reply::Died => None,
    }
}

/// What a client found that made a block.
#[derive(Clone, Copy, Drop)]
pub struct Found {
    /// The block.
    pub block: u32,
    /// What its root named.
    pub root: u32,
    /// What the client's home named.
    pub home: u32,
    /// What the block's reference word named: once the block itself was set, and once none was.
    pub set: u32,
    pub emptied: u32,
}

/// Under the latch of the client: what its home names, and the reference word of the block once it is set to the block itself, and once it is emptied.
fn look_around(
    client: &mut Client,
    pool: &SharedPool,
    life: &mut Life,
    made: Made,
) -> Option<(u32, u32, u32)>
    requires pool { client.old.of ≡ pool.now }
    requires block { HasBlock None made client.old }
    ensures same { SameIdentity client.old client.new }
    ensures block { IfSome result (λ _. HasBlock None made client.new) }
{
    take_latch(client, pool, life, made)?;
    let home = home(client, pool, life, made)?;
    set_ref(client, pool, life, made, made.block)?;
    let set = look(client, pool, life, made)?;
    set_ref(client, pool, life, made, 0)?;
    let emptied = look(client, pool, life, made)?;
    give_back(client, pool, life, made)?;
    Some((home, set, emptied))
}

/// Joins, makes a block, sets its home, looks around and asks what the root names, in so many word steps at most; then falls and is recovered.
fn call_each(pool: &SharedPool, token: Vacant, steps: u64) -> Option<(Found, Vacant)>
    requires first { IsFirst pool.now token }
    ensures { IfSome result (λ r. r.1.of ≡ pool.now) }
{
    let mut life = Life::of(steps);
    let mut client = enter(pool, token, &mut life)?;
    let made = make(&mut client, pool, &mut life)?;
    set_home(&mut client, pool, &mut life, made)?;
    let (home, set, emptied) = look_around(&mut client, pool, &mut life, made)?;
    let Reply::Done(root) = client.root_of(pool, &mut life, made.root) else {
        return None;
    };
    let token = bury(pool, client.fall())?;
    let found = Found {
        block: made.block,
        root,
        home,
        set,
        emptied,
    };
    Some((found, token))
}

/// Joins and leaves, one word step at a time, in so many at most; none where they weren't enough.
fn leave_by_steps(pool: &SharedPool, token: Vacant, steps: u64) -> Option<Vacant>
    requires of { token.of ≡ pool.now }
    ensures { IfSome result (λ v. v.of ≡ pool.now) }
{
    let mut life = Life::of(steps);
    let mut client = match token.join(pool, &mut life) {
        Ok(client) => client,
        Err(_) => return None,
    };
    let mut leaving = Calls::new(Leave::new(client.me()));
    'steps: loop {
        match client.step(pool, &mut leaving, &mut life) {
            Turn::More => {}
            Turn::Done(_) => return client.end(pool).ok(),
            Turn::Died => return None,
        }
    }
}

/// Makes each of these calls once, in a pool of its own that is closed then: what was found, and the pool. None where they weren't all made.
pub fn called_and_closed(
    alloc: Global,
    geometry: Geometry,
    steps: u64,
) -> Result<Option<(Found, Closed)>, AllocError>
    requires geometry { GeometryFits geometry × (geometry.clients ≡ 1) }
    ensures { IfOk result (λ o. IfSome o (λ r. r.1.start.geometry ≡ geometry)) }
{
    let (pool, mut all) = SharedPool::make(alloc, geometry, 1, false)?;
    let Some(token) = take_one(&pool, &mut all) else {
        return Ok(None);
    };
    let Some((found, token)) = call_each(&pool, token, steps) else {
        return Ok(None);
    };
    all.push(token)?;
    Ok(match pool.close(alloc, all) {
        Ok(closed) => Some((found, closed)),
        Err(_) => None,
    })
}

/// Joins and leaves so, in a pool of its own that is closed then. None where the word steps weren't enough.
pub fn left_and_closed(
    alloc: Global,
    geometry: Geometry,
    steps: u64,
) -> Result<Option<Closed>, AllocError>
    requires geometry { GeometryFits geometry × (geometry.clients ≡ 1) }
    ensures { IfOk result (λ o. IfSome o (λ c. c.start.geometry ≡ geometry)) }
{
    let (pool, mut all) = SharedPool::make(alloc, geometry, 1, false)?;
    let Some(token) = take_one(&pool, &mut all) else {
        return Ok(None);
    };
    let Some(token) = leave_by_steps(&pool, token, steps) else {
        return Ok(None);
    };
    all.push(token)?;
    Ok(pool.close(alloc, all).ok())
}
