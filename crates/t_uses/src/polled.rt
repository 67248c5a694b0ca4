//! A client that is polled by hand, given up between two polls, and recovered by polls too.

ghost use Rattle.std.specs.Prelude.{◌≡◌, ◌*◌, ◌≤◌, [], IfOk, IfErr, IfSome};
ghost use Rattle.shm_words.specs.Layout.{GeometryFits};
ghost use Rattle.shm_script.specs.Ranges.{ScriptFits};
ghost use Rattle.shm_pool.specs.Tokens.{first_tokens, token_first};
ghost use Rattle.shm_team.specs.Lefts.{IsGivenBack};
ghost use Rattle.t_uses.specs.Polling.{HasCome, HasPlayed, IsFirstOf, IsGone};

use futures::executor::block_on;
use shm_async::{Finish, IdentityFuture, NewStop, RecoveryFuture, Token};
use shm_pool::{Closed, Corpse, SharedPool, Stopped, Vacant};
use shm_script::{Line, Log, Script};
use shm_words::Geometry;
use std::alloc::{AllocError, AllocGlobal, Global};
use std::io;
use std::random::RandomSource;
use std::sync::Wait;

/// A script of client 0, of one put.
pub fn one_put(alloc: Global) -> Result<Script, AllocError>
    ensures client { IfOk result (λ s. s.client ≡ 0) }
    ensures script { IfOk result (ScriptFits 1) }
{
    let mut lines = Vec::new(alloc);
    lines.push(Line::Put { key: 5, number: 77 })?;
    Ok(Script {
        client: 0,
        life: Vec::new(alloc),
        lines,
    })
}

/// Polls the client of a script, each poll with `q` turns, and gives it up where it isn't ready by the last of so many polls: its log, and the token
/// of its identity.
fn play(
    alloc: Global,
    pool: &SharedPool,
    token: Vacant,
    script: &Script,
    q: u32,
    polls: u32,
) -> Result<Finish, NewStop>
    requires turns { 1 ≤ q }
    requires first { IsFirstOf pool.now token }
    requires client { script.now.client ≡ token.account.who }
    requires script { ScriptFits pool.now.start.geometry.clients script.now }
    ensures played { IfOk result (HasPlayed pool.now script.now (q * polls)) }
    ensures same { IfErr result (λ s. s.token ≡ token) }
{
    let mut future = IdentityFuture::new(alloc, pool, token, script, q)?;
    for _ in 0..polls {
        if let Some(finish) = future.advance() {
            return Ok(finish);
        }
    }
    match future.cancel() {
        Some(finish) => Ok(finish),
        None => unreachable!(),
    }
}

/// Recovers an identity by a recoverer that makes `q` word steps a poll, and `life` in all at most.
fn recovered(pool: &SharedPool, corpse: Corpse, life: u64, q: u32) -> Result<Vacant, Stopped>
    requires turns { 1 ≤ q }
    requires of { corpse.of ≡ pool.now }
    ensures gone { IfOk result (IsGone pool.now) }
    ensures same { IfOk result (λ t. t.account.who ≡ corpse.account.who) }
    ensures stopped { IfErr result (λ s. (s.corpse.of ≡ pool.now) × (s.corpse.account.who ≡ corpse.account.who)) }
{
    let mut future = RecoveryFuture::new(pool, corpse, life, q);
    loop {
        if let Some(given) = future.advance() {
            return given;
        }
    }
}

/// Recovers an identity by an executor, which polls until the recovery is ready. Where the executor fails, the corpse is lost with the future.
fn recovered_by<R: Wait + RandomSource + AllocGlobal>(
    rt: &R,
    pool: &SharedPool,
    corpse: Corpse,
    life: u64,
    q: u32,
) -> io::Result<Result<Vacant, Stopped>>
    requires turns { 1 ≤ q }
    requires of { corpse.of ≡ pool.now }
    ensures { IfOk result (λ r. IfOk r (IsGone pool.now)) }
{
    block_on(rt, RecoveryFuture::new(pool, corpse, life, q))
}

/// The vacant token of an identity whose client was polled. A corpse is recovered, by a recoverer with `life` word steps, and where that one dies by an
/// executor.
fn vacated<R: Wait + RandomSource + AllocGlobal>(
    rt: &R,
    pool: &SharedPool,
    token: Token,
    life: u64,
    q: u32,
) -> io::Result<Option<Vacant>>
    requires turns { 1 ≤ q }
    requires back { IsGivenBack pool.now token }
    ensures { IfOk result (λ o. IfSome o (λ t. t.of ≡ pool.now)) }
{
    let corpse = match token {
        Token::Vacant(token) => return Ok(Some(token)),
        Token::Corpse(corpse) => corpse,
    };
    let stopped = match recovered(pool, corpse, life, q) {
        Ok(token) => return Ok(Some(token)),
        Err(stopped) => stopped,
    };
    Ok(recovered_by(rt, pool, stopped.corpse, u64::MAX, q)?.ok())
}

/// Takes the token of a pool of one identity.
pub fn take_one(pool: &SharedPool, all: &mut Vec<Vacant>) -> Option<Vacant>
    requires { all.old.items ≡ first_tokens pool.now 0 1 }
    ensures token { IfSome result (λ t. t ≡ token_first pool.now 0) }
    ensures none { IfSome result (λ _. all.new.items ≡ []) }
{
    // for the proof: the contract alone speaks of the pool
    let _ = pool;
    all.pop()
}

/// Plays a script so in a pool of its own, recovers its identity and closes the pool: the log of its client, and the pool. None where the own era of the
/// identity is spent, or the pool isn't closed.
pub fn played_and_closed<R: Wait + RandomSource + AllocGlobal>(
    rt: &R,
    geometry: Geometry,
    script: &Script,
    turns: (u32, u32),
    life: u64,
) -> io::Result<Option<(Log, Closed)>>
    requires geometry { GeometryFits geometry × (geometry.clients ≡ 1) }
    requires turns { 1 ≤ turns.0 }
    requires client { script.now.client ≡ 0 }
    requires script { ScriptFits 1 script.now }
    ensures { IfOk result (λ o. IfSome o (λ r. HasCome geometry script.now (turns.0 * turns.1) r.0 r.1)) }
{
    let (q, polls) = turns;
    let (pool, mut all) = SharedPool::make(rt.alloc(), geometry, 1, true)?;
    let Some(token) = take_one(&pool, &mut all) else {
        return Ok(None);
    };
    let Finish { log, token } = match play(rt.alloc(), &pool, token, script, q, polls) {
        Ok(finish) => finish,
        Err(stop) => return Err(io::Error::from(stop.cause)),
    };
    let Some(token) = vacated(rt, &pool, token, life, q)? else {
        return Ok(None);
    };
    all.push(token)?;
    match pool.close(rt.alloc(), all) {
        Ok(closed) => Ok(Some((log, closed))),
        Err(_) => Ok(None),
    }
}
