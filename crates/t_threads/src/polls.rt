//! A put, whose client is polled by hand and by an executor, and given up between two polls.

ghost use Rattle.std.specs.Prelude.{◌≡◌, ◌≤◌, IfSome, true};
ghost use Rattle.shm_script.specs.Ranges.{ScriptFits};
ghost use Rattle.shm_pool.specs.Tokens.{token_first};

mod watched;

use futures::Future;
use futures::executor::block_on;
use futures::task::{Context, Poll};
use shm_async::{Finish, IdentityFuture, Token, run_async, run_limited};
use shm_audit::{Verdict, audit, write_image};
use shm_pool::{SharedPool, Vacant};
use shm_script::{End, Script, Trace, parse};
use shm_words::Geometry;
use std::alloc::{AllocError, AllocGlobal};
use std::random::RandomSource;
use std::sync::Wait;
use std::test::Fail;
use t_pool::team::pop_of;
use watched::Watched;

/// How a client was polled: how many polls it took, unless it was given up, and what it gave.
#[derive(Drop)]
struct Polled {
    ready: bool,
    polls: u32,
    finish: Finish,
}

/// A client that counts its polls.
#[derive(Drop)]
struct Counting<'p> {
    client: IdentityFuture<'p>,
    polls: u32,
}

impl<'p> Future for Counting<'p> {
    type Output = Polled;

    fn poll(&mut self, cx: &mut Context<'_>) -> Poll<Polled> {
        self.polls = self.polls.saturating_add(1);
        match self.client.poll(cx) {
            Poll::Ready(finish) => Poll::Ready(Polled {
                ready: true,
                polls: self.polls,
                finish,
            }),
            Poll::Pending => Poll::Pending,
        }
    }
}

/// Polls a client `limit` times at most, and gives it up then.
fn poll_by_hand(mut client: IdentityFuture<'_>, limit: u32) -> Option<Polled> {
    for before in 0..limit {
        if let Some(finish) = client.advance() {
            return Some(Polled {
                ready: true,
                polls: before + 1,
                finish,
            });
        }
    }
    let finish = client.cancel()?;
    Some(Polled {
        ready: false,
        polls: limit,
        finish,
    })
}

/// Has an executor poll the client of a script with `q` turns each, where there is no limit, and else polls it so many times at most.
fn poll_client<R: Wait + RandomSource + AllocGlobal>(
    rt: &R,
    pool: &SharedPool,
    token: Vacant,
    script: &Script,
    q: u32,
    limit: Option<u32>,
) -> Option<Polled>
    requires turns { 1 ≤ q }
    requires token { token ≡ token_first pool.now token.account.who }
    requires era { pool.now.start.first_era ≡ 1 }
    requires tables { pool.now.start.tables ≡ true }
    requires client { script.now.client ≡ token.account.who }
    requires script { ScriptFits pool.now.start.geometry.clients script.now }
{
    let client = match IdentityFuture::new(rt.alloc(), pool, token, script, q) {
        Ok(client) => client,
        Err(_) => return None,
    };
    match limit {
        Some(limit) => poll_by_hand(client, limit),
        None => block_on(rt, Counting { client, polls: 0 }).ok(),
    }
}

/// The same of the first script of a trace, whose client is the last one of the pool.
fn poll_trace<R: Wait + RandomSource + AllocGlobal>(
    rt: &R,
    trace: &Trace,
    q: u32,
    limit: Option<u32>,
) -> Result<Option<Polled>, AllocError>
    requires { 1 ≤ q }
{
    let Ok(geometry) = Geometry::new(trace.clients, trace.segments) else {
        return Ok(None);
    };
    let (pool, mut all) = SharedPool::make(rt.alloc(), geometry, 1, true)?;
    let (Some(token), Some(script)) = (pop_of(&pool, &mut all), trace.scripts.first()) else {
        return Ok(None);
    };
    // for the proof: its scripts are in their ranges
    trace.in_grammar();
    if script.client != token.client() {
        return Ok(None);
    }
    Ok(poll_client(rt, &pool, token, script, q, limit))
}

/// Whether a put with these lives, polled with so many turns each and given up after so many polls, or polled by an executor where there is no such
/// number, took so many polls, and ended so; and whether a corpse was left.
fn is_polled<R: Wait + RandomSource + AllocGlobal>(
    rt: &R,
    text: &[u8],
    turns: (u32, Option<u32>),
    ready: Option<u32>,
    end: End,
    corpse: bool,
) -> Result<bool, AllocError>
    requires { 1 ≤ turns.0 }
{
    let Ok(trace) = parse(rt.alloc(), text) else {
        return Ok(false);
    };
    let Some(polled) = poll_trace(rt, &trace, turns.0, turns.1)? else {
        return Ok(false);
    };
    let in_time = match ready {
        Some(polls) => polled.ready && polled.polls == polls,
        None => !polled.ready,
    };
    let left = matches!(polled.finish.token, Token::Corpse(_)) == corpse;
    Ok(in_time && left && polled.finish.log.end == end)
}

const PUT: &[u8] = b"pool 1 1\nclient 0\nput 5 77\n";

const DIES: &[u8] = b"pool 1 1\nclient 0\nlife 88 5 5\nput 5 77\n";

const UNDONE: End = End::Died {
    finished: 0,
    done: false,
};

const DONE: End = End::Died {
    finished: 0,
    done: true,
};

// a join takes one word step, the put of a first key 105, whose 87th decides it, and the leaving 19: 125 turns in all
#[test]
fn a_put_is_ready_at_the_18th_poll_of_seven(rt: HostRuntime) -> Result<(), Fail> {
    assert!(rt; is_polled(&rt, PUT, (7, Some(100)), Some(18), End::Ended, false)?);
    assert!(rt; is_polled(&rt, PUT, (125, Some(1)), Some(1), End::Ended, false)?);
    assert!(rt; is_polled(&rt, PUT, (7, None), Some(18), End::Ended, false)?);
    Ok(())
}

// 88 word steps and a death, twice 5 and a death, and a recovery: 210 turns, as an independent implementation counts them
#[test]
fn a_client_that_dies_is_recovered_in_its_polls(rt: HostRuntime) -> Result<(), Fail> {
    assert!(rt; is_polled(&rt, DIES, (1, Some(1_000)), Some(210), DONE, false)?);
    assert!(rt; is_polled(&rt, DIES, (1, None), Some(210), DONE, false)?);
    Ok(())
}

#[test]
fn a_client_is_given_up(rt: HostRuntime) -> Result<(), Fail> {
    assert!(rt; is_polled(&rt, PUT, (8, Some(11)), None, DONE, true)?);
    assert!(rt; is_polled(&rt, PUT, (87, Some(1)), None, UNDONE, true)?);
    assert!(rt; is_polled(&rt, PUT, (7, Some(0)), None, UNDONE, false)?);
    Ok(())
}

/// What a trace of one client leaves that is polled with `q` turns each, and cut after `limit` polls if there is a limit: how the client
/// ended, and how many live blocks there are, and references.
fn poll_run<R: Wait + RandomSource + AllocGlobal>(
    rt: &R,
    text: &[u8],
    q: u32,
    limit: Option<u32>,
) -> Result<Option<(End, u64, u64)>, AllocError>
    requires turns { (1 ≤ q) × (q ≤ 1000000) }
    requires polls { IfSome limit (λ n. (1 ≤ n) × (n ≤ 1000000)) }
{
    let alloc = rt.alloc();
    let Ok(trace) = parse(alloc, text) else {
        return Ok(None);
    };
    let Ok(geometry) = Geometry::new(1, 1) else {
        return Ok(None);
    };
    let polled = match limit {
        None => run_async(rt, alloc, &trace, q)?,
        Some(limit) => run_limited(rt, alloc, &trace, q, limit)?,
    };
    let Some(log) = polled.logs.first() else {
        return Ok(None);
    };
    let words = polled.closed.words();
    if words.len() != geometry.total() as usize {
        return Ok(None);
    }
    let image = write_image(alloc, geometry, words)?;
    Ok(match audit(alloc, image.as_slice()) {
        Ok(Verdict::Clean { live, refs }) => Some((log.end, live as u64, refs as u64)),
        _ => None,
    })
}

// what a replay of these traces leaves too: the put's value, its table and the home of the client
#[test]
fn an_executor_polls_a_trace(rt: HostRuntime) -> Result<(), Fail> {
    assert_eq!(rt; poll_run(&rt, PUT, 7, None)?, Some((End::Ended, 3, 3)));
    assert_eq!(rt;
        poll_run(&rt, PUT, 1_000_000, None)?,
        Some((End::Ended, 3, 3))
    );
    assert_eq!(rt; poll_run(&rt, DIES, 1, None)?, Some((DONE, 3, 3)));
    Ok(())
}

/// Whether a put that is polled so is done, and an executor was made for that.
fn is_executed<R: Wait + RandomSource + AllocGlobal>(
    rt: &R,
    limit: Option<u32>,
) -> Result<bool, AllocError>
    requires { IfSome limit (λ n. (1 ≤ n) × (n ≤ 1000000)) }
{
    let watched = Watched::new(rt);
    let polled = poll_run(&watched, PUT, 7, limit)?;
    Ok(polled == Some((End::Ended, 3, 3)) && watched.has_asked())
}

// an executor asks for random bytes, and nothing else does; where there is none the caller makes the polls, and the same is left
#[test]
fn a_trace_is_polled_by_an_executor(rt: HostRuntime) -> Result<(), Fail> {
    assert!(rt; is_executed(&rt, None)?);
    assert!(rt; is_executed(&rt, Some(1_000))?);
    Ok(())
}

// what a replay with the life lines 88 and 87 leaves, and one without; and with `life 88 5 5` the second recoverer is cut
#[test]
fn a_client_is_cut_after_so_many_polls(rt: HostRuntime) -> Result<(), Fail> {
    assert_eq!(rt; poll_run(&rt, PUT, 8, Some(11))?, Some((DONE, 3, 3)));
    assert_eq!(rt; poll_run(&rt, PUT, 87, Some(1))?, Some((UNDONE, 1, 1)));
    assert_eq!(rt; poll_run(&rt, PUT, 125, Some(1))?, Some((End::Ended, 3, 3)));
    assert_eq!(rt; poll_run(&rt, DIES, 49, Some(2))?, Some((DONE, 3, 3)));
    Ok(())
}
