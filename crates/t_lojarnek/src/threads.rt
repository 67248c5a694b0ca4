//! Four clients on four threads over all calls, which die and are recovered; the pool is closed and audited.

ghost use Rattle.std.specs.Prelude.{◌<◌};

use crate::checks::{Told, hold, live_after, wrong};
use lojarnek::prelude::*;
use std::alloc::Global;
use std::thread;
use std::thread::Threads;

/// The clients after and before the client `who` of four.
fn neighbours(who: u8) -> (u8, u8) {
    (who.wrapping_add(1) % 4, who.wrapping_add(3) % 4)
}

/// What is sent to a queue that may be full.
fn unless_full(sent: Result<(), Error>) -> Result<(), Error> {
    match sent {
        Err(Error::QueueFull { .. }) => Ok(()),
        sent => sent,
    }
}

/// A round of all calls on tables, by a client of four.
fn play_tables(client: &mut Client<'_>, key: u32) -> Result<(), Error>
    requires { key < 100 }
{
    let who = client.number();
    let (next, last) = neighbours(who);
    client.put(key, u64::from(key))?;
    client.copy(key + 100, who, key)?;
    client.get(who, key)?;
    unless_full(client.send_key(next, key).map(|_| ()))?;
    client.recv_key(last, key + 200)?;
    client.del(key + 100)?;
    Ok(())
}

/// A block that refers to another one is made, followed and sent to the client `to`. Another root names it for a while.
fn make_and_send(client: &mut Client<'_>, to: u8) -> Result<(), Error> {
    let who = client.number();
    let child = client.alloc(0, &[7])?;
    let mut hint = client.hint(2, 1)?;
    let parent = client.alloc_near(2, &[8], &mut hint)?;
    let other = client.share(parent)?;
    client.set(parent, 0, child)?;
    client.set(other, 1, child)?;
    client.drop_root(child)?;
    client.clear(other, 1)?;
    if let Some(found) = client.follow(who, parent, 0)? {
        client.read(found, 0)?;
        client.drop_root(found)?;
    }
    unless_full(client.send(to, parent))?;
    client.drop_root(parent)?;
    client.drop_root(other)
}

/// The next block of the client `from` is received, and its reference followed; the reference may be gone, for its author sets it.
fn take_and_follow(client: &mut Client<'_>, from: u8) -> Result<(), Error> {
    let Some(parent) = client.receive(from)? else {
        return Ok(());
    };
    client.read(parent, 0)?;
    if let Some(child) = client.follow(from, parent, 0)? {
        client.read(child, 0)?;
        client.drop_root(child)?;
    }
    client.drop_root(parent)
}

/// A round of all calls on blocks, by a client of four.
fn play_blocks(client: &mut Client<'_>, round: u32) -> Result<(), Error> {
    let (next, last) = neighbours(client.number());
    make_and_send(client, next)?;
    if round % 8 == 7 {
        client.drain()?;
    }
    take_and_follow(client, last)
}

/// A round of all calls of a pool of its kind.
fn play(client: &mut Client<'_>, round: u32, tables: bool) -> Result<(), Error>
    requires { round < 100 }
{
    if tables {
        play_tables(client, round)
    } else {
        play_blocks(client, round)
    }
}

/// Joins and plays so many rounds, with so many word steps; whoever dies is recovered, and joins again with a larger budget.
fn live(pool: &Pool, who: u8, mut steps: u64) -> Result<u32, Error> {
    let mut played = 0u32;
    let mut vacant = pool.vacant(who)?;
    for life in 0..20u32 {
        let mut client = vacant.join();
        client.set_budget(steps);
        for round in 0..10u32 {
            match play(&mut client, round + life, pool.is_for_tables()) {
                Ok(()) => played = played.saturating_add(1),
                Err(Error::Died { .. }) => break,
                Err(error) => return Err(error),
            }
        }
        vacant = client.fall().recover()?;
        steps = steps.saturating_add(97);
    }
    Ok(played)
}

/// Two clients at once.
fn two<R: Threads + Sync>(rt: &R, pool: &Pool, who: u8, steps: u64) -> Result<(u32, u32), Error> {
    let (first, second) = thread::join(
        rt,
        || live(pool, who, steps),
        || live(pool, who.wrapping_add(1), steps.saturating_add(11)),
    );
    Ok((first?, second?))
}

/// Four clients at once: how many rounds they played.
fn four<R: Threads + Sync>(rt: &R, pool: &Pool, steps: u64) -> Result<u32, Error> {
    let (low, high) = thread::join(
        rt,
        || two(rt, pool, 0, steps),
        || two(rt, pool, 2, steps.saturating_add(5)),
    );
    let (low, high) = (low?, high?);
    Ok(
        low.0
            .saturating_add(low.1)
            .saturating_add(high.0)
            .saturating_add(high.1),
    )
}

/// Four clients in a pool of their own: whether they played more than 100 rounds, and left a clean pool.
fn played<R: Threads + Sync>(
    rt: &R,
    alloc: Global,
    builder: Builder,
    steps: u64,
) -> Result<bool, Error> {
    let pool = builder.clients(4).segments(8).build(alloc)?;
    let played = four(rt, &pool, steps)?;
    Ok(100 < played && live_after(alloc, pool).is_some())
}

/// The same with three budgets.
fn played_thrice<R: Threads + Sync>(rt: &R, alloc: Global, builder: Builder) -> Told {
    Ok(wrong(&[
        (
            "lives from 100 word steps on",
            played(rt, alloc, builder, 100)?,
        ),
        ("lives from 500 on", played(rt, alloc, builder, 500)?),
        ("lives from 2,000 on", played(rt, alloc, builder, 2_000)?),
    ]))
}

#[test]
fn four_clients_die_and_are_recovered(rt: HostRuntime) {
    hold(&rt, played_thrice(&rt, rt.alloc(), Pool::builder()));
}

#[test]
fn four_clients_on_blocks_die_and_are_recovered(rt: HostRuntime) {
    hold(
        &rt,
        played_thrice(&rt, rt.alloc(), Pool::builder().blocks()),
    );
}
