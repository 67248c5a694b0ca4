//! Commands on tables that are made some word steps at a time.

use crate::checks::{Told, hold, live_after, refused, wrong};
use lojarnek::prelude::*;
use lojarnek::{Call, Command, Outcome, Progress};
use std::alloc::Global;

/// What a command answers.
type Answer = Result<Outcome, Error>;

/// Goes on by so many word steps a time until the command has ended: the client, how often the command was pending, and what it answered. None where that
/// takes more than a thousand pieces; its client is dead then.
fn end<'p>(mut call: Call<'p>, steps: u64) -> Option<(Client<'p>, u32, Answer)> {
    for pending in 0..1_000u32 {
        match call.go(steps) {
            Progress::Pending(next) => call = next,
            Progress::Done(client, answer) => return Some((client, pending, answer)),
        }
    }
    None
}

/// Makes a command so, and gives the client where it answers this.
fn one<'p>(
    client: Client<'p>,
    command: Command,
    steps: u64,
    wanted: Outcome,
) -> Result<Option<Client<'p>>, Error> {
    let Some((client, _, answer)) = end(client.start(command)?, steps) else {
        return Ok(None);
    };
    Ok(if answer == Ok(wanted) {
        Some(client)
    } else {
        None
    })
}

/// A put, a copy, two gets and two removals of keys of client 0, and what they answer.
fn commands() -> [(Command, Outcome); 6] {
    [
        (Command::Put { key: 5, number: 77 }, Outcome::Stored),
        (
            Command::Copy {
                key: 6,
                author: 0,
                other: 5,
            },
            Outcome::Number(Some(77)),
        ),
        (
            Command::Get { author: 0, key: 6 },
            Outcome::Number(Some(77)),
        ),
        (Command::Get { author: 0, key: 7 }, Outcome::Number(None)),
        (Command::Del { key: 5 }, Outcome::There(true)),
        (Command::Del { key: 5 }, Outcome::There(false)),
    ]
}

/// Makes them one after the other, by so many word steps a time.
fn each(pool: &Pool, steps: u64) -> Result<bool, Error> {
    let mut client = pool.vacant(0)?.join();
    for &(command, wanted) in &commands() {
        let Some(next) = one(client, command, steps, wanted)? else {
            return Ok(false);
        };
        client = next;
    }
    client.leave()?;
    Ok(true)
}

fn commanded(alloc: Global) -> Told {
    let pool = Pool::builder().build(alloc)?;
    let single = each(&pool, 1)?;
    let seven = each(&pool, 7)?;
    let all = each(&pool, u64::MAX)?;
    Ok(wrong(&[
        ("single word steps", single),
        ("seven at a time", seven),
        ("all at once", all),
        ("a clean pool", live_after(alloc, pool).is_some()),
    ]))
}

#[test]
fn commands_are_made_one_word_step_at_a_time(rt: HostRuntime) {
    hold(&rt, commanded(rt.alloc()));
}

/// How many word steps a put takes in one call.
fn whole_put(client: &mut Client<'_>) -> Result<u64, Error> {
    let before = client.budget();
    client.put(5, 77)?;
    Ok(before.saturating_sub(client.budget()))
}

/// Whether such a put takes so many word steps in pieces of one, each of which but the last is pending.
fn takes(client: Client<'_>, whole: u64) -> Result<bool, Error> {
    let before = client.budget();
    let call = client.start(Command::Put { key: 5, number: 77 })?;
    let Some((client, pending, _)) = end(call, 1) else {
        return Ok(false);
    };
    let made = before.saturating_sub(client.budget());
    Ok(made == whole && made == u64::from(pending).saturating_add(1))
}

fn word_steps(alloc: Global) -> Told {
    let pool = Pool::builder().clients(1).build(alloc)?;
    let mut client = pool.vacant(0)?.join();
    client.put(5, 77)?;
    let whole = whole_put(&mut client)?;
    // a put frees the block of the one before, so every other one finds the same blocks free
    client.put(5, 77)?;
    let same = takes(client, whole)?;
    Ok(wrong(&[
        ("a call of several", 1 < whole),
        ("as many in pieces", same),
    ]))
}

#[test]
fn pieces_make_the_word_steps_of_the_call(rt: HostRuntime) {
    hold(&rt, word_steps(rt.alloc()));
}

/// The client, where it doesn't begin the command for this reason.
fn kept<'p>(client: Client<'p>, command: Command, why: Error) -> Option<Client<'p>> {
    match client.start(command) {
        Ok(_) => None,
        Err(stop) => {
            if stop.error == why {
                Some(stop.client)
            } else {
                None
            }
        }
    }
}

fn no_client(client: u8) -> Error {
    Error::NoSuchClient { client, clients: 2 }
}

/// Commands of client 0 that are wrong aren't begun.
fn not_begun(client: Client<'_>) -> Option<Client<'_>> {
    let client = kept(client, Command::Get { author: 9, key: 5 }, no_client(9))?;
    let own = Error::ToItself { client: 0 };
    let client = kept(client, Command::Send { to: 0, key: 5 }, own)?;
    kept(client, Command::Recv { from: 2, key: 5 }, no_client(2))
}

/// Nor is one of a client that has died.
fn not_begun_by_the_dead(mut client: Client<'_>) -> bool {
    let dead = Error::Died { done: false };
    client.set_budget(0);
    refused(client.put(5, 77), dead) && kept(client, Command::Del { key: 5 }, dead).is_some()
}

fn wrong_commands(alloc: Global) -> Told {
    let pool = Pool::builder().build(alloc)?;
    let Some(client) = not_begun(pool.vacant(0)?.join()) else {
        return Ok(Some("commands that are wrong"));
    };
    Ok(wrong(&[("a command of the dead", not_begun_by_the_dead(client))]))
}

#[test]
fn what_is_wrong_is_not_begun(rt: HostRuntime) {
    hold(&rt, wrong_commands(rt.alloc()));
}

/// Client 1 puts a number at a key within so many word steps, and falls: whether it died in that.
fn dies_within(pool: &Pool, steps: u64) -> Result<bool, Error> {
    let mut one = pool.vacant(1)?.join();
    one.set_budget(steps);
    Ok(one.put(5, steps).is_err())
}

/// A get of the table of client 1, which is dead, by client 0: none where it doesn't wait. Otherwise whether it ends in its next piece, once that client is
/// recovered.
fn waits(pool: &Pool) -> Result<Option<bool>, Error> {
    let zero = pool.vacant(0)?.join();
    match zero.start(Command::Get { author: 1, key: 5 })?.go(500) {
        Progress::Done(client, _) => {
            pool.corpse(1)?.recover()?;
            client.leave()?;
            Ok(None)
        }
        Progress::Pending(call) => {
            pool.corpse(1)?.recover()?;
            ends_at_once(call)
        }
    }
}

fn ends_at_once(call: Call<'_>) -> Result<Option<bool>, Error> {
    match call.go(500) {
        Progress::Pending(_) => Ok(Some(false)),
        Progress::Done(client, answer) => {
            client.leave()?;
            Ok(Some(answer.is_ok()))
        }
    }
}

/// Over all budgets with which a put dies: whether some gets waited, and each of them ended so.
fn all_wait(pool: &Pool) -> Result<bool, Error> {
    let mut waited = false;
    for steps in 1..400u64 {
        if !dies_within(pool, steps)? {
            break;
        }
        match waits(pool)? {
            Some(false) => return Ok(false),
            Some(true) => waited = true,
            None => {}
        }
    }
    Ok(waited)
}

fn pending(alloc: Global) -> Told {
    let pool = Pool::builder().build(alloc)?;
    let waited = all_wait(&pool)?;
    Ok(wrong(&[("gets that wait", waited)]))
}

#[test]
fn a_get_is_pending_while_a_dead_client_holds_its_latch(rt: HostRuntime) {
    hold(&rt, pending(rt.alloc()));
}

/// A put of a client that has so many word steps: whether it is told to be done. The client is dropped.
fn told_done(pool: &Pool, steps: u64) -> Result<bool, Error> {
    let mut client = pool.vacant(0)?.join();
    client.set_budget(steps);
    match client
        .start(Command::Put { key: 5, number: 77 })?
        .go(u64::MAX)
    {
        Progress::Pending(_) => Ok(false),
        Progress::Done(_, Err(Error::Died { done })) => Ok(done),
        Progress::Done(_, answer) => Ok(answer.is_ok()),
    }
}

/// A put that is dropped after so many word steps: whether it was still pending.
fn is_dropped(pool: &Pool, steps: u64) -> Result<bool, Error> {
    let client = pool.vacant(0)?.join();
    match client.start(Command::Put { key: 5, number: 77 })?.go(steps) {
        Progress::Pending(_) => Ok(true),
        Progress::Done(..) => Ok(false),
    }
}

/// Whether the next client 0 finds the key, which it removes.
fn finds(pool: &Pool) -> Result<bool, Error> {
    let mut client = pool.vacant(0)?.join();
    let found = client.del(5)?;
    client.leave()?;
    Ok(found)
}

/// Whether, with each number of word steps below 150, the next client finds what was told, once the dead one is recovered.
fn is_told(pool: &Pool) -> Result<bool, Error> {
    for steps in 0..150u64 {
        let told = told_done(pool, steps)?;
        pool.corpse(0)?.recover()?;
        if finds(pool)? != told {
            return Ok(false);
        }
    }
    Ok(true)
}

/// Whether some of the puts that are dropped were done, and some weren't.
fn some_are_done(pool: &Pool) -> Result<bool, Error> {
    let (mut done, mut undone) = (false, false);
    for steps in 0..150u64 {
        let pending = is_dropped(pool, steps)?;
        pool.corpse(0)?.recover()?;
        let found = finds(pool)?;
        done = done || pending && found;
        undone = undone || pending && !found;
    }
    Ok(done && undone)
}

fn deaths(alloc: Global) -> Told {
    let pool = Pool::builder().build(alloc)?;
    let told = is_told(&pool)?;
    let some = some_are_done(&pool)?;
    Ok(wrong(&[
        ("what is told", told),
        ("calls that are dropped", some),
        ("a clean pool", live_after(alloc, pool).is_some()),
    ]))
}

#[test]
fn a_client_dies_in_the_middle_of_a_command(rt: HostRuntime) {
    hold(&rt, deaths(rt.alloc()));
}
