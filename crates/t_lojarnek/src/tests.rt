//! Each error once, and each call on its happy path, of pools, identities and tables.

use crate::checks::{Told, hold, live_after, refused, wrong};
use lojarnek::prelude::*;
use lojarnek::{Bound, NotClosed};
use std::alloc::Global;

/// A pool of two clients and so many segments.
fn pool_of(alloc: Global, segments: u16) -> Result<Pool, Error> {
    Pool::builder().clients(2).segments(segments).build(alloc)
}

fn out_of(found: u64, bound: Bound) -> Option<Error> {
    Some(Error::OutOfRange { found, bound })
}

/// Whether a pool is refused for this, or made where that is none.
fn made(builder: Builder, alloc: Global, refused: Option<Error>) -> bool {
    builder.build(alloc).err() == refused
}

fn sizes(alloc: Global) -> Told {
    let of = Pool::builder();
    Ok(wrong(&[
        (
            "no client",
            made(of.clients(0), alloc, out_of(0, Bound::Clients)),
        ),
        (
            "17 clients",
            made(of.clients(17), alloc, out_of(17, Bound::Clients)),
        ),
        (
            "no segment",
            made(of.segments(0), alloc, out_of(0, Bound::Segments)),
        ),
        (
            "257 segments",
            made(of.segments(257), alloc, out_of(257, Bound::Segments)),
        ),
        (
            "8,001 segments",
            made(
                of.wide().segments(8001),
                alloc,
                out_of(8001, Bound::WideSegments),
            ),
        ),
        (
            "257 segments of format 2",
            made(of.wide().segments(257), alloc, None),
        ),
        (
            "16 clients",
            made(of.clients(16).segments(256).blocks(), alloc, None),
        ),
    ]))
}

#[test]
fn sizes_out_of_range_are_refused(rt: HostRuntime) {
    hold(&rt, sizes(rt.alloc()));
}

fn messages(alloc: Global) -> Told {
    let range = Error::OutOfRange {
        found: 17,
        bound: Bound::Clients,
    };
    let none = Error::NoSuchClient {
        client: 9,
        clients: 2,
    };
    let own = Error::ToItself { client: 1 };
    let died = Error::Died { done: true };
    let text = format!(in alloc; "{range}\n{none}\n{own}\n{died:?}").map_err(|_| Error::NoMemory)?;
    let wanted =
        "17 is out of range: a pool has 1 to 16 clients\nthere is no client 9: the pool has 2, and the first one is 0\nclient 1 can't send to itself or receive from itself\nDied { done: true }";
    Ok(wrong(&[("the text", text.as_str() == wanted)]))
}

#[test]
fn messages_have_the_number(rt: HostRuntime) {
    hold(&rt, messages(rt.alloc()));
}

/// Whether a pool and a vacant identity show so.
fn vacant_shown(alloc: Global, pool: &Pool, vacant: &Vacant<'_>) -> Result<bool, Error> {
    let text = format!(in alloc; "{pool}, {pool:?}, {vacant}, {vacant:?}").map_err(
        |_| Error::NoMemory,
    )?;
    Ok(text.as_str() == "a pool of 3 clients, Pool(3), vacant identity 1, Vacant(1)")
}

fn client_shown(alloc: Global, client: &Client<'_>) -> Result<bool, Error> {
    let text = format!(in alloc; "{client}, {client:?}").map_err(|_| Error::NoMemory)?;
    Ok(text.as_str() == "client 1, Client(1)")
}

fn corpse_shown(alloc: Global, corpse: &Corpse<'_>) -> Result<bool, Error> {
    let text = format!(in alloc; "{corpse}, {corpse:?}").map_err(|_| Error::NoMemory)?;
    Ok(text.as_str() == "dead client 1, Corpse(1)")
}

fn values(alloc: Global) -> Told {
    let pool = Pool::builder().clients(3).wide().build(alloc)?;
    let vacant = pool.vacant(1)?;
    let is_vacant = vacant_shown(alloc, &pool, &vacant)?;
    let client = vacant.join();
    let is_client = client_shown(alloc, &client)?;
    let is_corpse = corpse_shown(alloc, &client.fall())?;
    Ok(wrong(&[
        ("its sizes", pool.clients() == 3 && pool.is_for_tables()),
        ("the pool and a vacancy", is_vacant),
        ("a client", is_client),
        ("a corpse", is_corpse),
    ]))
}

#[test]
fn values_show_what_they_are(rt: HostRuntime) {
    hold(&rt, values(rt.alloc()));
}

/// Whether an identity's vacancy, and its corpse, can't be had for these reasons, or can where there is none; what is had is given back.
fn stands(pool: &Pool, who: u8, vacant: Option<Error>, corpse: Option<Error>) -> bool {
    pool.vacant(who).err() == vacant && pool.corpse(who).err() == corpse
}

/// Identity 1 while its vacancy is had, once that is given back, once its client has died, and once that one is recovered.
fn identities(alloc: Global) -> Told {
    let pool = pool_of(alloc, 1)?;
    let none = Some(Error::NoSuchClient {
        client: 2,
        clients: 2,
    });
    let taken = Some(Error::NotVacant { client: 1 });
    let alive = Some(Error::NoCorpse { client: 1 });
    let first = pool.vacant(1)?;
    let had = stands(&pool, first.number(), taken, alive);
    drop(first);
    let vacant = stands(&pool, 1, None, alive);
    drop(pool.vacant(1)?.join());
    let dead = stands(&pool, 1, taken, None);
    pool.corpse(1)?.recover()?;
    Ok(wrong(&[
        ("one that there isn't", stands(&pool, 2, none, none)),
        ("one that is had", had),
        ("one that is given back", vacant),
        ("a dead one", dead),
        ("a recovered one", stands(&pool, 1, None, alive)),
    ]))
}

#[test]
fn identities_are_had_once(rt: HostRuntime) {
    hold(&rt, identities(rt.alloc()));
}

/// Whether a call found this number, or none.
fn found(answer: Result<Option<u64>, Error>, wanted: Option<u64>) -> bool {
    answer == Ok(wanted)
}

/// Whether a call says that its key was there, or not.
fn there(answer: Result<bool, Error>, wanted: bool) -> bool {
    answer == Ok(wanted)
}

/// A key is put twice.
fn puts(zero: &mut Client<'_>) -> bool {
    zero.put(5, 77).is_ok() && zero.put(5, 78).is_ok()
}

/// Both find what was put, and nothing at another key.
fn finds(zero: &mut Client<'_>, one: &mut Client<'_>) -> bool {
    found(zero.get(0, 5), Some(78))
        && found(zero.get(0, 6), None)
        && found(one.get(0, 5), Some(78))
        && found(one.get(1, 5), None)
}

/// A value is copied, and one that isn't there is not.
fn copies(one: &mut Client<'_>) -> bool {
    found(one.copy(9, 0, 5), Some(78))
        && found(one.copy(9, 0, 6), None)
        && found(one.get(1, 9), Some(78))
}

/// A key that is there is sent and received, and one that isn't there is not.
fn sends(zero: &mut Client<'_>, one: &mut Client<'_>) -> bool {
    there(zero.send_key(1, 5), true)
        && there(zero.send_key(1, 6), false)
        && found(one.recv_key(0, 10), Some(78))
        && found(one.recv_key(0, 10), None)
        && found(one.get(1, 10), Some(78))
}

/// A key is deleted once, and what was copied of it stays.
fn deletes(zero: &mut Client<'_>, one: &mut Client<'_>) -> bool {
    there(zero.del(5), true)
        && there(zero.del(5), false)
        && found(one.get(0, 5), None)
        && found(one.get(1, 9), Some(78))
}

fn tables(alloc: Global) -> Told {
    let pool = pool_of(alloc, 2)?;
    let mut zero = pool.vacant(0)?.join();
    let mut one = pool.vacant(1)?.join();
    Ok(wrong(&[
        ("puts", puts(&mut zero)),
        ("gets", finds(&mut zero, &mut one)),
        ("copies", copies(&mut one)),
        ("sends", sends(&mut zero, &mut one)),
        ("removals", deletes(&mut zero, &mut one)),
    ]))
}

#[test]
fn tables_hold_what_is_put(rt: HostRuntime) {
    hold(&rt, tables(rt.alloc()));
}

/// Calls with a client that the pool doesn't have, and with the caller itself, client 1.
fn wrong_calls(client: &mut Client<'_>) -> bool {
    let none = Error::NoSuchClient {
        client: 9,
        clients: 2,
    };
    let own = Error::ToItself { client: 1 };
    refused(client.get(9, 5), none)
        && refused(client.copy(5, 9, 5), none)
        && refused(client.send_key(9, 5), none)
        && refused(client.recv_key(9, 5), none)
        && refused(client.send_key(1, 5), own)
        && refused(client.recv_key(1, 5), own)
}

fn misuse(alloc: Global) -> Told {
    let pool = pool_of(alloc, 1)?;
    let mut client = pool.vacant(1)?.join();
    let budget = client.budget();
    let refused = wrong_calls(&mut client);
    // none of them makes a word step
    Ok(wrong(&[
        ("refusals", refused),
        ("the budget", client.budget() == budget),
    ]))
}

#[test]
fn what_a_caller_gets_wrong_is_refused(rt: HostRuntime) {
    hold(&rt, misuse(rt.alloc()));
}

fn wrong_kind(alloc: Global) -> Told {
    let blocks = Pool::builder().blocks().build(alloc)?;
    let mut client = blocks.vacant(0)?.join();
    Ok(wrong(&[("the put", refused(client.put(5, 7), Error::WrongKind))]))
}

#[test]
fn tables_are_not_for_a_pool_of_blocks(rt: HostRuntime) {
    hold(&rt, wrong_kind(rt.alloc()));
}

/// Key 0 is sent to client 1 eight times, and no more.
fn fills_a_queue(client: &mut Client<'_>) -> bool {
    for _ in 0..8u8 {
        if client.send_key(1, 0).is_err() {
            return false;
        }
    }
    refused(client.send_key(1, 0), Error::QueueFull { to: 1 })
}

/// More than 100 further keys are put until that is refused, and the one that is refused isn't there.
fn fills_the_pool(client: &mut Client<'_>) -> bool {
    for key in 1..200u32 {
        if let Err(error) = client.put(key, 7) {
            return 100 < key
                && matches!(error, Error::Full { segments: 0, .. })
                && found(client.get(0, key), None);
        }
    }
    false
}

fn full(alloc: Global) -> Told {
    let pool = pool_of(alloc, 1)?;
    let mut client = pool.vacant(0)?.join();
    client.put(0, 7)?;
    Ok(wrong(&[
        ("a queue", fills_a_queue(&mut client)),
        ("the pool", fills_the_pool(&mut client)),
    ]))
}

#[test]
fn a_queue_and_a_pool_are_full_at_last(rt: HostRuntime) {
    hold(&rt, full(rt.alloc()));
}

/// The value of key 0 is copied to keys 1 to 1,021, and no more: key 0 has one reference, and while the client copies it has one too.
fn fills_a_count(client: &mut Client<'_>) -> bool {
    for key in 1..1_022u32 {
        if client.copy(key, 0, 0).is_err() {
            return false;
        }
    }
    matches!(
        client.copy(1_022, 0, 0),
        Err(Error::CountFull { count: 1_023, .. })
    )
}

fn counted(alloc: Global) -> Told {
    let pool = pool_of(alloc, 8)?;
    let mut client = pool.vacant(0)?.join();
    client.put(0, 7)?;
    Ok(wrong(&[
        ("copies", fills_a_count(&mut client)),
        ("the last copy", found(client.get(0, 1_021), Some(7))),
        (
            "the one that was refused",
            found(client.get(0, 1_022), None),
        ),
    ]))
}

#[test]
fn a_value_has_at_most_1023_references(rt: HostRuntime) {
    hold(&rt, counted(rt.alloc()));
}

/// Whether a put says that it is done, where the client has so many word steps for it.
fn put_within(client: &mut Client<'_>, steps: u64) -> Result<bool, Error> {
    client.del(5)?;
    client.set_budget(steps);
    match client.put(5, 77) {
        Ok(()) => Ok(true),
        Err(Error::Died { done }) => Ok(done),
        Err(error) => Err(error),
    }
}

/// Whether the next client of the identity finds the key just where such a put says that it is done.
fn is_told_within(pool: &Pool, steps: u64) -> Result<bool, Error> {
    let mut client = pool.vacant(0)?.join();
    let done = put_within(&mut client, steps)?;
    let mut next = client.fall().recover()?.join();
    let wanted = if done { Some(77) } else { None };
    let is_told = found(next.get(0, 5), wanted);
    next.leave()?;
    Ok(is_told)
}

/// The same with each number of word steps below 200.
fn is_told(pool: &Pool) -> Result<bool, Error> {
    for steps in 0..200u64 {
        if !is_told_within(pool, steps)? {
            return Ok(false);
        }
    }
    Ok(true)
}

/// A client of three word steps dies in a get, and stays dead with a budget of 1,000 that is too late.
fn dies(client: &mut Client<'_>) -> bool {
    let dead = Error::Died { done: false };
    client.set_budget(3);
    let dying = refused(client.get(0, 5), dead);
    client.set_budget(1000);
    dying && refused(client.get(0, 5), dead) && client.is_dead() && client.budget() == 1000
}

fn deaths(alloc: Global) -> Told {
    let pool = pool_of(alloc, 1)?;
    let is_told = is_told(&pool)?;
    let mut client = pool.vacant(0)?.join();
    Ok(wrong(&[
        ("what is told", is_told),
        ("the dead client", dies(&mut client)),
    ]))
}

#[test]
fn a_client_dies_by_its_budget(rt: HostRuntime) {
    hold(&rt, deaths(rt.alloc()));
}

fn recoveries(alloc: Global) -> Told {
    let pool = pool_of(alloc, 1)?;
    drop(pool.vacant(0)?.join());
    let Err(stopped) = pool.corpse(0)?.recover_within(5) else {
        return Ok(Some("it recovered in five word steps"));
    };
    let why = stopped.error == Error::Died { done: false };
    let who = stopped.corpse.number() == 0;
    stopped.corpse.recover()?;
    Ok(wrong(&[("why it was stopped", why), ("its number", who)]))
}

#[test]
fn a_recovery_dies_and_another_one_follows(rt: HostRuntime) {
    hold(&rt, recoveries(rt.alloc()));
}

fn closings(alloc: Global) -> Told {
    let pool = pool_of(alloc, 1)?;
    let mut client = pool.vacant(0)?.join();
    client.put(5, 77)?;
    drop(client);
    let Err(NotClosed { pool, error }) = pool.close(alloc) else {
        return Ok(Some("it closed beside a corpse"));
    };
    pool.corpse(0)?.recover()?;
    let vacant = pool.vacant(1).is_ok();
    Ok(wrong(&[
        (
            "why it wasn't closed",
            error == Error::NotVacant { client: 0 },
        ),
        ("the other identity", vacant),
        ("what is live", live_after(alloc, pool) == Some(3)),
    ]))
}

#[test]
fn a_pool_is_closed_once_all_are_vacant(rt: HostRuntime) {
    hold(&rt, closings(rt.alloc()));
}
