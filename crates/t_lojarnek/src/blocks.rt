//! Calls on blocks: each error, and each call on its happy path.

use crate::checks::{Told, hold, live_after, refused, wrong};
use lojarnek::Bound;
use lojarnek::prelude::*;
use std::alloc::Global;

/// A pool for blocks of two clients and so many segments.
fn blocks_of(alloc: Global, segments: u16) -> Result<Pool, Error> {
    Pool::builder()
        .clients(2)
        .segments(segments)
        .blocks()
        .build(alloc)
}

/// Whether a block got this root.
fn rooted(answer: Result<u8, Error>, root: u8) -> bool {
    answer == Ok(root)
}

/// Whether a block was found and got this root, or none was found.
fn found(answer: Result<Option<u8>, Error>, root: Option<u8>) -> bool {
    answer == Ok(root)
}

/// Whether a word is this one.
fn is_read(answer: Result<u64, Error>, word: u64) -> bool {
    answer == Ok(word)
}

/// Two blocks are made, and the first one gets another root.
fn makes(client: &mut Client<'_>) -> bool {
    rooted(client.alloc(0, &[77, 78]), 0)
        && rooted(client.alloc(2, &[]), 1)
        && rooted(client.share(0), 2)
}

/// The first block is read by both its roots.
fn reads(client: &mut Client<'_>) -> bool {
    is_read(client.read(0, 0), 77)
        && is_read(client.read(0, 1), 78)
        && is_read(client.read(2, 1), 78)
}

/// One of the roots is dropped, and the block is read by the other.
fn drops(client: &mut Client<'_>) -> bool {
    client.drop_root(0).is_ok()
        && refused(client.read(0, 0), Error::EmptyRoot { root: 0 })
        && is_read(client.read(2, 1), 78)
        && refused(client.read(1, 0), Error::NoSuchWord { word: 0, words: 0 })
}

fn made(alloc: Global) -> Told {
    let pool = blocks_of(alloc, 1)?;
    let mut client = pool.vacant(0)?.join();
    let made = makes(&mut client);
    let read = reads(&mut client);
    let dropped = drops(&mut client);
    client.leave()?;
    Ok(wrong(&[
        ("roots", made),
        ("reads", read),
        ("reads after a drop", dropped),
        ("what is live", live_after(alloc, pool) == Some(0)),
    ]))
}

#[test]
fn blocks_are_made_shared_read_and_dropped(rt: HostRuntime) {
    hold(&rt, made(rt.alloc()));
}

/// Five blocks near a hint, each read.
fn makes_near(client: &mut Client<'_>) -> Result<bool, Error> {
    let mut hint = client.hint(0, 1)?;
    for word in 1..6u64 {
        let root = client.alloc_near(0, &[word], &mut hint)?;
        if !is_read(client.read(root, 0), word) {
            return Ok(false);
        }
    }
    Ok(true)
}

fn near(alloc: Global) -> Told {
    let pool = blocks_of(alloc, 1)?;
    let mut client = pool.vacant(0)?.join();
    let made = makes_near(&mut client)?;
    Ok(wrong(&[
        ("reads", made),
        (
            "17 references",
            refused(client.hint(17, 0), out_of(17, Bound::References)),
        ),
        (
            "9 plain words",
            refused(client.hint(0, 9), out_of(9, Bound::Plains)),
        ),
    ]))
}

#[test]
fn blocks_are_made_near_a_hint(rt: HostRuntime) {
    hold(&rt, near(rt.alloc()));
}

fn out_of(found: u64, bound: Bound) -> Error {
    Error::OutOfRange { found, bound }
}

/// Roots that there aren't.
fn wrong_roots(client: &mut Client<'_>) -> bool {
    refused(client.share(16), out_of(16, Bound::Root))
        && refused(client.read(16, 0), out_of(16, Bound::Root))
        && refused(client.drop_root(99), out_of(99, Bound::Root))
        && refused(client.set(0, 0, 16), out_of(16, Bound::Root))
}

/// Words that no block has.
fn wrong_words(client: &mut Client<'_>) -> bool {
    refused(client.read(0, 8), out_of(8, Bound::Plain))
        && refused(client.set(0, 16, 0), out_of(16, Bound::Reference))
        && refused(client.follow(1, 0, 16), out_of(16, Bound::Reference))
        && refused(client.alloc(17, &[]), out_of(17, Bound::References))
        && refused(client.alloc(0, &[0; 9]), out_of(9, Bound::Plains))
}

/// A root that names no block; root 0 names one.
fn empty_roots(client: &mut Client<'_>) -> bool {
    let empty = Error::EmptyRoot { root: 3 };
    refused(client.drop_root(3), empty)
        && refused(client.clear(3, 0), empty)
        && refused(client.set(0, 0, 3), empty)
}

/// Calls with the client itself, client 0, and with one that the pool doesn't have.
fn wrong_clients(client: &mut Client<'_>) -> bool {
    let own = Error::ToItself { client: 0 };
    let none = Error::NoSuchClient {
        client: 9,
        clients: 2,
    };
    refused(client.send(0, 0), own)
        && refused(client.receive(0), own)
        && refused(client.send(9, 0), none)
        && refused(client.receive(9), none)
        && refused(client.follow(9, 0, 0), none)
}

fn misuse(alloc: Global) -> Told {
    let pool = blocks_of(alloc, 1)?;
    let mut client = pool.vacant(0)?.join();
    client.alloc(1, &[7])?;
    let budget = client.budget();
    // none of them makes a word step
    Ok(wrong(&[
        ("roots", wrong_roots(&mut client)),
        ("words", wrong_words(&mut client)),
        ("an empty root", empty_roots(&mut client)),
        ("clients", wrong_clients(&mut client)),
        ("the budget", client.budget() == budget),
    ]))
}

#[test]
fn what_a_caller_gets_wrong_of_blocks_is_refused(rt: HostRuntime) {
    hold(&rt, misuse(rt.alloc()));
}

/// Calls on one's own blocks, in a pool for tables.
fn of_the_wrong_kind(client: &mut Client<'_>) -> bool {
    refused(client.alloc(0, &[]), Error::WrongKind)
        && refused(client.share(0), Error::WrongKind)
        && refused(client.read(0, 0), Error::WrongKind)
        && refused(client.drop_root(0), Error::WrongKind)
        && refused(client.set(0, 0, 0), Error::WrongKind)
}

/// Calls with others there.
fn of_the_wrong_kind_with_others(client: &mut Client<'_>) -> bool {
    refused(client.clear(0, 0), Error::WrongKind)
        && refused(client.send(1, 0), Error::WrongKind)
        && refused(client.receive(1), Error::WrongKind)
        && refused(client.drain(), Error::WrongKind)
        && refused(client.follow(1, 0, 0), Error::WrongKind)
}

fn wrong_kind(alloc: Global) -> Told {
    let pool = Pool::builder().build(alloc)?;
    let mut client = pool.vacant(0)?.join();
    Ok(wrong(&[
        ("calls on own blocks", of_the_wrong_kind(&mut client)),
        (
            "the other calls",
            of_the_wrong_kind_with_others(&mut client),
        ),
    ]))
}

#[test]
fn blocks_are_not_for_a_pool_of_tables(rt: HostRuntime) {
    hold(&rt, wrong_kind(rt.alloc()));
}

/// Sixteen blocks are made, and no more.
fn fills_its_roots(client: &mut Client<'_>) -> bool {
    for root in 0..16u8 {
        if !rooted(client.alloc(0, &[1]), root) {
            return false;
        }
    }
    refused(client.alloc(0, &[1]), Error::RootsFull)
}

/// The block of root 0 gets another root once one is free.
fn shares_when_full(client: &mut Client<'_>) -> bool {
    refused(client.share(0), Error::RootsFull)
        && client.drop_root(9).is_ok()
        && rooted(client.share(0), 9)
}

fn sixteen(alloc: Global) -> Told {
    let pool = blocks_of(alloc, 1)?;
    let mut client = pool.vacant(0)?.join();
    Ok(wrong(&[
        ("blocks", fills_its_roots(&mut client)),
        ("shares", shares_when_full(&mut client)),
    ]))
}

#[test]
fn a_client_has_16_roots(rt: HostRuntime) {
    hold(&rt, sixteen(rt.alloc()));
}

/// Blocks are made, each of which refers to the one before, until that is refused, after more than 100. Only the last one has a root.
fn fills_the_pool(client: &mut Client<'_>) -> Result<bool, Error> {
    let mut last = client.alloc(1, &[])?;
    for made in 1..2_000u32 {
        let next = match client.alloc(1, &[]) {
            Ok(next) => next,
            Err(error) => return Ok(100 < made && matches!(error, Error::Full { segments: 0, .. })),
        };
        client.set(next, 0, last)?;
        client.drop_root(last)?;
        last = next;
    }
    Ok(false)
}

fn full(alloc: Global) -> Told {
    let pool = blocks_of(alloc, 1)?;
    let mut client = pool.vacant(0)?.join();
    let filled = fills_the_pool(&mut client)?;
    // the last block goes with its root, and all the others with it
    client.leave()?;
    Ok(wrong(&[
        ("why no more", filled),
        ("what is live", live_after(alloc, pool) == Some(0)),
    ]))
}

#[test]
fn a_pool_of_blocks_is_full_at_last(rt: HostRuntime) {
    hold(&rt, full(rt.alloc()));
}

/// A block with 16 reference words, whose last one names the block of root `last`, which has no other root then.
fn next_of(client: &mut Client<'_>, last: u8) -> Result<u8, Error> {
    let next = client.alloc(16, &[])?;
    client.set(next, 15, last)?;
    client.drop_root(last)?;
    Ok(next)
}

/// Reference words name the block of root 0, until that is refused: how many do, and why no more. The blocks of these words hang together by their last
/// words, and one of them has a root.
fn refer_until_refused(client: &mut Client<'_>) -> Result<Option<(u32, Error)>, Error> {
    client.alloc(0, &[7])?;
    let mut last = client.alloc(16, &[])?;
    for named in 0..1_100u32 {
        let word = (named % 15) as u8;
        if let Err(error) = client.set(last, word, 0) {
            return Ok(Some((named, error)));
        }
        if word == 14 {
            last = next_of(client, last)?;
        }
    }
    Ok(None)
}

/// Root 0 names it too.
fn fills_a_count(client: &mut Client<'_>) -> Result<bool, Error> {
    Ok(matches!(
        refer_until_refused(client)?,
        Some((1_022, Error::CountFull { count: 1_023, .. }))
    ))
}

fn counted(alloc: Global) -> Told {
    let pool = blocks_of(alloc, 2)?;
    let mut client = pool.vacant(0)?.join();
    let counted = fills_a_count(&mut client)?;
    Ok(wrong(&[("how many, and why no more", counted)]))
}

#[test]
fn a_block_has_at_most_1023_references(rt: HostRuntime) {
    hold(&rt, counted(rt.alloc()));
}

/// Client 0 makes two blocks, of which the first refers to the second, and sends the first one.
fn gives(zero: &mut Client<'_>) -> bool {
    rooted(zero.alloc(1, &[5]), 0)
        && rooted(zero.alloc(0, &[6]), 1)
        && zero.set(0, 0, 1).is_ok()
        && zero.send(1, 0).is_ok()
}

/// Client 1 receives it, and follows its reference.
fn takes(one: &mut Client<'_>) -> bool {
    found(one.receive(0), Some(0))
        && found(one.receive(0), None)
        && found(one.follow(0, 0, 0), Some(1))
        && is_read(one.read(0, 0), 5)
        && is_read(one.read(1, 0), 6)
}

/// What client 1 may not do with a block of client 0, and what isn't there.
fn may_not(one: &mut Client<'_>) -> bool {
    let no_word = Error::NoSuchWord { word: 1, words: 1 };
    refused(one.follow(1, 0, 0), Error::WrongAuthor { author: 1 })
        && refused(one.follow(0, 0, 1), no_word)
        && refused(one.set(0, 0, 1), Error::NotAuthor { author: 0 })
        && refused(one.read(0, 1), no_word)
}

/// The reference is cleared, and followed once more.
fn clears(zero: &mut Client<'_>, one: &mut Client<'_>) -> bool {
    zero.clear(0, 0).is_ok() && found(one.follow(0, 0, 0), None)
}

fn passed(alloc: Global) -> Told {
    let pool = blocks_of(alloc, 1)?;
    let mut zero = pool.vacant(0)?.join();
    let mut one = pool.vacant(1)?.join();
    Ok(wrong(&[
        ("what is given", gives(&mut zero)),
        ("what is taken", takes(&mut one)),
        ("refusals", may_not(&mut one)),
        ("a cleared word", clears(&mut zero, &mut one)),
    ]))
}

#[test]
fn blocks_are_sent_received_and_followed(rt: HostRuntime) {
    hold(&rt, passed(rt.alloc()));
}

/// A block is sent to client 1 eight times, and no more.
fn fills_a_queue(client: &mut Client<'_>) -> bool {
    for _ in 0..8u8 {
        if client.send(1, 0).is_err() {
            return false;
        }
    }
    refused(client.send(1, 0), Error::QueueFull { to: 1 })
}

/// All eight are drained, and then none.
fn drains(client: &mut Client<'_>) -> bool {
    is_read(client.drain(), 8) && is_read(client.drain(), 0)
}

fn queued(alloc: Global) -> Told {
    let pool = blocks_of(alloc, 1)?;
    let mut zero = pool.vacant(0)?.join();
    let mut one = pool.vacant(1)?.join();
    zero.alloc(0, &[7])?;
    Ok(wrong(&[
        ("sends", fills_a_queue(&mut zero)),
        ("drains", drains(&mut one)),
    ]))
}

#[test]
fn a_queue_of_blocks_is_full_and_drained(rt: HostRuntime) {
    hold(&rt, queued(rt.alloc()));
}

/// A client of three word steps dies in a call on blocks, and stays dead with a new budget that is too late.
fn dies(client: &mut Client<'_>) -> bool {
    let dead = Error::Died { done: false };
    client.set_budget(3);
    let dying = refused(client.alloc(0, &[7]), dead);
    client.set_budget(1000);
    dying
        && refused(client.drop_root(0), dead)
        && refused(client.drop_root(99), out_of(99, Bound::Root))
        && refused(client.drain(), dead)
}

fn deaths(alloc: Global) -> Told {
    let pool = blocks_of(alloc, 1)?;
    let mut client = pool.vacant(0)?.join();
    let dead = dies(&mut client);
    client.fall().recover()?;
    Ok(wrong(&[("the dead client", dead)]))
}

#[test]
fn a_client_on_blocks_dies_by_its_budget(rt: HostRuntime) {
    hold(&rt, deaths(rt.alloc()));
}

/// Client 0 sends a block to client 1, and sets its reference word within so many word steps; it is recovered. Whether the set said that it is done.
fn set_within(pool: &Pool, steps: u64) -> Result<bool, Error> {
    let mut zero = pool.vacant(0)?.join();
    let parent = zero.alloc(1, &[])?;
    let child = zero.alloc(0, &[7])?;
    zero.send(1, parent)?;
    zero.set_budget(steps);
    let done = match zero.set(parent, 0, child) {
        Ok(()) => true,
        Err(Error::Died { done }) => done,
        Err(error) => return Err(error),
    };
    zero.fall().recover()?;
    Ok(done)
}

/// Whether the next block that client 0 sent refers to another one.
fn finds_it_set(one: &mut Client<'_>) -> Result<bool, Error> {
    let Some(root) = one.receive(0)? else {
        return Ok(false);
    };
    let found = one.follow(0, root, 0)?;
    if let Some(child) = found {
        one.drop_root(child)?;
    }
    one.drop_root(root)?;
    Ok(found.is_some())
}

/// Whether client 1 finds so what a set says that is done, with each number of word steps below 40; and whether one of them died and said so.
fn is_told(pool: &Pool, one: &mut Client<'_>) -> Result<bool, Error> {
    let mut told = false;
    for steps in 0..40u64 {
        let done = set_within(pool, steps)?;
        if !finds_it_set(one)? && done {
            return Ok(false);
        }
        told = told || done;
    }
    Ok(told)
}

fn sets(alloc: Global) -> Told {
    let pool = blocks_of(alloc, 1)?;
    let mut one = pool.vacant(1)?.join();
    let told = is_told(&pool, &mut one)?;
    Ok(wrong(&[("what is told", told)]))
}

#[test]
fn a_set_that_is_told_is_found(rt: HostRuntime) {
    hold(&rt, sets(rt.alloc()));
}
