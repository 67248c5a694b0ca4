//! What must hold of the words once an identity was recovered and nobody is within an operation.

ghost use Rattle.std.specs.Prelude.{◌<◌};
ghost use Rattle.shm_words.specs.Layout.{GeometryFits};

use crate::pool::Pool;
use crate::references::References;
use shm_graph::Me;
use shm_words::{Header, Redo};
use std::alloc::{AllocError, Global};

/// The status of an identity that is gone.
const GONE: u64 = 3;

/// Whether the identity is gone.
pub fn is_gone(pool: &Pool, me: Me) -> bool
    requires geometry { GeometryFits me.geometry }
    requires who { me.who < me.geometry.clients }
{
    pool.word(me.geometry.status(me.who)) == GONE
}

/// Whether the identity has no root, latch and segment.
fn has_nothing(pool: &Pool, me: Me) -> bool
    requires geometry { GeometryFits me.geometry }
    requires who { me.who < me.geometry.clients }
{
    let name = 1 + u64::from(me.who);
    for root in 0..16 {
        if pool.word(me.geometry.root(me.who, root)) != 0 {
            return false;
        }
    }
    for author in 0..me.geometry.clients() {
        if pool.word(me.geometry.latch(author)) == name {
            return false;
        }
    }
    for segment in 0..me.geometry.segments() {
        if pool.word(me.geometry.segment(segment)) == name {
            return false;
        }
    }
    pool.word(me.geometry.hold(me.who)) == 0
}

/// Whether no count step of the identity is in progress: no row of another shows its own era, and a change that its redo record spells has
/// the parity of that era. In format 2 that is told by the first word: the second one may be another record's.
fn has_no_step(pool: &Pool, me: Me, own: u64) -> bool
    requires geometry { GeometryFits me.geometry }
    requires who { me.who < me.geometry.clients }
{
    for row in 0..me.geometry.clients() {
        if row != me.who && pool.word(me.geometry.era(row, me.who)) >= own {
            return false;
        }
    }
    let first = pool.word(me.geometry.redo(me.who));
    match me.geometry.read_redo(first, 0) {
        None => false,
        Some(Redo::Change { odd, .. }) => odd == (own % 2 == 1),
        Some(_) => true,
    }
}

/// Whether the items of a queue stand in the slots from its head to its tail, at most eight, and the other slots are empty.
fn is_queue(pool: &Pool, me: Me, from: u8, to: u8) -> bool
    requires geometry { GeometryFits me.geometry }
    requires from { from < me.geometry.clients }
    requires to { to < me.geometry.clients }
{
    let head = pool.word(me.geometry.head(from, to));
    let tail = pool.word(me.geometry.tail(from, to));
    if head > tail || tail - head > 8 {
        return false;
    }
    for slot in 0..8u8 {
        let ahead = (u64::from(slot) + 8 - head % 8) % 8;
        let item = pool.word(me.geometry.slot(from, to, slot));
        if (item != 0) != (ahead < tail - head) {
            return false;
        }
    }
    true
}

/// Whether all queues are so.
fn are_queues(pool: &Pool, me: Me) -> bool
    requires geometry { GeometryFits me.geometry }
{
    for from in 0..me.geometry.clients() {
        for to in 0..me.geometry.clients() {
            if !is_queue(pool, me, from, to) {
                return false;
            }
        }
    }
    true
}

/// Whether each live block has a count above 0 that is the number of references to it, none was written by the identity at its own era or a
/// later one, and no reference names anything else.
fn are_counted(alloc: Global, pool: &Pool, me: Me, own: u64) -> Result<bool, AllocError>
    requires geometry { GeometryFits me.geometry }
    requires who { me.who < me.geometry.clients }
{
    let mut left = References::of(alloc, pool, me.geometry)?;
    let blocks = left.take_blocks(alloc);
    for &block in blocks.as_slice() {
        let header = Header::unpack(pool.word(block));
        let found = left.forget(block);
        if !header.live || header.count == 0 || header.count != found {
            return Ok(false);
        }
        if header.client == me.who && header.era >= own {
            return Ok(false);
        }
    }
    Ok(left.are_none())
}

/// Whether nothing is left of the identity, no step of it is in progress, queues keep their items, and references are counted.
pub fn is_recovered(alloc: Global, pool: &Pool, me: Me) -> Result<bool, AllocError>
    requires geometry { GeometryFits me.geometry }
    requires who { me.who < me.geometry.clients }
{
    let own = pool.word(me.geometry.era(me.who, me.who));
    Ok(
        is_gone(pool, me)
            && has_nothing(pool, me)
            && has_no_step(pool, me, own)
            && are_queues(pool, me)
            && are_counted(alloc, pool, me, own)?,
    )
}
