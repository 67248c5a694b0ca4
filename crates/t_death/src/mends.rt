//! A mending after a put that died about the exchange at which the last root of its value is taken, with and without a copy of that value
//! by the other identity before; and a commit test within it.

ghost use Rattle.std.specs.Prelude.{◌<◌};
ghost use Rattle.shm_words.specs.Layout.{GeometryFits};

use crate::op::{Op, perform};
use crate::pool::Pool;
use plans::Calls;
use shm_count::{Commit, CommitTest};
use shm_graph::{Machine, Me, Turn};
use shm_recover::{Join, Mend};
use shm_script::Line;
use shm_words::Geometry;
use std::alloc::{AllocError, Global};
use std::fmt;
use t_runs::{geometry, make};

/// More word steps than a copy makes here.
const COPY: u32 = 1_000;

/// More word steps than a mending makes here.
const MENDING: u32 = 100;

/// What identity 1 has seen of the eras of identity 0, root 0 of that one, and its own era.
#[derive(Drop)]
pub struct Words {
    seen: u64,
    root: u64,
    era: u64,
}

impl fmt::Display for Words {
    fn fmt<W: fmt::Write>(&self, f: &mut fmt::Formatter<W>) -> fmt::Result {
        write!(f, "seen {} root {} era {}", self.seen, self.root, self.era)
    }
}

/// The three words of a pool.
fn words_of(pool: &Pool, geometry: Geometry) -> Words
    requires geometry { GeometryFits geometry }
    requires clients { 1 < geometry.clients }
{
    Words {
        seen: pool.word(geometry.era(1, 0)),
        root: pool.word(geometry.root(0, 0)),
        era: pool.word(geometry.era(0, 0)),
    }
}

/// Identity 1 joins and copies what identity 0 has at the key 5; none where that doesn't end.
fn copy_by_other(pool: &mut Pool, geometry: Geometry) -> Option<()>
    requires geometry { GeometryFits geometry }
    requires clients { 1 < geometry.clients }
{
    let me = Me::new(geometry, 1);
    let line = Line::Copy {
        key: 9,
        author: 0,
        other: 5,
    };
    pool.advance(&mut Join::new(me), 1)?;
    let made = perform(pool, me, Op::Run(line), COPY)?;
    if made < COPY { Some(()) } else { None }
}

/// Identity 0 joins and dies after so many word steps with its put of 77 at the key 5, and identity 1 copies the value if it is told to.
/// None where the copy doesn't end.
fn die(pool: &mut Pool, geometry: Geometry, death: u32, copied: bool) -> Option<()>
    requires geometry { GeometryFits geometry }
    requires clients { 1 < geometry.clients }
{
    let me = Me::new(geometry, 0);
    let put = Line::Put { key: 5, number: 77 };
    pool.advance(&mut Join::new(me), 1)?;
    perform(pool, me, Op::Run(put), death.saturating_sub(1))?;
    if copied {
        copy_by_other(pool, geometry)?;
    }
    Some(())
}

/// What a commit test answers, within three word steps.
fn answer_of(pool: &mut Pool, mut test: Calls<CommitTest>) -> Option<Commit> {
    for _ in 0..3 {
        if test.finished() {
            return None;
        }
        let seen = make(&mut pool.words, test.ask())?;
        if let Turn::Done(answer) = test.take(seen) {
            return Some(answer);
        }
    }
    None
}

/// The words after three word steps of a mending, what a commit test of the first block at era 9 answers then, and the words after a whole
/// mending.
#[derive(Drop)]
pub struct Mended {
    pub before: Words,
    pub answer: Commit,
    pub after: Words,
}

/// The words after three word steps of a mending, and the answer of a commit test.
fn tested(pool: &mut Pool, me: Me) -> Option<(Words, Commit)>
    requires geometry { GeometryFits me.geometry }
    requires who { me.who < me.geometry.clients }
    requires clients { 1 < me.geometry.clients }
{
    pool.follow(Mend::new(me), 3)?;
    let before = words_of(pool, me.geometry);
    let block = if me.geometry.is_wide() { 123 } else { 121 };
    let answer = answer_of(pool, Calls::new(CommitTest::new(me, block, 9)))?;
    Some((before, answer))
}

/// The words after a whole mending; none where it doesn't end.
fn mend_whole(pool: &mut Pool, me: Me) -> Option<Words>
    requires geometry { GeometryFits me.geometry }
    requires who { me.who < me.geometry.clients }
    requires clients { 1 < me.geometry.clients }
{
    let made = pool.follow(Mend::new(me), MENDING)?;
    if made < MENDING {
        Some(words_of(pool, me.geometry))
    } else {
        None
    }
}

/// A put that dies after so many word steps, with or without a copy, and what a mending and a commit test within it make of that. None
/// where one of them doesn't end.
pub fn mend(
    alloc: Global,
    wide: bool,
    death: u32,
    copied: bool,
) -> Result<Option<Mended>, AllocError> {
    let Some(geometry) = geometry(wide, 2, 2) else {
        return Ok(None);
    };
    let me = Me::new(geometry, 0);
    let mut pool = Pool::new(alloc, geometry)?;
    if die(&mut pool, geometry, death, copied).is_none() {
        return Ok(None);
    }
    let mut part = pool.copy(alloc)?;
    Ok(match (tested(&mut part, me), mend_whole(&mut pool, me)) {
        (Some((before, answer)), Some(after)) => Some(Mended {
            before,
            answer,
            after,
        }),
        _ => None,
    })
}
