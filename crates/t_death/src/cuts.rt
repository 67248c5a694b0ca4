//! A client that joins, puts the key 5 and leaves, cut after some of its word steps, with recoverers that die; alone, and with a copy by
//! another client before the recovery.

ghost use Rattle.std.specs.Prelude.{◌<◌};
ghost use Rattle.shm_words.specs.Layout.{GeometryFits};

use crate::op::{Op, perform};
use crate::pool::Pool;
use crate::references::References;
use crate::rules::{is_gone, is_recovered};
use shm_graph::{Machine, Me, Turn};
use shm_recover::{Join, Leave};
use shm_script::{Answer, Line};
use shm_table::Command;
use shm_words::Geometry;
use std::alloc::{AllocError, Global};
use std::fmt;
use t_runs::{geometry, make};

/// The number that the client puts where nothing else is said.
pub const NUMBER: u64 = 77;

/// More word steps than a copy makes, before and after the recovery.
const TURNS: u32 = 1_000;

/// More word steps than a recovery makes.
const LIMIT: u32 = 10_000;

/// How many homes there are, how many live blocks, and how many references.
#[derive(Drop)]
pub struct Sizes {
    homes: u32,
    live: u32,
    refs: u32,
}

impl fmt::Display for Sizes {
    fn fmt<W: fmt::Write>(&self, f: &mut fmt::Formatter<W>) -> fmt::Result {
        write!(
            f,
            "homes {} live {} refs {}",
            self.homes, self.live, self.refs
        )
    }
}

/// How many identities have a home.
fn homes_of(pool: &Pool, geometry: Geometry) -> u32
    requires { GeometryFits geometry }
{
    let mut homes = 0u32;
    for client in 0..geometry.clients() {
        if pool.word(geometry.home(client)) != 0 {
            homes = homes.saturating_add(1);
        }
    }
    homes
}

/// The sizes of a pool.
fn sizes_of(alloc: Global, pool: &Pool, geometry: Geometry) -> Result<Sizes, AllocError>
    requires { GeometryFits geometry }
{
    let homes = homes_of(pool, geometry);
    let mut all = References::of(alloc, pool, geometry)?;
    let blocks = all.take_blocks(alloc);
    let (mut live, mut refs) = (0u32, 0u32);
    for &block in blocks.as_slice() {
        live = live.saturating_add(1);
        refs = refs.saturating_add(u32::from(all.forget(block)));
    }
    Ok(Sizes { homes, live, refs })
}

/// Joins, puts and leaves with so many word steps in all.
fn work(pool: &mut Pool, me: Me, put: &mut Command, steps: u32) -> Option<()>
    requires geometry { GeometryFits me.geometry }
    requires who { me.who < me.geometry.clients }
{
    let joined = pool.advance(&mut Join::new(me), steps)?;
    let left = steps.saturating_sub(joined);
    let made = pool.advance(put, left)?;
    pool.follow(Leave::new(me), left.saturating_sub(made))?;
    Some(())
}

/// A recoverer makes at most so many word steps, unless the identity is gone.
fn recover_once(pool: &mut Pool, me: Me, most: u32) -> Option<()>
    requires geometry { GeometryFits me.geometry }
    requires who { me.who < me.geometry.clients }
{
    if !is_gone(pool, me) {
        perform(pool, me, Op::Recover, most)?;
    }
    Some(())
}

/// Recoverers of these lives and one more, as far as they are needed; whether the last one was and another had died.
fn recover(pool: &mut Pool, me: Me, lives: &[u32]) -> Option<bool>
    requires geometry { GeometryFits me.geometry }
    requires who { me.who < me.geometry.clients }
{
    for &life in lives {
        recover_once(pool, me, life)?;
    }
    let died = !is_gone(pool, me) && !lives.is_empty();
    recover_once(pool, me, LIMIT)?;
    Some(died)
}

/// What is left after a client of a pool of one identity was cut and recovered.
#[derive(Drop)]
pub struct Left {
    /// Whether the put showed its answer when the client was cut.
    pub shown: bool,
    /// Whether it had answered.
    pub answered: bool,
    pub sizes: Sizes,
    /// Whether a recoverer died.
    pub died: bool,
}

/// Whether a put showed its answer when its client was cut, and whether it had answered.
#[derive(Drop)]
struct Shown {
    shown: bool,
    answered: bool,
}

/// A client that puts a number at the key 5 is cut after so many word steps.
fn cut_put(pool: &mut Pool, me: Me, number: u64, death: u32) -> Option<Shown>
    requires geometry { GeometryFits me.geometry }
    requires who { me.who < me.geometry.clients }
{
    let mut put = Command::new(me, &Line::Put { key: 5, number });
    let worked = work(pool, me, &mut put, death);
    let shown = Shown {
        shown: put.effect().is_some(),
        answered: put.finished(),
    };
    if worked.is_some() { Some(shown) } else { None }
}

/// A client of a pool of one identity that puts a number is cut after so many word steps and recovered, where recoverers of these lives
/// die. None where a rule is broken.
pub fn cut_alone(
    alloc: Global,
    wide: bool,
    number: u64,
    death: u32,
    lives: &[u32],
) -> Result<Option<Left>, AllocError> {
    let Some(geometry) = geometry(wide, 1, 1) else {
        return Ok(None);
    };
    let me = Me::new(geometry, 0);
    let mut pool = Pool::new(alloc, geometry)?;
    let Some(Shown { shown, answered }) = cut_put(&mut pool, me, number, death) else {
        return Ok(None);
    };
    let Some(died) = recover(&mut pool, me, lives) else {
        return Ok(None);
    };
    if !is_recovered(alloc, &pool, me)? {
        return Ok(None);
    }
    let sizes = sizes_of(alloc, &pool, geometry)?;
    Ok(Some(Left {
        shown,
        answered,
        sizes,
        died,
    }))
}

/// A command with its answer, once it has one.
#[derive(Drop)]
struct Beside {
    command: Command,
    answer: Option<Answer>,
}

impl Beside {
    /// Makes at most `TURNS` word steps.
    fn go_on(&mut self, pool: &mut Pool) -> Option<()> {
        for _ in 0..TURNS {
            if self.command.finished() {
                return Some(());
            }
            let seen = make(&mut pool.words, self.command.ask())?;
            if let Turn::Done(answer) = self.command.take(seen) {
                self.answer = Some(answer);
            }
        }
        Some(())
    }
}

/// What is left after client 0 was cut, client 1 copied the key and client 0 was recovered, and the answer of the copy.
#[derive(Drop)]
pub struct Copied {
    pub answer: Option<Answer>,
    pub sizes: Sizes,
}

/// `me` is recovered while another client's command goes on before and after it, where a recoverer of this life dies.
fn recover_within(pool: &mut Pool, me: Me, life: u32, beside: &mut Beside) -> Option<()>
    requires geometry { GeometryFits me.geometry }
    requires who { me.who < me.geometry.clients }
{
    beside.go_on(pool)?;
    recover(pool, me, &[life])?;
    beside.go_on(pool)
}

/// `me` is cut after so many word steps of its work, `other` joins and copies the key, and `me` is recovered, where a recoverer of this life
/// dies; what the copy answered.
fn copy_within(pool: &mut Pool, me: Me, other: Me, death: u32, life: u32) -> Option<Option<Answer>>
    requires geometry { GeometryFits me.geometry }
    requires who { me.who < me.geometry.clients }
    requires other_geometry { GeometryFits other.geometry }
    requires other_who { other.who < other.geometry.clients }
{
    let copy = Line::Copy {
        key: 9,
        author: 0,
        other: 5,
    };
    cut_put(pool, me, NUMBER, death)?;
    pool.advance(&mut Join::new(other), 1)?;
    let mut beside = Beside {
        command: Command::new(other, &copy),
        answer: None,
    };
    let done = recover_within(pool, me, life, &mut beside);
    if done.is_some() {
        Some(beside.answer)
    } else {
        None
    }
}

/// Client 0 of a pool of two is cut after so many word steps, client 1 joins and copies the key, and client 0 is recovered, where a
/// recoverer of this life dies. None where a rule is broken.
pub fn cut_beside(
    alloc: Global,
    wide: bool,
    death: u32,
    life: u32,
) -> Result<Option<Copied>, AllocError> {
    let Some(geometry) = geometry(wide, 2, 2) else {
        return Ok(None);
    };
    let (me, other) = (Me::new(geometry, 0), Me::new(geometry, 1));
    let mut pool = Pool::new(alloc, geometry)?;
    let Some(answer) = copy_within(&mut pool, me, other, death, life) else {
        return Ok(None);
    };
    if !is_recovered(alloc, &pool, me)? {
        return Ok(None);
    }
    let sizes = sizes_of(alloc, &pool, geometry)?;
    Ok(Some(Copied { answer, sizes }))
}
