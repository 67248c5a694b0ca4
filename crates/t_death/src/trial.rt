//! A death after some word steps of an operation, second deaths, and the recovery.

ghost use Rattle.std.specs.Prelude.{◌<◌};
ghost use Rattle.shm_words.specs.Layout.{GeometryFits};

use crate::case::Case;
use crate::op::{Op, perform};
use crate::pool::Pool;
use crate::rules::{is_gone, is_recovered};
use shm_graph::{Machine, Me};
use shm_script::Line;
use shm_table::Command;
use shm_words::Geometry;
use std::alloc::{AllocError, Global};
use t_runs::may_stand;

/// More word steps than an operation makes here.
const LIMIT: u32 = 100_000;

/// How many word steps the command beside makes before and after each recoverer, if it hasn't answered before; it may wait for a latch.
const TURNS: u32 = 250;

/// An operation of an identity that is cut.
#[derive(Drop)]
pub struct Cut {
    pub me: Me,
    pub op: Op,
    /// What another identity runs between the death and the recovery.
    pub between: Option<(u8, Line)>,
}

/// The pool of a case before its operation; none where something in the case doesn't fit.
pub fn prepare(alloc: Global, geometry: Geometry, case: &Case) -> Result<Option<Pool>, AllocError>
    requires { GeometryFits geometry }
{
    let mut pool = Pool::new(alloc, geometry)?;
    for who in 0..geometry.clients() {
        perform(&mut pool, Me::new(geometry, who), Op::Join, LIMIT);
    }
    for &(who, op) in case.before.as_slice() {
        if who >= geometry.clients() {
            return Ok(None);
        }
        if perform(&mut pool, Me::new(geometry, who), op, LIMIT).is_none() {
            return Ok(None);
        }
    }
    Ok(Some(pool))
}

/// How many word steps the operation makes; none where it doesn't fit the pool.
pub fn length(alloc: Global, prepared: &Pool, cut: &Cut) -> Result<Option<u32>, AllocError>
    requires geometry { GeometryFits cut.now.me.geometry }
    requires who { cut.now.me.who < cut.now.me.geometry.clients }
{
    let mut pool = prepared.copy(alloc)?;
    Ok(perform(&mut pool, cut.me, cut.op, LIMIT))
}

/// The command that another identity runs, if there is one.
fn command_between(between: Option<(u8, Line)>, geometry: Geometry) -> Option<Command>
    requires { GeometryFits geometry }
{
    let (who, line) = between?;
    if who >= geometry.clients() {
        return None;
    }
    let me = Me::new(geometry, who);
    if may_stand(me, line) {
        Some(Command::new(me, &line))
    } else {
        None
    }
}

/// Goes on with the command beside.
fn go_on(pool: &mut Pool, beside: &mut Option<Command>) -> Option<()> {
    if let Some(command) = beside {
        pool.advance(command, TURNS)?;
    }
    Some(())
}

/// A recoverer makes at most so many word steps, and then the command beside goes on; how many word steps it made.
fn recover(pool: &mut Pool, me: Me, most: u32, beside: &mut Option<Command>) -> Option<u32>
    requires geometry { GeometryFits me.geometry }
    requires who { me.who < me.geometry.clients }
{
    let made = perform(pool, me, Op::Recover, most)?;
    go_on(pool, beside)?;
    Some(made)
}

/// The command beside goes on, and a recoverer dies after `second` word steps, if that isn't 0. Then another one recovers the identity, unless
/// it is gone already. How many word steps the first recoverer made.
fn recover_twice(pool: &mut Pool, me: Me, second: u32, beside: &mut Option<Command>) -> Option<u32>
    requires geometry { GeometryFits me.geometry }
    requires who { me.who < me.geometry.clients }
{
    go_on(pool, beside)?;
    let mut first = 0;
    if second > 0 && !is_gone(pool, me) {
        first = recover(pool, me, second, beside)?;
    }
    if !is_gone(pool, me) {
        let made = recover(pool, me, LIMIT, beside)?;
        first = if second > 0 { first } else { made };
    }
    Some(first)
}

/// The identity dies after `death` word steps of its operation, and is recovered, where a recoverer may die too. How many word steps the first
/// recoverer made; none where the command beside didn't end.
fn kill(pool: &mut Pool, cut: &Cut, death: u32, second: u32) -> Option<u32>
    requires geometry { GeometryFits cut.now.me.geometry }
    requires who { cut.now.me.who < cut.now.me.geometry.clients }
{
    perform(pool, cut.me, cut.op, death)?;
    let mut beside = command_between(cut.between, cut.me.geometry);
    let first = recover_twice(pool, cut.me, second, &mut beside);
    match &beside {
        Some(command) if !command.finished() => None,
        _ => first,
    }
}

/// The number that is made of all word steps of a trial and of all words that it left, and how many word steps its first recoverer made.
#[derive(Drop)]
pub struct Trial {
    pub number: u64,
    pub first: u32,
}

/// A death and a second one in a pool of the prepared words, and the recovery. None where a rule is broken.
pub fn attempt(
    alloc: Global,
    prepared: &Pool,
    cut: &Cut,
    death: u32,
    second: u32,
) -> Result<Option<Trial>, AllocError>
    requires geometry { GeometryFits cut.now.me.geometry }
    requires who { cut.now.me.who < cut.now.me.geometry.clients }
{
    let mut pool = prepared.copy(alloc)?;
    let Some(first) = kill(&mut pool, cut, death, second) else {
        return Ok(None);
    };
    if !is_recovered(alloc, &pool, cut.me)? {
        return Ok(None);
    }
    let words = pool.number();
    pool.sum.add(words);
    let number = pool.sum.sum;
    Ok(Some(Trial { number, first }))
}
