//! Trials of one operation: a death after each of its word steps, and those of the first recoverer.

ghost use Rattle.std.specs.Prelude.{◌<◌};
ghost use Rattle.shm_words.specs.Layout.{GeometryFits};

use crate::case::Case;
use crate::op::Op;
use crate::pool::Pool;
use crate::reading::{begin_of, op_of};
use crate::trial::{Cut, attempt, length, prepare};
use shm_graph::Me;
use std::alloc::{AllocError, Global};
use std::io;
use t_runs::{Sum, geometry};

/// After how many word steps a first recoverer dies; 0 is one that doesn't.
const SECOND: [u32; 6] = [0, 1, 2, 5, 17, 40];

/// How many trials there were, and one number for all of them.
#[derive(Drop)]
struct Trials {
    count: u64,
    sum: Sum,
}

impl Trials {
    /// Before the first one.
    fn new() -> Trials {
        let sum = Sum::new();
        Trials { count: 0, sum }
    }

    /// One more; how many word steps its first recoverer made, none where a rule is broken.
    fn add(
        &mut self,
        alloc: Global,
        prepared: &Pool,
        cut: &Cut,
        death: u32,
        second: u32,
    ) -> Result<Option<u32>, AllocError>
        requires geometry { GeometryFits cut.now.me.geometry }
        requires who { cut.now.me.who < cut.now.me.geometry.clients }
    {
        let Some(trial) = attempt(alloc, prepared, cut, death, second)? else {
            return Ok(None);
        };
        self.count = self.count.wrapping_add(1);
        self.sum.add(trial.number);
        Ok(Some(trial.first))
    }

    /// All trials after a death; false where a rule is broken.
    fn add_death(
        &mut self,
        alloc: Global,
        prepared: &Pool,
        cut: &Cut,
        death: u32,
        each: bool,
    ) -> Result<bool, AllocError>
        requires geometry { GeometryFits cut.now.me.geometry }
        requires who { cut.now.me.who < cut.now.me.geometry.clients }
    {
        if !each {
            for second in SECOND {
                if self.add(alloc, prepared, cut, death, second)?.is_none() {
                    return Ok(false);
                }
            }
            return Ok(true);
        }
        let Some(whole) = self.add(alloc, prepared, cut, death, 0)? else {
            return Ok(false);
        };
        for second in 1..whole {
            if self.add(alloc, prepared, cut, death, second)?.is_none() {
                return Ok(false);
            }
        }
        Ok(true)
    }
}

/// Tells of all deaths of an operation in a prepared pool; false where a rule is broken, or the operation doesn't fit the pool.
fn tell_deaths(rt: &HostRuntime, prepared: &Pool, cut: &Cut, each: bool) -> io::Result<bool>
    requires geometry { GeometryFits cut.now.me.geometry }
    requires who { cut.now.me.who < cut.now.me.geometry.clients }
{
    let alloc = rt.alloc();
    let Some(steps) = length(alloc, prepared, cut)? else {
        return Ok(false);
    };
    let mut trials = Trials::new();
    for before in 0..steps {
        let death = before + 1;
        if !trials.add_death(alloc, prepared, cut, death, each)? {
            return Ok(false);
        }
        if each {
            println!(rt; "{death} {} {}", trials.count, trials.sum.sum)?;
            trials = Trials::new();
        }
    }
    if !each {
        println!(rt; "{steps} {} {}", trials.count, trials.sum.sum)?;
    }
    Ok(true)
}

/// The same in the pool of a case of a format.
fn tell_format(
    rt: &HostRuntime,
    wide: bool,
    case: &Case,
    who: u8,
    op: Op,
    each: bool,
) -> io::Result<bool> {
    let Some(geometry) = geometry(wide, case.clients, case.segments) else {
        return Ok(false);
    };
    if who >= geometry.clients() {
        return Ok(false);
    }
    let Some(prepared) = prepare(rt.alloc(), geometry, case)? else {
        return Ok(false);
    };
    let cut = Cut {
        me: Me::new(geometry, who),
        op,
        between: case.between,
    };
    tell_deaths(rt, &prepared, &cut, each)
}

/// The row `cut`.
pub fn tell_cut(rt: &HostRuntime, case: &Case, text: &str, each: bool) -> io::Result<bool> {
    let Some((who, op)) = begin_of(text) else {
        return Ok(false);
    };
    let Some(op) = op_of(op) else {
        return Ok(false);
    };
    Ok(tell_format(rt, false, case, who, op, each)? && tell_format(rt, true, case, who, op, each)?)
}
