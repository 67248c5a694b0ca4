//! Random commands of several clients, each run as a whole on the words of a pool.
//!
//! For each pool a line tells how many word steps there were, and one number that is made of all of them: what was asked, what was found, whether
//! the command showed its answer after it, and the answers.

ghost use Rattle.std.specs.Prelude.{◌<◌};
ghost use Rattle.shm_words.specs.Layout.{GeometryFits};
ghost use Rattle.shm_table.specs.Command.{LineMayStand};

mod answers;
mod lines;

use answers::add_answer;
use lines::line_for;
use shm_graph::{Machine, Me, Turn};
use shm_recover::Join;
use shm_script::{Line, Trace, generate};
use shm_table::Command;
use shm_words::Geometry;
use std::alloc::{AllocError, Global};
use std::io;
use t_runs::{Sum, make};

/// How many commands each client has.
const COMMANDS: u32 = 12;

/// More word steps than a command makes here.
const LIMIT: u32 = 100_000;

/// The words of a pool in which nobody has joined.
fn first_words(alloc: Global, geometry: Geometry) -> Result<Vec<u64>, AllocError>
    requires { GeometryFits geometry }
{
    let mut words = vec![in alloc; 0u64; geometry.total() as usize]?;
    for who in 0..geometry.clients() {
        if let Some(word) = words.get_mut(geometry.era(who, who) as usize) {
            *word = 1;
        }
    }
    Ok(words)
}

/// Joins the identity; none where that doesn't end.
fn join(words: &mut Vec<u64>, me: Me) -> Option<()>
    requires geometry { GeometryFits me.geometry }
    requires who { me.who < me.geometry.clients }
{
    let mut join = Join::new(me);
    for _ in 0..LIMIT {
        if join.finished() {
            return None;
        }
        let seen = make(words, join.ask())?;
        if let Turn::Done(_) = join.take(seen) {
            return Some(());
        }
    }
    None
}

/// Runs a command; none where it doesn't end, or answers another thing than it showed.
fn run(words: &mut Vec<u64>, command: &mut Command, sum: &mut Sum) -> Option<()> {
    for _ in 0..LIMIT {
        if command.finished() {
            return None;
        }
        let ask = command.ask();
        let seen = make(words, ask)?;
        sum.step(ask, seen);
        let turn = command.take(seen);
        let effect = command.effect();
        sum.add(u64::from(effect.is_some()));
        if let Turn::Done(answer) = turn {
            add_answer(sum, answer);
            return match effect {
                Some(shown) if shown != answer => None,
                _ => Some(()),
            };
        }
    }
    None
}

/// The same of the command of a line.
fn run_line(words: &mut Vec<u64>, me: Me, line: &Line, sum: &mut Sum) -> Option<()>
    requires geometry { GeometryFits me.geometry }
    requires who { me.who < me.geometry.clients }
    requires line { LineMayStand me line.now }
{
    run(words, &mut Command::new(me, line), sum)
}

/// The line with a number of a client.
fn line_of(trace: &Trace, who: u8, n: u32) -> Option<Line> {
    let script = trace.scripts.get(usize::from(who))?;
    script.lines.get(n as usize).copied()
}

/// Runs the commands of all clients of a pool, one of each client after the other; none where one of them doesn't end.
fn run_all(words: &mut Vec<u64>, geometry: Geometry, trace: &Trace) -> Option<Sum>
    requires { GeometryFits geometry }
{
    let mut sum = Sum::new();
    for who in 0..geometry.clients() {
        join(words, Me::new(geometry, who))?;
    }
    for n in 0..COMMANDS {
        for who in 0..geometry.clients() {
            let me = Me::new(geometry, who);
            if let Some(line) = line_for(me, line_of(trace, who, n)?) {
                run_line(words, me, &line, &mut sum)?;
            }
        }
    }
    Some(sum)
}

/// Tells of one pool; false where a command didn't end.
fn tell(rt: &HostRuntime, pool: u64) -> io::Result<bool> {
    let clients = 1 + (pool % 4) as u8;
    let Ok(geometry) = Geometry::new(clients, u16::from(clients)) else {
        return Ok(false);
    };
    let trace = generate(rt.alloc(), pool, COMMANDS)?;
    let mut words = first_words(rt.alloc(), geometry)?;
    match run_all(&mut words, geometry, &trace) {
        Some(sum) => {
            println!(rt; "{pool} {} {}", sum.steps, sum.sum)?;
            Ok(true)
        }
        None => Ok(false),
    }
}

/// Tells of so many pools, up to the first one in which a command doesn't end.
pub fn tell_all(rt: &HostRuntime, pools: u64) -> io::Result<()> {
    for pool in 0..pools {
        if !tell(rt, pool)? {
            return println!(rt; "  = stopped");
        }
    }
    Ok(())
}
