//! Calls on pools in vectors, by the lines of standard input.
//!
//! A line `# TITLE` begins a row and is printed again. `begin CLIENTS SEGMENTS ERA WHO TABLES LIFE [FORMAT]` makes a pool that the identity
//! WHO joins, with so many word steps left; `make` makes one that nobody joins, and `step_join` one on which a join made one step.
//! `NAME WHO ..` makes that call of an identity and prints its answer. What an identity may do is known by what it did before; a line that asks
//! for anything else ends the program with a failure. `life STEPS` sets the word steps that are left, and `left` prints them; `words`,
//! `word`, `count`, `live`, `pool` and `still` print what the pool has. `close` closes the pool, of which `words`, `sizes` and `counted`
//! print then. Lines that begin with `|` are those of a trace, whose commands `report`, `summary` and `steps` run on a pool for tables.
//! What must be printed (the file stdout) was computed by an independent implementation.
#![tactic(auto)]

ghost use Rattle.std.specs.Prelude.{IfOk};
ghost use Rattle.t_calls.specs.Stages.{IsStage};

mod begins;
mod counting;
mod latches;
mod queues;
mod row;
mod run;
mod running;
mod seeing;
mod standing;
mod tables;
mod telling;
mod traces;

use row::{Row, refusal};
use run::{Run, turn};
use shm_plain::PlainClosed;
use std::process::ExitCode;
use std::{io, mem};

/// What the rows so far have made.
#[derive(Drop)]
enum Stage {
    Nothing,
    Open(Run),
    Closed(PlainClosed),
}

/// Closes a pool.
fn close(run: Run) -> io::Result<Stage>
    ensures { IfOk result IsStage }
{
    if run.pool.is_still() {
        Ok(Stage::Closed(run.pool.close()))
    } else {
        Err(refusal())
    }
}

/// Closes the pool that is there.
fn end(stage: &mut Stage) -> io::Result<()>
    ensures { IfOk result (λ u. IsStage stage.new) }
{
    match mem::replace(stage, Stage::Nothing) {
        Stage::Open(run) => *stage = close(run)?,
        _ => return Err(refusal()),
    }
    Ok(())
}

/// What a row makes of a pool that is there.
fn go_on(rt: &HostRuntime, stage: &mut Stage, name: &str, row: &Row) -> io::Result<()>
    requires stage { IsStage stage.old }
    ensures { IfOk result (λ u. IsStage stage.new) }
{
    match stage {
        Stage::Nothing => Err(refusal()),
        Stage::Open(run) => turn(rt, run, name, row),
        Stage::Closed(closed) => telling::tell_closed(rt, closed, name, row),
    }
}

/// The pool that a row begins with, by its name.
fn begun(rt: &HostRuntime, name: &str, row: &Row) -> io::Result<Stage>
    ensures { IfOk result IsStage }
{
    Ok(match name {
        "begin" => match begins::begin(rt, row)? {
            Some(run) => Stage::Open(run),
            None => Stage::Nothing,
        },
        "make" => Stage::Open(begins::make(rt, row)?),
        _ => Stage::Open(begins::step(rt, row)?),
    })
}

/// What a row makes of what is there.
fn follow(rt: &HostRuntime, stage: &mut Stage, name: &str, row: &Row) -> io::Result<()>
    requires stage { IsStage stage.old }
    ensures { IfOk result (λ u. IsStage stage.new) }
{
    match name {
        "begin" | "make" | "step_join" => *stage = begun(rt, name, row)?,
        "close" => end(stage)?,
        _ => go_on(rt, stage, name, row)?,
    }
    Ok(())
}

/// Follows a line that asks nothing of a pool that is there: a title, a line of a trace, and what the commands of the trace are run for.
fn note(
    rt: &HostRuntime,
    text: &mut Vec<u8>,
    line: &str,
    name: &str,
    rest: &str,
) -> io::Result<()> {
    match name {
        "#" => println!(rt; "{line}"),
        "|" => traces::add(text, rest),
        _ => traces::trace(rt, name, &Row::read(rt.alloc(), rest)?, text),
    }
}

/// What a line makes of what is there, and of the lines of a trace so far.
fn read(rt: &HostRuntime, stage: &mut Stage, text: &mut Vec<u8>, line: &str) -> io::Result<()>
    requires stage { IsStage stage.old }
    ensures { IfOk result (λ u. IsStage stage.new) }
{
    let (name, rest) = line.split_once(' ').unwrap_or((line, ""));
    match name {
        "#" | "|" | "report" | "summary" | "steps" => note(rt, text, line, name, rest),
        _ => follow(rt, stage, name, &Row::read(rt.alloc(), rest)?),
    }
}

/// Follows all lines.
fn read_all(rt: &HostRuntime) -> io::Result<()> {
    let mut stage = Stage::Nothing;
    let mut text = Vec::new(rt.alloc());
    for line in rt.lines(rt.alloc()) {
        read(rt, &mut stage, &mut text, line?.as_str())?;
    }
    Ok(())
}

fn main(rt: HostRuntime) -> ExitCode {
    match read_all(&rt) {
        Ok(()) => ExitCode::SUCCESS,
        Err(_) => ExitCode::FAILURE,
    }
}
