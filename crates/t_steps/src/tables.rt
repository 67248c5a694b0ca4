//! Machines over tables.
//!
//! A line `# ..` names a row. `pool CLIENTS SEGMENTS` begins with words that are 0 (`pool2` in format 2), `set AT=VALUE ..` sets some of them,
//! `keep` keeps the words as they stand, and `again` begins with those that were kept. Any other line runs the machine of its name: an identity, and
//! the machine's own numbers; `put`, `del`, `get`, `copy`, `send` and `recv` are commands, with the numbers that their lines have in a script. What
//! is told of a run is said at `go` of t_runs. `effect put WHO ..` tells of a command, not of its word steps, but of when it shows its answer.
//! `random POOLS` runs random commands of several clients in so many pools of their own (random.rt).
//! What must be told (the file stdout) was computed by an independent implementation.

mod effects;
mod entries;
mod lines;
mod looks;
mod random;

use std::alloc::{AllocError, Global};
use std::io;
use t_runs::{Case, number, numbers};

/// Begins with these words, which are of the same pool.
fn begin_again(alloc: Global, case: &mut Case, kept: &[u64]) -> Result<(), AllocError> {
    case.words = kept.to_vec(alloc)?;
    case.before = kept.to_vec(alloc)?;
    Ok(())
}

/// Takes a line of the case, or one that keeps its words or begins with those that were kept; false where it is none.
fn take(
    alloc: Global,
    case: &mut Case,
    kept: &mut Vec<u64>,
    line: &str,
) -> Result<bool, AllocError> {
    match line {
        "keep" => *kept = case.words.as_slice().to_vec(alloc)?,
        "again" => begin_again(alloc, case, kept.as_slice())?,
        _ => return case.take(alloc, line),
    }
    Ok(true)
}

/// Runs the machine of a name, if it looks for a key; or that of a command.
fn look(rt: &HostRuntime, case: &mut Case, name: &str, f: &[u64; 6]) -> io::Result<()> {
    match name {
        "find" => looks::find(rt, case, f),
        "locate" => looks::locate(rt, case, f),
        "unlatch" => looks::unlatch(rt, case, f),
        "fetch" => looks::fetch(rt, case, f),
        _ => effects::run(rt, case, name, f),
    }
}

/// Runs the machine of a name.
fn run(rt: &HostRuntime, case: &mut Case, name: &str, f: &[u64; 6]) -> io::Result<()> {
    match name {
        "open_table" => entries::open_table(rt, case, f),
        "enter" => entries::enter(rt, case, f),
        "put_root" => entries::put_root(rt, case, f),
        "replace" => entries::replace(rt, case, f),
        "unlink" => entries::unlink(rt, case, f),
        _ => look(rt, case, name, f),
    }
}

/// Prints a line again, and runs what it names.
fn tell(rt: &HostRuntime, case: &mut Case, line: &str) -> io::Result<()> {
    println!(rt; "{line}")?;
    let (name, rest) = line.split_once(' ').unwrap_or((line, ""));
    match name {
        "#" => Ok(()),
        "effect" => effects::show(rt, case, rest),
        "random" => random::tell_all(rt, number(rest)),
        _ => run(rt, case, name, &numbers(rest)),
    }
}

/// Takes or tells of a line.
pub fn tell_line(
    rt: &HostRuntime,
    case: &mut Case,
    kept: &mut Vec<u64>,
    line: &str,
) -> io::Result<()> {
    if take(rt.alloc(), case, kept, line)? {
        return Ok(());
    }
    tell(rt, case, line)
}
