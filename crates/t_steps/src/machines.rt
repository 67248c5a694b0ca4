//! Machines on blocks, roots and queues.
//!
//! A line `# ..` names a row. `pool CLIENTS SEGMENTS` begins with words that are 0 (`pool2` in format 2), `set AT=VALUE ..` sets some of them,
//! and any other line runs the machine of its name: an identity, and the machine's own numbers. The words stay as a machine leaves them. What
//! is told of a run is said at `go` of t_runs. What must be told (the file stdout) was computed by an independent implementation.

ghost use Rattle.std.specs.Prelude.{◌<◌};

mod allocation;
mod counting;
mod queues;
mod reading;
mod recovery;
mod references;

use std::io;
use t_runs::{Case, numbers};

/// Runs the machine of a name.
fn run(rt: &HostRuntime, case: &mut Case, name: &str, f: &[u64; 6]) -> io::Result<()> {
    let Some(me) = case.me(f[0]) else {
        return println!(rt; "  refused");
    };
    if counting::run(rt, case, me, name, f)?
        || allocation::run(rt, case, me, name, f)?
        || reading::run(rt, case, me, name, f)?
        || references::run(rt, case, me, name, f)?
        || queues::run(rt, case, me, name, f)?
        || recovery::run(rt, case, me, name)?
    {
        Ok(())
    } else {
        println!(rt; "  unknown")
    }
}

/// Tells of a line.
pub fn tell_line(rt: &HostRuntime, case: &mut Case, line: &str) -> io::Result<()> {
    if case.take(rt.alloc(), line)? {
        return Ok(());
    }
    println!(rt; "{line}")?;
    let (name, rest) = line.split_once(' ').unwrap_or((line, ""));
    match name {
        "#" | "" => Ok(()),
        _ => run(rt, case, name, &numbers(rest)),
    }
}
