//! Traces that are run by workers and medics.

ghost use Rattle.std.specs.Prelude.{◌≤◌};

use shm_morgue::{NoGate, Ran, run_morgue};
use shm_replay::replay;
use shm_report::report;
use shm_script::{Trace, parse};
use std::alloc::{AllocError, Global};
use std::sync::Wait;
use std::test::Fail;
use std::thread::Threads;

/// A put whose client dies, and the first two recoverers too, each after it stored the slot and before it stored the era.
const ONE_PUT: &str = "pool 1 1\nclient 0\nlife 88 5 5\nput 5 77\n";

/// Two clients that die, one in its first step, and all but the last of whose recoverers die.
const TWO_CLIENTS: &str =
    "pool 2 2\nclient 0\nlife 1 3 40\nput 5 77\nput 6 78\nclient 1\nlife 150 1 1\nput 7 79\nput 8 80\n";

/// The report of what was left.
fn told(alloc: Global, rescued: &Ran) -> Result<Vec<u8>, AllocError> {
    let closed = &rescued.closed;
    let words = closed.words();
    report(alloc, closed.geometry(), words, rescued.logs.as_slice())
}

/// The report of the trace's replay.
fn replayed(alloc: Global, trace: &Trace) -> Result<Vec<u8>, AllocError> {
    let run = replay(alloc, trace)?;
    let closed = &run.closed;
    report(
        alloc,
        closed.geometry(),
        closed.words(),
        run.logs.as_slice(),
    )
}

/// Whether so many medics leave of a trace what its replay leaves.
fn leaves_the_same<R: Threads + Wait + Sync>(
    rt: &R,
    alloc: Global,
    text: &str,
    medics: u8,
) -> Result<bool, AllocError>
    requires { (1 ≤ medics) × (medics ≤ 4) }
{
    let Ok(trace) = parse(alloc, text.as_bytes()) else {
        return Ok(false);
    };
    let rescued = run_morgue(rt, alloc, &trace, medics, &NoGate)?;
    let text = told(alloc, &rescued)?;
    let other = replayed(alloc, &trace)?;
    Ok(text.as_slice() == other.as_slice())
}

#[test]
fn two_killed_recoveries(rt: HostRuntime) -> Result<(), Fail> {
    let same = leaves_the_same(&rt, rt.alloc(), ONE_PUT, 2)?;
    assert!(rt; same);
    Ok(())
}

#[test]
fn two_clients_die(rt: HostRuntime) -> Result<(), Fail> {
    let same = leaves_the_same(&rt, rt.alloc(), TWO_CLIENTS, 1)?;
    assert!(rt; same);
    Ok(())
}
