//! Rows that run the commands of a trace on a pool for tables.

ghost use Rattle.std.specs.Prelude.{◌≡◌, IfOk};
ghost use Rattle.shm_words.specs.Layout.{GeometryFits};
ghost use Rattle.shm_client.specs.Running.{AreOpen, IsFew};

use crate::row::{Row, refusal};
use crate::tables::{answered, closed, opened};
use shm_graph::Life;
use shm_plain::{PlainClosed, PlainPool};
use shm_report::{report, summary};
use shm_script::{End, Entry, Line, Log, Script, Trace, parse};
use shm_words::Geometry;
use std::alloc::{AllocError, Global};
use std::{io, str};

/// Adds a line to the text of a trace.
pub fn add(text: &mut Vec<u8>, line: &str) -> io::Result<()> {
    text.extend_from_slice(line.as_bytes())?;
    text.push(b'\n')?;
    Ok(())
}

/// The sizes and the format of the pool of a trace, which has one or two identities.
fn geometry(trace: &Trace) -> io::Result<Geometry>
    ensures { IfOk result IsFew }
{
    let made = if trace.wide {
        Geometry::wide(trace.clients, trace.segments)
    } else {
        Geometry::new(trace.clients, trace.segments)
    };
    match made {
        Ok(geometry) if geometry.clients() <= 2 => Ok(geometry),
        _ => Err(refusal()),
    }
}

/// The log of an identity that has run no command yet.
fn no_log(alloc: Global, client: u8) -> Log {
    Log {
        client,
        entries: Vec::new(alloc),
        end: End::Ended,
    }
}

/// Runs a command of the identity of the log, which comes to have it with its answer.
fn run_logged(pool: &mut PlainPool, log: &mut Log, line: &Line, life: &mut Life) -> io::Result<()>
    requires all { AreOpen pool.old }
    ensures all { IfOk result (λ u. AreOpen pool.new) }
    ensures start { IfOk result (λ u. pool.new.start ≡ pool.old.start) }
{
    let answer = answered(pool, log.client, line, life)?;
    log.entries.push(Entry {
        line: *line,
        answer,
    })?;
    Ok(())
}

/// Runs the commands that the log hasn't yet, at most so many.
fn go_on(
    pool: &mut PlainPool,
    script: &Script,
    log: &mut Log,
    most: usize,
    life: &mut Life,
) -> io::Result<()>
    requires all { AreOpen pool.old }
    ensures all { IfOk result (λ u. AreOpen pool.new) }
    ensures start { IfOk result (λ u. pool.new.start ≡ pool.old.start) }
{
    let passed = log.entries.len();
    for line in script.lines.iter().skip(passed).take(most) {
        run_logged(pool, log, line, life)?;
    }
    Ok(())
}

/// Runs at most so many commands of an identity.
fn go_of(
    pool: &mut PlainPool,
    trace: &Trace,
    logs: &mut Vec<Log>,
    client: u8,
    life: &mut Life,
) -> io::Result<()>
    requires all { AreOpen pool.old }
    ensures all { IfOk result (λ u. AreOpen pool.new) }
    ensures start { IfOk result (λ u. pool.new.start ≡ pool.old.start) }
{
    for (script, log) in trace.scripts.iter().zip(logs.iter_mut()) {
        if script.client == client {
            go_on(pool, script, log, 1, life)?;
        }
    }
    Ok(())
}

/// Runs the commands of a trace: one for each item of the order, and then the others by identity.
fn play(pool: &mut PlainPool, trace: &Trace, logs: &mut Vec<Log>, life: &mut Life) -> io::Result<()>
    requires all { AreOpen pool.old }
    ensures all { IfOk result (λ u. AreOpen pool.new) }
    ensures start { IfOk result (λ u. pool.new.start ≡ pool.old.start) }
{
    for item in &trace.order {
        go_of(pool, trace, logs, item.client, life)?;
    }
    for (script, log) in trace.scripts.iter().zip(logs.iter_mut()) {
        go_on(pool, script, log, script.lines.len(), life)?;
    }
    Ok(())
}

/// Logs of the identities of a trace, without commands.
fn no_logs(alloc: Global, trace: &Trace) -> Result<Vec<Log>, AllocError> {
    let mut logs = Vec::new(alloc);
    for script in &trace.scripts {
        logs.push(no_log(alloc, script.client))?;
    }
    Ok(logs)
}

/// Prints a text.
fn tell_text(rt: &HostRuntime, text: &[u8]) -> io::Result<()> {
    match str::from_utf8(text) {
        Ok(text) => print!(rt; "{text}"),
        Err(_) => Err(refusal()),
    }
}

/// Prints the answers of the commands.
fn tell_answers(rt: &HostRuntime, logs: &[Log]) -> io::Result<()> {
    for log in logs {
        for entry in &log.entries {
            println!(rt; "{:?}", entry.answer)?;
        }
    }
    Ok(())
}

/// Prints words of a pool at the addresses that a row has from its second number on.
fn tell_words(rt: &HostRuntime, words: &[u64], row: &Row) -> io::Result<()> {
    for &at in row.from(1) {
        let word = words.get(at as usize).copied().unwrap_or(0);
        println!(rt; "word {at} {word}")?;
    }
    Ok(())
}

/// A pool for tables on which commands were run, closed, and what they answered.
#[derive(Drop)]
struct Played {
    closed: PlainClosed,
    logs: Vec<Log>,
    /// The word steps that were left after the joins and after the commands.
    joined: u64,
    answered: u64,
}

/// Runs the commands of a trace on a pool of these sizes.
fn run_trace(
    alloc: Global,
    trace: &Trace,
    geometry: Geometry,
    life: &mut Life,
) -> io::Result<Played>
    requires { IsFew geometry }
{
    let mut pool = opened(alloc, geometry, life)?;
    let joined = life.left;
    let mut logs = no_logs(alloc, trace)?;
    play(&mut pool, trace, &mut logs, life)?;
    let answered = life.left;
    Ok(Played {
        closed: closed(pool, life)?,
        logs,
        joined,
        answered,
    })
}

/// Prints the report.
fn tell_report(rt: &HostRuntime, geometry: Geometry, words: &[u64], logs: &[Log]) -> io::Result<()>
    requires { GeometryFits geometry }
{
    let text = report(rt.alloc(), geometry, words, logs)?;
    tell_text(rt, text.as_slice())
}

/// Prints the answers and the summary.
fn tell_summary(rt: &HostRuntime, geometry: Geometry, words: &[u64], logs: &[Log]) -> io::Result<()>
    requires { GeometryFits geometry }
{
    tell_answers(rt, logs)?;
    let text = summary(rt.alloc(), geometry, words, logs)?;
    tell_text(rt, text.as_slice())
}

/// Prints the answers, the steps that are left after the joins, the commands and the end, and words.
fn tell_steps(rt: &HostRuntime, played: &Played, left: u64, row: &Row) -> io::Result<()> {
    tell_answers(rt, played.logs.as_slice())?;
    println!(rt; "left {} {} {left}", played.joined, played.answered)?;
    tell_words(rt, played.closed.words(), row)
}

/// Prints what a row asks of commands that were run.
fn tell_played(
    rt: &HostRuntime,
    name: &str,
    row: &Row,
    geometry: Geometry,
    played: &Played,
    left: u64,
) -> io::Result<()>
    requires { GeometryFits geometry }
{
    let (words, logs) = (played.closed.words(), played.logs.as_slice());
    match name {
        "report" => tell_report(rt, geometry, words, logs),
        "summary" => tell_summary(rt, geometry, words, logs),
        _ => tell_steps(rt, played, left, row),
    }
}

/// `report LIFE`, `summary LIFE` and `steps LIFE AT ..`: runs the commands of the trace, with so many word steps. Prints the report; or the
/// answers and the summary; or the answers, the steps that are left after the joins, the commands and the end, and words.
pub fn trace(rt: &HostRuntime, name: &str, row: &Row, text: &mut Vec<u8>) -> io::Result<()> {
    let trace = parse(rt.alloc(), text.as_slice()).map_err(|_| refusal())?;
    text.truncate(0);
    let geometry = geometry(&trace)?;
    let mut life = Life::of(row.at(0));
    let played = run_trace(rt.alloc(), &trace, geometry, &mut life)?;
    tell_played(rt, name, row, geometry, &played, life.left)
}
