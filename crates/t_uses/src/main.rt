//! Callers of the library, each with the contract that its user would want, and what comes of them by the lines of standard input.
//!
//! A line is a name and how many word steps there are: `memory STEPS`, `table STEPS`, `machine STEPS`, `single STEPS`, `stepped STEPS`, `threads STEPS`; or
//! `polled TURNS`, how many turns there are. Lines that begin with `#` are printed again. docs/CALLING.md reads the callers aloud.
#![tactic(auto)]

mod image;
mod machine;
mod memory;
mod polled;
mod single;
mod stop;
mod table;
mod threads;

use image::{judged, judged_shared};
use machine::shared_root;
use memory::closed_pair;
use polled::{one_put, played_and_closed};
use shm_audit::verdict_text;
use shm_graph::Life;
use shm_script::{Answer, End};
use shm_words::Geometry;
use single::{called_and_closed, left_and_closed};
use std::alloc::AllocGlobal;
use std::process::ExitCode;
use std::random::RandomSource;
use std::sync::Wait;
use std::thread::Threads;
use std::{io, str};
use table::{put_copy_die, two_clients};
use threads::shared_while_one_dies;

/// What a line is answered by that asks for nothing that is there.
fn refusal() -> io::Error {
    io::Error::from(io::ErrorKind::InvalidInput)
}

/// `memory STEPS`: a pair in a pool of its own, and the verdict on the image of the closed pool.
fn tell_memory(rt: &HostRuntime, steps: u64) -> io::Result<()> {
    let geometry = Geometry::new(1, 1).map_err(|_| refusal())?;
    match closed_pair(rt.alloc(), geometry, &mut Life::of(steps)) {
        Ok(closed) => {
            let verdict = judged(rt.alloc(), &closed).map_err(|_| refusal())?;
            let text = verdict_text(rt.alloc(), &verdict)?;
            print!(rt;
                "{}",
                str::from_utf8(text.as_slice()).map_err(|_| refusal())?
            )
        }
        Err(stop) => println!(rt; "{stop:?}"),
    }
}

/// Whether a put is done.
fn is_done(answer: Option<Answer>) -> bool {
    matches!(answer, Some(Answer::Stored { .. }))
}

/// `table STEPS`: two puts, the second of which its client dies in after so many word steps at most, and a copy between them.
fn tell_table(rt: &HostRuntime, steps: u64) -> io::Result<()> {
    let geometry = Geometry::new(2, 2).map_err(|_| refusal())?;
    let mut life = Life::of(100_000);
    let mut pool = two_clients(rt.alloc(), geometry, &mut life).map_err(|_| refusal())?;
    match put_copy_die(&mut pool, steps, &mut life) {
        Some(told) => {
            let copied = matches!(told.copy, Answer::Value { number: 77, .. });
            let (first, second) = (is_done(Some(told.first)), is_done(told.second));
            let gone = matches!(told.recovery, Some(Ok(())));
            println!(rt; "first {first} copied {copied} second {second} gone {gone}")
        }
        None => println!(rt; "no step was left"),
    }
}

/// `machine STEPS`: whether two roots that were made to name one block do.
fn tell_machine(rt: &HostRuntime, steps: u64) -> io::Result<()> {
    let geometry = Geometry::new(1, 1).map_err(|_| refusal())?;
    match shared_root(rt.alloc(), geometry, &mut Life::of(steps)) {
        Ok(same) => println!(rt; "same {same}"),
        Err(stop) => println!(rt; "{stop:?}"),
    }
}

/// `single STEPS`: whether a client finds in its home, in a root and in the reference word of a block what it made them name, and the verdict on the image of
/// the closed pool.
fn tell_single(rt: &HostRuntime, steps: u64) -> io::Result<()> {
    let geometry = Geometry::new(1, 1).map_err(|_| refusal())?;
    match called_and_closed(rt.alloc(), geometry, steps)? {
        Some((found, closed)) => {
            let (root, home) = (found.root == found.block, found.home == found.block);
            let (set, emptied) = (found.set == found.block, found.emptied == 0);
            let verdict = judged_shared(rt.alloc(), &closed).map_err(|_| refusal())?;
            let text = verdict_text(rt.alloc(), &verdict)?;
            print!(rt;
                "root {root} home {home} set {set} emptied {emptied} {}",
                str::from_utf8(text.as_slice()).map_err(|_| refusal())?
            )
        }
        None => println!(rt; "not called"),
    }
}

/// `stepped STEPS`: a join and a leaving in single word steps, and the verdict on the image of the closed pool.
fn tell_stepped(rt: &HostRuntime, steps: u64) -> io::Result<()> {
    let geometry = Geometry::new(1, 1).map_err(|_| refusal())?;
    match left_and_closed(rt.alloc(), geometry, steps)? {
        Some(closed) => {
            let verdict = judged_shared(rt.alloc(), &closed).map_err(|_| refusal())?;
            let text = verdict_text(rt.alloc(), &verdict)?;
            print!(rt;
                "left {}",
                str::from_utf8(text.as_slice()).map_err(|_| refusal())?
            )
        }
        None => println!(rt; "not left"),
    }
}

/// `threads STEPS`: a block that two clients share on two threads, one of which dies after so many word steps at most; the word that the other one
/// read, and the verdict on the image of the closed pool.
fn tell_threads<R: Threads + Sync>(rt: &HostRuntime, threads: &R, steps: u64) -> io::Result<()> {
    let geometry = Geometry::new(2, 1).map_err(|_| refusal())?;
    match shared_while_one_dies(threads, rt.alloc(), geometry, steps)? {
        Some((word, closed)) => {
            let verdict = judged_shared(rt.alloc(), &closed).map_err(|_| refusal())?;
            let text = verdict_text(rt.alloc(), &verdict)?;
            print!(rt;
                "read {word} {}",
                str::from_utf8(text.as_slice()).map_err(|_| refusal())?
            )
        }
        None => println!(rt; "not shared"),
    }
}

/// How the client of one command ended, and where it died whether that command was done.
fn ending(end: End) -> &'static str {
    match end {
        End::Ended => "ended",
        End::Died {
            finished: 0,
            done: false,
        } => "died undone",
        End::Died { .. } => "died done",
    }
}

/// `polled TURNS`: a put whose client is given so many turns, ten a poll, and is given up then; how it ended, and the verdict on the image of the closed
/// pool. Its first recoverer dies after 5 word steps.
fn tell_polled<R: Wait + RandomSource + AllocGlobal>(
    rt: &HostRuntime,
    wait: &R,
    turns: u64,
) -> io::Result<()> {
    let geometry = Geometry::new(1, 1).map_err(|_| refusal())?;
    let polls = u32::try_from(turns / 10).map_err(|_| refusal())?;
    let script = one_put(rt.alloc())?;
    match played_and_closed(wait, geometry, &script, (10, polls), 5)? {
        Some((log, closed)) => {
            let verdict = judged_shared(rt.alloc(), &closed).map_err(|_| refusal())?;
            let text = verdict_text(rt.alloc(), &verdict)?;
            print!(rt;
                "{} {}",
                ending(log.end),
                str::from_utf8(text.as_slice()).map_err(|_| refusal())?
            )
        }
        None => println!(rt; "not closed"),
    }
}

/// Does what a line asks for.
fn answer<R: Threads + Sync + Wait + RandomSource + AllocGlobal>(
    rt: &HostRuntime,
    threads: &R,
    line: &str,
) -> io::Result<()> {
    let (name, rest) = line.split_once(' ').unwrap_or((line, ""));
    if name == "#" {
        return println!(rt; "{line}");
    }
    let steps = rest.parse::<u64>().map_err(|_| refusal())?;
    match name {
        "memory" => tell_memory(rt, steps),
        "table" => tell_table(rt, steps),
        "machine" => tell_machine(rt, steps),
        "single" => tell_single(rt, steps),
        "stepped" => tell_stepped(rt, steps),
        "threads" => tell_threads(rt, threads, steps),
        "polled" => tell_polled(rt, threads, steps),
        _ => Err(refusal()),
    }
}

/// Does what all lines ask for.
fn answer_all<R: Threads + Sync + Wait + RandomSource + AllocGlobal>(
    rt: &HostRuntime,
    threads: &R,
) -> io::Result<()> {
    for line in rt.lines(rt.alloc()) {
        answer(rt, threads, line?.as_str())?;
    }
    Ok(())
}

fn main(rt: HostRuntime) -> ExitCode {
    match answer_all(&rt, &rt) {
        Ok(()) => ExitCode::SUCCESS,
        Err(_) => ExitCode::FAILURE,
    }
}
