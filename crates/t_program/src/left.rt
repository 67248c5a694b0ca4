//! What is told of the replay, or the run, that a call hands out.

use shm_program::Finished;
use shm_script::Log;
use std::io;

/// How many words the closed pool has, and each that isn't 0 behind its address.
pub fn words(rt: &HostRuntime, finished: &Finished) -> io::Result<()> {
    match finished {
        Finished::Neither => println!(rt; "no replay"),
        Finished::Replayed(run) => words_of(rt, run.closed.words()),
        Finished::Ran(run) => words_of(rt, run.closed.words()),
        Finished::Rescued(run) => words_of(rt, run.closed.words()),
        Finished::Polled(run) => words_of(rt, run.closed.words()),
        Finished::Treed(closed) => words_of(rt, closed.words()),
    }
}

/// How many words there are, and each that isn't 0 behind its address.
fn words_of(rt: &HostRuntime, words: &[u64]) -> io::Result<()> {
    println!(rt; "{} words", words.len())?;
    for (at, word) in words.iter().enumerate() {
        if *word != 0 {
            println!(rt; "{at} {word}")?;
        }
    }
    Ok(())
}

/// How many logs there are.
pub fn count_logs(finished: &Finished) -> usize {
    match finished {
        Finished::Neither | Finished::Treed(_) => 0,
        Finished::Replayed(run) => run.logs.len(),
        Finished::Ran(run) => run.logs.len(),
        Finished::Rescued(run) => run.logs.len(),
        Finished::Polled(run) => run.logs.len(),
    }
}

/// The answers of each client.
pub fn answers(rt: &HostRuntime, finished: &Finished) -> io::Result<()> {
    match finished {
        Finished::Neither | Finished::Treed(_) => println!(rt; "no replay"),
        Finished::Replayed(run) => answers_of(rt, run.logs.as_slice()),
        Finished::Ran(run) => answers_of(rt, run.logs.as_slice()),
        Finished::Rescued(run) => answers_of(rt, run.logs.as_slice()),
        Finished::Polled(run) => answers_of(rt, run.logs.as_slice()),
    }
}

/// The answers of each log.
fn answers_of(rt: &HostRuntime, logs: &[Log]) -> io::Result<()> {
    for log in logs {
        println!(rt; "client {}", log.client)?;
        for entry in &log.entries {
            println!(rt; "{:?}", entry.answer)?;
        }
    }
    Ok(())
}
