//! The logs of a trace, with the answers and ends that a text gives.
//!
//! An answer is its name in small letters, with its numbers behind colons, as `stored:50`. An end is `ended`, or `N:done` or `N:undone`
//! for a death with N commands finished.

use crate::reports::numbers::number;
use crate::reports::stop::Stop;
use shm_script::{Answer, End, Entry, Line, Log, Trace};
use std::alloc::{AllocError, Global};
use std::str::SplitWhitespace;

/// The answer of this name with these numbers.
fn answer(name: &str, first: u64, second: u64) -> Option<Answer> {
    Some(match name {
        "ok" => Answer::Ok,
        "stored" => Answer::Stored {
            block: u32::try_from(first).ok()?,
        },
        "value" => Answer::Value {
            number: first,
            block: u32::try_from(second).ok()?,
        },
        "missing" => Answer::Missing,
        "queuefull" => Answer::QueueFull {
            head: first,
            tail: second,
        },
        "empty" => Answer::Empty { at: first },
        "rootsfull" => Answer::RootsFull,
        "eraspent" => Answer::EraSpent { era: first },
        _ => return full(name, first, second),
    })
}

/// The answer of this name, where pages or a count are full.
fn full(name: &str, first: u64, second: u64) -> Option<Answer> {
    match name {
        "full" => Some(Answer::Full {
            segments: u16::try_from(first).ok()?,
            blocks: u32::try_from(second).ok()?,
        }),
        "countfull" => Some(Answer::CountFull {
            block: u32::try_from(first).ok()?,
            count: u16::try_from(second).ok()?,
        }),
        _ => None,
    }
}

/// The answer that a word spells; a number that is left out is 0.
fn answer_of(word: &str) -> Option<Answer> {
    let (name, numbers) = word.split_once(':').unwrap_or((word, "0:0"));
    let (first, second) = numbers.split_once(':').unwrap_or((numbers, "0"));
    answer(name, number(first)?, number(second)?)
}

/// The end that a word spells.
fn end_of(word: &str) -> Option<End> {
    if word == "ended" {
        return Some(End::Ended);
    }
    let (finished, how) = word.split_once(':')?;
    Some(End::Died {
        finished: u32::try_from(number(finished)?).ok()?,
        done: how == "done",
    })
}

/// A command with the next answer.
fn entry_of(line: Line, answers: &mut SplitWhitespace) -> Option<Entry> {
    let answer = answer_of(answers.next()?)?;
    Some(Entry { line, answer })
}

/// Commands with the next answers.
fn entries_of(
    alloc: Global,
    lines: &[Line],
    answers: &mut SplitWhitespace,
) -> Result<Vec<Entry>, Stop> {
    let mut entries = Vec::new(alloc);
    for line in lines {
        entries.push(entry_of(*line, answers).ok_or(Stop::NoRow)?)?;
    }
    Ok(entries)
}

/// The logs of a trace with these answers and ends.
pub fn logs_of(alloc: Global, trace: &Trace, answers: &str, ends: &str) -> Result<Vec<Log>, Stop> {
    let mut logs = Vec::new(alloc);
    let mut answers = answers.split_whitespace();
    let mut ends = ends.split_whitespace();
    for script in trace.scripts.iter() {
        let end = ends.next().and_then(end_of).ok_or(Stop::NoRow)?;
        logs.push(Log {
            client: script.client,
            entries: entries_of(alloc, script.lines.as_slice(), &mut answers)?,
            end,
        })?;
    }
    Ok(logs)
}
