//! Texts of traces that are read and printed again, and texts of answers.

use crate::scripts::streams::show;
use shm_script::{Answer, ParseStop, Trace, TraceKind, answer_text, parse, print};
use std::io;

/// The name of a kind of fault.
fn name(kind: TraceKind) -> &'static str {
    match kind {
        TraceKind::Syntax => "syntax",
        TraceKind::Range => "range",
        TraceKind::Limit => "limit",
        TraceKind::Twice => "twice",
    }
}

/// Tells why a text is refused.
pub fn tell_stop(rt: &HostRuntime, stop: ParseStop) -> io::Result<()> {
    match stop {
        ParseStop::Memory(_) => println!(rt; "no memory"),
        ParseStop::Fault(fault) => println!(rt; "{} {}", fault.line, name(fault.kind)),
    }
}

/// Tells whether the trace that was read is printed as the same text.
fn tell_again(rt: &HostRuntime, text: &[u8], trace: &Trace) -> io::Result<()> {
    let printed = print(rt.alloc(), trace)?;
    let verdict = if printed.as_slice() == text {
        "ok"
    } else {
        "another text"
    };
    println!(rt; "{verdict}")
}

/// Tells whether the text is read as a trace and printed again, or its fault.
pub fn tell(rt: &HostRuntime, text: &[u8]) -> io::Result<()> {
    match parse(rt.alloc(), text) {
        Ok(trace) => tell_again(rt, text, &trace),
        Err(stop) => tell_stop(rt, stop),
    }
}

/// The answer of a name, with numbers of its own; none where no answer has that name.
fn answer(name: &str) -> Option<Answer> {
    let block = 50;
    match name {
        "Ok" => Some(Answer::Ok),
        "Stored" => Some(Answer::Stored { block }),
        "Value" => Some(Answer::Value { number: 77, block }),
        "Missing" => Some(Answer::Missing),
        "Full" => Some(Answer::Full {
            segments: 1,
            blocks: 2,
        }),
        "CountFull" => Some(Answer::CountFull {
            block,
            count: 1_023,
        }),
        "QueueFull" => Some(Answer::QueueFull { head: 0, tail: 8 }),
        "Empty" => Some(Answer::Empty { at: 3 }),
        "RootsFull" => Some(Answer::RootsFull),
        "EraSpent" => Some(Answer::EraSpent { era: 9 }),
        _ => None,
    }
}

/// Tells the text of an answer.
pub fn tell_answer(rt: &HostRuntime, name: &str) -> io::Result<()> {
    let mut text = Vec::new(rt.alloc());
    if let Some(answer) = answer(name) {
        answer_text(&mut text, answer)?;
    }
    show(rt, text.as_slice())
}
