//! Words and texts, by the lines of standard input.
//!
//! A line `## SUBJECT` begins the rows of a subject, with nothing of those before it, and is printed again: `words` (words.rt), `scripts`
//! (scripts.rt), `reports` (reports.rt) or `versions` (versions.rt). What the other lines say stands there.
#![tactic(auto)]

mod reports;
mod scripts;
mod versions;
mod words;

use reports::Rows;
use scripts::Desk;
use std::alloc::{AllocError, Global};
use std::io;
use std::process::ExitCode;

/// Whose rows are read, and what they have made so far.
#[derive(Drop)]
enum Subject {
    None,
    Words,
    Scripts(Desk),
    Reports(Rows),
    Versions(Vec<u8>),
}

/// The subject of a name, before its first row.
fn subject_of(alloc: Global, name: &str) -> Result<Subject, AllocError> {
    Ok(match name {
        "words" => Subject::Words,
        "scripts" => Subject::Scripts(Desk::new(alloc)?),
        "reports" => Subject::Reports(Rows::new(alloc)),
        "versions" => Subject::Versions(Vec::new(alloc)),
        _ => Subject::None,
    })
}

/// Tells of a line of a subject.
fn tell_line(rt: &HostRuntime, subject: &mut Subject, line: &str) -> io::Result<()> {
    match subject {
        Subject::None => println!(rt; "no subject"),
        Subject::Words => words::tell_line(rt, line),
        Subject::Scripts(desk) => scripts::tell_line(rt, desk, line),
        Subject::Reports(rows) => reports::tell_line(rt, rows, line),
        Subject::Versions(text) => versions::tell_line(rt, text, line),
    }
}

/// Tells of all lines.
fn tell_all(rt: &HostRuntime) -> io::Result<()> {
    let mut subject = Subject::None;
    for line in rt.lines(rt.alloc()) {
        let line = line?;
        match line.as_str().strip_prefix("## ") {
            Some(name) => {
                println!(rt; "## {name}")?;
                subject = subject_of(rt.alloc(), name)?;
            }
            None => tell_line(rt, &mut subject, line.as_str())?,
        }
    }
    Ok(())
}

fn main(rt: HostRuntime) -> ExitCode {
    match tell_all(&rt) {
        Ok(()) => ExitCode::SUCCESS,
        Err(_) => ExitCode::FAILURE,
    }
}
