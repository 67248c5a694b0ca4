//! Machines on the words of a pool, word step by word step, by the lines of standard input.
//!
//! A line `## SUBJECT` begins the rows of a subject, with nothing of those before it, and is printed again: `machines` (machines.rt) or `tables`
//! (tables.rt). What the other lines say stands there.
#![tactic(auto)]

mod machines;
mod tables;

use std::alloc::Global;
use std::io;
use std::process::ExitCode;
use t_runs::Case;

/// Whose rows are read, the words that they have made so far, and for tables those that are kept.
#[derive(Drop)]
enum Subject {
    None,
    Machines(Case),
    Tables(Case, Vec<u64>),
}

/// The subject of a name, before its first row.
fn subject_of(alloc: Global, name: &str) -> Subject {
    match name {
        "machines" => Subject::Machines(Case::new(alloc)),
        "tables" => Subject::Tables(Case::new(alloc), Vec::new(alloc)),
        _ => Subject::None,
    }
}

/// Tells of a line of a subject.
fn tell_line(rt: &HostRuntime, subject: &mut Subject, line: &str) -> io::Result<()> {
    match subject {
        Subject::None => println!(rt; "no subject"),
        Subject::Machines(case) => machines::tell_line(rt, case, line),
        Subject::Tables(case, kept) => tables::tell_line(rt, case, kept, line),
    }
}

/// Tells of all lines.
fn tell_all(rt: &HostRuntime) -> io::Result<()> {
    let mut subject = Subject::None;
    for line in rt.lines(rt.alloc()) {
        let line = line?;
        match line.as_str().strip_prefix("## ") {
            Some(name) => {
                println!(rt; "## {name}")?;
                subject = subject_of(rt.alloc(), name);
            }
            None => tell_line(rt, &mut subject, line.as_str())?,
        }
    }
    Ok(())
}

fn main(rt: HostRuntime) -> ExitCode {
    match tell_all(&rt) {
        Ok(()) => ExitCode::SUCCESS,
        Err(_) => ExitCode::FAILURE,
    }
}
