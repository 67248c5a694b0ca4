//! The words that the process is called with, and the status that it ends with.

use crate::reading;
use shm_program::{Finished, Outcome, exit_code, program_words};
use std::alloc::AllocError;
use std::io;
use std::io::ErrorKind;
use std::process::ExitCode;

/// The words of a call whose process has these.
pub fn args(rt: &HostRuntime, row: &str) -> io::Result<()> {
    let all = reading::words(rt.alloc(), row)?;
    tell(rt, program_words(rt.alloc(), Ok(all.into_iter())))
}

/// The words of a call where those of the process can't be read.
pub fn unread(rt: &HostRuntime, row: &str) -> io::Result<()> {
    let kind = match row {
        "memory" => ErrorKind::OutOfMemory,
        _ => ErrorKind::InvalidData,
    };
    tell(rt, program_words(rt.alloc(), Err(io::Error::from(kind))))
}

/// How many words there are, and each of them.
fn tell(rt: &HostRuntime, words: Result<Vec<String>, AllocError>) -> io::Result<()> {
    let Ok(words) = words else {
        return println!(rt; "want of memory");
    };
    println!(rt; "{} words", words.len())?;
    for word in &words {
        println!(rt; "{word}")?;
    }
    Ok(())
}

/// Whether the process ends with the status of a call, or with 6 where there was none for want of memory.
pub fn exit(rt: &HostRuntime, row: &str) -> io::Result<()> {
    let (called, status) = match row {
        "wanting" => (Err(AllocError), 6),
        _ => called_with(row),
    };
    let is_status = exit_code(&called) == ExitCode::from(status);
    println!(rt; "exit {status} {is_status}")
}

/// A call that came to a status.
fn called_with(row: &str) -> (Result<Outcome, AllocError>, u8) {
    let status = u8::try_from(reading::number(row)).unwrap_or(0);
    let outcome = Outcome {
        status,
        finished: Finished::Neither,
    };
    (Ok(outcome), status)
}
