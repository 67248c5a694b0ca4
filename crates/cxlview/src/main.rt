//! A pool and a run seen from outside: the program.
//!
//! `cxlview stats` reads an image and writes its figures, and `cxlview pool` draws its pool. `cxlview steps` reads a trace and writes its word steps by
//! command, and `cxlview run` draws its run. What stands against the words or the input goes to standard error.
#![tactic(auto)]

use shm_io::{StdSink, StdSource};
use std::env;
use std::process::ExitCode;
use view_program::{program_words, view};

fn main(rt: HostRuntime) -> ExitCode {
    let words = match program_words(rt.alloc(), env::args(&rt)) {
        Ok(words) => words,
        Err(_) => return ExitCode::from(6),
    };
    let (mut source, mut sink) = (StdSource::new(&rt), StdSink::new(&rt));
    let outcome = view(rt.alloc(), words.as_slice(), &mut source, &mut sink);
    // Where standard error can't be written either, nothing is said.
    let _ = rt.eprint(outcome.said.as_str());
    ExitCode::from(outcome.status)
}
