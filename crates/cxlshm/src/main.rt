//! A manager of shared, counted memory: the program.
//!
//! `cxlshm replay` reads a trace, replays it, closes the pool and writes the report, or with `--image` the image of the pool; with `--print`
//! it writes the trace. `cxlshm run` has clients on threads run the trace. `cxlshm audit` reads an image and writes the verdict on it, and
//! `cxlshm migrate` the image of its pool in format 2. `cxlshm make START SIZE` draws a trace, replays it and writes the summary; with
//! `--print` it writes the trace. `cxlshm poll Q` has clients that are polled run a trace, and `cxlshm tree` runs a script for versions of
//! an ordered map.
//!
//! What is read and written and the status are those of `run` of shm_program. Beside them `main` says on standard error what went wrong.
#![tactic(auto)]

use shm_faults::{Call, Heard, KeptSink, KeptSource, status_of};
use shm_io::{StdSink, StdSource};
use shm_program::{program_words, run};
use shm_team::NoGate;
use std::env;
use std::io::IsTerminal;
use std::process::ExitCode;

fn main(rt: HostRuntime) -> ExitCode {
    let mut source = KeptSource::new(rt.alloc(), StdSource::new(&rt));
    let output = Heard::new(&rt);
    let mut sink = KeptSink::new(rt.alloc(), StdSink::new(&output));
    let words = match env::args(&rt) {
        Ok(args) => program_words(rt.alloc(), Ok(args)).ok(),
        Err(_) => None,
    };
    let words = words.as_deref();
    if rt.stdout().is_terminal() {
        let _ = Call::of(words).warn(&rt);
    }
    let code = run(
        &rt,
        rt.alloc(),
        env::args(&rt),
        &mut source,
        &mut sink,
        &NoGate,
    );
    let call = Call {
        words,
        input: source.kept(),
        said: sink.kept(),
        write_error: output.why(),
    };
    // Where standard error can't be written either, nothing is said.
    let _ = call.tell(&rt, status_of(code));
    code
}
