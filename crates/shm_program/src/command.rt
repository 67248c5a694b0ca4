//! The words of a call of the program, and the status that the process ends with.

ghost use Rattle.std.specs.{Prelude.{◌≡◌, None, drop, map, IfOk, IfErr}, String.string_bytes, Vec.Iter.into_iter_items};
ghost use Rattle.std.specs.{IoError.error_kind, declared.io.ErrorKind.TheVariants.OutOfMemory, Process.exit_status};
ghost use Rattle.shm_program.specs.{Words.job_of, Commands.{Ends, EndsUnread, ended_with}, Outcomes.sides};

use crate::outcome::Outcome;
use crate::top::top;
use shm_io::{Sink, Source};
use shm_team::Gate;
use std::alloc::{AllocError, AllocGlobal, Global};
use std::env::Args;
use std::io;
use std::io::ErrorKind;
use std::process::ExitCode;
use std::random::RandomSource;
use std::sync::Wait;
use std::thread::Threads;

/// The words after the program's name, all of them, in order. Where one of all words isn't UTF-8 there are none, which isn't accepted.
///
/// It answers an error for want of memory, whether it was met here or by who read the words.
pub fn program_words(alloc: Global, args: io::Result<Args>) -> Result<Vec<String>, AllocError>
    ensures words { IfOk args (λ all. IfOk result (λ w. w.items ≡ drop 1 (into_iter_items all))) }
    ensures unread { IfErr args (λ _. IfOk result (λ w. job_of (map string_bytes w.items) ≡ None)) }
    ensures memory { IfErr args (λ e. error_kind e ≡ OutOfMemory → IfOk result (λ _. ⊥)) }
{
    let mut rest = match args {
        Ok(all) => all,
        Err(error) if error.kind() == ErrorKind::OutOfMemory => return Err(AllocError),
        Err(_) => return Ok(Vec::new(alloc)),
    };
    let _name = rest.next();
    rest.collect(alloc)
}

/// What the process ends with: the status of what the call came to, and 6 where memory was wanting before the words were known.
pub fn exit_code(called: &Result<Outcome, AllocError>) -> ExitCode
    ensures { exit_status result ≡ ended_with called.now }
{
    match called {
        Ok(outcome) => ExitCode::from(outcome.status),
        Err(AllocError) => ExitCode::from(6),
    }
}

/// The whole program over a source and a sink: what the words of the process ask for is done, and the process ends with the status of that.
///
/// It may wait where these words ask for `run` or `poll`, and for nothing else (`top`).
pub fn run<R: Threads + Wait + Sync + RandomSource + AllocGlobal, S: Source, K: Sink, G: Gate>(
    rt: &R,
    alloc: Global,
    args: io::Result<Args>,
    source: &mut S,
    sink: &mut K,
    gate: &G,
) -> ExitCode
    ensures words { IfOk args (λ all. Ends (map string_bytes (drop 1 (into_iter_items all))) (sides (S.left source.old) (S.faults source.old) (K.held sink.old) (K.faults sink.old)) (sides (S.left source.new) (S.faults source.new) (K.held sink.new) (K.faults sink.new)) (exit_status result)) }
    ensures unread { IfErr args (λ e. EndsUnread (error_kind e) (sides (S.left source.old) (S.faults source.old) (K.held sink.old) (K.faults sink.old)) (sides (S.left source.new) (S.faults source.new) (K.held sink.new) (K.faults sink.new)) (exit_status result)) }
{
    let words = match program_words(alloc, args) {
        Ok(words) => words,
        Err(wanting) => return exit_code(&Err(wanting)),
    };
    exit_code(&Ok(top(rt, alloc, words.as_slice(), source, sink, gate)))
}
