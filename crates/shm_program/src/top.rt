//! The program over a source and a sink.

ghost use Rattle.std.specs.{Prelude.{◌≡◌, ◌≢◌, ℕ, List, false, IfErr, IfOk, Some, map, true}, String.string_bytes};
ghost use Rattle.shm_program.specs.Outcomes.{JobAnswers, IsCall, IsWanting, IsWritten, sides};
ghost use Rattle.shm_program.specs.{Reads.{IsRead, IsUnread, limit_of}, Words.{JobFits, job_of, may_wait}};

use crate::answer::{Reply, answer, answer_waiting};
use crate::auditing::audit_input;
use crate::outcome::{Finished, Outcome};
use crate::words::{Job, job_of};
use shm_io::{ReadStop, Sink, Source, read_to_limit, write_all};
use shm_team::Gate;
use std::alloc::{AllocError, AllocGlobal, Global};
use std::random::RandomSource;
use std::sync::Wait;
use std::thread::Threads;

/// One byte more than a trace, or a script, may have.
const TRACE_LIMIT: usize = 1_048_577;

/// One byte more than the image of the largest pool has, which is of format 2.
const IMAGE_LIMIT: usize = 132_185_377;

const USAGE: &str =
    "usage: cxlshm replay [--image|--print] | run [--image] [--medics K] | audit | make START SIZE [--print] | migrate | poll Q [--limit P] | tree\n";

/// Does what the words say.
///
/// - `replay` reads a trace to its end, replays it, closes the pool and writes the report; `replay --image` writes the image of the closed
///   pool; `replay --print` writes the trace as it is printed, without a replay.
/// - `run` reads a trace to its end, has clients on threads run it, closes the pool and writes the report; `run --image` writes the image of
///   the closed pool. With `--medics K`, 1 to 4, who dies is recovered by K threads beside those of the clients.
/// - `audit` reads an image to its end and writes the verdict on it. Each verdict has status 0.
/// - `migrate` reads an image of format 1 to its end, whose verdict must be that its pool is clean, and writes the image of that pool in
///   format 2.
/// - `make START SIZE` reads nothing. It replays the trace that is drawn from START, 0 to 2^64 - 1, with SIZE commands, 1 to 4,000, for each
///   of four clients, and writes the summary; with `--print` it writes that trace, without a replay.
/// - `poll Q` reads a trace to its end, has its clients run it as futures on one thread, of which each poll gives an identity Q turns, 1 to
///   1,000,000, closes the pool and writes the report. With `--limit P`, 1 to 1,000,000, what isn't done after P polls is given up and recovered.
/// - `tree` reads a script for versions of an ordered map to its end, runs its lines, closes the pool and writes what they were answered by.
///
/// The whole text is made before the first write. At most 1,048,577 bytes of a trace or a script and 132,185,377 bytes of an image are read.
///
/// Only `run` and `poll` may wait: for their threads or for the future that is polled, and, where an agent of the closing dies, forever. So what
/// is promised of them holds if they return. All other words are done by `call`, which always returns.
///
/// The clauses are the fields of `IsCall` (specs/Outcomes.antt), which `run` of src/command.rt shares.
pub fn top<R: Threads + Wait + Sync + RandomSource + AllocGlobal, S: Source, K: Sink, G: Gate>(
    rt: &R,
    alloc: Global,
    words: &[String],
    source: &mut S,
    sink: &mut K,
    gate: &G,
) -> Outcome
    ensures { IsCall (map string_bytes words.now) (sides (S.left source.old) (S.faults source.old) (K.held sink.old) (K.faults sink.old)) (sides (S.left source.new) (S.faults source.new) (K.held sink.new) (K.faults sink.new)) result.status result.finished }
{
    let job = match call(alloc, words, source, sink) {
        Ok(outcome) => return outcome,
        Err(job) => job,
    };
    match read_input(alloc, source, job) {
        Ok(bytes) => reply(sink, answer_waiting(rt, alloc, job, bytes.as_slice(), gate)),
        Err(status) => stopped(status),
    }
}

/// Does what the words say, unless they ask for what may wait: then it reads and writes nothing, and answers with the job that they ask for.
///
/// It has no handle with which it might wait, so it always returns, as far as the source and the sink do.
pub fn call<S: Source, K: Sink>(
    alloc: Global,
    words: &[String],
    source: &mut S,
    sink: &mut K,
) -> Result<Outcome, Job>
    ensures done { IfOk result (λ r. IsCall (map string_bytes words.now) (sides (S.left source.old) (S.faults source.old) (K.held sink.old) (K.faults sink.old)) (sides (S.left source.new) (S.faults source.new) (K.held sink.new) (K.faults sink.new)) r.status r.finished) }
    ensures job { IfErr result (λ job. job_of (map string_bytes words.now) ≡ Some job) }
    ensures fits { IfErr result JobFits }
    ensures waits { IfErr result (λ job. may_wait job ≡ true) }
    ensures unread { IfErr result (λ _. source.new ≡ source.old) }
    ensures unwritten { IfErr result (λ _. sink.new ≡ sink.old) }
{
    let job = match job_of(alloc, words) {
        Ok(Some(job)) if job.may_wait() => return Err(job),
        Ok(Some(job)) => job,
        Ok(None) => return Ok(finish(sink, 2, USAGE.as_bytes(), Finished::Neither)),
        Err(_) => return Ok(stopped(6)),
    };
    match answer_input(alloc, source, job) {
        Ok(answered) => Ok(reply(sink, answered)),
        Err(status) => Ok(stopped(status)),
    }
}

/// Reads the bytes that a job is for, and answers what the job answers to them: an image that is audited is read as a stream. Where a read
/// fails it stops with the status 4, and where memory is wanting for the bytes with 6.
fn answer_input<S: Source>(
    alloc: Global,
    source: &mut S,
    job: Job,
) -> Result<Result<Reply, AllocError>, u8>
    requires fits { JobFits job }
    requires returns { may_wait job ≡ false }
    ensures read { IfOk result (λ answered. (bytes : List ℕ) × IsRead (S.left source.old) (S.faults source.old) (S.left source.new) (S.faults source.new) (limit_of job) bytes × IfOk answered (λ r. JobAnswers job bytes r.status r.finished r.text.items)) }
    ensures unread { IfErr result (λ status. IsUnread (S.left source.old) (S.faults source.old) (S.left source.new) (S.faults source.new) (limit_of job) status) }
{
    match job {
        Job::Audit => audit_input(alloc, source),
        _ => {
            let bytes = read_input(alloc, source, job)?;
            Ok(answer(alloc, job, bytes.as_slice()))
        }
    }
}

/// Reads the bytes that a job is for. Where a read fails it answers with the status 4, and where memory is wanting with 6.
fn read_input<S: Source>(alloc: Global, source: &mut S, job: Job) -> Result<Vec<u8>, u8>
    ensures read { IfOk result (λ bytes. IsRead (S.left source.old) (S.faults source.old) (S.left source.new) (S.faults source.new) (limit_of job) bytes.items) }
    ensures unread { IfErr result (λ status. IsUnread (S.left source.old) (S.faults source.old) (S.left source.new) (S.faults source.new) (limit_of job) status) }
{
    match read_to_limit(alloc, source, limit_of(job)) {
        Ok(bytes) => Ok(bytes),
        Err(ReadStop::Fault(_)) => Err(4),
        Err(ReadStop::Memory(_)) => Err(6),
    }
}

/// How many bytes a job reads at most: one more than its input may have.
fn limit_of(job: Job) -> usize
    ensures { result ≡ limit_of job }
{
    match job {
        Job::Replay(_)
        | Job::Print
        | Job::Run(_)
        | Job::Rescue { .. }
        | Job::Poll { .. }
        | Job::Tree => TRACE_LIMIT,
        Job::Audit | Job::Migrate => IMAGE_LIMIT,
        Job::Make { .. } | Job::Draw { .. } => 0,
    }
}

/// An outcome with nothing made.
fn stopped(status: u8) -> Outcome
    ensures status { result.status ≡ status }
    ensures finished { result.finished ≡ Finished.Neither }
{
    Outcome {
        status,
        finished: Finished::Neither,
    }
}

/// Writes an answer, unless memory was wanting for it.
fn reply<K: Sink>(sink: &mut K, answered: Result<Reply, AllocError>) -> Outcome
    requires { IfOk answered (λ r. r.status ≢ 5) }
    ensures finished { IfOk answered (λ r. result.finished ≡ r.finished) }
    ensures written { IfOk answered (λ r. IsWritten (K.held sink.old) (K.faults sink.old) (K.held sink.new) (K.faults sink.new) r.status result.status r.text.items) }
    ensures wanting { IfErr answered (λ _. IsWanting (K.held sink.old) (K.faults sink.old) (K.held sink.new) (K.faults sink.new) result.status result.finished) }
{
    match answered {
        Ok(
            Reply {
                status,
                text,
                finished,
            },
        ) => finish(sink, status, text.as_slice(), finished),
        Err(_) => stopped(6),
    }
}

/// Writes the text; a failed write turns the status into 5.
fn finish<K: Sink>(sink: &mut K, status: u8, text: &[u8], finished: Finished) -> Outcome
    requires { status ≢ 5 }
    ensures finished { result.finished ≡ finished }
    ensures written { IsWritten (K.held sink.old) (K.faults sink.old) (K.held sink.new) (K.faults sink.new) status result.status text.now }
{
    match write_all(sink, text) {
        Ok(()) => Outcome { status, finished },
        Err(_) => Outcome {
            status: 5,
            finished,
        },
    }
}
