//! What is answered to the bytes that a job read.

ghost use Rattle.std.specs.Prelude.{◌≡◌, true, false, ℕ, List, IfOk, IfSome};
ghost use Rattle.shm_audit.specs.Faults.{image_fault_of};
ghost use Rattle.shm_script.specs.declared.fault.{ParseStop.ParseStop as AStop, TraceFault.TraceFault as AFault};
ghost use Rattle.shm_stream.specs.Audits.{IsJudged};
ghost use Rattle.shm_program.specs.{Outcomes.{JobAnswers, IsPrinted}, Refusals.fault_line};
ghost use Rattle.shm_program.specs.Words.{AreMedics, IsCount, JobFits, may_wait};

use crate::outcome::Finished;
use crate::refusals::fault_line;
use crate::telling::{tell, tell_limited, tell_polls, tell_rescue, tell_team, tell_tree};
use crate::words::{Form, Job};
use shm_audit::{AuditStop, ImageFault, Verdict, audit, fault_text, verdict_text};
use shm_migrate::{MigrateStop, migrate, stop_text};
use shm_script::{ParseStop, Trace, generate, parse, print};
use shm_team::Gate;
use shm_tree::parse_tree;
use std::alloc::{AllocError, AllocGlobal, Global};
use std::random::RandomSource;
use std::sync::Wait;
use std::thread::Threads;

/// A text that is to be written, with the status that it has.
#[derive(Drop)]
pub struct Reply {
    pub status: u8,
    pub text: Vec<u8>,
    pub finished: Finished,
}

/// What a job that doesn't wait answers to the bytes that it read.
pub fn answer(alloc: Global, job: Job, bytes: &[u8]) -> Result<Reply, AllocError>
    requires fits { JobFits job }
    requires returns { may_wait job ≡ false }
    ensures { IfOk result (λ r. JobAnswers job bytes.now r.status r.finished r.text.items) }
{
    match job {
        Job::Replay(form) => match parse(alloc, bytes) {
            Ok(trace) => tell(alloc, &trace, form),
            Err(stop) => refuse(alloc, stop),
        },
        Job::Print => match parse(alloc, bytes) {
            Ok(trace) => print_of(alloc, &trace),
            Err(stop) => refuse(alloc, stop),
        },
        Job::Run(_) | Job::Rescue { .. } | Job::Poll { .. } => unreachable!(),
        Job::Audit => audit_of(alloc, bytes),
        Job::Migrate => migration_of(alloc, bytes),
        Job::Make { start, size } => tell(alloc, &generate(alloc, start, size)?, Form::Summary),
        Job::Draw { start, size } => print_of(alloc, &generate(alloc, start, size)?),
        Job::Tree => answer_tree(alloc, bytes),
    }
}

/// What a job that may wait answers to the bytes that it read.
pub fn answer_waiting<R: Threads + Wait + Sync + RandomSource + AllocGlobal, G: Gate>(
    rt: &R,
    alloc: Global,
    job: Job,
    bytes: &[u8],
    gate: &G,
) -> Result<Reply, AllocError>
    requires fits { JobFits job }
    requires waits { may_wait job ≡ true }
    ensures { IfOk result (λ r. JobAnswers job bytes.now r.status r.finished r.text.items) }
{
    match job {
        Job::Run(form) => answer_run(rt, alloc, form, bytes, gate),
        Job::Rescue { form, medics } => answer_rescue(rt, alloc, form, medics, bytes, gate),
        Job::Poll { turns, limit } => answer_poll(rt, alloc, turns, limit, bytes),
        _ => unreachable!(),
    }
}

/// What `poll` answers to the bytes that it read: those of a trace are run by clients that are polled.
fn answer_poll<R: Wait + RandomSource + AllocGlobal>(
    rt: &R,
    alloc: Global,
    turns: u32,
    limit: Option<u32>,
    bytes: &[u8],
) -> Result<Reply, AllocError>
    requires turns { IsCount turns }
    requires limit { IfSome limit IsCount }
    ensures { IfOk result (λ r. JobAnswers (Job.Poll turns limit) bytes.now r.status r.finished r.text.items) }
{
    match parse(alloc, bytes) {
        Ok(trace) => match limit {
            None => tell_polls(rt, alloc, &trace, turns),
            Some(limit) => tell_limited(rt, alloc, &trace, turns, limit),
        },
        Err(stop) => refuse(alloc, stop),
    }
}

/// What `run --medics K` answers to the bytes that it read: those of a trace are run by clients on threads, and others recover who dies.
fn answer_rescue<R: Threads + Wait + Sync, G: Gate>(
    rt: &R,
    alloc: Global,
    form: Form,
    medics: u8,
    bytes: &[u8],
    gate: &G,
) -> Result<Reply, AllocError>
    requires { AreMedics medics }
    ensures { IfOk result (λ r. JobAnswers (Job.Rescue form medics) bytes.now r.status r.finished r.text.items) }
{
    match parse(alloc, bytes) {
        Ok(trace) => tell_rescue(rt, alloc, &trace, form, medics, gate),
        Err(stop) => refuse(alloc, stop),
    }
}

/// What `run` answers to the bytes that it read: those of a trace are run by clients on threads.
fn answer_run<R: Threads + Wait + Sync, G: Gate>(
    rt: &R,
    alloc: Global,
    form: Form,
    bytes: &[u8],
    gate: &G,
) -> Result<Reply, AllocError>
    ensures { IfOk result (λ r. JobAnswers (Job.Run form) bytes.now r.status r.finished r.text.items) }
{
    match parse(alloc, bytes) {
        Ok(trace) => tell_team(rt, alloc, &trace, form, gate),
        Err(stop) => refuse(alloc, stop),
    }
}

/// What `tree` answers to the bytes that it read: those of a script are run.
fn answer_tree(alloc: Global, bytes: &[u8]) -> Result<Reply, AllocError>
    ensures { IfOk result (λ r. JobAnswers Job.Tree bytes.now r.status r.finished r.text.items) }
{
    match parse_tree(alloc, bytes) {
        Ok(script) => tell_tree(alloc, &script),
        Err(stop) => refuse(alloc, stop),
    }
}

/// An answer with nothing made.
pub fn plain(status: u8, text: Vec<u8>) -> Reply
    ensures status { result.status ≡ status }
    ensures finished { result.finished ≡ Finished.Neither }
    ensures text { result.text.items ≡ text.items }
{
    Reply {
        status,
        text,
        finished: Finished::Neither,
    }
}

/// The trace as it is printed.
fn print_of(alloc: Global, trace: &Trace) -> Result<Reply, AllocError>
    ensures { IfOk result (λ r. (r.status ≡ 0) × IsPrinted trace.now r.finished r.text.items) }
{
    Ok(plain(0, print(alloc, trace)?))
}

/// The refusal of bytes that are no trace, or no script.
fn refuse(alloc: Global, stop: ParseStop) -> Result<Reply, AllocError>
    ensures status { IfOk result (λ r. r.status ≡ 3) }
    ensures finished { IfOk result (λ r. r.finished ≡ Finished.Neither) }
    ensures line { IfOk result (λ r. (fault : AFault) × (stop ≡ ParseStop.Fault fault) × (r.text.items ≡ fault_line fault)) }
{
    match stop {
        ParseStop::Fault(fault) => Ok(plain(3, fault_line(alloc, fault)?)),
        ParseStop::Memory(error) => Err(error),
    }
}

/// The line of the verdict on an image, or of its first fault.
pub fn tell_audit(alloc: Global, judged: Result<Verdict, ImageFault>) -> Result<Reply, AllocError>
    ensures { IfOk result (λ r. (image : List ℕ) → IsJudged image judged → JobAnswers Job.Audit image r.status r.finished r.text.items) }
{
    match judged {
        Ok(verdict) => Ok(plain(0, verdict_text(alloc, &verdict)?)),
        Err(fault) => Ok(plain(3, fault_text(alloc, &fault)?)),
    }
}

/// The verdict on an image, or its first fault.
fn audit_of(alloc: Global, image: &[u8]) -> Result<Reply, AllocError>
    ensures { IfOk result (λ r. JobAnswers Job.Audit image.now r.status r.finished r.text.items) }
{
    match audit(alloc, image) {
        Ok(verdict) => tell_audit(alloc, Ok(verdict)),
        Err(AuditStop::Fault(fault)) => tell_audit(alloc, Err(fault)),
        Err(AuditStop::Memory(error)) => Err(error),
    }
}

/// The image in format 2, or what stands against the migration.
fn migration_of(alloc: Global, image: &[u8]) -> Result<Reply, AllocError>
    ensures { IfOk result (λ r. JobAnswers Job.Migrate image.now r.status r.finished r.text.items) }
{
    match migrate(alloc, image) {
        Ok(migrated) => Ok(plain(0, migrated)),
        Err(MigrateStop::Memory(error)) => Err(error),
        Err(stop) => Ok(plain(3, stop_text(alloc, &stop)?)),
    }
}
