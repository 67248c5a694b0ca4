//! Replays and runs of traces, runs of scripts for versions of a map, and what is written of them.

ghost use Rattle.std.specs.Prelude.{◌≡◌, ℕ, List, IfOk, None, Some, length};
ghost use Rattle.shm_words.specs.Layout.{GeometryFits, total_of};
ghost use Rattle.shm_graph.specs.{declared.{run.Move.Move as AMove, table.Entry.Entry as AnEntry}, Spots.see};
ghost use Rattle.shm_graph.specs.Tables.{IsTable};
ghost use Rattle.shm_plain.specs.Closings.{IsClosedRun};
ghost use Rattle.shm_report.specs.PoolWords.{IsCleanPool};
ghost use Rattle.shm_tree.specs.ScriptTexts.{IsScript};
ghost use Rattle.shm_program.specs.Replays.{IsPollTold, IsTeamTold, IsTold, team_pool, written};
ghost use Rattle.shm_program.specs.{declared.words.Form.TheVariants.Report, Trees.IsTreeTold};
ghost use Rattle.shm_program.specs.Words.{AreMedics, IsCount};
ghost use Rattle.shm_program.specs.declared.outcome.Finished.TheVariants as finished;

use crate::answer::Reply;
use crate::gate::ByGate;
use crate::outcome::Finished;
use crate::words::Form;
use shm_async::{run_async, run_limited};
use shm_audit::write_image;
use shm_morgue::run_morgue;
use shm_replay::replay;
use shm_report::{report, summary};
use shm_script::{Log, Trace};
use shm_team::{Gate, Ran, run_team};
use shm_tree::TreeScript;
use shm_versions::{Treed, run_script, run_text};
use shm_words::Geometry;
use std::alloc::{AllocError, AllocGlobal, Global};
use std::random::RandomSource;
use std::sync::Wait;
use std::thread::Threads;

/// Replays a trace, and answers with what is to be written of the replay.
pub fn tell(alloc: Global, trace: &Trace, form: Form) -> Result<Reply, AllocError>
    ensures { IfOk result (λ r. (r.status ≡ 0) × IsTold form trace.now r.finished r.text.items) }
{
    let run = replay(alloc, trace)?;
    let closed = &run.closed;
    let text = written(alloc, form, closed.geometry(), closed.words(), &run.logs)?;
    Ok(Reply {
        status: 0,
        text,
        finished: Finished::Replayed(run),
    })
}

/// Runs a trace by clients on threads, and answers with what is to be written of the run.
pub fn tell_team<R: Threads + Wait + Sync, G: Gate>(
    rt: &R,
    alloc: Global,
    trace: &Trace,
    form: Form,
    gate: &G,
) -> Result<Reply, AllocError>
    ensures { IfOk result (λ r. (r.status ≡ 0) × IsTeamTold finished.Ran form trace.now r.finished r.text.items) }
{
    let run = run_team(rt, alloc, trace, gate)?;
    let closed = &run.closed;
    let text = written(alloc, form, closed.geometry(), closed.words(), &run.logs)?;
    Ok(Reply {
        status: 0,
        text,
        finished: Finished::Ran(run),
    })
}

/// Runs a trace by clients on threads, with others that recover who dies, and answers with what is to be written of the run.
pub fn tell_rescue<R: Threads + Wait + Sync, G: Gate>(
    rt: &R,
    alloc: Global,
    trace: &Trace,
    form: Form,
    medics: u8,
    gate: &G,
) -> Result<Reply, AllocError>
    requires { AreMedics medics }
    ensures { IfOk result (λ r. (r.status ≡ 0) × IsTeamTold finished.Rescued form trace.now r.finished r.text.items) }
{
    let run = run_morgue(rt, alloc, trace, medics, &ByGate { gate })?;
    let closed = &run.closed;
    let text = written(alloc, form, closed.geometry(), closed.words(), &run.logs)?;
    Ok(Reply {
        status: 0,
        text,
        finished: Finished::Rescued(run),
    })
}

/// The answer to a run by clients that were polled: its report.
fn polled(alloc: Global, run: Ran) -> Result<Reply, AllocError>
    ensures { IfOk result (λ r. (r.status ≡ 0) × (r.finished ≡ finished.Polled run) × ((turns : List AMove) → IsClosedRun (team_pool run turns) → (table : ℕ → ℕ → List AnEntry) → IsTable run.closed.start.geometry (see run.closed.start.geometry run.closed.words) table → r.text.items ≡ written Report run.closed.start.geometry run.closed.words table run.logs.items)) }
{
    let closed = &run.closed;
    let text = written(
        alloc,
        Form::Report,
        closed.geometry(),
        closed.words(),
        &run.logs,
    )?;
    Ok(Reply {
        status: 0,
        text,
        finished: Finished::Polled(run),
    })
}

/// Runs a trace by clients that are polled, and answers with the report of the run.
pub fn tell_polls<R: Wait + RandomSource + AllocGlobal>(
    rt: &R,
    alloc: Global,
    trace: &Trace,
    turns: u32,
) -> Result<Reply, AllocError>
    requires { IsCount turns }
    ensures { IfOk result (λ r. (r.status ≡ 0) × IsPollTold turns None trace.now r.finished r.text.items) }
{
    let run = run_async(rt, alloc, trace, turns)?;
    polled(alloc, run)
}

/// The same with a limit: what isn't done after so many polls is given up, and recovered.
pub fn tell_limited<R: Wait + RandomSource + AllocGlobal>(
    rt: &R,
    alloc: Global,
    trace: &Trace,
    turns: u32,
    limit: u32,
) -> Result<Reply, AllocError>
    requires turns { IsCount turns }
    requires limit { IsCount limit }
    ensures { IfOk result (λ r. (r.status ≡ 0) × IsPollTold turns (Some limit) trace.now r.finished r.text.items) }
{
    let run = run_limited(rt, alloc, trace, turns, limit)?;
    polled(alloc, run)
}

/// Runs a script for versions of a map, and answers with what is to be written of the run.
pub fn tell_tree(alloc: Global, script: &TreeScript) -> Result<Reply, AllocError>
    requires { IsScript script.now }
    ensures { IfOk result (λ r. (r.status ≡ 0) × IsTreeTold script.now r.finished r.text.items) }
{
    let run = run_script(alloc, script)?;
    let text = run_text(alloc, script, &run)?;
    let Treed { closed, .. } = run;
    Ok(Reply {
        status: 0,
        text,
        finished: Finished::Treed(closed),
    })
}

/// What is written of a closed pool and of logs.
fn written(
    alloc: Global,
    form: Form,
    geometry: Geometry,
    words: &[u64],
    logs: &[Log],
) -> Result<Vec<u8>, AllocError>
    requires fits { GeometryFits geometry }
    requires whole { length words.now ≡ total_of geometry }
    ensures { IsCleanPool geometry words.now → (table : ℕ → ℕ → List AnEntry) → IsTable geometry (see geometry words.now) table → IfOk result (λ v. v.items ≡ written form geometry words.now table logs.now) }
{
    match form {
        Form::Report => report(alloc, geometry, words, logs),
        Form::Image => write_image(alloc, geometry, words),
        Form::Summary => summary(alloc, geometry, words, logs),
    }
}
