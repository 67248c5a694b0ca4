//! A pool whose identities are done is closed, and their logs are put in the order of the scripts.

ghost use Rattle.std.specs.Prelude.{◌≡◌, ◌<◌, ◌++◌, IfOk, None, [], length, slice_index_or, slice_set};
ghost use Rattle.shm_team.specs.{Dones.{AreGivenBack, log_of, logs_in}, Jobs.AreTokens, Rans.{HasSettled, IsClosedBy}};

use crate::closing::visit_all;
use crate::done::Done;
use crate::team::Ran;
use shm_pool::{CloseCause, CloseStop, Closed, SharedPool, Vacant};
use shm_script::{Log, Trace};
use std::alloc::{AllocError, Global};
use std::sync::Wait;

/// Takes the log of the client of an identity, if there is one.
fn take_log(logs: &mut [Option<Log>], who: u8, ordered: &mut Vec<Log>) -> Result<(), AllocError>
    requires { who < length logs.old }
    ensures taken { IfOk result (λ _. logs.new ≡ slice_set logs.old who None) }
    ensures ordered { IfOk result (λ _. ordered.new.items ≡ ordered.old.items ++ log_of (slice_index_or logs.old who None)) }
{
    if let Some(log) = logs[who as usize].take() {
        ordered.push(log)?;
    }
    Ok(())
}

/// Takes the logs of the scripts' clients, in the order of the scripts.
fn take_logs(
    logs: &mut [Option<Log>],
    trace: &Trace,
    ordered: &mut Vec<Log>,
) -> Result<(), AllocError>
    requires many { length logs.old ≡ trace.now.clients }
    requires empty { ordered.old.items ≡ [] }
    ensures { IfOk result (λ _. ordered.new.items ≡ logs_in trace.now.scripts logs.old) }
{
    trace.in_grammar();
    for script in trace.scripts.as_slice() {
        take_log(logs, script.client, ordered)?;
    }
    Ok(())
}

/// Closes the pool. All tokens are there.
fn close(alloc: Global, pool: SharedPool, tokens: Vec<Vacant>) -> Result<Closed, AllocError>
    requires { AreTokens pool tokens.items }
    ensures { IfOk result (λ c. IsClosedBy pool tokens.items c) }
{
    match pool.close(alloc, tokens) {
        Ok(closed) => {
            // for the proof: a run leads to what is left
            closed.words();
            Ok(closed)
        }
        Err(stop) => {
            let CloseStop {
                pool: _,
                all: _,
                cause,
            } = stop;
            match cause {
                CloseCause::Memory(error) => Err(error),
                CloseCause::Missing { .. } => unreachable!(),
            }
        }
    }
}

/// Settles a trace's pool, of whose identities this was done, in their order, whoever did it: each identity is visited, one alone, and the
/// pool is closed. Where the last agent of an identity died it is recovered, and then a client of it joins, takes all that waits for it,
/// and leaves.
///
/// No clause tells that nobody else works on the pool while an identity is visited, and so none tells that 2^40 word steps are enough. Where
/// an agent of the closing dies the call waits and never returns.
///
/// # Errors
///
/// Want of memory, and nothing else.
pub fn settle<R: Wait>(
    rt: &R,
    alloc: Global,
    trace: &Trace,
    pool: SharedPool,
    dones: Vec<Done>,
) -> Result<Ran, AllocError>
    requires clients { pool.start.geometry.clients ≡ trace.now.clients }
    requires many { length dones.items ≡ trace.now.clients }
    requires back { AreGivenBack pool 0 dones.items }
    ensures { IfOk result (λ r. HasSettled trace.now pool dones.items r.closed r.logs.items) }
{
    let (mut logs, tokens) = visit_all(rt, alloc, &pool, dones)?;
    let mut ordered = Vec::with_capacity(alloc, trace.scripts.len())?;
    take_logs(&mut logs, trace, &mut ordered)?;
    let closed = close(alloc, pool, tokens)?;
    Ok(Ran {
        closed,
        logs: ordered,
    })
}
