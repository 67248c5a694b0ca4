//! Pools for tables, on which commands run one after the other, and which all identities leave in the end.

ghost use Rattle.std.specs.Prelude.{◌≡◌, ◌≢◌, ℕ, true, IfOk, IfSome};
ghost use Rattle.shm_words.specs.Layout.{GeometryFits};
ghost use Rattle.shm_script.specs.Ranges.{LineFits};
ghost use Rattle.shm_client.specs.Running.{AreOpen, IsFew, IsOpen};

use crate::row::refusal;
use crate::running::run_plan;
use crate::seeing::check;
use shm_client::{command, join, joined};
use shm_count::EraSpent;
use shm_graph::Life;
use shm_plain::{PlainClosed, PlainPool};
use shm_queue::{Drain, drain_keeps};
use shm_recover::Leave;
use shm_script::{Answer, Line};
use shm_words::Geometry;
use std::alloc::Global;
use std::io;

/// A pool for tables of one or two identities, which they have joined.
pub fn opened(alloc: Global, geometry: Geometry, life: &mut Life) -> io::Result<PlainPool>
    requires few { IsFew geometry }
    ensures all { IfOk result AreOpen }
    ensures start { IfOk result (λ p. p.start.geometry ≡ geometry) }
{
    let Some(mut pool) = joined(alloc, geometry, 1, true, life, 0)? else {
        return Err(refusal());
    };
    if geometry.clients() == 2 {
        check(join(&mut pool, 1, life))?;
    }
    Ok(pool)
}

/// Whether the identities that the line names are of the pool, and others where they have to be.
fn may_stand(geometry: Geometry, who: u8, line: &Line) -> bool
    requires { GeometryFits geometry }
    ensures { result ≡ true → LineFits geometry.clients who line.now }
{
    let clients = geometry.clients();
    match *line {
        Line::Put {
            key: _key,
            number: _number,
        } => true,
        Line::Del { key: _key } => true,
        Line::Get { author, key: _key } => author < clients,
        Line::Copy {
            key: _key,
            author,
            other: _other,
        } => author < clients,
        Line::Send { to, key: _key } => to < clients && to != who,
        Line::Recv { from, key: _key } => from < clients && from != who,
    }
}

/// What the command of this line answers. No own era comes near its greatest value.
pub fn answered(pool: &mut PlainPool, who: u8, line: &Line, life: &mut Life) -> io::Result<Answer>
    requires all { AreOpen pool.old }
    ensures all { IfOk result (λ a. AreOpen pool.new) }
    ensures start { IfOk result (λ a. pool.new.start ≡ pool.old.start) }
{
    let geometry = pool.geometry();
    check(who < geometry.clients())?;
    check(may_stand(geometry, who, line))?;
    let Some(answer) = command(pool, who, line, life) else {
        return Err(refusal());
    };
    if pool.word(geometry.era(who, who)) >= 1_000_000 {
        return Err(refusal());
    }
    Ok(answer)
}

/// Drains the queues of an identity.
fn drain(pool: &mut PlainPool, who: u8, life: &mut Life) -> Option<Result<u64, EraSpent>>
    requires one { IsOpen who pool.old }
    ensures one { IfSome result (λ a. IfOk a (λ n. IsOpen who pool.new)) }
    ensures start { pool.new.start ≡ pool.old.start }
    ensures others { (d : ℕ) → d ≢ who → IsOpen d pool.old → IsOpen d pool.new }
{
    // for the proof: what a drain keeps
    drain_keeps();
    let draining = Drain::new(pool.me(who));
    run_plan(pool, who, draining, life)
}

/// Has an identity leave.
fn leave(pool: &mut PlainPool, who: u8, life: &mut Life) -> Option<Result<(), EraSpent>>
    requires one { IsOpen who pool.old }
    ensures start { pool.new.start ≡ pool.old.start }
    ensures others { (d : ℕ) → d ≢ who → IsOpen d pool.old → IsOpen d pool.new }
{
    let leaving = Leave::new(pool.me(who));
    run_plan(pool, who, leaving, life)
}

/// The identity drains its queues, where there is another identity that may have sent to it, and leaves.
fn goes(pool: &mut PlainPool, who: u8, life: &mut Life) -> io::Result<()>
    requires one { IsOpen who pool.old }
    ensures start { IfOk result (λ u. pool.new.start ≡ pool.old.start) }
    ensures others { IfOk result (λ u. (d : ℕ) → d ≢ who → IsOpen d pool.old → IsOpen d pool.new) }
{
    if pool.geometry().clients() == 2 {
        let Some(Ok(_)) = drain(pool, who, life) else {
            return Err(refusal());
        };
    }
    let Some(Ok(())) = leave(pool, who, life) else {
        return Err(refusal());
    };
    Ok(())
}

/// Each identity drains its queues and leaves, and the pool is closed.
pub fn closed(mut pool: PlainPool, life: &mut Life) -> io::Result<PlainClosed>
    requires few { IsFew pool.start.geometry }
    requires all { AreOpen pool }
    ensures { IfOk result (λ c. c.start ≡ pool.start) }
{
    let geometry = pool.geometry();
    goes(&mut pool, 0, life)?;
    if geometry.clients() == 2 {
        goes(&mut pool, 1, life)?;
    }
    check(pool.is_still())?;
    Ok(pool.close())
}
