//! The closing of a forest's pool.

ghost use Rattle.std.specs.Prelude.{◌≡◌, ℕ, ◌++◌, ◌↔◌, false, true, List, [], None, Ok, Err, IfErr, IfOk, is_ok};
ghost use Rattle.shm_graph.specs.{declared.run.Move.Move as AMove, Agents.{acts, last_agent}, Runs.fell_by};
ghost use Rattle.shm_plain.specs.{Closings.IsClosedRun, Pools.{IsRun, Pool as APool, memo_of}};
ghost use Rattle.shm_tree.specs.{Ending.{HasEnded, HasParted, IsRevived, IsYoung}, Falling.AreFalling, Keeping.is_live};
ghost use Rattle.shm_tree.specs.Working.{IsSpent, IsWorking};

use shm_client::{die, follow};
use shm_count::EraSpent;
use shm_graph::Life;
use shm_plain::{PlainClosed, PlainPool};
use shm_recover::{Leave, Recover};

/// How many word steps a closing has.
const LIFE: u64 = 1 << 40;

/// The greatest own era that leaves room for a step down.
const GREATEST: u64 = (1 << 47) - 3;

/// Whether the own era of the client is spent.
fn is_spent(pool: &PlainPool) -> bool
    requires one { pool.now.start.geometry.clients ≡ 1 }
    ensures { result ≡ true ↔ IsSpent (memo_of pool.now 0) }
{
    let era = pool.word(pool.geometry().era(0, 0));
    GREATEST < era
}

/// The client leaves. Nobody else steps, so that 2^38 word steps are enough.
fn leave(pool: &mut PlainPool) -> Result<(), EraSpent>
    requires working { IsWorking pool.old }
    requires latch { (memo_of pool.old 0).latch ≡ None }
    requires dying { (memo_of pool.old 0).dying ≡ [] }
    ensures start { pool.new.start ≡ pool.old.start }
    ensures run { IsRun pool.new }
    ensures parted { HasParted pool.old pool.new result }
    ensures roomy { IsYoung pool.old → is_ok result ≡ true }
{
    let leaving = Leave::new(pool.me(0));
    follow(pool, 0, leaving, &mut Life::of(LIFE)).unwrap()
}

/// The client, which is dead, is recovered. Nobody else steps, so that 2^38 word steps are enough.
fn recover_dead(pool: &mut PlainPool) -> Result<(), EraSpent>
    requires one { pool.old.start.geometry.clients ≡ 1 }
    requires fell { fell_by (last_agent (memo_of pool.old 0).agents) ≡ true }
    ensures start { pool.new.start ≡ pool.old.start }
    ensures run { IsRun pool.new }
    ensures revived { IsRevived pool.old pool.new result }
    ensures roomy { IsYoung pool.old → is_ok result ≡ true }
{
    let recovery = Recover::new(pool.me(0));
    follow(pool, 0, recovery, &mut Life::of(LIFE)).unwrap()
}

/// The client leaves; where it died, or its own era is spent, it is dead and is recovered.
fn depart(pool: &mut PlainPool, died: bool) -> Result<(), EraSpent>
    requires one { pool.old.start.geometry.clients ≡ 1 }
    requires acts { acts (memo_of pool.old 0) ≡ true }
    requires working { died ≡ false → IsWorking pool.old }
    requires latch { died ≡ false → (memo_of pool.old 0).latch ≡ None }
    ensures start { pool.new.start ≡ pool.old.start }
    ensures run { IsRun pool.new }
    ensures ended { HasEnded died pool.old pool.new result }
    ensures roomy { IsYoung pool.old → is_ok result ≡ true }
{
    if died || is_spent(pool) {
        die(pool, 0);
        recover_dead(pool)
    } else {
        leave(pool)
    }
}

/// Recovers the client where it died or its own era is spent, otherwise has it leave, and closes the pool.
///
/// # Errors
///
/// `EraSpent` where the recovery or the leaving was refused so: the own era left no room for a step down.
pub fn finish(mut pool: PlainPool, died: bool) -> Result<PlainClosed, EraSpent>
    requires one { pool.start.geometry.clients ≡ 1 }
    requires acts { acts (memo_of pool 0) ≡ true }
    requires working { died ≡ false → IsWorking pool }
    requires latch { died ≡ false → (memo_of pool 0).latch ≡ None }
    ensures start { IfOk result (λ q. q.start ≡ pool.start) }
    ensures closed { IfOk result IsClosedRun }
    ensures ended { IfOk result (λ q. HasEnded died pool q (Ok tt)) }
    ensures turns { IfOk result (λ q. (ms : List AMove) × (q.turns ≡ pool.turns ++ ms)) }
    ensures empty { IfOk result (λ q. AreFalling pool → (b : ℕ) → is_live q b ≡ false) }
    ensures spent { IfErr result (λ e. (q : APool) × HasEnded died pool q (Err e)) }
    ensures roomy { IsYoung pool → is_ok result ≡ true }
{
    // for the proof: the pool is a run
    pool.geometry();
    depart(&mut pool, died)?;
    Ok(pool.close())
}
