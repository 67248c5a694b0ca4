//! Pools as rows begin them.

ghost use Rattle.std.specs.Prelude.{◌≡◌, IfOk, IfSome};
ghost use Rattle.shm_words.specs.Layout.{GeometryFits};
ghost use Rattle.shm_graph.specs.Runs.{EraFits};
ghost use Rattle.t_calls.specs.Known.{Stand, begun};

use crate::row::{Row, refusal};
use crate::run::Run;
use crate::standing::{JOINED, Standing};
use shm_client::{joined, step_join};
use shm_graph::Life;
use shm_plain::PlainPool;
use shm_words::Geometry;
use std::io;

/// The sizes of a pool, as the first two numbers of a row are; where the seventh number is 2 the pool is of format 2.
pub fn geometry(row: &Row) -> io::Result<Geometry>
    ensures { IfOk result GeometryFits }
{
    let clients = row.small(0, 17)?;
    let segments = row.below(1, 8001)? as u16;
    let geometry = if row.at(6) == 2 {
        Geometry::wide(clients, segments)
    } else {
        Geometry::new(clients, segments)
    };
    geometry.map_err(|_| refusal())
}

/// The first era of a pool, as the third number of a row is.
fn era(row: &Row) -> io::Result<u64>
    ensures { IfOk result EraFits }
{
    let era = row.below(2, (1 << 47) - 1)?;
    if era == 0 { Err(refusal()) } else { Ok(era) }
}

/// How an identity stands after another one, or itself, was the first to join a pool.
fn begun(clients: u8, tables: bool, who: u8, joined: u8) -> Standing
    ensures { result ≡ begun clients tables who joined }
{
    if tables || clients <= who {
        Standing::Lost
    } else if who == joined {
        Standing::Works(JOINED)
    } else {
        Standing::New
    }
}

/// Tells what became of a join, and the word steps that are left.
fn tell_left(rt: &HostRuntime, became: &str, left: u64) -> io::Result<()> {
    println!(rt; "{became}, {left}")
}

/// `begin CLIENTS SEGMENTS ERA WHO TABLES LIFE [FORMAT]`: a pool that an identity joins; none where no word step was left.
pub fn begin(rt: &HostRuntime, row: &Row) -> io::Result<Option<Run>>
    ensures { IfOk result (λ o. IfSome o (λ r. Stand r.first r.second r.pool)) }
{
    let geometry = geometry(row)?;
    let clients = geometry.clients();
    let who = row.small(3, clients)?;
    let tables = row.at(4) == 1;
    let mut life = Life::of(row.at(5));
    let Some(pool) = joined(rt.alloc(), geometry, era(row)?, tables, &mut life, who)? else {
        tell_left(rt, "no step was left", life.left)?;
        return Ok(None);
    };
    tell_left(rt, "joined", life.left)?;
    Ok(Some(Run {
        pool,
        life,
        first: begun(clients, tables, 0, who),
        second: begun(clients, tables, 1, who),
    }))
}

/// `make CLIENTS SEGMENTS ERA TABLES`: a pool that nobody joins.
pub fn make(rt: &HostRuntime, row: &Row) -> io::Result<Run>
    ensures { IfOk result (λ r. Stand r.first r.second r.pool) }
{
    let pool = PlainPool::make(rt.alloc(), geometry(row)?, era(row)?, row.at(3) == 1)?;
    Ok(Run {
        pool,
        life: Life::of(0),
        first: Standing::Lost,
        second: Standing::Lost,
    })
}

/// Tells whether one step of a join died, and the word steps that are left.
fn tell_step(rt: &HostRuntime, died: bool, left: u64) -> io::Result<()> {
    println!(rt; "{died} {left}")
}

/// `step_join CLIENTS SEGMENTS ERA WHO STEPS`: a pool, one step of a join, and the death of its agent.
pub fn step(rt: &HostRuntime, row: &Row) -> io::Result<Run>
    ensures { IfOk result (λ r. Stand r.first r.second r.pool) }
{
    let geometry = geometry(row)?;
    let who = row.small(3, geometry.clients())?;
    let mut after = step_join(rt.alloc(), geometry, era(row)?, who, row.at(4))?;
    tell_step(rt, after.died, after.left)?;
    after.pool.fall(who);
    Ok(Run {
        pool: after.pool,
        life: Life::of(after.left),
        first: Standing::Lost,
        second: Standing::Lost,
    })
}
