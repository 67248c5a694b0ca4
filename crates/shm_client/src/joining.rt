//! A join on a pool in a vector.

ghost use Rattle.std.specs.Prelude.{◌≡◌, ◌<◌, ◌↔◌, true, IfOk};
ghost use Rattle.shm_words.specs.Layout.{GeometryFits};
ghost use Rattle.shm_graph.specs.Runs.{EraFits};
ghost use Rattle.shm_graph.specs.declared.memo.Status.TheVariants as status;
ghost use Rattle.shm_plain.specs.Pools.{first_pool, memo_of};

use shm_graph::{Life, Me, Turn};
use shm_plain::PlainPool;
use shm_recover::Join;
use shm_words::Geometry;
use std::alloc::{AllocError, Global};

/// A pool after one step of a join.
#[derive(Drop)]
pub struct SteppedJoin {
    pub pool: PlainPool,
    /// Whether the step was answered by `Died`.
    pub died: bool,
    /// How many word steps are left.
    pub left: u64,
}

/// Makes a pool for single calls and steps a join of `who` once, where `steps` word steps are left.
pub fn step_join(
    alloc: Global,
    geometry: Geometry,
    first_era: u64,
    who: u8,
    steps: u64,
) -> Result<SteppedJoin, AllocError>
    requires geometry { GeometryFits geometry }
    requires era { EraFits first_era }
    requires who { who < geometry.clients }
    ensures geometry { IfOk result (λ r. r.pool.start.geometry ≡ geometry) }
    ensures died { IfOk result (λ r. r.died ≡ true ↔ (steps ≡ 0)) }
    ensures live { IfOk result (λ r. 0 < steps → (memo_of r.pool who).status ≡ status.Live) }
{
    let mut pool = PlainPool::make(alloc, geometry, first_era, false)?;
    let mut join = Join::new(Me::new(geometry, who));
    let mut life = Life::of(steps);
    let turn = pool.step(who, &mut join, &mut life);
    Ok(SteppedJoin {
        pool,
        died: matches!(turn, Turn::Died),
        left: life.left,
    })
}
