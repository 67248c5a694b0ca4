//! What the roots of a client name, read anew.

ghost use Rattle.std.specs.Prelude.{◌≡◌};
ghost use Rattle.lojarnek.specs.{Blocks.HasLearnt, Roots.IsAtBlocks, Standing.acts_of};

use crate::roots::Roots;
use shm_graph::Life;
use shm_pool::{Reply, SharedPool};

/// Reads what each root names, in 16 word steps.
#[inline(never)]
pub(crate) fn learn(
    token: &mut shm_pool::Client,
    roots: &mut Roots,
    pool: &SharedPool,
    life: &mut Life,
) -> Reply<()>
    requires pool { token.old.of ≡ pool.now }
    requires at { IsAtBlocks token.old }
    ensures { HasLearnt (acts_of token.old life.old.left) (acts_of token.new life.new.left) roots.new.named result }
{
    for k in 0..16u8 {
        match token.root_of(pool, life, k) {
            Reply::Done(block) => roots.set(k, block),
            Reply::Died => return Reply::Died,
        }
    }
    Reply::Done(())
}
