//! The calls of a plan.

ghost use Rattle.shm_graph.specs.declared.memo.Memo.{Memo};
ghost use Rattle.shm_plain.specs.Pools.{MayStep};
ghost use Rattle.shm_client.specs.Following.{FitsFirst, HasFollowed, IsFollower};

use plans::{Calls, Plan};
use shm_graph::Life;
use shm_plain::PlainPool;

/// Has `who` make the calls of a plan until it has answered; none where no word step was left before that.
pub fn follow<P: Plan + Drop>(
    pool: &mut PlainPool,
    who: u8,
    plan: P,
    life: &mut Life,
) -> Option<P::Answer>
    requires me { IsFollower P.Call.control P.plan plan who pool.old }
    requires agent { MayStep pool.old who }
    requires fits { (r0 : Memo) × FitsFirst P.Call.control P.plan plan who pool.old r0 }
    ensures { HasFollowed P.Call.control P.plan plan who pool.old pool.new life.old.left life.new.left result }
{
    pool.call(who, &mut Calls::new(plan), life)
}
