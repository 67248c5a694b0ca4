//! The death of an agent, and the recovery of its identity.

ghost use Rattle.std.specs.{Prelude.{◌≡◌, ◌<◌, true, List, IfOk, IfSome}, Option.is_some};
ghost use Rattle.shm_words.specs.Layout.{GeometryFits};
ghost use Rattle.shm_graph.specs.declared.memo.{Kind.TheVariants.Recoverer, Status.TheVariants.Gone};
ghost use Rattle.shm_graph.specs.{Agents.{acts, entered, last_agent}, Events.Event, Runs.fell_by};
ghost use Rattle.kind_parts.specs.Reparting.{map_in};
ghost use Rattle.shm_plain.specs.{Pools.{IsRun, after_fall, memo_of}, Calls.{Did, Ran}};
ghost use Rattle.shm_count.specs.Roots.{member};
ghost use Rattle.shm_recover.specs.{Machines.Recovering.RecoverGives, Recover.{Control.recovering, RecoverLeaves}};

use crate::following::follow;
use shm_count::EraSpent;
use shm_graph::{Life, Me};
use shm_plain::PlainPool;
use shm_recover::Recover;

/// The agent of `who` dies, whatever it is at.
pub fn die(pool: &mut PlainPool, who: u8)
    requires who { who < pool.old.start.geometry.clients }
    requires acts { acts (memo_of pool.old who) ≡ true }
    ensures fallen { pool.new ≡ after_fall pool.old who }
    ensures start { pool.new.start ≡ pool.old.start }
    ensures fell { fell_by (last_agent (memo_of pool.new who).agents) ≡ true }
    ensures map { map_in (memo_of pool.new who).part ≡ map_in (memo_of pool.old who).part }
    ensures run { IsRun pool.new }
{
    pool.fall(who);
}

/// Recovers `who`, whose agent is dead, by a recoverer that begins; none where no word step was left. Either way the map is as it was.
pub fn recover(pool: &mut PlainPool, who: u8, life: &mut Life) -> Option<Result<(), EraSpent>>
    requires geometry { GeometryFits pool.old.start.geometry }
    requires who { who < pool.old.start.geometry.clients }
    requires fell { fell_by (last_agent (memo_of pool.old who).agents) ≡ true }
    ensures gives { IfSome result (λ a. RecoverGives (member pool.old.start.geometry who) (entered Recoverer (memo_of pool.old who)) (memo_of pool.new who) (memo_of pool.new who).call a) }
    ensures gone { IfSome result (λ a. IfOk a (λ u. (memo_of pool.new who).status ≡ Gone)) }
    ensures map { map_in (memo_of pool.new who).part ≡ map_in (memo_of pool.old who).part }
    ensures ran { Ran who true (is_some result) pool.old pool.new life.old.left life.new.left }
    ensures events { IfSome result (λ a. (es : List Event) × Did who pool.old pool.new es × RecoverLeaves (recovering (member pool.old.start.geometry who)) (entered Recoverer (memo_of pool.old who)) (memo_of pool.new who) (memo_of pool.new who).call es a) }
{
    let geometry = pool.geometry();
    follow(pool, who, Recover::new(Me::new(geometry, who)), life)
}
