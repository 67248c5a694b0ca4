//! The death of an agent, and the recoverer that mends what it left in progress.

ghost use Rattle.std.specs.{Prelude.{◌≡◌, ◌<◌, true, List, IfSome}, Option.is_some};
ghost use Rattle.shm_words.specs.Layout.{GeometryFits};
ghost use Rattle.shm_graph.specs.{declared.memo.Kind.TheVariants.Recoverer, Agents.{acts, died, entered}, Events.Event};
ghost use Rattle.shm_plain.specs.{Pools.{after_fall, memo_of}, Calls.{Did, Ran}};
ghost use Rattle.shm_count.specs.Roots.{member};
ghost use Rattle.shm_recover.specs.Mend.{IsMended};

use crate::following::follow;
use shm_graph::{Life, Me};
use shm_plain::PlainPool;
use shm_recover::Mend;

/// The agent of `who` dies, whatever it is at, and a recoverer of it mends what it left in progress; none where no word step was left.
pub fn mend_fallen(pool: &mut PlainPool, who: u8, life: &mut Life) -> Option<()>
    requires geometry { GeometryFits pool.old.start.geometry }
    requires who { who < pool.old.start.geometry.clients }
    requires acts { acts (memo_of pool.old who) ≡ true }
    ensures mended { IfSome result (λ a. (es : List Event) × Did who (after_fall pool.old who) pool.new es × IsMended (member pool.old.start.geometry who) (entered Recoverer (died (memo_of pool.old who))) (memo_of pool.new who) (memo_of pool.new who).call es) }
    ensures ran { Ran who true (is_some result) (after_fall pool.old who) pool.new life.old.left life.new.left }
{
    let geometry = pool.geometry();
    pool.fall(who);
    follow(pool, who, Mend::new(Me::new(geometry, who)), life)
}
