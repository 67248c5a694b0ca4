//! Commands on a table as calls on a pool.

ghost use Rattle.std.specs.{Prelude.{◌≡◌, ◌≢◌, ℕ, true, List, IfSome}, Option.is_some};
ghost use Rattle.shm_graph.specs.{Agents.recovers, Events.Event};
ghost use Rattle.shm_plain.specs.{Calls.{Did, IsAtWork, Ran}, Pools.memo_of};
ghost use Rattle.shm_count.specs.Roots.{member};
ghost use Rattle.shm_table.specs.{Command.{CommandGives, command_of}, Staying.Ended};
ghost use Rattle.shm_client.specs.Running.{LeavesOpen, MapSo, MayRun, RunLeaves};

use shm_graph::Life;
use shm_plain::PlainPool;
use shm_script::{Answer, Line};
use shm_table::Command;

/// Runs the command of `line` for `who`, and says what a script is told of it; none where no word step was left.
pub fn command(pool: &mut PlainPool, who: u8, line: &Line, life: &mut Life) -> Option<Answer>
    requires at_work { IsAtWork who pool.old }
    requires may { MayRun (member pool.old.start.geometry who) line.now (memo_of pool.old who) }
    ensures gives { IfSome result (λ a. CommandGives (command_of (member pool.old.start.geometry who) line.now) (memo_of pool.old who) (memo_of pool.new who) (memo_of pool.new who).call a) }
    ensures map { IfSome result (λ a. MapSo line.now a (memo_of pool.old who) (memo_of pool.new who)) }
    ensures others { (d : ℕ) → d ≢ who → memo_of pool.new d ≡ memo_of pool.old d }
    ensures rests { IfSome result (λ a. LeavesOpen (memo_of pool.old who) (memo_of pool.new who)) }
    ensures ended { IfSome result (λ a. Ended who (memo_of pool.old who) (memo_of pool.new who)) }
    ensures at_work { IfSome result (λ a. IsAtWork who pool.new) }
    ensures kind { IfSome result (λ a. recovers (memo_of pool.new who) ≡ recovers (memo_of pool.old who)) }
    ensures ran { Ran who true (is_some result) pool.old pool.new life.old.left life.new.left }
    ensures leaves { IfSome result (λ a. (es : List Event) × Did who pool.old pool.new es × RunLeaves (member pool.old.start.geometry who) line.now (memo_of pool.old who) (memo_of pool.new who) (memo_of pool.new who).call es a) }
{
    let machine = Command::new(pool.me(who), line);
    pool.run(who, machine, life)
}
