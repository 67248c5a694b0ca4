//! Plans that a client runs. (A function that names the machine of a plan itself is proved several times as slowly as one that hands on the plan.)

ghost use Rattle.std.specs.Prelude.{◌≡◌, IfOk};
ghost use Rattle.shm_plain.specs.{Calls.IsAtWork, Pools.memo_of};
ghost use Rattle.shm_count.specs.Roots.{member};
ghost use Rattle.t_calls.specs.Running.{HasRun};

use crate::telling::tell;
use plans::Task;
use shm_graph::Life;
use shm_plain::PlainPool;
use std::{fmt, io};

/// Runs a plan of a client; none where no word step was left.
pub fn run_plan<P: Task + Drop>(
    pool: &mut PlainPool,
    who: u8,
    plan: P,
    life: &mut Life,
) -> Option<P::Answer>
    requires work { IsAtWork who pool.old }
    requires me { P.plan.steered.me plan ≡ member pool.old.start.geometry who }
    requires may { P.may plan (memo_of pool.old who) }
    ensures { HasRun P.plan P.rests plan who pool.old pool.new life.old.left life.new.left result }
{
    pool.run(who, plan, life)
}

/// Runs a plan of a client, and prints what it answers.
pub fn run_told<P: Task + Drop>(
    rt: &HostRuntime,
    pool: &mut PlainPool,
    who: u8,
    plan: P,
    life: &mut Life,
) -> io::Result<Option<P::Answer>>
where
    P::Answer: Drop + fmt::Debug,
    requires work { IsAtWork who pool.old }
    requires me { P.plan.steered.me plan ≡ member pool.old.start.geometry who }
    requires may { P.may plan (memo_of pool.old who) }
    ensures { IfOk result (HasRun P.plan P.rests plan who pool.old pool.new life.old.left life.new.left) }
{
    let answer = run_plan(pool, who, plan, life);
    tell(rt, &answer)?;
    Ok(answer)
}
