//! The closing of a pool after a trace.

ghost use Rattle.std.specs.Prelude.{◌≡◌, ◌≢◌, ◌+◌, ◌^◌, ◌<◌, ◌≤◌, ℕ, true, None, length, slice_index_or};
ghost use Rattle.shm_graph.specs.{declared.memo.Status.TheVariants.Gone, Agents.steps_made, Runs.account_at};
ghost use Rattle.plans.specs.CallsControl.{calls_control, calls_of};
ghost use Rattle.shm_count.specs.Roots.{member};
ghost use Rattle.shm_plain.specs.{Calls.Ran, Pools.{IsRun, memo_of}};
ghost use Rattle.shm_queue.specs.Drain.Control.{drain_parts, draining, drain_steered};
ghost use Rattle.shm_recover.specs.Join.{join_control, join_fresh};
ghost use Rattle.shm_recover.specs.Leave.Control.{leave_parts, leaving, leave_steered};
ghost use Rattle.shm_replay.specs.Closings.{AreVisits, HasTold, IsDead, IsIn, IsOut, IsRecovery, IsVisit, IsWhole, MayVisit, SameTable, is_dead};

use plans::Calls;
use shm_agents::agents::Standing;
use shm_graph::{Life, Me};
use shm_plain::PlainPool;
use shm_play::play::Play;
use shm_play::players::Players;
use shm_queue::Drain;
use shm_recover::{Join, Leave, Recover};

/// How many word steps the recovery of an identity has in a closing, and how many its join, drain and leaving have together.
const LIFE: u64 = 1 << 40;

/// An identity whose last agent died is recovered. Nobody else steps, so that 2^38 word steps are enough.
fn recover(pool: &mut PlainPool, me: Me, life: &mut Life)
    requires geometry { me.geometry ≡ pool.old.start.geometry }
    requires who { me.who < pool.old.start.geometry.clients }
    requires dead { IsDead (memo_of pool.old me.who) }
    requires life { life.old.left ≤ 2 ^ 40 }
    requires enough { 2 ^ 38 < life.old.left }
    requires era { pool.old.start.first_era ≡ 1 }
    ensures whole { IsRecovery true me.who pool.old pool.new }
    ensures out { IsOut (memo_of pool.new me.who) }
    ensures table { SameTable (memo_of pool.old me.who) (memo_of pool.new me.who) }
    ensures told { HasTold (account_at pool.old.accounts me.who) (account_at pool.new.accounts me.who) }
    ensures ran { Ran me.who true true pool.old pool.new life.old.left life.new.left }
{
    // for the proof: the pool is a run
    pool.geometry();
    pool.call(me.who, &mut Calls::new(Recover::new(me)), life)
        .unwrap()
        .unwrap();
}

/// A client of the identity joins. Nobody else steps, so that 2^38 word steps are enough.
fn join(pool: &mut PlainPool, me: Me, life: &mut Life)
    requires geometry { me.geometry ≡ pool.old.start.geometry }
    requires who { me.who < pool.old.start.geometry.clients }
    requires out { IsOut (memo_of pool.old me.who) }
    requires enough { 2 ^ 38 < life.old.left }
    ensures whole { IsWhole join_control me.who pool.old (join_fresh (member pool.old.start.geometry me.who)) pool.new }
    ensures here { IsIn me.who (memo_of pool.new me.who) }
    ensures part { (memo_of pool.new me.who).part ≡ (memo_of pool.old me.who).part }
    ensures ran { Ran me.who true true pool.old pool.new life.old.left life.new.left }
    ensures rest { life.old.left ≤ life.new.left + 2 ^ 38 }
{
    // for the proof: the pool is a run
    pool.geometry();
    pool.call(me.who, &mut Join::new(me), life).unwrap();
}

/// The identity takes all that waits for it. Nobody else steps, so that 2^38 word steps are enough.
fn drain(pool: &mut PlainPool, me: Me, life: &mut Life)
    requires geometry { me.geometry ≡ pool.old.start.geometry }
    requires who { me.who < pool.old.start.geometry.clients }
    requires here { IsIn me.who (memo_of pool.old me.who) }
    requires enough { 2 ^ 38 < life.old.left }
    requires era { pool.old.start.first_era ≡ 1 }
    requires few { steps_made (memo_of pool.old me.who) + life.old.left ≤ 2 ^ 43 }
    ensures whole { IsWhole (calls_control drain_parts drain_steered) me.who pool.old (calls_of drain_steered (draining (member pool.old.start.geometry me.who))) pool.new }
    ensures here { IsIn me.who (memo_of pool.new me.who) }
    ensures part { (memo_of pool.new me.who).part ≡ (memo_of pool.old me.who).part }
    ensures ran { Ran me.who true true pool.old pool.new life.old.left life.new.left }
    ensures rest { life.old.left ≤ life.new.left + 2 ^ 38 }
{
    // for the proof: the pool is a run
    pool.geometry();
    pool.call(me.who, &mut Calls::new(Drain::new(me)), life)
        .unwrap()
        .unwrap();
}

/// The identity leaves. Nobody else steps, so that 2^38 word steps are enough.
fn leave(pool: &mut PlainPool, me: Me, life: &mut Life)
    requires geometry { me.geometry ≡ pool.old.start.geometry }
    requires who { me.who < pool.old.start.geometry.clients }
    requires here { IsIn me.who (memo_of pool.old me.who) }
    requires enough { 2 ^ 38 < life.old.left }
    requires era { pool.old.start.first_era ≡ 1 }
    requires few { steps_made (memo_of pool.old me.who) + life.old.left ≤ 2 ^ 43 }
    ensures whole { IsWhole (calls_control leave_parts leave_steered) me.who pool.old (calls_of leave_steered (leaving (member pool.old.start.geometry me.who))) pool.new }
    ensures gone { (memo_of pool.new me.who).status ≡ Gone }
    ensures part { (memo_of pool.new me.who).part ≡ (memo_of pool.old me.who).part }
    ensures ran { Ran me.who true true pool.old pool.new life.old.left life.new.left }
{
    // for the proof: the pool is a run
    pool.geometry();
    pool.call(me.who, &mut Calls::new(Leave::new(me)), life)
        .unwrap()
        .unwrap();
}

/// The identity is recovered where its last agent died, so that a client may join.
fn revive(pool: &mut PlainPool, me: Me, dead: bool)
    requires geometry { me.geometry ≡ pool.old.start.geometry }
    requires who { me.who < pool.old.start.geometry.clients }
    requires may { MayVisit dead (memo_of pool.old me.who) }
    requires era { pool.old.start.first_era ≡ 1 }
    ensures recovery { IsRecovery dead me.who pool.old pool.new }
    ensures out { IsOut (memo_of pool.new me.who) }
    ensures table { SameTable (memo_of pool.old me.who) (memo_of pool.new me.who) }
    ensures told { dead ≡ true → HasTold (account_at pool.old.accounts me.who) (account_at pool.new.accounts me.who) }
    ensures others { (d : ℕ) → d ≢ me.who → account_at pool.new.accounts d ≡ account_at pool.old.accounts d }
    ensures start { pool.new.start ≡ pool.old.start }
    ensures run { IsRun pool.new }
{
    // for the proof: the pool is a run
    pool.geometry();
    if !dead {
        return;
    }
    recover(pool, me, &mut Life::of(LIFE));
}

/// The identity is recovered where its last agent died; then it joins, takes all that waits for it, and leaves; nobody else makes a step
/// meanwhile.
fn visit(pool: &mut PlainPool, me: Me, dead: bool)
    requires geometry { me.geometry ≡ pool.old.start.geometry }
    requires who { me.who < pool.old.start.geometry.clients }
    requires may { MayVisit dead (memo_of pool.old me.who) }
    requires era { pool.old.start.first_era ≡ 1 }
    ensures visit { IsVisit me.who pool.old pool.new }
    ensures gone { (memo_of pool.new me.who).status ≡ Gone }
    ensures table { SameTable (memo_of pool.old me.who) (memo_of pool.new me.who) }
    ensures told { dead ≡ true → HasTold (account_at pool.old.accounts me.who) (account_at pool.new.accounts me.who) }
    ensures others { (d : ℕ) → d ≢ me.who → account_at pool.new.accounts d ≡ account_at pool.old.accounts d }
    ensures start { pool.new.start ≡ pool.old.start }
    ensures run { IsRun pool.new }
{
    // for the proof: the pool is a run
    pool.geometry();
    revive(pool, me, dead);
    let mut life = Life::of(LIFE);
    join(pool, me, &mut life);
    drain(pool, me, &mut life);
    leave(pool, me, &mut life);
}

/// Whether all agents of the identity died.
fn is_dead<A: Play>(agents: &Option<Players<A>>) -> bool
    ensures { result ≡ is_dead agents.now }
{
    match agents {
        None => false,
        Some(own) => own.standing() == Standing::Dead,
    }
}

/// Each identity is recovered where its last agent died, joins, takes all that waits for it, and leaves, one after the other.
pub(crate) fn visit_all<A: Play>(pool: &mut PlainPool, agents: &[Option<Players<A>>])
    requires era { pool.old.start.first_era ≡ 1 }
    requires many { length agents.now ≡ pool.old.start.geometry.clients }
    requires may { (c : ℕ) → c < pool.old.start.geometry.clients → MayVisit (is_dead (slice_index_or agents.now c None)) (memo_of pool.old c) }
    ensures visits { AreVisits 0 pool.old.start.geometry.clients pool.old pool.new }
    ensures gone { (c : ℕ) → c < pool.old.start.geometry.clients → (memo_of pool.new c).status ≡ Gone }
    ensures table { (c : ℕ) → c < pool.old.start.geometry.clients → SameTable (memo_of pool.old c) (memo_of pool.new c) }
    ensures told { (c : ℕ) → c < pool.old.start.geometry.clients → is_dead (slice_index_or agents.now c None) ≡ true → HasTold (account_at pool.old.accounts c) (account_at pool.new.accounts c) }
    ensures start { pool.new.start ≡ pool.old.start }
    ensures run { IsRun pool.new }
{
    let geometry = pool.geometry();
    for client in 0..geometry.clients() {
        let dead = is_dead(&agents[client as usize]);
        visit(pool, Me::new(geometry, client), dead);
    }
}
