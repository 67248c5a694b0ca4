//! Tables: what two clients have of their keys where one of them dies in the midst of a command.

ghost use Rattle.std.specs.Prelude.{◌≡◌, ◌≢◌, ℕ, true, IfOk, IfErr, IfSome};
ghost use Rattle.shm_words.specs.Layout.{GeometryFits};
ghost use Rattle.shm_graph.specs.{declared.memo.{Memo.Memo as AMemo, Status.TheVariants.Gone}, Agents.acts};
ghost use Rattle.shm_plain.specs.{Calls.IsAtWork, Pools.{IsRun, memo_of}};
ghost use Rattle.shm_count.specs.Roots.{member};
ghost use Rattle.shm_script.specs.declared.line.Line.TheVariants as line;
ghost use Rattle.shm_table.specs.Command.Maps.{MapSoFar};
ghost use Rattle.shm_client.specs.Running.{IsOpen, MapSo, MayRun};
ghost use Rattle.t_uses.specs.declared.stop.Stop.TheVariants as stop;

use crate::stop::Stop;
use shm_client::{command, die, join, joined, recover};
use shm_count::EraSpent;
use shm_graph::{Life, Me, Turn};
use shm_plain::PlainPool;
use shm_script::{Answer, Line};
use shm_table::{Command, command_maps};
use shm_words::Geometry;
use std::alloc::Global;

/// Makes a pool for tables, of two clients, that both have joined.
pub fn two_clients(alloc: Global, geometry: Geometry, life: &mut Life) -> Result<PlainPool, Stop>
    requires geometry { GeometryFits geometry }
    requires two { geometry.clients ≡ 2 }
    ensures first { IfOk result (IsOpen 0) }
    ensures second { IfOk result (IsOpen 1) }
    ensures died { IfErr result (λ e. e ≡ stop.Died → life.new.left ≡ 0) }
{
    let mut pool = joined(alloc, geometry, 1, true, life, 0)
        .map_err(Stop::Memory)?
        .ok_or(Stop::Died)?;
    if join(&mut pool, 1, life) {
        Ok(pool)
    } else {
        Err(Stop::Died)
    }
}

/// Runs the command of a line for `who` until it answers or no word step is left, and says what came of it.
///
/// An answer says what the command did, also where the client died after the step that decides it; with none the client died before that
/// step, and the map is what it was.
pub fn attempt(pool: &mut PlainPool, who: u8, line: &Line, life: &mut Life) -> Option<Answer>
    requires at_work { IsAtWork who pool.old }
    requires may { MayRun (member pool.old.start.geometry who) line.now (memo_of pool.old who) }
    ensures map { MapSoFar line.now result (memo_of pool.old who) (memo_of pool.new who) }
    ensures others { (d : ℕ) → d ≢ who → memo_of pool.new d ≡ memo_of pool.old d }
    ensures start { pool.new.start ≡ pool.old.start }
    ensures acts { acts (memo_of pool.new who) ≡ true }
    ensures run { IsRun pool.new }
{
    // for the proof: while a command runs, the map is what its effect says
    command_maps();
    let geometry = pool.geometry();
    let mut machine = Command::new(Me::new(geometry, who), line);
    loop {
        match pool.step(who, &mut machine, life) {
            Turn::More => {}
            Turn::Done(answer) => return Some(answer),
            Turn::Died => return machine.effect(),
        }
    }
}

/// What came of two puts of client 0, the second of which it died in, and of a copy by client 1 between them.
#[derive(Clone, Copy, Debug, Drop)]
pub struct Told {
    pub first: Answer,
    pub copy: Answer,
    /// None where client 0 died before the put was done.
    pub second: Option<Answer>,
    /// What the recovery of client 0 answered: none where no word step was left for it.
    pub recovery: Option<Result<(), EraSpent>>,
}

/// Client 0 puts 77 at the key 5, and client 1 gives its key 9 the same value. Then client 0 puts 78 at the key 5, and dies after so many word
/// steps at most; and it is recovered. None where no word step was left for the first two.
pub fn put_copy_die(pool: &mut PlainPool, steps: u64, life: &mut Life) -> Option<Told>
    requires first { IsOpen 0 pool.old }
    requires second { IsOpen 1 pool.old }
    ensures own { IfSome result (λ t. (m : AMemo) × MapSo (line.Put 5 77) t.first (memo_of pool.old 0) m × MapSoFar (line.Put 5 78) t.second m (memo_of pool.new 0)) }
    ensures copy { IfSome result (λ t. MapSo (line.Copy 9 0 5) t.copy (memo_of pool.old 1) (memo_of pool.new 1)) }
    ensures gone { IfSome result (λ t. IfSome t.recovery (λ a. IfOk a (λ u. (memo_of pool.new 0).status ≡ Gone))) }
{
    let first = command(pool, 0, &Line::Put { key: 5, number: 77 }, life)?;
    let copying = Line::Copy {
        key: 9,
        author: 0,
        other: 5,
    };
    let copy = command(pool, 1, &copying, life)?;
    let second = attempt(
        pool,
        0,
        &Line::Put { key: 5, number: 78 },
        &mut Life::of(steps),
    );
    die(pool, 0);
    let recovery = recover(pool, 0, life);
    Some(Told {
        first,
        copy,
        second,
        recovery,
    })
}
