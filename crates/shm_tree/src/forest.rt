//! Versions of an ordered map in one pool.

ghost use Rattle.std.specs.Prelude.{◌≡◌, ◌<◌, ◌≤◌, ◌^◌, true, false, List, Err, IfErr, IfOk, is_ok};
ghost use Rattle.shm_graph.specs.{Agents.steps_made, References.live_count, Spots.see};
ghost use Rattle.shm_plain.specs.Pools.{Pool as APool, memo_of};
ghost use Rattle.shm_tree.specs.{Ending.HasEnded, ForestCalls.{IsBegunForest, IsClosedForest, IsFirstForest, RanLine}};
ghost use Rattle.shm_tree.specs.Forests.{HasVersions, IsInRange, is_died, turn_by, version};
ghost use Rattle.shm_tree.specs.{Trees.{Tree as ATree, size}, declared.hints.Hints.TheVariants.On};
ghost use Rattle.shm_tree.specs.declared.line.TreeTurn.TheVariants as turns;

use crate::closing::finish;
use crate::counting::{block_in, live_blocks, size_of};
use crate::ground::Ground;
use crate::hints::Hints;
use crate::line::{TreeAnswer, TreeLine, TreeTurn};
use crate::registers::{NONE, Registers};
use crate::stop::Stop;
use shm_client::joined;
use shm_count::EraSpent;
use shm_graph::Life;
use shm_plain::PlainClosed;
use shm_words::Geometry;
use std::alloc::{AllocError, Global};
use std::marker::Model;

/// Twelve versions of an ordered map in one pool.
#[derive(Drop)]
pub struct Forest {
    registers: Registers,
    hints: Hints,
    /// Whether a run was answered by Died.
    died: bool,
}

impl Model for Forest {
    ghost use Rattle.shm_tree.specs.Forests.{Forested, IsSound};

    ghost Value = { Forested };

    ghost view = { λ f. record { registers = f.registers; hints = f.hints; died = f.died } };

    ghost invariant = { λ f. IsSound (record { registers = f.registers; hints = f.hints; died = f.died }) };
}

/// What came of a line.
fn turn_by(outcome: Result<TreeAnswer, Stop>) -> TreeTurn
    ensures { result ≡ turn_by outcome }
{
    match outcome {
        Ok(answer) => TreeTurn::Done(answer),
        Err(stop) => stop.turn(),
    }
}

/// Whether no word step was left.
fn is_died(turn: TreeTurn) -> bool
    ensures { result ≡ is_died turn }
{
    matches!(turn, TreeTurn::Died)
}

impl Forest {
    /// A pool of one client and this many segments, with twelve empty registers.
    pub fn make(alloc: Global, segments: u16) -> Result<Forest, AllocError>
        requires segments { (1 ≤ segments) × (segments ≤ 256) }
        ensures { IfOk result (IsFirstForest segments) }
    {
        Forest::begin(alloc, segments, Hints::Off)
    }

    /// The same, with a hint for the next node: the search for its block begins behind the node that was made last, and now and then at the pool's
    /// first block again. That trades room for word steps: sets and removals take far fewer, and pages and segments that are free are taken before
    /// blocks that were freed. A set is refused as full where it would be without: each block was looked at.
    pub fn make_near(alloc: Global, segments: u16) -> Result<Forest, AllocError>
        requires segments { (1 ≤ segments) × (segments ≤ 256) }
        ensures { IfOk result (IsBegunForest On segments) }
    {
        Forest::begin(alloc, segments, Hints::On)
    }

    /// A pool of one client, with or without hints.
    fn begin(alloc: Global, segments: u16, hints: Hints) -> Result<Forest, AllocError>
        requires segments { (1 ≤ segments) × (segments ≤ 256) }
        ensures { IfOk result (IsBegunForest hints segments) }
    {
        let Ok(geometry) = Geometry::new(1, segments) else {
            unreachable!()
        };
        let mut life = Life::of(1);
        match joined(alloc, geometry, 1, false, &mut life, 0)? {
            Some(pool) => {
                let ground = Ground::new(pool);
                Ok(Forest {
                    registers: Registers {
                        pool: ground,
                        roots: [NONE; 12],
                        tidy: true,
                    },
                    hints,
                    died: false,
                })
            }
            None => unreachable!(),
        }
    }

    /// Runs a line, on registers below 12. Once a line was answered by Died each is, and nothing is done.
    pub fn run(&mut self, line: &TreeLine, life: &mut Life) -> TreeTurn
        requires line { IsInRange line.now }
        ensures ran { self.old.died ≡ false → RanLine line.now self.old self.new life.old.left life.new.left result }
        ensures died { self.new.died ≡ is_died result }
        ensures stays { self.old.died ≡ true → (result ≡ turns.Died) × (self.new ≡ self.old) × (life.new.left ≡ life.old.left) }
    {
        if self.died {
            return TreeTurn::Died;
        }
        let turn = turn_by(self.registers.run(self.hints, line, life));
        self.died = is_died(turn);
        turn
    }

    /// How many keys the version of a register below 12 has. No run was answered by Died.
    pub fn size(&self, at: u8) -> u32
        requires alive { self.now.died ≡ false }
        requires at { at < 12 }
        ensures { (ts : List ATree) → HasVersions self.now.registers ts → result ≡ size (version ts at) }
    {
        let pool = self.registers.pool.pool();
        let root = self.registers.roots[at as usize];
        size_of(pool, block_in(pool, root))
    }

    /// How many blocks of the pool are live.
    pub fn nodes(&self) -> u32
        ensures { result ≡ live_count self.now.registers.pool.start.geometry (see self.now.registers.pool.start.geometry self.now.registers.pool.words) }
    {
        live_blocks(self.registers.pool.pool())
    }

    /// Recovers the client where it died or its own era is spent, otherwise has it leave, and closes the pool.
    ///
    /// # Errors
    ///
    /// `EraSpent` where the recovery or the leaving was refused so: the own era leaves no room for a count step. The forest is given up then.
    pub fn close(self) -> Result<PlainClosed, EraSpent>
        ensures closed { IfOk result (IsClosedForest self) }
        ensures spent { IfErr result (λ e. (q : APool) × HasEnded self.died self.registers.pool q (Err e)) }
        ensures roomy { steps_made (memo_of self.registers.pool 0) ≤ 2 ^ 46 → is_ok result ≡ true }
    {
        finish(self.registers.pool.into_pool(), self.died)
    }
}
