//! A machine of one's own: whether two roots of an identity name one block.

ghost use Rattle.std.specs.{Prelude.{◌≡◌, ◌==◌, ◌<◌, false, true, [], IfErr, IfOk, IfSome}, Option.is_some};
ghost use Rattle.shm_words.specs.Layout.{GeometryFits};
ghost use Rattle.shm_graph.specs.{declared.memo.Memo.Memo as AMemo, Agents.recovers, Asks.Trail, Core.core};
ghost use Rattle.shm_graph.specs.Reach.{is_reached};
ghost use Rattle.plans.specs.CallsFit.{CallsFits};
ghost use Rattle.shm_plain.specs.{Calls.{Did, IsAtWork, Ran}, Pools.{IsRun, memo_of}};
ghost use Rattle.shm_count.specs.Roots.{root_word};
ghost use Rattle.t_uses.specs.Compare.{CompareCalls, CompareMay, comparing, compare_plan, root_of};
ghost use Rattle.t_uses.specs.Compare.Laws.{compare_laws, compare_task};
ghost use Rattle.t_uses.specs.declared.stop.Stop.TheVariants as stop;

use crate::stop::Stop;
use plans::{Calls, Plan, Task};
use shm_client::{allocate, joined};
use shm_graph::{Life, Machine, Me};
use shm_plain::PlainPool;
use shm_ref::{RootOf, Share, share_keeps};
use shm_words::Geometry;
use std::alloc::Global;
use std::marker::Model;

/// The control of it; `found` is what the first root was found to name, once it was asked.
#[derive(Clone, Copy, Drop)]
pub struct CompareState {
    pub me: Me,
    pub first: u8,
    pub second: u8,
    pub found: Option<u32>,
}

/// The plan: two calls of `RootOf`, one after the other.
///
/// It answers whether both roots name the same block, or neither names one.
#[derive(Drop)]
pub struct Compare {
    state: CompareState,
}

impl Model for Compare {
    ghost use Rattle.t_uses.specs.declared.machine.CompareState.{CompareState as AState};

    ghost Value = { AState };

    ghost view = { λ a. a.state };

    ghost use Rattle.t_uses.specs.Compare.{CompareInRange};

    ghost invariant = { λ a. CompareInRange a.state };
}

impl Compare {
    /// Two roots of the identity `me`, before the first call.
    #[inline(always)]
    pub fn new(me: Me, first: u8, second: u8) -> Compare
        requires geometry { GeometryFits me.geometry }
        requires who { me.who < me.geometry.clients }
        requires first { first < 16 }
        requires second { second < 16 }
        ensures { result ≡ comparing me first second }
    {
        Compare {
            state: CompareState {
                me,
                first,
                second,
                found: None,
            },
        }
    }
}

impl Plan for Compare {
    type Call = Calls<RootOf>;

    type Answer = bool;

    ghost plan = { compare_plan };

    #[inline(always)]
    fn me(&self) -> Me {
        self.state.me
    }

    #[inline(always)]
    fn call(&self) -> Calls<RootOf> {
        let root = match self.state.found {
            None => self.state.first,
            Some(_) => self.state.second,
        };
        Calls::new(RootOf::new(self.state.me, root))
    }

    #[inline(always)]
    fn next(&mut self, block: u32) -> Option<bool> {
        match self.state.found {
            None => {
                self.state.found = Some(block);
                None
            }
            Some(first) => Some(first == block),
        }
    }

    ghost laws = { compare_laws };
}

impl Task for Compare {
    ghost may = { CompareMay };

    ghost tasks = { compare_task };
}

/// Whoever stops it on the way, after any word step, finds that nothing but reading was done.
pub fn compare_reads()
    ensures { (m : CompareCalls) (r0 r : AMemo) (tr : Trail) → CallsFits root_of compare_plan m r0 r tr → core r ≡ core r0 }
{}

/// Says whether two roots of `who` name the same block, or neither names one; none where no word step was left. It changes nothing.
pub fn same_block(
    pool: &mut PlainPool,
    who: u8,
    first: u8,
    second: u8,
    life: &mut Life,
) -> Option<bool>
    requires at_work { IsAtWork who pool.old }
    requires first { first < 16 }
    requires second { second < 16 }
    ensures is { IfSome result (λ b. b ≡ (root_word who (memo_of pool.old who) first == root_word who (memo_of pool.old who) second)) }
    ensures same { IfSome result (λ b. core (memo_of pool.new who) ≡ core (memo_of pool.old who)) }
    ensures at_work { IfSome result (λ b. IsAtWork who pool.new) }
    ensures ran { Ran who true (is_some result) pool.old pool.new life.old.left life.new.left }
    ensures events { IfSome result (λ b. Did who pool.old pool.new []) }
{
    let comparing = Compare::new(pool.me(who), first, second);
    pool.run(who, comparing, life)
}

/// Has a further root of `who` name a block that a root names already.
fn share(pool: &mut PlainPool, who: u8, block: u32, life: &mut Life) -> Result<u8, Stop>
    requires at_work { IsAtWork who pool.old }
    requires run { IsRun pool.old }
    requires client { recovers (memo_of pool.old who) ≡ false }
    requires reached { is_reached who (memo_of pool.old who) block ≡ true }
    ensures at_work { IfOk result (λ k. IsAtWork who pool.new) }
    ensures low { IfOk result (λ k. k < 16) }
    ensures died { IfErr result (λ e. e ≡ stop.Died → life.new.left ≡ 0) }
{
    // for the proof: the root that a share answers is one that there is
    share_keeps();
    let sharing = Share::new(pool.me(who), block);
    pool.run(who, sharing, life)
        .ok_or(Stop::Died)?
        .map_err(Stop::NotShared)
}

/// Makes a pool in which client 0 makes a block and has a second root name it, and says whether both roots do.
pub fn shared_root(alloc: Global, geometry: Geometry, life: &mut Life) -> Result<bool, Stop>
    requires geometry { GeometryFits geometry }
    ensures died { IfErr result (λ e. e ≡ stop.Died → life.new.left ≡ 0) }
{
    let mut pool = joined(alloc, geometry, 1, false, life, 0)
        .map_err(Stop::Memory)?
        .ok_or(Stop::Died)?;
    let made = allocate(&mut pool, 0, 0, &[7], life)
        .map_err(Stop::TooLarge)?
        .ok_or(Stop::Died)?
        .map_err(Stop::NotMade)?;
    let root = share(&mut pool, 0, made.block, life)?;
    same_block(&mut pool, 0, made.root, root, life).ok_or(Stop::Died)
}
