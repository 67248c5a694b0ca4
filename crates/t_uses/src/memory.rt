//! Blocks in a pool of one's own: of two blocks the first one refers to the second, which lives on that reference alone.

ghost use Rattle.std.specs.Prelude.{◌≡◌, ◌≢◌, ◌<◌, false, IfOk, IfErr};
ghost use Rattle.shm_words.specs.Layout.{GeometryFits};
ghost use Rattle.shm_graph.specs.declared.memo.Status.TheVariants.{Gone};
ghost use Rattle.shm_plain.specs.{Closings.IsClosedRun, Pools.memo_of};
ghost use Rattle.t_uses.specs.Blocks.{AreRooted, AreSameRoots, HasRun, IsFree, IsHolding, IsMade, IsPair, Refers};
ghost use Rattle.t_uses.specs.declared.stop.Stop.TheVariants as stop;

use crate::stop::Stop;
use shm_client::{allocate, joined};
use shm_count::Made;
use shm_graph::Life;
use shm_plain::{PlainClosed, PlainPool};
use shm_recover::Leave;
use shm_ref::{
    DropRoot, Hold, Release, SetHome, SetRef, drop_root_keeps, hold_keeps, release_keeps,
    set_home_keeps, set_ref_keeps,
};
use shm_words::Geometry;
use std::alloc::Global;

/// Two blocks of a client, each with the root that it was made in.
#[derive(Clone, Copy, Debug, Drop)]
pub struct Pair {
    pub parent: Made,
    pub child: Made,
}

/// Makes a block for `who`, which a root names that was empty.
fn block(
    pool: &mut PlainPool,
    who: u8,
    refs: u8,
    plain: &[u64],
    life: &mut Life,
) -> Result<Made, Stop>
    requires free { IsFree who pool.old }
    ensures free { IfOk result (λ x. IsFree who pool.new) }
    ensures made { IfOk result (λ x. IsMade who x (memo_of pool.old who) (memo_of pool.new who)) }
    ensures ran { HasRun who pool.old pool.new }
    ensures died { IfErr result (λ e. e ≡ stop.Died → life.new.left ≡ 0) }
{
    allocate(pool, who, refs, plain, life)
        .map_err(Stop::TooLarge)?
        .ok_or(Stop::Died)?
        .map_err(Stop::NotMade)
}

/// Has `who` take its own latch. Its roots stay as they are.
fn take_latch(pool: &mut PlainPool, who: u8, life: &mut Life) -> Result<(), Stop>
    requires free { IsFree who pool.old }
    ensures holds { IfOk result (λ u. IsHolding who pool.new) }
    ensures roots { IfOk result (λ u. AreSameRoots who (memo_of pool.old who) (memo_of pool.new who)) }
    ensures ran { HasRun who pool.old pool.new }
    ensures died { IfErr result (λ e. e ≡ stop.Died → life.new.left ≡ 0) }
{
    // for the proof: what a hold keeps
    hold_keeps();
    let holding = Hold::new(pool.me(who), who);
    pool.run(who, holding, life)
        .ok_or(Stop::Died)?
        .map_err(Stop::Busy)
}

/// Has word 0 of the first block name the second.
fn set_ref(pool: &mut PlainPool, who: u8, pair: Pair, life: &mut Life) -> Result<(), Stop>
    requires holds { IsHolding who pool.old }
    requires rooted { AreRooted who pair (memo_of pool.old who) }
    ensures holds { IfOk result (λ u. IsHolding who pool.new) }
    ensures refers { IfOk result (λ u. Refers who pair (memo_of pool.new who)) }
    ensures ran { HasRun who pool.old pool.new }
    ensures died { IfErr result (λ e. e ≡ stop.Died → life.new.left ≡ 0) }
{
    // for the proof: what the setting of a reference keeps
    set_ref_keeps();
    let (parent, child) = (pair.parent.block, pair.child.block);
    let setting = SetRef::new(pool.me(who), parent, 0, child);
    pool.run(who, setting, life)
        .ok_or(Stop::Died)?
        .map_err(Stop::NotSet)
}

/// Drops the root of the second block, which lives on the reference of the first one then.
fn drop_root(pool: &mut PlainPool, who: u8, pair: Pair, life: &mut Life) -> Result<(), Stop>
    requires holds { IsHolding who pool.old }
    requires refers { Refers who pair (memo_of pool.old who) }
    requires child { pair.child.root < 16 }
    requires apart { pair.parent.root ≢ pair.child.root }
    ensures holds { IfOk result (λ u. IsHolding who pool.new) }
    ensures refers { IfOk result (λ u. Refers who pair (memo_of pool.new who)) }
    ensures ran { HasRun who pool.old pool.new }
    ensures died { IfErr result (λ e. e ≡ stop.Died → life.new.left ≡ 0) }
{
    // for the proof: what the drop of a root keeps
    drop_root_keeps();
    let dropping = DropRoot::new(pool.me(who), pair.child.root);
    pool.run(who, dropping, life)
        .ok_or(Stop::Died)?
        .map_err(Stop::Spent)?;
    Ok(())
}

/// Has `who` give its latch back.
fn give_back(pool: &mut PlainPool, who: u8, pair: Pair, life: &mut Life) -> Result<(), Stop>
    requires holds { IsHolding who pool.old }
    requires refers { Refers who pair (memo_of pool.old who) }
    ensures free { IfOk result (λ u. IsFree who pool.new) }
    ensures refers { IfOk result (λ u. Refers who pair (memo_of pool.new who)) }
    ensures ran { HasRun who pool.old pool.new }
    ensures died { IfErr result (λ e. e ≡ stop.Died → life.new.left ≡ 0) }
{
    // for the proof: what a release keeps
    release_keeps();
    let releasing = Release::new(pool.me(who));
    pool.run(who, releasing, life).ok_or(Stop::Died)
}

/// Has the first block refer to the second, which keeps that alive when its root is dropped.
fn refer(pool: &mut PlainPool, who: u8, pair: Pair, life: &mut Life) -> Result<(), Stop>
    requires free { IsFree who pool.old }
    requires rooted { AreRooted who pair (memo_of pool.old who) }
    ensures free { IfOk result (λ u. IsFree who pool.new) }
    ensures refers { IfOk result (λ u. Refers who pair (memo_of pool.new who)) }
    ensures ran { HasRun who pool.old pool.new }
    ensures died { IfErr result (λ e. e ≡ stop.Died → life.new.left ≡ 0) }
{
    // the reference words of a client's blocks are set under its own latch
    take_latch(pool, who, life)?;
    set_ref(pool, who, pair, life)?;
    drop_root(pool, who, pair, life)?;
    give_back(pool, who, pair, life)
}

/// Has the home of `who` name the first block.
fn set_home(pool: &mut PlainPool, who: u8, pair: Pair, life: &mut Life) -> Result<(), Stop>
    requires free { IsFree who pool.old }
    requires refers { Refers who pair (memo_of pool.old who) }
    ensures free { IfOk result (λ u. IsFree who pool.new) }
    ensures refers { IfOk result (λ u. IsPair who pair pool.new) }
    ensures ran { HasRun who pool.old pool.new }
    ensures died { IfErr result (λ e. e ≡ stop.Died → life.new.left ≡ 0) }
{
    // for the proof: what the setting of a home keeps
    set_home_keeps();
    let homing = SetHome::new(pool.me(who), pair.parent.block);
    pool.run(who, homing, life)
        .ok_or(Stop::Died)?
        .map_err(Stop::NoHome)
}

/// Has `who`, which has nothing to finish, leave.
fn leave(pool: &mut PlainPool, who: u8, life: &mut Life) -> Result<(), Stop>
    requires free { IsFree who pool.old }
    ensures gone { IfOk result (λ u. (memo_of pool.new who).status ≡ Gone) }
    ensures ran { HasRun who pool.old pool.new }
    ensures died { IfErr result (λ e. e ≡ stop.Died → life.new.left ≡ 0) }
{
    let leaving = Leave::new(pool.me(who));
    pool.run(who, leaving, life)
        .ok_or(Stop::Died)?
        .map_err(Stop::Spent)
}

/// Makes two blocks for `who`, one with a reference word and one with the plain word 7. The first one refers to the second, and the home of
/// `who` names the first: both live on when `who` leaves.
pub fn make_pair(pool: &mut PlainPool, who: u8, life: &mut Life) -> Result<Pair, Stop>
    requires free { IsFree who pool.old }
    ensures free { IfOk result (λ x. IsFree who pool.new) }
    ensures refers { IfOk result (λ x. IsPair who x pool.new) }
    ensures ran { HasRun who pool.old pool.new }
    ensures died { IfErr result (λ e. e ≡ stop.Died → life.new.left ≡ 0) }
{
    let parent = block(pool, who, 1, &[], life)?;
    let child = block(pool, who, 0, &[7], life)?;
    let pair = Pair { parent, child };
    refer(pool, who, pair, life)?;
    set_home(pool, who, pair, life)?;
    Ok(pair)
}

/// Makes a pool for single calls, in which client 0 makes a pair and leaves, and closes it.
pub fn closed_pair(alloc: Global, geometry: Geometry, life: &mut Life) -> Result<PlainClosed, Stop>
    requires geometry { GeometryFits geometry }
    ensures start { IfOk result (λ p. p.start ≡ record { geometry = geometry; first_era = 1; tables = false }) }
    ensures closed { IfOk result IsClosedRun }
    ensures died { IfErr result (λ e. e ≡ stop.Died → life.new.left ≡ 0) }
{
    let mut pool = joined(alloc, geometry, 1, false, life, 0)
        .map_err(Stop::Memory)?
        .ok_or(Stop::Died)?;
    make_pair(&mut pool, 0, life)?;
    leave(&mut pool, 0, life)?;
    Ok(pool.close())
}
