//! Ways down a tree to a key.

ghost use Rattle.std.specs.Prelude.{◌≡◌, ◌≢◌, ℕ, ◌+◌, ◌*◌, ◌-◌, ◌^◌, ◌<◌, ◌≤◌, Some, IfOk};
ghost use Rattle.shm_plain.specs.Pools.{memo_of};
ghost use Rattle.shm_tree.specs.{Building.IsAtHand, Looking.Looks, Spending.DiesAfter, Standing.{TreeStands, weight}};
ghost use Rattle.shm_tree.specs.Trees.{Tree as ATree, IsSearch, found, height};
ghost use Rattle.shm_tree.specs.{Ways.{IsDeep, IsEnd, IsLast, IsPlace, down}, Working.{IsReached, IsWorking}};

use crate::calls::{child, key, number};
use crate::ground::Ground;
use crate::node::Side;
use crate::stop::Stop;
use shm_graph::Life;

/// A place in a tree: a node, or 0 where there is none, and how many nodes stand above it.
#[derive(Clone, Copy, Debug, Drop)]
pub struct Place {
    pub node: u32,
    pub depth: u32,
}

/// The place of a key in a tree: its node, or where it would stand.
pub fn find(pool: &mut Ground, tree: u32, wanted: u32, life: &mut Life) -> Result<Place, Stop>
    requires working { IsWorking pool.old }
    requires latch { (memo_of pool.old 0).latch ≡ Some 0 }
    requires tree { IsAtHand pool.old tree }
    ensures looks { Looks result pool.old pool.new life.old.left life.new.left }
    ensures late { (t : ATree) → TreeStands pool.old tree t → DiesAfter (5 * height t + 2) result pool.old pool.new life.old.left }
    ensures steps { IfOk result (λ w. life.old.left ≤ life.new.left + 5 * w.depth + 2) }
    ensures place { IfOk result (λ w. (t : ATree) → TreeStands pool.old tree t → IsPlace pool.new w.node wanted w.depth t) }
    ensures low { IfOk result (λ w. w.depth < 2 ^ 24) }
    ensures reached { IfOk result (λ w. IsReached pool.new w.node) }
    ensures light { IfOk result (λ w. (f : ℕ → ℕ) (t : ATree) → TreeStands pool.old tree t → weight f pool.new w.node (down wanted t w.depth) ≤ weight f pool.old tree t) }
{
    let mut node = tree;
    let mut depth = 0;
    while node != 0 {
        let here = key(pool, node, life)?;
        if here == u64::from(wanted) {
            return Ok(Place { node, depth });
        }
        node = child(pool, node, Side::of(wanted, here), life)?;
        depth += 1;
    }
    Ok(Place { node, depth })
}

/// The block so many nodes down on the way to a key, or 0.
pub fn above(
    pool: &mut Ground,
    tree: u32,
    wanted: u32,
    depth: u32,
    life: &mut Life,
) -> Result<u32, Stop>
    requires working { IsWorking pool.old }
    requires latch { (memo_of pool.old 0).latch ≡ Some 0 }
    requires tree { IsAtHand pool.old tree }
    requires deep { (t : ATree) → TreeStands pool.old tree t → IsDeep wanted t depth }
    ensures looks { Looks result pool.old pool.new life.old.left life.new.left }
    ensures late { DiesAfter (5 * depth) result pool.old pool.new life.old.left }
    ensures steps { IfOk result (λ w. life.old.left ≡ life.new.left + 5 * depth) }
    ensures stands { IfOk result (λ w. (t : ATree) → TreeStands pool.old tree t → TreeStands pool.new w (down wanted t depth)) }
    ensures reached { IfOk result (λ w. IsReached pool.new w) }
    ensures light { IfOk result (λ w. (f : ℕ → ℕ) (t : ATree) → TreeStands pool.old tree t → weight f pool.new w (down wanted t depth) ≤ weight f pool.old tree t) }
{
    let mut node = tree;
    for _level in 0..depth {
        let here = key(pool, node, life)?;
        node = child(pool, node, Side::of(wanted, here), life)?;
    }
    Ok(node)
}

/// The lowest node on the way to the key of a node, which goes on to the greater keys there: that of the next greater key, or the node itself where
/// nothing is on its right.
pub fn last(pool: &mut Ground, place: Place, life: &mut Life) -> Result<Place, Stop>
    requires working { IsWorking pool.old }
    requires latch { (memo_of pool.old 0).latch ≡ Some 0 }
    requires some { place.node ≢ 0 }
    requires tree { (t : ATree) × TreeStands pool.old place.node t × IsSearch t }
    requires reached { IsReached pool.old place.node }
    requires low { place.depth < 2 ^ 24 }
    ensures looks { Looks result pool.old pool.new life.old.left life.new.left }
    ensures late { (t : ATree) → TreeStands pool.old place.node t → IsSearch t → DiesAfter (3 * height t) result pool.old pool.new life.old.left }
    ensures steps { IfOk result (λ w. life.old.left ≡ life.new.left + 3 * (w.depth - place.depth + 1)) }
    ensures below { IfOk result (λ w. place.depth ≤ w.depth) }
    ensures last { IfOk result (λ w. (x : ℕ) (t : ATree) → TreeStands pool.old place.node t → IsSearch t → IsEnd x t → IsLast pool.new w.node x (w.depth - place.depth) t) }
    ensures reached { IfOk result (λ w. IsReached pool.new w.node) }
{
    let mut lowest = place;
    let mut next = child(pool, place.node, Side::Right, life)?;
    while next != 0 {
        lowest = Place {
            node: next,
            depth: lowest.depth + 1,
        };
        next = child(pool, next, Side::Left, life)?;
    }
    Ok(lowest)
}

/// The number at a key of a tree, where it has the key.
pub fn number_at(
    pool: &mut Ground,
    tree: u32,
    wanted: u32,
    life: &mut Life,
) -> Result<Option<u64>, Stop>
    requires working { IsWorking pool.old }
    requires latch { (memo_of pool.old 0).latch ≡ Some 0 }
    requires tree { IsAtHand pool.old tree }
    ensures looks { Looks result pool.old pool.new life.old.left life.new.left }
    ensures late { (t : ATree) → TreeStands pool.old tree t → DiesAfter (5 * height t + 4) result pool.old pool.new life.old.left }
    ensures steps { IfOk result (λ o. (t : ATree) → TreeStands pool.old tree t → life.old.left ≤ life.new.left + 5 * height t + 4) }
    ensures is { IfOk result (λ o. (t : ATree) → TreeStands pool.old tree t → o ≡ found wanted t) }
{
    let place = find(pool, tree, wanted, life)?;
    if place.node == 0 {
        Ok(None)
    } else {
        let number = number(pool, place.node, life)?;
        Ok(Some(number))
    }
}
