//! A tree with a number at a key.

ghost use Rattle.std.specs.Prelude.{◌≡◌, ℕ, ◌+◌, ◌≤◌, Some, IfOk};
ghost use Rattle.shm_graph.specs.Bounds.{tear_steps};
ghost use Rattle.shm_plain.specs.Pools.{memo_of};
ghost use Rattle.shm_tree.specs.{Bounds.{insert_steps, lowest_steps}, Building.{Builds, IsAtHand, IsBuilt, rooms}};
ghost use Rattle.shm_tree.specs.Inserting.{IsRegistered, StandsLowest, WeighsLowest, left_of, outside, right_of};
ghost use Rattle.shm_tree.specs.{Looking.Looks, Living.{AreFewNew, AreLivesTrees, KeepsLives}, Sharing.IsFresh, Spending.DiesAfter};
ghost use Rattle.shm_tree.specs.{Standing.{TreeStands, weight}, Trees.{Tree as ATree, height, inserted}};
ghost use Rattle.shm_tree.specs.Working.{IsReached, IsSpent, IsWorking};

use crate::balance::raise;
use crate::find::{above, find};
use crate::ground::Ground;
use crate::hints::Hints;
use crate::node::{Content, Pair, Side, children, link};
use crate::stop::Stop;
use shm_count::Made;
use shm_graph::Life;

/// The trees of a node, the left one first; none where there is no node.
fn trees_of(pool: &mut Ground, node: u32, life: &mut Life) -> Result<Pair, Stop>
    requires working { IsWorking pool.old }
    requires latch { (memo_of pool.old 0).latch ≡ Some 0 }
    requires node { IsAtHand pool.old node }
    ensures looks { Looks result pool.old pool.new life.old.left life.new.left }
    ensures late { DiesAfter 6 result pool.old pool.new life.old.left }
    ensures steps { IfOk result (λ w. life.old.left ≤ life.new.left + 6) }
    ensures near { IfOk result (λ w. (t : ATree) → TreeStands pool.old node t → TreeStands pool.old w.near (left_of t)) }
    ensures far { IfOk result (λ w. (t : ATree) → TreeStands pool.old node t → TreeStands pool.old w.far (right_of t)) }
    ensures near_reached { IfOk result (λ w. IsReached pool.new w.near) }
    ensures far_reached { IfOk result (λ w. IsReached pool.new w.far) }
    ensures light { IfOk result (λ w. (f : ℕ → ℕ) (t : ATree) → TreeStands pool.old node t → weight f pool.old w.near (left_of t) + weight f pool.old w.far (right_of t) ≤ weight f pool.old node t) }
{
    if node == 0 {
        Ok(Pair { near: 0, far: 0 })
    } else {
        children(pool, node, Side::Left, life)
    }
}

/// Makes the node of a key at its place, with the trees of the node that stands there.
fn lowest(
    pool: &mut Ground,
    hints: Hints,
    node: u32,
    content: Content,
    life: &mut Life,
) -> Result<Made, Stop>
    requires working { IsWorking pool.old }
    requires latch { (memo_of pool.old 0).latch ≡ Some 0 }
    requires room { 1 ≤ rooms pool.old }
    requires node { IsAtHand pool.old node }
    ensures builds { Builds hints 1 (lowest_steps pool.old.start.geometry) result pool.old pool.new life.old.left life.new.left }
    ensures built { IfOk result (λ m. IsBuilt 1 m pool.old pool.new) }
    ensures stands { IfOk result (λ m. StandsLowest content.key content.number node m.block pool.old pool.new) }
    ensures fresh { IfOk result (IsFresh pool.old) }
    ensures rests { IfOk result (λ m. KeepsLives pool.old pool.new) }
    ensures weighs { IfOk result (λ m. WeighsLowest content.key content.number node m.block pool.old pool.new) }
{
    let trees = trees_of(pool, node, life)?;
    link(pool, hints, content, Side::Left, trees, life)
}

/// Makes a tree as this one, with the number at the key.
///
/// # Errors
///
/// As a call was refused: what roots named they name still, and it stands. Nodes that were made then may be in roots that were empty.
pub fn insert(
    pool: &mut Ground,
    hints: Hints,
    tree: u32,
    wanted: u32,
    number: u64,
    life: &mut Life,
) -> Result<Made, Stop>
    requires working { IsWorking pool.old }
    requires latch { (memo_of pool.old 0).latch ≡ Some 0 }
    requires room { 4 ≤ rooms pool.old }
    requires tree { IsRegistered pool.old tree }
    ensures builds { (t : ATree) → TreeStands pool.old tree t → Builds hints (height t + 3) (insert_steps (height t) pool.old.start.geometry) result pool.old pool.new life.old.left life.new.left }
    ensures built { IfOk result (λ m. (t : ATree) → TreeStands pool.old tree t → IsBuilt (height t + 3) m pool.old pool.new) }
    ensures steps { IfOk result (λ m. (t : ATree) → TreeStands pool.old tree t → (IsSpent (memo_of pool.new 0) → ⊥) → AreLivesTrees pool.old → life.old.left ≤ life.new.left + insert_steps (height t) pool.old.start.geometry + tear_steps pool.old.start.geometry.wide (height t + 3)) }
    ensures stands { IfOk result (λ m. (t : ATree) → TreeStands pool.old tree t → TreeStands pool.new m.block (inserted wanted number t)) }
    ensures rests { IfOk result (λ m. KeepsLives pool.old pool.new) }
    ensures shares { IfOk result (λ m. (t : ATree) → TreeStands pool.old tree t → weight (outside pool.old tree t) pool.new m.block (inserted wanted number t) ≤ height t + 1) }
    ensures lives { IfOk result (λ m. (t : ATree) → TreeStands pool.old tree t → (IsSpent (memo_of pool.new 0) → ⊥) → AreLivesTrees pool.old → AreFewNew (height t + 1) pool.old pool.new) }
{
    let place = find(pool, tree, wanted, life)?;
    let content = Content {
        key: u64::from(wanted),
        number,
    };
    let mut made = lowest(pool, hints, place.node, content, life)?;
    let mut depth = place.depth;
    'levels: while depth > 0 {
        depth -= 1;
        let node = above(pool, tree, wanted, depth, life)?;
        made = raise(pool, hints, node, wanted, None, Some(made), life)?;
    }
    Ok(made)
}
