//! A tree without a key.

ghost use Rattle.std.specs.Prelude.{◌≡◌, ◌≢◌, ◌+◌, ◌*◌, ◌≤◌, ◌==◌, None, Some, IfOk, if◌then◌else◌};
ghost use Rattle.shm_graph.specs.Bounds.{tear_steps};
ghost use Rattle.shm_plain.specs.Pools.{memo_of};
ghost use Rattle.shm_tree.specs.Bounds.{remnant_steps, remove_steps, share_steps};
ghost use Rattle.shm_tree.specs.declared.{node.Side.TheVariants.{Left, Right}, hints.Hints.TheVariants.Off};
ghost use Rattle.shm_tree.specs.{Building.{Builds, IsAtHand, block_of, rooms}, Inserting.IsRegistered};
ghost use Rattle.shm_tree.specs.{Keeping.child_of, Looking.Looks, Living.{AreFewNew, AreLivesTrees, KeepsLives}};
ghost use Rattle.shm_tree.specs.Removing.{IsKept, IsRemoved, StandsMoved, content_in};
ghost use Rattle.shm_tree.specs.{Spending.DiesAfter, Standing.TreeStands};
ghost use Rattle.shm_tree.specs.{Trees.{Tree as ATree, height}, Working.{IsSpent, IsWorking}};

use crate::balance::raise;
use crate::calls::{child, share};
use crate::find::{Place, above, find, last};
use crate::ground::Ground;
use crate::hints::Hints;
use crate::node::{Content, Side, content_of};
use crate::stop::Stop;
use shm_count::Made;
use shm_graph::Life;

/// What a removal made of a tree.
#[derive(Clone, Copy, Debug, Drop)]
pub struct Removed {
    /// The tree without the key, in a root that was empty; none where it is the empty one.
    pub tree: Option<Made>,
}

/// A further root for a tree; none for the empty one.
fn shared(pool: &mut Ground, tree: u32, life: &mut Life) -> Result<Option<Made>, Stop>
    requires working { IsWorking pool.old }
    requires room { 1 ≤ rooms pool.old }
    requires tree { IsAtHand pool.old tree }
    ensures builds { Builds Off 0 (share_steps pool.old.start.geometry) result pool.old pool.new life.old.left life.new.left }
    ensures kept { IfOk result (λ o. IsKept 0 o pool.old pool.new) }
    ensures stands { IfOk result (λ o. StandsMoved tree (block_of o) pool.old pool.new) }
    ensures rests { IfOk result (λ o. KeepsLives pool.old pool.new) }
{
    if tree == 0 {
        return Ok(None);
    }
    let made = share(pool, tree, life)?;
    Ok(Some(made))
}

/// A further root for the tree on a side of a node.
fn remnant(pool: &mut Ground, node: u32, side: Side, life: &mut Life) -> Result<Option<Made>, Stop>
    requires working { IsWorking pool.old }
    requires latch { (memo_of pool.old 0).latch ≡ Some 0 }
    requires room { 1 ≤ rooms pool.old }
    requires node { IsAtHand pool.old node }
    requires some { node ≢ 0 }
    ensures builds { Builds Off 0 (remnant_steps pool.old.start.geometry) result pool.old pool.new life.old.left life.new.left }
    ensures kept { IfOk result (λ o. IsKept 0 o pool.old pool.new) }
    ensures stands { IfOk result (λ o. StandsMoved (child_of pool.old node side) (block_of o) pool.old pool.new) }
    ensures rests { IfOk result (λ o. KeepsLives pool.old pool.new) }
{
    let tree = child(pool, node, side, life)?;
    shared(pool, tree, life)
}

/// The side of the lowest node of a removal on which its tree stays: on the left of a node that has nothing on its right; and on the right of the
/// node of the next greater key, which has nothing on its left.
fn staying(place: Place, lowest: Place) -> Side
    ensures { result ≡ (if lowest.depth == place.depth then Left else Right) }
{
    if lowest.depth == place.depth {
        Side::Left
    } else {
        Side::Right
    }
}

/// The next greater key and its number; none where nothing is on the right of the key's node.
fn next_of(
    pool: &mut Ground,
    place: Place,
    lowest: Place,
    life: &mut Life,
) -> Result<Option<Content>, Stop>
    requires working { IsWorking pool.old }
    requires node { IsAtHand pool.old lowest.node }
    requires some { lowest.node ≢ 0 }
    ensures looks { Looks result pool.old pool.new life.old.left life.new.left }
    ensures late { DiesAfter 4 result pool.old pool.new life.old.left }
    ensures steps { IfOk result (λ o. life.old.left ≤ life.new.left + 4) }
    ensures next { IfOk result (λ o. (t : ATree) → TreeStands pool.old lowest.node t → o ≡ (if lowest.depth == place.depth then None else Some (content_in t))) }
{
    if lowest.depth == place.depth {
        Ok(None)
    } else {
        let content = content_of(pool, lowest.node, life)?;
        Ok(Some(content))
    }
}

/// The next greater key at the level of the key's node, in whose place it comes to stand; none at any other.
fn lifted(depth: u32, place: Place, next: Option<Content>) -> Option<Content>
    ensures { result ≡ (if depth == place.depth then next else None) }
{
    if depth == place.depth { next } else { None }
}

/// Makes a tree as this one, without the key; none where it has no such key.
///
/// # Errors
///
/// As a call was refused: what roots named they name still, and it stands. Nodes that were made then may be in roots that were empty.
pub fn remove(
    pool: &mut Ground,
    hints: Hints,
    tree: u32,
    wanted: u32,
    life: &mut Life,
) -> Result<Option<Removed>, Stop>
    requires working { IsWorking pool.old }
    requires latch { (memo_of pool.old 0).latch ≡ Some 0 }
    requires room { 4 ≤ rooms pool.old }
    requires tree { IsRegistered pool.old tree }
    ensures builds { (t : ATree) → TreeStands pool.old tree t → Builds hints (3 * height t) (remove_steps (height t) pool.old.start.geometry) result pool.old pool.new life.old.left life.new.left }
    ensures removed { IfOk result (λ o. (t : ATree) → TreeStands pool.old tree t → IsRemoved wanted t o pool.old pool.new) }
    ensures steps { IfOk result (λ o. (t : ATree) → TreeStands pool.old tree t → (IsSpent (memo_of pool.new 0) → ⊥) → AreLivesTrees pool.old → life.old.left ≤ life.new.left + remove_steps (height t) pool.old.start.geometry + tear_steps pool.old.start.geometry.wide (3 * height t)) }
    ensures rests { IfOk result (λ o. KeepsLives pool.old pool.new) }
    ensures lives { IfOk result (λ o. (t : ATree) → TreeStands pool.old tree t → AreFewNew (3 * height t) pool.old pool.new) }
{
    let place = find(pool, tree, wanted, life)?;
    if place.node == 0 {
        return Ok(None);
    }
    let lowest = last(pool, place, life)?;
    let next = next_of(pool, place, lowest, life)?;
    let mut made = remnant(pool, lowest.node, staying(place, lowest), life)?;
    let mut depth = lowest.depth;
    'levels: while depth > 0 {
        depth -= 1;
        let node = above(pool, tree, wanted, depth, life)?;
        let told = lifted(depth, place, next);
        let over = raise(pool, hints, node, wanted, told, made, life)?;
        made = Some(over);
    }
    Ok(Some(Removed { tree: made }))
}
