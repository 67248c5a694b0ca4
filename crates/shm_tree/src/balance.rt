//! A node made of two trees whose heights may differ by 2, as a tree that is balanced again.

ghost use Rattle.std.specs.Prelude.{◌≡◌, ◌≢◌, ◌≤◌, Some, IfOk, IfSome};
ghost use Rattle.shm_plain.specs.Pools.{memo_of};
ghost use Rattle.shm_tree.specs.Bounds.{balanced_steps, crowned_steps, raise_steps, raised_steps, renewed_steps, rotated_steps, turned_steps};
ghost use Rattle.shm_tree.specs.Building.{Builds, IsAtHand, IsBuilt, IsCheap, IsHeld, IsRebuilt, StandsCrowned, StandsOf, StandsRaised, StandsTurned, StandsTurnedTwice, block_of, from_far, joined_by, rooms};
ghost use Rattle.shm_tree.specs.{Keeping.{HasNode, HasTree, child_of, other_side}, Living.KeepsLives};
ghost use Rattle.shm_tree.specs.Raising.{IsCheapAt, IsOverAt, StandsAgain, WeighsAgain, content_or};
ghost use Rattle.shm_tree.specs.Sharing.{IsOver, IsFresh, WeighsCrowned, WeighsFar, WeighsJoined, WeighsRaised, WeighsTurned, WeighsTurnedTwice};
ghost use Rattle.shm_tree.specs.Working.{IfAlive, IsReached, IsWorking};

use crate::calls::{child, drop_root, height};
use crate::ground::Ground;
use crate::hints::Hints;
use crate::node::{Content, Pair, Side, children, content_of, link};
use crate::stop::Stop;
use shm_count::Made;
use shm_graph::Life;

/// A node that is to be made: what it holds, and the trees on its sides.
#[derive(Clone, Copy, Debug, Drop)]
struct Plan {
    content: Content,
    trees: Pair,
}

/// Makes a node with the tree `far`, and with a node on this side that is made below it.
fn raised(
    pool: &mut Ground,
    hints: Hints,
    top: Content,
    side: Side,
    below: Plan,
    far: u32,
    life: &mut Life,
) -> Result<Made, Stop>
    requires working { IsWorking pool.old }
    requires latch { (memo_of pool.old 0).latch ≡ Some 0 }
    requires room { 2 ≤ rooms pool.old }
    requires near { IsAtHand pool.old below.trees.near }
    requires middle { IsAtHand pool.old below.trees.far }
    requires far { IsAtHand pool.old far }
    ensures builds { Builds hints 2 (raised_steps pool.old.start.geometry) result pool.old pool.new life.old.left life.new.left }
    ensures built { IfOk result (λ m. IsBuilt 2 m pool.old pool.new) }
    ensures stands { IfOk result (λ m. StandsRaised top side below far m.block pool.old pool.new) }
    ensures fresh { IfOk result (IsFresh pool.old) }
    ensures rests { IfOk result (λ m. KeepsLives pool.old pool.new) }
    ensures weighs { IfOk result (λ m. WeighsRaised top side below far m.block pool.old pool.new) }
{
    let lower = link(pool, hints, below.content, side, below.trees, life)?;
    let trees = Pair {
        near: lower.block,
        far,
    };
    let made = link(pool, hints, top, side, trees, life)?;
    drop_root(pool, lower.root, life)?;
    Ok(made)
}

/// Makes a node with a node on each side, which are made below it; the trees of the one on the other side are told as seen from there.
fn crowned(
    pool: &mut Ground,
    hints: Hints,
    top: Content,
    side: Side,
    near: Plan,
    far: Plan,
    life: &mut Life,
) -> Result<Made, Stop>
    requires working { IsWorking pool.old }
    requires latch { (memo_of pool.old 0).latch ≡ Some 0 }
    requires room { 3 ≤ rooms pool.old }
    requires near_near { IsAtHand pool.old near.trees.near }
    requires near_far { IsAtHand pool.old near.trees.far }
    requires far_near { IsAtHand pool.old far.trees.near }
    requires far_far { IsAtHand pool.old far.trees.far }
    ensures builds { Builds hints 3 (crowned_steps pool.old.start.geometry) result pool.old pool.new life.old.left life.new.left }
    ensures built { IfOk result (λ m. IsBuilt 3 m pool.old pool.new) }
    ensures stands { IfOk result (λ m. StandsCrowned top side near far m.block pool.old pool.new) }
    ensures fresh { IfOk result (IsFresh pool.old) }
    ensures rests { IfOk result (λ m. KeepsLives pool.old pool.new) }
    ensures weighs { IfOk result (λ m. WeighsCrowned top side near far m.block pool.old pool.new) }
{
    let lower = link(pool, hints, near.content, side, near.trees, life)?;
    let made = raised(pool, hints, top, side.other(), far, lower.block, life)?;
    drop_root(pool, lower.root, life)?;
    Ok(made)
}

/// The tree on the far side is too high: its tree on the far side moves up. `grand` are its trees.
fn single(
    pool: &mut Ground,
    hints: Hints,
    middle: Content,
    side: Side,
    trees: Pair,
    grand: Pair,
    life: &mut Life,
) -> Result<Made, Stop>
    requires working { IsWorking pool.old }
    requires latch { (memo_of pool.old 0).latch ≡ Some 0 }
    requires room { 2 ≤ rooms pool.old }
    requires near { IsAtHand pool.old trees.near }
    requires far { IsAtHand pool.old trees.far }
    requires some { trees.far ≢ 0 }
    requires grand_near { IsAtHand pool.old grand.near }
    requires grand_far { IsAtHand pool.old grand.far }
    requires near_is { grand.near ≡ child_of pool.old trees.far side }
    requires far_is { grand.far ≡ child_of pool.old trees.far (other_side side) }
    ensures builds { Builds hints 2 (turned_steps pool.old.start.geometry) result pool.old pool.new life.old.left life.new.left }
    ensures built { IfOk result (λ m. IsBuilt 2 m pool.old pool.new) }
    ensures stands { IfOk result (λ m. StandsTurned middle side trees m.block pool.old pool.new) }
    ensures fresh { IfOk result (IsFresh pool.old) }
    ensures rests { IfOk result (λ m. KeepsLives pool.old pool.new) }
    ensures weighs { IfOk result (λ m. WeighsTurned middle side trees m.block pool.old pool.new) }
{
    let top = content_of(pool, trees.far, life)?;
    let below = Plan {
        content: middle,
        trees: Pair {
            near: trees.near,
            far: grand.near,
        },
    };
    raised(pool, hints, top, side, below, grand.far, life)
}

/// The tree on the far side is too high, and in it its tree on this side: the node of that one moves up by two.
fn double(
    pool: &mut Ground,
    hints: Hints,
    middle: Content,
    side: Side,
    trees: Pair,
    grand: Pair,
    life: &mut Life,
) -> Result<Made, Stop>
    requires working { IsWorking pool.old }
    requires latch { (memo_of pool.old 0).latch ≡ Some 0 }
    requires room { 3 ≤ rooms pool.old }
    requires near { IsAtHand pool.old trees.near }
    requires far { IsAtHand pool.old trees.far }
    requires some { trees.far ≢ 0 }
    requires grand_near { IsAtHand pool.old grand.near }
    requires grand_some { grand.near ≢ 0 }
    requires grand_far { IsAtHand pool.old grand.far }
    requires near_is { grand.near ≡ child_of pool.old trees.far side }
    requires far_is { grand.far ≡ child_of pool.old trees.far (other_side side) }
    ensures builds { Builds hints 3 (turned_steps pool.old.start.geometry) result pool.old pool.new life.old.left life.new.left }
    ensures built { IfOk result (λ m. IsBuilt 3 m pool.old pool.new) }
    ensures stands { IfOk result (λ m. StandsTurnedTwice middle side trees m.block pool.old pool.new) }
    ensures fresh { IfOk result (IsFresh pool.old) }
    ensures rests { IfOk result (λ m. KeepsLives pool.old pool.new) }
    ensures weighs { IfOk result (λ m. WeighsTurnedTwice middle side trees m.block pool.old pool.new) }
{
    let top = content_of(pool, grand.near, life)?;
    let parts = children(pool, grand.near, side, life)?;
    let outer = content_of(pool, trees.far, life)?;
    let near = Plan {
        content: middle,
        trees: Pair {
            near: trees.near,
            far: parts.near,
        },
    };
    let far = Plan {
        content: outer,
        trees: Pair {
            near: grand.far,
            far: parts.far,
        },
    };
    crowned(pool, hints, top, side, near, far, life)
}

/// The tree on the far side is higher by 2.
fn rotated(
    pool: &mut Ground,
    hints: Hints,
    middle: Content,
    side: Side,
    trees: Pair,
    life: &mut Life,
) -> Result<Made, Stop>
    requires working { IsWorking pool.old }
    requires latch { (memo_of pool.old 0).latch ≡ Some 0 }
    requires room { 3 ≤ rooms pool.old }
    requires near { IsAtHand pool.old trees.near }
    requires far { IsAtHand pool.old trees.far }
    requires some { trees.far ≢ 0 }
    ensures builds { Builds hints 3 (rotated_steps pool.old.start.geometry) result pool.old pool.new life.old.left life.new.left }
    ensures built { IfOk result (λ m. IsBuilt 3 m pool.old pool.new) }
    ensures stands { IfOk result (λ m. StandsOf (from_far side middle) trees m.block pool.old pool.new) }
    ensures fresh { IfOk result (IsFresh pool.old) }
    ensures rests { IfOk result (λ m. KeepsLives pool.old pool.new) }
    ensures weighs { IfOk result (λ m. WeighsFar middle side trees m.block pool.old pool.new) }
{
    let grand = children(pool, trees.far, side, life)?;
    let near = height(pool, grand.near, life)?;
    let far = height(pool, grand.far, life)?;
    if near > far {
        double(pool, hints, middle, side, trees, grand, life)
    } else {
        single(pool, hints, middle, side, trees, grand, life)
    }
}

/// Makes a tree of a key, its number and two trees, `near` on this side, whose heights may differ by 2.
fn balanced(
    pool: &mut Ground,
    hints: Hints,
    middle: Content,
    side: Side,
    trees: Pair,
    life: &mut Life,
) -> Result<Made, Stop>
    requires working { IsWorking pool.old }
    requires latch { (memo_of pool.old 0).latch ≡ Some 0 }
    requires room { 3 ≤ rooms pool.old }
    requires near { IsAtHand pool.old trees.near }
    requires far { IsAtHand pool.old trees.far }
    ensures builds { Builds hints 3 (balanced_steps pool.old.start.geometry) result pool.old pool.new life.old.left life.new.left }
    ensures built { IfOk result (λ m. IsBuilt 3 m pool.old pool.new) }
    ensures stands { IfOk result (λ m. StandsOf (joined_by side middle) trees m.block pool.old pool.new) }
    ensures cheap { IfAlive result (IsCheap trees pool.old pool.new) }
    ensures fresh { IfOk result (IsFresh pool.old) }
    ensures rests { IfOk result (λ m. KeepsLives pool.old pool.new) }
    ensures weighs { IfOk result (λ m. WeighsJoined middle side trees m.block pool.old pool.new) }
    ensures top { IfOk result (λ m. IsOver trees side m.block pool.old pool.new) }
{
    let near = height(pool, trees.near, life)?;
    let far = height(pool, trees.far, life)?;
    if far.saturating_sub(near) > 1 {
        rotated(pool, hints, middle, side, trees, life)
    } else if near.saturating_sub(far) > 1 {
        let turned = Pair {
            near: trees.far,
            far: trees.near,
        };
        rotated(pool, hints, middle, side.other(), turned, life)
    } else {
        link(pool, hints, middle, side, trees, life)
    }
}

/// The block of a tree, or 0.
fn block_of(tree: Option<Made>) -> u32
    ensures { result ≡ block_of tree }
{
    match tree {
        None => 0,
        Some(tree) => tree.block,
    }
}

/// Makes a tree as that of a node, with another key and number, and with another tree on this side, whose root is dropped.
fn renewed(
    pool: &mut Ground,
    hints: Hints,
    node: u32,
    middle: Content,
    side: Side,
    tree: Option<Made>,
    life: &mut Life,
) -> Result<Made, Stop>
    requires working { IsWorking pool.old }
    requires latch { (memo_of pool.old 0).latch ≡ Some 0 }
    requires room { 3 ≤ rooms pool.old }
    requires node { HasNode pool.old node }
    requires far { HasTree pool.old (child_of pool.old node (other_side side)) }
    requires reached { IsReached pool.old node }
    requires tree { IfSome tree (IsHeld pool.old) }
    ensures builds { Builds hints 3 (renewed_steps pool.old.start.geometry) result pool.old pool.new life.old.left life.new.left }
    ensures rebuilt { IfOk result (λ m. IsRebuilt 3 tree m pool.old pool.new) }
    ensures stands { IfOk result (λ m. StandsOf (joined_by side middle) (record { near = block_of tree; far = child_of pool.old node (other_side side) }) m.block pool.old pool.new) }
    ensures cheap { IfAlive result (IsCheap (record { near = block_of tree; far = child_of pool.old node (other_side side) }) pool.old pool.new) }
    ensures fresh { IfOk result (IsFresh pool.old) }
    ensures rests { IfOk result (λ m. KeepsLives pool.old pool.new) }
    ensures weighs { IfOk result (λ m. WeighsJoined middle side (record { near = block_of tree; far = child_of pool.old node (other_side side) }) m.block pool.old pool.new) }
    ensures top { IfOk result (λ m. IsOver (record { near = block_of tree; far = child_of pool.old node (other_side side) }) side m.block pool.old pool.new) }
{
    let far = child(pool, node, side.other(), life)?;
    let trees = Pair {
        near: block_of(tree),
        far,
    };
    let made = balanced(pool, hints, middle, side, trees, life)?;
    match tree {
        None => Ok(made),
        Some(tree) => {
            drop_root(pool, tree.root, life)?;
            Ok(made)
        }
    }
}

/// What is told, or this.
fn content_or(told: Option<Content>, own: Content) -> Content
    ensures { result ≡ content_or told own }
{
    match told {
        None => own,
        Some(content) => content,
    }
}

/// The tree of a node, with another key and number where they are told, and with another tree on the side of a key, whose root is dropped.
///
/// # Errors
///
/// As a call was refused: what roots named they name still, and it stands. A node that was made then may be in a root that was empty.
pub fn raise(
    pool: &mut Ground,
    hints: Hints,
    node: u32,
    wanted: u32,
    told: Option<Content>,
    below: Option<Made>,
    life: &mut Life,
) -> Result<Made, Stop>
    requires working { IsWorking pool.old }
    requires latch { (memo_of pool.old 0).latch ≡ Some 0 }
    requires room { 3 ≤ rooms pool.old }
    requires node { IsAtHand pool.old node }
    requires some { node ≢ 0 }
    requires below { IfSome below (IsHeld pool.old) }
    ensures builds { Builds hints 3 (raise_steps pool.old.start.geometry) result pool.old pool.new life.old.left life.new.left }
    ensures rebuilt { IfOk result (λ m. IsRebuilt 3 below m pool.old pool.new) }
    ensures stands { IfOk result (λ m. StandsAgain wanted told node (block_of below) m.block pool.old pool.new) }
    ensures cheap { IfAlive result (IsCheapAt wanted node (block_of below) pool.old pool.new) }
    ensures fresh { IfOk result (IsFresh pool.old) }
    ensures rests { IfOk result (λ m. KeepsLives pool.old pool.new) }
    ensures weighs { IfOk result (λ m. WeighsAgain wanted told node (block_of below) m.block pool.old pool.new) }
    ensures top { IfOk result (λ m. IsOverAt wanted node (block_of below) m.block pool.old pool.new) }
{
    let own = content_of(pool, node, life)?;
    let side = Side::of(wanted, own.key);
    renewed(pool, hints, node, content_or(told, own), side, below, life)
}
