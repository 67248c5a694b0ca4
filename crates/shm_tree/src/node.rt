//! Nodes: what they hold, and how one is made of two trees.

ghost use Rattle.std.specs.Prelude.{◌≡◌, ◌+◌, ◌<◌, Some, if◌then◌else◌, nat_lt, IfOk};
ghost use Rattle.shm_graph.specs.declared.spot.Spot.TheVariants.{Body};
ghost use Rattle.shm_plain.specs.Pools.{memo_of};
ghost use Rattle.shm_tree.specs.{declared.node.Side.TheVariants.{Left, Right}, Bounds.link_steps, Changing.Changes};
ghost use Rattle.shm_tree.specs.Keeping.{HasGrown, HasNode, HasTree, IsLinked, child_of, other_side, side_word};
ghost use Rattle.shm_tree.specs.{Looking.Looks, Spending.DiesAfter, Standing.word_of, Working.{HasRoom, IsReached, IsWorking}};

use crate::calls::{child, height, key, make, number, refer};
use crate::ground::Ground;
use crate::hints::Hints;
use crate::stop::Stop;
use shm_count::Made;
use shm_graph::Life;

/// A side of a node.
#[derive(Clone, Copy, Debug, PartialEq, Eq, Drop)]
pub enum Side {
    Left,
    Right,
}

impl Side {
    /// The reference word of a node that names the child on this side.
    pub fn word(self) -> u8
        ensures { result ≡ side_word self }
    {
        match self {
            Side::Left => 0,
            Side::Right => 1,
        }
    }

    /// The other side.
    pub fn other(self) -> Side
        ensures { result ≡ other_side self }
    {
        match self {
            Side::Left => Side::Right,
            Side::Right => Side::Left,
        }
    }

    /// The side of a node on which a key stands that isn't its own: that of the smaller keys, or of the greater ones.
    pub fn of(wanted: u32, key: u64) -> Side
        ensures { result ≡ (if nat_lt wanted key then Left else Right) }
    {
        if u64::from(wanted) < key {
            Side::Left
        } else {
            Side::Right
        }
    }
}

/// A key and its number.
#[derive(Clone, Copy, Debug, Drop)]
pub struct Content {
    pub key: u64,
    pub number: u64,
}

/// Two trees on the two sides of a node: one on a side that is told, and one on the other side.
#[derive(Clone, Copy, Debug, Drop)]
pub struct Pair {
    pub near: u32,
    pub far: u32,
}

/// The key and the number of a node.
pub fn content_of(pool: &mut Ground, node: u32, life: &mut Life) -> Result<Content, Stop>
    requires working { IsWorking pool.old }
    requires node { HasNode pool.old node }
    requires reached { IsReached pool.old node }
    ensures looks { Looks result pool.old pool.new life.old.left life.new.left }
    ensures late { DiesAfter 4 result pool.old pool.new life.old.left }
    ensures key { IfOk result (λ c. c.key ≡ word_of pool.old (Body node 2)) }
    ensures number { IfOk result (λ c. c.number ≡ word_of pool.old (Body node 3)) }
    ensures steps { IfOk result (λ c. life.old.left ≡ life.new.left + 4) }
{
    let key = key(pool, node, life)?;
    let number = number(pool, node, life)?;
    Ok(Content { key, number })
}

/// The children of a node, the one on this side first.
pub fn children(pool: &mut Ground, node: u32, side: Side, life: &mut Life) -> Result<Pair, Stop>
    requires working { IsWorking pool.old }
    requires latch { (memo_of pool.old 0).latch ≡ Some 0 }
    requires node { HasNode pool.old node }
    requires reached { IsReached pool.old node }
    ensures looks { Looks result pool.old pool.new life.old.left life.new.left }
    ensures late { DiesAfter 6 result pool.old pool.new life.old.left }
    ensures near { IfOk result (λ t. t.near ≡ child_of pool.old node side) }
    ensures far { IfOk result (λ t. t.far ≡ child_of pool.old node (other_side side)) }
    ensures steps { IfOk result (λ t. life.old.left ≡ life.new.left + 6) }
    ensures near_reached { IfOk result (λ t. IsReached pool.new t.near) }
    ensures far_reached { IfOk result (λ t. IsReached pool.new t.far) }
{
    let near = child(pool, node, side, life)?;
    let far = child(pool, node, side.other(), life)?;
    Ok(Pair { near, far })
}

/// Makes a node of two trees, `near` on this side, in an empty root.
///
/// # Errors
///
/// `Full`, `CountFull` or `EraSpent` as a call was refused. A node that was made then is in a root that was empty.
pub fn link(
    pool: &mut Ground,
    hints: Hints,
    content: Content,
    side: Side,
    trees: Pair,
    life: &mut Life,
) -> Result<Made, Stop>
    requires working { IsWorking pool.old }
    requires latch { (memo_of pool.old 0).latch ≡ Some 0 }
    requires room { HasRoom pool.old }
    requires near { HasTree pool.old trees.near }
    requires near_reached { IsReached pool.old trees.near }
    requires far { HasTree pool.old trees.far }
    requires far_reached { IsReached pool.old trees.far }
    ensures changes { Changes hints (link_steps pool.old.start.geometry) (HasGrown 1) result pool.old pool.new life.old.left life.new.left }
    ensures linked { IfOk result (λ m. IsLinked content side trees m pool.old pool.new) }
{
    let near = height(pool, trees.near, life)?;
    let far = height(pool, trees.far, life)?;
    let high = 1 + near.max(far);
    let made = make(pool, hints, content, high, life)?;
    refer(pool, made.block, side, trees.near, life)?;
    refer(pool, made.block, side.other(), trees.far, life)?;
    Ok(made)
}
