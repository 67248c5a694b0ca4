//! What a script leaves.

use shm_plain::PlainClosed;
use shm_tree::TreeAnswer;

/// How much a forest holds.
#[derive(Clone, Copy, Drop)]
pub struct Holding {
    /// How many keys the version of each register has.
    pub sizes: [u32; 12],
    /// How many blocks are live.
    pub nodes: u32,
}

/// What a script left.
#[derive(Drop)]
pub struct Treed {
    /// The pool of its forest, closed.
    pub closed: PlainClosed,
    /// What the lines that were finished were answered by, in their order.
    pub answers: Vec<TreeAnswer>,
    /// What the forest held behind the last line; none where a line wasn't finished.
    pub holding: Option<Holding>,
}
