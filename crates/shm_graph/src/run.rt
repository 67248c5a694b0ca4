//! Runs of a pool: what a pool accounts for of each identity, and the turns. No value of these types is made, `Start` apart.

use crate::memo::{Kind, Memo, Seen, Step};
use shm_words::Geometry;
use std::collections::LinkedList;

/// What a pool is made of.
#[derive(Clone, Copy, Debug, PartialEq, Eq, Drop)]
pub struct Start {
    pub geometry: Geometry,
    /// The era that each identity begins with, 1 to 2^47 - 2.
    pub first_era: u64,
    /// Whether the pool is made for tables, or for single calls.
    pub tables: bool,
}

/// A line, the trail of its machine, and whether that machine was finished.
pub struct LoggedLine {
    pub line: LinkedList<u8>,
    pub trail: LinkedList<Seen>,
    pub finished: bool,
}

/// What a pool accounts for of an identity.
pub struct Account {
    pub who: u8,
    pub memo: Memo,
    pub told: LinkedList<LoggedLine>,
    /// For each agent the lines of the machines that it began.
    pub begun: LinkedList<LinkedList<LinkedList<u8>>>,
    /// The line of the machine that is running.
    pub running: LinkedList<u8>,
    /// The turns of the identity, the first one first.
    pub turns: LinkedList<Move>,
}

/// A turn of a run.
pub enum Move {
    /// A word step.
    Word(Step),
    /// The death of an identity's acting agent.
    Dies(u8),
    /// The beginning of an identity's next agent.
    Begins { who: u8, kind: Kind },
}
