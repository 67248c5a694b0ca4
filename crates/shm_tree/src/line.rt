//! Lines for a forest, and what they are answered by.

use std::marker::Model;

/// A line. `to`, `from` and `at` are registers, 0 to 11.
#[derive(Clone, Copy, Debug, PartialEq, Eq, Drop)]
pub enum TreeLine {
    /// `to` gets the version of `from` with the number at the key.
    Set {
        to: u8,
        from: u8,
        key: u32,
        number: u64,
    },
    /// `to` gets the version of `from` without the key.
    Del {
        to: u8,
        from: u8,
        key: u32,
    },
    /// The number at the key of the version of `at`.
    Get {
        at: u8,
        key: u32,
    },
    /// `to` gets the version of `from`.
    Copy {
        to: u8,
        from: u8,
    },
    /// The version of `at` is the empty map.
    Clear {
        at: u8,
    },
}

/// What a line is answered by.
#[derive(Clone, Copy, Debug, PartialEq, Eq, Drop)]
pub enum TreeAnswer {
    /// It is done.
    Ok,
    /// The number at the key.
    Value { number: u64 },
    /// The version has no such key.
    Missing,
    /// No block was free for a node: of so many segments that are another's, and so many headers that were read.
    Full { segments: u16, blocks: u32 },
    /// The block has this many references, the most that a block may have.
    CountFull { block: u32, count: u16 },
    /// The own era leaves no room for a count step.
    EraSpent { era: u64 },
}

/// What came of a line.
#[derive(Clone, Copy, Debug, PartialEq, Eq, Drop)]
pub enum TreeTurn {
    Done(TreeAnswer),
    /// No word step was left.
    Died,
}

/// A forest's lines, with how many segments its pool has, and how many word steps all lines may make where that is told.
#[derive(Debug, Drop)]
pub struct TreeScript {
    pub segments: u16,
    pub life: Option<u64>,
    pub lines: Vec<TreeLine>,
}

impl Model for TreeScript {
    ghost use Rattle.shm_tree.specs.Scripts.{TreeScripted};

    ghost Value = { TreeScripted };

    ghost view = { λ t. record { segments = t.segments; life = t.life; lines = t.lines.items } };
}
