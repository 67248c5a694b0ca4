//! Answers of commands, and logs.

use crate::line::Line;
use std::marker::Model;

/// What a command answered.
#[derive(Clone, Copy, Debug, PartialEq, Eq, Drop)]
pub enum Answer {
    Ok,
    Stored { block: u32 },
    Value { number: u64, block: u32 },
    Missing,
    Full { segments: u16, blocks: u32 },
    CountFull { block: u32, count: u16 },
    QueueFull { head: u64, tail: u64 },
    Empty { at: u64 },
    RootsFull,
    EraSpent { era: u64 },
}

/// A command and its answer.
#[derive(Clone, Copy, Debug, PartialEq, Eq, Drop)]
pub struct Entry {
    pub line: Line,
    pub answer: Answer,
}

/// How a client ended.
#[derive(Clone, Copy, Debug, PartialEq, Eq, Drop)]
pub enum End {
    /// It left.
    Ended,
    /// It died with this many commands finished; `done` says whether the one that it was at had its effect.
    Died { finished: u32, done: bool },
}

/// The commands of a client with their answers, in order.
#[derive(Debug, Drop)]
pub struct Log {
    pub client: u8,
    pub entries: Vec<Entry>,
    pub end: End,
}

impl Model for Log {
    ghost use Rattle.shm_script.specs.Logged.{Logged};

    ghost Value = { Logged };

    ghost view = { λ l. record { client = l.client; entries = l.entries.items; end = l.end } };
}
