//! Lines with their numbers in range.

use crate::line::{Item, Line};

/// What the last line was.
#[derive(Clone, Copy, Drop)]
pub enum TracePlace {
    /// There was none.
    Start,
    Pool,
    Order,
    Client,
    /// A life line or a command.
    Body,
}

/// A line with its numbers in range. That of a pool tells first whether it is of format 2.
#[derive(Drop)]
pub enum FitLine {
    Pool(bool, u8, u16),
    Order(Vec<Item>),
    Client(u8),
    Life(Vec<u64>),
    Command(Line),
}
