//! A partition of the table as a memo holds it. No value of these types is made.

use std::collections::LinkedList;

/// An entry: its key and number, its own block and its value block.
pub struct Entry {
    pub key: u32,
    pub number: u64,
    pub block: u32,
    pub value: u32,
}

/// The partition of an identity, where the pool is made for tables.
pub enum Part {
    /// The pool is made for single calls.
    Loose,
    /// The chains, by bucket.
    Table {
        chains: LinkedList<LinkedList<Entry>>,
    },
}
