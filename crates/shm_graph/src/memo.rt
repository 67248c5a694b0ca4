//! What contracts see of an identity. No value of these types is made.

use crate::ask::{Ask, Me};
use crate::spot::Spot;
use crate::table::Part;
use std::collections::LinkedList;

/// The status of an identity.
pub enum Status {
    /// Nobody has joined yet.
    New,
    /// A client has joined.
    Live,
    /// A recoverer has begun.
    Dead,
    /// The identity has left or was recovered.
    Gone,
}

/// How far a count step has come that changes one reference.
pub enum First {
    /// The redo record is stored, in format 2 both words of it.
    Begun,
    /// The header was exchanged.
    Committed,
    /// The slot is stored.
    Written,
}

/// How far the second half of a change has come.
pub enum Second {
    /// The own era of the second half has begun.
    Open,
    /// The header was exchanged.
    Closed,
}

/// The halves of a change: it raises the block after, and then lowers the block before.
pub enum ChangeStage {
    Raising { stage: First },
    Lowering { stage: Second },
}

/// A count step in progress; `era` is that of its current half.
pub enum Op {
    Nothing,
    /// A free block becomes live in a root.
    Alloc {
        stage: First,
        slot: Spot,
        block: u32,
        era: u64,
    },
    /// A block gets a reference from an empty slot.
    Up {
        stage: First,
        slot: Spot,
        block: u32,
        era: u64,
    },
    /// A block loses the reference from a slot.
    Down {
        stage: First,
        slot: Spot,
        block: u32,
        era: u64,
    },
    /// A slot changes from one block to another.
    Change {
        half: ChangeStage,
        slot: Spot,
        before: u32,
        after: u32,
        era: u64,
    },
}

/// A word, and what was stored into it or read from it last.
pub struct Stored {
    pub spot: Spot,
    pub value: u64,
}

/// A block that was read under a latch, and the word that it was read from.
pub struct Look {
    pub block: u32,
    pub from: Spot,
}

/// A free block that is being prepared: the class of its page and the words stored into it.
pub struct Making {
    pub block: u32,
    pub class: u64,
    pub words: LinkedList<Stored>,
}

/// What a call has read of words that only grow or stay.
pub enum Fact {
    /// A header, by a load or a failed exchange.
    Header { word: u64 },
    /// An era of a row, a tail or a head.
    Counter { spot: Spot, word: u64 },
    /// The class of a page, not 0.
    Class { g: u16, p: u8, class: u64 },
}

/// The commit test that a recoverer's call ends in: the header of the block didn't show its step, and the rows before `next` didn't.
pub struct Test {
    pub block: u32,
    pub next: u8,
}

/// A word step, and the word that it found; for a store 0.
pub struct Seen {
    pub ask: Ask,
    pub word: u64,
}

/// Who acts for an identity.
pub enum Kind {
    Client,
    Recoverer,
}

/// What became of an agent.
pub enum Fate {
    Acts,
    Ended,
    Died,
}

/// An agent of an identity and how many word steps it has made.
pub struct Agent {
    pub kind: Kind,
    pub steps: u64,
    pub fate: Fate,
}

/// The memo of an identity: plain data that only its own agents' word steps, deaths and beginnings change.
pub struct Memo {
    pub status: Status,
    /// The own words, the newest store first.
    pub own: LinkedList<Stored>,
    pub op: Op,
    /// The author whose latch the identity holds.
    pub latch: Option<u8>,
    /// The blocks that were read under that latch, in order.
    pub looks: LinkedList<Look>,
    pub making: Option<Making>,
    /// The segments that are the identity's.
    pub owned: LinkedList<u16>,
    /// The zero-count blocks that are the identity's.
    pub dying: LinkedList<u32>,
    /// The blocks sent to each identity, and received from each.
    pub sent: LinkedList<LinkedList<u32>>,
    pub received: LinkedList<LinkedList<u32>>,
    /// For each identity the block in the slot at the tail whose tail isn't stored, and that taken from the head whose head isn't stored; or 0.
    pub unsent: LinkedList<u32>,
    pub untaken: LinkedList<u32>,
    pub part: Part,
    /// In a pool made for tables: value blocks that were read and are in reach, and blocks that the call made and whose count is still 1.
    pub values: LinkedList<u32>,
    pub made: LinkedList<u32>,
    /// What the machine that runs or ran last has asked, and whether it is finished.
    pub call: LinkedList<Seen>,
    pub over: bool,
    /// What of the call still binds.
    pub facts: LinkedList<Fact>,
    pub zeros: LinkedList<Spot>,
    pub test: Option<Test>,
    /// Words of blocks and head slots that are known.
    pub known: LinkedList<Stored>,
    pub agents: LinkedList<Agent>,
}

/// A word step of an identity, with what its machine shows: its line, whether it is the machine's first, and whether it ends the machine.
pub struct Step {
    pub me: Me,
    pub line: LinkedList<u8>,
    pub fresh: bool,
    pub ends: bool,
    pub ask: Ask,
    pub seen: u64,
}
