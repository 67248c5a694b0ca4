//! Why a call was refused.

use thiserror::Error;

/// A number that has a range.
#[derive(Clone, Copy, Debug, PartialEq, Eq, Drop, Error)]
pub enum Bound {
    /// The number of clients of a pool.
    #[error("a pool has 1 to 16 clients")]
    Clients,
    /// The number of segments of a pool of format 1.
    #[error("a pool of format 1 has 1 to 256 segments")]
    Segments,
    /// The number of segments of a pool of format 2.
    #[error("a pool of format 2 has 1 to 8,000 segments")]
    WideSegments,
    /// The number of a root of a client.
    #[error("the roots of a client are numbered 0 to 15")]
    Root,
    /// The number of a reference word of a block.
    #[error("the reference words of a block are numbered 0 to 15")]
    Reference,
    /// The number of a plain word of a block.
    #[error("the plain words of a block are numbered 0 to 7")]
    Plain,
    /// How many reference words a block has.
    #[error("a block has at most 16 reference words")]
    References,
    /// How many plain words a block has.
    #[error("a block has at most 8 plain words")]
    Plains,
}

/// Why a call was refused, and the number that it was refused for.
#[derive(Clone, Copy, Debug, PartialEq, Eq, Drop, Error)]
pub enum Error {
    /// A number is out of its range.
    #[error("{found} is out of range: {bound}")]
    OutOfRange { found: u64, bound: Bound },
    /// The pool has no such client.
    #[error("there is no client {client}: the pool has {clients}, and the first one is 0")]
    NoSuchClient { client: u8, clients: u8 },
    /// A client can't send to itself, or receive from itself.
    #[error("client {client} can't send to itself or receive from itself")]
    ToItself { client: u8 },
    /// The pool was made for tables and not for blocks, or the other way round.
    #[error("the pool wasn't made for this call: pools are for tables or for blocks")]
    WrongKind,
    /// The root names no block.
    #[error("root {root} of the client is empty")]
    EmptyRoot { root: u8 },
    /// The block has no such word: so many of its kind it has.
    #[error("the block has no word {word}: it has {words} of them, and the first one is 0")]
    NoSuchWord { word: u8, words: u8 },
    /// Only the client that made a block sets its reference words.
    #[error("only client {author}, which made the block, sets its reference words")]
    NotAuthor { author: u8 },
    /// The block was made by another client than the one that was named.
    #[error("client {author} didn't make the block")]
    WrongAuthor { author: u8 },
    /// Each segment is another client's or has no room: so many segments are others', and of so many blocks none was free.
    #[error("the pool is full: {segments} segments are other clients', and of {blocks} blocks none is free")]
    Full { segments: u16, blocks: u32 },
    /// The value has as many references as a block can have.
    #[error("block {block} has {count} references, and can't have more")]
    CountFull { block: u32, count: u16 },
    /// Eight values wait in the queue to that client.
    #[error("the queue to client {to} is full")]
    QueueFull { to: u8 },
    /// Each of the client's 16 roots names a block.
    #[error("all 16 roots of the client name blocks")]
    RootsFull,
    /// The identity is used up: its count of steps is near 2^47.
    #[error("the identity is used up: its era is {era}")]
    EraSpent { era: u64 },
    /// The client's budget of word steps was used up, in this call or before. `done` says whether this call has done all that it was asked for.
    #[error("the client has died; what was asked for is done: {done}")]
    Died { done: bool },
    /// The identity is somebody's, or its client has died and isn't recovered.
    #[error("identity {client} isn't vacant")]
    NotVacant { client: u8 },
    /// The identity has no client that has died.
    #[error("identity {client} has no corpse")]
    NoCorpse { client: u8 },
    /// There was no memory.
    #[error("out of memory")]
    NoMemory,
}
