//! Commands of a client, and items of an order.

/// A command. `author`, `to` and `from` are client numbers.
#[derive(Clone, Copy, Debug, PartialEq, Eq, Drop)]
pub enum Line {
    /// The key gets a new value, the number.
    Put { key: u32, number: u64 },
    /// The key is removed.
    Del { key: u32 },
    /// The number at the author's key.
    Get { author: u8, key: u32 },
    /// The key gets the value at the author's key `other`.
    Copy { key: u32, author: u8, other: u32 },
    /// The value at the key goes into the queue to a client.
    Send { to: u8, key: u32 },
    /// The key gets the next value of the queue from a client.
    Recv { from: u8, key: u32 },
}

/// Turns that an order gives to a client; 0 turns stand for an item with no number of turns.
#[derive(Clone, Copy, Debug, PartialEq, Eq, Drop)]
pub struct Item {
    pub client: u8,
    pub turns: u32,
}
