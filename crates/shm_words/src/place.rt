//! What a word of a pool is for.

/// What the word at an address is for.
#[derive(Clone, Copy, Debug, PartialEq, Eq, Drop)]
pub enum Place {
    /// The word at address 0, always 0.
    Spare,
    /// The status of an identity.
    Status { c: u8 },
    /// The redo record of an identity, in format 2 its first word.
    Redo { c: u8 },
    /// The second word of the redo record of an identity, in format 2.
    RedoMore { c: u8 },
    /// Which latch an identity wants or holds.
    Hold { c: u8 },
    /// Who holds the latch of an identity.
    Latch { c: u8 },
    /// The home word of an identity.
    Home { c: u8 },
    /// The greatest era of `j` that `i` has seen in a header; for `i` equal to `j` the era of `i`.
    Era { i: u8, j: u8 },
    /// A root of an identity, `k` below 16.
    Root { c: u8, k: u8 },
    /// How many items the queue from `s` to `r` was ever given.
    Tail { s: u8, r: u8 },
    /// How many items were ever taken from the queue from `s` to `r`.
    Head { s: u8, r: u8 },
    /// A slot of the queue from `s` to `r`, `k` below 8.
    Slot { s: u8, r: u8, k: u8 },
    /// The owner of a segment.
    Segment { g: u16 },
    /// The class of a page, `p` below 16.
    Page { g: u16, p: u8 },
    /// A word of a page's body, `k` below 128.
    Body { g: u16, p: u8, k: u8 },
}
