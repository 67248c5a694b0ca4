//! The places of a pool once its pages have their classes.

/// What a word is for, once the pages have their classes; a block is named by the address of its header.
#[derive(Clone, Copy, Drop)]
pub enum Spot {
    /// The word at address 0.
    Spare,
    /// The status of an identity.
    Status { c: u8 },
    /// The redo record of an identity, in format 2 its first word.
    Redo { c: u8 },
    /// The second word of the redo record of an identity, in format 2.
    RedoMore { c: u8 },
    /// Which latch an identity wants or holds.
    Hold { c: u8 },
    /// Who holds the latch of an identity.
    Latch { c: u8 },
    /// The home word of an identity.
    Home { c: u8 },
    /// The greatest era of `j` that `i` has seen.
    Era { i: u8, j: u8 },
    /// A root of an identity.
    Root { c: u8, k: u8 },
    /// The tail of the queue from `s` to `r`.
    Tail { s: u8, r: u8 },
    /// The head of the queue from `s` to `r`.
    QueueHead { s: u8, r: u8 },
    /// A slot of the queue from `s` to `r`.
    Slot { s: u8, r: u8, k: u8 },
    /// The owner of a segment.
    Segment { g: u16 },
    /// The class of a page.
    Page { g: u16, p: u8 },
    /// The word at an address in a page that has no class.
    Unused { a: u32 },
    /// The header of a block.
    Head { b: u32 },
    /// The tag of a block.
    Tag { b: u32 },
    /// The word `i` after the tag of a block.
    Body { b: u32, i: u8 },
}
