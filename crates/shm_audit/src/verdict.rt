//! What an audit says of a pool.

/// What an audit says of a pool whose image has no fault.
#[derive(Clone, Copy, Debug, PartialEq, Eq, Drop)]
pub enum Verdict {
    /// Nobody is at work, and each live block's count is above 0 and is the number of references to it. There are `live` live blocks
    /// and `refs` references.
    Clean { live: u32, refs: u32 },
    /// A live block's header has the count `stored`, 1 to 1,023, and `found` reference words name the block.
    WrongCount { block: u32, stored: u16, found: u32 },
    /// A live block has the count 0.
    Uncounted { block: u32 },
    /// An identity is neither new nor gone.
    Pending { client: u8 },
}
