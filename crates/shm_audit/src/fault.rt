//! What may be at fault in an image.

use thiserror::Error;

/// Why bytes are no image of a pool.
#[derive(Clone, Copy, Debug, PartialEq, Eq, Drop, Error)]
pub enum ImageFault {
    /// There are fewer than 24 bytes; `len` is how many there are.
    #[error("refused short {len}")]
    Short { len: u64 },
    /// The first 8 bytes are neither `CXLSHM01` nor `CXLSHM02`; `seen` is the number that they are, the lowest byte first.
    #[error("refused magic {seen}")]
    Magic { seen: u64 },
    /// No pool of this format has so many clients and segments.
    #[error("refused geometry {clients} {segments}")]
    Geometry { clients: u64, segments: u64 },
    /// There are `len` bytes, and an image of this geometry has `want`.
    #[error("refused length {len} want {want}")]
    Length { len: u64, want: u64 },
    /// The word of a page is none of 0, 4, 8, 16 and 32.
    #[error("refused page {at} {word}")]
    BadPage { at: u32, word: u64 },
    /// A block's header isn't 0, and isn't live or is of a client that the pool doesn't have.
    #[error("refused header {at} {word}")]
    BadHeader { at: u32, word: u64 },
    /// A live block's tag is none, has more words than the block, or is by an author that the pool doesn't have.
    #[error("refused tag {at} {word}")]
    BadTag { at: u32, word: u64 },
    /// A reference word isn't 0 and names no live block with a count above 0.
    #[error("refused reference {at} {word}")]
    BadRef { at: u32, word: u64 },
}
