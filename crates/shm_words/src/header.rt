//! The header word of a block.

ghost use Rattle.std.specs.Prelude.{◌≡◌, ℕ, ◌<◌, ◌^◌};
ghost use Rattle.shm_words.specs.declared.header.Header.{Header as AHeader};
ghost use Rattle.shm_words.specs.Headers.{header_word, header_of, HeaderFits};

/// What the header word of a block says.
///
/// The word 0 is the header of a free block.
#[derive(Clone, Copy, Debug, PartialEq, Eq, Drop)]
pub struct Header {
    /// Whether the block is live (bit 63).
    pub live: bool,
    /// The client that wrote the header last, below 64 (bits 57 to 62).
    pub client: u8,
    /// The reference count, at most 1,023 (bits 47 to 56).
    pub count: u16,
    /// The era of that client when it wrote the header, below 2^47 (bits 0 to 46).
    pub era: u64,
}

impl Header {
    /// The word of this header.
    #[tactic(auto, unfolding(crate::specs::Headers::header_word))]
    pub fn pack(self) -> u64
        requires { HeaderFits self }
        ensures { result ≡ header_word self }
    {
        (u64::from(self.live) << 63)
            + (u64::from(self.client) << 57)
            + (u64::from(self.count) << 47)
            + self.era
    }

    /// What the word says; every word is one header.
    #[tactic(auto, unfolding(crate::specs::Headers::header_of))]
    pub fn unpack(word: u64) -> Header
        ensures is { result ≡ header_of word }
        ensures fits { HeaderFits result }
    {
        Header {
            live: word >> 63 == 1,
            client: (word >> 57 & 63) as u8,
            count: (word >> 47 & 1023) as u16,
            era: word & ((1 << 47) - 1),
        }
    }
}

/// Packing and unpacking a header are inverse.
#[tactic(auto, unfolding(crate::specs::Headers::header_word, crate::specs::Headers::header_of))]
pub fn header_laws()
    ensures unpacks { (h : AHeader) → HeaderFits h → header_of (header_word h) ≡ h }
    ensures packs { (w : ℕ) → w < 2 ^ 64 → header_word (header_of w) ≡ w }
    ensures fits { (w : ℕ) → w < 2 ^ 64 → HeaderFits (header_of w) }
{}
