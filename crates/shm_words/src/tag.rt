//! The tag word of a block.

ghost use Rattle.std.specs.Prelude.{◌≡◌, ◌≢◌, ℕ, ◌<◌, ◌^◌, Bool, true, false};
ghost use Rattle.shm_words.specs.{declared.tag.Tag.Tag as ATag, Tags.{tag_word, tag_of, TagFits}};

/// What the tag word of a block says of the block's contents.
#[derive(Clone, Copy, Debug, PartialEq, Eq, Drop)]
pub struct Tag {
    /// How many reference words follow the tag, 0 to 16 (bits 30 to 34, in format 2 34 to 38).
    pub refs: u8,
    /// How many plain words follow these, 0 to 8 (bits 26 to 29, in format 2 30 to 33).
    pub plain: u8,
    /// The client that allocated the block, below 64 (bits 20 to 25, in format 2 24 to 29).
    pub author: u8,
    /// The block to go on with in a tear-down; used only while the block's count is 0 (bits 0 to 19, in format 2 0 to 23).
    pub link: u32,
}

impl Tag {
    /// The word of this tag in format 1, where the link is below 2^20.
    #[tactic(auto, unfolding(crate::specs::Tags::tag_word))]
    pub fn pack(self) -> u64
        requires { TagFits false self }
        ensures { result ≡ tag_word false self }
    {
        (u64::from(self.refs) << 30)
            + (u64::from(self.plain) << 26)
            + (u64::from(self.author) << 20)
            + u64::from(self.link)
    }

    /// What the word says in format 1; `None` exactly where no tag in range packs to the word.
    #[tactic(auto, unfolding(crate::specs::Tags::tag_of))]
    pub fn unpack(word: u64) -> Option<Tag>
        ensures { result ≡ tag_of false word }
    {
        let refs = (word >> 30 & 31) as u8;
        let plain = (word >> 26 & 15) as u8;
        if word >> 35 == 0 && refs <= 16 && plain <= 8 {
            Some(Tag {
                refs,
                plain,
                author: (word >> 20 & 63) as u8,
                link: (word & 0xf_ffff) as u32,
            })
        } else {
            None
        }
    }

    /// The word of this tag in format 2, where the link is below 2^24.
    #[tactic(auto, unfolding(crate::specs::Tags::tag_word))]
    pub fn pack_wide(self) -> u64
        requires { TagFits true self }
        ensures { result ≡ tag_word true self }
    {
        (u64::from(self.refs) << 34)
            + (u64::from(self.plain) << 30)
            + (u64::from(self.author) << 24)
            + u64::from(self.link)
    }

    /// What the word says in format 2; `None` exactly where no tag in range packs to the word.
    #[tactic(auto, unfolding(crate::specs::Tags::tag_of))]
    pub fn unpack_wide(word: u64) -> Option<Tag>
        ensures { result ≡ tag_of true word }
    {
        let refs = (word >> 34 & 31) as u8;
        let plain = (word >> 30 & 15) as u8;
        if word >> 39 == 0 && refs <= 16 && plain <= 8 {
            Some(Tag {
                refs,
                plain,
                author: (word >> 24 & 63) as u8,
                link: (word & 0xff_ffff) as u32,
            })
        } else {
            None
        }
    }
}

/// Packing and unpacking a tag are inverse in each format, and what unpacks to no tag is packed by none.
pub fn tag_laws()
    ensures unpacks { (wide : Bool) (t : ATag) → TagFits wide t → tag_of wide (tag_word wide t) ≡ Some t }
    ensures packs { (wide : Bool) (w : ℕ) (t : ATag) → w < 2 ^ 64 → tag_of wide w ≡ Some t → tag_word wide t ≡ w }
    ensures fits { (wide : Bool) (w : ℕ) (t : ATag) → w < 2 ^ 64 → tag_of wide w ≡ Some t → TagFits wide t }
    ensures none { (wide : Bool) (w : ℕ) → w < 2 ^ 64 → tag_of wide w ≡ None → (t : ATag) → TagFits wide t → tag_word wide t ≢ w }
{}
