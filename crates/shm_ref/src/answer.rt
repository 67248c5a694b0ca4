//! What machines over latches and roots answer.

/// The latch was another's, of this client.
#[derive(Clone, Copy, Debug, PartialEq, Eq, Drop)]
pub struct Busy {
    pub holder: u8,
}

/// The own hold word names another latch than the author's, or none.
#[derive(Clone, Copy, Debug, PartialEq, Eq, Drop)]
pub struct NotHeld;

/// Why a reference word wasn't looked at.
#[derive(Clone, Copy, Debug, PartialEq, Eq, Drop)]
pub enum LookFault {
    /// The block has this many reference words, and none of this index.
    NoSuchRef { refs: u8 },
    /// The own hold word names another latch than that of the block's author, or none.
    NotHeld,
}

/// The block has this many plain words, and none of this index.
#[derive(Clone, Copy, Debug, PartialEq, Eq, Drop)]
pub struct NoSuchWord {
    pub plain: u8,
}

/// Why the home of an identity came to name no block.
#[derive(Clone, Copy, Debug, PartialEq, Eq, Drop)]
pub enum HomeFault {
    /// The home names this block.
    HomeSet { block: u32 },
    /// The own era that was read leaves no room for the step.
    EraSpent { era: u64 },
    /// The header that was read shows the greatest count, 1,023.
    CountFull { block: u32, count: u16 },
}

/// Why a reference word of a block is what it was, or, where the own era is spent, its old block could not be torn down.
#[derive(Clone, Copy, Debug, PartialEq, Eq, Drop)]
pub enum SetFault {
    /// The block is of this other author.
    NotAuthor { author: u8 },
    /// The block has only so many reference words.
    NoSuchRef { refs: u8 },
    /// The hold word doesn't name the own latch.
    NotHeld,
    /// The own era that was read leaves no room for a step.
    EraSpent { era: u64 },
    /// The header that was read shows the greatest count, 1,023.
    CountFull { block: u32, count: u16 },
}
