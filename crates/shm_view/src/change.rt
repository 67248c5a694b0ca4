//! What became of the blocks of a page from one pool to another.

ghost use Rattle.std.specs.Prelude.{◌<◌, ◌≤◌, ◌^◌};

use crate::svg::Colour;
use shm_audit::word;
use shm_words::Header;

/// What became of a block.
#[derive(Clone, Copy, Debug, PartialEq, Eq, Drop)]
pub enum Change {
    /// It isn't live in either pool.
    Free,
    /// It was live, and isn't any more.
    Went,
    /// It is live in both, with the same words.
    Same,
    /// It is live in both, with other words.
    Changed,
    /// It is live, and wasn't before.
    Came,
}

/// The changes, those that are drawn over others later.
pub const CHANGES: [Change; 5] = [
    Change::Free,
    Change::Went,
    Change::Same,
    Change::Changed,
    Change::Came,
];

/// A page: its words from the address `first` on, in blocks of so many words, and 0 where it has no blocks.
#[derive(Clone, Copy, Drop)]
pub struct Page<'a> {
    pub words: &'a [[u8; 8]],
    pub first: u32,
    pub class: u32,
}

impl Change {
    /// The colour of the blocks of which this became.
    pub fn colour(self) -> Colour {
        let (red, green, blue) = match self {
            Change::Free => (243, 236, 214),
            Change::Went => (213, 94, 0),
            Change::Same => (150, 150, 150),
            Change::Changed => (0, 114, 178),
            Change::Came => (0, 158, 115),
        };
        Colour { red, green, blue }
    }
}

/// The class of the blocks of which this became: those that went lie as in the old page, and all others as in the new one.
pub fn class_drawn(old: Page<'_>, new: Page<'_>, change: Change) -> u32
    requires old { old.class ≤ 32 }
    requires new { new.class ≤ 32 }
    ensures { result ≤ 32 }
{
    match change {
        Change::Went => old.class,
        _ => new.class,
    }
}

/// What became of the block of this class at a place of the page.
pub fn change_of(old: Page<'_>, new: Page<'_>, class: u32, from: u32) -> Change
    requires old { old.first < 2 ^ 24 }
    requires new { new.first < 2 ^ 24 }
    requires from { from < 128 }
    requires class { class ≤ 32 }
{
    match (is_live(old, class, from), is_live(new, class, from)) {
        (false, false) => Change::Free,
        (true, false) => Change::Went,
        (false, true) => Change::Came,
        (true, true) if is_same(old, new, class, from) => Change::Same,
        (true, true) => Change::Changed,
    }
}

// whether a page has a live block of this class at a place
fn is_live(page: Page<'_>, class: u32, from: u32) -> bool
    requires first { page.first < 2 ^ 24 }
    requires from { from < 128 }
{
    page.class == class && Header::unpack(word(page.words, page.first + from)).live
}

// whether a block has the same words in both
fn is_same(old: Page<'_>, new: Page<'_>, class: u32, from: u32) -> bool
    requires old { old.first < 2 ^ 24 }
    requires new { new.first < 2 ^ 24 }
    requires from { from < 128 }
    requires class { class ≤ 32 }
{
    for k in 0..class {
        let (then, now) = (old.first + from + k, new.first + from + k);
        if word(old.words, then) != word(new.words, now) {
            return false;
        }
    }
    true
}
