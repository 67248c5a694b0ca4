//! What an allocation is asked for.

ghost use Rattle.std.specs.Prelude.{◌≡◌, ◌<◌};
ghost use Rattle.shm_alloc.specs.Alloc.Control.{class_asked, RequestFits};
ghost use Rattle.shm_alloc.specs.Alloc.Control as control;

use crate::point::{AllocPoint, Goal};
use shm_words::{Tag, class_of};

/// Where the search for a free block begins: so far behind the first segment, the first page of each segment and the first block of each page.
///
/// Zeros are no hint. Any other numbers will do: behind the last one the first one comes, so that each is gone to once.
#[derive(Clone, Copy, Drop)]
pub struct Near {
    pub segment: u16,
    pub page: u8,
    pub index: u8,
}

/// What the new block is to hold.
#[derive(Clone, Copy, Drop)]
pub struct Request {
    /// How many reference words, 0 to 16.
    pub refs: u8,
    /// How many plain words, 0 to 8.
    pub count: u8,
    /// The plain words; those from `count` on mean nothing.
    pub plain: [u64; 8],
    /// Where the search begins.
    pub near: Near,
}

/// Which of `count` is number `index`, where they are counted from number `first` on, and behind the last one from the first on.
#[inline(always)]
#[tactic(auto, unfolding(crate::specs::Alloc::Control::turned), using(crate::specs::Proved::Turning::turned_below))]
pub(crate) fn turned(count: u16, first: u16, index: u16) -> u16
    requires { index < count }
    ensures is { result ≡ control.turned count first index }
    ensures below { result < count }
{
    if first == 0 {
        index
    } else {
        let at = (u32::from(index) + u32::from(first)) % u32::from(count);
        at as u16
    }
}

impl Request {
    /// The class of the new block.
    #[inline(always)]
    pub fn class(self) -> u8
        requires { RequestFits self }
        ensures { result ≡ class_asked self }
    {
        class_of(self.refs, self.count)
    }

    /// The tag of the new block.
    #[inline(always)]
    pub fn tag(self, author: u8) -> Tag
        ensures { result ≡ record { refs = self.refs; plain = self.count; author = author; link = 0 } }
    {
        Tag {
            refs: self.refs,
            plain: self.count,
            author,
            link: 0,
        }
    }

    /// The step after the tag and `index` reference words are stored, in a pool of format 2 or of format 1.
    #[inline(always)]
    pub fn references_from(self, wide: bool, goal: Goal, block: u32, index: u8) -> AllocPoint
        ensures { result ≡ control.references_from wide self goal block index }
    {
        if index < self.refs {
            AllocPoint::Reference { goal, block, index }
        } else {
            self.plain_from(wide, goal, block, 0)
        }
    }

    /// The step after the tag, the reference words and `index` plain words are stored.
    #[inline(always)]
    pub fn plain_from(self, wide: bool, goal: Goal, block: u32, index: u8) -> AllocPoint
        ensures { result ≡ control.plain_from wide self goal block index }
    {
        if index < self.count {
            AllocPoint::Plain { goal, block, index }
        } else if wide {
            AllocPoint::More { goal, block }
        } else {
            AllocPoint::Redo { goal, block }
        }
    }
}
