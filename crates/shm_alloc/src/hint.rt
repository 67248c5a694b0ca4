//! Where a client's next search for a free block begins.

ghost use Rattle.std.specs.Prelude.{◌≡◌, ◌⊎◌, ◌*◌, ◌<◌, ◌≤◌};
ghost use Rattle.shm_words.specs.{Classes.class_for, Layout.GeometryFits};
ghost use Rattle.shm_alloc.specs.Hints.{IsPlace, behind_at, near_behind, no_hint};

use crate::request::Near;
use shm_words::{Geometry, class_of};
use std::marker::Model;

/// No hint: the pool's first block.
const NONE: Near = Near {
    segment: 0,
    page: 0,
    index: 0,
};

/// What a client remembers of its allocations of one class, so that the next one begins where a free block is likely.
///
/// The next search begins behind the block that was made last. Once an eighth as many blocks were made as lie before the farthest one in
/// segments of the client, it begins at the pool's first block again, where blocks may have been freed. What a client gains in word steps it pays
/// in room: it takes pages and segments that are still free before it sees each block that was freed (docs/TIMES.md).
///
/// Nothing that is proved of an allocation asks for a good hint. It belongs to one client: a new one begins with none.
#[derive(Drop)]
pub struct Hint {
    geometry: Geometry,
    class: u8,
    next: Near,
    /// How far behind the first word of all blocks the farthest block lies that was made.
    farthest: u32,
    /// How many segments the farthest block lay in before.
    before: u16,
    /// How many blocks were made since a search began at the pool's first block.
    since: u32,
}

impl Model for Hint {
    ghost use Rattle.shm_alloc.specs.Hints.{Hinted, IsHint};

    ghost Value = { Hinted };

    ghost view = { λ h. record { geometry = h.geometry; class = h.class; next = h.next } };

    ghost invariant = { λ h. IsHint h.geometry h.class h.next h.farthest h.before };
}

impl Hint {
    /// No hint yet, for blocks of so many reference words and plain words in a pool of these sizes.
    pub fn new(geometry: Geometry, refs: u8, plain: u8) -> Hint
        requires geometry { GeometryFits geometry }
        requires refs { refs ≤ 16 }
        requires plain { plain ≤ 8 }
        ensures { result ≡ record { geometry = geometry; class = class_for refs plain; next = no_hint } }
    {
        Hint {
            geometry,
            class: class_of(refs, plain),
            next: NONE,
            farthest: 0,
            before: 0,
            since: 0,
        }
    }

    /// Where the next search begins: a segment of the pool, a page of it and a block of this.
    pub fn near(&self) -> Near
        ensures is { result ≡ self.now.next }
        ensures inside { IsPlace self.now.geometry self.now.class result }
    {
        self.next
    }

    /// A block of the class was made. The next search begins behind it, or at the pool's first block.
    pub fn made(&mut self, block: u32)
        ensures same { (self.new.geometry ≡ self.old.geometry) × (self.new.class ≡ self.old.class) }
        ensures next { (self.new.next ≡ near_behind self.old.geometry self.old.class block) ⊎ (self.new.next ≡ no_hint) }
    {
        let total = self.geometry.total();
        let first = total - 2048 * u32::from(self.geometry.segments());
        if block < first || total <= block {
            self.begin();
            return;
        }
        let at = block - first;
        self.reach(at);
        if self.since < self.most() {
            self.since += 1;
            self.next = self.behind(at);
        } else {
            self.begin();
        }
    }

    /// The next search begins at the pool's first block.
    fn begin(&mut self)
        ensures { self.new ≡ record self.old { next = no_hint } }
    {
        self.since = 0;
        self.next = NONE;
    }

    /// A block was made so far behind the first word of all blocks.
    fn reach(&mut self, at: u32)
        requires { at < 2048 * self.old.geometry.segments }
        ensures { self.new ≡ self.old }
    {
        if self.farthest < at {
            if self.farthest / 2048 < at / 2048 {
                self.before += 1;
            }
            self.farthest = at;
        }
    }

    /// How many blocks are made before a search begins at the pool's first block again: an eighth of those that lie before the farthest one.
    fn most(&self) -> u32 {
        let words = 2048 * u32::from(self.before) + self.farthest % 2048;
        (words / u32::from(self.class) / 8).max(8)
    }

    /// The place behind a block.
    fn behind(&self, at: u32) -> Near
        requires { at < 2048 * self.now.geometry.segments }
        ensures is { result ≡ behind_at self.now.geometry self.now.class at }
        ensures inside { IsPlace self.now.geometry self.now.class result }
    {
        let segments = self.geometry.segments();
        let segment = (at / 2048) as u16;
        let page = (at / 128 % 16) as u8;
        let index = (at % 128) as u8 / self.class + 1;
        if index < 128 / self.class {
            Near {
                segment,
                page,
                index,
            }
        } else if page < 15 {
            Near {
                segment,
                page: page + 1,
                index: 0,
            }
        } else if segment + 1 < segments {
            Near {
                segment: segment + 1,
                page: 0,
                index: 0,
            }
        } else {
            NONE
        }
    }
}
