//! The control of a tear-down: which word it asks for, and where it goes by the word found.

ghost use Rattle.std.specs.Prelude.{◌≡◌, ◌≢◌, ◌+◌, ◌<◌, ◌≤◌, ◌^◌, true};
ghost use Rattle.shm_words.specs.{Layout.{GeometryFits, address_limit}, Tags.TagFits};
ghost use Rattle.shm_count.specs.{Tear.Control.{TearInRange, TearPointFits}, Step.Control.StepInRange};
ghost use Rattle.shm_count.specs.Tear.Control as control;

use crate::answer::{EraSpent, UpFault};
use crate::point::{Aim, StepNext, StepPoint, StepState};
use shm_graph::{Ask, Me, Site};
use shm_words::{ADDRESS_LIMIT, Geometry, Tag};

/// The word step of a tear-down that comes next; `tag` is that of its block, whose link is the block to go on with.
#[derive(Clone, Copy, Drop)]
pub enum TearPoint {
    /// Load the tag of the block that was given.
    Begin,
    /// Load the tag of a block whose count came to 0 on the way; `link` is the block that named it.
    Enter {
        link: u32,
    },
    /// Store the tag with the link.
    Link {
        tag: Tag,
    },
    /// Load the reference word with this index.
    Word {
        tag: Tag,
        index: u8,
    },
    /// The next word step of the step down by which that word, which names block `found`, comes to be empty.
    Down {
        tag: Tag,
        index: u8,
        found: u32,
        point: StepPoint,
    },
    /// Store 0 into the header.
    Free {
        tag: Tag,
    },
    /// Load the tag of the block to go on with.
    Return,
    /// It has answered.
    Over,
}

/// The control of a tear-down: the block that was given, and the one that it works on; both are addresses.
#[derive(Clone, Copy, Drop)]
pub struct TearState {
    pub me: Me,
    pub first: u32,
    pub block: u32,
    pub point: TearPoint,
}

/// Where a tear-down goes by the word that it found.
#[derive(Clone, Copy, Drop)]
pub enum TearNext {
    Go { block: u32, point: TearPoint },
    Answer(Result<(), EraSpent>),
}

impl TearState {
    /// The step down that takes the reference to `found` out of a reference word of the block.
    #[inline(always)]
    fn step(self, index: u8, found: u32, point: StepPoint) -> StepState
        requires block { self.block < address_limit }
        ensures { result ≡ control.down_state self.me self.block index found point }
    {
        StepState {
            me: self.me,
            slot: word_address(self.block, index),
            aim: Aim::Down { block: found },
            point,
        }
    }

    /// The word step that comes next.
    #[inline(always)]
    pub fn ask(self) -> Ask
        requires { TearInRange self }
        ensures { result ≡ control.tear_ask self }
    {
        match self.point {
            TearPoint::Begin | TearPoint::Enter { .. } | TearPoint::Return => Ask::Load {
                at: self.block + 1,
            },
            TearPoint::Link { tag } => Ask::Store {
                at: self.block + 1,
                value: self.me.geometry.write_tag(tag),
            },
            TearPoint::Word { index, .. } => Ask::Load {
                at: word_address(self.block, index),
            },
            TearPoint::Down {
                index,
                found,
                point,
                ..
            } => self.step(index, found, point).ask(),
            TearPoint::Free { .. } => Ask::Store {
                at: self.block,
                value: 0,
            },
            TearPoint::Over => Ask::Load { at: 0 },
        }
    }

    /// Where it goes by the word that it found.
    #[inline(always)]
    pub fn next(self, seen: u64) -> TearNext
        requires { TearInRange self }
        ensures { result ≡ control.tear_next self seen }
    {
        match self.point {
            TearPoint::Begin => self.entered(0, seen),
            TearPoint::Enter { link } => self.entered(link, seen),
            TearPoint::Link { tag } => self.go(word_or_free(tag, 0)),
            TearPoint::Word { tag, index } => self.read(tag, index, seen),
            TearPoint::Down {
                tag,
                index,
                found,
                point,
            } => match self.step(index, found, point).next(seen) {
                StepNext::Point(point) => self.go(TearPoint::Down {
                    tag,
                    index,
                    found,
                    point,
                }),
                StepNext::Answer(answer) => self.lowered(tag, index, found, answer),
            },
            TearPoint::Free { tag } => freed(tag),
            TearPoint::Return => self.go(word_or_free(tag_read(self.me.geometry, seen), 0)),
            TearPoint::Over => self.go(TearPoint::Over),
        }
    }

    /// Makes the word step that comes next, and tells where it goes by the word that was found.
    #[inline(always)]
    fn make<S: Site>(self, site: &S, words: &mut S::Words) -> TearNext
        requires range { TearInRange self }
        requires may { S.may site.now words.old (control.tear_ask self) }
        ensures made { S.made site.now words.old (control.tear_ask self) words.new }
        ensures next { let a = control.tear_ask self in result ≡ control.tear_next self (S.seen site.now words.old a words.new) }
    {
        let ask = self.ask();
        let seen = site.make(words, ask);
        self.next(seen)
    }

    /// The same, with an arm for each point, so that the compiler makes a piece of code for each and asks once where it is.
    #[inline(always)]
    pub fn act<S: Site>(self, site: &S, words: &mut S::Words) -> TearNext
        requires range { TearInRange self }
        requires may { S.may site.now words.old (control.tear_ask self) }
        ensures made { S.made site.now words.old (control.tear_ask self) words.new }
        ensures next { let a = control.tear_ask self in result ≡ control.tear_next self (S.seen site.now words.old a words.new) }
    {
        match self.point {
            TearPoint::Begin => self.make(site, words),
            TearPoint::Enter { .. } => self.make(site, words),
            TearPoint::Link { .. } => self.make(site, words),
            TearPoint::Word { .. } => self.make(site, words),
            TearPoint::Down { .. } => self.make(site, words),
            TearPoint::Free { .. } => self.make(site, words),
            TearPoint::Return => self.make(site, words),
            TearPoint::Over => self.make(site, words),
        }
    }

    /// It stays at its block.
    #[inline(always)]
    fn go(self, point: TearPoint) -> TearNext
        ensures { result ≡ control.stay self.block point }
    {
        TearNext::Go {
            block: self.block,
            point,
        }
    }

    /// Where it goes by the tag of a block that is entered from the block `link`, or from none.
    #[inline(always)]
    fn entered(self, link: u32, seen: u64) -> TearNext
        ensures { result ≡ control.entered_next self.me.geometry.wide self.block link seen }
    {
        let tag = tag_read(self.me.geometry, seen);
        self.go(if tag.link == link {
            word_or_free(tag, 0)
        } else {
            TearPoint::Link {
                tag: Tag {
                    link: link % self.me.geometry.limit(),
                    ..tag
                },
            }
        })
    }

    /// Where it goes by a reference word.
    #[inline(always)]
    fn read(self, tag: Tag, index: u8, seen: u64) -> TearNext
        requires index { index < tag.refs }
        ensures { result ≡ control.word_next self.block tag index seen }
    {
        let found = (seen % u64::from(ADDRESS_LIMIT)) as u32;
        self.go(if found == 0 {
            word_or_free(tag, index + 1)
        } else {
            TearPoint::Down {
                tag,
                index,
                found,
                point: StepPoint::Era,
            }
        })
    }

    /// Where it goes by what the step down answered.
    #[inline(always)]
    fn lowered(self, tag: Tag, index: u8, found: u32, answer: Result<bool, UpFault>) -> TearNext
        requires index { index < tag.refs }
        ensures { result ≡ control.lowered_next self.block tag index found answer }
    {
        match answer {
            Ok(true) => TearNext::Go {
                block: found,
                point: TearPoint::Enter { link: self.block },
            },
            Ok(false) => self.go(word_or_free(tag, index + 1)),
            Err(fault) => TearNext::Answer(Err(fault.spent())),
        }
    }
}

/// The address of a reference word; no block of a pool ends beyond 2^24.
#[inline(always)]
fn word_address(block: u32, index: u8) -> u32
    requires block { block < address_limit }
    ensures { result ≡ control.word_address block index }
{
    (block + 2 + u32::from(index)) % ADDRESS_LIMIT
}

/// The tag that a word is, or an empty one.
#[inline(always)]
fn tag_read(geometry: Geometry, word: u64) -> Tag
    ensures { result ≡ control.tag_read geometry.wide word }
{
    match geometry.read_tag(word) {
        Some(tag) => tag,
        None => Tag {
            refs: 0,
            plain: 0,
            author: 0,
            link: 0,
        },
    }
}

/// The reference word with this index comes next, and after the last one the header.
#[inline(always)]
fn word_or_free(tag: Tag, index: u8) -> TearPoint
    ensures { result ≡ control.word_or_free tag index }
{
    if index < tag.refs {
        TearPoint::Word { tag, index }
    } else {
        TearPoint::Free { tag }
    }
}

/// Where it goes once a block is free: on with the block of its link, if there is one.
#[inline(always)]
fn freed(tag: Tag) -> TearNext
    ensures { result ≡ control.freed_next tag }
{
    if tag.link == 0 {
        TearNext::Answer(Ok(()))
    } else {
        TearNext::Go {
            block: tag.link,
            point: TearPoint::Return,
        }
    }
}
