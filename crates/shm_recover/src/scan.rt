//! All blocks of a pool are looked at, and those of an identity whose count is 0 are freed.

ghost use Rattle.std.specs.Prelude.{◌≡◌, ◌<◌};
ghost use Rattle.shm_words.specs.Layout.{GeometryFits};
ghost use Rattle.shm_recover.specs.Scan.Control.{scanning, block_at, is_lost, page_passed, page_answer, block_passed, block_answer};
ghost use Rattle.shm_recover.specs.{Scan.scan_plan, Proved.Scan.Laws.scan_laws};

use plans::{Or, Plan, Word};
use shm_count::{EraSpent, TearDown};
use shm_graph::{Machine, Me};
use shm_words::Header;
use std::marker::Model;

/// Which call of it comes next.
#[derive(Clone, Copy, Drop)]
pub enum ScanPoint {
    /// The class of the page is loaded.
    Page,
    /// The header of the block is loaded.
    Header,
    /// The block, which is one of the identity's whose count is 0, is torn down.
    Tear,
}

/// The control of it: the segment and the page, the page's class that was read, how many words of the page come before the block, and how
/// many blocks of the identity with count 0 were found.
#[derive(Clone, Copy, Drop)]
pub struct ScanState {
    pub me: Me,
    pub segment: u16,
    pub page: u8,
    pub class: u8,
    pub offset: u8,
    pub found: u32,
    pub point: ScanPoint,
}

impl ScanState {
    /// The address of the block.
    #[inline(always)]
    #[tactic(auto, unfolding(shm_words::specs::Layout::address))]
    fn block(&self) -> u32
        requires geometry { GeometryFits self.now.me.geometry }
        requires segment { self.now.segment < self.now.me.geometry.segments }
        requires page { self.now.page < 16 }
        requires offset { self.now.offset < 128 }
        ensures { result ≡ block_at self.now }
    {
        self.me.geometry.body(self.segment, self.page) + u32::from(self.offset)
    }

    /// Whether a header is that of a block of the identity whose count is 0.
    #[inline(always)]
    fn is_lost(&self, word: u64) -> bool
        ensures { result ≡ is_lost self.now.me.who word }
    {
        let header = Header::unpack(word);
        header.live && header.count == 0 && header.client == self.me.who
    }

    /// Goes on to the next page; what it answers after the last one.
    #[inline(always)]
    fn pass_page(&mut self) -> Option<Result<u32, EraSpent>>
        requires segment { self.old.segment < self.old.me.geometry.segments }
        requires page { self.old.page < 16 }
        requires geometry { GeometryFits self.old.me.geometry }
        ensures state { self.new ≡ page_passed self.old }
        ensures answer { result ≡ page_answer self.old }
    {
        self.point = ScanPoint::Page;
        if self.page < 15 {
            self.page += 1;
            return None;
        }
        if self.segment + 1 == self.me.geometry.segments() {
            return Some(Ok(self.found));
        }
        self.segment += 1;
        self.page = 0;
        None
    }

    /// Goes on to the next block of the page, or to the next page.
    #[inline(always)]
    fn pass_block(&mut self) -> Option<Result<u32, EraSpent>>
        requires segment { self.old.segment < self.old.me.geometry.segments }
        requires page { self.old.page < 16 }
        requires class { self.old.class < 64 }
        requires offset { self.old.offset < 128 }
        requires geometry { GeometryFits self.old.me.geometry }
        ensures state { self.new ≡ block_passed self.old }
        ensures answer { result ≡ block_answer self.old }
    {
        if self.offset + self.class < 128 {
            self.offset += self.class;
            self.point = ScanPoint::Header;
            None
        } else {
            self.pass_page()
        }
    }
}

/// The calls by which the blocks of an identity whose count is 0 are found, wherever they are in the pool, and freed.
///
/// It answers how many blocks of the identity with count 0 it found itself, or `EraSpent` where the own era is above 2^47 - 3 at a
/// reference that is to go; the blocks that it hasn't freed then keep their count 0.
///
/// That blocks which a dead client was freeing are found by going through the whole pool is the scan of CXL-SHM (SOSP 2023).
#[derive(Drop)]
pub struct Scan {
    state: ScanState,
}

impl Model for Scan {
    ghost use Rattle.shm_recover.specs.declared.scan.ScanState.{ScanState as AState};

    ghost Value = { AState };

    ghost view = { λ a. a.state };

    ghost use Rattle.shm_recover.specs.Scan.Control.{ScanInRange};

    ghost invariant = { λ a. ScanInRange a.state };
}

impl Scan {
    /// The scan for the identity `me`, before the first call.
    #[inline(always)]
    pub fn new(me: Me) -> Scan
        requires geometry { GeometryFits me.geometry }
        requires who { me.who < me.geometry.clients }
        ensures { result ≡ scanning me }
    {
        Scan {
            state: ScanState {
                me,
                segment: 0,
                page: 0,
                class: 0,
                offset: 0,
                found: 0,
                point: ScanPoint::Page,
            },
        }
    }
}

impl Plan for Scan {
    type Call = Or<Word, TearDown>;

    type Answer = Result<u32, EraSpent>;

    ghost plan = { scan_plan };

    #[inline(always)]
    fn me(&self) -> Me {
        self.state.me
    }

    #[inline(always)]
    fn call(&self) -> Or<Word, TearDown> {
        let ScanState {
            me,
            segment,
            page,
            point,
            ..
        } = self.state;
        match point {
            ScanPoint::Page => Or::First(Word::load(me, me.geometry.page(segment, page))),
            ScanPoint::Header => Or::First(Word::load(me, self.state.block())),
            ScanPoint::Tear => Or::Second(TearDown::new(me, self.state.block())),
        }
    }

    #[inline(always)]
    fn next(&mut self, answer: Or<u64, Result<(), EraSpent>>) -> Option<Result<u32, EraSpent>> {
        match answer {
            Or::First(word) => match self.state.point {
                ScanPoint::Page => {
                    if word == 0 {
                        self.state.pass_page()
                    } else {
                        self.state.class = (word % 64) as u8;
                        self.state.offset = 0;
                        self.state.point = ScanPoint::Header;
                        None
                    }
                }
                ScanPoint::Header | ScanPoint::Tear => {
                    if self.state.is_lost(word) {
                        self.state.found = self.state.found.wrapping_add(1);
                        self.state.point = ScanPoint::Tear;
                        None
                    } else {
                        self.state.pass_block()
                    }
                }
            },
            Or::Second(Ok(())) => self.state.pass_block(),
            Or::Second(Err(spent)) => Some(Err(spent)),
        }
    }

    ghost laws = { scan_laws };
}
