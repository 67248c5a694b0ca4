//! Blocks that an identity had put into slots of queues when it died, and not sent, are taken back.

ghost use Rattle.std.specs.Prelude.{◌≡◌, ◌+◌, ◌<◌};
ghost use Rattle.shm_words.specs.Layout.{GeometryFits};
ghost use Rattle.shm_recover.specs.TakeBack.Control.{taking_back, after_word, turns_word, passed, passed_answer};
ghost use Rattle.shm_recover.specs.{TakeBack.back_plan, Proved.TakeBack.Laws.back_laws};

use crate::others::other;
use plans::{Or, Plan, Word};
use shm_count::{EraSpent, StepDown, TearDown};
use shm_graph::{Machine, Me};
use shm_words::ADDRESS_LIMIT;
use std::marker::Model;

/// Which call of it comes next.
#[derive(Clone, Copy, Drop)]
pub enum BackPoint {
    /// The own tail is loaded.
    Tail,
    /// The head is loaded.
    Head,
    /// The slot at the tail is loaded.
    Slot,
    /// The slot, which names the block, comes to be empty.
    Lower,
    /// The block, whose count came to 0, is torn down.
    Tear,
}

/// The control of it; `passed` is the number of queues that it is done with, `at` the own tail that was read, and `block` what its slot
/// was found to name.
#[derive(Clone, Copy, Drop)]
pub struct BackState {
    pub me: Me,
    pub passed: u8,
    pub at: u64,
    pub block: u32,
    pub point: BackPoint,
}

/// The calls by which the slots at the tails of queues from an identity come to be empty.
///
/// It answers `EraSpent` where the own era is above 2^47 - 3 at a reference that is to go; the queues after it are then as they were.
#[derive(Drop)]
pub struct TakeBack {
    state: BackState,
}

impl Model for TakeBack {
    ghost use Rattle.shm_recover.specs.declared.take_back.BackState.{BackState as AState};

    ghost Value = { AState };

    ghost view = { λ a. a.state };

    ghost use Rattle.shm_recover.specs.TakeBack.Control.{BackInRange};

    ghost invariant = { λ a. BackInRange a.state };
}

impl TakeBack {
    /// The queues from the identity `me` of a pool of more than one client, before the first call.
    #[inline(always)]
    pub fn new(me: Me) -> TakeBack
        requires geometry { GeometryFits me.geometry }
        requires who { me.who < me.geometry.clients }
        requires others { 1 < me.geometry.clients }
        ensures { result ≡ taking_back me }
    {
        TakeBack {
            state: BackState {
                me,
                passed: 0,
                at: 0,
                block: 0,
                point: BackPoint::Tail,
            },
        }
    }

    #[inline(always)]
    fn pass(&mut self) -> Option<Result<(), EraSpent>>
        ensures state { self.new ≡ passed self.old }
        ensures answer { result ≡ passed_answer self.old }
    {
        if self.state.passed + 2 == self.state.me.geometry.clients() {
            Some(Ok(()))
        } else {
            self.state.passed += 1;
            self.state.point = BackPoint::Tail;
            None
        }
    }

    #[inline(always)]
    fn seen(&mut self, word: u64) -> Option<Result<(), EraSpent>>
        ensures state { self.new ≡ after_word self.old self.old.point word }
        ensures answer { result ≡ turns_word self.old self.old.point word }
    {
        match self.state.point {
            BackPoint::Tail => {
                self.state.at = word;
                self.state.point = BackPoint::Head;
                None
            }
            BackPoint::Head => {
                if self.state.at.saturating_sub(word) < 8 {
                    self.state.point = BackPoint::Slot;
                    None
                } else {
                    self.pass()
                }
            }
            BackPoint::Slot | BackPoint::Lower | BackPoint::Tear => {
                let block = (word % u64::from(ADDRESS_LIMIT)) as u32;
                if block == 0 {
                    self.pass()
                } else {
                    self.state.block = block;
                    self.state.point = BackPoint::Lower;
                    None
                }
            }
        }
    }
}

impl Plan for TakeBack {
    type Call = Or<Word, Or<StepDown, TearDown>>;

    type Answer = Result<(), EraSpent>;

    ghost plan = { back_plan };

    #[inline(always)]
    fn me(&self) -> Me {
        self.state.me
    }

    #[inline(always)]
    fn call(&self) -> Or<Word, Or<StepDown, TearDown>> {
        let BackState {
            me,
            passed,
            at,
            block,
            point,
        } = self.state;
        let pool = me.geometry;
        let to = other(me.who, passed);
        let slot = pool.slot(me.who, to, (at % 8) as u8);
        match point {
            BackPoint::Tail => Or::First(Word::load(me, pool.tail(me.who, to))),
            BackPoint::Head => Or::First(Word::load(me, pool.head(me.who, to))),
            BackPoint::Slot => Or::First(Word::load(me, slot)),
            BackPoint::Lower => Or::Second(Or::First(StepDown::new(me, slot, block))),
            BackPoint::Tear => Or::Second(Or::Second(TearDown::new(me, block))),
        }
    }

    #[inline(always)]
    fn next(
        &mut self,
        answer: Or<u64, Or<Result<bool, EraSpent>, Result<(), EraSpent>>>,
    ) -> Option<Result<(), EraSpent>> {
        match answer {
            Or::First(word) => self.seen(word),
            Or::Second(Or::First(Ok(true))) => {
                self.state.point = BackPoint::Tear;
                None
            }
            Or::Second(Or::First(Ok(false))) => self.pass(),
            Or::Second(Or::First(Err(spent))) => Some(Err(spent)),
            Or::Second(Or::Second(Ok(()))) => self.pass(),
            Or::Second(Or::Second(Err(spent))) => Some(Err(spent)),
        }
    }

    ghost laws = { back_laws };
}
