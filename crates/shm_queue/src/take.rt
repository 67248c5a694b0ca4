//! The first item of a queue from another identity is taken, and what only it named is freed.

ghost use Rattle.std.specs.Prelude.{◌≡◌, ◌<◌};
ghost use Rattle.shm_words.specs.Layout.{GeometryFits};
ghost use Rattle.shm_queue.specs.Take.{Control.{taking, after_word, turns_word}, take_plan};
ghost use Rattle.shm_queue.specs.Proved.{Take.Laws.take_laws, QueueTasks.{TakeMay, take_task}};

use crate::answer::TakeFault;
use plans::{Or, Plan, Task, Word};
use shm_count::{EraSpent, StepDown, TearDown};
use shm_graph::{Machine, Me};
use shm_words::ADDRESS_LIMIT;
use std::marker::Model;

/// Which call of it comes next.
#[derive(Clone, Copy, Drop)]
pub enum TakePoint {
    /// The own head is loaded.
    Head,
    /// The tail is loaded.
    Tail,
    /// The slot at the head is loaded.
    Slot,
    /// The slot, which names the block, comes to be empty.
    Lower,
    /// The head is stored, one more.
    Store,
    /// The block, whose count came to 0, is torn down.
    Tear,
}

/// The control of it; `at` is the own head that was read, `block` the item there, and `last` says that its count came to 0.
#[derive(Clone, Copy, Drop)]
pub struct TakeState {
    pub me: Me,
    pub from: u8,
    pub at: u64,
    pub block: u32,
    pub last: bool,
    pub point: TakePoint,
}

/// The calls by which an identity takes an item.
///
/// It answers `Empty` where the queue has no item, and `EraSpent` where the own era is above 2^47 - 3 at a reference that is to go.
#[derive(Drop)]
pub struct Take {
    state: TakeState,
}

impl Model for Take {
    ghost use Rattle.shm_queue.specs.declared.take.TakeState.{TakeState as AState};

    ghost Value = { AState };

    ghost view = { λ a. a.state };

    ghost use Rattle.shm_queue.specs.Take.Control.{TakeInRange};

    ghost invariant = { λ a. TakeInRange a.state };
}

impl Take {
    /// The first item of the queue from the identity `from` to the identity `me`, before the first call.
    #[inline(always)]
    pub fn new(me: Me, from: u8) -> Take
        requires geometry { GeometryFits me.geometry }
        requires who { me.who < me.geometry.clients }
        requires from { from < me.geometry.clients }
        ensures { result ≡ taking me from }
    {
        Take {
            state: TakeState {
                me,
                from,
                at: 0,
                block: 0,
                last: false,
                point: TakePoint::Head,
            },
        }
    }

    #[inline(always)]
    fn seen(&mut self, word: u64) -> Option<Result<(), TakeFault>>
        ensures state { self.new ≡ after_word self.old self.old.point word }
        ensures answer { result ≡ turns_word self.old self.old.point word }
    {
        match self.state.point {
            TakePoint::Head => {
                self.state.at = word;
                self.state.point = TakePoint::Tail;
                None
            }
            TakePoint::Tail => {
                let at = self.state.at;
                self.state.point = TakePoint::Slot;
                if word == at {
                    Some(Err(TakeFault::Empty { at }))
                } else {
                    None
                }
            }
            TakePoint::Slot => {
                self.state.block = (word % u64::from(ADDRESS_LIMIT)) as u32;
                self.state.point = TakePoint::Lower;
                None
            }
            TakePoint::Lower | TakePoint::Store | TakePoint::Tear => {
                self.state.point = TakePoint::Tear;
                if self.state.last { None } else { Some(Ok(())) }
            }
        }
    }
}

impl Plan for Take {
    type Call = Or<Word, Or<StepDown, TearDown>>;

    type Answer = Result<(), TakeFault>;

    ghost plan = { take_plan };

    #[inline(always)]
    fn me(&self) -> Me {
        self.state.me
    }

    #[inline(always)]
    fn call(&self) -> Or<Word, Or<StepDown, TearDown>> {
        let TakeState {
            me,
            from,
            at,
            block,
            point,
            ..
        } = self.state;
        let pool = me.geometry;
        let slot = pool.slot(from, me.who, (at % 8) as u8);
        match point {
            TakePoint::Head => Or::First(Word::load(me, pool.head(from, me.who))),
            TakePoint::Tail => Or::First(Word::load(me, pool.tail(from, me.who))),
            TakePoint::Slot => Or::First(Word::load(me, slot)),
            TakePoint::Lower => Or::Second(Or::First(StepDown::new(me, slot, block))),
            TakePoint::Store => {
                let next = at.wrapping_add(1);
                Or::First(Word::store(me, pool.head(from, me.who), next))
            }
            TakePoint::Tear => Or::Second(Or::Second(TearDown::new(me, block))),
        }
    }

    #[inline(always)]
    fn next(
        &mut self,
        answer: Or<u64, Or<Result<bool, EraSpent>, Result<(), EraSpent>>>,
    ) -> Option<Result<(), TakeFault>> {
        match answer {
            Or::First(word) => self.seen(word),
            Or::Second(Or::First(Ok(last))) => {
                self.state.last = last;
                self.state.point = TakePoint::Store;
                None
            }
            Or::Second(Or::First(Err(spent))) => Some(Err(TakeFault::of(spent))),
            Or::Second(Or::Second(Ok(()))) => Some(Ok(())),
            Or::Second(Or::Second(Err(spent))) => Some(Err(TakeFault::of(spent))),
        }
    }

    ghost laws = { take_laws };
}

impl Task for Take {
    ghost may = { TakeMay };

    ghost tasks = { take_task };
}
