//! The value block at the head of a queue from another identity, with a root of its own.

ghost use Rattle.std.specs.Prelude.{◌≡◌, ◌<◌};
ghost use Rattle.shm_words.specs.Layout.{GeometryFits};
ghost use Rattle.shm_table.specs.FetchHead.{Control.fetching_head, fetch_head_plan};
ghost use Rattle.shm_table.specs.Proved.FetchHead.Laws.{fetch_head_laws};
ghost use Rattle.shm_table.specs.FetchHead.Control as control;

use crate::answer::PutFault;
use crate::fetch::shared;
use plans::{Calls, Or, Plan, Word};
use shm_count::parts::{ShareFault, UpRoot};
use shm_graph::{Machine, Me};
use shm_words::ADDRESS_LIMIT;
use std::marker::Model;

/// Which call of it comes next.
#[derive(Clone, Copy, Drop)]
pub enum FetchHeadPoint {
    /// The own head is loaded.
    Head,
    /// The tail is loaded.
    Tail,
    /// The slot at the head is loaded.
    Slot,
    /// The number of the value block there is loaded.
    Number,
    /// A root comes to name the value block.
    Share,
}

/// What was fetched.
#[derive(Clone, Copy, Debug, PartialEq, Eq, Drop)]
pub enum FetchedHead {
    /// The queue has no item: its head and its tail are this.
    Empty {
        at: u64,
    },
    /// The value block got no root.
    Refused(PutFault),
    /// The root names the value block at the head, which holds the number; the head is `at`.
    Rooted {
        root: u8,
        block: u32,
        number: u64,
        at: u64,
    },
}

/// The control of it; `at` is the own head that was read, `block` the value block there and `number` its number.
#[derive(Clone, Copy, Drop)]
pub struct FetchHeadState {
    pub me: Me,
    pub from: u8,
    pub at: u64,
    pub block: u32,
    pub number: u64,
    pub point: FetchHeadPoint,
}

/// Its calls.
pub type FetchHeadCall = Or<Word, Calls<UpRoot>>;

/// What its calls answer.
pub type FetchHeadAnswer = Or<u64, Result<u8, ShareFault>>;

/// The calls by which an identity comes to have a root of the value block at the head of a queue.
///
/// It answers the value block at the head with its number and the root that names it; or that the queue has no item, or why there is no root.
/// The item stays in the queue.
#[derive(Drop)]
pub struct FetchHead {
    state: FetchHeadState,
}

impl Model for FetchHead {
    ghost use Rattle.shm_table.specs.declared.fetch_head.FetchHeadState.{FetchHeadState as AState};

    ghost Value = { AState };

    ghost view = { λ a. a.state };

    ghost use Rattle.shm_table.specs.FetchHead.Control.{FetchHeadInRange};

    ghost invariant = { λ a. FetchHeadInRange a.state };
}

impl FetchHead {
    /// The first item of the queue from the identity `from` is to have a root of `me`.
    #[inline(always)]
    pub fn new(me: Me, from: u8) -> FetchHead
        requires geometry { GeometryFits me.geometry }
        requires who { me.who < me.geometry.clients }
        requires from { from < me.geometry.clients }
        ensures { result ≡ fetching_head me from }
    {
        FetchHead {
            state: FetchHeadState {
                me,
                from,
                at: 0,
                block: 0,
                number: 0,
                point: FetchHeadPoint::Head,
            },
        }
    }
}

impl FetchHeadState {
    /// Where it goes by a word that was loaded.
    #[inline(always)]
    fn read(&mut self, word: u64) -> Option<FetchedHead>
        ensures state { self.new ≡ control.read_after self.old self.old.point word }
        ensures answer { result ≡ control.read_turns self.old self.old.point word }
    {
        match self.point {
            FetchHeadPoint::Head => {
                self.at = word;
                self.point = FetchHeadPoint::Tail;
                None
            }
            FetchHeadPoint::Tail => {
                let at = self.at;
                self.point = FetchHeadPoint::Slot;
                if word == at {
                    Some(FetchedHead::Empty { at })
                } else {
                    None
                }
            }
            FetchHeadPoint::Slot => {
                self.block = (word % u64::from(ADDRESS_LIMIT)) as u32;
                self.point = FetchHeadPoint::Number;
                None
            }
            FetchHeadPoint::Number | FetchHeadPoint::Share => {
                self.number = word;
                self.point = FetchHeadPoint::Share;
                None
            }
        }
    }
}

impl Plan for FetchHead {
    type Call = FetchHeadCall;

    type Answer = FetchedHead;

    ghost plan = { fetch_head_plan };

    #[inline(always)]
    fn me(&self) -> Me {
        self.state.me
    }

    #[inline(always)]
    fn call(&self) -> FetchHeadCall {
        let FetchHeadState {
            me,
            from,
            at,
            block,
            point,
            ..
        } = self.state;
        let pool = me.geometry;
        match point {
            FetchHeadPoint::Head => Or::First(Word::load(me, pool.head(from, me.who))),
            FetchHeadPoint::Tail => Or::First(Word::load(me, pool.tail(from, me.who))),
            FetchHeadPoint::Slot => {
                let slot = pool.slot(from, me.who, (at % 8) as u8);
                Or::First(Word::load(me, slot))
            }
            FetchHeadPoint::Number => Or::First(Word::load(me, block + 2)),
            FetchHeadPoint::Share => Or::Second(Calls::new(UpRoot::new(me, block))),
        }
    }

    #[inline(always)]
    fn next(&mut self, answer: FetchHeadAnswer) -> Option<FetchedHead> {
        let FetchHeadState {
            at,
            block,
            number,
            ..
        } = self.state;
        match answer {
            Or::First(word) => self.state.read(word),
            Or::Second(Ok(root)) => Some(FetchedHead::Rooted {
                root,
                block,
                number,
                at,
            }),
            Or::Second(Err(fault)) => Some(FetchedHead::Refused(shared(fault))),
        }
    }

    ghost laws = { fetch_head_laws };
}
