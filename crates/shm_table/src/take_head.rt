//! The item at the head of a queue from another identity is taken, where it is known and an own root names it.

ghost use Rattle.std.specs.Prelude.{◌≡◌, ◌<◌, ◌^◌};
ghost use Rattle.shm_words.specs.Layout.{GeometryFits, address_limit};
ghost use Rattle.shm_table.specs.{TakeHead.{Control.taking_head, take_head_plan}, Proved.TakeHead.Laws.take_head_laws};

use plans::{Or, Plan, Word};
use shm_count::{EraSpent, StepDown};
use shm_graph::{Machine, Me};
use std::marker::Model;

/// Which call of it comes next.
#[derive(Clone, Copy, Drop)]
pub enum TakeHeadPoint {
    /// The slot at the head, which names the block, comes to be empty.
    Lower,
    /// The head is stored, one more.
    Store,
}

/// The control of it: the own head is `at`, and `block` is the item there.
#[derive(Clone, Copy, Drop)]
pub struct TakeHeadState {
    pub me: Me,
    pub from: u8,
    pub at: u64,
    pub block: u32,
    pub point: TakeHeadPoint,
}

/// Its calls.
pub type TakeHeadCall = Or<Word, StepDown>;

/// What its calls answer.
pub type TakeHeadAnswer = Or<u64, Result<bool, EraSpent>>;

/// The calls by which an identity takes an item that is known.
///
/// It answers `EraSpent` where the own era is above 2^47 - 3: the item stays in the queue then, and the head isn't stored.
#[derive(Drop)]
pub struct TakeHead {
    state: TakeHeadState,
}

impl Model for TakeHead {
    ghost use Rattle.shm_table.specs.declared.take_head.TakeHeadState.{TakeHeadState as AState};

    ghost Value = { AState };

    ghost view = { λ a. a.state };

    ghost use Rattle.shm_table.specs.TakeHead.Control.{TakeHeadInRange};

    ghost invariant = { λ a. TakeHeadInRange a.state };
}

impl TakeHead {
    /// The item `block` of the queue from the identity `from`, whose head is `at`, before the first call.
    #[inline(always)]
    pub fn new(me: Me, from: u8, at: u64, block: u32) -> TakeHead
        requires geometry { GeometryFits me.geometry }
        requires who { me.who < me.geometry.clients }
        requires from { from < me.geometry.clients }
        requires block { block < address_limit }
        ensures { result ≡ taking_head me from at block }
    {
        TakeHead {
            state: TakeHeadState {
                me,
                from,
                at,
                block,
                point: TakeHeadPoint::Lower,
            },
        }
    }
}

impl Plan for TakeHead {
    type Call = TakeHeadCall;

    type Answer = Result<(), EraSpent>;

    ghost plan = { take_head_plan };

    #[inline(always)]
    fn me(&self) -> Me {
        self.state.me
    }

    #[inline(always)]
    fn call(&self) -> TakeHeadCall {
        let TakeHeadState {
            me,
            from,
            at,
            block,
            point,
        } = self.state;
        let pool = me.geometry;
        let slot = pool.slot(from, me.who, (at % 8) as u8);
        match point {
            TakeHeadPoint::Lower => Or::Second(StepDown::new(me, slot, block)),
            TakeHeadPoint::Store => {
                let next = at.wrapping_add(1);
                Or::First(Word::store(me, pool.head(from, me.who), next))
            }
        }
    }

    #[inline(always)]
    fn next(&mut self, answer: TakeHeadAnswer) -> Option<Result<(), EraSpent>> {
        match answer {
            Or::First(_) => Some(Ok(())),
            Or::Second(Ok(_)) => {
                self.state.point = TakeHeadPoint::Store;
                None
            }
            Or::Second(Err(spent)) => Some(Err(spent)),
        }
    }

    ghost laws = { take_head_laws };
}
