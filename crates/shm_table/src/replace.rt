//! An entry of the own table comes to have another value block, and what only it named is freed.

ghost use Rattle.std.specs.Prelude.{◌≡◌, ◌%◌, ◌^◌, ◌+◌, ◌<◌};
ghost use Rattle.shm_words.specs.Layout.{GeometryFits, address_limit};
ghost use Rattle.shm_table.specs.{Effects.replace_decided, Replace.{Control.replacing, replace_plan}};
ghost use Rattle.shm_table.specs.Proved.Replace.Laws.{replace_laws};
ghost use Rattle.shm_table.specs.Replace.Control as control;

use crate::answer::PutFault;
use crate::effect::Deciding;
use plans::{Calls, Or, Plan, Word};
use shm_count::{EraSpent, StepChange, TearDown, UpFault};
use shm_graph::{Machine, Me};
use shm_words::ADDRESS_LIMIT;
use std::marker::Model;

/// Which call of it comes next.
#[derive(Clone, Copy, Drop)]
pub enum ReplacePoint {
    /// The value word of the entry is loaded.
    Look,
    /// The value word, which names the old block, comes to name the new one.
    Change,
    /// The old block, whose count came to 0, is torn down.
    Tear,
}

/// The control of it: the value block of `entry` is to be `to`; `before` is the one that it was found to have.
#[derive(Clone, Copy, Drop)]
pub struct ReplaceState {
    pub me: Me,
    pub entry: u32,
    pub to: u32,
    pub before: u32,
    pub point: ReplacePoint,
}

/// Its calls: a word step, a change, and a tear-down.
pub type ReplaceCall = Or<Word, Or<StepChange, TearDown>>;

/// What its calls answer.
pub type ReplaceAnswer = Or<u64, Or<Result<bool, UpFault>, Result<(), EraSpent>>>;

/// The calls by which an entry of the own table comes to have another value block.
///
/// It answers whether the entry came to have the value block, or had it already, and a `PutFault` where the change was refused; a tear-down
/// that is refused leaves blocks behind, and changes no answer.
#[derive(Drop)]
pub struct Replace {
    state: ReplaceState,
}

impl Model for Replace {
    ghost use Rattle.shm_table.specs.declared.replace.ReplaceState.{ReplaceState as AState};

    ghost Value = { AState };

    ghost view = { λ a. a.state };

    ghost use Rattle.shm_table.specs.Replace.Control.{ReplaceInRange};

    ghost invariant = { λ a. ReplaceInRange a.state };
}

impl Replace {
    /// The value block of `entry` is to be `to`.
    #[inline(always)]
    pub fn new(me: Me, entry: u32, to: u32) -> Replace
        requires geometry { GeometryFits me.geometry }
        requires who { me.who < me.geometry.clients }
        requires entry { entry < address_limit }
        requires to { to < address_limit }
        ensures { result ≡ replacing me entry to }
    {
        Replace {
            state: ReplaceState {
                me,
                entry,
                to,
                before: 0,
                point: ReplacePoint::Look,
            },
        }
    }
}

impl ReplaceState {
    /// Where it goes, and what it answers, by the word that was found.
    #[inline(always)]
    fn found(&mut self, word: u64) -> Option<Result<bool, PutFault>>
        ensures state { self.new ≡ control.found_after self.old word }
        ensures answer { result ≡ control.found_turns self.old word }
    {
        let before = (word % u64::from(ADDRESS_LIMIT)) as u32;
        self.before = before;
        self.point = ReplacePoint::Change;
        if before == self.to {
            Some(Ok(false))
        } else {
            None
        }
    }

    /// Where it goes, and what it answers, once the old block lost a reference: `zero` says whether its count came to 0.
    #[inline(always)]
    fn lowered(&mut self, zero: bool) -> Option<Result<bool, PutFault>>
        ensures state { self.new ≡ control.lowered_after self.old zero }
        ensures answer { result ≡ control.lowered_turns zero }
    {
        if zero {
            self.point = ReplacePoint::Tear;
            None
        } else {
            Some(Ok(true))
        }
    }
}

impl Plan for Replace {
    type Call = ReplaceCall;

    type Answer = Result<bool, PutFault>;

    ghost plan = { replace_plan };

    #[inline(always)]
    fn me(&self) -> Me {
        self.state.me
    }

    #[inline(always)]
    fn call(&self) -> ReplaceCall {
        let ReplaceState {
            me,
            entry,
            to,
            before,
            point,
        } = self.state;
        let at = entry + 2 + 1;
        match point {
            ReplacePoint::Look => Or::First(Word::load(me, at)),
            ReplacePoint::Change => {
                let slot = at % ADDRESS_LIMIT;
                Or::Second(Or::First(StepChange::new(me, slot, before, to)))
            }
            ReplacePoint::Tear => Or::Second(Or::Second(TearDown::new(me, before))),
        }
    }

    #[inline(always)]
    fn next(&mut self, answer: ReplaceAnswer) -> Option<Result<bool, PutFault>> {
        match answer {
            Or::First(word) => self.state.found(word),
            Or::Second(Or::First(Ok(zero))) => self.state.lowered(zero),
            Or::Second(Or::First(Err(fault))) => Some(Err(PutFault::raised(fault))),
            Or::Second(Or::Second(_)) => Some(Ok(true)),
        }
    }

    ghost laws = { replace_laws };
}

impl Deciding for Calls<Replace> {
    ghost decided = { replace_decided };

    /// The change decides, and a tear-down comes after it.
    #[inline(always)]
    fn decided(&self) -> bool {
        match self.call() {
            Or::First(_) => false,
            Or::Second(Or::First(change)) => change.exchanged(),
            Or::Second(Or::Second(_)) => true,
        }
    }
}
