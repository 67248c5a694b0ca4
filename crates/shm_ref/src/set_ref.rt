//! A reference word of an own block comes to name another block, or none, and what only it named is freed.

ghost use Rattle.std.specs.Prelude.{◌≡◌, ◌<◌, ◌≤◌, ◌^◌, ◌+◌};
ghost use Rattle.shm_words.specs.Layout.{GeometryFits, total_of, address_limit};
ghost use Rattle.shm_ref.specs.{SetRef.{Control.setting, set_plan}, Proved.SetRef.Laws.set_laws};
ghost use Rattle.shm_ref.specs.Proved.RootTasks.{SetMay, set_task};
ghost use Rattle.shm_ref.specs.SetRef.Control as control;

use crate::answer::SetFault;
use crate::tagged::{author_in, refs_in};
use plans::{Or, Plan, Task, Word};
use shm_count::{EraSpent, StepChange, StepDown, StepUp, TearDown, UpFault};
use shm_graph::{Machine, Me};
use shm_words::ADDRESS_LIMIT;
use std::marker::Model;

/// Which call of it comes next.
#[derive(Clone, Copy, Drop)]
pub enum SetPoint {
    /// The tag of the block is loaded.
    Tag,
    /// The hold word is loaded.
    Held,
    /// The reference word is loaded.
    Look,
    /// The word, which is empty, comes to name the new block.
    Raise,
    /// The word, which names the old block, comes to be empty.
    Lower,
    /// The word, which names the old block, comes to name the new one.
    Change,
    /// The old block, whose count came to 0, is torn down.
    Tear,
}

/// The control of it: `word` of `block` is to be `to`; `before` is what it was found to name.
#[derive(Clone, Copy, Drop)]
pub struct SetState {
    pub me: Me,
    pub block: u32,
    pub word: u8,
    pub to: u32,
    pub before: u32,
    pub point: SetPoint,
}

/// Its calls: a word step, a step up, a step down, a change, and a tear-down.
pub type SetCall = Or<Word, Or<Or<StepUp, StepDown>, Or<StepChange, TearDown>>>;

/// What its calls answer.
pub type SetAnswer = Or<
    u64,
    Or<
        Or<Result<(), UpFault>, Result<bool, EraSpent>>,
        Or<Result<bool, UpFault>, Result<(), EraSpent>>,
    >,
>;

/// The calls by which a reference word of an own block comes to be `to`.
///
/// It answers `SetFault` where the block isn't of the identity, the word is none of its reference words, the own latch isn't held, or a
/// count step was refused.
#[derive(Drop)]
pub struct SetRef {
    state: SetState,
}

impl Model for SetRef {
    ghost use Rattle.shm_ref.specs.declared.set_ref.SetState.{SetState as AState};

    ghost Value = { AState };

    ghost view = { λ a. a.state };

    ghost use Rattle.shm_ref.specs.SetRef.Control.{SetInRange};

    ghost invariant = { λ a. SetInRange a.state };
}

impl SetRef {
    /// Reference word `word` of `block` is to name the block `to`, or none where it is 0.
    #[inline(always)]
    pub fn new(me: Me, block: u32, word: u8, to: u32) -> SetRef
        requires geometry { GeometryFits me.geometry }
        requires who { me.who < me.geometry.clients }
        requires block { block + 2 ≤ total_of me.geometry }
        requires to { to < address_limit }
        ensures { result ≡ setting me block word to }
    {
        SetRef {
            state: SetState {
                me,
                block,
                word,
                to,
                before: 0,
                point: SetPoint::Tag,
            },
        }
    }
}

impl SetState {
    /// Where it goes, and what it answers, by the word that was found.
    #[inline(always)]
    fn found(&mut self, word: u64) -> Option<Result<(), SetFault>>
        ensures state { self.new ≡ control.found_after self.old self.old.point word }
        ensures answer { result ≡ control.found_turns self.old self.old.point word }
    {
        match self.point {
            SetPoint::Tag => {
                self.point = SetPoint::Held;
                let author = author_in(self.me, word);
                let refs = refs_in(self.me, word);
                if author != self.me.who {
                    Some(Err(SetFault::NotAuthor { author }))
                } else if refs <= self.word {
                    Some(Err(SetFault::NoSuchRef { refs }))
                } else {
                    None
                }
            }
            SetPoint::Held => {
                self.point = SetPoint::Look;
                if word == u64::from(self.me.who) + 1 {
                    None
                } else {
                    Some(Err(SetFault::NotHeld))
                }
            }
            _ => {
                let before = (word % u64::from(ADDRESS_LIMIT)) as u32;
                self.before = before;
                self.point = if before == 0 {
                    SetPoint::Raise
                } else if self.to == 0 {
                    SetPoint::Lower
                } else {
                    SetPoint::Change
                };
                if before == self.to {
                    Some(Ok(()))
                } else {
                    None
                }
            }
        }
    }
}

impl SetState {
    /// Where it goes, and what it answers, once the old block lost a reference: `zero` says whether its count came to 0.
    #[inline(always)]
    fn lowered(&mut self, zero: bool) -> Option<Result<(), SetFault>>
        ensures state { self.new ≡ control.lowered_after self.old zero }
        ensures answer { result ≡ control.lowered_turns zero }
    {
        if zero {
            self.point = SetPoint::Tear;
            None
        } else {
            Some(Ok(()))
        }
    }
}

/// What it answers where the own era is spent.
#[inline(always)]
fn spent_by(spent: EraSpent) -> SetFault
    ensures { result ≡ control.spent_fault spent }
{
    SetFault::EraSpent { era: spent.era }
}

/// What it answers where a count step was refused.
#[inline(always)]
fn refused(fault: UpFault) -> SetFault
    ensures { result ≡ control.set_fault fault }
{
    match fault {
        UpFault::EraSpent { era } => SetFault::EraSpent { era },
        UpFault::CountFull { block, count } => SetFault::CountFull { block, count },
    }
}

impl Plan for SetRef {
    type Call = SetCall;

    type Answer = Result<(), SetFault>;

    ghost plan = { set_plan };

    #[inline(always)]
    fn me(&self) -> Me {
        self.state.me
    }

    #[inline(always)]
    fn call(&self) -> SetCall {
        let SetState {
            me,
            block,
            word,
            to,
            before,
            point,
        } = self.state;
        let slot = block + 2 + u32::from(word);
        match point {
            SetPoint::Tag => Or::First(Word::load(me, block + 1)),
            SetPoint::Held => Or::First(Word::load(me, me.geometry.hold(me.who))),
            SetPoint::Look => Or::First(Word::load(me, slot)),
            SetPoint::Raise => Or::Second(Or::First(Or::First(StepUp::new(me, slot, to)))),
            SetPoint::Lower => Or::Second(Or::First(Or::Second(StepDown::new(me, slot, before)))),
            SetPoint::Change => {
                Or::Second(Or::Second(Or::First(StepChange::new(me, slot, before, to))))
            }
            SetPoint::Tear => Or::Second(Or::Second(Or::Second(TearDown::new(me, before)))),
        }
    }

    #[inline(always)]
    fn next(&mut self, answer: SetAnswer) -> Option<Result<(), SetFault>> {
        match answer {
            Or::First(word) => self.state.found(word),
            Or::Second(Or::First(Or::First(Ok(())))) => Some(Ok(())),
            Or::Second(Or::First(Or::First(Err(fault)))) => Some(Err(refused(fault))),
            Or::Second(Or::First(Or::Second(Ok(zero)))) => self.state.lowered(zero),
            Or::Second(Or::First(Or::Second(Err(spent)))) => Some(Err(spent_by(spent))),
            Or::Second(Or::Second(Or::First(Ok(zero)))) => self.state.lowered(zero),
            Or::Second(Or::Second(Or::First(Err(fault)))) => Some(Err(refused(fault))),
            Or::Second(Or::Second(Or::Second(Ok(())))) => Some(Ok(())),
            Or::Second(Or::Second(Or::Second(Err(spent)))) => Some(Err(spent_by(spent))),
        }
    }

    ghost laws = { set_laws };
}

impl Task for SetRef {
    ghost may = { SetMay };

    ghost tasks = { set_task };
}
