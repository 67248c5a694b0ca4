//! An entry of the own table goes: the word that leads to it comes to name the next entry or none, and what only the entry named is freed
//! with it.

ghost use Rattle.std.specs.Prelude.{◌≡◌, ◌%◌, ◌^◌, ◌+◌, ◌<◌};
ghost use Rattle.shm_words.specs.Layout.{GeometryFits, address_limit};
ghost use Rattle.shm_table.specs.{Effects.unlink_decided, Unlink.{Control.unlinking, unlink_plan}};
ghost use Rattle.shm_table.specs.Proved.Unlink.Laws.{unlink_laws};
ghost use Rattle.shm_table.specs.Unlink.Control as control;

use crate::effect::Deciding;
use plans::{Calls, Or, Plan, Word};
use shm_count::{EraSpent, StepChange, StepDown, TearDown, UpFault};
use shm_graph::{Machine, Me};
use shm_words::ADDRESS_LIMIT;
use std::marker::Model;

/// Which call of it comes next.
#[derive(Clone, Copy, Drop)]
pub enum UnlinkPoint {
    /// The next word of the entry is loaded.
    Look,
    /// The word that leads to the entry, which is the last one, comes to be empty.
    Lower,
    /// The word that leads to the entry comes to name the next one.
    Change,
    /// The entry, whose count came to 0, is torn down.
    Tear,
}

/// The control of it: word `word` of block `before` leads to `entry`, and `next` is what the entry's next word was found to name.
#[derive(Clone, Copy, Drop)]
pub struct UnlinkState {
    pub me: Me,
    pub entry: u32,
    pub before: u32,
    pub word: u8,
    pub next: u32,
    pub point: UnlinkPoint,
}

/// Its calls: a word step, a step down, a change, and a tear-down.
pub type UnlinkCall = Or<Word, Or<StepDown, Or<StepChange, TearDown>>>;

/// What its calls answer.
pub type UnlinkAnswer = Or<
    u64,
    Or<Result<bool, EraSpent>, Or<Result<bool, UpFault>, Result<(), EraSpent>>>,
>;

/// The calls by which an entry of the own table is taken out of its chain.
///
/// It answers an `UpFault` where the word stays what it was; a tear-down that is refused leaves blocks behind, and changes no answer.
#[derive(Drop)]
pub struct Unlink {
    state: UnlinkState,
}

impl Model for Unlink {
    ghost use Rattle.shm_table.specs.declared.unlink.UnlinkState.{UnlinkState as AState};

    ghost Value = { AState };

    ghost view = { λ a. a.state };

    ghost use Rattle.shm_table.specs.Unlink.Control.{UnlinkInRange};

    ghost invariant = { λ a. UnlinkInRange a.state };
}

/// The address of a word of a block, after its header and its tag.
#[inline(always)]
fn slot_of(block: u32, word: u8) -> u32
    requires block { block < address_limit }
    ensures address { result ≡ (block + 2 + word) % address_limit }
    ensures small { result < address_limit }
{
    (block + 2 + u32::from(word)) % ADDRESS_LIMIT
}

/// The refusal of a step down.
#[inline(always)]
fn refused(spent: EraSpent) -> UpFault
    ensures { result ≡ control.spent_fault spent }
{
    UpFault::EraSpent { era: spent.era }
}

impl Unlink {
    /// The entry `entry`, to which word `word` of block `before` leads, is to go.
    #[inline(always)]
    pub fn new(me: Me, entry: u32, before: u32, word: u8) -> Unlink
        requires geometry { GeometryFits me.geometry }
        requires who { me.who < me.geometry.clients }
        requires entry { entry < address_limit }
        requires before { before < address_limit }
        ensures { result ≡ unlinking me entry before word }
    {
        Unlink {
            state: UnlinkState {
                me,
                entry,
                before,
                word,
                next: 0,
                point: UnlinkPoint::Look,
            },
        }
    }
}

impl UnlinkState {
    /// Where it goes, by the word that was found.
    #[inline(always)]
    fn found(&mut self, word: u64)
        ensures state { self.new ≡ control.found_after self.old word }
    {
        let next = (word % u64::from(ADDRESS_LIMIT)) as u32;
        self.next = next;
        self.point = if next == 0 {
            UnlinkPoint::Lower
        } else {
            UnlinkPoint::Change
        };
    }

    /// Where it goes, and what it answers, once the entry lost a reference: `zero` says whether its count came to 0.
    #[inline(always)]
    fn lowered(&mut self, zero: bool) -> Option<Result<(), UpFault>>
        ensures state { self.new ≡ control.lowered_after self.old zero }
        ensures answer { result ≡ control.lowered_turns zero }
    {
        if zero {
            self.point = UnlinkPoint::Tear;
            None
        } else {
            Some(Ok(()))
        }
    }
}

impl Plan for Unlink {
    type Call = UnlinkCall;

    type Answer = Result<(), UpFault>;

    ghost plan = { unlink_plan };

    #[inline(always)]
    fn me(&self) -> Me {
        self.state.me
    }

    #[inline(always)]
    fn call(&self) -> UnlinkCall {
        let UnlinkState {
            me,
            entry,
            before,
            word,
            next,
            point,
        } = self.state;
        let slot = slot_of(before, word);
        match point {
            UnlinkPoint::Look => Or::First(Word::load(me, entry + 2)),
            UnlinkPoint::Lower => Or::Second(Or::First(StepDown::new(me, slot, entry))),
            UnlinkPoint::Change => {
                Or::Second(Or::Second(Or::First(StepChange::new(me, slot, entry, next))))
            }
            UnlinkPoint::Tear => Or::Second(Or::Second(Or::Second(TearDown::new(me, entry)))),
        }
    }

    #[inline(always)]
    fn next(&mut self, answer: UnlinkAnswer) -> Option<Result<(), UpFault>> {
        match answer {
            Or::First(word) => {
                self.state.found(word);
                None
            }
            Or::Second(Or::First(Ok(zero))) => self.state.lowered(zero),
            Or::Second(Or::First(Err(spent))) => Some(Err(refused(spent))),
            Or::Second(Or::Second(Or::First(Ok(zero)))) => self.state.lowered(zero),
            Or::Second(Or::Second(Or::First(Err(fault)))) => Some(Err(fault)),
            Or::Second(Or::Second(Or::Second(_))) => Some(Ok(())),
        }
    }

    ghost laws = { unlink_laws };
}

impl Deciding for Calls<Unlink> {
    ghost decided = { unlink_decided };

    /// The step at the word that leads to the entry decides, and a tear-down comes after it.
    #[inline(always)]
    fn decided(&self) -> bool {
        match self.call() {
            Or::First(_) => false,
            Or::Second(Or::First(down)) => down.exchanged(),
            Or::Second(Or::Second(Or::First(change))) => change.exchanged(),
            Or::Second(Or::Second(Or::Second(_))) => true,
        }
    }
}
