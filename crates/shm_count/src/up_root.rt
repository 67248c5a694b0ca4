//! The least empty root of an identity comes to name a block.

ghost use Rattle.std.specs.Prelude.{◌≡◌, ◌<◌, ◌^◌};
ghost use Rattle.shm_words.specs.Layout.{GeometryFits, address_limit};
ghost use Rattle.shm_count.specs.{UpRoot.{Control.rooting, rooting_plan}, Proved.UpRoot.Laws.rooting_laws};
ghost use Rattle.shm_count.specs.Proved.ShareTask.{ShareMay, share_task};
ghost use Rattle.shm_count.specs.UpRoot.Control as control;

use crate::answer::{ShareFault, UpFault};
use crate::step::StepUp;
use plans::{Or, Plan, Task, Word};
use shm_graph::{Machine, Me};
use std::marker::Model;

/// Which call of it comes next.
#[derive(Clone, Copy, Drop)]
pub enum RootingPoint {
    /// The own era is loaded.
    Era,
    /// The root is loaded.
    Look,
    /// The root, which is empty, comes to name the block.
    Step,
}

/// The control of it; `era` is the own era that was found, and `root` is the one that comes next.
#[derive(Clone, Copy, Drop)]
pub struct RootingState {
    pub me: Me,
    pub block: u32,
    pub era: u64,
    pub root: u8,
    pub point: RootingPoint,
}

/// The calls by which the least empty root of an identity comes to name a block.
///
/// It answers the root, or why none names the block: `EraSpent` where the own era is above 2^47 - 3, then `RootsFull`, then `CountFull`.
#[derive(Drop)]
pub struct UpRoot {
    state: RootingState,
}

impl Model for UpRoot {
    ghost use Rattle.shm_count.specs.declared.up_root.RootingState.{RootingState as AState};

    ghost Value = { AState };

    ghost view = { λ a. a.state };

    ghost use Rattle.shm_count.specs.UpRoot.Control.{RootingInRange};

    ghost invariant = { λ a. RootingInRange a.state };
}

impl UpRoot {
    /// A root of the identity `me` is to name `block`, before the first call.
    #[inline(always)]
    pub fn new(me: Me, block: u32) -> UpRoot
        requires geometry { GeometryFits me.geometry }
        requires who { me.who < me.geometry.clients }
        requires block { block < address_limit }
        ensures { result ≡ rooting me block }
    {
        UpRoot {
            state: RootingState {
                me,
                block,
                era: 0,
                root: 0,
                point: RootingPoint::Era,
            },
        }
    }
}

impl Plan for UpRoot {
    type Call = Or<Word, StepUp>;

    type Answer = Result<u8, ShareFault>;

    ghost plan = { rooting_plan };

    #[inline(always)]
    fn me(&self) -> Me {
        self.state.me
    }

    #[inline(always)]
    fn call(&self) -> Or<Word, StepUp> {
        let RootingState {
            me,
            block,
            era,
            root,
            point,
        } = self.state;
        let slot = me.geometry.root(me.who, root);
        match point {
            RootingPoint::Era => Or::First(Word::load(me, me.geometry.era(me.who, me.who))),
            RootingPoint::Look => Or::First(Word::load(me, slot)),
            RootingPoint::Step => Or::Second(StepUp::taken_up(me, slot, block, era)),
        }
    }

    #[inline(always)]
    fn next(&mut self, answer: Or<u64, Result<(), UpFault>>) -> Option<Result<u8, ShareFault>> {
        match answer {
            Or::First(word) => match self.state.point {
                RootingPoint::Era => {
                    if word > (1 << 47) - 3 {
                        Some(Err(ShareFault::EraSpent { era: word }))
                    } else {
                        self.state.era = word;
                        self.state.point = RootingPoint::Look;
                        None
                    }
                }
                RootingPoint::Look | RootingPoint::Step => {
                    if word == 0 {
                        self.state.point = RootingPoint::Step;
                        None
                    } else if self.state.root == 15 {
                        Some(Err(ShareFault::RootsFull))
                    } else {
                        self.state.root += 1;
                        None
                    }
                }
            },
            Or::Second(Ok(())) => Some(Ok(self.state.root)),
            Or::Second(Err(fault)) => Some(Err(share_fault(fault))),
        }
    }

    ghost laws = { rooting_laws };
}

impl Task for UpRoot {
    ghost may = { ShareMay };

    ghost tasks = { share_task };
}

/// What the refusal of the step up says of the whole.
#[inline(always)]
fn share_fault(fault: UpFault) -> ShareFault
    ensures { result ≡ control.share_fault fault }
{
    match fault {
        UpFault::EraSpent { era } => ShareFault::EraSpent { era },
        UpFault::CountFull { block, count } => ShareFault::CountFull { block, count },
    }
}
