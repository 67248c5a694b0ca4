//! The home of an identity comes to name a block.

ghost use Rattle.std.specs.Prelude.{◌≡◌, ◌<◌, ◌^◌};
ghost use Rattle.shm_words.specs.Layout.{GeometryFits, address_limit};
ghost use Rattle.shm_ref.specs.{SetHome.{homing, home_plan}, Proved.SetHome.Laws.home_laws};
ghost use Rattle.shm_ref.specs.Proved.RootTasks.{HomeMay, home_task};

use crate::answer::HomeFault;
use plans::{Or, Plan, Task, Word};
use shm_count::{StepUp, UpFault};
use shm_graph::{Machine, Me};
use shm_words::ADDRESS_LIMIT;
use std::marker::Model;

/// Which call of it comes next.
#[derive(Clone, Copy, Drop)]
pub enum HomePoint {
    /// The home is loaded.
    Load,
    /// The home, which is empty, comes to name the block.
    Raise,
}

/// The control of it; `block` is what the home is to name.
#[derive(Clone, Copy, Drop)]
pub struct HomeState {
    pub me: Me,
    pub block: u32,
    pub point: HomePoint,
}

/// The calls by which the home of an identity comes to name a block.
///
/// It answers `HomeFault` where the home names a block, or the step up was refused; then no reference has changed.
#[derive(Drop)]
pub struct SetHome {
    state: HomeState,
}

impl Model for SetHome {
    ghost use Rattle.shm_ref.specs.declared.set_home.HomeState.{HomeState as AState};

    ghost Value = { AState };

    ghost view = { λ a. a.state };

    ghost use Rattle.shm_ref.specs.SetHome.{HomeInRange};

    ghost invariant = { λ a. HomeInRange a.state };
}

impl SetHome {
    /// The home of the identity `me` is to name `block`.
    #[inline(always)]
    pub fn new(me: Me, block: u32) -> SetHome
        requires geometry { GeometryFits me.geometry }
        requires who { me.who < me.geometry.clients }
        requires block { block < address_limit }
        ensures { result ≡ homing me block }
    {
        SetHome {
            state: HomeState {
                me,
                block,
                point: HomePoint::Load,
            },
        }
    }
}

impl Plan for SetHome {
    type Call = Or<Word, StepUp>;

    type Answer = Result<(), HomeFault>;

    ghost plan = { home_plan };

    #[inline(always)]
    fn me(&self) -> Me {
        self.state.me
    }

    #[inline(always)]
    fn call(&self) -> Or<Word, StepUp> {
        let HomeState { me, block, point } = self.state;
        let home = me.geometry.home(me.who);
        match point {
            HomePoint::Load => Or::First(Word::load(me, home)),
            HomePoint::Raise => Or::Second(StepUp::new(me, home, block)),
        }
    }

    #[inline(always)]
    fn next(&mut self, answer: Or<u64, Result<(), UpFault>>) -> Option<Result<(), HomeFault>> {
        match answer {
            Or::First(word) => {
                self.state.point = HomePoint::Raise;
                if word == 0 {
                    None
                } else {
                    let block = (word % u64::from(ADDRESS_LIMIT)) as u32;
                    Some(Err(HomeFault::HomeSet { block }))
                }
            }
            Or::Second(Ok(())) => Some(Ok(())),
            Or::Second(Err(UpFault::EraSpent { era })) => Some(Err(HomeFault::EraSpent { era })),
            Or::Second(Err(UpFault::CountFull { block, count })) => {
                Some(Err(HomeFault::CountFull { block, count }))
            }
        }
    }

    ghost laws = { home_laws };
}

impl Task for SetHome {
    ghost may = { HomeMay };

    ghost tasks = { home_task };
}
