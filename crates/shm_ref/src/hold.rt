//! Taking a latch.

ghost use Rattle.std.specs.Prelude.{◌≡◌, ◌<◌};
ghost use Rattle.shm_words.specs.Layout.{GeometryFits};
ghost use Rattle.shm_ref.specs.{Hold.{Control.holding, hold_plan}, Proved.Hold.Laws.hold_laws};
ghost use Rattle.shm_ref.specs.Proved.LatchTasks.{HoldMay, hold_task};

use crate::answer::Busy;
use plans::{Plan, Task, Word};
use shm_graph::{Machine, Me};
use std::marker::Model;

/// Which word step of it comes next.
#[derive(Clone, Copy, Drop)]
pub enum HoldPoint {
    /// The hold word is stored.
    Want,
    /// The latch is exchanged.
    Take,
    /// The latch is another's, and the hold word is stored as 0.
    Back,
}

/// The control of it; `author` is whose latch it is, and `holder` who was found to hold it.
#[derive(Clone, Copy, Drop)]
pub struct HoldState {
    pub me: Me,
    pub author: u8,
    pub holder: u8,
    pub point: HoldPoint,
}

/// The word steps by which an identity takes a latch.
///
/// It answers `Busy` where the exchange found the latch held; the hold word is then 0 again, and nothing else has changed.
#[derive(Drop)]
pub struct Hold {
    state: HoldState,
}

impl Model for Hold {
    ghost use Rattle.shm_ref.specs.declared.hold.HoldState.{HoldState as AState};

    ghost Value = { AState };

    ghost view = { λ a. a.state };

    ghost use Rattle.shm_ref.specs.Hold.Control.{HoldInRange};

    ghost invariant = { λ a. HoldInRange a.state };
}

impl Hold {
    /// The latch of `author` is to be taken by the identity `me`.
    #[inline(always)]
    pub fn new(me: Me, author: u8) -> Hold
        requires geometry { GeometryFits me.geometry }
        requires who { me.who < me.geometry.clients }
        requires author { author < me.geometry.clients }
        ensures { result ≡ holding me author }
    {
        Hold {
            state: HoldState {
                me,
                author,
                holder: 0,
                point: HoldPoint::Want,
            },
        }
    }
}

impl Plan for Hold {
    type Call = Word;

    type Answer = Result<(), Busy>;

    ghost plan = { hold_plan };

    #[inline(always)]
    fn me(&self) -> Me {
        self.state.me
    }

    #[inline(always)]
    fn call(&self) -> Word {
        let HoldState {
            me,
            author,
            point,
            ..
        } = self.state;
        let hold = me.geometry.hold(me.who);
        match point {
            HoldPoint::Want => Word::store(me, hold, u64::from(author) + 1),
            HoldPoint::Take => {
                Word::exchange(me, me.geometry.latch(author), 0, u64::from(me.who) + 1)
            }
            HoldPoint::Back => Word::store(me, hold, 0),
        }
    }

    #[inline(always)]
    fn next(&mut self, word: u64) -> Option<Result<(), Busy>> {
        match self.state.point {
            HoldPoint::Want => {
                self.state.point = HoldPoint::Take;
                None
            }
            HoldPoint::Take => {
                if word == 0 {
                    Some(Ok(()))
                } else {
                    self.state.holder = ((word - 1) % 256) as u8;
                    self.state.point = HoldPoint::Back;
                    None
                }
            }
            HoldPoint::Back => {
                let holder = self.state.holder;
                Some(Err(Busy { holder }))
            }
        }
    }

    ghost laws = { hold_laws };
}

impl Task for Hold {
    ghost may = { HoldMay };

    ghost tasks = { hold_task };
}
