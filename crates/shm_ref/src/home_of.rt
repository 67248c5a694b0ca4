//! The home of an author, read under the author's latch.

ghost use Rattle.std.specs.Prelude.{◌≡◌, ◌<◌};
ghost use Rattle.shm_words.specs.Layout.{GeometryFits};
ghost use Rattle.shm_ref.specs.{HomeOf.{finding, home_of_plan}, Proved.HomeOf.Laws.home_of_laws};
ghost use Rattle.shm_ref.specs.Proved.LatchTasks.{HomeOfMay, home_of_task};

use crate::answer::NotHeld;
use plans::{Plan, Task, Word};
use shm_graph::{Machine, Me};
use shm_words::ADDRESS_LIMIT;
use std::marker::Model;

/// Which word step of it comes next.
#[derive(Clone, Copy, Drop)]
pub enum HomeOfPoint {
    /// The hold word is loaded.
    Whose,
    /// The author's home is loaded.
    Find,
}

/// The control of it.
#[derive(Clone, Copy, Drop)]
pub struct HomeOfState {
    pub me: Me,
    pub author: u8,
    pub point: HomeOfPoint,
}

/// The word steps that tell what the home of `author` names.
///
/// It answers the block that the home names, or 0; a block that it answers may be read while the latch is held.
#[derive(Drop)]
pub struct HomeOf {
    state: HomeOfState,
}

impl Model for HomeOf {
    ghost use Rattle.shm_ref.specs.declared.home_of.HomeOfState.{HomeOfState as AState};

    ghost Value = { AState };

    ghost view = { λ a. a.state };

    ghost use Rattle.shm_ref.specs.HomeOf.{HomeOfInRange};

    ghost invariant = { λ a. HomeOfInRange a.state };
}

impl HomeOf {
    /// The home of `author` for the identity `me`, before the first word step.
    #[inline(always)]
    pub fn new(me: Me, author: u8) -> HomeOf
        requires geometry { GeometryFits me.geometry }
        requires who { me.who < me.geometry.clients }
        requires author { author < me.geometry.clients }
        ensures { result ≡ finding me author }
    {
        HomeOf {
            state: HomeOfState {
                me,
                author,
                point: HomeOfPoint::Whose,
            },
        }
    }
}

impl Plan for HomeOf {
    type Call = Word;

    type Answer = Result<u32, NotHeld>;

    ghost plan = { home_of_plan };

    #[inline(always)]
    fn me(&self) -> Me {
        self.state.me
    }

    #[inline(always)]
    fn call(&self) -> Word {
        let HomeOfState { me, author, point } = self.state;
        match point {
            HomeOfPoint::Whose => Word::load(me, me.geometry.hold(me.who)),
            HomeOfPoint::Find => Word::load(me, me.geometry.home(author)),
        }
    }

    #[inline(always)]
    fn next(&mut self, word: u64) -> Option<Result<u32, NotHeld>> {
        match self.state.point {
            HomeOfPoint::Whose => {
                self.state.point = HomeOfPoint::Find;
                if word == u64::from(self.state.author) + 1 {
                    None
                } else {
                    Some(Err(NotHeld))
                }
            }
            HomeOfPoint::Find => Some(Ok((word % u64::from(ADDRESS_LIMIT)) as u32)),
        }
    }

    ghost laws = { home_of_laws };
}

impl Task for HomeOf {
    ghost may = { HomeOfMay };

    ghost tasks = { home_of_task };
}
