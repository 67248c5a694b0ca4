//! Giving back a latch.

ghost use Rattle.std.specs.Prelude.{◌≡◌, ◌<◌};
ghost use Rattle.shm_words.specs.Layout.{GeometryFits};
ghost use Rattle.shm_ref.specs.{Release.{releasing, release_plan}, Proved.Release.Laws.release_laws};
ghost use Rattle.shm_ref.specs.Proved.LatchTasks.{ReleaseMay, release_task};

use plans::{Plan, Task, Word};
use shm_graph::{Machine, Me};
use std::marker::Model;

/// Which word step of it comes next.
#[derive(Clone, Copy, Drop)]
pub enum ReleasePoint {
    /// The hold word is loaded.
    Whose,
    /// The latch is stored as 0.
    Give,
    /// The hold word is stored as 0.
    Back,
}

/// The control of it; `author` is whose latch was found to be held.
#[derive(Clone, Copy, Drop)]
pub struct ReleaseState {
    pub me: Me,
    pub author: u8,
    pub point: ReleasePoint,
}

/// The word steps by which an identity gives back the latch that it holds.
///
/// After it no latch is held, and nothing that was read under it is looked at.
#[derive(Drop)]
pub struct Release {
    state: ReleaseState,
}

impl Model for Release {
    ghost use Rattle.shm_ref.specs.declared.release.ReleaseState.{ReleaseState as AState};

    ghost Value = { AState };

    ghost view = { λ a. a.state };

    ghost use Rattle.shm_ref.specs.Release.{ReleaseInRange};

    ghost invariant = { λ a. ReleaseInRange a.state };
}

impl Release {
    /// The latch of the identity `me` is to be given back.
    #[inline(always)]
    pub fn new(me: Me) -> Release
        requires geometry { GeometryFits me.geometry }
        requires who { me.who < me.geometry.clients }
        ensures { result ≡ releasing me }
    {
        Release {
            state: ReleaseState {
                me,
                author: 0,
                point: ReleasePoint::Whose,
            },
        }
    }
}

impl Plan for Release {
    type Call = Word;

    type Answer = ();

    ghost plan = { release_plan };

    #[inline(always)]
    fn me(&self) -> Me {
        self.state.me
    }

    #[inline(always)]
    fn call(&self) -> Word {
        let ReleaseState { me, author, point } = self.state;
        let hold = me.geometry.hold(me.who);
        match point {
            ReleasePoint::Whose => Word::load(me, hold),
            ReleasePoint::Give => Word::store(me, me.geometry.latch(author), 0),
            ReleasePoint::Back => Word::store(me, hold, 0),
        }
    }

    #[inline(always)]
    fn next(&mut self, word: u64) -> Option<()> {
        match self.state.point {
            ReleasePoint::Whose => {
                let clients = u64::from(self.state.me.geometry.clients());
                self.state.author = (word.saturating_sub(1) % clients) as u8;
                self.state.point = ReleasePoint::Give;
                None
            }
            ReleasePoint::Give => {
                self.state.point = ReleasePoint::Back;
                None
            }
            ReleasePoint::Back => Some(()),
        }
    }

    ghost laws = { release_laws };
}

impl Task for Release {
    ghost may = { ReleaseMay };

    ghost tasks = { release_task };
}
