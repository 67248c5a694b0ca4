//! Giving back a latch of which the machine knows whose it is.

ghost use Rattle.std.specs.Prelude.{◌≡◌, ◌<◌};
ghost use Rattle.shm_words.specs.Layout.{GeometryFits};
ghost use Rattle.shm_table.specs.{Unlatch.{unlatch_plan, Control.unlatching}, Proved.Unlatch.Laws.unlatch_laws};

use plans::{Plan, Word};
use shm_graph::{Machine, Me};
use std::marker::Model;

/// Which word step of it comes next.
#[derive(Clone, Copy, Drop)]
pub enum UnlatchPoint {
    /// The latch is stored as 0.
    Give,
    /// The hold word is stored as 0.
    Back,
}

/// The control of it; `author` is whose latch it is.
#[derive(Clone, Copy, Drop)]
pub struct UnlatchState {
    pub me: Me,
    pub author: u8,
    pub point: UnlatchPoint,
}

/// The word steps by which an identity gives back the latch of an author.
///
/// After it no latch is held, and nothing that was read under it is looked at.
#[derive(Drop)]
pub struct Unlatch {
    state: UnlatchState,
}

impl Model for Unlatch {
    ghost use Rattle.shm_table.specs.declared.unlatch.UnlatchState.{UnlatchState as AState};

    ghost Value = { AState };

    ghost view = { λ a. a.state };

    ghost use Rattle.shm_table.specs.Unlatch.Control.{UnlatchInRange};

    ghost invariant = { λ a. UnlatchInRange a.state };
}

impl Unlatch {
    /// The latch of `author`, which the identity `me` holds, is to be given back.
    #[inline(always)]
    pub fn new(me: Me, author: u8) -> Unlatch
        requires geometry { GeometryFits me.geometry }
        requires who { me.who < me.geometry.clients }
        requires author { author < me.geometry.clients }
        ensures { result ≡ unlatching me author }
    {
        Unlatch {
            state: UnlatchState {
                me,
                author,
                point: UnlatchPoint::Give,
            },
        }
    }
}

impl Plan for Unlatch {
    type Call = Word;

    type Answer = ();

    ghost plan = { unlatch_plan };

    #[inline(always)]
    fn me(&self) -> Me {
        self.state.me
    }

    #[inline(always)]
    fn call(&self) -> Word {
        let UnlatchState { me, author, point } = self.state;
        match point {
            UnlatchPoint::Give => Word::store(me, me.geometry.latch(author), 0),
            UnlatchPoint::Back => Word::store(me, me.geometry.hold(me.who), 0),
        }
    }

    #[inline(always)]
    fn next(&mut self, _word: u64) -> Option<()> {
        match self.state.point {
            UnlatchPoint::Give => {
                self.state.point = UnlatchPoint::Back;
                None
            }
            UnlatchPoint::Back => Some(()),
        }
    }

    ghost laws = { unlatch_laws };
}
