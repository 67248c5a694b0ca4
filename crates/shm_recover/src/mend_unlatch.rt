//! A recoverer gives back the latch that a dead client held or wanted.

ghost use Rattle.std.specs.Prelude.{◌≡◌, ◌<◌};
ghost use Rattle.shm_words.specs.Layout.{GeometryFits};
ghost use Rattle.shm_recover.specs.MendUnlatch.{Control.unlatching, unlatching_plan};
ghost use Rattle.shm_recover.specs.Proved.MendUnlatch.Laws.{unlatching_laws};

use plans::{Plan, Word};
use shm_graph::{Machine, Me};
use std::marker::Model;

/// Which word step of it comes next.
#[derive(Clone, Copy, Drop)]
pub enum MendUnlatchPoint {
    /// The hold word is loaded.
    Whose,
    /// The latch that it names is loaded.
    Look,
    /// The latch is the identity's, and is stored as 0.
    Give,
    /// The hold word is stored as 0.
    Back,
}

/// The control of it; `author` is whose latch the hold word names.
#[derive(Clone, Copy, Drop)]
pub struct MendUnlatchState {
    pub me: Me,
    pub author: u8,
    pub point: MendUnlatchPoint,
}

/// The word steps by which a recoverer gives back a latch.
///
/// After it no step is in progress, no latch is held, and the hold word is 0.
#[derive(Drop)]
pub struct MendUnlatch {
    state: MendUnlatchState,
}

impl Model for MendUnlatch {
    ghost use Rattle.shm_recover.specs.declared.mend_unlatch.MendUnlatchState.{MendUnlatchState as AState};

    ghost Value = { AState };

    ghost view = { λ a. a.state };

    ghost use Rattle.shm_recover.specs.MendUnlatch.Control.{UnlatchingInRange};

    ghost invariant = { λ a. UnlatchingInRange a.state };
}

impl MendUnlatch {
    /// The latch of the identity `me` is to be given back, if it holds one.
    #[inline(always)]
    pub fn new(me: Me) -> MendUnlatch
        requires geometry { GeometryFits me.geometry }
        requires who { me.who < me.geometry.clients }
        ensures { result ≡ unlatching me }
    {
        MendUnlatch {
            state: MendUnlatchState {
                me,
                author: 0,
                point: MendUnlatchPoint::Whose,
            },
        }
    }
}

impl Plan for MendUnlatch {
    type Call = Word;

    type Answer = ();

    ghost plan = { unlatching_plan };

    #[inline(always)]
    fn me(&self) -> Me {
        self.state.me
    }

    #[inline(always)]
    fn call(&self) -> Word {
        let MendUnlatchState { me, author, point } = self.state;
        let hold = me.geometry.hold(me.who);
        let latch = me.geometry.latch(author);
        match point {
            MendUnlatchPoint::Whose => Word::load(me, hold),
            MendUnlatchPoint::Look => Word::load(me, latch),
            MendUnlatchPoint::Give => Word::store(me, latch, 0),
            MendUnlatchPoint::Back => Word::store(me, hold, 0),
        }
    }

    #[inline(always)]
    fn next(&mut self, word: u64) -> Option<()> {
        let me = self.state.me;
        match self.state.point {
            MendUnlatchPoint::Whose => {
                if word == 0 {
                    return Some(());
                }
                self.state.author = ((word - 1) % u64::from(me.geometry.clients())) as u8;
                self.state.point = MendUnlatchPoint::Look;
            }
            MendUnlatchPoint::Look => {
                self.state.point = if word == u64::from(me.who) + 1 {
                    MendUnlatchPoint::Give
                } else {
                    MendUnlatchPoint::Back
                };
            }
            MendUnlatchPoint::Give => self.state.point = MendUnlatchPoint::Back,
            MendUnlatchPoint::Back => return Some(()),
        }
        None
    }

    ghost laws = { unlatching_laws };
}
