//! An identity that has nothing left but its segments gives them up, and is gone.

ghost use Rattle.std.specs.Prelude.{◌≡◌, ◌<◌};
ghost use Rattle.shm_words.specs.Layout.{GeometryFits};
ghost use Rattle.shm_recover.specs.GiveUp.{Control.{giving_up, next_segment}, give_plan};
ghost use Rattle.shm_recover.specs.Proved.GiveUp.Laws.{give_laws};

use plans::{Plan, Word};
use shm_graph::{Machine, Me};
use std::marker::Model;

/// Which word step of it comes next.
#[derive(Clone, Copy, Drop)]
pub enum GivePoint {
    /// The segment's word is loaded.
    Look,
    /// The segment is the identity's, and is given up.
    Give,
    /// The status is stored.
    Status,
}

/// The control of it; `segment` is the one that comes next.
#[derive(Clone, Copy, Drop)]
pub struct GiveState {
    pub me: Me,
    pub segment: u16,
    pub point: GivePoint,
}

impl GiveState {
    /// Goes on to the next segment, and after the last one to the status.
    #[inline(always)]
    fn next(&mut self)
        requires geometry { GeometryFits self.old.me.geometry }
        requires segment { self.old.segment < self.old.me.geometry.segments }
        ensures { self.new ≡ next_segment self.old }
    {
        if self.segment + 1 == self.me.geometry.segments() {
            self.point = GivePoint::Status;
        } else {
            self.segment += 1;
            self.point = GivePoint::Look;
        }
    }
}

/// The word steps by which an identity gives up its segments and is gone.
///
/// The segments of an identity are nobody's, with their pages and blocks as they are, and then its status is gone.
#[derive(Drop)]
pub struct GiveUp {
    state: GiveState,
}

impl Model for GiveUp {
    ghost use Rattle.shm_recover.specs.declared.give_up.GiveState.{GiveState as AState};

    ghost Value = { AState };

    ghost view = { λ a. a.state };

    ghost use Rattle.shm_recover.specs.GiveUp.Control.{GiveInRange};

    ghost invariant = { λ a. GiveInRange a.state };
}

impl GiveUp {
    /// The segments and the status of the identity `me`, before the first word step.
    #[inline(always)]
    pub fn new(me: Me) -> GiveUp
        requires geometry { GeometryFits me.geometry }
        requires who { me.who < me.geometry.clients }
        ensures { result ≡ giving_up me }
    {
        GiveUp {
            state: GiveState {
                me,
                segment: 0,
                point: GivePoint::Look,
            },
        }
    }
}

impl Plan for GiveUp {
    type Call = Word;

    type Answer = ();

    ghost plan = { give_plan };

    #[inline(always)]
    fn me(&self) -> Me {
        self.state.me
    }

    #[inline(always)]
    fn call(&self) -> Word {
        let GiveState { me, segment, point } = self.state;
        match point {
            GivePoint::Look => Word::load(me, me.geometry.segment(segment)),
            GivePoint::Give => Word::store(me, me.geometry.segment(segment), 0),
            GivePoint::Status => Word::store(me, me.geometry.status(me.who), 3),
        }
    }

    #[inline(always)]
    fn next(&mut self, answer: u64) -> Option<()> {
        match self.state.point {
            GivePoint::Look => {
                if answer == u64::from(self.state.me.who) + 1 {
                    self.state.point = GivePoint::Give;
                } else {
                    self.state.next();
                }
                None
            }
            GivePoint::Give => {
                self.state.next();
                None
            }
            GivePoint::Status => Some(()),
        }
    }

    ghost laws = { give_laws };
}
