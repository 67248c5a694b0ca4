//! Items that an identity had taken out of their slots when it died join what it received.

ghost use Rattle.std.specs.Prelude.{◌≡◌, ◌+◌, ◌<◌};
ghost use Rattle.shm_words.specs.Layout.{GeometryFits};
ghost use Rattle.shm_recover.specs.FinishTakes.Control.{finishing, after_word, turns_word, passed, passed_answer};
ghost use Rattle.shm_recover.specs.{FinishTakes.finish_plan, Proved.FinishTakes.Laws.finish_laws};

use crate::others::other;
use plans::{Plan, Word};
use shm_graph::{Machine, Me};
use std::marker::Model;

/// Which word step of it comes next.
#[derive(Clone, Copy, Drop)]
pub enum FinishPoint {
    /// The own head is loaded.
    Head,
    /// The tail is loaded.
    Tail,
    /// The slot at the head is loaded.
    Slot,
    /// The head is stored, one more.
    Store,
}

/// The control of it; `passed` is the number of queues that it is done with, and `at` is the own head that was read.
#[derive(Clone, Copy, Drop)]
pub struct FinishState {
    pub me: Me,
    pub passed: u8,
    pub at: u64,
    pub point: FinishPoint,
}

/// The word steps by which the heads of queues pass items whose slots are empty.
///
/// Of each queue to an identity, the item that was taken out of its slot joins what was received.
#[derive(Drop)]
pub struct FinishTakes {
    state: FinishState,
}

impl Model for FinishTakes {
    ghost use Rattle.shm_recover.specs.declared.finish_takes.FinishState.{FinishState as AState};

    ghost Value = { AState };

    ghost view = { λ a. a.state };

    ghost use Rattle.shm_recover.specs.FinishTakes.Control.{FinishInRange};

    ghost invariant = { λ a. FinishInRange a.state };
}

impl FinishTakes {
    /// The queues to the identity `me` of a pool of more than one client, before the first word step.
    #[inline(always)]
    pub fn new(me: Me) -> FinishTakes
        requires geometry { GeometryFits me.geometry }
        requires who { me.who < me.geometry.clients }
        requires others { 1 < me.geometry.clients }
        ensures { result ≡ finishing me }
    {
        FinishTakes {
            state: FinishState {
                me,
                passed: 0,
                at: 0,
                point: FinishPoint::Head,
            },
        }
    }

    #[inline(always)]
    fn pass(&mut self) -> Option<()>
        ensures state { self.new ≡ passed self.old }
        ensures answer { result ≡ passed_answer self.old }
    {
        if self.state.passed + 2 == self.state.me.geometry.clients() {
            Some(())
        } else {
            self.state.passed += 1;
            self.state.point = FinishPoint::Head;
            None
        }
    }
}

impl Plan for FinishTakes {
    type Call = Word;

    type Answer = ();

    ghost plan = { finish_plan };

    #[inline(always)]
    fn me(&self) -> Me {
        self.state.me
    }

    #[inline(always)]
    fn call(&self) -> Word {
        let FinishState {
            me,
            passed,
            at,
            point,
        } = self.state;
        let pool = me.geometry;
        let from = other(me.who, passed);
        match point {
            FinishPoint::Head => Word::load(me, pool.head(from, me.who)),
            FinishPoint::Tail => Word::load(me, pool.tail(from, me.who)),
            FinishPoint::Slot => Word::load(me, pool.slot(from, me.who, (at % 8) as u8)),
            FinishPoint::Store => Word::store(me, pool.head(from, me.who), at.wrapping_add(1)),
        }
    }

    #[inline(always)]
    fn next(&mut self, answer: u64) -> Option<()> {
        match self.state.point {
            FinishPoint::Head => {
                self.state.at = answer;
                self.state.point = FinishPoint::Tail;
                None
            }
            FinishPoint::Tail => {
                if self.state.at < answer {
                    self.state.point = FinishPoint::Slot;
                    None
                } else {
                    self.pass()
                }
            }
            FinishPoint::Slot => {
                if answer == 0 {
                    self.state.point = FinishPoint::Store;
                    None
                } else {
                    self.pass()
                }
            }
            FinishPoint::Store => self.pass(),
        }
    }

    ghost laws = { finish_laws };
}
