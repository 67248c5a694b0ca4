//! An identity leaves a pool.

ghost use Rattle.std.specs.Prelude.{◌≡◌, ◌<◌};
ghost use Rattle.shm_words.specs.Layout.{GeometryFits};
ghost use Rattle.shm_recover.specs.{Leave.{Control.{leaving, leave_next}, leave_plan}, Proved.Leave.Laws.leave_laws};
ghost use Rattle.shm_recover.specs.Proved.LeaveTask.{LeaveMay, LeaveRests, leave_task};

use plans::{Calls, Or, Plan, Task, Word};
use shm_count::EraSpent;
use shm_graph::{Machine, Me};
use shm_ref::parts::DropRoots;
use std::marker::Model;

/// Which call of it comes next.
#[derive(Clone, Copy, Drop)]
pub enum LeavePoint {
    /// The roots are dropped.
    Roots,
    /// The segment's word is loaded.
    Look,
    /// The segment is the identity's, and is given up.
    Give,
    /// The status is stored.
    Status,
}

/// The control of it; `segment` is the one that comes next.
#[derive(Clone, Copy, Drop)]
pub struct LeaveState {
    pub me: Me,
    pub segment: u16,
    pub point: LeavePoint,
}

impl LeaveState {
    /// Goes on to the next segment, and after the last one to the status.
    #[inline(always)]
    fn next(&mut self)
        requires geometry { GeometryFits self.old.me.geometry }
        requires segment { self.old.segment < self.old.me.geometry.segments }
        ensures { self.new ≡ leave_next self.old }
    {
        if self.segment + 1 == self.me.geometry.segments() {
            self.point = LeavePoint::Status;
        } else {
            self.segment += 1;
            self.point = LeavePoint::Look;
        }
    }
}

/// The calls by which an identity leaves: its roots are dropped, its segments are given up, and its status is stored.
///
/// It answers `EraSpent` where the own era is above 2^47 - 3 at a reference that is to go; the identity is then still there.
#[derive(Drop)]
pub struct Leave {
    state: LeaveState,
}

impl Model for Leave {
    ghost use Rattle.shm_recover.specs.declared.leave.LeaveState.{LeaveState as AState};

    ghost Value = { AState };

    ghost view = { λ a. a.state };

    ghost use Rattle.shm_recover.specs.Leave.Control.{LeaveInRange};

    ghost invariant = { λ a. LeaveInRange a.state };
}

impl Leave {
    /// The leaving of the identity `me`, before the first call.
    #[inline(always)]
    pub fn new(me: Me) -> Leave
        requires geometry { GeometryFits me.geometry }
        requires who { me.who < me.geometry.clients }
        ensures { result ≡ leaving me }
    {
        Leave {
            state: LeaveState {
                me,
                segment: 0,
                point: LeavePoint::Roots,
            },
        }
    }
}

impl Plan for Leave {
    type Call = Or<Calls<DropRoots>, Word>;

    type Answer = Result<(), EraSpent>;

    ghost plan = { leave_plan };

    #[inline(always)]
    fn me(&self) -> Me {
        self.state.me
    }

    #[inline(always)]
    fn call(&self) -> Or<Calls<DropRoots>, Word> {
        let LeaveState { me, segment, point } = self.state;
        match point {
            LeavePoint::Roots => Or::First(Calls::new(DropRoots::new(me))),
            LeavePoint::Look => Or::Second(Word::load(me, me.geometry.segment(segment))),
            LeavePoint::Give => Or::Second(Word::store(me, me.geometry.segment(segment), 0)),
            LeavePoint::Status => Or::Second(Word::store(me, me.geometry.status(me.who), 3)),
        }
    }

    #[inline(always)]
    fn next(&mut self, answer: Or<Result<(), EraSpent>, u64>) -> Option<Result<(), EraSpent>> {
        match answer {
            Or::First(Err(spent)) => Some(Err(spent)),
            Or::First(Ok(())) => {
                self.state.point = LeavePoint::Look;
                None
            }
            Or::Second(word) => match self.state.point {
                LeavePoint::Roots | LeavePoint::Status => Some(Ok(())),
                LeavePoint::Look => {
                    if word == u64::from(self.state.me.who) + 1 {
                        self.state.point = LeavePoint::Give;
                    } else {
                        self.state.next();
                    }
                    None
                }
                LeavePoint::Give => {
                    self.state.next();
                    None
                }
            },
        }
    }

    ghost laws = { leave_laws };
}

impl Task for Leave {
    ghost may = { LeaveMay };

    ghost rests = { LeaveRests };

    ghost tasks = { leave_task };
}
