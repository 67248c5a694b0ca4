//! All items of all queues to an identity are taken.

ghost use Rattle.std.specs.Prelude.{◌≡◌, ◌<◌};
ghost use Rattle.shm_words.specs.Layout.{GeometryFits};
ghost use Rattle.shm_queue.specs.Drain.{Control.{draining, turned, turned_answer}, drain_plan};
ghost use Rattle.shm_queue.specs.Proved.{Drain.Laws.drain_laws, Take.Laws.take_laws, QueueTasks.{DrainMay, drain_task}};

use crate::answer::TakeFault;
use crate::take::Take;
use plans::{Calls, Or, Plan, Task, Word};
use shm_count::EraSpent;
use shm_graph::{Machine, Me};
use std::marker::Model;

/// Which call of it comes next.
#[derive(Clone, Copy, Drop)]
pub enum DrainPoint {
    /// The own status is loaded.
    Status,
    /// An item of a queue is taken, if there is one.
    Item,
}

/// The control of it: from whom the next item is to come, and how many were taken.
#[derive(Clone, Copy, Drop)]
pub struct DrainState {
    pub me: Me,
    pub from: u8,
    pub taken: u64,
    pub point: DrainPoint,
}

/// The calls by which an identity takes all items of all queues to it, one sender after the other.
///
/// It answers how many items it took, or `EraSpent` where the own era is above 2^47 - 3 at a reference that is to go.
#[derive(Drop)]
pub struct Drain {
    state: DrainState,
}

impl Model for Drain {
    ghost use Rattle.shm_queue.specs.declared.drain.DrainState.{DrainState as AState};

    ghost Value = { AState };

    ghost view = { λ a. a.state };

    ghost use Rattle.shm_queue.specs.Drain.Control.{DrainInRange};

    ghost invariant = { λ a. DrainInRange a.state };
}

impl Drain {
    /// The queues to the identity `me`, before the first call.
    #[inline(always)]
    pub fn new(me: Me) -> Drain
        requires geometry { GeometryFits me.geometry }
        requires who { me.who < me.geometry.clients }
        ensures { result ≡ draining me }
    {
        Drain {
            state: DrainState {
                me,
                from: 0,
                taken: 0,
                point: DrainPoint::Status,
            },
        }
    }

    #[inline(always)]
    fn turn_to(&mut self, from: u8) -> Option<Result<u64, EraSpent>>
        ensures state { self.new ≡ turned self.old from }
        ensures answer { result ≡ turned_answer self.old from }
    {
        if from < self.state.me.geometry.clients() {
            self.state.from = from;
            self.state.point = DrainPoint::Item;
            None
        } else {
            Some(Ok(self.state.taken))
        }
    }
}

impl Plan for Drain {
    type Call = Or<Word, Calls<Take>>;

    type Answer = Result<u64, EraSpent>;

    ghost plan = { drain_plan };

    #[inline(always)]
    fn me(&self) -> Me {
        self.state.me
    }

    #[inline(always)]
    fn call(&self) -> Or<Word, Calls<Take>> {
        let DrainState {
            me,
            from,
            point,
            ..
        } = self.state;
        match point {
            DrainPoint::Status => Or::First(Word::load(me, me.geometry.status(me.who))),
            DrainPoint::Item => Or::Second(Calls::new(Take::new(me, from))),
        }
    }

    #[inline(always)]
    fn next(&mut self, answer: Or<u64, Result<(), TakeFault>>) -> Option<Result<u64, EraSpent>> {
        let who = self.state.me.who;
        match answer {
            Or::First(_) => {
                if who == 0 {
                    self.turn_to(1)
                } else {
                    self.turn_to(0)
                }
            }
            Or::Second(Ok(())) => {
                self.state.taken = self.state.taken.wrapping_add(1);
                self.state.point = DrainPoint::Item;
                None
            }
            Or::Second(Err(TakeFault::Empty { .. })) => {
                let next = self.state.from + 1;
                if next == who {
                    self.turn_to(next + 1)
                } else {
                    self.turn_to(next)
                }
            }
            Or::Second(Err(TakeFault::EraSpent { era })) => Some(Err(EraSpent { era })),
        }
    }

    ghost laws = { drain_laws take_laws };
}

impl Task for Drain {
    ghost may = { DrainMay };

    ghost tasks = { drain_task };
}
