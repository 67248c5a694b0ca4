//! The first item of a queue from another identity comes to have a root, and is taken.

ghost use Rattle.std.specs.Prelude.{◌≡◌, ◌<◌};
ghost use Rattle.shm_words.specs.Layout.{GeometryFits};
ghost use Rattle.shm_queue.specs.{Receive.{Control.receiving, receive_plan}, Proved.Receive.Laws.receive_laws};
ghost use Rattle.shm_queue.specs.Proved.{Peek.Laws.peek_laws, Take.Laws.take_laws};
ghost use Rattle.shm_queue.specs.Proved.QueueTasks.{ReceiveMay, receive_task};

use crate::answer::{PeekFault, TakeFault};
use crate::peek::Peek;
use crate::take::Take;
use plans::{Calls, Or, Plan, Task};
use shm_count::Made;
use shm_graph::{Machine, Me};
use std::marker::Model;

/// Which call of it comes next.
#[derive(Clone, Copy, Drop)]
pub enum ReceivePoint {
    /// The item comes to have a root.
    Look,
    /// The item is taken.
    Item,
}

/// The control of it; `root` and `block` are those of the peek.
#[derive(Clone, Copy, Drop)]
pub struct ReceiveState {
    pub me: Me,
    pub from: u8,
    pub root: u8,
    pub block: u32,
    pub point: ReceivePoint,
}

/// The calls by which an identity receives an item.
///
/// It answers as the peek; where the take is refused for want of eras the root is set, and the item stays in the queue.
#[derive(Drop)]
pub struct Receive {
    state: ReceiveState,
}

impl Model for Receive {
    ghost use Rattle.shm_queue.specs.declared.receive.ReceiveState.{ReceiveState as AState};

    ghost Value = { AState };

    ghost view = { λ a. a.state };

    ghost use Rattle.shm_queue.specs.Receive.Control.{ReceiveInRange};

    ghost invariant = { λ a. ReceiveInRange a.state };
}

impl Receive {
    /// The first item of the queue from the identity `from` to the identity `me`, before the first call.
    #[inline(always)]
    pub fn new(me: Me, from: u8) -> Receive
        requires geometry { GeometryFits me.geometry }
        requires who { me.who < me.geometry.clients }
        requires from { from < me.geometry.clients }
        ensures { result ≡ receiving me from }
    {
        Receive {
            state: ReceiveState {
                me,
                from,
                root: 0,
                block: 0,
                point: ReceivePoint::Look,
            },
        }
    }
}

impl Plan for Receive {
    type Call = Or<Calls<Peek>, Calls<Take>>;

    type Answer = Result<Made, PeekFault>;

    ghost plan = { receive_plan };

    #[inline(always)]
    fn me(&self) -> Me {
        self.state.me
    }

    #[inline(always)]
    fn call(&self) -> Or<Calls<Peek>, Calls<Take>> {
        let ReceiveState {
            me,
            from,
            point,
            ..
        } = self.state;
        match point {
            ReceivePoint::Look => Or::First(Calls::new(Peek::new(me, from))),
            ReceivePoint::Item => Or::Second(Calls::new(Take::new(me, from))),
        }
    }

    #[inline(always)]
    fn next(
        &mut self,
        answer: Or<Result<Made, PeekFault>, Result<(), TakeFault>>,
    ) -> Option<Result<Made, PeekFault>> {
        let ReceiveState { root, block, .. } = self.state;
        match answer {
            Or::First(Ok(made)) => {
                self.state.root = made.root;
                self.state.block = made.block;
                self.state.point = ReceivePoint::Item;
                None
            }
            Or::First(Err(fault)) => Some(Err(fault)),
            Or::Second(Ok(())) => Some(Ok(Made { root, block })),
            Or::Second(Err(TakeFault::Empty { at })) => Some(Err(PeekFault::Empty { at })),
            Or::Second(Err(TakeFault::EraSpent { era })) => Some(Err(PeekFault::EraSpent { era })),
        }
    }

    ghost laws = { receive_laws peek_laws take_laws };
}

impl Task for Receive {
    ghost may = { ReceiveMay };

    ghost tasks = { receive_task };
}
