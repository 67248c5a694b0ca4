//! A block is put into the queue to another identity.

ghost use Rattle.std.specs.Prelude.{◌≡◌, ◌<◌, ◌^◌};
ghost use Rattle.shm_words.specs.Layout.{GeometryFits, address_limit};
ghost use Rattle.shm_queue.specs.{Send.{Control.sending, send_plan}, Proved.Send.Laws.send_laws};
ghost use Rattle.shm_queue.specs.Proved.QueueTasks.{SendMay, send_task};

use crate::answer::SendFault;
use plans::{Or, Plan, Task, Word};
use shm_count::{StepUp, UpFault};
use shm_graph::{Machine, Me};
use std::marker::Model;

/// Which call of it comes next.
#[derive(Clone, Copy, Drop)]
pub enum SendPoint {
    /// The own tail is loaded.
    Tail,
    /// The head is loaded.
    Head,
    /// The slot at the tail comes to name the block.
    Up,
    /// The tail is stored, one more.
    Store,
}

/// The control of it; `tail` is the own tail that was read.
#[derive(Clone, Copy, Drop)]
pub struct SendState {
    pub me: Me,
    pub to: u8,
    pub block: u32,
    pub tail: u64,
    pub point: SendPoint,
}

/// The calls by which an identity sends a block.
///
/// It answers the place of the block in the queue: how many were sent before it.
#[derive(Drop)]
pub struct Send {
    state: SendState,
}

impl Model for Send {
    ghost use Rattle.shm_queue.specs.declared.send.SendState.{SendState as AState};

    ghost Value = { AState };

    ghost view = { λ a. a.state };

    ghost use Rattle.shm_queue.specs.Send.Control.{SendInRange};

    ghost invariant = { λ a. SendInRange a.state };
}

impl Send {
    /// Block `block` is to be sent by the identity `me` to the identity `to`, before the first call.
    #[inline(always)]
    pub fn new(me: Me, to: u8, block: u32) -> Send
        requires geometry { GeometryFits me.geometry }
        requires who { me.who < me.geometry.clients }
        requires to { to < me.geometry.clients }
        requires block { block < address_limit }
        ensures { result ≡ sending me to block }
    {
        Send {
            state: SendState {
                me,
                to,
                block,
                tail: 0,
                point: SendPoint::Tail,
            },
        }
    }
}

impl Plan for Send {
    type Call = Or<Word, StepUp>;

    type Answer = Result<u64, SendFault>;

    ghost plan = { send_plan };

    #[inline(always)]
    fn me(&self) -> Me {
        self.state.me
    }

    #[inline(always)]
    fn call(&self) -> Or<Word, StepUp> {
        let SendState {
            me,
            to,
            block,
            tail,
            point,
        } = self.state;
        let pool = me.geometry;
        match point {
            SendPoint::Tail => Or::First(Word::load(me, pool.tail(me.who, to))),
            SendPoint::Head => Or::First(Word::load(me, pool.head(me.who, to))),
            SendPoint::Up => {
                let slot = pool.slot(me.who, to, (tail % 8) as u8);
                Or::Second(StepUp::new(me, slot, block))
            }
            SendPoint::Store => {
                let next = tail.wrapping_add(1);
                Or::First(Word::store(me, pool.tail(me.who, to), next))
            }
        }
    }

    #[inline(always)]
    fn next(&mut self, answer: Or<u64, Result<(), UpFault>>) -> Option<Result<u64, SendFault>> {
        match answer {
            Or::First(word) => match self.state.point {
                SendPoint::Tail => {
                    self.state.tail = word;
                    self.state.point = SendPoint::Head;
                    None
                }
                SendPoint::Head => {
                    let tail = self.state.tail;
                    self.state.point = SendPoint::Up;
                    if tail.saturating_sub(word) == 8 {
                        Some(Err(SendFault::QueueFull { head: word, tail }))
                    } else {
                        None
                    }
                }
                SendPoint::Up => Some(Ok(self.state.tail)),
                SendPoint::Store => Some(Ok(self.state.tail)),
            },
            Or::Second(Ok(())) => {
                self.state.point = SendPoint::Store;
                None
            }
            Or::Second(Err(fault)) => Some(Err(SendFault::of(fault))),
        }
    }

    ghost laws = { send_laws };
}

impl Task for Send {
    ghost may = { SendMay };

    ghost tasks = { send_task };
}
