//! Machines over queues.

ghost use Rattle.std.specs.Prelude.{◌≡◌, ◌<◌, false};
ghost use Rattle.shm_words.specs.Layout.{GeometryFits, address_limit};
ghost use Rattle.shm_graph.specs.Laws.{turn_of};
ghost use Rattle.plans.specs.{CallsControl.calls_of, declared.or.Or.TheVariants.{First, Second}};
ghost use Rattle.shm_queue.specs.Drain.Control.{draining, drain_steered};
ghost use Rattle.shm_queue.specs.{Receive.Control.{receiving, receive_steered}, Send.Control.{sending, send_steered}};
ghost use Rattle.shm_singles.specs.Steps.{queues_control};

use plans::{Calls, Or};
use shm_count::{EraSpent, Made};
use shm_graph::{Ask, Machine, Me, Turn};
use shm_queue::{Drain, PeekFault, Receive, Send, SendFault};
use std::marker::Model;

/// How many were sent before a block; which root came to name one that was received; how many were let go.
pub type QueuesAnswer = Or<
    Result<u64, SendFault>,
    Or<Result<Made, PeekFault>, Result<u64, EraSpent>>,
>;

/// A block is sent or received, or all that was sent to an identity is let go.
pub struct Queues {
    one: Or<Calls<Send>, Or<Calls<Receive>, Calls<Drain>>>,
}

// by hand, so that who lets one go needn't know what it is made of
impl Drop for Queues {
    #[inline(always)]
    fn drop(self) {
        let Queues { one: _one } = self;
    }
}

impl Model for Queues {
    ghost use Rattle.shm_singles.specs.Steps.{Queues as AQueues};

    ghost Value = { AQueues };

    ghost view = { λ a. a.one };
}

impl Queues {
    /// A block is sent to another identity.
    pub(crate) fn send(me: Me, to: u8, block: u32) -> Queues
        requires geometry { GeometryFits me.geometry }
        requires who { me.who < me.geometry.clients }
        requires to { to < me.geometry.clients }
        requires block { block < address_limit }
        ensures { result ≡ First (calls_of send_steered (sending me to block)) }
    {
        Queues {
            one: Or::First(Calls::new(Send::new(me, to, block))),
        }
    }

    /// A block of another identity is received.
    pub(crate) fn receive(me: Me, from: u8) -> Queues
        requires geometry { GeometryFits me.geometry }
        requires who { me.who < me.geometry.clients }
        requires from { from < me.geometry.clients }
        ensures { result ≡ Second (First (calls_of receive_steered (receiving me from))) }
    {
        Queues {
            one: Or::Second(Or::First(Calls::new(Receive::new(me, from)))),
        }
    }

    /// All that was sent to the identity is let go.
    pub(crate) fn drain(me: Me) -> Queues
        requires geometry { GeometryFits me.geometry }
        requires who { me.who < me.geometry.clients }
        ensures { result ≡ Second (Second (calls_of drain_steered (draining me))) }
    {
        Queues {
            one: Or::Second(Or::Second(Calls::new(Drain::new(me)))),
        }
    }

    /// Whether it has answered.
    #[inline(always)]
    pub(crate) fn is_over(&self) -> bool
        ensures { result ≡ queues_control.finished self.now }
    {
        self.one.finished()
    }

    /// The word step that it asks for.
    #[inline(always)]
    pub(crate) fn ask(&self) -> Ask
        requires { queues_control.finished self.now ≡ false }
        ensures { result ≡ queues_control.asks self.now }
    {
        self.one.ask()
    }

    /// Takes the word that was found, for a store 0.
    #[inline(always)]
    pub(crate) fn take(&mut self, seen: u64) -> Turn<QueuesAnswer>
        requires { queues_control.finished self.old ≡ false }
        ensures machine { self.new ≡ queues_control.after self.old seen }
        ensures turn { result ≡ turn_of (queues_control.turns self.old seen) }
    {
        self.one.take(seen)
    }
}
