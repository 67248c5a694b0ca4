//! What happens in the turns of a run that a picture shows.

ghost use Rattle.std.specs.Prelude.{List};

use crate::sheet::MOST;
use crate::spots::{at_of, place_at};
use crate::window::Window;
use shm_graph::Ask;
use shm_script::Trace;
use shm_watch::{Listener, Shown, Span};
use shm_words::Place;
use std::alloc::{AllocError, Global};

/// The turns in which an identity waits for a latch, and who held it first: from its first exchange that found the latch held to the one that took it, or
/// to the last one.
#[derive(Clone, Copy, Drop)]
pub struct Wait {
    pub who: u8,
    pub holder: u64,
    pub first: u64,
    pub last: u64,
    /// Whether it goes on.
    goes: bool,
}

/// A reference that was sent, by its number in its queue, and the turns of the send and of the receive.
#[derive(Clone, Copy, Drop)]
pub struct Message {
    pub from: u8,
    pub to: u8,
    pub number: u64,
    pub sent: u64,
    pub received: Option<u64>,
}

/// What happens in some turns of a run.
#[derive(Drop)]
pub struct Events<'a> {
    pub trace: &'a Trace,
    /// How many turns there were.
    pub turns: u64,
    pub window: Window,
    /// The pieces of work that were seen in them, as they ended.
    pub spans: Vec<Span>,
    pub waits: Vec<Wait>,
    pub messages: Vec<Message>,
    /// Whether there was no memory for one.
    pub is_short: bool,
}

impl<'a> Events<'a> {
    /// Before the first turn. At most 2,100 turns are shown.
    pub fn new(alloc: Global, trace: &'a Trace, window: Window) -> Events<'a> {
        Events {
            trace,
            turns: 0,
            window: window.first(MOST),
            spans: Vec::new(alloc),
            waits: Vec::new(alloc),
            messages: Vec::new(alloc),
            is_short: false,
        }
    }

    // a piece of work has ended, or its agent has died
    fn end(&mut self, span: Span) -> Result<(), AllocError> {
        if self.window.meets(span.first(), span.now()) {
            self.spans.push(span)?;
        }
        Ok(())
    }

    // an exchange for a latch found this word: 0 where nobody held it, and otherwise the number and one of who did
    fn latch(&mut self, span: Span, found: u64) -> Result<(), AllocError> {
        let turn = span.last.turn;
        for wait in &mut self.waits {
            if wait.who == span.who && wait.goes && span.first() <= wait.last {
                wait.last = turn;
                wait.goes = found > 0;
                return Ok(());
            }
        }
        if found > 0 {
            self.waits.push(Wait {
                who: span.who,
                holder: found - 1,
                first: turn,
                last: turn,
                goes: true,
            })?;
        }
        Ok(())
    }

    // the tail of a queue was stored, or its head
    fn send(&mut self, from: u8, to: u8, number: u64, sent: u64) -> Result<(), AllocError> {
        self.messages.push(Message {
            from,
            to,
            number,
            sent,
            received: None,
        })?;
        Ok(())
    }

    fn receive(&mut self, from: u8, to: u8, number: u64, turn: u64) {
        for message in &mut self.messages {
            if message.from == from && message.to == to && message.number == number {
                message.received = Some(turn);
            }
        }
    }

    // a word step in the window
    fn word(&mut self, span: Span, ask: Ask, found: u64) -> Result<(), AllocError> {
        let (at, turn) = (at_of(ask), span.last.turn);
        match (place_at(self.trace, at), ask) {
            (Some(Place::Latch { .. }), Ask::Exchange { .. }) => self.latch(span, found),
            (Some(Place::Tail { s, r }), Ask::Store { value, .. }) => self.send(s, r, value, turn),
            (Some(Place::Head { s, r }), Ask::Store { value, .. }) => {
                self.receive(s, r, value, turn);
                Ok(())
            }
            _ => Ok(()),
        }
    }

    // a turn of which this is known
    fn keep(&mut self, shown: Shown, span: Span) -> Result<(), AllocError> {
        if span.is_over() {
            self.end(span)?;
        }
        match shown {
            Shown::Word { ask, found, .. } if self.window.has(span.last.turn) => {
                self.word(span, ask, found)
            }
            _ => Ok(()),
        }
    }
}

impl<'a> Listener for Events<'a> {
    ghost told = { λ _ _. Unit {0} };

    fn tell(&mut self, shown: Shown, span: Span) {
        self.turns = span.now();
        if self.keep(shown, span).is_err() {
            self.is_short = true;
        }
    }
}
