//! A sink to which a text is written piece by piece.

ghost use Rattle.std.specs.Prelude.{None, Option};
ghost use Rattle.std.specs.Borrow.{MutBor};
ghost use Rattle.run_view.specs.declared.window.Window.{Window as AWindow};
ghost use Rattle.run_view.specs.Piped.{Writes};

use shm_io::{Sink, write_all};
use std::marker::Brand;

/// Why a text was not written whole.
#[derive(Clone, Copy, Debug, PartialEq, Eq, Drop)]
pub enum Stop {
    /// There was no memory for the replay. Nothing was written.
    Memory,
    /// A write failed.
    Fault,
}

/// The sink of a text before the text, and the turns that it shows.
pub trait Begun<K> {
    ghost sink: { Option (MutBor K) };

    ghost window: { AWindow };
}

impl<K> Begun<K> for Brand {
    ghost sink = { None };

    ghost window = { record { from = 1; to = 1 } };
}

/// A sink, and why the text is not written whole, where it isn't.
#[derive(Drop)]
pub(crate) struct Writer<'a, K: Sink> {
    pub sink: &'a mut K,
    pub stop: Option<Stop>,
}

impl<'a, K: Sink> Writer<'a, K> {
    /// Writes these bytes. Nothing more is written after a write that failed.
    pub fn write(&mut self, bytes: &[u8])
        ensures { Writes K.held K.faults self.old.stop self.old.sink self.new.stop self.new.sink bytes.now }
    {
        match self.stop {
            Some(_) => {}
            None => match write_all(&mut *self.sink, bytes) {
                Ok(()) => {}
                Err(_) => self.stop = Some(Stop::Fault),
            },
        }
    }
}
