//! A session, by the kind of its pool.

ghost use Rattle.std.specs.{Prelude.{◌≡◌, ◌<◌, IfSome, length}, Option.is_some};
ghost use Rattle.shm_words.specs.Layout.{GeometryFits};
ghost use Rattle.shm_session.specs.Sessions.{stage_found};
ghost use Rattle.shm_sitting.specs.Seats.{IsCalled, IsOpened, IsRun, IsTold};

use crate::singles_seat::SinglesSeat;
use crate::tables_seat::TablesSeat;
use shm_graph::Me;
use shm_session::{Call, Ran, Said};
use std::sync::atomic::AtomicU64;

/// What a pool is for.
#[derive(Clone, Copy, Drop)]
pub enum Kind {
    /// Each identity has a table of keys.
    Tables,
    /// Each identity names blocks by its roots.
    Singles,
}

/// A session of an identity.
#[derive(Drop)]
pub enum Seat {
    Tables(TablesSeat),
    Singles(SinglesSeat),
}

impl Seat {
    /// A session of an identity in a pool of this kind, whose status word was found so; none where the word is no status.
    pub fn new(kind: Kind, me: Me, status: u64) -> Option<Seat>
        requires geometry { GeometryFits me.geometry }
        requires who { me.who < me.geometry.clients }
        ensures some { IfSome result (IsOpened kind me status) }
        ensures is { is_some result ≡ is_some (stage_found status) }
    {
        match kind {
            Kind::Tables => match TablesSeat::new(me, status) {
                Some(seat) => Some(Seat::Tables(seat)),
                None => None,
            },
            Kind::Singles => match SinglesSeat::new(me, status) {
                Some(seat) => Some(Seat::Singles(seat)),
                None => None,
            },
        }
    }

    /// A call by its number.
    pub fn call(&mut self, call: Call) -> Said
        ensures { IsCalled self.old call result self.new }
    {
        match self {
            Seat::Tables(seat) => seat.call(call),
            Seat::Singles(seat) => seat.call(call),
        }
    }

    /// Takes the word that was found, for a store 0: the next word step, or the answer.
    #[inline(always)]
    pub fn tell(&mut self, found: u64) -> Said
        ensures { IsTold self.old found result self.new }
    {
        match self {
            Seat::Tables(seat) => seat.tell(found),
            Seat::Singles(seat) => seat.tell(found),
        }
    }

    /// Makes the word steps that it asks for on these words, its pool's first ones, which others change too: so many at most, or those until the operation has
    /// answered. What it then says, as `tell` does, or why nothing was done: fewer words than the pool has, or no operation in progress; and how many were made.
    /// Code 36 where a word was asked for that there isn't.
    #[inline(always)]
    pub fn run(&mut self, words: &[AtomicU64], steps: u64) -> Ran
        ensures { IsRun self.old (length words.now) steps result self.new }
    {
        match self {
            Seat::Tables(seat) => seat.run(words, steps),
            Seat::Singles(seat) => seat.run(words, steps),
        }
    }
}
