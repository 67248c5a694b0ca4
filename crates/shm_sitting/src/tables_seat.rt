//! A session in a pool for tables.

ghost use Rattle.std.specs.{Prelude.{◌≡◌, ◌<◌, IfSome, length}, Option.is_some};
ghost use Rattle.shm_words.specs.Layout.{GeometryFits};
ghost use Rattle.shm_session.specs.Sessions.{stage_found};
ghost use Rattle.shm_sitting.specs.TablesSeats.{IsCalled, IsOpened, IsRun, IsTold};

use crate::work::Tables;
use shm_graph::Me;
use shm_mapped::run_on;
use shm_session::{Call, Ran, Said, Session};
use std::sync::atomic::AtomicU64;

/// A session of an identity.
#[derive(Drop)]
pub struct TablesSeat {
    session: Session<Tables>,
}

impl TablesSeat {
    /// A session of an identity, whose status word was found so; none where the word is no status.
    pub fn new(me: Me, status: u64) -> Option<TablesSeat>
        requires geometry { GeometryFits me.geometry }
        requires who { me.who < me.geometry.clients }
        ensures some { IfSome result (IsOpened me status) }
        ensures is { is_some result ≡ is_some (stage_found status) }
    {
        match Session::new(me, status) {
            Ok(session) => Some(TablesSeat { session }),
            Err(_) => None,
        }
    }

    /// A call by its number.
    pub fn call(&mut self, call: Call) -> Said
        ensures { IsCalled self.old call result self.new }
    {
        self.session.call(call)
    }

    /// Takes the word that was found, for a store 0: the next word step, or the answer.
    #[inline(always)]
    pub fn tell(&mut self, found: u64) -> Said
        ensures { IsTold self.old found result self.new }
    {
        self.session.tell(found)
    }

    /// Makes so many word steps at most on these words: what it then says, and how many were made.
    #[inline(always)]
    pub fn run(&mut self, words: &[AtomicU64], steps: u64) -> Ran
        ensures { IsRun self.old (length words.now) steps result self.new }
    {
        run_on(&mut self.session, words, steps)
    }
}
