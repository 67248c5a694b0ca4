//! Taking the latch of an author, and then looking for the entry of a key in its table.

ghost use Rattle.std.specs.Prelude.{◌≡◌, ◌<◌};
ghost use Rattle.shm_words.specs.Layout.{GeometryFits};
ghost use Rattle.shm_table.specs.{Locate.{Control.locating, locate_plan}, Proved.Locate.Laws.locate_laws};

use crate::find::{Find, Found};
use plans::{Calls, Or, Plan};
use shm_graph::{Machine, Me};
use shm_ref::{Busy, Hold};
use std::marker::Model;

/// Which call of it comes next.
#[derive(Clone, Copy, Drop)]
pub enum LocatePoint {
    /// The latch is to be taken.
    Take,
    /// It was another's, and is to be taken again.
    Again,
    /// It is held, and the key is looked for.
    Search,
}

/// The control of it.
#[derive(Clone, Copy, Drop)]
pub struct LocateState {
    pub me: Me,
    pub author: u8,
    pub key: u32,
    pub point: LocatePoint,
}

/// The calls by which an identity takes the latch of an author and looks for a key in its table.
///
/// It tries for the latch until it has it, and answers as the search; the latch is then held.
#[derive(Drop)]
pub struct Locate {
    state: LocateState,
}

impl Model for Locate {
    ghost use Rattle.shm_table.specs.declared.locate.LocateState.{LocateState as AState};

    ghost Value = { AState };

    ghost view = { λ a. a.state };

    ghost use Rattle.shm_table.specs.Locate.Control.{LocateInRange};

    ghost invariant = { λ a. LocateInRange a.state };
}

impl Locate {
    /// The key `key` is to be looked for in the table of `author`, whose latch isn't held yet.
    #[inline(always)]
    pub fn new(me: Me, author: u8, key: u32) -> Locate
        requires geometry { GeometryFits me.geometry }
        requires who { me.who < me.geometry.clients }
        requires author { author < me.geometry.clients }
        ensures { result ≡ locating me author key }
    {
        Locate {
            state: LocateState {
                me,
                author,
                key,
                point: LocatePoint::Take,
            },
        }
    }
}

impl Plan for Locate {
    type Call = Or<Calls<Hold>, Calls<Find>>;

    type Answer = Found;

    ghost plan = { locate_plan };

    #[inline(always)]
    fn me(&self) -> Me {
        self.state.me
    }

    #[inline(always)]
    fn call(&self) -> Or<Calls<Hold>, Calls<Find>> {
        let LocateState {
            me,
            author,
            key,
            point,
        } = self.state;
        match point {
            LocatePoint::Take => Or::First(Calls::new(Hold::new(me, author))),
            LocatePoint::Again => Or::First(Calls::new(Hold::new(me, author))),
            LocatePoint::Search => Or::Second(Calls::new(Find::new(me, author, key))),
        }
    }

    #[inline(always)]
    fn next(&mut self, answer: Or<Result<(), Busy>, Found>) -> Option<Found> {
        match answer {
            Or::First(Ok(())) => {
                self.state.point = LocatePoint::Search;
                None
            }
            Or::First(Err(_)) => {
                self.state.point = LocatePoint::Again;
                None
            }
            Or::Second(found) => Some(found),
        }
    }

    ghost laws = { locate_laws };
}
