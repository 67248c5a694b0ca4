//! Machines over latches.

ghost use Rattle.std.specs.Prelude.{◌≡◌, ◌<◌, false};
ghost use Rattle.shm_words.specs.Layout.{GeometryFits};
ghost use Rattle.shm_graph.specs.Laws.{turn_of};
ghost use Rattle.plans.specs.{CallsControl.calls_of, declared.or.Or.TheVariants.{First, Second}};
ghost use Rattle.shm_ref.specs.{Hold.Control.{holding, hold_steered}, Release.{releasing, release_steered}};
ghost use Rattle.shm_singles.specs.Steps.{latches_control};

use plans::{Calls, Or};
use shm_graph::{Ask, Machine, Me, Turn};
use shm_ref::{Busy, Hold, Release};
use std::marker::Model;

/// Whether a latch was taken; that it was given back.
pub type LatchesAnswer = Or<Result<(), Busy>, ()>;

/// A latch is taken or given back.
pub struct Latches {
    one: Or<Calls<Hold>, Calls<Release>>,
}

// by hand, so that who lets one go needn't know what it is made of
impl Drop for Latches {
    #[inline(always)]
    fn drop(self) {
        let Latches { one: _one } = self;
    }
}

impl Model for Latches {
    ghost use Rattle.shm_singles.specs.Steps.{Latches as ALatches};

    ghost Value = { ALatches };

    ghost view = { λ a. a.one };
}

impl Latches {
    /// The latch of an identity is taken.
    pub(crate) fn hold(me: Me, author: u8) -> Latches
        requires geometry { GeometryFits me.geometry }
        requires who { me.who < me.geometry.clients }
        requires author { author < me.geometry.clients }
        ensures { result ≡ First (calls_of hold_steered (holding me author)) }
    {
        Latches {
            one: Or::First(Calls::new(Hold::new(me, author))),
        }
    }

    /// The latch that the identity has is given back.
    pub(crate) fn release(me: Me) -> Latches
        requires geometry { GeometryFits me.geometry }
        requires who { me.who < me.geometry.clients }
        ensures { result ≡ Second (calls_of release_steered (releasing me)) }
    {
        Latches {
            one: Or::Second(Calls::new(Release::new(me))),
        }
    }

    /// Whether it has answered.
    #[inline(always)]
    pub(crate) fn is_over(&self) -> bool
        ensures { result ≡ latches_control.finished self.now }
    {
        self.one.finished()
    }

    /// The word step that it asks for.
    #[inline(always)]
    pub(crate) fn ask(&self) -> Ask
        requires { latches_control.finished self.now ≡ false }
        ensures { result ≡ latches_control.asks self.now }
    {
        self.one.ask()
    }

    /// Takes the word that was found, for a store 0.
    #[inline(always)]
    pub(crate) fn take(&mut self, seen: u64) -> Turn<LatchesAnswer>
        requires { latches_control.finished self.old ≡ false }
        ensures machine { self.new ≡ latches_control.after self.old seen }
        ensures turn { result ≡ turn_of (latches_control.turns self.old seen) }
    {
        self.one.take(seen)
    }
}
