//! Machines of an identity that comes, goes or is recovered.

ghost use Rattle.std.specs.Prelude.{◌≡◌, ◌<◌, false};
ghost use Rattle.shm_words.specs.Layout.{GeometryFits};
ghost use Rattle.shm_graph.specs.{declared.ask.Ask.Ask as AnAsk, Laws.turn_of};
ghost use Rattle.plans.specs.{CallsControl.calls_of, declared.or.Or.TheVariants.{First, Second}};
ghost use Rattle.shm_recover.specs.{Join.join_fresh, Leave.Control.{leaving, leave_steered}};
ghost use Rattle.shm_recover.specs.Recover.Control.{recovering, recover_steered};
ghost use Rattle.shm_session.specs.Working.{HasWorked};
ghost use Rattle.shm_singles.specs.Steps.{lives_control};

use plans::{Calls, Or};
use shm_count::EraSpent;
use shm_graph::{Ask, Life, Machine, Me, Site, Turn};
use shm_recover::{Join, Leave, Recover};
use shm_session::work_at;
use std::marker::Model;

/// What a join, a recovery or a leaving answers.
pub type LivesAnswer = Or<(), Or<Result<(), EraSpent>, Result<(), EraSpent>>>;

/// A join, a recovery or a leaving.
pub struct Lives {
    one: Or<Join, Or<Calls<Recover>, Calls<Leave>>>,
}

// by hand, so that who lets one go needn't know what it is made of
impl Drop for Lives {
    #[inline(always)]
    fn drop(self) {
        let Lives { one: _one } = self;
    }
}

impl Model for Lives {
    ghost use Rattle.shm_singles.specs.Steps.{Lives as ALives};

    ghost Value = { ALives };

    ghost view = { λ a. a.one };
}

impl Lives {
    /// The join of an identity.
    pub fn join(me: Me) -> Lives
        requires geometry { GeometryFits me.geometry }
        requires who { me.who < me.geometry.clients }
        ensures { result ≡ First (join_fresh me) }
    {
        Lives {
            one: Or::First(Join::new(me)),
        }
    }

    /// The recovery of an identity.
    pub fn recover(me: Me) -> Lives
        requires geometry { GeometryFits me.geometry }
        requires who { me.who < me.geometry.clients }
        ensures { result ≡ Second (First (calls_of recover_steered (recovering me))) }
    {
        Lives {
            one: Or::Second(Or::First(Calls::new(Recover::new(me)))),
        }
    }

    /// The leaving of an identity.
    pub fn leave(me: Me) -> Lives
        requires geometry { GeometryFits me.geometry }
        requires who { me.who < me.geometry.clients }
        ensures { result ≡ Second (Second (calls_of leave_steered (leaving me))) }
    {
        Lives {
            one: Or::Second(Or::Second(Calls::new(Leave::new(me)))),
        }
    }

    /// Whether it has answered.
    #[inline(always)]
    pub fn is_over(&self) -> bool
        ensures { result ≡ lives_control.finished self.now }
    {
        self.one.finished()
    }

    /// The word step that it asks for.
    #[inline(always)]
    pub fn ask(&self) -> Ask
        requires { lives_control.finished self.now ≡ false }
        ensures { result ≡ lives_control.asks self.now }
    {
        self.one.ask()
    }

    /// Takes the word that was found, for a store 0.
    #[inline(always)]
    pub fn take(&mut self, seen: u64) -> Turn<LivesAnswer>
        requires { lives_control.finished self.old ≡ false }
        ensures machine { self.new ≡ lives_control.after self.old seen }
        ensures turn { result ≡ turn_of (lives_control.turns self.old seen) }
    {
        self.one.take(seen)
    }

    /// Makes the word steps that it asks for at a site where any word step may be made, until it has answered or no life is left; its answer,
    /// where it has answered.
    #[inline(always)]
    pub fn run<S: Site>(
        &mut self,
        site: &S,
        words: &mut S::Words,
        life: &mut Life,
    ) -> Option<LivesAnswer>
        requires going { lives_control.finished self.old ≡ false }
        requires free { (w : S.Words) (a : AnAsk) → S.may site.now w a }
        ensures { HasWorked lives_control (S.made site.now) (S.seen site.now) life.old.left self.old words.old (record { left = life.new.left; machine = self.new; words = words.new; answer = result }) }
    {
        work_at(&mut self.one, site, words, life)
    }
}
