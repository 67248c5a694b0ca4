//! Machines over roots.

ghost use Rattle.std.specs.Prelude.{◌≡◌, ◌<◌, false};
ghost use Rattle.shm_words.specs.Layout.{GeometryFits, address_limit};
ghost use Rattle.shm_graph.specs.Laws.{turn_of};
ghost use Rattle.plans.specs.{CallsControl.calls_of, declared.or.Or.TheVariants.{First, Second}};
ghost use Rattle.shm_count.specs.UpRoot.Control.{rooting, rooting_steered};
ghost use Rattle.shm_ref.specs.{DropRoot.Control.{dropping, drop_steered}, RootOf.{naming, naming_steered}};
ghost use Rattle.shm_singles.specs.Steps.{roots_control};

use plans::{Calls, Or};
use shm_count::EraSpent;
use shm_graph::{Ask, Machine, Me, Turn};
use shm_ref::{DropRoot, RootOf, Share, ShareFault};
use std::marker::Model;

/// Which block a root names; which root came to name a block; whether a root named one that it names no more.
pub type RootsAnswer = Or<u32, Or<Result<u8, ShareFault>, Result<bool, EraSpent>>>;

/// What a root names is loaded, a block gets another root, or a root is made empty.
pub struct Roots {
    one: Or<Calls<RootOf>, Or<Calls<Share>, Calls<DropRoot>>>,
}

// by hand, so that who lets one go needn't know what it is made of
impl Drop for Roots {
    #[inline(always)]
    fn drop(self) {
        let Roots { one: _one } = self;
    }
}

impl Model for Roots {
    ghost use Rattle.shm_singles.specs.Steps.{Roots as ARoots};

    ghost Value = { ARoots };

    ghost view = { λ a. a.one };
}

impl Roots {
    /// What a root names.
    pub(crate) fn name(me: Me, root: u8) -> Roots
        requires geometry { GeometryFits me.geometry }
        requires who { me.who < me.geometry.clients }
        requires root { root < 16 }
        ensures { result ≡ First (calls_of naming_steered (naming me root)) }
    {
        Roots {
            one: Or::First(Calls::new(RootOf::new(me, root))),
        }
    }

    /// A block gets another root.
    pub(crate) fn share(me: Me, block: u32) -> Roots
        requires geometry { GeometryFits me.geometry }
        requires who { me.who < me.geometry.clients }
        requires block { block < address_limit }
        ensures { result ≡ Second (First (calls_of rooting_steered (rooting me block))) }
    {
        Roots {
            one: Or::Second(Or::First(Calls::new(Share::new(me, block)))),
        }
    }

    /// A root is made empty.
    pub(crate) fn clear(me: Me, root: u8) -> Roots
        requires geometry { GeometryFits me.geometry }
        requires who { me.who < me.geometry.clients }
        requires root { root < 16 }
        ensures { result ≡ Second (Second (calls_of drop_steered (dropping me root))) }
    {
        Roots {
            one: Or::Second(Or::Second(Calls::new(DropRoot::new(me, root)))),
        }
    }

    /// Whether it has answered.
    #[inline(always)]
    pub(crate) fn is_over(&self) -> bool
        ensures { result ≡ roots_control.finished self.now }
    {
        self.one.finished()
    }

    /// The word step that it asks for.
    #[inline(always)]
    pub(crate) fn ask(&self) -> Ask
        requires { roots_control.finished self.now ≡ false }
        ensures { result ≡ roots_control.asks self.now }
    {
        self.one.ask()
    }

    /// Takes the word that was found, for a store 0.
    #[inline(always)]
    pub(crate) fn take(&mut self, seen: u64) -> Turn<RootsAnswer>
        requires { roots_control.finished self.old ≡ false }
        ensures machine { self.new ≡ roots_control.after self.old seen }
        ensures turn { result ≡ turn_of (roots_control.turns self.old seen) }
    {
        self.one.take(seen)
    }
}
