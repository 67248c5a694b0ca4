//! All roots of an identity are made empty, and what only they named is freed.

ghost use Rattle.std.specs.Prelude.{◌≡◌, ◌<◌};
ghost use Rattle.shm_words.specs.Layout.{GeometryFits};
ghost use Rattle.shm_ref.specs.{DropRoots.{Control.dropping_roots, roots_plan}, Proved.DropRoots.Laws.roots_laws};
ghost use Rattle.shm_ref.specs.Proved.RootTasks.{RootsMay, roots_task};

use crate::drop_root::DropRoot;
use plans::{Calls, Plan, Task};
use shm_count::EraSpent;
use shm_graph::{Machine, Me};
use std::marker::Model;

/// The control of it: which root comes next.
#[derive(Clone, Copy, Drop)]
pub struct RootsState {
    pub me: Me,
    pub root: u8,
}

/// The calls by which the 16 roots of an identity come to be empty, one after the other.
///
/// It answers `EraSpent` where the own era is above 2^47 - 3 at a reference that is to go; the roots after it are then as they were.
#[derive(Drop)]
pub struct DropRoots {
    state: RootsState,
}

impl Model for DropRoots {
    ghost use Rattle.shm_ref.specs.declared.drop_roots.RootsState.{RootsState as AState};

    ghost Value = { AState };

    ghost view = { λ a. a.state };

    ghost use Rattle.shm_ref.specs.DropRoots.Control.{RootsInRange};

    ghost invariant = { λ a. RootsInRange a.state };
}

impl DropRoots {
    /// The roots of the identity `me`, before the first call.
    #[inline(always)]
    pub fn new(me: Me) -> DropRoots
        requires geometry { GeometryFits me.geometry }
        requires who { me.who < me.geometry.clients }
        ensures { result ≡ dropping_roots me }
    {
        DropRoots {
            state: RootsState { me, root: 0 },
        }
    }
}

impl Plan for DropRoots {
    type Call = Calls<DropRoot>;

    type Answer = Result<(), EraSpent>;

    ghost plan = { roots_plan };

    #[inline(always)]
    fn me(&self) -> Me {
        self.state.me
    }

    #[inline(always)]
    fn call(&self) -> Calls<DropRoot> {
        Calls::new(DropRoot::new(self.state.me, self.state.root))
    }

    #[inline(always)]
    fn next(&mut self, answer: Result<bool, EraSpent>) -> Option<Result<(), EraSpent>> {
        match answer {
            Err(spent) => Some(Err(spent)),
            Ok(_) => {
                if self.state.root == 15 {
                    Some(Ok(()))
                } else {
                    self.state.root += 1;
                    None
                }
            }
        }
    }

    ghost laws = { roots_laws };
}

impl Task for DropRoots {
    ghost may = { RootsMay };

    ghost tasks = { roots_task };
}
