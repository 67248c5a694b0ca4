//! What a root of an identity names.

ghost use Rattle.std.specs.Prelude.{◌≡◌, ◌<◌};
ghost use Rattle.shm_words.specs.Layout.{GeometryFits};
ghost use Rattle.shm_ref.specs.{RootOf.{naming, naming_plan}, Proved.RootOf.Laws.naming_laws};
ghost use Rattle.shm_ref.specs.Proved.LatchTasks.{NamingMay, naming_task};

use plans::{Plan, Task, Word};
use shm_graph::{Machine, Me};
use shm_words::ADDRESS_LIMIT;
use std::marker::Model;

/// The control of it.
#[derive(Clone, Copy, Drop)]
pub struct NamingState {
    pub me: Me,
    pub root: u8,
}

/// The one word step that tells what root `root` of an identity names.
///
/// It answers the block that the root names, or 0.
#[derive(Drop)]
pub struct RootOf {
    state: NamingState,
}

impl Model for RootOf {
    ghost use Rattle.shm_ref.specs.declared.root_of.NamingState.{NamingState as AState};

    ghost Value = { AState };

    ghost view = { λ a. a.state };

    ghost use Rattle.shm_ref.specs.RootOf.{NamingInRange};

    ghost invariant = { λ a. NamingInRange a.state };
}

impl RootOf {
    /// Root `root` of the identity `me`, before the word step.
    #[inline(always)]
    pub fn new(me: Me, root: u8) -> RootOf
        requires geometry { GeometryFits me.geometry }
        requires who { me.who < me.geometry.clients }
        requires root { root < 16 }
        ensures { result ≡ naming me root }
    {
        RootOf {
            state: NamingState { me, root },
        }
    }
}

impl Plan for RootOf {
    type Call = Word;

    type Answer = u32;

    ghost plan = { naming_plan };

    #[inline(always)]
    fn me(&self) -> Me {
        self.state.me
    }

    #[inline(always)]
    fn call(&self) -> Word {
        let NamingState { me, root } = self.state;
        Word::load(me, me.geometry.root(me.who, root))
    }

    #[inline(always)]
    fn next(&mut self, word: u64) -> Option<u32> {
        Some((word % u64::from(ADDRESS_LIMIT)) as u32)
    }

    ghost laws = { naming_laws };
}

impl Task for RootOf {
    ghost may = { NamingMay };

    ghost tasks = { naming_task };
}
