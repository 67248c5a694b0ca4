//! A root of an identity is made empty, and what only it named is freed.

ghost use Rattle.std.specs.Prelude.{◌≡◌, ◌<◌};
ghost use Rattle.shm_words.specs.Layout.{GeometryFits};
ghost use Rattle.shm_ref.specs.{DropRoot.{Control.dropping, drop_plan}, Proved.DropRoot.Laws.drop_laws};
ghost use Rattle.shm_ref.specs.Proved.RootTasks.{DropMay, drop_task};

use plans::{Or, Plan, Task, Word};
use shm_count::{EraSpent, StepDown, TearDown};
use shm_graph::{Machine, Me};
use shm_words::ADDRESS_LIMIT;
use std::marker::Model;

/// Which call of it comes next.
#[derive(Clone, Copy, Drop)]
pub enum DropPoint {
    /// The root is loaded.
    Load,
    /// The root, which names the block, comes to be empty.
    Lower,
    /// The block, whose count came to 0, is torn down.
    Tear,
}

/// The control of it; `block` is what the root was found to name.
#[derive(Clone, Copy, Drop)]
pub struct DropState {
    pub me: Me,
    pub root: u8,
    pub block: u32,
    pub point: DropPoint,
}

/// The calls by which root `root` of an identity comes to be empty.
///
/// It answers whether the root named a block, or `EraSpent` where the own era is above 2^47 - 3 at a reference that is to go.
#[derive(Drop)]
pub struct DropRoot {
    state: DropState,
}

impl Model for DropRoot {
    ghost use Rattle.shm_ref.specs.declared.drop_root.DropState.{DropState as AState};

    ghost Value = { AState };

    ghost view = { λ a. a.state };

    ghost use Rattle.shm_ref.specs.DropRoot.Control.{DropInRange};

    ghost invariant = { λ a. DropInRange a.state };
}

impl DropRoot {
    /// Root `root` of the identity `me`, before the first call.
    #[inline(always)]
    pub fn new(me: Me, root: u8) -> DropRoot
        requires geometry { GeometryFits me.geometry }
        requires who { me.who < me.geometry.clients }
        requires root { root < 16 }
        ensures { result ≡ dropping me root }
    {
        DropRoot {
            state: DropState {
                me,
                root,
                block: 0,
                point: DropPoint::Load,
            },
        }
    }
}

impl Plan for DropRoot {
    type Call = Or<Word, Or<StepDown, TearDown>>;

    type Answer = Result<bool, EraSpent>;

    ghost plan = { drop_plan };

    #[inline(always)]
    fn me(&self) -> Me {
        self.state.me
    }

    #[inline(always)]
    fn call(&self) -> Or<Word, Or<StepDown, TearDown>> {
        let DropState {
            me,
            root,
            block,
            point,
        } = self.state;
        let slot = me.geometry.root(me.who, root);
        match point {
            DropPoint::Load => Or::First(Word::load(me, slot)),
            DropPoint::Lower => Or::Second(Or::First(StepDown::new(me, slot, block))),
            DropPoint::Tear => Or::Second(Or::Second(TearDown::new(me, block))),
        }
    }

    #[inline(always)]
    fn next(
        &mut self,
        answer: Or<u64, Or<Result<bool, EraSpent>, Result<(), EraSpent>>>,
    ) -> Option<Result<bool, EraSpent>> {
        match answer {
            Or::First(word) => {
                let block = (word % u64::from(ADDRESS_LIMIT)) as u32;
                self.state.block = block;
                self.state.point = DropPoint::Lower;
                if block == 0 { Some(Ok(false)) } else { None }
            }
            Or::Second(Or::First(Ok(true))) => {
                self.state.point = DropPoint::Tear;
                None
            }
            Or::Second(Or::First(Ok(false))) => Some(Ok(true)),
            Or::Second(Or::First(Err(spent))) => Some(Err(spent)),
            Or::Second(Or::Second(Ok(()))) => Some(Ok(true)),
            Or::Second(Or::Second(Err(spent))) => Some(Err(spent)),
        }
    }

    ghost laws = { drop_laws };
}

impl Task for DropRoot {
    ghost may = { DropMay };

    ghost tasks = { drop_task };
}
