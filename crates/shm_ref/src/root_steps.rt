//! Count steps at the roots of an identity, one at a time.
//!
//! A share and a drop of a root do more: the one looks for an empty root, the other tears down what no reference names any more.

ghost use Rattle.std.specs.Prelude.{◌≡◌, ◌<◌, ◌^◌};
ghost use Rattle.shm_words.specs.Layout.{GeometryFits, address_limit};
ghost use Rattle.shm_ref.specs.RootSteps.{ChangingMay, LoweringMay, RaisingMay, changing, changing_plan, lowering, lowering_plan, raising, raising_plan};
ghost use Rattle.shm_ref.specs.Proved.RootSteps.Laws.{changing_laws, changing_task, lowering_laws, lowering_task, raising_laws, raising_task};

use plans::{Plan, Task};
use shm_count::{EraSpent, StepChange, StepDown, StepUp, UpFault};
use shm_graph::{Machine, Me};
use std::marker::Model;

/// The control of a step up.
#[derive(Clone, Copy, Drop)]
pub struct RaisingState {
    pub me: Me,
    pub root: u8,
    pub block: u32,
}

/// The count step by which an empty root of an identity comes to name a block.
///
/// It answers `UpFault` where the own era is above 2^47 - 3 or the block has the greatest count, and then no reference has changed.
#[derive(Drop)]
pub struct RaiseRoot {
    state: RaisingState,
}

impl Model for RaiseRoot {
    ghost use Rattle.shm_ref.specs.declared.root_steps.RaisingState.{RaisingState as AState};

    ghost Value = { AState };

    ghost view = { λ a. a.state };

    ghost use Rattle.shm_ref.specs.RootSteps.{RaisingInRange};

    ghost invariant = { λ a. RaisingInRange a.state };
}

impl RaiseRoot {
    /// Root `root` of the identity `me`, which is empty, is to name `block`, before the step.
    #[inline(always)]
    pub fn new(me: Me, root: u8, block: u32) -> RaiseRoot
        requires geometry { GeometryFits me.geometry }
        requires who { me.who < me.geometry.clients }
        requires root { root < 16 }
        requires block { block < address_limit }
        ensures { result ≡ raising me root block }
    {
        RaiseRoot {
            state: RaisingState { me, root, block },
        }
    }
}

impl Plan for RaiseRoot {
    type Call = StepUp;

    type Answer = Result<(), UpFault>;

    ghost plan = { raising_plan };

    #[inline(always)]
    fn me(&self) -> Me {
        self.state.me
    }

    #[inline(always)]
    fn call(&self) -> StepUp {
        let RaisingState { me, root, block } = self.state;
        let slot = me.geometry.root(me.who, root);
        StepUp::new(me, slot, block)
    }

    #[inline(always)]
    fn next(&mut self, answer: Result<(), UpFault>) -> Option<Result<(), UpFault>> {
        Some(answer)
    }

    ghost laws = { raising_laws };
}

impl Task for RaiseRoot {
    ghost may = { RaisingMay };

    ghost tasks = { raising_task };
}

/// The control of a step down.
#[derive(Clone, Copy, Drop)]
pub struct LoweringState {
    pub me: Me,
    pub root: u8,
    pub block: u32,
}

/// The count step by which a root of an identity that names a block comes to be empty.
///
/// It answers whether the block's count came to 0, or `EraSpent` where the own era is above 2^47 - 3, and then nothing has changed.
#[derive(Drop)]
pub struct LowerRoot {
    state: LoweringState,
}

impl Model for LowerRoot {
    ghost use Rattle.shm_ref.specs.declared.root_steps.LoweringState.{LoweringState as AState};

    ghost Value = { AState };

    ghost view = { λ a. a.state };

    ghost use Rattle.shm_ref.specs.RootSteps.{LoweringInRange};

    ghost invariant = { λ a. LoweringInRange a.state };
}

impl LowerRoot {
    /// Root `root` of the identity `me`, which names `block`, is to be empty, before the step.
    #[inline(always)]
    pub fn new(me: Me, root: u8, block: u32) -> LowerRoot
        requires geometry { GeometryFits me.geometry }
        requires who { me.who < me.geometry.clients }
        requires root { root < 16 }
        requires block { block < address_limit }
        ensures { result ≡ lowering me root block }
    {
        LowerRoot {
            state: LoweringState { me, root, block },
        }
    }
}

impl Plan for LowerRoot {
    type Call = StepDown;

    type Answer = Result<bool, EraSpent>;

    ghost plan = { lowering_plan };

    #[inline(always)]
    fn me(&self) -> Me {
        self.state.me
    }

    #[inline(always)]
    fn call(&self) -> StepDown {
        let LoweringState { me, root, block } = self.state;
        let slot = me.geometry.root(me.who, root);
        StepDown::new(me, slot, block)
    }

    #[inline(always)]
    fn next(&mut self, answer: Result<bool, EraSpent>) -> Option<Result<bool, EraSpent>> {
        Some(answer)
    }

    ghost laws = { lowering_laws };
}

impl Task for LowerRoot {
    ghost may = { LoweringMay };

    ghost tasks = { lowering_task };
}

/// The control of a change.
#[derive(Clone, Copy, Drop)]
pub struct ChangingState {
    pub me: Me,
    pub root: u8,
    pub before: u32,
    pub after: u32,
}

/// The count step by which a root of an identity that names a block comes to name another one.
///
/// It answers whether the count of the block before came to 0, or `UpFault` where the own era is above 2^47 - 4 or the block after has the
/// greatest count, and then no reference has changed.
#[derive(Drop)]
pub struct ChangeRoot {
    state: ChangingState,
}

impl Model for ChangeRoot {
    ghost use Rattle.shm_ref.specs.declared.root_steps.ChangingState.{ChangingState as AState};

    ghost Value = { AState };

    ghost view = { λ a. a.state };

    ghost use Rattle.shm_ref.specs.RootSteps.{ChangingInRange};

    ghost invariant = { λ a. ChangingInRange a.state };
}

impl ChangeRoot {
    /// Root `root` of the identity `me`, which names `before`, is to name `after`, before the step.
    #[inline(always)]
    pub fn new(me: Me, root: u8, before: u32, after: u32) -> ChangeRoot
        requires geometry { GeometryFits me.geometry }
        requires who { me.who < me.geometry.clients }
        requires root { root < 16 }
        requires before { before < address_limit }
        requires after { after < address_limit }
        ensures { result ≡ changing me root before after }
    {
        ChangeRoot {
            state: ChangingState {
                me,
                root,
                before,
                after,
            },
        }
    }
}

impl Plan for ChangeRoot {
    type Call = StepChange;

    type Answer = Result<bool, UpFault>;

    ghost plan = { changing_plan };

    #[inline(always)]
    fn me(&self) -> Me {
        self.state.me
    }

    #[inline(always)]
    fn call(&self) -> StepChange {
        let ChangingState {
            me,
            root,
            before,
            after,
        } = self.state;
        let slot = me.geometry.root(me.who, root);
        StepChange::new(me, slot, before, after)
    }

    #[inline(always)]
    fn next(&mut self, answer: Result<bool, UpFault>) -> Option<Result<bool, UpFault>> {
        Some(answer)
    }

    ghost laws = { changing_laws };
}

impl Task for ChangeRoot {
    ghost may = { ChangingMay };

    ghost tasks = { changing_task };
}
