//! A dead identity is recovered, so that nothing of it is left.

ghost use Rattle.std.specs.Prelude.{◌≡◌, ◌<◌, [], ◌∷◌};
ghost use Rattle.shm_words.specs.Layout.{GeometryFits};
ghost use Rattle.shm_recover.specs.Recover.{Control.{queues_next, recovering, recover_steered}, recover_plan};
ghost use Rattle.shm_recover.specs.Proved.{Recover.Laws.recover_laws, FinishTakes.Laws.finish_laws};
ghost use Rattle.shm_recover.specs.Proved.{GiveUp.Laws.give_laws, Mend.Laws.mend_laws, Scan.Laws.scan_laws};
ghost use Rattle.shm_recover.specs.Proved.TakeBack.Laws.{back_laws};
ghost use Rattle.shm_ref.specs.Proved.DropRoots.Laws.{roots_laws};

use crate::finish_takes::FinishTakes;
use crate::give_up::GiveUp;
use crate::mend::Mend;
use crate::scan::Scan;
use crate::take_back::TakeBack;
use plans::{Calls, Or, Plan};
use shm_count::EraSpent;
use shm_graph::{Machine, Me};
use shm_ref::parts::DropRoots;
use std::marker::Model;

/// Which call of it comes next.
#[derive(Clone, Copy, Drop)]
pub enum RecoverPoint {
    /// The step in progress is finished or dropped, and the latch is given back.
    Mend,
    /// The roots are dropped.
    Roots,
    /// Blocks that were put into queues and not sent are taken back.
    Back,
    /// Items that were taken out of queues are received.
    Takes,
    /// Blocks with count 0 are found and freed.
    Scan,
    /// The segments are given up, and the status is stored.
    Give,
}

/// The control of it.
#[derive(Clone, Copy, Drop)]
pub struct RecoverState {
    pub me: Me,
    pub point: RecoverPoint,
}

/// The calls by which a dead identity is recovered.
///
/// It answers `EraSpent` where the own era is above 2^47 - 3 at a reference that is to go; what was done stays done, and the identity is
/// dead still.
#[derive(Drop)]
pub struct Recover {
    state: RecoverState,
}

impl Model for Recover {
    ghost use Rattle.shm_recover.specs.declared.recover.RecoverState.{RecoverState as AState};

    ghost Value = { AState };

    ghost view = { λ a. a.state };

    ghost use Rattle.shm_recover.specs.Recover.Control.{RecoverInRange};

    ghost invariant = { λ a. RecoverInRange a.state };
}

impl Recover {
    /// The recovery of the identity `me`, before the first call; its line is the bytes of `recover`.
    #[inline(always)]
    pub fn new(me: Me) -> Recover
        requires geometry { GeometryFits me.geometry }
        requires who { me.who < me.geometry.clients }
        ensures state { result ≡ recovering me }
        ensures line { recover_steered.line result ≡ 114 ∷ 101 ∷ 99 ∷ 111 ∷ 118 ∷ 101 ∷ 114 ∷ [] }
    {
        Recover {
            state: RecoverState {
                me,
                point: RecoverPoint::Mend,
            },
        }
    }

    /// Goes on to queues, of which a pool of one client has none.
    #[inline(always)]
    fn turn_to(&mut self, point: RecoverPoint)
        ensures { self.new ≡ queues_next self.old point }
    {
        if self.state.me.geometry.clients() == 1 {
            self.state.point = RecoverPoint::Scan;
        } else {
            self.state.point = point;
        }
    }
}

impl Plan for Recover {
    type Call = Or<
        Calls<Mend>,
        Or<
            Calls<DropRoots>,
            Or<Calls<TakeBack>, Or<Calls<FinishTakes>, Or<Calls<Scan>, Calls<GiveUp>>>>,
        >,
    >;

    type Answer = Result<(), EraSpent>;

    ghost plan = { recover_plan };

    #[inline(always)]
    fn me(&self) -> Me {
        self.state.me
    }

    #[inline(always)]
    fn call(
        &self,
    ) -> Or<
        Calls<Mend>,
        Or<
            Calls<DropRoots>,
            Or<Calls<TakeBack>, Or<Calls<FinishTakes>, Or<Calls<Scan>, Calls<GiveUp>>>>,
        >,
    > {
        let me = self.state.me;
        match self.state.point {
            RecoverPoint::Mend => Or::First(Calls::new(Mend::new(me))),
            RecoverPoint::Roots => Or::Second(Or::First(Calls::new(DropRoots::new(me)))),
            RecoverPoint::Back => {
                Or::Second(Or::Second(Or::First(Calls::new(TakeBack::new(me)))))
            }
            RecoverPoint::Takes => {
                let takes = Calls::new(FinishTakes::new(me));
                Or::Second(Or::Second(Or::Second(Or::First(takes))))
            }
            RecoverPoint::Scan => {
                let scan = Calls::new(Scan::new(me));
                Or::Second(Or::Second(Or::Second(Or::Second(Or::First(scan)))))
            }
            RecoverPoint::Give => {
                let give = Calls::new(GiveUp::new(me));
                Or::Second(Or::Second(Or::Second(Or::Second(Or::Second(give)))))
            }
        }
    }

    #[inline(always)]
    fn next(
        &mut self,
        answer: Or<
            (),
            Or<
                Result<(), EraSpent>,
                Or<Result<(), EraSpent>, Or<(), Or<Result<u32, EraSpent>, ()>>>,
            >,
        >,
    ) -> Option<Result<(), EraSpent>> {
        match answer {
            Or::First(()) => {
                self.state.point = RecoverPoint::Roots;
                None
            }
            Or::Second(Or::First(Ok(()))) => {
                self.turn_to(RecoverPoint::Back);
                None
            }
            Or::Second(Or::First(Err(spent))) => Some(Err(spent)),
            Or::Second(Or::Second(Or::First(Ok(())))) => {
                self.turn_to(RecoverPoint::Takes);
                None
            }
            Or::Second(Or::Second(Or::First(Err(spent)))) => Some(Err(spent)),
            Or::Second(Or::Second(Or::Second(Or::First(())))) => {
                self.state.point = RecoverPoint::Scan;
                None
            }
            Or::Second(Or::Second(Or::Second(Or::Second(Or::First(Ok(_)))))) => {
                self.state.point = RecoverPoint::Give;
                None
            }
            Or::Second(Or::Second(Or::Second(Or::Second(Or::First(Err(spent)))))) => {
                Some(Err(spent))
            }
            Or::Second(Or::Second(Or::Second(Or::Second(Or::Second(()))))) => Some(Ok(())),
        }
    }

    ghost laws = { recover_laws mend_laws roots_laws back_laws finish_laws scan_laws give_laws };
}
