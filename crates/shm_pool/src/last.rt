//! Plans that an agent makes last.

ghost use Rattle.std.specs.Prelude.{◌≡◌, ◌<◌};
ghost use Rattle.shm_words.specs.Layout.{GeometryFits};
ghost use Rattle.shm_graph.specs.declared.{ask.Me.Me as AMe, memo.Memo.Memo as AMemo};
ghost use Rattle.shm_recover.specs.{Leave.{Control.leaving, MayLeave}, Mend.MayMend, Recover.Control.recovering};
ghost use Rattle.shm_pool.specs.{Lasts.LastLaws, Proved.Lasts.{leaving_last, recovery_last}};

use plans::Plan;
use shm_count::EraSpent;
use shm_graph::Me;
use shm_recover::{Leave, Recover};

/// A plan that an agent makes last: where it answers Ok, its identity is gone.
pub(crate) trait Last: Plan<Answer = Result<(), EraSpent>> {
    /// The plan that is made for an identity.
    ghost made: { AMe → Self };

    /// Of the identity and its memo: it may begin.
    ghost may: { AMe → AMemo → Type 0 };

    /// Makes the plan of the identity `me`.
    fn of(me: Me) -> Self
        requires geometry { GeometryFits me.geometry }
        requires who { me.who < me.geometry.clients }
        ensures { result ≡ made me };

    ghost lasts: { LastLaws Self.Call.control Self.Plan.plan made may };
}

impl Last for Leave {
    ghost made = { leaving };

    ghost may = { MayLeave };

    fn of(me: Me) -> Leave {
        Leave::new(me)
    }

    ghost lasts = { leaving_last };
}

impl Last for Recover {
    ghost made = { recovering };

    ghost may = { MayMend };

    fn of(me: Me) -> Recover {
        Recover::new(me)
    }

    ghost lasts = { recovery_last };
}
