//! Plans whose machines are operations, one of two operations, and what an operation is made of.

ghost use Rattle.std.specs.Prelude.{◌≡◌};
ghost use Rattle.shm_graph.specs.declared.memo.Memo.{Memo as AMemo};
ghost use Rattle.plans.specs.{CallsControl.{calls_does, calls_of}, Either.{OrLeaves, OrNeeds, or_does}};
ghost use Rattle.plans.specs.Proved.{EitherOperates.{OrRests, or_operation}, Tasks.calls_operation};
ghost use Rattle.plans.specs.Tasks.{CallsLeave, CallsMay, TaskLaws};

use crate::calls::Calls;
use crate::or::Or;
use crate::plan::Plan;
use shm_graph::Operation;

/// A plan whose machine is an operation.
pub trait Task: Plan {
    /// Of the plan before its first call and the memo of its identity: it may begin.
    ghost may: { Self → AMemo → Type 0 };

    /// Where it answers so, its identity is between two calls again.
    ghost rests: { Self → Self.Answer → Type 0 } = { λ _ _. Unit {0} };

    ghost tasks: { TaskLaws Self.Call.control Self.plan may rests };
}

impl<P: Task> Operation for Calls<P> {
    ghost may = { CallsMay P.plan P.may };

    ghost leaves = { CallsLeave P.plan };

    ghost does = { calls_does P.Call.control P.plan };

    ghost rests = { λ m. P.rests m.plan };

    ghost operates = { calls_operation P.Call.control P.plan P.laws P.may P.rests P.tasks };
}

impl<A: Operation, B: Operation> Operation for Or<A, B> {
    ghost may = { OrNeeds A.may B.may };

    ghost leaves = { OrLeaves A.leaves B.leaves };

    ghost does = { or_does A.does B.does };

    ghost rests = { OrRests A.rests B.rests };

    ghost operates = { or_operation A.control B.control A.fits A.gives B.fits B.gives A.may B.may A.does B.does A.leaves B.leaves A.rests B.rests A.operates B.operates };
}

/// What an operation is made of: a plan, or the operation itself.
pub trait Begin {
    type Op: Operation + Drop;

    /// The operation, before its first word step.
    ghost op: { Self → Self.Op };

    /// Makes the operation, to be run.
    fn begin(self) -> Self::Op
        ensures { result ≡ op self };
}

impl<P: Task + Drop> Begin for P {
    type Op = Calls<P>;

    ghost op = { calls_of P.plan.steered };

    #[inline(always)]
    fn begin(self) -> Calls<P> {
        Calls::new(self)
    }
}

impl<A: Operation + Drop, B: Operation + Drop> Begin for Or<A, B> {
    type Op = Or<A, B>;

    ghost op = { λ m. m };

    #[inline(always)]
    fn begin(self) -> Or<A, B> {
        self
    }
}

impl<P: Task + Drop> Begin for Calls<P> {
    type Op = Calls<P>;

    ghost op = { λ m. m };

    #[inline(always)]
    fn begin(self) -> Calls<P> {
        self
    }
}
