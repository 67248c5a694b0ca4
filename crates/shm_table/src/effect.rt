//! Whether the deciding step of a machine was made.

ghost use Rattle.std.specs.Prelude.{◌≡◌, Bool, false};
ghost use Rattle.plans.specs.Deciding.{either};

use plans::{Calls, Or};

/// A machine of which one step decides: from it on no refusal is answered.
pub trait Deciding {
    ghost decided: { Self → Bool };

    /// Whether the deciding step was made.
    fn decided(&self) -> bool
        ensures { result ≡ decided self.now };
}

impl<A: Deciding, B: Deciding> Deciding for Or<A, B> {
    ghost decided = { either A.decided B.decided };

    #[inline(always)]
    fn decided(&self) -> bool {
        match self {
            Or::First(a) => a.decided(),
            Or::Second(b) => b.decided(),
        }
    }
}

/// A plan that knows after the call that decides whether its deciding step was made.
pub(crate) trait Settling {
    ghost settled: { Self → Bool };

    /// Whether it was.
    fn settled(&self) -> bool
        ensures { result ≡ settled self.now };
}

/// Whether the deciding step was made, where a plan makes it in its second call, of three.
#[inline(always)]
pub(crate) fn decided_in<P: Settling, A, B: Deciding, C>(calls: &Calls<P, Or<A, Or<B, C>>>) -> bool
    ensures { result ≡ either (λ c. false) (either B.decided (λ c. P.settled calls.now.plan)) calls.now.call }
{
    match calls.call() {
        Or::First(_) => false,
        Or::Second(Or::First(one)) => one.decided(),
        Or::Second(Or::Second(_)) => calls.plan().settled(),
    }
}
