//! Plans: which call comes next.

ghost use Rattle.std.specs.Prelude.{◌≡◌};
ghost use Rattle.plans.specs.Plans.{Planned, PlanLaws};

use shm_graph::{Machine, Me};

/// What a plan is to calls, a machine is to word steps: it says which call comes next, is told what that call answered, and then says
/// the next one or answers itself.
pub trait Plan {
    type Call: Machine + Drop;

    type Answer;

    /// Its control, and what is known between its calls, as plain data.
    ghost plan: { Planned Self Self.Call Self.Call.Answer Self.Answer };

    /// The identity that it works for.
    fn me(&self) -> Me
        ensures { result ≡ plan.steered.me self.now };

    /// The call that comes next, before its first word step.
    fn call(&self) -> Self::Call
        ensures { result ≡ plan.steered.call self.now };

    /// Takes what the call answered; its own answer, once it is done.
    fn next(&mut self, answer: <Self::Call as Machine>::Answer) -> Option<Self::Answer>
        ensures plan { self.new ≡ plan.steered.after self.old answer }
        ensures answer { result ≡ plan.steered.turns self.old answer };

    ghost laws: { PlanLaws Self.Call.control plan };
}
