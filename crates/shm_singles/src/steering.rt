//! Machines that come one after the other.

ghost use Rattle.std.specs.Prelude.{◌≡◌, false};
ghost use Rattle.shm_graph.specs.Laws.{Control, turn_of};
ghost use Rattle.plans.specs.Steering.{Steered};
ghost use Rattle.shm_singles.specs.Steering.{steering_control, steering_of};

use shm_graph::{Ask, Turn};

/// Says which machine comes next, by what the one before answered.
///
/// The machine's steps are members of their own, and no bound says that it is one: a bound on a nest of many machines would ask for all their laws at once.
pub trait Steers {
    type Call: Drop;

    type CallAnswer;

    type Answer;

    /// The control of its machines, and what it does.
    ghost control: { Control Self.Call Self.CallAnswer };

    ghost steered: { Steered Self Self.Call Self.CallAnswer Self.Answer };

    /// The machine that comes next, before its first word step.
    fn call(&self) -> Self::Call
        ensures { result ≡ steered.call self.now };

    /// Takes what the machine answered; its own answer, once it is done.
    fn next(&mut self, answer: Self::CallAnswer) -> Option<Self::Answer>
        ensures steers { self.new ≡ steered.after self.old answer }
        ensures answer { result ≡ steered.turns self.old answer };

    /// Whether the machine has answered.
    fn is_over(call: &Self::Call) -> bool
        ensures { result ≡ control.finished call.now };

    /// The word step that the machine asks for.
    fn ask(call: &Self::Call) -> Ask
        requires { control.finished call.now ≡ false }
        ensures { result ≡ control.asks call.now };

    /// Takes the word that was found, for a store 0.
    fn take(call: &mut Self::Call, seen: u64) -> Turn<Self::CallAnswer>
        requires { control.finished call.old ≡ false }
        ensures call { call.new ≡ control.after call.old seen }
        ensures turn { result ≡ turn_of (control.turns call.old seen) };
}

/// What steers, and the machine that is in progress.
///
/// The machine's type is a parameter of its own, and no bound stands here: so the type is known by these two, and not by all that the bounds name
/// besides.
#[derive(Drop)]
pub struct Steering<P, C = <P as Steers>::Call> {
    by: P,
    call: C,
}

impl<P: Steers> Steering<P> {
    /// Before the first word step.
    pub fn new(by: P) -> Steering<P>
        ensures { result ≡ steering_of P.steered by }
    {
        let call = by.call();
        Steering { by, call }
    }

    #[inline(always)]
    fn begin(&mut self)
        ensures by { self.new.by ≡ self.old.by }
        ensures call { self.new.call ≡ P.steered.call self.old.by }
    {
        self.call = self.by.call();
    }

    /// Whether it has answered.
    #[inline(always)]
    pub fn is_over(&self) -> bool
        ensures { result ≡ (steering_control P.control P.steered).finished self.now }
    {
        P::is_over(&self.call)
    }

    /// The word step that it asks for.
    #[inline(always)]
    pub fn ask(&self) -> Ask
        requires { (steering_control P.control P.steered).finished self.now ≡ false }
        ensures { result ≡ (steering_control P.control P.steered).asks self.now }
    {
        P::ask(&self.call)
    }

    /// Takes the word that was found, for a store 0.
    #[inline(always)]
    pub fn take(&mut self, seen: u64) -> Option<P::Answer>
        requires { (steering_control P.control P.steered).finished self.old ≡ false }
        ensures work { self.new ≡ (steering_control P.control P.steered).after self.old seen }
        ensures answer { result ≡ (steering_control P.control P.steered).turns self.old seen }
    {
        match P::take(&mut self.call, seen) {
            Turn::Done(answer) => match self.by.next(answer) {
                Some(answer) => Some(answer),
                None => {
                    self.begin();
                    None
                }
            },
            Turn::More => None,
            Turn::Died => None,
        }
    }
}
