//! The machine that makes the calls of a plan.

ghost use Rattle.std.specs.Prelude.{◌≡◌};
ghost use Rattle.plans.specs.{CallsControl.{calls_control, calls_of}, CallsFit.{CallsFits, CallsGives}};
ghost use Rattle.plans.specs.Proved.CallsKeep.{calls_laws};

use crate::plan::Plan;
use shm_graph::{Ask, Life, Machine, Me, Site, Turn};

/// A plan, and the call that is in progress: `Calls<P>` names it by its plan alone.
///
/// The call's type is a parameter of its own, and no bound stands here: so the type is known by these two, and not by all that its plan's bounds
/// name besides.
#[derive(Drop)]
pub struct Calls<P, C = <P as Plan>::Call> {
    plan: P,
    call: C,
}

impl<P, C> Calls<P, C> {
    /// The plan, which knows what the calls before the one in progress answered.
    #[inline(always)]
    pub fn plan(&self) -> &P
        ensures { result.now ≡ self.now.plan }
    {
        &self.plan
    }

    /// The call in progress.
    #[inline(always)]
    pub fn call(&self) -> &C
        ensures { result.now ≡ self.now.call }
    {
        &self.call
    }
}

impl<P: Plan> Calls<P> {
    /// The machine of a plan, before its first word step.
    #[inline(always)]
    pub fn new(plan: P) -> Calls<P>
        ensures { result ≡ calls_of P.plan.steered plan }
    {
        let call = plan.call();
        Calls { plan, call }
    }

    #[inline(always)]
    fn begin(&mut self)
        ensures plan { self.new.plan ≡ self.old.plan }
        ensures call { self.new.call ≡ P.plan.steered.call self.old.plan }
    {
        self.call = self.plan.call();
    }
}

impl<P: Plan> Machine for Calls<P> {
    type Answer = P::Answer;

    ghost control = { calls_control P.Call.control P.plan.steered };

    ghost fits = { CallsFits P.Call.control P.plan };

    ghost gives = { CallsGives P.Call.control P.plan };

    #[inline(always)]
    fn me(&self) -> Me {
        self.plan.me()
    }

    #[inline(always)]
    fn finished(&self) -> bool {
        self.call.finished()
    }

    #[inline(always)]
    fn ask(&self) -> Ask {
        self.call.ask()
    }

    #[inline(always)]
    fn take(&mut self, seen: u64) -> Turn<P::Answer> {
        match self.call.take(seen) {
            Turn::Done(answer) => match self.plan.next(answer) {
                Some(answer) => Turn::Done(answer),
                None => {
                    self.begin();
                    Turn::More
                }
            },
            Turn::More => Turn::More,
            Turn::Died => Turn::Died,
        }
    }

    #[inline(always)]
    fn act<S: Site>(&mut self, site: &S, words: &mut S::Words) -> Turn<P::Answer> {
        match self.call.act(site, words) {
            Turn::Done(answer) => match self.plan.next(answer) {
                Some(answer) => Turn::Done(answer),
                None => {
                    self.begin();
                    Turn::More
                }
            },
            Turn::More => Turn::More,
            Turn::Died => Turn::Died,
        }
    }

    #[inline(always)]
    fn run<S: Site>(&mut self, site: &S, words: &mut S::Words, life: &mut Life) -> Turn<P::Answer> {
        'calls: loop {
            match self.call.run(site, words, life) {
                Turn::Done(answer) => match self.plan.next(answer) {
                    Some(answer) => return Turn::Done(answer),
                    None => self.begin(),
                },
                Turn::More => return Turn::More,
                Turn::Died => return Turn::Died,
            }
        }
    }

    ghost laws = { calls_laws P.Call.control P.plan P.laws };
}
