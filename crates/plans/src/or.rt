//! One of two machines, and one of two answers.

ghost use Rattle.std.specs.Prelude.{◌≡◌};
ghost use Rattle.shm_graph.specs.Mapped.{told_turn};
ghost use Rattle.plans.specs.{Either.{or_control, OrFits, OrGives}, Proved.Either.or_laws};
ghost use Rattle.plans.specs.declared.or.Or.TheVariants as one;

use shm_graph::{Ask, Life, Machine, Me, Site, Turn};

/// One of two.
#[derive(Clone, Copy, Drop)]
pub enum Or<A, B> {
    First(A),
    Second(B),
}

impl<A: Machine, B: Machine> Machine for Or<A, B> {
    type Answer = Or<A::Answer, B::Answer>;

    ghost control = { or_control A.control B.control };

    ghost fits = { OrFits A.fits B.fits };

    ghost gives = { OrGives A.gives B.gives };

    #[inline(always)]
    fn me(&self) -> Me {
        match self {
            Or::First(a) => a.me(),
            Or::Second(b) => b.me(),
        }
    }

    #[inline(always)]
    fn finished(&self) -> bool {
        match self {
            Or::First(a) => a.finished(),
            Or::Second(b) => b.finished(),
        }
    }

    #[inline(always)]
    fn ask(&self) -> Ask {
        match self {
            Or::First(a) => a.ask(),
            Or::Second(b) => b.ask(),
        }
    }

    #[inline(always)]
    fn take(&mut self, seen: u64) -> Turn<Or<A::Answer, B::Answer>> {
        match self {
            Or::First(a) => match a.take(seen) {
                Turn::Done(answer) => Turn::Done(Or::First(answer)),
                Turn::More => Turn::More,
                Turn::Died => Turn::Died,
            },
            Or::Second(b) => match b.take(seen) {
                Turn::Done(answer) => Turn::Done(Or::Second(answer)),
                Turn::More => Turn::More,
                Turn::Died => Turn::Died,
            },
        }
    }

    #[inline(always)]
    fn act<S: Site>(&mut self, site: &S, words: &mut S::Words) -> Turn<Or<A::Answer, B::Answer>> {
        match self {
            Or::First(a) => match a.act(site, words) {
                Turn::Done(answer) => Turn::Done(Or::First(answer)),
                Turn::More => Turn::More,
                Turn::Died => Turn::Died,
            },
            Or::Second(b) => match b.act(site, words) {
                Turn::Done(answer) => Turn::Done(Or::Second(answer)),
                Turn::More => Turn::More,
                Turn::Died => Turn::Died,
            },
        }
    }

    #[inline(always)]
    fn run<S: Site>(
        &mut self,
        site: &S,
        words: &mut S::Words,
        life: &mut Life,
    ) -> Turn<Or<A::Answer, B::Answer>> {
        match self {
            Or::First(a) => first_told(a.run(site, words, life)),
            Or::Second(b) => second_told(b.run(site, words, life)),
        }
    }

    ghost laws = { or_laws A.control B.control A.fits A.gives B.fits B.gives A.laws B.laws };
}

/// What the first of the two tells, as one of them.
#[inline(always)]
fn first_told<A, B>(turn: Turn<A>) -> Turn<Or<A, B>>
    ensures { result ≡ told_turn one.First turn }
{
    match turn {
        Turn::Done(answer) => Turn::Done(Or::First(answer)),
        Turn::More => Turn::More,
        Turn::Died => Turn::Died,
    }
}

/// What the second of the two tells, as one of them.
#[inline(always)]
fn second_told<A, B>(turn: Turn<B>) -> Turn<Or<A, B>>
    ensures { result ≡ told_turn one.Second turn }
{
    match turn {
        Turn::Done(answer) => Turn::Done(Or::Second(answer)),
        Turn::More => Turn::More,
        Turn::Died => Turn::Died,
    }
}
