//! The tear-down of a block whose count came to 0, as a machine.

ghost use Rattle.std.specs.Prelude.{◌≡◌, ◌<◌, ◌^◌};
ghost use Rattle.shm_words.specs.Layout.{GeometryFits, address_limit};
ghost use Rattle.shm_graph.specs.ManySteps.{HasRun, MayRun};
ghost use Rattle.shm_count.specs.{declared.tear_point.TearPoint.TheVariants.Begin, Operating.{TearDownLeaves, TearMay}};
ghost use Rattle.shm_count.specs.Proved.{Operating.tear_operation, Tear.Keeps.tear_laws};
ghost use Rattle.shm_count.specs.Tear.Control.{TearInRange, tear_ask, tear_next, answer_of, block_of, point_of, tear_control, is_over};
ghost use Rattle.shm_count.specs.Tear.{TearFits, TearGives, Events.tear_event};

use crate::answer::EraSpent;
use crate::tear_point::{TearNext, TearPoint, TearState};
use shm_graph::{Ask, Life, Machine, Me, Operation, Site, Turn};
use std::marker::Model;

impl TearState {
    /// A tear-down of a block for the identity `me`, before its first word step.
    #[inline(always)]
    fn begins(me: Me, block: u32) -> TearState
        ensures { result ≡ record { me = me; first = block; block = block; point = Begin } }
    {
        TearState {
            me,
            first: block,
            block,
            point: TearPoint::Begin,
        }
    }

    /// Whether it has answered.
    #[inline(always)]
    fn is_over(&self) -> bool
        ensures { result ≡ is_over self.now.point }
    {
        matches!(self.point, TearPoint::Over)
    }

    /// Goes where the control leads; its answer, once it is done.
    #[inline(always)]
    fn go_on(&mut self, next: TearNext) -> Option<Result<(), EraSpent>>
        ensures state { self.new ≡ record self.old { block = block_of self.old.block next; point = point_of next } }
        ensures answer { result ≡ answer_of next }
    {
        match next {
            TearNext::Go { block, point } => {
                self.block = block;
                self.point = point;
                None
            }
            TearNext::Answer(answer) => {
                self.point = TearPoint::Over;
                Some(answer)
            }
        }
    }

    /// Takes the word that was found; its answer, once it is done.
    #[inline(always)]
    fn take(&mut self, seen: u64) -> Option<Result<(), EraSpent>>
        requires { TearInRange self.old }
        ensures state { self.new ≡ tear_control.after self.old seen }
        ensures answer { result ≡ answer_of (tear_next self.old seen) }
        ensures knows { TearInRange self.new }
    {
        let next = self.next(seen);
        self.go_on(next)
    }

    /// Makes the word step that comes next, and takes the word that was found; its answer, once it is done.
    #[inline(never)]
    fn act_on<S: Site>(&mut self, site: &S, words: &mut S::Words) -> Option<Result<(), EraSpent>>
        requires range { TearInRange self.old }
        requires may { S.may site.now words.old (tear_ask self.old) }
        ensures made { S.made site.now words.old (tear_ask self.old) words.new }
        ensures state { let a = tear_ask self.old in self.new ≡ tear_control.after self.old (S.seen site.now words.old a words.new) }
        ensures answer { let a = tear_ask self.old in result ≡ answer_of (tear_next self.old (S.seen site.now words.old a words.new)) }
        ensures knows { TearInRange self.new }
    {
        let next = self.act(site, words);
        self.go_on(next)
    }

    /// Makes the word steps that come next, until it has answered or no life is left.
    #[inline(never)]
    fn run_on<S: Site>(
        &mut self,
        site: &S,
        words: &mut S::Words,
        life: &mut Life,
    ) -> Turn<Result<(), EraSpent>>
        requires range { TearInRange self.old }
        requires may { MayRun tear_control (S.may site.now) (S.made site.now) (S.seen site.now) life.old.left self.old words.old }
        ensures ran { HasRun tear_control (S.made site.now) (S.seen site.now) life.old.left self.old words.old (record { left = life.new.left; machine = self.new; words = words.new; turn = result }) }
        ensures knows { TearInRange self.new }
    {
        'steps: loop {
            if life.left == 0 {
                return Turn::Died;
            }
            life.left -= 1;
            let next = self.act(site, words);
            if let Some(answer) = self.go_on(next) {
                return Turn::Done(answer);
            }
        }
    }
}

/// A block whose count came to 0 is freed, and so is each block whose count comes to 0 by that.
///
/// The links of the tags are its stack, so that it needs no memory of its own however many blocks hang together. It answers `EraSpent`
/// where the own era is above 2^47 - 3 at a reference that is to go: the blocks that it was working on then keep their count 0, each to
/// be torn down by a call of its own. It takes at most 164 word steps for each block, in format 2 180.
#[derive(Drop)]
pub struct TearDown {
    state: TearState,
}

impl Model for TearDown {
    ghost use Rattle.shm_count.specs.declared.tear_point.TearState.{TearState as AState};

    ghost Value = { AState };

    ghost view = { λ a. a.state };

    ghost use Rattle.shm_count.specs.Tear.Control.{TearInRange};

    ghost invariant = { λ a. TearInRange a.state };
}

impl TearDown {
    /// The tear-down of `block`, an address, for the identity `me`, which is the last client of its header.
    #[inline(always)]
    pub fn new(me: Me, block: u32) -> TearDown
        requires geometry { GeometryFits me.geometry }
        requires who { me.who < me.geometry.clients }
        requires block { block < address_limit }
        ensures { result ≡ record { me = me; first = block; block = block; point = Begin } }
    {
        TearDown {
            state: TearState::begins(me, block),
        }
    }
}

impl Machine for TearDown {
    type Answer = Result<(), EraSpent>;

    ghost control = { tear_control };

    ghost fits = { TearFits };

    ghost gives = { TearGives };

    #[inline(always)]
    fn me(&self) -> Me {
        self.state.me
    }

    #[inline(always)]
    fn finished(&self) -> bool {
        self.state.is_over()
    }

    #[inline(always)]
    fn ask(&self) -> Ask {
        self.state.ask()
    }

    #[inline(always)]
    fn take(&mut self, seen: u64) -> Turn<Result<(), EraSpent>> {
        match self.state.take(seen) {
            None => Turn::More,
            Some(answer) => Turn::Done(answer),
        }
    }

    #[inline(always)]
    fn act<S: Site>(&mut self, site: &S, words: &mut S::Words) -> Turn<Result<(), EraSpent>> {
        match self.state.act_on(site, words) {
            None => Turn::More,
            Some(answer) => Turn::Done(answer),
        }
    }

    #[inline(always)]
    fn run<S: Site>(
        &mut self,
        site: &S,
        words: &mut S::Words,
        life: &mut Life,
    ) -> Turn<Result<(), EraSpent>> {
        self.state.run_on(site, words, life)
    }

    ghost laws = { tear_laws };
}

impl Operation for TearDown {
    ghost may = { TearMay };

    ghost leaves = { TearDownLeaves };

    ghost does = { tear_event };

    ghost operates = { tear_operation };
}

impl plans::Begin for TearDown {
    type Op = TearDown;

    ghost op = { λ m. m };

    #[inline(always)]
    fn begin(self) -> TearDown {
        self
    }
}
