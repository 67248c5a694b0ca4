//! Count steps as machines: a reference word comes to name a block, comes to be empty, or comes to name another block.

ghost use Rattle.std.specs.Prelude.{◌≡◌, ◌+◌, ◌<◌, ◌≤◌, ◌^◌};
ghost use Rattle.shm_words.specs.Layout.{GeometryFits, address_limit};
ghost use Rattle.shm_graph.specs.{Mapped.told_turn, ManySteps.{HasRun, MayRun}};
ghost use Rattle.shm_count.specs.declared.point.StepPoint.TheVariants.{Era};
ghost use Rattle.shm_count.specs.Step.Control.{StepInRange, first_point, step_ask, step_next, answer_of, point_of, step_control, is_over};
ghost use Rattle.shm_count.specs.{Step.ExchangeMade.step_exchanged, Proved.Step.Keeps.step_keeps};
ghost use Rattle.shm_count.specs.declared.point.Aim.TheVariants as aims;
ghost use Rattle.shm_count.specs.Proved.Step.Machines as machines_proved;
ghost use Rattle.shm_count.specs.Step.Machines as machines;

use crate::answer::{EraSpent, UpFault};
use crate::point;
use crate::point::{Aim, StepNext, StepPoint, StepState};
use shm_graph::{Ask, Life, Machine, Me, Site, Turn};
use std::marker::Model;

impl StepState {
    /// A step for the identity `me` at a slot, before its first word step.
    #[inline(always)]
    fn begins(me: Me, slot: u32, aim: Aim) -> StepState
        ensures { result ≡ record { me = me; slot = slot; aim = aim; point = Era } }
    {
        let point = StepPoint::Era;
        StepState {
            me,
            slot,
            aim,
            point,
        }
    }

    /// Whether it has answered.
    #[inline(always)]
    fn is_over(&self) -> bool
        ensures { result ≡ is_over self.now.point }
    {
        matches!(self.point, StepPoint::Over)
    }

    /// Goes where the control leads; its answer, once it is done.
    #[inline(always)]
    fn go_on(&mut self, next: StepNext) -> Option<Result<bool, UpFault>>
        ensures state { self.new ≡ record self.old { point = point_of next } }
        ensures answer { result ≡ answer_of next }
    {
        match next {
            StepNext::Point(point) => {
                self.point = point;
                None
            }
            StepNext::Answer(answer) => {
                self.point = StepPoint::Over;
                Some(answer)
            }
        }
    }

    /// Takes the word that was found; its answer, once it is done.
    #[inline(always)]
    fn take(&mut self, seen: u64) -> Option<Result<bool, UpFault>>
        requires { StepInRange self.old }
        ensures state { self.new ≡ step_control.after self.old seen }
        ensures answer { result ≡ answer_of (step_next self.old seen) }
        ensures knows { StepInRange self.new }
    {
        let next = self.next(seen);
        self.go_on(next)
    }

    /// Makes the word step that comes next, and takes the word that was found; its answer, once it is done.
    #[inline(never)]
    fn act_on<S: Site>(&mut self, site: &S, words: &mut S::Words) -> Option<Result<bool, UpFault>>
        requires range { StepInRange self.old }
        requires may { S.may site.now words.old (step_ask self.old) }
        ensures made { S.made site.now words.old (step_ask self.old) words.new }
        ensures state { let a = step_ask self.old in self.new ≡ step_control.after self.old (S.seen site.now words.old a words.new) }
        ensures answer { let a = step_ask self.old in result ≡ answer_of (step_next self.old (S.seen site.now words.old a words.new)) }
        ensures knows { StepInRange self.new }
    {
        let next = self.act(site, words);
        self.go_on(next)
    }

    /// Makes the word steps that come next, until it has answered or no life is left.
    #[inline(never)]
    fn run_on<S: Site>(
        &mut self,
        site: &S,
        words: &mut S::Words,
        life: &mut Life,
    ) -> Turn<Result<bool, UpFault>>
        requires range { StepInRange self.old }
        requires may { MayRun step_control (S.may site.now) (S.made site.now) (S.seen site.now) life.old.left self.old words.old }
        ensures ran { HasRun step_control (S.made site.now) (S.seen site.now) life.old.left self.old words.old (record { left = life.new.left; machine = self.new; words = words.new; turn = result }) }
        ensures knows { StepInRange self.new }
    {
        'steps: loop {
            if life.left == 0 {
                return Turn::Died;
            }
            life.left -= 1;
            let next = self.act(site, words);
            if let Some(answer) = self.go_on(next) {
                return Turn::Done(answer);
            }
        }
    }
}

/// An empty reference word comes to name a block, whose count goes up.
///
/// It answers `UpFault` where the own era is above 2^47 - 3 or the block has the greatest count, and then no reference has changed.
#[derive(Drop)]
pub struct StepUp {
    state: StepState,
}

impl Model for StepUp {
    ghost use Rattle.shm_count.specs.declared.point.StepState.{StepState as AState};

    ghost Value = { AState };

    ghost view = { λ a. a.state };

    ghost use Rattle.shm_count.specs.Step.Control.{StepInRange};

    ghost invariant = { λ a. StepInRange a.state };
}

impl StepUp {
    /// The step of the identity `me` by which the word at `slot` comes to name `block`.
    #[inline(always)]
    pub fn new(me: Me, slot: u32, block: u32) -> StepUp
        requires geometry { GeometryFits me.geometry }
        requires who { me.who < me.geometry.clients }
        requires slot { slot < address_limit }
        requires block { block < address_limit }
        ensures { result ≡ record { me = me; slot = slot; aim = aims.Up block; point = Era } }
    {
        StepUp {
            state: StepState::begins(me, slot, Aim::Up { block }),
        }
    }

    /// The same step from its redo record on, once `era` was found to be the own era and to leave room for it.
    #[inline(always)]
    pub fn taken_up(me: Me, slot: u32, block: u32, era: u64) -> StepUp
        requires geometry { GeometryFits me.geometry }
        requires who { me.who < me.geometry.clients }
        requires slot { slot < address_limit }
        requires block { block < address_limit }
        requires era { era + 3 ≤ 2 ^ 47 }
        ensures { result ≡ record { me = me; slot = slot; aim = aims.Up block; point = first_point me era } }
    {
        let aim = Aim::Up { block };
        let point = point::first_point(me, era);
        StepUp {
            state: StepState {
                me,
                slot,
                aim,
                point,
            },
        }
    }

    /// Whether its exchange was made.
    #[inline(always)]
    pub fn exchanged(&self) -> bool
        ensures { result ≡ step_exchanged self.now }
    {
        self.state.exchanged()
    }
}

impl Machine for StepUp {
    type Answer = Result<(), UpFault>;

    ghost control = { machines.up_control };

    ghost fits = { machines.UpFits };

    ghost gives = { machines.UpGives };

    #[inline(always)]
    fn me(&self) -> Me {
        self.state.me
    }

    #[inline(always)]
    fn finished(&self) -> bool {
        self.state.is_over()
    }

    #[inline(always)]
    fn ask(&self) -> Ask {
        self.state.ask()
    }

    #[inline(always)]
    fn take(&mut self, seen: u64) -> Turn<Result<(), UpFault>> {
        match self.state.take(seen) {
            None => Turn::More,
            Some(answer) => Turn::Done(up_answer(answer)),
        }
    }

    #[inline(always)]
    fn act<S: Site>(&mut self, site: &S, words: &mut S::Words) -> Turn<Result<(), UpFault>> {
        match self.state.act_on(site, words) {
            None => Turn::More,
            Some(answer) => Turn::Done(up_answer(answer)),
        }
    }

    #[inline(always)]
    fn run<S: Site>(
        &mut self,
        site: &S,
        words: &mut S::Words,
        life: &mut Life,
    ) -> Turn<Result<(), UpFault>> {
        up_told(self.state.run_on(site, words, life))
    }

    ghost laws = { machines_proved.up_laws step_keeps };
}

/// A reference word that names a block comes to be empty, and the block's count goes down.
///
/// It answers whether the count came to 0, or `EraSpent` where the own era is above 2^47 - 3, and then nothing has changed.
#[derive(Drop)]
pub struct StepDown {
    state: StepState,
}

impl Model for StepDown {
    ghost use Rattle.shm_count.specs.declared.point.StepState.{StepState as AState};

    ghost Value = { AState };

    ghost view = { λ a. a.state };

    ghost use Rattle.shm_count.specs.Step.Control.{StepInRange};

    ghost invariant = { λ a. StepInRange a.state };
}

impl StepDown {
    /// The step of the identity `me` by which the word at `slot`, which names `block`, comes to be empty.
    #[inline(always)]
    pub fn new(me: Me, slot: u32, block: u32) -> StepDown
        requires geometry { GeometryFits me.geometry }
        requires who { me.who < me.geometry.clients }
        requires slot { slot < address_limit }
        requires block { block < address_limit }
        ensures { result ≡ record { me = me; slot = slot; aim = aims.Down block; point = Era } }
    {
        StepDown {
            state: StepState::begins(me, slot, Aim::Down { block }),
        }
    }

    /// Whether its exchange was made.
    #[inline(always)]
    pub fn exchanged(&self) -> bool
        ensures { result ≡ step_exchanged self.now }
    {
        self.state.exchanged()
    }
}

impl Machine for StepDown {
    type Answer = Result<bool, EraSpent>;

    ghost control = { machines.down_control };

    ghost fits = { machines.DownFits };

    ghost gives = { machines.DownGives };

    #[inline(always)]
    fn me(&self) -> Me {
        self.state.me
    }

    #[inline(always)]
    fn finished(&self) -> bool {
        self.state.is_over()
    }

    #[inline(always)]
    fn ask(&self) -> Ask {
        self.state.ask()
    }

    #[inline(always)]
    fn take(&mut self, seen: u64) -> Turn<Result<bool, EraSpent>> {
        match self.state.take(seen) {
            None => Turn::More,
            Some(answer) => Turn::Done(down_answer(answer)),
        }
    }

    #[inline(always)]
    fn act<S: Site>(&mut self, site: &S, words: &mut S::Words) -> Turn<Result<bool, EraSpent>> {
        match self.state.act_on(site, words) {
            None => Turn::More,
            Some(answer) => Turn::Done(down_answer(answer)),
        }
    }

    #[inline(always)]
    fn run<S: Site>(
        &mut self,
        site: &S,
        words: &mut S::Words,
        life: &mut Life,
    ) -> Turn<Result<bool, EraSpent>> {
        down_told(self.state.run_on(site, words, life))
    }

    ghost laws = { machines_proved.down_laws step_keeps };
}

/// A reference word that names a block comes to name another one: its count goes up, and that of the block before goes down.
///
/// It answers whether the count of the block before came to 0, or `UpFault` where the own era is above 2^47 - 4 or the block after has
/// the greatest count, and then no reference has changed.
#[derive(Drop)]
pub struct StepChange {
    state: StepState,
}

impl Model for StepChange {
    ghost use Rattle.shm_count.specs.declared.point.StepState.{StepState as AState};

    ghost Value = { AState };

    ghost view = { λ a. a.state };

    ghost use Rattle.shm_count.specs.Step.Control.{StepInRange};

    ghost invariant = { λ a. StepInRange a.state };
}

impl StepChange {
    /// The step of the identity `me` by which the word at `slot`, which names `before`, comes to name `after`.
    #[inline(always)]
    pub fn new(me: Me, slot: u32, before: u32, after: u32) -> StepChange
        requires geometry { GeometryFits me.geometry }
        requires who { me.who < me.geometry.clients }
        requires slot { slot < address_limit }
        requires before { before < address_limit }
        requires after { after < address_limit }
        ensures { result ≡ record { me = me; slot = slot; aim = aims.Change before after; point = Era } }
    {
        StepChange {
            state: StepState::begins(me, slot, Aim::Change { before, after }),
        }
    }

    /// Whether its exchange was made, that of its first half.
    #[inline(always)]
    pub fn exchanged(&self) -> bool
        ensures { result ≡ step_exchanged self.now }
    {
        self.state.exchanged()
    }
}

impl Machine for StepChange {
    type Answer = Result<bool, UpFault>;

    ghost control = { step_control };

    ghost fits = { machines.ChangeFits };

    ghost gives = { machines.ChangeGives };

    #[inline(always)]
    fn me(&self) -> Me {
        self.state.me
    }

    #[inline(always)]
    fn finished(&self) -> bool {
        self.state.is_over()
    }

    #[inline(always)]
    fn ask(&self) -> Ask {
        self.state.ask()
    }

    #[inline(always)]
    fn take(&mut self, seen: u64) -> Turn<Result<bool, UpFault>> {
        match self.state.take(seen) {
            None => Turn::More,
            Some(answer) => Turn::Done(answer),
        }
    }

    #[inline(always)]
    fn act<S: Site>(&mut self, site: &S, words: &mut S::Words) -> Turn<Result<bool, UpFault>> {
        match self.state.act_on(site, words) {
            None => Turn::More,
            Some(answer) => Turn::Done(answer),
        }
    }

    #[inline(always)]
    fn run<S: Site>(
        &mut self,
        site: &S,
        words: &mut S::Words,
        life: &mut Life,
    ) -> Turn<Result<bool, UpFault>> {
        self.state.run_on(site, words, life)
    }

    ghost laws = { machines_proved.change_laws step_keeps };
}

/// What an answer says of a step up: no count comes to 0.
#[inline(always)]
fn up_answer(answer: Result<bool, UpFault>) -> Result<(), UpFault>
    ensures { result ≡ machines.up_answer answer }
{
    match answer {
        Ok(_) => Ok(()),
        Err(fault) => Err(fault),
    }
}

/// What an answer says of a step down: no count that goes down is full.
#[inline(always)]
fn down_answer(answer: Result<bool, UpFault>) -> Result<bool, EraSpent>
    ensures { result ≡ machines.down_answer answer }
{
    match answer {
        Ok(zero) => Ok(zero),
        Err(fault) => Err(fault.spent()),
    }
}

/// What many word steps of a step up tell.
#[inline(always)]
fn up_told(turn: Turn<Result<bool, UpFault>>) -> Turn<Result<(), UpFault>>
    ensures { result ≡ told_turn machines.up_answer turn }
{
    match turn {
        Turn::Done(answer) => Turn::Done(up_answer(answer)),
        Turn::More => Turn::More,
        Turn::Died => Turn::Died,
    }
}

/// What many word steps of a step down tell.
#[inline(always)]
fn down_told(turn: Turn<Result<bool, UpFault>>) -> Turn<Result<bool, EraSpent>>
    ensures { result ≡ told_turn machines.down_answer turn }
{
    match turn {
        Turn::Done(answer) => Turn::Done(down_answer(answer)),
        Turn::More => Turn::More,
        Turn::Died => Turn::Died,
    }
}
