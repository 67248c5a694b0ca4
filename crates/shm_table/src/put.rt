//! A key of the own table comes to have a number, in a value block of its own.

ghost use Rattle.std.specs.Prelude.{◌≡◌, ◌<◌};
ghost use Rattle.shm_words.specs.Layout.{GeometryFits};
ghost use Rattle.plans.specs.{CallsControl.{calls_control, calls_of}, CallsFit.{CallsFits, CallsGives}};
ghost use Rattle.plans.specs.Proved.CallsKeep.{calls_laws};
ghost use Rattle.shm_table.specs.{Effects.{put_effect, settled}, Put.Control.{put_parts, put_steered, putting}};
ghost use Rattle.shm_table.specs.{Put.put_plan, Proved.{Put.Laws.put_laws, Enter.Laws.enter_laws}};
ghost use Rattle.shm_table.specs.Proved.{Locate.Laws.locate_laws, OpenTable.Laws.open_laws, PutRoot.Laws.put_root_laws};
ghost use Rattle.shm_table.specs.{Proved.{Replace.Laws.replace_laws, TableTasks.put_task}, TableTasks.PutMay};
ghost use Rattle.shm_table.specs.Put.Control as control;

use crate::answer::PutFault;
use crate::effect::{Settling, decided_in};
use crate::put_root::{PutRoot, settled};
use plans::{Calls, Or, Plan, Task};
use shm_alloc::{Alloc, AllocFault, Near, Request};
use shm_count::{EraSpent, Made};
use shm_graph::{Ask, Life, Machine, Me, Site, Turn};
use shm_ref::DropRoot;
use shm_script::Answer;
use shm_words::ADDRESS_LIMIT;
use std::marker::Model;

/// Which call of it comes next.
#[derive(Clone, Copy, Drop)]
pub enum PutPoint {
    /// A value block is made.
    Make,
    /// The key comes to have it.
    Put,
    /// Its root is dropped.
    Drop,
}

/// The control of it: `block` is the value block and `root` its root; `decided` says whether the
/// key came to have it, and `refused` is why it hasn't got it.
#[derive(Clone, Copy, Drop)]
pub struct PutState {
    pub me: Me,
    pub key: u32,
    pub number: u64,
    pub root: u8,
    pub block: u32,
    pub decided: bool,
    pub refused: Option<PutFault>,
    pub point: PutPoint,
}

/// Its calls.
pub type PutCall = Or<Alloc, Or<PutRoot, Calls<DropRoot>>>;

/// What its calls answer.
pub type PutAnswer = Or<
    Result<Made, AllocFault>,
    Or<Result<bool, PutFault>, Result<bool, EraSpent>>,
>;

/// The calls by which a key comes to have a number.
#[derive(Drop)]
pub struct Putting {
    state: PutState,
}

impl Model for Putting {
    ghost use Rattle.shm_table.specs.declared.put.PutState.{PutState as AState};

    ghost Value = { AState };

    ghost view = { λ a. a.state };

    ghost use Rattle.shm_table.specs.Put.Control.{PutInRange};

    ghost invariant = { λ a. PutInRange a.state };
}

/// It answers the value block that the key has, or why it hasn't got one: from the step on by which it has it, no refusal changes the answer.
#[derive(Drop)]
pub struct Put {
    calls: Calls<Putting>,
}

impl Model for Put {
    ghost use Rattle.shm_table.specs.Put.Control.{PutCalls};

    ghost Value = { PutCalls };

    ghost view = { λ a. a.calls };
}

impl Put {
    /// `key` is to have `number` in the table of `me`.
    #[inline(always)]
    pub fn new(me: Me, key: u32, number: u64) -> Put
        requires geometry { GeometryFits me.geometry }
        requires who { me.who < me.geometry.clients }
        ensures { result ≡ calls_of put_steered (putting me key number) }
    {
        Put {
            calls: Calls::new(Putting::new(me, key, number)),
        }
    }

    /// What it will answer, where its deciding step was made; otherwise none.
    #[inline(always)]
    pub fn effect(&self) -> Option<Answer>
        ensures { result ≡ put_effect self.now }
    {
        let PutState { block, .. } = self.calls.plan().state;
        if decided_in(&self.calls) {
            Some(Answer::Stored { block })
        } else {
            None
        }
    }
}

impl Machine for Put {
    type Answer = Answer;

    ghost control = { calls_control put_parts put_steered };

    ghost fits = { CallsFits put_parts put_plan };

    ghost gives = { CallsGives put_parts put_plan };

    #[inline(always)]
    fn me(&self) -> Me {
        self.calls.me()
    }

    #[inline(always)]
    fn finished(&self) -> bool {
        self.calls.finished()
    }

    #[inline(always)]
    fn ask(&self) -> Ask {
        self.calls.ask()
    }

    #[inline(always)]
    fn take(&mut self, seen: u64) -> Turn<Answer> {
        self.calls.take(seen)
    }

    #[inline(always)]
    fn act<S: Site>(&mut self, site: &S, words: &mut S::Words) -> Turn<Answer> {
        self.calls.act(site, words)
    }

    #[inline(always)]
    fn run<S: Site>(&mut self, site: &S, words: &mut S::Words, life: &mut Life) -> Turn<Answer> {
        self.calls.run(site, words, life)
    }

    ghost laws = { calls_laws put_parts put_plan (put_laws (put_root_laws open_laws locate_laws replace_laws enter_laws)) };
}

/// A block with the words of a value block, of which the number is the plain one.
#[inline(always)]
fn value(number: u64) -> Request
    ensures { result ≡ control.value_request number }
{
    Request {
        refs: 0,
        count: 1,
        plain: [number, 0, 0, 0, 0, 0, 0, 0],
        near: Near {
            segment: 0,
            page: 0,
            index: 0,
        },
    }
}

/// What it answers.
#[inline(always)]
fn answer(block: u32, refused: Option<PutFault>) -> Answer
    ensures { result ≡ control.put_answer block refused }
{
    match refused {
        None => Answer::Stored { block },
        Some(fault) => fault.answer(),
    }
}

/// What it answers where the root of the value block couldn't be dropped.
#[inline(always)]
fn stuck(block: u32, refused: Option<PutFault>, spent: EraSpent) -> Answer
    ensures { result ≡ control.stuck_answer block refused spent }
{
    match refused {
        None => Answer::Stored { block },
        Some(_) => PutFault::spent(spent).answer(),
    }
}

impl Putting {
    /// `key` is to have `number` in the table of `me`.
    #[inline(always)]
    pub fn new(me: Me, key: u32, number: u64) -> Putting
        requires geometry { GeometryFits me.geometry }
        requires who { me.who < me.geometry.clients }
        ensures { result ≡ putting me key number }
    {
        Putting {
            state: PutState {
                me,
                key,
                number,
                root: 0,
                block: 0,
                decided: false,
                refused: None,
                point: PutPoint::Make,
            },
        }
    }
}

impl Plan for Putting {
    type Call = PutCall;

    type Answer = Answer;

    ghost plan = { put_plan };

    #[inline(always)]
    fn me(&self) -> Me {
        self.state.me
    }

    #[inline(always)]
    fn call(&self) -> PutCall {
        let PutState {
            me,
            key,
            number,
            root,
            block,
            point,
            ..
        } = self.state;
        match point {
            PutPoint::Make => Or::First(Alloc::asked(me, value(number))),
            PutPoint::Put => Or::Second(Or::First(PutRoot::new(me, key, block))),
            PutPoint::Drop => Or::Second(Or::Second(Calls::new(DropRoot::new(me, root)))),
        }
    }

    #[inline(always)]
    fn next(&mut self, given: PutAnswer) -> Option<Answer> {
        let PutState { block, refused, .. } = self.state;
        match given {
            Or::First(Ok(made)) => {
                self.state.root = made.root % 16;
                self.state.block = made.block % ADDRESS_LIMIT;
                self.state.point = PutPoint::Put;
                None
            }
            Or::First(Err(fault)) => Some(PutFault::made(fault).answer()),
            Or::Second(Or::First(done)) => {
                self.state.decided = matches!(done, Ok(true));
                self.state.refused = done.err();
                self.state.point = PutPoint::Drop;
                None
            }
            Or::Second(Or::Second(Ok(_))) => Some(answer(block, refused)),
            Or::Second(Or::Second(Err(spent))) => Some(stuck(block, refused, spent)),
        }
    }

    ghost laws = { put_laws (put_root_laws open_laws locate_laws replace_laws enter_laws) };
}

impl Settling for Putting {
    ghost settled = { λ m. settled m.decided m.refused };

    #[inline(always)]
    fn settled(&self) -> bool {
        settled(self.state.decided, self.state.refused)
    }
}

impl Task for Putting {
    ghost may = { PutMay };

    ghost tasks = { put_task };
}
