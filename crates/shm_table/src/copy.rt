//! A key of the own table comes to have what a key has in the table of an author.

ghost use Rattle.std.specs.Prelude.{◌≡◌, ◌<◌};
ghost use Rattle.shm_words.specs.Layout.{GeometryFits};
ghost use Rattle.plans.specs.{CallsControl.{calls_control, calls_of}, CallsFit.{CallsFits, CallsGives}};
ghost use Rattle.plans.specs.Proved.CallsKeep.{calls_laws};
ghost use Rattle.shm_table.specs.{Effects.{copy_effect, settled}, CopyKey.Control.{copy_parts, copy_steered, copying}};
ghost use Rattle.shm_table.specs.{CopyKey.copy_plan, Proved.{CopyKey.Laws.copy_laws, Enter.Laws.enter_laws}};
ghost use Rattle.shm_table.specs.Proved.{Fetch.Laws.fetch_laws, Locate.Laws.locate_laws, OpenTable.Laws.open_laws};
ghost use Rattle.shm_table.specs.Proved.{PutRoot.Laws.put_root_laws, Replace.Laws.replace_laws, TableTasks.copy_task};
ghost use Rattle.shm_table.specs.TableTasks.{CopyMay};
ghost use Rattle.shm_table.specs.CopyKey.Control as control;

use crate::answer::PutFault;
use crate::effect::{Settling, decided_in};
use crate::fetch::{Fetch, Fetched};
use crate::put_root::{PutRoot, settled};
use plans::{Calls, Or, Plan, Task};
use shm_count::EraSpent;
use shm_graph::{Ask, Life, Machine, Me, Site, Turn};
use shm_ref::DropRoot;
use shm_script::Answer;
use shm_words::ADDRESS_LIMIT;
use std::marker::Model;

/// Which call of it comes next.
#[derive(Clone, Copy, Drop)]
pub enum CopyPoint {
    /// What the other key has is read, and its value block comes to have a root.
    Fetch,
    /// The key comes to have it.
    Put,
    /// Its root is dropped.
    Drop,
}

/// The control of it: `block` is the value block, `number` its number and `root` its root; `decided`
/// says whether the key came to have it, and `refused` is why it hasn't got it.
#[derive(Clone, Copy, Drop)]
pub struct CopyState {
    pub me: Me,
    pub key: u32,
    pub author: u8,
    pub other: u32,
    pub root: u8,
    pub block: u32,
    pub number: u64,
    pub decided: bool,
    pub refused: Option<PutFault>,
    pub point: CopyPoint,
}

/// Its calls.
pub type CopyCall = Or<Calls<Fetch>, Or<PutRoot, Calls<DropRoot>>>;

/// What its calls answer.
pub type CopyAnswer = Or<Fetched, Or<Result<bool, PutFault>, Result<bool, EraSpent>>>;

/// The calls by which a key comes to have what another one has.
#[derive(Drop)]
pub struct Copying {
    state: CopyState,
}

impl Model for Copying {
    ghost use Rattle.shm_table.specs.declared.copy.CopyState.{CopyState as AState};

    ghost Value = { AState };

    ghost view = { λ a. a.state };

    ghost use Rattle.shm_table.specs.CopyKey.Control.{CopyInRange};

    ghost invariant = { λ a. CopyInRange a.state };
}

/// It answers the value block that both keys have, and its number; or that the other key is missing, or why the key hasn't got the value
/// block: from the step on by which it has it, no refusal changes the answer.
#[derive(Drop)]
pub struct CopyKey {
    calls: Calls<Copying>,
}

impl Model for CopyKey {
    ghost use Rattle.shm_table.specs.CopyKey.Control.{CopyCalls};

    ghost Value = { CopyCalls };

    ghost view = { λ a. a.calls };
}

impl CopyKey {
    /// `key` is to have in the table of `me` what `other` has in that of `author`.
    #[inline(always)]
    pub fn new(me: Me, key: u32, author: u8, other: u32) -> CopyKey
        requires geometry { GeometryFits me.geometry }
        requires who { me.who < me.geometry.clients }
        requires author { author < me.geometry.clients }
        ensures { result ≡ calls_of copy_steered (copying me key author other) }
    {
        CopyKey {
            calls: Calls::new(Copying::new(me, key, author, other)),
        }
    }

    /// What it will answer, where its deciding step was made; otherwise none.
    #[inline(always)]
    pub fn effect(&self) -> Option<Answer>
        ensures { result ≡ copy_effect self.now }
    {
        let CopyState { number, block, .. } = self.calls.plan().state;
        if decided_in(&self.calls) {
            Some(Answer::Value { number, block })
        } else {
            None
        }
    }
}

impl Machine for CopyKey {
    type Answer = Answer;

    ghost control = { calls_control copy_parts copy_steered };

    ghost fits = { CallsFits copy_parts copy_plan };

    ghost gives = { CallsGives copy_parts copy_plan };

    #[inline(always)]
    fn me(&self) -> Me {
        self.calls.me()
    }

    #[inline(always)]
    fn finished(&self) -> bool {
        self.calls.finished()
    }

    #[inline(always)]
    fn ask(&self) -> Ask {
        self.calls.ask()
    }

    #[inline(always)]
    fn take(&mut self, seen: u64) -> Turn<Answer> {
        self.calls.take(seen)
    }

    #[inline(always)]
    fn act<S: Site>(&mut self, site: &S, words: &mut S::Words) -> Turn<Answer> {
        self.calls.act(site, words)
    }

    #[inline(always)]
    fn run<S: Site>(&mut self, site: &S, words: &mut S::Words, life: &mut Life) -> Turn<Answer> {
        self.calls.run(site, words, life)
    }

    ghost laws = { calls_laws copy_parts copy_plan (copy_laws fetch_laws (put_root_laws open_laws locate_laws replace_laws enter_laws)) };
}

/// What it answers.
#[inline(always)]
pub fn answer(number: u64, block: u32, refused: Option<PutFault>) -> Answer
    ensures { result ≡ control.copy_answer number block refused }
{
    match refused {
        None => Answer::Value { number, block },
        Some(fault) => fault.answer(),
    }
}

/// What it answers where the root of the value block couldn't be dropped.
#[inline(always)]
pub fn stuck(number: u64, block: u32, refused: Option<PutFault>, spent: EraSpent) -> Answer
    ensures { result ≡ control.stuck_answer number block refused spent }
{
    match refused {
        None => Answer::Value { number, block },
        Some(_) => PutFault::spent(spent).answer(),
    }
}

impl Copying {
    /// `key` is to have in the table of `me` what `other` has in that of `author`.
    #[inline(always)]
    pub fn new(me: Me, key: u32, author: u8, other: u32) -> Copying
        requires geometry { GeometryFits me.geometry }
        requires who { me.who < me.geometry.clients }
        requires author { author < me.geometry.clients }
        ensures { result ≡ copying me key author other }
    {
        Copying {
            state: CopyState {
                me,
                key,
                author,
                other,
                root: 0,
                block: 0,
                number: 0,
                decided: false,
                refused: None,
                point: CopyPoint::Fetch,
            },
        }
    }
}

impl CopyState {
    /// Where it goes by what was fetched.
    #[inline(always)]
    fn fetched(&mut self, fetched: Fetched) -> Option<Answer>
        ensures state { self.new ≡ control.fetched_after self.old fetched }
        ensures answer { result ≡ control.fetched_turns fetched }
    {
        match fetched {
            Fetched::Missing => Some(Answer::Missing),
            Fetched::Refused(fault) => Some(fault.answer()),
            Fetched::Rooted {
                root,
                block,
                number,
            } => {
                self.root = root % 16;
                self.block = block % ADDRESS_LIMIT;
                self.number = number;
                self.point = CopyPoint::Put;
                None
            }
        }
    }
}

impl Plan for Copying {
    type Call = CopyCall;

    type Answer = Answer;

    ghost plan = { copy_plan };

    #[inline(always)]
    fn me(&self) -> Me {
        self.state.me
    }

    #[inline(always)]
    fn call(&self) -> CopyCall {
        let CopyState {
            me,
            key,
            author,
            other,
            root,
            block,
            point,
            ..
        } = self.state;
        match point {
            CopyPoint::Fetch => Or::First(Calls::new(Fetch::new(me, author, other))),
            CopyPoint::Put => Or::Second(Or::First(PutRoot::new(me, key, block))),
            CopyPoint::Drop => Or::Second(Or::Second(Calls::new(DropRoot::new(me, root)))),
        }
    }

    #[inline(always)]
    fn next(&mut self, given: CopyAnswer) -> Option<Answer> {
        let CopyState {
            number,
            block,
            refused,
            ..
        } = self.state;
        match given {
            Or::First(fetched) => self.state.fetched(fetched),
            Or::Second(Or::First(done)) => {
                self.state.decided = matches!(done, Ok(true));
                self.state.refused = done.err();
                self.state.point = CopyPoint::Drop;
                None
            }
            Or::Second(Or::Second(Ok(_))) => Some(answer(number, block, refused)),
            Or::Second(Or::Second(Err(spent))) => Some(stuck(number, block, refused, spent)),
        }
    }

    ghost laws = { copy_laws fetch_laws (put_root_laws open_laws locate_laws replace_laws enter_laws) };
}

impl Settling for Copying {
    ghost settled = { λ m. settled m.decided m.refused };

    #[inline(always)]
    fn settled(&self) -> bool {
        settled(self.state.decided, self.state.refused)
    }
}

impl Task for Copying {
    ghost may = { CopyMay };

    ghost tasks = { copy_task };
}
