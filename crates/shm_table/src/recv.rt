//! A key of the own table comes to have the value block at the head of a queue from another identity, and then the head is taken.

ghost use Rattle.std.specs.Prelude.{◌≡◌, ◌<◌, false};
ghost use Rattle.shm_graph.specs.Laws.{turn_of};
ghost use Rattle.shm_words.specs.Layout.{GeometryFits};
ghost use Rattle.plans.specs.{CallsControl.{calls_control, calls_of}, CallsFit.{CallsFits, CallsGives}};
ghost use Rattle.plans.specs.Proved.CallsKeep.{calls_laws};
ghost use Rattle.shm_table.specs.{Effects.recv_effect, RecvKey.Control.{receiving_key, recv_parts, recv_steered}};
ghost use Rattle.shm_table.specs.{RecvKey.recv_plan, Proved.{RecvKey.Laws.recv_laws, Enter.Laws.enter_laws}};
ghost use Rattle.shm_table.specs.Proved.{FetchHead.Laws.fetch_head_laws, Locate.Laws.locate_laws};
ghost use Rattle.shm_table.specs.Proved.{OpenTable.Laws.open_laws, PutRoot.Laws.put_root_laws};
ghost use Rattle.shm_table.specs.Proved.{Replace.Laws.replace_laws, TakeHead.Laws.take_head_laws, TableTasks.recv_task};
ghost use Rattle.shm_table.specs.TableTasks.{RecvMay};
ghost use Rattle.shm_table.specs.RecvKey.Control as control;

use crate::answer::PutFault;
use crate::copy::{answer, stuck};
use crate::effect::Deciding;
use crate::fetch_head::{FetchHead, FetchedHead};
use crate::put_root::{PutRoot, settled};
use crate::take_head::TakeHead;
use plans::{Calls, Or, Plan, Task};
use shm_count::EraSpent;
use shm_graph::{Ask, Life, Machine, Me, Site, Turn};
use shm_ref::DropRoot;
use shm_script::Answer;
use shm_words::ADDRESS_LIMIT;
use std::marker::Model;

/// Which call of it comes next.
#[derive(Clone, Copy, Drop)]
pub enum RecvPoint {
    /// The head of the queue is read, and its value block comes to have a root.
    Fetch,
    /// The key comes to have it.
    Put,
    /// The head is taken.
    Take,
    /// The root of the value block is dropped.
    Drop,
}

/// The control of it: the own head is `at`, `block` is the value block there, `number` its number and `root` its root; `decided`
/// says whether the key came to have it, and `refused` is why it hasn't got it.
#[derive(Clone, Copy, Drop)]
pub struct RecvState {
    pub me: Me,
    pub from: u8,
    pub key: u32,
    pub root: u8,
    pub block: u32,
    pub number: u64,
    pub at: u64,
    pub decided: bool,
    pub refused: Option<PutFault>,
    pub point: RecvPoint,
}

/// Its calls.
pub type RecvCall = Or<Or<Calls<FetchHead>, Calls<TakeHead>>, Or<PutRoot, Calls<DropRoot>>>;

/// What its calls answer.
pub type RecvAnswer = Or<
    Or<FetchedHead, Result<(), EraSpent>>,
    Or<Result<bool, PutFault>, Result<bool, EraSpent>>,
>;

/// The calls by which a key comes to have the value block at the head of a queue.
#[derive(Drop)]
pub struct ReceivingKey {
    state: RecvState,
}

impl Model for ReceivingKey {
    ghost use Rattle.shm_table.specs.declared.recv.RecvState.{RecvState as AState};

    ghost Value = { AState };

    ghost view = { λ a. a.state };

    ghost use Rattle.shm_table.specs.RecvKey.Control.{RecvInRange};

    ghost invariant = { λ a. RecvInRange a.state };
}

/// It answers the value block that the key has, and its number; or that the queue is empty, or why the key hasn't got the value block: from
/// the step on by which it has it, no refusal changes the answer.
#[derive(Drop)]
pub struct RecvKey {
    calls: Calls<ReceivingKey>,
}

impl Model for RecvKey {
    ghost use Rattle.shm_table.specs.RecvKey.Control.{RecvCalls};

    ghost Value = { RecvCalls };

    ghost view = { λ a. a.calls };
}

impl RecvKey {
    /// `key` is to have in the table of `me` the value block at the head of the queue from `from`.
    #[inline(always)]
    pub fn new(me: Me, from: u8, key: u32) -> RecvKey
        requires geometry { GeometryFits me.geometry }
        requires who { me.who < me.geometry.clients }
        requires from { from < me.geometry.clients }
        ensures { result ≡ calls_of recv_steered (receiving_key me from key) }
    {
        RecvKey {
            calls: Calls::new(ReceivingKey::new(me, from, key)),
        }
    }

    /// What it will answer, where its deciding step was made; otherwise none.
    #[inline(always)]
    pub fn effect(&self) -> Option<Answer>
        ensures { result ≡ recv_effect self.now }
    {
        let RecvState {
            number,
            block,
            decided,
            refused,
            ..
        } = self.calls.plan().state;
        let decided = match self.calls.call() {
            Or::First(Or::First(_)) => false,
            Or::Second(Or::First(put)) => put.decided(),
            Or::First(Or::Second(_)) | Or::Second(Or::Second(_)) => settled(decided, refused),
        };
        if decided {
            Some(Answer::Value { number, block })
        } else {
            None
        }
    }
}

impl Machine for RecvKey {
    type Answer = Answer;

    ghost control = { calls_control recv_parts recv_steered };

    ghost fits = { CallsFits recv_parts recv_plan };

    ghost gives = { CallsGives recv_parts recv_plan };

    #[inline(always)]
    fn me(&self) -> Me {
        self.calls.me()
    }

    #[inline(always)]
    fn finished(&self) -> bool {
        self.calls.finished()
    }

    #[inline(always)]
    fn ask(&self) -> Ask {
        self.calls.ask()
    }

    #[inline(always)]
    fn take(&mut self, seen: u64) -> Turn<Answer> {
        take_as(&mut self.calls, seen)
    }

    #[inline(always)]
    fn act<S: Site>(&mut self, site: &S, words: &mut S::Words) -> Turn<Answer> {
        self.calls.act(site, words)
    }

    #[inline(always)]
    fn run<S: Site>(&mut self, site: &S, words: &mut S::Words, life: &mut Life) -> Turn<Answer> {
        self.calls.run(site, words, life)
    }

    ghost laws = { calls_laws recv_parts recv_plan (recv_laws fetch_head_laws take_head_laws (put_root_laws open_laws locate_laws replace_laws enter_laws)) };
}

/// Has a machine take the word that was found: what it is seen as is where that one goes.
#[inline(always)]
fn take_as<M: Machine>(machine: &mut M, seen: u64) -> Turn<M::Answer>
    requires { M.control.finished machine.old ≡ false }
    ensures machine { (m : M) → machine.old ≡ m → machine.new ≡ M.control.after m seen }
    ensures turn { result ≡ turn_of (M.control.turns machine.old seen) }
{
    machine.take(seen)
}

impl ReceivingKey {
    /// `key` is to have in the table of `me` the value block at the head of the queue from `from`.
    #[inline(always)]
    pub fn new(me: Me, from: u8, key: u32) -> ReceivingKey
        requires geometry { GeometryFits me.geometry }
        requires who { me.who < me.geometry.clients }
        requires from { from < me.geometry.clients }
        ensures { result ≡ receiving_key me from key }
    {
        ReceivingKey {
            state: RecvState {
                me,
                from,
                key,
                root: 0,
                block: 0,
                number: 0,
                at: 0,
                decided: false,
                refused: None,
                point: RecvPoint::Fetch,
            },
        }
    }
}

impl RecvState {
    /// Where it goes by what was fetched.
    #[inline(always)]
    fn fetched(&mut self, fetched: FetchedHead) -> Option<Answer>
        ensures state { self.new ≡ control.fetched_after self.old fetched }
        ensures answer { result ≡ control.fetched_turns fetched }
    {
        match fetched {
            FetchedHead::Empty { at } => Some(Answer::Empty { at }),
            FetchedHead::Refused(fault) => Some(fault.answer()),
            FetchedHead::Rooted {
                root,
                block,
                number,
                at,
            } => {
                self.root = root % 16;
                self.block = block % ADDRESS_LIMIT;
                self.number = number;
                self.at = at;
                self.point = RecvPoint::Put;
                None
            }
        }
    }

    /// Where it goes once the key has the value block, or is refused it: the head is taken only then.
    #[inline(always)]
    fn put(&mut self, done: Result<bool, PutFault>)
        ensures { self.new ≡ control.put_after self.old done }
    {
        match done {
            Ok(decided) => {
                self.decided = decided;
                self.refused = None;
                self.point = RecvPoint::Take;
            }
            Err(fault) => {
                self.decided = false;
                self.refused = Some(fault);
                self.point = RecvPoint::Drop;
            }
        }
    }
}

impl Plan for ReceivingKey {
    type Call = RecvCall;

    type Answer = Answer;

    ghost plan = { recv_plan };

    #[inline(always)]
    fn me(&self) -> Me {
        self.state.me
    }

    #[inline(always)]
    fn call(&self) -> RecvCall {
        let RecvState {
            me,
            from,
            key,
            root,
            block,
            at,
            point,
            ..
        } = self.state;
        match point {
            RecvPoint::Fetch => Or::First(Or::First(Calls::new(FetchHead::new(me, from)))),
            RecvPoint::Take => Or::First(Or::Second(Calls::new(TakeHead::new(
                me, from, at, block,
            )))),
            RecvPoint::Put => Or::Second(Or::First(PutRoot::new(me, key, block))),
            RecvPoint::Drop => Or::Second(Or::Second(Calls::new(DropRoot::new(me, root)))),
        }
    }

    #[inline(always)]
    fn next(&mut self, given: RecvAnswer) -> Option<Answer> {
        let RecvState {
            number,
            block,
            refused,
            ..
        } = self.state;
        match given {
            Or::First(Or::First(fetched)) => self.state.fetched(fetched),
            Or::First(Or::Second(_)) => {
                self.state.point = RecvPoint::Drop;
                None
            }
            Or::Second(Or::First(done)) => {
                self.state.put(done);
                None
            }
            Or::Second(Or::Second(Ok(_))) => Some(answer(number, block, refused)),
            Or::Second(Or::Second(Err(spent))) => Some(stuck(number, block, refused, spent)),
        }
    }

    ghost laws = { recv_laws fetch_head_laws take_head_laws (put_root_laws open_laws locate_laws replace_laws enter_laws) };
}

impl Task for ReceivingKey {
    ghost may = { RecvMay };

    ghost tasks = { recv_task };
}
