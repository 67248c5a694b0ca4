//! The value block of a key of the own table goes into the queue to another identity.

ghost use Rattle.std.specs.Prelude.{◌≡◌, ◌<◌, ◌+◌, ◌^◌};
ghost use Rattle.shm_words.specs.Layout.{GeometryFits, address_limit};
ghost use Rattle.plans.specs.{CallsControl.{calls_control, calls_of}, CallsFit.{CallsFits, CallsGives}};
ghost use Rattle.plans.specs.Proved.CallsKeep.{calls_laws};
ghost use Rattle.shm_table.specs.Effects.{is_sent, send_key_effect};
ghost use Rattle.shm_table.specs.SendKey.{Control.{send_key_parts, sending_key, send_key_steered}, send_key_plan};
ghost use Rattle.shm_table.specs.{Proved.{SendKey.Laws.send_key_laws, TableTasks.send_key_task}, TableTasks.SendKeyMay};
ghost use Rattle.shm_table.specs.SendKey.Control as control;

use crate::find::Found;
use crate::locate::Locate;
use crate::unlatch::Unlatch;
use plans::{Calls, Or, Plan, Task, Word};
use shm_graph::{Ask, Life, Machine, Me, Site, Turn};
use shm_queue::{Send, SendFault};
use shm_script::Answer;
use shm_words::ADDRESS_LIMIT;
use std::marker::Model;

/// Which call of it comes next.
#[derive(Clone, Copy, Drop)]
pub enum SendKeyPoint {
    /// The own latch is taken and the entry looked for.
    Search,
    /// The value word of the entry is loaded.
    Value,
    /// The value block is sent.
    Send,
    /// The latch is given back.
    Give,
}

/// The control of it: the entry that was found and its value block; `outcome` is what it answers once the latch is given back.
#[derive(Clone, Copy, Drop)]
pub struct SendKeyState {
    pub me: Me,
    pub to: u8,
    pub key: u32,
    pub entry: u32,
    pub block: u32,
    pub outcome: Answer,
    pub point: SendKeyPoint,
}

/// Its calls.
pub type SendKeyCall = Or<Calls<Locate>, Or<Word, Or<Calls<Send>, Calls<Unlatch>>>>;

/// What its calls answer.
pub type SendKeyAnswer = Or<Found, Or<u64, Or<Result<u64, SendFault>, ()>>>;

/// The calls by which the value block of an own key is sent.
#[derive(Drop)]
pub struct SendingKey {
    state: SendKeyState,
}

impl Model for SendingKey {
    ghost use Rattle.shm_table.specs.declared.send_key.SendKeyState.{SendKeyState as AState};

    ghost Value = { AState };

    ghost view = { λ a. a.state };

    ghost use Rattle.shm_table.specs.SendKey.Control.{SendKeyInRange};

    ghost invariant = { λ a. SendKeyInRange a.state };
}

/// It answers `Ok` where the value block was sent; or that no entry has the key, or why the block wasn't sent. The latch is given back then.
#[derive(Drop)]
pub struct SendKey {
    calls: Calls<SendingKey>,
}

impl Model for SendKey {
    ghost use Rattle.shm_table.specs.SendKey.Control.{SendKeyCalls};

    ghost Value = { SendKeyCalls };

    ghost view = { λ a. a.calls };
}

impl SendKey {
    /// What the key `key` of the own table has is to be sent by `me` to the identity `to`.
    #[inline(always)]
    pub fn new(me: Me, to: u8, key: u32) -> SendKey
        requires geometry { GeometryFits me.geometry }
        requires who { me.who < me.geometry.clients }
        requires to { to < me.geometry.clients }
        ensures { result ≡ calls_of send_key_steered (sending_key me to key) }
    {
        SendKey {
            calls: Calls::new(SendingKey::new(me, to, key)),
        }
    }

    /// What it will answer, where its deciding step was made, the last one of the send; otherwise none.
    #[inline(always)]
    pub fn effect(&self) -> Option<Answer>
        ensures { result ≡ send_key_effect self.now }
    {
        let SendKeyState { outcome, .. } = self.calls.plan().state;
        let decided = match self.calls.call() {
            Or::First(_) => false,
            Or::Second(Or::First(_)) => false,
            Or::Second(Or::Second(Or::First(_))) => false,
            Or::Second(Or::Second(Or::Second(_))) => is_sent(outcome),
        };
        if decided { Some(Answer::Ok) } else { None }
    }
}

impl Machine for SendKey {
    type Answer = Answer;

    ghost control = { calls_control send_key_parts send_key_steered };

    ghost fits = { CallsFits send_key_parts send_key_plan };

    ghost gives = { CallsGives send_key_parts send_key_plan };

    #[inline(always)]
    fn me(&self) -> Me {
        self.calls.me()
    }

    #[inline(always)]
    fn finished(&self) -> bool {
        self.calls.finished()
    }

    #[inline(always)]
    fn ask(&self) -> Ask {
        self.calls.ask()
    }

    #[inline(always)]
    fn take(&mut self, seen: u64) -> Turn<Answer> {
        self.calls.take(seen)
    }

    #[inline(always)]
    fn act<S: Site>(&mut self, site: &S, words: &mut S::Words) -> Turn<Answer> {
        self.calls.act(site, words)
    }

    #[inline(always)]
    fn run<S: Site>(&mut self, site: &S, words: &mut S::Words, life: &mut Life) -> Turn<Answer> {
        self.calls.run(site, words, life)
    }

    ghost laws = { calls_laws send_key_parts send_key_plan send_key_laws };
}

/// Whether the value block was sent.
#[inline(always)]
fn is_sent(answer: Answer) -> bool
    ensures { result ≡ is_sent answer }
{
    match answer {
        Answer::Ok => true,
        _ => false,
    }
}

/// The address of the value word of an entry.
#[inline(always)]
fn value_word(entry: u32) -> u32
    requires entry { entry < address_limit }
    ensures { result ≡ entry + 2 + 1 }
{
    entry + 2 + 1
}

/// What it answers, by whether the block was sent.
#[inline(always)]
fn answer(sent: Result<u64, SendFault>) -> Answer
    ensures { result ≡ control.sent_answer sent }
{
    match sent {
        Ok(_) => Answer::Ok,
        Err(SendFault::QueueFull { head, tail }) => Answer::QueueFull { head, tail },
        Err(SendFault::EraSpent { era }) => Answer::EraSpent { era },
        Err(SendFault::CountFull { block, count }) => Answer::CountFull { block, count },
    }
}

impl SendingKey {
    /// What the key `key` of the own table has is to be sent by `me` to the identity `to`.
    #[inline(always)]
    pub fn new(me: Me, to: u8, key: u32) -> SendingKey
        requires geometry { GeometryFits me.geometry }
        requires who { me.who < me.geometry.clients }
        requires to { to < me.geometry.clients }
        ensures { result ≡ sending_key me to key }
    {
        SendingKey {
            state: SendKeyState {
                me,
                to,
                key,
                entry: 0,
                block: 0,
                outcome: Answer::Missing,
                point: SendKeyPoint::Search,
            },
        }
    }
}

impl Plan for SendingKey {
    type Call = SendKeyCall;

    type Answer = Answer;

    ghost plan = { send_key_plan };

    #[inline(always)]
    fn me(&self) -> Me {
        self.state.me
    }

    #[inline(always)]
    fn call(&self) -> SendKeyCall {
        let SendKeyState {
            me,
            to,
            key,
            entry,
            block,
            point,
            ..
        } = self.state;
        match point {
            SendKeyPoint::Search => Or::First(Calls::new(Locate::new(me, me.who, key))),
            SendKeyPoint::Value => Or::Second(Or::First(Word::load(me, value_word(entry)))),
            SendKeyPoint::Send => {
                let send = Calls::new(Send::new(me, to, block));
                Or::Second(Or::Second(Or::First(send)))
            }
            SendKeyPoint::Give => {
                let give = Calls::new(Unlatch::new(me, me.who));
                Or::Second(Or::Second(Or::Second(give)))
            }
        }
    }

    #[inline(always)]
    fn next(&mut self, answered: SendKeyAnswer) -> Option<Answer> {
        match answered {
            Or::First(Found::At { entry, .. }) => {
                self.state.entry = entry % ADDRESS_LIMIT;
                self.state.point = SendKeyPoint::Value;
                None
            }
            Or::First(Found::Absent { .. }) => {
                self.state.outcome = Answer::Missing;
                self.state.point = SendKeyPoint::Give;
                None
            }
            Or::Second(Or::First(word)) => {
                self.state.block = (word % u64::from(ADDRESS_LIMIT)) as u32;
                self.state.point = SendKeyPoint::Send;
                None
            }
            Or::Second(Or::Second(Or::First(sent))) => {
                self.state.outcome = answer(sent);
                self.state.point = SendKeyPoint::Give;
                None
            }
            Or::Second(Or::Second(Or::Second(()))) => Some(self.state.outcome),
        }
    }

    ghost laws = { send_key_laws };
}

impl Task for SendingKey {
    ghost may = { SendKeyMay };

    ghost tasks = { send_key_task };
}
