//! What a key has in the table of an author.

ghost use Rattle.std.specs.Prelude.{◌≡◌, ◌<◌, ◌+◌, ◌^◌};
ghost use Rattle.shm_words.specs.Layout.{GeometryFits, address_limit};
ghost use Rattle.plans.specs.{CallsControl.{calls_control, calls_of}, CallsFit.{CallsFits, CallsGives}};
ghost use Rattle.plans.specs.Proved.CallsKeep.{calls_laws};
ghost use Rattle.shm_table.specs.{Effects.get_effect, Get.{Control.{get_parts, get_steered}, get_plan}};
ghost use Rattle.shm_table.specs.{Proved.{Get.Laws.get_laws, TableTasks.get_task}, TableTasks.GetMay};
ghost use Rattle.shm_table.specs.Get.Control as control;

use crate::find::Found;
use crate::locate::Locate;
use crate::unlatch::Unlatch;
use plans::{Calls, Or, Plan, Task, Word};
use shm_graph::{Ask, Life, Machine, Me, Site, Turn};
use shm_script::Answer;
use shm_words::ADDRESS_LIMIT;
use std::marker::Model;

/// Which call of it comes next.
#[derive(Clone, Copy, Drop)]
pub enum GetPoint {
    /// The latch is taken and the entry looked for.
    Search,
    /// The value word of the entry is loaded.
    Value,
    /// The number of its value block is loaded.
    Number,
    /// No entry has the key: the latch is given back.
    Missing,
    /// The number is known: the latch is given back.
    Known,
}

/// The control of it: the entry that was found, its value block and that block's number.
#[derive(Clone, Copy, Drop)]
pub struct GetState {
    pub me: Me,
    pub author: u8,
    pub key: u32,
    pub entry: u32,
    pub block: u32,
    pub number: u64,
    pub point: GetPoint,
}

/// The calls by which an identity reads what a key has in the table of an author.
#[derive(Drop)]
pub struct Getting {
    state: GetState,
}

impl Model for Getting {
    ghost use Rattle.shm_table.specs.declared.get.GetState.{GetState as AState};

    ghost Value = { AState };

    ghost view = { λ a. a.state };

    ghost use Rattle.shm_table.specs.Get.Control.{GetInRange};

    ghost invariant = { λ a. GetInRange a.state };
}

/// It answers what the key has, a number and the value block that holds it, or that no entry has the key. The latch is given back then.
#[derive(Drop)]
pub struct Get {
    calls: Calls<Getting>,
}

impl Model for Get {
    ghost use Rattle.shm_table.specs.Get.Control.{GetCalls};

    ghost Value = { GetCalls };

    ghost view = { λ a. a.calls };
}

impl Get {
    /// What the key `key` has in the table of `author` is to be read.
    #[inline(always)]
    pub fn new(me: Me, author: u8, key: u32) -> Get
        requires geometry { GeometryFits me.geometry }
        requires who { me.who < me.geometry.clients }
        requires author { author < me.geometry.clients }
        ensures { result ≡ calls_of get_steered (control.getting me author key) }
    {
        Get {
            calls: Calls::new(Getting::new(me, author, key)),
        }
    }

    /// What it will answer, where its deciding step was made; otherwise none.
    #[inline(always)]
    pub fn effect(&self) -> Option<Answer>
        ensures { result ≡ get_effect self.now }
    {
        None
    }
}

impl Machine for Get {
    type Answer = Answer;

    ghost control = { calls_control get_parts get_steered };

    ghost fits = { CallsFits get_parts get_plan };

    ghost gives = { CallsGives get_parts get_plan };

    #[inline(always)]
    fn me(&self) -> Me {
        self.calls.me()
    }

    #[inline(always)]
    fn finished(&self) -> bool {
        self.calls.finished()
    }

    #[inline(always)]
    fn ask(&self) -> Ask {
        self.calls.ask()
    }

    #[inline(always)]
    fn take(&mut self, seen: u64) -> Turn<Answer> {
        self.calls.take(seen)
    }

    #[inline(always)]
    fn act<S: Site>(&mut self, site: &S, words: &mut S::Words) -> Turn<Answer> {
        self.calls.act(site, words)
    }

    #[inline(always)]
    fn run<S: Site>(&mut self, site: &S, words: &mut S::Words, life: &mut Life) -> Turn<Answer> {
        self.calls.run(site, words, life)
    }

    ghost laws = { calls_laws get_parts get_plan get_laws };
}

/// The address of the first word of a block after its header and its tag, or of one more.
#[inline(always)]
fn word_of(block: u32, word: u32) -> u32
    requires block { block < address_limit }
    requires word { word < 2 }
    ensures { result ≡ block + 2 + word }
{
    block + 2 + word
}

impl Getting {
    /// What the key `key` has in the table of `author` is to be read.
    #[inline(always)]
    pub fn new(me: Me, author: u8, key: u32) -> Getting
        requires geometry { GeometryFits me.geometry }
        requires who { me.who < me.geometry.clients }
        requires author { author < me.geometry.clients }
        ensures { result ≡ control.getting me author key }
    {
        Getting {
            state: GetState {
                me,
                author,
                key,
                entry: 0,
                block: 0,
                number: 0,
                point: GetPoint::Search,
            },
        }
    }
}

impl GetState {
    /// Where it goes by the word that was loaded.
    #[inline(always)]
    fn read(&mut self, word: u64)
        ensures { self.new ≡ control.read_after self.old self.old.point word }
    {
        match self.point {
            GetPoint::Value => {
                self.block = (word % u64::from(ADDRESS_LIMIT)) as u32;
                self.point = GetPoint::Number;
            }
            _ => {
                self.number = word;
                self.point = GetPoint::Known;
            }
        }
    }

    /// What it answers once the latch is given back.
    #[inline(always)]
    fn answer(&self) -> Answer
        ensures { result ≡ control.get_answer self.now self.now.point }
    {
        let GetState { number, block, .. } = *self;
        match self.point {
            GetPoint::Known => Answer::Value { number, block },
            _ => Answer::Missing,
        }
    }
}

impl Plan for Getting {
    type Call = Or<Calls<Locate>, Or<Word, Calls<Unlatch>>>;

    type Answer = Answer;

    ghost plan = { get_plan };

    #[inline(always)]
    fn me(&self) -> Me {
        self.state.me
    }

    #[inline(always)]
    fn call(&self) -> Or<Calls<Locate>, Or<Word, Calls<Unlatch>>> {
        let GetState {
            me,
            author,
            key,
            entry,
            block,
            point,
            ..
        } = self.state;
        match point {
            GetPoint::Search => Or::First(Calls::new(Locate::new(me, author, key))),
            GetPoint::Value => Or::Second(Or::First(Word::load(me, word_of(entry, 1)))),
            GetPoint::Number => Or::Second(Or::First(Word::load(me, word_of(block, 0)))),
            GetPoint::Missing => { Or::Second(Or::Second(Calls::new(Unlatch::new(me, author)))) }
            GetPoint::Known => Or::Second(Or::Second(Calls::new(Unlatch::new(me, author)))),
        }
    }

    #[inline(always)]
    fn next(&mut self, answer: Or<Found, Or<u64, ()>>) -> Option<Answer> {
        match answer {
            Or::First(Found::At { entry, .. }) => {
                self.state.entry = entry % ADDRESS_LIMIT;
                self.state.point = GetPoint::Value;
                None
            }
            Or::First(Found::Absent { .. }) => {
                self.state.point = GetPoint::Missing;
                None
            }
            Or::Second(Or::First(word)) => {
                self.state.read(word);
                None
            }
            Or::Second(Or::Second(())) => Some(self.state.answer()),
        }
    }

    ghost laws = { get_laws };
}

impl Task for Getting {
    ghost may = { GetMay };

    ghost tasks = { get_task };
}
