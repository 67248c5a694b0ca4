//! A key of the own table is removed.

ghost use Rattle.std.specs.Prelude.{◌≡◌, ◌%◌, ◌<◌};
ghost use Rattle.shm_words.specs.Layout.{GeometryFits};
ghost use Rattle.plans.specs.{CallsControl.{calls_control, calls_of}, CallsFit.{CallsFits, CallsGives}};
ghost use Rattle.plans.specs.Proved.CallsKeep.{calls_laws};
ghost use Rattle.shm_table.specs.{Effects.{del_effect, is_removed}, Del.Control.{del_parts, del_steered, deleting}};
ghost use Rattle.shm_table.specs.{Del.del_plan, Proved.{Del.Laws.del_laws, TableTasks.del_task}, TableTasks.DelMay};
ghost use Rattle.shm_table.specs.Del.Control as control;

use crate::answer::PutFault;
use crate::effect::{Settling, decided_in};
use crate::find::Found;
use crate::locate::Locate;
use crate::unlatch::Unlatch;
use crate::unlink::Unlink;
use plans::{Calls, Or, Plan, Task};
use shm_count::UpFault;
use shm_graph::{Ask, Life, Machine, Me, Site, Turn};
use shm_script::Answer;
use shm_words::ADDRESS_LIMIT;
use std::marker::Model;

/// Which call of it comes next.
#[derive(Clone, Copy, Drop)]
pub enum DelPoint {
    /// The own latch is taken and the entry looked for.
    Search,
    /// The entry goes.
    Cut,
    /// The latch is given back.
    Back,
}

/// The control of it: word `word` of block `before` leads to `entry`, where one was found, and then `answer` is what it will answer.
#[derive(Clone, Copy, Drop)]
pub struct DelState {
    pub me: Me,
    pub key: u32,
    pub entry: u32,
    pub before: u32,
    pub word: u8,
    pub answer: Answer,
    pub point: DelPoint,
}

/// Its calls: a search under the latch, the taking out of an entry, and the giving back of the latch.
pub type DelCall = Or<Calls<Locate>, Or<Calls<Unlink>, Calls<Unlatch>>>;

/// The calls by which a key of the own table is removed.
#[derive(Drop)]
pub struct Deleting {
    state: DelState,
}

impl Model for Deleting {
    ghost use Rattle.shm_table.specs.declared.del.DelState.{DelState as AState};

    ghost Value = { AState };

    ghost view = { λ a. a.state };

    ghost use Rattle.shm_table.specs.Del.Control.{DelInRange};

    ghost invariant = { λ a. DelInRange a.state };
}

/// It answers that the key is gone, that it was missing, or why the count step was refused, and then it is there still.
#[derive(Drop)]
pub struct Del {
    calls: Calls<Deleting>,
}

impl Model for Del {
    ghost use Rattle.shm_table.specs.Del.Control.{DelCalls};

    ghost Value = { DelCalls };

    ghost view = { λ a. a.calls };
}

impl Del {
    /// The key `key` of the own table is to be removed.
    #[inline(always)]
    pub fn new(me: Me, key: u32) -> Del
        requires geometry { GeometryFits me.geometry }
        requires who { me.who < me.geometry.clients }
        ensures { result ≡ calls_of del_steered (deleting me key) }
    {
        Del {
            calls: Calls::new(Deleting::new(me, key)),
        }
    }

    /// What it will answer, where its deciding step was made; otherwise none.
    #[inline(always)]
    pub fn effect(&self) -> Option<Answer>
        ensures { result ≡ del_effect self.now }
    {
        if decided_in(&self.calls) {
            Some(Answer::Ok)
        } else {
            None
        }
    }
}

impl Machine for Del {
    type Answer = Answer;

    ghost control = { calls_control del_parts del_steered };

    ghost fits = { CallsFits del_parts del_plan };

    ghost gives = { CallsGives del_parts del_plan };

    #[inline(always)]
    fn me(&self) -> Me {
        self.calls.me()
    }

    #[inline(always)]
    fn finished(&self) -> bool {
        self.calls.finished()
    }

    #[inline(always)]
    fn ask(&self) -> Ask {
        self.calls.ask()
    }

    #[inline(always)]
    fn take(&mut self, seen: u64) -> Turn<Answer> {
        self.calls.take(seen)
    }

    #[inline(always)]
    fn act<S: Site>(&mut self, site: &S, words: &mut S::Words) -> Turn<Answer> {
        self.calls.act(site, words)
    }

    #[inline(always)]
    fn run<S: Site>(&mut self, site: &S, words: &mut S::Words, life: &mut Life) -> Turn<Answer> {
        self.calls.run(site, words, life)
    }

    ghost laws = { calls_laws del_parts del_plan del_laws };
}

impl Deleting {
    /// The key `key` of the own table is to be removed.
    #[inline(always)]
    pub fn new(me: Me, key: u32) -> Deleting
        requires geometry { GeometryFits me.geometry }
        requires who { me.who < me.geometry.clients }
        ensures { result ≡ deleting me key }
    {
        Deleting {
            state: DelState {
                me,
                key,
                entry: 0,
                before: 0,
                word: 0,
                answer: Answer::Missing,
                point: DelPoint::Search,
            },
        }
    }
}

impl DelState {
    /// Where it goes, by what the search found.
    #[inline(always)]
    fn found(&mut self, found: Found)
        ensures state { self.new ≡ control.found_after self.old found }
    {
        match found {
            Found::Absent { .. } => {
                self.answer = Answer::Missing;
                self.point = DelPoint::Back;
            }
            Found::At {
                entry,
                before,
                word,
            } => {
                self.entry = entry % ADDRESS_LIMIT;
                self.before = before % ADDRESS_LIMIT;
                self.word = word;
                self.point = DelPoint::Cut;
            }
        }
    }

    /// Where it goes once the entry is gone, or is there still.
    #[inline(always)]
    fn cut(&mut self, done: Result<(), UpFault>)
        ensures state { self.new ≡ control.cut_after self.old done }
    {
        self.answer = match done {
            Ok(()) => Answer::Ok,
            Err(fault) => PutFault::raised(fault).answer(),
        };
        self.point = DelPoint::Back;
    }
}

impl Plan for Deleting {
    type Call = DelCall;

    type Answer = Answer;

    ghost plan = { del_plan };

    #[inline(always)]
    fn me(&self) -> Me {
        self.state.me
    }

    #[inline(always)]
    fn call(&self) -> DelCall {
        let DelState {
            me,
            key,
            entry,
            before,
            word,
            point,
            ..
        } = self.state;
        match point {
            DelPoint::Search => Or::First(Calls::new(Locate::new(me, me.who, key))),
            DelPoint::Cut => {
                let cut = Unlink::new(me, entry, before, word);
                Or::Second(Or::First(Calls::new(cut)))
            }
            DelPoint::Back => Or::Second(Or::Second(Calls::new(Unlatch::new(me, me.who)))),
        }
    }

    #[inline(always)]
    fn next(&mut self, answer: Or<Found, Or<Result<(), UpFault>, ()>>) -> Option<Answer> {
        match answer {
            Or::First(found) => {
                self.state.found(found);
                None
            }
            Or::Second(Or::First(done)) => {
                self.state.cut(done);
                None
            }
            Or::Second(Or::Second(())) => Some(self.state.answer),
        }
    }

    ghost laws = { del_laws };
}

impl Settling for Deleting {
    ghost settled = { λ m. is_removed m.answer };

    #[inline(always)]
    fn settled(&self) -> bool {
        is_removed(self.state.answer)
    }
}

impl Task for Deleting {
    ghost may = { DelMay };

    ghost tasks = { del_task };
}

/// Whether the entry was taken out.
#[inline(always)]
fn is_removed(answer: Answer) -> bool
    ensures { result ≡ is_removed answer }
{
    match answer {
        Answer::Ok => true,
        _ => false,
    }
}
