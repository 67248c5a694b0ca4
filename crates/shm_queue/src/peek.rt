//! The first item of a queue from another identity comes to have a root.

ghost use Rattle.std.specs.Prelude.{◌≡◌, ◌<◌};
ghost use Rattle.shm_words.specs.Layout.{GeometryFits};
ghost use Rattle.shm_queue.specs.Peek.{Control.{peeking, after_word, turns_word}, peek_plan};
ghost use Rattle.shm_queue.specs.Proved.{Peek.Laws.peek_laws, QueueTasks.{PeekMay, peek_task}};

use crate::answer::PeekFault;
use plans::{Calls, Or, Plan, Task, Word};
use shm_count::Made;
use shm_count::parts::{ShareFault, UpRoot};
use shm_graph::{Machine, Me};
use shm_words::ADDRESS_LIMIT;
use std::marker::Model;

/// Which call of it comes next.
#[derive(Clone, Copy, Drop)]
pub enum PeekPoint {
    /// The own head is loaded.
    Head,
    /// The tail is loaded.
    Tail,
    /// The slot at the head is loaded.
    Slot,
    /// The least empty root comes to name the block.
    Share,
}

/// The control of it; `at` is the own head that was read, and `block` the item there.
#[derive(Clone, Copy, Drop)]
pub struct PeekState {
    pub me: Me,
    pub from: u8,
    pub at: u64,
    pub block: u32,
    pub point: PeekPoint,
}

/// The calls by which the first item of a queue comes to have a root.
///
/// It answers the root and the item, `Empty` where the queue has no item, or why the item got no root.
#[derive(Drop)]
pub struct Peek {
    state: PeekState,
}

impl Model for Peek {
    ghost use Rattle.shm_queue.specs.declared.peek.PeekState.{PeekState as AState};

    ghost Value = { AState };

    ghost view = { λ a. a.state };

    ghost use Rattle.shm_queue.specs.Peek.Control.{PeekInRange};

    ghost invariant = { λ a. PeekInRange a.state };
}

impl Peek {
    /// The first item of the queue from the identity `from` to the identity `me`, before the first call.
    #[inline(always)]
    pub fn new(me: Me, from: u8) -> Peek
        requires geometry { GeometryFits me.geometry }
        requires who { me.who < me.geometry.clients }
        requires from { from < me.geometry.clients }
        ensures { result ≡ peeking me from }
    {
        Peek {
            state: PeekState {
                me,
                from,
                at: 0,
                block: 0,
                point: PeekPoint::Head,
            },
        }
    }

    #[inline(always)]
    fn seen(&mut self, word: u64) -> Option<Result<Made, PeekFault>>
        ensures state { self.new ≡ after_word self.old self.old.point word }
        ensures answer { result ≡ turns_word self.old self.old.point word }
    {
        match self.state.point {
            PeekPoint::Head => {
                self.state.at = word;
                self.state.point = PeekPoint::Tail;
                None
            }
            PeekPoint::Tail => {
                let at = self.state.at;
                self.state.point = PeekPoint::Slot;
                if word == at {
                    Some(Err(PeekFault::Empty { at }))
                } else {
                    None
                }
            }
            PeekPoint::Slot | PeekPoint::Share => {
                self.state.block = (word % u64::from(ADDRESS_LIMIT)) as u32;
                self.state.point = PeekPoint::Share;
                None
            }
        }
    }
}

impl Plan for Peek {
    type Call = Or<Word, Calls<UpRoot>>;

    type Answer = Result<Made, PeekFault>;

    ghost plan = { peek_plan };

    #[inline(always)]
    fn me(&self) -> Me {
        self.state.me
    }

    #[inline(always)]
    fn call(&self) -> Or<Word, Calls<UpRoot>> {
        let PeekState {
            me,
            from,
            at,
            block,
            point,
        } = self.state;
        let pool = me.geometry;
        match point {
            PeekPoint::Head => Or::First(Word::load(me, pool.head(from, me.who))),
            PeekPoint::Tail => Or::First(Word::load(me, pool.tail(from, me.who))),
            PeekPoint::Slot => {
                let slot = pool.slot(from, me.who, (at % 8) as u8);
                Or::First(Word::load(me, slot))
            }
            PeekPoint::Share => Or::Second(Calls::new(UpRoot::new(me, block))),
        }
    }

    #[inline(always)]
    fn next(&mut self, answer: Or<u64, Result<u8, ShareFault>>) -> Option<Result<Made, PeekFault>> {
        match answer {
            Or::First(word) => self.seen(word),
            Or::Second(Ok(root)) => {
                let block = self.state.block;
                Some(Ok(Made { root, block }))
            }
            Or::Second(Err(fault)) => Some(Err(PeekFault::of(fault))),
        }
    }

    ghost laws = { peek_laws };
}

impl Task for Peek {
    ghost may = { PeekMay };

    ghost tasks = { peek_task };
}
