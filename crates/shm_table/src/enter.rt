//! A new entry of a key is made, filled, and linked as the first one of its bucket.

ghost use Rattle.std.specs.Prelude.{◌≡◌, ◌+◌, ◌<◌, ◌^◌};
ghost use Rattle.shm_words.specs.Layout.{GeometryFits, address_limit};
ghost use Rattle.shm_table.specs.{Effects.{enter_decided, links}, Enter.Control.{entering, entry_of, entry_request}};
ghost use Rattle.shm_table.specs.{Enter.enter_plan, Proved.Enter.Laws.enter_laws};
ghost use Rattle.shm_table.specs.Enter.Control as control;

use crate::answer::PutFault;
use crate::effect::Deciding;
use plans::{Calls, Or, Plan};
use shm_alloc::{Alloc, AllocFault, Near, Request};
use shm_count::{Made, StepChange, StepUp, UpFault};
use shm_graph::{Machine, Me};
use shm_words::ADDRESS_LIMIT;
use std::marker::Model;

/// Which call of it comes next.
#[derive(Clone, Copy, Drop)]
pub enum EnterPoint {
    /// The block is made that is to be the entry.
    Make,
    /// Its value word comes to name the value block.
    Value,
    /// Its next word comes to name the entry that was the first one.
    Next,
    /// The bucket, which is empty, comes to name it.
    Link,
    /// The bucket, which names the first entry, comes to name it.
    Change,
}

/// What came of it.
#[derive(Clone, Copy, Debug, PartialEq, Eq, Drop)]
pub enum Entered {
    /// The entry is the first one of its bucket, and this root names it too.
    Linked { root: u8 },
    /// The entry was made, which this root names, and a count step was refused.
    Unlinked { root: u8, fault: PutFault },
    /// No entry was made.
    Unmade { fault: PutFault },
}

/// The control of it: the directory `home`, of which the key's bucket names `first`; `root` and `entry` are those of the new block.
#[derive(Clone, Copy, Drop)]
pub struct EnterState {
    pub me: Me,
    pub key: u32,
    pub value: u32,
    pub home: u32,
    pub first: u32,
    pub root: u8,
    pub entry: u32,
    pub point: EnterPoint,
}

/// Its calls: an allocation, a step up, and a change.
pub type EnterCall = Or<Alloc, Or<StepUp, StepChange>>;

/// What its calls answer.
pub type EnterAnswer = Or<Result<Made, AllocFault>, Or<Result<(), UpFault>, Result<bool, UpFault>>>;

/// The calls by which a key that the own table doesn't have comes to have an entry.
///
/// It answers whether the entry was linked, and by which root it is to be dropped where it was made.
#[derive(Drop)]
pub struct Enter {
    state: EnterState,
}

impl Model for Enter {
    ghost use Rattle.shm_table.specs.declared.enter.EnterState.{EnterState as AState};

    ghost Value = { AState };

    ghost view = { λ a. a.state };

    ghost use Rattle.shm_table.specs.Enter.Control.{EnterInRange};

    ghost invariant = { λ a. EnterInRange a.state };
}

/// What an entry of the key is to hold: an empty next word, an empty value word, and the key.
#[inline(always)]
fn request_of(key: u32) -> Request
    ensures { result ≡ entry_request key }
{
    Request {
        refs: 2,
        count: 1,
        plain: [u64::from(key), 0, 0, 0, 0, 0, 0, 0],
        near: Near {
            segment: 0,
            page: 0,
            index: 0,
        },
    }
}

/// The block of an answer, where an entry can be at it: each block of a pool is such a one.
#[inline(always)]
fn entry_at(block: u32) -> u32
    ensures entry { result ≡ entry_of block }
    ensures room { result + 3 < address_limit }
{
    if block < ADDRESS_LIMIT - 3 { block } else { 0 }
}

/// What comes after the value word: where the bucket is empty the entry is linked, otherwise it names the first one.
#[inline(always)]
fn after_value(first: u32) -> EnterPoint
    ensures { result ≡ control.valued_point first }
{
    match first {
        0 => EnterPoint::Link,
        _ => EnterPoint::Next,
    }
}

impl Enter {
    /// The key `key`, which the own table doesn't have, is to have the value block `value`: the bucket in the directory `home` names
    /// `first`, or none where it is 0.
    #[inline(always)]
    pub fn new(me: Me, key: u32, value: u32, home: u32, first: u32) -> Enter
        requires geometry { GeometryFits me.geometry }
        requires who { me.who < me.geometry.clients }
        requires value { value < address_limit }
        requires home { home + 17 < address_limit }
        requires first { first < address_limit }
        ensures { result ≡ entering me key value home first }
    {
        Enter {
            state: EnterState {
                me,
                key,
                value,
                home,
                first,
                root: 0,
                entry: 0,
                point: EnterPoint::Make,
            },
        }
    }
}

impl EnterState {
    /// The step up by which word `word` of a block comes to name another one.
    #[inline(always)]
    fn up(self, block: u32, word: u8, to: u32) -> EnterCall
        requires range { control.EnterInRange self }
        requires block { block + 2 + word < address_limit }
        requires to { to < address_limit }
        ensures { result ≡ control.up_of self block word to }
    {
        let slot = block + 2 + u32::from(word);
        Or::Second(Or::First(StepUp::new(self.me, slot, to)))
    }

    /// Where it goes, and what it answers, once a word has come to name a block.
    #[inline(always)]
    fn raised(&mut self) -> Option<Entered>
        ensures state { self.new ≡ control.raised_after self.old self.old.point }
        ensures answer { result ≡ control.raised_turns self.old self.old.point }
    {
        let root = self.root;
        match self.point {
            EnterPoint::Value => {
                self.point = after_value(self.first);
                None
            }
            EnterPoint::Next => {
                self.point = EnterPoint::Change;
                None
            }
            _ => Some(Entered::Linked { root }),
        }
    }
}

impl Plan for Enter {
    type Call = EnterCall;

    type Answer = Entered;

    ghost plan = { enter_plan };

    #[inline(always)]
    fn me(&self) -> Me {
        self.state.me
    }

    #[inline(always)]
    fn call(&self) -> EnterCall {
        let EnterState {
            me,
            key,
            value,
            home,
            first,
            entry,
            point,
            ..
        } = self.state;
        let bucket = (key % 16) as u8;
        match point {
            EnterPoint::Make => Or::First(Alloc::asked(me, request_of(key))),
            EnterPoint::Value => self.state.up(entry, 1, value),
            EnterPoint::Next => self.state.up(entry, 0, first),
            EnterPoint::Link => self.state.up(home, bucket, entry),
            EnterPoint::Change => {
                let slot = home + 2 + u32::from(bucket);
                Or::Second(Or::Second(StepChange::new(me, slot, first, entry)))
            }
        }
    }

    #[inline(always)]
    fn next(&mut self, answer: EnterAnswer) -> Option<Entered> {
        let root = self.state.root;
        match answer {
            Or::First(Ok(made)) => {
                self.state.root = made.root;
                self.state.entry = entry_at(made.block);
                self.state.point = EnterPoint::Value;
                None
            }
            Or::First(Err(fault)) => Some(Entered::Unmade {
                fault: PutFault::made(fault),
            }),
            Or::Second(Or::First(Ok(()))) => self.state.raised(),
            Or::Second(Or::First(Err(fault))) => Some(Entered::Unlinked {
                root,
                fault: PutFault::raised(fault),
            }),
            Or::Second(Or::Second(Ok(_))) => Some(Entered::Linked { root }),
            Or::Second(Or::Second(Err(fault))) => Some(Entered::Unlinked {
                root,
                fault: PutFault::raised(fault),
            }),
        }
    }

    ghost laws = { enter_laws };
}

impl EnterPoint {
    /// Whether a step up is the one at the bucket, and not one at the own words of the entry.
    #[inline(always)]
    fn links(self) -> bool
        ensures { result ≡ links self }
    {
        match self {
            EnterPoint::Value | EnterPoint::Next => false,
            _ => true,
        }
    }
}

impl Deciding for Calls<Enter> {
    ghost decided = { enter_decided };

    /// The step at the bucket decides.
    #[inline(always)]
    fn decided(&self) -> bool {
        match self.call() {
            Or::First(_) => false,
            Or::Second(Or::First(up)) => self.plan().state.point.links() && up.exchanged(),
            Or::Second(Or::Second(change)) => change.exchanged(),
        }
    }
}
