//! What a key has in the table of an author, with a root of its own.

ghost use Rattle.std.specs.Prelude.{◌≡◌, ◌<◌, ◌+◌, ◌^◌};
ghost use Rattle.shm_words.specs.Layout.{GeometryFits, address_limit};
ghost use Rattle.shm_table.specs.{Fetch.{Control.fetching, fetch_plan}, Proved.Fetch.Laws.fetch_laws};
ghost use Rattle.shm_table.specs.Fetch.Control as control;

use crate::answer::PutFault;
use crate::find::Found;
use crate::locate::Locate;
use crate::unlatch::Unlatch;
use plans::{Calls, Or, Plan, Word};
use shm_count::parts::{ShareFault, UpRoot};
use shm_graph::{Machine, Me};
use shm_words::ADDRESS_LIMIT;
use std::marker::Model;

/// Which call of it comes next.
#[derive(Clone, Copy, Drop)]
pub enum FetchPoint {
    /// The latch is taken and the entry looked for.
    Search,
    /// The value word of the entry is loaded.
    Value,
    /// The number of its value block is loaded.
    Number,
    /// A root comes to name the value block.
    Share,
    /// The latch is given back.
    Give,
}

/// What was fetched.
#[derive(Clone, Copy, Debug, PartialEq, Eq, Drop)]
pub enum Fetched {
    /// No entry has the key.
    Missing,
    /// The value block got no root.
    Refused(PutFault),
    /// The root names the value block that the key has, which holds the number.
    Rooted { root: u8, block: u32, number: u64 },
}

/// The control of it: the entry that was found, its value block and that block's number; `outcome` is what it answers once the latch is
/// given back.
#[derive(Clone, Copy, Drop)]
pub struct FetchState {
    pub me: Me,
    pub author: u8,
    pub key: u32,
    pub entry: u32,
    pub block: u32,
    pub number: u64,
    pub outcome: Fetched,
    pub point: FetchPoint,
}

/// Its calls.
pub type FetchCall = Or<Calls<Locate>, Or<Word, Or<Calls<UpRoot>, Calls<Unlatch>>>>;

/// What its calls answer.
pub type FetchAnswer = Or<Found, Or<u64, Or<Result<u8, ShareFault>, ()>>>;

/// The calls by which an identity comes to have a root of what a key has in the table of an author.
///
/// It answers what the key has, and the root that names it; or that no entry has the key, or why there is no root. The latch is given back
/// then.
#[derive(Drop)]
pub struct Fetch {
    state: FetchState,
}

impl Model for Fetch {
    ghost use Rattle.shm_table.specs.declared.fetch.FetchState.{FetchState as AState};

    ghost Value = { AState };

    ghost view = { λ a. a.state };

    ghost use Rattle.shm_table.specs.Fetch.Control.{FetchInRange};

    ghost invariant = { λ a. FetchInRange a.state };
}

/// The address of the first word of a block after its header and its tag, or of one more.
#[inline(always)]
fn word_of(block: u32, word: u32) -> u32
    requires block { block < address_limit }
    requires word { word < 2 }
    ensures { result ≡ block + 2 + word }
{
    block + 2 + word
}

/// Why a block got no root.
#[inline(always)]
pub fn shared(fault: ShareFault) -> PutFault
    ensures { result ≡ control.shared_fault fault }
{
    match fault {
        ShareFault::EraSpent { era } => PutFault::EraSpent { era },
        ShareFault::RootsFull => PutFault::RootsFull,
        ShareFault::CountFull { block, count } => PutFault::CountFull { block, count },
    }
}

impl Fetch {
    /// What the key `key` has in the table of `author` is to be read, and to have a root of `me`.
    #[inline(always)]
    pub fn new(me: Me, author: u8, key: u32) -> Fetch
        requires geometry { GeometryFits me.geometry }
        requires who { me.who < me.geometry.clients }
        requires author { author < me.geometry.clients }
        ensures { result ≡ fetching me author key }
    {
        Fetch {
            state: FetchState {
                me,
                author,
                key,
                entry: 0,
                block: 0,
                number: 0,
                outcome: Fetched::Missing,
                point: FetchPoint::Search,
            },
        }
    }
}

impl FetchState {
    /// Where it goes by the word that was loaded.
    #[inline(always)]
    fn read(&mut self, word: u64)
        ensures { self.new ≡ control.read_after self.old self.old.point word }
    {
        match self.point {
            FetchPoint::Value => {
                self.block = (word % u64::from(ADDRESS_LIMIT)) as u32;
                self.point = FetchPoint::Number;
            }
            _ => {
                self.number = word;
                self.point = FetchPoint::Share;
            }
        }
    }

    /// What it answers once the latch is given back, by whether there is a root.
    #[inline(always)]
    fn outcome(&self, root: Result<u8, ShareFault>) -> Fetched
        ensures { result ≡ control.fetch_outcome self.now root }
    {
        let FetchState { number, block, .. } = *self;
        match root {
            Ok(root) => Fetched::Rooted {
                root,
                block,
                number,
            },
            Err(fault) => Fetched::Refused(shared(fault)),
        }
    }
}

impl Plan for Fetch {
    type Call = FetchCall;

    type Answer = Fetched;

    ghost plan = { fetch_plan };

    #[inline(always)]
    fn me(&self) -> Me {
        self.state.me
    }

    #[inline(always)]
    fn call(&self) -> FetchCall {
        let FetchState {
            me,
            author,
            key,
            entry,
            block,
            point,
            ..
        } = self.state;
        match point {
            FetchPoint::Search => Or::First(Calls::new(Locate::new(me, author, key))),
            FetchPoint::Value => Or::Second(Or::First(Word::load(me, word_of(entry, 1)))),
            FetchPoint::Number => Or::Second(Or::First(Word::load(me, word_of(block, 0)))),
            FetchPoint::Share => Or::Second(Or::Second(Or::First(Calls::new(UpRoot::new(
                me, block,
            ))))),
            FetchPoint::Give => Or::Second(Or::Second(Or::Second(Calls::new(Unlatch::new(
                me, author,
            ))))),
        }
    }

    #[inline(always)]
    fn next(&mut self, answer: FetchAnswer) -> Option<Fetched> {
        match answer {
            Or::First(Found::At { entry, .. }) => {
                self.state.entry = entry % ADDRESS_LIMIT;
                self.state.point = FetchPoint::Value;
                None
            }
            Or::First(Found::Absent { .. }) => {
                self.state.outcome = Fetched::Missing;
                self.state.point = FetchPoint::Give;
                None
            }
            Or::Second(Or::First(word)) => {
                self.state.read(word);
                None
            }
            Or::Second(Or::Second(Or::First(root))) => {
                self.state.outcome = self.state.outcome(root);
                self.state.point = FetchPoint::Give;
                None
            }
            Or::Second(Or::Second(Or::Second(()))) => Some(self.state.outcome),
        }
    }

    ghost laws = { fetch_laws };
}
