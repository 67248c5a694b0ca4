//! Looking for the entry of a key in a table.

ghost use Rattle.std.specs.Prelude.{◌≡◌, ◌+◌, ◌^◌, ◌<◌, if◌then◌else◌, Some, None};
ghost use Rattle.shm_words.specs.Layout.{GeometryFits, address_limit};
ghost use Rattle.shm_table.specs.declared.find.Found.TheVariants.{At};
ghost use Rattle.shm_table.specs.Find.{Control.{finding, find_goes, find_answers, FindInRange}, find_plan};
ghost use Rattle.shm_table.specs.Proved.Find.Laws.{find_laws};

use plans::{Plan, Word};
use shm_graph::{Machine, Me};
use shm_words::ADDRESS_LIMIT;
use std::marker::Model;

/// Which word step of it comes next.
#[derive(Clone, Copy, Drop)]
pub enum FindPoint {
    /// The author's home is loaded.
    Home,
    /// The word of the key's bucket is loaded.
    Bucket,
    /// The key word of the entry at which it is.
    Key,
    /// The next word of that entry.
    Next,
}

/// What it found.
#[derive(Clone, Copy, Debug, PartialEq, Eq, Drop)]
pub enum Found {
    /// No entry has the key. The home names the directory `home`, or none where it is 0; the bucket's word names `first`, or none where it is 0.
    Absent { home: u32, first: u32 },
    /// This entry has the key, and word `word` of block `before` leads to it.
    At { entry: u32, before: u32, word: u8 },
}

/// The control of it: the directory, what the bucket's word names, the entry at which it is, and the word that leads there.
#[derive(Clone, Copy, Drop)]
pub struct FindState {
    pub me: Me,
    pub author: u8,
    pub key: u32,
    pub home: u32,
    pub first: u32,
    pub entry: u32,
    pub before: u32,
    pub word: u8,
    pub point: FindPoint,
}

/// The word steps by which an identity looks for a key in the table of an author whose latch it holds.
///
/// It answers where the entry of the key is, or that there is none.
#[derive(Drop)]
pub struct Find {
    state: FindState,
}

impl Model for Find {
    ghost use Rattle.shm_table.specs.declared.find.FindState.{FindState as AState};

    ghost Value = { AState };

    ghost view = { λ a. a.state };

    ghost use Rattle.shm_table.specs.Find.Control.{FindInRange};

    ghost invariant = { λ a. FindInRange a.state };
}

/// The address of a word of a block, after its header and its tag.
#[inline(always)]
fn word_of(block: u32, word: u8) -> u32
    requires block { block < address_limit }
    ensures { result ≡ block + 2 + word }
{
    block + 2 + u32::from(word)
}

/// An answer, where it is one.
#[inline(always)]
fn answer_if(is: bool, found: Found) -> Option<Found>
    ensures { result ≡ if is then Some found else None }
{
    if is { Some(found) } else { None }
}

/// The entry has the key, and this word leads to it.
#[inline(always)]
fn at(entry: u32, before: u32, word: u8) -> Found
    ensures { result ≡ At entry before word }
{
    Found::At {
        entry,
        before,
        word,
    }
}

/// Where it goes, by the block that the word names which was found.
#[inline(always)]
fn goes(mut state: FindState, block: u32) -> FindState
    requires range { FindInRange state }
    requires block { block < address_limit }
    ensures state { result ≡ find_goes state state.point block }
    ensures range { FindInRange result }
{
    match state.point {
        FindPoint::Home => {
            state.home = block;
            state.point = FindPoint::Bucket;
        }
        FindPoint::Bucket => {
            state.first = block;
            state.entry = block;
            state.before = state.home;
            state.word = (state.key % 16) as u8;
            state.point = FindPoint::Key;
        }
        FindPoint::Key => {
            state.point = FindPoint::Next;
        }
        FindPoint::Next => {
            state.before = state.entry;
            state.word = 0;
            state.entry = block;
            state.point = FindPoint::Key;
        }
    }
    state
}

/// What it answers, by the word that was found and the block that it names.
#[inline(always)]
fn answers(state: FindState, seen: u64, block: u32) -> Option<Found>
    ensures { result ≡ find_answers state state.point seen block }
{
    let FindState {
        key,
        home,
        first,
        entry,
        before,
        word,
        ..
    } = state;
    match state.point {
        FindPoint::Home => answer_if(block == 0, Found::Absent { home: 0, first: 0 }),
        FindPoint::Bucket => answer_if(block == 0, Found::Absent { home, first: 0 }),
        FindPoint::Key => {
            let same = seen == u64::from(key);
            answer_if(same, at(entry, before, word))
        }
        FindPoint::Next => answer_if(block == 0, Found::Absent { home, first }),
    }
}

impl Find {
    /// The key `key` is to be looked for in the table of `author`.
    #[inline(always)]
    pub fn new(me: Me, author: u8, key: u32) -> Find
        requires geometry { GeometryFits me.geometry }
        requires who { me.who < me.geometry.clients }
        requires author { author < me.geometry.clients }
        ensures { result ≡ finding me author key }
    {
        Find {
            state: FindState {
                me,
                author,
                key,
                home: 0,
                first: 0,
                entry: 0,
                before: 0,
                word: 0,
                point: FindPoint::Home,
            },
        }
    }
}

impl Plan for Find {
    type Call = Word;

    type Answer = Found;

    ghost plan = { find_plan };

    #[inline(always)]
    fn me(&self) -> Me {
        self.state.me
    }

    #[inline(always)]
    fn call(&self) -> Word {
        let FindState {
            me,
            author,
            key,
            home,
            entry,
            point,
            ..
        } = self.state;
        match point {
            FindPoint::Home => Word::load(me, me.geometry.home(author)),
            FindPoint::Bucket => Word::load(me, word_of(home, (key % 16) as u8)),
            FindPoint::Key => Word::load(me, word_of(entry, 2)),
            FindPoint::Next => Word::load(me, word_of(entry, 0)),
        }
    }

    #[inline(always)]
    fn next(&mut self, word: u64) -> Option<Found> {
        let state = self.state;
        let block = (word % u64::from(ADDRESS_LIMIT)) as u32;
        self.state = goes(state, block);
        answers(state, word, block)
    }

    ghost laws = { find_laws };
}
