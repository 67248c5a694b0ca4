//! The pool.

ghost use Rattle.std.specs.Prelude.{◌≡◌, ℕ, ◌<◌, ◌≤◌, [], length, IfOk, IfErr};
ghost use Rattle.shm_words.specs.Layout.{total_of, GeometryFits};
ghost use Rattle.shm_pool.specs.{Rules.count_in, Tokens.{first_tokens, AllOf, accounts_of, by_who, IsClosedRun}};
ghost use Rattle.shm_pool.specs.Causes.{IfMissing};
ghost use Rattle.shm_graph.specs.Runs.{EraFits};

use crate::closing::{CloseCause, copy_words, missing, room, take_in};
use crate::notes::{Board, keep};
use crate::rule::{Cut, Place, Top, View, Words};
use crate::token::Vacant;
use atomic_table::{Badge, Table};
use shm_graph::{Start, first_words};
use shm_words::Geometry;
use std::alloc::{AllocError, Global};
use std::marker::Model;

/// Words that threads share. To a contract it is its name.
#[derive(Drop)]
pub struct SharedPool {
    words: Words,
    start: Start,
}

impl Model for SharedPool {
    ghost use Rattle.std.specs.Prelude.{◌≡◌};
    ghost use Rattle.shm_words.specs.Layout.{total_of, GeometryFits};
    ghost use Rattle.shm_pool.specs.Tokens.{Its, its};

    ghost Value = { Its };

    ghost view = { λ p. its p.words.shared.table_id p.start };

    ghost invariant = { λ p. (p.words.shared.key ≡ p.start) × (p.words.shared.table_id.words ≡ total_of p.start.geometry) × (p.words.shared.table_id.slots ≡ 0) × GeometryFits p.start.geometry };
}

/// The words of a pool whose identities are all vacant. Only `close` makes one.
#[derive(Drop)]
pub struct Closed {
    start: Start,
    words: Vec<u64>,
    badge: Badge<View>,
}

impl Model for Closed {
    ghost use Rattle.shm_pool.specs.Tokens.{End, end_of, head_view, IsClosedRun};

    ghost Value = { End };

    ghost view = { λ c. end_of c.start c.words.items (head_view c.badge.views) };

    ghost invariant = { λ c. IsClosedRun c.start c.words.items (head_view c.badge.views) };
}

/// A closing that was refused: the pool and the tokens as they were, and why.
#[derive(Drop)]
pub struct CloseStop {
    pub pool: SharedPool,
    pub all: Vec<Vacant>,
    pub cause: CloseCause,
}

impl Closed {
    /// The sizes of the pool.
    pub fn geometry(&self) -> Geometry
        ensures { result ≡ self.now.start.geometry }
    {
        self.start.geometry
    }

    /// All words, in the order of their addresses.
    pub fn words(&self) -> &[u64]
        ensures words { result.now ≡ self.now.words }
        ensures end { IsClosedRun self.now.start self.now.words self.now.accounts }
    {
        self.words.as_slice()
    }
}

impl SharedPool {
    /// A pool that nobody has joined: all words are 0, but the own era of each identity is `first_era`, 1 to 2^47 - 2; and one token
    /// for each identity, in order.
    ///
    /// `tables` says whether it is made for tables, or for single calls. No call of a token takes memory.
    pub fn make(
        alloc: Global,
        geometry: Geometry,
        first_era: u64,
        tables: bool,
    ) -> Result<(SharedPool, Vec<Vacant>), AllocError>
        requires geometry { GeometryFits geometry }
        requires era { EraFits first_era }
        ensures start { IfOk result (λ p. p.0.start ≡ record { geometry = geometry; first_era = first_era; tables = tables }) }
        ensures tokens { IfOk result (λ p. p.1.items ≡ first_tokens p.0 0 geometry.clients) }
        ensures of { IfOk result (λ p. AllOf p.0 p.1.items) }
    {
        let start = Start {
            geometry,
            first_era,
            tables,
        };
        let first = first_words(alloc, start)?;
        let (words, mut rest): (Words, Place) = Table::of_words(alloc, first.as_slice(), &start)?;
        let mut all = Vec::new(alloc);
        for who in 0..geometry.clients() {
            let place = words.shared.split_seat::<Cut>(&mut rest);
            all.push(Vacant { place, start, who })?;
        }
        Ok((SharedPool { words, start }, all))
    }

    /// Takes all tokens back. A refusal gives all of them and the pool, as they were.
    pub fn close(self, alloc: Global, all: Vec<Vacant>) -> Result<Closed, CloseStop>
        requires { AllOf self all.items }
        ensures ok { IfOk result (λ c. (c.start ≡ self.start) × (c.accounts ≡ by_who 0 self.start.geometry.clients (accounts_of all.items))) }
        ensures err { IfErr result (λ e. (e.pool ≡ self) × (e.all ≡ all)) }
        ensures missing { IfErr result (λ e. IfMissing e.cause (λ c. (c < self.start.geometry.clients) × (count_in c (accounts_of all.items) ≡ 0) × ((j : ℕ) → j < c → 1 ≤ count_in j (accounts_of all.items)))) }
    {
        if let Some(client) = missing(self.start.geometry.clients(), all.as_slice()) {
            return Err(CloseStop {
                pool: self,
                all,
                cause: CloseCause::Missing { client },
            });
        }
        match room(alloc, self.start.geometry) {
            Ok((words, board, note)) => Ok(self.finish(all, words, &board, note)),
            Err(error) => Err(CloseStop {
                pool: self,
                all,
                cause: CloseCause::Memory(error),
            }),
        }
    }

    /// Puts what the tokens account for in order; the words are the last ones.
    fn finish(self, all: Vec<Vacant>, mut words: Vec<u64>, board: &Board, note: Place) -> Closed
        requires of { AllOf self all.items }
        requires all { (c : ℕ) → c < self.start.geometry.clients → 1 ≤ count_in c (accounts_of all.items) }
        requires room { (length words.items ≡ total_of self.start.geometry) × (note.table_id ≡ board.now.shared.table_id) × (board.now.shared.table_id.words ≡ 1) × (note.me.1 ≡ []) }
        ensures { (result.start ≡ self.start) × (result.accounts ≡ by_who 0 self.start.geometry.clients (accounts_of all.items)) }
    {
        let SharedPool {
            words: table,
            start,
        } = self;
        let seat = take_in(&table.shared, all);
        let badge = keep(board, note, &seat, start.geometry.clients());
        let last = table.close_with(seat);
        copy_words(&last, &mut words);
        last.free();
        Closed {
            start,
            words,
            badge,
        }
    }

    /// The sizes of the pool.
    pub fn geometry(&self) -> Geometry
        ensures is { result ≡ self.now.start.geometry }
        ensures fits { GeometryFits result }
    {
        self.start.geometry
    }

    /// The word at an address at some moment.
    pub fn peek(&self, at: u32) -> u64
        requires { at < total_of self.now.start.geometry }
    {
        self.words.shared.peek(at as usize)
    }

    pub(crate) fn top(&self) -> &Top
        ensures { (result.now.table_id ≡ self.now.table) × (result.now.key ≡ self.now.start) × (result.now.table_id.words ≡ total_of result.now.key.geometry) }
    {
        &self.words.shared
    }
}
