//! The pool.

ghost use Rattle.std.specs.Prelude.{◌≡◌, ℕ, ◌+◌, ◌<◌, ◌↔◌, false, true, slice_index, IfOk};
ghost use Rattle.shm_words.specs.Layout.{total_of, GeometryFits};
ghost use Rattle.shm_graph.specs.{declared.memo.Memo.Memo, Agents.acts, Laws.{turn_of, is_died, Outcome}};
ghost use Rattle.shm_graph.specs.{Runs.{EraFits, MayBegin}, Whole.{fits_now, gives_now, Learns}};
ghost use Rattle.shm_plain.specs.{ManySteps.stop_of, Tracks.kind_next};
ghost use Rattle.shm_plain.specs.Pools.{IsOf, IsRun, first_pool, memo_of, readied, turn_on, turned, MayStep, after_fall};

use crate::track::{Board, Place, board, note, note_death, note_steps};
use shm_graph::{InVector, Life, Machine, Start, Turn, first_words};
use shm_words::Geometry;
use std::alloc::{AllocError, Global};
use std::marker::Model;

/// A pool in a vector of words, for one thread.
///
/// Contracts see its start, its words, what it accounts for of each identity, and the list of its turns. The turns lead from the
/// first state to the words and accounts that it has, and each state on the way is Held.
#[derive(Drop)]
pub struct PlainPool {
    start: Start,
    words: Vec<u64>,
    board: Board,
    place: Place,
}

impl Model for PlainPool {
    ghost use Rattle.std.specs.Prelude.{◌≡◌, []};
    ghost use Rattle.shm_plain.specs.Pools.{Pool, pool, IsRun};

    ghost Value = { Pool };

    ghost view = { λ p. pool p.start p.words.items p.place.me.0.accounts p.place.me.0.turns };

    ghost invariant = { λ p. (p.place.me.1 ≡ []) × (p.place.table_id ≡ p.board.shared.table_id) × (p.board.shared.table_id.words ≡ 1) × IsRun (pool p.start p.words.items p.place.me.0.accounts p.place.me.0.turns) };
}

impl PlainPool {
    /// A pool that nobody has joined: all words are 0, but the own era of each identity is `first_era`, 1 to 2^47 - 2.
    ///
    /// `tables` says whether it is made for tables, or for single calls. No call on the pool takes memory after this one.
    pub fn make(
        alloc: Global,
        geometry: Geometry,
        first_era: u64,
        tables: bool,
    ) -> Result<PlainPool, AllocError>
        requires geometry { GeometryFits geometry }
        requires era { EraFits first_era }
        ensures first { IfOk result (λ p. p ≡ first_pool (record { geometry = geometry; first_era = first_era; tables = tables })) }
        ensures run { IfOk result (λ p. IsRun p) }
    {
        let start = Start {
            geometry,
            first_era,
            tables,
        };
        let words = first_words(alloc, start)?;
        let (board, place) = board(alloc, start)?;
        Ok(PlainPool {
            start,
            words,
            board,
            place,
        })
    }

    /// The sizes of the pool.
    pub fn geometry(&self) -> Geometry
        ensures is { result ≡ self.now.start.geometry }
        ensures run { IsRun self.now }
    {
        self.start.geometry
    }

    /// The word at an address.
    pub fn word(&self, at: u32) -> u64
        requires { at < total_of self.now.start.geometry }
        ensures is { result ≡ slice_index self.now.words at }
    {
        self.words[at as usize]
    }

    /// The words, by address.
    pub fn words(&self) -> &[u64]
        ensures { result.now ≡ self.now.words }
    {
        self.words.as_slice()
    }

    /// One word step of a machine that works for `who`.
    ///
    /// Where no agent of `who` acts one begins before the step: a recoverer after a death, and otherwise a client. Where no life is
    /// left nothing changes, and the answer is `Died`.
    #[inline(always)]
    pub fn step<M: Machine>(&mut self, who: u8, m: &mut M, life: &mut Life) -> Turn<M::Answer>
        requires me { IsOf self.old who M.control m.old }
        requires agent { MayStep self.old who }
        requires fits { (r0 : Memo) × fits_now M.control M.fits m.old r0 (memo_of (readied self.old who) who) }
        ensures died { is_died result ≡ true ↔ (life.old.left ≡ 0) }
        ensures stays { is_died result ≡ true → (self.new ≡ self.old) × (m.new ≡ m.old) × (life.new ≡ life.old) }
        ensures turn { 0 < life.old.left → let t = turn_on (readied self.old who) M.control m.old in (life.new.left + 1 ≡ life.old.left) × (self.new ≡ turned (readied self.old who) t) × (m.new ≡ M.control.after m.old t.seen) × (result ≡ turn_of (M.control.turns m.old t.seen)) }
        ensures fits { 0 < life.old.left → (r0 : Memo) → fits_now M.control M.fits m.old r0 (memo_of (readied self.old who) who) → let t = turn_on (readied self.old who) M.control m.old in Outcome (M.control.turns m.old t.seen) (fits_now M.control M.fits m.new r0 (memo_of self.new who)) (gives_now M.gives m.old r0 (memo_of self.new who)) }
        ensures run { IsRun self.new }
    {
        // for the proof: its turns lead to the words and accounts
        let _ = &self.start;
        if life.left == 0 {
            return Turn::Died;
        }
        life.left -= 1;
        self.turn(who, m)
    }

    /// The word steps of a machine that works for `who`, one after the other, until it has answered or no life is left: then it tells `Died`.
    ///
    /// Where no agent of `who` acts one begins before the first of them, as before a single one.
    #[inline(always)]
    pub fn steps<M: Machine>(&mut self, who: u8, m: &mut M, life: &mut Life) -> Turn<M::Answer>
        requires me { IsOf self.old who M.control m.old }
        requires agent { MayStep self.old who }
        requires fits { (r0 : Memo) × fits_now M.control M.fits m.old r0 (memo_of (readied self.old who) who) }
        ensures stop { record { left = life.new.left; machine = m.new; words = self.new; turn = result } ≡ stop_of M.control who life.old.left m.old self.old }
        ensures run { IsRun self.new }
    {
        note_steps(&self.board, &mut self.place, who, m, &self.words, life.left);
        m.run(&InVector, &mut self.words, life)
    }

    /// The agent of `who` is dead. Where none acts nothing changes, and no turn is added.
    pub fn fall(&mut self, who: u8)
        requires { who < self.old.start.geometry.clients }
        ensures fallen { self.new ≡ after_fall self.old who }
        ensures run { IsRun self.new }
    {
        note_death(&self.board, &mut self.place, who);
    }

    /// Makes the word step that the machine asks for, which takes what it finds.
    #[inline(always)]
    fn turn<M: Machine>(&mut self, who: u8, m: &mut M) -> Turn<M::Answer>
        requires me { IsOf self.old who M.control m.old }
        requires agent { MayStep self.old who }
        requires fits { (r0 : Memo) × fits_now M.control M.fits m.old r0 (memo_of (readied self.old who) who) }
        ensures turn { let t = turn_on (readied self.old who) M.control m.old in (self.new ≡ turned (readied self.old who) t) × (m.new ≡ M.control.after m.old t.seen) × (result ≡ turn_of (M.control.turns m.old t.seen)) }
        ensures run { IsRun self.new }
        ensures learns { let t = turn_on (readied self.old who) M.control m.old in Learns M.control (fits_now M.control M.fits) (gives_now M.gives) m.old t.seen (memo_of (readied self.old who) who) (memo_of self.new who) }
    {
        note(&self.board, &mut self.place, m, &self.words);
        m.act(&InVector, &mut self.words)
    }
}
