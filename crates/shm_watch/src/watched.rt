//! A pool in a vector whose turns a watcher is shown.

ghost use Rattle.std.specs.Prelude.{◌≡◌, [], slice_index};
ghost use Rattle.shm_graph.specs.Asks.{at_of, seen_of};
ghost use Rattle.shm_plain.specs.Pools.{Pool as APool, IsRun};
ghost use Rattle.shm_watch.specs.Turns.{shown_of};

use crate::shown::{Shown, Watcher};
use shm_graph::{Ask, Life, Machine, Turn};
use shm_plain::{PlainPool, Workplace};
use shm_words::Geometry;
use std::marker::Model;

/// A pool in a vector whose turns a watcher is shown. Contracts see the pool.
#[derive(Drop)]
pub struct Watched<W: Watcher> {
    pool: PlainPool,
    watcher: W,
}

impl<W: Watcher> Model for Watched<W> {
    ghost use Rattle.shm_plain.specs.Pools.{Pool};
    ghost use Rattle.shm_watch.specs.Turns.{shown_of};

    ghost Value = { Pool };

    ghost view = { λ x. x.pool };

    ghost invariant = { λ x. W.saw x.watcher (shown_of x.pool.turns) };
}

impl<W: Watcher> Watched<W> {
    /// This pool without turns, and a watcher who has been shown none.
    pub fn new(pool: PlainPool, watcher: W) -> Watched<W>
        requires turns { pool.turns ≡ [] }
        requires unseen { W.saw watcher [] }
        ensures { result ≡ pool }
    {
        Watched { pool, watcher }
    }

    /// The sizes of the pool.
    pub fn geometry(&self) -> Geometry
        ensures is { result ≡ self.now.start.geometry }
        ensures run { IsRun self.now }
    {
        self.pool.geometry()
    }

    /// The watcher, who has been shown all turns.
    pub fn watcher(self) -> W
        ensures { W.saw result (shown_of self.turns) }
    {
        self.watcher
    }
}

// the word that a step finds among these, and for a store 0
fn found_by(words: &[u64], ask: Ask) -> u64
    ensures { result ≡ seen_of ask (slice_index words.now (at_of ask)) }
{
    match ask {
        Ask::Load { at } | Ask::Exchange { at, .. } => words.get(at as usize).copied().unwrap_or(0),
        Ask::Store { .. } => 0,
    }
}

impl<W: Watcher> Workplace for Watched<W> {
    ghost use Rattle.std.specs.Prelude.{◌≡◌, ◌<◌};
    ghost use Rattle.shm_graph.specs.Runs.{account_at};
    ghost use Rattle.shm_plain.specs.Pools.{IsRun, after_fall};
    ghost use Rattle.shm_plain.specs.Turned.{IsTurned};
    ghost use Rattle.shm_plain.specs.Proved.Standing.{named_in, stood_in};

    ghost start = { λ p. p.start };

    ghost account = { λ p c. account_at p.accounts c };

    ghost has = { λ p c. IsRun p × (c < p.start.geometry.clients) };

    ghost stepped = { λ p t q. IsTurned p t q };

    ghost fell = { λ p c q. q ≡ after_fall p c };

    #[inline(always)]
    fn step<M: Machine>(&mut self, who: u8, m: &mut M, life: &mut Life) -> Turn<M::Answer> {
        let ask = m.ask();
        let found = found_by(self.pool.words(), ask);
        let lives = life.left > 0;
        let turn = Workplace::step(&mut self.pool, who, m, life);
        if lives {
            let ends = m.finished();
            self.watcher.see(Shown::Word {
                who,
                ask,
                found,
                ends,
            });
        }
        turn
    }

    fn fall(&mut self, who: u8) {
        Workplace::fall(&mut self.pool, who);
        self.watcher.see(Shown::Death { who });
    }

    ghost stood = { λ p c h. stood_in p h.0 c h.1 };

    ghost named = { λ p c h. named_in p h.0 c h.1 };
}
