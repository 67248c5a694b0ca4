//! Closing a pool.

ghost use Rattle.std.specs.Prelude.{◌≡◌, ◌↔◌, true};
ghost use Rattle.shm_plain.specs.Closings.{IsClosedRun, IsStill};

use crate::pool::PlainPool;
use shm_words::Geometry;
use std::marker::Model;

/// A pool that was closed: nobody is at work on it, and each count is the number of references.
///
/// Only `PlainPool::close` makes one. Contracts see what they saw of the pool, with the turns that led to its words.
#[derive(Drop)]
pub struct PlainClosed {
    pool: PlainPool,
}

impl Model for PlainClosed {
    ghost use Rattle.shm_plain.specs.Pools.{Pool};
    ghost use Rattle.shm_plain.specs.Closings.{IsClosedRun};

    ghost Value = { Pool };

    ghost view = { λ c. c.pool };

    ghost invariant = { λ c. IsClosedRun c.pool };
}

impl PlainClosed {
    /// The sizes of the pool.
    pub fn geometry(&self) -> Geometry
        ensures is { result ≡ self.now.start.geometry }
        ensures end { IsClosedRun self.now }
    {
        self.pool.geometry()
    }

    /// The words of the pool, by address.
    pub fn words(&self) -> &[u64]
        ensures is { result.now ≡ self.now.words }
        ensures end { IsClosedRun self.now }
    {
        self.pool.words()
    }
}

impl PlainPool {
    /// Whether each identity is one that nobody has joined or that is gone, as the words of the statuses say.
    pub fn is_still(&self) -> bool
        ensures { result ≡ true ↔ IsStill self.now }
    {
        let geometry = self.geometry();
        for who in 0..geometry.clients() {
            let status = self.word(geometry.status(who));
            if status != 0 && status != 3 {
                return false;
            }
        }
        true
    }

    /// The pool, closed. It takes no memory and changes no word.
    pub fn close(self) -> PlainClosed
        requires { IsStill self }
        ensures is { result ≡ self }
        ensures end { IsClosedRun result }
    {
        // for the proof: its turns lead to the words and accounts
        self.geometry();
        PlainClosed { pool: self }
    }
}
