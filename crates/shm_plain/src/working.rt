//! A pool in a vector is a place of work for all of its identities.

ghost use Rattle.std.specs.Prelude.{◌≡◌, ◌<◌};

use crate::place::Workplace;
use crate::pool::PlainPool;
use shm_graph::{Life, Machine, Turn};

impl Workplace for PlainPool {
    ghost use Rattle.std.specs.Prelude.{◌≡◌, ◌<◌};
    ghost use Rattle.shm_graph.specs.Runs.{account_at};
    ghost use Rattle.shm_plain.specs.Pools.{IsRun, after_fall};
    ghost use Rattle.shm_plain.specs.Turned.{IsTurned};
    ghost use Rattle.shm_plain.specs.Proved.Standing.{named_in, stood_in};

    ghost start = { λ p. p.start };

    ghost account = { λ p c. account_at p.accounts c };

    ghost has = { λ p c. IsRun p × (c < p.start.geometry.clients) };

    ghost stepped = { λ p t q. IsTurned p t q };

    ghost fell = { λ p c q. q ≡ after_fall p c };

    #[inline(always)]
    fn step<M: Machine>(&mut self, who: u8, m: &mut M, life: &mut Life) -> Turn<M::Answer> {
        PlainPool::step(self, who, m, life)
    }

    fn fall(&mut self, who: u8) {
        PlainPool::fall(self, who)
    }

    ghost stood = { λ p c h. stood_in p h.0 c h.1 };

    ghost named = { λ p c h. named_in p h.0 c h.1 };
}
