//! The latches of clients, under which reference words are set and read.

ghost use Rattle.std.specs.Prelude.{◌≡◌, ◌<◌, ℕ};
ghost use Rattle.lojarnek.specs.{Roots.{IsAtBlocks, IsHolding}, Setting.{HasGiven, HasHeld}, Standing.acts_of};

use shm_graph::Life;
use shm_pool::{Reply, SharedPool};

/// Takes the latch of `author`. While another client holds it, it tries again.
pub(crate) fn take(
    token: &mut shm_pool::Client,
    pool: &SharedPool,
    life: &mut Life,
    author: u8,
) -> Reply<()>
    requires pool { token.old.of ≡ pool.now }
    requires at { IsAtBlocks token.old }
    requires author { author < token.old.of.start.geometry.clients }
    ensures { HasHeld author (acts_of token.old life.old.left) (acts_of token.new life.new.left) result }
{
    'tries: loop {
        match token.hold(pool, life, author) {
            Reply::Done(Ok(())) => return Reply::Done(()),
            Reply::Done(Err(_)) => {}
            Reply::Died => return Reply::Died,
        }
    }
}

/// Gives back the latch that the client holds.
pub(crate) fn give(token: &mut shm_pool::Client, pool: &SharedPool, life: &mut Life) -> Reply<()>
    requires pool { token.old.of ≡ pool.now }
    requires held { (a : ℕ) × IsHolding a token.old }
    ensures { HasGiven (acts_of token.old life.old.left) (acts_of token.new life.new.left) result }
{
    // for the proof: its account stood
    token.client();
    token.release(pool, life)
}
