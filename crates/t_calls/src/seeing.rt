//! What a client may name.

ghost use Rattle.std.specs.Prelude.{◌≡◌, ◌≢◌, ◌<◌, true, IfOk};
ghost use Rattle.shm_graph.specs.Reach.{is_reached};
ghost use Rattle.shm_plain.specs.{Calls.IsAtWork, Pools.memo_of};
ghost use Rattle.shm_count.specs.Roots.{root_word};
ghost use Rattle.t_calls.specs.Known.{IsKnown};

use crate::row::refusal;
use crate::standing::Client;
use shm_plain::PlainPool;
use std::io;

/// What a root of an identity names, or 0.
pub fn names(pool: &PlainPool, who: u8, root: u8) -> u64
    requires work { IsAtWork who pool.now }
    requires root { root < 16 }
    ensures { result ≡ root_word who (memo_of pool.now who) root }
{
    pool.word(pool.geometry().root(who, root))
}

/// Whether a block is one that a root of the client names or that it found.
fn may_name(pool: &PlainPool, client: Client, block: u32) -> bool
    requires known { IsKnown client.known client.who pool.now }
    ensures { result ≡ true → is_reached client.who (memo_of pool.now client.who) block ≡ true }
{
    if block == 0 {
        return false;
    }
    for root in 0..16u8 {
        if names(pool, client.who, root) == u64::from(block) {
            return true;
        }
    }
    block == client.known.found
}

/// Refuses a block that no root of the client names and that it didn't find.
pub fn reach(pool: &PlainPool, client: Client, block: u32) -> io::Result<()>
    requires known { IsKnown client.known client.who pool.now }
    ensures { IfOk result (λ u. is_reached client.who (memo_of pool.now client.who) block ≡ true) }
{
    if may_name(pool, client, block) {
        Ok(())
    } else {
        Err(refusal())
    }
}

/// Refuses a root that names something else.
pub fn rooted(pool: &PlainPool, who: u8, root: u8, block: u32) -> io::Result<()>
    requires work { IsAtWork who pool.now }
    requires root { root < 16 }
    ensures { IfOk result (λ u. root_word who (memo_of pool.now who) root ≡ block) }
{
    if names(pool, who, root) == u64::from(block) {
        Ok(())
    } else {
        Err(refusal())
    }
}

/// Refuses what doesn't hold.
pub fn check(holds: bool) -> io::Result<()>
    ensures { IfOk result (λ u. holds ≡ true) }
{
    if holds { Ok(()) } else { Err(refusal()) }
}

/// Refuses a block that is the other one.
pub fn differ(block: u32, other: u32) -> io::Result<()>
    ensures { IfOk result (λ u. block ≢ other) }
{
    if block != other {
        Ok(())
    } else {
        Err(refusal())
    }
}

/// Refuses an identity that is the other one.
pub fn apart(who: u8, other: u8) -> io::Result<()>
    ensures { IfOk result (λ u. who ≢ other) }
{
    if who != other { Ok(()) } else { Err(refusal()) }
}
