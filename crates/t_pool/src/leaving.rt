//! Clients that make blocks and leave.

ghost use Rattle.std.specs.Prelude.{◌≡◌, IfOk, IfSome};

use shm_alloc::AllocFault;
use shm_count::Made;
use shm_graph::Life;
use shm_pool::{Reply, SharedPool, Stopped, Vacant, alloc_gives};

/// What came of two allocations and a leaving.
#[derive(Drop)]
pub struct TwoMade {
    pub first: Result<Made, AllocFault>,
    pub second: Result<Made, AllocFault>,
    pub left: Result<Vacant, Stopped>,
}

/// Joins, allocates two blocks of so many reference words and these plain words, and leaves; none where the words are too many, or no
/// word step was left for the leaving.
pub fn make_two(
    pool: &SharedPool,
    token: Vacant,
    refs: (u8, u8),
    first: &[u64],
    second: &[u64],
    steps: u64,
) -> Option<TwoMade>
    requires of { token.of ≡ pool.now }
    ensures { IfSome result (λ t. IfOk t.left (λ v. v.of ≡ pool.now)) }
{
    // for the proof: a client that made a block may leave
    alloc_gives();
    let mut life = Life::of(steps);
    let mut client = match token.join(pool, &mut life) {
        Ok(client) => client,
        Err(_) => return None,
    };
    let Ok(Reply::Done(one)) = client.alloc(pool, &mut life, refs.0, first) else {
        return None;
    };
    let Ok(Reply::Done(two)) = client.alloc(pool, &mut life, refs.1, second) else {
        return None;
    };
    let left = client.leave(pool, &mut life);
    Some(TwoMade {
        first: one,
        second: two,
        left,
    })
}
