//! Calls that are refused, and commands that are cut off, on one thread.

ghost use Rattle.std.specs.Prelude.{◌≡◌, IfSome};
ghost use Rattle.shm_pool.specs.Called.{Rests};
ghost use Rattle.t_pool.specs.Tables.{IsFirst};

use crate::recovering::bury;
use crate::tables::{open, run_line};
use shm_alloc::AllocFault;
use shm_graph::Life;
use shm_pool::{Client, Reply, SharedPool, Vacant};
use shm_ref::Busy;
use shm_script::{Answer, Line};

/// Makes blocks until one isn't made: how many were, and why the next one wasn't. None where no word step was left.
pub fn fill(client: &mut Client, pool: &SharedPool, life: &mut Life) -> Option<(u32, AllocFault)>
    requires pool { client.old.of ≡ pool.now }
    requires rests { Rests client.old }
    ensures same { client.new.of ≡ client.old.of }
    ensures rests { Rests client.new }
{
    for made in 0..100u32 {
        match client.alloc(pool, life, 0, &[7]) {
            Ok(Reply::Done(Ok(_))) => {}
            Ok(Reply::Done(Err(fault))) => return Some((made, fault)),
            _ => return None,
        }
    }
    None
}

/// What a client was told that wanted the latch that another one holds, and made blocks until it was refused; and both tokens, recovered.
#[derive(Drop)]
pub struct Refused {
    pub busy: Busy,
    pub made: u32,
    pub fault: AllocFault,
    pub zero: Vacant,
    pub one: Vacant,
}

/// Joins, and wants the latch 0; none where no word step was left.
fn want_latch(
    pool: &SharedPool,
    token: Vacant,
    life: &mut Life,
) -> Option<(Client, Result<(), Busy>)>
    requires of { token.of ≡ pool.now }
    ensures client { IfSome result (λ r. (r.0.of ≡ pool.now) × Rests r.0) }
{
    let mut client = match token.join(pool, life) {
        Ok(client) => client,
        Err(_) => return None,
    };
    // for the proof: there is an identity 0
    client.client();
    match client.hold(pool, life, 0) {
        Reply::Done(answer) => Some((client, answer)),
        Reply::Died => None,
    }
}

/// Client `one` takes the latch 0, and client `zero` wants it too and makes blocks. Both fall and are recovered.
pub fn refuse_both(pool: &SharedPool, zero: Vacant, one: Vacant) -> Option<Refused>
    requires of { (zero.of ≡ pool.now) × (one.of ≡ pool.now) }
    ensures { IfSome result (λ r. (r.zero.of ≡ pool.now) × (r.one.of ≡ pool.now)) }
{
    let mut life = Life::of(100_000);
    let (holder, held) = want_latch(pool, one, &mut life)?;
    let (mut other, wanted) = want_latch(pool, zero, &mut life)?;
    let (Ok(()), Err(busy)) = (held, wanted) else {
        return None;
    };
    let (made, fault) = fill(&mut other, pool, &mut life)?;
    let Ok(zero) = bury(pool, other.fall(), 100_000) else {
        return None;
    };
    let Ok(one) = bury(pool, holder.fall(), 100_000) else {
        return None;
    };
    Some(Refused {
        busy,
        made,
        fault,
        zero,
        one,
    })
}

/// Joins and puts 77 at the key 5, with so many word steps for the put: what it answered, and what it shows where the client died in it. None where
/// it didn't join.
pub fn put_in(
    pool: &SharedPool,
    token: Vacant,
    steps: u64,
) -> Option<(Option<Answer>, Option<Answer>)>
    requires first { IsFirst pool.now token }
{
    let mut client = match open(pool, token) {
        Ok(client) => client,
        Err(_) => return None,
    };
    let line = Line::Put { key: 5, number: 77 };
    let answer = run_line(&mut client, pool, &mut Life::of(steps), &line);
    if answer.is_none() {
        // it is dead: this answers at once, and what the put shows stays
        client.drain(pool, &mut Life::of(steps));
    }
    Some((answer, client.effect()))
}
