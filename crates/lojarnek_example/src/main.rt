//! Two clients of a pool on two threads, each with a table of its own; one of them dies, is recovered and joins again.
#![tactic(auto)]

use lojarnek::prelude::*;
use std::thread;
use std::thread::Threads;

/// Puts numbers at the keys 0 to 99, until the client dies: how many puts were answered.
fn fill(client: &mut Client<'_>) -> Result<u32, Error> {
    for key in 0..100 {
        match client.put(key, u64::from(key) + 7) {
            Ok(()) => {}
            Err(Error::Died { .. }) => return Ok(key),
            Err(error) => return Err(error),
        }
    }
    Ok(100)
}

/// Joins, and fills its table within a budget of word steps.
fn work(pool: &Pool, who: u8, steps: u64) -> Result<u32, Error> {
    let mut client = pool.vacant(who)?.join();
    client.set_budget(steps);
    fill(&mut client)
}

/// Both clients at once. The second one's budget is short.
fn both<R: Threads + Sync>(rt: &R, pool: &Pool) -> Result<(u32, u32), Error> {
    let (first, second) = thread::join(rt, || work(pool, 0, u64::MAX), || work(pool, 1, 2_000));
    Ok((first?, second?))
}

/// A client that has died is recovered; the next one of its identity finds its table.
fn again(pool: &Pool) -> Result<Option<u64>, Error> {
    pool.corpse(0)?.recover()?;
    let mut client = pool.corpse(1)?.recover()?.join();
    let found = client.get(0, 5)?;
    client.copy(200, 0, 5)?;
    client.leave()?;
    Ok(found)
}

fn main(rt: HostRuntime) -> Result<(), anyhow::Error> {
    let pool = Pool::builder().clients(2).segments(4).build(rt.alloc())?;
    let (first, second) = both(&rt, &pool)?;
    println!(rt; "answered: {first}, and {}", second < 100)?;
    println!(rt; "found: {:?}", again(&pool)?)?;
    match pool.close(rt.alloc()) {
        Ok(closed) => println!(rt; "closed: {} words", closed.words().len())?,
        Err(stop) => println!(rt; "not closed: {}", stop.error)?,
    }
    Ok(())
}
